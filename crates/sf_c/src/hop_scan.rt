//! The hops of a Cache-Status field, read from its text in one pass into the caller's buffers. There
//! is one loop for hops that are put and for hops that are counted: where the cursor is called once,
//! it is inlined, so that a hop is not copied.
ghost use Rattle.std.specs.Prelude.{◌≡◌, ◌≢◌, ◌+◌, ◌<◌, ◌≤◌, ◌⊎◌, ℕ, List, [], length, unwrap_or};
ghost use Rattle.std.specs.Prelude.{true};
ghost use Rattle.std.specs.Prelude.{Option as Maybe, Some, IfSome, IsTrue};
ghost use Rattle.std.specs.Option.{option_copied, option_map};
ghost use Rattle.sf_value.specs.declared.dialect.Dialect.{Dialect as Which};
ghost use Rattle.sf_view.specs.Decoding.{HasBytes};
ghost use Rattle.sf_view.specs.Reads.{ShowsText};
ghost use Rattle.sf_use.specs.declared.cache_status.hop.Hop.{Hop};
ghost use Rattle.sf_use.specs.declared.cache_status.hop.Name.{Name};
ghost use Rattle.sf_use.specs.CacheStatus.Hops.{status_of as status_in};
ghost use Rattle.sf_use.specs.CacheStatus.Views.{BorrowsName, ReadsNextHop, ShowsHop, ShowsName};
ghost use Rattle.sf_use.specs.declared.cache_status.view.HopCursor.{HopCursor as HopsLeft};
ghost use Rattle.sf_c.specs.Hops.{bytes_of, detail_bytes, end_of, hop_content, hop_size};
ghost use Rattle.sf_c.specs.Hops.{outcome_number, says_by};
ghost use Rattle.sf_c.specs.declared.hops.HopNode.{HopNode as HopStruct};
ghost use Rattle.sf_c.specs.ScannedHops.{IsCountedTo, IsHopPut, IsPutTo, IsReadTo, IsScannedPath};
ghost use Rattle.sf_c.specs.ScannedHops.{PutsAfter};
ghost use Rattle.sf_c.specs.ScannedHops.{is_token_view, says_in, token_number};

use crate::buffer::put;
use crate::hop_numbers::{
    BYPASS, FORWARDED, HIT, METHOD, MISS, NO_FORWARD, OTHER, PARTIAL, REQUEST, STALE, URI_MISS,
    VARY_MISS,
};
use crate::hops::HopNode;
use crate::span::Span;
use sf_use::{HopCursor, HopStatus, HopView, NameView};
use sf_value::Dialect;
use sf_view::Slice;

/// How many hops and bytes were read, and which hop the response came from.
#[derive(Clone, Copy, Debug, Drop)]
pub(crate) struct PathSizes {
    /// How many hops.
    pub(crate) hops: usize,
    /// How many bytes they have.
    pub(crate) bytes: usize,
    /// The place of the hop that the response came from.
    pub(crate) served: Option<usize>,
}

impl PathSizes {
    /// Whether one of them is greater than that of its buffer.
    pub(crate) fn exceeds(&self, hops: usize, bytes: usize) -> bool
        ensures { IsTrue result → (hops < self.now.hops) ⊎ (bytes < self.now.bytes) }
    {
        hops < self.hops || bytes < self.bytes
    }
}

/// How much was read of a path, and whether the buffers hold it.
#[derive(Clone, Copy, Debug, Drop)]
pub(crate) struct ScannedPath {
    /// How much was read.
    pub(crate) sizes: PathSizes,
    /// Whether all of it is in the buffers; otherwise it was only counted from some hop on.
    pub(crate) is_put: bool,
}

/// The bytes of a part that is absent.
const NO_BYTES: Slice = Slice {
    bytes: b"",
    coded: false,
};

impl ScannedPath {
    /// Nothing was read.
    const NONE: ScannedPath = ScannedPath {
        sizes: PathSizes {
            hops: 0,
            bytes: 0,
            served: None,
        },
        is_put: true,
    };

    /// What was read after one more hop. It is put into the buffers if those before it are there,
    /// and if it fits; otherwise it is counted.
    #[inline(always)]
    fn with(self, hop: HopView, hops: &mut [HopNode], bytes: &mut [u8]) -> Option<ScannedPath>
        requires within { self.is_put ≡ true → self.sizes.bytes ≤ length bytes.old }
        ensures same_hops { length hops.new ≡ length hops.old }
        ensures same_bytes { length bytes.new ≡ length bytes.old }
        ensures read { IfSome result (λ s. (d : Which) (t : List ℕ) (c e : HopsLeft)
            → IsReadTo d t c hops.old bytes.old self → ReadsNextHop c e (Some hop.entry)
            → IsReadTo d t e hops.new bytes.new s) }
    {
        if self.is_put {
            if let Some(sizes) = put_next(self.sizes, hop, hops, bytes) {
                return Some(ScannedPath {
                    sizes,
                    is_put: true,
                });
            }
        }
        count_next(self.sizes, hop)
    }
}

/// Reads the hops of a text in one pass, and puts them into the buffers until one doesn't fit; that
/// one and those after it are only counted. `None` says nothing.
pub(crate) fn scan_hops(
    dialect: Dialect,
    text: &[u8],
    hops: &mut [HopNode],
    bytes: &mut [u8],
) -> Option<ScannedPath>
    ensures same_hops { length hops.new ≡ length hops.old }
    ensures same_bytes { length bytes.new ≡ length bytes.old }
    // In the dialect the text spells a List, and the starts of the buffers describe its hops, or
    // these are their sizes.
    ensures read { IfSome result (IsScannedPath dialect text.now hops.new bytes.new) }
{
    let mut cursor = HopCursor::new_in(dialect, text);
    let mut read = ScannedPath::NONE;
    while let Some(hop) = cursor.next()? {
        read = read.with(hop, hops, bytes)?;
    }
    Some(read)
}

/// Puts one more hop after those in the buffers, and returns the sizes then; `None` if it doesn't
/// fit.
#[inline(always)]
fn put_next(
    sizes: PathSizes,
    hop: HopView,
    hops: &mut [HopNode],
    bytes: &mut [u8],
) -> Option<PathSizes>
    requires within { sizes.bytes ≤ length bytes.old }
    ensures same_hops { length hops.new ≡ length hops.old }
    ensures same_bytes { length bytes.new ≡ length bytes.old }
    ensures put { IfSome result (λ s. (d : Which) (t : List ℕ) (c e : HopsLeft)
        → IsPutTo d t c hops.old bytes.old sizes → ReadsNextHop c e (Some hop.entry)
        → IsPutTo d t e hops.new bytes.new s) }
{
    if sizes.hops >= hops.len() {
        return None;
    }
    let node = put_hop(hop, bytes, sizes.bytes)?;
    hops[sizes.hops] = node;
    Some(PathSizes {
        hops: sizes.hops + 1,
        bytes: node.detail.end(),
        served: last_hit(sizes.served, sizes.hops, node.outcome),
    })
}

/// Counts one more hop. It is not inlined, so that a path that fits doesn't pay for it.
#[inline(never)]
fn count_next(sizes: PathSizes, hop: HopView) -> Option<ScannedPath>
    // Whatever the buffers hold.
    ensures { IfSome result (λ s. (d : Which) (t : List ℕ) (c e : HopsLeft)
        (nodes : List HopStruct) (bytes : List ℕ) → IsCountedTo d t c sizes
        → ReadsNextHop c e (Some hop.entry) → IsReadTo d t e nodes bytes s) }
{
    Some(ScannedPath {
        sizes: with_hop(sizes, hop)?,
        is_put: false,
    })
}

/// The sizes with those of one more hop.
#[inline]
fn with_hop(sizes: PathSizes, hop: HopView) -> Option<PathSizes>
    ensures hops { IfSome result (λ s. s.hops ≡ sizes.hops + 1) }
    // Whatever hop is borrowed, its bytes count.
    ensures bytes { (h : Hop) → ShowsHop hop.entry h
        → IfSome result (λ s. s.bytes ≡ sizes.bytes + hop_size (hop_content h)) }
    ensures hit { (h : Hop) → ShowsHop hop.entry h → outcome_number h.outcome ≡ 1
        → IfSome result (λ s. s.served ≡ Some sizes.hops) }
    ensures other { (h : Hop) → ShowsHop hop.entry h → outcome_number h.outcome ≢ 1
        → IfSome result (λ s. s.served ≡ sizes.served) }
{
    let params = hop.params;
    let name = name_slice(hop.name).decoded_len();
    let why_token = token_slice(params.fwd).decoded_len();
    let key = text_slice(params.key).decoded_len();
    let detail = detail_slice(params.detail).decoded_len();
    let own = name
        .checked_add(why_token)?
        .checked_add(key)?
        .checked_add(detail)?;
    Some(PathSizes {
        hops: sizes.hops.checked_add(1)?,
        bytes: sizes.bytes.checked_add(own)?,
        served: last_hit(sizes.served, sizes.hops, outcome_of(hop)),
    })
}

/// The place of the last hit, after a hop at this place with this outcome.
#[inline]
fn last_hit(last: Option<usize>, place: usize, outcome: u16) -> Option<usize>
    ensures hit { outcome ≡ 1 → result ≡ Some place }
    ensures other { outcome ≢ 1 → result ≡ last }
{
    if outcome == HIT { Some(place) } else { last }
}

/// Puts the bytes of a hop after so many of the buffer; `None` if it is too small.
#[inline(always)]
fn put_hop(hop: HopView, bytes: &mut [u8], used: usize) -> Option<HopNode>
    requires used { used ≤ length bytes.old }
    ensures same { length bytes.new ≡ length bytes.old }
    ensures within { IfSome result (λ node. end_of node.detail ≤ length bytes.new) }
    // Whatever hop is borrowed, the struct describes it.
    ensures put { IfSome result (λ node. (h : Hop) → ShowsHop hop.entry h
        → IsHopPut bytes.old bytes.new used node h) }
{
    let params = hop.params;
    let name = put_slice(name_slice(hop.name), bytes, used)?;
    let why_token = put_slice(token_slice(params.fwd), bytes, name.end())?;
    let key = put_slice(text_slice(params.key), bytes, why_token.end())?;
    let detail = put_slice(detail_slice(params.detail), bytes, key.end())?;
    Some(node_of(hop, name, why_token, key, detail))
}

/// Puts the bytes of a slice, decoded if they are coded, after so many of the buffer; `None` if it
/// is too small.
#[inline(always)]
fn put_slice(slice: Slice, bytes: &mut [u8], used: usize) -> Option<Span>
    requires used { used ≤ length bytes.old }
    ensures same { length bytes.new ≡ length bytes.old }
    ensures within { IfSome result (λ span. end_of span ≤ length bytes.new) }
    // Whatever bytes the slice is of, they are after those that were used.
    ensures put { IfSome result (λ span. (d : Which) (t : List ℕ) → HasBytes d slice.entry t
        → PutsAfter bytes.old bytes.new used t span) }
{
    if slice.coded {
        let (_, free) = bytes.split_at_mut(used);
        let length = slice.decode_to(free)?;
        return Some(Span { at: used, length });
    }
    let length = slice.bytes.len();
    if length == 0 {
        return Some(Span {
            at: used,
            length: 0,
        });
    }
    if length > bytes.len() - used {
        return None;
    }
    put(bytes, used, slice.bytes);
    Some(Span { at: used, length })
}

/// The bytes of a name.
#[inline]
fn name_slice(name: NameView) -> Slice
    ensures { (d : Which) (n : Name) → BorrowsName d name.entry n → HasBytes d result (bytes_of n) }
{
    match name {
        NameView::Text(slice) => return slice,
        NameView::Token(bytes) => return Slice {
            bytes,
            coded: false,
        },
    }
}

/// The bytes of a detail; none if there is none.
#[inline]
fn detail_slice(detail: Option<NameView>) -> Slice
    ensures { (d : Which) (n : Maybe Name) → ShowsName d detail.entry n
        → HasBytes d result (detail_bytes n) }
{
    match detail {
        Some(name) => return name_slice(name),
        None => return NO_BYTES,
    }
}

/// The bytes of a String; none if there is none.
#[inline]
fn text_slice(text: Option<Slice>) -> Slice
    ensures { (d : Which) (t : Maybe (List ℕ)) → ShowsText d text.entry t
        → HasBytes d result (unwrap_or t []) }
{
    match text {
        Some(slice) => return slice,
        None => return NO_BYTES,
    }
}

/// The bytes of a Token; none if there is none.
#[inline]
fn token_slice(token: Option<&[u8]>) -> Slice
    ensures { (d : Which) → HasBytes d result (unwrap_or (option_copied token.entry) []) }
{
    match token {
        Some(bytes) => return Slice {
            bytes,
            coded: false,
        },
        None => return NO_BYTES,
    }
}

/// The struct of a hop whose bytes are in these spans.
#[inline(always)]
fn node_of(hop: HopView, name: Span, why_token: Span, key: Span, detail: Span) -> HopNode
    ensures name { result.name ≡ name }
    ensures why_token { result.why_token ≡ why_token }
    ensures key { result.key ≡ key }
    ensures detail { result.detail ≡ detail }
    ensures says { says_by result ≡ says_in hop.entry }
{
    let params = hop.params;
    let status = status_of(params.fwd.and(params.fwd_status));
    let stored = params.fwd.and(params.stored);
    let collapsed = params.fwd.and(params.collapsed);
    HopNode {
        name,
        why_token,
        key,
        detail,
        ttl: params.ttl.unwrap_or(0),
        outcome: outcome_of(hop),
        why: why_number(params.fwd),
        status: status.unwrap_or(0),
        has_status: u8::from(status.is_some()),
        stored: u8::from(stored.unwrap_or(false)),
        has_stored: u8::from(stored.is_some()),
        collapsed: u8::from(collapsed.unwrap_or(false)),
        has_collapsed: u8::from(collapsed.is_some()),
        has_ttl: u8::from(params.ttl.is_some()),
        has_key: u8::from(params.key.is_some()),
        has_detail: u8::from(params.detail.is_some()),
        name_is_token: u8::from(is_token(hop.name)),
        detail_is_token: u8::from(params.detail.is_some_and(|detail| is_token(detail))),
    }
}

/// What the cache did, as a number.
#[inline(always)]
fn outcome_of(hop: HopView) -> u16
    ensures { result ≡ (says_in hop.entry).outcome }
{
    let is_hit = hop.params.hit.unwrap_or(false);
    HIT * u16::from(is_hit) + FORWARDED * u16::from(hop.params.fwd.is_some())
}

/// Whether a name is a Token.
#[inline]
fn is_token(name: NameView) -> bool
    ensures { result ≡ is_token_view name.entry }
{
    matches!(name, NameView::Token(_))
}

/// A number as a status code, if it has three digits.
#[inline]
fn status_of(number: Option<i64>) -> Option<u16>
    ensures { result ≡ status_in number }
{
    let code = u16::try_from(number?).ok()?;
    Some(HopStatus::new(code).ok()?.get())
}

/// The number of the reason of a token; 0 if there is none.
fn why_number(token: Option<&[u8]>) -> u16
    ensures { result ≡ unwrap_or (option_map token_number (option_copied token.entry)) 0 }
{
    match token {
        Some(token) => return reason_number(token),
        None => return NO_FORWARD,
    }
}

/// The number of the reason of a token, from 1 on.
fn reason_number(token: &[u8]) -> u16
    ensures { result ≡ token_number token.now }
{
    match token {
        b"bypass" => BYPASS,
        b"method" => METHOD,
        b"uri-miss" => URI_MISS,
        b"vary-miss" => VARY_MISS,
        b"miss" => MISS,
        b"request" => REQUEST,
        b"stale" => STALE,
        b"partial" => PARTIAL,
        _ => OTHER,
    }
}
