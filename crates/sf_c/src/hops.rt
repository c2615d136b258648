//! The hops of a path (RFC 9211 section 2) as flat structs.
ghost use Rattle.std.specs.Prelude.{◌≡◌, ◌≤◌, ◌++◌, [], ◌∷◌, pos, length, map, unwrap_or, IfOk};
ghost use Rattle.sf_use.specs.CacheStatus.Members.{passed_by};
ghost use Rattle.sf_c.specs.Hops.{bytes_of as bytes_of_name, detail_bytes as bytes_of_detail};
ghost use Rattle.sf_c.specs.Hops.{is_token as is_name_token, detail_is_token as is_detail_token};
ghost use Rattle.sf_c.specs.Hops.{outcome_number as number_of_outcome};
ghost use Rattle.sf_c.specs.Hops.{reason_number as number_of_reason, why_number as number_of_why};
ghost use Rattle.sf_c.specs.Hops.{why_token as token_of_why, hops_size, hop_content, says_by};
ghost use Rattle.sf_c.specs.Hops.{says_of, HopsAtStart, PutsSpan};

use crate::buffer::put;
use crate::hop_numbers::{
    BYPASS, CONFLICT, FORWARDED, HIT, METHOD, MISS, NO_FORWARD, OTHER, PARTIAL, REQUEST, STALE,
    UNSAID, URI_MISS, VARY_MISS,
};
use crate::span::Span;
use sf_use::{Forward, Hop, HopStatus, Name, Outcome};
use sf_value::{Int, OutOfMemory, Text};
use std::alloc::Global;
use std::marker::Model;

/// A cache on the path of a response, and what it did (RFC 9211 section 2). In C an `sf_hop`.
#[repr(C)]
#[derive(Clone, Copy, Debug, Drop)]
pub struct HopNode {
    /// The cache's name.
    pub name: Span,
    /// `fwd`: its token (section 2.2); empty if it is absent.
    pub why_token: Span,
    /// `key`: the cache key (section 2.7); empty if it is absent.
    pub key: Span,
    /// `detail`: further information from the cache (section 2.8); empty if it is absent.
    pub detail: Span,
    /// `ttl`: the remaining freshness lifetime in seconds (section 2.4); 0 if it is absent.
    pub ttl: i64,
    /// What it did: 1 for a hit, 2 if it forwarded the request (`fwd` is present), 3 for both, and
    /// 0 for neither.
    pub outcome: u16,
    /// `fwd`: why it forwarded the request: 0 if it is absent, then from 1 on `bypass`, `method`,
    /// `uri-miss`, `vary-miss`, `miss`, `request`, `stale`, `partial`, and 9 for another token.
    pub why: u16,
    /// `fwd-status`: the status code of the next hop's response (section 2.3); 0 if it is absent.
    pub status: u16,
    /// 1 if `fwd-status` is present, otherwise 0.
    pub has_status: u8,
    /// `stored`: 1 if the cache stored the response (section 2.5), otherwise 0.
    pub stored: u8,
    /// 1 if `stored` is present, otherwise 0.
    pub has_stored: u8,
    /// `collapsed`: 1 if the request was collapsed with others (section 2.6), otherwise 0.
    pub collapsed: u8,
    /// 1 if `collapsed` is present, otherwise 0.
    pub has_collapsed: u8,
    /// 1 if `ttl` is present, otherwise 0.
    pub has_ttl: u8,
    /// 1 if `key` is present, otherwise 0.
    pub has_key: u8,
    /// 1 if `detail` is present, otherwise 0.
    pub has_detail: u8,
    /// 1 if the name is a Token, 0 if it is a String.
    pub name_is_token: u8,
    /// 1 if `detail` is a Token, otherwise 0.
    pub detail_is_token: u8,
}

/// The structs of hops, and the bytes that they point into. Contracts see what the structs
/// describe.
#[derive(Drop)]
pub(crate) struct FlatPath {
    hops: Vec<HopNode>,
    bytes: Vec<u8>,
}

impl Model for FlatPath {
    ghost use Rattle.std.specs.Prelude.{List, map};
    ghost use Rattle.sf_c.specs.Hops.{HopContent, hop_content_by, HopsHoldUp};

    ghost Value = { List HopContent };

    ghost view = { λ f. map (hop_content_by f.bytes.items) f.hops.items };

    ghost invariant = { λ f. HopsHoldUp f.bytes.items f.hops.items };
}

impl FlatPath {
    /// No hops.
    fn new(alloc: Global) -> FlatPath
        ensures { result ≡ [] }
    {
        FlatPath {
            hops: Vec::new(alloc),
            bytes: Vec::new(alloc),
        }
    }

    /// How many hops there are.
    pub(crate) fn count(&self) -> usize
        ensures { result ≡ length self.now }
    {
        self.hops.as_slice().len()
    }

    /// How many bytes they have.
    pub(crate) fn size(&self) -> usize
        ensures { result ≡ hops_size self.now }
    {
        self.bytes.as_slice().len()
    }

    /// Puts the hops and the bytes at the start of buffers that are long enough.
    pub(crate) fn write(&self, hops: &mut [HopNode], bytes: &mut [u8])
        requires hops { length self.now ≤ length hops.old }
        requires bytes { hops_size self.now ≤ length bytes.old }
        ensures same_hops { length hops.new ≡ length hops.old }
        ensures same_bytes { length bytes.new ≡ length bytes.old }
        // The starts of the buffers describe the hops.
        ensures hops { HopsAtStart self.now hops.new bytes.new }
    {
        put(hops, 0, self.hops.as_slice());
        put(bytes, 0, self.bytes.as_slice());
    }

    /// The path with one more hop at its end.
    fn with(self, hop: &Hop) -> Result<FlatPath, OutOfMemory>
        ensures { IfOk result (λ path. path ≡ self ++ hop_content hop.now ∷ []) }
    {
        let FlatPath {
            mut hops,
            mut bytes,
        } = self;
        let name = put_span(&mut bytes, bytes_of(&hop.name))?;
        let why = put_span(&mut bytes, why_token(&hop.outcome))?;
        let key = put_span(&mut bytes, key_bytes(&hop.key))?;
        let detail = put_span(&mut bytes, detail_bytes(&hop.detail))?;
        hops.push(node_of(hop, name, why, key, detail))?;
        Ok(FlatPath { hops, bytes })
    }
}

/// Puts a text after the bytes, and returns its span.
fn put_span(bytes: &mut Vec<u8>, text: &[u8]) -> Result<Span, OutOfMemory>
    // The text is after the bytes that were there, and the span is that of it.
    ensures { IfOk result (λ span. PutsSpan bytes.old.items bytes.new.items text.now span) }
{
    let at = bytes.as_slice().len();
    bytes.extend_from_slice(text)?;
    Ok(Span {
        at,
        length: text.len(),
    })
}

/// The bytes of a name.
fn bytes_of(name: &Name) -> &[u8]
    ensures { result.now ≡ bytes_of_name name.now }
{
    match name {
        Name::Text(text) => text.as_bytes(),
        Name::Token(token) => token.as_bytes(),
    }
}

/// Whether a name is a Token.
fn is_token(name: &Name) -> bool
    ensures { result ≡ is_name_token name.now }
{
    matches!(name, Name::Token(_))
}

/// The bytes of a cache key; none if there is none.
fn key_bytes(key: &Option<Text>) -> &[u8]
    ensures { result.now ≡ unwrap_or key.now [] }
{
    match key {
        Some(key) => key.as_bytes(),
        None => b"",
    }
}

/// The bytes of a detail; none if there is none.
fn detail_bytes(detail: &Option<Name>) -> &[u8]
    ensures { result.now ≡ bytes_of_detail detail.now }
{
    match detail {
        Some(detail) => bytes_of(detail),
        None => b"",
    }
}

/// Whether there is a detail that is a Token.
fn detail_is_token(detail: &Option<Name>) -> bool
    ensures { result ≡ is_detail_token detail.now }
{
    match detail {
        Some(detail) => is_token(detail),
        None => false,
    }
}

/// The token of the reason for forwarding; empty if there is none.
fn why_token(outcome: &Outcome) -> &[u8]
    ensures { result.now ≡ token_of_why (passed_by outcome.now) }
{
    match outcome.passed() {
        Some(passed) => passed.why.as_bytes(),
        None => b"",
    }
}

/// The number of what the cache did.
fn outcome_number(outcome: &Outcome) -> u16
    ensures { result ≡ number_of_outcome outcome.now }
{
    match outcome {
        Outcome::Unsaid => UNSAID,
        Outcome::Hit => HIT,
        Outcome::Forwarded(_) => FORWARDED,
        Outcome::Conflict(_) => CONFLICT,
    }
}

/// The number of a reason, from 1 on.
fn reason_number(why: &Forward) -> u16
    ensures { result ≡ number_of_reason why.now }
{
    match why {
        Forward::Bypass => BYPASS,
        Forward::Method => METHOD,
        Forward::UriMiss => URI_MISS,
        Forward::VaryMiss => VARY_MISS,
        Forward::Miss => MISS,
        Forward::Request => REQUEST,
        Forward::Stale => STALE,
        Forward::Partial => PARTIAL,
        Forward::Other(_) => OTHER,
    }
}

/// The number of the reason for forwarding; 0 if there is none.
fn why_number(outcome: &Outcome) -> u16
    ensures { result ≡ number_of_why (passed_by outcome.now) }
{
    match outcome.passed() {
        Some(passed) => reason_number(&passed.why),
        None => NO_FORWARD,
    }
}

/// A status code; 0 if there is none.
fn code_of(status: Option<HopStatus>) -> u16
    ensures { result ≡ unwrap_or status 0 }
{
    match status {
        Some(status) => status.get(),
        None => 0,
    }
}

/// The seconds of a `ttl`; 0 if there is none.
fn seconds_of(ttl: Option<Int>) -> i64
    ensures { result ≡ unwrap_or ttl (pos 0) }
{
    match ttl {
        Some(ttl) => ttl.get(),
        None => 0,
    }
}

/// The struct of a hop whose bytes are in these spans.
fn node_of(hop: &Hop, name: Span, why_token: Span, key: Span, detail: Span) -> HopNode
    ensures name { result.name ≡ name }
    ensures why_token { result.why_token ≡ why_token }
    ensures key { result.key ≡ key }
    ensures detail { result.detail ≡ detail }
    ensures says { says_by result ≡ says_of hop.now }
{
    let status = hop.outcome.status();
    let stored = hop.outcome.stored();
    let collapsed = hop.outcome.collapsed();
    HopNode {
        name,
        why_token,
        key,
        detail,
        ttl: seconds_of(hop.ttl),
        outcome: outcome_number(&hop.outcome),
        why: why_number(&hop.outcome),
        status: code_of(status),
        has_status: u8::from(status.is_some()),
        stored: u8::from(stored.unwrap_or(false)),
        has_stored: u8::from(stored.is_some()),
        collapsed: u8::from(collapsed.unwrap_or(false)),
        has_collapsed: u8::from(collapsed.is_some()),
        has_ttl: u8::from(hop.ttl.is_some()),
        has_key: u8::from(hop.key.is_some()),
        has_detail: u8::from(hop.detail.is_some()),
        name_is_token: u8::from(is_token(&hop.name)),
        detail_is_token: u8::from(detail_is_token(&hop.detail)),
    }
}

/// The structs of hops.
pub(crate) fn flatten_hops(alloc: Global, hops: &[Hop]) -> Result<FlatPath, OutOfMemory>
    ensures { IfOk result (λ path. path ≡ map hop_content hops.now) }
{
    let mut path = FlatPath::new(alloc);
    for hop in hops {
        path = path.with(hop)?;
    }
    Ok(path)
}
