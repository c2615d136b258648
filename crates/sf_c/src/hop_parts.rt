//! The hop that a struct describes: whether there is one, and its text, part by part. It does not
//! allocate.
ghost use Rattle.std.specs.Prelude.{◌≡◌, ℕ, ℤ, pos, ◌∷◌, Bool, List, Option, Some, None, Ok, MatchBool, codes};
ghost use Rattle.std.specs.Option.{option_map};
ghost use Rattle.sf_value.specs.Ascii.{semicolon};
ghost use Rattle.sf_value.specs.declared.value.Bare.TheVariants as bare;
ghost use Rattle.sf_value.specs.Grammar.Canonical.{canon_bare};
ghost use Rattle.sf_value.specs.Faults.{bad_place as bad_byte_place};
ghost use Rattle.sf_value.specs.Grammar.Tokens.{IsToken};
ghost use Rattle.sf_value.specs.Grammar.Words.{Every};
ghost use Rattle.sf_write.specs.Writing.{Follows};
ghost use Rattle.sf_use.specs.declared.cache_status.hop.Forward.{Forward};
ghost use Rattle.sf_use.specs.declared.cache_status.hop.Hop.{Hop};
ghost use Rattle.sf_use.specs.declared.cache_status.hop.Name.{Name};
ghost use Rattle.sf_use.specs.declared.cache_status.hop.Outcome.{Outcome};
ghost use Rattle.sf_use.specs.declared.cache_status.hop.Passed.{Passed};
ghost use Rattle.sf_use.specs.CacheStatus.Members.{bare_of, collapsed_value, hit_value, passed_by};
ghost use Rattle.sf_use.specs.CacheStatus.Members.{status_value, stored_value, why_value};
ghost use Rattle.sf_use.specs.CacheStatus.Reasons.{token_of};
ghost use Rattle.sf_c.specs.GivenHops.{AreBytes, GivesFlag, GivesHop, GivesInteger, GivesMaybe};
ghost use Rattle.sf_c.specs.GivenHops.{GivesName, GivesOutcome, GivesPassed, GivesStatus, GivesString};
ghost use Rattle.sf_c.specs.GivenHops.{GivesToken, GivesWhy, hop_text};
ghost use Rattle.sf_c.specs.HopParts.{Decides, SpellsHop, param_text};

use crate::filling::Parts;
use crate::hop_numbers::{
    BYPASS, CONFLICT, FORWARDED, HIT, METHOD, MISS, OTHER, PARTIAL, REQUEST, STALE, UNSAID,
    URI_MISS, VARY_MISS,
};
use crate::hop_value::{status_of, ttl_of};
use crate::hops::HopNode;
use crate::span::Span;
use sf_value::Sink;
use sf_value::classes::{ByteClass, InToken, TokenStart, Visible};
use sf_write::{Sent, put, put_number, put_string};

/// The struct of a hop, and the bytes that its spans are in.
#[derive(Clone, Copy)]
pub(crate) struct GivenHop<'a> {
    /// The struct.
    pub(crate) node: &'a HopNode,
    /// The bytes.
    pub(crate) bytes: &'a [u8],
}

impl<'a> Parts for GivenHop<'a> {
    ghost spells = { SpellsHop };

    /// Whether the bytes of the spans, all of them escaped, are short with the 96 bytes that the
    /// rest of the text has at most. These include the 9 of the longest token that `why` names.
    fn is_short(&self) -> bool {
        let hop = self.node;
        let bytes = hop
            .name
            .length
            .saturating_add(hop.why_token.length)
            .saturating_add(hop.key.length)
            .saturating_add(hop.detail.length);
        bytes <= 48
    }

    fn put<W: Sink>(&self, out: &mut W) -> Sent {
        put_hop(self.node, self.bytes, out)
    }
}

/// Whether the struct describes a hop.
pub(crate) fn is_hop(hop: &HopNode, bytes: &[u8]) -> bool
    ensures { Decides (GivesHop bytes.now hop.now) result }
{
    let name = is_name(bytes, hop.name, hop.name_is_token);
    let outcome = is_outcome(hop, bytes);
    let ttl = is_ttl(hop);
    let key = is_key(hop, bytes);
    let detail = is_detail(hop, bytes);
    name & outcome & ttl & key & detail
}

/// Whether all bytes are of the class.
fn are_all<C: ByteClass>(bytes: &[u8]) -> bool
    ensures { MatchBool result (Every C.test bytes.now) (Every C.test bytes.now → ⊥) }
{
    match bad_place::<C>(bytes) {
        Some(_) => return false,
        None => return true,
    }
}

/// The place of the first byte that is not of the class.
fn bad_place<C: ByteClass>(bytes: &[u8]) -> Option<usize>
    ensures { result ≡ bad_byte_place C.test bytes.now }
{
    bytes.iter().position(|b| !C::has(*b))
}

/// Whether the span is a String.
fn is_string(bytes: &[u8], span: Span) -> bool
    ensures { Decides (GivesString bytes.now span) result }
{
    match span.of(bytes) {
        Some(part) => return are_all::<Visible>(part),
        None => return false,
    }
}

/// Whether the span is a Token.
fn is_token(bytes: &[u8], span: Span) -> bool
    ensures { Decides (GivesToken bytes.now span) result }
{
    match span.of(bytes) {
        Some(part) => return is_word(part),
        None => return false,
    }
}

/// Whether the bytes are a Token.
fn is_word(bytes: &[u8]) -> bool
    ensures { MatchBool result (IsToken bytes.now) (IsToken bytes.now → ⊥) }
{
    match bytes {
        [first, rest @ ..] => {
            if TokenStart::has(*first) {
                return are_all::<InToken>(rest);
            }
            return false;
        }
        [] => return false,
    }
}

/// Whether the span is a name, or a detail.
fn is_name(bytes: &[u8], span: Span, name_is_token: u8) -> bool
    ensures { Decides (GivesName bytes.now span name_is_token) result }
{
    if name_is_token == 0 {
        return is_string(bytes, span);
    }
    is_token(bytes, span)
}

/// Whether the struct says what the cache did.
fn is_outcome(hop: &HopNode, bytes: &[u8]) -> bool
    ensures { Decides (GivesOutcome bytes.now hop.now) result }
{
    match hop.outcome {
        UNSAID => return true,
        HIT => return true,
        FORWARDED => return is_passed(hop, bytes),
        CONFLICT => return is_passed(hop, bytes),
        _ => return false,
    }
}

/// Whether the struct has the parameters of a request that was forwarded.
fn is_passed(hop: &HopNode, bytes: &[u8]) -> bool
    ensures { Decides (GivesPassed bytes.now hop.now) result }
{
    let why = is_why(hop, bytes);
    let status = is_status(hop);
    why & status
}

/// Whether the status code is one, if there is one.
fn is_status(hop: &HopNode) -> bool
    ensures { Decides (GivesMaybe hop.now.has_status (GivesStatus hop.now.status)) result }
{
    match status_of(hop.has_status, hop.status) {
        Ok(_) => return true,
        Err(_) => return false,
    }
}

/// Whether the struct says why the request was forwarded.
fn is_why(hop: &HopNode, bytes: &[u8]) -> bool
    ensures { Decides (GivesWhy bytes.now hop.now) result }
{
    match hop.why {
        BYPASS => return true,
        METHOD => return true,
        URI_MISS => return true,
        VARY_MISS => return true,
        MISS => return true,
        REQUEST => return true,
        STALE => return true,
        PARTIAL => return true,
        OTHER => return is_token(bytes, hop.why_token),
        _ => return false,
    }
}

/// Whether the lifetime is an Integer, if there is one.
fn is_ttl(hop: &HopNode) -> bool
    ensures { Decides (GivesMaybe hop.now.has_ttl (GivesInteger hop.now.ttl)) result }
{
    match ttl_of(hop) {
        Ok(_) => return true,
        Err(_) => return false,
    }
}

/// Whether the cache key is a String, if there is one.
fn is_key(hop: &HopNode, bytes: &[u8]) -> bool
    ensures { Decides (GivesMaybe hop.now.has_key (GivesString bytes.now hop.now.key)) result }
{
    if hop.has_key == 0 {
        return true;
    }
    is_string(bytes, hop.key)
}

/// Whether the detail is a String or a Token, if there is one.
fn is_detail(hop: &HopNode, bytes: &[u8]) -> bool
    ensures { Decides (GivesMaybe hop.now.has_detail
        (GivesName bytes.now hop.now.detail hop.now.detail_is_token)) result }
{
    if hop.has_detail == 0 {
        return true;
    }
    is_name(bytes, hop.detail, hop.detail_is_token)
}

/// Writes the text of the hop that the struct describes.
fn put_hop<W: Sink>(hop: &HopNode, bytes: &[u8], out: &mut W) -> Sent
    ensures { (h : Hop) → GivesHop bytes.now hop.now h
        → Follows W.state W.send_gives out.old out.new (Ok 0) result (hop_text h) }
{
    let name = put_name(bytes, hop.name, hop.name_is_token, Ok(0), out);
    let hit = put_hit(hop, name, out);
    let why = put_why(hop, bytes, hit, out);
    let status = put_status(hop, why, out);
    let ttl = put_ttl(hop, status, out);
    let stored = put_stored(hop, ttl, out);
    let collapsed = put_collapsed(hop, stored, out);
    let key = put_key(hop, bytes, collapsed, out);
    put_detail(hop, bytes, key, out)
}

/// The bytes of a span; none if it is not within these.
#[inline]
fn part<'a>(bytes: &'a [u8], span: Span) -> &'a [u8]
    ensures { (t : List ℕ) → AreBytes bytes.now span t → result.now ≡ t }
{
    match span.of(bytes) {
        Some(part) => return part,
        None => return b"",
    }
}

/// Writes a name, or a detail.
fn put_name<W: Sink>(bytes: &[u8], span: Span, name_is_token: u8, before: Sent, out: &mut W) -> Sent
    ensures { (x : Name) → GivesName bytes.now span name_is_token x
        → Follows W.state W.send_gives out.old out.new before result (canon_bare (bare_of x)) }
{
    let name = part(bytes, span);
    if name_is_token == 0 {
        return put_string(name, before, out);
    }
    put(name, before, out)
}

/// Whether the request was forwarded.
#[inline]
fn is_forwarded(hop: &HopNode) -> bool
    ensures { (bytes : List ℕ) (o : Outcome) → GivesOutcome bytes hop.now o
        → MatchBool result ((p : Passed) × (passed_by o ≡ Some p) × GivesPassed bytes hop.now p)
        (passed_by o ≡ None) }
{
    if hop.outcome == FORWARDED {
        return true;
    }
    if hop.outcome == CONFLICT {
        return true;
    }
    false
}

/// Writes `hit`, if the hop has it.
fn put_hit<W: Sink>(hop: &HopNode, before: Sent, out: &mut W) -> Sent
    ensures { (bytes : List ℕ) (o : Outcome) → GivesOutcome bytes hop.now o
        → Follows W.state W.send_gives out.old out.new before result
        (param_text (codes "hit") (hit_value o)) }
{
    if hop.outcome == HIT {
        return put(b";hit", before, out);
    }
    if hop.outcome == CONFLICT {
        return put(b";hit", before, out);
    }
    before
}

/// Writes `fwd`, if the request was forwarded.
fn put_why<W: Sink>(hop: &HopNode, bytes: &[u8], before: Sent, out: &mut W) -> Sent
    ensures { (o : Outcome) → GivesOutcome bytes.now hop.now o
        → Follows W.state W.send_gives out.old out.new before result
        (param_text (codes "fwd") (why_value (passed_by o))) }
{
    if is_forwarded(hop) {
        let sent = put(b";fwd=", before, out);
        return put(why_part(hop, bytes), sent, out);
    }
    before
}

/// The token of the reason.
fn why_part<'a>(hop: &HopNode, bytes: &'a [u8]) -> &'a [u8]
    ensures { (why : Forward) → GivesWhy bytes.now hop.now why → result.now ≡ token_of why }
{
    match hop.why {
        BYPASS => return b"bypass",
        METHOD => return b"method",
        URI_MISS => return b"uri-miss",
        VARY_MISS => return b"vary-miss",
        MISS => return b"miss",
        REQUEST => return b"request",
        STALE => return b"stale",
        PARTIAL => return b"partial",
        OTHER => return part(bytes, hop.why_token),
        _ => return b"",
    }
}

/// Writes `fwd-status`, if the hop has it.
fn put_status<W: Sink>(hop: &HopNode, before: Sent, out: &mut W) -> Sent
    ensures { (bytes : List ℕ) (o : Outcome) → GivesOutcome bytes hop.now o
        → Follows W.state W.send_gives out.old out.new before result
        (param_text (codes "fwd-status") (status_value (passed_by o))) }
{
    if is_forwarded(hop) {
        return put_code(hop.has_status, hop.status, before, out);
    }
    before
}

/// Writes `fwd-status`, if there is one.
fn put_code<W: Sink>(has_status: u8, status: u16, before: Sent, out: &mut W) -> Sent
    ensures { (x : Option ℕ) → GivesMaybe has_status (GivesStatus status) x
        → Follows W.state W.send_gives out.old out.new before result
        (param_text (codes "fwd-status") (option_map (λ n. bare.Integer (pos n)) x)) }
{
    if has_status == 0 {
        return before;
    }
    let sent = put(b";fwd-status=", before, out);
    put_number(i64::from(status), sent, out)
}

/// Writes `ttl`, if the hop has it.
fn put_ttl<W: Sink>(hop: &HopNode, before: Sent, out: &mut W) -> Sent
    ensures { (x : Option ℤ) → GivesMaybe hop.now.has_ttl (GivesInteger hop.now.ttl) x
        → Follows W.state W.send_gives out.old out.new before result
        (param_text (codes "ttl") (option_map bare.Integer x)) }
{
    if hop.has_ttl == 0 {
        return before;
    }
    let sent = put(b";ttl=", before, out);
    put_number(hop.ttl, sent, out)
}

/// Writes `stored`, if the hop has it.
fn put_stored<W: Sink>(hop: &HopNode, before: Sent, out: &mut W) -> Sent
    ensures { (bytes : List ℕ) (o : Outcome) → GivesOutcome bytes hop.now o
        → Follows W.state W.send_gives out.old out.new before result
        (param_text (codes "stored") (stored_value (passed_by o))) }
{
    if is_forwarded(hop) {
        return put_flag(b";stored", hop.has_stored, hop.stored, before, out);
    }
    before
}

/// Writes `collapsed`, if the hop has it.
fn put_collapsed<W: Sink>(hop: &HopNode, before: Sent, out: &mut W) -> Sent
    ensures { (bytes : List ℕ) (o : Outcome) → GivesOutcome bytes hop.now o
        → Follows W.state W.send_gives out.old out.new before result
        (param_text (codes "collapsed") (collapsed_value (passed_by o))) }
{
    if is_forwarded(hop) {
        return put_flag(b";collapsed", hop.has_collapsed, hop.collapsed, before, out);
    }
    before
}

/// Writes a flag, if there is one, after a semicolon and its key.
fn put_flag<W: Sink>(key: &[u8], has_flag: u8, flag: u8, before: Sent, out: &mut W) -> Sent
    ensures { (k : List ℕ) (x : Option Bool) → key.now ≡ semicolon ∷ k
        → GivesMaybe has_flag (GivesFlag flag) x
        → Follows W.state W.send_gives out.old out.new before result
        (param_text k (option_map bare.Boolean x)) }
{
    if has_flag == 0 {
        return before;
    }
    let sent = put(key, before, out);
    if flag == 0 {
        return put(b"=?0", sent, out);
    }
    sent
}

/// Writes `key`, if the hop has it.
fn put_key<W: Sink>(hop: &HopNode, bytes: &[u8], before: Sent, out: &mut W) -> Sent
    ensures { (x : Option (List ℕ))
        → GivesMaybe hop.now.has_key (GivesString bytes.now hop.now.key) x
        → Follows W.state W.send_gives out.old out.new before result
        (param_text (codes "key") (option_map bare.Text x)) }
{
    if hop.has_key == 0 {
        return before;
    }
    let sent = put(b";key=", before, out);
    put_string(part(bytes, hop.key), sent, out)
}

/// Writes `detail`, if the hop has it.
fn put_detail<W: Sink>(hop: &HopNode, bytes: &[u8], before: Sent, out: &mut W) -> Sent
    ensures { (x : Option Name)
        → GivesMaybe hop.now.has_detail
        (GivesName bytes.now hop.now.detail hop.now.detail_is_token) x
        → Follows W.state W.send_gives out.old out.new before result
        (param_text (codes "detail") (option_map bare_of x)) }
{
    if hop.has_detail == 0 {
        return before;
    }
    let sent = put(b";detail=", before, out);
    put_name(bytes, hop.detail, hop.detail_is_token, sent, out)
}
