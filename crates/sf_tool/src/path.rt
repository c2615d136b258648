//! The lines of a path of caches. Nothing here allocates. Each function writes after what was sent
//! before.
ghost use Rattle.std.specs.Prelude.{◌++◌};
ghost use Rattle.sf_use.specs.CacheStatus.Reasons.{token_of};
ghost use Rattle.sf_write.specs.Writing.{Follows};
ghost use Rattle.sf_tool.specs.PathLines.{name_text, outcome_text, part, boolean_text};
ghost use Rattle.sf_tool.specs.PathLines.{status_part, ttl_part, key_part, detail_part, parts};
ghost use Rattle.sf_tool.specs.PathLines.{hop_line, hop_lines, served_line, path_lines};

use crate::refusing::{put_count, put_number};
use sf_use::{CachePath, Forward, Hop, Name, Outcome};
use sf_value::{Bare, Sink};
use sf_write::{Sent, put, put_bare, put_text};

/// Writes a name, as its canonical text.
fn put_name<W: Sink>(name: &Name, before: Sent, out: &mut W) -> Sent
    ensures { Follows W.state W.send_gives out.old out.new before result (name_text name.now) }
{
    match name {
        Name::Text(text) => put_text(text, before, out),
        Name::Token(token) => put(token.as_bytes(), before, out),
    }
}

/// Writes a word, and the token of a reason.
fn put_reason<W: Sink>(word: &[u8], why: &Forward, before: Sent, out: &mut W) -> Sent
    ensures { Follows W.state W.send_gives out.old out.new before result
        (word.now ++ token_of why.now) }
{
    let sent = put(word, before, out);
    put(why.as_bytes(), sent, out)
}

/// Writes what the cache did.
fn put_outcome<W: Sink>(outcome: &Outcome, before: Sent, out: &mut W) -> Sent
    ensures { Follows W.state W.send_gives out.old out.new before result
        (outcome_text outcome.now) }
{
    match outcome {
        Outcome::Hit => put(b" hit", before, out),
        Outcome::Forwarded(passed) => put_reason(b" forwarded ", &passed.why, before, out),
        Outcome::Conflict(passed) => put_reason(b" conflict ", &passed.why, before, out),
        Outcome::Unsaid => put(b" unsaid", before, out),
    }
}

/// Writes the status with its label, if it is present, as the functions below do for other parts.
fn put_status<W: Sink>(outcome: &Outcome, before: Sent, out: &mut W) -> Sent
    ensures { Follows W.state W.send_gives out.old out.new before result (status_part outcome.now) }
{
    match outcome.status() {
        Some(status) => {
            let sent = put(b" status=", before, out);
            put_number(status.get() as u64, sent, out)
        }
        None => before,
    }
}

/// Writes a flag after its label.
fn put_flag<W: Sink>(label: &[u8], flag: Option<bool>, before: Sent, out: &mut W) -> Sent
    ensures { Follows W.state W.send_gives out.old out.new before result
        (part label.now boolean_text flag) }
{
    match flag {
        Some(value) => {
            let sent = put(label, before, out);
            put_bare(&Bare::Boolean(value), sent, out)
        }
        None => before,
    }
}

/// Writes the lifetime in seconds.
fn put_ttl<W: Sink>(hop: &Hop, before: Sent, out: &mut W) -> Sent
    ensures { Follows W.state W.send_gives out.old out.new before result (ttl_part hop.now) }
{
    match hop.ttl {
        Some(seconds) => {
            let sent = put(b" ttl=", before, out);
            put_bare(&Bare::Integer(seconds), sent, out)
        }
        None => before,
    }
}

/// Writes the cache key.
fn put_key<W: Sink>(hop: &Hop, before: Sent, out: &mut W) -> Sent
    ensures { Follows W.state W.send_gives out.old out.new before result (key_part hop.now) }
{
    match &hop.key {
        Some(key) => {
            let sent = put(b" key=", before, out);
            put_text(key, sent, out)
        }
        None => before,
    }
}

/// Writes the detail.
fn put_detail<W: Sink>(hop: &Hop, before: Sent, out: &mut W) -> Sent
    ensures { Follows W.state W.send_gives out.old out.new before result (detail_part hop.now) }
{
    match &hop.detail {
        Some(detail) => {
            let sent = put(b" detail=", before, out);
            put_name(detail, sent, out)
        }
        None => before,
    }
}

/// Writes the parts after the outcome, and the end of the line.
fn put_parts<W: Sink>(hop: &Hop, before: Sent, out: &mut W) -> Sent
    ensures { Follows W.state W.send_gives out.old out.new before result (parts hop.now) }
{
    let sent = put_status(&hop.outcome, before, out);
    let sent = put_flag(b" stored=", hop.outcome.stored(), sent, out);
    let sent = put_flag(b" collapsed=", hop.outcome.collapsed(), sent, out);
    let sent = put_ttl(hop, sent, out);
    let sent = put_key(hop, sent, out);
    let sent = put_detail(hop, sent, out);
    put(b"\n", sent, out)
}

/// Writes the line of the hop at this index.
fn put_hop<W: Sink>(place: usize, hop: &Hop, before: Sent, out: &mut W) -> Sent
    ensures { Follows W.state W.send_gives out.old out.new before result (hop_line place hop.now) }
{
    let sent = put(b"hop ", before, out);
    let sent = put_number(place as u64, sent, out);
    let sent = put(b" ", sent, out);
    let sent = put_name(&hop.name, sent, out);
    let sent = put_outcome(&hop.outcome, sent, out);
    put_parts(hop, sent, out)
}

/// Writes the lines of the hops, numbered from 0.
fn put_hops<W: Sink>(hops: &[Hop], before: Sent, out: &mut W) -> Sent
    ensures { Follows W.state W.send_gives out.old out.new before result (hop_lines 0 hops.now) }
{
    let mut sent = before;
    for (place, hop) in hops.iter().enumerate() {
        sent = put_hop(place, hop, sent, out);
    }
    sent
}

/// Writes the last line: the number of the hop that served the response, or `none`.
fn put_served<W: Sink>(served: Option<usize>, before: Sent, out: &mut W) -> Sent
    ensures { Follows W.state W.send_gives out.old out.new before result (served_line served) }
{
    match served {
        Some(place) => put_count(b"served ", place as u64, before, out),
        None => put(b"served none\n", before, out),
    }
}

/// Writes the lines of a path (RFC 9211) after what was sent before: one for each hop, and which
/// hop served the response. Does not allocate.
pub fn put_path<W: Sink>(path: &CachePath, before: Sent, out: &mut W) -> Sent
    ensures { Follows W.state W.send_gives out.old out.new before result (path_lines path.now) }
{
    let sent = put_hops(path.hops(), before, out);
    put_served(path.served_by(), sent, out)
}
