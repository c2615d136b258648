//! The lines of the choice of a targeted field. Nothing here allocates. Each function writes after
//! what was sent before.
ghost use Rattle.std.specs.Prelude.{◌≡◌, ◌++◌, codes, decimal};
ghost use Rattle.sf_write.specs.Writing.{Follows};
ghost use Rattle.sf_tool.specs.ChoiceLines.{lifetime_text, flag_line, flag_lines, policy_lines};
ghost use Rattle.sf_tool.specs.ChoiceLines.{field_lines};

use crate::refusing::put_number;
use sf_use::Policy;
use sf_value::Sink;
use sf_write::{Sent, put};

/// Writes a lifetime in seconds, or `none`.
fn put_lifetime<W: Sink>(lifetime: Option<u64>, before: Sent, out: &mut W) -> Sent
    ensures { Follows W.state W.send_gives out.old out.new before result (lifetime_text lifetime) }
{
    match lifetime {
        Some(seconds) => put_number(seconds, before, out),
        None => put(b"none", before, out),
    }
}

/// Writes the line of a directive, if it is set.
fn put_flag<W: Sink>(line: &[u8], is_set: bool, before: Sent, out: &mut W) -> Sent
    ensures { Follows W.state W.send_gives out.old out.new before result
        (flag_line line.now is_set) }
{
    if is_set {
        put(line, before, out)
    } else {
        before
    }
}

/// Writes the lines of the directives that are set.
fn put_flags<W: Sink>(policy: &Policy, before: Sent, out: &mut W) -> Sent
    ensures { Follows W.state W.send_gives out.old out.new before result (flag_lines policy.now) }
{
    let sent = put_flag(b"must-revalidate\n", policy.must_revalidate, before, out);
    let sent = put_flag(b"no-store\n", policy.no_store, sent, out);
    let sent = put_flag(b"no-cache\n", policy.no_cache, sent, out);
    put_flag(b"private\n", policy.is_private, sent, out)
}

/// Writes the lines of a policy (RFC 9213) after what was sent before: its lifetimes in a shared
/// and in a private cache, then the directives that are set. Does not allocate.
pub fn put_policy<W: Sink>(policy: &Policy, before: Sent, out: &mut W) -> Sent
    ensures { Follows W.state W.send_gives out.old out.new before result (policy_lines policy.now) }
{
    let sent = put(b"lifetime shared ", before, out);
    let sent = put_lifetime(policy.lifetime(true), sent, out);
    let sent = put(b"\nlifetime private ", sent, out);
    let sent = put_lifetime(policy.lifetime(false), sent, out);
    let sent = put(b"\n", sent, out);
    put_flags(policy, sent, out)
}

/// Writes the line of the chosen field, which has this name.
pub(crate) fn put_field_line<W: Sink>(index: usize, name: &[u8], before: Sent, out: &mut W) -> Sent
    ensures { Follows W.state W.send_gives out.old out.new before result
        (codes "field " ++ (decimal index ++ (codes " " ++ (name.now ++ codes "\n")))) }
{
    let sent = put(b"field ", before, out);
    let sent = put_number(index as u64, sent, out);
    let sent = put(b" ", sent, out);
    let sent = put(name, sent, out);
    put(b"\n", sent, out)
}

/// Writes the lines of the chosen field, which has this name.
pub(crate) fn put_chosen<W: Sink>(
    index: usize,
    name: &[u8],
    policy: &Policy,
    before: Sent,
    out: &mut W,
) -> Sent
    ensures { Follows W.state W.send_gives out.old out.new before result
        (field_lines index name.now policy.now) }
{
    let sent = put_field_line(index, name, before, out);
    put_policy(policy, sent, out)
}
