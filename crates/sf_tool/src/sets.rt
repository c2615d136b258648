//! Sets of bytes, as in the lines of refusals. Each function writes after what was sent before.
ghost use Rattle.std.specs.Prelude.{◌++◌, codes};
ghost use Rattle.sf_write.specs.Writing.{Follows};
ghost use Rattle.sf_parse.specs.ByteSets.{runs_of as runs_in};
ghost use Rattle.sf_tool.specs.Texts.{run_text, set_text};

use sf_parse::runs_of;
use sf_value::Sink;
use sf_write::{Sent, hex_digits, put};

/// Writes a space and a run of the set: its byte, or its first and last byte with a `-` between.
fn put_run<W: Sink>(first: u8, last: u8, before: Sent, out: &mut W) -> Sent
    ensures { Follows W.state W.send_gives out.old out.new before result
        (codes " " ++ run_text (first, last)) }
{
    let [high, low] = hex_digits(first);
    if first == last {
        return put(&[b' ', high, low], before, out);
    }
    let [last_high, last_low] = hex_digits(last);
    put(&[b' ', high, low, b'-', last_high, last_low], before, out)
}

/// Writes the bytes of the set in ascending order, a space before each run.
pub(crate) fn put_set<W: Sink>(set: u128, before: Sent, out: &mut W) -> Sent
    ensures { Follows W.state W.send_gives out.old out.new before result (set_text (runs_in set)) }
{
    let mut sent = before;
    for (first, last) in runs_of(set) {
        sent = put_run(first, last, sent, out);
    }
    sent
}
