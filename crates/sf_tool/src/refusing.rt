//! The lines of refusals. Each function writes after what was sent before.
ghost use Rattle.std.specs.Prelude.{◌≡◌, ◌++◌, Some, decimal, codes};
ghost use Rattle.sf_write.specs.Writing.{Follows};
ghost use Rattle.sf_parse.specs.ByteSets.{runs_of};
ghost use Rattle.sf_tool.specs.Texts.{set_text, found_text, end_text, refusal_line};

use crate::sets::put_set;
use itoa::Buffer;
use sf_value::Sink;
use sf_write::{Sent, hex_digits, put};

/// Writes a number in decimal.
pub(crate) fn put_number<W: Sink>(number: u64, before: Sent, out: &mut W) -> Sent
    ensures { Follows W.state W.send_gives out.old out.new before result (decimal number) }
{
    put(Buffer::new().format(number).as_bytes(), before, out)
}

/// Writes a word, a number and the end of the line.
pub(crate) fn put_count<W: Sink>(word: &[u8], count: u64, before: Sent, out: &mut W) -> Sent
    ensures { Follows W.state W.send_gives out.old out.new before result
        (word.now ++ (decimal count ++ codes "\n")) }
{
    let sent = put(word, before, out);
    let sent = put_number(count, sent, out);
    put(b"\n", sent, out)
}

/// Writes the byte that was found, or that the text ended.
fn put_found<W: Sink>(found: Option<u8>, before: Sent, out: &mut W) -> Sent
    ensures { Follows W.state W.send_gives out.old out.new before result (found_text found) }
{
    match found {
        Some(byte) => {
            let sent = put(b" found 0x", before, out);
            put(&hex_digits(byte), sent, out)
        }
        None => put(b" ended", before, out),
    }
}

/// Writes whether the text could have ended, and the end of the line.
fn put_end<W: Sink>(may_end: bool, before: Sent, out: &mut W) -> Sent
    ensures { Follows W.state W.send_gives out.old out.new before result (end_text may_end) }
{
    if may_end {
        put(b" end\n", before, out)
    } else {
        put(b"\n", before, out)
    }
}

/// Writes the line of a refusal by the grammar. Does not allocate.
pub(crate) fn put_refusal<W: Sink>(
    place: u64,
    found: Option<u8>,
    expected: u128,
    may_end: bool,
    before: Sent,
    out: &mut W,
) -> Sent
    ensures { Follows W.state W.send_gives out.old out.new before result
        (refusal_line place found expected may_end) }
{
    let sent = put(b"refused at ", before, out);
    let sent = put_number(place, sent, out);
    let sent = put_found(found, sent, out);
    let sent = put(b" expected", sent, out);
    let sent = put_set(expected, sent, out);
    put_end(may_end, sent, out)
}
