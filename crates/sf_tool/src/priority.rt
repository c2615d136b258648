//! The line of a priority. Nothing here allocates. Each function writes after what was sent before.
ghost use Rattle.std.specs.Prelude.{◌≡◌};
ghost use Rattle.sf_write.specs.Writing.{Follows};
ghost use Rattle.sf_tool.specs.PriorityLine.{incremental_word, priority_line};

use crate::refusing::put_number;
use sf_use::Priority;
use sf_value::Sink;
use sf_write::{Sent, put};

/// Writes the word for a flag, and the end of the line.
fn put_incremental<W: Sink>(incremental: bool, before: Sent, out: &mut W) -> Sent
    ensures { Follows W.state W.send_gives out.old out.new before result
        (incremental_word incremental) }
{
    if incremental {
        put(b"true\n", before, out)
    } else {
        put(b"false\n", before, out)
    }
}

/// Writes the line of a priority (RFC 9218) after what was sent before. Does not allocate.
pub fn put_priority<W: Sink>(priority: Priority, before: Sent, out: &mut W) -> Sent
    ensures { Follows W.state W.send_gives out.old out.new before result (priority_line priority) }
{
    let sent = put(b"urgency ", before, out);
    let sent = put_number(priority.urgency.get() as u64, sent, out);
    let sent = put(b" incremental ", sent, out);
    put_incremental(priority.incremental, sent, out)
}
