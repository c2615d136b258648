//! The member of a Cache-Status field for a hop.
ghost use Rattle.std.specs.Prelude.{◌≡◌, ◌≤◌, ◌+◌, ◌^◌, length, Some};
ghost use Rattle.sf_use.specs.declared.cache_status.hop.Hop.{Hop as HopValue};
ghost use Rattle.sf_c.specs.GivenHops.{GivesHop, WritesHop, hop_text};
ghost use Rattle.sf_c.specs.Statuses.{status_at};
ghost use Rattle.sf_c.specs.declared.status.Status.TheVariants.{OutOfMemory};

use crate::filling::put_parts;
use crate::hop_parts::{GivenHop, is_hop};
use crate::hops::HopNode;
use crate::seed::Seed;
use crate::status::Status;

/// The text of a Cache-Status field whose only member is this hop (RFC 9211 section 2): a field
/// line to be sent after those from the caches nearer the origin. The spans of the hop are in
/// `bytes`. Returns `Answered` if the buffer holds the text; `Short` if it is too small; or
/// `Invalid` if and only if the struct is not a valid hop. Does not allocate; the seed is not used.
#[unsafe(no_mangle)]
pub extern "C" fn sf_hop_text(
    _seed: &Seed,
    hop: &HopNode,
    bytes: &[u8],
    buffer: &mut [u8],
    required: &mut usize,
) -> u32
    // The text of the hop that the struct describes, or why there is none.
    ensures writes { WritesHop (record { buffer = buffer.old; required = required.old })
        (record { buffer = buffer.new; required = required.new }) bytes.now hop.now
        (status_at result) }
    // It is out of memory only for a text that no memory holds.
    ensures long { status_at result ≡ Some OutOfMemory
        → (h : HopValue) → GivesHop bytes.now hop.now h → 2 ^ 64 ≤ length (hop_text h) + 1 }
{
    write(hop, bytes, buffer, required).code()
}

/// As [`sf_hop_text`].
fn write(hop: &HopNode, bytes: &[u8], buffer: &mut [u8], required: &mut usize) -> Status
    ensures writes { WritesHop (record { buffer = buffer.old; required = required.old })
        (record { buffer = buffer.new; required = required.new }) bytes.now hop.now
        (Some result) }
    ensures long { result ≡ OutOfMemory
        → (h : HopValue) → GivesHop bytes.now hop.now h → 2 ^ 64 ≤ length (hop_text h) + 1 }
{
    if is_hop(hop, bytes) {
        return put_parts(&GivenHop { node: hop, bytes }, buffer, required);
    }
    Status::Invalid
}
