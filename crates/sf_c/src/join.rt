//! The lines of a field, joined.
ghost use Rattle.std.specs.Prelude.{◌≡◌, Some};
ghost use Rattle.sf_c.specs.Joining.{PutsLine, separator_of};
ghost use Rattle.sf_c.specs.Statuses.{status_at};

use crate::buffer::put;
use crate::status::Status;

/// The state of joining the lines of a field. In C an `sf_joined`; it begins with zeros.
#[repr(C)]
#[derive(Clone, Copy, Debug, Drop)]
pub struct Joined {
    /// The number of bytes of joined text at the start of the buffer.
    pub length: usize,
    /// The required length of the buffer, if the line did not fit.
    pub required: usize,
    /// 0 before the first line, otherwise 1.
    pub begun: u32,
}

/// Appends a line of a field to those that are joined in the buffer, with a comma and a space
/// between two lines (RFC 9651 section 4.2). Returns `Answered`; `Short` if the buffer is too
/// small, with the required length in `joined.required` and the buffer unchanged; or `BadCall` if
/// `joined.length` is greater than the length of the buffer.
#[unsafe(no_mangle)]
pub extern "C" fn sf_join(line: &[u8], buffer: &mut [u8], joined: &mut Joined) -> u32
    // The line is joined, or the buffer is too small for it, or shorter than `joined.length`.
    ensures { PutsLine (record { buffer = buffer.old; joined = joined.old })
        (record { buffer = buffer.new; joined = joined.new }) line.now (status_at result) }
{
    join(line, buffer, joined).code()
}

/// The bytes before the next line.
fn separator(joined: &Joined) -> &'static [u8]
    ensures { result.now ≡ separator_of joined.now }
{
    if joined.begun == 0 { b"" } else { b", " }
}

/// Appends the line to those that are joined, if the buffer has capacity for it.
fn join(line: &[u8], buffer: &mut [u8], joined: &mut Joined) -> Status
    // The line is joined, or the buffer is too small for it, or shorter than `joined.length`.
    ensures { PutsLine (record { buffer = buffer.old; joined = joined.old })
        (record { buffer = buffer.new; joined = joined.new }) line.now (Some result) }
{
    let comma = separator(joined);
    if joined.length > buffer.len() {
        return Status::BadCall;
    }
    let free = buffer.len() - joined.length;
    if free < comma.len() || free - comma.len() < line.len() {
        joined.required = joined
            .length
            .saturating_add(comma.len())
            .saturating_add(line.len());
        return Status::Short;
    }
    put(buffer, joined.length, comma);
    put(buffer, joined.length + comma.len(), line);
    joined.length += comma.len() + line.len();
    joined.begun = 1;
    Status::Answered
}
