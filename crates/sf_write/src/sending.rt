//! Sending bytes to a sink.
ghost use Rattle.std.specs.Prelude.{◌++◌, IfOk, Some, codes, decimal};
ghost use Rattle.std.specs.Fmt.{WritesInCalls};
ghost use Rattle.sf_write.specs.Writing.{Follows, Writes};

use sf_value::Sink;
use std::error::Error;
use std::fmt;

/// The error of a write: a send failed, and nothing was sent after it.
///
/// ```
/// match write_field(&field, &mut out) {
///     Ok(length) => ..
///     Err(WriteFault { written }) => .. // exactly the first `written` bytes were written
/// }
/// ```
#[derive(Clone, Copy, Debug, PartialEq, Eq)]
pub struct WriteFault {
    /// The number of bytes written before, saturating at 2^64 - 1.
    pub written: u64,
}

/// The outcome of writing so far: the number of bytes written, or the error that ended it.
pub type Sent = Result<u64, WriteFault>;

impl fmt::Display for WriteFault {
    ghost output = { λ fault. Some
        (codes "a write failed after " ++ decimal fault.written ++ codes " bytes") };

    fn fmt<W: fmt::Write>(&self, f: &mut fmt::Formatter<W>) -> fmt::Result {
        let written = self.written;
        write!(f, "a write failed after {written} bytes")
    }
}

impl Error for WriteFault {}

/// Sends all bytes, in as many calls as the sink needs to take them. Does not allocate.
///
/// Returns `before` plus the number of bytes, saturating at 2^64 - 1, so that one text can be sent
/// after another. The first send that fails ends the call and is not repeated: the error has the
/// count before that send, which took nothing.
///
/// ```
/// let count = send_all(b"a, ", 0, &mut out)?;
/// let count = send_all(b"b", count, &mut out)?; // 4
/// ```
pub fn send_all<W: Sink>(bytes: &[u8], before: u64, out: &mut W) -> Result<u64, WriteFault>
    ensures writes { Writes (W.state out.old) (W.state out.new) before result bytes.now }
    // Calls of send took the bytes: all that is known of a sink whose bytes no contract can see.
    ensures calls { IfOk result (λ _. WritesInCalls W.send_gives out.old bytes.now out.new) }
{
    let mut rest = bytes;
    let mut written = before;
    while !rest.is_empty() {
        match out.send(rest) {
            Ok(n) => {
                written = written.saturating_add(n as u64);
                let (_, more) = rest.split_at(n);
                rest = more;
            }
            Err(_) => return Err(WriteFault { written }),
        }
    }
    Ok(written)
}

/// Sends all bytes after those sent before, as [`send_all`] does. After an error it sends nothing
/// and returns that error, so that calls can be chained without checking each result.
///
/// ```
/// let sent = put(b"a, ", Ok(0), &mut out);
/// let count = put(b"b", sent, &mut out)?; // 4
/// ```
pub fn put<W: Sink>(bytes: &[u8], before: Sent, out: &mut W) -> Sent
    // The bytes follow what was sent before; after an error nothing is sent, and it is returned.
    ensures { Follows W.state W.send_gives out.old out.new before result bytes.now }
{
    match before {
        Ok(count) => send_all(bytes, count, out),
        Err(_) => before,
    }
}
