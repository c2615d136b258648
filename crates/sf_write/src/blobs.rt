//! Byte Sequences (RFC 9651 section 4.1.8): base64 (RFC 4648 section 4), padded.
ghost use Rattle.std.specs.Prelude.{◌∷◌};
ghost use Rattle.sf_value.specs.Ascii.{colon};
ghost use Rattle.sf_value.specs.Grammar.Canonical.{canon_base64};
ghost use Rattle.sf_write.specs.Writing.{Follows};

use crate::sending::{Sent, put};
use base64::engine::general_purpose::STANDARD;
use sf_value::Sink;

/// The number of bytes that are encoded at once: 64 groups of three.
const BLOCK: usize = 192;

/// The number of characters of a block in base64.
const ENCODED: usize = 256;

/// Writes a Byte Sequence (RFC 9651 section 4.1.8) after what was sent before, as [`put`] does: its
/// base64 between colons. Does not allocate.
///
/// ```
/// let count = put_blob(b"\x01\x02", Ok(0), &mut out)?; // 6: :AQI=:
/// ```
pub fn put_blob<W: Sink>(bytes: &[u8], before: Sent, out: &mut W) -> Sent
    ensures { Follows W.state W.send_gives out.old out.new before result
        (colon ∷ canon_base64 bytes.now) }
{
    let sent = put(b":", before, out);
    put_base64(bytes, sent, out)
}

/// Writes the rest of a Byte Sequence after whole groups of its base64: the base64 of its other
/// bytes, in blocks of 256 characters, and the colon. Does not allocate. It is not inlined, so that
/// only Byte Sequences pay for clearing the stack of a block.
///
/// ```
/// let sent = put(b":AQID", Ok(0), &mut out);
/// let count = put_base64(b"\x04", sent, &mut out)?; // 10: :AQIDBA==:
/// ```
#[inline(never)]
pub fn put_base64<W: Sink>(bytes: &[u8], before: Sent, out: &mut W) -> Sent
    ensures { Follows W.state W.send_gives out.old out.new before result (canon_base64 bytes.now) }
{
    let mut count = before;
    let mut rest = bytes;
    while !rest.is_empty() {
        let (block, more) = rest.split_at(rest.len().min(BLOCK));
        let mut text = [0u8; ENCODED];
        let Ok(len) = STANDARD.encode_slice(block, &mut text) else {
            unreachable!()
        };
        count = put(&text[..len], count, out);
        rest = more;
    }
    put(b":", count, out)
}
