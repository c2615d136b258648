//! Display Strings (RFC 9651 section 4.1.11).
ghost use Rattle.std.specs.Prelude.{◌≡◌, ◌/◌, ◌%◌, ◌<◌, ◌≤◌, [], ◌∷◌, length};
ghost use Rattle.std.specs.List.{prefix_len};
ghost use Rattle.sf_value.specs.Ascii.{percent, quote};
ghost use Rattle.sf_value.specs.Grammar.DisplayStrings.{hex, is_unencoded};
ghost use Rattle.sf_value.specs.Grammar.Canonical.{canon_shown};
ghost use Rattle.sf_write.specs.Writing.{Follows};

use crate::sending::{Sent, put};
use crate::strings::{CHUNK, LONG, NEAR};
use sf_value::classes::{UnencodedByte, long_run, prefix_of_16};
use sf_value::{Sink, hex_digits, stands_for_itself};

/// The number of bytes that have to be escaped. Each byte is looked up in a table, so the compiler
/// doesn't vectorise the count, unlike that of `strings`.
pub(crate) fn escaped_count(bytes: &[u8]) -> usize {
    let mut count = 0usize;
    for chunk in bytes.chunks(CHUNK) {
        let mut escaped = 0u8;
        for byte in chunk {
            escaped = escaped.wrapping_add(!stands_for_itself(*byte) as u8);
        }
        count = count.wrapping_add(escaped as usize);
    }
    count
}

/// The length of the longest prefix without a byte that has to be escaped.
#[inline(always)]
fn unencoded_len(bytes: &[u8]) -> usize
    // The bytes before the first one that has to be escaped.
    ensures len { result ≡ prefix_len is_unencoded bytes.now }
    ensures within { result ≤ length bytes.now }
{
    let Some((near, far)) = bytes.split_first_chunk::<LONG>() else {
        return unencoded_len_by_byte(bytes);
    };
    if !stands_for_itself(bytes[0]) {
        return 0;
    }
    let run = prefix_of_16::<UnencodedByte>(near);
    if run < LONG {
        return run;
    }
    LONG + unencoded_len_after_run(far)
}

/// As [`unencoded_len`], after a run, which is likely to go on.
#[inline(always)]
fn unencoded_len_after_run(bytes: &[u8]) -> usize
    ensures len { result ≡ prefix_len is_unencoded bytes.now }
    ensures within { result ≤ length bytes.now }
{
    let (run, rest) = bytes.split_at(long_run::<UnencodedByte>(bytes));
    let more = unencoded_len_by_byte(rest);
    run.len() + more
}

/// As [`unencoded_len`], after an escape, where the next one is likely to be near.
#[inline(always)]
fn unencoded_len_after_escape(bytes: &[u8]) -> usize
    ensures len { result ≡ prefix_len is_unencoded bytes.now }
    ensures within { result ≤ length bytes.now }
{
    let Some((near, far)) = bytes.split_at_checked(NEAR) else {
        return unencoded_len_by_byte(bytes);
    };
    let run = unencoded_len_by_byte(near);
    if run < NEAR {
        return run;
    }
    NEAR + unencoded_len(far)
}

/// As [`unencoded_len`], byte by byte.
fn unencoded_len_by_byte(bytes: &[u8]) -> usize
    ensures len { result ≡ prefix_len is_unencoded bytes.now }
    ensures within { result ≤ length bytes.now }
{
    bytes.iter().take_while(|b| stands_for_itself(**b)).count()
}

/// Returns the escape of a byte in a Display String: `%` and its two digits. Does not allocate.
///
/// ```
/// percent_escape(0xfc) // [b'%', b'f', b'c']
/// ```
pub fn percent_escape(byte: u8) -> [u8; 3]
    ensures { result ≡ percent ∷ hex (byte / 16) ∷ hex (byte % 16) ∷ [] }
{
    let [high, low] = hex_digits(byte);
    [b'%', high, low]
}

/// Writes a Display String (RFC 9651 section 4.1.11), given by its UTF-8 bytes, after what was sent
/// before, as [`put`] does: `%`, and between quotes each byte from 0x20 to 0x7E except `"` and `%`
/// unescaped, and each other byte as `%` and two lower-case digits. Adjacent unescaped bytes are
/// sent at once. Does not allocate.
///
/// ```
/// let count = put_display_string("\u{fc}".as_bytes(), Ok(0), &mut out)?; // 9: %"%c3%bc"
/// ```
pub fn put_display_string<W: Sink>(text: &[u8], before: Sent, out: &mut W) -> Sent
    ensures { Follows W.state W.send_gives out.old out.new before result
        (percent ∷ quote ∷ canon_shown text.now) }
{
    let mut sent = put(b"%\"", before, out);
    let mut rest = text;
    let mut len = unencoded_len(text);
    loop {
        let (unencoded, after) = rest.split_at(len);
        sent = put(unencoded, sent, out);
        let Some((byte, more)) = after.split_first() else {
            return put(b"\"", sent, out);
        };
        let escape = percent_escape(*byte);
        sent = put(&escape, sent, out);
        rest = more;
        len = unencoded_len_after_escape(more);
    }
}
