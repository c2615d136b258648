//! Strings (RFC 9651 section 4.1.6).
ghost use Rattle.std.specs.Prelude.{◌≡◌, ◌≤◌, [], ◌∷◌, ◌++◌, not, length};
ghost use Rattle.std.specs.List.{prefix_len};
ghost use Rattle.sf_value.specs.Ascii.{quote};
ghost use Rattle.sf_value.specs.Grammar.Strings.{escaped, is_escaped};
ghost use Rattle.sf_write.specs.Writing.{Follows};

use crate::sending::{Sent, put};
use sf_value::Sink;
use sf_value::classes::{NoBackslash, long_run, prefix_of_16};

/// The number of bytes that are counted together: small enough that the count fits in a byte.
pub(crate) const CHUNK: usize = 128;

/// At least this many bytes are tested many at a time, fewer one by one.
pub(crate) const LONG: usize = 16;

/// The number of bytes after an escape that are tested one by one: if there are many escapes, most
/// runs between them are shorter.
pub(crate) const NEAR: usize = 8;

/// Returns whether a backslash is written before this byte: `"` and `\`.
fn needs_backslash(byte: u8) -> bool
    ensures { result ≡ is_escaped byte }
{
    matches!(byte, b'"' | b'\\')
}

/// The number of bytes that need a backslash. The compiler vectorises the count of a chunk.
pub(crate) fn escaped_count(bytes: &[u8]) -> usize {
    let mut count = 0usize;
    for chunk in bytes.chunks(CHUNK) {
        let mut escaped = 0u8;
        for byte in chunk {
            escaped = escaped.wrapping_add(needs_backslash(*byte) as u8);
        }
        count = count.wrapping_add(escaped as usize);
    }
    count
}

/// The length of the longest prefix without a byte that needs a backslash.
#[inline(always)]
fn unescaped_len(bytes: &[u8]) -> usize
    // The bytes before the first one that needs a backslash.
    ensures len { result ≡ prefix_len (λ b. not (is_escaped b)) bytes.now }
    ensures within { result ≤ length bytes.now }
{
    let Some((near, far)) = bytes.split_first_chunk::<LONG>() else {
        return unescaped_len_by_byte(bytes);
    };
    if needs_backslash(bytes[0]) {
        return 0;
    }
    let run = prefix_of_16::<NoBackslash>(near);
    if run < LONG {
        return run;
    }
    LONG + unescaped_len_after_run(far)
}

/// As [`unescaped_len`], after a run, which is likely to go on.
#[inline(always)]
fn unescaped_len_after_run(bytes: &[u8]) -> usize
    ensures len { result ≡ prefix_len (λ b. not (is_escaped b)) bytes.now }
    ensures within { result ≤ length bytes.now }
{
    let (run, rest) = bytes.split_at(long_run::<NoBackslash>(bytes));
    let more = unescaped_len_by_byte(rest);
    run.len() + more
}

/// As [`unescaped_len`], after an escape, where the next one is likely to be near.
#[inline(always)]
fn unescaped_len_after_escape(bytes: &[u8]) -> usize
    ensures len { result ≡ prefix_len (λ b. not (is_escaped b)) bytes.now }
    ensures within { result ≤ length bytes.now }
{
    let Some((near, far)) = bytes.split_at_checked(NEAR) else {
        return unescaped_len_by_byte(bytes);
    };
    let run = unescaped_len_by_byte(near);
    if run < NEAR {
        return run;
    }
    NEAR + unescaped_len(far)
}

/// As [`unescaped_len`], byte by byte.
fn unescaped_len_by_byte(bytes: &[u8]) -> usize
    ensures len { result ≡ prefix_len (λ b. not (is_escaped b)) bytes.now }
    ensures within { result ≤ length bytes.now }
{
    bytes.iter().take_while(|b| !needs_backslash(**b)).count()
}

/// Writes a String (RFC 9651 section 4.1.6) after what was sent before, as [`put`] does: quotes
/// around its bytes, with a backslash before each quote and backslash. The bytes between two of
/// these are sent at once. Does not allocate.
///
/// ```
/// let count = put_string(b"a\\b", Ok(0), &mut out)?; // 6
/// ```
pub fn put_string<W: Sink>(text: &[u8], before: Sent, out: &mut W) -> Sent
    ensures { Follows W.state W.send_gives out.old out.new before result
        (quote ∷ (escaped text.now ++ quote ∷ [])) }
{
    let mut sent = put(b"\"", before, out);
    let mut rest = text;
    let mut len = unescaped_len(text);
    loop {
        let (unescaped, after) = rest.split_at(len);
        sent = put(unescaped, sent, out);
        let Some((byte, more)) = after.split_first() else {
            return put(b"\"", sent, out);
        };
        sent = put(&[b'\\', *byte], sent, out);
        rest = more;
        len = unescaped_len_after_escape(more);
    }
}
