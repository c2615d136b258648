//! The caller's buffer.
ghost use Rattle.std.specs.Prelude.{◌≡◌, ℕ, ◌+◌, ◌*◌, ◌≤◌, ◌++◌, length, take, drop, true, Some};
ghost use Rattle.sf_c.specs.TextBuffers.{PutsText};

use crate::status::Status;

/// Puts items at this index of the buffer.
pub(crate) fn put<T: Copy>(buffer: &mut [T], at: usize, items: &[T])
    requires { at + length items.now ≤ length buffer.old }
    ensures { buffer.new
        ≡ (take at buffer.old ++ items.now) ++ drop (at + length items.now) buffer.old }
{
    buffer[at..at + items.len()].copy_from_slice(items);
}

/// Puts a text into the caller's buffer, or returns `Short` and the required length.
pub(crate) fn put_text(text: &[u8], buffer: &mut [u8], required: &mut usize) -> Status
    // The text is at the start of the buffer, or the buffer is too small for it.
    ensures puts { PutsText (record { buffer = buffer.old; required = required.old })
        (record { buffer = buffer.new; required = required.new }) text.now (Some result) }
    ensures required { required.new ≡ length text.now }
{
    *required = text.len();
    if buffer.len() < text.len() {
        return Status::Short;
    }
    put(buffer, 0, text);
    Status::Answered
}

/// Whether a buffer of so many nodes, and one of so many bytes, are large enough for any text of this
/// length, as `SF_NODES_SIZE` and `SF_BYTES_SIZE` of `include/sf.h` say: four fifths of the length,
/// rounded to the nearest integer, and eight fifths. If they aren't, a value is counted before its
/// tree is built.
pub(crate) fn are_large(text: &[u8], nodes: usize, bytes: usize) -> bool
    // They hold as many nodes and bytes as any value of such a text has (`IsSmall`).
    ensures nodes { result ≡ true → (n : ℕ) → 10 * n ≤ 8 * length text.now + 5 → n ≤ nodes }
    ensures bytes { result ≡ true → (n : ℕ) → 5 * n ≤ 8 * length text.now → n ≤ bytes }
{
    let fifths = text.len() / 5;
    let rest = text.len() % 5;
    let most_nodes = fifths * 4 + (rest * 8 + 5) / 10;
    let most_bytes = fifths * 8 + rest * 8 / 5;
    nodes >= most_nodes && bytes >= most_bytes
}
