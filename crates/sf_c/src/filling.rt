//! Texts that are written part by part into the caller's buffer.
ghost use Rattle.std.specs.Prelude.{◌≡◌, ◌≤◌, ◌<◌, ◌+◌, ◌^◌, ◌++◌, ℕ, List, None, Some, Ok, IfSome, MatchOption, length, drop};
ghost use Rattle.sf_write.specs.Writing.{Follows};
ghost use Rattle.sf_c.specs.Filling.{Fills};
ghost use Rattle.sf_c.specs.TextBuffers.{Writes};
ghost use Rattle.sf_c.specs.declared.status.Status.TheVariants.{OutOfMemory};

use crate::buffer::put;
use crate::status::Status;
use sf_value::{Failed, Sink};
use sf_write::Sent;

/// The size of the buffer on the stack that short texts are put together in.
const SHORT: usize = 192;

/// What has a text that is written part by part.
pub(crate) trait Parts {
    // The text.
    ghost spells: { Self → List ℕ → Type 0 };

    /// Whether the text is known to have at most [`SHORT`] bytes: then its parts are written only
    /// once. No result depends on it.
    fn is_short(&self) -> bool;

    /// Writes the text.
    fn put<W: Sink>(&self, out: &mut W) -> Sent
        ensures { (t : List ℕ) → spells self.now t
            → Follows W.state W.send_gives out.old out.new (Ok 0) result t };
}

/// Writes a text into the caller's buffer, or returns `Short` and the required length. Since a
/// buffer that is too small stays as it is, a short text is put together elsewhere first, and the
/// parts of a longer one are counted before they are written. Returns `OutOfMemory` only for a text
/// of 2^64 - 1 bytes or more.
pub(crate) fn put_parts<P: Parts>(parts: &P, buffer: &mut [u8], required: &mut usize) -> Status
    requires { (t : List ℕ) × P.spells parts.now t }
    // The text is at the start of the buffer, or the buffer is too small for it.
    ensures writes { (t : List ℕ) → P.spells parts.now t
        → Writes (record { buffer = buffer.old; required = required.old })
        (record { buffer = buffer.new; required = required.new }) t (Some result) }
    // It is out of memory only for a text that no memory holds.
    ensures long { result ≡ OutOfMemory
        → (t : List ℕ) → P.spells parts.now t → 2 ^ 64 ≤ length t + 1 }
{
    let mut short = [0; SHORT];
    if let Some(text) = short_text(parts, &mut short) {
        *required = text.len();
        if buffer.len() < text.len() {
            return Status::Short;
        }
        put(buffer, 0, text);
        return Status::Answered;
    }
    let Some(length) = length_of(parts) else {
        return Status::OutOfMemory;
    };
    *required = length;
    if buffer.len() < length {
        return Status::Short;
    }
    fill(parts, buffer);
    Status::Answered
}

/// The whole text, in a buffer of [`SHORT`] bytes; `None` if it is not short.
fn short_text<'a, P: Parts>(parts: &P, short: &'a mut [u8]) -> Option<&'a [u8]>
    requires { (t : List ℕ) × P.spells parts.now t }
    ensures { IfSome result (λ text. (t : List ℕ) → P.spells parts.now t → text.now ≡ t) }
{
    if !parts.is_short() {
        return None;
    }
    let length = fill(parts, short)?;
    if length > short.len() {
        return None;
    }
    let (text, _) = short.split_at(length);
    Some(text)
}

/// The length of the text; `None` if it has 2^64 - 1 bytes or more.
fn length_of<P: Parts>(parts: &P) -> Option<usize>
    ensures { (t : List ℕ) → P.spells parts.now t
        → MatchOption result (2 ^ 64 ≤ length t + 1) (λ n. n ≡ length t) }
{
    let mut out = Counting;
    match parts.put(&mut out) {
        Ok(count) => return unsaturated(count),
        Err(_) => return None,
    }
}

/// A count of bytes, unless it is saturated.
fn unsaturated(count: u64) -> Option<usize>
    ensures { MatchOption result (2 ^ 64 ≤ count + 1) (λ n. (n ≡ count) × (count + 1 < 2 ^ 64)) }
{
    if count == u64::MAX {
        return None;
    }
    Some(count as usize)
}

/// Writes a text that fits in the buffer, and returns its length, as [`length_of`] does.
fn fill<P: Parts>(parts: &P, buffer: &mut [u8]) -> Option<usize>
    requires { (t : List ℕ) × P.spells parts.now t }
    ensures same { length buffer.new ≡ length buffer.old }
    // The text is at the start of the buffer, and the rest is unchanged.
    ensures fills { (t : List ℕ) → P.spells parts.now t → length t ≤ length buffer.old
        → buffer.new ≡ t ++ drop (length t) buffer.old }
    ensures counts { (t : List ℕ) → P.spells parts.now t
        → MatchOption result (2 ^ 64 ≤ length t + 1) (λ n. n ≡ length t) }
{
    let mut out = Filling { buffer, len: 0 };
    put_all(parts, &mut out)
}

/// Writes a text after what is in the buffer, and returns its length, as [`length_of`] does.
fn put_all<P: Parts>(parts: &P, out: &mut Filling) -> Option<usize>
    requires { (t : List ℕ) × P.spells parts.now t }
    ensures same { out.new.buffer.ghost_name ≡ out.old.buffer.ghost_name }
    ensures fills { (t : List ℕ) → P.spells parts.now t → Fills out.old t out.new }
    ensures counts { (t : List ℕ) → P.spells parts.now t
        → MatchOption result (2 ^ 64 ≤ length t + 1) (λ n. n ≡ length t) }
{
    match parts.put(out) {
        Ok(count) => return unsaturated(count),
        Err(_) => return None,
    }
}

/// Takes all bytes and keeps none: the count of a writer is the length of its text.
#[derive(Drop)]
struct Counting;

impl Sink for Counting {
    ghost state = { λ _. record { taken = None; failures = 0 } };

    #[inline(always)]
    fn send(&mut self, bytes: &[u8]) -> Result<usize, Failed> {
        Ok(bytes.len())
    }
}

/// A buffer that is filled from its start. Bytes that don't fit are left out.
struct Filling<'a> {
    buffer: &'a mut [u8],
    len: usize,
}

impl<'a> Drop for Filling<'a> {
    fn drop(self)
        ensures { self.exit.0.now ≡ self.entry.buffer.now }
    {
        let Self { buffer: _, len: _ } = self;
    }
}

impl<'a> Sink for Filling<'a> {
    ghost state = { λ _. record { taken = None; failures = 0 } };

    ghost send_gives = { Fills };

    #[inline(always)]
    fn send(&mut self, bytes: &[u8]) -> Result<usize, Failed> {
        if self.len <= self.buffer.len() && bytes.len() <= self.buffer.len() - self.len {
            put(self.buffer, self.len, bytes);
            self.len += bytes.len();
        }
        Ok(bytes.len())
    }
}
