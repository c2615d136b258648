//! Canonical texts for printing: as a `String`, and by `{}`.
ghost use Rattle.std.specs.Prelude.{◌≡◌, ℕ, List, None, Some, IfOk, string_bytes};
ghost use Rattle.sf_value.specs.Grammar.Canonical.{canon, canon_bare, canon_inner, canon_item};
ghost use Rattle.sf_value.specs.Grammar.Canonical.{canon_member};
ghost use Rattle.sf_write.specs.Formats.{WritesChunk};
ghost use Rattle.sf_write.specs.Writing.{Follows};

use crate::bare::put_bare;
use crate::field::{put_field, to_text};
use crate::items::{put_inner, put_item};
use crate::lists::put_member;
use crate::sending::Sent;
use sf_value::{Bare, Failed, Field, Inner, Item, Member, OutOfMemory, Sink};
use std::alloc::Global;
use std::fmt;

/// A value that has a canonical text (RFC 9651 section 4.1).
pub trait Canonical {
    // The canonical text.
    ghost text: { Self → List ℕ };

    /// Writes the canonical text after what was sent before, as [`crate::put`] does. Does not
    /// allocate.
    ///
    /// ```
    /// let sent = item.put(Ok(0), &mut out);
    /// ```
    fn put<W: Sink>(&self, before: Sent, out: &mut W) -> Sent
        ensures { Follows W.state W.send_gives out.old out.new before result (text self.now) };
}

impl Canonical for Field {
    ghost text = { canon };

    fn put<W: Sink>(&self, before: Sent, out: &mut W) -> Sent {
        put_field(self, before, out)
    }
}

impl Canonical for Member {
    ghost text = { canon_member };

    fn put<W: Sink>(&self, before: Sent, out: &mut W) -> Sent {
        put_member(self, before, out)
    }
}

impl Canonical for Inner {
    ghost text = { canon_inner };

    fn put<W: Sink>(&self, before: Sent, out: &mut W) -> Sent {
        put_inner(self, before, out)
    }
}

impl Canonical for Item {
    ghost text = { canon_item };

    fn put<W: Sink>(&self, before: Sent, out: &mut W) -> Sent {
        put_item(self, before, out)
    }
}

impl Canonical for Bare {
    ghost text = { canon_bare };

    fn put<W: Sink>(&self, before: Sent, out: &mut W) -> Sent {
        put_bare(self, before, out)
    }
}

/// A value that `Display` prints as its canonical text, made by [`display`].
#[derive(Clone, Copy, Debug, Drop)]
pub struct Displayed<'a, T> {
    value: &'a T,
}

/// Wraps a value so that `{}` prints its canonical text (RFC 9651 section 4.1). Neither this nor
/// the formatting allocates. Formatting fails only if the formatter fails.
///
/// ```
/// println!(rt; "parsed: {}", display(&field))?; // parsed: a;q=1
/// ```
pub fn display<T: Canonical>(value: &T) -> Displayed<'_, T>
    ensures { result.value.now ≡ value.now }
{
    Displayed { value }
}

impl<T: Canonical> fmt::Display for Displayed<'_, T> {
    ghost output = { λ shown. Some (T.text shown.value.now) };

    fn fmt<W: fmt::Write>(&self, f: &mut fmt::Formatter<W>) -> fmt::Result {
        let mut out = Formatting { f, failures: 0 };
        match self.value.put(Ok(0), &mut out) {
            Ok(_) => Ok(()),
            Err(_) => Err(fmt::Error),
        }
    }
}

/// A formatter as a sink. A contract can't see its bytes, but sees what each call wrote.
struct Formatting<'a, W> {
    f: &'a mut fmt::Formatter<W>,
    failures: u64,
}

// Written out, so that a contract knows that the formatter is unchanged by the drop.
impl<'a, W> Drop for Formatting<'a, W> {
    fn drop(self)
        ensures { self.exit.0.now ≡ self.entry.f.now }
    {
        let Self { f: _, failures: _ } = self;
    }
}

impl<'a, W: fmt::Write> Sink for Formatting<'a, W> {
    ghost state = { λ out. record { taken = None; failures = out.failures } };

    ghost send_gives = { WritesChunk W.write_str_gives };

    fn send(&mut self, bytes: &[u8]) -> Result<usize, Failed> {
        if bytes.is_empty() {
            return Ok(0);
        }
        // Canonical texts are ASCII, so the bytes of each call are a string.
        if let Ok(text) = str::from_utf8(bytes) {
            if self.f.write_str(text).is_ok() {
                return Ok(bytes.len());
            }
        }
        self.failures = self.failures.saturating_add(1);
        Err(Failed)
    }
}

/// Returns the canonical text of a field (RFC 9651 section 4.1) as a `String`; each such text is
/// ASCII. Fails only if an allocation fails.
///
/// ```
/// let text = to_string(alloc, &field)?;
/// println!(rt; "{text}")?; // a;q=1
/// ```
pub fn to_string(alloc: Global, field: &Field) -> Result<String, OutOfMemory>
    ensures { IfOk result (λ text. string_bytes text ≡ canon field.now) }
{
    let text = to_text(alloc, field)?;
    // It is proved that a canonical text is ASCII, so it isn't tested.
    Ok(unsafe { String::from_utf8_unchecked(text) })
}
