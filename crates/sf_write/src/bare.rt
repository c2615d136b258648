//! Bare items (RFC 9651 section 4.1.3.1).
ghost use Rattle.std.specs.Prelude.{◌≡◌, IfOk};
ghost use Rattle.sf_value.specs.declared.dialect.Dialect.TheVariants.{Rfc9651};
ghost use Rattle.sf_value.specs.declared.value.Bare.TheVariants as bare_is;
ghost use Rattle.sf_value.specs.Grammar.Valid.{ValidBare};
ghost use Rattle.sf_value.specs.Grammar.Canonical.{canon_bare};
ghost use Rattle.sf_write.specs.Writing.{Follows, WritesText};

use crate::blobs::put_blob;
use crate::display_string::put_display_string;
use crate::length::bare_len;
use crate::numbers::{put_date, put_decimal, put_integer};
use crate::sending::{Sent, WriteFault, put};
use crate::strings::put_string;
use sf_value::{Bare, OutOfMemory, Sink, Text, Writing};
use std::alloc::Global;

/// Writes the canonical text of a bare item, as [`write_bare`] does, after what was sent before, as
/// [`crate::put`] does. Does not allocate.
///
/// ```
/// let sent = put(b"a;b=", Ok(0), &mut out);
/// let count = put_bare(&Bare::Boolean(false), sent, &mut out)?; // 6
/// ```
pub fn put_bare<W: Sink>(bare: &Bare, before: Sent, out: &mut W) -> Sent
    ensures text { Follows W.state W.send_gives out.old out.new before result
        (canon_bare bare.now) }
    ensures valid { ValidBare Rfc9651 bare.now }
{
    match bare {
        Bare::Integer(number) => put_integer(number, before, out),
        Bare::Decimal(number) => put_decimal(number, before, out),
        Bare::Text(string) => put_string(string.as_bytes(), before, out),
        Bare::Token(token) => put(token.as_bytes(), before, out),
        Bare::Blob(blob) => put_blob(blob.as_bytes(), before, out),
        Bare::Boolean(value) => put_boolean(*value, before, out),
        Bare::Date(seconds) => put_date(seconds, before, out),
        Bare::Shown(shown) => put_display_string(shown.as_bytes(), before, out),
    }
}

/// Writes the canonical text of a String (RFC 9651 section 4.1.6) after what was sent before, as
/// [`put_bare`] does for `Bare::Text`. Does not allocate.
///
/// ```
/// let sent = put(b"key=", Ok(0), &mut out);
/// let count = put_text(&text, sent, &mut out)?;
/// ```
pub fn put_text<W: Sink>(text: &Text, before: Sent, out: &mut W) -> Sent
    ensures { Follows W.state W.send_gives out.old out.new before result
        (canon_bare (bare_is.Text text.now)) }
{
    put_string(text.as_bytes(), before, out)
}

/// Writes the canonical text of a bare item (RFC 9651 section 4.1.3.1) to a sink, part by part,
/// with the results of [`crate::write_field`]. Does not allocate.
///
/// ```
/// let length = write_bare(&Bare::Boolean(true), &mut out)?; // 2: ?1
/// ```
pub fn write_bare<W: Sink>(bare: &Bare, out: &mut W) -> Result<u64, WriteFault>
    // The whole text was written, or exactly its first `written` bytes and then a send failed. If
    // one fails when the count is saturated, nothing is claimed of which bytes were written.
    ensures text { WritesText (W.state out.old) (W.state out.new) result (canon_bare bare.now) }
    ensures valid { ValidBare Rfc9651 bare.now }
{
    put_bare(bare, Ok(0), out)
}

/// Returns the canonical text of a bare item (RFC 9651 section 4.1.3.1). Fails only if an
/// allocation fails.
///
/// ```
/// let text = bare_text(alloc, &Bare::Boolean(true))?; // ?1
/// ```
pub fn bare_text(alloc: Global, bare: &Bare) -> Result<Vec<u8>, OutOfMemory>
    ensures canon { IfOk result (λ text. text.items ≡ canon_bare bare.now) }
    ensures valid { IfOk result (λ _. ValidBare Rfc9651 bare.now) }
{
    let mut out = Writing::new(Vec::with_capacity(alloc, bare_len(bare))?);
    match write_bare(bare, &mut out) {
        Ok(_) => Ok(out.into_inner()),
        Err(_) => Err(OutOfMemory),
    }
}

/// Writes a Boolean (RFC 9651 section 4.1.9) after what was sent before, as [`put`] does: `?1` or
/// `?0`. Does not allocate.
///
/// ```
/// let count = put_boolean(true, Ok(0), &mut out)?; // 2
/// ```
pub fn put_boolean<W: Sink>(value: bool, before: Sent, out: &mut W) -> Sent
    ensures { Follows W.state W.send_gives out.old out.new before result
        (canon_bare (bare_is.Boolean value)) }
{
    let text = if value { b"?1" } else { b"?0" };
    put(text, before, out)
}
