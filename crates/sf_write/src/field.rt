//! Whole fields (RFC 9651 section 4.1).
ghost use Rattle.std.specs.Prelude.{◌≡◌, [], IfOk, IsTrue};
ghost use Rattle.sf_value.specs.declared.dialect.Dialect.TheVariants.{Rfc9651};
ghost use Rattle.sf_value.specs.Grammar.Fields.{SpellsField, kind_of};
ghost use Rattle.sf_value.specs.Grammar.Valid.{Valid};
ghost use Rattle.sf_value.specs.Grammar.Canonical.{canon};
ghost use Rattle.sf_write.specs.Writing.{Follows, WritesText};

use crate::dicts::put_entries;
use crate::gathered::Gathered;
use crate::items::put_item;
use crate::length::{bare_len, field_len};
use crate::lists::put_members;
use crate::sending::{Sent, WriteFault};
use sf_value::{Field, Item, Member, OutOfMemory, Sink, Writing};
use std::alloc::Global;

/// If the first member is an Item whose bare item has at least this length, the text is measured:
/// fewer than four such bare items fit in a block.
const LONG_ITEM: usize = 160;

/// Writes the canonical text of a field, as [`write_field`] does, after what was sent before, as
/// [`crate::put`] does. Does not allocate.
///
/// ```
/// let sent = put_field(&field, Ok(0), &mut out);
/// let count = put(b"\n", sent, &mut out)?;
/// ```
pub fn put_field<W: Sink>(field: &Field, before: Sent, out: &mut W) -> Sent
    ensures text { Follows W.state W.send_gives out.old out.new before result (canon field.now) }
    ensures valid { Valid Rfc9651 (kind_of field.now) field.now }
{
    match field {
        Field::Item(item) => put_item(item, before, out),
        Field::List(list) => put_members(list.members.as_slice(), before, out),
        Field::Dict(dict) => put_entries(&dict.members, before, out),
    }
}

/// Writes the canonical text of a field (RFC 9651 section 4.1) to a sink, part by part, and returns
/// its length in bytes. Does not allocate. The text of an empty List or Dictionary is empty.
///
/// Fails only if a send failed. That send is not repeated, and exactly the first `written` bytes of
/// the text were written. Both numbers stay at 2^64 - 1 once they reach it; if a send fails then,
/// nothing is claimed of which bytes were written. Whatever the result, the field is valid, as
/// every field is, so its text spells it (`sf_value::laws::canon_spells`).
///
/// ```
/// let mut out = Writing::new(io::writer(&rt));
/// let length = write_field(&field, &mut out)?;
/// ```
pub fn write_field<W: Sink>(field: &Field, out: &mut W) -> Result<u64, WriteFault>
    // The whole text was written, or exactly its first `written` bytes and then a send failed. If
    // one fails when the count is saturated, nothing is claimed of which bytes were written.
    ensures text { WritesText (W.state out.old) (W.state out.new) result (canon field.now) }
    ensures valid { Valid Rfc9651 (kind_of field.now) field.now }
{
    put_field(field, Ok(0), out)
}

/// Returns the canonical text of a field (RFC 9651 section 4.1). The text spells the field: parsed
/// as a field of its kind, it is that field again, also if the field was built and never parsed.
/// Allocates once, memory of the text's length, unless the text is empty. Fails only if that fails.
///
/// ```
/// let text = to_text(rt.alloc(), &field)?;
/// ```
#[inline(always)]
pub fn to_text(alloc: Global, field: &Field) -> Result<Vec<u8>, OutOfMemory>
    ensures canon { IfOk result (λ text. text.items ≡ canon field.now) }
    // The text spells the field, so parsing it returns the field again.
    ensures spells { IfOk result
        (λ text. SpellsField Rfc9651 (kind_of field.now) text.items field.now) }
    ensures valid { IfOk result (λ _. Valid Rfc9651 (kind_of field.now) field.now) }
{
    if has_no_text(field) {
        return Ok(Vec::new(alloc));
    }
    if is_measured(field) {
        return measured_text(alloc, field);
    }
    gathered_text(alloc, field)
}

/// Whether a field is a List or a Dictionary without members.
#[inline(always)]
fn has_no_text(field: &Field) -> bool
    ensures canon { IsTrue result → canon field.now ≡ [] }
    ensures valid { IsTrue result → Valid Rfc9651 (kind_of field.now) field.now }
{
    match field {
        Field::Item(_) => false,
        Field::List(list) => list.members.is_empty(),
        Field::Dict(dict) => dict.members.is_empty(),
    }
}

/// Whether it costs less to measure the text before it is written than to gather it in a block.
#[inline(always)]
fn is_measured(field: &Field) -> bool {
    match field {
        Field::Item(item) => item.params.is_empty(),
        Field::List(list) => match list.members.as_slice().first() {
            Some(first) => are_measured(list.members.len(), first),
            None => true,
        },
        Field::Dict(dict) => match dict.members.at(0) {
            Some((_, first)) => are_measured(dict.members.len(), first),
            None => true,
        },
    }
}

/// As [`is_measured`], for this many members, of which this is the first. It is true if there are
/// one or two and the first is an Item without parameters, or if the first is an Item whose bare
/// item is so long that only a few like it would fit in a block. Other members are not looked at.
#[inline(always)]
fn are_measured(count: usize, first: &Member) -> bool {
    match first {
        Member::Item(item) if count <= 2 && item.params.is_empty() => true,
        Member::Item(item) => bare_len(&item.bare) >= LONG_ITEM,
        Member::Inner(_) => false,
    }
}

/// The text of a field, written into memory of its length, which is computed first.
fn measured_text(alloc: Global, field: &Field) -> Result<Vec<u8>, OutOfMemory>
    ensures canon { IfOk result (λ text. text.items ≡ canon field.now) }
    ensures spells { IfOk result
        (λ text. SpellsField Rfc9651 (kind_of field.now) text.items field.now) }
    ensures valid { IfOk result (λ _. Valid Rfc9651 (kind_of field.now) field.now) }
{
    let mut out = Writing::new(Vec::with_capacity(alloc, field_len(field))?);
    match write_field(field, &mut out) {
        Ok(_) => Ok(out.into_inner()),
        Err(_) => Err(OutOfMemory),
    }
}

/// The text of a field, gathered in a block. It is not inlined: a function clears all its stack on
/// entry, and the block is large.
#[inline(never)]
fn gathered_text(alloc: Global, field: &Field) -> Result<Vec<u8>, OutOfMemory>
    ensures canon { IfOk result (λ text. text.items ≡ canon field.now) }
    ensures spells { IfOk result
        (λ text. SpellsField Rfc9651 (kind_of field.now) text.items field.now) }
    ensures valid { IfOk result (λ _. Valid Rfc9651 (kind_of field.now) field.now) }
{
    let mut out = Gathered::new(alloc, field);
    match write_field(field, &mut out) {
        Ok(_) => out.into_text(),
        Err(_) => Err(OutOfMemory),
    }
}
