//! Laws of serialising (RFC 9651 section 4.1), each as the contract of a function that does
//! nothing. [`to_text`] is the writer with the RFC's steps as its contract.
ghost use Rattle.std.specs.Prelude.{IfOk};
ghost use Rattle.sf_value.specs.declared.dialect.Dialect.TheVariants.{Rfc9651};
ghost use Rattle.sf_rfc.specs.SerialisingLaws.{BareSerialises, FieldSerialises};
ghost use Rattle.sf_rfc.specs.SerialisingLaws.{EmptyIsNotSerialised, DialectsDiffer, AddedFails};
ghost use Rattle.sf_rfc.specs.SerialisingLaws.{RoundsToNearest, ExactIsKept};
ghost use Rattle.sf_rfc.specs.SerialisingLaws.{RoundedSerialises, DecimalSerialises, IsOutput};
ghost use Rattle.sf_rfc.specs.Rfc9651.Serialising.{serialise};

use sf_value::{Field, OutOfMemory};
use std::alloc::Global;

/// A valid bare item of a dialect serialises by the RFC's steps (section 4.1.3.1) as its canonical
/// text.
pub fn bare_serialises()
    ensures { BareSerialises }
{}

/// A valid field that is an Item or has members serialises by the RFC's steps (section 4.1) as its
/// canonical text. A List or a Dictionary with no members, and nothing else, is not serialised, and
/// its canonical text is empty.
pub fn field_serialises()
    ensures members { FieldSerialises }
    ensures empty { EmptyIsNotSerialised }
{}

/// In RFC 8941 a field with a Date or a Display String fails, and each other field has the outcome
/// that it has in RFC 9651. A field that is valid in RFC 9651 fails in RFC 8941 exactly if it has a
/// Date or a Display String.
pub fn dialects_differ()
    ensures differ { DialectsDiffer }
    ensures added { AddedFails }
{}

/// A number is rounded to the nearest whole number of thousandths, and to the even one if two are
/// as near (section 4.1.5 step 2). It serialises as the canonical text of what it is rounded to,
/// if that has at most 12 digits before the point, and fails otherwise. A valid Decimal, read as a
/// number, serialises as its canonical text.
pub fn decimal_serialises()
    ensures nearest { RoundsToNearest }
    ensures exact { ExactIsKept }
    ensures rounded { RoundedSerialises }
    ensures valid { DecimalSerialises }
{}

/// Calls [`sf_write::to_text`], with the RFC's steps (section 4.1) as the contract: the text is
/// their output, or empty for a List or a Dictionary with no members, which is not serialised.
///
/// ```
/// let text = to_text(rt.alloc(), &field)?;
/// ```
pub fn to_text(alloc: Global, field: &Field) -> Result<Vec<u8>, OutOfMemory>
    ensures { IfOk result (λ text. IsOutput (serialise Rfc9651 field.now) text.items) }
{
    sf_write::to_text(alloc, field)
}
