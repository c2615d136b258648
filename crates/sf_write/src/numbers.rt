//! Integers, Decimals and Dates (RFC 9651 sections 4.1.4, 4.1.5 and 4.1.10).
ghost use Rattle.std.specs.Prelude.{◌≡◌, ◌/◌, ◌%◌, ◌^◌, ◌<◌, ◌∷◌, nat_abs};
ghost use Rattle.std.specs.Fmt.{signed_decimal};
ghost use Rattle.sf_value.specs.Ascii.{at_sign, point};
ghost use Rattle.sf_value.specs.Grammar.Numbers.{sign};
ghost use Rattle.sf_value.specs.Grammar.Canonical.{canon_decimal, fraction, is_negative};
ghost use Rattle.sf_write.specs.Writing.{Follows};

use crate::sending::{Sent, put};
use itoa::Buffer;
use sf_value::{Int, Sink, Thousandths};

/// Writes the digits of a number, with a `-` before them if it is below 0, after what was sent
/// before, as [`put`] does: the canonical text of an Integer (RFC 9651 section 4.1.4). Does not
/// allocate.
///
/// ```
/// let count = put_number(-7, Ok(0), &mut out)?; // 2
/// ```
pub fn put_number<W: Sink>(number: i64, before: Sent, out: &mut W) -> Sent
    ensures { Follows W.state W.send_gives out.old out.new before result (signed_decimal number) }
{
    put(Buffer::new().format(number).as_bytes(), before, out)
}

/// Writes an Integer.
pub(crate) fn put_integer<W: Sink>(number: &Int, before: Sent, out: &mut W) -> Sent
    ensures text { Follows W.state W.send_gives out.old out.new before result
        (signed_decimal number.now) }
    ensures short { nat_abs number.now < 10 ^ 15 }
{
    put_number(number.get(), before, out)
}

/// Writes `@` and the digits of a number after what was sent before, as [`put`] does: the canonical
/// text of a Date (RFC 9651 section 4.1.10). Does not allocate.
///
/// ```
/// let count = put_seconds(1659578233, Ok(0), &mut out)?; // 11
/// ```
pub fn put_seconds<W: Sink>(seconds: i64, before: Sent, out: &mut W) -> Sent
    ensures { Follows W.state W.send_gives out.old out.new before result
        (at_sign ∷ signed_decimal seconds) }
{
    let sent = put(b"@", before, out);
    put_number(seconds, sent, out)
}

/// Writes a Date.
pub(crate) fn put_date<W: Sink>(seconds: &Int, before: Sent, out: &mut W) -> Sent
    ensures text { Follows W.state W.send_gives out.old out.new before result
        (at_sign ∷ signed_decimal seconds.now) }
    ensures short { nat_abs seconds.now < 10 ^ 15 }
{
    put_seconds(seconds.get(), before, out)
}

/// Writes the sign of a number: `-` if it is below 0, otherwise nothing.
fn put_sign<W: Sink>(is_negative: bool, before: Sent, out: &mut W) -> Sent
    ensures { Follows W.state W.send_gives out.old out.new before result (sign is_negative) }
{
    if is_negative {
        put(b"-", before, out)
    } else {
        before
    }
}

/// Writes the point and the digits after it: at least one digit, and otherwise no zero at the end.
fn put_fraction<W: Sink>(thousandths: u64, before: Sent, out: &mut W) -> Sent
    requires { thousandths < 1000 }
    ensures { Follows W.state W.send_gives out.old out.new before result
        (point ∷ fraction thousandths) }
{
    let tenths = b'0' + (thousandths / 100) as u8;
    let hundredths = b'0' + (thousandths / 10 % 10) as u8;
    let last = b'0' + (thousandths % 10) as u8;
    if thousandths % 100 == 0 {
        put(&[b'.', tenths], before, out)
    } else if thousandths % 10 == 0 {
        put(&[b'.', tenths, hundredths], before, out)
    } else {
        put(&[b'.', tenths, hundredths, last], before, out)
    }
}

/// Returns whether a Decimal is below 0, its whole part, and the thousandths after the point.
fn parts(number: i64) -> (bool, u64, u64)
    ensures sign { result.0 ≡ is_negative number }
    ensures whole { result.1 ≡ nat_abs number / 1000 }
    ensures thousandths { result.2 ≡ nat_abs number % 1000 }
{
    let magnitude = number.unsigned_abs();
    (number < 0, magnitude / 1000, magnitude % 1000)
}

/// Writes the sign, the whole part, the point and the fraction of a number of thousandths after
/// what was sent before, as [`put`] does: the canonical text of a Decimal (RFC 9651 section
/// 4.1.5). Does not allocate.
///
/// ```
/// let count = put_thousandths(1500, Ok(0), &mut out)?; // 3: 1.5
/// ```
pub fn put_thousandths<W: Sink>(number: i64, before: Sent, out: &mut W) -> Sent
    ensures { Follows W.state W.send_gives out.old out.new before result (canon_decimal number) }
{
    let (is_negative, whole, thousandths) = parts(number);
    let sent = put_sign(is_negative, before, out);
    let sent = put(Buffer::new().format(whole).as_bytes(), sent, out);
    put_fraction(thousandths, sent, out)
}

/// Writes a Decimal.
pub(crate) fn put_decimal<W: Sink>(number: &Thousandths, before: Sent, out: &mut W) -> Sent
    ensures text { Follows W.state W.send_gives out.old out.new before result
        (canon_decimal number.now) }
    ensures short { nat_abs number.now < 10 ^ 15 }
{
    put_thousandths(number.get(), before, out)
}
