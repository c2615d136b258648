//! Integers, Decimals and Dates (RFC 9651 sections 4.2.4 and 4.2.9).
ghost use Rattle.std.specs.Prelude.{◌≡◌, ◌-◌, ◌<◌, ◌≤◌, ◌^◌, true, false, MatchOption};
ghost use Rattle.sf_value.specs.Ascii.{digit_zero};
ghost use Rattle.sf_value.specs.declared.dialect.Dialect.{Dialect as Which};
ghost use Rattle.sf_value.specs.Grammar.Classes.{is_digit};
ghost use Rattle.sf_value.specs.Grammar.Numbers.{signed};
ghost use Rattle.sf_scan.specs.NumberPlaces.{is_point_after};
ghost use Rattle.sf_scan.specs.NumberTexts.{NumberAfterSign, NumberAfterPoint, DateAfterAt};
ghost use Rattle.sf_scan.specs.NumberTexts.{DateAfterSign, BeginsDigit, TakesDigits, PastPoint};
ghost use Rattle.sf_scan.specs.Leaves.{number_leaf};
ghost use Rattle.sf_scan.specs.Scans.{ScansLeaf, leaf_outcome};
ghost use Rattle.sf_value.specs.Runs.{Lacks};

use crate::leaf::Leaf;
use crate::number_place::NumberPlace;
use crate::place::{BarePlace, Stop};
use sf_value::classes::{split, strip_byte};

/// An Integer or a Decimal.
#[derive(Clone, Copy)]
pub struct NumberLeaf {
    /// The Integer, or the Decimal in thousandths.
    pub value: i64,
    /// Whether it is a Decimal.
    pub is_decimal: bool,
}

/// Digits that a text begins with.
#[derive(Clone, Copy)]
struct Digits<'a> {
    /// How many there are.
    count: u8,
    /// The number that they write.
    value: u64,
    /// The rest of the text.
    left: &'a [u8],
}

/// An Integer or a Decimal, after its sign.
#[inline(always)]
pub fn number(
    negative: bool,
    text: &[u8],
) -> Result<(Stop<'_, BarePlace>, NumberLeaf), Stop<'_, BarePlace>>
    ensures { (d : Which) → ScansLeaf d (NumberAfterSign negative) text.now
        (leaf_outcome number_leaf result) }
{
    let whole = leading_digits(text, 15);
    if let Some(rest) = after_point(whole.count, whole.left) {
        return fraction(negative, whole.value, rest);
    }
    let stop = Stop {
        left: whole.left,
        place: BarePlace::Number(NumberPlace::Whole(whole.count)),
    };
    if whole.count == 0 {
        return Err(stop);
    }
    let integer = NumberLeaf {
        value: with_sign(negative, whole.value),
        is_decimal: false,
    };
    Ok((stop, integer))
}

/// A Decimal after its point; `whole` is the number before it.
#[inline(always)]
fn fraction(
    negative: bool,
    whole: u64,
    text: &[u8],
) -> Result<(Stop<'_, BarePlace>, NumberLeaf), Stop<'_, BarePlace>>
    requires { whole < 10 ^ 12 }
    ensures { (d : Which) → ScansLeaf d (NumberAfterPoint negative whole) text.now
        (leaf_outcome number_leaf result) }
{
    let fraction = leading_digits(text, 3);
    let stop = Stop {
        left: fraction.left,
        place: BarePlace::Number(NumberPlace::Fraction(fraction.count)),
    };
    if fraction.count == 0 {
        return Err(stop);
    }
    let thousandths = whole * 1000 + fraction.value * scale(fraction.count);
    let decimal = NumberLeaf {
        value: with_sign(negative, thousandths),
        is_decimal: true,
    };
    Ok((stop, decimal))
}

/// How many thousandths one unit of the last digit is, with this many digits after the point.
#[inline(always)]
fn scale(count: u8) -> u64
    requires { count ≤ 3 }
    ensures { result ≡ 10 ^ (3 - count) }
{
    match count {
        0 => 1000,
        1 => 100,
        2 => 10,
        _ => 1,
    }
}

/// A Date, after its `@`.
#[inline(never)]
pub fn date(text: &[u8]) -> Result<(Stop<'_, BarePlace>, Leaf<'_>), Stop<'_, BarePlace>>
    ensures { (d : Which) → ScansLeaf d DateAfterAt text.now result }
{
    if let Some(rest) = strip_byte(text, b'-') {
        return date_digits(true, rest);
    }
    if let Some(_) = first_digit(text) {
        return date_digits(false, text);
    }
    Err(Stop {
        left: text,
        place: BarePlace::Number(NumberPlace::At),
    })
}

/// A Date, after its sign.
fn date_digits(
    negative: bool,
    text: &[u8],
) -> Result<(Stop<'_, BarePlace>, Leaf<'_>), Stop<'_, BarePlace>>
    ensures { (d : Which) → ScansLeaf d (DateAfterSign negative) text.now result }
{
    let seconds = leading_digits(text, 15);
    let stop = Stop {
        left: seconds.left,
        place: BarePlace::Number(NumberPlace::DateDigits(seconds.count)),
    };
    if seconds.count == 0 {
        return Err(stop);
    }
    Ok((stop, Leaf::Date(with_sign(negative, seconds.value))))
}

/// The digits that the text begins with, at most this many.
#[inline(always)]
fn leading_digits(text: &[u8], most: usize) -> Digits<'_>
    // The number that so few digits write fits.
    requires { most ≤ 15 }
    ensures { TakesDigits most text.now result }
{
    let mut count = 0;
    let mut value = 0;
    while count < most && count < text.len() {
        let Some(digit) = digit_of(text[count]) else {
            break;
        };
        value = 10 * value + digit;
        count += 1;
    }
    let (_, left) = text.split_at(count);
    Digits {
        count: count as u8,
        value,
        left,
    }
}

/// The value of a digit.
#[inline(always)]
fn digit_of(byte: u8) -> Option<u64>
    ensures { MatchOption result (is_digit byte ≡ false)
        (λ value. (is_digit byte ≡ true) × (value ≡ byte - digit_zero)) }
{
    if byte.is_ascii_digit() {
        return Some(u64::from(byte - b'0'));
    }
    None
}

/// The value of the digit that the text begins with, and the rest.
#[inline(always)]
fn first_digit(text: &[u8]) -> Option<(u64, &[u8])>
    ensures { MatchOption result (Lacks is_digit text.now)
        (λ r. BeginsDigit text.now r.0 r.1.now) }
{
    let (byte, rest) = split(text)?;
    Some((digit_of(byte)?, rest))
}

/// The rest after the point, if one comes next and may come after this many digits.
#[inline(always)]
fn after_point(count: u8, text: &[u8]) -> Option<&[u8]>
    ensures { MatchOption result (Lacks (is_point_after count) text.now)
        (λ rest. PastPoint count text.now rest.now) }
{
    let rest = strip_byte(text, b'.')?;
    if count == 0 || count > 12 {
        return None;
    }
    Some(rest)
}

/// The number with its sign.
#[inline(always)]
fn with_sign(negative: bool, value: u64) -> i64
    requires { value < 10 ^ 15 }
    ensures { result ≡ signed negative value }
{
    if negative {
        -(value as i64)
    } else {
        value as i64
    }
}
