//! The places in a Display String (RFC 9651 section 4.2.10).
ghost use Rattle.sf_scan.specs.DisplayStrings.{in_shown, in_between, is_first_digit};
ghost use Rattle.sf_scan.specs.DisplayStrings.{is_second_digit};
ghost use Rattle.sf_scan.specs.Sets.{Marks};

use crate::byte_sets::{LOWER_HEX, PERCENT, QUOTE, VISIBLE};
use crate::char_place::{CharPlace, LowDigits};

/// A place in a Display String, after its percent sign.
#[derive(Clone, Copy)]
pub enum ShownPlace {
    /// Before the opening quote.
    Quote,
    /// Between the quotes.
    Between(CharPlace),
    /// After the percent sign of an escape.
    Percent(CharPlace),
    /// After the first digit of an escape.
    Digit(LowDigits),
}

const A_TO_B: u128 = 3 << b'a';

impl ShownPlace {
    /// The bytes below 128 that may come, a bit for each.
    pub fn expected(self) -> u128
        ensures { Marks result (in_shown self) }
    {
        match self {
            ShownPlace::Quote => QUOTE,
            ShownPlace::Between(chars) => expected_between(chars),
            ShownPlace::Percent(chars) => expected_digits(chars),
            ShownPlace::Digit(low) => expected_second(low),
        }
    }
}

/// The bytes that may come between the quotes.
fn expected_between(chars: CharPlace) -> u128
    ensures { Marks result (in_between chars) }
{
    match chars {
        CharPlace::Start => VISIBLE,
        CharPlace::Last => PERCENT,
        CharPlace::LastTwo => PERCENT,
        CharPlace::LastThree => PERCENT,
        CharPlace::AfterE0 => PERCENT,
        CharPlace::AfterEd => PERCENT,
        CharPlace::AfterF0 => PERCENT,
        CharPlace::AfterF4 => PERCENT,
    }
}

/// The digits that may come after the percent sign of an escape.
fn expected_digits(chars: CharPlace) -> u128
    ensures { Marks result (is_first_digit chars) }
{
    match chars {
        CharPlace::Start => 0xff << b'0' | 0xf << b'c',
        CharPlace::Last => 3 << b'8' | A_TO_B,
        CharPlace::LastTwo => 3 << b'8' | A_TO_B,
        CharPlace::LastThree => 3 << b'8' | A_TO_B,
        CharPlace::AfterE0 => A_TO_B,
        CharPlace::AfterEd => 3 << b'8',
        CharPlace::AfterF0 => 1 << b'9' | A_TO_B,
        CharPlace::AfterF4 => 1 << b'8',
    }
}

/// The digits that may come after the first one of an escape.
fn expected_second(low: LowDigits) -> u128
    ensures { Marks result (is_second_digit low) }
{
    match low {
        LowDigits::Any => LOWER_HEX,
        LowDigits::FromTwo => 0xff << b'2' | 0x3f << b'a',
        LowDigits::UpToFour => 0x1f << b'0',
    }
}
