//! The places in Integers, Decimals and Dates, and the bytes that may come there.
ghost use Rattle.std.specs.Prelude.{◌≡◌, ◌==◌, ◌&&◌};
ghost use Rattle.sf_value.specs.Ascii.{at_sign};
ghost use Rattle.sf_value.specs.Grammar.Dialects.{is_rfc9651};
ghost use Rattle.sf_scan.specs.NumberPlaces.{in_number, ends_number};
ghost use Rattle.sf_scan.specs.Sets.{Marks};

use crate::allowed::Allowed;
use crate::byte_sets::{DIGITS, MINUS, POINT, set_if};
use sf_value::Dialect;

/// A place in an Integer, a Decimal or a Date, after its first byte.
#[derive(Clone, Copy)]
pub enum NumberPlace {
    /// After this many digits of an Integer or, before its point, of a Decimal. If there are none,
    /// after the minus sign.
    Whole(u8),
    /// After this many digits of a Decimal's fraction. If there are none, after the point.
    Fraction(u8),
    /// After the `@` of a Date.
    At,
    /// After this many digits of a Date. If there are none, after its minus sign.
    DateDigits(u8),
}

/// Whether a Date begins with this byte: RFC 8941 has none.
pub fn can_start_date(dialect: Dialect, byte: u8) -> bool
    ensures { result ≡ (byte == at_sign && is_rfc9651 dialect) }
{
    match dialect {
        Dialect::Rfc8941 => false,
        Dialect::Rfc9651 => byte == b'@',
    }
}

impl NumberPlace {
    /// What may come here.
    #[inline(always)]
    pub fn allowed(self) -> Allowed
        ensures expected { Marks result.expected (in_number self) }
        ensures may_end { result.may_end ≡ ends_number self }
    {
        match self {
            NumberPlace::Whole(count) => Allowed::new(
                set_if(count < 15, DIGITS) | set_if(count >= 1, set_if(count <= 12, POINT)),
                count >= 1,
            ),
            NumberPlace::Fraction(count) => Allowed::new(set_if(count < 3, DIGITS), count >= 1),
            NumberPlace::At => Allowed::new(MINUS | DIGITS, false),
            NumberPlace::DateDigits(count) => Allowed::new(set_if(count < 15, DIGITS), count >= 1),
        }
    }
}
