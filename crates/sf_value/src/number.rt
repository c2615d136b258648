//! Numbers of at most 15 digits (RFC 9651 sections 3.3.1, 3.3.2 and 3.3.7).
ghost use Rattle.std.specs.Prelude.{◌≡◌, ℤ, ◌^◌, ◌<◌, ◌↔◌, IsOk, IfOk, nat_abs};
ghost use Rattle.std.specs.Result.{OkIff};

use crate::fault::OutOfRange;
use std::marker::Model;

/// The largest number of 15 digits.
const LARGEST: i64 = 999_999_999_999_999;

/// A whole number of at most 15 digits, from -999,999,999,999,999 to 999,999,999,999,999: the value
/// of an Integer (RFC 9651 section 3.3.1), and of a Date (section 3.3.7) in seconds since
/// 1970-01-01T00:00:00Z, leap seconds not counted. Contracts see the number.
///
/// ```
/// let most = Int::new(999_999_999_999_999)?;
/// Int::new(1_000_000_000_000_000) // Err(OutOfRange)
/// ```
#[derive(Clone, Copy, Debug, PartialEq, Eq)]
pub struct Int {
    value: i64,
}

impl Model for Int {
    ghost Value = { ℤ };

    ghost view = { λ n. n.value };

    ghost invariant = { λ n. nat_abs n.value < 10 ^ 15 };

    ghost inverse = { λ n. record { value = n } };
}

/// A whole number of thousandths, of at most 15 digits, from -999,999,999,999,999 to
/// 999,999,999,999,999: the value of a Decimal (RFC 9651 section 3.3.2), which has at most 12
/// digits before the point and 3 after it. So 1500 is 1.5. Contracts see the number of thousandths.
///
/// ```
/// let number = Thousandths::new(1500)?; // 1.5
/// number.get() // 1500
/// ```
#[derive(Clone, Copy, Debug, PartialEq, Eq)]
pub struct Thousandths {
    thousandths: i64,
}

impl Model for Thousandths {
    ghost Value = { ℤ };

    ghost view = { λ n. n.thousandths };

    ghost invariant = { λ n. nat_abs n.thousandths < 10 ^ 15 };

    ghost inverse = { λ n. record { thousandths = n } };
}

impl Int {
    /// The number if it has at most 15 digits (RFC 9651 section 3.3.1); `OutOfRange` if and only if
    /// it has more. It does not allocate.
    pub fn new(value: i64) -> Result<Int, OutOfRange>
        ensures short { IsOk result ↔ (nat_abs value < 10 ^ 15) }
        ensures value { IfOk result (λ n. n ≡ value) }
    {
        if -LARGEST <= value && value <= LARGEST {
            Ok(Int { value })
        } else {
            Err(OutOfRange)
        }
    }

    /// The number. It does not allocate.
    pub fn get(&self) -> i64
        ensures value { result ≡ self.now }
        ensures short { nat_abs self.now < 10 ^ 15 }
    {
        self.value
    }
}

impl Thousandths {
    /// The Decimal of this number of thousandths, if that has at most 15 digits (RFC 9651 section
    /// 3.3.2); `OutOfRange` if and only if it has more. It does not allocate.
    pub fn new(value: i64) -> Result<Thousandths, OutOfRange>
        ensures short { IsOk result ↔ (nat_abs value < 10 ^ 15) }
        ensures value { IfOk result (λ n. n ≡ value) }
    {
        if -LARGEST <= value && value <= LARGEST {
            Ok(Thousandths { thousandths: value })
        } else {
            Err(OutOfRange)
        }
    }

    /// The number of thousandths. It does not allocate.
    pub fn get(&self) -> i64
        ensures value { result ≡ self.now }
        ensures short { nat_abs self.now < 10 ^ 15 }
    {
        self.thousandths
    }
}

/// The number if it has at most 15 digits, as by [`Int::new`].
impl TryFrom<i64> for Int {
    type Error = OutOfRange;

    ghost try_from_gives = { λ n r. OkIff r (nat_abs n < 10 ^ 15) n };

    fn try_from(value: i64) -> Result<Int, OutOfRange> {
        Int::new(value)
    }
}

/// The number, which has at most 10 digits.
impl From<i32> for Int {
    ghost from_gives = { λ n int. int ≡ n };

    fn from(value: i32) -> Int {
        Int {
            value: i64::from(value),
        }
    }
}

/// The number.
impl From<Int> for i64 {
    ghost from_gives = { λ int n. n ≡ int };

    fn from(number: Int) -> i64 {
        number.get()
    }
}

/// The Decimal of this number of thousandths, as by [`Thousandths::new`].
impl TryFrom<i64> for Thousandths {
    type Error = OutOfRange;

    ghost try_from_gives = { λ n r. OkIff r (nat_abs n < 10 ^ 15) n };

    fn try_from(value: i64) -> Result<Thousandths, OutOfRange> {
        Thousandths::new(value)
    }
}

/// The Decimal of this number of thousandths.
impl From<i32> for Thousandths {
    ghost from_gives = { λ n number. number ≡ n };

    fn from(value: i32) -> Thousandths {
        Thousandths {
            thousandths: i64::from(value),
        }
    }
}

/// The number of thousandths.
impl From<Thousandths> for i64 {
    ghost from_gives = { λ number n. n ≡ number };

    fn from(number: Thousandths) -> i64 {
        number.get()
    }
}
