//! A number that is being read (RFC 9651 section 4.2.4).
ghost use Rattle.std.specs.Prelude.{◌≡◌, ◌≤◌, ◌<◌, ◌^◌, false, nat_abs};
ghost use Rattle.sf_value.specs.Grammar.Numbers.{signed};
ghost use Rattle.sf_parse.specs.BarePlaces.{number_place};
ghost use Rattle.sf_parse.specs.Prefixes.{Goes, FirstIs, Halts, Starts};
ghost use Rattle.sf_parse.specs.Machine.Language.{Steps};
ghost use Rattle.sf_parse.specs.Machine.Numbers.{number_start, number_step, number_finish};

use sf_scan::number_place::NumberPlace;
use sf_scan::place::BarePlace;
use sf_value::{Bare, Int, Thousandths};
use std::marker::Model;

/// What was read of a number: the digits of its whole part or, after the point, those of its
/// fraction.
#[derive(Drop)]
pub struct NumberReader {
    negative: bool,
    whole: Option<u64>,
    digits: u8,
    value: u64,
}

impl Model for NumberReader {
    ghost use Rattle.sf_parse.specs.Machine.Numbers.{NumberState};

    ghost Value = { NumberState };

    ghost use Rattle.sf_parse.specs.Views.{number_of, FitsNumber};

    ghost view = { λ n. number_of n.negative n.whole n.digits n.value };

    ghost invariant = { λ n. FitsNumber n.whole n.digits n.value };
}

/// The number with its sign.
pub fn with_sign(negative: bool, value: u64) -> i64
    // It has at most 15 digits.
    requires { value ≤ 999999999999999 }
    ensures value { result ≡ signed negative value }
    // The number also has at most 15 digits.
    ensures short { nat_abs result < 10 ^ 15 }
{
    if negative {
        -(value as i64)
    } else {
        value as i64
    }
}

impl NumberReader {
    /// A reader in which no number was begun.
    pub fn none() -> NumberReader {
        NumberReader {
            negative: false,
            whole: None,
            digits: 0,
            value: 0,
        }
    }

    /// Begins a number with this byte, or returns false, and is unchanged, if none begins with it.
    pub fn start(&mut self, byte: u8) -> bool
        // The new state is the one that the byte begins, or none begins with it.
        ensures start { Starts result (number_start byte) self.new }
        // If none begins, the reader is unchanged.
        ensures kept { result ≡ false → self.new ≡ self.old }
    {
        match byte {
            b'-' => {
                self.negative = true;
                self.whole = None;
                self.digits = 0;
                self.value = 0;
                true
            }
            b'0'..=b'9' => {
                self.negative = false;
                self.whole = None;
                self.digits = 1;
                self.value = u64::from(byte - b'0');
                true
            }
            _ => false,
        }
    }

    /// Takes one more byte, or reports that the number can't continue with it and is unchanged. An
    /// Integer has at most 15 digits, and a Decimal at most 12 before the point and 3 after it (RFC
    /// 9651 sections 3.3.1 and 3.3.2).
    #[tactic(auto, using(crate::proofs::Numerals::digit_fits, crate::proofs::Numerals::whole_fits, crate::proofs::Numerals::next_digit))]
    pub fn step(&mut self, byte: u8) -> bool
        // The byte leads to the next state, or it can't and the state is unchanged.
        ensures { Steps result (number_step self.old byte) self.old self.new }
    {
        match self.whole {
            None => {
                if byte.is_ascii_digit() {
                    if self.digits >= 15 {
                        return false;
                    }
                    self.value = 10 * self.value + u64::from(byte - b'0');
                    self.digits += 1;
                } else {
                    if byte != b'.' || self.digits == 0 || self.digits > 12 {
                        return false;
                    }
                    self.whole = Some(self.value);
                    self.value = 0;
                    self.digits = 0;
                }
            }
            Some(_) => {
                if !byte.is_ascii_digit() || self.digits >= 3 {
                    return false;
                }
                self.value = 10 * self.value + u64::from(byte - b'0');
                self.digits += 1;
            }
        }
        true
    }

    /// Takes the bytes that the number continues with, and returns the rest.
    #[inline(always)]
    pub fn take_run<'a>(&mut self, chunk: &'a [u8]) -> &'a [u8]
        // The bytes before the rest lead the machine from the old state to the new one.
        ensures goes { Goes number_step self.old chunk.now result.now self.new }
        // The number can't continue with the first byte of the rest.
        ensures stop { FirstIs (Halts number_step self.new) result.now }
    {
        let mut rest = chunk;
        while let Some((byte, more)) = rest.split_first() {
            if !self.step(*byte) {
                return rest;
            }
            rest = more;
        }
        rest
    }

    /// The place in the grammar after what was read.
    pub fn place(&self) -> BarePlace
        ensures { result ≡ number_place self.now }
    {
        match self.whole {
            None => BarePlace::Number(NumberPlace::Whole(self.digits)),
            Some(_) => BarePlace::Number(NumberPlace::Fraction(self.digits)),
        }
    }

    /// The number as a bare item, if it is one already.
    #[tactic(auto, using(crate::proofs::Numerals::short))]
    pub fn finish(&self) -> Option<Bare>
        // It is the value that the state has at the end, if it has one.
        ensures { result ≡ number_finish self.now }
    {
        if self.digits == 0 {
            return None;
        }
        match self.whole {
            None => {
                let number = Int::new(with_sign(self.negative, self.value)).ok()?;
                Some(Bare::Integer(number))
            }
            Some(whole) => {
                let scale = match self.digits {
                    1 => 100,
                    2 => 10,
                    _ => 1,
                };
                let thousandths = whole * 1000 + self.value * scale;
                let number = Thousandths::new(with_sign(self.negative, thousandths)).ok()?;
                Some(Bare::Decimal(number))
            }
        }
    }
}
