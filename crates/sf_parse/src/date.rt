//! A Date that is being read (RFC 9651 section 4.2.9).
ghost use Rattle.std.specs.Prelude.{◌≡◌};
ghost use Rattle.sf_parse.specs.BarePlaces.{date_place};
ghost use Rattle.sf_parse.specs.Prefixes.{Goes};
ghost use Rattle.sf_parse.specs.Machine.Language.{Steps};
ghost use Rattle.sf_parse.specs.Machine.Numbers.{Sign, date_step, date_finish};

use crate::number::with_sign;
use sf_scan::number_place::NumberPlace;
use sf_scan::place::BarePlace;
use sf_value::Int;
use std::marker::Model;

/// What was read of a date after its `@`: the sign, and the digits.
#[derive(Drop)]
pub struct DateReader {
    begun: bool,
    negative: bool,
    digits: u8,
    value: u64,
}

impl Model for DateReader {
    ghost use Rattle.sf_parse.specs.Machine.Numbers.{DateState};

    ghost Value = { DateState };

    ghost use Rattle.sf_parse.specs.Views.{date_of, FitsDate};

    ghost view = { λ n. date_of n.begun n.negative n.digits n.value };

    ghost invariant = { λ n. FitsDate n.begun n.negative n.digits n.value };
}

impl DateReader {
    /// After the `@`.
    pub fn open() -> DateReader
        ensures { result ≡ Sign }
    {
        DateReader {
            begun: false,
            negative: false,
            digits: 0,
            value: 0,
        }
    }

    /// Takes one more byte, or reports that the date can't continue with it and is unchanged. It
    /// has at most 15 digits, as an Integer (RFC 9651 section 3.3.1).
    #[tactic(auto, using(crate::proofs::Numerals::digit_fits, crate::proofs::Numerals::next_digit))]
    pub fn step(&mut self, byte: u8) -> bool
        // The byte leads to the next state, or it can't and the state is unchanged.
        ensures { Steps result (date_step self.old byte) self.old self.new }
    {
        if !self.begun && byte == b'-' {
            self.begun = true;
            self.negative = true;
            return true;
        }
        if !byte.is_ascii_digit() || self.digits >= 15 {
            return false;
        }
        self.begun = true;
        self.value = 10 * self.value + u64::from(byte - b'0');
        self.digits += 1;
        true
    }

    /// Takes the bytes that the date continues with, and returns the rest.
    pub fn take_run<'a>(&mut self, chunk: &'a [u8]) -> &'a [u8]
        // The bytes before the rest lead the machine from the old state to the new one.
        ensures { Goes date_step self.old chunk.now result.now self.new }
    {
        let mut rest = chunk;
        while let Some((byte, more)) = rest.split_first() {
            if !self.step(*byte) {
                return rest;
            }
            rest = more;
        }
        rest
    }

    /// The place in the grammar after what was read.
    pub fn place(&self) -> BarePlace
        ensures { result ≡ date_place self.now }
    {
        if self.begun {
            BarePlace::Number(NumberPlace::DateDigits(self.digits))
        } else {
            BarePlace::Number(NumberPlace::At)
        }
    }

    /// The date, if it is one already.
    #[tactic(auto, using(crate::proofs::Numerals::short))]
    pub fn finish(&self) -> Option<Int>
        // It is the value that the state has at the end, if it has one.
        ensures { result ≡ date_finish self.now }
    {
        if self.digits == 0 {
            return None;
        }
        Int::new(with_sign(self.negative, self.value)).ok()
    }
}
