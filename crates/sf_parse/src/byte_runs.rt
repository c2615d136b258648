//! Sets of bytes below 128, such as those that a refusal expects, and their runs.
ghost use Rattle.std.specs.Prelude.{◌≡◌, ◌+◌, ◌-◌, ◌<◌, ◌≤◌, [], ◌∷◌, true, Some, length};
ghost use Rattle.std.specs.Prelude.{MatchOption, IfSome};
ghost use Rattle.std.specs.Iterator.{at_most};
ghost use Rattle.std.specs.Map.Iter.{TakesFirst};
ghost use Rattle.sf_parse.specs.ByteSets.{is_in, HasNone, hex_byte, runs_from};
ghost use Rattle.sf_parse.specs.ByteSets.{runs_of as runs_in};

use sf_value::hex_digits;
use std::fmt;
use std::marker::Model;

/// The runs that remain of an iteration over a set of bytes: see [`runs_of`].
#[derive(Debug, Drop)]
pub struct Runs {
    set: u128,
    from: u8,
}

impl Model for Runs {
    ghost use Rattle.std.specs.Prelude.{ℕ, List, ◌-◌};
    ghost use Rattle.sf_parse.specs.ByteSets.{runs_from};

    ghost Value = { List (ℕ × ℕ) };

    ghost view = { λ r. runs_from r.set r.from (128 - r.from) };
}

/// The runs of a set of bytes below 128, such as the `expected` of [`crate::Refusal::Syntax`]: byte
/// b is in the set if bit b is set. Each run is its first and its last byte; the runs are in
/// ascending order, and each is as long as possible. It does not allocate.
///
/// ```
/// runs_of(0x3ff << 48).next() // Some((b'0', b'9'))
/// ```
pub fn runs_of(set: u128) -> Runs
    ensures { result ≡ runs_in set }
{
    Runs { set, from: 0 }
}

impl Iterator for Runs {
    type Item = (u8, u8);

    ghost next_gives = { TakesFirst (λ run. run) };

    ghost remaining = { λ runs. at_most (length runs) };

    fn next(&mut self) -> Option<(u8, u8)> {
        let (first, last) = next_run(self.set, self.from)?;
        self.from = last + 1;
        Some((first, last))
    }
}

/// A byte, shown as its two lower-case hexadecimal digits.
#[derive(Clone, Copy, Drop)]
pub(crate) struct Hex {
    pub byte: u8,
}

impl fmt::Display for Hex {
    ghost output = { λ hex. Some (hex_byte hex.byte) };

    fn fmt<W: fmt::Write>(&self, f: &mut fmt::Formatter<W>) -> fmt::Result {
        let [high, low] = hex_digits(self.byte);
        let high = char::from(high);
        let low = char::from(low);
        write!(f, "{high}{low}")
    }
}

/// The first byte of the set from this byte on.
#[inline]
pub(crate) fn first_from(set: u128, from: u8) -> Option<u8>
    requires { from < 128 }
    // The bytes before it are not in the set, or none is.
    ensures { MatchOption result (HasNone set from 128)
        (λ b. (from ≤ b) × (b < 128) × (is_in set b ≡ true) × HasNone set from b) }
{
    let left = set >> from;
    if left == 0 {
        return None;
    }
    Some(from + left.trailing_zeros() as u8)
}

/// The last byte of the run that begins at this byte of the set.
fn run_end(set: u128, first: u8) -> u8
    requires within { first < 128 }
    // The byte is in the set.
    requires set { is_in set first ≡ true }
    // The runs from this byte on are the one that ends here, and those after it.
    ensures run { runs_from set first (128 - first)
        ≡ (first, result) ∷ runs_from set (result + 1) (128 - (result + 1)) }
    ensures forward { first ≤ result }
    ensures within { result < 128 }
{
    match first_from(!set, first) {
        Some(next) => next - 1,
        None => 127,
    }
}

/// The first run of the set from this byte on.
fn next_run(set: u128, from: u8) -> Option<(u8, u8)>
    // The runs from this byte on are this one and those after it, or none.
    ensures run { MatchOption result (runs_from set from (128 - from) ≡ [])
        (λ r. runs_from set from (128 - from) ≡ r ∷ runs_from set (r.1 + 1) (128 - (r.1 + 1))) }
    ensures within { IfSome result (λ r. r.1 < 128) }
{
    if from >= 128 {
        return None;
    }
    match first_from(set, from) {
        Some(first) => Some((first, run_end(set, first))),
        None => None,
    }
}
