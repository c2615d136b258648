//! The capacity of vectors that grow by one value at a time, and of copies of their values.
ghost use Rattle.std.specs.Prelude.{◌≤◌};
ghost use Rattle.sf_value.specs.Capacities.{HasGrown};

/// The capacity of a vector after the first addition.
pub(crate) const FIRST: usize = 4;

/// The capacity for a copy of this many values: the same that adding them one by one would give, so
/// that adding to a copy reallocates no more often than adding to its source.
#[inline]
pub(crate) fn capacity_for(len: usize) -> usize
    ensures enough { len ≤ result }
    ensures grown { HasGrown len result }
{
    if len == 0 {
        return 0;
    }
    match len.max(FIRST).checked_next_power_of_two() {
        Some(capacity) => capacity,
        // No memory can hold this many.
        None => len,
    }
}
