//! What may come at a place in the grammar.
ghost use Rattle.std.specs.Prelude.{◌≡◌, ◌&&◌, ◌||◌, ℕ, Bool};
ghost use Rattle.sf_scan.specs.Sets.{Marks};

use crate::byte_sets::set_if;

/// What may come at a place.
#[derive(Clone, Copy)]
pub struct Allowed {
    /// The bytes below 128, a bit for each.
    pub expected: u128,
    /// Whether the construct may end there.
    pub may_end: bool,
}

impl Allowed {
    /// These bytes, and also the end if `may_end`.
    #[inline]
    pub fn new(expected: u128, may_end: bool) -> Allowed
        ensures { result ≡ record { expected = expected; may_end = may_end } }
    {
        Allowed { expected, may_end }
    }

    /// The same, and these bytes too if the construct may end: they may come after it.
    #[inline]
    pub fn or_after(self, more: u128) -> Allowed
        ensures expected { (next after : ℕ → Bool) → Marks self.expected next → Marks more after
            → Marks result.expected (λ b. next b || (self.may_end && after b)) }
        ensures may_end { result.may_end ≡ self.may_end }
    {
        Allowed::new(self.expected | set_if(self.may_end, more), self.may_end)
    }
}
