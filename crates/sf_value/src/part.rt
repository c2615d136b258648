//! A part of a value: what can be compared and copied.
ghost use Rattle.std.specs.Prelude.{◌≡◌, ◌↔◌, IsTrue, IsOk, IfOk};
ghost use Rattle.std.specs.Bool.{Decides};

use crate::fault::OutOfMemory;
use std::alloc::Global;
use std::hash::RandomState;

/// A part of a value: a bare item, an Item, an Inner List, a member, and entries and sequences of
/// these. Whole fields are compared and copied by [`crate::same`] and [`crate::copy`].
pub trait Part: PartialEq + Drop {
    // Whether a copy does not allocate.
    ghost in_place: { Self → Type 0 };

    /// Whether the two are equal: the same type, the same bytes or numbers, and the same parts in
    /// the same order. It does not allocate.
    fn same(&self, other: &Self) -> bool
        ensures { IsTrue result ↔ (self.now ≡ other.now) };

    /// Another value, equal to this one. The seed is that of its entries. It fails only if an
    /// allocation fails. What is in place does not allocate: a number, a Boolean, a Date or at most
    /// 16 bytes, an Item of one of these without parameters, an Inner List without Items and
    /// parameters, and empty entries and sequences.
    fn copy(&self, alloc: Global, seed: &RandomState) -> Result<Self, OutOfMemory>
        ensures copied { IfOk result (λ copy. copy ≡ self.now) }
        // A copy of what is in place is never out of memory.
        ensures in_place { in_place self.now → IsOk result };

    // `==` holds for equal parts, and for no others.
    ghost decides: { (a b : Self) → Decides (Self.eq a b) (a ≡ b) };
}
