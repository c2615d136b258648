//! What the parts of a value are added to, once they are complete.
ghost use Rattle.std.specs.Prelude.{◌≡◌, [], ◌∷◌, ◌++◌, Some, OnOk, IsOk, MatchResult, ⊤};
ghost use Rattle.sf_value.specs.InPlace.{FitsInPlace};
ghost use Rattle.sf_value.specs.declared.value.Member.TheVariants as member_is;

use sf_value::{Item, Member, OutOfMemory, Sequence, ShortBytes};

/// Takes the parts of a value, one after the other. A part is built where it is added, and not
/// returned from level to level.
pub trait Gather<T> {
    // The value with one more part.
    ghost with: { Self → T → Self };

    // Adding one more part does not allocate.
    ghost free: { Type 0 };

    /// Adds a part at the end.
    fn add(&mut self, part: T) -> Result<(), OutOfMemory>
        // There is one more part.
        ensures added { OnOk result (self.new ≡ with self.old part) }
        // If one more part does not allocate, no allocation fails.
        ensures free { free → IsOk result };
}

/// The Items of an Inner List.
impl Gather<Item> for Sequence<Item> {
    ghost with = { λ items item. items ++ item ∷ [] };

    ghost free = { ⊥ };

    #[inline(always)]
    fn add(&mut self, part: Item) -> Result<(), OutOfMemory> {
        self.push_or_drop(part)
    }
}

/// The members of a List that are Items.
impl Gather<Item> for Sequence<Member> {
    ghost with = { λ members item. members ++ member_is.Item item ∷ [] };

    ghost free = { ⊥ };

    #[inline(always)]
    fn add(&mut self, part: Item) -> Result<(), OutOfMemory> {
        self.push_or_drop(Member::Item(part))
    }
}

/// One Item.
impl Gather<Item> for Option<Item> {
    ghost with = { λ none item. Some item };

    ghost free = { ⊤ };

    #[inline(always)]
    fn add(&mut self, part: Item) -> Result<(), OutOfMemory> {
        *self = Some(part);
        Ok(())
    }
}

/// One member that is an Item.
impl Gather<Item> for Option<Member> {
    ghost with = { λ none item. Some (member_is.Item item) };

    ghost free = { ⊤ };

    #[inline(always)]
    fn add(&mut self, part: Item) -> Result<(), OutOfMemory> {
        *self = Some(Member::Item(part));
        Ok(())
    }
}

/// Adds a run of bytes at the end. A run after a first byte is often empty, and then costs no call.
#[inline(always)]
pub fn extend(bytes: &mut ShortBytes, run: &[u8]) -> Result<(), OutOfMemory>
    ensures bytes { MatchResult result (λ _. bytes.new ≡ bytes.old ++ run.now)
        (λ _. bytes.new ≡ bytes.old) }
    // With at most 16 bytes it is never out of memory.
    ensures in_place { FitsInPlace (bytes.old ++ run.now) → IsOk result }
{
    if run.is_empty() {
        return Ok(());
    }
    bytes.extend(run)
}
