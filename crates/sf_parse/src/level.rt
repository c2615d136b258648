//! What every level of the grammar has in common: it takes the longest prefix of a chunk.
ghost use Rattle.std.specs.Prelude.{◌≡◌, ℕ, Bool, List, [], ◌∷◌, Option, Some, true, false, is_some, IfOk, IsOk};
ghost use Rattle.sf_value.specs.declared.dialect.Dialect.{Dialect};
ghost use Rattle.sf_parse.specs.Expected.{MarksStep};
ghost use Rattle.sf_parse.specs.Prefixes.{Goes, FirstIs, LongestPrefix, unless};
ghost use Rattle.sf_parse.specs.Machine.Language.{Steps};
ghost use Rattle.sf_parse.specs.Parsers.{Refuses};

use crate::context::Context;
use crate::refusal::Refusal;
use sf_value::{Dialect, OutOfMemory};

/// A level of the grammar that is being read: contracts see its state of the machine.
pub trait Level {
    // What the machine does with one more byte.
    ghost next: { Dialect → Self → ℕ → Option Self };

    // The part that is open can't continue with this byte.
    ghost stuck: { Dialect → Self → ℕ → Type 0 };

    // Whether it may end.
    ghost ends: { Self → Bool };

    // The states and further bytes that are allocation-free.
    ghost allocation_free: { Dialect → Self → List ℕ → Type 0 };

    /// Takes what the part that is open can continue with, and returns the rest.
    fn take_part<'a>(&mut self, context: &Context, chunk: &'a [u8]) -> Result<&'a [u8], OutOfMemory>
        // The bytes before the rest lead the machine from the old state to the new one.
        ensures goes { IfOk result (λ rest. Goes (next context.now.dialect) self.old chunk.now
            rest.now self.new) }
        // The part that is open can't continue with the first byte of the rest.
        ensures stuck { IfOk result (λ rest. FirstIs (stuck context.now.dialect self.new)
            rest.now) }
        // If the chunk is allocation-free, no allocation fails.
        ensures allocation_free { allocation_free context.now.dialect self.old chunk.now
            → IsOk result };

    /// Takes a byte with which the part that is open can't continue, or returns false, and is
    /// unchanged, if the level can't either. Each implementation is inlined: with a call for each
    /// turn, a List of short members would take a sixth more instructions.
    fn turn(&mut self, context: &Context, byte: u8) -> Result<bool, OutOfMemory>
        // A byte that the part can't take leads to the next state, or it can't and the state is
        // unchanged.
        ensures step { IfOk result (λ took. stuck context.now.dialect self.old byte
            → Steps took (next context.now.dialect self.old byte) self.old self.new) }
        // If the byte and some bytes after it are allocation-free, no allocation fails.
        ensures allocation_free { (more : List ℕ)
            → allocation_free context.now.dialect self.old (byte ∷ more) → IsOk result };

    /// Takes a byte that the part that is open continues with, or reports that the part can't.
    fn push_part(&mut self, context: &Context, byte: u8) -> Result<bool, OutOfMemory>
        // A byte that is taken leads to the next state; otherwise the state is unchanged.
        ensures goes { IfOk result (λ took. Goes (next context.now.dialect) self.old (byte ∷ [])
            (unless took byte) self.new) }
        // The part that is open can't continue with a byte that is not taken.
        ensures stuck { IfOk result (λ took. FirstIs (stuck context.now.dialect self.new)
            (unless took byte)) }
        // If the byte and some bytes after it are allocation-free, no allocation fails.
        ensures allocation_free { (more : List ℕ)
            → allocation_free context.now.dialect self.old (byte ∷ more) → IsOk result };

    /// The bytes below 128 that the level can continue with, a bit for each.
    fn expected(&self, dialect: Dialect) -> u128
        ensures { MarksStep result (next dialect self.now) };

    /// Whether the level may end here.
    fn may_end(&self) -> bool
        ensures { result ≡ ends self.now };

    // If the bytes are allocation-free, those after the first are, too.
    ghost keeps: { (d : Dialect) (s t : Self) (b : ℕ) (more : List ℕ)
        → allocation_free d s (b ∷ more) → next d s b ≡ Some t → allocation_free d t more };

    /// The refusal of the byte that was found at this place, or of the end if none was.
    final fn refuse(&self, dialect: Dialect, place: u64, found: Option<u8>) -> Refusal
        // It names the bytes that the level can continue with, and whether it may end.
        ensures { Refuses (λ b. is_some (next dialect self.now b)) (ends self.now) place found
            result }
    {
        Refusal::Syntax {
            place,
            found,
            expected: self.expected(dialect),
            may_end: self.may_end(),
        }
    }

    /// Takes one byte, or returns false if the level can't continue with it: as `take` does,
    /// without looking for a run.
    #[inline(always)]
    final fn push(&mut self, context: &Context, byte: u8) -> Result<bool, OutOfMemory>
        // A byte that is taken leads to the next state; otherwise the level can't continue with it,
        // and is unchanged.
        ensures prefix { IfOk result
            (λ took. LongestPrefix (next context.now.dialect) self.old (byte ∷ [])
            (unless took byte) self.new) }
        // If the byte and some bytes after it are allocation-free, no allocation fails.
        ensures allocation_free { (more : List ℕ)
            → allocation_free context.now.dialect self.old (byte ∷ more) → IsOk result }
    {
        if self.push_part(context, byte)? {
            return Ok(true);
        }
        self.turn(context, byte)
    }

    /// Takes the longest prefix of the chunk that the level can continue with, and returns the
    /// rest.
    final fn take<'a>(
        &mut self,
        context: &Context,
        chunk: &'a [u8],
    ) -> Result<&'a [u8], OutOfMemory>
        // The bytes before the rest lead to the new state, which can't take the first of the rest.
        ensures prefix { IfOk result
            (λ rest. LongestPrefix (next context.now.dialect) self.old chunk.now
            rest.now self.new) }
        // If the chunk is allocation-free, no allocation fails.
        ensures allocation_free { allocation_free context.now.dialect self.old chunk.now
            → IsOk result }
    {
        let mut rest = chunk;
        while !rest.is_empty() {
            rest = self.take_part(context, rest)?;
            let Some((byte, more)) = rest.split_first() else {
                return Ok(rest);
            };
            if !self.turn(context, *byte)? {
                return Ok(rest);
            }
            rest = more;
        }
        Ok(rest)
    }
}
