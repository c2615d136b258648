//! The parser of chunks.
ghost use Rattle.std.specs.Prelude.{◌≡◌, ℕ, ◌+◌, ◌<◌, ◌≤◌, List, [], ◌∷◌, ◌++◌, length, true};
ghost use Rattle.std.specs.Prelude.{Some, None};
ghost use Rattle.std.specs.Prelude.{IfSome, IfNone, IfOk, OnOk, Err, MatchResult, false};
ghost use Rattle.sf_value.specs.declared.dialect.Dialect.TheVariants as dialect_is;
ghost use Rattle.sf_parse.specs.Prefixes.{FirstIs, Halts};
ghost use Rattle.sf_parse.specs.Parsers.{HasTaken, StandsAt, Feeds, Finishes, in_line};
ghost use Rattle.sf_parse.specs.Feeding.{FeedsPrefix, TakesAllocationFree};
ghost use Rattle.sf_parse.specs.AllocationFree.{TakesNoMemory};
ghost use Rattle.sf_parse.specs.AllocationFreeParsers.{IsAllocationFree, IsOther};
ghost use Rattle.sf_parse.specs.AllocationFreeParsers.{KeepsAllocationFree, NotForMemory};
ghost use Rattle.sf_parse.specs.Machine.Fields.{step as step_of};
ghost use Rattle.sf_parse.specs.Machine.Tests.{may_end};

use crate::context::Context;
use crate::refusal::Refusal;
use crate::state::FieldState;
use sf_value::{Dialect, Field, Kind};
use std::alloc::Global;
use std::fmt;
use std::hash::RandomState;
use std::marker::Model;

/// What was taken of a text, and why it was refused. It keeps no text: only the values built so far
/// and the open construct.
///
/// ```
/// let mut parser = Parser::new(alloc, &seed, Kind::List, 1000);
/// parser.feed(b"a, ")?;
/// parser.feed(b"b")?;
/// parser.place() // 4
/// let list = parser.finish()?;
/// ```
pub struct Parser {
    context: Context,
    kind: Kind,
    max: u64,
    state: FieldState,
    count: u64,
    refusal: Option<Refusal>,
    after_line: bool,
}

impl Model for Parser {
    ghost use Rattle.sf_parse.specs.Parsers.{Progress, Sound};
    ghost use Rattle.sf_parse.specs.StateView.{state_of};

    ghost Value = { Progress };

    ghost view = { λ p. record {
      dialect = p.context.dialect;
      kind = p.kind;
      max = p.max;
      state = state_of p.state;
      count = p.count;
      refusal = p.refusal;
      after_line = p.after_line;
    } };

    ghost invariant = { λ p. Sound p.refusal (state_of p.state) p.count p.max };
}

// Written out, so that a drop of a parser is one call.
impl Drop for Parser {
    fn drop(self) {
        let Parser {
            context: _,
            kind: _,
            max: _,
            state: _,
            count: _,
            refusal: _,
            after_line: _,
        } = self;
    }
}

/// Prints the kind, the limit, the place and the refusal, but neither the values read nor the seed.
impl fmt::Debug for Parser {
    fn fmt<W: fmt::Write>(&self, f: &mut fmt::Formatter<W>) -> fmt::Result {
        f.debug_struct("Parser")
            .field("kind", &self.kind)
            .field("max", &self.max)
            .field("place", &self.count)
            .field("refusal", &self.refusal)
            .finish()
    }
}

impl Parser {
    /// A parser for a text of this kind, of at most `max` bytes, in the dialect of RFC 9651. It
    /// does not allocate.
    pub fn new(alloc: Global, seed: &RandomState, kind: Kind, max: u64) -> Parser
        ensures dialect { result.dialect ≡ dialect_is.Rfc9651 }
        ensures kind { result.kind ≡ kind }
        ensures max { result.max ≡ max }
        // It took the empty text and refused nothing.
        ensures took { HasTaken result [] }
        // No field line came before.
        ensures lines { result.after_line ≡ false }
        // A text of the kind that does not allocate is fed and ended without an allocation.
        ensures allocation_free { (text : List ℕ) → TakesNoMemory kind text
            → IsAllocationFree result text }
    {
        Parser::new_in(alloc, seed, Dialect::Rfc9651, kind, max)
    }

    /// A parser for a text of this kind, of at most `max` bytes, in this dialect. It does not
    /// allocate.
    pub fn new_in(
        alloc: Global,
        seed: &RandomState,
        dialect: Dialect,
        kind: Kind,
        max: u64,
    ) -> Parser
        ensures dialect { result.dialect ≡ dialect }
        ensures kind { result.kind ≡ kind }
        ensures max { result.max ≡ max }
        // It took the empty text and refused nothing.
        ensures took { HasTaken result [] }
        // No field line came before.
        ensures lines { result.after_line ≡ false }
        // A text of the kind that does not allocate is fed and ended without an allocation.
        ensures allocation_free { (text : List ℕ) → TakesNoMemory kind text
            → IsAllocationFree result text }
    {
        let context = Context::new(alloc, seed, dialect);
        Parser {
            context,
            kind,
            max,
            state: FieldState::begin(&context, kind),
            count: 0,
            refusal: None,
            after_line: false,
        }
    }

    /// The number of bytes taken: after a Syntax refusal its place, after TooLong the limit, and
    /// after OutOfMemory at most the length of the text fed, lines joined. It does not allocate.
    ///
    /// ```
    /// parser.feed(b"a, ")?;
    /// parser.place() // 3
    /// ```
    pub fn place(&self) -> u64
        ensures count { result ≡ self.now.count }
        // It is the place of a Syntax refusal, and the limit after TooLong.
        ensures refused { IfSome self.now.refusal (λ e. StandsAt e result self.now.max) }
    {
        self.count
    }

    /// Takes the bytes, all within the limit, that the field can continue with, and returns the
    /// rest.
    fn take<'a>(&mut self, prefix: &'a [u8]) -> Result<&'a [u8], Refusal>
        requires unrefused { self.old.refusal ≡ None }
        // The prefix is within the limit.
        requires capacity { self.old.count + length prefix.now ≤ self.old.max }
        // Ok took the bytes before the rest; a refusal remains, whatever comes after the prefix.
        ensures fed { MatchResult result (λ rest. FeedsPrefix self.old self.new prefix.now rest.now)
            (λ e. Feeds self.old self.new (Err e) prefix.now) }
        // The count increases by the bytes before the rest.
        ensures counted { IfOk result (λ rest. self.new.count + length rest.now
            ≡ self.old.count + length prefix.now) }
        ensures lines { self.new.after_line ≡ self.old.after_line }
        // The field can't continue with the first byte of the rest.
        ensures stops { IfOk result (λ rest. FirstIs (Halts (step_of self.new.dialect)
            self.new.state) rest.now) }
        // Allocation-free bytes are not refused as out of memory, nor are those after them.
        ensures allocation_free { (more : List ℕ) → IsAllocationFree self.old (prefix.now ++ more)
            → TakesAllocationFree self.new more result }
    {
        let rest = match self.state.take(&self.context, prefix) {
            Ok(rest) => rest,
            Err(_) => {
                self.refusal = Some(Refusal::OutOfMemory);
                return Err(Refusal::OutOfMemory);
            }
        };
        self.count += (prefix.len() - rest.len()) as u64;
        Ok(rest)
    }

    /// Refuses this byte: it is past the limit, or the field can't continue with it.
    fn refuse(&mut self, byte: u8) -> Refusal
        requires unrefused { self.old.refusal ≡ None }
        // Below the limit the field can't continue with the byte.
        requires stops { self.old.count < self.old.max
            → Halts (step_of self.old.dialect) self.old.state byte }
        // The refusal remains whatever comes after the byte.
        ensures fed { Feeds self.old self.new (Err result) (byte ∷ []) }
        ensures lines { self.new.after_line ≡ self.old.after_line }
        // It is not out of memory.
        ensures other { IsOther result }
    {
        if self.count >= self.max {
            let refusal = Refusal::TooLong { max: self.max };
            self.refusal = Some(refusal);
            return refusal;
        }
        let refusal = self
            .state
            .refuse(self.context.dialect, self.count, Some(byte));
        self.refusal = Some(refusal);
        refusal
    }

    /// Takes the next chunk, or refuses the text: with Syntax at a byte that is not allowed, with
    /// TooLong at the first byte past the limit, or with OutOfMemory if an allocation fails. A
    /// parser that refused returns the same refusal to every later call, whatever the chunk.
    ///
    /// ```
    /// parser.feed(b"a, ")?;
    /// parser.feed(b"1x") // Err: byte 0x78 'x' at place 4, expected ..
    /// ```
    pub fn feed(&mut self, chunk: &[u8]) -> Result<(), Refusal>
        // Ok took the chunk; a refusal remains, whatever comes after it.
        ensures fed { Feeds self.old self.new result chunk.now }
        // A chunk is not a field line.
        ensures lines { self.new.after_line ≡ self.old.after_line }
        // A parser that refused returns the same refusal and is unchanged.
        ensures again { IfSome self.old.refusal (λ e. (result ≡ Err e) × (self.new ≡ self.old)) }
        // An allocation-free chunk is not refused as out of memory, nor is what comes after it, if
        // that is allocation-free.
        ensures allocation_free { (more : List ℕ) → IsAllocationFree self.old (chunk.now ++ more)
            → KeepsAllocationFree self.new more result }
    {
        if let Some(refusal) = self.refusal {
            return Err(refusal);
        }
        let capacity = (self.max - self.count).min(chunk.len() as u64) as usize;
        let (prefix, suffix) = chunk.split_at(capacity);
        let rest = self.take(prefix)?;
        if let Some((byte, _)) = rest.split_first() {
            return Err(self.refuse(*byte));
        }
        if let Some((byte, _)) = suffix.split_first() {
            return Err(self.refuse(*byte));
        }
        Ok(())
    }

    /// Records that a field line was fed.
    fn mark_line(&mut self)
        ensures { self.new ≡ record self.old { after_line = true } }
    {
        self.after_line = true;
    }

    /// Takes the next field line, or refuses the text: as `feed` of the line, after a comma and a
    /// space if a line was fed before, so that the whole text is that of the lines joined (RFC 9651
    /// section 4.2). The comma and the space count for the limit and for places. A parser that
    /// refused returns the same refusal again.
    ///
    /// ```
    /// parser.feed_line(b"a, b")?;
    /// parser.feed_line(b"c")?;
    /// parser.finish()? // the List a, b, c
    /// ```
    pub fn feed_line(&mut self, line: &[u8]) -> Result<(), Refusal>
        // Ok took the line, after a comma and a space if a line came before; a refusal remains,
        // whatever comes after it.
        ensures fed { Feeds self.old self.new result (in_line self.old.after_line line.now) }
        // Once a line was taken, the next one is joined to it.
        ensures lines { OnOk result (self.new.after_line ≡ true) }
        // A parser that refused returns the same refusal and is unchanged.
        ensures again { IfSome self.old.refusal (λ e. (result ≡ Err e) × (self.new ≡ self.old)) }
        // An allocation-free line is not refused as out of memory, nor is what comes after it, if
        // that is allocation-free.
        ensures allocation_free { (more : List ℕ)
            → IsAllocationFree self.old (in_line self.old.after_line line.now ++ more)
            → KeepsAllocationFree self.new more result }
    {
        if self.after_line {
            self.feed(b", ")?;
            return self.feed(line);
        }
        self.feed(line)?;
        self.mark_line();
        Ok(())
    }

    /// The refusal at the end, if the text may not end here.
    fn refusal_at_end(&self) -> Option<Refusal>
        // A parser that refused returns the same refusal.
        ensures again { IfSome self.now.refusal (λ e. result ≡ Some e) }
        // If all bytes were taken, the refusal is exact at their end.
        ensures ended { IfSome result (λ e. (s : List ℕ) → HasTaken self.now s
            → Finishes self.now.dialect self.now.kind s (Err e)) }
        ensures unrefused { IfNone result (self.now.refusal ≡ None) }
        // Without a refusal the text may end.
        ensures whole { IfNone result (may_end self.now.state ≡ true) }
        // If the end is allocation-free, the refusal is not out of memory.
        ensures allocation_free { IsAllocationFree self.now [] → IfSome result IsOther }
    {
        if let Some(refusal) = self.refusal {
            return Some(refusal);
        }
        if self.state.may_end() {
            return None;
        }
        Some(self.state.refuse(self.context.dialect, self.count, None))
    }

    /// The value of what was taken. Fails with the refusal of an earlier call, with Syntax if the
    /// text may not end here, and with OutOfMemory if an allocation fails.
    ///
    /// ```
    /// parser.feed(b"a;q=")?;
    /// parser.finish() // Err: the text ended at place 4, expected ..
    /// ```
    pub fn finish(self) -> Result<Field, Refusal>
        // It is the one value of all bytes taken, or Syntax at their end; otherwise an allocation
        // failed.
        ensures ended { (s : List ℕ) → HasTaken self s → Finishes self.dialect self.kind s result }
        // A parser that refused returns the same refusal.
        ensures again { IfSome self.refusal (λ e. result ≡ Err e) }
        // An allocation-free end is not refused as out of memory.
        ensures allocation_free { IsAllocationFree self [] → NotForMemory result }
    {
        if let Some(refusal) = self.refusal_at_end() {
            return Err(refusal);
        }
        let Parser {
            context,
            kind: _,
            max: _,
            mut state,
            count: _,
            refusal: _,
            after_line: _,
        } = self;
        match state.finish(&context) {
            Ok(Some(field)) => Ok(field),
            Ok(None) => unreachable!(),
            Err(_) => Err(Refusal::OutOfMemory),
        }
    }
}
