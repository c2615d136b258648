//! A field that is being read (RFC 9651 section 4.2).
ghost use Rattle.std.specs.Prelude.{◌≡◌, ℕ, List, [], ◌∷◌, IfOk, IsOk};
ghost use Rattle.sf_parse.specs.AllocationFree.{FieldFree};
ghost use Rattle.sf_parse.specs.Parsers.{Refuses};
ghost use Rattle.sf_parse.specs.StateView.{state_of};
ghost use Rattle.sf_parse.specs.Prefixes.{LongestPrefix, unless};
ghost use Rattle.sf_parse.specs.Machine.Fields.{begin as begin_at, step as step_of};
ghost use Rattle.sf_parse.specs.Machine.Fields.{finish as finish_of};
ghost use Rattle.sf_parse.specs.Machine.Tests.{takes as takes_at, may_end as may_end_at};

use crate::context::Context;
use crate::field::{DictReader, ListReader, WholeField};
use crate::item_field::ItemFieldReader;
use crate::level::Level;
use crate::refusal::Refusal;
use sf_value::{Dialect, Field, Kind, OutOfMemory};

/// What was read of a field, by its kind.
#[derive(Drop)]
pub enum FieldState {
    Item(ItemFieldReader),
    List(ListReader),
    Dict(DictReader),
}

impl FieldState {
    /// Before the first byte of a field of this kind. It does not allocate.
    #[inline(never)]
    pub fn begin(context: &Context, kind: Kind) -> FieldState
        // Its state is the first one of the kind.
        ensures { state_of result ≡ begin_at kind }
    {
        match kind {
            Kind::Item => FieldState::Item(ItemFieldReader::begin(context)),
            Kind::List => FieldState::List(ListReader::begin(context)),
            Kind::Dict => FieldState::Dict(DictReader::begin(context)),
        }
    }

    /// Takes the longest prefix of the chunk that the field can continue with, and returns the
    /// rest. A chunk of one byte is pushed, which takes less time than to look for a run.
    #[inline(always)]
    pub fn take<'a>(&mut self, context: &Context, chunk: &'a [u8]) -> Result<&'a [u8], OutOfMemory>
        // The bytes before the rest lead to the new state, which can't take the first of the rest.
        ensures prefix { IfOk result (λ rest. LongestPrefix (step_of context.now.dialect)
            (state_of self.old) chunk.now rest.now (state_of self.new)) }
        // With an allocation-free chunk the call does not fail.
        ensures allocation_free { FieldFree (state_of self.old) chunk.now → IsOk result }
    {
        if let Some((byte, more)) = chunk.split_first() {
            if more.is_empty() {
                return if self.push(context, *byte)? {
                    Ok(more)
                } else {
                    Ok(chunk)
                };
            }
        }
        self.take_run(context, chunk)
    }

    /// As [`FieldState::take`], by the levels, which take runs. It is inlined, and the rest is
    /// taken out of each result, as in `take_part` of the levels: a result that is passed on as a
    /// whole is loaded from memory while its parts are still being stored there one by one, and
    /// waits for them.
    #[inline(always)]
    fn take_run<'a>(&mut self, context: &Context, chunk: &'a [u8]) -> Result<&'a [u8], OutOfMemory>
        // The bytes before the rest lead to the new state, which can't take the first of the rest.
        ensures prefix { IfOk result (λ rest. LongestPrefix (step_of context.now.dialect)
            (state_of self.old) chunk.now rest.now (state_of self.new)) }
        // With an allocation-free chunk the call does not fail.
        ensures allocation_free { FieldFree (state_of self.old) chunk.now → IsOk result }
    {
        match self {
            FieldState::Item(item) => {
                let rest = item.take(context, chunk)?;
                return Ok(rest);
            }
            FieldState::List(list) => {
                let rest = list.take(context, chunk)?;
                return Ok(rest);
            }
            FieldState::Dict(dict) => {
                let rest = dict.take(context, chunk)?;
                return Ok(rest);
            }
        }
    }

    /// Takes one byte, or reports that the field can't continue with it.
    #[inline(never)]
    pub fn push(&mut self, context: &Context, byte: u8) -> Result<bool, OutOfMemory>
        // A byte that is taken leads to the next state; otherwise the field can't continue with it,
        // and is unchanged.
        ensures prefix { IfOk result (λ took. LongestPrefix (step_of context.now.dialect)
            (state_of self.old) (byte ∷ []) (unless took byte) (state_of self.new)) }
        // If the byte and some bytes after it are allocation-free, the call does not fail.
        ensures allocation_free { (more : List ℕ) → FieldFree (state_of self.old) (byte ∷ more)
            → IsOk result }
    {
        match self {
            FieldState::Item(item) => item.push(context, byte),
            FieldState::List(list) => list.push(context, byte),
            FieldState::Dict(dict) => dict.push(context, byte),
        }
    }

    /// The refusal of the byte that was found at this place, or of the end if none was.
    #[inline(never)]
    pub fn refuse(&self, dialect: Dialect, place: u64, found: Option<u8>) -> Refusal
        // It names the bytes that the state takes, and whether it may end.
        ensures { Refuses (takes_at dialect (state_of self.now)) (may_end_at (state_of self.now))
            place found result }
    {
        match self {
            FieldState::Item(item) => item.refuse(dialect, place, found),
            FieldState::List(list) => list.refuse(dialect, place, found),
            FieldState::Dict(dict) => dict.refuse(dialect, place, found),
        }
    }

    /// Whether the field may end here.
    pub fn may_end(&self) -> bool
        ensures { result ≡ may_end_at (state_of self.now) }
    {
        match self {
            FieldState::Item(item) => item.may_end(),
            FieldState::List(list) => list.may_end(),
            FieldState::Dict(dict) => dict.may_end(),
        }
    }

    /// The field, if it may end here. Its value is taken out of the reader.
    #[inline(never)]
    pub fn finish(&mut self, context: &Context) -> Result<Option<Field>, OutOfMemory>
        // The field is the value that the state has at the end, if it has one.
        ensures value { IfOk result (λ field. field ≡ finish_of (state_of self.old)) }
        // If the state is allocation-free, the call does not fail.
        ensures allocation_free { FieldFree (state_of self.old) [] → IsOk result }
    {
        match self {
            FieldState::Item(item) => Ok(item.finish_whole(context)?.map(Field::Item)),
            FieldState::List(list) => Ok(list.finish_whole(context)?.map(Field::List)),
            FieldState::Dict(dict) => Ok(dict.finish_whole(context)?.map(Field::Dict)),
        }
    }
}
