//! The numbers that C passes for a dialect and a kind, and parsing for the calls that need a value.
ghost use Rattle.std.specs.Prelude.{◌≡◌};
ghost use Rattle.std.specs.Result.{result_map_both};
ghost use Rattle.sf_value.specs.declared.value.Field.TheVariants as field_is;
ghost use Rattle.sf_value.specs.declared.value.Kind.TheVariants as kind_is;
ghost use Rattle.sf_c.specs.Calls.{dialect_at, kind_at};
ghost use Rattle.sf_c.specs.Parsing.{ParsesOrSays, RefusesOrNot};

use crate::refusal::SyntaxRefusal;
use crate::seed::Seed;
use crate::status::Status;
use sf_parse::{Refusal, parse_text_in, refuse_text};
use sf_value::{Dialect, Dict, Field, Kind};
use std::alloc::Global;

/// What a scanner made of a text before it is parsed.
#[derive(Clone, Copy, Debug, Drop)]
pub(crate) enum Scan {
    /// It was not scanned.
    Skipped,
    /// The scanner declined it, so most likely it is malformed.
    Declined,
}

/// The dialect of this number, an `sf_dialect` of `include/sf.h`.
pub(crate) fn dialect_of(number: u32) -> Option<Dialect>
    ensures { result ≡ dialect_at number }
{
    match number {
        9651 => Some(Dialect::Rfc9651),
        8941 => Some(Dialect::Rfc8941),
        _ => None,
    }
}

/// The kind of this number, an `sf_kind` of `include/sf.h`.
pub(crate) fn kind_of(number: u32) -> Option<Kind>
    ensures { result ≡ kind_at number }
{
    match number {
        1 => Some(Kind::Item),
        2 => Some(Kind::List),
        3 => Some(Kind::Dict),
        _ => None,
    }
}

/// Whether the text spells no value of the kind; if so, its refusal is put into the struct, which is
/// otherwise unchanged. It does not allocate. It is not inlined, so that an accepted text doesn't pay
/// for its stack.
#[inline(never)]
pub(crate) fn refuse(dialect: Dialect, kind: Kind, text: &[u8], refusal: &mut SyntaxRefusal) -> bool
    ensures { RefusesOrNot refusal.old refusal.new text.now dialect kind result }
{
    match refuse_text(dialect, kind, text) {
        Some(
            Refusal::Syntax {
                place,
                found,
                expected,
                may_end,
            },
        ) => {
            *refusal = SyntaxRefusal::of(place, found, expected, may_end);
            true
        }
        Some(_) => unreachable!(),
        None => false,
    }
}

/// The value that the text spells, or the status that says why there is none. A refusal is put into
/// its struct, which is otherwise unchanged. A declined text that is malformed is refused without
/// an allocation. For any other text an allocation may fail, also if it is malformed.
pub(crate) fn parse(
    alloc: Global,
    seed: &Seed,
    scan: Scan,
    dialect: Dialect,
    kind: Kind,
    text: &[u8],
    refusal: &mut SyntaxRefusal,
) -> Result<Field, Status>
    // The text spells this value and no other, or the struct has its refusal, or an allocation
    // failed.
    ensures { ParsesOrSays refusal.old refusal.new text.now dialect kind result }
{
    if let Scan::Declined = scan {
        if refuse(dialect, kind, text, refusal) {
            return Err(Status::Refused);
        }
    }
    build(alloc, seed, dialect, kind, text, refusal)
}

/// As [`parse`], but the text is not refused first.
fn build(
    alloc: Global,
    seed: &Seed,
    dialect: Dialect,
    kind: Kind,
    text: &[u8],
    refusal: &mut SyntaxRefusal,
) -> Result<Field, Status>
    ensures { ParsesOrSays refusal.old refusal.new text.now dialect kind result }
{
    let Some(state) = seed.state() else {
        return Err(Status::OutOfMemory);
    };
    match parse_text_in(alloc, &state, dialect, kind, text) {
        Ok(field) => Ok(field),
        Err(Refusal::OutOfMemory) => Err(Status::OutOfMemory),
        Err(
            Refusal::Syntax {
                place,
                found,
                expected,
                may_end,
            },
        ) => {
            *refusal = SyntaxRefusal::of(place, found, expected, may_end);
            Err(Status::Refused)
        }
        Err(_) => unreachable!(),
    }
}

/// The Dictionary that a declined text spells, or the status that says why there is none, as of
/// [`parse`].
pub(crate) fn parse_dict(
    alloc: Global,
    seed: &Seed,
    dialect: Dialect,
    text: &[u8],
    refusal: &mut SyntaxRefusal,
) -> Result<Dict, Status>
    // The text spells this Dictionary and no other value, or the struct has its refusal, or an
    // allocation failed.
    ensures { ParsesOrSays refusal.old refusal.new text.now dialect kind_is.Dict
        (result_map_both field_is.Dict (λ status. status) result) }
{
    match parse(
        alloc,
        seed,
        Scan::Declined,
        dialect,
        Kind::Dict,
        text,
        refusal,
    )? {
        Field::Dict(dict) => Ok(dict),
        _ => unreachable!(),
    }
}
