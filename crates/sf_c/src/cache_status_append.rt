//! A Cache-Status field that is sent on, with the own hop.
ghost use Rattle.std.specs.Prelude.{◌≡◌, [], ◌∷◌, ◌++◌, IfOk, MatchResult};
ghost use Rattle.sf_value.specs.declared.dialect.Dialect.TheVariants.{Rfc9651};
ghost use Rattle.sf_value.specs.declared.value.Field.TheVariants as field_is;
ghost use Rattle.sf_value.specs.declared.value.Kind.TheVariants as kind_is;
ghost use Rattle.sf_value.specs.Grammar.Canonical.{canon};
ghost use Rattle.sf_value.specs.Grammar.Fields.{list_of};
ghost use Rattle.sf_value.specs.Grammar.Valid.{Valid};
ghost use Rattle.sf_use.specs.CacheStatus.Members.{entry};
ghost use Rattle.sf_c.specs.Appending.{AppendsHop, GivesOwn};
ghost use Rattle.sf_c.specs.Calls.{ChecksDialect, dialect_at};
ghost use Rattle.sf_c.specs.GivenHops.{GivesNone};
ghost use Rattle.sf_c.specs.Parsing.{ParsesOrSays};
ghost use Rattle.sf_c.specs.Statuses.{status_at};
ghost use Rattle.std.specs.Result.{result_map_both};

use crate::buffer::put_text;
use crate::call::{Scan, dialect_of, parse};
use crate::hop_numbers::CONFLICT;
use crate::hop_value::hop_of;
use crate::hops::HopNode;
use crate::refusal::SyntaxRefusal;
use crate::seed::Seed;
use crate::status::Status;
use sf_use::{Hop, append_hop};
use sf_value::{Dialect, Field, Kind, List, OutOfMemory};
use sf_write::to_text;
use std::alloc::Global;
use std::hash::RandomState;

/// The canonical text of a Cache-Status field with the own hop as its last member (RFC 9211 section
/// 2). The text is that of the lines that were received, joined; the spans of the hop are in
/// `bytes`. Returns `Answered` if the buffer holds the text; `Short` if it is too small; `Refused`
/// if the text spells no List, with the refusal in `refusal`: nothing is appended to it; `Invalid`
/// if and only if the struct is not a valid hop, or has both `hit` and `fwd`; `OutOfMemory`; or
/// `BadCall` for a number that is no dialect.
#[unsafe(no_mangle)]
pub extern "C" fn sf_cache_status_append(
    alloc: Global,
    seed: &Seed,
    dialect: u32,
    text: &[u8],
    hop: &HopNode,
    bytes: &[u8],
    buffer: &mut [u8],
    required: &mut usize,
    refusal: &mut SyntaxRefusal,
) -> u32
    // BadCall if and only if the number is no dialect; otherwise the text of the List with the hop
    // at its end, or why there is none.
    ensures { ChecksDialect (dialect_at dialect) (status_at result)
        (λ old new. AppendsHop old new text.now bytes.now hop.now)
        (record { buffer = buffer.old; required = required.old; refusal = refusal.old })
        (record { buffer = buffer.new; required = required.new; refusal = refusal.new }) }
{
    let Some(dialect) = dialect_of(dialect) else {
        return Status::BadCall.code();
    };
    append(
        alloc, seed, dialect, text, hop, bytes, buffer, required, refusal,
    )
    .code()
}

/// As [`sf_cache_status_append`], in a dialect.
#[tactic(auto, using(crate::proofs::OwnHops::appends_none))]
fn append(
    alloc: Global,
    seed: &Seed,
    dialect: Dialect,
    text: &[u8],
    hop: &HopNode,
    bytes: &[u8],
    buffer: &mut [u8],
    required: &mut usize,
    refusal: &mut SyntaxRefusal,
) -> Status
    ensures { AppendsHop
        (record { buffer = buffer.old; required = required.old; refusal = refusal.old })
        (record { buffer = buffer.new; required = required.new; refusal = refusal.new })
        text.now bytes.now hop.now dialect result }
{
    let own = match own_hop(alloc, hop, bytes) {
        Ok(own) => own,
        Err(status) => return status,
    };
    let list = match parse_list(alloc, seed, dialect, text, refusal) {
        Ok(list) => list,
        Err(why) => return why,
    };
    let Some(state) = seed.state() else {
        return Status::OutOfMemory;
    };
    let Ok(appended) = appended_text(alloc, &state, list, &own) else {
        return Status::OutOfMemory;
    };
    put_text(appended.as_slice(), buffer, required)
}

/// The hop that the struct describes, unless it has both `hit` and `fwd`.
#[tactic(auto, using(crate::proofs::OwnHops::no_own, crate::proofs::OwnHops::own_hop))]
fn own_hop(alloc: Global, hop: &HopNode, bytes: &[u8]) -> Result<Hop, Status>
    ensures { MatchResult result (λ made. GivesOwn bytes.now hop.now made)
        (GivesNone (GivesOwn bytes.now hop.now)) }
{
    if hop.outcome == CONFLICT {
        return Err(Status::Invalid);
    }
    hop_of(alloc, hop, bytes)
}

/// The List that the text spells, or the status that says why there is none, as of [`parse`].
fn parse_list(
    alloc: Global,
    seed: &Seed,
    dialect: Dialect,
    text: &[u8],
    refusal: &mut SyntaxRefusal,
) -> Result<List, Status>
    ensures { ParsesOrSays refusal.old refusal.new text.now dialect kind_is.List
        (result_map_both field_is.List (λ status. status) result) }
{
    match parse(
        alloc,
        seed,
        Scan::Skipped,
        dialect,
        Kind::List,
        text,
        refusal,
    )? {
        Field::List(list) => Ok(list),
        _ => unreachable!(),
    }
}

/// The canonical text of the List with the hop's member at its end.
fn appended_text(
    alloc: Global,
    seed: &RandomState,
    list: List,
    hop: &Hop,
) -> Result<Vec<u8>, OutOfMemory>
    ensures text { IfOk result (λ text. text.items
        ≡ canon (list_of (list.members ++ entry hop.now ∷ []))) }
    ensures valid { IfOk result
        (λ _. Valid Rfc9651 kind_is.List (list_of (list.members ++ entry hop.now ∷ []))) }
{
    let mut list = list;
    append_hop(alloc, seed, &mut list, hop)?;
    to_text(alloc, &Field::List(list))
}
