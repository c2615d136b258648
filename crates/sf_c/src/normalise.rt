//! The canonical text.
ghost use Rattle.std.specs.Prelude.{◌≡◌, MatchResult, Err};
ghost use Rattle.sf_view.specs.CanonicalParts.{IsCanonicalOf};
ghost use Rattle.sf_c.specs.Calls.{ChecksCall, dialect_at, kind_at};
ghost use Rattle.sf_c.specs.Normal.{Normalises, Equals};
ghost use Rattle.sf_c.specs.Parsing.{ParsesOrSays};
ghost use Rattle.sf_c.specs.Statuses.{status_at};

use crate::buffer::put;
use crate::call::{Scan, dialect_of, kind_of, parse};
use crate::refusal::SyntaxRefusal;
use crate::seed::Seed;
use crate::status::Status;
use sf_value::laws::canon_is_short;
use sf_value::{Dialect, Kind, same};
use sf_view::settled_text;
use sf_write::to_text;
use std::alloc::Global;

/// The canonical text (RFC 9651 section 4.1) of the value that the text spells. Returns `Answered`
/// if the text is at the start of the buffer, in `required` bytes, with the other bytes unchanged;
/// `Short` if the buffer has fewer than `required` bytes; `Refused` if no value is spelled, with
/// the refusal in `refusal`; `OutOfMemory`; or `BadCall`. A buffer of eight fifths of the text's
/// length is never too small.
#[unsafe(no_mangle)]
pub extern "C" fn sf_normalise(
    alloc: Global,
    seed: &Seed,
    dialect: u32,
    kind: u32,
    text: &[u8],
    buffer: &mut [u8],
    required: &mut usize,
    refusal: &mut SyntaxRefusal,
) -> u32
    // BadCall if and only if a number is no kind or no dialect; otherwise the canonical text, or
    // why there is none.
    ensures { ChecksCall (dialect_at dialect) (kind_at kind) (status_at result)
        (λ old new. Normalises old new text.now)
        (record { buffer = buffer.old; required = required.old; refusal = refusal.old })
        (record { buffer = buffer.new; required = required.new; refusal = refusal.new }) }
{
    let (Some(dialect), Some(kind)) = (dialect_of(dialect), kind_of(kind)) else {
        return Status::BadCall.code();
    };
    normalise(alloc, seed, dialect, kind, text, buffer, required, refusal).code()
}

/// Whether the two texts spell equal values (RFC 9651 sections 3 and 4.2). The order of members,
/// items and parameters counts. Returns `Answered` and sets `equal_out` to 1 or 0; `Refused` if the
/// first spells no value, or `SecondRefused` if only the second doesn't, with the refusal in
/// `refusal`; `OutOfMemory`; or `BadCall`.
#[unsafe(no_mangle)]
pub extern "C" fn sf_equal(
    alloc: Global,
    seed: &Seed,
    dialect: u32,
    kind: u32,
    first: &[u8],
    second: &[u8],
    equal_out: &mut u32,
    refusal: &mut SyntaxRefusal,
) -> u32
    // BadCall if and only if a number is no kind or no dialect; otherwise whether the values are
    // equal.
    ensures { ChecksCall (dialect_at dialect) (kind_at kind) (status_at result)
        (λ old new. Equals old new first.now second.now)
        (record { equal = equal_out.old; refusal = refusal.old })
        (record { equal = equal_out.new; refusal = refusal.new }) }
{
    let (Some(dialect), Some(kind)) = (dialect_of(dialect), kind_of(kind)) else {
        return Status::BadCall.code();
    };
    equal(
        alloc, seed, dialect, kind, first, second, equal_out, refusal,
    )
    .code()
}

/// As [`sf_normalise`], for a dialect and a kind.
fn normalise(
    alloc: Global,
    seed: &Seed,
    dialect: Dialect,
    kind: Kind,
    text: &[u8],
    buffer: &mut [u8],
    required: &mut usize,
    refusal: &mut SyntaxRefusal,
) -> Status
    // The canonical text is at the start of the buffer, or the status says why not.
    ensures { Normalises
        (record { buffer = buffer.old; required = required.old; refusal = refusal.old })
        (record { buffer = buffer.new; required = required.new; refusal = refusal.new })
        text.now dialect kind result }
{
    let canonical = match canonical(alloc, seed, dialect, kind, text, refusal) {
        Ok(canonical) => canonical,
        Err(status) => return status,
    };
    canon_is_short();
    *required = canonical.len();
    if buffer.len() < canonical.len() {
        return Status::Short;
    }
    put(buffer, 0, canonical.as_slice());
    Status::Answered
}

/// The canonical text of the value that the text spells, written from nodes if the text has some,
/// or the status that says why there is none. A refusal is put into its struct, which is otherwise
/// unchanged.
fn canonical(
    alloc: Global,
    seed: &Seed,
    dialect: Dialect,
    kind: Kind,
    text: &[u8],
    refusal: &mut SyntaxRefusal,
) -> Result<Vec<u8>, Status>
    // The canonical text of the only value, or the struct has the refusal, or an allocation failed.
    ensures { MatchResult result
        (λ c. IsCanonicalOf dialect kind text.now c.items × (refusal.new ≡ refusal.old))
        (λ status. ParsesOrSays refusal.old refusal.new text.now dialect kind (Err status)) }
{
    match settled_text(alloc, dialect, kind, text) {
        Ok(Some(canonical)) => return Ok(canonical),
        Ok(None) => {}
        Err(_) => return Err(Status::OutOfMemory),
    }
    let field = parse(alloc, seed, Scan::Declined, dialect, kind, text, refusal)?;
    match to_text(alloc, &field) {
        Ok(canonical) => return Ok(canonical),
        Err(_) => return Err(Status::OutOfMemory),
    }
}

/// As [`sf_equal`], for a dialect and a kind.
fn equal(
    alloc: Global,
    seed: &Seed,
    dialect: Dialect,
    kind: Kind,
    first: &[u8],
    second: &[u8],
    equal: &mut u32,
    refusal: &mut SyntaxRefusal,
) -> Status
    // Whether the texts spell equal values; or which of them spells none, and the struct says why.
    ensures { Equals (record { equal = equal.old; refusal = refusal.old })
        (record { equal = equal.new; refusal = refusal.new })
        first.now second.now dialect kind result }
{
    let field = match parse(alloc, seed, Scan::Skipped, dialect, kind, first, refusal) {
        Ok(field) => field,
        Err(status) => return status,
    };
    let other = match parse(alloc, seed, Scan::Skipped, dialect, kind, second, refusal) {
        Ok(field) => field,
        Err(Status::Refused) => return Status::SecondRefused,
        Err(status) => return status,
    };
    *equal = u32::from(same(&field, &other));
    Status::Answered
}
