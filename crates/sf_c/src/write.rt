//! The canonical text of the field that nodes describe.
ghost use Rattle.std.specs.Prelude.{◌≡◌, ◌++◌, IfOk};
ghost use Rattle.sf_c.specs.Calls.{ChecksCall, dialect_at, kind_at};
ghost use Rattle.sf_c.specs.Statuses.{status_at};
ghost use Rattle.sf_c.specs.Writing.{WritesNodes};

use crate::buffer::put_text;
use crate::call::{dialect_of, kind_of};
use crate::seed::Seed;
use crate::status::Status;
use sf_value::{Dialect, Kind, OutOfMemory};
use sf_view::{NoField, Node, field_of};
use sf_write::to_text;
use std::alloc::Global;

/// The canonical text (RFC 9651 section 4.1) of the field that the nodes describe: those of a
/// parse, changed or not, or the caller's. An offset below the length of `text` is in `text`; from
/// there on it counts in `bytes`. Returns `Answered` if the text is at the start of the buffer, in
/// `required` bytes, with the other bytes unchanged; `Short` if the buffer has fewer than
/// `required` bytes; `Invalid` if the nodes describe no valid field of the kind, with the index of
/// the first that is wrong, whatever the nodes after it are, in `invalid`; `OutOfMemory`; or
/// `BadCall`.
#[unsafe(no_mangle)]
pub extern "C" fn sf_write(
    alloc: Global,
    seed: &Seed,
    dialect: u32,
    kind: u32,
    nodes: &[Node],
    text: &[u8],
    bytes: &[u8],
    buffer: &mut [u8],
    required: &mut usize,
    invalid: &mut usize,
) -> u32
    // BadCall if and only if a number is no kind or no dialect; otherwise the canonical text, or
    // why there is none.
    ensures { ChecksCall (dialect_at dialect) (kind_at kind) (status_at result)
        (λ old new. WritesNodes old new nodes.now (text.now ++ bytes.now))
        (record { buffer = buffer.old; required = required.old; invalid = invalid.old })
        (record { buffer = buffer.new; required = required.new; invalid = invalid.new }) }
{
    let (Some(dialect), Some(kind)) = (dialect_of(dialect), kind_of(kind)) else {
        return Status::BadCall.code();
    };
    write(
        alloc, seed, dialect, kind, nodes, text, bytes, buffer, required, invalid,
    )
    .code()
}

/// As [`sf_write`], for a dialect and a kind.
fn write(
    alloc: Global,
    seed: &Seed,
    dialect: Dialect,
    kind: Kind,
    nodes: &[Node],
    text: &[u8],
    bytes: &[u8],
    buffer: &mut [u8],
    required: &mut usize,
    invalid: &mut usize,
) -> Status
    ensures { WritesNodes
        (record { buffer = buffer.old; required = required.old; invalid = invalid.old })
        (record { buffer = buffer.new; required = required.new; invalid = invalid.new })
        nodes.now (text.now ++ bytes.now) dialect kind result }
{
    if bytes.is_empty() {
        return write_from(
            alloc, seed, dialect, kind, nodes, text, buffer, required, invalid,
        );
    }
    if text.is_empty() {
        return write_from(
            alloc, seed, dialect, kind, nodes, bytes, buffer, required, invalid,
        );
    }
    match joined(alloc, text, bytes) {
        Ok(source) => return write_from(
            alloc,
            seed,
            dialect,
            kind,
            nodes,
            source.as_slice(),
            buffer,
            required,
            invalid,
        ),
        Err(_) => return Status::OutOfMemory,
    }
}

/// Both texts, one after the other.
fn joined(alloc: Global, text: &[u8], bytes: &[u8]) -> Result<Vec<u8>, OutOfMemory>
    ensures { IfOk result (λ both. both.items ≡ text.now ++ bytes.now) }
{
    let mut both = Vec::new(alloc);
    if both.extend_from_slice(text).is_err() {
        return Err(OutOfMemory);
    }
    if both.extend_from_slice(bytes).is_err() {
        return Err(OutOfMemory);
    }
    Ok(both)
}

/// Writes the text of the field that nodes describe, which point into one source.
fn write_from(
    alloc: Global,
    seed: &Seed,
    dialect: Dialect,
    kind: Kind,
    nodes: &[Node],
    source: &[u8],
    buffer: &mut [u8],
    required: &mut usize,
    invalid: &mut usize,
) -> Status
    ensures { WritesNodes
        (record { buffer = buffer.old; required = required.old; invalid = invalid.old })
        (record { buffer = buffer.new; required = required.new; invalid = invalid.new })
        nodes.now source.now dialect kind result }
{
    let Some(state) = seed.state() else {
        return Status::OutOfMemory;
    };
    let field = match field_of(alloc, &state, dialect, kind, source, nodes) {
        Ok(field) => field,
        Err(NoField::OutOfMemory) => return Status::OutOfMemory,
        Err(NoField::Invalid(index)) => {
            *invalid = index;
            return Status::Invalid;
        }
    };
    let Ok(canonical) = to_text(alloc, &field) else {
        return Status::OutOfMemory;
    };
    put_text(canonical.as_slice(), buffer, required)
}
