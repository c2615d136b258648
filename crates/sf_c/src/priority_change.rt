//! A Priority field that is forwarded with another priority.
ghost use Rattle.std.specs.Prelude.{◌≡◌, Some, IfOk};
ghost use Rattle.sf_value.specs.declared.dialect.Dialect.TheVariants.{Rfc9651};
ghost use Rattle.sf_value.specs.declared.value.Field.TheVariants as field_is;
ghost use Rattle.sf_value.specs.declared.value.Kind.TheVariants as kind_is;
ghost use Rattle.sf_value.specs.Grammar.Canonical.{canon};
ghost use Rattle.sf_value.specs.Grammar.Valid.{Valid};
ghost use Rattle.sf_use.specs.PriorityUpdate.{updated};
ghost use Rattle.sf_c.specs.PriorityChanges.{ChangesBy, ChangesPriority};
ghost use Rattle.sf_c.specs.Statuses.{status_at};

use crate::buffer::put_text;
use crate::call::parse_dict;
use crate::filling::put_parts;
use crate::plain_priority::PlainPriority;
use crate::priority::PriorityFlags;
use crate::priority_parts::ChangedPriority;
use crate::priority_text::write;
use crate::refusal::SyntaxRefusal;
use crate::seed::Seed;
use crate::status::Status;
use sf_use::{Asked, update_priority};
use sf_value::{Dialect, Dict, Field, Kind, OutOfMemory};
use sf_view::{Node, View};
use sf_write::to_text;
use std::alloc::Global;
use std::hash::RandomState;

/// The most nodes that are kept on the stack: most Priority fields have two.
const FEW_NODES: usize = 16;

/// A text of at most so many bytes needs at most half as many nodes, since each node but one has two
/// bytes or more. Fewer nodes take less time to clear.
const SHORT_TEXT: usize = 16;

/// The canonical text of a Priority field (RFC 9218 section 4), read by RFC 9651, with what the
/// struct sets put into it: the members `u` and `i` are overwritten in place, or go last if the
/// field has none, and all others stay. Returns `Answered` if the text is at the start of the
/// buffer; `Short` if the buffer has fewer than `required` bytes; `Refused` if the text spells no
/// Dictionary, with the refusal in `refusal`; `Invalid` as by [`sf_priority_text`], whatever the
/// text is; or `OutOfMemory`. Does not allocate for a well-formed text of at most 16 nodes in which
/// no key is repeated.
///
/// [`sf_priority_text`]: crate::sf_priority_text
#[unsafe(no_mangle)]
pub extern "C" fn sf_priority_change(
    alloc: Global,
    seed: &Seed,
    text: &[u8],
    priority: &PriorityFlags,
    buffer: &mut [u8],
    required: &mut usize,
    refusal: &mut SyntaxRefusal,
) -> u32
    // The canonical text of the field with what the struct sets, or why there is none.
    ensures { ChangesPriority
        (record { buffer = buffer.old; required = required.old; refusal = refusal.old })
        (record { buffer = buffer.new; required = required.new; refusal = refusal.new })
        text.now priority.now (status_at result) }
{
    change_valid(alloc, seed, text, priority, buffer, required, refusal).code()
}

/// As [`sf_priority_change`].
#[tactic(auto, using(crate::proofs::SetValues::changes_valid))]
fn change_valid(
    alloc: Global,
    seed: &Seed,
    text: &[u8],
    priority: &PriorityFlags,
    buffer: &mut [u8],
    required: &mut usize,
    refusal: &mut SyntaxRefusal,
) -> Status
    ensures { ChangesPriority
        (record { buffer = buffer.old; required = required.old; refusal = refusal.old })
        (record { buffer = buffer.new; required = required.new; refusal = refusal.new })
        text.now priority.now (Some result) }
{
    if priority.has_unset_value() {
        return Status::Invalid;
    }
    change(alloc, seed, text, priority, buffer, required, refusal)
}

/// As [`sf_priority_change`], for a struct whose values are all set.
fn change(
    alloc: Global,
    seed: &Seed,
    text: &[u8],
    priority: &PriorityFlags,
    buffer: &mut [u8],
    required: &mut usize,
    refusal: &mut SyntaxRefusal,
) -> Status
    ensures { ChangesBy
        (record { buffer = buffer.old; required = required.old; refusal = refusal.old })
        (record { buffer = buffer.new; required = required.new; refusal = refusal.new })
        text.now priority.now (Some result) }
{
    // Many requests have no field.
    if text.is_empty() {
        return write(priority.asked(), buffer, required);
    }
    match PlainPriority::scan(text) {
        Some(plain) => return plain.changed(priority.asked()).put(buffer, required),
        None => return change_nodes(alloc, seed, text, priority, buffer, required, refusal),
    }
}

/// As [`change`], from the nodes of the text, without an allocation, if there are few and no key is
/// repeated. It is not inlined, so that a text of `u` and `i` alone doesn't pay for its stack.
#[inline(never)]
fn change_nodes(
    alloc: Global,
    seed: &Seed,
    text: &[u8],
    priority: &PriorityFlags,
    buffer: &mut [u8],
    required: &mut usize,
    refusal: &mut SyntaxRefusal,
) -> Status
    ensures { ChangesBy
        (record { buffer = buffer.old; required = required.old; refusal = refusal.old })
        (record { buffer = buffer.new; required = required.new; refusal = refusal.new })
        text.now priority.now (Some result) }
{
    if text.len() <= SHORT_TEXT {
        let mut nodes = [Node::NONE; SHORT_TEXT / 2];
        return change_scanned(
            alloc, seed, text, priority, &mut nodes, buffer, required, refusal,
        );
    }
    let mut nodes = [Node::NONE; FEW_NODES];
    change_scanned(
        alloc, seed, text, priority, &mut nodes, buffer, required, refusal,
    )
}

/// As [`change_nodes`], by a scan into these nodes.
#[inline(always)]
fn change_scanned(
    alloc: Global,
    seed: &Seed,
    text: &[u8],
    priority: &PriorityFlags,
    nodes: &mut [Node],
    buffer: &mut [u8],
    required: &mut usize,
    refusal: &mut SyntaxRefusal,
) -> Status
    ensures { ChangesBy
        (record { buffer = buffer.old; required = required.old; refusal = refusal.old })
        (record { buffer = buffer.new; required = required.new; refusal = refusal.new })
        text.now priority.now (Some result) }
{
    match View::scan(Dialect::Rfc9651, Kind::Dict, text, nodes) {
        Ok(view) => {
            let asked = priority.asked();
            let parts = ChangedPriority {
                view,
                asked,
                text_length: text.len(),
            };
            return put_parts(&parts, buffer, required);
        }
        Err(_) => return change_tree(alloc, seed, text, priority, buffer, required, refusal),
    }
}

/// As [`change`], from the tree of the value. It is not inlined, so that a text that is written from
/// nodes doesn't pay for its stack.
#[inline(never)]
fn change_tree(
    alloc: Global,
    seed: &Seed,
    text: &[u8],
    priority: &PriorityFlags,
    buffer: &mut [u8],
    required: &mut usize,
    refusal: &mut SyntaxRefusal,
) -> Status
    ensures { ChangesBy
        (record { buffer = buffer.old; required = required.old; refusal = refusal.old })
        (record { buffer = buffer.new; required = required.new; refusal = refusal.new })
        text.now priority.now (Some result) }
{
    let dict = match parse_dict(alloc, seed, Dialect::Rfc9651, text, refusal) {
        Ok(dict) => dict,
        Err(status) => return status,
    };
    let Some(state) = seed.state() else {
        return Status::OutOfMemory;
    };
    let Ok(canonical) = changed_text(alloc, &state, dict, priority.asked()) else {
        return Status::OutOfMemory;
    };
    put_text(canonical.as_slice(), buffer, required)
}

/// The canonical text of the Dictionary with a priority put into it.
fn changed_text(
    alloc: Global,
    seed: &RandomState,
    dict: Dict,
    asked: Asked,
) -> Result<Vec<u8>, OutOfMemory>
    ensures text { IfOk result (λ text. text.items ≡ canon (field_is.Dict (updated asked dict))) }
    ensures valid { IfOk result
        (λ _. Valid Rfc9651 kind_is.Dict (field_is.Dict (updated asked dict))) }
{
    to_text(
        alloc,
        &Field::Dict(update_priority(alloc, seed, dict, asked)?),
    )
}
