//! A value as nodes, into the caller's buffers.
ghost use Rattle.std.specs.Prelude.{◌≡◌, ◌<◌, ◌^◌, length, IfSome};
ghost use Rattle.sf_c.specs.Calls.{ChecksCall, dialect_at, kind_at};
ghost use Rattle.sf_view.specs.Counting.{HasCounts};
ghost use Rattle.sf_c.specs.Flattening.{Flattens, IsHeld};
ghost use Rattle.sf_c.specs.Exceeding.{Exceeds};
ghost use Rattle.sf_c.specs.Statuses.{status_at};

use crate::buffer::are_large;
use crate::call::{Scan, dialect_of, kind_of, parse};
use crate::decoding::{decode_nodes, none_coded};
use crate::refusal::SyntaxRefusal;
use crate::seed::Seed;
use crate::status::Status;
use sf_nodes::flatten;
use sf_nodes::laws::{nodes_are_few, nodes_are_theirs};
use sf_value::{Dialect, Kind};
use sf_view::{Counts, Node, Uncounted, accepts, count_settled, count_text, scan_into};
use std::alloc::Global;

/// The largest offset of a node.
const OFFSET_MAX: usize = 0xffff_ffff;

/// The numbers of nodes and bytes of a value. In C an `sf_sizes`.
#[repr(C)]
#[derive(Clone, Copy, Debug, Drop)]
pub struct Sizes {
    /// The number of nodes.
    pub nodes: usize,
    /// The number of bytes.
    pub bytes: usize,
}

/// The value that the text spells, as nodes. Returns `Answered` if the first `sizes.nodes` nodes
/// describe it, with the text and the first `sizes.bytes` bytes after it; `TooMany` if `nodes` has
/// fewer than `sizes.nodes` nodes, otherwise `Short` if `bytes` has fewer than `sizes.bytes` bytes;
/// `Refused` if no value is spelled, with the refusal in `refusal`; `TooLong` if the text, or the
/// text and the required bytes together, have 4 GiB or more; `OutOfMemory`; or `BadCall`. Only
/// for `BadCall` are the buffers claimed to be unchanged.
#[unsafe(no_mangle)]
pub extern "C" fn sf_parse(
    alloc: Global,
    seed: &Seed,
    dialect: u32,
    kind: u32,
    text: &[u8],
    nodes: &mut [Node],
    bytes: &mut [u8],
    sizes: &mut Sizes,
    refusal: &mut SyntaxRefusal,
) -> u32
    // BadCall if and only if a number is no kind or no dialect; otherwise the value as nodes, or
    // why there is none.
    ensures { ChecksCall (dialect_at dialect) (kind_at kind) (status_at result)
        (λ old new. Flattens old new text.now)
        (record { nodes = nodes.old; bytes = bytes.old; sizes = sizes.old; refusal = refusal.old })
        (record {
          nodes = nodes.new;
          bytes = bytes.new;
          sizes = sizes.new;
          refusal = refusal.new;
        }) }
{
    let (Some(dialect), Some(kind)) = (dialect_of(dialect), kind_of(kind)) else {
        return Status::BadCall.code();
    };
    parse_nodes(
        alloc, seed, dialect, kind, text, nodes, bytes, sizes, refusal,
    )
    .code()
}

/// As [`sf_parse`], for a dialect and a kind.
fn parse_nodes(
    alloc: Global,
    seed: &Seed,
    dialect: Dialect,
    kind: Kind,
    text: &[u8],
    nodes: &mut [Node],
    bytes: &mut [u8],
    sizes: &mut Sizes,
    refusal: &mut SyntaxRefusal,
) -> Status
    // The buffers describe the value that the text spells, or the status says why not.
    ensures { Flattens
        (record { nodes = nodes.old; bytes = bytes.old; sizes = sizes.old; refusal = refusal.old })
        (record { nodes = nodes.new; bytes = bytes.new; sizes = sizes.new; refusal = refusal.new })
        text.now dialect kind result }
{
    if text.len() > OFFSET_MAX {
        return Status::TooLong;
    }
    if let Some(found) = scan_nodes(alloc, dialect, kind, text, nodes, bytes) {
        *sizes = found;
        return Status::Answered;
    }
    parse_unscanned(
        alloc, seed, dialect, kind, text, nodes, bytes, sizes, refusal,
    )
}

/// As [`sf_parse`], for a text that was declined, or more than the buffers hold. It is not inlined,
/// so that an accepted text doesn't pay for its stack.
#[inline(never)]
fn parse_unscanned(
    alloc: Global,
    seed: &Seed,
    dialect: Dialect,
    kind: Kind,
    text: &[u8],
    nodes: &mut [Node],
    bytes: &mut [u8],
    sizes: &mut Sizes,
    refusal: &mut SyntaxRefusal,
) -> Status
    requires small { length text.now < 2 ^ 32 }
    ensures { Flattens
        (record { nodes = nodes.old; bytes = bytes.old; sizes = sizes.old; refusal = refusal.old })
        (record { nodes = nodes.new; bytes = bytes.new; sizes = sizes.new; refusal = refusal.new })
        text.now dialect kind result }
{
    if are_large(text, nodes.len(), bytes.len()) {
        return parse_tree(
            alloc, seed, dialect, kind, text, nodes, bytes, sizes, refusal,
        );
    }
    match counts_of(alloc, seed, dialect, kind, text) {
        Some(counts) => return parse_counted(
            alloc, seed, dialect, kind, text, counts, nodes, bytes, sizes, refusal,
        ),
        None => return parse_tree(
            alloc, seed, dialect, kind, text, nodes, bytes, sizes, refusal,
        ),
    }
}

/// As [`sf_parse`], for a text whose value has so many nodes and bytes.
fn parse_counted(
    alloc: Global,
    seed: &Seed,
    dialect: Dialect,
    kind: Kind,
    text: &[u8],
    counts: Counts,
    nodes: &mut [Node],
    bytes: &mut [u8],
    sizes: &mut Sizes,
    refusal: &mut SyntaxRefusal,
) -> Status
    requires small { length text.now < 2 ^ 32 }
    requires counted { HasCounts dialect kind text.now counts }
    ensures { Flattens
        (record { nodes = nodes.old; bytes = bytes.old; sizes = sizes.old; refusal = refusal.old })
        (record { nodes = nodes.new; bytes = bytes.new; sizes = sizes.new; refusal = refusal.new })
        text.now dialect kind result }
{
    nodes_are_few();
    match exceeds(text, counts, nodes.len(), bytes.len(), sizes) {
        Some(status) => return status,
        None => return parse_tree(
            alloc, seed, dialect, kind, text, nodes, bytes, sizes, refusal,
        ),
    }
}

/// How many nodes and bytes the value of the text has; `None` claims nothing. It allocates only if
/// a key is repeated, or if there are many keys.
fn counts_of(
    alloc: Global,
    seed: &Seed,
    dialect: Dialect,
    kind: Kind,
    text: &[u8],
) -> Option<Counts>
    ensures { IfSome result (HasCounts dialect kind text.now) }
{
    match count_text(dialect, kind, text) {
        Ok(counts) => return Some(counts),
        Err(Uncounted::Declined) => return None,
        Err(Uncounted::Repeated) => {}
    }
    if !accepts(dialect, kind, text) {
        return None;
    }
    let state = seed.state()?;
    match count_settled(alloc, &state, dialect, kind, text) {
        Ok(counts) => return Some(counts),
        Err(_) => return None,
    }
}

/// Whether a value of so many nodes and bytes exceeds the buffers of these lengths, and how; then
/// the sizes are set, unless an offset would be too large.
fn exceeds(
    text: &[u8],
    counts: Counts,
    nodes: usize,
    bytes: usize,
    sizes: &mut Sizes,
) -> Option<Status>
    requires small { length text.now < 2 ^ 32 }
    ensures { Exceeds text.now counts nodes bytes sizes.old sizes.new result }
{
    if counts.bytes > OFFSET_MAX - text.len() {
        return Some(Status::TooLong);
    }
    if nodes >= counts.nodes && bytes >= counts.bytes {
        return None;
    }
    *sizes = Sizes {
        nodes: counts.nodes,
        bytes: counts.bytes,
    };
    if nodes < counts.nodes {
        return Some(Status::TooMany);
    }
    Some(Status::Short)
}

/// The nodes of a text that the scanner accepts, and the decoded bytes; `None` claims nothing.
fn scan_nodes(
    alloc: Global,
    dialect: Dialect,
    kind: Kind,
    text: &[u8],
    nodes: &mut [Node],
    bytes: &mut [u8],
) -> Option<Sizes>
    requires small { length text.now < 2 ^ 32 }
    ensures same_nodes { length nodes.new ≡ length nodes.old }
    ensures same_bytes { length bytes.new ≡ length bytes.old }
    ensures held { IfSome result (IsHeld dialect kind text.now nodes.new bytes.new) }
{
    let count = scan_into(alloc, dialect, kind, text, nodes)?;
    nodes_are_few();
    nodes_are_theirs();
    let (prefix, _) = nodes.split_at_mut(count);
    if none_coded(prefix) {
        return Some(Sizes {
            nodes: count,
            bytes: 0,
        });
    }
    let used = decode_nodes(text, prefix, bytes)?;
    Some(Sizes {
        nodes: count,
        bytes: used,
    })
}

/// As [`sf_parse`], from the tree of the value.
#[inline(never)]
fn parse_tree(
    alloc: Global,
    seed: &Seed,
    dialect: Dialect,
    kind: Kind,
    text: &[u8],
    nodes: &mut [Node],
    bytes: &mut [u8],
    sizes: &mut Sizes,
    refusal: &mut SyntaxRefusal,
) -> Status
    requires small { length text.now < 2 ^ 32 }
    ensures { Flattens
        (record { nodes = nodes.old; bytes = bytes.old; sizes = sizes.old; refusal = refusal.old })
        (record { nodes = nodes.new; bytes = bytes.new; sizes = sizes.new; refusal = refusal.new })
        text.now dialect kind result }
{
    let field = match parse(alloc, seed, Scan::Declined, dialect, kind, text, refusal) {
        Ok(field) => field,
        Err(status) => return status,
    };
    nodes_are_few();
    let Ok(flat) = flatten(alloc, &field) else {
        return Status::OutOfMemory;
    };
    let required = Sizes {
        nodes: flat.node_count(),
        bytes: flat.byte_count(),
    };
    if required.bytes > OFFSET_MAX - text.len() {
        return Status::TooLong;
    }
    *sizes = required;
    if nodes.len() < required.nodes {
        return Status::TooMany;
    }
    if bytes.len() < required.bytes {
        return Status::Short;
    }
    flat.write(text.len(), nodes, bytes);
    Status::Answered
}
