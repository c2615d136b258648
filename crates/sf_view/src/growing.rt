//! Scans into nodes that are added while the text is read: their number is bounded by what was
//! read, not by what may follow.
ghost use Rattle.std.specs.Prelude.{◌≡◌, ◌≤◌, ◌<◌, ◌^◌, length, take, false};
ghost use Rattle.std.specs.Prelude.{IfOk, IfErr, IfSome, IsTrue};
ghost use Rattle.sf_value.specs.declared.dialect.Dialect.{Dialect as Which};
ghost use Rattle.sf_value.specs.declared.value.Kind.TheVariants as kind_is;
ghost use Rattle.sf_view.specs.Accepts.{Accepts, IsListed, AreEntries};
ghost use Rattle.sf_view.specs.Settling.{HasParts};
ghost use Rattle.sf_view.specs.Views.{IsViewed};

use crate::buffer::most_nodes;
use crate::item::Scan;
use crate::keys::Marks;
use crate::node::Node;
use crate::series::{DictScan, dict_from, list_from, scan_parts, whole_item};
use crate::settling::{settle_into, settled_nodes};
use crate::view::View;
use sf_value::classes::{after_spaces, ends};
use sf_value::{Dialect, Kind, OutOfMemory};
use std::alloc::Global;

/// The number of nodes that a scan begins with, if the text may need so many.
const FIRST: usize = 4096;

/// The buffer grows to this many times its nodes. A member for which there were too few nodes is
/// read again. What is read in vain is then about four thirds of what is kept, at most: each
/// attempt reads at least four times as much as the one before.
const FACTOR: usize = 4;

/// The number of nodes that are added together.
const BLOCK: usize = 32;

/// To the nodes of an Item or a List, nodes are added at most this many times, which is more than a
/// text of 4 GiB needs.
const ADDITIONS: usize = 32;

/// Whether there may have been too few nodes. One of the last three was then written, since only
/// the nodes of an Inner List and of an Item in it are written after those of their parts.
fn are_used_up(nodes: &[Node]) -> bool {
    let (_, last) = nodes.split_at(nodes.len().saturating_sub(3));
    let mut used = last.len() < 3;
    for node in last {
        used = used || node.size != 0;
    }
    used
}

/// Adds nodes, so that there are four times as many and at least [`FIRST`], but no more than the
/// text may need. At least one block is added.
fn lengthen(nodes: &mut Vec<Node>, most: usize) -> Result<(), OutOfMemory>
    ensures longer { IfOk result (λ _. length nodes.old.items ≤ length nodes.new.items) }
    ensures kept { IfOk result
        (λ _. take (length nodes.old.items) nodes.new.items ≡ nodes.old.items) }
{
    let enough = nodes.len().saturating_mul(FACTOR).max(FIRST).min(most);
    let blocks = enough.saturating_sub(nodes.len()).div_ceil(BLOCK).max(1);
    nodes.reserve_exact(blocks.saturating_mul(BLOCK))?;
    let block = [Node::NONE; BLOCK];
    for _ in 0..blocks {
        nodes.extend_from_slice(&block)?;
    }
    Ok(())
}

/// The nodes of an Item. If there were too few, it is read again with more.
fn grown_item(
    dialect: Dialect,
    text: &[u8],
    most: usize,
    nodes: &mut Vec<Node>,
) -> Result<Option<usize>, OutOfMemory>
    requires small { length text.now < 2 ^ 32 }
    ensures { IfOk result (λ found. IfSome found
        (λ n. Accepts dialect kind_is.Item text.now nodes.new.items n)) }
{
    for _ in 0..ADDITIONS {
        if let Some(count) = whole_item(dialect, text, nodes.as_mut_slice()) {
            return Ok(Some(count));
        }
        if nodes.len() >= most || !are_used_up(nodes.as_slice()) {
            return Ok(None);
        }
        lengthen(nodes, most)?;
    }
    Ok(None)
}

/// The nodes of a List. If there were too few, reading goes on with more, from the member that
/// needed them.
fn grown_list(
    dialect: Dialect,
    text: &[u8],
    most: usize,
    nodes: &mut Vec<Node>,
) -> Result<Option<usize>, OutOfMemory>
    requires small { length text.now < 2 ^ 32 }
    ensures { IfOk result (λ found. IfSome found
        (λ n. Accepts dialect kind_is.List text.now nodes.new.items n)) }
{
    let mut from = Scan {
        rest: after_spaces(text),
        count: 0,
    };
    if ends(from.rest) {
        return Ok(Some(0));
    }
    for _ in 0..ADDITIONS {
        match list_from(dialect, text, from, nodes.as_mut_slice()) {
            Ok(count) => return Ok(Some(count)),
            Err(stop) => from = stop,
        }
        if nodes.len() >= most || !are_used_up(nodes.as_slice()) {
            return Ok(None);
        }
        lengthen(nodes, most)?;
    }
    Ok(None)
}

/// Settles the members that were read, if they are many and at most half of them stay: then the
/// nodes are bounded by the number of different keys. `unsettled` is the length of the text after
/// the members for which this was tried before.
fn condense<'a>(
    alloc: Global,
    text: &'a [u8],
    from: DictScan<'a>,
    unsettled: &mut usize,
    nodes: &mut Vec<Node>,
) -> DictScan<'a>
    requires there { from.count ≤ length nodes.old.items }
    // Whatever the dialect of the text is.
    ensures { (d : Which)
        → AreEntries d text.now from.entry.rest.now from.entry.marks nodes.old.items from.entry.count
        → AreEntries d text.now result.rest.now result.marks nodes.new.items result.count }
{
    if from.count < FIRST / 2 {
        return from;
    }
    let left = from.rest.len();
    let read = unsettled.saturating_sub(left);
    *unsettled = left;
    let (raw, _) = nodes.as_slice().split_at(from.count);
    let Some(settled) = settled_nodes(alloc, text, read, raw, true) else {
        return from;
    };
    let count = settled.len();
    *nodes = settled;
    DictScan {
        rest: from.rest,
        count,
        marks: Marks::ALL,
        settled: true,
    }
}

/// The nodes of a Dictionary, read as [`grown_list`] reads a List. If a key is repeated or, rarely,
/// there are too many keys to find out, `repeated` is set, and keys may be repeated in the members
/// that the nodes describe.
fn grown_dict(
    alloc: Global,
    dialect: Dialect,
    text: &[u8],
    most: usize,
    repeated: &mut bool,
    nodes: &mut Vec<Node>,
) -> Result<Option<usize>, OutOfMemory>
    requires small { length text.now < 2 ^ 32 }
    requires unset { repeated.old ≡ false }
    ensures { IfOk result (λ found. IfSome found
        (λ n. HasParts dialect kind_is.Dict text.now nodes.new.items n repeated.new)) }
{
    let mut from = DictScan {
        rest: after_spaces(text),
        count: 0,
        marks: Marks::NONE,
        settled: false,
    };
    if ends(from.rest) {
        return Ok(Some(0));
    }
    let mut unsettled = text.len();
    // Settling makes fewer nodes, so nodes may be added more often than to those of a List.
    for _ in 0..text.len() {
        match dict_from(dialect, text, from, repeated, nodes.as_mut_slice()) {
            Ok(count) => return Ok(Some(count)),
            Err(stop) => from = stop,
        }
        if nodes.len() >= most || !are_used_up(nodes.as_slice()) {
            return Ok(None);
        }
        from = condense(alloc, text, from, &mut unsettled, nodes);
        lengthen(nodes, most)?;
    }
    Ok(None)
}

/// Writes a node for each part of the text to the buffer, to which nodes are added as they are
/// needed, and returns their number; `None` says nothing about the text. If a key of a Dictionary
/// is repeated, or there are too many keys to find out, `repeated` is set, and keys may be repeated
/// in the members that the nodes describe.
pub(crate) fn grown_parts(
    alloc: Global,
    dialect: Dialect,
    kind: Kind,
    repeated: &mut bool,
    text: &[u8],
    nodes: &mut Vec<Node>,
) -> Result<Option<usize>, OutOfMemory>
    requires unset { repeated.old ≡ false }
    ensures { IfOk result (λ found. IfSome found
        (λ n. HasParts dialect kind text.now nodes.new.items n repeated.new)) }
{
    if text.len() > 0xffff_ffff {
        return Ok(None);
    }
    let most = most_nodes(text);
    match kind {
        Kind::Item => return grown_item(dialect, text, most, nodes),
        Kind::List => return grown_list(dialect, text, most, nodes),
        Kind::Dict => return grown_dict(alloc, dialect, text, most, repeated, nodes),
    }
}

/// Scans a whole text as a field of this kind, as [`View::scan`] does, but also if a key is
/// repeated in a Dictionary, or its keys are too many or too alike: the nodes are those of the
/// members that stay if a later value of a key overwrites an earlier one and takes its place (RFC
/// 9651 section 4.2.2). Nodes are added to the buffer as they are needed, so it may be empty; the number of them
/// is bounded by what was read of the text and, if a key is repeated, by the number of different
/// keys. It returns `None` if the text is malformed or has 4 GiB or more, a key of parameters is
/// repeated, an allocation failed or, rarely, there are many keys with one hash. `None` says
/// nothing about the text.
///
/// ```
/// let mut nodes = Vec::new(alloc);
/// let view = scan_settled(alloc, Dialect::Rfc9651, Kind::Dict, b"u=1, i, u=2", &mut nodes)?;
/// view_text(alloc, &view, Kind::Dict)? // u=2, i
/// ```
pub fn scan_settled<'a>(
    alloc: Global,
    dialect: Dialect,
    kind: Kind,
    text: &'a [u8],
    nodes: &'a mut Vec<Node>,
) -> Option<View<'a>>
    // The text spells a field, and no other, and the nodes of the view describe it.
    ensures { IfSome result (λ v. IsViewed dialect kind text.now v) }
{
    let mut repeated = false;
    match scan_or_settle(alloc, dialect, kind, &mut repeated, text, nodes) {
        Ok(view) => return view,
        Err(_) => return None,
    }
}

/// Scans a whole text as a field of this kind into a buffer, as [`crate::scan_text`] does, but also
/// if a key is repeated in a Dictionary, or there are many keys, as [`scan_settled`]. It returns
/// the number of nodes; the buffer needs one for each part of the text, including those of members
/// that are overwritten. `None` says nothing about the text; it is also returned if the buffer is
/// too small. It allocates only for more than 32 nodes of which some are overwritten or, rarely,
/// which are many.
///
/// ```
/// let mut nodes = [Node::NONE; 16];
/// let count = scan_into(alloc, Dialect::Rfc9651, Kind::Dict, b"u=1, i, u=2", &mut nodes)?; // 2
/// ```
#[inline]
pub fn scan_into(
    alloc: Global,
    dialect: Dialect,
    kind: Kind,
    text: &[u8],
    nodes: &mut [Node],
) -> Option<usize>
    ensures same { length nodes.new ≡ length nodes.old }
    // The text spells a field, and no other, and the first nodes, as many as returned, describe it.
    ensures accepts { IfSome result (λ n. Accepts dialect kind text.now nodes.new n) }
{
    let mut repeated = false;
    let count = scan_parts(dialect, kind, &mut repeated, text, nodes)?;
    if repeated {
        return settle_into(alloc, text, nodes, count);
    }
    Some(count)
}

/// As [`scan_settled`]; `repeated` is set if the nodes had to be settled. It fails only if an
/// allocation of nodes fails.
pub(crate) fn scan_or_settle<'a>(
    alloc: Global,
    dialect: Dialect,
    kind: Kind,
    repeated: &mut bool,
    text: &'a [u8],
    nodes: &'a mut Vec<Node>,
) -> Result<Option<View<'a>>, OutOfMemory>
    requires unset { repeated.old ≡ false }
    ensures { IfOk result (λ found. IfSome found (λ v. IsViewed dialect kind text.now v)) }
{
    let Some(count) = grown_parts(alloc, dialect, kind, repeated, text, nodes)? else {
        return Ok(None);
    };
    if *repeated {
        let (raw, _) = nodes.as_slice().split_at(count);
        let Some(settled) = settled_nodes(alloc, text, text.len(), raw, false) else {
            return Ok(None);
        };
        *nodes = settled;
        return Ok(Some(View {
            text,
            nodes: nodes.as_slice(),
        }));
    }
    Ok(Some(View {
        text,
        nodes: &nodes.as_slice()[..count],
    }))
}
