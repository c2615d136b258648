//! Whole texts.
ghost use Rattle.std.specs.Prelude.{◌≡◌, ◌≤◌, ◌<◌, ◌+◌, ◌*◌, ◌^◌, length, false};
ghost use Rattle.std.specs.Prelude.{IfOk, IfErr, IfSome, IsTrue};
ghost use Rattle.sf_value.specs.declared.value.Kind.TheVariants as kind_is;
ghost use Rattle.sf_view.specs.Accepts.{Accepts, IsListed, AreEntries};
ghost use Rattle.sf_view.specs.Scans.{DistinguishKeys};
ghost use Rattle.sf_view.specs.Settling.{HasParts};

use crate::item::{NO_KEY, Scan, scan_entry, scan_item, scan_member};
use crate::keys::Marks;
use crate::node::Node;
use crate::node_types::Role;
use sf_value::classes::{after_ows, after_spaces, ends, strip_byte};
use sf_value::{Dialect, Kind};

/// An Item.
#[inline]
pub(crate) fn whole_item(dialect: Dialect, text: &[u8], nodes: &mut [Node]) -> Option<usize>
    requires small { length text.now < 2 ^ 32 }
    ensures same { length nodes.new ≡ length nodes.old }
    ensures accepts { IfSome result (λ n. Accepts dialect kind_is.Item text.now nodes.new n) }
{
    let start = after_spaces(text);
    let scan = scan_item(dialect, text, start, Role::Member, NO_KEY, nodes, 0)?;
    if ends(after_spaces(scan.rest)) {
        return Some(scan.count);
    }
    None
}

/// Reads the members of a List from this place on, after this many nodes. Returns the number of all
/// nodes, or the place and the number of nodes before the member that is malformed or for which
/// there are too few nodes.
#[inline(always)]
pub(crate) fn list_from<'a>(
    dialect: Dialect,
    text: &'a [u8],
    from: Scan<'a>,
    nodes: &mut [Node],
) -> Result<usize, Scan<'a>>
    requires small { length text.now < 2 ^ 32 }
    requires so_far { IsListed dialect text.now from.rest.now nodes.old from.count }
    ensures same { length nodes.new ≡ length nodes.old }
    ensures accepts { IfOk result (λ n. Accepts dialect kind_is.List text.now nodes.new n) }
    ensures stopped { IfErr result (λ s. IsListed dialect text.now s.rest.now nodes.new s.count) }
{
    let mut rest = from.rest;
    let mut count = from.count;
    loop {
        let Some(scan) = scan_member(dialect, text, rest, NO_KEY, nodes, count) else {
            return Err(Scan { rest, count });
        };
        let white = after_ows(scan.rest);
        if ends(white) {
            return Ok(scan.count);
        }
        let Some(more) = strip_byte(white, b',') else {
            return Err(Scan { rest, count });
        };
        rest = after_ows(more);
        count = scan.count;
    }
}

/// A List.
#[inline]
fn whole_list(dialect: Dialect, text: &[u8], nodes: &mut [Node]) -> Option<usize>
    requires small { length text.now < 2 ^ 32 }
    ensures same { length nodes.new ≡ length nodes.old }
    ensures accepts { IfSome result (λ n. Accepts dialect kind_is.List text.now nodes.new n) }
{
    let rest = after_spaces(text);
    if ends(rest) {
        return Some(0);
    }
    match list_from(dialect, text, Scan { rest, count: 0 }, nodes) {
        Ok(count) => return Some(count),
        Err(_) => return None,
    }
}

/// Where a scan of a Dictionary is: the rest of the text, the number of nodes before it, the marks
/// of the keys of these nodes, and whether the nodes were settled.
#[derive(Clone, Copy, Drop)]
pub(crate) struct DictScan<'a> {
    pub rest: &'a [u8],
    pub count: usize,
    pub marks: Marks,
    pub settled: bool,
}

/// Whether no members were settled, and the keys of these nodes differ. If members were settled, a
/// key was repeated.
#[inline]
fn are_apart(settled: bool, marks: Marks, text: &[u8], nodes: &[Node]) -> bool
    ensures { IsTrue result → DistinguishKeys marks text.now nodes.now }
{
    if settled {
        return false;
    }
    marks.differ(text, nodes)
}

/// Reads the members of a Dictionary from this place on. Returns the number of all nodes, or the
/// place before the member that is malformed or for which there are too few nodes. If a key is
/// repeated or, rarely, there are too many keys to find out, `repeated` is set, and keys may be
/// repeated in the members that the nodes describe.
#[inline(always)]
pub(crate) fn dict_from<'a>(
    dialect: Dialect,
    text: &'a [u8],
    from: DictScan<'a>,
    repeated: &mut bool,
    nodes: &mut [Node],
) -> Result<usize, DictScan<'a>>
    requires small { length text.now < 2 ^ 32 }
    requires unset { repeated.old ≡ false }
    requires so_far { AreEntries dialect text.now from.rest.now from.marks nodes.old from.count }
    ensures same { length nodes.new ≡ length nodes.old }
    ensures parts { IfOk result
        (λ n. HasParts dialect kind_is.Dict text.now nodes.new n repeated.new) }
    ensures stopped { IfErr result
        (λ s. AreEntries dialect text.now s.rest.now s.marks nodes.new s.count) }
    ensures still_unset { IfErr result (λ _. repeated.new ≡ false) }
{
    let mut rest = from.rest;
    let mut count = from.count;
    let mut marks = from.marks;
    loop {
        let Some((scan, mark)) = scan_entry(dialect, text, rest, nodes, count) else {
            return Err(DictScan {
                rest,
                count,
                marks,
                settled: from.settled,
            });
        };
        let later_marks = marks.with(mark);
        let white = after_ows(scan.rest);
        if ends(white) {
            if are_apart(from.settled, later_marks, text, &nodes[..scan.count]) {
                return Ok(scan.count);
            }
            *repeated = true;
            return Ok(scan.count);
        }
        let Some(more) = strip_byte(white, b',') else {
            return Err(DictScan {
                rest,
                count,
                marks,
                settled: from.settled,
            });
        };
        rest = after_ows(more);
        count = scan.count;
        marks = later_marks;
    }
}

/// A Dictionary. If a key is repeated or, rarely, its keys are too many or too alike to find out,
/// `repeated` is set, and the nodes describe the members one by one.
#[inline]
fn whole_dict(
    dialect: Dialect,
    text: &[u8],
    nodes: &mut [Node],
    repeated: &mut bool,
) -> Option<usize>
    requires small { length text.now < 2 ^ 32 }
    requires unset { repeated.old ≡ false }
    ensures same { length nodes.new ≡ length nodes.old }
    ensures parts { IfSome result
        (λ n. HasParts dialect kind_is.Dict text.now nodes.new n repeated.new) }
{
    let rest = after_spaces(text);
    if ends(rest) {
        return Some(0);
    }
    let from = DictScan {
        rest,
        count: 0,
        marks: Marks::NONE,
        settled: false,
    };
    match dict_from(dialect, text, from, repeated, nodes) {
        Ok(count) => return Some(count),
        Err(_) => return None,
    }
}

/// Writes a node for each part of the text to the buffer, and returns their number; `None` says
/// nothing about the text. If a key of a Dictionary is repeated, or its keys are too many or too
/// alike to find out, `repeated` is set, and the nodes describe the members one by one.
pub(crate) fn scan_parts(
    dialect: Dialect,
    kind: Kind,
    repeated: &mut bool,
    text: &[u8],
    nodes: &mut [Node],
) -> Option<usize>
    requires unset { repeated.old ≡ false }
    ensures same { length nodes.new ≡ length nodes.old }
    ensures parts { IfSome result
        (λ n. HasParts dialect kind text.now nodes.new n repeated.new) }
{
    if text.len() > 0xffff_ffff {
        return None;
    }
    match kind {
        Kind::Item => return whole_item(dialect, text, nodes),
        Kind::List => return whole_list(dialect, text, nodes),
        Kind::Dict => return whole_dict(dialect, text, nodes, repeated),
    }
}

/// Writes the nodes of the text to the beginning of the buffer, and returns their number. `None`
/// says nothing about the text: it may be malformed, repeat a key or, rarely, have keys that are
/// too many or too alike to compare, have 4 GiB or more, or need more nodes than the buffer has.
/// `View::scan` does the same, but returns a view, or a reason instead of `None`. It does not
/// allocate.
///
/// ```
/// let mut nodes = [Node::NONE; 16];
/// scan_text(Dialect::Rfc9651, Kind::Dict, b"u=1, i", &mut nodes) // Some(2)
/// ```
#[inline]
pub fn scan_text(dialect: Dialect, kind: Kind, text: &[u8], nodes: &mut [Node]) -> Option<usize>
    ensures same { length nodes.new ≡ length nodes.old }
    // The text spells a field, and no other, and the first nodes, as many as returned, describe it.
    ensures accepts { IfSome result (λ n. Accepts dialect kind text.now nodes.new n) }
{
    let mut repeated = false;
    let count = scan_parts(dialect, kind, &mut repeated, text, nodes)?;
    if repeated {
        return None;
    }
    Some(count)
}
