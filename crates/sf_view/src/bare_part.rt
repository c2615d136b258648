//! What a scanner read of a bare item.
ghost use Rattle.std.specs.Prelude.{◌≡◌, ◌≤◌, ◌<◌, ◌+◌, ◌^◌, length, false, pos};
ghost use Rattle.sf_scan.specs.Leaves.{leaf_bare};
ghost use Rattle.sf_view.specs.Scans.{PartShows};

use crate::node_types::NodeType;
use sf_scan::leaf::Leaf;

/// What a scanner read of a bare item: its type, its number, and where its bytes are.
#[derive(Clone, Copy, Drop)]
pub(crate) struct Part {
    pub number: i64,
    pub at: u32,
    pub length: u32,
    pub node_type: NodeType,
    pub coded: bool,
}

/// Boolean true.
pub(crate) const TRUE: Part = Part {
    number: 1,
    at: 0,
    length: 0,
    node_type: NodeType::Boolean,
    coded: false,
};

/// Boolean false.
pub(crate) const FALSE: Part = Part {
    number: 0,
    at: 0,
    length: 0,
    node_type: NodeType::Boolean,
    coded: false,
};

/// A bare item that is a number.
#[inline(always)]
pub(crate) fn number_of(node_type: NodeType, number: i64) -> Part
    ensures node_type { result.node_type ≡ node_type }
    ensures number { result.number ≡ number }
    ensures at { result.at ≡ 0 }
    ensures size { result.length ≡ 0 }
    ensures coded { result.coded ≡ false }
{
    Part {
        number,
        at: 0,
        length: 0,
        node_type,
        coded: false,
    }
}

/// A bare item of the first `size` bytes of the last `left` bytes of a source of `whole` bytes.
#[inline(always)]
pub(crate) fn bytes_of(
    whole: usize,
    left: usize,
    size: usize,
    node_type: NodeType,
    coded: bool,
) -> Part
    requires small { whole < 2 ^ 32 }
    requires within { left ≤ whole }
    requires prefix { size ≤ left }
    ensures node_type { result.node_type ≡ node_type }
    ensures number { result.number ≡ pos 0 }
    ensures at { result.at + left ≡ whole }
    ensures size { result.length ≡ size }
    ensures coded { result.coded ≡ coded }
{
    Part {
        number: 0,
        at: (whole - left) as u32,
        length: size as u32,
        node_type,
        coded,
    }
}

/// The part of a leaf, given the bytes that spell it, which are the first of the last `left` bytes
/// of a source of `whole` bytes.
#[inline]
pub(crate) fn part_of(leaf: Leaf, spelled: &[u8], whole: usize, left: usize) -> Part
    requires small { whole < 2 ^ 32 }
    requires within { left ≤ whole }
    requires prefix { length spelled.now ≤ left }
    ensures { PartShows (leaf_bare leaf.entry) spelled.now whole left result }
{
    let size = spelled.len();
    match leaf {
        Leaf::Integer(number) => number_of(NodeType::Integer, number),
        Leaf::Decimal(number) => number_of(NodeType::Decimal, number),
        Leaf::Date(number) => number_of(NodeType::Date, number),
        Leaf::Boolean(false) => FALSE,
        Leaf::Boolean(true) => TRUE,
        Leaf::Token(_) => bytes_of(whole, left, size, NodeType::Token, false),
        Leaf::Text(_) | Leaf::Escaped(_) => bytes_of(whole, left, size, NodeType::Text, true),
        Leaf::Blob(_) => bytes_of(whole, left, size, NodeType::Blob, true),
        Leaf::Display(_) => bytes_of(whole, left, size, NodeType::Shown, true),
    }
}
