//! Bare items.
ghost use Rattle.std.specs.Prelude.{◌≡◌, ◌≤◌, ◌<◌, ◌^◌, length, IfSome};
ghost use Rattle.sf_scan.specs.Leaves.{leaf_bare};
ghost use Rattle.sf_view.specs.Scans.{PartShows, ScansBare};

use crate::bare_part::{FALSE, Part, TRUE, bytes_of, number_of, part_of};
use crate::node_types::NodeType;
use sf_scan::bare::{Take, bare};
use sf_scan::leaf::Leaf;
use sf_value::Dialect;

/// Makes the part of a bare item that the last `left` bytes of a source of `whole` bytes begin with.
#[derive(Clone, Copy)]
struct ToPart {
    whole: usize,
    left: usize,
}

impl<'a> Take<'a> for ToPart {
    type Made = Part;

    ghost fits = { λ t text. (t.whole < 2 ^ 32) × (t.left ≤ t.whole) × (length text ≡ t.left) };

    ghost makes = { λ t spelled leaf part.
        PartShows (leaf_bare leaf) spelled t.whole t.left part };

    #[inline(always)]
    fn integer(self, number: i64) -> Part {
        number_of(NodeType::Integer, number)
    }

    #[inline(always)]
    fn decimal(self, number: i64) -> Part {
        number_of(NodeType::Decimal, number)
    }

    #[inline(always)]
    fn boolean(self, value: bool) -> Part {
        if value { TRUE } else { FALSE }
    }

    #[inline(always)]
    fn token(self, bytes: &'a [u8]) -> Part {
        bytes_of(self.whole, self.left, bytes.len(), NodeType::Token, false)
    }

    #[inline(always)]
    fn text(self, bytes: &'a [u8]) -> Part {
        let after_quote = self.left - 1;
        bytes_of(self.whole, after_quote, bytes.len(), NodeType::Text, false)
    }

    #[inline]
    fn leaf(self, spelled: &'a [u8], leaf: Leaf<'a>) -> Part {
        part_of(leaf, spelled, self.whole, self.left)
    }
}

/// A bare item at the start of the text, which is the end of a source of `whole` bytes, and the
/// rest.
#[inline(always)]
pub(crate) fn scan_value(dialect: Dialect, whole: usize, text: &[u8]) -> Option<(Part, &[u8])>
    requires small { whole < 2 ^ 32 }
    requires within { length text.now ≤ whole }
    ensures { IfSome result (λ r. ScansBare dialect whole text.now r.0 r.1.now) }
{
    let left = text.len();
    match bare(dialect, text, ToPart { whole, left }) {
        Ok((stop, part)) => Some((part, stop.left)),
        Err(_) => None,
    }
}
