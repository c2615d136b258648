//! Lists (RFC 9651 section 4.2.1).
ghost use Rattle.sf_scan.specs.Members.{made_member};
ghost use Rattle.sf_scan.specs.Outcomes.{Scans};
ghost use Rattle.sf_scan.specs.Series.{SpellsRawList, made_each, in_list, ends_list};

use crate::builder::Builder;
use crate::member::MemberPlace;
use crate::place::{Halt, Stop};
use crate::series::{SeriesPlace, series};
use sf_value::Dialect;

/// A place in a List.
pub type ListPlace = SeriesPlace<MemberPlace>;

/// Gives the maker the List that the text begins with, which may be empty, and returns where it
/// stops. The text is a List if nothing is left.
#[inline(always)]
pub fn list<'a, M: Builder<'a>>(
    dialect: Dialect,
    text: &'a [u8],
    maker: &mut M,
) -> Result<Stop<'a, ListPlace>, Halt<'a, ListPlace, M::Fault>>
    ensures { Scans (SpellsRawList dialect) (in_list dialect) ends_list
        (made_each (made_member M.bare M.with M.opened M.closed))
        text.now maker.old maker.new result }
{
    series::<MemberPlace, M>(dialect, text, maker)
}
