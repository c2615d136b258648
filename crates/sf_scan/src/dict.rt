//! Dictionaries (RFC 9651 section 4.2.2).
ghost use Rattle.sf_scan.specs.Entries.{SpellsRawDict, made_entry, in_dict, ends_dict};
ghost use Rattle.sf_scan.specs.Outcomes.{Scans};
ghost use Rattle.sf_scan.specs.Series.{made_each};

use crate::builder::Builder;
use crate::entry::EntryPlace;
use crate::place::{Halt, Stop};
use crate::series::{SeriesPlace, series};
use sf_value::Dialect;

/// A place in a Dictionary.
pub type DictPlace = SeriesPlace<EntryPlace>;

/// Gives the maker the Dictionary that the text begins with, which may be empty, and returns where it
/// stops. The text is a Dictionary if nothing is left.
///
/// ```text
/// let stop = dict(Dialect::Rfc9651, b"a=1, b", &mut Nothing)?; // stop.left is empty
/// dict(Dialect::Rfc9651, b"a=1,", &mut Nothing); // Err(Halt::Refused(stop)), after the comma
/// ```
#[inline(always)]
pub fn dict<'a, M: Builder<'a>>(
    dialect: Dialect,
    text: &'a [u8],
    maker: &mut M,
) -> Result<Stop<'a, DictPlace>, Halt<'a, DictPlace, M::Fault>>
    ensures { Scans (SpellsRawDict dialect) (in_dict dialect) ends_dict
        (made_each (made_entry M.bare M.with M.opened M.closed M.named))
        text.now maker.old maker.new result }
{
    series::<EntryPlace, M>(dialect, text, maker)
}
