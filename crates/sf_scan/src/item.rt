//! Items (RFC 9651 section 4.2.3).
ghost use Rattle.std.specs.Prelude.{◌≡◌};
ghost use Rattle.sf_scan.specs.Items.{SpellsRawItem, made_item, in_item, ends_item};
ghost use Rattle.sf_scan.specs.Outcomes.{Scans, Keeps};
ghost use Rattle.sf_scan.specs.Sets.{Marks};

use crate::allowed::Allowed;
use crate::bare::{AsLeaf, bare};
use crate::builder::Builder;
use crate::byte_sets::SEMICOLON;
use crate::param::params;
use crate::place::{BarePlace, Halt, ParamPlace, Stop};
use sf_value::Dialect;
use sf_value::classes::strip_byte;

/// A place in an Item.
#[derive(Clone, Copy)]
pub enum ItemPlace {
    /// In its bare item, or after it.
    InBare(BarePlace),
    /// In its parameters, after the first semicolon.
    InParams(ParamPlace),
}

impl ItemPlace {
    /// What may come here.
    #[inline(always)]
    pub fn allowed(self, dialect: Dialect) -> Allowed
        ensures expected { Marks result.expected (in_item dialect self) }
        ensures may_end { result.may_end ≡ ends_item self }
    {
        match self {
            ItemPlace::InBare(place) => place.allowed(dialect).or_after(SEMICOLON),
            ItemPlace::InParams(place) => place.allowed(dialect),
        }
    }
}

/// Gives the maker the Item that the text begins with, and returns where it stops.
///
/// ```text
/// let mut q = Find::new(b"q");
/// let stop = item(Dialect::Rfc9651, b"a;q=1;r, b", &mut q)?; // stop.left is b", b"
/// q.found() // Some(Leaf::Integer(1))
/// ```
#[inline(always)]
pub fn item<'a, M: Builder<'a>>(
    dialect: Dialect,
    text: &'a [u8],
    maker: &mut M,
) -> Result<Stop<'a, ItemPlace>, Halt<'a, ItemPlace, M::Fault>>
    ensures scans { Scans (SpellsRawItem dialect) (in_item dialect) ends_item
        (made_item M.bare M.with) text.now maker.old maker.new result }
    ensures kept { Keeps text.now maker.old maker.new result }
{
    let (end, leaf) = match bare(dialect, text, AsLeaf) {
        Ok(found) => found,
        Err(stop) => {
            return Err(Halt::Refused(Stop {
                left: stop.left,
                place: ItemPlace::InBare(stop.place),
            }));
        }
    };
    if let Err(fault) = maker.bare_item(leaf) {
        return Err(Halt::Fault(fault));
    }
    // Without parameters, the place has also the bytes that would lengthen the bare item.
    let Some(_) = strip_byte(end.left, b';') else {
        return Ok(Stop {
            left: end.left,
            place: ItemPlace::InBare(end.place),
        });
    };
    match params(dialect, end.left, maker) {
        Ok(stop) => Ok(Stop {
            left: stop.left,
            place: ItemPlace::InParams(stop.place),
        }),
        Err(Halt::Refused(stop)) => Err(Halt::Refused(Stop {
            left: stop.left,
            place: ItemPlace::InParams(stop.place),
        })),
        Err(Halt::Fault(fault)) => Err(Halt::Fault(fault)),
    }
}
