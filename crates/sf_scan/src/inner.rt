//! Inner Lists (RFC 9651 section 4.2.1.2).
ghost use Rattle.std.specs.Prelude.{◌≡◌, [], ◌∷◌};
ghost use Rattle.sf_value.specs.Ascii.{open_bracket};
ghost use Rattle.sf_scan.specs.InnerLists.{SpellsRawInner, ScansItems};
ghost use Rattle.sf_scan.specs.InnerLists.{made_rest, in_inner, ends_inner};
ghost use Rattle.sf_scan.specs.Items.{made_item};
ghost use Rattle.sf_scan.specs.Outcomes.{Scans};
ghost use Rattle.sf_scan.specs.Sets.{Marks};
ghost use Rattle.sf_scan.specs.Stops.{Past};

use crate::allowed::Allowed;
use crate::builder::Builder;
use crate::byte_sets::AFTER_ITEM;
use crate::item::{ItemPlace, item};
use crate::param::params;
use crate::place::{BarePlace, Halt, ParamPlace, Stop};
use sf_value::Dialect;
use sf_value::classes::{Space, few_prefix, strip_byte};

/// A place in an Inner List.
#[derive(Clone, Copy)]
pub enum InnerPlace {
    /// After the opening bracket or a space: before an Item or the closing bracket.
    Open,
    /// In an Item, or after it.
    InItem(ItemPlace),
    /// After the closing bracket, in the parameters.
    InParams(ParamPlace),
}

impl InnerPlace {
    /// What may come here.
    #[inline(always)]
    pub fn allowed(self, dialect: Dialect) -> Allowed
        ensures expected { Marks result.expected (in_inner dialect self) }
        ensures may_end { result.may_end ≡ ends_inner self }
    {
        match self {
            InnerPlace::Open => {
                Allowed::new(
                    BarePlace::Start.allowed(dialect).expected | AFTER_ITEM,
                    false,
                )
            }
            InnerPlace::InItem(place) => {
                Allowed::new(place.allowed(dialect).or_after(AFTER_ITEM).expected, false)
            }
            InnerPlace::InParams(place) => place.allowed(dialect),
        }
    }
}

/// Gives the maker the Inner List that the text begins with, after its opening bracket, and returns
/// where it stops.
pub fn inner_list<'a, M: Builder<'a>>(
    dialect: Dialect,
    text: &'a [u8],
    maker: &mut M,
) -> Result<Stop<'a, InnerPlace>, Halt<'a, InnerPlace, M::Fault>>
    ensures { Scans (Past (open_bracket ∷ []) (SpellsRawInner dialect))
        (in_inner dialect) ends_inner
        (λ m v. made_rest M.bare M.with M.closed (M.opened m) v)
        text.now maker.old maker.new result }
{
    if let Err(fault) = maker.begin_inner() {
        return Err(Halt::Fault(fault));
    }
    let after = items(dialect, text, maker)?;
    if let Err(fault) = maker.end_inner() {
        return Err(Halt::Fault(fault));
    }
    match params(dialect, after, maker) {
        Ok(stop) => Ok(Stop {
            left: stop.left,
            place: InnerPlace::InParams(stop.place),
        }),
        Err(Halt::Refused(stop)) => Err(Halt::Refused(Stop {
            left: stop.left,
            place: InnerPlace::InParams(stop.place),
        })),
        Err(Halt::Fault(fault)) => Err(Halt::Fault(fault)),
    }
}

/// Gives the maker the Items of an Inner List, after its opening bracket, and returns what is after
/// its closing bracket.
fn items<'a, M: Builder<'a>>(
    dialect: Dialect,
    text: &'a [u8],
    maker: &mut M,
) -> Result<&'a [u8], Halt<'a, InnerPlace, M::Fault>>
    ensures { ScansItems M.bare M.with M.closed dialect text.now
        maker.old maker.new result }
{
    let mut rest = text;
    loop {
        let (_, at) = few_prefix::<Space>(rest);
        if let Some(after) = strip_byte(at, b')') {
            return Ok(after);
        }
        let end = match item(dialect, at, maker) {
            Ok(end) => end,
            Err(Halt::Refused(stop)) => {
                // Refused at its first byte: a space or the closing bracket may come, too.
                if stop.left.len() == at.len() {
                    return Err(Halt::Refused(Stop {
                        left: stop.left,
                        place: InnerPlace::Open,
                    }));
                }
                return Err(Halt::Refused(Stop {
                    left: stop.left,
                    place: InnerPlace::InItem(stop.place),
                }));
            }
            Err(Halt::Fault(fault)) => return Err(Halt::Fault(fault)),
        };
        if let Some(after) = strip_byte(end.left, b')') {
            return Ok(after);
        }
        let Some(more) = strip_byte(end.left, b' ') else {
            return Err(Halt::Refused(Stop {
                left: end.left,
                place: InnerPlace::InItem(end.place),
            }));
        };
        rest = more;
    }
}
