//! Whole fields of one Item (RFC 9651 section 4.2).
ghost use Rattle.std.specs.Prelude.{◌≡◌};
ghost use Rattle.sf_scan.specs.ItemFields.{SpellsRawField, in_field, ends_field};
ghost use Rattle.sf_scan.specs.Items.{made_item};
ghost use Rattle.sf_scan.specs.Outcomes.{Scans};
ghost use Rattle.sf_scan.specs.Sets.{Marks};

use crate::allowed::Allowed;
use crate::builder::Builder;
use crate::byte_sets::SPACE;
use crate::item::{ItemPlace, item};
use crate::place::{BarePlace, Halt, Stop};
use sf_value::Dialect;
use sf_value::classes::{Space, few_prefix};

/// A place in a field of one Item.
#[derive(Clone, Copy)]
pub enum FieldPlace {
    /// Before the Item, and after spaces.
    Start,
    /// In the Item, or after it.
    InItem(ItemPlace),
    /// After a space that follows the Item.
    Spaces,
}

impl FieldPlace {
    /// What may come here.
    pub fn allowed(self, dialect: Dialect) -> Allowed
        ensures expected { Marks result.expected (in_field dialect self) }
        ensures may_end { result.may_end ≡ ends_field self }
    {
        match self {
            FieldPlace::Start => {
                Allowed::new(BarePlace::Start.allowed(dialect).expected | SPACE, false)
            }
            FieldPlace::InItem(place) => place.allowed(dialect).or_after(SPACE),
            FieldPlace::Spaces => Allowed::new(SPACE, true),
        }
    }
}

/// Gives the maker the Item of a field that the text begins with, and returns where the field stops.
/// The text is a field of one Item if nothing is left.
pub fn item_field<'a, M: Builder<'a>>(
    dialect: Dialect,
    text: &'a [u8],
    maker: &mut M,
) -> Result<Stop<'a, FieldPlace>, Halt<'a, FieldPlace, M::Fault>>
    ensures { Scans (SpellsRawField dialect) (in_field dialect) ends_field
        (made_item M.bare M.with) text.now maker.old maker.new result }
{
    let (_, start) = few_prefix::<Space>(text);
    let end = match item(dialect, start, maker) {
        Ok(end) => end,
        Err(Halt::Refused(stop)) => {
            // Refused at its first byte: more spaces may come, too.
            if stop.left.len() == start.len() {
                return Err(Halt::Refused(Stop {
                    left: start,
                    place: FieldPlace::Start,
                }));
            }
            return Err(Halt::Refused(Stop {
                left: stop.left,
                place: FieldPlace::InItem(stop.place),
            }));
        }
        Err(Halt::Fault(fault)) => return Err(Halt::Fault(fault)),
    };
    let (run, left) = few_prefix::<Space>(end.left);
    if run.is_empty() {
        return Ok(Stop {
            left: end.left,
            place: FieldPlace::InItem(end.place),
        });
    }
    Ok(Stop {
        left,
        place: FieldPlace::Spaces,
    })
}
