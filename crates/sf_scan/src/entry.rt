//! Members of Dictionaries (RFC 9651 section 4.2.2).
ghost use Rattle.std.specs.Prelude.{ℕ, List};
ghost use Rattle.sf_scan.specs.Entries.{SpellsRawEntry, made_entry, in_entry, ends_entry};
ghost use Rattle.sf_scan.specs.Members.{RawMember};
ghost use Rattle.sf_scan.specs.Outcomes.{Scans, Keeps};
ghost use Rattle.sf_scan.specs.declared.entry.EntryPlace.TheVariants as place;

use crate::allowed::Allowed;
use crate::builder::Builder;
use crate::byte_sets::{AFTER_KEY, KEY_START};
use crate::leaf::Leaf;
use crate::member::MemberPlace;
use crate::param::{find_key, params};
use crate::place::{Halt, ParamPlace, Stop};
use crate::series::{Element, ElementPlace};
use sf_value::Dialect;
use sf_value::classes::strip_byte;

/// A place in a member of a Dictionary.
#[derive(Clone, Copy)]
pub enum EntryPlace {
    /// Before its first byte.
    Start,
    /// After a byte of the key.
    InKey,
    /// After the equals sign, in the value.
    InValue(MemberPlace),
    /// After a key without a value, in the parameters.
    InParams(ParamPlace),
}

impl ElementPlace for EntryPlace {
    ghost begin = { place.Start };

    ghost next = { in_entry };

    ghost ends = { ends_entry };

    fn start() -> EntryPlace {
        EntryPlace::Start
    }

    #[inline(always)]
    fn allowed(self, dialect: Dialect) -> Allowed {
        match self {
            EntryPlace::Start => Allowed::new(KEY_START, false),
            EntryPlace::InKey => Allowed::new(AFTER_KEY, true),
            EntryPlace::InValue(place) => place.allowed(dialect),
            EntryPlace::InParams(place) => place.allowed(dialect),
        }
    }
}

impl<'a, M: Builder<'a>> Element<'a, M> for EntryPlace {
    ghost Value = { List ℕ × RawMember };

    ghost spells = { SpellsRawEntry };

    ghost made = { made_entry M.bare M.with M.opened M.closed M.named };

    #[inline(always)]
    fn read(
        dialect: Dialect,
        text: &'a [u8],
        maker: &mut M,
    ) -> Result<Stop<'a, EntryPlace>, Halt<'a, EntryPlace, M::Fault>> {
        let Some((key, rest)) = find_key(text) else {
            return Err(Halt::Refused(Stop {
                left: text,
                place: EntryPlace::Start,
            }));
        };
        if let Err(fault) = maker.key(key) {
            return Err(Halt::Fault(fault));
        }
        if let Some(value) = strip_byte(rest, b'=') {
            return match MemberPlace::read(dialect, value, maker) {
                Ok(stop) => Ok(Stop {
                    left: stop.left,
                    place: EntryPlace::InValue(stop.place),
                }),
                Err(Halt::Refused(stop)) => Err(Halt::Refused(Stop {
                    left: stop.left,
                    place: EntryPlace::InValue(stop.place),
                })),
                Err(Halt::Fault(fault)) => Err(Halt::Fault(fault)),
            };
        }
        if let Err(fault) = maker.bare_item(Leaf::Boolean(true)) {
            return Err(Halt::Fault(fault));
        }
        // Without parameters, the place has also the bytes that would lengthen the key.
        let Some(_) = strip_byte(rest, b';') else {
            return Ok(Stop {
                left: rest,
                place: EntryPlace::InKey,
            });
        };
        match params(dialect, rest, maker) {
            Ok(stop) => Ok(Stop {
                left: stop.left,
                place: EntryPlace::InParams(stop.place),
            }),
            Err(Halt::Refused(stop)) => Err(Halt::Refused(Stop {
                left: stop.left,
                place: EntryPlace::InParams(stop.place),
            })),
            Err(Halt::Fault(fault)) => Err(Halt::Fault(fault)),
        }
    }
}
