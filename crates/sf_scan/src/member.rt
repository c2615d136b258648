//! Members: Items and Inner Lists (RFC 9651 section 4.2.1.1).
ghost use Rattle.sf_scan.specs.Members.{RawMember, SpellsRawMember, made_member};
ghost use Rattle.sf_scan.specs.Members.{in_member, ends_member};
ghost use Rattle.sf_scan.specs.Outcomes.{Scans, Keeps};
ghost use Rattle.sf_scan.specs.declared.member.MemberPlace.TheVariants as place;

use crate::allowed::Allowed;
use crate::builder::Builder;
use crate::byte_sets::OPEN_BRACKET;
use crate::inner::{InnerPlace, inner_list};
use crate::item::{ItemPlace, item};
use crate::place::{BarePlace, Halt, Stop};
use crate::series::{Element, ElementPlace};
use sf_value::Dialect;
use sf_value::classes::strip_byte;

/// A place in a member of a List, or in the value of a member of a Dictionary.
#[derive(Clone, Copy)]
pub enum MemberPlace {
    /// Before its first byte.
    Start,
    /// In an Item, or after it.
    InItem(ItemPlace),
    /// In an Inner List, or after it.
    InInner(InnerPlace),
}

impl ElementPlace for MemberPlace {
    ghost begin = { place.Start };

    ghost next = { in_member };

    ghost ends = { ends_member };

    fn start() -> MemberPlace {
        MemberPlace::Start
    }

    #[inline(always)]
    fn allowed(self, dialect: Dialect) -> Allowed {
        match self {
            MemberPlace::Start => {
                Allowed::new(
                    BarePlace::Start.allowed(dialect).expected | OPEN_BRACKET,
                    false,
                )
            }
            MemberPlace::InItem(place) => place.allowed(dialect),
            MemberPlace::InInner(place) => place.allowed(dialect),
        }
    }
}

impl<'a, M: Builder<'a>> Element<'a, M> for MemberPlace {
    ghost Value = { RawMember };

    ghost spells = { SpellsRawMember };

    ghost made = { made_member M.bare M.with M.opened M.closed };

    #[inline(always)]
    fn read(
        dialect: Dialect,
        text: &'a [u8],
        maker: &mut M,
    ) -> Result<Stop<'a, MemberPlace>, Halt<'a, MemberPlace, M::Fault>> {
        if let Some(rest) = strip_byte(text, b'(') {
            return match inner_list(dialect, rest, maker) {
                Ok(stop) => Ok(Stop {
                    left: stop.left,
                    place: MemberPlace::InInner(stop.place),
                }),
                Err(Halt::Refused(stop)) => Err(Halt::Refused(Stop {
                    left: stop.left,
                    place: MemberPlace::InInner(stop.place),
                })),
                Err(Halt::Fault(fault)) => Err(Halt::Fault(fault)),
            };
        }
        match item(dialect, text, maker) {
            Ok(stop) => Ok(Stop {
                left: stop.left,
                place: MemberPlace::InItem(stop.place),
            }),
            Err(Halt::Refused(stop)) => {
                // Refused at its first byte: an opening bracket may come, too.
                if stop.left.len() == text.len() {
                    return Err(Halt::Refused(Stop {
                        left: stop.left,
                        place: MemberPlace::Start,
                    }));
                }
                Err(Halt::Refused(Stop {
                    left: stop.left,
                    place: MemberPlace::InItem(stop.place),
                }))
            }
            Err(Halt::Fault(fault)) => Err(Halt::Fault(fault)),
        }
    }
}
