//! Members with commas between them, as Lists and Dictionaries have them (RFC 9651 sections 4.2.1
//! and 4.2.2).
ghost use Rattle.std.specs.Prelude.{◌≡◌, ℕ, Bool, List};
ghost use Rattle.sf_value.specs.declared.dialect.Dialect.{Dialect as Which};
ghost use Rattle.sf_value.specs.Grammar.Series.{SpellsWhole};
ghost use Rattle.sf_scan.specs.Outcomes.{Scans, Keeps};
ghost use Rattle.sf_scan.specs.Series.{IsElement, made_each, in_series, ends_series};
ghost use Rattle.sf_scan.specs.Sets.{Marks};

use crate::allowed::Allowed;
use crate::builder::Builder;
use crate::byte_sets::{AFTER_MEMBER, OWS, SPACE};
use crate::place::{Halt, Stop};
use sf_value::Dialect;
use sf_value::classes::{Ows, Space, few_prefix, strip_byte};

/// A place in a member of a List or a Dictionary.
pub trait ElementPlace: Copy {
    // The place before the first byte.
    ghost begin: { Self };

    // The bytes that may come at a place, as part of the member.
    ghost next: { Which → Self → ℕ → Bool };

    // Whether the member may end there.
    ghost ends: { Self → Bool };

    /// The place before the first byte.
    fn start() -> Self
        ensures { result ≡ begin };

    /// What may come here.
    fn allowed(self, dialect: Dialect) -> Allowed
        ensures expected { Marks result.expected (next dialect self) }
        ensures may_end { result.may_end ≡ ends self };
}

/// The members that a List or a Dictionary has, by the places in them.
pub trait Element<'a, M: Builder<'a>>: ElementPlace {
    // What a member spells.
    ghost Value: { Type 0 };

    ghost spells: { Which → List ℕ → Value → Type 0 };

    // What is made of it.
    ghost made: { M → Value → M };

    /// Gives the maker the member that the text begins with, and returns where it stops.
    fn read(
        dialect: Dialect,
        text: &'a [u8],
        maker: &mut M,
    ) -> Result<Stop<'a, Self>, Halt<'a, Self, M::Fault>>
        ensures scans { Scans (spells dialect) (Self.next dialect) Self.ends made
            text.now maker.old maker.new result }
        ensures kept { Keeps text.now maker.old maker.new result };
}

/// A place in a List or a Dictionary, by the places in its members.
#[derive(Clone, Copy)]
pub enum SeriesPlace<P> {
    /// Before the first member, and after spaces.
    Start,
    /// In a member, or after it.
    InMember(P),
    /// After a space or tab that follows a member.
    Spaces,
    /// After a comma, and spaces and tabs: before a member.
    Comma,
}

impl<P: ElementPlace> SeriesPlace<P> {
    /// What may come here.
    #[inline(always)]
    pub fn allowed(self, dialect: Dialect) -> Allowed
        ensures expected { Marks result.expected
            (in_series P.begin (P.next dialect) P.ends self) }
        ensures may_end { result.may_end ≡ ends_series P.ends self }
    {
        match self {
            SeriesPlace::Start => Allowed::new(P::start().allowed(dialect).expected | SPACE, true),
            SeriesPlace::InMember(place) => place.allowed(dialect).or_after(AFTER_MEMBER),
            SeriesPlace::Spaces => Allowed::new(AFTER_MEMBER, true),
            SeriesPlace::Comma => Allowed::new(P::start().allowed(dialect).expected | OWS, false),
        }
    }
}

/// Gives the maker the members that the text begins with, of which there may be none, and returns
/// where they stop.
#[inline(always)]
pub(crate) fn series<'a, E: Element<'a, M>, M: Builder<'a>>(
    dialect: Dialect,
    text: &'a [u8],
    maker: &mut M,
) -> Result<Stop<'a, SeriesPlace<E>>, Halt<'a, SeriesPlace<E>, M::Fault>>
    requires { IsElement (E.spells dialect) (E.next dialect E.begin) }
    ensures { Scans (SpellsWhole (E.spells dialect)) (in_series E.begin (E.next dialect) E.ends)
        (ends_series E.ends) (made_each E.made) text.now maker.old maker.new result }
{
    let (_, start) = few_prefix::<Space>(text);
    let mut end = match E::read(dialect, start, maker) {
        Ok(end) => end,
        Err(Halt::Refused(stop)) => {
            // Refused at its first byte: there is no member, and the caller sees what is left.
            if stop.left.len() == start.len() {
                return Ok(Stop {
                    left: start,
                    place: SeriesPlace::Start,
                });
            }
            return Err(Halt::Refused(Stop {
                left: stop.left,
                place: SeriesPlace::InMember(stop.place),
            }));
        }
        Err(Halt::Fault(fault)) => return Err(Halt::Fault(fault)),
    };
    loop {
        let (run, at) = few_prefix::<Ows>(end.left);
        let Some(more) = strip_byte(at, b',') else {
            if run.is_empty() {
                return Ok(Stop {
                    left: end.left,
                    place: SeriesPlace::InMember(end.place),
                });
            }
            return Ok(Stop {
                left: at,
                place: SeriesPlace::Spaces,
            });
        };
        let (_, due) = few_prefix::<Ows>(more);
        end = match E::read(dialect, due, maker) {
            Ok(end) => end,
            Err(Halt::Refused(stop)) => {
                // Refused at its first byte: after the comma, more white space may come, too.
                if stop.left.len() == due.len() {
                    return Err(Halt::Refused(Stop {
                        left: due,
                        place: SeriesPlace::Comma,
                    }));
                }
                return Err(Halt::Refused(Stop {
                    left: stop.left,
                    place: SeriesPlace::InMember(stop.place),
                }));
            }
            Err(Halt::Fault(fault)) => return Err(Halt::Fault(fault)),
        };
    }
}
