//! Whole texts, and where they are refused (RFC 9651 section 4.2).
ghost use Rattle.std.specs.Prelude.{MatchOption};
ghost use Rattle.sf_value.specs.declared.value.Field.{Field as Whole};
ghost use Rattle.sf_value.specs.declared.value.Kind.TheVariants as kind_is;
ghost use Rattle.sf_value.specs.Grammar.Fields.{SpellsField};
ghost use Rattle.sf_scan.specs.Refusals.{IsRefused, ReadsAll, StopsShort};

use crate::dict::dict;
use crate::field::item_field;
use crate::list::list;
use crate::maker::Nothing;
use crate::place::{Halt, Stop};
use sf_value::{Dialect, Kind};
use std::convert::Infallible;

/// Where a text is refused, and what may come there.
#[derive(Clone, Copy)]
pub struct Refused<'a> {
    /// What is left of the text: it is refused at the first of these bytes, or at its end if there
    /// are none.
    pub left: &'a [u8],
    /// The bytes below 128 that may come there, a bit for each.
    pub expected: u128,
    /// Whether the text may end there.
    pub may_end: bool,
}

/// The exact refusal of a text as a field of this kind; `None` if it spells one.
///
/// ```text
/// refusal(Dialect::Rfc9651, Kind::List, b"a, b") // None
/// let refused = refusal(Dialect::Rfc9651, Kind::List, b"a,,")?;
/// refused.left // b","
/// ```
pub fn refusal(dialect: Dialect, kind: Kind, text: &[u8]) -> Option<Refused<'_>>
    ensures { MatchOption result ((v : Whole) × SpellsField dialect kind text.now v)
        (λ refused. IsRefused dialect kind text.now refused) }
{
    match kind {
        Kind::Item => item_refusal(dialect, text),
        Kind::List => list_refusal(dialect, text),
        Kind::Dict => dict_refusal(dialect, text),
    }
}

/// Where a text stops that is not read to its end: it is refused there, or something is left.
fn stop_short<'a, P: Copy>(
    outcome: Result<Stop<'a, P>, Halt<'a, P, Infallible>>,
) -> Option<Stop<'a, P>>
    ensures { MatchOption result (ReadsAll outcome.entry) (λ stop. StopsShort outcome.entry stop) }
{
    match outcome {
        Ok(stop) => {
            if stop.left.is_empty() {
                None
            } else {
                Some(stop)
            }
        }
        Err(Halt::Refused(stop)) => Some(stop),
        Err(Halt::Fault(fault)) => match fault {},
    }
}

/// As [`refusal`], of a field of one Item.
fn item_refusal(dialect: Dialect, text: &[u8]) -> Option<Refused<'_>>
    ensures { MatchOption result ((v : Whole) × SpellsField dialect kind_is.Item text.now v)
        (λ refused. IsRefused dialect kind_is.Item text.now refused) }
{
    let stop = stop_short(item_field(dialect, text, &mut Nothing))?;
    let allowed = stop.place.allowed(dialect);
    Some(Refused {
        left: stop.left,
        expected: allowed.expected,
        may_end: allowed.may_end,
    })
}

/// As [`refusal`], of a List.
fn list_refusal(dialect: Dialect, text: &[u8]) -> Option<Refused<'_>>
    ensures { MatchOption result ((v : Whole) × SpellsField dialect kind_is.List text.now v)
        (λ refused. IsRefused dialect kind_is.List text.now refused) }
{
    let stop = stop_short(list(dialect, text, &mut Nothing))?;
    let allowed = stop.place.allowed(dialect);
    Some(Refused {
        left: stop.left,
        expected: allowed.expected,
        may_end: allowed.may_end,
    })
}

/// As [`refusal`], of a Dictionary.
fn dict_refusal(dialect: Dialect, text: &[u8]) -> Option<Refused<'_>>
    ensures { MatchOption result ((v : Whole) × SpellsField dialect kind_is.Dict text.now v)
        (λ refused. IsRefused dialect kind_is.Dict text.now refused) }
{
    let stop = stop_short(dict(dialect, text, &mut Nothing))?;
    let allowed = stop.place.allowed(dialect);
    Some(Refused {
        left: stop.left,
        expected: allowed.expected,
        may_end: allowed.may_end,
    })
}
