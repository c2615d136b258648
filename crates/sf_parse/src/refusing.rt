//! Refusals of whole texts, of which no value is built.
ghost use Rattle.std.specs.Prelude.{Err, MatchOption};
ghost use Rattle.sf_value.specs.declared.value.Field.{Field as Whole};
ghost use Rattle.sf_parse.specs.AllocationFreeParsers.{IsOther};
ghost use Rattle.sf_parse.specs.Parsers.{IsOnly, Parses};

use crate::refusal::Refusal;
use sf_scan::refusal::refusal;
use sf_value::{Dialect, Kind};

/// The exact refusal of a text as a field of this kind, as [`crate::parse_text_in`] refuses it;
/// `None` if it spells one (RFC 9651 section 4.2). It does not allocate.
///
/// ```
/// refuse_text(Dialect::Rfc9651, Kind::Dict, b"u=1, i") // None
/// refuse_text(Dialect::Rfc9651, Kind::Dict, b"u=1,") // Some: at place 4, the text ended
/// ```
pub fn refuse_text(dialect: Dialect, kind: Kind, text: &[u8]) -> Option<Refusal>
    // The text spells a value, and no other; or it spells none, and this is its exact refusal.
    ensures { MatchOption result ((v : Whole) × IsOnly dialect kind text.now v)
        (λ e. Parses dialect kind text.now (Err e) × IsOther e) }
{
    let refused = refusal(dialect, kind, text)?;
    Some(Refusal::Syntax {
        place: (text.len() - refused.left.len()) as u64,
        found: refused.left.first().copied(),
        expected: refused.expected,
        may_end: refused.may_end,
    })
}
