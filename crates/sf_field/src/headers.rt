//! Field lines in a header map.
ghost use Rattle.std.specs.Prelude.{◌≡◌, ℕ, List, [], IfErr};
ghost use Rattle.sf_value.specs.Grammar.Lines.{join};
ghost use Rattle.sf_parse.specs.AllocationFree.{TakesNoMemory};
ghost use Rattle.sf_parse.specs.AllocationFreeParsers.{IsOther};
ghost use Rattle.sf_field.specs.Headers.{ParsesHeaders, lines_under, value_lines};

use crate::lines::{AskingCost, FieldLines, parse_from};
use http_header::{HeaderMap, HeaderName, HeaderValue, ValueIter};
use sf_parse::Refusal;
use sf_value::{Dialect, Field, Kind};
use std::alloc::Global;
use std::hash::RandomState;

/// The values in a header map are in memory.
impl<'a> AskingCost for ValueIter<'a, HeaderValue> {
    fn asking_is_free(&self) -> bool {
        true
    }
}

/// The values of a name in a header map are field lines.
impl<'a> FieldLines<'a> for ValueIter<'a, HeaderValue> {
    ghost lines = { value_lines };

    fn next_line(&mut self) -> Option<&'a [u8]> {
        let value = self.next()?;
        Some(value.as_bytes())
    }
}

/// Parses the values of a name in a header map; None if the name is absent. The values are the
/// field lines, unchanged and in the map's order, and are parsed as by [`crate::parse_lines`].
///
/// ```
/// let priority = HeaderName::from_static("priority");
/// let field = from_headers(alloc, &seed, Kind::Dict, &headers, &priority)?;
/// ```
pub fn from_headers(
    alloc: Global,
    seed: &RandomState,
    kind: Kind,
    headers: &HeaderMap,
    name: &HeaderName,
) -> Result<Option<Field>, Refusal>
    // None if the name is absent; otherwise its values are parsed as field lines.
    ensures parses { ParsesHeaders kind headers.now name.now result }
    // Values whose joined text is allocation-free are not refused as out of memory.
    ensures allocation_free { TakesNoMemory kind (join (lines_under headers.now name.now))
        → IfErr result IsOther }
{
    if !headers.contains_key(name) {
        return Ok(None);
    }
    let values = headers.get_all(name).iter();
    Ok(Some(parse_from(alloc, seed, Dialect::Rfc9651, kind, values)?))
}
