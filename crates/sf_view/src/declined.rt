//! Texts that a scanner declined: they are refused without building a value, or parsed.
ghost use Rattle.sf_parse.specs.Parsers.{NeedsValue, Parses};

use sf_parse::{Refusal, parse_text_in, refuse_text};
use sf_value::{Dialect, Field, Kind};
use std::alloc::Global;
use std::hash::RandomState;

/// Parses a text that a scanner declined, with the result of [`parse_text_in`]. A malformed text is
/// refused before anything is built, and without memory.
///
/// ```
/// parse_declined(alloc, &seed, Dialect::Rfc9651, Kind::List, b"a, b, c, 1x")
/// // Err: byte 0x78 'x' at place 10, expected ..
/// ```
pub fn parse_declined(
    alloc: Global,
    seed: &RandomState,
    dialect: Dialect,
    kind: Kind,
    text: &[u8],
) -> Result<Field, Refusal>
    // The text spells only this value, or this is its exact refusal; otherwise an allocation
    // failed.
    ensures parses { Parses dialect kind text.now result }
    // A malformed text is not refused as out of memory.
    ensures needs_value { NeedsValue dialect kind text.now result }
{
    match refuse_text(dialect, kind, text) {
        Some(refusal) => Err(refusal),
        None => parse_text_in(alloc, seed, dialect, kind, text),
    }
}
