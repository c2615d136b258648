//! Parsing the lines of a field of a fixed kind, to the Item, the List or the Dictionary itself.
ghost use Rattle.sf_value.specs.declared.dialect.Dialect.TheVariants.{Rfc9651};
ghost use Rattle.sf_value.specs.declared.value.Field.TheVariants as field_is;
ghost use Rattle.sf_value.specs.declared.value.Kind.TheVariants as kind_is;
ghost use Rattle.std.specs.Prelude.{IfErr};
ghost use Rattle.sf_value.specs.Grammar.Lines.{join};
ghost use Rattle.sf_parse.specs.AllocationFree.{TakesNoMemory};
ghost use Rattle.sf_parse.specs.AllocationFreeParsers.{IsOther};
ghost use Rattle.sf_parse.specs.Parsers.{Makes};
ghost use Rattle.sf_field.specs.Lines.{ParsesLines};

use crate::lines::parse_lines;
use sf_parse::Refusal;
use sf_value::{Blob, Dict, Field, Item, Kind, List};
use std::alloc::Global;
use std::hash::RandomState;

/// Parses the lines as an Item, as [`crate::parse_lines`] does.
///
/// ```
/// let item = parse_item_lines(alloc, &seed, lines.as_slice())?;
/// ```
pub fn parse_item_lines(alloc: Global, seed: &RandomState, lines: &[Blob]) -> Result<Item, Refusal>
    // The joined lines spell this Item and no other value, or this is their exact refusal, or an
    // allocation failed.
    ensures parses { Makes field_is.Item (ParsesLines Rfc9651 kind_is.Item lines.now) result }
    // Lines whose joined text is allocation-free are not refused as out of memory.
    ensures allocation_free { TakesNoMemory kind_is.Item (join lines.now) → IfErr result IsOther }
{
    let Field::Item(item) = parse_lines(alloc, seed, Kind::Item, lines)? else {
        unreachable!();
    };
    Ok(item)
}

/// Parses the lines as a List, as [`crate::parse_lines`] does.
///
/// ```
/// let list = parse_list_lines(alloc, &seed, lines.as_slice())?;
/// ```
pub fn parse_list_lines(alloc: Global, seed: &RandomState, lines: &[Blob]) -> Result<List, Refusal>
    // The joined lines spell this List and no other value, or this is their exact refusal, or an
    // allocation failed.
    ensures parses { Makes field_is.List (ParsesLines Rfc9651 kind_is.List lines.now) result }
    // Lines whose joined text is of spaces are not refused as out of memory.
    ensures allocation_free { TakesNoMemory kind_is.List (join lines.now) → IfErr result IsOther }
{
    let Field::List(list) = parse_lines(alloc, seed, Kind::List, lines)? else {
        unreachable!();
    };
    Ok(list)
}

/// Parses the lines as a Dictionary, as [`crate::parse_lines`] does.
///
/// ```
/// let dict = parse_dict_lines(alloc, &seed, lines.as_slice())?;
/// ```
pub fn parse_dict_lines(alloc: Global, seed: &RandomState, lines: &[Blob]) -> Result<Dict, Refusal>
    // The joined lines spell this Dictionary and no other value, or this is their exact refusal, or
    // an allocation failed.
    ensures parses { Makes field_is.Dict (ParsesLines Rfc9651 kind_is.Dict lines.now) result }
    // Lines whose joined text is of spaces are not refused as out of memory.
    ensures allocation_free { TakesNoMemory kind_is.Dict (join lines.now) → IfErr result IsOther }
{
    let Field::Dict(dict) = parse_lines(alloc, seed, Kind::Dict, lines)? else {
        unreachable!();
    };
    Ok(dict)
}
