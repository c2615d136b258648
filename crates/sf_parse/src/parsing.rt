//! Whole texts.
ghost use Rattle.std.specs.Prelude.{IfErr};
ghost use Rattle.sf_value.specs.declared.dialect.Dialect.TheVariants.{Rfc9651};
ghost use Rattle.sf_value.specs.declared.value.Field.TheVariants as field_is;
ghost use Rattle.sf_value.specs.declared.value.Kind.TheVariants as kind_is;
ghost use Rattle.sf_parse.specs.Parsers.{Parses, Makes, NeedsValue};
ghost use Rattle.sf_parse.specs.AllocationFree.{TakesNoMemory};
ghost use Rattle.sf_parse.specs.AllocationFreeParsers.{IsOther, NotForMemory};

use crate::context::Context;
use crate::field::{DictReader, ListReader, parse_whole};
use crate::item_field::ItemFieldReader;
use crate::refusal::Refusal;
use sf_value::{Dialect, Dict, Field, Item, Kind, List};
use std::alloc::Global;
use std::hash::RandomState;

/// The value that the text spells, in the dialect of RFC 9651 (section 4.2). A text that spells
/// none is refused with Syntax, also if there is no memory; a text that spells one may be refused
/// with OutOfMemory. No text is refused with TooLong or ReadFault. For an Item, a text of spaces,
/// digits and `-.?@` does not allocate, nor do at most 16 bytes without `;`, `:` and `%`, such as a
/// short Token or String; nor does an empty List or Dictionary.
///
/// ```
/// let field = parse_text(alloc, &seed, Kind::Dict, b"u=1, i")?;
/// ```
pub fn parse_text(
    alloc: Global,
    seed: &RandomState,
    kind: Kind,
    text: &[u8],
) -> Result<Field, Refusal>
    // The text spells only this value, or this is its exact refusal; otherwise an allocation
    // failed.
    ensures parses { Parses Rfc9651 kind text.now result }
    // An allocation-free text is not refused as out of memory.
    ensures allocation_free { TakesNoMemory kind text.now → NotForMemory result }
    // A malformed text is not refused as out of memory.
    ensures needs_value { NeedsValue Rfc9651 kind text.now result }
{
    parse_text_in(alloc, seed, Dialect::Rfc9651, kind, text)
}

/// The value that the text spells in the dialect of the call, refused as [`parse_text`] refuses.
///
/// ```
/// parse_text_in(alloc, &seed, Dialect::Rfc8941, Kind::Item, b"@1") // refused: no Dates
/// ```
pub fn parse_text_in(
    alloc: Global,
    seed: &RandomState,
    dialect: Dialect,
    kind: Kind,
    text: &[u8],
) -> Result<Field, Refusal>
    // The text spells only this value, or this is its exact refusal; otherwise an allocation
    // failed.
    ensures parses { Parses dialect kind text.now result }
    // An allocation-free text is not refused as out of memory.
    ensures allocation_free { TakesNoMemory kind text.now → NotForMemory result }
    // A malformed text is not refused as out of memory.
    ensures needs_value { NeedsValue dialect kind text.now result }
{
    let context = Context::new(alloc, seed, dialect);
    match kind {
        Kind::Item => Ok(Field::Item(parse_whole::<ItemFieldReader>(&context, text)?)),
        Kind::List => Ok(Field::List(parse_whole::<ListReader>(&context, text)?)),
        Kind::Dict => Ok(Field::Dict(parse_whole::<DictReader>(&context, text)?)),
    }
}

/// The Item that the text spells, in the dialect of RFC 9651 (section 4.2), with the result of
/// [`parse_text`] for an Item. It allocates only if that does.
///
/// ```
/// let item = parse_item(alloc, &seed, b"a;q=1")?;
/// item.param(b"q")?.as_integer() // Some(1)
/// ```
pub fn parse_item(alloc: Global, seed: &RandomState, text: &[u8]) -> Result<Item, Refusal>
    // The text spells only this Item, or this is its exact refusal; otherwise an allocation failed.
    ensures parses { Makes field_is.Item (Parses Rfc9651 kind_is.Item text.now) result }
    // An allocation-free text is not refused as out of memory.
    ensures allocation_free { TakesNoMemory kind_is.Item text.now → IfErr result IsOther }
    // A malformed text is not refused as out of memory.
    ensures needs_value { NeedsValue Rfc9651 kind_is.Item text.now result }
{
    parse_whole::<ItemFieldReader>(&Context::new(alloc, seed, Dialect::Rfc9651), text)
}

/// The List that the text spells, in the dialect of RFC 9651 (section 4.2), with the result of
/// [`parse_text`] for a List. It allocates only if that does.
///
/// ```
/// let list = parse_list(alloc, &seed, b"a, (b c)")?;
/// list.members.len() // 2
/// ```
pub fn parse_list(alloc: Global, seed: &RandomState, text: &[u8]) -> Result<List, Refusal>
    // The text spells only this List, or this is its exact refusal; otherwise an allocation failed.
    ensures parses { Makes field_is.List (Parses Rfc9651 kind_is.List text.now) result }
    // An empty List is not refused as out of memory.
    ensures allocation_free { TakesNoMemory kind_is.List text.now → IfErr result IsOther }
    // A malformed text is not refused as out of memory.
    ensures needs_value { NeedsValue Rfc9651 kind_is.List text.now result }
{
    parse_whole::<ListReader>(&Context::new(alloc, seed, Dialect::Rfc9651), text)
}

/// The Dictionary that the text spells, in the dialect of RFC 9651 (section 4.2), with the result
/// of [`parse_text`] for a Dictionary. It allocates only if that does.
///
/// ```
/// let dict = parse_dict(alloc, &seed, b"u=1, i")?;
/// dict.get(b"u") // Some(Member::Item(1))
/// ```
pub fn parse_dict(alloc: Global, seed: &RandomState, text: &[u8]) -> Result<Dict, Refusal>
    // The text spells only this Dictionary, or this is its exact refusal; otherwise an allocation
    // failed.
    ensures parses { Makes field_is.Dict (Parses Rfc9651 kind_is.Dict text.now) result }
    // An empty Dictionary is not refused as out of memory.
    ensures allocation_free { TakesNoMemory kind_is.Dict text.now → IfErr result IsOther }
    // A malformed text is not refused as out of memory.
    ensures needs_value { NeedsValue Rfc9651 kind_is.Dict text.now result }
{
    parse_whole::<DictReader>(&Context::new(alloc, seed, Dialect::Rfc9651), text)
}
