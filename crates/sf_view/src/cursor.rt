//! Whole texts, read member by member without nodes.
ghost use Rattle.std.specs.Prelude.{◌≡◌, ◌<◌, IfSome, IsTrue};
ghost use Rattle.std.specs.Option.{option_copied};
ghost use Rattle.sf_value.specs.declared.dialect.Dialect.{Dialect as Which};
ghost use Rattle.sf_value.specs.declared.value.Field.{Field};
ghost use Rattle.sf_value.specs.declared.value.Kind.TheVariants as kind_is;
ghost use Rattle.sf_value.specs.declared.value.Member.{Member};
ghost use Rattle.sf_value.specs.Grammar.Fields.{SpellsEntry};
ghost use Rattle.sf_value.specs.Grammar.Pairs.{Pairs};
ghost use Rattle.sf_value.specs.Grammar.Series.{SpellsWhole};
ghost use Rattle.sf_parse.specs.Parsers.{IsOnly};
ghost use Rattle.sf_view.specs.Cursors.{IsFirst, IsNext, RemainsInDict, ReadsNextEntry};
ghost use Rattle.sf_view.specs.Cursors.{integer_in, boolean_in, left_in};
ghost use Rattle.sf_view.specs.Reads.{ShowsMember};

use crate::text_parts::{after_item, read_entry, read_member};
use crate::view::BareView;
use sf_value::classes::{after_ows, after_spaces, ends, strip_byte};
use sf_value::{Dialect, Kind};

/// The members of a Dictionary, read from its text one after another. It does not allocate.
///
/// A repeated key is returned each time; its last value counts (RFC 9651 section 4.2.2).
///
/// ```
/// let mut cursor = DictCursor::new(Dialect::Rfc9651, b"u=1, i");
/// while let Some(entry) = cursor.next()? {
///     .. // u, Integer 1; then i, Boolean true
/// }
/// ```
#[derive(Clone, Copy, Debug, Drop)]
pub struct DictCursor<'a> {
    dialect: Dialect,
    /// The text from the next member on; `None` after the last.
    rest: Option<&'a [u8]>,
}

/// A member of a Dictionary: its key and its bare item.
#[derive(Clone, Copy, Debug, Drop)]
pub struct EntryView<'a> {
    /// The key, as a part of the text.
    pub key: &'a [u8],
    /// The bare item of an Item; `None` for an Inner List.
    pub bare: Option<BareView<'a>>,
}

impl<'a> DictCursor<'a> {
    /// A cursor at the first member of the text.
    #[inline]
    pub fn new(dialect: Dialect, text: &'a [u8]) -> DictCursor<'a>
        ensures dialect { result.dialect ≡ dialect }
        // If the members that remain are these, the whole text spells them.
        ensures whole { (ps : Pairs Member) → RemainsInDict result ps
            → SpellsWhole (SpellsEntry dialect) text.now ps }
    {
        DictCursor {
            dialect,
            rest: first_start(text),
        }
    }

    /// Reads the next member: `Some(None)` after the last one, and `None` if the cursor declines
    /// the text, of which nothing is then known. It declines a text that spells no Dictionary. A
    /// text of any length is read.
    #[inline(always)]
    pub fn next(&mut self) -> Option<Option<EntryView<'a>>>
        ensures dialect { self.new.dialect ≡ self.old.dialect }
        // A member with this key and this bare item comes before those that remain; after the last
        // one, none remain.
        ensures next { IfSome result (λ entry. ReadsNextEntry self.old self.new entry) }
        // Less of the text remains after a member.
        ensures fewer { IfSome result (λ entry. IfSome entry (λ _.
            left_in (option_copied self.new.rest) < left_in (option_copied self.old.rest))) }
    {
        let Some(text) = self.rest else {
            return Some(None);
        };
        let (key, bare, after) = read_entry(self.dialect, text)?;
        self.rest = next_start(after)?;
        Some(Some(EntryView { key, bare }))
    }
}

impl EntryView<'_> {
    /// The Integer of an Item; `None` for another bare item and for an Inner List.
    #[inline]
    pub fn as_integer(&self) -> Option<i64>
        // Whatever member is shown, this is its Integer, if it has one.
        ensures { (d : Which) (m : Member) → ShowsMember d self.now.bare m
            → result ≡ integer_in m }
    {
        match &self.bare {
            Some(bare) => return bare.as_integer(),
            None => return None,
        }
    }

    /// The Boolean of an Item; `None` for another bare item and for an Inner List.
    #[inline]
    pub fn as_boolean(&self) -> Option<bool>
        // Whatever member is shown, this is its Boolean, if it has one.
        ensures { (d : Which) (m : Member) → ShowsMember d self.now.bare m
            → result ≡ boolean_in m }
    {
        match &self.bare {
            Some(bare) => return bare.as_boolean(),
            None => return None,
        }
    }
}

/// Returns whether the text spells a field of the kind (RFC 9651 section 4.2). `false` proves
/// nothing. It does not allocate, repeated keys are accepted, and a text of any length is read.
///
/// ```
/// accepts(Dialect::Rfc9651, Kind::Dict, b"u=1, i") // true
/// accepts(Dialect::Rfc9651, Kind::Dict, b"u=1,") // false
/// ```
pub fn accepts(dialect: Dialect, kind: Kind, text: &[u8]) -> bool
    // The text spells a field of the kind, and no other.
    ensures accepted { IsTrue result → (v : Field) × IsOnly dialect kind text.now v }
{
    match kind {
        Kind::Item => return is_item(dialect, text),
        Kind::List => return is_list(dialect, text).is_some(),
        Kind::Dict => return is_dict(dialect, text).is_some(),
    }
}

/// Whether the text is an Item.
#[inline]
fn is_item(dialect: Dialect, text: &[u8]) -> bool
    ensures { IsTrue result → (v : Field) × IsOnly dialect kind_is.Item text.now v }
{
    match after_item(dialect, after_spaces(text)) {
        Some(rest) => return ends(after_spaces(rest)),
        None => return false,
    }
}

/// Reads a List to its end.
#[inline]
fn is_list(dialect: Dialect, text: &[u8]) -> Option<()>
    ensures { IfSome result (λ _. (v : Field) × IsOnly dialect kind_is.List text.now v) }
{
    let mut start = first_start(text);
    while let Some(rest) = start {
        let (_, after) = read_member(dialect, rest)?;
        start = next_start(after)?;
    }
    Some(())
}

/// Reads a Dictionary to its end.
#[inline]
fn is_dict(dialect: Dialect, text: &[u8]) -> Option<()>
    ensures { IfSome result (λ _. (v : Field) × IsOnly dialect kind_is.Dict text.now v) }
{
    let mut start = first_start(text);
    while let Some(rest) = start {
        let (_, _, after) = read_entry(dialect, rest)?;
        start = next_start(after)?;
    }
    Some(())
}

/// The text from the first member on; `None` if there are only spaces.
#[inline]
pub(crate) fn first_start(text: &[u8]) -> Option<&[u8]>
    ensures { IsFirst text.now (option_copied result) }
{
    let rest = after_spaces(text);
    if ends(rest) { None } else { Some(rest) }
}

/// The text from the next member on, after OWS, a comma and OWS; `Some(None)` if there is only OWS.
#[inline]
pub(crate) fn next_start(text: &[u8]) -> Option<Option<&[u8]>>
    ensures { IfSome result (λ start. IsNext text.now (option_copied start)) }
{
    let white = after_ows(text);
    if ends(white) {
        return Some(None);
    }
    Some(Some(after_ows(strip_byte(white, b',')?)))
}
