//! Laws of the definitions, each as the contract of a function that does nothing: a proof that
//! needs a law calls its function.
ghost use Rattle.sf_value.specs.Laws.{SettlesInParts, CanonSpells, SpelledIsValid, CanonIsShort};
ghost use Rattle.sf_value.specs.Laws.{CanonIsEmpty, SpellsInBoth, TableIsUtf8};

/// Pairs with repeated keys may be settled before others follow them (RFC 9651 sections 4.2.2 and
/// 4.2.3.2): overwriting while reading is overwriting at the end.
pub fn settles_in_parts<V>()
    ensures { SettlesInParts V }
{}

/// The canonical text (RFC 9651 section 4.1) of a valid value spells that value (section 4.2).
pub fn canon_spells()
    ensures { CanonSpells }
{}

/// What a text spells is valid: numbers are in range, alphabets are kept, and no key occurs twice.
pub fn spelled_is_valid()
    ensures { SpelledIsValid }
{}

/// The canonical text is at most eight fifths as long as any text of its value.
pub fn canon_is_short()
    ensures { CanonIsShort }
{}

/// The canonical text of a valid value is empty exactly if the value is a List or a Dictionary
/// without members, which RFC 9651 section 4.1 says not to send.
pub fn canon_is_empty()
    ensures { CanonIsEmpty }
{}

/// A text that spells a value in the dialect of RFC 8941 spells the same one in that of RFC 9651.
pub fn spells_in_both()
    ensures { SpellsInBoth }
{}

/// The table of RFC 3629 is the UTF-8 of the standard library.
pub fn table_is_utf8()
    ensures { TableIsUtf8 }
{}
