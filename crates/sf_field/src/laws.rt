//! The laws of canonical texts, each as the contract of a function that does nothing.
ghost use Rattle.sf_field.specs.Laws.{CanonSettles, EqualByText, NormalIsOne, TwiceIsOnce};
ghost use Rattle.sf_field.specs.Laws.{BuiltSpells, BuiltIsParsed, BuiltLineIsParsed, SetIsRead};

/// Normalising twice is normalising once. In each dialect, the canonical text of the value that
/// lines spell, as the only line, is accepted as that value and no other.
pub fn normalising_settles()
    ensures canon { CanonSettles }
    ensures twice { TwiceIsOnce }
{}

/// Accepted lines of one kind have equal values if and only if their canonical texts are equal.
pub fn equal_by_text()
    ensures values { EqualByText }
    ensures normal { NormalIsOne }
{}

/// A written value is read back. The canonical text of a valid value spells it and no other.
/// Parsing that text returns the value, unless an allocation fails. So does parsing it as the only
/// line, if it is shorter than 2^64 bytes. Every field is valid, as [`sf_write::to_text`] ensures
/// for its argument.
pub fn built_reads_back()
    ensures spells { BuiltSpells }
    ensures text { BuiltIsParsed }
    ensures line { BuiltLineIsParsed }
{}

/// A field that was set in a header map is read back from it, if its text is not empty and shorter
/// than 2^64 bytes: [`crate::from_headers`] returns the value that was passed to
/// [`crate::set_field`], unless an allocation fails. After a field with an empty text was set, the
/// name is absent.
pub fn set_is_read()
    ensures { SetIsRead }
{}
