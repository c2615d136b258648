//! Laws of the ABNF (RFC 9651 appendix C; RFC 8941 section 3), each as the contract of a function
//! that does nothing.
ghost use Rattle.sf_rfc.specs.AbnfLaws.{CanonKeepsAbnf, SerialisedKeepsAbnf, SpelledKeepsAbnf};
ghost use Rattle.sf_rfc.specs.AbnfLaws.{AbnfIsTrimmed, ParsedIsTrimmed};

/// The canonical text of a valid field keeps to the ABNF; that of a List or a Dictionary with no
/// members, which is not sent, is empty.
pub fn canon_keeps_abnf()
    ensures { CanonKeepsAbnf }
{}

/// A valid field serialises by the RFC's steps (section 4.1), and what they write keeps to the
/// ABNF; or it is not serialised, and is a List or a Dictionary with no members.
pub fn serialised_keeps_abnf()
    ensures { SerialisedKeepsAbnf }
{}

/// Every text that spells a field keeps to the ABNF between white space, for which the ABNF has no
/// rule. If a List or a Dictionary has no members, nothing is between the white space.
pub fn spelled_keeps_abnf()
    ensures { SpelledKeepsAbnf }
{}

/// A text that spells a field keeps to the ABNF exactly if it is not empty and neither begins nor
/// ends with white space.
pub fn abnf_is_trimmed()
    ensures { AbnfIsTrimmed }
{}

/// A text that parses by the RFC's steps (section 4.2) keeps to the ABNF exactly if it is not empty
/// and neither begins nor ends with white space.
pub fn parsed_is_trimmed()
    ensures { ParsedIsTrimmed }
{}
