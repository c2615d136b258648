//! The law of field lines (RFC 9651 section 4.2, before the steps), as the contract of a function
//! that does nothing.
ghost use Rattle.sf_rfc.specs.JoiningLaws.{LinesCombine};

/// The field lines of a field, combined as RFC 9651 section 4.2 and RFC 9110 section 5.3 say, are
/// the text of the claims on lines: each further line follows a comma and a space. Without lines
/// the text is empty.
pub fn lines_combine()
    ensures { LinesCombine }
{}
