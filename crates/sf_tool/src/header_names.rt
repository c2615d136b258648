//! Header names, in any case (RFC 9110 section 5.1).
ghost use Rattle.std.specs.Prelude.{◌≡◌, true, false, IfOk, MatchOption};
ghost use Rattle.http_header.specs.Token.{lowercase};
ghost use Rattle.sf_tool.specs.Fields.{is_header_name, is_listed as is_listed_in};

use http_header::{HeaderName, HeaderNameError};
use sf_value::OutOfMemory;
use std::alloc::Global;

/// Returns the word in lower case, or that its allocation failed; None if it is not a header name,
/// whatever memory is left. A header name is a token of 1 to 65,535 bytes.
///
/// ```
/// header_name(alloc, b"Age")  // Some(Ok(name)): age
/// header_name(alloc, b"Age ") // None
/// ```
pub fn header_name(alloc: Global, word: &[u8]) -> Option<Result<HeaderName, OutOfMemory>>
    ensures { MatchOption result (is_header_name word.now ≡ false)
        (λ made. (is_header_name word.now ≡ true)
        × IfOk made (λ name. name ≡ lowercase word.now)) }
{
    match HeaderName::from_bytes(alloc, word) {
        Ok(name) => Some(Ok(name)),
        Err(HeaderNameError::Invalid) => None,
        Err(HeaderNameError::OutOfMemory) => Some(Err(OutOfMemory)),
    }
}

/// Returns whether the word is one of the listed names. Does not allocate.
pub(crate) fn is_listed(targets: &[HeaderName], word: &[u8]) -> bool
    ensures { result ≡ is_listed_in targets.now (lowercase word.now) }
{
    for target in targets {
        if target.as_bytes().eq_ignore_ascii_case(word) {
            return true;
        }
    }
    false
}
