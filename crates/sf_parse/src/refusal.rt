//! Why a text is refused.
ghost use Rattle.std.specs.Prelude.{◌≡◌, Some};
ghost use Rattle.sf_parse.specs.RefusalTexts.{found_text, refusal_text};
ghost use Rattle.sf_parse.specs.declared.refusal.Refusal.TheVariants as refusal_is;

use crate::byte_runs::Hex;
use crate::names::Expected;
use sf_value::{OutOfMemory, is_visible};
use std::error::Error;
use std::fmt;

/// Why a text is refused. Places are counted in bytes from 0.
///
/// ```
/// match parse_text(alloc, &seed, Kind::Item, b"1 2") {
///     Ok(field) => ..
///     Err(Refusal::Syntax { place, found, expected, may_end }) => ..
///     // 2, Some(b'2'), the set of a space alone, true
///     Err(refusal) => ..
/// }
/// ```
#[derive(Clone, Copy, Debug, PartialEq, Eq)]
pub enum Refusal {
    /// An allocation failed.
    OutOfMemory,
    /// The text spells no value (RFC 9651 section 4.2).
    Syntax {
        /// The length of the longest prefix that some text of the kind begins with.
        place: u64,
        /// The byte at that place, or None if the text ended.
        found: Option<u8>,
        /// The bytes that could have followed that prefix: bit b is set exactly if byte b could. It
        /// is never 0. [`crate::runs_of`] lists them.
        expected: u128,
        /// Whether that prefix is itself a text of the kind.
        may_end: bool,
    },
    /// The text is longer than the limit, and its first bytes up to the limit are a viable prefix.
    TooLong {
        /// The limit, in bytes.
        max: u64,
    },
    /// A read failed.
    ReadFault {
        /// The number of bytes that the reader had returned before.
        place: u64,
    },
}

/// The byte that was found, printed as `0x32 '2'`, or without the character if it is not printable.
#[derive(Clone, Copy, Drop)]
struct Found {
    byte: u8,
}

impl fmt::Display for Found {
    ghost output = { λ found. Some (found_text found.byte) };

    fn fmt<W: fmt::Write>(&self, f: &mut fmt::Formatter<W>) -> fmt::Result {
        let hex = Hex { byte: self.byte };
        if is_visible(self.byte) {
            let character = char::from(self.byte);
            return write!(f, "0x{hex} '{character}'");
        }
        write!(f, "0x{hex}")
    }
}

/// The error message, such as ``byte 0x32 '2' at place 2, expected a space or the end``. It names
/// each class of bytes that are all expected and not named yet (RFC 9651 sections 3.3.3, 3.3.4,
/// 3.1.2 and 3.3.8, RFC 4648 section 4, letters and digits), and then each byte that remains: a
/// space, a tab, a quote and a backquote have these names; another visible one, such as `-`, is
/// between backquotes; any other is hexadecimal. Places and lengths are decimal. It does not
/// allocate.
impl fmt::Display for Refusal {
    ghost output = { λ refusal. Some (refusal_text refusal) };

    fn fmt<W: fmt::Write>(&self, f: &mut fmt::Formatter<W>) -> fmt::Result {
        match *self {
            Refusal::OutOfMemory => write!(f, "out of memory"),
            Refusal::Syntax {
                place,
                found,
                expected,
                may_end,
            } => {
                let expected = Expected {
                    set: expected,
                    may_end,
                };
                match found {
                    Some(byte) => {
                        let byte = Found { byte };
                        write!(f, "byte {byte} at place {place}, expected {expected}")
                    }
                    None => write!(f, "the text ended at place {place}, expected {expected}"),
                }
            }
            Refusal::TooLong { max } => write!(f, "more than {max} bytes"),
            Refusal::ReadFault { place } => write!(f, "a read failed after {place} bytes"),
        }
    }
}

impl Error for Refusal {}

impl From<OutOfMemory> for Refusal {
    ghost from_gives = { λ _ e. e ≡ refusal_is.OutOfMemory };

    fn from(_fault: OutOfMemory) -> Refusal {
        Refusal::OutOfMemory
    }
}
