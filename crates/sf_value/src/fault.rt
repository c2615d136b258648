//! Why a value could not be made.
ghost use Rattle.std.specs.Prelude.{◌≡◌, Some, codes};
ghost use Rattle.sf_value.specs.Faults.{text_fault_text};
ghost use Rattle.sf_value.specs.declared.fault.TextFault.TheVariants as fault;

use std::alloc::{AllocError, AllocFailed};
use std::error::Error;
use std::fmt;

/// An allocation failed.
#[derive(Clone, Copy, Debug, PartialEq, Eq)]
pub struct OutOfMemory;

/// A number is outside the range of its type.
#[derive(Clone, Copy, Debug, PartialEq, Eq)]
pub struct OutOfRange;

/// Why no key, token or string was made of bytes. If several causes apply, the first of them here
/// is returned.
///
/// ```
/// match Key::new(alloc, bytes) {
///     Ok(key) => ..
///     Err(TextFault::BadByte { place }) => ..
///     Err(fault) => .. // TextFault::Empty, or no memory was left
/// }
/// ```
#[derive(Clone, Copy, Debug, PartialEq, Eq)]
pub enum TextFault {
    /// There are no bytes, and a key or a token has at least one. A string is never refused for
    /// this.
    Empty,
    /// The byte at this place, from 0, is not allowed there; all earlier ones are.
    BadByte {
        /// The place of the first byte that is not allowed.
        place: usize,
    },
    /// The bytes are valid, but an allocation failed.
    OutOfMemory,
}

impl fmt::Display for OutOfMemory {
    ghost output = { λ _. Some (codes "out of memory") };

    fn fmt<W: fmt::Write>(&self, f: &mut fmt::Formatter<W>) -> fmt::Result {
        write!(f, "out of memory")
    }
}

impl fmt::Display for OutOfRange {
    ghost output = { λ _. Some (codes "a number out of range") };

    fn fmt<W: fmt::Write>(&self, f: &mut fmt::Formatter<W>) -> fmt::Result {
        write!(f, "a number out of range")
    }
}

impl fmt::Display for TextFault {
    ghost output = { λ fault. Some (text_fault_text fault) };

    fn fmt<W: fmt::Write>(&self, f: &mut fmt::Formatter<W>) -> fmt::Result {
        match self {
            TextFault::Empty => write!(f, "no byte"),
            TextFault::BadByte { place } => write!(f, "a bad byte at {place}"),
            TextFault::OutOfMemory => write!(f, "out of memory"),
        }
    }
}

impl Error for OutOfMemory {}

impl Error for OutOfRange {}

impl Error for TextFault {}

impl From<AllocError> for OutOfMemory {
    fn from(_error: AllocError) -> OutOfMemory {
        OutOfMemory
    }
}

impl<T: Drop> From<AllocFailed<T>> for OutOfMemory {
    fn from(_error: AllocFailed<T>) -> OutOfMemory {
        OutOfMemory
    }
}

impl From<OutOfMemory> for TextFault {
    ghost from_gives = { λ _ e. e ≡ fault.OutOfMemory };

    fn from(_error: OutOfMemory) -> TextFault {
        TextFault::OutOfMemory
    }
}
