//! Byte sequences (RFC 9651 section 3.3.5).
ghost use Rattle.std.specs.Prelude.{◌≡◌, ℕ, List, [], ◌↔◌, IsTrue, IsOk, IfOk};
ghost use Rattle.sf_value.specs.Grammar.Words.{Every};
ghost use Rattle.sf_value.specs.Grammar.Classes.{is_byte};
ghost use Rattle.sf_value.specs.InPlace.{FitsInPlace};

use crate::bytes::ShortBytes;
use crate::fault::OutOfMemory;
use std::alloc::Global;
use std::marker::Model;

/// A byte sequence (RFC 9651 section 3.3.5): any number of any bytes, decoded from base64. Field
/// lines are also passed as `Blob`s. Contracts see the list of its bytes.
///
/// ```
/// let blob = Blob::new(alloc, b"a\xff")?; // written as :Yf8=:
/// ```
#[derive(Debug, Drop)]
pub struct Blob {
    bytes: ShortBytes,
}

impl Model for Blob {
    ghost Value = { List ℕ };

    ghost view = { λ b. b.bytes };
}

impl Blob {
    /// The byte sequence of these bytes, which may be none. It fails only if an allocation fails.
    /// Up to 16 bytes do not allocate.
    pub fn new(alloc: Global, bytes: &[u8]) -> Result<Blob, OutOfMemory>
        ensures blob { IfOk result (λ blob. blob ≡ bytes.now) }
        // With at most 16 bytes it is never out of memory.
        ensures in_place { FitsInPlace bytes.now → IsOk result }
    {
        Ok(Blob {
            bytes: ShortBytes::from_slice(alloc, bytes)?,
        })
    }

    /// The byte sequence of these bytes, which may be none. It does not allocate.
    #[inline]
    pub fn from_bytes(bytes: ShortBytes) -> Blob
        ensures { result ≡ bytes }
    {
        Blob { bytes }
    }

    /// Another byte sequence, equal to this one. It fails only if an allocation fails. Up to 16
    /// bytes do not allocate.
    pub fn copy(&self, alloc: Global) -> Result<Blob, OutOfMemory>
        ensures copied { IfOk result (λ copy. copy ≡ self.now) }
        // With at most 16 bytes it is never out of memory.
        ensures in_place { FitsInPlace self.now → IsOk result }
    {
        Blob::new(alloc, self.as_bytes())
    }

    /// The bytes. It does not allocate.
    pub fn as_bytes(&self) -> &[u8]
        ensures bytes { result.now ≡ self.now }
        ensures byte { Every is_byte self.now }
    {
        self.bytes.as_bytes()
    }

    /// Whether there are no bytes. It does not allocate.
    pub fn is_empty(&self) -> bool
        ensures { IsTrue result ↔ (self.now ≡ []) }
    {
        self.bytes.is_empty()
    }
}
