//! Bytes that are stored in place if they are few, otherwise on the heap.
ghost use Rattle.std.specs.Prelude.{◌≡◌, ℕ, List, [], ◌∷◌, ◌++◌, ◌↔◌, IsTrue, IsOk, IfOk};
ghost use Rattle.std.specs.Prelude.{MatchResult};
ghost use Rattle.sf_value.specs.Grammar.Words.{Every};
ghost use Rattle.sf_value.specs.Grammar.Classes.{is_byte};
ghost use Rattle.sf_value.specs.InPlace.{FitsInPlace};

use crate::fault::OutOfMemory;
use smallvec::SmallVec;
use std::alloc::Global;
use std::marker::Model;

/// The largest number of bytes that are stored in place.
pub(crate) const IN_PLACE: usize = 16;

/// A growing buffer of bytes: up to 16 are stored in the value itself, without an allocation. If
/// there are more, all are on the heap. Keys, strings, tokens, byte sequences and display strings
/// are stored in one. Contracts see the list of the bytes.
///
/// ```
/// let mut bytes = ShortBytes::new(alloc);
/// bytes.extend(b"max-")?;
/// bytes.push(b'a')?;
/// bytes.as_bytes() // b"max-a"
/// ```
#[derive(Debug)]
pub struct ShortBytes {
    bytes: SmallVec<u8, IN_PLACE>,
}

impl Model for ShortBytes {
    ghost use Rattle.std.specs.Prelude.{ℕ, ◌≤◌, List};

    ghost Value = { List ℕ };

    ghost view = { λ b. b.bytes.items };

    ghost invariant = { λ b. 16 ≤ b.bytes.capacity };
}

impl ShortBytes {
    /// No bytes. It does not allocate.
    #[inline]
    pub fn new(alloc: Global) -> ShortBytes
        ensures { result ≡ [] }
    {
        ShortBytes {
            bytes: SmallVec::new(alloc),
        }
    }

    /// One byte. It does not allocate.
    #[inline]
    pub fn one(alloc: Global, byte: u8) -> ShortBytes
        ensures { result ≡ byte ∷ [] }
    {
        let mut bytes = SmallVec::new(alloc);
        bytes.push_reserved(byte);
        ShortBytes { bytes }
    }

    /// These bytes. Up to 16 do not allocate. It fails only if an allocation fails.
    #[inline]
    pub fn from_slice(alloc: Global, bytes: &[u8]) -> Result<ShortBytes, OutOfMemory>
        ensures bytes { IfOk result (λ short. short ≡ bytes.now) }
        // With at most 16 bytes it is never out of memory.
        ensures in_place { FitsInPlace bytes.now → IsOk result }
    {
        Ok(ShortBytes {
            bytes: SmallVec::from_slice(alloc, bytes)?,
        })
    }

    /// Adds a byte at the end. If an allocation fails, the bytes are unchanged. Up to 16 bytes do
    /// not allocate.
    #[inline]
    pub fn push(&mut self, byte: u8) -> Result<(), OutOfMemory>
        ensures bytes { MatchResult result (λ _. self.new ≡ self.old ++ byte ∷ [])
            (λ _. self.new ≡ self.old) }
        // With at most 16 bytes it is never out of memory.
        ensures in_place { FitsInPlace (self.old ++ byte ∷ []) → IsOk result }
    {
        self.bytes.push(byte)?;
        Ok(())
    }

    /// Adds bytes at the end. If an allocation fails, the bytes are unchanged. Up to 16 bytes do
    /// not allocate.
    #[inline]
    pub fn extend(&mut self, run: &[u8]) -> Result<(), OutOfMemory>
        ensures bytes { MatchResult result (λ _. self.new ≡ self.old ++ run.now)
            (λ _. self.new ≡ self.old) }
        // With at most 16 bytes it is never out of memory.
        ensures in_place { FitsInPlace (self.old ++ run.now) → IsOk result }
    {
        self.bytes.extend_from_slice(run)?;
        Ok(())
    }

    /// The bytes. It does not allocate.
    #[inline]
    pub fn as_bytes(&self) -> &[u8]
        ensures bytes { result.now ≡ self.now }
        ensures byte { Every is_byte self.now }
    {
        // Bound to a name, since the checker knows that the items of a named slice are bytes.
        let bytes = self.bytes.as_slice();
        bytes
    }

    /// Whether there are no bytes. It does not allocate.
    #[inline]
    pub fn is_empty(&self) -> bool
        ensures { IsTrue result ↔ (self.now ≡ []) }
    {
        self.bytes.is_empty()
    }
}

// Written out, so that proofs about types that contain such bytes don't unfold them at a drop.
impl Drop for ShortBytes {
    fn drop(self) {
        let ShortBytes { bytes: _ } = self;
    }
}
