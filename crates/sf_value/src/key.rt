//! Keys of parameters and of dictionary members (RFC 9651 section 3.1.2).
ghost use Rattle.std.specs.Prelude.{◌≡◌, ℕ, List, [], ◌∷◌, true, IsOk, IfOk, IfErr, MatchResult};
ghost use Rattle.sf_value.specs.Grammar.Classes.{is_key_start, is_in_key};
ghost use Rattle.sf_value.specs.Grammar.Tokens.{IsKey};
ghost use Rattle.sf_value.specs.Faults.{IsKeyFault, IsOfBytes};
ghost use Rattle.sf_value.specs.InPlace.{FitsInPlace};

use crate::bytes::ShortBytes;
use crate::classes::{InKey, KeyStart};
use crate::fault::{OutOfMemory, TextFault};
use crate::word::word_bytes;
use std::alloc::Global;
use std::marker::Model;

/// The key of a parameter or of a member of a dictionary (RFC 9651 section 3.1.2): a byte that may
/// start one ([`crate::can_start_key`]), then any number of bytes that may be in one
/// ([`crate::can_be_in_key`]). It has no upper-case letters. Contracts see the list of its bytes.
///
/// ```
/// let key = Key::new(alloc, b"max-age")?;
/// Key::new(alloc, b"Max-age") // Err(TextFault::BadByte { place: 0 })
/// ```
#[derive(Debug, Drop)]
pub struct Key {
    pub(crate) bytes: ShortBytes,
}

impl Model for Key {
    ghost Value = { List ℕ };

    ghost view = { λ k. k.bytes };

    ghost invariant = { λ k. IsKey k.bytes };
}

impl Key {
    /// The key of these bytes. Fails with `Empty` if there are no bytes, otherwise with `BadByte`
    /// at the first byte that is not allowed in its place, otherwise with `OutOfMemory`. Up to 16
    /// bytes do not allocate.
    pub fn new(alloc: Global, bytes: &[u8]) -> Result<Key, TextFault>
        // It has these bytes; the fault is no bytes, the first bad one, or no memory for a key.
        ensures exact { MatchResult result (λ key. key ≡ bytes.now) (IsKeyFault bytes.now) }
        ensures key { IfOk result (λ key. IsKey key) }
        // With at most 16 bytes it is never out of memory.
        ensures in_place { FitsInPlace bytes.now → IfErr result IsOfBytes }
    {
        Ok(Key {
            bytes: word_bytes::<KeyStart, InKey>(alloc, bytes)?,
        })
    }

    /// The key of these bytes, which must be valid. It does not allocate. It is for parsers, which
    /// test each byte as they read it.
    #[inline]
    pub fn from_bytes(bytes: ShortBytes) -> Key
        requires { IsKey bytes }
        ensures { result ≡ bytes }
    {
        Key { bytes }
    }

    /// The key of one byte, one that [`crate::can_start_key`] accepts. It does not allocate, and
    /// never fails.
    pub fn first(alloc: Global, byte: u8) -> Result<Key, OutOfMemory>
        requires { is_key_start byte ≡ true }
        ensures key { IfOk result (λ key. key ≡ byte ∷ []) }
        // With one byte it is never out of memory.
        ensures in_place { IsOk result }
    {
        let mut bytes = ShortBytes::new(alloc);
        bytes.push(byte)?;
        Ok(Key { bytes })
    }

    /// Another key, equal to this one. It fails only if an allocation fails. Up to 16 bytes do not
    /// allocate.
    pub fn copy(&self, alloc: Global) -> Result<Key, OutOfMemory>
        ensures copied { IfOk result (λ copy. copy ≡ self.now) }
        // With at most 16 bytes it is never out of memory.
        ensures in_place { FitsInPlace self.now → IsOk result }
    {
        Ok(Key {
            bytes: ShortBytes::from_slice(alloc, self.as_bytes())?,
        })
    }

    /// The bytes, at least one. It does not allocate.
    pub fn as_bytes(&self) -> &[u8]
        ensures bytes { result.now ≡ self.now }
        ensures key { IsKey self.now }
    {
        self.bytes.as_bytes()
    }
}
