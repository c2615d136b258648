//! Strings (RFC 9651 section 3.3.3).
ghost use Rattle.std.specs.Prelude.{◌≡◌, ℕ, List, [], ◌↔◌};
ghost use Rattle.std.specs.Prelude.{IsTrue, IsOk, IfOk, IfErr, MatchResult};
ghost use Rattle.sf_value.specs.Grammar.Words.{Every};
ghost use Rattle.sf_value.specs.Grammar.Classes.{is_visible as is_visible_byte};
ghost use Rattle.sf_value.specs.Faults.{IsStringFault, IsOfBytes};
ghost use Rattle.sf_value.specs.InPlace.{FitsInPlace};

use crate::bytes::ShortBytes;
use crate::classes::Visible;
use crate::fault::{OutOfMemory, TextFault};
use crate::word::bad_byte_after_run;
use std::alloc::Global;
use std::marker::Model;

/// A string (RFC 9651 section 3.3.3): any number of bytes from 0x20 to 0x7E, unescaped, without the
/// enclosing quotes. Contracts see the list of its bytes.
///
/// ```
/// let text = Text::new(alloc, b"say \"a\"")?; // the bytes themselves, without escapes
/// Text::new(alloc, b"a\x7f") // Err(TextFault::BadByte { place: 1 })
/// ```
#[derive(Debug, Drop)]
pub struct Text {
    bytes: ShortBytes,
}

impl Model for Text {
    ghost Value = { List ℕ };

    ghost view = { λ t. t.bytes };

    ghost invariant = { λ t. Every is_visible_byte t.bytes };
}

impl Text {
    /// The string of these bytes, which may be none. Fails with `BadByte` at the first byte that is
    /// not allowed in a string, otherwise with `OutOfMemory`, and never with `Empty`. Up to 16
    /// bytes do not allocate.
    #[tactic(auto, using(crate::proofs::Words::every_from_place))]
    pub fn new(alloc: Global, bytes: &[u8]) -> Result<Text, TextFault>
        // It has these bytes; the fault is the first bad one, or no memory for a string.
        ensures exact { MatchResult result (λ text. text ≡ bytes.now) (IsStringFault bytes.now) }
        ensures text { IfOk result (λ text. Every is_visible_byte text) }
        // With at most 16 bytes it is never out of memory.
        ensures in_place { FitsInPlace bytes.now → IfErr result IsOfBytes }
    {
        if let Some(place) = bad_byte_after_run::<Visible>(bytes) {
            return Err(TextFault::BadByte { place });
        }
        Ok(Text {
            bytes: ShortBytes::from_slice(alloc, bytes)?,
        })
    }

    /// The string of these bytes, which must be valid. It does not allocate. It is for parsers,
    /// which test each byte as they read it.
    #[inline]
    pub fn from_bytes(bytes: ShortBytes) -> Text
        requires { Every is_visible_byte bytes }
        ensures { result ≡ bytes }
    {
        Text { bytes }
    }

    /// Another string, equal to this one. It fails only if an allocation fails. Up to 16 bytes do
    /// not allocate.
    pub fn copy(&self, alloc: Global) -> Result<Text, OutOfMemory>
        ensures copied { IfOk result (λ copy. copy ≡ self.now) }
        // With at most 16 bytes it is never out of memory.
        ensures in_place { FitsInPlace self.now → IsOk result }
    {
        Ok(Text {
            bytes: ShortBytes::from_slice(alloc, self.as_bytes())?,
        })
    }

    /// The bytes, unescaped, without the enclosing quotes. It does not allocate.
    pub fn as_bytes(&self) -> &[u8]
        ensures bytes { result.now ≡ self.now }
        ensures text { Every is_visible_byte self.now }
    {
        self.bytes.as_bytes()
    }

    /// Whether there are no bytes. It does not allocate.
    pub fn is_empty(&self) -> bool
        ensures { IsTrue result ↔ (self.now ≡ []) }
    {
        self.bytes.is_empty()
    }
}
