//! Display strings (RFC 9651 section 3.3.8).
ghost use Rattle.std.specs.Prelude.{◌≡◌, ℕ, List, [], ◌↔◌, IsTrue, IsOk, IfOk};
ghost use Rattle.std.specs.Str.{IsUtf8};
ghost use Rattle.sf_value.specs.Grammar.Words.{Every};
ghost use Rattle.sf_value.specs.Grammar.Classes.{is_byte};
ghost use Rattle.sf_value.specs.Grammar.Utf8.{WellFormed, Start};
ghost use Rattle.sf_value.specs.InPlace.{FitsInPlace};

use crate::bytes::ShortBytes;
use crate::fault::OutOfMemory;
use std::alloc::Global;
use std::marker::Model;

/// A display string (RFC 9651 section 3.3.8): any Unicode text, unescaped. Contracts see the list
/// of its UTF-8 bytes.
///
/// ```
/// let shown = Shown::new(alloc, "f\u{fc}r")?; // written as %"f%c3%bcr"
/// ```
#[derive(Debug, Drop)]
pub struct Shown {
    bytes: ShortBytes,
}

impl Model for Shown {
    ghost Value = { List ℕ };

    ghost view = { λ s. s.bytes };

    ghost invariant = { λ s. WellFormed Start s.bytes };
}

impl Shown {
    /// The display string of this text, which may be empty. It fails only if an allocation fails.
    /// Up to 16 bytes of UTF-8 do not allocate.
    #[tactic(auto, using(crate::proofs::Utf8Table::from_utf8))]
    pub fn new(alloc: Global, text: &str) -> Result<Shown, OutOfMemory>
        ensures shown { IfOk result (λ shown. shown ≡ text.now) }
        // With at most 16 bytes it is never out of memory.
        ensures in_place { FitsInPlace text.now → IsOk result }
    {
        Ok(Shown {
            bytes: ShortBytes::from_slice(alloc, text.as_bytes())?,
        })
    }

    /// The display string of these UTF-8 bytes. It does not allocate.
    #[inline]
    pub fn from_bytes(bytes: ShortBytes) -> Shown
        requires { WellFormed Start bytes }
        ensures { result ≡ bytes }
    {
        Shown { bytes }
    }

    /// Another display string, equal to this one. It fails only if an allocation fails. Up to 16
    /// bytes do not allocate.
    pub fn copy(&self, alloc: Global) -> Result<Shown, OutOfMemory>
        ensures copied { IfOk result (λ copy. copy ≡ self.now) }
        // With at most 16 bytes it is never out of memory.
        ensures in_place { FitsInPlace self.now → IsOk result }
    {
        Ok(Shown {
            bytes: ShortBytes::from_slice(alloc, self.as_bytes())?,
        })
    }

    /// The UTF-8 bytes of the text. It does not allocate.
    #[tactic(auto, using(crate::proofs::Utf8Table::to_utf8))]
    pub fn as_bytes(&self) -> &[u8]
        ensures bytes { result.now ≡ self.now }
        ensures utf8 { IsUtf8 self.now }
        ensures well_formed { WellFormed Start self.now }
        ensures byte { Every is_byte self.now }
    {
        self.bytes.as_bytes()
    }

    /// The text. It does not allocate.
    pub fn as_str(&self) -> &str
        ensures { result.now ≡ self.now }
    {
        // What is well-formed by the table of RFC 3629 is UTF-8: this is proved, not tested.
        unsafe { str::from_utf8_unchecked(self.as_bytes()) }
    }

    /// Whether the text is empty. It does not allocate.
    pub fn is_empty(&self) -> bool
        ensures { IsTrue result ↔ (self.now ≡ []) }
    {
        self.bytes.is_empty()
    }
}
