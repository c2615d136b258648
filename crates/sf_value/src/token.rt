//! Tokens (RFC 9651 section 3.3.4).
ghost use Rattle.std.specs.Prelude.{◌≡◌, ℕ, List, IsOk, IfOk, IfErr, MatchResult};
ghost use Rattle.sf_value.specs.Grammar.Classes.{is_token_start, is_in_token};
ghost use Rattle.sf_value.specs.Grammar.Tokens.{IsToken};
ghost use Rattle.sf_value.specs.Faults.{IsTokenFault, IsOfBytes};
ghost use Rattle.sf_value.specs.InPlace.{FitsInPlace};

use crate::bytes::ShortBytes;
use crate::classes::{InToken, TokenStart};
use crate::fault::{OutOfMemory, TextFault};
use crate::word::word_bytes;
use std::alloc::Global;
use std::marker::Model;

/// A token (RFC 9651 section 3.3.4): a byte that may start one ([`crate::can_start_token`]), then
/// any number of bytes that may be in one ([`crate::can_be_in_token`]). Contracts see the list of
/// its bytes.
///
/// ```
/// let token = Token::new(alloc, b"text/html")?;
/// Token::new(alloc, b"a b") // Err(TextFault::BadByte { place: 1 })
/// ```
#[derive(Debug, Drop)]
pub struct Token {
    pub(crate) bytes: ShortBytes,
}

impl Model for Token {
    ghost Value = { List ℕ };

    ghost view = { λ t. t.bytes };

    ghost invariant = { λ t. IsToken t.bytes };
}

impl Token {
    /// The token of these bytes. Fails with `Empty` if there are no bytes, otherwise with `BadByte`
    /// at the first byte that is not allowed in its place, otherwise with `OutOfMemory`. Up to 16
    /// bytes do not allocate.
    pub fn new(alloc: Global, bytes: &[u8]) -> Result<Token, TextFault>
        // It has these bytes; the fault is no bytes, the first bad one, or no memory for a token.
        ensures exact { MatchResult result (λ token. token ≡ bytes.now) (IsTokenFault bytes.now) }
        ensures token { IfOk result (λ token. IsToken token) }
        // With at most 16 bytes it is never out of memory.
        ensures in_place { FitsInPlace bytes.now → IfErr result IsOfBytes }
    {
        Ok(Token {
            bytes: word_bytes::<TokenStart, InToken>(alloc, bytes)?,
        })
    }

    /// The token of these bytes, which must be valid. It does not allocate. It is for parsers,
    /// which test each byte as they read it.
    #[inline]
    pub fn from_bytes(bytes: ShortBytes) -> Token
        requires { IsToken bytes }
        ensures { result ≡ bytes }
    {
        Token { bytes }
    }

    /// Another token, equal to this one. It fails only if an allocation fails. Up to 16 bytes do
    /// not allocate.
    pub fn copy(&self, alloc: Global) -> Result<Token, OutOfMemory>
        ensures copied { IfOk result (λ copy. copy ≡ self.now) }
        // With at most 16 bytes it is never out of memory.
        ensures in_place { FitsInPlace self.now → IsOk result }
    {
        Ok(Token {
            bytes: ShortBytes::from_slice(alloc, self.as_bytes())?,
        })
    }

    /// The bytes, at least one. It does not allocate.
    pub fn as_bytes(&self) -> &[u8]
        ensures bytes { result.now ≡ self.now }
        ensures token { IsToken self.now }
    {
        self.bytes.as_bytes()
    }
}
