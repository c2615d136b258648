//! What keys and tokens have in common: a first byte of one class, then bytes of another.
ghost use Rattle.std.specs.Prelude.{◌≡◌, IfOk, IfErr, MatchResult};
ghost use Rattle.sf_value.specs.Grammar.Words.{IsWord};
ghost use Rattle.sf_value.specs.Faults.{bad_place, bad_word_place, IsWordFault, IsOfBytes};
ghost use Rattle.sf_value.specs.InPlace.{FitsInPlace};

use crate::bytes::ShortBytes;
use crate::classes::{ByteClass, LaneClass, long_prefix};
use crate::fault::TextFault;
use std::alloc::Global;

/// The bytes of a word, which has a first byte of the class `S` and then bytes of `C`. Fails with
/// `Empty` if there are no bytes, otherwise with `BadByte` at the first byte that is not allowed in
/// its place, otherwise with `OutOfMemory`.
#[tactic(auto, using(crate::proofs::Words::word_from_place))]
pub(crate) fn word_bytes<S: ByteClass, C: ByteClass>(
    alloc: Global,
    bytes: &[u8],
) -> Result<ShortBytes, TextFault>
    // It has these bytes; the fault is no bytes, the first bad one, or no memory for a word.
    ensures exact { MatchResult result (λ word. word ≡ bytes.now)
        (IsWordFault S.test C.test bytes.now) }
    ensures word { IfOk result (λ word. IsWord S.test C.test word) }
    // With at most 16 bytes it is never out of memory.
    ensures in_place { FitsInPlace bytes.now → IfErr result IsOfBytes }
{
    if bytes.is_empty() {
        return Err(TextFault::Empty);
    }
    if let Some(place) = bad_byte_of_word::<S, C>(bytes) {
        return Err(TextFault::BadByte { place });
    }
    Ok(ShortBytes::from_slice(alloc, bytes)?)
}

/// The place of the first byte that is not of the class.
pub(crate) fn bad_byte<C: ByteClass>(bytes: &[u8]) -> Option<usize>
    ensures { result ≡ bad_place C.test bytes.now }
{
    bytes.iter().position(|b| !C::has(*b))
}

/// As [`bad_byte`], but many bytes at a time, for bytes that are mostly of the class.
#[tactic(auto, using(crate::proofs::Words::bad_after_run))]
pub(crate) fn bad_byte_after_run<C: LaneClass>(bytes: &[u8]) -> Option<usize>
    ensures { result ≡ bad_place C.test bytes.now }
{
    let (run, rest) = long_prefix::<C>(bytes);
    let place = bad_byte::<C>(rest)?;
    Some(run.len() + place)
}

/// The place of the first byte that is not allowed at its place in a word; `None` also if there are
/// no bytes.
fn bad_byte_of_word<S: ByteClass, C: ByteClass>(bytes: &[u8]) -> Option<usize>
    ensures { result ≡ bad_word_place S.test C.test bytes.now }
{
    let (first, rest) = bytes.split_first()?;
    if !S::has(*first) {
        return Some(0);
    }
    let place = bad_byte::<C>(rest)?;
    Some(place + 1)
}
