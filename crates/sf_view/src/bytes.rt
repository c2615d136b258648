//! The bytes of Strings, Byte Sequences and Display Strings, read from their text.
ghost use Rattle.std.specs.Iterator.{at_most};
ghost use Rattle.std.specs.Prelude.{◌≡◌, ◌+◌, ◌++◌, ◌∷◌, [], ◌≤◌, ◌<◌, ◌/◌, ◌%◌, ℕ, List, length, take, IfSome, IfNone, true, false};
ghost use Rattle.sf_value.specs.declared.dialect.Dialect.{Dialect as Which};
ghost use Rattle.sf_view.specs.declared.bytes.Coding.TheVariants as coding_is;
ghost use Rattle.sf_value.specs.Grammar.ByteSequences.{letter};
ghost use Rattle.sf_value.specs.Grammar.DisplayStrings.{hex};
ghost use Rattle.sf_view.specs.Decoding.{HasBytes, Remains, TakesByte, TakesRun, GivesByte};
ghost use Rattle.sf_view.specs.Decoding.{NoLetter};

use crate::view::Slice;
use sf_value::classes::{UnencodedByte, Unescaped, long_prefix};
use sf_value::{sextet, unhex};

/// How the rest of a text spells bytes.
#[derive(Clone, Copy, Debug, Drop)]
pub(crate) enum Coding {
    /// As they are.
    Verbatim,
    /// As those of a String, up to its closing quote.
    Escaped,
    /// As those of a Display String, up to its closing quote.
    Percent,
    /// In base64, at the first byte of a group.
    First,
    /// In base64, at the second byte of a group, whose high bits these are.
    Second(u8),
    /// In base64, at the third byte of a group, whose high bits these are.
    Third(u8),
}

/// The bytes of a String, a Byte Sequence or a Display String, decoded one at a time. It does not
/// allocate.
#[derive(Clone, Copy, Debug, Drop)]
pub struct Bytes<'a> {
    pub(crate) coding: Coding,
    pub(crate) rest: &'a [u8],
}

impl<'a> Slice<'a> {
    /// The bytes, decoded one at a time. It does not allocate.
    pub fn bytes(&self) -> Bytes<'a>
        ensures { (d : Which) (t : List ℕ) → HasBytes d self.now t
            → Remains result.coding result.rest.now t }
    {
        if !self.coded {
            return Bytes {
                coding: Coding::Verbatim,
                rest: self.bytes,
            };
        }
        let Some((first, inside)) = first_of(self.bytes) else {
            return Bytes {
                coding: Coding::Verbatim,
                rest: self.bytes,
            };
        };
        match first {
            b'"' => return Bytes {
                coding: Coding::Escaped,
                rest: inside,
            },
            b':' => return Bytes {
                coding: Coding::First,
                rest: inside,
            },
            _ => return shown_bytes(inside),
        }
    }

    /// The bytes: those of the text itself if they are not coded, otherwise decoded into the
    /// buffer, whose other bytes are unchanged. `None` if the buffer is too short; one as long as
    /// the slice's text never is. It does not allocate.
    pub fn decode(&self, buffer: &'a mut [u8]) -> Option<&'a [u8]>
        // Whatever bytes the slice has, these are the result.
        ensures decoded { (d : Which) (t : List ℕ) → HasBytes d self.now t
            → IfSome result (λ b. b.now ≡ t) }
        // The buffer is too short only if it is shorter than these bytes.
        ensures short { (d : Which) (t : List ℕ) → HasBytes d self.now t
            → IfNone result (length buffer.old < length t) }
    {
        if !self.coded {
            return Some(self.bytes);
        }
        let Some(count) = self.decode_to(buffer) else {
            return None;
        };
        let (prefix, _) = buffer.split_at(count);
        Some(prefix)
    }

    /// Writes the bytes, decoded if they are coded, to the beginning of the buffer, and returns
    /// their number; `None` if the buffer is too short, which is then filled with the first ones.
    /// It does not allocate.
    pub fn decode_to(&self, buffer: &mut [u8]) -> Option<usize>
        ensures same { length buffer.new ≡ length buffer.old }
        ensures within { IfSome result (λ n. n ≤ length buffer.new) }
        // Whatever bytes the slice has, the buffer begins with them.
        ensures decoded { (d : Which) (t : List ℕ) → HasBytes d self.now t
            → IfSome result (λ n. take n buffer.new ≡ t) }
        // The buffer is too short only if it is shorter than these bytes.
        ensures short { (d : Which) (t : List ℕ) → HasBytes d self.now t
            → IfNone result (length buffer.old < length t) }
    {
        let bytes = self.bytes();
        let Some(count) = fill(bytes.coding, bytes.rest, buffer) else {
            return None;
        };
        Some(count)
    }

    /// The number of the bytes, decoded if they are coded. It does not allocate.
    #[inline]
    pub fn decoded_len(&self) -> usize
        // Whatever bytes the slice has, it has so many.
        ensures { (d : Which) (t : List ℕ) → HasBytes d self.now t → result ≡ length t }
    {
        if !self.coded {
            return self.bytes.len();
        }
        let start = self.bytes();
        count_bytes(start.coding, start.rest)
    }
}

impl Iterator for Bytes<'_> {
    type Item = u8;

    ghost next_gives = { λ old byte new.
        GivesByte old.coding old.rest.now byte new.coding new.rest.now };

    ghost remaining = { λ bytes. at_most (length bytes.rest.now) };

    fn next(&mut self) -> Option<u8> {
        let Some((byte, coding, rest)) = take_byte(self.coding, self.rest) else {
            return None;
        };
        self.coding = coding;
        self.rest = rest;
        Some(byte)
    }
}

/// The bytes of a Display String, whose text after the percent sign this is.
#[inline]
fn shown_bytes(text: &[u8]) -> Bytes
    ensures coding { result.coding ≡ coding_is.Percent }
    ensures rest { (c : ℕ) (rest : List ℕ) → text.now ≡ c ∷ rest → result.rest.now ≡ rest }
{
    match text {
        [_, rest @ ..] => return Bytes {
            coding: Coding::Percent,
            rest,
        },
        [] => return Bytes {
            coding: Coding::Percent,
            rest: text,
        },
    }
}

/// Decodes bytes into the buffer, and returns their number; `None` if the buffer is too short.
pub(crate) fn fill(start: Coding, text: &[u8], buffer: &mut [u8]) -> Option<usize>
    ensures same { length buffer.new ≡ length buffer.old }
    ensures within { IfSome result (λ n. n ≤ length buffer.new) }
    ensures decoded { (t : List ℕ) → Remains start text.now t
        → IfSome result (λ n. take n buffer.new ≡ t) }
    ensures short { (t : List ℕ) → Remains start text.now t
        → IfNone result (length buffer.old < length t) }
{
    let mut coding = start;
    let mut rest = text;
    let mut count = 0;
    loop {
        let Some((byte, next, later)) = take_byte(coding, rest) else {
            return Some(count);
        };
        if count >= buffer.len() {
            return None;
        }
        buffer[count] = byte;
        count += 1;
        coding = next;
        rest = later;
    }
}

/// The number of the bytes that a text spells. It is not inlined, since few texts are coded.
#[inline(never)]
fn count_bytes(start: Coding, text: &[u8]) -> usize
    ensures { (t : List ℕ) → Remains start text.now t → result ≡ length t }
{
    let mut coding = start;
    let mut rest = text;
    let mut count = 0;
    loop {
        let (run, after) = take_run(coding, rest);
        count += run.len();
        let Some((_, next, later)) = take_byte(coding, after) else {
            return count;
        };
        count += 1;
        coding = next;
        rest = later;
    }
}

/// What was decoded into a buffer: how many bytes, and how the rest of the text spells those after
/// them, of which there are none if they are whole.
#[derive(Clone, Copy, Drop)]
pub(crate) struct Filled<'a> {
    pub count: usize,
    pub coding: Coding,
    pub rest: &'a [u8],
    pub whole: bool,
}

/// Decodes as many bytes as fit in the buffer.
#[inline]
pub(crate) fn fill_part<'a>(start: Coding, text: &'a [u8], buffer: &mut [u8]) -> Filled<'a>
    requires some { 1 ≤ length buffer.old }
    ensures same { length buffer.new ≡ length buffer.old }
    ensures within { result.count ≤ length buffer.new }
    ensures shorter { result.whole ≡ false → length result.rest.now < length text.now }
    ensures decoded { (t : List ℕ) → Remains start text.now t
        → TakesRun (take result.count buffer.new) (Remains result.coding result.rest.now) t }
    ensures whole { result.whole ≡ true → (t : List ℕ) → Remains start text.now t
        → t ≡ take result.count buffer.new }
{
    let mut coding = start;
    let mut rest = text;
    let mut count = 0;
    while count < buffer.len() {
        let Some((byte, next, later)) = take_byte(coding, rest) else {
            return Filled {
                count,
                coding,
                rest,
                whole: true,
            };
        };
        buffer[count] = byte;
        count += 1;
        coding = next;
        rest = later;
    }
    Filled {
        count,
        coding,
        rest,
        whole: false,
    }
}

/// The unescaped bytes that the text of a String or a Display String begins with, and the rest; of
/// other texts it takes none, so that [`take_byte`] takes each byte.
#[inline]
#[tactic(auto, using(crate::proofs::Decoding::plain_run, crate::proofs::Decoding::unencoded_run))]
pub(crate) fn take_run(coding: Coding, rest: &[u8]) -> (&[u8], &[u8])
    ensures takes { (s : List ℕ) → Remains coding rest.now s
        → TakesRun result.0.now (Remains coding result.1.now) s }
    ensures within { length result.1.now ≤ length rest.now }
    ensures whole { length result.0.now + length result.1.now ≡ length rest.now }
{
    match coding {
        Coding::Escaped => return long_prefix::<Unescaped>(rest),
        Coding::Percent => return long_prefix::<UnencodedByte>(rest),
        Coding::Verbatim => return rest.split_at(0),
        Coding::First | Coding::Second(_) | Coding::Third(_) => return rest.split_at(0),
    }
}

/// The first byte, and the coding and the text of the bytes after it.
#[inline]
pub(crate) fn take_byte(coding: Coding, rest: &[u8]) -> Option<(u8, Coding, &[u8])>
    ensures some { (s : List ℕ) → Remains coding rest.now s
        → IfSome result (λ r. TakesByte r.0 (Remains r.1 r.2.now) s) }
    ensures none { (s : List ℕ) → Remains coding rest.now s → IfNone result (s ≡ []) }
    ensures shorter { IfSome result (λ r. length r.2.now < length rest.now) }
{
    match coding {
        Coding::Verbatim => {
            let Some((byte, later)) = first_of(rest) else {
                return None;
            };
            return Some((byte, Coding::Verbatim, later));
        }
        Coding::Escaped => {
            let Some((byte, later)) = unescaped(rest) else {
                return None;
            };
            return Some((byte, Coding::Escaped, later));
        }
        Coding::Percent => {
            let Some((byte, later)) = unencoded(rest) else {
                return None;
            };
            return Some((byte, Coding::Percent, later));
        }
        Coding::First => {
            let Some((byte, low, later)) = first_byte(rest) else {
                return None;
            };
            return Some((byte, Coding::Second(low), later));
        }
        Coding::Second(low) => {
            let Some((byte, more, later)) = second_byte(low, rest) else {
                return None;
            };
            return Some((byte, Coding::Third(more), later));
        }
        Coding::Third(low) => {
            let Some((byte, later)) = third_byte(low, rest) else {
                return None;
            };
            return Some((byte, Coding::First, later));
        }
    }
}

/// The first byte of a text, and the rest.
#[inline]
pub(crate) fn first_of(text: &[u8]) -> Option<(u8, &[u8])>
    ensures some { IfSome result (λ r. text.now ≡ r.0 ∷ r.1.now) }
    ensures none { IfNone result (text.now ≡ []) }
{
    match text {
        [first, rest @ ..] => Some((*first, rest)),
        [] => None,
    }
}

/// The first byte of a String; `None` at its closing quote.
#[inline]
fn unescaped(text: &[u8]) -> Option<(u8, &[u8])>
    ensures some { (s : List ℕ) → Remains coding_is.Escaped text.now s
        → IfSome result (λ r. TakesByte r.0 (Remains coding_is.Escaped r.1.now) s) }
    ensures none { (s : List ℕ) → Remains coding_is.Escaped text.now s → IfNone result (s ≡ []) }
    ensures shorter { IfSome result (λ r. length r.1.now < length text.now) }
{
    let Some((first, rest)) = first_of(text) else {
        return None;
    };
    if first == b'"' {
        return None;
    }
    if first != b'\\' {
        return Some((first, rest));
    }
    let Some((byte, later)) = first_of(rest) else {
        return None;
    };
    Some((byte, later))
}

/// The first byte of a Display String; `None` at its closing quote.
#[inline]
pub(crate) fn unencoded(text: &[u8]) -> Option<(u8, &[u8])>
    ensures some { (s : List ℕ) → Remains coding_is.Percent text.now s
        → IfSome result (λ r. TakesByte r.0 (Remains coding_is.Percent r.1.now) s) }
    ensures none { (s : List ℕ) → Remains coding_is.Percent text.now s → IfNone result (s ≡ []) }
    ensures shorter { IfSome result (λ r. length r.1.now < length text.now) }
{
    let Some((first, rest)) = first_of(text) else {
        return None;
    };
    if first == b'"' {
        return None;
    }
    if first != b'%' {
        return Some((first, rest));
    }
    let Some((byte, later)) = hex_byte(rest) else {
        return None;
    };
    Some((byte, later))
}

/// The byte of two hexadecimal digits.
#[inline]
fn hex_byte(text: &[u8]) -> Option<(u8, &[u8])>
    ensures some { (c : ℕ) (rest : List ℕ) → c < 256 → text.now ≡ hex (c / 16) ∷ hex (c % 16) ∷ rest
        → IfSome result (λ r. (r.0 ≡ c) × (r.1.now ≡ rest)) }
    ensures none { (c : ℕ) (rest : List ℕ) → c < 256 → text.now ≡ hex (c / 16) ∷ hex (c % 16) ∷ rest
        → IfNone result ⊥ }
    ensures shorter { IfSome result (λ r. length r.1.now < length text.now) }
{
    match text {
        [high, low, rest @ ..] => {
            let (Some(a), Some(b)) = (unhex(*high), unhex(*low)) else {
                return None;
            };
            return Some((a * 16 + b, rest));
        }
        _ => return None,
    }
}

/// The value of the character of base64 that a text begins with, and the rest.
#[inline]
fn character(text: &[u8]) -> Option<(u8, &[u8])>
    ensures some { IfSome result (λ r. (r.0 < 64) × (text.now ≡ letter r.0 ∷ r.1.now)) }
    ensures none { IfNone result (NoLetter text.now) }
{
    let Some((first, rest)) = first_of(text) else {
        return None;
    };
    let Some(value) = sextet(first) else {
        return None;
    };
    Some((value, rest))
}

/// The first byte of a group of base64, and the high bits of the next, from its second character.
#[inline]
fn first_byte(text: &[u8]) -> Option<(u8, u8, &[u8])>
    ensures some { (s : List ℕ) → Remains coding_is.First text.now s
        → IfSome result (λ r. TakesByte r.0 (Remains (coding_is.Second r.1) r.2.now) s) }
    ensures none { (s : List ℕ) → Remains coding_is.First text.now s → IfNone result (s ≡ []) }
    ensures shorter { IfSome result (λ r. length r.2.now < length text.now) }
{
    let Some((first, more)) = character(text) else {
        return None;
    };
    let Some((second, rest)) = character(more) else {
        return None;
    };
    Some((first * 4 + second / 16, second % 16, rest))
}

/// The second byte of a group, with these high bits, and the high bits of the next.
#[inline]
fn second_byte(high: u8, text: &[u8]) -> Option<(u8, u8, &[u8])>
    ensures some { (s : List ℕ) → Remains (coding_is.Second high) text.now s
        → IfSome result (λ r. TakesByte r.0 (Remains (coding_is.Third r.1) r.2.now) s) }
    ensures none { (s : List ℕ) → Remains (coding_is.Second high) text.now s
        → IfNone result (s ≡ []) }
    ensures shorter { IfSome result (λ r. length r.2.now < length text.now) }
{
    let Some((value, rest)) = character(text) else {
        return None;
    };
    Some((high % 16 * 16 + value / 4, value % 4, rest))
}

/// The third byte of a group, with these high bits.
#[inline]
fn third_byte(high: u8, text: &[u8]) -> Option<(u8, &[u8])>
    ensures some { (s : List ℕ) → Remains (coding_is.Third high) text.now s
        → IfSome result (λ r. TakesByte r.0 (Remains coding_is.First r.1.now) s) }
    ensures none { (s : List ℕ) → Remains (coding_is.Third high) text.now s
        → IfNone result (s ≡ []) }
    ensures shorter { IfSome result (λ r. length r.1.now < length text.now) }
{
    let Some((value, rest)) = character(text) else {
        return None;
    };
    Some((high % 4 * 64 + value, rest))
}
