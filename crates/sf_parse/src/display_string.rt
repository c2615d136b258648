//! A Display String that is being read (RFC 9651 section 4.2.10).
ghost use Rattle.std.specs.Prelude.{◌≡◌, ℕ, ◌<◌, ◌≤◌, List, [], ◌∷◌, ◌++◌, Some, IfOk, IfSome};
ghost use Rattle.std.specs.Prelude.{take, length, MatchOption};
ghost use Rattle.sf_scan.specs.DisplayStrings.{shown_bytes, digit_or_zero};
ghost use Rattle.sf_value.specs.Digits.{unhex as unhex_of};
ghost use Rattle.sf_value.specs.Ascii.{percent as percent_sign};
ghost use Rattle.sf_value.specs.Grammar.Utf8.{Utf8, utf8_step};
ghost use Rattle.sf_parse.specs.Prefixes.{Goes};
ghost use Rattle.sf_scan.specs.Characters.{utf8_of};
ghost use Rattle.sf_parse.specs.BarePlaces.{shown_place};
ghost use Rattle.sf_parse.specs.Views.{shown_of, Leads, FitsShown};
ghost use Rattle.sf_parse.specs.Machine.Language.{Steps, run};
ghost use Rattle.sf_parse.specs.Machine.Showns.{Unencoded, push_byte};
ghost use Rattle.sf_parse.specs.Machine.Showns.{shown_step};

use crate::context::Context;
use sf_scan::char_place::CharPlace;
use sf_scan::place::BarePlace;
use sf_scan::shown_place::ShownPlace as Place;
use sf_value::classes::{NoPercent, UnencodedByte, long_prefix, split};
use sf_value::{OutOfMemory, ShortBytes, is_visible, unhex};

/// The part of a Display String that is being read.
#[derive(Clone, Copy)]
pub enum ShownPhase {
    /// After the `%` before the opening quote.
    Quote,
    /// Between the quotes.
    Unencoded,
    /// After a `%`.
    Percent,
    /// After the first digit of an escape, of this value.
    Hex(u8),
    /// After the closing quote.
    Done,
}

/// The part of a Display String that is being read, and of the character that is open.
#[derive(Clone, Copy)]
pub struct ShownPlace {
    pub phase: ShownPhase,
    pub chars: CharPlace,
}

impl ShownPlace {
    /// After the first `%`.
    pub const OPEN: ShownPlace = ShownPlace {
        phase: ShownPhase::Quote,
        chars: CharPlace::Start,
    };

    /// Takes one more byte of the characters, unescaped or decoded from an escape, or reports that
    /// it can't come next in UTF-8.
    #[tactic(auto, using(crate::proofs::Leading::leads_push, sf_scan::proofs::Characters::steps))]
    fn push(&mut self, bytes: &mut ShortBytes, byte: u8) -> Result<bool, OutOfMemory>
        // The bytes so far lead to the state in a character, and fit the phase.
        requires { FitsShown self.old.phase bytes.old self.old.chars }
        // The byte leads to the next state, or it can't and the state is unchanged.
        ensures step { IfOk result (λ took. Steps took
            (push_byte (shown_of self.old.phase bytes.old self.old.chars) byte)
            (shown_of self.old.phase bytes.old self.old.chars)
            (shown_of self.new.phase bytes.new self.new.chars)) }
        // The same holds afterwards.
        ensures fits { FitsShown self.new.phase bytes.new self.new.chars }
    {
        if matches!(self.phase, ShownPhase::Quote | ShownPhase::Done) {
            return Ok(false);
        }
        let Some(chars) = self.chars.after(byte) else {
            return Ok(false);
        };
        bytes.push(byte)?;
        self.chars = chars;
        self.phase = ShownPhase::Unencoded;
        Ok(true)
    }

    /// Takes one more byte, or reports that the display string can't continue with it and is
    /// unchanged. Its bytes so far are `bytes`.
    #[inline(always)]
    pub fn step(&mut self, bytes: &mut ShortBytes, byte: u8) -> Result<bool, OutOfMemory>
        // The bytes so far lead to the state in a character, and fit the phase.
        requires { FitsShown self.old.phase bytes.old self.old.chars }
        // The byte leads to the next state, or it can't and the state is unchanged.
        ensures step { IfOk result (λ took. Steps took
            (shown_step (shown_of self.old.phase bytes.old self.old.chars) byte)
            (shown_of self.old.phase bytes.old self.old.chars)
            (shown_of self.new.phase bytes.new self.new.chars)) }
        // The same holds afterwards.
        ensures fits { FitsShown self.new.phase bytes.new self.new.chars }
    {
        match self.phase {
            ShownPhase::Quote => {
                if byte != b'"' {
                    return Ok(false);
                }
                self.phase = ShownPhase::Unencoded;
                Ok(true)
            }
            ShownPhase::Unencoded => {
                if byte == b'"' {
                    if !matches!(self.chars, CharPlace::Start) {
                        return Ok(false);
                    }
                    self.phase = ShownPhase::Done;
                    return Ok(true);
                }
                if byte == b'%' {
                    self.phase = ShownPhase::Percent;
                    return Ok(true);
                }
                if !is_visible(byte) {
                    return Ok(false);
                }
                self.push(bytes, byte)
            }
            ShownPhase::Percent => {
                let Some(high) = unhex(byte) else {
                    return Ok(false);
                };
                if !self.chars.can_begin(high) {
                    return Ok(false);
                }
                self.phase = ShownPhase::Hex(high);
                Ok(true)
            }
            ShownPhase::Hex(high) => {
                let Some(low) = unhex(byte) else {
                    return Ok(false);
                };
                self.push(bytes, high * 16 + low)
            }
            ShownPhase::Done => Ok(false),
        }
    }

    /// Takes unescaped bytes and whole escapes, letting the buffer grow once for many, and returns
    /// the rest.
    pub fn take_run<'a>(
        &mut self,
        bytes: &mut ShortBytes,
        chunk: &'a [u8],
    ) -> Result<&'a [u8], OutOfMemory>
        // The bytes so far lead to the state in a character, and fit the phase.
        requires { FitsShown self.old.phase bytes.old self.old.chars }
        // The bytes before the rest lead the machine from the old state to the new one.
        ensures goes { IfOk result (λ rest. Goes shown_step
            (shown_of self.old.phase bytes.old self.old.chars) chunk.now rest.now
            (shown_of self.new.phase bytes.new self.new.chars)) }
        // The same holds afterwards.
        ensures fits { FitsShown self.new.phase bytes.new self.new.chars }
    {
        match self.phase {
            ShownPhase::Unencoded => return take_chars(&mut self.chars, bytes, chunk),
            _ => return Ok(chunk),
        }
    }

    /// The place in the grammar after what was read.
    pub fn place(self) -> BarePlace
        ensures { result ≡ shown_place self.phase self.chars }
    {
        let place = match self.phase {
            ShownPhase::Quote => Place::Quote,
            ShownPhase::Unencoded => Place::Between(self.chars),
            ShownPhase::Percent => Place::Percent(self.chars),
            ShownPhase::Hex(high) => Place::Digit(self.chars.low_digits(high)),
            ShownPhase::Done => return BarePlace::Complete,
        };
        BarePlace::Shown(place)
    }
}

/// The number of escapes that are read at a time.
const BLOCK: usize = 64;

/// The byte of an escape with these digits.
#[inline]
fn escaped(high: u8, low: u8) -> Option<u8>
    // If this byte may come in a character, the escape leads to a state with one more byte, this
    // one.
    ensures { IfSome result (λ c. (bs : List ℕ) (x y : Utf8) → utf8_step x c ≡ Some y
        → run shown_step (Unencoded bs x) (percent_sign ∷ high ∷ low ∷ [])
        ≡ Some (Unencoded (bs ++ c ∷ []) y)) }
{
    let high = unhex(high)?;
    let low = unhex(low)?;
    Some(high * 16 + low)
}

/// Decodes whole escapes into the block until it is full. Returns their number, the state in a
/// character after them, and the rest.
fn read_escapes<'a>(
    from: CharPlace,
    chunk: &'a [u8],
    block: &mut [u8; BLOCK],
) -> (usize, CharPlace, &'a [u8])
    ensures within { result.0 ≤ 64 }
    // The escapes before the rest lead to a state that also has the bytes of the block.
    ensures goes { (bs : List ℕ)
        → Goes shown_step (Unencoded bs (utf8_of from)) chunk.now result.2.now
        (Unencoded (bs ++ take result.0 block.new) (utf8_of result.1)) }
    // If the bytes so far lead to the first state in a character, they and the block lead to the
    // last.
    ensures leads { (bs : List ℕ) → Leads bs (utf8_of from)
        → Leads (bs ++ take result.0 block.new) (utf8_of result.1) }
{
    let mut count = 0;
    let mut chars = from;
    let mut rest = chunk;
    while let [percent, high, low, more @ ..] = rest {
        if *percent != b'%' {
            return (count, chars, rest);
        }
        if count >= BLOCK {
            return (count, chars, rest);
        }
        let Some(byte) = escaped(*high, *low) else {
            return (count, chars, rest);
        };
        let Some(next) = chars.after(byte) else {
            return (count, chars, rest);
        };
        block[count] = byte;
        count += 1;
        chars = next;
        rest = more;
    }
    (count, chars, rest)
}

/// Takes whole escapes, at most a block of them, letting the buffer grow once, and returns the
/// rest.
fn take_escapes<'a>(
    chars: &mut CharPlace,
    bytes: &mut ShortBytes,
    chunk: &'a [u8],
) -> Result<&'a [u8], OutOfMemory>
    // The bytes so far lead to the state in a character.
    requires { Leads bytes.old (utf8_of chars.old) }
    // The bytes before the rest lead the machine from the old state to the new one.
    ensures goes { IfOk result (λ rest. Goes shown_step (Unencoded bytes.old (utf8_of chars.old))
        chunk.now rest.now (Unencoded bytes.new (utf8_of chars.new))) }
    // Afterwards they lead to the new state, even if an allocation failed.
    ensures leads { Leads bytes.new (utf8_of chars.new) }
{
    let mut block = [0; BLOCK];
    let (count, next, rest) = read_escapes(*chars, chunk, &mut block);
    bytes.extend(&block[..count])?;
    *chars = next;
    Ok(rest)
}

/// If no character is open, takes unescaped bytes, and returns the rest.
fn take_unencoded<'a>(
    chars: CharPlace,
    bytes: &mut ShortBytes,
    chunk: &'a [u8],
) -> Result<&'a [u8], OutOfMemory>
    // The bytes so far lead to the state in a character.
    requires { Leads bytes.old (utf8_of chars) }
    // The bytes before the rest lead the machine from the old state to the new one.
    ensures goes { IfOk result (λ rest. Goes shown_step (Unencoded bytes.old (utf8_of chars))
        chunk.now rest.now (Unencoded bytes.new (utf8_of chars))) }
    // The same holds afterwards, even if an allocation failed.
    ensures leads { Leads bytes.new (utf8_of chars) }
{
    match chars {
        CharPlace::Start => {
            let (run, rest) = long_prefix::<UnencodedByte>(chunk);
            bytes.extend(run)?;
            return Ok(rest);
        }
        _ => return Ok(chunk),
    }
}

/// Takes unescaped bytes and whole escapes, and returns the rest.
fn take_chars<'a>(
    chars: &mut CharPlace,
    bytes: &mut ShortBytes,
    chunk: &'a [u8],
) -> Result<&'a [u8], OutOfMemory>
    // The bytes so far lead to the state in a character.
    requires { Leads bytes.old (utf8_of chars.old) }
    // The bytes before the rest lead the machine from the old state to the new one.
    ensures goes { IfOk result (λ rest. Goes shown_step (Unencoded bytes.old (utf8_of chars.old))
        chunk.now rest.now (Unencoded bytes.new (utf8_of chars.new))) }
    // Afterwards they lead to the new state, even if an allocation failed.
    ensures leads { Leads bytes.new (utf8_of chars.new) }
{
    let mut rest = chunk;
    while let Some((byte, _)) = rest.split_first() {
        let size = rest.len();
        rest = if *byte == b'%' {
            take_escapes(chars, bytes, rest)?
        } else {
            take_unencoded(*chars, bytes, rest)?
        };
        if rest.len() >= size {
            return Ok(rest);
        }
    }
    Ok(rest)
}

/// The bytes of a Display String whose text between the quotes is this. It is not inlined: each
/// caller would clear the stack that it needs.
#[inline(never)]
pub fn decode_escapes(context: &Context, text: &[u8]) -> Result<ShortBytes, OutOfMemory>
    ensures { IfOk result (λ bytes. bytes ≡ shown_bytes text.now) }
{
    let mut bytes = ShortBytes::new(context.alloc);
    let mut rest = text;
    loop {
        let (run, left) = long_prefix::<NoPercent>(rest);
        bytes.extend(run)?;
        let Some((first, more)) = decode_byte(left) else {
            return Ok(bytes);
        };
        let mut block = [0; BLOCK];
        let (count, after) = decode_run(first, more, &mut block);
        bytes.extend(&block[..count])?;
        rest = after;
    }
}

/// Decodes the escapes after a byte, and puts it and them into the block until it is full. Returns
/// the number of bytes, and the rest.
fn decode_run<'a>(first: u8, text: &'a [u8], block: &mut [u8; BLOCK]) -> (usize, &'a [u8])
    ensures within { result.0 ≤ 64 }
    ensures bytes { first ∷ shown_bytes text.now ≡ take result.0 block.new ++ shown_bytes
        result.1.now }
    ensures shorter { length result.1.now ≤ length text.now }
{
    block[0] = first;
    let mut count = 1;
    let mut rest = text;
    while count < BLOCK && rest.first().copied() == Some(b'%') {
        let Some((byte, more)) = decode_byte(rest) else {
            return (count, rest);
        };
        block[count] = byte;
        count += 1;
        rest = more;
    }
    (count, rest)
}

/// The byte that the text begins with, or that of the escape that it begins with, and the rest. In
/// a Display String, two digits follow each `%`; one with fewer than two bytes after it is kept.
#[inline(always)]
fn decode_byte(text: &[u8]) -> Option<(u8, &[u8])>
    ensures bytes { MatchOption result (text.now ≡ [])
        (λ r. shown_bytes text.now ≡ r.0 ∷ shown_bytes r.1.now) }
    ensures less { IfSome result (λ r. length r.1.now < length text.now) }
{
    let (first, more) = split(text)?;
    if first != b'%' {
        return Some((first, more));
    }
    let Some((high, after)) = split(more) else {
        return Some((first, more));
    };
    let Some((low, rest)) = split(after) else {
        return Some((first, more));
    };
    Some((digit(high) * 16 + digit(low), rest))
}

/// The value of a digit of an escape; 0 for another byte.
#[inline(always)]
fn digit(byte: u8) -> u8
    ensures value { result ≡ digit_or_zero (unhex_of byte) }
    ensures small { result < 16 }
{
    match unhex(byte) {
        Some(value) => value,
        None => 0,
    }
}
