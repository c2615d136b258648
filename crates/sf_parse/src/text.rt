//! A String that is being read (RFC 9651 section 4.2.5).
ghost use Rattle.std.specs.Prelude.{◌≡◌, ◌<◌, [], ◌∷◌, ◌++◌, length};
ghost use Rattle.std.specs.Prelude.{IfOk, IfSome, IsOk, MatchOption};
ghost use Rattle.sf_value.specs.Grammar.Words.{Every};
ghost use Rattle.sf_value.specs.InPlace.{FitsInPlace};
ghost use Rattle.sf_value.specs.Grammar.Classes.{is_visible as is_visible_byte};
ghost use Rattle.sf_parse.specs.BarePlaces.{text_place};
ghost use Rattle.sf_scan.specs.Leaves.{unescaped};
ghost use Rattle.sf_parse.specs.Prefixes.{Goes};
ghost use Rattle.sf_parse.specs.Views.{text_of};
ghost use Rattle.sf_parse.specs.Machine.Language.{Steps};
ghost use Rattle.sf_parse.specs.Machine.Texts.{text_step};

use crate::context::Context;
use sf_scan::place::BarePlace;
use sf_value::classes::{NoBackslash, Unescaped, long_prefix, split};
use sf_value::{OutOfMemory, ShortBytes, is_visible};

/// The part of a String that is being read, after its opening quote.
#[derive(Clone, Copy)]
pub enum TextPhase {
    /// Between the quotes.
    Inside,
    /// After a backslash.
    Escaped,
    /// After the closing quote.
    Closed,
}

impl TextPhase {
    /// Takes one more byte, or reports that the string can't continue with it and is unchanged. The
    /// bytes of the string so far are `text`.
    #[tactic(auto, using(sf_value::proofs::Words::every_push))]
    #[inline(always)]
    pub fn step(&mut self, text: &mut ShortBytes, byte: u8) -> Result<bool, OutOfMemory>
        // The byte leads to the next state, or it can't and the state is unchanged.
        ensures step { IfOk result (λ took. Steps took (text_step (text_of self.old text.old) byte)
            (text_of self.old text.old) (text_of self.new text.new)) }
        // The bytes so far are still visible.
        ensures visible { Every is_visible_byte text.old → Every is_visible_byte text.new }
        // If the bytes with this one fit in place, no allocation fails.
        ensures in_place { FitsInPlace (text.old ++ byte ∷ []) → IsOk result }
    {
        match *self {
            TextPhase::Inside => {
                if byte == b'"' {
                    *self = TextPhase::Closed;
                    return Ok(true);
                }
                if byte == b'\\' {
                    *self = TextPhase::Escaped;
                    return Ok(true);
                }
                if !is_visible(byte) {
                    return Ok(false);
                }
                text.push(byte)?;
                Ok(true)
            }
            TextPhase::Escaped => {
                if byte != b'"' && byte != b'\\' {
                    return Ok(false);
                }
                text.push(byte)?;
                *self = TextPhase::Inside;
                Ok(true)
            }
            TextPhase::Closed => Ok(false),
        }
    }

    /// Takes the bytes that are not escaped, letting the buffer grow once, and returns the rest.
    #[inline(always)]
    pub fn take_run<'a>(
        self,
        text: &mut ShortBytes,
        chunk: &'a [u8],
    ) -> Result<&'a [u8], OutOfMemory>
        // The bytes before the rest lead the machine from the old state to the new one.
        ensures goes { IfOk result (λ rest. Goes text_step (text_of self text.old) chunk.now
            rest.now (text_of self text.new)) }
        // The bytes so far are still visible.
        ensures visible { Every is_visible_byte text.old → Every is_visible_byte text.new }
        // If the bytes with the chunk fit in place, no allocation fails.
        ensures in_place { FitsInPlace (text.old ++ chunk.now) → IsOk result }
    {
        match self {
            TextPhase::Inside => {
                let (run, rest) = long_prefix::<Unescaped>(chunk);
                text.extend(run)?;
                Ok(rest)
            }
            TextPhase::Escaped | TextPhase::Closed => Ok(chunk),
        }
    }

    /// The place in the grammar after what was read.
    pub fn place(self) -> BarePlace
        ensures { result ≡ text_place self }
    {
        match self {
            TextPhase::Inside => BarePlace::InString,
            TextPhase::Escaped => BarePlace::Backslash,
            TextPhase::Closed => BarePlace::Complete,
        }
    }
}

/// The bytes of a String whose text between the quotes is this. It is not inlined: each caller would
/// clear the stack that it needs.
#[inline(never)]
pub fn unescape(context: &Context, text: &[u8]) -> Result<ShortBytes, OutOfMemory>
    ensures bytes { IfOk result (λ bytes. bytes ≡ unescaped text.now) }
    // With at most 16 bytes it does not allocate.
    ensures in_place { FitsInPlace (unescaped text.now) → IsOk result }
{
    let mut bytes = ShortBytes::new(context.alloc);
    let mut rest = text;
    loop {
        let (run, left) = long_prefix::<NoBackslash>(rest);
        bytes.extend(run)?;
        let Some((byte, more)) = unescape_byte(left) else {
            return Ok(bytes);
        };
        bytes.push(byte)?;
        rest = more;
    }
}

/// The first byte, without the backslash before it, and the rest.
#[inline(always)]
fn unescape_byte(text: &[u8]) -> Option<(u8, &[u8])>
    ensures bytes { MatchOption result (text.now ≡ [])
        (λ r. unescaped text.now ≡ r.0 ∷ unescaped r.1.now) }
    ensures less { IfSome result (λ r. length r.1.now < length text.now) }
{
    let (first, more) = split(text)?;
    if first != b'\\' {
        return Some((first, more));
    }
    let Some((second, rest)) = split(more) else {
        return Some((first, more));
    };
    Some((second, rest))
}
