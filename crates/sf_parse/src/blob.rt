//! A Byte Sequence that is being read (RFC 9651 section 4.2.7).
ghost use Rattle.std.specs.Prelude.{◌≡◌, ℕ, ◌<◌, ◌≤◌, List, [], ◌∷◌, ◌++◌, Some, IfOk};
ghost use Rattle.std.specs.Prelude.{IfSome, MatchOption, take};
ghost use Rattle.sf_scan.specs.Blobs.{blob_bytes, values};
ghost use Rattle.sf_parse.specs.BarePlaces.{blob_place};
ghost use Rattle.sf_parse.specs.Leaves.{BeginsCharacter};
ghost use Rattle.sf_parse.specs.Prefixes.{Goes};
ghost use Rattle.sf_parse.specs.Views.{held_of, blob_of, FitsHeld, FitsBlob};
ghost use Rattle.sf_parse.specs.Machine.Language.{Steps, run};
ghost use Rattle.sf_parse.specs.Machine.Blobs.{H0, Group, Padded, grown, last_bytes};
ghost use Rattle.sf_parse.specs.Machine.Blobs.{pad_step, end_step, blob_step};

use crate::context::Context;
use sf_scan::blob_place::BlobPlace;
use sf_scan::place::BarePlace;
use sf_value::classes::split;
use sf_value::{OutOfMemory, ShortBytes, sextet};

/// The values of the characters of an open group of base64.
#[derive(Clone, Copy)]
pub enum Held {
    H0,
    H1(u8),
    H2(u8, u8),
    H3(u8, u8, u8),
}

/// The part of a Byte Sequence that is being read, after its opening colon.
#[derive(Clone, Copy)]
pub enum BlobPhase {
    /// In a group.
    Group(Held),
    /// At the end, where at most this many `=` may follow.
    Padded(u8),
    /// After the closing colon.
    Ended,
}

impl BlobPhase {
    /// Takes one more byte, or reports that the byte sequence can't continue with it and is
    /// unchanged. Its bytes so far are `bytes`.
    pub fn step(&mut self, bytes: &mut ShortBytes, byte: u8) -> Result<bool, OutOfMemory>
        // The values of the open group are below 64.
        requires { FitsBlob self.old }
        // The byte leads to the next state, or it can't and the state is unchanged.
        ensures step { IfOk result (λ took. Steps took (blob_step (blob_of self.old bytes.old) byte)
            (blob_of self.old bytes.old) (blob_of self.new bytes.new)) }
        // The same holds afterwards.
        ensures fits { FitsBlob self.new }
    {
        match *self {
            BlobPhase::Group(held) => match sextet(byte) {
                Some(value) => {
                    *self = BlobPhase::Group(grow(held, bytes, value)?);
                    Ok(true)
                }
                None => self.end_group(held, bytes, byte),
            },
            BlobPhase::Padded(more) => Ok(self.pad(more, byte)),
            BlobPhase::Ended => Ok(false),
        }
    }

    /// Takes a byte that is no character of base64 and ends the last group, or reports that it
    /// can't come after the open group. Padding may be missing, and pad bits may be set (RFC 9651
    /// section 4.2.7).
    fn end_group(
        &mut self,
        held: Held,
        bytes: &mut ShortBytes,
        byte: u8,
    ) -> Result<bool, OutOfMemory>
        // The values of the open group are below 64.
        requires held { FitsHeld held }
        // This group is open.
        requires open { blob_of self.old bytes.old ≡ Group bytes.old (held_of held) }
        // The values in the phase are also below 64.
        requires fits { FitsBlob self.old }
        // The byte ends the group, or can't and the state stays.
        ensures step { IfOk result (λ took. Steps took (end_step bytes.old (held_of held) byte)
            (blob_of self.old bytes.old) (blob_of self.new bytes.new)) }
        // The values in the new phase are below 64.
        ensures fits { FitsBlob self.new }
    {
        match held {
            Held::H0 => self.close(&[], 0, bytes, byte),
            Held::H1(_) => Ok(false),
            Held::H2(x, y) => self.close(&[x * 4 + y / 16], 2, bytes, byte),
            Held::H3(x, y, z) => {
                self.close(&[x * 4 + y / 16, y % 16 * 16 + z / 4], 1, bytes, byte)
            }
        }
    }

    /// Takes the first byte after the last group, whose bytes `tail` are added: a colon or, if
    /// `more` is not 0, a `=`. Any other is refused.
    fn close(
        &mut self,
        tail: &[u8],
        more: u8,
        bytes: &mut ShortBytes,
        byte: u8,
    ) -> Result<bool, OutOfMemory>
        // The values of the open group are below 64.
        requires fits { FitsBlob self.old }
        // After the last group the byte leads to the next state, or it can't and the state is
        // unchanged.
        ensures step { IfOk result (λ took. Steps took (pad_step (bytes.old ++ tail.now) more byte)
            (blob_of self.old bytes.old) (blob_of self.new bytes.new)) }
        // The same holds afterwards.
        ensures fits { FitsBlob self.new }
    {
        if byte == b':' {
            bytes.extend(tail)?;
            *self = BlobPhase::Ended;
            return Ok(true);
        }
        if byte == b'=' && more > 0 {
            bytes.extend(tail)?;
            *self = BlobPhase::Padded(more - 1);
            return Ok(true);
        }
        Ok(false)
    }

    /// Takes a byte at the end, where at most this many `=` may follow.
    fn pad(&mut self, more: u8, byte: u8) -> bool
        // The values of the open group are below 64.
        requires { FitsBlob self.old }
        // If this many `=` may follow, the byte leads to the next state, or it can't and the state
        // is unchanged.
        ensures step { (bytes : List ℕ) → blob_of self.old bytes ≡ Padded bytes more
            → Steps result (pad_step bytes more byte) (blob_of self.old bytes)
            (blob_of self.new bytes) }
        // The same holds afterwards.
        ensures fits { FitsBlob self.new }
    {
        if byte == b':' {
            *self = BlobPhase::Ended;
            return true;
        }
        if byte == b'=' && more > 0 {
            *self = BlobPhase::Padded(more - 1);
            return true;
        }
        false
    }

    /// If no group is open, takes whole groups, and returns the rest.
    pub fn take_run<'a>(
        self,
        bytes: &mut ShortBytes,
        chunk: &'a [u8],
    ) -> Result<&'a [u8], OutOfMemory>
        // The bytes before the rest lead the machine from the old state to the new one.
        ensures { IfOk result (λ rest. Goes blob_step (blob_of self bytes.old) chunk.now rest.now
            (blob_of self bytes.new)) }
    {
        match self {
            BlobPhase::Group(Held::H0) => take_groups(bytes, chunk),
            _ => Ok(chunk),
        }
    }

    /// The place in the grammar after what was read.
    pub fn place(self) -> BarePlace
        ensures { result ≡ blob_place self }
    {
        let place = match self {
            BlobPhase::Group(Held::H0) => BlobPlace::Whole,
            BlobPhase::Group(Held::H1(_)) => BlobPlace::One,
            BlobPhase::Group(Held::H2(_, _)) => BlobPlace::Two,
            BlobPhase::Group(Held::H3(_, _, _)) => BlobPlace::Three,
            BlobPhase::Padded(0) => BlobPlace::Padded,
            BlobPhase::Padded(_) => BlobPlace::Pad,
            BlobPhase::Ended => return BarePlace::Complete,
        };
        BarePlace::Blob(place)
    }
}

/// The bytes of a Byte Sequence whose characters between the colons are these. It is not inlined:
/// each caller would clear the stack that it needs.
#[inline(never)]
pub fn decode(context: &Context, text: &[u8]) -> Result<ShortBytes, OutOfMemory>
    ensures { IfOk result (λ bytes. bytes ≡ blob_bytes text.now) }
{
    let mut bytes = ShortBytes::new(context.alloc);
    let mut held = Held::H0;
    let mut rest = take_groups(&mut bytes, text)?;
    while let Some((value, more)) = character(rest) {
        held = grow(held, &mut bytes, value)?;
        rest = more;
    }
    end(held, &mut bytes)?;
    Ok(bytes)
}

/// The value of the character that the text begins with, and the rest.
#[inline(always)]
fn character(text: &[u8]) -> Option<(u8, &[u8])>
    ensures value { MatchOption result (values text.now ≡ []) (λ r. BeginsCharacter text.now r.0
        r.1.now) }
    ensures small { IfSome result (λ r. r.0 < 64) }
{
    let (first, rest) = split(text)?;
    Some((sextet(first)?, rest))
}

/// Adds the bytes of the last group.
fn end(held: Held, bytes: &mut ShortBytes) -> Result<(), OutOfMemory>
    requires { FitsHeld held }
    ensures { IfOk result (λ _. bytes.new ≡ bytes.old ++ last_bytes (held_of held)) }
{
    match held {
        Held::H0 | Held::H1(_) => Ok(()),
        Held::H2(x, y) => bytes.extend(&[x * 4 + y / 16]),
        Held::H3(x, y, z) => bytes.extend(&[x * 4 + y / 16, y % 16 * 16 + z / 4]),
    }
}

/// The number of bytes that are decoded at a time: those of 32 groups.
const BLOCK: usize = 96;

/// The bytes of a whole group of four characters.
#[inline]
fn group_bytes(a: u8, b: u8, c: u8, d: u8) -> Option<(u8, u8, u8)>
    // If no group is open, the four characters lead to a state with three more bytes, these.
    ensures { IfSome result (λ out. (bs : List ℕ) → run blob_step (Group bs H0)
        (a ∷ b ∷ c ∷ d ∷ []) ≡ Some (Group (bs ++ out.0 ∷ out.1 ∷ out.2 ∷ []) H0)) }
{
    let x = sextet(a)?;
    let y = sextet(b)?;
    let z = sextet(c)?;
    let w = sextet(d)?;
    Some((x * 4 + y / 16, y % 16 * 16 + z / 4, z % 4 * 64 + w))
}

/// Decodes whole groups into the block until it is full. Returns the number of bytes, and the rest.
fn decode_groups<'a>(chunk: &'a [u8], block: &mut [u8; BLOCK]) -> (usize, &'a [u8])
    ensures within { result.0 ≤ 96 }
    // If no group is open, the characters before the rest lead to a state that also has the bytes
    // of the block.
    ensures goes { (bs : List ℕ) → Goes blob_step (Group bs H0) chunk.now result.1.now
        (Group (bs ++ take result.0 block.new) H0) }
{
    let mut count = 0;
    let mut rest = chunk;
    while let [a, b, c, d, more @ ..] = rest {
        if count + 3 > BLOCK {
            return (count, rest);
        }
        let Some(bytes) = group_bytes(*a, *b, *c, *d) else {
            return (count, rest);
        };
        block[count] = bytes.0;
        block[count + 1] = bytes.1;
        block[count + 2] = bytes.2;
        count += 3;
        rest = more;
    }
    (count, rest)
}

/// Takes whole groups, if no group is open, and lets the buffer grow once for each block.
fn take_groups<'a>(bytes: &mut ShortBytes, chunk: &'a [u8]) -> Result<&'a [u8], OutOfMemory>
    // The bytes before the rest lead the machine from the old state to the new one.
    ensures { IfOk result (λ rest. Goes blob_step (Group bytes.old H0) chunk.now rest.now
        (Group bytes.new H0)) }
{
    let mut rest = chunk;
    while let [_, ..] = rest {
        let mut block = [0; BLOCK];
        let (count, more) = decode_groups(rest, &mut block);
        bytes.extend(&block[..count])?;
        // A block with space for another group is the last one. The second test never holds: it
        // shows that the loop ends.
        if count + 3 <= BLOCK || more.len() >= rest.len() {
            return Ok(more);
        }
        rest = more;
    }
    Ok(rest)
}

/// Adds a character of this value to the open group.
fn grow(held: Held, bytes: &mut ShortBytes, value: u8) -> Result<Held, OutOfMemory>
    // The values of the open group are below 64.
    requires held { FitsHeld held }
    requires value { value < 64 }
    // The group has one more value; four values are three bytes of the byte sequence.
    ensures grown { IfOk result (λ h. Group bytes.new (held_of h)
        ≡ grown bytes.old (held_of held) value) }
    // The values of the new group are below 64.
    ensures fits { IfOk result FitsHeld }
{
    match held {
        Held::H0 => Ok(Held::H1(value)),
        Held::H1(x) => Ok(Held::H2(x, value)),
        Held::H2(x, y) => Ok(Held::H3(x, y, value)),
        Held::H3(x, y, z) => {
            bytes.extend(&[x * 4 + y / 16, y % 16 * 16 + z / 4, z % 4 * 64 + value])?;
            Ok(Held::H0)
        }
    }
}
