//! Classes of bytes (RFC 9651 section 3), and what a text begins with: runs of them, and single
//! bytes. A class is a type, which values, parsers and writers share. It tests one byte here, and
//! 16 bytes at a time in `lanes` if its runs may be long.
ghost use Rattle.std.specs.Prelude.{◌≡◌, ◌≢◌, ◌≤◌, ◌<◌, ◌*◌, ◌++◌, [], ◌∷◌, ℕ, Bool, true, false};
ghost use Rattle.std.specs.Prelude.{◌==◌, length, take, drop, map, not, MatchOption};
ghost use Rattle.sf_value.specs.Ascii.{percent};
ghost use Rattle.std.specs.List.{prefix_len};
ghost use Rattle.std.specs.Simd.Lanes.{mask_l};
ghost use Rattle.sf_value.specs.Grammar.Words.{Every};
ghost use Rattle.sf_value.specs.Runs.{FirstIs, Lacks, Skips};
ghost use Rattle.sf_value.specs.Grammar.Classes.{is_in_key, is_in_token, is_key_start, is_sp};
ghost use Rattle.sf_value.specs.Grammar.Classes.{is_ows as is_ows_byte, is_token_start};
ghost use Rattle.sf_value.specs.Grammar.Classes.{is_visible as is_visible_byte};
ghost use Rattle.sf_value.specs.Grammar.Strings.{is_unescaped, is_escaped};
ghost use Rattle.sf_value.specs.Grammar.ByteSequences.{is_base64};
ghost use Rattle.sf_value.specs.Grammar.DisplayStrings.{is_unencoded};

use std::simd::prelude::*;

/// The flag of the bytes of a key after its first.
const IN_KEY: u8 = 1;

/// The flag of the bytes of a token after its first.
const IN_TOKEN: u8 = 2;

/// The flag of the bytes that keys begin with.
const KEY_START: u8 = 4;

/// The flag of the bytes that tokens begin with.
const TOKEN_START: u8 = 8;

/// The flag of the bytes of a string that are written without a backslash.
const UNESCAPED: u8 = 16;

/// The flag of the characters of base64.
const BASE64: u8 = 32;

/// The flag of the bytes of a display string that are written without an escape.
const UNENCODED: u8 = 64;

/// The number of bytes that are tested at a time.
const LANES: usize = 16;

/// After the first 16 bytes and this many more, 32 bytes are tested at a time instead of 16.
const NEAR: usize = 48;

/// The flags of each byte.
#[rattlefmt::skip]
static CLASSES: [u8; 256] = [
    0, 0, 0, 0, 0, 0, 0, 0, 0, 0, 0, 0, 0, 0, 0, 0,
    0, 0, 0, 0, 0, 0, 0, 0, 0, 0, 0, 0, 0, 0, 0, 0,
    80, 82, 0, 82, 82, 18, 82, 82, 80, 80, 95, 114, 80, 83, 83, 114,
    115, 115, 115, 115, 115, 115, 115, 115, 115, 115, 82, 80, 80, 80, 80, 80,
    80, 122, 122, 122, 122, 122, 122, 122, 122, 122, 122, 122, 122, 122, 122, 122,
    122, 122, 122, 122, 122, 122, 122, 122, 122, 122, 122, 80, 64, 80, 82, 83,
    82, 127, 127, 127, 127, 127, 127, 127, 127, 127, 127, 127, 127, 127, 127, 127,
    127, 127, 127, 127, 127, 127, 127, 127, 127, 127, 127, 80, 82, 80, 82, 0,
    0, 0, 0, 0, 0, 0, 0, 0, 0, 0, 0, 0, 0, 0, 0, 0,
    0, 0, 0, 0, 0, 0, 0, 0, 0, 0, 0, 0, 0, 0, 0, 0,
    0, 0, 0, 0, 0, 0, 0, 0, 0, 0, 0, 0, 0, 0, 0, 0,
    0, 0, 0, 0, 0, 0, 0, 0, 0, 0, 0, 0, 0, 0, 0, 0,
    0, 0, 0, 0, 0, 0, 0, 0, 0, 0, 0, 0, 0, 0, 0, 0,
    0, 0, 0, 0, 0, 0, 0, 0, 0, 0, 0, 0, 0, 0, 0, 0,
    0, 0, 0, 0, 0, 0, 0, 0, 0, 0, 0, 0, 0, 0, 0, 0,
    0, 0, 0, 0, 0, 0, 0, 0, 0, 0, 0, 0, 0, 0, 0, 0,
];

/// A class of bytes.
pub trait ByteClass {
    // The bytes of the class.
    ghost test: { ℕ → Bool };

    /// Whether the byte is of the class. It does not allocate.
    fn has(byte: u8) -> bool
        ensures { result ≡ test byte };
}

/// A class of bytes whose runs may be long.
pub trait LaneClass: ByteClass {
    /// The bytes that are not of the class, as bits of a number, the first as the lowest. It does
    /// not allocate.
    fn outside(bytes: u8x16) -> u64
        ensures { result ≡ mask_l (map (λ b. not (Self.test b)) bytes) };
}

/// The first byte of a key (section 3.1.2).
pub struct KeyStart;

/// A byte of a key after its first (section 3.1.2).
pub struct InKey;

/// The first byte of a token (section 3.3.4).
pub struct TokenStart;

/// A byte of a token after its first (section 3.3.4).
pub struct InToken;

/// A byte of a string (section 3.3.3).
pub struct Visible;

/// A byte of a string that is written without a backslash (section 4.1.6).
pub struct Unescaped;

/// A byte before which no backslash is written, whether or not a string may have it (section
/// 4.1.6).
pub struct NoBackslash;

/// A byte of a display string that is written without an escape (section 4.1.11).
pub struct UnencodedByte;

/// A byte with which no escape of a display string begins (section 4.1.11).
pub struct NoPercent;

/// A character of base64 (RFC 4648 section 4), other than the padding `=`.
pub struct Base64;

/// A space.
pub struct Space;

/// Optional white space (RFC 9110 section 5.6.3).
pub struct Ows;

impl ByteClass for KeyStart {
    ghost test = { is_key_start };

    #[inline]
    fn has(byte: u8) -> bool {
        CLASSES[byte as usize] & KEY_START != 0
    }
}

impl ByteClass for InKey {
    ghost test = { is_in_key };

    #[inline]
    fn has(byte: u8) -> bool {
        CLASSES[byte as usize] & IN_KEY != 0
    }
}

impl ByteClass for TokenStart {
    ghost test = { is_token_start };

    #[inline]
    fn has(byte: u8) -> bool {
        CLASSES[byte as usize] & TOKEN_START != 0
    }
}

impl ByteClass for InToken {
    ghost test = { is_in_token };

    #[inline]
    fn has(byte: u8) -> bool {
        CLASSES[byte as usize] & IN_TOKEN != 0
    }
}

impl ByteClass for Visible {
    ghost test = { is_visible_byte };

    #[inline]
    fn has(byte: u8) -> bool {
        (b' ' <= byte) & (byte <= b'~')
    }
}

impl ByteClass for Unescaped {
    ghost test = { is_unescaped };

    #[inline]
    fn has(byte: u8) -> bool {
        CLASSES[byte as usize] & UNESCAPED != 0
    }
}

impl ByteClass for NoBackslash {
    ghost test = { λ b. not (is_escaped b) };

    #[inline]
    fn has(byte: u8) -> bool {
        (byte != b'"') & (byte != b'\\')
    }
}

impl ByteClass for UnencodedByte {
    ghost test = { is_unencoded };

    #[inline]
    fn has(byte: u8) -> bool {
        CLASSES[byte as usize] & UNENCODED != 0
    }
}

impl ByteClass for NoPercent {
    ghost test = { λ b. not (b == percent) };

    #[inline]
    fn has(byte: u8) -> bool {
        byte != b'%'
    }
}

impl ByteClass for Base64 {
    ghost test = { is_base64 };

    #[inline]
    fn has(byte: u8) -> bool {
        CLASSES[byte as usize] & BASE64 != 0
    }
}

impl ByteClass for Space {
    ghost test = { is_sp };

    #[inline]
    fn has(byte: u8) -> bool {
        byte == b' '
    }
}

impl ByteClass for Ows {
    ghost test = { is_ows_byte };

    #[inline]
    fn has(byte: u8) -> bool {
        (byte == b' ') | (byte == b'\t')
    }
}

/// The number of bytes of the class that these bytes begin with. It does not allocate.
#[inline(always)]
pub fn prefix_of_16<C: LaneClass>(bytes: &[u8; 16]) -> usize
    ensures { result ≡ prefix_len C.test bytes.now }
{
    let outside = C::outside(u8x16::from_slice(bytes));
    if outside == 0 {
        LANES
    } else {
        outside.trailing_zeros() as usize
    }
}

/// The number of bytes of the class that the first 16 bytes of the text begin with.
#[inline(always)]
fn first_lanes<C: LaneClass>(text: &[u8]) -> usize
    requires { LANES ≤ length text.now }
    ensures within { result ≤ LANES }
    // All of these bytes are of the class.
    ensures every { Every C.test (take result text.now) }
    // If there are fewer than 16, the next byte is not.
    ensures longest { result < LANES → Lacks C.test (drop result text.now) }
{
    let Some((lanes, _)) = text.split_first_chunk::<LANES>() else {
        unreachable!()
    };
    prefix_of_16::<C>(lanes)
}

/// Whether the first 16 bytes of the text are all of the class.
#[inline(always)]
fn are_lanes<C: LaneClass>(text: &[u8]) -> bool
    requires { LANES ≤ length text.now }
    // If true, all of these bytes are of the class.
    ensures { result ≡ true → Every C.test (take LANES text.now) }
{
    C::outside(u8x16::from_slice(text)) == 0
}

/// Whether the first 32 bytes of the text are all of the class.
#[inline(always)]
fn are_pair<C: LaneClass>(text: &[u8]) -> bool
    requires { 2 * LANES ≤ length text.now }
    // If true, all of these bytes are of the class.
    ensures { result ≡ true → Every C.test (take (2 * LANES) text.now) }
{
    // Not `&&`: the compiler makes one test of both.
    are_lanes::<C>(text) & are_lanes::<C>(&text[LANES..])
}

/// The number of bytes of the class that the text begins with, 16 at a time.
#[inline(always)]
fn lanes_run<C: LaneClass>(text: &[u8]) -> usize
    ensures within { result ≤ length text.now }
    // All of these bytes are of the class.
    ensures every { Every C.test (take result text.now) }
    // The next byte, if there is one, is not.
    ensures longest { Lacks C.test (drop result text.now) }
{
    let mut run = 0;
    while text.len() - run >= LANES {
        let more = first_lanes::<C>(&text[run..]);
        if more < LANES {
            return run + more;
        }
        // Not `more`: the next load must not wait for the bits of this one.
        run += LANES;
    }
    while run < text.len() && C::has(text[run]) {
        run += 1;
    }
    run
}

/// As [`lanes_run`], but 32 bytes at a time.
#[inline(never)]
fn far_run<C: LaneClass>(text: &[u8]) -> usize
    ensures within { result ≤ length text.now }
    // All of these bytes are of the class.
    ensures every { Every C.test (take result text.now) }
    // The next byte, if there is one, is not.
    ensures longest { Lacks C.test (drop result text.now) }
{
    let mut run = 0;
    while text.len() - run >= 2 * LANES && are_pair::<C>(&text[run..]) {
        run += 2 * LANES;
    }
    run + lanes_run::<C>(&text[run..])
}

/// The number of bytes of the class that the text begins with, 16 at a time. A run that is long
/// already is likely to go on, and is then tested 32 bytes at a time. It does not allocate. It is
/// not inlined, so that a short run doesn't pay for loading its constants.
#[inline(never)]
pub fn long_run<C: LaneClass>(text: &[u8]) -> usize
    ensures within { result ≤ length text.now }
    // All of these bytes are of the class.
    ensures every { Every C.test (take result text.now) }
    // The next byte, if there is one, is not.
    ensures longest { Lacks C.test (drop result text.now) }
{
    if text.len() <= NEAR {
        return lanes_run::<C>(text);
    }
    let run = lanes_run::<C>(&text[..NEAR]);
    if run < NEAR {
        return run;
    }
    NEAR + far_run::<C>(&text[NEAR..])
}

/// The bytes of the class that the text begins with, and the rest. Bytes are tested 16 or more at a
/// time, and one by one if fewer than 16 are left. It does not allocate.
#[inline(always)]
pub fn long_prefix<C: LaneClass>(text: &[u8]) -> (&[u8], &[u8])
    // Together they are the text.
    ensures whole { text.now ≡ result.0.now ++ result.1.now }
    // All bytes of the first are of the class.
    ensures every { Every C.test result.0.now }
    // The first byte of the second, if there is one, is not.
    ensures longest { Lacks C.test result.1.now }
{
    if text.len() < LANES {
        return short_prefix::<C>(text);
    }
    let mut run = first_lanes::<C>(text);
    if run == LANES {
        run += long_run::<C>(&text[LANES..]);
    }
    text.split_at(run)
}

/// As [`long_prefix`], but byte by byte, for runs that are mostly short. It does not allocate.
#[inline]
pub fn short_prefix<C: ByteClass>(text: &[u8]) -> (&[u8], &[u8])
    // Together they are the text.
    ensures whole { text.now ≡ result.0.now ++ result.1.now }
    // All bytes of the first are of the class.
    ensures every { Every C.test result.0.now }
    // The first byte of the second, if there is one, is not.
    ensures longest { Lacks C.test result.1.now }
{
    let mut run = 0;
    while run < text.len() && C::has(text[run]) {
        run += 1;
    }
    text.split_at(run)
}

/// As [`long_prefix`], but the first 16 bytes one by one, for runs that are mostly short and may be
/// long. It does not allocate.
#[inline]
pub fn any_prefix<C: LaneClass>(text: &[u8]) -> (&[u8], &[u8])
    // Together they are the text.
    ensures whole { text.now ≡ result.0.now ++ result.1.now }
    // All bytes of the first are of the class.
    ensures every { Every C.test result.0.now }
    // The first byte of the second, if there is one, is not.
    ensures longest { Lacks C.test result.1.now }
{
    let near = text.len().min(LANES);
    let mut run = 0;
    while run < near && C::has(text[run]) {
        run += 1;
    }
    if run == LANES {
        run += long_run::<C>(&text[LANES..]);
    }
    text.split_at(run)
}

/// As [`any_prefix`], for white space, of which there is mostly one byte or none. It does not
/// allocate.
#[inline(always)]
pub fn few_prefix<C: LaneClass>(text: &[u8]) -> (&[u8], &[u8])
    // Together they are the text.
    ensures whole { text.now ≡ result.0.now ++ result.1.now }
    // All bytes of the first are of the class.
    ensures every { Every C.test result.0.now }
    // The first byte of the second, if there is one, is not.
    ensures longest { Lacks C.test result.1.now }
{
    let Some((first, more)) = split(text) else {
        return text.split_at(0);
    };
    if !C::has(first) {
        return text.split_at(0);
    }
    match split(more) {
        Some((second, _)) if C::has(second) => text.split_at(many::<C>(text)),
        _ => text.split_at(1),
    }
}

/// The number of bytes of the class that the text begins with. It is not inlined: after a loop, the
/// compiler's code for the rest of the caller would be slower.
#[inline(never)]
fn many<C: LaneClass>(text: &[u8]) -> usize
    ensures within { result ≤ length text.now }
    // All of these bytes are of the class.
    ensures every { Every C.test (take result text.now) }
    // The next byte, if there is one, is not.
    ensures longest { Lacks C.test (drop result text.now) }
{
    let (run, _) = any_prefix::<C>(text);
    run.len()
}

/// The rest after spaces, of which there is mostly one or none. It does not allocate.
#[inline(always)]
pub fn after_spaces(text: &[u8]) -> &[u8]
    ensures { Skips is_sp text.now result.now }
{
    let (_, rest) = few_prefix::<Space>(text);
    rest
}

/// The rest after spaces and tabs. It does not allocate.
#[inline(always)]
pub fn after_ows(text: &[u8]) -> &[u8]
    ensures { Skips is_ows_byte text.now result.now }
{
    let (_, rest) = few_prefix::<Ows>(text);
    rest
}

/// The first byte, and the rest; `None` if there is none. It does not allocate.
#[inline(always)]
pub fn split(text: &[u8]) -> Option<(u8, &[u8])>
    ensures { MatchOption result (text.now ≡ []) (λ r. text.now ≡ r.0 ∷ r.1.now) }
{
    match text {
        [first, rest @ ..] => Some((*first, rest)),
        [] => None,
    }
}

/// The rest after this byte; `None` if the text does not begin with it. It does not allocate.
#[inline(always)]
pub fn strip_byte(text: &[u8], byte: u8) -> Option<&[u8]>
    ensures { MatchOption result (FirstIs (λ b. b ≢ byte) text.now)
        (λ rest. text.now ≡ byte ∷ rest.now) }
{
    match split(text) {
        Some((first, rest)) if first == byte => Some(rest),
        _ => None,
    }
}

/// Whether nothing is left. It does not allocate.
#[inline(always)]
pub fn ends(text: &[u8]) -> bool
    ensures all { result ≡ true → text.now ≡ [] }
    ensures some { result ≡ false → text.now ≢ [] }
{
    text.is_empty()
}

/// Whether a key may begin with this byte: `a` to `z` and `*` (RFC 9651 section 3.1.2). It does not
/// allocate.
#[inline]
pub fn can_start_key(byte: u8) -> bool
    ensures { result ≡ is_key_start byte }
{
    KeyStart::has(byte)
}

/// Whether a key may have this byte after its first: `a` to `z`, `0` to `9`, `_`, `-`, `.` and `*`
/// (RFC 9651 section 3.1.2). It does not allocate.
#[inline]
pub fn can_be_in_key(byte: u8) -> bool
    ensures { result ≡ is_in_key byte }
{
    InKey::has(byte)
}

/// Whether a token may begin with this byte: a letter or `*` (RFC 9651 section 3.3.4). It does not
/// allocate.
#[inline]
pub fn can_start_token(byte: u8) -> bool
    ensures { result ≡ is_token_start byte }
{
    TokenStart::has(byte)
}

/// Whether a token may have this byte after its first: a letter, a digit, `:`, `/` or one of
/// ``!#$%&'*+-.^_`|~`` (RFC 9651 section 3.3.4). It does not allocate.
#[inline]
pub fn can_be_in_token(byte: u8) -> bool
    ensures { result ≡ is_in_token byte }
{
    InToken::has(byte)
}

/// Whether a string may have this byte: 0x20 to 0x7E (RFC 9651 section 3.3.3). It does not
/// allocate.
#[inline]
pub fn is_visible(byte: u8) -> bool
    ensures { result ≡ is_visible_byte byte }
{
    Visible::has(byte)
}

/// Whether a byte of a display string is written as itself: each from 0x20 to 0x7E but `"` and `%`
/// (RFC 9651 section 4.1.11). It does not allocate.
#[inline]
pub fn stands_for_itself(byte: u8) -> bool
    ensures { result ≡ is_unencoded byte }
{
    UnencodedByte::has(byte)
}

/// Whether a byte is a space or a tab, the optional white space between the members of a List or a
/// Dictionary (RFC 9651 section 4.2, RFC 9110 section 5.6.3). It does not allocate.
#[inline]
pub fn is_ows(byte: u8) -> bool
    ensures { result ≡ is_ows_byte byte }
{
    Ows::has(byte)
}
