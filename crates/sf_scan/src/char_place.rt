//! Well-formed UTF-8 (RFC 3629 section 4), a byte at a time, and which digits of an escape may come.
ghost use Rattle.std.specs.Prelude.{◌≡◌};
ghost use Rattle.sf_value.specs.Grammar.Utf8.{within};
ghost use Rattle.sf_value.specs.Grammar.Words.{allow};
ghost use Rattle.sf_scan.specs.Characters.{char_step, can_begin as can_begin_at};
ghost use Rattle.sf_scan.specs.declared.char_place.CharPlace.TheVariants as chars_is;
ghost use Rattle.sf_scan.specs.Characters.{find_place, first_places, low_digits as low_digits_at};

/// A place in UTF-8: between two characters, or in one.
#[derive(Clone, Copy)]
pub enum CharPlace {
    /// Between two characters.
    Start,
    /// Before the last byte of a character, which is from 0x80 to 0xbf.
    Last,
    /// Before the last two bytes, of which each is from 0x80 to 0xbf.
    LastTwo,
    /// Before the last three bytes, of which each is from 0x80 to 0xbf.
    LastThree,
    /// After 0xe0: of the last two bytes the next is from 0xa0.
    AfterE0,
    /// After 0xed: of the last two bytes the next is up to 0x9f.
    AfterEd,
    /// After 0xf0: of the last three bytes the next is from 0x90.
    AfterF0,
    /// After 0xf4: of the last three bytes the next is up to 0x8f.
    AfterF4,
}

/// Which digits may come as the second of a byte, after its first.
#[derive(Clone, Copy)]
pub enum LowDigits {
    /// All of them.
    Any,
    /// From 2, since 0xc0 and 0xc1 begin no character.
    FromTwo,
    /// Up to 4, since 0xf5 to 0xff begin no character.
    UpToFour,
}

impl CharPlace {
    /// The place after one more byte; `None` if it can't come.
    #[inline(always)]
    pub fn after(self, byte: u8) -> Option<CharPlace>
        ensures { result ≡ char_step self byte }
    {
        match self {
            CharPlace::Start => first_byte(byte),
            CharPlace::Last => between(0x80, 0xbf, byte, CharPlace::Start),
            CharPlace::LastTwo => between(0x80, 0xbf, byte, CharPlace::Last),
            CharPlace::LastThree => between(0x80, 0xbf, byte, CharPlace::LastTwo),
            CharPlace::AfterE0 => between(0xa0, 0xbf, byte, CharPlace::Last),
            CharPlace::AfterEd => between(0x80, 0x9f, byte, CharPlace::Last),
            CharPlace::AfterF0 => between(0x90, 0xbf, byte, CharPlace::LastTwo),
            CharPlace::AfterF4 => between(0x80, 0x8f, byte, CharPlace::LastTwo),
        }
    }

    /// Whether a byte may come whose first digit this is.
    pub fn can_begin(self, digit: u8) -> bool
        ensures { result ≡ can_begin_at self digit }
    {
        match self {
            CharPlace::Start => digit < 8 || 12 <= digit,
            CharPlace::Last | CharPlace::LastTwo | CharPlace::LastThree => 8 <= digit
                && digit <= 11,
            CharPlace::AfterE0 => 10 <= digit && digit <= 11,
            CharPlace::AfterEd => 8 <= digit && digit <= 9,
            CharPlace::AfterF0 => 9 <= digit && digit <= 11,
            CharPlace::AfterF4 => digit == 8,
        }
    }

    /// The digits that may come after this first one, if it may come.
    pub fn low_digits(self, digit: u8) -> LowDigits
        ensures { result ≡ low_digits_at self digit }
    {
        match self {
            CharPlace::Start => low_digits_first(digit),
            _ => LowDigits::Any,
        }
    }
}

/// The next place, if the byte is in the range.
fn between(low: u8, high: u8, byte: u8, next: CharPlace) -> Option<CharPlace>
    ensures { result ≡ allow (within low high byte) next }
{
    if low <= byte && byte <= high {
        Some(next)
    } else {
        None
    }
}

/// The place after the first byte of a character; `None` if no character begins with it.
fn first_byte(byte: u8) -> Option<CharPlace>
    ensures { result ≡ find_place first_places byte }
{
    match byte {
        0x00..=0x7f => Some(CharPlace::Start),
        0xc2..=0xdf => Some(CharPlace::Last),
        0xe0 => Some(CharPlace::AfterE0),
        0xe1..=0xec => Some(CharPlace::LastTwo),
        0xed => Some(CharPlace::AfterEd),
        0xee..=0xef => Some(CharPlace::LastTwo),
        0xf0 => Some(CharPlace::AfterF0),
        0xf1..=0xf3 => Some(CharPlace::LastThree),
        0xf4 => Some(CharPlace::AfterF4),
        _ => None,
    }
}

/// The digits that may come after this one in the first byte of a character.
fn low_digits_first(digit: u8) -> LowDigits
    ensures { result ≡ low_digits_at chars_is.Start digit }
{
    match digit {
        12 => LowDigits::FromTwo,
        15 => LowDigits::UpToFour,
        _ => LowDigits::Any,
    }
}
