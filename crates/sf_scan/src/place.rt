//! The places in bare items and parameters where reading may stop, and the bytes that may come
//! there. The places in other constructs are beside their readers. A [`Stop`] has any of them.
ghost use Rattle.std.specs.Prelude.{◌≡◌};
ghost use Rattle.sf_scan.specs.Places.{in_bare, ends_bare, is_bare_start};
ghost use Rattle.sf_scan.specs.Places.{in_params, ends_params};
ghost use Rattle.sf_scan.specs.Sets.{Marks};

use crate::allowed::Allowed;
use crate::blob_place::BlobPlace;
use crate::byte_sets::{
    AFTER_KEY, COLON, DIGITS, KEY_START, MINUS, PERCENT, QUOTE, SEMICOLON, SPACE, TOKEN,
    TOKEN_START, VISIBLE,
};
use crate::number_place::NumberPlace;
use crate::shown_place::ShownPlace;
use sf_value::Dialect;

/// A place in a bare item.
#[derive(Clone, Copy)]
pub enum BarePlace {
    /// Before its first byte.
    Start,
    /// After the question mark of a Boolean.
    QuestionMark,
    /// After a byte of a Token.
    InToken,
    /// Between the quotes of a String.
    InString,
    /// After a backslash in a String.
    Backslash,
    /// In a Byte Sequence.
    Blob(BlobPlace),
    /// In a Display String.
    Shown(ShownPlace),
    /// After the first byte of an Integer, a Decimal or a Date.
    Number(NumberPlace),
    /// After a bare item that no further byte can belong to.
    Complete,
}

/// The first bytes of bare items by RFC 8941.
const START: u128 = TOKEN_START | QUOTE | 1 << b'?' | COLON | DIGITS | MINUS;

/// The first bytes of bare items, a bit for each.
fn bare_start(dialect: Dialect) -> u128
    ensures { Marks result (is_bare_start dialect) }
{
    match dialect {
        Dialect::Rfc8941 => START,
        Dialect::Rfc9651 => START | 1 << b'@' | PERCENT,
    }
}

impl BarePlace {
    /// What may come here.
    #[inline]
    pub fn allowed(self, dialect: Dialect) -> Allowed
        ensures expected { Marks result.expected (in_bare dialect self) }
        ensures may_end { result.may_end ≡ ends_bare self }
    {
        Allowed::new(self.expected(dialect), self.may_end())
    }

    /// The bytes below 128 that may come, a bit for each.
    pub fn expected(self, dialect: Dialect) -> u128
        ensures { Marks result (in_bare dialect self) }
    {
        match self {
            BarePlace::Start => bare_start(dialect),
            BarePlace::QuestionMark => 3 << b'0',
            BarePlace::InToken => TOKEN,
            BarePlace::InString => VISIBLE,
            BarePlace::Backslash => QUOTE | 1 << b'\\',
            BarePlace::Blob(place) => place.expected(),
            BarePlace::Shown(place) => place.expected(),
            BarePlace::Number(place) => place.allowed().expected,
            BarePlace::Complete => 0,
        }
    }

    /// Whether the bare item may end here.
    #[inline(always)]
    pub fn may_end(self) -> bool
        ensures { result ≡ ends_bare self }
    {
        match self {
            BarePlace::InToken | BarePlace::Complete => true,
            BarePlace::Number(place) => place.allowed().may_end,
            BarePlace::Start | BarePlace::QuestionMark => false,
            BarePlace::InString | BarePlace::Backslash => false,
            BarePlace::Blob(_) | BarePlace::Shown(_) => false,
        }
    }
}

/// A place in parameters.
#[derive(Clone, Copy)]
pub enum ParamPlace {
    /// Before the first parameter.
    Before,
    /// After the semicolon of a parameter, and spaces.
    Semicolon,
    /// After a byte of a key.
    InKey,
    /// After the equals sign: before a value, in it or after it.
    InValue(BarePlace),
}

impl ParamPlace {
    /// What may come here.
    #[inline(always)]
    pub fn allowed(self, dialect: Dialect) -> Allowed
        ensures expected { Marks result.expected (in_params dialect self) }
        ensures may_end { result.may_end ≡ ends_params self }
    {
        match self {
            ParamPlace::Before => Allowed::new(SEMICOLON, true),
            ParamPlace::Semicolon => Allowed::new(KEY_START | SPACE, false),
            ParamPlace::InKey => Allowed::new(AFTER_KEY, true),
            ParamPlace::InValue(place) => place.allowed(dialect).or_after(SEMICOLON),
        }
    }
}

/// Where reading stopped: what is left of the text, and the place before it.
#[derive(Clone, Copy)]
pub struct Stop<'a, P> {
    /// The rest of the text. Its first byte can't come at the place.
    pub left: &'a [u8],
    /// The place.
    pub place: P,
}

/// Why a construct was not read.
#[derive(Drop)]
pub enum Halt<'a, P, F: Drop> {
    /// The text is refused here.
    Refused(Stop<'a, P>),
    /// The maker failed.
    Fault(F),
}
