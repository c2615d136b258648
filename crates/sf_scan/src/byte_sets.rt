//! Sets of bytes below 128, a bit for each: single bytes, the classes of the grammar, and what may
//! come at some of its places.
ghost use Rattle.std.specs.Prelude.{◌≡◌, if◌then◌else◌};

/// The space.
pub const SPACE: u128 = 1 << b' ';

/// The quote.
pub const QUOTE: u128 = 1 << b'"';

/// The percent sign.
pub const PERCENT: u128 = 1 << b'%';

/// The opening bracket.
pub const OPEN_BRACKET: u128 = 1 << b'(';

/// The closing bracket.
pub const CLOSE_BRACKET: u128 = 1 << b')';

/// The comma.
pub const COMMA: u128 = 1 << b',';

/// The minus sign.
pub const MINUS: u128 = 1 << b'-';

/// The point.
pub const POINT: u128 = 1 << b'.';

/// The colon.
pub const COLON: u128 = 1 << b':';

/// The semicolon.
pub const SEMICOLON: u128 = 1 << b';';

/// The equals sign.
pub const EQUALS: u128 = 1 << b'=';

/// The lower-case letters.
pub const LOWER: u128 = 0x3ff_ffff << b'a';

/// The upper-case letters.
pub const UPPER: u128 = 0x3ff_ffff << b'A';

/// The letters.
pub const LETTERS: u128 = LOWER | UPPER;

/// The digits.
pub const DIGITS: u128 = 0x3ff << b'0';

/// The digits of the escapes of Display Strings (RFC 9651 section 3.3.8).
pub const LOWER_HEX: u128 = DIGITS | 0x3f << b'a';

/// The visible bytes and the space: those of Strings (section 3.3.3).
pub const VISIBLE: u128 = (1 << 127) - (1 << b' ');

/// The characters of base64 (RFC 4648 section 4), without `=`.
pub const BASE64: u128 = LETTERS | DIGITS | 1 << b'+' | 1 << b'/';

/// The first bytes of keys (RFC 9651 section 3.1.2).
pub const KEY_START: u128 = LOWER | 1 << b'*';

/// The bytes of keys after the first.
pub const KEY: u128 = KEY_START | DIGITS | 1 << b'_' | MINUS | POINT;

/// The first bytes of Tokens (section 3.3.4).
pub const TOKEN_START: u128 = LETTERS | 1 << b'*';

/// The bytes of Tokens after the first. Three of the terms are runs: `#` to `'`, `-` to `/`, and `^`
/// to a backquote.
pub const TOKEN: u128 = TOKEN_START
    | DIGITS
    | 1 << b'!'
    | 0x1f << b'#'
    | 1 << b'+'
    | 7 << b'-'
    | COLON
    | 7 << b'^'
    | 1 << b'|'
    | 1 << b'~';

/// Optional white space: spaces and tabs.
pub const OWS: u128 = SPACE | 1 << b'\t';

/// What may come after a byte of a key: another one, an equals sign or a semicolon.
pub const AFTER_KEY: u128 = KEY | EQUALS | SEMICOLON;

/// What may come after an Item of an Inner List.
pub const AFTER_ITEM: u128 = SPACE | CLOSE_BRACKET;

/// What may come after a member of a List or a Dictionary.
pub const AFTER_MEMBER: u128 = OWS | COMMA;

/// The set if this holds, otherwise the empty set.
#[inline]
pub fn set_if(holds: bool, set: u128) -> u128
    ensures { result ≡ (if holds then set else 0) }
{
    if holds { set } else { 0 }
}
