//! Hexadecimal digits (RFC 9651 section 4.1.11) and the characters of base64 (RFC 4648 section 4).
ghost use Rattle.std.specs.Prelude.{◌≡◌, ◌/◌, ◌%◌, ◌<◌, [], ◌∷◌, IfSome};
ghost use Rattle.sf_value.specs.Grammar.DisplayStrings.{hex};
ghost use Rattle.sf_value.specs.Digits.{unhex as unhex_of, sextet as sextet_of};

/// The value of each byte as a lower-case hexadecimal digit; 16 if it is not one.
#[rattlefmt::skip]
static HEX: [u8; 256] = [
    16, 16, 16, 16, 16, 16, 16, 16, 16, 16, 16, 16, 16, 16, 16, 16,
    16, 16, 16, 16, 16, 16, 16, 16, 16, 16, 16, 16, 16, 16, 16, 16,
    16, 16, 16, 16, 16, 16, 16, 16, 16, 16, 16, 16, 16, 16, 16, 16,
    0, 1, 2, 3, 4, 5, 6, 7, 8, 9, 16, 16, 16, 16, 16, 16,
    16, 16, 16, 16, 16, 16, 16, 16, 16, 16, 16, 16, 16, 16, 16, 16,
    16, 16, 16, 16, 16, 16, 16, 16, 16, 16, 16, 16, 16, 16, 16, 16,
    16, 10, 11, 12, 13, 14, 15, 16, 16, 16, 16, 16, 16, 16, 16, 16,
    16, 16, 16, 16, 16, 16, 16, 16, 16, 16, 16, 16, 16, 16, 16, 16,
    16, 16, 16, 16, 16, 16, 16, 16, 16, 16, 16, 16, 16, 16, 16, 16,
    16, 16, 16, 16, 16, 16, 16, 16, 16, 16, 16, 16, 16, 16, 16, 16,
    16, 16, 16, 16, 16, 16, 16, 16, 16, 16, 16, 16, 16, 16, 16, 16,
    16, 16, 16, 16, 16, 16, 16, 16, 16, 16, 16, 16, 16, 16, 16, 16,
    16, 16, 16, 16, 16, 16, 16, 16, 16, 16, 16, 16, 16, 16, 16, 16,
    16, 16, 16, 16, 16, 16, 16, 16, 16, 16, 16, 16, 16, 16, 16, 16,
    16, 16, 16, 16, 16, 16, 16, 16, 16, 16, 16, 16, 16, 16, 16, 16,
    16, 16, 16, 16, 16, 16, 16, 16, 16, 16, 16, 16, 16, 16, 16, 16,
];

/// The value of each byte as a character of base64; 64 if it is not one.
#[rattlefmt::skip]
static SEXTETS: [u8; 256] = [
    64, 64, 64, 64, 64, 64, 64, 64, 64, 64, 64, 64, 64, 64, 64, 64,
    64, 64, 64, 64, 64, 64, 64, 64, 64, 64, 64, 64, 64, 64, 64, 64,
    64, 64, 64, 64, 64, 64, 64, 64, 64, 64, 64, 62, 64, 64, 64, 63,
    52, 53, 54, 55, 56, 57, 58, 59, 60, 61, 64, 64, 64, 64, 64, 64,
    64, 0, 1, 2, 3, 4, 5, 6, 7, 8, 9, 10, 11, 12, 13, 14,
    15, 16, 17, 18, 19, 20, 21, 22, 23, 24, 25, 64, 64, 64, 64, 64,
    64, 26, 27, 28, 29, 30, 31, 32, 33, 34, 35, 36, 37, 38, 39, 40,
    41, 42, 43, 44, 45, 46, 47, 48, 49, 50, 51, 64, 64, 64, 64, 64,
    64, 64, 64, 64, 64, 64, 64, 64, 64, 64, 64, 64, 64, 64, 64, 64,
    64, 64, 64, 64, 64, 64, 64, 64, 64, 64, 64, 64, 64, 64, 64, 64,
    64, 64, 64, 64, 64, 64, 64, 64, 64, 64, 64, 64, 64, 64, 64, 64,
    64, 64, 64, 64, 64, 64, 64, 64, 64, 64, 64, 64, 64, 64, 64, 64,
    64, 64, 64, 64, 64, 64, 64, 64, 64, 64, 64, 64, 64, 64, 64, 64,
    64, 64, 64, 64, 64, 64, 64, 64, 64, 64, 64, 64, 64, 64, 64, 64,
    64, 64, 64, 64, 64, 64, 64, 64, 64, 64, 64, 64, 64, 64, 64, 64,
    64, 64, 64, 64, 64, 64, 64, 64, 64, 64, 64, 64, 64, 64, 64, 64,
];

/// The value of a lower-case hexadecimal digit; `None` if the byte is not one. It does not
/// allocate.
///
/// ```
/// unhex(b'c') // Some(12)
/// unhex(b'C') // None
/// ```
#[inline]
pub fn unhex(byte: u8) -> Option<u8>
    ensures value { result ≡ unhex_of byte }
    // It is below 16.
    ensures small { IfSome result (λ value. value < 16) }
{
    let value = HEX[byte as usize];
    if value < 16 { Some(value) } else { None }
}

/// The value of a character of base64; `None` if the byte is not one. It does not allocate.
///
/// ```
/// sextet(b'B') // Some(1)
/// ```
#[inline]
pub fn sextet(byte: u8) -> Option<u8>
    ensures value { result ≡ sextet_of byte }
    // It is below 64.
    ensures small { IfSome result (λ value. value < 64) }
{
    let value = SEXTETS[byte as usize];
    if value < 64 { Some(value) } else { None }
}

/// The lower-case hexadecimal digit of a number below 16.
fn hex_digit(number: u8) -> u8
    requires { number < 16 }
    ensures { result ≡ hex number }
{
    if number < 10 {
        b'0' + number
    } else {
        b'a' + (number - 10)
    }
}

/// The two lower-case hexadecimal digits of a byte. It does not allocate.
///
/// ```
/// hex_digits(0xfc) // [b'f', b'c']
/// ```
pub fn hex_digits(byte: u8) -> [u8; 2]
    ensures { result ≡ hex (byte / 16) ∷ hex (byte % 16) ∷ [] }
{
    [hex_digit(byte / 16), hex_digit(byte % 16)]
}
