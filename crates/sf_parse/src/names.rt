//! The names of the bytes that a refusal expects.
ghost use Rattle.std.specs.Prelude.{◌≡◌, ◌≤◌, ◌<◌, [], ◌∷◌, ⊤, Some, MatchOption};
ghost use Rattle.std.specs.Fmt.{WritesOnOk};
ghost use Rattle.sf_parse.specs.declared.names.Name.TheVariants as name_is;
ghost use Rattle.sf_parse.specs.Names.{name_at as nth_name, set_of, names_left, names_of};
ghost use Rattle.sf_parse.specs.Names.{byte_text, name_text, joint, listed};

use crate::byte_runs::{Hex, first_from};
use sf_scan::byte_sets::{BASE64, DIGITS, KEY, LETTERS, LOWER, LOWER_HEX, TOKEN, UPPER, VISIBLE};
use std::fmt;

/// What a refusal expects: a byte of one of these classes, one byte, or the end.
#[derive(Clone, Copy)]
enum Name {
    /// The bytes of strings (RFC 9651 section 3.3.3).
    Printable,
    /// The bytes of a token after its first (section 3.3.4).
    Token,
    /// The characters of base64 (RFC 4648 section 4), without `=`.
    Base64,
    /// The bytes of a key after its first (RFC 9651 section 3.1.2).
    Key,
    Letter,
    Lower,
    Upper,
    /// The digits of the escapes of Display Strings (section 3.3.8).
    LowerHex,
    Digit,
    Byte(u8),
    End,
}

/// The index of the first byte's name, `!`: that of a byte from there on is 24 below the byte.
const BYTES: u8 = 9;

/// The index of the name of byte 0: those below `!` are after the others.
const LOW_BYTES: u8 = 104;

/// The number of names of classes and bytes.
const COUNT: u8 = 137;

/// The names that remain of an iteration over those of a set and of the end: names from an index on
/// are tried.
#[derive(Clone, Copy)]
struct Names {
    set: u128,
    place: u8,
    may_end: bool,
}

impl Names {
    /// Takes the first of them.
    fn next(&mut self) -> Option<Name>
        // It is the first of the names that remain, and the others remain; None if none remains.
        ensures { MatchOption result (names_left self.old ≡ [])
            (λ name. names_left self.old ≡ name ∷ names_left self.new) }
    {
        if let Some(class) = self.next_class() {
            return Some(class);
        }
        if let Some(byte) = self.next_byte() {
            return Some(Name::Byte(byte));
        }
        if let Some(byte) = self.next_low_byte() {
            return Some(Name::Byte(byte));
        }
        if self.may_end {
            self.may_end = false;
            return Some(Name::End);
        }
        None
    }

    /// Takes the first of them if it is a class.
    fn next_class(&mut self) -> Option<Name>
        ensures names { MatchOption result (names_left self.old ≡ names_left self.new)
            (λ name. names_left self.old ≡ name ∷ names_left self.new) }
        ensures none { MatchOption result (9 ≤ self.new.place) (λ _. ⊤) }
    {
        while self.place < BYTES {
            let name = name_at(self.place);
            let bytes = bytes_of(name);
            self.place += 1;
            if self.set & bytes == bytes {
                self.set -= bytes;
                return Some(name);
            }
        }
        None
    }

    /// Takes the first of them, after the classes, if it is a byte from `!` on.
    fn next_byte(&mut self) -> Option<u8>
        requires { 9 ≤ self.old.place }
        ensures names { MatchOption result (names_left self.old ≡ names_left self.new)
            (λ byte. names_left self.old ≡ name_is.Byte byte ∷ names_left self.new) }
        ensures none { MatchOption result (104 ≤ self.new.place) (λ _. ⊤) }
    {
        if self.place >= LOW_BYTES {
            return None;
        }
        match first_from(self.set, self.place + (b'!' - BYTES)) {
            Some(byte) => {
                self.set -= 1 << byte;
                self.place = byte - (b'!' - BYTES) + 1;
                Some(byte)
            }
            None => {
                self.place = LOW_BYTES;
                None
            }
        }
    }

    /// Takes the first of them, after the bytes from `!` on, if it is a byte below that.
    fn next_low_byte(&mut self) -> Option<u8>
        requires { 104 ≤ self.old.place }
        ensures names { MatchOption result (names_left self.old ≡ names_left self.new)
            (λ byte. names_left self.old ≡ name_is.Byte byte ∷ names_left self.new) }
        ensures none { MatchOption result (137 ≤ self.new.place) (λ _. ⊤) }
    {
        if self.place >= COUNT {
            return None;
        }
        match first_from(self.set, self.place - LOW_BYTES) {
            Some(byte) if byte < b'!' => {
                self.set -= 1 << byte;
                self.place = byte + LOW_BYTES + 1;
                Some(byte)
            }
            _ => {
                self.place = COUNT;
                None
            }
        }
    }
}

/// What a refusal expects, printed by names, with commas between them and "or" before the last. It
/// prints "nothing" if there are none; the refusal of a text always has one.
#[derive(Clone, Copy, Drop)]
pub(crate) struct Expected {
    pub set: u128,
    pub may_end: bool,
}

impl fmt::Display for Expected {
    ghost output = { λ expected. Some (listed (names_of expected.set expected.may_end)) };

    fn fmt<W: fmt::Write>(&self, f: &mut fmt::Formatter<W>) -> fmt::Result {
        let mut names = Names {
            set: self.set,
            place: 0,
            may_end: self.may_end,
        };
        let Some(first) = names.next() else {
            return f.write_str("nothing");
        };
        put_name(first, f)?;
        let mut next = names.next();
        while let Some(name) = next {
            next = names.next();
            f.write_str(joint_before(next))?;
            put_name(name, f)?;
        }
        Ok(())
    }
}

/// The text between two names, by the name after them.
fn joint_before(next: Option<Name>) -> &'static str
    ensures { MatchOption next (result.now ≡ joint []) (λ name. result.now ≡ joint (name ∷ [])) }
{
    match next {
        None => " or ",
        Some(_) => ", ",
    }
}

/// Writes the text of a name. Names and their characters are written without the formatting of
/// values, which would take most of the time of a message.
fn put_name<W: fmt::Write>(name: Name, f: &mut fmt::Formatter<W>) -> fmt::Result
    ensures { WritesOnOk W.write_str_gives f.old result (name_text name) f.new }
{
    match name {
        Name::Printable => f.write_str("a printable character"),
        Name::Token => f.write_str("a token character"),
        Name::Base64 => f.write_str("a base64 character"),
        Name::Key => f.write_str("a key character"),
        Name::Letter => f.write_str("a letter"),
        Name::Lower => f.write_str("a lower-case letter"),
        Name::Upper => f.write_str("an upper-case letter"),
        Name::LowerHex => f.write_str("a lower-case hexadecimal digit"),
        Name::Digit => f.write_str("a digit"),
        Name::Byte(byte) => put_byte(byte, f),
        Name::End => f.write_str("the end"),
    }
}

/// Writes a byte as a word, between backquotes, or as its two hexadecimal digits.
fn put_byte<W: fmt::Write>(byte: u8, f: &mut fmt::Formatter<W>) -> fmt::Result
    ensures { WritesOnOk W.write_str_gives f.old result (byte_text byte) f.new }
{
    if byte == b' ' {
        return f.write_str("a space");
    }
    if byte == b'\t' {
        return f.write_str("a tab");
    }
    if byte == b'"' {
        return f.write_str("a quote");
    }
    if byte == b'`' {
        return f.write_str("a backquote");
    }
    if byte > b' ' && byte <= b'~' {
        f.write_str("`")?;
        put_char(byte, f)?;
        return f.write_str("`");
    }
    let hex = Hex { byte };
    write!(f, "0x{hex}")
}

/// Writes an ASCII character.
fn put_char<W: fmt::Write>(byte: u8, f: &mut fmt::Formatter<W>) -> fmt::Result
    requires { byte < 128 }
    ensures { WritesOnOk W.write_str_gives f.old result (byte ∷ []) f.new }
{
    let mut utf8 = [0; 4];
    f.write_str(char::from(byte).encode_utf8(&mut utf8))
}

/// The name at this index: the classes, the bytes from `!` on, and those below it.
fn name_at(place: u8) -> Name
    requires { place < 137 }
    ensures { result ≡ nth_name place }
{
    match place {
        0 => Name::Printable,
        1 => Name::Token,
        2 => Name::Base64,
        3 => Name::Key,
        4 => Name::Letter,
        5 => Name::Lower,
        6 => Name::Upper,
        7 => Name::LowerHex,
        8 => Name::Digit,
        _ => Name::Byte((place - 9 + b'!') % 128),
    }
}

/// The bytes below 128 of a name.
fn bytes_of(name: Name) -> u128
    ensures { result ≡ set_of name }
{
    match name {
        Name::Printable => VISIBLE,
        Name::Token => TOKEN,
        Name::Base64 => BASE64,
        Name::Key => KEY,
        Name::Letter => LETTERS,
        Name::Lower => LOWER,
        Name::Upper => UPPER,
        Name::LowerHex => LOWER_HEX,
        Name::Digit => DIGITS,
        Name::Byte(byte) if byte < 128 => 1 << byte,
        Name::Byte(_) => 0,
        Name::End => 0,
    }
}
