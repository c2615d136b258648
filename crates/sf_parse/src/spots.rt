//! The place of a refusal in the lines of a field.
ghost use Rattle.std.specs.Prelude.{◌≡◌, [], ◌∷◌, Some, replicate};
ghost use Rattle.std.specs.Char.{encode_utf8};
ghost use Rattle.sf_value.specs.Ascii.{space};
ghost use Rattle.sf_parse.specs.Spots.{stands_at, place_in, line_place};
ghost use Rattle.sf_parse.specs.Spots.{printed_byte, printed, in_line_text};

use crate::refusal::Refusal;
use sf_value::{Blob, is_visible};
use std::fmt;

/// A place in a field line. A text that is not in lines counts as one line.
#[derive(Clone, Copy, Debug, Drop)]
pub struct Spot<'a> {
    /// The number of the line in the field, from 1.
    pub line: usize,
    /// The offset in the line: from 0 to the length of the line.
    pub place: usize,
    /// The line itself.
    pub text: &'a [u8],
}

/// A refusal and the field line that it is in, printed together: the error message, the number of
/// the line and the place in it, the line, and a caret under that place. Each byte of the line is
/// one character, a question mark if it is not printable.
///
/// ```
/// println!(rt; "{}", refusal.in_text(b"1 2"))?;
/// // byte 0x32 '2' at place 2, expected a space or the end
/// // line 1, place 2:
/// // 1 2
/// //   ^
/// ```
#[derive(Clone, Copy, Debug, Drop)]
pub struct InLine<'a> {
    /// Why the text was refused.
    pub refusal: Refusal,
    /// The place in the lines. None if the refusal is not Syntax, or there is no line: then only
    /// the message is printed.
    pub spot: Option<Spot<'a>>,
}

impl Refusal {
    /// The refusal with the line that it is in, of the lines that were refused. The lines are
    /// joined by a comma and a space (RFC 9651 section 4.2), and a place at one of these belongs to
    /// the end of the line before them, as a place after the last line belongs to its end. It does
    /// not allocate, nor does printing it.
    ///
    /// ```
    /// if let Err(refusal) = parse_lines(alloc, &seed, Kind::List, &lines) {
    ///     println!(rt; "{}", refusal.in_lines(&lines))?;
    /// }
    /// ```
    pub fn in_lines<'a>(&self, lines: &'a [Blob]) -> InLine<'a>
        ensures refusal { result.refusal ≡ self.now }
        // The spot is the place of the refusal in the lines.
        ensures spot { line_place result.spot ≡ stands_at self.now lines.now }
    {
        let spot = match *self {
            Refusal::Syntax { place, .. } => find_spot(lines, place),
            _ => None,
        };
        InLine {
            refusal: *self,
            spot,
        }
    }

    /// The refusal in the text that was refused, as [`Refusal::in_lines`] for one line.
    ///
    /// ```
    /// if let Err(refusal) = parse_text(alloc, &seed, Kind::Item, text) {
    ///     println!(rt; "{}", refusal.in_text(text))?;
    /// }
    /// ```
    pub fn in_text<'a>(&self, text: &'a [u8]) -> InLine<'a>
        ensures refusal { result.refusal ≡ self.now }
        // The spot is the place of the refusal in the text as the only line.
        ensures spot { line_place result.spot ≡ stands_at self.now (text.now ∷ []) }
    {
        let spot = match *self {
            Refusal::Syntax { place, .. } => Some(Spot {
                line: 1,
                place: place.min(text.len() as u64) as usize,
                text,
            }),
            _ => None,
        };
        InLine {
            refusal: *self,
            spot,
        }
    }
}

/// A line, printed as one character for each of its bytes.
#[derive(Clone, Copy, Drop)]
struct Printed<'a> {
    text: &'a [u8],
}

impl fmt::Display for Printed<'_> {
    ghost output = { λ line. Some (printed line.text.now) };

    fn fmt<W: fmt::Write>(&self, f: &mut fmt::Formatter<W>) -> fmt::Result {
        for byte in self.text {
            let character = printed_char(*byte);
            write!(f, "{character}")?;
        }
        Ok(())
    }
}

/// Printed as this many spaces.
#[derive(Clone, Copy, Drop)]
struct Spaces {
    count: usize,
}

impl fmt::Display for Spaces {
    ghost output = { λ spaces. Some (replicate spaces.count space) };

    fn fmt<W: fmt::Write>(&self, f: &mut fmt::Formatter<W>) -> fmt::Result {
        for _i in 0..self.count {
            write!(f, " ")?;
        }
        Ok(())
    }
}

impl fmt::Display for InLine<'_> {
    ghost output = { λ shown. Some (in_line_text shown) };

    fn fmt<W: fmt::Write>(&self, f: &mut fmt::Formatter<W>) -> fmt::Result {
        let refusal = self.refusal;
        write!(f, "{refusal}")?;
        if let Some(Spot { line, place, text }) = self.spot {
            let text = Printed { text };
            let spaces = Spaces { count: place };
            write!(f, "\nline {line}, place {place}:\n{text}\n{spaces}^")?;
        }
        Ok(())
    }
}

/// The spot of a place of the joined text, from 0; None if there is no line.
fn find_spot<'a>(lines: &'a [Blob], place: u64) -> Option<Spot<'a>>
    // It is the spot of the place in the lines, of which the first is line 1.
    ensures { line_place result ≡ place_in 1 lines.now place }
{
    let mut left = lines;
    let mut line = 1usize;
    let mut rest = place;
    while let Some((first, more)) = left.split_first() {
        let text = first.as_bytes();
        let length = text.len() as u64;
        if more.is_empty() || rest.saturating_sub(length) < 2 {
            let place = rest.min(length) as usize;
            return Some(Spot { line, place, text });
        }
        rest = rest - length - 2;
        line += 1;
        left = more;
    }
    None
}

/// The character that is printed for a byte of a line.
fn printed_char(byte: u8) -> char
    ensures { encode_utf8 result ≡ printed_byte byte ∷ [] }
{
    if is_visible(byte) {
        char::from(byte)
    } else {
        '?'
    }
}
