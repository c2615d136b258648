//! Lines that are joined in the caller's buffer, as far as they fit.
ghost use Rattle.std.specs.Prelude.{◌≡◌, ◌+◌, ◌≤◌, ◌++◌, ◌∷◌, length, take, true, IfSome, IfNone};
ghost use Rattle.std.specs.Option.{option_copied};
ghost use Rattle.sf_value.specs.Grammar.Lines.{join};
ghost use Rattle.sf_parse.specs.Parsers.{in_line};
ghost use Rattle.sf_field.specs.Lines.{remaining};

use crate::lines::FieldLines;

/// How far lines were joined in a buffer.
#[derive(Clone, Copy, Debug, Drop)]
pub(crate) struct Joined<'a> {
    /// The number of bytes of joined text at the start of the buffer.
    pub(crate) length: usize,
    /// The line after the joined ones; `None` if none is left.
    pub(crate) next: Option<&'a [u8]>,
}

/// At most this many lines are joined to the first, so that a long field that is refused early
/// isn't first joined to its end. Few fields have more lines.
const LINES: usize = 15;

/// Joins two lines and those that remain, in the buffer, as far as they fit. It joins at most 16,
/// and stops before an empty one that is not the first: unless that is within a String or a Display
/// String, the field is refused there.
pub(crate) fn join_prefix<'a, L: FieldLines<'a>>(
    buffer: &mut [u8],
    first: &[u8],
    second: &'a [u8],
    others: &mut L,
) -> Joined<'a>
    requires { length first.now ≤ length buffer.old }
    ensures within { result.length ≤ length buffer.new }
    // The text in the buffer and the lines after it have the joined text of all lines.
    ensures joins { join (take result.length buffer.new
        ∷ remaining (option_copied result.next) (L.lines others.new))
        ≡ join (first.now ∷ second.now ∷ L.lines others.old) }
{
    let mut length = put(buffer, 0, first);
    let mut next = second;
    for _ in 0..LINES {
        if next.is_empty() {
            break;
        }
        let Some(longer) = put_line(buffer, length, next) else {
            break;
        };
        length = longer;
        let Some(line) = others.next_line() else {
            return Joined { length, next: None };
        };
        next = line;
    }
    Joined {
        length,
        next: Some(next),
    }
}

/// Puts a comma, a space and the line after the first `used` bytes of the buffer, and returns the
/// number of bytes with them; `None` if the buffer is too small.
fn put_line(buffer: &mut [u8], used: usize, line: &[u8]) -> Option<usize>
    requires { used ≤ length buffer.old }
    ensures within { IfSome result (λ n. n ≤ length buffer.new) }
    ensures put { IfSome result
        (λ n. take n buffer.new ≡ take used buffer.old ++ in_line true line.now) }
    ensures unchanged { IfNone result (buffer.new ≡ buffer.old) }
{
    if buffer.len() - used < line.len() + 2 {
        return None;
    }
    let after_comma = put(buffer, used, b", ");
    Some(put(buffer, after_comma, line))
}

/// Puts bytes after the first `used` bytes of the buffer, and returns the number of bytes with
/// them.
fn put(buffer: &mut [u8], used: usize, bytes: &[u8]) -> usize
    requires { used + length bytes.now ≤ length buffer.old }
    ensures end { result ≡ used + length bytes.now }
    ensures put { take result buffer.new ≡ take used buffer.old ++ bytes.now }
{
    let end = used + bytes.len();
    buffer[used..end].copy_from_slice(bytes);
    end
}
