//! The field lines of an input.
ghost use Rattle.std.specs.Prelude.{◌≡◌, ◌<◌, ◌≤◌, ◌+◌, [], ◌∷◌, length, ◌==◌};
ghost use Rattle.std.specs.Prelude.{MatchOption, IfSome};
ghost use Rattle.std.specs.List.{position_or_len, before_first, after_first};
ghost use Rattle.std.specs.Str.Lines.{lines, strip_carriage_return};
ghost use Rattle.sf_tool.specs.Lines.{without_lead as all_but_lead, trim};
ghost use Rattle.sf_tool.specs.Lines.{without_trail as all_but_trail, lines_of as lines_in};

use memchr::memchr;
use sf_field::{AskingCost, FieldLines};
use sf_value::is_ows;
use std::marker::Model;

/// Returns the bytes without the spaces and tabs at their beginning. Does not allocate.
pub fn without_lead(bytes: &[u8]) -> &[u8]
    ensures { result.now ≡ all_but_lead bytes.now }
{
    let mut start = 0;
    while start < bytes.len() && is_ows(bytes[start]) {
        start += 1;
    }
    &bytes[start..]
}

/// Returns the bytes without the spaces and tabs at their end.
fn without_trail(bytes: &[u8]) -> &[u8]
    ensures { result.now ≡ all_but_trail bytes.now }
{
    let mut end = bytes.len();
    while end > 0 && is_ows(bytes[end - 1]) {
        end -= 1;
    }
    &bytes[..end]
}

/// Returns the bytes without the spaces and tabs at both ends. Does not allocate.
pub fn trimmed(bytes: &[u8]) -> &[u8]
    ensures { result.now ≡ trim bytes.now }
{
    without_trail(without_lead(bytes))
}

/// Returns the line without a carriage return at its end.
fn without_return(line: &[u8]) -> &[u8]
    ensures { result.now ≡ strip_carriage_return line.now }
{
    let n = line.len();
    if n > 0 && line[n - 1] == b'\r' {
        &line[..n - 1]
    } else {
        line
    }
}

/// Splits the bytes at the first separator, which is left out; None if there is none. Does not
/// allocate.
///
/// ```
/// split_at_first(b"a:b:c", b':') // Some((b"a", b"b:c"))
/// ```
pub fn split_at_first(bytes: &[u8], separator: u8) -> Option<(&[u8], &[u8])>
    // None if the separator does not occur; otherwise what is before its first place, and after it.
    ensures { MatchOption result (position_or_len (λ b. b == separator) bytes.now ≡ length
        bytes.now)
        (λ p. (position_or_len (λ b. b == separator) bytes.now < length bytes.now)
        × (p.0.now ≡ before_first (λ b. b == separator) bytes.now)
        × (p.1.now ≡ after_first (λ b. b == separator) bytes.now)) }
{
    match memchr(separator, bytes) {
        Some(at) => Some((&bytes[..at], &bytes[at + 1..])),
        None => None,
    }
}

/// Returns the first line and what follows it, or None if the input is empty. The line is without
/// its line feed and a carriage return directly before that. Does not allocate.
///
/// ```
/// split_line(b"a\r\nb\n") // Some((b"a", b"b\n"))
/// ```
pub fn split_line(input: &[u8]) -> Option<(&[u8], &[u8])>
    ensures lines { MatchOption result (lines input.now ≡ [])
        (λ p. lines input.now ≡ p.0.now ∷ lines p.1.now) }
    // What follows is shorter than the input, so a loop over the lines ends.
    ensures shorter { IfSome result (λ p. length p.1.now < length input.now) }
    ensures within { IfSome result (λ p. length p.0.now + length p.1.now ≤ length input.now) }
{
    if input.is_empty() {
        return None;
    }
    match split_at_first(input, b'\n') {
        Some((line, rest)) => Some((without_return(line), rest)),
        None => Some((input, &[])),
    }
}

/// The field lines of an input, without a copy. The input is split at each line feed; what follows
/// the last line feed is a line unless it is empty. A carriage return directly before a line feed
/// is dropped, and then the spaces and tabs at both ends of each line.
#[derive(Drop)]
pub(crate) struct InputLines<'a> {
    /// A line that comes before those of the input, until it is asked for. It is not trimmed.
    first: Option<&'a [u8]>,
    rest: &'a [u8],
}

impl<'a> Model for InputLines<'a> {
    ghost use Rattle.std.specs.Prelude.{List, ℕ};
    ghost use Rattle.std.specs.Option.{option_copied};
    ghost use Rattle.sf_tool.specs.Lines.{lines_after};

    ghost Value = { List (List ℕ) };

    ghost view = { λ l. lines_after (option_copied l.first) l.rest.now };
}

impl<'a> InputLines<'a> {
    /// Returns the lines of this input.
    pub(crate) fn new(input: &'a [u8]) -> InputLines<'a>
        ensures { result ≡ lines_in input.now }
    {
        InputLines {
            first: None,
            rest: input,
        }
    }

    /// Returns this line, and then the lines of this input.
    pub(crate) fn after(line: &'a [u8], input: &'a [u8]) -> InputLines<'a>
        ensures { result ≡ line.now ∷ lines_in input.now }
    {
        InputLines {
            first: Some(line),
            rest: input,
        }
    }
}

/// The length of an input up to which its lines may be cut ahead.
const SHORT_INPUT: usize = 1024;

/// Cutting off a line takes time in proportion to its length, and a line after a refused one is cut
/// for nothing. So asking counts as free only if the input is short or has one line.
impl<'a> AskingCost for InputLines<'a> {
    fn asking_is_free(&self) -> bool {
        self.rest.len() <= SHORT_INPUT || is_one_line(self.rest)
    }
}

/// Whether the input has at most one line.
fn is_one_line(input: &[u8]) -> bool {
    match split_line(input) {
        Some((_, more)) => more.is_empty(),
        None => true,
    }
}

impl<'a> FieldLines<'a> for InputLines<'a> {
    ghost lines = { λ lines. lines };

    fn next_line(&mut self) -> Option<&'a [u8]> {
        if let Some(line) = self.first {
            self.first = None;
            return Some(line);
        }
        let (line, rest) = split_line(self.rest)?;
        self.rest = rest;
        Some(trimmed(line))
    }
}
