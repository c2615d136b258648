//! What a terminal shows of a refusal: an error message, and the line that it is in.
ghost use Rattle.std.specs.Prelude.{◌≡◌, ◌≢◌, ◌≤◌, ◌↔◌, ◌+◌, ◌++◌, [], Some, true, length, get_or};
ghost use Rattle.std.specs.Prelude.{IfSome, IfOk, IsTrue, codes, decimal};
ghost use Rattle.sf_parse.specs.declared.refusal.Refusal.TheVariants as refusal_is;
ghost use Rattle.sf_parse.specs.Spots.{line_place, marked_text, place_in};
ghost use Rattle.sf_tool.specs.Explaining.{ExplainsBy, IsExplained, Shows};
ghost use Rattle.sf_tool.specs.Explaining.{bad_line_words, no_cache_words, refusal_words};
ghost use Rattle.sf_tool.specs.Explaining.{too_long_words};
ghost use Rattle.sf_tool.specs.Fields.{is_refused};
ghost use Rattle.sf_tool.specs.Lines.{lines_of as lines_in};
ghost use Rattle.sf_tool.specs.Marks.{bad_place as bad_place_in};
ghost use Rattle.sf_tool.specs.Run.{input_limit};

use crate::cutting::{split_line, trimmed};
use crate::fields::is_bad_line;
use crate::marking::{bad_place, caret_text, line_text};
use crate::refusing::put_number;
use crate::status::Status;
use http_header::HeaderName;
use sf_parse::{InLine, Refusal, Spot};
use sf_value::{OutOfMemory, Sink};
use sf_write::put;
use std::alloc::Global;

/// Standard error, or a device in its place, on which a refusal is explained if it is a terminal.
///
/// ```
/// let stderr = rt.stderr();
/// let is_terminal = stderr.is_terminal();
/// let mut errors = ErrorStream { device: Writing::new(stderr), is_terminal };
/// ```
#[derive(Debug, Drop)]
pub struct ErrorStream<E> {
    /// The device.
    pub device: E,
    /// Whether it is a terminal. Otherwise nothing is written to it.
    pub is_terminal: bool,
}

impl<E> ErrorStream<E> {
    /// Returns whether a run with this status is explained: its input was refused, and the device
    /// is a terminal.
    pub(crate) fn explains(&self, status: Status) -> bool
        ensures { IsTrue result ↔ IsExplained self.now.is_terminal status }
    {
        self.is_terminal && matches!(status, Status::Refused)
    }
}

/// Writes a text. A failure of that is not reported.
pub(crate) fn show<E: Sink>(text: &[u8], device: &mut E)
    ensures { Shows text.now (E.state device.old) (E.state device.new) }
{
    let _ = put(text, Ok(0), device);
}

/// Explains that an input is longer than this limit, if a run with this status is explained. Does
/// not allocate.
pub(crate) fn explain_too_long<E: Sink>(limit: u64, status: Status, errors: &mut ErrorStream<E>)
    ensures { ExplainsBy errors.old.is_terminal status (too_long_words limit)
        (E.state errors.old.device) (E.state errors.new.device) }
{
    if errors.explains(status) {
        let sent = put(b"more than ", Ok(0), &mut errors.device);
        let sent = put_number(limit, sent, &mut errors.device);
        let _ = put(b" bytes\n", sent, &mut errors.device);
    }
}

/// Returns the spot in the input's lines of a place of their joined text; None if there is no line.
/// The comma and the space between two lines belong to the end of the first.
fn find_spot<'a>(input: &'a [u8], place: u64) -> Option<Spot<'a>>
    requires { length input.now ≤ input_limit }
    // The first line is line 1.
    ensures { line_place result ≡ place_in 1 (lines_in input.now) place }
{
    let mut left = input;
    let mut line = 1usize;
    let mut rest = place;
    while let Some((first, more)) = split_line(left) {
        let text = trimmed(first);
        let length = text.len() as u64;
        if more.is_empty() || rest.saturating_sub(length) < 2 {
            let place = rest.min(length) as usize;
            return Some(Spot { line, place, text });
        }
        rest = rest - length - 2;
        line += 1;
        left = more;
    }
    None
}

/// Returns the error message of the refusal with its line; None if an allocation failed, now or for
/// the refusal.
pub(crate) fn refusal_in_words(alloc: Global, refusal: Refusal, input: &[u8]) -> Option<Vec<u8>>
    requires { length input.now ≤ input_limit }
    ensures { IfSome result (λ text. (refusal ≢ refusal_is.OutOfMemory)
        × (text.items ≡ refusal_words refusal (lines_in input.now))) }
{
    let spot = match refusal {
        Refusal::Syntax { place, .. } => find_spot(input, place),
        Refusal::OutOfMemory => return None,
        Refusal::TooLong { .. } | Refusal::ReadFault { .. } => None,
    };
    let shown = InLine { refusal, spot };
    let text = format!(in alloc; "{shown}\n").ok()?;
    Some(text.into_bytes())
}

/// Returns the place at which the input's line of this number, from 0, is no field line; None if
/// there is no such line.
fn bad_spot<'a>(input: &'a [u8], number: u64) -> Option<Spot<'a>>
    requires { length input.now ≤ input_limit }
    // The line is counted from 1 in the spot.
    ensures { IfSome result (λ spot. (spot.line ≡ number + 1)
        × (spot.place ≡ bad_place_in spot.text.now)
        × (spot.text.now ≡ get_or (lines_in input.now) number [])) }
{
    let mut left = input;
    let mut line = 1usize;
    let mut before = number;
    while let Some((first, more)) = split_line(left) {
        if before == 0 {
            let text = trimmed(first);
            let place = bad_place(text);
            return Some(Spot { line, place, text });
        }
        before -= 1;
        line += 1;
        left = more;
    }
    None
}

/// Returns the message for a line that is no field line, up to the line itself.
fn bad_line_start(alloc: Global, line: usize, place: usize) -> Result<Vec<u8>, OutOfMemory>
    ensures { IfOk result (λ text. text.items ≡ codes "not a field line\nline "
        ++ (decimal line ++ (codes ", place " ++ (decimal place ++ codes ":\n")))) }
{
    let text = format!(in alloc; "not a field line\nline {line}, place {place}:\n")?;
    Ok(text.into_bytes())
}

/// Returns the message for a line that is no field line at this spot, with the line.
fn bad_line(alloc: Global, spot: Spot<'_>) -> Result<Vec<u8>, OutOfMemory>
    ensures { IfOk result (λ text. text.items ≡ codes "not a field line"
        ++ (marked_text (line_place (Some spot.entry)) ++ codes "\n")) }
{
    let mut text = bad_line_start(alloc, spot.line, spot.place)?;
    let shown = line_text(alloc, spot.text)?;
    let caret = caret_text(alloc, spot.place)?;
    text.extend_from_slice(shown.as_slice())?;
    text.extend_from_slice(caret.as_slice())?;
    Ok(text)
}

/// Returns the message for the input's line of this number, from 0, if it is refused for what it
/// is, and not because the header map is full; None if it is not, or if an allocation failed.
pub(crate) fn bad_line_in_words(
    alloc: Global,
    targets: &[HeaderName],
    number: u64,
    input: &[u8],
) -> Option<Vec<u8>>
    requires { length input.now ≤ input_limit }
    ensures { IfSome result (λ text.
        (is_refused targets.now (get_or (lines_in input.now) number []) ≡ true)
        × (text.items ≡ bad_line_words number (get_or (lines_in input.now) number []))) }
{
    let spot = bad_spot(input, number)?;
    if !is_bad_line(alloc, targets, spot.text) {
        return None;
    }
    bad_line(alloc, spot).ok()
}

/// Returns the message for the member at this index, which names no cache; None if an allocation
/// failed.
pub(crate) fn no_cache_in_words(alloc: Global, index: usize) -> Option<Vec<u8>>
    ensures { IfSome result (λ text. text.items ≡ no_cache_words index) }
{
    let text = format!(in alloc; "member {index} names no cache\n").ok()?;
    Some(text.into_bytes())
}
