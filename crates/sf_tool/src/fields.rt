//! The listed fields of an input of field lines.
ghost use Rattle.std.specs.Prelude.{◌≡◌, ◌<◌, ◌^◌, true, length, map, MatchResult, IsTrue};
ghost use Rattle.sf_tool.specs.Fields.{IsTaken, AreFields, AreFieldsOf, IsFaultOf, is_refused};
ghost use Rattle.sf_tool.specs.Fields.{IsFaultOfLines};
ghost use Rattle.sf_tool.specs.OneLine.{IsLine, IsLineFault, AddsField};

use crate::cutting::{split_at_first, split_line, trimmed};
use crate::header_names::{header_name, is_listed};
use http_header::{HeaderMap, HeaderMapError, HeaderName, HeaderValue, HeaderValueError};
use sf_value::OutOfMemory;
use std::alloc::Global;
use std::hash::RandomState;

/// Why an input has no header map.
#[derive(Clone, Copy, Debug, PartialEq, Eq)]
pub enum InputFault {
    /// The line of this number is refused, and none before it. Lines are counted from 0, including
    /// empty ones.
    Line(u64),
    /// An allocation for a name, a value or the map failed.
    OutOfMemory,
}

/// What a line of an input is.
#[derive(Drop)]
enum FieldLine {
    /// An empty line, or a field whose name is not listed.
    Dropped,
    /// Not a field line, or one with a listed name whose value has a control byte other than a tab.
    Refused,
    /// A field with a listed name.
    Listed(HeaderName, HeaderValue),
}

/// Why a line was not taken.
#[derive(Clone, Copy)]
enum LineFault {
    Refused,
    OutOfMemory,
}

/// Returns what a line is. It is not trimmed here: with a space before the name it is refused. That
/// the name could not be allocated counts only for a field that is listed.
fn read_line(alloc: Global, targets: &[HeaderName], line: &[u8]) -> Result<FieldLine, OutOfMemory>
    // The line is refused, dropped, or a listed field with this name and value. Only in the last
    // case can the result be OutOfMemory.
    ensures { MatchResult result (IsLine targets.now line.now)
        (λ _. IsTaken targets.now line.now) }
{
    if line.is_empty() {
        return Ok(FieldLine::Dropped);
    }
    let Some((word, rest)) = split_at_first(line, b':') else {
        return Ok(FieldLine::Refused);
    };
    let Some(name) = header_name(alloc, word) else {
        return Ok(FieldLine::Refused);
    };
    if !is_listed(targets, word) {
        return Ok(FieldLine::Dropped);
    }
    match HeaderValue::from_bytes(alloc, trimmed(rest)) {
        Ok(value) => Ok(FieldLine::Listed(name?, value)),
        Err(HeaderValueError::Invalid) => Ok(FieldLine::Refused),
        Err(HeaderValueError::OutOfMemory) => Err(OutOfMemory),
    }
}

/// Returns whether a line is refused for what it is, and not because the map is full; false also if
/// an allocation failed.
pub(crate) fn is_bad_line(alloc: Global, targets: &[HeaderName], line: &[u8]) -> bool
    ensures { IsTrue result → is_refused targets.now line.now ≡ true }
{
    matches!(read_line(alloc, targets, line), Ok(FieldLine::Refused))
}

/// Adds the field of a line to the map, if its name is listed. The line is refused if the map is
/// full.
fn take_line(
    alloc: Global,
    targets: &[HeaderName],
    line: &[u8],
    headers: &mut HeaderMap,
) -> Result<(), LineFault>
    // The line's field, if listed, was added, or this is why it was not.
    ensures { MatchResult result (λ _. AddsField targets.now line.now headers.old headers.new)
        (IsLineFault targets.now line.now headers.old) }
{
    let read = match read_line(alloc, targets, line) {
        Ok(read) => read,
        Err(_) => return Err(LineFault::OutOfMemory),
    };
    match read {
        FieldLine::Dropped => Ok(()),
        FieldLine::Refused => Err(LineFault::Refused),
        FieldLine::Listed(name, value) => match headers.append(name, value) {
            Ok(_) => Ok(()),
            Err(HeaderMapError::MaxSizeReached) => Err(LineFault::Refused),
            Err(HeaderMapError::OutOfMemory) => Err(LineFault::OutOfMemory),
        },
    }
}

/// Returns the listed fields of an input, as a header map.
///
/// The input is split into lines as for the other commands, and empty lines are skipped. In each
/// other line, the name is what is before the first colon, and the value is what follows, without
/// the spaces and tabs at its ends (RFC 9112 section 5). A line is refused if it has no colon, if
/// what is before the colon is not a header name, or if the name is listed and the value has a
/// control byte other than a tab (RFC 9110 section 5.5). Fields with other names are dropped,
/// whatever their values. A map holds 24,576 names; a line whose name would be one more is refused.
pub(crate) fn read_fields(
    alloc: Global,
    seed: &RandomState,
    targets: &[HeaderName],
    input: &[u8],
) -> Result<HeaderMap, InputFault>
    // The listed fields if no line is refused, otherwise the first line that is; OutOfMemory only
    // for a listed field before it.
    ensures { MatchResult result (AreFields targets.now input.now)
        (IsFaultOf targets.now input.now) }
{
    let mut headers = HeaderMap::with_hasher(alloc, *seed);
    let mut rest = input;
    let mut number = 0u64;
    while let Some((line, more)) = split_line(rest) {
        match take_line(alloc, targets, trimmed(line), &mut headers) {
            Ok(()) => {}
            Err(LineFault::Refused) => return Err(InputFault::Line(number)),
            Err(LineFault::OutOfMemory) => return Err(InputFault::OutOfMemory),
        }
        number += 1;
        rest = more;
    }
    Ok(headers)
}

/// Returns the listed fields of these lines, as a header map. Fields with other names are dropped.
/// The error is the index of the first line that is refused, or `OutOfMemory` for a listed field
/// before it. A line that is not empty is refused if it is not a field line (RFC 9112 section 5),
/// also for a space before the name, or if it has a listed name and a value with a control byte
/// other than a tab (RFC 9110 section 5.5), or if its name would be one more than the 24,576 that a
/// map holds.
///
/// ```
/// let lines: [&[u8]; 2] = [b"CDN-Cache-Control: max-age=60", b"Server: x"];
/// read_field_lines(alloc, &seed, &[CDN_CACHE_CONTROL], &lines) // a map of one field
/// ```
pub fn read_field_lines(
    alloc: Global,
    seed: &RandomState,
    targets: &[HeaderName],
    lines: &[&[u8]],
) -> Result<HeaderMap, InputFault>
    requires { length lines.now < 2 ^ 63 }
    // The listed fields if no line is refused, otherwise the first line that is; OutOfMemory only
    // for a listed field before it.
    ensures { MatchResult result (AreFieldsOf targets.now (map (λ line. line.now) lines.now))
        (IsFaultOfLines targets.now (map (λ line. line.now) lines.now)) }
{
    let mut headers = HeaderMap::with_hasher(alloc, *seed);
    for (number, line) in lines.iter().enumerate() {
        match take_line(alloc, targets, line, &mut headers) {
            Ok(()) => {}
            Err(LineFault::Refused) => return Err(InputFault::Line(number as u64)),
            Err(LineFault::OutOfMemory) => return Err(InputFault::OutOfMemory),
        }
    }
    Ok(headers)
}
