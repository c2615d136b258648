//! The age of a response that its `Age` states (RFC 9111 section 5.1).
ghost use Rattle.std.specs.Prelude.{◌≡◌, codes};
ghost use Rattle.std.specs.List.{before_first};
ghost use Rattle.sf_field.specs.Headers.{lines_under};
ghost use Rattle.sf_use.specs.CacheControl.{delta_seconds as delta_seconds_in};
ghost use Rattle.sf_lint.specs.Ages.{age_of_line as age_of_line_in, age_of_lines, first_member as first_member_in};

use http_header::{AGE, HeaderMap};
use sf_field::FieldLines;
use sf_tool::{split_at_first, trimmed};
use sf_use::GREATEST_SECONDS;

/// Returns the number of seconds that digits show, at most 2^31 (RFC 9111 section 1.2.2); None for
/// another text.
pub(crate) fn delta_seconds(text: &[u8]) -> Option<u64>
    ensures { result ≡ delta_seconds_in text.now }
{
    if text.is_empty() {
        return None;
    }
    let mut seconds = 0u64;
    for byte in text {
        if !byte.is_ascii_digit() {
            return None;
        }
        let digit = u64::from(*byte - b'0');
        seconds = (10 * seconds + digit).min(GREATEST_SECONDS);
    }
    Some(seconds)
}

/// Returns the first member of a list.
fn first_member(line: &[u8]) -> &[u8]
    ensures { result.now ≡ first_member_in line.now }
{
    match split_at_first(line, b',') {
        Some((member, _)) => trimmed(member),
        None => trimmed(line),
    }
}

/// Returns the age that a line of `Age` states, in seconds; 0 if it states none.
fn age_of_line(line: &[u8]) -> u64
    ensures { result ≡ age_of_line_in line.now }
{
    delta_seconds(first_member(line)).unwrap_or(0)
}

/// Returns the age that the first of the lines of `Age` states, in seconds.
fn first_age<'a, L: FieldLines<'a>>(lines: L) -> u64
    ensures { result ≡ age_of_lines (L.lines lines) }
{
    let mut lines = lines;
    match lines.next_line() {
        Some(line) => age_of_line(line),
        None => 0,
    }
}

/// Returns the age that `Age` states, in seconds: that of its first member, "discarding subsequent
/// ones". It is 0 without the field, and if that is "something other than a non-negative integer"
/// (RFC 9111 section 5.1).
pub(crate) fn age_of(headers: &HeaderMap) -> u64
    ensures { result ≡ age_of_lines (lines_under headers.now (codes "age")) }
{
    first_age(headers.get_all(&AGE).iter())
}
