//! The lines of heads.
ghost use Rattle.std.specs.Prelude.{◌≡◌, ◌∷◌, ◌<◌, ◌≤◌, length, map, IfOk};
ghost use Rattle.std.specs.Str.Lines.{lines};
ghost use Rattle.sf_lint.specs.Head.{word_after, begins_with_protocol, is_start as is_start_in};
ghost use Rattle.sf_lint.specs.Head.{is_like_start as is_like_start_in, is_start_byte};
ghost use Rattle.sf_lint.specs.Head.{start_end as start_end_in, has_start_bytes as has_start_bytes_in};
ghost use Rattle.sf_lint.specs.Head.{is_named as is_named_in, is_status_line as is_status_line_in};
ghost use Rattle.sf_lint.specs.Head.{is_method as is_method_in, line_of};
ghost use Rattle.sf_tool.specs.Fields.{value_of as value_in};
ghost use Rattle.std.specs.List.{before_first};
ghost use Rattle.sf_value.specs.Grammar.Classes.{is_sp};

use http_header::{HeaderName, is_token_char};
use sf_tool::{header_name, split_at_first, split_line, trimmed};
use sf_value::{OutOfMemory, is_ows};
use std::alloc::Global;

/// What a line of an input is.
#[derive(Debug, Drop)]
pub enum Line {
    /// No byte: it is skipped.
    Empty,
    /// It begins with a space or a tab: obsolete line folding (RFC 9112 section 5.2).
    Folded,
    /// A status line or a request line (RFC 9112 sections 3 and 4), which begins a message.
    Start,
    /// A status line or a request line, but for a CR or NUL in it (RFC 9112 section 2.2).
    BadStart,
    /// A field line (RFC 9112 section 5), with its name in lower case.
    Field(HeaderName),
    /// None of these: there is no colon, or what is before the first one is not a header name.
    Nameless,
}

/// Returns what is before the first space, or the whole line if there is none.
pub(crate) fn first_word(line: &[u8]) -> &[u8]
    ensures { result.now ≡ before_first is_sp line.now }
{
    match split_at_first(line, b' ') {
        Some((word, _)) => word,
        None => line,
    }
}

/// Returns what is after the first space; nothing if there is no space.
pub(crate) fn after_word(line: &[u8]) -> &[u8]
    ensures { result.now ≡ word_after line.now }
{
    match split_at_first(line, b' ') {
        Some((_, rest)) => rest,
        None => &[],
    }
}

/// Returns whether the bytes begin with the name of the protocol.
fn has_protocol(bytes: &[u8]) -> bool
    ensures { result ≡ begins_with_protocol bytes.now }
{
    bytes.starts_with(b"HTTP/")
}

/// Returns whether the byte can be in a start line.
fn can_be_in_start(byte: u8) -> bool
    ensures { result ≡ is_start_byte byte }
{
    byte != b'\r' && byte != 0
}

/// Returns the place of the first byte that can't be in a start line, or the length of the line if
/// there is none.
pub(crate) fn start_end(line: &[u8]) -> usize
    ensures { result ≡ start_end_in line.now }
{
    let mut end = 0;
    while end < line.len() && can_be_in_start(line[end]) {
        end += 1;
    }
    end
}

/// Returns whether each byte of the line can be in a start line.
fn has_start_bytes(line: &[u8]) -> bool
    ensures { result ≡ has_start_bytes_in line.now }
{
    start_end(line) == line.len()
}

/// Returns whether the line is a status line.
pub(crate) fn is_status_line(line: &[u8]) -> bool
    ensures { result ≡ is_status_line_in line.now }
{
    has_protocol(line) && has_start_bytes(line)
}

/// Returns whether the word is a token, as a method is (RFC 9110 section 9.1).
fn is_method(word: &[u8]) -> bool
    ensures { result ≡ is_method_in word.now }
{
    !word.is_empty() && word.iter().all(|byte| is_token_char(*byte))
}

/// Returns whether the line is a status line or a request line, but for bytes that can't be in it.
/// Of a request line, the first word is a method, and the third is the version. So a field line such
/// as `a: b HTTP/1.1` is none, nor is a folded line such as ` a HTTP/1.1`.
fn is_like_start(line: &[u8]) -> bool
    ensures { result ≡ is_like_start_in line.now }
{
    has_protocol(line)
        || (is_method(first_word(line)) && has_protocol(after_word(after_word(line))))
}

/// Returns whether the line begins a message: whether it is a status line or a request line.
pub(crate) fn is_start(line: &[u8]) -> bool
    ensures { result ≡ is_start_in line.now }
{
    is_like_start(line) && has_start_bytes(line)
}

/// Returns whether the line has a colon, and this name before it in any case.
pub(crate) fn is_named(line: &[u8], name: &[u8]) -> bool
    ensures { result ≡ is_named_in name.now line.now }
{
    match split_at_first(line, b':') {
        Some((word, _)) => word.eq_ignore_ascii_case(name),
        None => false,
    }
}

/// Returns what is after the first colon, without the spaces and tabs at its ends; nothing if there
/// is no colon.
pub(crate) fn value_of(line: &[u8]) -> &[u8]
    ensures { result.now ≡ value_in line.now }
{
    match split_at_first(line, b':') {
        Some((_, rest)) => trimmed(rest),
        None => &[],
    }
}

/// Returns what a line is.
pub(crate) fn read_line(alloc: Global, line: &[u8]) -> Result<Line, OutOfMemory>
    ensures { IfOk result (λ read. read ≡ line_of line.now) }
{
    if line.is_empty() {
        return Ok(Line::Empty);
    }
    if is_ows(line[0]) {
        return Ok(Line::Folded);
    }
    if is_like_start(line) {
        if has_start_bytes(line) {
            return Ok(Line::Start);
        }
        return Ok(Line::BadStart);
    }
    let Some((word, _)) = split_at_first(line, b':') else {
        return Ok(Line::Nameless);
    };
    match header_name(alloc, word) {
        Some(name) => Ok(Line::Field(name?)),
        None => Ok(Line::Nameless),
    }
}

/// Returns the lines of an input, without their ends.
pub(crate) fn split_lines(alloc: Global, input: &[u8]) -> Result<Vec<&[u8]>, OutOfMemory>
    ensures { IfOk result (λ all. map (λ line. line.now) all.items ≡ lines input.now) }
{
    let mut all = Vec::new(alloc);
    let mut rest = input;
    while let Some((line, more)) = split_line(rest) {
        all.push(line)?;
        rest = more;
    }
    Ok(all)
}
