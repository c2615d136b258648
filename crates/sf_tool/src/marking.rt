//! The place at which a line is no field line, and the line with a caret under it.
ghost use Rattle.std.specs.Prelude.{◌≡◌, ◌++◌, IfOk, codes, replicate};
ghost use Rattle.std.specs.List.{prefix_len};
ghost use Rattle.sf_parse.specs.Spots.{printed as printed_in};
ghost use Rattle.sf_value.specs.Ascii.{space};
ghost use Rattle.sf_value.specs.Grammar.Classes.{is_tchar};
ghost use Rattle.sf_tool.specs.Marks.{name_end as name_end_in, is_line_byte, bad_place as bad_place_in};

use http_header::is_token_char;
use sf_value::{OutOfMemory, is_visible};
use std::alloc::Global;

/// Returns whether the byte can be in a field name.
fn can_be_in_name(byte: u8) -> bool
    ensures { result ≡ is_tchar byte }
{
    is_token_char(byte)
}

/// Returns the place of the first byte that can't be in a field name (RFC 9110 section 5.1), or the
/// length of the line if there is none. Does not allocate.
pub fn name_end(line: &[u8]) -> usize
    ensures { result ≡ name_end_in line.now }
{
    let mut end = 0;
    while end < line.len() && can_be_in_name(line[end]) {
        end += 1;
    }
    end
}

/// Returns whether the byte can be in a field line (RFC 9110 section 5.5): a tab, or one that is no
/// control byte.
fn can_be_in_line(byte: u8) -> bool
    ensures { result ≡ is_line_byte byte }
{
    byte == b'\t' || (byte >= b' ' && byte != 0x7f)
}

/// Returns the place of the first byte that can't be in a field line, or the length of the line if
/// there is none.
fn line_end(line: &[u8]) -> usize
    ensures { result ≡ prefix_len is_line_byte line.now }
{
    let mut end = 0;
    while end < line.len() && can_be_in_line(line[end]) {
        end += 1;
    }
    end
}

/// Returns the place at which a line is no field line: the first byte that can't be in a field name
/// or, if that is the colon after a name, the first that can't be in a field line.
pub(crate) fn bad_place(line: &[u8]) -> usize
    ensures { result ≡ bad_place_in line.now }
{
    let end = name_end(line);
    if end > 0 && end < line.len() && line[end] == b':' {
        return line_end(line);
    }
    end
}

/// Returns a line and a line feed, with a question mark for each byte that is not printable ASCII.
pub fn line_text(alloc: Global, line: &[u8]) -> Result<Vec<u8>, OutOfMemory>
    ensures { IfOk result (λ text. text.items ≡ printed_in line.now ++ codes "\n") }
{
    let mut text = Vec::new(alloc);
    for byte in line {
        text.push(if is_visible(*byte) { *byte } else { b'?' })?;
    }
    text.push(b'\n')?;
    Ok(text)
}

/// Returns the line that is shown below another one: a caret under the byte at this place, and a
/// line feed.
pub fn caret_text(alloc: Global, place: usize) -> Result<Vec<u8>, OutOfMemory>
    ensures { IfOk result (λ text. text.items ≡ replicate place space ++ codes "^\n") }
{
    let mut text = vec![in alloc; b' '; place]?;
    text.extend_from_slice(b"^\n")?;
    Ok(text)
}
