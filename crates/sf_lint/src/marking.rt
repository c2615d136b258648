//! The place of a refusal of a field in an input.
ghost use Rattle.std.specs.Prelude.{◌≡◌, ◌+◌, ◌≤◌, ◌<◌, ◌^◌, length, map};
ghost use Rattle.sf_parse.specs.Spots.{line_place};
ghost use Rattle.sf_lint.specs.Marks.{offset_of as offset_in, mark_in};

use crate::head::{is_named, value_of};
use sf_parse::Spot;
use sf_tool::{split_at_first, without_lead};

/// Returns the number of bytes of the line before its value.
fn offset_of(line: &[u8]) -> usize
    ensures value { result ≡ offset_in line.now }
    ensures within { result ≤ length line.now + 1 }
{
    match split_at_first(line, b':') {
        Some((word, rest)) => word.len() + 1 + (rest.len() - without_lead(rest).len()),
        None => line.len() + 1,
    }
}

/// Returns the place in the lines of a place of the joined values of this name. The first line has
/// this number, and places are counted from 0. The comma and the space between two values belong to
/// the end of the first.
pub(crate) fn find_mark<'a>(
    name: &[u8],
    number: usize,
    lines: &[&'a [u8]],
    place: u64,
) -> Option<Spot<'a>>
    requires { number + length lines.now < 2 ^ 64 }
    ensures { line_place result ≡ mark_in number name.now (map (λ line. line.now) lines.now) place }
{
    let mut rest = place;
    let mut line = number;
    for text in lines {
        if is_named(text, name) {
            let length = value_of(text).len() as u64;
            if rest < length + 2 {
                let place = offset_of(text) + rest.min(length) as usize;
                return Some(Spot { line, place, text });
            }
            rest -= length + 2;
        }
        line += 1;
    }
    None
}
