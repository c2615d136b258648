//! The lines of an input, read one by one before a field is built, and their joined text.
ghost use Rattle.std.specs.Prelude.{◌≡◌, ◌≢◌, ◌++◌, ◌≤◌, length, IfNone, IfOk, IfSome, IsTrue};
ghost use Rattle.sf_value.specs.declared.value.Field.{Field};
ghost use Rattle.sf_value.specs.declared.value.Kind.TheVariants as kind_is;
ghost use Rattle.sf_parse.specs.Parsers.{IsOnly};
ghost use Rattle.sf_tool.specs.Run.{joined, input_limit};
ghost use Rattle.sf_tool.specs.Scanning.{SpellsMembers, StopsAt, AcceptedOrRefused};

use crate::cutting::{InputLines, split_line, trimmed};
use sf_field::{append_line, parse_from};
use sf_parse::Refusal;
use sf_value::{Dialect, Kind, OutOfMemory, is_ows};
use sf_view::accepts;
use std::alloc::Global;
use std::hash::RandomState;

/// Returns the joined text of an input of at most one line, which is a part of it; `None` if it has
/// more lines.
pub(crate) fn only_line(input: &[u8]) -> Option<&[u8]>
    ensures { IfSome result (λ line. line.now ≡ joined input.now) }
{
    let Some((line, more)) = split_line(input) else {
        return Some(&[]);
    };
    if more.is_empty() {
        Some(trimmed(line))
    } else {
        None
    }
}

/// Returns the joined text of an input's lines. A line feed becomes a comma and a space, so the
/// text is at most twice as long as the input.
pub(crate) fn join_lines(alloc: Global, input: &[u8]) -> Result<Vec<u8>, OutOfMemory>
    ensures { IfOk result (λ text. text.items ≡ joined input.now) }
{
    let mut text = Vec::with_capacity(alloc, input.len().saturating_mul(2))?;
    let mut after_line = false;
    let mut rest = input;
    while let Some((line, more)) = split_line(rest) {
        append_line(&mut text, after_line, trimmed(line))?;
        after_line = true;
        rest = more;
    }
    Ok(text)
}

/// Where the lines of an input are no longer accepted one by one.
#[derive(Clone, Copy, Drop)]
pub(crate) struct Stop<'a> {
    /// The input from the first line on that has no member or is not accepted by itself; all of it
    /// for an Item. That line need not be malformed: the lines after it may complete it.
    rest: &'a [u8],
    /// How many bytes of the joined text come before this line: 0 if it is the first one.
    place: usize,
}

/// Returns where the lines of an input stop being accepted one by one; `None` if all are, and they
/// are accepted as one field of the kind. Nothing after the line at which they stop is read.
pub(crate) fn first_stop(dialect: Dialect, kind: Kind, input: &[u8]) -> Option<Stop>
    requires { length input.now ≤ input_limit }
    // The joined text spells a field of the kind, and no other.
    ensures accepted { IfNone result ((v : Field) × IsOnly dialect kind (joined input.now) v) }
    ensures stopped { IfSome result
        (λ stop. StopsAt dialect kind input.now stop.rest.now stop.place) }
{
    let mut rest = input;
    let mut place = 0;
    if matches!(kind, Kind::Item) {
        return Some(Stop { rest, place });
    }
    while let Some((line, more)) = split_line(rest) {
        let text = trimmed(line);
        if !has_members(dialect, kind, text) {
            return Some(Stop { rest, place });
        }
        place += text.len() + 2;
        rest = more;
    }
    None
}

/// Whether the text of a List or a Dictionary has a member; `false` claims nothing. An accepted
/// text without one is empty or has only white space.
fn has_members(dialect: Dialect, kind: Kind, text: &[u8]) -> bool
    requires { kind ≢ kind_is.Item }
    ensures { IsTrue result → SpellsMembers dialect kind text.now }
{
    match text {
        [first, ..] => !is_ows(*first) && accepts(dialect, kind, text),
        [] => false,
    }
}

/// A List or a Dictionary of one member.
const MEMBER: &[u8] = b"a";

/// The length of this member with the comma and the space after it.
const MEMBER_LENGTH: u64 = 3;

/// Parses the lines from where a scan stopped, after one member in place of the lines before, since
/// what may come after a comma does not depend on the members before it. No line after a refused
/// one is read. The place of a refusal is that in the joined text of all lines. `None` claims
/// nothing: the scan stopped at the first line, or an allocation failed.
pub(crate) fn parse_from_stop(
    alloc: Global,
    seed: &RandomState,
    dialect: Dialect,
    kind: Kind,
    input: &[u8],
    stop: Stop,
) -> Option<Result<(), Refusal>>
    requires short { length input.now ≤ input_limit }
    requires stopped { StopsAt dialect kind input.now stop.rest.now stop.place }
    ensures { IfSome result (AcceptedOrRefused dialect kind (joined input.now)) }
{
    if stop.place == 0 {
        return None;
    }
    let lines = InputLines::after(MEMBER, stop.rest);
    match parse_from(alloc, seed, dialect, kind, lines) {
        Ok(field) => {
            drop(field);
            return Some(Ok(()));
        }
        Err(
            Refusal::Syntax {
                place,
                found,
                expected,
                may_end,
            },
        ) => {
            return Some(Err(Refusal::Syntax {
                place: stop.place as u64 + place - MEMBER_LENGTH,
                found,
                expected,
                may_end,
            }));
        }
        Err(_) => return None,
    }
}
