//! Field lines.
ghost use Rattle.std.specs.Prelude.{◌≡◌, ℕ, List, [], ◌∷◌, ◌++◌, false, map, Err, IfOk};
ghost use Rattle.std.specs.Prelude.{MatchOption, MatchResult};
ghost use Rattle.std.specs.Slice.Iter.{iter_rest};
ghost use Rattle.sf_value.specs.Grammar.Lines.{join};
ghost use Rattle.sf_value.specs.declared.dialect.Dialect.TheVariants.{Rfc9651};
ghost use Rattle.sf_parse.specs.Parsers.{Feeds, in_line};
ghost use Rattle.sf_parse.specs.AllocationFree.{TakesNoMemory};
ghost use Rattle.sf_parse.specs.AllocationFreeParsers.{IsAllocationFree, KeepsAllocationFree};
ghost use Rattle.sf_parse.specs.AllocationFreeParsers.{NotForMemory};
ghost use Rattle.sf_field.specs.Lines.{ParsesLines};
ghost use Rattle.sf_field.specs.Normal.{NormalisesTo};

use sf_parse::{Parser, Refusal, parse_text_in};
use sf_value::{Blob, Dialect, Field, Kind, OutOfMemory};
use sf_view::normalise;
use std::alloc::Global;
use std::hash::RandomState;
use std::slice;

/// What it costs to ask a source of field lines for the next one.
///
/// ```
/// impl AskingCost for Decoded {} // a line is decoded when it is asked for
/// ```
pub trait AskingCost {
    /// Returns whether asking for a line costs nothing, so that lines may be asked for ahead of
    /// those that are parsed. It is false unless a source has its own implementation. A source of
    /// lines that are in memory may return true, as the iterators of this library do.
    ///
    /// ```
    /// lines.iter().asking_is_free() // true for a slice of Blobs
    /// ```
    fn asking_is_free(&self) -> bool {
        false
    }
}

/// The lines of one field, returned one by one, in order.
///
/// Contracts see its `lines`: those that remain. Implemented by iterators over [`Blob`]s and over
/// byte slices, and by a header map's iterator over the values of a name.
///
/// A call that takes lines asks for the first one, and once a line was parsed for the next one.
/// After a refusal it asks for no more. Only if asking is free ([`AskingCost::asking_is_free`]),
/// lines are asked for ahead: [`parse_from`] asks for two before it parses the first, and
/// [`crate::ask_from`] for at most 17, but for none after an empty line that is not the first.
///
/// ```
/// let lines: [&[u8]; 2] = [b"a, b", b"c"];
/// let list = parse_from(alloc, &seed, Dialect::Rfc9651, Kind::List, lines.iter())?;
/// ```
pub trait FieldLines<'a>: AskingCost + Drop {
    // The lines that remain, in order.
    ghost lines: { Self → List (List ℕ) };

    /// Returns the next line, or None if no line remains.
    fn next_line(&mut self) -> Option<&'a [u8]>
        // None if no line remains; otherwise the first of them, and the others remain.
        ensures { MatchOption result (lines self.old ≡ [])
            (λ line. lines self.old ≡ line.now ∷ lines self.new) };
}

/// Blobs are in memory.
impl<'a> AskingCost for slice::Iter<'a, Blob> {
    fn asking_is_free(&self) -> bool {
        true
    }
}

/// Blobs are field lines.
impl<'a> FieldLines<'a> for slice::Iter<'a, Blob> {
    ghost lines = { iter_rest };

    fn next_line(&mut self) -> Option<&'a [u8]> {
        let blob = self.next()?;
        Some(blob.as_bytes())
    }
}

/// Byte slices are in memory.
impl<'a> AskingCost for slice::Iter<'a, &'a [u8]> {
    fn asking_is_free(&self) -> bool {
        true
    }
}

/// Byte slices are field lines.
impl<'a> FieldLines<'a> for slice::Iter<'a, &'a [u8]> {
    ghost lines = { λ slices. map (λ line. line.now) (iter_rest slices) };

    fn next_line(&mut self) -> Option<&'a [u8]> {
        let line = self.next()?;
        Some(*line)
    }
}

/// Parses lines in a dialect, as one text joined by a comma and a space, from any type that has
/// them. The place of a refusal is an offset in the joined text. The error is TooLong only if that
/// text has 2^64 bytes or more, and never ReadFault. Parsing does not allocate if
/// [`sf_parse::parse_text`] does not for the joined text. [`FieldLines`] says when a line is asked
/// for.
///
/// ```
/// let vary = HeaderName::from_static("vary");
/// let values = headers.get_all(&vary).iter();
/// let list = parse_from(alloc, &seed, Dialect::Rfc8941, Kind::List, values)?;
/// ```
pub fn parse_from<'a, L: FieldLines<'a>>(
    alloc: Global,
    seed: &RandomState,
    dialect: Dialect,
    kind: Kind,
    lines: L,
) -> Result<Field, Refusal>
    // The joined lines spell this value and no other, or this is their exact refusal, or an
    // allocation failed.
    ensures parses { ParsesLines dialect kind (L.lines lines) result }
    // Lines whose joined text is allocation-free are not refused as out of memory.
    ensures allocation_free { TakesNoMemory kind (join (L.lines lines)) → NotForMemory result }
{
    let mut lines = lines;
    if !lines.asking_is_free() {
        return parse_in_turn(alloc, seed, dialect, kind, lines);
    }
    let Some(first) = lines.next_line() else {
        return parse_line(alloc, seed, dialect, kind, b"");
    };
    let Some(second) = lines.next_line() else {
        return parse_line(alloc, seed, dialect, kind, first);
    };
    parse_several(alloc, seed, dialect, kind, first, second, lines)
}

/// Parses a text as the only line.
pub(crate) fn parse_line(
    alloc: Global,
    seed: &RandomState,
    dialect: Dialect,
    kind: Kind,
    text: &[u8],
) -> Result<Field, Refusal>
    // The line spells this value and no other, or this is its exact refusal, or an allocation
    // failed.
    ensures parses { ParsesLines dialect kind (text.now ∷ []) result }
    // A text that is allocation-free is not refused as out of memory.
    ensures allocation_free { TakesNoMemory kind text.now → NotForMemory result }
{
    parse_text_in(alloc, seed, dialect, kind, text)
}

/// Parses lines, as [`parse_from`] does: each is asked for after the one before was parsed, and none
/// after a refusal.
fn parse_in_turn<'a, L: FieldLines<'a>>(
    alloc: Global,
    seed: &RandomState,
    dialect: Dialect,
    kind: Kind,
    lines: L,
) -> Result<Field, Refusal>
    // The joined lines spell this value and no other, or this is their exact refusal, or an
    // allocation failed.
    ensures parses { ParsesLines dialect kind (L.lines lines) result }
    // Lines whose joined text is allocation-free are not refused as out of memory.
    ensures allocation_free { TakesNoMemory kind (join (L.lines lines)) → NotForMemory result }
{
    let mut in_turn = Parser::new_in(alloc, seed, dialect, kind, u64::MAX);
    feed_in_turn(&mut in_turn, lines)?;
    in_turn.finish()
}

/// Parses two lines and those that remain, as [`parse_from`] does: one by one, so that no more are
/// taken after a refusal.
pub(crate) fn parse_several<'a, L: FieldLines<'a>>(
    alloc: Global,
    seed: &RandomState,
    dialect: Dialect,
    kind: Kind,
    first: &[u8],
    second: &[u8],
    others: L,
) -> Result<Field, Refusal>
    // The joined lines spell this value and no other, or this is their exact refusal, or an
    // allocation failed.
    ensures parses { ParsesLines dialect kind (first.now ∷ second.now ∷ L.lines others) result }
    // Lines whose joined text is allocation-free are not refused as out of memory.
    ensures allocation_free { TakesNoMemory kind (join (first.now ∷ second.now ∷ L.lines others))
        → NotForMemory result }
{
    let mut parser = Parser::new_in(alloc, seed, dialect, kind, u64::MAX);
    feed_lines(&mut parser, first, second, others)?;
    parser.finish()
}

/// Parses lines in a dialect, as [`parse_from`] does.
///
/// ```
/// parse_lines_in(alloc, &seed, Dialect::Rfc8941, Kind::Item, lines.as_slice())
/// ```
pub fn parse_lines_in(
    alloc: Global,
    seed: &RandomState,
    dialect: Dialect,
    kind: Kind,
    lines: &[Blob],
) -> Result<Field, Refusal>
    // The joined lines spell this value and no other, or this is their exact refusal, or an
    // allocation failed.
    ensures parses { ParsesLines dialect kind lines.now result }
    // Lines whose joined text is allocation-free are not refused as out of memory.
    ensures allocation_free { TakesNoMemory kind (join lines.now) → NotForMemory result }
{
    parse_from(alloc, seed, dialect, kind, lines.iter())
}

/// Parses lines by RFC 9651 (section 4.2), as [`parse_from`] does.
///
/// ```
/// let field = parse_lines(alloc, &seed, Kind::List, lines.as_slice())?;
/// ```
pub fn parse_lines(
    alloc: Global,
    seed: &RandomState,
    kind: Kind,
    lines: &[Blob],
) -> Result<Field, Refusal>
    // The joined lines spell this value and no other, or this is their exact refusal, or an
    // allocation failed.
    ensures parses { ParsesLines Rfc9651 kind lines.now result }
    // Lines whose joined text is allocation-free are not refused as out of memory.
    ensures allocation_free { TakesNoMemory kind (join lines.now) → NotForMemory result }
{
    parse_from(alloc, seed, Dialect::Rfc9651, kind, lines.iter())
}

/// Returns the canonical text (RFC 9651 section 4.1) of the value that the lines spell. Lines of a
/// kind have equal canonical texts if and only if they spell equal values. Refuses what
/// [`parse_lines`] refuses. It is [`sf_view::normalise`] of the line, or of the joined text of the
/// lines if there are several: only if it writes no text from nodes (see
/// [`sf_view::settled_text`]), the field is built.
///
/// ```
/// let text = normalise_lines(alloc, &seed, Kind::List, lines.as_slice())?;
/// ```
pub fn normalise_lines(
    alloc: Global,
    seed: &RandomState,
    kind: Kind,
    lines: &[Blob],
) -> Result<Vec<u8>, Refusal>
    // The canonical text of the value, or the refusal of the lines.
    ensures { MatchResult result (λ text. NormalisesTo kind lines.now text.items)
        (λ e. ParsesLines Rfc9651 kind lines.now (Err e)) }
{
    if lines.len() == 1 {
        return normalise(alloc, seed, Dialect::Rfc9651, kind, lines[0].as_bytes());
    }
    let text = joined(alloc, lines)?;
    normalise(alloc, seed, Dialect::Rfc9651, kind, text.as_slice())
}

/// Returns the text of the lines, joined by a comma and a space.
fn joined(alloc: Global, lines: &[Blob]) -> Result<Vec<u8>, OutOfMemory>
    ensures { IfOk result (λ text. text.items ≡ join lines.now) }
{
    let mut text = Vec::new(alloc);
    let mut after_line = false;
    for line in lines {
        append_line(&mut text, after_line, line.as_bytes())?;
        after_line = true;
    }
    Ok(text)
}

/// Appends a field line to the joined text of a field (RFC 9651 section 4.2): after a comma and a
/// space if a line came before. It fails only if an allocation fails; the text may then end with the
/// comma and the space.
///
/// ```
/// append_line(&mut text, false, b"a, b")?;
/// append_line(&mut text, true, b"c")?;
/// text.as_slice() // a, b, c
/// ```
pub fn append_line(text: &mut Vec<u8>, after_line: bool, line: &[u8]) -> Result<(), OutOfMemory>
    ensures { IfOk result (λ _. text.new.items ≡ text.old.items ++ in_line after_line line.now) }
{
    if after_line {
        text.extend_from_slice(b", ")?;
    }
    text.extend_from_slice(line)?;
    Ok(())
}

/// Feeds the joined text of two lines and those that remain.
fn feed_lines<'a, L: FieldLines<'a>>(
    parser: &mut Parser,
    first: &[u8],
    second: &[u8],
    mut others: L,
) -> Result<(), Refusal>
    requires { parser.old.after_line ≡ false }
    // The joined text is fed; a refusal remains, whatever comes after it.
    ensures fed { Feeds parser.old parser.new result
        (join (first.now ∷ second.now ∷ L.lines others)) }
    // Lines whose joined text is allocation-free are not refused as out of memory, nor is the end.
    ensures allocation_free { IsAllocationFree parser.old
        (join (first.now ∷ second.now ∷ L.lines others))
        → KeepsAllocationFree parser.new [] result }
{
    parser.feed_line(first)?;
    parser.feed_line(second)?;
    while let Some(line) = others.next_line() {
        parser.feed_line(line)?;
    }
    Ok(())
}

/// Feeds the joined text of lines, each of which is asked for after the one before was fed; without
/// lines it is empty.
fn feed_in_turn<'a, L: FieldLines<'a>>(parser: &mut Parser, mut lines: L) -> Result<(), Refusal>
    requires { parser.old.after_line ≡ false }
    // The joined text is fed; a refusal remains, whatever comes after it.
    ensures fed { Feeds parser.old parser.new result (join (L.lines lines)) }
    // Lines whose joined text is allocation-free are not refused as out of memory, nor is the end.
    ensures allocation_free { IsAllocationFree parser.old (join (L.lines lines))
        → KeepsAllocationFree parser.new [] result }
{
    // A parser that refused before refuses again, also if there are no lines.
    parser.feed(b"")?;
    while let Some(line) = lines.next_line() {
        parser.feed_line(line)?;
    }
    Ok(())
}
