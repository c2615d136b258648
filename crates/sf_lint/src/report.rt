//! What is printed for the lines of an input. The n-th line is that at index `n`, from 0; printed
//! numbers of lines are from 1.
ghost use Rattle.std.specs.Prelude.{◌≡◌, ◌+◌, ◌<◌, ◌≤◌, ◌^◌, ◌↔◌, ◌++◌, true, false, length, map};
ghost use Rattle.std.specs.Prelude.{get_or, IfOk, IfErr, IsTrue};
ghost use Rattle.std.specs.Prelude.{codes, decimal, string_bytes, [], Some};
ghost use Rattle.sf_field.specs.Lines.{ParsesLines};
ghost use Rattle.sf_parse.specs.Spots.{line_place};
ghost use Rattle.sf_value.specs.declared.value.Field.{Field};
ghost use Rattle.std.specs.List.{before_first};
ghost use Rattle.sf_lint.specs.Head.{IsRepeated, is_start as is_start_in, values_in};
ghost use Rattle.sf_lint.specs.Report.{ReportsLine, ReportsField, shown as shown_in};
ghost use Rattle.sf_lint.specs.Heads.{ReportsLinesWith, ReportsWith};
ghost use Rattle.sf_lint.specs.Meanings.{meaning_of};
ghost use Rattle.sf_lint.specs.Report.{no_cache_text, ReportsValue, ReportsRefusal};
ghost use Rattle.sf_lint.specs.Report.{ReportsOlder, newer_text};
ghost use Rattle.sf_lint.specs.Report.{accepted_text, refused_text, others_text, bad_line_text};
ghost use Rattle.sf_lint.specs.Head.{line_of};
ghost use Rattle.sf_lint.specs.Colours.{verdict_text};
ghost use Rattle.sf_lint.specs.declared.colours.Verdict.TheVariants as verdict;
ghost use Rattle.sf_lint.specs.declared.head.Line.TheVariants as line;

use crate::colours::Verdict;
use crate::head::{Line, is_named, is_start, read_line, split_lines, start_end, value_of};
use crate::heads::decisions_if;
use crate::marking::find_mark;
use crate::meaning::{concatenated, meaning};
use crate::settings::{CacheSettings, FieldType, Settings, type_of};
use http_header::HeaderName;
use sf_field::{UseFault, parse_from};
use sf_parse::{InLine, Refusal, Spot};
use sf_tool::{caret_text, line_text, name_end};
use sf_value::{Dialect, Field, Kind, OutOfMemory, Writing};
use sf_write::{put, put_field};
use std::alloc::Global;
use std::hash::RandomState;

/// The report on one line or several.
#[derive(Drop)]
pub(crate) struct LineReport {
    /// The text that is printed.
    pub text: Vec<u8>,
    /// Whether a line or a field was refused.
    pub refused: bool,
    /// The number of field lines of fields that are not structured.
    pub others: u64,
}

/// Returns the text, or nothing if only what is refused is printed.
fn shown(alloc: Global, settings: &Settings, text: Vec<u8>) -> Vec<u8>
    ensures { result.items ≡ shown_in settings.now text.items }
{
    if settings.quiet {
        Vec::new(alloc)
    } else {
        text
    }
}

/// Returns an empty report.
fn nothing(alloc: Global) -> LineReport
    ensures { (result.text.items ≡ []) × (result.refused ≡ false) × (result.others ≡ 0) }
{
    LineReport {
        text: Vec::new(alloc),
        refused: false,
        others: 0,
    }
}

/// Returns whether a line with this name is before the n-th in its message. This walks back over
/// the message, and [`values`] walks on, for each structured field: with very many of different
/// names, the time grows with the square of their number.
fn is_repeated(name: &[u8], lines: &[&[u8]], n: usize) -> bool
    requires { n ≤ length lines.now }
    ensures { IsTrue result ↔ IsRepeated name.now (map (λ line. line.now) lines.now) n }
{
    let mut left = n;
    while left > 0 {
        left -= 1;
        if is_start(lines[left]) {
            return false;
        }
        if is_named(lines[left], name) {
            return true;
        }
    }
    false
}

/// Returns the lines before the first one that begins a message.
fn message_in<'a, 'b>(lines: &'b [&'a [u8]]) -> &'b [&'a [u8]]
    ensures { map (λ line. line.now) result.now
        ≡ before_first is_start_in (map (λ line. line.now) lines.now) }
{
    for (i, line) in lines.iter().enumerate() {
        if is_start(line) {
            return &lines[..i];
        }
    }
    lines
}

/// Returns the values of the lines that have this name.
fn values<'a>(alloc: Global, name: &[u8], lines: &[&'a [u8]]) -> Result<Vec<&'a [u8]>, OutOfMemory>
    ensures { IfOk result (λ all. map (λ value. value.now) all.items
        ≡ values_in name.now (map (λ line. line.now) lines.now)) }
{
    let mut all = Vec::new(alloc);
    for line in lines {
        if is_named(line, name) {
            all.push(value_of(line))?;
        }
    }
    Ok(all)
}

/// Returns the text for a field that is accepted.
fn accepted(
    alloc: Global,
    settings: &Settings,
    name: &str,
    field: &Field,
) -> Result<Vec<u8>, OutOfMemory>
    ensures { IfOk result (λ text. text.items ≡ accepted_text settings.now name.now field.now) }
{
    let mut out = Writing::new(Vec::new(alloc));
    let sent = put(Verdict::Ok.text(settings).as_bytes(), Ok(0), &mut out);
    let sent = put(b" ", sent, &mut out);
    let sent = put(name.as_bytes(), sent, &mut out);
    let sent = put(b": ", sent, &mut out);
    let sent = put_field(field, sent, &mut out);
    match put(b"\n", sent, &mut out) {
        Ok(_) => Ok(out.into_inner()),
        Err(_) => Err(OutOfMemory),
    }
}

/// Returns the text for a field with a member that names no cache.
fn without_cache(
    alloc: Global,
    settings: &Settings,
    name: &str,
    index: usize,
) -> Result<Vec<u8>, OutOfMemory>
    ensures { IfOk result (λ text. text.items ≡ no_cache_text settings.now name.now index) }
{
    let refused = Verdict::Refused.text(settings);
    let text = format!(in alloc; "{refused} {name}: member {index} names no cache\n")?;
    Ok(text.into_bytes())
}

/// Reports a field that has a value: its canonical text, and its meaning.
fn report_value(
    alloc: Global,
    settings: &Settings,
    name: &str,
    field: &Field,
) -> Result<LineReport, OutOfMemory>
    ensures reported { IfOk result (λ reported. ReportsValue settings.now name.now field.now
        (meaning_of settings.now name.now field.now) reported.text.items reported.refused reported.others) }
    ensures few { IfOk result (λ reported. reported.others ≤ 1) }
{
    match meaning(alloc, settings, name, field) {
        Ok(lines) => {
            let mut text = accepted(alloc, settings, name, field)?;
            text.extend_from_slice(lines.as_slice())?;
            return Ok(LineReport {
                text: shown(alloc, settings, text),
                refused: false,
                others: 0,
            });
        }
        Err(UseFault::NotACache { index }) => {
            return Ok(LineReport {
                text: without_cache(alloc, settings, name, index)?,
                refused: true,
                others: 0,
            });
        }
        Err(UseFault::OutOfMemory) => return Err(OutOfMemory),
    }
}

/// Returns the text for a field that is refused. The lines are those of its message from its first
/// one on, and the number is that of its first line.
fn refused(
    alloc: Global,
    settings: &Settings,
    name: &str,
    refusal: Refusal,
    number: usize,
    lines: &[&[u8]],
) -> Result<Vec<u8>, OutOfMemory>
    requires { number + length lines.now < 2 ^ 64 }
    ensures { IfOk result (λ text. text.items
        ≡ refused_text settings.now number name.now (map (λ line. line.now) lines.now) refusal) }
{
    let spot = match refusal {
        Refusal::Syntax { place, .. } => find_mark(name.as_bytes(), number, lines, place),
        _ => None,
    };
    let shown = InLine { refusal, spot };
    let refused = Verdict::Refused.text(settings);
    let text = format!(in alloc; "{refused} {name}: {shown}\n")?;
    Ok(text.into_bytes())
}

/// Reports a field that is refused.
fn report_refusal(
    alloc: Global,
    settings: &Settings,
    name: &str,
    refusal: Refusal,
    number: usize,
    lines: &[&[u8]],
) -> Result<LineReport, OutOfMemory>
    requires { number + length lines.now < 2 ^ 64 }
    ensures reported { IfOk result (λ reported. ReportsRefusal settings.now name.now number
        (map (λ line. line.now) lines.now) refusal reported.text.items reported.refused reported.others) }
    ensures few { IfOk result (λ reported. reported.others ≤ 1) }
{
    match refusal {
        Refusal::OutOfMemory => return Err(OutOfMemory),
        _ => {
            let text = refused(alloc, settings, name, refusal, number, lines)?;
            return Ok(LineReport {
                text,
                refused: true,
                others: 0,
            });
        }
    }
}

/// Returns the text for a field that RFC 8941 refuses and RFC 9651 accepts, with this value: its
/// canonical text and its meaning by RFC 9651, or that a member names no cache.
fn by_the_newer(
    alloc: Global,
    settings: &Settings,
    name: &str,
    field: &Field,
) -> Result<Vec<u8>, OutOfMemory>
    ensures { IfOk result (λ text. text.items ≡ newer_text settings.now name.now field.now
        (meaning_of settings.now name.now field.now)) }
{
    let heading = Vec::from_slice(alloc, b"above by RFC 8941, below by RFC 9651:\n")?;
    match meaning(alloc, settings, name, field) {
        Ok(lines) => {
            let text = accepted(alloc, settings, name, field)?;
            return concatenated(heading, text, lines);
        }
        Err(UseFault::NotACache { index }) => {
            let text = without_cache(alloc, settings, name, index)?;
            return concatenated(heading, text, Vec::new(alloc));
        }
        Err(UseFault::OutOfMemory) => return Err(OutOfMemory),
    }
}

/// Reports a field that RFC 8941 refuses: also what it is by RFC 9651, if that accepts it, since
/// the answers differ. `number` and `lines` are as in [`report_field`].
fn report_older(
    alloc: Global,
    seed: &RandomState,
    settings: &Settings,
    kind: Kind,
    name: &str,
    refusal: Refusal,
    number: usize,
    lines: &[&[u8]],
) -> Result<LineReport, OutOfMemory>
    requires { number + length lines.now < 2 ^ 64 }
    ensures reported { IfOk result (λ reported. ReportsOlder settings.now kind name.now number
        (map (λ line. line.now) lines.now) refusal reported.text.items reported.refused reported.others) }
    ensures few { IfOk result (λ reported. reported.others ≤ 1) }
{
    let mut reported = report_refusal(alloc, settings, name, refusal, number, lines)?;
    let values = values(alloc, name.as_bytes(), lines)?;
    let parsed = parse_from(
        alloc,
        seed,
        Dialect::Rfc9651,
        kind,
        values.as_slice().iter(),
    );
    match parsed {
        Ok(field) => {
            let text = by_the_newer(alloc, settings, name, &field)?;
            drop(field);
            let text = shown(alloc, settings, text);
            reported.text.extend_from_slice(text.as_slice())?;
            return Ok(reported);
        }
        Err(Refusal::OutOfMemory) => return Err(OutOfMemory),
        Err(_) => return Ok(reported),
    }
}

/// Reports a structured field. The lines are those of its message from its first one on, and the
/// number is that of its first line.
fn report_field(
    alloc: Global,
    seed: &RandomState,
    settings: &Settings,
    field_type: FieldType,
    name: &str,
    number: usize,
    lines: &[&[u8]],
) -> Result<LineReport, OutOfMemory>
    requires { number + length lines.now < 2 ^ 64 }
    // The canonical text of the value that the lines of this name spell, or their refusal.
    ensures reported { IfOk result (λ reported. ReportsField settings.now field_type name.now number
        (map (λ line. line.now) lines.now) reported.text.items reported.refused reported.others) }
    ensures few { IfOk result (λ reported. reported.others ≤ 1) }
{
    let values = values(alloc, name.as_bytes(), lines)?;
    let parsed = parse_from(
        alloc,
        seed,
        field_type.dialect,
        field_type.kind,
        values.as_slice().iter(),
    );
    match parsed {
        Ok(field) => {
            let reported = report_value(alloc, settings, name, &field);
            drop(field);
            return reported;
        }
        Err(refusal) => match field_type.dialect {
            Dialect::Rfc9651 => {
                return report_refusal(alloc, settings, name, refusal, number, lines);
            }
            Dialect::Rfc8941 => {
                let kind = field_type.kind;
                return report_older(alloc, seed, settings, kind, name, refusal, number, lines);
            }
        },
    }
}

/// Reports a field line, of a field that may be structured.
fn report_named(
    alloc: Global,
    seed: &RandomState,
    settings: &Settings,
    name: &HeaderName,
    lines: &[&[u8]],
    n: usize,
) -> Result<LineReport, OutOfMemory>
    requires { (n < length lines.now) × (length lines.now < 2 ^ 63) }
    ensures reported { IfOk result (λ reported. ReportsLine settings.now (map (λ line. line.now) lines.now) n
        (line.Field name.now) reported.text.items reported.refused reported.others) }
    ensures few { IfOk result (λ reported. reported.others ≤ 1) }
{
    let Some(field_type) = type_of(settings, name) else {
        return Ok(LineReport {
            text: Vec::new(alloc),
            refused: false,
            others: 1,
        });
    };
    if is_repeated(name.as_bytes(), lines, n) {
        return Ok(nothing(alloc));
    }
    let message = message_in(&lines[n..]);
    report_field(
        alloc,
        seed,
        settings,
        field_type,
        name.as_str(),
        n + 1,
        message,
    )
}

/// Returns the text for a line that is no line of a head, up to the line itself.
fn bad_line_words(
    alloc: Global,
    settings: &Settings,
    line: usize,
    why: &str,
    place: usize,
) -> Result<Vec<u8>, OutOfMemory>
    ensures { IfOk result (λ text. text.items ≡ verdict_text settings.now verdict.Refused
        ++ (codes " line " ++ (decimal line ++ (codes ": " ++ (why.now
        ++ (codes "\nline " ++ (decimal line ++ (codes ", place "
        ++ (decimal place ++ codes ":\n"))))))))) }
{
    let refused = Verdict::Refused.text(settings);
    let text = format!(in alloc; "{refused} line {line}: {why}\nline {line}, place {place}:\n")?;
    Ok(text.into_bytes())
}

/// Returns the text for a line that is no line of a head, which is refused at the spot.
fn bad_line(
    alloc: Global,
    settings: &Settings,
    why: &str,
    spot: Spot<'_>,
) -> Result<Vec<u8>, OutOfMemory>
    ensures { IfOk result (λ text. text.items
        ≡ bad_line_text settings.now spot.entry.line why.now (line_place (Some spot.entry))) }
{
    let words = bad_line_words(alloc, settings, spot.line, why, spot.place)?;
    let shown = line_text(alloc, spot.text)?;
    let caret = caret_text(alloc, spot.place)?;
    concatenated(words, shown, caret)
}

/// Reports a line that is no line of a head, which is refused at the spot.
fn report_bad_line(
    alloc: Global,
    settings: &Settings,
    why: &str,
    spot: Spot<'_>,
) -> Result<LineReport, OutOfMemory>
    ensures { IfOk result (λ reported. (reported.text.items
        ≡ bad_line_text settings.now spot.entry.line why.now (line_place (Some spot.entry)))
        × (reported.refused ≡ true) × (reported.others ≡ 0)) }
{
    Ok(LineReport {
        text: bad_line(alloc, settings, why, spot)?,
        refused: true,
        others: 0,
    })
}

/// Reports the n-th line.
fn report_line(
    alloc: Global,
    seed: &RandomState,
    settings: &Settings,
    lines: &[&[u8]],
    n: usize,
) -> Result<LineReport, OutOfMemory>
    requires { (n < length lines.now) × (length lines.now < 2 ^ 63) }
    // The report on the line: by what it is, and among the lines of its message.
    ensures reported { IfOk result (λ reported. ReportsLine settings.now (map (λ line. line.now) lines.now) n
        (line_of (get_or (map (λ line. line.now) lines.now) n []))
        reported.text.items reported.refused reported.others) }
    // It is at most one field line.
    ensures few { IfOk result (λ reported. reported.others ≤ 1) }
{
    match read_line(alloc, lines[n])? {
        Line::Empty => return Ok(nothing(alloc)),
        Line::Folded => {
            let spot = Spot {
                line: n + 1,
                place: 0,
                text: lines[n],
            };
            return report_bad_line(alloc, settings, "obsolete line folding", spot);
        }
        Line::Start => {
            let text = line_text(alloc, lines[n])?;
            return Ok(LineReport {
                text: shown(alloc, settings, text),
                refused: false,
                others: 0,
            });
        }
        Line::BadStart => {
            let spot = Spot {
                line: n + 1,
                place: start_end(lines[n]),
                text: lines[n],
            };
            return report_bad_line(alloc, settings, "a CR or NUL in a start line", spot);
        }
        Line::Field(name) => return report_named(alloc, seed, settings, &name, lines, n),
        Line::Nameless => {
            let spot = Spot {
                line: n + 1,
                place: name_end(lines[n]),
                text: lines[n],
            };
            return report_bad_line(alloc, settings, "not a field line", spot);
        }
    }
}

/// Reports all lines, in order, and after those of each response what caches decide about it.
fn report_lines(
    alloc: Global,
    seed: &RandomState,
    settings: &Settings,
    caches: &Option<CacheSettings>,
    lines: &[&[u8]],
) -> Result<LineReport, OutOfMemory>
    requires { length lines.now < 2 ^ 62 }
    ensures { IfOk result (λ reported. ReportsLinesWith caches.now settings.now
        (map (λ line. line.now) lines.now) (length lines.now)
        reported.text.items reported.refused reported.others) }
{
    let mut all = nothing(alloc);
    for n in 0..lines.len() {
        let reported = report_line(alloc, seed, settings, lines, n)?;
        all.text.extend_from_slice(reported.text.as_slice())?;
        all.refused |= reported.refused;
        all.others += reported.others;
        let decided = decisions_if(alloc, seed, caches, lines, n)?;
        all.text.extend_from_slice(decided.as_slice())?;
    }
    Ok(all)
}

/// Returns the line with the number of field lines of fields that are not structured.
fn others_line(alloc: Global, others: u64) -> Result<Vec<u8>, OutOfMemory>
    ensures { IfOk result (λ text. text.items ≡ others_text others) }
{
    let text = format!(in alloc; "other fields: {others}\n")?;
    Ok(text.into_bytes())
}

/// Returns what is printed for an input, and whether something in it was refused.
pub(crate) fn report(
    alloc: Global,
    seed: &RandomState,
    settings: &Settings,
    caches: &Option<CacheSettings>,
    input: &[u8],
) -> Result<LineReport, OutOfMemory>
    requires { length input.now ≤ 2 ^ 32 }
    // The report on each line, in order, with what caches decide if that is asked for, and then the
    // number of field lines of fields that are not structured.
    ensures { IfOk result (λ reported. ReportsWith caches.now settings.now input.now
        reported.text.items reported.refused) }
{
    let lines = split_lines(alloc, input)?;
    let mut reported = report_lines(alloc, seed, settings, caches, lines.as_slice())?;
    let line = shown(alloc, settings, others_line(alloc, reported.others)?);
    reported.text.extend_from_slice(line.as_slice())?;
    Ok(reported)
}
