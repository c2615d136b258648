//! The meaning of field lines to a consumer.
ghost use Rattle.std.specs.Prelude.{◌≡◌, ℕ, List, [], ◌∷◌, Some, IfOk};
ghost use Rattle.sf_value.specs.declared.dialect.Dialect.{Dialect as Which};
ghost use Rattle.sf_value.specs.Grammar.Fields.{kind_of};
ghost use Rattle.sf_value.specs.Grammar.Lines.{join};
ghost use Rattle.sf_parse.specs.AllocationFree.{TakesNoMemory};
ghost use Rattle.sf_parse.specs.AllocationFreeParsers.{NotForMemory};
ghost use Rattle.sf_field.specs.Faults.{ask_fault_text};
ghost use Rattle.sf_field.specs.declared.asking.AskFault.TheVariants as fault_is;
ghost use Rattle.sf_field.specs.Asking.{Asks, AsksIn, MeansAsCanonical, MeansAsCanonicalIn};
ghost use Rattle.sf_field.specs.Asking.{ParsedOrRefused};
ghost use Rattle.sf_field.specs.Lines.{ParsesLines};

use crate::consumer::{Consumer, UseFault};
use crate::joining::join_prefix;
use crate::lines::{FieldLines, parse_from, parse_line, parse_several};
use sf_parse::Refusal;
use sf_value::{Blob, Dialect, Field};
use std::alloc::Global;
use std::error::Error;
use std::fmt;
use std::hash::RandomState;

/// Lines whose joined text is at most this long are joined on the stack.
const MAX_JOINED: usize = 1024;

/// Why a consumer has no answer for field lines.
///
/// ```
/// match ask(alloc, &seed, &CacheStatus, lines.as_slice()) {
///     Ok(path) => ..
///     Err(AskFault::Field(refusal)) => .. // the lines are not a List, or out of memory
///     Err(AskFault::Answer(UseFault::NotACache { index })) => ..
///     Err(AskFault::Answer(UseFault::OutOfMemory)) => ..
/// }
/// ```
#[derive(Clone, Copy, Debug, PartialEq, Eq)]
pub enum AskFault {
    /// The lines spell no value of the consumer's kind, or an allocation failed while parsing.
    Field(Refusal),
    /// The value that the lines spell has no answer, or an allocation failed for the answer.
    Answer(UseFault),
}

impl fmt::Display for AskFault {
    ghost output = { λ fault. Some (ask_fault_text fault) };

    fn fmt<W: fmt::Write>(&self, f: &mut fmt::Formatter<W>) -> fmt::Result {
        match self {
            AskFault::Field(refusal) => write!(f, "{refusal}"),
            AskFault::Answer(fault) => write!(f, "{fault}"),
        }
    }
}

impl Error for AskFault {}

impl From<Refusal> for AskFault {
    ghost from_gives = { λ refusal e. e ≡ fault_is.Field refusal };

    fn from(refusal: Refusal) -> AskFault {
        AskFault::Field(refusal)
    }
}

impl From<UseFault> for AskFault {
    ghost from_gives = { λ fault e. e ≡ fault_is.Answer fault };

    fn from(fault: UseFault) -> AskFault {
        AskFault::Answer(fault)
    }
}

/// Returns what the lines mean to a consumer by RFC 9651: parses them as its kind, as
/// [`crate::parse_from`] does, and passes the value to [`Consumer::answer`]. If lines may be asked
/// for ahead ([`crate::AskingCost`]), a text is first passed to [`Consumer::answer_text_in`]: that
/// of a single line or of none, or the joined text of at most 16 lines, if it has at most 1 KiB and
/// none of them but the first is empty. Accepted lines have the meaning of their canonical text as
/// one line. Out of memory for the answer is returned only if the value has an answer.
///
/// ```
/// let values = headers.get_all(&name).iter();
/// let policy = ask_from(alloc, &seed, &Directives, values)?;
/// ```
pub fn ask_from<'a, C: Consumer, L: FieldLines<'a>>(
    alloc: Global,
    seed: &RandomState,
    consumer: &C,
    lines: L,
) -> Result<C::Answer, AskFault>
    // The result is what the lines mean, or their refusal, or out of memory.
    ensures answers { Asks C.KIND (C.meaning consumer.now) (L.lines lines) result }
    // Accepted lines mean what their canonical text means.
    ensures canonical { MeansAsCanonical C.KIND (C.meaning consumer.now) (L.lines lines) }
    // Lines whose joined text is allocation-free are not refused as out of memory.
    ensures allocation_free { TakesNoMemory C.KIND (join (L.lines lines)) → ParsedOrRefused result }
{
    ask_from_in(alloc, seed, Dialect::Rfc9651, consumer, lines)
}

/// Returns what the lines mean to a consumer in a dialect, as [`ask_from`] does: by RFC 8941, lines
/// with a Date or a Display String are refused. The RFCs of Cache-Status, targeted cache control
/// and Priority cite RFC 8941.
///
/// ```
/// let values = headers.get_all(&name).iter();
/// let policy = ask_from_in(alloc, &seed, Dialect::Rfc8941, &Directives, values)?;
/// ```
pub fn ask_from_in<'a, C: Consumer, L: FieldLines<'a>>(
    alloc: Global,
    seed: &RandomState,
    dialect: Dialect,
    consumer: &C,
    lines: L,
) -> Result<C::Answer, AskFault>
    // The result is what the lines mean in the dialect, or their refusal, or out of memory.
    ensures answers { AsksIn dialect C.KIND (C.meaning consumer.now) (L.lines lines) result }
    // Accepted lines mean what their canonical text means.
    ensures canonical { MeansAsCanonicalIn dialect C.KIND (C.meaning consumer.now) (L.lines lines) }
    // Lines whose joined text is allocation-free are not refused as out of memory.
    ensures allocation_free { TakesNoMemory C.KIND (join (L.lines lines)) → ParsedOrRefused result }
{
    let mut lines = lines;
    if !lines.asking_is_free() {
        let read = parse_from(alloc, seed, dialect, C::KIND, lines);
        return answer_read(alloc, consumer, read);
    }
    let Some(first) = lines.next_line() else {
        return ask_text(alloc, seed, dialect, consumer, b"");
    };
    let Some(second) = lines.next_line() else {
        return ask_text(alloc, seed, dialect, consumer, first);
    };
    ask_several(alloc, seed, dialect, consumer, first, second, lines)
}

/// Returns what the lines mean to a consumer by RFC 9651, as [`ask_from`] does.
///
/// ```
/// let policy = ask(alloc, &seed, &Directives, lines.as_slice())?;
/// ```
pub fn ask<C: Consumer>(
    alloc: Global,
    seed: &RandomState,
    consumer: &C,
    lines: &[Blob],
) -> Result<C::Answer, AskFault>
    // The result is what the lines mean, or their refusal, or out of memory.
    ensures answers { Asks C.KIND (C.meaning consumer.now) lines.now result }
    // Accepted lines mean what their canonical text means.
    ensures canonical { MeansAsCanonical C.KIND (C.meaning consumer.now) lines.now }
    // Lines whose joined text is allocation-free are not refused as out of memory.
    ensures allocation_free { TakesNoMemory C.KIND (join lines.now) → ParsedOrRefused result }
{
    ask_from(alloc, seed, consumer, lines.iter())
}

/// Returns what the lines mean to a consumer in a dialect, as [`ask_from_in`] does.
///
/// ```
/// // max-age=60, x=@1
/// ask_in(alloc, &seed, Dialect::Rfc8941, &Directives, lines.as_slice()) // refused: @1 is a Date
/// ```
pub fn ask_in<C: Consumer>(
    alloc: Global,
    seed: &RandomState,
    dialect: Dialect,
    consumer: &C,
    lines: &[Blob],
) -> Result<C::Answer, AskFault>
    // The result is what the lines mean in the dialect, or their refusal, or out of memory.
    ensures answers { AsksIn dialect C.KIND (C.meaning consumer.now) lines.now result }
    // Accepted lines mean what their canonical text means.
    ensures canonical { MeansAsCanonicalIn dialect C.KIND (C.meaning consumer.now) lines.now }
    // Lines whose joined text is allocation-free are not refused as out of memory.
    ensures allocation_free { TakesNoMemory C.KIND (join lines.now) → ParsedOrRefused result }
{
    ask_from_in(alloc, seed, dialect, consumer, lines.iter())
}

/// Returns what a text means as the only line.
fn ask_text<C: Consumer>(
    alloc: Global,
    seed: &RandomState,
    dialect: Dialect,
    consumer: &C,
    text: &[u8],
) -> Result<C::Answer, AskFault>
    // The result is what the line means, or its refusal, or out of memory.
    ensures answers { AsksIn dialect C.KIND (C.meaning consumer.now) (text.now ∷ []) result }
    // A text that is allocation-free is not refused as out of memory.
    ensures allocation_free { TakesNoMemory C.KIND text.now → ParsedOrRefused result }
{
    if let Some(answer) = consumer.answer_text_in(alloc, dialect, text) {
        return Ok(answer);
    }
    ask_parsed(alloc, seed, dialect, consumer, text)
}

/// As [`ask_text`], by the value that the text spells. It is not inlined, so that a text that is
/// read without the value doesn't pay for its stack.
#[inline(never)]
fn ask_parsed<C: Consumer>(
    alloc: Global,
    seed: &RandomState,
    dialect: Dialect,
    consumer: &C,
    text: &[u8],
) -> Result<C::Answer, AskFault>
    ensures answers { AsksIn dialect C.KIND (C.meaning consumer.now) (text.now ∷ []) result }
    ensures allocation_free { TakesNoMemory C.KIND text.now → ParsedOrRefused result }
{
    let read = parse_line(alloc, seed, dialect, C::KIND, text);
    answer_read(alloc, consumer, read)
}

/// Returns what two lines and those that remain mean. They are joined on the stack if they are few
/// and short; otherwise what was joined and the lines after it are parsed one by one. It is not
/// inlined, so that a single line doesn't pay for the buffer.
#[inline(never)]
fn ask_several<'a, C: Consumer, L: FieldLines<'a>>(
    alloc: Global,
    seed: &RandomState,
    dialect: Dialect,
    consumer: &C,
    first: &'a [u8],
    second: &'a [u8],
    mut others: L,
) -> Result<C::Answer, AskFault>
    // The result is what the lines mean, or their refusal, or out of memory.
    ensures answers { AsksIn dialect C.KIND (C.meaning consumer.now)
        (first.now ∷ second.now ∷ L.lines others) result }
    // Lines whose joined text is allocation-free are not refused as out of memory.
    ensures allocation_free { TakesNoMemory C.KIND (join (first.now ∷ second.now ∷ L.lines others))
        → ParsedOrRefused result }
{
    let mut buffer = [0; MAX_JOINED];
    if first.len() > buffer.len() {
        let read = parse_several(alloc, seed, dialect, C::KIND, first, second, others);
        return answer_read(alloc, consumer, read);
    }
    let joined = join_prefix(&mut buffer, first, second, &mut others);
    let text = &buffer[..joined.length];
    match joined.next {
        Some(next) => {
            let read = parse_several(alloc, seed, dialect, C::KIND, text, next, others);
            return answer_read(alloc, consumer, read);
        }
        None => return ask_text(alloc, seed, dialect, consumer, text),
    }
}

/// Returns the answer for a field that was parsed with this result.
fn answer_read<C: Consumer>(
    alloc: Global,
    consumer: &C,
    read: Result<Field, Refusal>,
) -> Result<C::Answer, AskFault>
    requires { IfOk read (λ field. kind_of field ≡ C.KIND) }
    // Whatever lines were parsed, in whatever dialect, the result is what they mean, or their
    // refusal, or out of memory.
    ensures answers { (d : Which) (lines : List (List ℕ)) → ParsesLines d C.KIND lines read
        → AsksIn d C.KIND (C.meaning consumer.now) lines result }
    ensures allocation_free { NotForMemory read → ParsedOrRefused result }
{
    let field = read?;
    let answer = consumer.answer(alloc, &field);
    drop(field);
    Ok(answer?)
}
