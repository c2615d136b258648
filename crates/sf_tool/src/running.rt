//! Running a request.
ghost use Rattle.std.specs.Prelude.{◌≡◌, ◌≤◌, [], length, IfErr, IfSome};
ghost use Rattle.sf_value.specs.declared.value.Field.{Field as FieldValue};
ghost use Rattle.sf_field.specs.Asking.{Asks};
ghost use Rattle.sf_field.specs.Lines.{ParsesLines};
ghost use Rattle.sf_parse.specs.Parsers.{IsOnly, Parses};
ghost use Rattle.sf_parse.specs.AllocationFree.{TakesNoMemory};
ghost use Rattle.sf_parse.specs.AllocationFreeParsers.{NotForMemory};
ghost use Rattle.sf_tool.specs.declared.request.Request.TheVariants as request_is;
ghost use Rattle.sf_tool.specs.declared.status.Status.TheVariants as status_is;
ghost use Rattle.sf_tool.specs.Lines.{lines_of as lines_in};
ghost use Rattle.sf_tool.specs.ChoiceLines.{choice_lines, IsPlaceOf};
ghost use Rattle.sf_tool.specs.Deciding.{with_cache_control as names_with};
ghost use Rattle.sf_tool.specs.Explaining.{ExplainsWith, Explains, ExplainsField, ExplainsLine};
ghost use Rattle.sf_tool.specs.Explaining.{ExplainsPath};
ghost use Rattle.sf_tool.specs.Run.{Runs, Reports, ReportsInputFault, ReportsText};
ghost use Rattle.sf_tool.specs.Run.{input_limit, joined, view_request, IsOfText, IsAskOfText};

use crate::answering::{
    FieldRequest, View, answer_ask_fault, answer_chosen, answer_fallback, answer_made, answer_path,
    answer_priority, answer_refusal, answer_refused_line, answer_scanned, answer_too_long,
    answer_view,
};
use crate::cutting::InputLines;
use crate::deciding::{decision_text, with_cache_control};
use crate::explaining::{
    ErrorStream, bad_line_in_words, explain_too_long, no_cache_in_words, refusal_in_words, show,
};
use crate::fields::{InputFault, read_fields};
use crate::reading::{ReadAllFault, read_all};
use crate::request::Request;
use crate::scanning::{first_stop, join_lines, only_line, parse_from_stop};
use crate::status::Status;
use http_header::HeaderName;
use sf_field::{AskFault, Consumer, UseFault, ask_from, parse_from};
use sf_parse::Refusal;
use sf_use::{CacheStatus, Choice, PriorityField, select};
use sf_value::{Dialect, Field, Kind, Sink, Source, Writing};
use sf_view::parse_declined;
use std::alloc::Global;
use std::hash::RandomState;

/// The length in bytes of the longest input that is accepted; a longer one is refused.
// `too_long_text` of `sf_lint` spells this number out; its clause fails if they differ.
pub const INPUT_LIMIT: u64 = 1_048_576;

/// Answers a request: reads the whole input from the source, and then writes the answer to the
/// sink. If the input is refused and the error stream is a terminal, the refusal is then explained
/// on it.
///
/// An input longer than [`INPUT_LIMIT`] is refused after one byte beyond the limit was read,
/// whatever memory is left. Nothing is read after that, or after the end of the input. If a read
/// fails, or an allocation without which there is no answer, the result is `Stopped`, and nothing
/// was written; a failed read is not repeated. If a write fails, the result is `Stopped`, and a
/// prefix of the answer was written. Otherwise the whole answer was written, and the result is its
/// status. The result is never `Usage`, and the sink is not flushed. At most 262,144 bytes are read
/// at a time, and the whole answer is sent to the sink at once if it can be allocated.
///
/// The explanation is the error message of the refusal and its line with a caret, or the member
/// that names no cache; a line of [`Request::Targeted`] or [`Request::Decide`] that is refused
/// because the header map is full has none. To explain an input, it is parsed a second time. If an
/// allocation for that fails, nothing is explained; if a write of it fails, that is not reported.
/// Neither changes the result or what was written to the sink.
///
/// ```
/// let request = Request::Normalise(Dialect::Rfc9651, Kind::Item);
/// let mut source = Reading::new(b" -0 \n".as_slice());
/// let mut sink = Writing::new(Vec::new(alloc));
/// let mut errors = ErrorStream { device: Writing::new(Vec::new(alloc)), is_terminal: false };
/// let status = run(alloc, &seed, &request, &mut source, &mut sink, &mut errors);
/// // Accepted, and "0\n"
/// ```
pub fn run<R: Source, W: Sink, E: Sink>(
    alloc: Global,
    seed: &RandomState,
    request: &Request,
    source: &mut R,
    sink: &mut W,
    errors: &mut ErrorStream<E>,
) -> Status
    // The whole input is read and answered, or refused as too long; otherwise nothing is written. A
    // refusal is explained if the error stream is a terminal.
    ensures { Runs request.now errors.old.is_terminal (R.state source.old) (R.state source.new)
        (W.state sink.old) (W.state sink.new)
        (E.state errors.old.device) (E.state errors.new.device) result }
{
    match read_all(alloc, INPUT_LIMIT, source) {
        Ok(input) => {
            let status = answer_at_once(alloc, seed, request, input.as_slice(), sink);
            explain(alloc, seed, request, input.as_slice(), status, errors);
            return status;
        }
        Err(ReadAllFault::TooLong { max: _ }) => {
            let status = answer_too_long(INPUT_LIMIT, sink);
            explain_too_long(INPUT_LIMIT, status, errors);
            return status;
        }
        Err(_) => return Status::Stopped,
    }
}

/// Parses the input's lines as one field. `declined` is their joined text, if there is one and a
/// scan declined it. If an allocation fails for that text, the lines are parsed instead: of the two
/// calls, only [`parse_from`] ensures that what is allocation-free needs no allocation.
fn parse_input(
    alloc: Global,
    seed: &RandomState,
    dialect: Dialect,
    kind: Kind,
    input: &[u8],
    declined: Option<&[u8]>,
) -> Result<Field, Refusal>
    requires short { length input.now ≤ input_limit }
    requires declined { IfSome declined (λ text. text.now ≡ joined input.now) }
    // The input's lines spell this value and no other, or this is their exact refusal, or an
    // allocation failed.
    ensures parses { ParsesLines dialect kind (lines_in input.now) result }
    // The error is Syntax or OutOfMemory, never TooLong or ReadFault.
    ensures of_text { IfErr result IsOfText }
    // Lines whose joined text is allocation-free are not refused as out of memory.
    ensures allocation_free { TakesNoMemory kind (joined input.now) → NotForMemory result }
{
    if let Some(text) = declined {
        if let Some(parsed) = parse_scanned(alloc, seed, dialect, kind, text) {
            return parsed;
        }
    }
    parse_from(alloc, seed, dialect, kind, InputLines::new(input))
}

/// Parses a text that a scan declined; `None` if an allocation failed.
fn parse_scanned(
    alloc: Global,
    seed: &RandomState,
    dialect: Dialect,
    kind: Kind,
    text: &[u8],
) -> Option<Result<Field, Refusal>>
    ensures parses { IfSome result (λ r. Parses dialect kind text.now r) }
    ensures for_text { IfSome result NotForMemory }
{
    match parse_declined(alloc, seed, dialect, kind, text) {
        Err(Refusal::OutOfMemory) => None,
        parsed => Some(parsed),
    }
}

/// Writes a view of the input's field, or why it is refused.
fn answer_field<W: Sink>(
    alloc: Global,
    seed: &RandomState,
    request: FieldRequest,
    input: &[u8],
    sink: &mut W,
) -> Status
    requires { length input.now ≤ input_limit }
    // The whole answer was written; or a prefix of it, and a write failed; or nothing.
    ensures { Reports (view_request request.view request.dialect request.kind) input.now
        (W.state sink.old) (W.state sink.new) result }
{
    if matches!(request.view, View::Tree) {
        return answer_parsed(alloc, seed, request, input, None, sink);
    }
    match only_line(input) {
        Some(line) => return answer_text(alloc, seed, request, input, line, sink),
        None => return answer_lines(alloc, seed, request, input, sink),
    }
}

/// The same for several lines. A mistake ends the work at its line: no later line is parsed.
fn answer_lines<W: Sink>(
    alloc: Global,
    seed: &RandomState,
    request: FieldRequest,
    input: &[u8],
    sink: &mut W,
) -> Status
    requires { length input.now ≤ input_limit }
    // The whole answer was written; or a prefix of it, and a write failed; or nothing.
    ensures { Reports (view_request request.view request.dialect request.kind) input.now
        (W.state sink.old) (W.state sink.new) result }
{
    let Some(stop) = first_stop(request.dialect, request.kind, input) else {
        return answer_accepted(alloc, seed, request, input, sink);
    };
    match parse_from_stop(alloc, seed, request.dialect, request.kind, input, stop) {
        Some(Ok(())) => return answer_accepted(alloc, seed, request, input, sink),
        Some(Err(refusal)) => return answer_refusal(refusal, sink),
        None => return answer_parsed(alloc, seed, request, input, None, sink),
    }
}

/// The same for lines that are accepted.
fn answer_accepted<W: Sink>(
    alloc: Global,
    seed: &RandomState,
    request: FieldRequest,
    input: &[u8],
    sink: &mut W,
) -> Status
    requires short { length input.now ≤ input_limit }
    requires accepted { (v : FieldValue) × IsOnly request.dialect request.kind (joined input.now) v }
    // The whole answer was written; or a prefix of it, and a write failed; or nothing.
    ensures { Reports (view_request request.view request.dialect request.kind) input.now
        (W.state sink.old) (W.state sink.new) result }
{
    match request.view {
        View::Verdict => return answer_made(b"accepted\n", Status::Accepted, sink),
        _ => return answer_joined(alloc, seed, request, input, sink),
    }
}

/// The same by the joined text of the lines; without it, if it can't be allocated.
fn answer_joined<W: Sink>(
    alloc: Global,
    seed: &RandomState,
    request: FieldRequest,
    input: &[u8],
    sink: &mut W,
) -> Status
    requires { length input.now ≤ input_limit }
    // The whole answer was written; or a prefix of it, and a write failed; or nothing.
    ensures { Reports (view_request request.view request.dialect request.kind) input.now
        (W.state sink.old) (W.state sink.new) result }
{
    match join_lines(alloc, input) {
        Ok(text) => {
            return answer_text(alloc, seed, request, input, text.as_slice(), sink);
        }
        Err(_) => return answer_parsed(alloc, seed, request, input, None, sink),
    }
}

/// The same for the joined text of the lines.
fn answer_text<W: Sink>(
    alloc: Global,
    seed: &RandomState,
    request: FieldRequest,
    input: &[u8],
    text: &[u8],
    sink: &mut W,
) -> Status
    requires short { length input.now ≤ input_limit }
    requires text { text.now ≡ joined input.now }
    // The whole answer was written; or a prefix of it, and a write failed; or nothing.
    ensures { Reports (view_request request.view request.dialect request.kind) input.now
        (W.state sink.old) (W.state sink.new) result }
{
    match answer_scanned(alloc, request, text, sink) {
        Some(status) => return status,
        None => return answer_parsed(alloc, seed, request, input, Some(text), sink),
    }
}

/// Writes a view of the input's field, which is built, or why it is refused. `declined` is as in
/// [`parse_input`].
fn answer_parsed<W: Sink>(
    alloc: Global,
    seed: &RandomState,
    request: FieldRequest,
    input: &[u8],
    declined: Option<&[u8]>,
    sink: &mut W,
) -> Status
    requires short { length input.now ≤ input_limit }
    requires declined { IfSome declined (λ text. text.now ≡ joined input.now) }
    // The whole answer was written; or a prefix of it, and a write failed; or nothing.
    ensures { Reports (view_request request.view request.dialect request.kind) input.now
        (W.state sink.old) (W.state sink.new) result }
{
    match parse_input(alloc, seed, request.dialect, request.kind, input, declined) {
        Ok(field) => answer_view(request.view, field, sink),
        Err(refusal) => answer_refusal(refusal, sink),
    }
}

/// Returns what the input's lines mean to a consumer.
fn ask_input<C: Consumer>(
    alloc: Global,
    seed: &RandomState,
    consumer: &C,
    input: &[u8],
) -> Result<C::Answer, AskFault>
    requires { length input.now ≤ input_limit }
    // The result is what the lines mean, or their refusal, or out of memory.
    ensures asks { Asks C.KIND (C.meaning consumer.now) (lines_in input.now) result }
    // A refusal is Syntax or OutOfMemory; or the value has no answer.
    ensures of_text { IfErr result IsAskOfText }
{
    ask_from(alloc, seed, consumer, InputLines::new(input))
}

/// Writes the hops of the input's Cache-Status field, or why it is refused.
fn cache_status<W: Sink>(alloc: Global, seed: &RandomState, input: &[u8], sink: &mut W) -> Status
    requires { length input.now ≤ input_limit }
    // The whole answer was written; or a prefix of it, and a write failed; or nothing.
    ensures { Reports request_is.CacheStatus input.now (W.state sink.old) (W.state sink.new) result }
{
    match ask_input(alloc, seed, &CacheStatus, input) {
        Ok(path) => answer_path(path, sink),
        Err(fault) => answer_ask_fault(fault, sink),
    }
}

/// Writes the priority of the input's Priority field, or why it is refused.
fn priority<W: Sink>(alloc: Global, seed: &RandomState, input: &[u8], sink: &mut W) -> Status
    requires { length input.now ≤ input_limit }
    // The whole answer was written; or a prefix of it, and a write failed; or nothing.
    ensures { Reports request_is.Priority input.now (W.state sink.old) (W.state sink.new) result }
{
    match ask_input(alloc, seed, &PriorityField, input) {
        Ok(asked) => answer_priority(asked.with_defaults(), sink),
        Err(fault) => answer_ask_fault(fault, sink),
    }
}

/// Writes the lines of a choice among these names.
fn answer_choice<W: Sink>(names: &[HeaderName], choice: Choice, sink: &mut W) -> Status
    // A chosen field has one of these names.
    requires { IsPlaceOf names.now choice }
    // Accepted if all lines were written; Stopped if a write failed after a prefix of them.
    ensures { ReportsText (choice_lines names.now choice) status_is.Accepted
        (W.state sink.old) (W.state sink.new) result }
{
    match choice {
        Choice::Field { index, policy } => {
            answer_chosen(index, names[index].as_str().as_bytes(), &policy, sink)
        }
        Choice::Fallback => answer_fallback(sink),
    }
}

/// Writes the line of a refusal for a line of the input.
fn answer_input_fault<W: Sink>(fault: InputFault, sink: &mut W) -> Status
    // The line with this number or a prefix of it is written; nothing for OutOfMemory.
    ensures { ReportsInputFault fault (W.state sink.old) (W.state sink.new) result }
{
    match fault {
        InputFault::Line(number) => answer_refused_line(number, sink),
        InputFault::OutOfMemory => Status::Stopped,
    }
}

/// Writes which of the fields with these names a cache obeys, or which input line is refused.
fn targeted<W: Sink>(
    alloc: Global,
    seed: &RandomState,
    names: &Vec<HeaderName>,
    input: &[u8],
    sink: &mut W,
) -> Status
    // The whole answer was written; or a prefix of it, and a write failed; or nothing.
    ensures { Reports (request_is.Targeted names.now) input.now
        (W.state sink.old) (W.state sink.new) result }
{
    let names = names.as_slice();
    let headers = match read_fields(alloc, seed, names, input) {
        Ok(headers) => headers,
        Err(fault) => return answer_input_fault(fault, sink),
    };
    match select(alloc, seed, names, &headers) {
        Ok(choice) => answer_choice(names, choice, sink),
        Err(_) => Status::Stopped,
    }
}

/// Writes what a cache decides by the fields with these names or by `Cache-Control`, or which input
/// line is refused.
fn decide<W: Sink>(
    alloc: Global,
    seed: &RandomState,
    names: &Vec<HeaderName>,
    age: u64,
    input: &[u8],
    sink: &mut W,
) -> Status
    // The whole answer was written; or a prefix of it, and a write failed; or nothing.
    ensures { Reports (request_is.Decide names.now age) input.now
        (W.state sink.old) (W.state sink.new) result }
{
    let Ok(read) = with_cache_control(alloc, names.as_slice()) else {
        return Status::Stopped;
    };
    let headers = match read_fields(alloc, seed, read.as_slice(), input) {
        Ok(headers) => headers,
        Err(fault) => return answer_input_fault(fault, sink),
    };
    match decision_text(alloc, seed, names.as_slice(), age, &headers) {
        Ok(text) => return answer_made(text.as_slice(), Status::Accepted, sink),
        Err(_) => return Status::Stopped,
    }
}

/// Answers a request for the input.
fn answer<W: Sink>(
    alloc: Global,
    seed: &RandomState,
    request: &Request,
    input: &[u8],
    sink: &mut W,
) -> Status
    requires { length input.now ≤ input_limit }
    // The whole answer was written; or a prefix of it, and a write failed; or nothing.
    ensures { Reports request.now input.now (W.state sink.old) (W.state sink.new) result }
{
    match request {
        Request::Show(dialect, kind) => {
            let field = FieldRequest::new(View::Tree, *dialect, *kind);
            answer_field(alloc, seed, field, input, sink)
        }
        Request::Check(dialect, kind) => {
            let field = FieldRequest::new(View::Verdict, *dialect, *kind);
            answer_field(alloc, seed, field, input, sink)
        }
        Request::Normalise(dialect, kind) => {
            let field = FieldRequest::new(View::Canonical, *dialect, *kind);
            answer_field(alloc, seed, field, input, sink)
        }
        Request::CacheStatus => cache_status(alloc, seed, input, sink),
        Request::Targeted(names) => targeted(alloc, seed, names, input, sink),
        Request::Decide(names, age) => decide(alloc, seed, names, *age, input, sink),
        Request::Priority => priority(alloc, seed, input, sink),
    }
}

/// The capacity for the line that answers a check.
const LINE: usize = 1024;

/// Returns an empty text with the capacity for most answers to an input of this length, or without
/// capacity if the allocation fails. A canonical text is seldom longer than half as much again: a
/// comma between members of one byte becomes a comma and a space.
fn buffer_for(alloc: Global, request: &Request, length: usize) -> Vec<u8>
    requires { length ≤ input_limit }
    ensures { result.items ≡ [] }
{
    let capacity = match request {
        Request::Check(_, _) => LINE.min(2 * length),
        Request::Normalise(_, _) => length + length / 2 + 1,
        _ => 2 * length,
    };
    match Vec::with_capacity(alloc, capacity) {
        Ok(text) => text,
        Err(_) => Vec::new(alloc),
    }
}

/// Answers at once: the text is built in memory and then sent. If an allocation for it fails, the
/// request is answered again, and its text is sent in parts as it is written.
fn answer_at_once<W: Sink>(
    alloc: Global,
    seed: &RandomState,
    request: &Request,
    input: &[u8],
    sink: &mut W,
) -> Status
    requires { length input.now ≤ input_limit }
    // The whole answer was written; or a prefix of it, and a write failed; or nothing.
    ensures { Reports request.now input.now (W.state sink.old) (W.state sink.new) result }
{
    let mut made = Writing::new(buffer_for(alloc, request, input.len()));
    match answer(alloc, seed, request, input, &mut made) {
        Status::Accepted => {
            let text = made.into_inner();
            answer_made(text.as_slice(), Status::Accepted, sink)
        }
        Status::Refused => {
            let text = made.into_inner();
            answer_made(text.as_slice(), Status::Refused, sink)
        }
        _ => {
            drop(made);
            answer_in_parts(alloc, seed, request, input, sink)
        }
    }
}

/// Answers a request for the input after its answer could not be built in memory. A canonical text
/// is written part by part from the field, which is parsed line by line: the lines are not joined,
/// and no nodes are allocated.
fn answer_in_parts<W: Sink>(
    alloc: Global,
    seed: &RandomState,
    request: &Request,
    input: &[u8],
    sink: &mut W,
) -> Status
    requires { length input.now ≤ input_limit }
    // The whole answer was written; or a prefix of it, and a write failed; or nothing.
    ensures { Reports request.now input.now (W.state sink.old) (W.state sink.new) result }
{
    if let Request::Normalise(dialect, kind) = request {
        let field = FieldRequest::new(View::Canonical, *dialect, *kind);
        return answer_parsed(alloc, seed, field, input, None, sink);
    }
    answer(alloc, seed, request, input, sink)
}

/// Returns the message that explains the first refused line of the input; None if no line is
/// refused, if that line is refused only because the header map is full, or if an allocation
/// failed.
fn explain_line(
    alloc: Global,
    seed: &RandomState,
    names: &[HeaderName],
    input: &[u8],
) -> Option<Vec<u8>>
    requires { length input.now ≤ input_limit }
    ensures { IfSome result (λ text. ExplainsLine names.now input.now text.items) }
{
    match read_fields(alloc, seed, names, input) {
        Err(InputFault::Line(number)) => return bad_line_in_words(alloc, names, number, input),
        _ => return None,
    }
}

/// The same for a request that reads `Cache-Control`, too.
fn explain_decided(
    alloc: Global,
    seed: &RandomState,
    names: &Vec<HeaderName>,
    input: &[u8],
) -> Option<Vec<u8>>
    requires { length input.now ≤ input_limit }
    ensures { IfSome result
        (λ text. ExplainsLine (names_with names.now.items) input.now text.items) }
{
    let Ok(read) = with_cache_control(alloc, names.as_slice()) else {
        return None;
    };
    explain_line(alloc, seed, read.as_slice(), input)
}

/// Returns the message that explains why the input's field is refused; None if it is not, or if an
/// allocation failed.
fn explain_field(
    alloc: Global,
    seed: &RandomState,
    dialect: Dialect,
    kind: Kind,
    input: &[u8],
) -> Option<Vec<u8>>
    requires { length input.now ≤ input_limit }
    ensures { IfSome result (λ text. ExplainsField dialect kind input.now text.items) }
{
    match parse_input(alloc, seed, dialect, kind, input, None) {
        Ok(_) => return None,
        Err(refusal) => return refusal_in_words(alloc, refusal, input),
    }
}

/// Returns the message that explains why the input is no path of caches; None if it is one, or if
/// an allocation failed.
fn explain_path(alloc: Global, seed: &RandomState, input: &[u8]) -> Option<Vec<u8>>
    requires { length input.now ≤ input_limit }
    ensures { IfSome result (λ text. ExplainsPath input.now text.items) }
{
    match ask_input(alloc, seed, &CacheStatus, input) {
        Ok(_) => return None,
        Err(AskFault::Field(refusal)) => return refusal_in_words(alloc, refusal, input),
        Err(AskFault::Answer(UseFault::NotACache { index })) => {
            return no_cache_in_words(alloc, index);
        }
        Err(AskFault::Answer(UseFault::OutOfMemory)) => return None,
    }
}

/// Returns the message that explains why the input is refused; None if it is not, if there is no
/// message (the header map is full), or if an allocation failed.
fn explanation(
    alloc: Global,
    seed: &RandomState,
    request: &Request,
    input: &[u8],
) -> Option<Vec<u8>>
    requires { length input.now ≤ input_limit }
    ensures { IfSome result (λ text. Explains request.now input.now text.items) }
{
    match request {
        Request::Show(dialect, kind)
        | Request::Check(dialect, kind)
        | Request::Normalise(dialect, kind) => {
            return explain_field(alloc, seed, *dialect, *kind, input);
        }
        Request::CacheStatus => return explain_path(alloc, seed, input),
        Request::Targeted(names) => return explain_line(alloc, seed, names.as_slice(), input),
        Request::Decide(names, _) => return explain_decided(alloc, seed, names, input),
        Request::Priority => {
            return explain_field(alloc, seed, Dialect::Rfc9651, Kind::Dict, input);
        }
    }
}

/// Explains why the input was refused, if it was and the error stream is a terminal.
fn explain<E: Sink>(
    alloc: Global,
    seed: &RandomState,
    request: &Request,
    input: &[u8],
    status: Status,
    errors: &mut ErrorStream<E>,
)
    requires { length input.now ≤ input_limit }
    ensures { ExplainsWith errors.old.is_terminal status (Explains request.now input.now)
        (E.state errors.old.device) (E.state errors.new.device) }
{
    if errors.explains(status) {
        if let Some(text) = explanation(alloc, seed, request, input) {
            show(text.as_slice(), &mut errors.device);
        }
    }
}
