//! Answers: each writes a whole text and returns the status. The answer is computed before its
//! first byte is written.
ghost use Rattle.std.specs.Prelude.{◌≡◌, ◌⊎◌, ℕ, List, codes, MatchOption};
ghost use Rattle.sf_value.specs.declared.dialect.Dialect.{Dialect as Which};
ghost use Rattle.sf_value.specs.Devices.{SinkState};
ghost use Rattle.sf_write.specs.Writing.{Follows, Writes};
ghost use Rattle.sf_view.specs.Views.{IsViewed};
ghost use Rattle.sf_tool.specs.declared.status.Status.TheVariants as status_is;
ghost use Rattle.sf_tool.specs.ChoiceLines.{field_lines, refused_line};
ghost use Rattle.sf_tool.specs.PathLines.{not_a_cache_line, path_lines};
ghost use Rattle.sf_tool.specs.PriorityLine.{priority_line};
ghost use Rattle.sf_tool.specs.Run.{ReportsText, ReportsRefusal, ReportsAskFault, IsOfText, IsAskOfText};
ghost use Rattle.sf_tool.specs.Run.{canonical_line, view_text};
ghost use Rattle.sf_tool.specs.Scanning.{ReportsOnly};
ghost use Rattle.sf_tool.specs.Texts.{too_long_line};

use crate::choice::put_chosen;
use crate::path::put_path;
use crate::priority::put_priority;
use crate::refusing::{put_count, put_refusal};
use crate::status::Status;
use crate::tree::put_tree;
use sf_field::{AskFault, UseFault};
use sf_parse::Refusal;
use sf_use::{CachePath, Policy, Priority};
use sf_value::{Dialect, Field, Kind, Sink};
use sf_view::{Node, accepts, scan_settled};
use sf_write::{Sent, put, put_field};
use std::alloc::Global;

/// Returns how an answer ends: with its status if the whole text was written, otherwise `Stopped`.
fn ended(sent: Sent, status: Status) -> Status
    requires { status ≡ status_is.Accepted ⊎ status ≡ status_is.Refused }
    // This holds for every text that was sent from its beginning.
    ensures { (old new : SinkState) (text : List ℕ) → Writes old new 0 sent text
        → ReportsText text status old new result }
{
    match sent {
        Ok(_) => status,
        Err(_) => Status::Stopped,
    }
}

/// Writes a text that was built before, and returns its status, which is `Accepted` or `Refused`;
/// or `Stopped` if a write failed. Does not allocate.
pub fn answer_made<W: Sink>(text: &[u8], status: Status, sink: &mut W) -> Status
    requires { status ≡ status_is.Accepted ⊎ status ≡ status_is.Refused }
    // This status if the whole text was written; Stopped if a write failed after a prefix of it.
    ensures { ReportsText text.now status (W.state sink.old) (W.state sink.new) result }
{
    ended(put(text, Ok(0), sink), status)
}

/// How a command prints the field of its input.
#[derive(Clone, Copy)]
pub(crate) enum View {
    /// `show`: its tree.
    Tree,
    /// `check`: that it is accepted.
    Verdict,
    /// `normalise`: its canonical text, and a line feed.
    Canonical,
}

/// A request for the field of the input.
#[derive(Clone, Copy)]
pub(crate) struct FieldRequest {
    /// How the field is printed.
    pub view: View,
    /// The dialect by which it is read.
    pub dialect: Dialect,
    /// The kind as which it is read.
    pub kind: Kind,
}

impl FieldRequest {
    /// Returns the request for this view of a field.
    pub fn new(view: View, dialect: Dialect, kind: Kind) -> FieldRequest
        ensures { result ≡ record { view = view; dialect = dialect; kind = kind } }
    {
        FieldRequest {
            view,
            dialect,
            kind,
        }
    }
}

/// Writes a view of a field after what was sent before.
fn put_view<W: Sink>(view: View, field: &Field, before: Sent, out: &mut W) -> Sent
    ensures { Follows W.state W.send_gives out.old out.new before result
        (view_text view field.now) }
{
    match view {
        View::Tree => put_tree(field, before, out),
        View::Verdict => put(b"accepted\n", before, out),
        View::Canonical => {
            let sent = put_field(field, before, out);
            return put(b"\n", sent, out);
        }
    }
}

/// Writes a view of a field.
pub(crate) fn answer_view<W: Sink>(view: View, field: Field, sink: &mut W) -> Status
    // Accepted if the whole view was written; Stopped if a write failed after a prefix of it.
    ensures { ReportsText (view_text view field) status_is.Accepted
        (W.state sink.old) (W.state sink.new) result }
{
    ended(put_view(view, &field, Ok(0), sink), Status::Accepted)
}

/// The number of nodes on the stack, which are tried before any is allocated.
const STACK_NODES: usize = 32;

/// Writes the canonical text of the field that nodes describe, and a line feed.
fn answer_viewed<W: Sink>(nodes: &sf_view::View, kind: Kind, sink: &mut W) -> Status
    // Accepted if the whole text was written; Stopped if a write failed after a prefix of it.
    ensures { (d : Which) (t : List ℕ) → IsViewed d kind t nodes.now
        → ReportsOnly canonical_line d kind t (W.state sink.old) (W.state sink.new) result }
{
    let sent = sf_view::put_view(nodes, kind, Ok(0), sink);
    ended(put(b"\n", sent, sink), Status::Accepted)
}

/// Writes a view of the field that a text spells, without building it. `None` if it is the tree, or
/// if a scan declined the text: it is refused, or [`answer_nodes`] makes no nodes of it; then
/// nothing was written.
pub(crate) fn answer_scanned<W: Sink>(
    alloc: Global,
    request: FieldRequest,
    text: &[u8],
    sink: &mut W,
) -> Option<Status>
    // Accepted if the whole text was written; Stopped if a write failed after a prefix of it.
    ensures { MatchOption result (W.state sink.new ≡ W.state sink.old)
        (λ status. ReportsOnly (view_text request.view) request.dialect request.kind text.now
        (W.state sink.old) (W.state sink.new) status) }
{
    match request.view {
        View::Tree => return None,
        View::Verdict => {
            if accepts(request.dialect, request.kind, text) {
                return Some(answer_made(b"accepted\n", Status::Accepted, sink));
            }
            return None;
        }
        View::Canonical => {
            return answer_nodes(alloc, request.dialect, request.kind, text, sink);
        }
    }
}

/// Writes the canonical text of the field that a text spells, and a line feed, from nodes that
/// point into the text. `None` if there are no nodes, because the text is refused, keys of
/// parameters are repeated or too many to compare, too many keys have one hash, or an allocation
/// failed; then nothing was written.
fn answer_nodes<W: Sink>(
    alloc: Global,
    dialect: Dialect,
    kind: Kind,
    text: &[u8],
    sink: &mut W,
) -> Option<Status>
    // Accepted if the whole text was written; Stopped if a write failed after a prefix of it.
    ensures { MatchOption result (W.state sink.new ≡ W.state sink.old)
        (λ status. ReportsOnly canonical_line dialect kind text.now
        (W.state sink.old) (W.state sink.new) status) }
{
    let mut few = [Node::NONE; STACK_NODES];
    if let Ok(view) = sf_view::View::scan(dialect, kind, text, &mut few) {
        return Some(answer_viewed(&view, kind, sink));
    }
    // More nodes don't help: the text is refused, or keys of parameters are repeated or too many.
    if kind != Kind::Dict && !are_used_up(&few) {
        return None;
    }
    answer_many_nodes(alloc, dialect, kind, text, sink)
}

/// Whether a scan may have had too few nodes: one of the last three was then written. When nodes
/// run out, at most two are not written yet, those of an Inner List and of an Item in it: they are
/// written after the nodes of their parts.
fn are_used_up(nodes: &[Node; STACK_NODES]) -> bool {
    nodes[STACK_NODES - 3..].iter().any(|node| node.size != 0)
}

/// The same as [`answer_nodes`], with more nodes than are on the stack, and for a Dictionary in
/// which a key is repeated.
fn answer_many_nodes<W: Sink>(
    alloc: Global,
    dialect: Dialect,
    kind: Kind,
    text: &[u8],
    sink: &mut W,
) -> Option<Status>
    ensures { MatchOption result (W.state sink.new ≡ W.state sink.old)
        (λ status. ReportsOnly canonical_line dialect kind text.now
        (W.state sink.old) (W.state sink.new) status) }
{
    let mut nodes = Vec::new(alloc);
    let view = scan_settled(alloc, dialect, kind, text, &mut nodes)?;
    Some(answer_viewed(&view, kind, sink))
}

/// Writes the line of a refusal; nothing if an allocation failed.
pub(crate) fn answer_refusal<W: Sink>(refusal: Refusal, sink: &mut W) -> Status
    // The refusal is Syntax or OutOfMemory.
    requires { IsOfText refusal }
    // The line of the refusal or a prefix of it is written; nothing for OutOfMemory.
    ensures { ReportsRefusal refusal (W.state sink.old) (W.state sink.new) result }
{
    match refusal {
        Refusal::Syntax {
            place,
            found,
            expected,
            may_end,
        } => {
            let sent = put_refusal(place, found, expected, may_end, Ok(0), sink);
            ended(sent, Status::Refused)
        }
        Refusal::OutOfMemory => Status::Stopped,
        Refusal::TooLong { .. } | Refusal::ReadFault { .. } => unreachable!(),
    }
}

/// Writes the line for an input that is longer than this limit, in bytes.
pub(crate) fn answer_too_long<W: Sink>(limit: u64, sink: &mut W) -> Status
    // Refused if the whole line was written; Stopped if a write failed after a prefix of it.
    ensures { ReportsText (too_long_line limit) status_is.Refused
        (W.state sink.old) (W.state sink.new) result }
{
    let sent = put_count(b"refused too long ", limit, Ok(0), sink);
    ended(sent, Status::Refused)
}

/// Writes the lines of a path of caches.
pub(crate) fn answer_path<W: Sink>(path: CachePath, sink: &mut W) -> Status
    // Accepted if all lines were written; Stopped if a write failed after a prefix of them.
    ensures { ReportsText (path_lines path) status_is.Accepted
        (W.state sink.old) (W.state sink.new) result }
{
    ended(put_path(&path, Ok(0), sink), Status::Accepted)
}

/// Writes the line of a refusal for the member at this index, which does not name a cache.
fn answer_not_a_cache<W: Sink>(index: usize, sink: &mut W) -> Status
    // Refused if the whole line was written; Stopped if a write failed after a prefix of it.
    ensures { ReportsText (not_a_cache_line index) status_is.Refused
        (W.state sink.old) (W.state sink.new) result }
{
    let sent = put_count(b"refused not a cache ", index as u64, Ok(0), sink);
    ended(sent, Status::Refused)
}

/// Writes why a consumer has no answer; nothing if an allocation failed.
pub(crate) fn answer_ask_fault<W: Sink>(fault: AskFault, sink: &mut W) -> Status
    // A refusal is Syntax or OutOfMemory.
    requires { IsAskOfText fault }
    // The line of the refusal or of the member is written, or a prefix of it; nothing for
    // OutOfMemory.
    ensures { ReportsAskFault fault (W.state sink.old) (W.state sink.new) result }
{
    match fault {
        AskFault::Field(refusal) => answer_refusal(refusal, sink),
        AskFault::Answer(UseFault::NotACache { index }) => answer_not_a_cache(index, sink),
        AskFault::Answer(UseFault::OutOfMemory) => Status::Stopped,
    }
}

/// Writes the line of a priority.
pub(crate) fn answer_priority<W: Sink>(priority: Priority, sink: &mut W) -> Status
    // Accepted if the whole line was written; Stopped if a write failed after a prefix of it.
    ensures { ReportsText (priority_line priority) status_is.Accepted
        (W.state sink.old) (W.state sink.new) result }
{
    ended(put_priority(priority, Ok(0), sink), Status::Accepted)
}

/// Writes the lines of the chosen field, which has this name.
pub(crate) fn answer_chosen<W: Sink>(
    index: usize,
    name: &[u8],
    policy: &Policy,
    sink: &mut W,
) -> Status
    // Accepted if all lines were written; Stopped if a write failed after a prefix of them.
    ensures { ReportsText (field_lines index name.now policy.now) status_is.Accepted
        (W.state sink.old) (W.state sink.new) result }
{
    ended(
        put_chosen(index, name, policy, Ok(0), sink),
        Status::Accepted,
    )
}

/// Writes the line for no chosen field.
pub(crate) fn answer_fallback<W: Sink>(sink: &mut W) -> Status
    // Accepted if the whole line was written; Stopped if a write failed after a prefix of it.
    ensures { ReportsText (codes "fallback\n") status_is.Accepted
        (W.state sink.old) (W.state sink.new) result }
{
    ended(put(b"fallback\n", Ok(0), sink), Status::Accepted)
}

/// Writes the line of a refusal for the input line of this number.
pub(crate) fn answer_refused_line<W: Sink>(number: u64, sink: &mut W) -> Status
    // Refused if the whole line was written; Stopped if a write failed after a prefix of it.
    ensures { ReportsText (refused_line number) status_is.Refused
        (W.state sink.old) (W.state sink.new) result }
{
    ended(
        put_count(b"refused line ", number, Ok(0), sink),
        Status::Refused,
    )
}
