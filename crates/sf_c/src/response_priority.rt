//! The priority of a response (RFC 9218 section 8).
ghost use Rattle.std.specs.Prelude.{◌≡◌, unwrap_or, Some};
ghost use Rattle.sf_c.specs.Calls.{ChecksDialect, dialect_at};
ghost use Rattle.sf_c.specs.ResponsePriorities.{AnswersPriority, SaysResponse, WritesResponse};
ghost use Rattle.sf_c.specs.ResponsePriorities.{has_unset_value as is_unset, response_of_flags};
ghost use Rattle.sf_c.specs.Statuses.{status_at};

use crate::call::{dialect_of, parse_dict};
use crate::flag::flag_of;
use crate::priority::urgency_of;
use crate::priority_text::write;
use crate::refusal::SyntaxRefusal;
use crate::seed::Seed;
use crate::status::Status;
use sf_use::{ResponsePriority, Urgency};
use sf_value::Dialect;
use std::alloc::Global;

/// What a server sets by the Priority field of a response (RFC 9218 section 8). In C an
/// `sf_response_priority_flags`.
#[repr(C)]
#[derive(Clone, Copy, Debug, Drop)]
pub struct ResponsePriorityFlags {
    /// The urgency, from 0 to 7; 0 if it is not set.
    pub urgency: u8,
    /// 1 if the response is of use as it arrives, otherwise 0; 0 if it is not set.
    pub incremental: u8,
    /// 1 if the urgency is set, otherwise 0.
    pub has_urgency: u8,
    /// 1 if it is set whether the response is incremental, otherwise 0.
    pub has_incremental: u8,
}

impl ResponsePriorityFlags {
    /// The struct of what is set.
    fn of(response: ResponsePriority) -> ResponsePriorityFlags
        // The struct has what is set, and 0 for what is not.
        ensures { SaysResponse result response }
    {
        ResponsePriorityFlags {
            urgency: number_of(response.urgency),
            incremental: u8::from(response.incremental.unwrap_or(false)),
            has_urgency: u8::from(response.urgency.is_some()),
            has_incremental: u8::from(response.incremental.is_some()),
        }
    }

    /// What the struct sets.
    pub(crate) fn priority(&self) -> ResponsePriority
        ensures { result ≡ response_of_flags self.now }
    {
        ResponsePriority {
            urgency: urgency_of(self.has_urgency, self.urgency),
            incremental: flag_of(self.has_incremental, self.incremental),
        }
    }

    /// Whether the struct has an urgency above 7, or a value other than 0 whose flag is 0.
    fn has_unset_value(&self) -> bool
        ensures { result ≡ is_unset self.now }
    {
        self.urgency > 7
            || (self.has_urgency == 0 && self.urgency != 0)
            || (self.has_incremental == 0 && self.incremental != 0)
    }
}

/// The number of an urgency; 0 if it is not set.
fn number_of(urgency: Option<Urgency>) -> u8
    ensures { result ≡ unwrap_or urgency 0 }
{
    match urgency {
        Some(urgency) => urgency.get(),
        None => 0,
    }
}

/// What the text of the Priority field of a response sets (RFC 9218 section 8). Returns `Answered`
/// and sets `priority`; `Refused` if the text spells no Dictionary, with the refusal in `refusal`;
/// `OutOfMemory`; or `BadCall` for a number that is no dialect.
#[unsafe(no_mangle)]
pub extern "C" fn sf_response_priority(
    alloc: Global,
    seed: &Seed,
    dialect: u32,
    text: &[u8],
    priority: &mut ResponsePriorityFlags,
    refusal: &mut SyntaxRefusal,
) -> u32
    // BadCall if and only if the number is no dialect; otherwise what the Dictionary sets, or why
    // the text spells none.
    ensures { ChecksDialect (dialect_at dialect) (status_at result)
        (λ old new. AnswersPriority old new text.now)
        (record { priority = priority.old; refusal = refusal.old })
        (record { priority = priority.new; refusal = refusal.new }) }
{
    let Some(dialect) = dialect_of(dialect) else {
        return Status::BadCall.code();
    };
    read_response(alloc, seed, dialect, text, priority, refusal).code()
}

/// The text of the Priority field of a response that sets what the struct sets, and nothing else:
/// `u` if it sets an urgency, then `i` if it sets the flag, also to their defaults, since an absent
/// parameter leaves what the client asked for (RFC 9218 section 8). Returns `Answered` if the
/// buffer holds the text, `Short` if it is too small, or `Invalid` if the struct has an urgency
/// above 7, or a value other than 0 whose flag is 0. If the text is empty, the field is not to be
/// sent. Does not allocate.
#[unsafe(no_mangle)]
pub extern "C" fn sf_response_priority_text(
    priority: &ResponsePriorityFlags,
    buffer: &mut [u8],
    required: &mut usize,
) -> u32
    // The buffer holds the canonical text of the Dictionary, or is too small for it; or the struct
    // is not valid.
    ensures { WritesResponse (record { buffer = buffer.old; required = required.old })
        (record { buffer = buffer.new; required = required.new }) priority.now
        (status_at result) }
{
    write_response(priority, buffer, required).code()
}

/// As [`sf_response_priority_text`].
#[tactic(auto, using(crate::proofs::SetValues::writes_response))]
fn write_response(
    priority: &ResponsePriorityFlags,
    buffer: &mut [u8],
    required: &mut usize,
) -> Status
    ensures { WritesResponse (record { buffer = buffer.old; required = required.old })
        (record { buffer = buffer.new; required = required.new }) priority.now (Some result) }
{
    if priority.has_unset_value() {
        return Status::Invalid;
    }
    write(priority.priority().as_asked(), buffer, required)
}

/// Reads what a text sets.
fn read_response(
    alloc: Global,
    seed: &Seed,
    dialect: Dialect,
    text: &[u8],
    priority: &mut ResponsePriorityFlags,
    refusal: &mut SyntaxRefusal,
) -> Status
    // What the Dictionary sets, or the other struct says why the text spells none.
    ensures { AnswersPriority (record { priority = priority.old; refusal = refusal.old })
        (record { priority = priority.new; refusal = refusal.new }) text.now dialect result }
{
    if let Some(response) = ResponsePriority::scan_in(dialect, text) {
        *priority = ResponsePriorityFlags::of(response);
        return Status::Answered;
    }
    response_by_tree(alloc, seed, dialect, text, priority, refusal)
}

/// Reads what a text sets that was declined, from the tree of its value. It is not inlined, so that
/// an accepted text doesn't pay for its stack.
#[inline(never)]
fn response_by_tree(
    alloc: Global,
    seed: &Seed,
    dialect: Dialect,
    text: &[u8],
    priority: &mut ResponsePriorityFlags,
    refusal: &mut SyntaxRefusal,
) -> Status
    ensures { AnswersPriority (record { priority = priority.old; refusal = refusal.old })
        (record { priority = priority.new; refusal = refusal.new }) text.now dialect result }
{
    match parse_dict(alloc, seed, dialect, text, refusal) {
        Ok(dict) => {
            *priority = ResponsePriorityFlags::of(ResponsePriority::from_dict(&dict));
            Status::Answered
        }
        Err(status) => status,
    }
}
