//! Priorities (RFC 9218).
ghost use Rattle.std.specs.Prelude.{◌≡◌, Some};
ghost use Rattle.sf_value.specs.declared.dialect.Dialect.TheVariants.{Rfc9651};
ghost use Rattle.sf_c.specs.Calls.{ChecksDialect, dialect_at};
ghost use Rattle.sf_c.specs.Priorities.{AsksFor, SaysAsked, params_of_flags, urgency_at};
ghost use Rattle.sf_c.specs.Priorities.{has_unset_value as is_unset};
ghost use Rattle.sf_c.specs.Statuses.{status_at};

use crate::call::{dialect_of, parse_dict};
use crate::flag::flag_of;
use crate::refusal::SyntaxRefusal;
use crate::seed::Seed;
use crate::status::Status;
use sf_use::{Asked, Priority, PriorityField, Urgency};
use sf_value::Dialect;
use std::alloc::Global;

/// The parameters of a Priority field, with the defaults for absent ones (RFC 9218 section 4). In C
/// an `sf_priority_flags`.
#[repr(C)]
#[derive(Clone, Copy, Debug, Drop)]
pub struct PriorityFlags {
    /// The urgency, from 0 to 7; 3 if the field does not set it.
    pub urgency: u8,
    /// 1 if the response is of use as it arrives, otherwise 0.
    pub incremental: u8,
    /// 1 if the field sets the urgency, otherwise 0.
    pub has_urgency: u8,
    /// 1 if the field sets whether the response is incremental, otherwise 0.
    pub has_incremental: u8,
}

impl PriorityFlags {
    /// The struct of the parameters.
    pub(crate) fn of(asked: Asked) -> PriorityFlags
        // The struct has the parameters, and the defaults for absent ones.
        ensures { SaysAsked result asked }
    {
        let filled = asked.with_defaults();
        PriorityFlags {
            urgency: filled.urgency.get(),
            incremental: u8::from(filled.incremental),
            has_urgency: u8::from(asked.urgency.is_some()),
            has_incremental: u8::from(asked.incremental.is_some()),
        }
    }

    /// The parameters that the struct sets.
    pub(crate) fn asked(&self) -> Asked
        ensures { result ≡ params_of_flags self.now }
    {
        Asked {
            urgency: urgency_of(self.has_urgency, self.urgency),
            incremental: flag_of(self.has_incremental, self.incremental),
        }
    }

    /// Whether the struct has an urgency above 7, or a value other than 0 whose flag is 0. The
    /// urgency 3 without its flag does not count: reading a field that sets none writes it.
    pub(crate) fn has_unset_value(&self) -> bool
        ensures { result ≡ is_unset self.now }
    {
        self.urgency > 7
            || (self.has_urgency == 0 && self.urgency != 0 && self.urgency != 3)
            || (self.has_incremental == 0 && self.incremental != 0)
    }
}

/// The parameters in the text of the Priority field of a request (RFC 9218 section 5), by RFC 9651.
/// Returns `Answered` and sets `priority`; `Refused` if the text spells no Dictionary, with the
/// refusal in `refusal`; or `OutOfMemory`.
#[unsafe(no_mangle)]
pub extern "C" fn sf_priority(
    alloc: Global,
    seed: &Seed,
    text: &[u8],
    priority: &mut PriorityFlags,
    refusal: &mut SyntaxRefusal,
) -> u32
    // The parameters of the Dictionary, or the other struct says why the text spells none.
    ensures { ChecksDialect (Some Rfc9651) (status_at result)
        (λ old new. AsksFor old new text.now)
        (record { priority = priority.old; refusal = refusal.old })
        (record { priority = priority.new; refusal = refusal.new }) }
{
    read_params(alloc, seed, Dialect::Rfc9651, text, priority, refusal).code()
}

/// The parameters in the text of the Priority field of a request in a dialect, as by
/// [`sf_priority`]; or `BadCall` for a number that is no dialect.
#[unsafe(no_mangle)]
pub extern "C" fn sf_priority_in(
    alloc: Global,
    seed: &Seed,
    dialect: u32,
    text: &[u8],
    priority: &mut PriorityFlags,
    refusal: &mut SyntaxRefusal,
) -> u32
    // BadCall if and only if the number is no dialect; otherwise the parameters of the Dictionary,
    // or why the text spells none.
    ensures { ChecksDialect (dialect_at dialect) (status_at result)
        (λ old new. AsksFor old new text.now)
        (record { priority = priority.old; refusal = refusal.old })
        (record { priority = priority.new; refusal = refusal.new }) }
{
    let Some(dialect) = dialect_of(dialect) else {
        return Status::BadCall.code();
    };
    read_params(alloc, seed, dialect, text, priority, refusal).code()
}

/// The urgency, if it is set and in range.
pub(crate) fn urgency_of(has_urgency: u8, urgency: u8) -> Option<Urgency>
    ensures { result ≡ urgency_at has_urgency urgency }
{
    if has_urgency == 0 {
        return None;
    }
    Urgency::new(urgency).ok()
}

/// Reads the parameters of a text.
fn read_params(
    alloc: Global,
    seed: &Seed,
    dialect: Dialect,
    text: &[u8],
    priority: &mut PriorityFlags,
    refusal: &mut SyntaxRefusal,
) -> Status
    // The parameters of the Dictionary, or the other struct says why the text spells none.
    ensures { AsksFor (record { priority = priority.old; refusal = refusal.old })
        (record { priority = priority.new; refusal = refusal.new }) text.now dialect result }
{
    if let Some(asked) = PriorityField::scan_in(dialect, text) {
        *priority = PriorityFlags::of(asked);
        return Status::Answered;
    }
    params_by_tree(alloc, seed, dialect, text, priority, refusal)
}

/// Reads the parameters of a text that was declined, from the tree of its value. It is not inlined,
/// so that an accepted text doesn't pay for its stack.
#[inline(never)]
fn params_by_tree(
    alloc: Global,
    seed: &Seed,
    dialect: Dialect,
    text: &[u8],
    priority: &mut PriorityFlags,
    refusal: &mut SyntaxRefusal,
) -> Status
    // The parameters of the Dictionary, or the other struct says why the text spells none.
    ensures { AsksFor (record { priority = priority.old; refusal = refusal.old })
        (record { priority = priority.new; refusal = refusal.new }) text.now dialect result }
{
    match parse_dict(alloc, seed, dialect, text, refusal) {
        Ok(dict) => {
            *priority = PriorityFlags::of(Priority::from_dict(&dict));
            Status::Answered
        }
        Err(status) => status,
    }
}
