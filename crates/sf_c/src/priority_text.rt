//! The text of a Priority field.
ghost use Rattle.std.specs.Prelude.{◌≡◌, ◌≤◌, ◌⊎◌, [], ◌∷◌, Some, decimal};
ghost use Rattle.sf_value.specs.declared.value.Field.TheVariants as field_is;
ghost use Rattle.sf_value.specs.Grammar.Canonical.{canon};
ghost use Rattle.sf_c.specs.Priorities.{WritesPriority, dict_of_params};
ghost use Rattle.sf_c.specs.Statuses.{status_at};
ghost use Rattle.sf_c.specs.TextBuffers.{PutsText};

use crate::buffer::put_text;
use crate::priority::PriorityFlags;
use crate::status::Status;
use sf_use::{Asked, Urgency};

/// The text of the Priority field of a request (RFC 9218 section 5) that sets what the struct sets,
/// and nothing else: `u` if it sets an urgency, then `i` if it sets the flag, also to their
/// defaults. Returns `Answered` if the buffer holds the text, `Short` if it is too small, or
/// `Invalid` if the struct has an urgency above 7, or a value other than the default whose flag is
/// 0. If the text is empty, the field is not to be sent. Does not allocate.
#[unsafe(no_mangle)]
pub extern "C" fn sf_priority_text(
    priority: &PriorityFlags,
    buffer: &mut [u8],
    required: &mut usize,
) -> u32
    // The buffer holds the canonical text of the Dictionary, or is too small for it; or the struct
    // is not valid.
    ensures writes { WritesPriority (record { buffer = buffer.old; required = required.old })
        (record { buffer = buffer.new; required = required.new }) priority.now
        (status_at result) }
    // A text has at most 9 bytes.
    ensures short { (required.new ≤ 9) ⊎ (required.new ≡ required.old) }
{
    write_priority(priority, buffer, required).code()
}

/// As [`sf_priority_text`].
#[tactic(auto, using(crate::proofs::SetValues::writes_priority))]
fn write_priority(priority: &PriorityFlags, buffer: &mut [u8], required: &mut usize) -> Status
    ensures writes { WritesPriority (record { buffer = buffer.old; required = required.old })
        (record { buffer = buffer.new; required = required.new }) priority.now (Some result) }
    ensures short { (required.new ≤ 9) ⊎ (required.new ≡ required.old) }
{
    if priority.has_unset_value() {
        return Status::Invalid;
    }
    write(priority.asked(), buffer, required)
}

/// Writes the text that sets these parameters.
pub(crate) fn write(asked: Asked, buffer: &mut [u8], required: &mut usize) -> Status
    ensures puts { PutsText (record { buffer = buffer.old; required = required.old })
        (record { buffer = buffer.new; required = required.new })
        (canon (field_is.Dict (dict_of_params asked))) (Some result) }
    ensures short { required.new ≤ 9 }
{
    match (asked.urgency, asked.incremental) {
        (None, None) => return put_text(b"", buffer, required),
        (None, Some(true)) => return put_text(b"i", buffer, required),
        (None, Some(false)) => return put_text(b"i=?0", buffer, required),
        (Some(urgency), None) => {
            let text = [b'u', b'=', digit(urgency)];
            return put_text(&text, buffer, required);
        }
        (Some(urgency), Some(true)) => {
            let text = [b'u', b'=', digit(urgency), b',', b' ', b'i'];
            return put_text(&text, buffer, required);
        }
        (Some(urgency), Some(false)) => {
            let text = [
                b'u',
                b'=',
                digit(urgency),
                b',',
                b' ',
                b'i',
                b'=',
                b'?',
                b'0',
            ];
            return put_text(&text, buffer, required);
        }
    }
}

/// The digit of an urgency.
pub(crate) fn digit(urgency: Urgency) -> u8
    ensures { result ∷ [] ≡ decimal urgency }
{
    b'0' + urgency.get()
}
