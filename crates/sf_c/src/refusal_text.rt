//! Error messages of refusals.
ghost use Rattle.std.specs.Prelude.{◌≡◌};
ghost use Rattle.sf_parse.specs.RefusalTexts.{refusal_text};
ghost use Rattle.sf_c.specs.Refusals.{found_by, refusal_by};
ghost use Rattle.sf_c.specs.RefusalTexts.{shown_by};
ghost use Rattle.sf_c.specs.Statuses.{status_at};
ghost use Rattle.sf_c.specs.TextBuffers.{Writes};

use crate::buffer::put_text;
use crate::refusal::SyntaxRefusal;
use crate::status::Status;
use sf_parse::Refusal;
use std::alloc::Global;

impl SyntaxRefusal {
    /// The refusal that the numbers describe.
    fn refusal(&self) -> Refusal
        ensures { result ≡ refusal_by self.now }
    {
        let high = u128::from(self.expected_high) * 0x1_0000_0000_0000_0000;
        Refusal::Syntax {
            place: self.place,
            found: byte_of(self.found),
            expected: u128::from(self.expected_low) + high,
            may_end: self.may_end != 0,
        }
    }
}

/// The error message of a refusal, such as "byte 0x32 '2' at place 2, expected a space or the end".
/// Returns `Answered` if the buffer holds it, `Short` if it is too small, or `OutOfMemory`.
#[unsafe(no_mangle)]
pub extern "C" fn sf_refusal_text(
    alloc: Global,
    refusal: &SyntaxRefusal,
    buffer: &mut [u8],
    required: &mut usize,
) -> u32
    // The message is at the start of the buffer, or the buffer is too small for it.
    ensures { Writes (record { buffer = buffer.old; required = required.old })
        (record { buffer = buffer.new; required = required.new })
        (refusal_text (refusal_by refusal.now)) (status_at result) }
{
    let refusal = refusal.refusal();
    let Ok(text) = format!(in alloc; "{refusal}") else {
        return Status::OutOfMemory.code();
    };
    put_text(text.as_bytes(), buffer, required).code()
}

/// The error message of a refusal, then the number of the line, the place in it, the text as one
/// line and a caret below the place. Returns `Answered` if the buffer holds it, `Short` if it is
/// too small, or `OutOfMemory`.
#[unsafe(no_mangle)]
pub extern "C" fn sf_refusal_in_text(
    alloc: Global,
    refusal: &SyntaxRefusal,
    text: &[u8],
    buffer: &mut [u8],
    required: &mut usize,
) -> u32
    // The message and the text with the caret are at the start of the buffer, or it is too small.
    ensures { Writes (record { buffer = buffer.old; required = required.old })
        (record { buffer = buffer.new; required = required.new })
        (shown_by refusal.now text.now) (status_at result) }
{
    let refusal = refusal.refusal();
    let shown = refusal.in_text(text);
    let Ok(text) = format!(in alloc; "{shown}") else {
        return Status::OutOfMemory.code();
    };
    put_text(text.as_bytes(), buffer, required).code()
}

/// The byte of a number from 0 to 255.
fn byte_of(found: i32) -> Option<u8>
    ensures { result ≡ found_by found }
{
    u8::try_from(found).ok()
}
