//! Whether a text is accepted.
ghost use Rattle.sf_c.specs.Calls.{ChecksCall, dialect_at, kind_at};
ghost use Rattle.sf_c.specs.Checks.{Checks};
ghost use Rattle.sf_c.specs.Statuses.{status_at};

use crate::call::{dialect_of, kind_of, refuse};
use crate::refusal::SyntaxRefusal;
use crate::seed::Seed;
use crate::status::Status;
use sf_value::{Dialect, Kind};
use sf_view::accepts;

/// Whether the text spells a value of the kind in the dialect (RFC 9651 section 4.2). Returns
/// `Answered` if it does; `Refused` if it doesn't, with the refusal in `refusal`, which is
/// otherwise unchanged; or `BadCall` for a number that is no kind or no dialect. Does not allocate.
#[unsafe(no_mangle)]
pub extern "C" fn sf_check(
    _seed: &Seed,
    dialect: u32,
    kind: u32,
    text: &[u8],
    refusal: &mut SyntaxRefusal,
) -> u32
    // BadCall if and only if a number is no kind or no dialect; otherwise whether the text spells a
    // value.
    ensures { ChecksCall (dialect_at dialect) (kind_at kind) (status_at result)
        (λ old new. Checks old new text.now) refusal.old refusal.new }
{
    let (Some(dialect), Some(kind)) = (dialect_of(dialect), kind_of(kind)) else {
        return Status::BadCall.code();
    };
    check(dialect, kind, text, refusal).code()
}

/// As [`sf_check`], for a dialect and a kind.
fn check(dialect: Dialect, kind: Kind, text: &[u8], refusal: &mut SyntaxRefusal) -> Status
    // Whether the text spells a value; if it is Refused, the struct says why.
    ensures { Checks refusal.old refusal.new text.now dialect kind result }
{
    if accepts(dialect, kind, text) {
        return Status::Answered;
    }
    if refuse(dialect, kind, text, refusal) {
        return Status::Refused;
    }
    Status::Answered
}
