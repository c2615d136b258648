//! The Cache-Status field that is sent on, with the own hop.
ghost use Rattle.std.specs.Prelude.{◌≡◌, [], ◌∷◌, ◌++◌, IfOk, Some, MatchResult};
ghost use Rattle.sf_use.specs.declared.cache_status.appended.AppendFault.TheVariants as fault_is;
ghost use Rattle.sf_use.specs.CacheStatus.Appended.{AppendsIn, IsSyntaxFault, append_fault_text};
ghost use Rattle.sf_use.specs.CacheStatus.Members.{entry};

use crate::cache_status::appending::append_hop;
use crate::cache_status::hop::Hop;
use sf_field::{FieldLines, parse_from};
use sf_parse::Refusal;
use sf_value::{Dialect, Field, Kind, List, OutOfMemory};
use std::alloc::Global;
use std::error::Error;
use std::fmt;
use std::hash::RandomState;

/// The Cache-Status field after the own hop was appended to the lines that were received.
///
/// ```
/// match append_to_lines(alloc, &seed, Dialect::Rfc8941, values, &hop)? {
///     Appended::Joined(list) => .. // replaces the lines: a;hit, edge;fwd=miss
///     Appended::Apart { own, refusal } => .. // replaces them, or nothing is sent: edge;fwd=miss
/// }
/// ```
#[derive(Debug, Drop)]
pub enum Appended {
    /// The members of the lines, and then that of the own hop.
    Joined(List),
    /// The lines are malformed. Whoever parses them ignores them as a whole (RFC 9651 section 4.2),
    /// and also the own hop, if it is appended to them or sent in a further line, since lines are
    /// joined by a comma.
    Apart {
        /// The member of the own hop alone, to be sent in place of the lines.
        own: List,
        /// Where and why the lines are malformed.
        refusal: Refusal,
    },
}

/// Why the own hop is not appended.
#[derive(Clone, Copy, Debug, PartialEq, Eq)]
pub enum AppendFault {
    /// The hop has both `hit` and `fwd`, of which only one should appear (RFC 9211 section 2.1):
    /// its outcome is [`crate::Outcome::Conflict`].
    Conflict,
    /// An allocation failed, or the lines have 2^64 bytes or more, which no memory can hold.
    OutOfMemory,
}

impl fmt::Display for AppendFault {
    ghost output = { λ fault. Some (append_fault_text fault) };

    fn fmt<W: fmt::Write>(&self, f: &mut fmt::Formatter<W>) -> fmt::Result {
        match self {
            AppendFault::Conflict => write!(f, "the hop has both hit and fwd"),
            AppendFault::OutOfMemory => write!(f, "out of memory"),
        }
    }
}

impl Error for AppendFault {}

impl From<OutOfMemory> for AppendFault {
    ghost from_gives = { λ _ e. e ≡ fault_is.OutOfMemory };

    fn from(_fault: OutOfMemory) -> AppendFault {
        AppendFault::OutOfMemory
    }
}

/// Appends the member of the own hop to the lines of a Cache-Status field, as [`append_hop`] does
/// to its List (RFC 9211 section 2). Malformed lines are not appended to: their members can't be
/// told from one another, and the field would be ignored with the own hop. The own hop is then
/// returned apart, with the refusal. A hop with both `hit` and `fwd` is refused before the lines are
/// read.
///
/// ```
/// let values = headers.get_all(&cache_status).iter();
/// let appended = append_to_lines(alloc, &seed, Dialect::Rfc8941, values, &hop)?;
/// ```
pub fn append_to_lines<'a, L: FieldLines<'a>>(
    alloc: Global,
    seed: &RandomState,
    dialect: Dialect,
    lines: L,
    hop: &Hop,
) -> Result<Appended, AppendFault>
    // The List of the lines with the hop's member at its end; or the hop's member alone, and the
    // exact refusal of the lines. Conflict only for a hop with both parameters.
    ensures { AppendsIn dialect (L.lines lines) hop.now result }
{
    if hop.outcome.is_conflict() {
        return Err(AppendFault::Conflict);
    }
    let field = match parse_from(alloc, seed, dialect, Kind::List, lines) {
        Ok(field) => field,
        Err(refusal) => {
            let refusal = syntax_fault(refusal)?;
            let own = with_hop(alloc, seed, List::new(alloc), hop)?;
            return Ok(Appended::Apart { own, refusal });
        }
    };
    let Field::List(list) = field else {
        unreachable!();
    };
    let list = with_hop(alloc, seed, list, hop)?;
    Ok(Appended::Joined(list))
}

/// Returns the List with the hop's member at its end.
fn with_hop(alloc: Global, seed: &RandomState, list: List, hop: &Hop) -> Result<List, OutOfMemory>
    ensures { IfOk result (λ more. more.members ≡ list.members ++ entry hop.now ∷ []) }
{
    let mut list = list;
    append_hop(alloc, seed, &mut list, hop)?;
    Ok(list)
}

/// Returns the refusal of malformed lines; any other one is out of memory.
fn syntax_fault(refusal: Refusal) -> Result<Refusal, AppendFault>
    ensures { MatchResult result (λ e. (e ≡ refusal) × IsSyntaxFault e)
        (λ e. e ≡ fault_is.OutOfMemory) }
{
    match refusal {
        Refusal::Syntax { .. } => return Ok(refusal),
        Refusal::OutOfMemory | Refusal::TooLong { .. } | Refusal::ReadFault { .. } => {
            return Err(AppendFault::OutOfMemory);
        }
    }
}
