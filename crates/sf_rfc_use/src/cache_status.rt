//! Laws of Cache-Status (RFC 9211 section 2), each as the contract of a function that does nothing.
//! [`path_of`] is the consumer with the RFC's sentences as its contract.
ghost use Rattle.std.specs.Prelude.{◌≡◌};
ghost use Rattle.sf_value.specs.declared.value.Kind.TheVariants.{List};
ghost use Rattle.sf_value.specs.Grammar.Fields.{kind_of};
ghost use Rattle.sf_rfc_use.specs.CacheStatusLaws.{HopsAgree, LinesAgree, OutcomesAgree};
ghost use Rattle.sf_rfc_use.specs.CacheStatusLaws.{ReasonsAgree, PassedAgrees, ServedAgrees};
ghost use Rattle.sf_rfc_use.specs.CacheStatusLaws.{AddingAgrees, IsPathOf};

use sf_field::{Consumer, UseFault};
use sf_use::{CachePath, CacheStatus};
use sf_value::Field;
use std::alloc::Global;

/// For every List: if each member is a String or a Token, the hops are the caches' handlings as the
/// RFC states them, in order; otherwise the first member that is neither is named. The same of the
/// lines of a field in each dialect, by the steps of RFC 9651 section 4.2.
pub fn hops_agree()
    ensures lists { HopsAgree }
    ensures lines { LinesAgree }
{}

/// A hop's outcome is what `hit` and `fwd` say (sections 2.1 and 2.2), its reason is that of the
/// token, and the other parameters of a forwarded request are what sections 2.3, 2.5 and 2.6 say.
pub fn outcomes_agree()
    ensures outcomes { OutcomesAgree }
    ensures reasons { ReasonsAgree }
    ensures passed { PassedAgrees }
{}

/// The cache that served the response is the one closest to the user of those that satisfied the
/// request and did not forward it.
pub fn served_agrees()
    ensures { ServedAgrees }
{}

/// For each dialect, all lines and every hop: what [`sf_use::append_to_lines`] returns has the
/// members that the lines parse as, and one more at its end that represents the hop (section 2), of
/// whose parameters `hit` and `fwd` at most one appears (section 2.1). A hop is refused only if it
/// would have both. If the lines don't parse, the own member is the only one.
pub fn adding_agrees()
    ensures { AddingAgrees }
{}

/// Calls the consumer [`CacheStatus`], with the sentences of section 2 as the contract: if there is
/// a path, each member of the List identifies a cache, and the path has its handling; `NotACache`
/// has the index of the first that identifies none.
///
/// # Requires
///
/// The field is a List.
pub fn path_of(alloc: Global, field: &Field) -> Result<CachePath, UseFault>
    requires { kind_of field.now ≡ List }
    ensures { IsPathOf field.now result }
{
    CacheStatus.answer(alloc, field)
}
