//! Laws of targeted fields (RFC 9213 sections 2.1 and 2.2), each as the contract of a function that
//! does nothing. [`select`], [`select_rules_in`], [`policy_of`] and [`rules_of`] are the calls of
//! `sf_use` with the RFC's sentences as their contracts.
ghost use Rattle.std.specs.Prelude.{◌≡◌, IfOk};
ghost use Rattle.sf_value.specs.declared.dialect.Dialect.TheVariants.{Rfc9651};
ghost use Rattle.sf_rfc_use.specs.Rfc9213.{directives};
ghost use Rattle.sf_rfc_use.specs.TargetedLaws.{ChoiceAgrees, OthersDoNotMatter, PolicyAgrees};
ghost use Rattle.sf_rfc_use.specs.TargetedLaws.{CountsAsInEffect, InoperativeAgrees};
ghost use Rattle.sf_rfc_use.specs.TargetedLaws.{IsChoice, IsRulesChoice, LifetimeAgrees};
ghost use Rattle.sf_rfc_use.specs.TargetedLaws.{RulesAgree, RulesChoiceAgrees, SemanticsAgree};
ghost use Rattle.sf_rfc_use.specs.TargetedLaws.{as_policy, as_rules};

use http_header::{HeaderMap, HeaderName};
use sf_use::{CacheRules, Choice, Policy, RulesChoice};
use sf_value::{Dialect, Dict, OutOfMemory};
use std::alloc::Global;
use std::hash::RandomState;

/// For each dialect, every target list and every header map: the field that is chosen is the one
/// that the cache MUST select (section 2.2), and Fallback means that no listed field is present,
/// valid and non-empty. The same of the choice with all rules. Fields that are not listed don't
/// matter.
pub fn choice_agrees()
    ensures choice { ChoiceAgrees }
    ensures rules { RulesChoiceAgrees }
    ensures others { OthersDoNotMatter }
{}

/// For every Dictionary: the policy, and the rules, are those of its directives. A directive whose
/// value violates its constraint is not consumed, as section 2.1 advises, except that one that
/// forbids something is set, unless it is the Item `?0`. An invalid `max-age` or `s-maxage` is
/// reported as invalid in the rules.
pub fn policy_agrees()
    ensures policy { PolicyAgrees }
    ensures rules { RulesAgree }
    ensures counts { CountsAsInEffect }
{}

/// Without `no-store` and `no-cache`, which make `max-age` inoperative (section 2.2), the lifetime
/// in a private cache is the operative `max-age`. With them it is the same number, beside the
/// flags.
pub fn lifetime_agrees()
    ensures { LifetimeAgrees }
{}

/// With `no-store` or `no-cache` no `max-age` changes what a cache decides, and the response is
/// never used without validation (section 2.2).
pub fn inoperative_agrees()
    ensures { InoperativeAgrees }
{}

/// A response with a valid Dictionary is used as one whose `Cache-Control` has the directives that
/// map to its members (sections 2.1 and 2.2), if `max-age`, `s-maxage`, `must-understand` and
/// `public` keep to their constraint.
pub fn semantics_agree()
    ensures { SemanticsAgree }
{}

/// Calls [`sf_use::select`], with the sentences of section 2.2 as the contract.
///
/// ```
/// // the first listed field with a valid, non-empty value
/// select(alloc, &seed, &targets, &headers)?
/// ```
pub fn select(
    alloc: Global,
    seed: &RandomState,
    targets: &[HeaderName],
    headers: &HeaderMap,
) -> Result<Choice, OutOfMemory>
    ensures { IfOk result (IsChoice Rfc9651 targets.now headers.now) }
{
    sf_use::select(alloc, seed, targets, headers)
}

/// Calls [`sf_use::select_rules_in`], with the sentences of section 2.2 as the contract.
pub fn select_rules_in(
    alloc: Global,
    seed: &RandomState,
    dialect: Dialect,
    targets: &[HeaderName],
    headers: &HeaderMap,
) -> Result<RulesChoice, OutOfMemory>
    ensures { IfOk result (IsRulesChoice dialect targets.now headers.now) }
{
    sf_use::select_rules_in(alloc, seed, dialect, targets, headers)
}

/// Calls [`sf_use::Policy::from_dict`], with the sentences of section 2.1 as the contract.
pub fn policy_of(dict: &Dict) -> Policy
    ensures { result ≡ as_policy (directives dict.now.members) dict.now.members }
{
    Policy::from_dict(dict)
}

/// Calls [`sf_use::CacheRules::from_dict`], with the sentences of section 2.1 as the contract.
pub fn rules_of(dict: &Dict) -> CacheRules
    ensures { result ≡ as_rules (directives dict.now.members) dict.now.members }
{
    CacheRules::from_dict(dict)
}
