//! What a cache decides about a response (RFC 9111 sections 3 and 4.2).
ghost use Rattle.std.specs.Prelude.{◌≡◌, Some};
ghost use Rattle.sf_c.specs.Decisions.{Decides, SaysDecision, are_unset, cache_at};
ghost use Rattle.sf_c.specs.Decisions.{cause_number as number_of_cause};
ghost use Rattle.sf_c.specs.Decisions.{fresh_seconds as seconds_if_fresh, rules_for};
ghost use Rattle.sf_c.specs.Decisions.{has_unset_seconds as is_unset_in};
ghost use Rattle.sf_c.specs.Decisions.{other_lifetime as lifetime_of};
ghost use Rattle.sf_c.specs.Decisions.{reuse_number as number_of_reuse};
ghost use Rattle.sf_c.specs.Refusals.{flag_number};
ghost use Rattle.sf_c.specs.Statuses.{status_at};
ghost use Rattle.sf_use.specs.Caching.{permits_authorized, permits_storing};

use crate::cache_control::seconds_of;
use crate::cache_rules::RulesFlags;
use crate::status::Status;
use sf_use::{CacheKind, CacheRules, Cause, Decision, Reuse};

/// What a cache knows of a response beside its directives. In C an `sf_response`.
#[repr(C)]
#[derive(Clone, Copy, Debug, Drop)]
pub struct Response {
    /// Its age in seconds (RFC 9111 section 4.2.3).
    pub age: u64,
    /// The lifetime in seconds by `Expires`, or by a heuristic (sections 4.2.1 and 4.2.2); 0 if
    /// there is none.
    pub lifetime: u64,
    /// 1 if there is such a lifetime, otherwise 0.
    pub has_lifetime: u8,
    /// 1 if the cache understands the status code and implements its requirements (section
    /// 5.2.2.3), otherwise 0.
    pub is_understood: u8,
}

/// What a cache decides about a response. In C an `sf_decision`.
#[repr(C)]
#[derive(Clone, Copy, Debug, Drop)]
pub struct DecisionFlags {
    /// For how many seconds it stays fresh; 0 if it isn't.
    pub seconds: u64,
    /// How it may be used: an `sf_reuse`.
    pub reuse: u8,
    /// The directive that decided: an `sf_cause`.
    pub cause: u8,
    /// 1 if a directive permits to store it, whatever its status code, otherwise 0.
    pub allows_storing: u8,
    /// 1 if a directive permits a shared cache to store it, though the request had `Authorization`,
    /// otherwise 0.
    pub allows_authorized: u8,
}

impl Response {
    /// The directives that count: `no-store` is ignored beside a `must-understand` that is met.
    fn counted(&self, rules: CacheRules) -> CacheRules
        ensures { result ≡ rules_for self.now rules }
    {
        if self.is_understood == 0 {
            return rules;
        }
        rules.understood()
    }

    /// The lifetime, if there is one.
    fn other_lifetime(&self) -> Option<u64>
        ensures { result ≡ lifetime_of self.now }
    {
        seconds_of(self.has_lifetime, self.lifetime)
    }
}

impl DecisionFlags {
    /// The struct of a decision by these directives.
    fn of(decision: Decision, rules: CacheRules, cache: CacheKind) -> DecisionFlags
        ensures decides { SaysDecision result decision }
        ensures storing { result.allows_storing ≡ flag_number (permits_storing rules cache) }
        ensures authorized { result.allows_authorized ≡ flag_number (permits_authorized rules) }
    {
        DecisionFlags {
            seconds: fresh_seconds(decision.reuse),
            reuse: reuse_number(decision.reuse),
            cause: cause_number(decision.by),
            allows_storing: u8::from(rules.allows_storing(cache)),
            allows_authorized: u8::from(rules.allows_authorized()),
        }
    }
}

/// What a cache of this kind decides about a response by its directives (RFC 9111 sections 3 and
/// 4.2). Returns `Answered` and sets `decision`; `BadCall` for a number that is no kind of a cache;
/// or `Invalid` if a struct has seconds whose flag is 0, so that they would not count. Does not
/// allocate.
#[unsafe(no_mangle)]
pub extern "C" fn sf_decide(
    rules: &RulesFlags,
    cache: u32,
    response: &Response,
    decision: &mut DecisionFlags,
) -> u32
    // The decision by the directives; BadCall if and only if the number is no kind of a cache, and
    // Invalid if and only if it is one and a struct has seconds that it does not set.
    ensures { Decides decision.old decision.new rules.now (cache_at cache) response.now
        (status_at result) }
{
    let Some(cache) = cache_of(cache) else {
        return Status::BadCall.code();
    };
    decide(rules, cache, response, decision).code()
}

/// As [`sf_decide`], for a kind of a cache.
fn decide(
    rules: &RulesFlags,
    cache: CacheKind,
    response: &Response,
    decision: &mut DecisionFlags,
) -> Status
    ensures { Decides decision.old decision.new rules.now (Some cache) response.now (Some result) }
{
    if has_unset_seconds(rules, response) {
        return Status::Invalid;
    }
    let counted = response.counted(rules.rules());
    let decided = counted.decide_with(cache, response.other_lifetime(), response.age);
    *decision = DecisionFlags::of(decided, counted, cache);
    Status::Answered
}

/// The kind of a cache of this number, an `sf_cache`.
fn cache_of(number: u32) -> Option<CacheKind>
    ensures { result ≡ cache_at number }
{
    match number {
        31 => Some(CacheKind::Shared),
        32 => Some(CacheKind::Private),
        _ => None,
    }
}

/// Whether a struct has seconds that it does not set.
fn has_unset_seconds(rules: &RulesFlags, response: &Response) -> bool
    ensures { result ≡ is_unset_in rules.now response.now }
{
    let policy = &rules.policy;
    is_unset(policy.has_max_age, policy.max_age)
        || is_unset(policy.has_s_maxage, policy.s_maxage)
        || is_unset(response.has_lifetime, response.lifetime)
}

/// Whether there are seconds that the flag does not set.
fn is_unset(has_seconds: u8, seconds: u64) -> bool
    ensures { result ≡ are_unset has_seconds seconds }
{
    has_seconds == 0 && seconds != 0
}

/// For how many seconds a response stays fresh; 0 if it isn't.
fn fresh_seconds(reuse: Reuse) -> u64
    ensures { result ≡ seconds_if_fresh reuse }
{
    match reuse {
        Reuse::Fresh { seconds } => seconds,
        _ => 0,
    }
}

/// The number of an `sf_reuse`.
fn reuse_number(reuse: Reuse) -> u8
    ensures { result ≡ number_of_reuse reuse }
{
    match reuse {
        Reuse::NotStored => 41,
        Reuse::Fresh { .. } => 42,
        Reuse::Stale => 43,
        Reuse::MustRevalidate => 44,
        Reuse::Unspecified => 45,
    }
}

/// The number of an `sf_cause`.
fn cause_number(cause: Cause) -> u8
    ensures { result ≡ number_of_cause cause }
{
    match cause {
        Cause::Nothing => 51,
        Cause::NoStore => 52,
        Cause::Private => 53,
        Cause::MustUnderstand => 54,
        Cause::NoCache => 55,
        Cause::MaxAge => 56,
        Cause::SMaxage => 57,
        Cause::InvalidMaxAge => 58,
        Cause::InvalidSMaxage => 59,
        Cause::Expires => 60,
        Cause::MustRevalidate => 61,
        Cause::ProxyRevalidate => 62,
    }
}
