//! What caches decide about the response of a head.
ghost use Rattle.std.specs.Prelude.{◌≡◌, ◌||◌, ◌+◌, ◌<◌, ◌^◌, length, map, IfOk};
ghost use Rattle.sf_write.specs.Writing.{Follows};
ghost use Rattle.sf_tool.specs.Deciding.{IsRulesPlaceOf};
ghost use Rattle.sf_lint.specs.Deciding.{IsChoiceText, IsDecisionText, IsDecisionTextIn, IsHeadText};
ghost use Rattle.sf_lint.specs.Deciding.{age_in, by_status_text, decided_line, decided_lines, field_names};
ghost use Rattle.sf_lint.specs.Deciding.{is_not_stored as is_not_stored_in, outcome_text, unread_line};
ghost use Rattle.sf_lint.specs.StatusCodes.{is_storable as is_storable_in};

use crate::ages::age_of;
use crate::settings::CacheSettings;
use crate::status_codes::{is_storable, rules_for};
use http_header::{AGE, DATE, EXPIRES, HeaderMap, HeaderName};
use sf_tool::{InputFault, by_each_dialect, put_decision, read_field_lines, with_cache_control};
use sf_use::{
    CacheKind, CacheRules, Decision, Reuse, RulesChoice, expires_of, fallback_rules,
    select_rules_in,
};
use sf_value::{Dialect, OutOfMemory, Sink, Writing};
use sf_write::{Sent, put};
use std::alloc::Global;
use std::hash::RandomState;

/// The time of receipt for `Expires` without `Date`: it is not known. No time is after this one, so
/// the lifetime is 0.
const UNKNOWN_TIME: u64 = u64::MAX;

/// A response: what its head says beside its fields.
#[derive(Clone, Copy)]
pub(crate) struct Response {
    /// Its status code, if it has a status line.
    pub status: Option<u64>,
    /// Its age, in seconds.
    pub age: u64,
}

/// Whether a response is not stored.
fn is_not_stored(decision: Decision) -> bool
    ensures { result ≡ is_not_stored_in decision.reuse }
{
    matches!(decision.reuse, Reuse::NotStored)
}

/// Returns the decision of a cache that may not store a response with this status code.
fn by_status(cache: CacheKind) -> &'static [u8]
    ensures { result.now ≡ by_status_text cache }
{
    match cache {
        CacheKind::Shared => b"shared not-stored status\n",
        CacheKind::Private => b"private not-stored status\n",
    }
}

/// Returns whether the rules decide, and not the status code: they forbid to store the response, or
/// something permits it.
fn is_by_rules(
    decision: Decision,
    status: Option<u64>,
    rules: &CacheRules,
    cache: CacheKind,
    expires: Option<u64>,
) -> bool
    ensures { result ≡ (is_not_stored_in decision.reuse
        || is_storable_in status rules.now cache expires) }
{
    is_not_stored(decision) || is_storable(status, rules, cache, expires)
}

/// Writes the decision of a cache, if `decides`, or else that the status code decides.
fn put_outcome<W: Sink>(
    cache: CacheKind,
    decision: Decision,
    decides: bool,
    before: Sent,
    out: &mut W,
) -> Sent
    ensures { Follows W.state W.send_gives out.old out.new before result
        (outcome_text cache decision decides) }
{
    if decides {
        return put_decision(cache, decision, before, out);
    }
    put(by_status(cache), before, out)
}

/// Writes the line of what a cache decides about a response by the rules of the field of this name,
/// and by the lifetime that `Expires` sets.
fn put_decided<W: Sink>(
    cache: CacheKind,
    name: &str,
    rules: &CacheRules,
    expires: Option<u64>,
    response: Response,
    before: Sent,
    out: &mut W,
) -> Sent
    ensures { Follows W.state W.send_gives out.old out.new before result
        (decided_line cache name.now rules.now expires response) }
{
    let rules = rules_for(response.status, rules);
    let decision = rules.decide_with(cache, expires, response.age);
    let sent = put(b"decision ", before, out);
    let sent = put(name.as_bytes(), sent, out);
    let sent = put(b": ", sent, out);
    let decides = is_by_rules(decision, response.status, &rules, cache, expires);
    put_outcome(cache, decision, decides, sent, out)
}

/// Returns the lines of what a shared and a private cache decide.
fn decided_text(
    alloc: Global,
    name: &str,
    rules: &CacheRules,
    expires: Option<u64>,
    response: Response,
) -> Result<Vec<u8>, OutOfMemory>
    ensures { IfOk result
        (λ text. text.items ≡ decided_lines name.now rules.now expires response) }
{
    let mut out = Writing::new(Vec::new(alloc));
    let shared = CacheKind::Shared;
    let sent = put_decided(shared, name, rules, expires, response, Ok(0), &mut out);
    let private = CacheKind::Private;
    match put_decided(private, name, rules, expires, response, sent, &mut out) {
        Ok(_) => Ok(out.into_inner()),
        Err(_) => Err(OutOfMemory),
    }
}

/// Returns the lines of a choice among these targets: by the field that is chosen, or by
/// `Cache-Control` and `Expires`.
fn choice_lines(
    alloc: Global,
    targets: &[HeaderName],
    headers: &HeaderMap,
    response: Response,
    choice: RulesChoice,
) -> Result<Vec<u8>, OutOfMemory>
    // A chosen field has one of these names.
    requires { IsRulesPlaceOf targets.now choice }
    ensures { IfOk result
        (λ text. IsChoiceText targets.now headers.now response choice text.items) }
{
    match choice {
        RulesChoice::Field { index, rules } => {
            return decided_text(alloc, targets[index].as_str(), &rules, None, response);
        }
        RulesChoice::Fallback => {
            let rules = fallback_rules(headers);
            let expires = expires_of(headers, UNKNOWN_TIME);
            return decided_text(alloc, "cache-control", &rules, expires, response);
        }
    }
}

/// Returns the lines of what caches decide that parse targeted fields in this dialect.
fn decision_lines_in(
    alloc: Global,
    seed: &RandomState,
    dialect: Dialect,
    targets: &[HeaderName],
    headers: &HeaderMap,
    response: Response,
) -> Result<Vec<u8>, OutOfMemory>
    ensures { IfOk result
        (λ text. IsDecisionTextIn dialect targets.now headers.now response text.items) }
{
    let choice = select_rules_in(alloc, seed, dialect, targets, headers)?;
    choice_lines(alloc, targets, headers, response, choice)
}

/// Returns the lines of what caches decide: once if both dialects give the same, and otherwise by
/// each.
fn decision_lines(
    alloc: Global,
    seed: &RandomState,
    targets: &[HeaderName],
    headers: &HeaderMap,
    response: Response,
) -> Result<Vec<u8>, OutOfMemory>
    ensures { IfOk result
        (λ text. IsDecisionText targets.now headers.now response text.items) }
{
    let older = decision_lines_in(alloc, seed, Dialect::Rfc8941, targets, headers, response)?;
    let newer = decision_lines_in(alloc, seed, Dialect::Rfc9651, targets, headers, response)?;
    if older.as_slice() == newer.as_slice() {
        return Ok(older);
    }
    by_each_dialect(alloc, older.as_slice(), newer.as_slice())
}

/// Returns the names of the fields that are read: the targets, and those that decide or count
/// without them.
fn read_names(alloc: Global, targets: &[HeaderName]) -> Result<Vec<HeaderName>, OutOfMemory>
    ensures { IfOk result (λ all. all.items ≡ field_names targets.now) }
{
    let mut all = with_cache_control(alloc, targets)?;
    all.push(EXPIRES)?;
    all.push(DATE)?;
    all.push(AGE)?;
    Ok(all)
}

/// Returns the age of a response, in seconds.
fn response_age(caches: &CacheSettings, headers: &HeaderMap) -> u64
    ensures { result ≡ age_in caches.now headers.now }
{
    match caches.age {
        Some(seconds) => seconds,
        None => age_of(headers),
    }
}

/// Returns the line for a head that is not decided, since this line of the input is no field line.
fn unread_text(alloc: Global, number: u64) -> Result<Vec<u8>, OutOfMemory>
    ensures { IfOk result (λ text. text.items ≡ unread_line number) }
{
    let text = format!(in alloc; "decision none: line {number} is no field line\n")?;
    Ok(text.into_bytes())
}

/// Returns what is printed of the decisions about a response with this status code and these lines
/// after the status line, of which the first has this number, from 1.
pub(crate) fn head_text(
    alloc: Global,
    seed: &RandomState,
    caches: &CacheSettings,
    status: Option<u64>,
    number: usize,
    lines: &[&[u8]],
) -> Result<Vec<u8>, OutOfMemory>
    requires { number + length lines.now < 2 ^ 63 }
    ensures { IfOk result (λ text. IsHeadText caches.now status number
        (map (λ line. line.now) lines.now) text.items) }
{
    let targets = caches.targets.as_slice();
    let names = read_names(alloc, targets)?;
    match read_field_lines(alloc, seed, names.as_slice(), lines) {
        Ok(headers) => {
            let age = response_age(caches, &headers);
            let response = Response { status, age };
            return decision_lines(alloc, seed, targets, &headers, response);
        }
        Err(InputFault::Line(index)) => return unread_text(alloc, number as u64 + index),
        Err(InputFault::OutOfMemory) => return Err(OutOfMemory),
    }
}
