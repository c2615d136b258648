//! Reading hops from the members of a List.
ghost use Rattle.std.specs.Prelude.{◌≡◌, ℤ, position, is_none, IfOk};
ghost use Rattle.std.specs.List.{filter_map};
ghost use Rattle.sf_use.specs.CacheStatus.Hops.{member_hop, hop_of, outcome_of, passed_at};
ghost use Rattle.sf_use.specs.CacheStatus.Hops.{status_of as status_in};
ghost use Rattle.sf_use.specs.CacheStatus.Reasons.{forward_of, reasons};
ghost use Rattle.sf_value.specs.Grammar.Pairs.{value_at};

use crate::cache_status::hop::{Forward, Hop, Outcome, Passed};
use crate::cache_status::params::{boolean_at, integer_at, name_at, name_of, text_at, token_at};
use crate::cache_status::status::HopStatus;
use sf_value::{Bare, Entries, Int, Item, Member, OutOfMemory, Token};
use std::alloc::Global;

/// Returns the index of the first member that does not name a cache.
pub(crate) fn first_nameless(members: &[Member]) -> Option<usize>
    // The index of the first member that has no hop.
    ensures { result ≡ position (λ m. is_none (member_hop m)) members.now }
{
    members.iter().position(|member| is_nameless(member))
}

/// Returns whether a member does not name a cache.
fn is_nameless(member: &Member) -> bool
    ensures { result ≡ is_none (member_hop member.now) }
{
    match member {
        Member::Item(item) => !matches!(item.bare, Bare::Text(_) | Bare::Token(_)),
        Member::Inner(_) => true,
    }
}

/// Returns the hops of the members that name a cache.
pub(crate) fn read_hops(alloc: Global, members: &[Member]) -> Result<Vec<Hop>, OutOfMemory>
    // The hops of the members that have one, in order.
    ensures { IfOk result (λ hops. hops.items ≡ filter_map member_hop members.now) }
{
    let mut hops = Vec::new(alloc);
    for member in members {
        match read_member(alloc, member)? {
            Some(hop) => hops.push(hop)?,
            None => {}
        }
    }
    Ok(hops)
}

/// Returns the hop of a member, if it names a cache.
fn read_member(alloc: Global, member: &Member) -> Result<Option<Hop>, OutOfMemory>
    ensures { IfOk result (λ hop. hop ≡ member_hop member.now) }
{
    match member {
        Member::Item(item) => read_hop(alloc, item),
        Member::Inner(_) => Ok(None),
    }
}

/// Returns the hop of an Item, if it names a cache.
fn read_hop(alloc: Global, item: &Item) -> Result<Option<Hop>, OutOfMemory>
    ensures { IfOk result (λ hop. hop ≡ hop_of item.now) }
{
    let params = &item.params;
    let Some(name) = name_of(alloc, &item.bare)? else {
        return Ok(None);
    };
    let outcome = read_outcome(alloc, params)?;
    let ttl = integer_at(params, b"ttl");
    let key = text_at(alloc, params, b"key")?;
    let detail = name_at(alloc, params, b"detail")?;
    Ok(Some(Hop {
        name,
        outcome,
        ttl,
        key,
        detail,
    }))
}

/// Returns what the cache did, by its parameters.
fn read_outcome(alloc: Global, params: &Entries<Bare>) -> Result<Outcome, OutOfMemory>
    ensures { IfOk result (λ outcome. outcome ≡ outcome_of params.now) }
{
    let is_hit = boolean_at(params, b"hit").unwrap_or(false);
    match read_passed(alloc, params)? {
        Some(passed) if is_hit => Ok(Outcome::Conflict(passed)),
        Some(passed) => Ok(Outcome::Forwarded(passed)),
        None if is_hit => Ok(Outcome::Hit),
        None => Ok(Outcome::Unsaid),
    }
}

/// Returns what the parameters say about a forwarded request, if `fwd` is present.
fn read_passed(alloc: Global, params: &Entries<Bare>) -> Result<Option<Passed>, OutOfMemory>
    ensures { IfOk result (λ passed. passed ≡ passed_at params.now) }
{
    match token_at(params, b"fwd") {
        Some(token) => Ok(Some(Passed {
            why: read_forward(alloc, token)?,
            status: status_of(integer_at(params, b"fwd-status")),
            stored: boolean_at(params, b"stored"),
            collapsed: boolean_at(params, b"collapsed"),
        })),
        None => Ok(None),
    }
}

/// Returns the reason of a token.
fn read_forward(alloc: Global, token: &Token) -> Result<Forward, OutOfMemory>
    ensures { IfOk result (λ why. why ≡ forward_of token.now) }
{
    match named_forward(token.as_bytes()) {
        Some(why) => Ok(why),
        None => Ok(Forward::Other(token.copy(alloc)?)),
    }
}

/// Returns the reason of a token, if it is one of the defined ones.
pub(crate) fn named_forward(token: &[u8]) -> Option<Forward>
    ensures { result ≡ value_at token.now reasons }
{
    if token == b"bypass".as_slice() {
        Some(Forward::Bypass)
    } else if token == b"method".as_slice() {
        Some(Forward::Method)
    } else if token == b"uri-miss".as_slice() {
        Some(Forward::UriMiss)
    } else if token == b"vary-miss".as_slice() {
        Some(Forward::VaryMiss)
    } else if token == b"miss".as_slice() {
        Some(Forward::Miss)
    } else if token == b"request".as_slice() {
        Some(Forward::Request)
    } else if token == b"stale".as_slice() {
        Some(Forward::Stale)
    } else if token == b"partial".as_slice() {
        Some(Forward::Partial)
    } else {
        None
    }
}

/// Returns an Integer as a status code, if it has three digits.
fn status_of(integer: Option<Int>) -> Option<HopStatus>
    ensures { result ≡ status_in integer }
{
    status_by(Some(integer?.get()))
}

/// Returns a number as a status code, if it has three digits.
pub(crate) fn status_by(number: Option<i64>) -> Option<HopStatus>
    ensures { result ≡ status_in number }
{
    let code = u16::try_from(number?).ok()?;
    HopStatus::new(code).ok()
}
