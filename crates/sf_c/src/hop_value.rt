//! The hop that a struct describes, as a value.
ghost use Rattle.std.specs.Prelude.{◌≡◌, IfErr, MatchResult};
ghost use Rattle.sf_c.specs.GivenHops.{AreBytes, GivesHop, GivesInteger, GivesMaybe};
ghost use Rattle.sf_c.specs.GivenHops.{GivesName, GivesNone, GivesOutcome, GivesPassed};
ghost use Rattle.sf_c.specs.GivenHops.{fault_status, is_invalid as is_invalid_part};
ghost use Rattle.sf_c.specs.GivenHops.{GivesStatus, GivesString, GivesToken, GivesWhy};
ghost use Rattle.sf_c.specs.declared.status.Status.TheVariants.{Invalid};

use crate::flag::flag_of;
use crate::hop_numbers::{
    BYPASS, CONFLICT, FORWARDED, HIT, METHOD, MISS, OTHER, PARTIAL, REQUEST, STALE, UNSAID,
    URI_MISS, VARY_MISS,
};
use crate::hops::HopNode;
use crate::span::Span;
use crate::status::Status;
use sf_use::{Forward, Hop, HopStatus, Name, Outcome, Passed};
use sf_value::{Int, Text, TextFault, Token};
use std::alloc::Global;

/// The hop that the struct describes.
pub(crate) fn hop_of(alloc: Global, hop: &HopNode, bytes: &[u8]) -> Result<Hop, Status>
    ensures { MatchResult result (λ made. GivesHop bytes.now hop.now made)
        (GivesNone (GivesHop bytes.now hop.now)) }
{
    let ttl = ttl_of(hop)?;
    let name = name_of(alloc, bytes, hop.name, hop.name_is_token);
    let outcome = outcome_of(alloc, hop, bytes);
    let key = key_of(alloc, bytes, hop.key, hop.has_key);
    let detail = detail_of(alloc, hop, bytes);
    // A part that is wrong counts before an allocation that failed.
    let invalid = is_invalid(&name) | is_invalid(&outcome) | is_invalid(&key) | is_invalid(&detail);
    if invalid {
        return Err(Status::Invalid);
    }
    Ok(Hop {
        name: name?,
        outcome: outcome?,
        ttl,
        key: key?,
        detail: detail?,
    })
}

/// Whether a part of the struct is wrong.
fn is_invalid<T>(part: &Result<T, Status>) -> bool
    ensures { result ≡ is_invalid_part part.now }
{
    matches!(part, Err(Status::Invalid))
}

/// The bytes of a span.
fn bytes_of<'a>(bytes: &'a [u8], span: Span) -> Result<&'a [u8], Status>
    ensures gives { MatchResult result (λ part. AreBytes bytes.now span part.now)
        (GivesNone (AreBytes bytes.now span)) }
    // It allocates nothing.
    ensures invalid { IfErr result (λ status. status ≡ Invalid) }
{
    match span.of(bytes) {
        Some(part) => Ok(part),
        None => Err(Status::Invalid),
    }
}

/// The status for bytes that are not a String or a Token.
fn status_of_fault(fault: TextFault) -> Status
    ensures { result ≡ fault_status fault }
{
    match fault {
        TextFault::OutOfMemory => Status::OutOfMemory,
        TextFault::Empty | TextFault::BadByte { .. } => Status::Invalid,
    }
}

/// A String.
fn string_of(alloc: Global, bytes: &[u8], span: Span) -> Result<Text, Status>
    ensures { MatchResult result (λ text. GivesString bytes.now span text)
        (GivesNone (GivesString bytes.now span)) }
{
    match Text::new(alloc, bytes_of(bytes, span)?) {
        Ok(text) => Ok(text),
        Err(fault) => Err(status_of_fault(fault)),
    }
}

/// A Token.
fn token_of(alloc: Global, bytes: &[u8], span: Span) -> Result<Token, Status>
    ensures { MatchResult result (λ token. GivesToken bytes.now span token)
        (GivesNone (GivesToken bytes.now span)) }
{
    match Token::new(alloc, bytes_of(bytes, span)?) {
        Ok(token) => Ok(token),
        Err(fault) => Err(status_of_fault(fault)),
    }
}

/// A name, or a detail.
fn name_of(alloc: Global, bytes: &[u8], span: Span, is_token: u8) -> Result<Name, Status>
    ensures { MatchResult result (λ name. GivesName bytes.now span is_token name)
        (GivesNone (GivesName bytes.now span is_token)) }
{
    if is_token == 0 {
        return match string_of(alloc, bytes, span) {
            Ok(text) => Ok(Name::Text(text)),
            Err(status) => Err(status),
        };
    }
    match token_of(alloc, bytes, span) {
        Ok(token) => Ok(Name::Token(token)),
        Err(status) => Err(status),
    }
}

/// What the cache did.
fn outcome_of(alloc: Global, hop: &HopNode, bytes: &[u8]) -> Result<Outcome, Status>
    ensures { MatchResult result (λ outcome. GivesOutcome bytes.now hop.now outcome)
        (GivesNone (GivesOutcome bytes.now hop.now)) }
{
    match hop.outcome {
        UNSAID => Ok(Outcome::Unsaid),
        HIT => Ok(Outcome::Hit),
        FORWARDED => match passed_of(alloc, hop, bytes) {
            Ok(passed) => Ok(Outcome::Forwarded(passed)),
            Err(status) => Err(status),
        },
        CONFLICT => match passed_of(alloc, hop, bytes) {
            Ok(passed) => Ok(Outcome::Conflict(passed)),
            Err(status) => Err(status),
        },
        _ => Err(Status::Invalid),
    }
}

/// What is known of a request that was forwarded.
fn passed_of(alloc: Global, hop: &HopNode, bytes: &[u8]) -> Result<Passed, Status>
    ensures { MatchResult result (λ passed. GivesPassed bytes.now hop.now passed)
        (GivesNone (GivesPassed bytes.now hop.now)) }
{
    let status = status_of(hop.has_status, hop.status)?;
    let stored = flag_of(hop.has_stored, hop.stored);
    let collapsed = flag_of(hop.has_collapsed, hop.collapsed);
    Ok(Passed {
        why: why_of(alloc, hop, bytes)?,
        status,
        stored,
        collapsed,
    })
}

/// Why the request was forwarded.
fn why_of(alloc: Global, hop: &HopNode, bytes: &[u8]) -> Result<Forward, Status>
    ensures { MatchResult result (λ why. GivesWhy bytes.now hop.now why)
        (GivesNone (GivesWhy bytes.now hop.now)) }
{
    match hop.why {
        BYPASS => Ok(Forward::Bypass),
        METHOD => Ok(Forward::Method),
        URI_MISS => Ok(Forward::UriMiss),
        VARY_MISS => Ok(Forward::VaryMiss),
        MISS => Ok(Forward::Miss),
        REQUEST => Ok(Forward::Request),
        STALE => Ok(Forward::Stale),
        PARTIAL => Ok(Forward::Partial),
        OTHER => match token_of(alloc, bytes, hop.why_token) {
            Ok(token) => Ok(Forward::Other(token)),
            Err(status) => Err(status),
        },
        _ => Err(Status::Invalid),
    }
}

/// The status code of the next hop's response, if there is one.
pub(crate) fn status_of(has_status: u8, status: u16) -> Result<Option<HopStatus>, Status>
    ensures gives { MatchResult result (λ made. GivesMaybe has_status (GivesStatus status) made)
        (GivesNone (GivesMaybe has_status (GivesStatus status))) }
    // It allocates nothing.
    ensures invalid { IfErr result (λ status. status ≡ Invalid) }
{
    if has_status == 0 {
        return Ok(None);
    }
    match HopStatus::new(status) {
        Ok(status) => Ok(Some(status)),
        Err(_) => Err(Status::Invalid),
    }
}

/// The remaining freshness lifetime in seconds, if `ttl` is present.
pub(crate) fn ttl_of(hop: &HopNode) -> Result<Option<Int>, Status>
    ensures gives { MatchResult result
        (λ made. GivesMaybe hop.now.has_ttl (GivesInteger hop.now.ttl) made)
        (GivesNone (GivesMaybe hop.now.has_ttl (GivesInteger hop.now.ttl))) }
    // It allocates nothing.
    ensures invalid { IfErr result (λ status. status ≡ Invalid) }
{
    if hop.has_ttl == 0 {
        return Ok(None);
    }
    match Int::new(hop.ttl) {
        Ok(ttl) => Ok(Some(ttl)),
        Err(_) => Err(Status::Invalid),
    }
}

/// The cache key, if there is one.
fn key_of(alloc: Global, bytes: &[u8], span: Span, has_key: u8) -> Result<Option<Text>, Status>
    ensures { MatchResult result (λ made. GivesMaybe has_key (GivesString bytes.now span) made)
        (GivesNone (GivesMaybe has_key (GivesString bytes.now span))) }
{
    if has_key == 0 {
        return Ok(None);
    }
    match string_of(alloc, bytes, span) {
        Ok(key) => Ok(Some(key)),
        Err(status) => Err(status),
    }
}

/// The detail, if there is one.
fn detail_of(alloc: Global, hop: &HopNode, bytes: &[u8]) -> Result<Option<Name>, Status>
    ensures { MatchResult result
        (λ made. GivesMaybe hop.now.has_detail
        (GivesName bytes.now hop.now.detail hop.now.detail_is_token) made)
        (GivesNone (GivesMaybe hop.now.has_detail
        (GivesName bytes.now hop.now.detail hop.now.detail_is_token))) }
{
    if hop.has_detail == 0 {
        return Ok(None);
    }
    match name_of(alloc, bytes, hop.detail, hop.detail_is_token) {
        Ok(detail) => Ok(Some(detail)),
        Err(status) => Err(status),
    }
}
