// What consumers of fields return and write.
use crate::expecting::{expect_no_need, expect_refusals, seen_if};
use http_header::{HeaderMap, HeaderName, HeaderValue};
use sf_field::{AskFault, Consumer, UseFault, ask};
use sf_parse::{Refusal, parse_text};
use sf_test_alloc::{Seen, refusals, seen_without_memory};
use sf_use::{
    Asked, CachePath, CacheStatus, Choice, Directives, Forward, Hop, HopStatus, Name, Outcome,
    Passed, Policy, Priority, PriorityField, Urgency, append_hop, merge, priority_field, select,
};
use sf_value::{Blob, Field, Kind, OutOfMemory, Token, same};
use std::alloc::Global;
use std::hash::RandomState;
use std::test::Fail;

/// A cache that answered from its store, and one with everything else that allocates.
const HOPS: &[u8] = b"OriginCache;hit;ttl=1100, \"CDN Company Here\";fwd=odd;key=\"k\";detail=x";

const DIRECTIVES: &[u8] = b"max-age=60, s-maxage=90";

const URGENT: &[u8] = b"u=1, i";

/// The second member and the last name no cache.
const NAMELESS: &[u8] = b"a;key=\"k\", (b), 7";

/// A key, and so a member that sets nothing. Lines with it are too long to be read as one text
/// without allocating.
const LONG: &[u8] = &[b'a'; 1100];

fn line(alloc: Global, text: &[u8]) -> Result<Vec<Blob>, Fail> {
    let mut lines = Vec::new(alloc);
    lines.push(Blob::new(alloc, text)?)?;
    Ok(lines)
}

fn long_lines(alloc: Global, text: &[u8]) -> Result<Vec<Blob>, Fail> {
    let mut lines = line(alloc, text)?;
    lines.push(Blob::new(alloc, LONG)?)?;
    Ok(lines)
}

/// Headers with these values of a targeted field, and with one of a later target.
fn headers(alloc: Global, values: &[&[u8]]) -> Result<HeaderMap, Fail> {
    let mut headers = HeaderMap::new(alloc);
    for value in values {
        headers.append(
            HeaderName::from_bytes(alloc, b"a")?,
            HeaderValue::from_bytes(alloc, value)?,
        )?;
    }
    headers.append(
        HeaderName::from_bytes(alloc, b"b")?,
        HeaderValue::from_bytes(alloc, b"max-age=30")?,
    )?;
    Ok(headers)
}

fn is_text(name: &Name, bytes: &[u8]) -> bool {
    match name {
        Name::Text(text) => text.as_bytes() == bytes,
        Name::Token(_) => false,
    }
}

fn is_token(name: &Name, bytes: &[u8]) -> bool {
    match name {
        Name::Token(token) => token.as_bytes() == bytes,
        Name::Text(_) => false,
    }
}

fn is_origin(hop: &Hop) -> bool {
    let ttl = match hop.ttl {
        Some(ttl) => ttl.get(),
        None => 0,
    };
    is_token(&hop.name, b"OriginCache")
        && hop.outcome.is_hit()
        && ttl == 1100
        && hop.key.is_none()
        && hop.detail.is_none()
}

fn is_company(hop: &Hop) -> bool {
    let (Some(passed), Some(key), Some(detail)) = (hop.outcome.passed(), &hop.key, &hop.detail)
    else {
        return false;
    };
    is_text(&hop.name, b"CDN Company Here")
        && passed.why.as_bytes() == b"odd".as_slice()
        && key.as_bytes() == b"k".as_slice()
        && is_token(detail, b"x")
        && hop.ttl.is_none()
}

/// Whether these are the hops of `HOPS`.
fn is_path(path: &CachePath) -> bool {
    match (path.hops().first(), path.hops().last()) {
        (Some(first), Some(last)) => {
            path.hops().len() == 2 && is_origin(first) && is_company(last)
        }
        _ => false,
    }
}

fn is_policy(policy: &Policy) -> bool {
    policy.lifetime(true) == Some(90) && policy.lifetime(false) == Some(60)
}

fn is_urgent(asked: Asked) -> bool {
    let asked = merge(Asked::default(), asked).with_defaults();
    asked.urgency.get() == 1 && asked.incremental
}

/// Whether the fault is that memory ran out.
fn seen_fault(fault: AskFault) -> Seen {
    match fault {
        AskFault::Field(Refusal::OutOfMemory) => Seen::Refused,
        AskFault::Answer(UseFault::OutOfMemory) => Seen::Refused,
        _ => Seen::Wrong,
    }
}

fn ask_hops(alloc: Global, seed: &RandomState, lines: &[Blob]) -> Seen {
    match ask(alloc, seed, &CacheStatus, lines) {
        Ok(path) => seen_if(is_path(&path)),
        Err(fault) => seen_fault(fault),
    }
}

fn ask_directives(alloc: Global, seed: &RandomState, lines: &[Blob]) -> Seen {
    match ask(alloc, seed, &Directives, lines) {
        Ok(policy) => seen_if(is_policy(&policy)),
        Err(fault) => seen_fault(fault),
    }
}

fn ask_priority(alloc: Global, seed: &RandomState, lines: &[Blob]) -> Seen {
    match ask(alloc, seed, &PriorityField, lines) {
        Ok(asked) => seen_if(is_urgent(asked)),
        Err(fault) => seen_fault(fault),
    }
}

fn answer_hops(alloc: Global, field: &Field) -> Seen {
    let Field::List(_) = field else {
        return Seen::Wrong;
    };
    match CacheStatus.answer(alloc, field) {
        Ok(path) => seen_if(is_path(&path)),
        Err(fault) => seen_fault(AskFault::Answer(fault)),
    }
}

fn write_priority(alloc: Global, seed: &RandomState, want: &Field) -> Seen {
    let Ok(urgency) = Urgency::new(1) else {
        return Seen::Wrong;
    };
    let priority = Priority {
        urgency,
        incremental: true,
    };
    match priority_field(alloc, seed, priority) {
        Ok(dict) => seen_if(same(&Field::Dict(dict), want)),
        Err(OutOfMemory) => Seen::Refused,
    }
}

// The calls that allocate and change nothing.
#[derive(Clone, Copy)]
enum Call {
    AskHops,
    AskDirectives,
    AskPriority,
    AnswerHops,
    WritePriority,
}

/// Makes a call on the lines of a field, or on the field.
fn made(alloc: Global, seed: &RandomState, call: Call, lines: &[Blob], field: &Field) -> Seen {
    match call {
        Call::AskHops => ask_hops(alloc, seed, lines),
        Call::AskDirectives => ask_directives(alloc, seed, lines),
        Call::AskPriority => ask_priority(alloc, seed, lines),
        Call::AnswerHops => answer_hops(alloc, field),
        Call::WritePriority => write_priority(alloc, seed, field),
    }
}

fn call_refusals(
    alloc: Global,
    seed: &RandomState,
    call: Call,
    kind: Kind,
    text: &[u8],
) -> Result<Option<usize>, Fail> {
    let lines = match call {
        Call::AskDirectives | Call::AskPriority => long_lines(alloc, text)?,
        Call::AskHops | Call::AnswerHops | Call::WritePriority => line(alloc, text)?,
    };
    let field = parse_text(alloc, seed, kind, text)?;
    Ok(refusals(alloc, || made(alloc, seed, call, lines.as_slice(), &field)))
}

#[test]
fn answers(rt: HostRuntime) -> Result<(), Fail> {
    let seed = RandomState::new(&rt)?;
    for (call, kind, text) in [
        (Call::AskHops, Kind::List, HOPS),
        (Call::AskDirectives, Kind::Dict, DIRECTIVES),
        (Call::AskPriority, Kind::Dict, URGENT),
        (Call::AnswerHops, Kind::List, HOPS),
        (Call::WritePriority, Kind::Dict, URGENT),
    ] {
        let found = call_refusals(rt.alloc(), &seed, call, kind, text)?;
        assert!(rt; found > Some(0), "{found:?}");
    }
    Ok(())
}

/// One line is read without a Dictionary.
#[test]
fn lines_that_take_none(rt: HostRuntime) -> Result<(), Fail> {
    let alloc = rt.alloc();
    let seed = RandomState::new(&rt)?;
    let directives = line(alloc, DIRECTIVES)?;
    expect_no_need(&rt, || ask_directives(alloc, &seed, directives.as_slice()));
    let urgent = line(alloc, URGENT)?;
    expect_no_need(&rt, || ask_priority(alloc, &seed, urgent.as_slice()));
    Ok(())
}

/// The field of the first target alone is right: out of memory is not absence.
fn choose(alloc: Global, seed: &RandomState, targets: &[HeaderName], headers: &HeaderMap) -> Seen {
    match select(alloc, seed, targets, headers) {
        Ok(Choice::Field { index, policy }) => { seen_if(index == 0 && policy.max_age == Some(60)) }
        Ok(Choice::Fallback) => Seen::Wrong,
        Err(OutOfMemory) => Seen::Refused,
    }
}

#[test]
fn chooses(rt: HostRuntime) -> Result<(), Fail> {
    let alloc = rt.alloc();
    let seed = RandomState::new(&rt)?;
    let targets = [HeaderName::from_static("a"), HeaderName::from_static("b")];
    let long = headers(alloc, &[b"max-age=60", LONG])?;
    expect_refusals(&rt, || choose(alloc, &seed, &targets, &long));
    let short = headers(alloc, &[b"max-age=60"])?;
    expect_no_need(&rt, || choose(alloc, &seed, &targets, &short));
    Ok(())
}

fn answers_directives(alloc: Global, field: &Field) -> bool {
    let Field::Dict(dict) = field else {
        return false;
    };
    let read = Policy::from_dict(dict);
    match Directives.answer(alloc, field) {
        Ok(policy) => policy == read && is_policy(&policy),
        Err(_) => false,
    }
}

fn answers_priority(alloc: Global, field: &Field) -> bool {
    let Field::Dict(dict) = field else {
        return false;
    };
    let read = Priority::from_dict(dict);
    match PriorityField.answer(alloc, field) {
        Ok(asked) => asked == read && is_urgent(asked),
        Err(_) => false,
    }
}

fn is_no_cache(alloc: Global, field: &Field) -> bool {
    let Field::List(_) = field else {
        return false;
    };
    match CacheStatus.answer(alloc, field) {
        Err(UseFault::NotACache { index }) => index == 1,
        _ => false,
    }
}

fn makes_numbers() -> bool {
    HopStatus::new(304).is_ok()
        && HopStatus::new(99).is_err()
        && Urgency::new(7).is_ok()
        && Urgency::new(8).is_err()
}

/// Calls that do not allocate, by the field that they are made on.
fn answers_field(alloc: Global, field: &Field) -> bool {
    match field {
        Field::List(_) => is_no_cache(alloc, field),
        _ => answers_directives(alloc, field) || answers_priority(alloc, field),
    }
}

fn seen_answer_without_memory(
    alloc: Global,
    seed: &RandomState,
    kind: Kind,
    text: &[u8],
) -> Result<Option<Seen>, Fail> {
    let field = parse_text(alloc, seed, kind, text)?;
    Ok(seen_without_memory(alloc, || seen_if(answers_field(alloc, &field))))
}

#[test]
fn answers_that_take_none(rt: HostRuntime) -> Result<(), Fail> {
    let seed = RandomState::new(&rt)?;
    for (kind, text) in [
        (Kind::List, NAMELESS),
        (Kind::Dict, DIRECTIVES),
        (Kind::Dict, URGENT),
    ] {
        let seen = seen_answer_without_memory(rt.alloc(), &seed, kind, text)?;
        assert_eq!(rt; seen, Some(Seen::Right));
    }
    Ok(())
}

#[test]
fn paths_and_numbers_take_none(rt: HostRuntime) -> Result<(), Fail> {
    let alloc = rt.alloc();
    let seed = RandomState::new(&rt)?;
    let path = ask(alloc, &seed, &CacheStatus, line(alloc, HOPS)?.as_slice())?;
    expect_no_need(&rt, || {
        seen_if(is_path(&path) && path.served_by() == Some(0) && makes_numbers())
    });
    Ok(())
}

fn edge(alloc: Global) -> Result<Hop, Fail> {
    Ok(Hop {
        name: Name::Token(Token::new(alloc, b"edge")?),
        outcome: Outcome::Forwarded(Passed {
            why: Forward::Stale,
            status: Some(HopStatus::new(304)?),
            stored: Some(true),
            collapsed: None,
        }),
        ttl: None,
        key: None,
        detail: Some(Name::Token(Token::new(alloc, b"x")?)),
    })
}

fn lists_of(alloc: Global, seed: &RandomState, texts: [&[u8]; 2]) -> Result<Vec<Field>, Fail> {
    let mut lists = Vec::with_capacity(alloc, 2)?;
    for text in texts {
        lists.push(parse_text(alloc, seed, Kind::List, text)?)?;
    }
    Ok(lists)
}

/// Adds the hop to the last List; one that a refusal left as it was is to be used again. Wanted is
/// the List without the hop, and the one with it.
fn appended(
    alloc: Global,
    seed: &RandomState,
    lists: &mut Vec<Field>,
    hop: &Hop,
    wanted: &[Field],
) -> Seen {
    let (Some(before), Some(after)) = (wanted.first(), wanted.last()) else {
        return Seen::Wrong;
    };
    let Some(Field::List(mut list)) = lists.pop() else {
        return Seen::Wrong;
    };
    let answer = append_hop(alloc, seed, &mut list, hop);
    let field = Field::List(list);
    match answer {
        Ok(()) => seen_if(same(&field, after)),
        Err(OutOfMemory) => {
            if same(&field, before) && lists.push(field).is_ok() {
                Seen::Refused
            } else {
                Seen::Wrong
            }
        }
    }
}

/// One List is for the call with ample memory, and one for those with little.
fn append_refusals(
    alloc: Global,
    seed: &RandomState,
    hop: &Hop,
    before: &[u8],
    after: &[u8],
) -> Result<Option<usize>, Fail> {
    let wanted = lists_of(alloc, seed, [before, after])?;
    let mut lists = lists_of(alloc, seed, [before, before])?;
    Ok(refusals(alloc, || {
        appended(alloc, seed, &mut lists, hop, wanted.as_slice())
    }))
}

/// The second List is full, so that it has to grow.
#[test]
fn appends(rt: HostRuntime) -> Result<(), Fail> {
    let seed = RandomState::new(&rt)?;
    let hop = edge(rt.alloc())?;
    for (before, after) in [
        (
            b"OriginCache;hit;ttl=1100, \"CDN Company Here\";hit;ttl=545".as_slice(),
            b"OriginCache;hit;ttl=1100, \"CDN Company Here\";hit;ttl=545, \
              edge;fwd=stale;fwd-status=304;stored;detail=x"
                .as_slice(),
        ),
        (
            b"a, b, c, d",
            b"a, b, c, d, edge;fwd=stale;fwd-status=304;stored;detail=x",
        ),
    ] {
        let found = append_refusals(rt.alloc(), &seed, &hop, before, after)?;
        assert!(rt; found > Some(0), "{found:?}");
    }
    Ok(())
}
