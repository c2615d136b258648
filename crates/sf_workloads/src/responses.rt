//! What a cache does with each response: which caches were on its path, which field it obeys, and
//! its own member of Cache-Status.

use crate::bench::Bench;
use crate::digest::Digest;
use crate::fields::{USUAL, put_directives, put_hops};
use crate::random::Random;
use crate::texts::{put_number, put_numbered};
use http_header::{HeaderMap, HeaderName, HeaderValue};
use sf_field::{AskFault, UseFault, ask_from, from_headers, set_field};
use sf_use::{CachePath, CacheStatus, Choice, Hop, Name, Outcome, Policy, append_hop, select};
use sf_value::{Field, Int, Kind, Token};

/// A header map serves so many responses, so that making it takes little of the time.
const SHARED: u64 = 64;

/// The names of the other fields, before a number.
const OTHERS: [&[u8]; 4] = [b"x-request-", b"x-trace-", b"x-served-", b"x-timer-"];

/// Answers so many responses.
pub(crate) fn answer(bench: &mut Bench, count: u64) -> anyhow::Result<()> {
    let mut headers = HeaderMap::with_hasher(bench.alloc, bench.seed);
    for number in 0..count {
        if number % SHARED == 0 {
            headers = other_headers(bench)?;
        }
        set_fields(bench, &mut headers)?;
        answer_one(bench, &mut headers)?;
    }
    Ok(())
}

/// The 8 to 28 fields of a response that are not structured.
fn other_headers(bench: &mut Bench) -> anyhow::Result<HeaderMap> {
    let mut headers = HeaderMap::with_hasher(bench.alloc, bench.seed);
    for number in 0..8 + bench.random.below(21) {
        let mut name = Vec::new(bench.alloc);
        put_numbered(&mut name, bench.random.word(&OTHERS), number)?;
        let name = HeaderName::from_bytes(bench.alloc, name.as_slice())?;
        let mut value = Vec::new(bench.alloc);
        put_number(&mut value, bench.random.next())?;
        headers.insert(name, HeaderValue::from_vec(value)?)?;
    }
    Ok(headers)
}

/// Sets the structured fields: Cache-Status of 1 to 4 hops on up to 3 lines, and targeted fields,
/// which are often absent.
fn set_fields(bench: &mut Bench, headers: &mut HeaderMap) -> anyhow::Result<()> {
    let lines = if bench.random.one_in(4) {
        1 + bench.random.below(3)
    } else {
        1
    };
    for line in 0..lines {
        let hops = if lines == 1 {
            1 + bench.random.below(4)
        } else {
            1
        };
        let mut text = Vec::with_capacity(bench.alloc, 256)?;
        put_hops(&mut text, &mut bench.random, USUAL, hops)?;
        if bench.random.one_in(50) {
            text.extend_from_slice(b"; =")?;
        }
        let value = HeaderValue::from_vec(text)?;
        let name = HeaderName::from_static("cache-status");
        if line == 0 {
            headers.insert(name, value)?;
        } else {
            headers.append(name, value)?;
        }
    }
    set_targeted(
        bench,
        headers,
        HeaderName::from_static("example-cdn-cache-control"),
        8,
    )?;
    set_targeted(
        bench,
        headers,
        HeaderName::from_static("cdn-cache-control"),
        2,
    )
}

/// Sets a targeted field in one of `n` responses, and removes it in the others.
fn set_targeted(
    bench: &mut Bench,
    headers: &mut HeaderMap,
    name: HeaderName,
    n: u64,
) -> anyhow::Result<()> {
    if !bench.random.one_in(n) {
        let _ = headers.remove(&name);
        return Ok(());
    }
    let mut text = Vec::with_capacity(bench.alloc, 128)?;
    put_directives(&mut text, &mut bench.random, USUAL)?;
    headers.insert(name, HeaderValue::from_vec(text)?)?;
    Ok(())
}

/// Reads the path and the policy of a response, and adds the cache's own hop.
fn answer_one(bench: &mut Bench, headers: &mut HeaderMap) -> anyhow::Result<()> {
    let name = HeaderName::from_static("cache-status");
    let lines = headers.get_all(&name).iter();
    match ask_from(bench.alloc, &bench.seed, &CacheStatus, lines) {
        Ok(path) => add_path(&mut bench.digest, &path),
        Err(fault) => add_fault(&mut bench.digest, fault),
    }
    let targets = [
        HeaderName::from_static("example-cdn-cache-control"),
        HeaderName::from_static("cdn-cache-control"),
    ];
    match select(bench.alloc, &bench.seed, &targets, headers)? {
        Choice::Field { index, policy } => {
            bench.digest.number((index as u64).wrapping_add(1));
            add_policy(&mut bench.digest, policy);
        }
        Choice::Fallback => bench.digest.number(0),
    }
    append_own(bench, headers)
}

/// Appends the cache's own hop to Cache-Status, unless the field is refused.
fn append_own(bench: &mut Bench, headers: &mut HeaderMap) -> anyhow::Result<()> {
    let name = HeaderName::from_static("cache-status");
    let Ok(Some(Field::List(list))) = from_headers(
        bench.alloc,
        &bench.seed,
        Kind::List,
        headers,
        &name,
    ) else {
        return Ok(());
    };
    let mut list = list;
    let hop = own_hop(bench)?;
    append_hop(bench.alloc, &bench.seed, &mut list, &hop)?;
    set_field(bench.alloc, headers, name, &Field::List(list))?;
    if let Some(value) = headers.get(&HeaderName::from_static("cache-status")) {
        bench.digest.bytes(value.as_bytes());
    }
    Ok(())
}

/// The hop of a cache that answered from its store.
fn own_hop(bench: &mut Bench) -> anyhow::Result<Hop> {
    let seconds = bench.random.below(100_000) as i32;
    Ok(Hop {
        name: Name::Token(Token::new(bench.alloc, b"edge.example")?),
        outcome: Outcome::Hit,
        ttl: Some(Int::from(seconds)),
        key: None,
        detail: None,
    })
}

/// Adds what a path says.
fn add_path(digest: &mut Digest, path: &CachePath) {
    digest.number(
        path.served_by()
            .map_or(0, |index| (index as u64).wrapping_add(1)),
    );
    for hop in path.hops() {
        match &hop.name {
            Name::Text(text) => digest.bytes(text.as_bytes()),
            Name::Token(token) => digest.bytes(token.as_bytes()),
        }
        digest.number(hop.ttl.map_or(0, |ttl| ttl.get().unsigned_abs()));
        digest.number(
            hop.outcome
                .status()
                .map_or(0, |status| u64::from(status.get())),
        );
    }
}

/// Adds why there is no path.
fn add_fault(digest: &mut Digest, fault: AskFault) {
    match fault {
        AskFault::Field(refusal) => crate::bench::add_refusal(digest, refusal),
        AskFault::Answer(UseFault::NotACache { index }) => digest.number(index as u64),
        AskFault::Answer(UseFault::OutOfMemory) => digest.number(u64::MAX),
    }
}

/// Adds a policy.
fn add_policy(digest: &mut Digest, policy: Policy) {
    digest.number(policy.lifetime(true).unwrap_or(u64::MAX));
    digest.number(policy.lifetime(false).unwrap_or(u64::MAX));
    digest.number(u64::from(policy.no_store) + 2 * u64::from(policy.is_private));
    digest.number(u64::from(policy.no_cache) + 2 * u64::from(policy.must_revalidate));
}
