//! Targeted fields with what they say, and headers with the choice among targets.
use crate::building::seed;
use http_header::{HeaderMap, HeaderName, HeaderValue};
use sf_field::ask;
use sf_use::{Choice, Directives, Policy, select};
use sf_value::Blob;
use std::hash::RandomState;
use std::process::Abort;

/// What a targeted field of one line says.
fn policy_of(rt: &(impl Abort + AllocGlobal), seed: &RandomState, line: &[u8]) -> Policy {
    let line = Blob::new(rt.alloc(), line).expect(rt, "room");
    ask(rt.alloc(), seed, &Directives, &[line]).expect(rt, "a Dictionary")
}

/// What it says without a Dictionary; None if the scan declines the text.
fn scanned(line: &[u8]) -> Option<Policy> {
    let policy = Directives::scan(line)?;
    Some(policy.unwrap_or_default())
}

const NONE: Policy = Policy {
    max_age: None,
    s_maxage: None,
    must_revalidate: false,
    no_store: false,
    no_cache: false,
    is_private: false,
};

const AGED: Policy = Policy {
    max_age: Some(60),
    ..NONE
};

const BOTH: Policy = Policy {
    max_age: Some(30),
    s_maxage: Some(90),
    ..NONE
};

const STORED: Policy = Policy {
    no_store: true,
    ..BOTH
};

const LISTS: Policy = Policy {
    is_private: true,
    no_cache: true,
    ..NONE
};

const REVALIDATED: Policy = Policy {
    must_revalidate: true,
    ..NONE
};

#[test]
fn policies(rt: HostRuntime) {
    let seed = seed(&rt);
    for &(line, want) in &[
        (b"max-age=-1".as_slice(), NONE),
        (b"max-age=1.0", NONE),
        (b"max-age", NONE),
        (b"max-age=(1)", NONE),
        (b"max-age=60;x=1", AGED),
        (b"max-age=5, max-age=60", AGED),
        (b"public, stale-while-revalidate=5, max-age=60", AGED),
        (b"private=(a b), no-cache=\"x\"", LISTS),
        (b"no-store=?0, must-revalidate=?0;x, private=?0", NONE),
        (b"max-age=30,s-maxage=90,no-store=?1", STORED),
        (b"max-age=30, s-maxage=90, no-store", STORED),
        (b"must-revalidate=?1", REVALIDATED),
        (b"none", NONE),
        (b"", NONE),
    ] {
        let found = (policy_of(&rt, &seed, line), scanned(line));
        assert_eq!(rt; found, (want, Some(want)));
    }
    assert_eq!(rt; Policy::default(), NONE);
}

/// The lifetimes in a shared cache, and in one that is not.
#[test]
fn lifetimes(rt: HostRuntime) {
    let shared_alone = policy_of(&rt, &seed(&rt), b"s-maxage=5");
    for &(policy, shared, private) in &[
        (shared_alone, Some(5), None),
        (STORED, Some(90), Some(30)),
        (AGED, Some(60), Some(60)),
    ] {
        let found = (policy.lifetime(true), policy.lifetime(false));
        assert_eq!(rt; found, (shared, private));
    }
}

fn name_of(rt: &(impl Abort + AllocGlobal), name: &[u8]) -> HeaderName {
    HeaderName::from_bytes(rt.alloc(), name).expect(rt, "a name")
}

pub(crate) fn headers_of(rt: &(impl Abort + AllocGlobal), fields: &[(&[u8], &[u8])]) -> HeaderMap {
    let mut headers = HeaderMap::new(rt.alloc());
    for (name, value) in fields {
        let value = HeaderValue::from_bytes(rt.alloc(), value).expect(rt, "a value");
        headers.append(name_of(rt, name), value).expect(rt, "room");
    }
    headers
}

pub(crate) fn names_of(rt: &(impl Abort + AllocGlobal), targets: &[&[u8]]) -> Vec<HeaderName> {
    let mut names = Vec::new(rt.alloc());
    for target in targets {
        names.push(name_of(rt, target)).expect(rt, "room");
    }
    names
}

fn choice_of(
    rt: &(impl Abort + AllocGlobal),
    seed: &RandomState,
    targets: &[&[u8]],
    fields: &[(&[u8], &[u8])],
) -> Choice {
    let names = names_of(rt, targets);
    let headers = headers_of(rt, fields);
    select(rt.alloc(), seed, names.as_slice(), &headers).expect(rt, "room")
}

const TARGETS: [&[u8]; 2] = [b"cdn-cache-control", b"x-cache-control"];

// Fields of the first target, of the second, and of neither.
const REFUSED: (&[u8], &[u8]) = (b"cdn-cache-control", b"max-age=60,");

const CDN: (&[u8], &[u8]) = (b"cdn-cache-control", b"max-age=600");

const CDN_NONE: (&[u8], &[u8]) = (b"cdn-cache-control", b"none");

const OLDER: (&[u8], &[u8]) = (b"cdn-cache-control", b"max-age=900;x, other=(1 2)");

/// A field that is longer than the buffer for lines that are joined.
const LONG: (&[u8], &[u8]) = (b"cdn-cache-control", &[b'a'; 1500]);

const SECOND: (&[u8], &[u8]) = (b"x-cache-control", b"max-age=30, s-maxage=90, no-store=?0");

const EMPTY: (&[u8], &[u8]) = (b"x-cache-control", b"");

const NO_STORE: (&[u8], &[u8]) = (b"x-cache-control", b"no-store");

const GENERAL: (&[u8], &[u8]) = (b"cache-control", b"max-age=60, s-maxage=120");

const FRESH: Policy = Policy {
    max_age: Some(600),
    ..NONE
};

const OLD: Policy = Policy {
    max_age: Some(900),
    ..NONE
};

const CHOICES: &[(&[(&[u8], &[u8])], Option<(usize, Policy)>)] = &[
    (&[REFUSED, SECOND], Some((1, BOTH))),
    (&[REFUSED, SECOND, NO_STORE], Some((1, STORED))),
    (&[REFUSED, EMPTY], None),
    (&[SECOND, CDN], Some((0, FRESH))),
    (&[GENERAL, CDN], Some((0, FRESH))),
    (&[GENERAL, CDN_NONE], Some((0, NONE))),
    (&[CDN, OLDER, SECOND], Some((0, OLD))),
    (&[OLDER, CDN_NONE, CDN], Some((0, FRESH))),
    (&[CDN, REFUSED, SECOND], Some((1, BOTH))),
    (&[LONG, OLDER, SECOND], Some((0, OLD))),
    (&[OLDER, LONG, SECOND], Some((0, OLD))),
    (&[LONG, REFUSED, SECOND], Some((1, BOTH))),
    (&[GENERAL], None),
    (&[], None),
];

/// The choice of the field of `cdn-cache-control` and of `x-cache-control`.
#[test]
fn choices(rt: HostRuntime) {
    let seed = seed(&rt);
    for &(fields, want) in CHOICES {
        let want = match want {
            Some((index, policy)) => Choice::Field { index, policy },
            None => Choice::Fallback,
        };
        assert_eq!(rt; choice_of(&rt, &seed, &TARGETS, fields), want);
    }
    let none = choice_of(&rt, &seed, &[], &[CDN]);
    assert!(rt; none == Choice::Fallback);
}
