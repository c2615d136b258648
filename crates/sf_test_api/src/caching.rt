//! Heads of responses with what a cache decides: the rows of `tests/decisions.txt`.
mod rows;

use crate::building::seed;
use crate::caching::rows::{From, ROWS, Row, TARGETS};
use crate::targeted::{headers_of, names_of};
use http_header::HeaderMap;
use sf_field::ask;
use sf_use::{
    CacheRules, Decision, Policy, RulesChoice, TargetedRules, expires_lifetime, expires_of,
    fallback_rules, http_time, select_rules,
};
use sf_value::Blob;
use std::hash::RandomState;
use std::process::Abort;

fn choice_of(rt: &(impl Abort + AllocGlobal), seed: &RandomState, row: &Row) -> RulesChoice {
    let names = names_of(rt, &TARGETS);
    let headers = headers_of(rt, row.head);
    select_rules(rt.alloc(), seed, names.as_slice(), &headers).expect(rt, "room")
}

/// What is decided by the directives.
fn decision_of(rules: CacheRules, row: &Row) -> Decision {
    let rules = if row.understood {
        rules.understood()
    } else {
        rules
    };
    rules.decide(row.cache, row.age)
}

/// The field that is obeyed, and what is decided by it.
#[test]
fn decisions(rt: HostRuntime) {
    let seed = seed(&rt);
    for row in ROWS {
        match choice_of(&rt, &seed, row) {
            RulesChoice::Field { index, rules } => {
                assert_eq!(rt; From::Target(index), row.from);
                let decision = decision_of(rules, row);
                assert_eq!(rt; (decision.reuse, decision.by), (row.reuse, row.by));
            }
            RulesChoice::Fallback => {
                assert_eq!(rt; From::Fallback, row.from);
                let decision = fallback_decision(&headers_of(&rt, row.head), row);
                assert_eq!(rt; (decision.reuse, decision.by), (row.reuse, row.by));
            }
        }
    }
}

/// What is decided by `Cache-Control`, and by `Expires` if that sets no lifetime. No row has an
/// `Expires` without a `Date`, for which the time of receipt would count.
fn fallback_decision(headers: &HeaderMap, row: &Row) -> Decision {
    let rules = fallback_rules(headers);
    let rules = if row.understood {
        rules.understood()
    } else {
        rules
    };
    rules.decide_with(row.cache, expires_of(headers, 0), row.age)
}

/// What a targeted field of one line says, read from its text and from its Dictionary.
fn rules_of(rt: &(impl Abort + AllocGlobal), seed: &RandomState, line: &[u8]) -> CacheRules {
    let line = Blob::new(rt.alloc(), line).expect(rt, "room");
    ask(rt.alloc(), seed, &TargetedRules, &[line]).expect(rt, "a Dictionary")
}

/// What it says without a Dictionary; None if the scan declines the text.
fn scanned(line: &[u8]) -> Option<CacheRules> {
    let rules = CacheRules::scan(line)?;
    Some(rules.unwrap_or_default())
}

const NO_POLICY: Policy = Policy {
    max_age: None,
    s_maxage: None,
    must_revalidate: false,
    no_store: false,
    no_cache: false,
    is_private: false,
};

const NONE: CacheRules = CacheRules {
    policy: NO_POLICY,
    invalid_max_age: false,
    invalid_s_maxage: false,
    proxy_revalidate: false,
    must_understand: false,
    is_public: false,
};

const AGED: CacheRules = CacheRules {
    policy: Policy {
        max_age: Some(60),
        ..NO_POLICY
    },
    ..NONE
};

const INVALID: CacheRules = CacheRules {
    invalid_max_age: true,
    ..NONE
};

const INVALID_SHARED: CacheRules = CacheRules {
    invalid_s_maxage: true,
    ..AGED
};

const OTHERS: CacheRules = CacheRules {
    proxy_revalidate: true,
    must_understand: true,
    is_public: true,
    ..NONE
};

/// A repeated key that makes a Dictionary be read by the parser, too.
#[test]
fn rules(rt: HostRuntime) {
    let seed = seed(&rt);
    for &(line, want) in &[
        (b"".as_slice(), NONE),
        (b"none", NONE),
        (b"max-age=60", AGED),
        (b"max-age=60;x, a=(1 2)", AGED),
        (b"max-age=1.5", INVALID),
        (b"max-age=-1", INVALID),
        (b"max-age=\"60\"", INVALID),
        (b"max-age=(60)", INVALID),
        (b"max-age", INVALID),
        (b"max-age=?0", INVALID),
        (b"max-age=1.5, max-age=60", AGED),
        (b"max-age=60, max-age=1.5", INVALID),
        (b"s-maxage=1.5, max-age=60", INVALID_SHARED),
        (b"public, must-understand, proxy-revalidate", OTHERS),
        (b"public=?0, must-understand=?0, proxy-revalidate=?0", NONE),
    ] {
        let found = (rules_of(&rt, &seed, line), scanned(line));
        assert_eq!(rt; found, (want, Some(want)));
    }
    assert_eq!(rt; CacheRules::default(), NONE);
}

/// What permits a cache to store a response.
#[test]
fn permissions(rt: HostRuntime) {
    let seed = seed(&rt);
    for &(line, shared, private, authorized) in &[
        (b"none".as_slice(), false, false, false),
        (b"max-age=60", true, true, false),
        (b"max-age=x", true, true, false),
        (b"s-maxage=60", true, false, true),
        (b"s-maxage=x", true, false, true),
        (b"private", false, true, false),
        (b"public", true, true, true),
        (b"must-revalidate", false, false, true),
    ] {
        let rules = rules_of(&rt, &seed, line);
        let found = (
            rules.allows_storing(sf_use::CacheKind::Shared),
            rules.allows_storing(sf_use::CacheKind::Private),
            rules.allows_authorized(),
        );
        assert_eq!(rt; found, (shared, private, authorized));
    }
}

/// Dates in the three formats of RFC 9110 section 5.6.7, whose example is one time.
#[test]
fn http_dates(rt: HostRuntime) {
    for &(text, want) in &[
        (
            b"Sun, 06 Nov 1994 08:49:37 GMT".as_slice(),
            Some(784_111_777),
        ),
        (b"Sunday, 06-Nov-94 08:49:37 GMT", Some(784_111_777)),
        (b"Sun Nov  6 08:49:37 1994", Some(784_111_777)),
        (b"Thu, 01 Jan 1970 00:00:00 GMT", Some(0)),
        (b"Sun, 06 Nov 1994 08:49:37 +0000", None),
        (b" Sun, 06 Nov 1994 08:49:37 GMT", None),
        (b"784111777", None),
        (b"0", None),
        (b"", None),
    ] {
        assert_eq!(rt; http_time(text), want);
    }
}

/// Lifetimes by `Expires`, with a `Date` or the time of receipt.
#[test]
fn lifetimes_by_expires(rt: HostRuntime) {
    const AT: &[u8] = b"Sun, 06 Nov 1994 08:49:37 GMT";
    const LATER: &[u8] = b"Sunday, 06-Nov-94 08:50:37 GMT";
    const LATEST: &[u8] = b"Sun Nov  6 09:49:37 1994";
    for &(expires, date, received, want) in &[
        (AT, Some(AT), 0, 0),
        (LATER, Some(AT), 0, 60),
        (LATEST, Some(AT), 0, 3600),
        (AT, Some(LATER), 0, 0),
        (LATER, None, 784_111_777, 60),
        (LATER, None, 784_111_838, 0),
        (LATER, Some(b"yesterday"), 784_111_777, 60),
        (b"0", Some(AT), 0, 0),
        (b"", Some(AT), 0, 0),
        (b"Sun, 06 Nov 1994 08:50:37 UTC", Some(AT), 0, 0),
        (
            b"Sun, 06 Nov 1994 08:50:37 GMT, Sun, 06 Nov 1994 08:50:37 GMT",
            Some(AT),
            0,
            0,
        ),
    ] {
        assert_eq!(rt; expires_lifetime(expires, date, received), want);
    }
}

/// Lifetimes by the fields of a response: none without `Expires`, and 0 with several of them (RFC 9111
/// section 4.2.1), even if they spell a date when they are joined.
#[test]
fn lifetimes_of_responses(rt: HostRuntime) {
    const AT: &[u8] = b"Sun, 06 Nov 1994 08:49:37 GMT";
    const LATER: &[u8] = b"Sun, 06 Nov 1994 08:50:37 GMT";
    let rows: [(&[(&[u8], &[u8])], Option<u64>); 8] = [
        (&[], None),
        (&[(b"date", AT)], None),
        (&[(b"expires", LATER), (b"date", AT)], Some(60)),
        (&[(b"expires", LATER)], Some(10)),
        (
            &[(b"expires", LATER), (b"date", AT), (b"date", AT)],
            Some(10),
        ),
        (&[(b"expires", b"0"), (b"date", AT)], Some(0)),
        (
            &[(b"expires", LATER), (b"expires", LATER), (b"date", AT)],
            Some(0),
        ),
        (
            &[
                (b"expires", b"Sun"),
                (b"expires", b"06 Nov 1994 08:50:37 GMT"),
                (b"date", AT),
            ],
            Some(0),
        ),
    ];
    for (fields, want) in rows {
        assert_eq!(&rt; expires_of(&headers_of(&rt, fields), 784_111_827), want);
    }
}
