//! Consumers in each dialect. RFC 9211, RFC 9213 and RFC 9218 cite RFC 8941, which has no Dates and
//! no Display Strings, so it refuses each text with one.
use crate::building::seed;
use crate::targeted::headers_of;
use http_header::HeaderName;
use sf_field::{AskFault, Consumer, UseFault, ask_from_in, ask_in};
use sf_use::{
    CacheRules, CacheStatus, Choice, Directives, HopCursor, Policy, PriorityField, RulesChoice,
    TargetedRules, select_in, select_rules_in,
};
use sf_value::{Blob, Dialect};
use std::hash::RandomState;
use std::process::Abort;

const OLDER: Dialect = Dialect::Rfc8941;

const NEWER: Dialect = Dialect::Rfc9651;

fn blob(rt: &(impl Abort + AllocGlobal), text: &[u8]) -> Blob {
    Blob::new(rt.alloc(), text).expect(rt, "room")
}

/// The `max-age` of a field of these lines; None if it is refused.
fn aged(
    rt: &(impl Abort + AllocGlobal),
    seed: &RandomState,
    dialect: Dialect,
    lines: &[&[u8]],
) -> Option<u64> {
    match ask_from_in(rt.alloc(), seed, dialect, &Directives, lines.iter()) {
        Ok(policy) => policy.max_age,
        Err(_) => None,
    }
}

#[test]
fn directives(rt: HostRuntime) {
    let seed = seed(&rt);
    for &(lines, older, newer) in &[
        ([b"max-age=60".as_slice()].as_slice(), Some(60), Some(60)),
        ([b"max-age=60, x=@1".as_slice()].as_slice(), None, Some(60)),
        (
            [b"max-age=60".as_slice(), b"x=%\"a\""].as_slice(),
            None,
            Some(60),
        ),
        // A Date that a later value of its key takes the place of.
        (
            [b"x=@1, max-age=60, x=1".as_slice()].as_slice(),
            None,
            Some(60),
        ),
        (
            [b"max-age=60, x=(@1)".as_slice()].as_slice(),
            None,
            Some(60),
        ),
    ] {
        assert_eq!(rt; aged(&rt, &seed, OLDER, lines), older);
        assert_eq!(rt; aged(&rt, &seed, NEWER, lines), newer);
    }
    assert!(rt; Directives::scan_in(OLDER, b"max-age=60, x=@1").is_none());
    assert!(rt;
        Directives
            .answer_text_in(rt.alloc(), OLDER, b"a=@1")
            .is_none()
    );
}

#[test]
fn priorities(rt: HostRuntime) {
    let seed = seed(&rt);
    let lines = [blob(&rt, b"u=5, x=@1")];
    let older = ask_in(rt.alloc(), &seed, OLDER, &PriorityField, &lines);
    assert!(rt; matches!(older, Err(AskFault::Field(_))));
    let newer = ask_in(rt.alloc(), &seed, NEWER, &PriorityField, &lines).expect(&rt, "asked");
    assert!(rt; newer.with_defaults().urgency.get() == 5);
    assert!(rt; PriorityField::scan_in(OLDER, b"u=5, x=@1").is_none());
    assert!(rt; PriorityField::scan_in(OLDER, b"u=5, x=1").is_some());
    assert!(rt;
        PriorityField
            .answer_text_in(rt.alloc(), OLDER, b"x=@1")
            .is_none()
    );
}

#[test]
fn paths(rt: HostRuntime) {
    let seed = seed(&rt);
    let lines = [blob(&rt, b"a;hit;x=@1")];
    let older = ask_in(rt.alloc(), &seed, OLDER, &CacheStatus, &lines);
    assert!(rt; matches!(older, Err(AskFault::Field(_))));
    let newer = ask_in(rt.alloc(), &seed, NEWER, &CacheStatus, &lines).expect(&rt, "a path");
    assert!(rt; newer.served_by() == Some(0));
    // By RFC 8941 a Date is malformed; by RFC 9651 it is a member that names no cache.
    let lines = [blob(&rt, b"a, @1")];
    let older = ask_in(rt.alloc(), &seed, OLDER, &CacheStatus, &lines);
    assert!(rt; matches!(older, Err(AskFault::Field(_))));
    let newer = ask_in(rt.alloc(), &seed, NEWER, &CacheStatus, &lines);
    let want = AskFault::Answer(UseFault::NotACache { index: 1 });
    assert!(rt; matches!(newer, Err(fault) if fault == want));
    assert!(rt; HopCursor::new_in(OLDER, b"a;x=@1").next().is_none());
    assert!(rt;
        CacheStatus
            .answer_text_in(rt.alloc(), OLDER, b"a;x=@1")
            .is_none()
    );
}

/// A field with a Date is passed over by RFC 8941, and obeyed by RFC 9651.
#[test]
fn choices(rt: HostRuntime) {
    let seed = seed(&rt);
    let targets = [
        HeaderName::from_static("cdn-cache-control"),
        HeaderName::from_static("x-cache-control"),
    ];
    let fields = [
        (
            b"cdn-cache-control".as_slice(),
            b"max-age=60, x=@1".as_slice(),
        ),
        (b"x-cache-control", b"max-age=30"),
    ];
    let headers = headers_of(&rt, &fields);
    for &(dialect, index, seconds) in &[(OLDER, 1, 30), (NEWER, 0, 60)] {
        let policy = Policy {
            max_age: Some(seconds),
            ..Policy::default()
        };
        let choice = select_in(rt.alloc(), &seed, dialect, &targets, &headers);
        assert!(rt; choice == Ok(Choice::Field { index, policy }));
        let rules = CacheRules {
            policy,
            ..CacheRules::default()
        };
        let choice = select_rules_in(rt.alloc(), &seed, dialect, &targets, &headers);
        assert!(rt; choice == Ok(RulesChoice::Field { index, rules }));
    }
}

#[test]
fn rules(rt: HostRuntime) {
    let seed = seed(&rt);
    let lines = [blob(&rt, b"max-age=x, x=@1")];
    let older = ask_in(rt.alloc(), &seed, OLDER, &TargetedRules, &lines);
    assert!(rt; matches!(older, Err(AskFault::Field(_))));
    let newer = ask_in(rt.alloc(), &seed, NEWER, &TargetedRules, &lines).expect(&rt, "asked");
    assert!(rt; newer.invalid_max_age);
    assert!(rt; CacheRules::scan_in(OLDER, b"max-age=60, x=@1").is_none());
    assert!(rt; CacheRules::scan_in(OLDER, b"max-age=60, x=1").is_some());
    assert!(rt;
        TargetedRules
            .answer_text_in(rt.alloc(), OLDER, b"x=@1")
            .is_none()
    );
}
