//! The own hop appended to the lines of a Cache-Status field. Expected values come from RFC 9211
//! section 2 and RFC 9651 section 4.2.
use crate::building::seed;
use sf_field::ask_in;
use sf_parse::Refusal;
use sf_use::{
    AppendFault, Appended, CacheStatus, Forward, Hop, HopCursor, HopStatus, Name, Outcome, Passed,
    append_to_lines,
};
use sf_value::{Blob, Dialect, List, Token};
use sf_write::to_text;
use std::hash::RandomState;
use std::process::Abort;

/// The hop `edge` with an outcome.
fn edge(rt: &(impl Abort + AllocGlobal), outcome: Outcome) -> Hop {
    Hop {
        name: Name::Token(Token::new(rt.alloc(), b"edge").expect(rt, "a Token")),
        outcome,
        ttl: None,
        key: None,
        detail: None,
    }
}

fn lines_of(rt: &(impl Abort + AllocGlobal), lines: &[&[u8]]) -> Vec<Blob> {
    let mut blobs = Vec::new(rt.alloc());
    for line in lines {
        let line = Blob::new(rt.alloc(), line).expect(rt, "room");
        blobs.push(line).expect(rt, "room");
    }
    blobs
}

fn append(
    rt: &(impl Abort + AllocGlobal),
    seed: &RandomState,
    dialect: Dialect,
    lines: &[&[u8]],
    outcome: Outcome,
) -> Result<Appended, AppendFault> {
    let hop = edge(rt, outcome);
    append_to_lines(rt.alloc(), seed, dialect, lines_of(rt, lines).iter(), &hop)
}

fn text_of(rt: &(impl Abort + AllocGlobal), list: List) -> Vec<u8> {
    to_text(rt.alloc(), &list.into()).expect(rt, "room")
}

/// Expects the field with the hop, or, with the place of the mistake, the hop apart.
fn check(rt: &(impl Abort + AllocGlobal), appended: Appended, want: Result<&str, u64>) {
    match appended {
        Appended::Joined(list) => {
            let text = text_of(rt, list);
            assert!(rt; want.is_ok_and(|want| text.as_slice() == want.as_bytes()));
        }
        Appended::Apart { own, refusal } => {
            let text = text_of(rt, own);
            assert!(rt; text.as_slice() == b"edge;hit".as_slice());
            let Refusal::Syntax { place, .. } = refusal else {
                panic!(rt; "another refusal");
            };
            assert!(rt; want.is_err_and(|want| place == want), "{place}");
        }
    }
}

#[test]
fn appended_to_lines(rt: HostRuntime) {
    let seed = seed(&rt);
    for &(lines, want) in &[
        ([].as_slice(), Ok("edge;hit")),
        ([b"".as_slice()].as_slice(), Ok("edge;hit")),
        ([b"a;hit".as_slice()].as_slice(), Ok("a;hit, edge;hit")),
        (
            [b"a;hit".as_slice(), b"\"b\";fwd=miss"].as_slice(),
            Ok("a;hit, \"b\";fwd=miss, edge;hit"),
        ),
        // Members that name no cache are kept.
        (
            [b"7, (a b)".as_slice()].as_slice(),
            Ok("7, (a b), edge;hit"),
        ),
        // Malformed lines, and the place.
        ([b"a;hit,".as_slice()].as_slice(), Err(6)),
        ([b"a;hit".as_slice(), b""].as_slice(), Err(7)),
        ([b"\"a".as_slice()].as_slice(), Err(2)),
        ([b"a;hit,,".as_slice()].as_slice(), Err(6)),
        ([b"a;detail=@1".as_slice()].as_slice(), Err(9)),
    ] {
        let appended = append(&rt, &seed, Dialect::Rfc8941, lines, Outcome::Hit);
        check(&rt, appended.expect(&rt, "room"), want);
    }
    let date = append(
        &rt,
        &seed,
        Dialect::Rfc9651,
        &[b"a;detail=@1"],
        Outcome::Hit,
    );
    check(&rt, date.expect(&rt, "room"), Ok("a;detail=@1, edge;hit"));
}

/// Whether lines are refused as those of a Cache-Status field.
fn is_refused(rt: &(impl Abort + AllocGlobal), seed: &RandomState, lines: &[&[u8]]) -> bool {
    ask_in(
        rt.alloc(),
        seed,
        Dialect::Rfc8941,
        &CacheStatus,
        &lines_of(rt, lines),
    )
    .is_err()
}

/// A further line does not save the own hop: it is joined to the malformed ones.
#[test]
fn lost_in_a_further_line(rt: HostRuntime) {
    let seed = seed(&rt);
    for &line in &[b"a;hit,".as_slice(), b"\"a", b"a;hit,,", b"(a"] {
        assert!(rt; is_refused(&rt, &seed, &[line, b"edge;hit"]));
        assert!(rt; !is_refused(&rt, &seed, &[b"edge;hit"]));
    }
}

/// Both parameters of a hop that was forwarded and is a hit.
fn conflict() -> Outcome {
    Outcome::Conflict(Passed {
        why: Forward::Stale,
        status: None,
        stored: None,
        collapsed: None,
    })
}

#[test]
fn conflicts(rt: HostRuntime) {
    let seed = seed(&rt);
    for &line in &[b"a;hit".as_slice(), b"a;hit,"] {
        let refused = append(&rt, &seed, Dialect::Rfc8941, &[line], conflict());
        assert!(rt; matches!(refused, Err(AppendFault::Conflict)));
    }
    assert!(rt; conflict().is_conflict() && !Outcome::Hit.is_conflict());
    for &(line, want) in &[
        (b"a;hit;fwd=stale".as_slice(), true),
        (b"a;fwd=stale;hit=?0", true),
        (b"a;hit", false),
        (b"a;fwd=stale", false),
        (b"a;hit=1;fwd=stale", false),
    ] {
        assert!(rt; has_both(line) == Some(want));
    }
}

fn has_both(line: &[u8]) -> Option<bool> {
    let hop = HopCursor::new_in(Dialect::Rfc8941, line).next()??;
    Some(hop.params.has_hit_and_fwd())
}

/// RFC 9110 section 15: valid codes are 100 to 599.
#[test]
fn valid_statuses(rt: HostRuntime) {
    for &(code, want) in &[
        (100, true),
        (304, true),
        (599, true),
        (600, false),
        (999, false),
    ] {
        let status = HopStatus::new(code).expect(&rt, "three digits");
        assert!(rt; status.is_valid() == want, "{code}");
    }
}
