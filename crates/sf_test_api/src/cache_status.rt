//! Hops read from texts and written again. Expected values come from RFC 9211, sections 2 and 4.
use crate::building::seed;
use sf_field::{AskFault, Consumer, UseFault, ask};
use sf_parse::{Refusal, parse_list};
use sf_use::{
    CachePath, CacheStatus, Forward, Hop, HopCursor, HopStatus, Name, NameView, Outcome, Passed,
    append_hop,
};
use sf_value::{Blob, Field, List, OutOfRange, Token};
use sf_write::to_text;
use std::alloc::Global;
use std::hash::RandomState;
use std::process::Abort;

fn read(
    rt: &(impl Abort + AllocGlobal),
    seed: &RandomState,
    text: &str,
) -> Result<CachePath, AskFault> {
    read_lines(rt, seed, &[text])
}

fn read_lines(
    rt: &(impl Abort + AllocGlobal),
    seed: &RandomState,
    lines: &[&str],
) -> Result<CachePath, AskFault> {
    let mut blobs = Vec::new(rt.alloc());
    for line in lines {
        let line = Blob::new(rt.alloc(), line.as_bytes()).expect(rt, "room");
        blobs.push(line).expect(rt, "room");
    }
    ask(rt.alloc(), seed, &CacheStatus, blobs.as_slice())
}

/// The text of the members that are appended for the hops.
fn written(rt: &(impl Abort + AllocGlobal), seed: &RandomState, hops: &[Hop]) -> Vec<u8> {
    let mut list = List::new(rt.alloc());
    for hop in hops {
        append_hop(rt.alloc(), seed, &mut list, hop).expect(rt, "room");
    }
    text_of(rt, list)
}

fn text_of(rt: &(impl Abort + AllocGlobal), list: List) -> Vec<u8> {
    to_text(rt.alloc(), &list.into()).expect(rt, "room")
}

/// Expects the cache that served, and the hops written again.
fn check_path(
    rt: &(impl Abort + AllocGlobal),
    seed: &RandomState,
    text: &str,
    want: &str,
    served: Option<usize>,
) {
    let path = read(rt, seed, text).expect(rt, "a List of caches");
    assert!(rt; path.served_by() == served, "served by, of {text}");
    let again = written(rt, seed, path.hops());
    assert!(rt; again.as_slice() == want.as_bytes(), "written, of {text}");
}

#[test]
fn reads_and_writes(rt: HostRuntime) {
    let seed = seed(&rt);
    for &(text, want, served) in &[
        ("", "", None),
        ("ExampleCache; hit", "ExampleCache;hit", Some(0)),
        (
            "ExampleCache; hit; ttl=-412",
            "ExampleCache;hit;ttl=-412",
            Some(0),
        ),
        (
            "ExampleCache; fwd=stale; fwd-status=304",
            "ExampleCache;fwd=stale;fwd-status=304",
            None,
        ),
        (
            "ExampleCache; fwd=uri-miss; collapsed=?0",
            "ExampleCache;fwd=uri-miss;collapsed=?0",
            None,
        ),
        (
            "OriginCache; hit; ttl=1100, \"CDN Company Here\"; hit; ttl=545",
            "OriginCache;hit;ttl=1100, \"CDN Company Here\";hit;ttl=545",
            Some(1),
        ),
        (
            "ReverseProxyCache; hit, ForwardProxyCache; fwd=uri-miss; collapsed; stored, \
             BrowserCache; fwd=uri-miss",
            "ReverseProxyCache;hit, ForwardProxyCache;fwd=uri-miss;stored;collapsed, \
             BrowserCache;fwd=uri-miss",
            Some(0),
        ),
        ("c;hit;fwd=miss", "c;hit;fwd=miss", None),
        (
            "c;hit=?0;fwd=odd;fwd-status=99;stored;ttl=-3",
            "c;fwd=odd;ttl=-3;stored",
            None,
        ),
        ("c;stored;fwd-status=304;collapsed", "c", None),
        ("c;hit=\"x\";fwd=\"miss\";ttl=1.0;key=k;detail=1", "c", None),
        (
            "c;detail=\"a b\";key=\"k\";other",
            "c;key=\"k\";detail=\"a b\"",
            None,
        ),
        (
            "c;fwd=a;fwd-status=100, c;fwd=b;fwd-status=1000;stored=?0",
            "c;fwd=a;fwd-status=100, c;fwd=b;stored=?0",
            None,
        ),
        (
            "\"a \\\"b\\\\\";key=\"\\\"k\";detail=\"d\\\\\"",
            "\"a \\\"b\\\\\";key=\"\\\"k\";detail=\"d\\\\\"",
            None,
        ),
        (
            "c;hit=?0;ttl=1;hit;detail=a;detail=\"\";ttl=-999999999999999",
            "c;hit;ttl=-999999999999999;detail=\"\"",
            Some(0),
        ),
        (
            "c;a=%\"f%c3%bc\";hit;b=:YQ==:;c=@1;hits;keys=\"k\", d;hit;fwd=miss;fwd=1",
            "c;hit, d;hit",
            Some(1),
        ),
        (
            "\"a name of more than sixteen bytes\";fwd=a-token-of-more-than-sixteen;\
             key=\"https://example.com/a/path?with=a&query\"",
            "\"a name of more than sixteen bytes\";fwd=a-token-of-more-than-sixteen;\
             key=\"https://example.com/a/path?with=a&query\"",
            None,
        ),
    ] {
        check_path(&rt, &seed, text, want, served);
    }
}

/// Expects the hops of lines written again, as one text.
fn check_lines(
    rt: &(impl Abort + AllocGlobal),
    seed: &RandomState,
    lines: &[&str],
    want: &str,
    served: Option<usize>,
) {
    let path = read_lines(rt, seed, lines).expect(rt, "a List of caches");
    assert!(rt; path.served_by() == served, "served by, of {want}");
    let again = written(rt, seed, path.hops());
    assert!(rt; again.as_slice() == want.as_bytes(), "written, of {want}");
}

#[test]
fn reads_lines(rt: HostRuntime) {
    let seed = seed(&rt);
    check_lines(&rt, &seed, &[], "", None);
    check_lines(&rt, &seed, &[""], "", None);
    check_lines(&rt, &seed, &["a; hit"], "a;hit", Some(0));
    check_lines(
        &rt,
        &seed,
        &["a; hit", "b; fwd=miss"],
        "a;hit, b;fwd=miss",
        Some(0),
    );
    check_lines(
        &rt,
        &seed,
        &["a", "b;hit,c", "d"],
        "a, b;hit, c, d",
        Some(1),
    );
    check_lines(
        &rt,
        &seed,
        &["a;key=\"k", "l\";hit", "b"],
        "a;hit;key=\"k, l\", b",
        Some(0),
    );
}

/// A Token of so many bytes.
fn long_token(rt: &(impl Abort + AllocGlobal), length: usize) -> Vec<u8> {
    let mut text = Vec::new(rt.alloc());
    for _ in 0..length {
        text.push(b'a').expect(rt, "room");
    }
    text
}

/// Lines of these texts.
fn blobs_of(rt: &(impl Abort + AllocGlobal), lines: &[&[u8]]) -> Vec<Blob> {
    let mut blobs = Vec::new(rt.alloc());
    for line in lines {
        let line = Blob::new(rt.alloc(), line).expect(rt, "room");
        blobs.push(line).expect(rt, "room");
    }
    blobs
}

/// The lengths of the names of the hops that these lines have, or the fault.
fn name_lengths(
    rt: &(impl Abort + AllocGlobal),
    seed: &RandomState,
    lines: &[&[u8]],
) -> Result<Vec<usize>, AskFault> {
    let path = ask(
        rt.alloc(),
        seed,
        &CacheStatus,
        blobs_of(rt, lines).as_slice(),
    )?;
    let mut lengths = Vec::new(rt.alloc());
    for hop in path.hops() {
        let length = match &hop.name {
            Name::Text(text) => text.as_bytes().len(),
            Name::Token(token) => token.as_bytes().len(),
        };
        lengths.push(length).expect(rt, "room");
    }
    Ok(lengths)
}

/// Lines whose joined text is about as long as the buffer that `ask` has for them, or longer.
#[test]
fn reads_long_lines(rt: HostRuntime) {
    let seed = seed(&rt);
    for length in [
        1000, 1017, 1018, 1019, 1020, 1021, 1022, 1023, 1024, 1025, 5000,
    ] {
        let long = long_token(&rt, length);
        let long = long.as_slice();
        let first = name_lengths(&rt, &seed, &[long, b"b;hit"]).expect(&rt, "a List of caches");
        assert!(&rt; first.as_slice() == [length, 1].as_slice(), "{length}");
        let last = name_lengths(&rt, &seed, &[b"b;hit", long]).expect(&rt, "a List of caches");
        assert!(&rt; last.as_slice() == [1, length].as_slice(), "{length}");
        let amid = name_lengths(&rt, &seed, &[b"bc", long, b"def"]);
        assert!(&rt;
            amid.expect(&rt, "a List of caches").as_slice() == [2, length, 3].as_slice(),
            "{length}"
        );
        let twice = name_lengths(&rt, &seed, &[long, long, b"7"]);
        let no_cache = AskFault::Answer(UseFault::NotACache { index: 2 });
        assert!(&rt;
            matches!(twice, Err(fault) if fault == no_cache),
            "{length}"
        );
        let refused = name_lengths(&rt, &seed, &[b"7", long, b"!"]);
        let place = 1 + 2 + length as u64 + 2;
        assert!(&rt;
            matches!(refused, Err(fault) if is_refused_at(fault, place)),
            "{length}"
        );
    }
}

/// Whether the fault is a byte that is not allowed at this place, or the end there.
fn is_refused_at(fault: AskFault, at: u64) -> bool {
    match fault {
        AskFault::Field(Refusal::Syntax { place, .. }) => place == at,
        _ => false,
    }
}

/// A refusal comes before a member that names no cache, wherever that is.
#[test]
fn refuses_lines(rt: HostRuntime) {
    let seed = seed(&rt);
    for &(lines, place) in &[
        ([")", "a", "b"].as_slice(), 0),
        (["a", "", "b"].as_slice(), 3),
        (["7", "(b)", "c;"].as_slice(), 10),
        (["7;hit, c;"].as_slice(), 9),
        (["a;key=\"k", "b"].as_slice(), 11),
        (["a,", "b"].as_slice(), 2),
        (["", "a"].as_slice(), 0),
        (["a", ""].as_slice(), 3),
    ] {
        let fault = read_lines(&rt, &seed, lines);
        assert!(&rt;
            matches!(fault, Err(fault) if is_refused_at(fault, place)),
            "{place}"
        );
    }
    for &(lines, index) in &[
        (["a", "7"].as_slice(), 1),
        (["a, (b)", "7"].as_slice(), 1),
        (["a;hit", "b", "()"].as_slice(), 2),
    ] {
        let want = AskFault::Answer(UseFault::NotACache { index });
        let fault = read_lines(&rt, &seed, lines);
        assert!(&rt; matches!(fault, Err(fault) if fault == want), "{index}");
    }
}

fn fault_of(rt: &(impl Abort + AllocGlobal), seed: &RandomState, text: &str) -> Option<AskFault> {
    match read(rt, seed, text) {
        Ok(_) => None,
        Err(fault) => Some(fault),
    }
}

#[test]
fn refuses(rt: HostRuntime) {
    let seed = seed(&rt);
    for &(text, index) in &[("7;hit", 0), ("a, (b), 7", 1), ("a, \"b\", :YQ==:, ()", 2)] {
        let want = AskFault::Answer(UseFault::NotACache { index });
        assert_eq!(rt; fault_of(&rt, &seed, text), Some(want));
    }
    let refused = matches!(
        fault_of(&rt, &seed, "(a"),
        Some(AskFault::Field(Refusal::Syntax {
            place: 2,
            found: None,
            may_end: false,
            ..
        }))
    );
    assert!(rt; refused);
}

/// A text of caches is read without a List.
#[test]
fn reads_texts(rt: HostRuntime) {
    let text = b"a;hit, \"b\\\"\";fwd=stale;fwd-status=304;stored;ttl=-3, c;key=\"k\"";
    let path = CacheStatus
        .answer_text(rt.alloc(), text)
        .expect(&rt, "caches");
    assert!(rt; path.hops().len() == 3 && path.served_by() == Some(0));
    assert!(rt; CacheStatus.answer_text(rt.alloc(), b"a, 7").is_none());
}

fn reason_of(outcome: &Outcome) -> &str {
    let Some(passed) = outcome.passed() else {
        return "none";
    };
    match passed.why {
        Forward::Bypass => "bypass",
        Forward::Method => "method",
        Forward::UriMiss => "uri-miss",
        Forward::VaryMiss => "vary-miss",
        Forward::Miss => "miss",
        Forward::Request => "request",
        Forward::Stale => "stale",
        Forward::Partial => "partial",
        Forward::Other(_) => "other",
    }
}

/// Expects one hop, and this reason for it.
fn check_reason(rt: &(impl Abort + AllocGlobal), seed: &RandomState, text: &str, want: &str) {
    let path = read(rt, seed, text).expect(rt, "a List of caches");
    let is_right = match path.hops() {
        [hop] => reason_of(&hop.outcome) == want,
        _ => false,
    };
    assert!(rt; is_right, "of {text}");
}

#[test]
fn tells_reasons(rt: HostRuntime) {
    let seed = seed(&rt);
    for &(text, want) in &[
        ("a;fwd=bypass", "bypass"),
        ("b;fwd=method", "method"),
        ("c;fwd=uri-miss", "uri-miss"),
        ("d;fwd=vary-miss", "vary-miss"),
        ("e;fwd=miss", "miss"),
        ("f;fwd=request", "request"),
        ("g;fwd=stale", "stale"),
        ("h;fwd=partial;hit", "partial"),
        ("i;fwd=Miss", "other"),
        ("j;fwd=\"miss\"", "none"),
        ("k;hit", "none"),
    ] {
        check_reason(&rt, &seed, text, want);
    }
}

fn token_name(rt: &(impl Abort + AllocGlobal), text: &[u8]) -> Name {
    Name::Token(Token::new(rt.alloc(), text).expect(rt, "a Token"))
}

fn stale_hop(name: Name, detail: Name, status: HopStatus) -> Hop {
    let passed = Passed {
        why: Forward::Stale,
        status: Some(status),
        stored: Some(true),
        collapsed: None,
    };
    Hop {
        name,
        outcome: Outcome::Forwarded(passed),
        ttl: None,
        key: None,
        detail: Some(detail),
    }
}

/// The hop `edge;fwd=stale;fwd-status=304;stored;detail=x`.
fn edge(rt: &(impl Abort + AllocGlobal)) -> Hop {
    let status = HopStatus::new(304).expect(rt, "a status");
    stale_hop(token_name(rt, b"edge"), token_name(rt, b"x"), status)
}

/// The List of the path of two caches that RFC 9211 shows, with a third one after them.
fn with_edge(rt: &(impl Abort + AllocGlobal), seed: &RandomState) -> List {
    let text = b"OriginCache; hit; ttl=1100, \"CDN Company Here\"; hit; ttl=545";
    let mut list = parse_list(rt.alloc(), seed, text).expect(rt, "a List");
    let appended = append_hop(rt.alloc(), seed, &mut list, &edge(rt));
    assert!(rt; appended.is_ok());
    list
}

#[test]
fn appends(rt: HostRuntime) {
    let text = text_of(&rt, with_edge(&rt, &seed(&rt)));
    let want = "OriginCache;hit;ttl=1100, \"CDN Company Here\";hit;ttl=545, \
                edge;fwd=stale;fwd-status=304;stored;detail=x";
    assert!(rt; text.as_slice() == want.as_bytes());
}

fn served_by(alloc: Global, field: &Field) -> Option<usize> {
    let Field::List(_) = field else {
        return None;
    };
    match CacheStatus.answer(alloc, field) {
        Ok(path) => path.served_by(),
        Err(_) => None,
    }
}

#[test]
fn appended_reads_back(rt: HostRuntime) {
    let field = with_edge(&rt, &seed(&rt)).into();
    assert!(rt; served_by(rt.alloc(), &field) == Some(1));
}

fn status_of(code: u16) -> Result<u16, OutOfRange> {
    Ok(HopStatus::new(code)?.get())
}

fn status_from(code: u16) -> Result<u16, OutOfRange> {
    Ok(HopStatus::try_from(code)?.get())
}

#[test]
fn statuses(rt: HostRuntime) {
    for &(code, want) in &[
        (99u16, Err(OutOfRange)),
        (100, Ok(100)),
        (999, Ok(999)),
        (1000, Err(OutOfRange)),
    ] {
        assert_eq!(rt; (status_of(code), status_from(code)), (want, want));
    }
}

fn is_named(name: NameView, token: &[u8]) -> bool {
    match name {
        NameView::Token(found) => return found == token,
        NameView::Text(_) => return false,
    }
}

/// The hops of a text, as the digits of a number: 1 for a hit, 2 if the request was forwarded, 3
/// for both, otherwise 9; None if the text is declined.
fn outcomes(text: &[u8]) -> Option<u32> {
    let mut hops = HopCursor::new(text);
    let mut all = 0u32;
    for _ in 0..u64::MAX {
        let Some(hop) = hops.next()? else {
            break;
        };
        let digit = match (hop.params.hit == Some(true), hop.params.fwd.is_some()) {
            (true, false) => 1,
            (false, true) => 2,
            (true, true) => 3,
            (false, false) => 9,
        };
        all = all.wrapping_mul(10).wrapping_add(digit);
    }
    Some(all)
}

#[test]
fn borrowed_hops(rt: HostRuntime) {
    for &(text, want) in &[
        (b"".as_slice(), Some(0)),
        (
            b"OriginCache; hit; ttl=1100, \"CDN Company Here\"; fwd=uri-miss",
            Some(12),
        ),
        (
            b"a;hit;fwd=x, b;hit=?0, c;fwd=\"s\", d;hit;hit=1",
            Some(3999),
        ),
        (b"a, (b), c", None),
        (b"a, 7", None),
        (b"a,", None),
    ] {
        assert_eq!(rt; outcomes(text), want);
    }
}

/// Which parts of the one hop of the text below are as they are written there.
fn parts_of_edge(text: &[u8]) -> Option<[bool; 10]> {
    let mut hops = HopCursor::new(text);
    let hop = hops.next()??;
    let params = hop.params;
    Some([
        is_named(hop.name, b"edge"),
        params.hit.is_none(),
        params.fwd == Some(b"miss".as_slice()),
        params.fwd_status == Some(304),
        params.stored == Some(true),
        params.collapsed == Some(false),
        params.ttl == Some(-2),
        params.key?.bytes == b"k".as_slice(),
        is_named(params.detail?, b"d"),
        hops.next()?.is_none(),
    ])
}

/// The last parameter of a key counts, also if it is of another type.
#[test]
fn borrowed_parameters(rt: HostRuntime) {
    let text =
        b"edge; ttl=1;fwd=miss; fwd-status=304;stored;collapsed=?0;ttl=-2;key=\"k\";detail=d";
    assert_eq!(rt; parts_of_edge(text), Some([true; 10]));
}
