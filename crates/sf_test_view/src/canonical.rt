//! Canonical texts, written from nodes.
use crate::trees::TEXTS;
use crate::views::ACCEPTED;
use sf_parse::Refusal;
use sf_test_io::Trickle;
use sf_value::{Dialect, Kind};
use sf_view::{Node, View, normalise, view_text, write_view};
use sf_write::WriteFault;
use std::alloc::Global;
use std::hash::RandomState;
use std::test::Fail;

/// Whether this is the canonical text of the field that the text spells, written from its nodes.
fn writes(alloc: Global, dialect: Dialect, kind: Kind, text: &[u8], canonical: &[u8]) -> bool {
    let mut buffer = [Node::NONE; 64];
    let Some(view) = View::scan(dialect, kind, text, &mut buffer).ok() else {
        return false;
    };
    match view_text(alloc, &view, kind) {
        Ok(written) => return written.as_slice() == canonical,
        Err(_) => return false,
    }
}

/// Whether normalising the text returns this one.
fn normalises(
    alloc: Global,
    seed: &RandomState,
    kind: Kind,
    text: &[u8],
    canonical: &[u8],
) -> bool {
    match normalise(alloc, seed, Dialect::Rfc9651, kind, text) {
        Ok(written) => return written.as_slice() == canonical,
        Err(_) => return false,
    }
}

// Of each accepted text the canonical one.
static OF_ACCEPTED: [&[u8]; 34] = [
    b"0",
    b"-0.5",
    b"7",
    b"a/b:c",
    b"1.5;q=?0;r=1",
    b"999999999999999",
    b"-999999999999.999",
    b":YQ==:",
    b":YQ==:",
    b":YQ==:",
    b"::",
    b":iQ==:",
    b":YWE=:",
    b"\"a\\\"b\\\\\"",
    b"?0;a",
    b"*a",
    b"a;*k",
    b"\"\"",
    b"a",
    b"",
    b"",
    b"1, 2",
    b"()",
    b"()",
    b"(a;b c)",
    b"(a;b)",
    b"a, b",
    b"(1 2);a, 3",
    b"\"a, b\"",
    b"",
    b"a;b",
    b"a=(1 2), b=3, c=4;aa=bb, d=(5 6);valid",
    b"en=\"Applepie\", da=:w4ZibGV0w6ZydGU=:",
    b"a, b, c, d, e, f, g, h, i, j, k, l, m, n, o, p, q, r, s, t, u, v, w, x, y, z, aa, bb",
];

// The same of the examples of RFC 9651, and of the texts with each type, escape and kind of part.
static OF_TEXTS: [&[u8]; 40] = [
    b"\"foo\", \"bar\", \"It was the best of times.\"",
    b"foo, bar",
    b"sugar, tea, rum",
    b"(\"foo\" \"bar\"), (\"baz\"), (\"bat\" \"one\"), ()",
    b"(\"foo\";a=1;b=2);lvl=5, (\"bar\" \"baz\");lvl=1",
    b"abc;a=1;b=2;cde_456, (ghi;jk=4 l);q=\"9\";r=w",
    b"1;a;b=?0",
    b"en=\"Applepie\", da=:w4ZibGV0w6ZydGU=:",
    b"a=?0, b, c;foo=bar",
    b"rating=1.5, feelings=(joy sadness)",
    b"a=(1 2), b=3, c=4;aa=bb, d=(5 6);valid",
    b"5",
    b"5;foo=bar",
    b"42",
    b"4.5",
    b"\"hello world\"",
    b"foo123/456",
    b":cHJldGVuZCB0aGlzIGlzIGJpbmFyeSBjb250ZW50Lg==:",
    b"?1",
    b"@1659578233",
    b"%\"This is intended for display to %c3%bcsers.\"",
    b"0",
    b"-999999999999.999;q=-0.001",
    b"\"a\\\"b\\\\\";a=\"\\\\\"",
    b":iQ==:",
    b":YWE=:",
    b"::;a=::",
    b":+/+/:",
    b":AAECAwQFBgcICQ==:",
    b"%\"%f0%9f%92%a9%25%22\"",
    b"@-1;d=@0",
    b"",
    b"()",
    b"();a",
    b"(a;b c;d=1;e);f;g=h",
    b"(\"\\\"\" ::;a);b, 1;c",
    b"",
    b"u=1, i",
    b"a;b=1;c, d=();e, f=(g;h);i;j",
    b"a, b, c, d, e, f, g, h, i, j, k, l, m, n, o, p, q, r, s, t, u, v, w, x, y, z, aa, bb",
];

// What more than one text spells, in each of its texts.
static SPELLINGS: [(Kind, &[u8], &[u8]); 12] = [
    (Kind::Item, b"%\"%61%20b\"", b"%\"a b\""),
    (Kind::Item, b"%\"%7e%7f%0a\"", b"%\"~%7f%0a\""),
    (Kind::Item, b":AAECAwQFBgcICQ=:", b":AAECAwQFBgcICQ==:"),
    (Kind::Item, b":AAECAwQFBgcICR==:", b":AAECAwQFBgcICQ==:"),
    (Kind::Item, b":AAECAwQFBgcI:", b":AAECAwQFBgcI:"),
    (Kind::Item, b":AAECAwQFBgd:", b":AAECAwQFBgc=:"),
    (Kind::Item, b"1.100;a=0.0;b=-0.0", b"1.1;a=0.0;b=0.0"),
    (Kind::Item, b"@007", b"@7"),
    (Kind::List, b"?1, ?0;a=?1", b"?1, ?0;a"),
    (Kind::Dict, b"a=?1, b=?1;c=?1, d=?0", b"a, b;c, d=?0"),
    (Kind::Dict, b"a=(?1 ?0;b=?1);c=?1", b"a=(?1 ?0;b);c"),
    (Kind::Dict, b"a=1,\tb=2  ,  c=3", b"a=1, b=2, c=3"),
];

#[test]
fn accepted_texts_are_written(rt: HostRuntime) -> Result<(), Fail> {
    for ((kind, text), canonical) in ACCEPTED.iter().zip(&OF_ACCEPTED) {
        assert!(&rt; writes(rt.alloc(), Dialect::Rfc9651, *kind, text, canonical));
        assert!(&rt; writes(rt.alloc(), Dialect::Rfc8941, *kind, text, canonical));
    }
    Ok(())
}

#[test]
fn examples_are_written(rt: HostRuntime) -> Result<(), Fail> {
    for ((kind, text), canonical) in TEXTS.iter().zip(&OF_TEXTS) {
        assert!(&rt; writes(rt.alloc(), Dialect::Rfc9651, *kind, text, canonical));
    }
    Ok(())
}

#[test]
fn every_spelling_is_written_as_one(rt: HostRuntime) -> Result<(), Fail> {
    for (kind, text, canonical) in &SPELLINGS {
        assert!(&rt; writes(rt.alloc(), Dialect::Rfc9651, *kind, text, canonical));
    }
    Ok(())
}

#[test]
fn texts_are_normalised(rt: HostRuntime) -> Result<(), Fail> {
    let seed = RandomState::new(&rt)?;
    for ((kind, text), canonical) in TEXTS.iter().zip(&OF_TEXTS) {
        assert!(&rt; normalises(rt.alloc(), &seed, *kind, text, canonical));
    }
    for (kind, text, canonical) in &SPELLINGS {
        assert!(&rt; normalises(rt.alloc(), &seed, *kind, text, canonical));
    }
    Ok(())
}

#[test]
fn texts_without_nodes_are_normalised(rt: HostRuntime) -> Result<(), Fail> {
    let seed = RandomState::new(&rt)?;
    // A repeated key has its last value.
    assert!(&rt; normalises(rt.alloc(), &seed, Kind::Dict, b"a=1,b,a=2", b"a=2, b"));
    assert!(&rt; normalises(rt.alloc(), &seed, Kind::Item, b"1;a;b;a=2", b"1;a=2;b"));
    let refused = normalise(rt.alloc(), &seed, Dialect::Rfc8941, Kind::Item, b"1;a=@1");
    match refused {
        Err(Refusal::Syntax { place, found, .. }) => {
            assert_eq!(&rt; (place, found), (4, Some(b'@')));
        }
        _ => assert!(&rt; false),
    }
    Ok(())
}

/// What a sink took that takes one byte a call and fails at call `fails_at`, and the answer.
#[derive(Drop)]
struct Outcome {
    sink: Trickle,
    answer: Result<u64, WriteFault>,
}

/// Writes what a view shows to a sink that fails at this call.
fn send(alloc: Global, kind: Kind, text: &[u8], fails_at: u64) -> Option<Outcome> {
    let mut buffer = [Node::NONE; 64];
    let view = View::scan(Dialect::Rfc9651, kind, text, &mut buffer).ok()?;
    let mut sink = Trickle::new(alloc, fails_at);
    let answer = write_view(&view, kind, &mut sink);
    Some(Outcome { sink, answer })
}

/// Whether all of this was written, one byte a call.
fn is_whole(outcome: &Outcome, canonical: &[u8]) -> bool {
    outcome.answer == Ok(canonical.len() as u64)
        && outcome.sink.taken.as_slice() == canonical
        && outcome.sink.failures == 0
        && outcome.sink.calls == canonical.len() as u64
}

/// Whether so many bytes of this were written, and no call was made after the one that failed.
fn is_prefix(outcome: &Outcome, written: u64, canonical: &[u8]) -> bool {
    outcome.answer == Err(WriteFault { written })
        && outcome.sink.taken.len() as u64 == written
        && canonical.starts_with(outcome.sink.taken.as_slice())
        && outcome.sink.failures == 1
        && outcome.sink.calls.checked_sub(1) == Some(written)
}

// A text with each type of bare item and each kind of part.
static EACH_PART: (Kind, &[u8], &[u8]) = (
    Kind::Dict,
    b"a=(1 \"x y\" \"\\\"\" *t :YQ: %\"%66%c3%bc\" @1 1.50 ?0;p=\"q\";r=?1);y=:YWE:,b=?1;x,c=tok",
    b"a=(1 \"x y\" \"\\\"\" *t :YQ==: %\"f%c3%bc\" @1 1.5 ?0;p=\"q\";r);y=:YWE=:, b;x, c=tok",
);

#[test]
fn a_failed_call_ends_the_writing(rt: HostRuntime) -> Result<(), Fail> {
    let (kind, text, canonical) = EACH_PART;
    for written in 0..canonical.len() as u64 {
        let outcome = send(rt.alloc(), kind, text, written.saturating_add(1));
        assert!(&rt; outcome.is_some_and(|outcome| is_prefix(&outcome, written, canonical)));
    }
    let outcome = send(rt.alloc(), kind, text, 0);
    assert!(&rt; outcome.is_some_and(|outcome| is_whole(&outcome, canonical)));
    Ok(())
}
