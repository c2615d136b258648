//! What a terminal shows of a refusal.
use crate::rows::{ACCEPTED, REFUSED};
use http_header::HeaderName;
use sf_test_io::{Tally, Trickle};
use sf_tool::{ErrorStream, Request, Status, run};
use sf_value::{Dialect, Kind, Reading, Writing};
use std::hash::RandomState;
use std::process::Abort;
use std::test::Fail;

/// An input, the whole output and the status for it, and what is written to standard error.
type Row = (&'static [u8], &'static [u8], Status, &'static [u8]);

const ITEM: Request = Request::Check(Dialect::Rfc9651, Kind::Item);

/// The row at a terminal: its explanation is written at once, and only if there is one.
fn expect_explained(
    rt: &(impl Abort + AllocGlobal),
    seed: &RandomState,
    request: &Request,
    row: Row,
) {
    let (input, text, status, words) = row;
    let mut source = Reading::new(input);
    let mut sink = Writing::new(Vec::new(rt.alloc()));
    let mut errors = ErrorStream {
        device: Tally::new(rt.alloc()),
        is_terminal: true,
    };
    let answer = run(
        rt.alloc(),
        seed,
        request,
        &mut source,
        &mut sink,
        &mut errors,
    );
    assert_eq!(rt; answer, status);
    assert_eq!(rt; sink.into_inner().as_slice(), text);
    assert_eq!(rt; errors.device.taken.as_slice(), words);
    assert_eq!(rt; errors.device.calls, u64::from(!words.is_empty()));
}

/// The same if the write after this prefix of the explanation fails: output and status stay.
fn expect_broken_off(
    rt: &(impl Abort + AllocGlobal),
    seed: &RandomState,
    request: &Request,
    row: Row,
    prefix: &[u8],
) {
    let (input, text, status, _) = row;
    let calls = (prefix.len() as u64).saturating_add(1);
    let mut source = Reading::new(input);
    let mut sink = Writing::new(Vec::new(rt.alloc()));
    let mut errors = ErrorStream {
        device: Trickle::new(rt.alloc(), calls),
        is_terminal: true,
    };
    let answer = run(
        rt.alloc(),
        seed,
        request,
        &mut source,
        &mut sink,
        &mut errors,
    );
    assert_eq!(rt; answer, status);
    assert_eq!(rt; sink.into_inner().as_slice(), text);
    assert_eq!(rt; errors.device.taken.as_slice(), prefix);
    assert_eq!(rt; errors.device.calls, calls);
}

/// Each row, with each write of its explanation failing in turn.
fn expect_rows(
    rt: &(impl Abort + AllocGlobal),
    seed: &RandomState,
    request: &Request,
    rows: &[Row],
) {
    for row in rows {
        expect_explained(rt, seed, request, *row);
        let (_, _, _, words) = *row;
        for place in 0..words.len() {
            let (prefix, _) = words.split_at(place);
            expect_broken_off(rt, seed, request, *row, prefix);
        }
    }
}

#[test]
fn items(rt: HostRuntime) -> Result<(), Fail> {
    let seed = RandomState::new(&rt)?;
    let rows: [Row; 9] = [
        (b"1\n", b"accepted\n", ACCEPTED, b""),
        (
            b"1 2\n",
            b"refused at 2 found 0x32 expected 20 end\n",
            REFUSED,
            b"byte 0x32 '2' at place 2, expected a space or the end\nline 1, place 2:\n1 2\n  ^\n",
        ),
        (
            b"\t 1 2 \r\n",
            b"refused at 2 found 0x32 expected 20 end\n",
            REFUSED,
            b"byte 0x32 '2' at place 2, expected a space or the end\nline 1, place 2:\n1 2\n  ^\n",
        ),
        (
            b"-",
            b"refused at 1 ended expected 30-39\n",
            REFUSED,
            b"the text ended at place 1, expected a digit\nline 1, place 1:\n-\n ^\n",
        ),
        (
            b"",
            b"refused at 0 ended expected 20 22 25 2a 2d 30-3a 3f-5a 61-7a\n",
            REFUSED,
            b"the text ended at place 0, expected a letter, a digit, a quote, `%`, `*`, `-`, `:`, \
              `?`, `@` or a space\n",
        ),
        (
            b"1\n2\n",
            b"refused at 1 found 0x2c expected 20 2e 30-39 3b end\n",
            REFUSED,
            b"byte 0x2c ',' at place 1, expected a digit, `.`, `;`, a space or the end\n\
              line 1, place 1:\n1\n ^\n",
        ),
        (
            b"\"a\xc3\xbc\"",
            b"refused at 2 found 0xc3 expected 20-7e\n",
            REFUSED,
            b"byte 0xc3 at place 2, expected a printable character\n\
              line 1, place 2:\n\"a??\"\n  ^\n",
        ),
        (
            b"\"\tb\"",
            b"refused at 1 found 0x09 expected 20-7e\n",
            REFUSED,
            b"byte 0x09 at place 1, expected a printable character\n\
              line 1, place 1:\n\"?b\"\n ^\n",
        ),
        (
            b"\"aaaaaaaaaaaaaaaaaaaaaaaaaaaaaaaaaaaaaaaaaaaaaaaaaaaaaaaaaaa\
            aaaaaaaaaaaaaaaaaaaaaaaaaaaaaaaaaaaaaaaaaaaaaaaaaaaaaaaaaaaaaaaaaaaaaa\
            aaaaaaaaaaaaaaaaaaaaaaaaaaaaaaaaaaaaaaaaaaaaaaaaaaaaaaaaaaaaaaaaaaaaaa",
            b"refused at 200 ended expected 20-7e\n",
            REFUSED,
            b"the text ended at place 200, expected a printable character\n\
              line 1, place 200:\n\"aaaaaaaaaaaaaaaaaaaaaaaaaaaaaaaaaaaaaaaa\
              aaaaaaaaaaaaaaaaaaaaaaaaaaaaaaaaaaaaaaaaaaaaaaaaaaaaaaaaaaaaaaaaaaaaaa\
              aaaaaaaaaaaaaaaaaaaaaaaaaaaaaaaaaaaaaaaaaaaaaaaaaaaaaaaaaaaaaaaaaaaaaa\
              aaaaaaaaaaaaaaaaaaa\n\x20                                       \
              \x20                                                           \
              \x20                                                           \
              \x20                                       ^\n",
        ),
    ];
    expect_rows(&rt, &seed, &ITEM, &rows);
    Ok(())
}

#[test]
fn lines(rt: HostRuntime) -> Result<(), Fail> {
    let seed = RandomState::new(&rt)?;
    let rows: [Row; 4] = [
        (b"a\nb\n", b"a, b\n", ACCEPTED, b""),
        (
            b"a\n b c\n",
            b"refused at 5 found 0x63 expected 09 20 2c end\n",
            REFUSED,
            b"byte 0x63 'c' at place 5, expected `,`, a tab, a space or the end\n\
              line 2, place 2:\nb c\n  ^\n",
        ),
        (
            b"a\r\nb\r\n@\r\n",
            b"refused at 7 ended expected 2d 30-39\n",
            REFUSED,
            b"the text ended at place 7, expected a digit or `-`\nline 3, place 1:\n@\n ^\n",
        ),
        (
            b"a\n\n",
            b"refused at 3 ended expected 09 20 22 25 28 2a 2d 30-3a 3f-5a 61-7a\n",
            REFUSED,
            b"the text ended at place 3, expected a letter, a digit, a quote, `%`, `(`, `*`, `-`, \
              `:`, `?`, `@`, a tab or a space\nline 2, place 0:\n\n^\n",
        ),
    ];
    let request = Request::Normalise(Dialect::Rfc9651, Kind::List);
    expect_rows(&rt, &seed, &request, &rows);
    Ok(())
}

#[test]
fn consumers(rt: HostRuntime) -> Result<(), Fail> {
    let seed = RandomState::new(&rt)?;
    let paths: [Row; 3] = [
        (b"a;hit", b"hop 0 a hit\nserved 0\n", ACCEPTED, b""),
        (
            b"a;hit, 7;hit\n",
            b"refused not a cache 1\n",
            REFUSED,
            b"member 1 names no cache\n",
        ),
        (
            b"a;\n",
            b"refused at 2 ended expected 20 2a 61-7a\n",
            REFUSED,
            b"the text ended at place 2, expected a lower-case letter, `*` or a space\n\
              line 1, place 2:\na;\n  ^\n",
        ),
    ];
    expect_rows(&rt, &seed, &Request::CacheStatus, &paths);
    let priorities: [Row; 2] = [
        (b"u=9", b"urgency 3 incremental false\n", ACCEPTED, b""),
        (
            b"Priority: u=1\n",
            b"refused at 0 found 0x50 expected 20 2a 61-7a end\n",
            REFUSED,
            b"byte 0x50 'P' at place 0, expected a lower-case letter, `*`, a space or the end\n\
              line 1, place 0:\nPriority: u=1\n^\n",
        ),
    ];
    expect_rows(&rt, &seed, &Request::Priority, &priorities);
    Ok(())
}

#[test]
fn header_lines(rt: HostRuntime) -> Result<(), Fail> {
    let seed = RandomState::new(&rt)?;
    let fields: [Row; 6] = [
        (b"", b"fallback\n", ACCEPTED, b""),
        (b"x: \x01\n", b"fallback\n", ACCEPTED, b""),
        (
            b"\nnonsense\n",
            b"refused line 1\n",
            REFUSED,
            b"not a field line\nline 2, place 8:\nnonsense\n        ^\n",
        ),
        (
            b" a b: 1\n",
            b"refused line 0\n",
            REFUSED,
            b"not a field line\nline 1, place 1:\na b: 1\n ^\n",
        ),
        (
            b": 1\n",
            b"refused line 0\n",
            REFUSED,
            b"not a field line\nline 1, place 0:\n: 1\n^\n",
        ),
        (
            b"x: 1\r\nCache-Control: a\x01b\r\n",
            b"refused line 1\n",
            REFUSED,
            b"not a field line\nline 2, place 16:\nCache-Control: a?b\n                ^\n",
        ),
    ];
    let mut names = Vec::new(rt.alloc());
    names.push(HeaderName::from_static("cache-control"))?;
    expect_rows(&rt, &seed, &Request::Targeted(names), &fields);
    Ok(())
}

#[test]
fn long_inputs(rt: HostRuntime) -> Result<(), Fail> {
    let seed = RandomState::new(&rt)?;
    let mut longer = Vec::new(rt.alloc());
    for _ in 0..1_048_577u32 {
        longer.push(b' ')?;
    }
    let mut source = Reading::new(longer.as_slice());
    let mut sink = Writing::new(Vec::new(rt.alloc()));
    let mut errors = ErrorStream {
        device: Tally::new(rt.alloc()),
        is_terminal: true,
    };
    let answer = run(
        rt.alloc(),
        &seed,
        &ITEM,
        &mut source,
        &mut sink,
        &mut errors,
    );
    assert_eq!(&rt; answer, REFUSED);
    assert_eq!(&rt;
        sink.into_inner().as_slice(),
        b"refused too long 1048576\n".as_slice()
    );
    assert_eq!(&rt;
        errors.device.taken.as_slice(),
        b"more than 1048576 bytes\n".as_slice()
    );
    Ok(())
}

/// With a fallback, the lines of `Cache-Control` are read, too.
#[test]
fn decided_lines(rt: HostRuntime) -> Result<(), Fail> {
    let seed = RandomState::new(&rt)?;
    let rows: [Row; 3] = [
        (
            b"x: \x01\n",
            b"by RFC 8941 and RFC 9651:\nfallback cache-control\n\
              lifetime shared none\nlifetime private none\n\
              shared unspecified nothing\nprivate unspecified nothing\n",
            ACCEPTED,
            b"",
        ),
        (
            b"x: 1\r\nCache-Control: a\x01b\r\n",
            b"refused line 1\n",
            REFUSED,
            b"not a field line\nline 2, place 16:\nCache-Control: a?b\n                ^\n",
        ),
        (
            b"nonsense\n",
            b"refused line 0\n",
            REFUSED,
            b"not a field line\nline 1, place 8:\nnonsense\n        ^\n",
        ),
    ];
    let mut names = Vec::new(rt.alloc());
    names.push(HeaderName::from_static("cdn-cache-control"))?;
    expect_rows(&rt, &seed, &Request::Decide(names, 0), &rows);
    Ok(())
}
