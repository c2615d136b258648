// The words of the command, and runs of it.
use crate::expecting::seen_if;
use http_header::HeaderName;
use sf_test_alloc::{Seen, refusals, seen_without_memory};
use sf_test_io::{Paced, Tally};
use sf_tool::{ErrorStream, Request, RequestFault, Status, read_request, run};
use sf_value::{Dialect, Kind, Reading, Writing};
use std::alloc::Global;
use std::hash::RandomState;
use std::test::Fail;

fn words_of(alloc: Global, words: &[&str]) -> Result<Vec<String>, Fail> {
    let mut owned = Vec::new(alloc);
    for word in words {
        owned.push(String::from_str(alloc, word)?)?;
    }
    Ok(owned)
}

fn names_of(alloc: Global, words: &[&str]) -> Result<Request, Fail> {
    let mut names = Vec::new(alloc);
    for word in words {
        names.push(HeaderName::from_bytes(alloc, word.as_bytes())?)?;
    }
    Ok(Request::Targeted(names))
}

// What words are to be read as.
#[derive(Clone, Copy)]
enum Want {
    Show(Dialect, Kind),
    Check(Dialect, Kind),
    Normalise(Dialect, Kind),
    CacheStatus,
    Targeted(&'static [&'static str]),
    Priority,
    Usage,
}

fn are_names(names: &[HeaderName], want: &[&str]) -> bool {
    for (name, want) in names.iter().zip(want) {
        if name.as_str() != *want {
            return false;
        }
    }
    names.len() == want.len()
}

fn is_request(request: &Request, want: Want) -> bool {
    match want {
        Want::Show(dialect, kind) => match request {
            Request::Show(d, k) => *d == dialect && *k == kind,
            _ => false,
        },
        Want::Check(dialect, kind) => match request {
            Request::Check(d, k) => *d == dialect && *k == kind,
            _ => false,
        },
        Want::Normalise(dialect, kind) => match request {
            Request::Normalise(d, k) => *d == dialect && *k == kind,
            _ => false,
        },
        Want::Targeted(want) => match request {
            Request::Targeted(names) => are_names(names.as_slice(), want),
            _ => false,
        },
        Want::CacheStatus => matches!(request, Request::CacheStatus),
        Want::Priority => matches!(request, Request::Priority),
        Want::Usage => false,
    }
}

fn seen_request(alloc: Global, words: &[String], want: Want) -> Seen {
    match read_request(alloc, words) {
        Ok(request) => seen_if(is_request(&request, want)),
        Err(RequestFault::OutOfMemory) => Seen::Refused,
        Err(RequestFault::Usage) => seen_if(matches!(want, Want::Usage)),
    }
}

fn request_refusals(alloc: Global, words: &[&str], want: Want) -> Result<Option<usize>, Fail> {
    let words = words_of(alloc, words)?;
    Ok(refusals(alloc, || seen_request(alloc, &words, want)))
}

#[test]
fn requests(rt: HostRuntime) -> Result<(), Fail> {
    let rows: [(&[&str], Want); 6] = [
        (
            &["sf", "show", "--kind=item"],
            Want::Show(Dialect::Rfc9651, Kind::Item),
        ),
        (
            &["sf", "check", "--kind", "list", "--dialect", "rfc9651"],
            Want::Check(Dialect::Rfc9651, Kind::List),
        ),
        (
            &["sf", "normalise", "--kind", "dict", "--dialect", "rfc8941"],
            Want::Normalise(Dialect::Rfc8941, Kind::Dict),
        ),
        (&["sf", "cache-status"], Want::CacheStatus),
        (
            &["sf", "targeted", "Cache-Control", "X-Cache", "--", "-a"],
            Want::Targeted(&["cache-control", "x-cache", "-a"]),
        ),
        (&["sf", "priority"], Want::Priority),
    ];
    for (words, want) in rows {
        let found = request_refusals(rt.alloc(), words, want)?;
        assert!(rt; found > Some(0), "{found:?}");
    }
    Ok(())
}

#[test]
fn other_words(rt: HostRuntime) -> Result<(), Fail> {
    let rows: [&[&str]; 7] = [
        &["sf"],
        &["sf", "show"],
        &["sf", "check", "--kind", "text"],
        &["sf", "normalise", "--kind", "item", "--dialect", "rfc1"],
        &["sf", "cache-status", "more"],
        &["sf", "targeted", "a", "b c"],
        &["sf", "priority", "more"],
    ];
    for words in rows {
        let found = request_refusals(rt.alloc(), words, Want::Usage)?;
        assert!(rt; found > Some(0), "{found:?}");
    }
    Ok(())
}

/// A first word that is no command needs no allocation.
#[test]
fn stray_words(rt: HostRuntime) -> Result<(), Fail> {
    let rows: [&[&str]; 3] = [
        &["sf", "help"],
        &["sf", "parse", "--kind", "item"],
        &["sf", "", "check"],
    ];
    for words in rows {
        let found = request_refusals(rt.alloc(), words, Want::Usage)?;
        assert!(rt; found == Some(0), "{found:?}");
    }
    Ok(())
}

// An input, and the text and the status for it.
type Row = (&'static [u8], &'static [u8], Status);

/// Runs over a reader that gives a byte a call, into the buffer that is there.
fn ran(alloc: Global, seed: &RandomState, request: &Request, row: Row, room: &mut Vec<u8>) -> Seen {
    let (input, text, status) = row;
    room.clear();
    let mut sink = Writing::new(&mut *room);
    let mut source = Paced::new(input, 1, 0, 0);
    let mut errors = ErrorStream {
        device: Writing::new(Vec::new(alloc)),
        is_terminal: false,
    };
    let answer = run(alloc, seed, request, &mut source, &mut sink, &mut errors);
    if answer == Status::Stopped && room.is_empty() {
        Seen::Refused
    } else {
        seen_if(answer == status && room.as_slice() == text)
    }
}

fn run_refusals(
    alloc: Global,
    seed: &RandomState,
    request: &Request,
    row: Row,
) -> Result<Option<usize>, Fail> {
    let mut room = Vec::with_capacity(alloc, 1000)?;
    Ok(refusals(alloc, || ran(alloc, seed, request, row, &mut room)))
}

/// Runs into a sink that has room, where the text is expected at once, or in so many calls.
fn ran_in_parts(
    alloc: Global,
    seed: &RandomState,
    request: &Request,
    row: Row,
    calls: u64,
    sink: &mut Tally,
) -> Seen {
    let (input, text, status) = row;
    sink.taken.clear();
    sink.calls = 0;
    let mut source = Paced::new(input, 1, 0, 0);
    let mut errors = ErrorStream {
        device: Writing::new(Vec::new(alloc)),
        is_terminal: false,
    };
    let answer = run(alloc, seed, request, &mut source, sink, &mut errors);
    if answer == Status::Stopped && sink.calls == 0 {
        Seen::Refused
    } else {
        let is_sent = sink.calls == 1 || sink.calls == calls;
        seen_if(answer == status && sink.taken.as_slice() == text && is_sent)
    }
}

/// Where there is memory for the input, but not for the answer, the text goes out in the parts of the
/// field: a String in its quotes, its runs and its escapes, and then the line feed.
#[test]
fn parts_without_memory(rt: HostRuntime) -> Result<(), Fail> {
    let alloc = rt.alloc();
    let seed = RandomState::new(&rt)?;
    let item = Request::Normalise(Dialect::Rfc9651, Kind::Item);
    let rows: [(Row, u64); 3] = [
        ((b" a", b"a\n", Status::Accepted), 2),
        ((b"\"a b\"", b"\"a b\"\n", Status::Accepted), 4),
        ((b"\"a\\\\b\"", b"\"a\\\\b\"\n", Status::Accepted), 6),
    ];
    for (row, calls) in rows {
        let mut sink = Tally::new(alloc);
        sink.taken.reserve(100)?;
        let found = refusals(alloc, || {
            ran_in_parts(alloc, &seed, &item, row, calls, &mut sink)
        });
        assert!(rt; found > Some(0), "{calls}: {found:?}");
        // The last call is the first that had enough memory.
        assert_eq!(rt; sink.calls, calls);
    }
    Ok(())
}

#[test]
fn runs_of_a_kind(rt: HostRuntime) -> Result<(), Fail> {
    let seed = RandomState::new(&rt)?;
    let list = Request::Normalise(Dialect::Rfc9651, Kind::List);
    let dict = Request::Show(Dialect::Rfc9651, Kind::Dict);
    let item = Request::Check(Dialect::Rfc9651, Kind::Item);
    let settled = Request::Normalise(Dialect::Rfc9651, Kind::Dict);
    let checked = Request::Check(Dialect::Rfc9651, Kind::List);
    let rows: [(&Request, Row); 9] = [
        (&list, (b"a\r\n\tb \r\n", b"a, b\n", Status::Accepted)),
        // More than 32 nodes, and then with a repeated key; few nodes with one; a String over lines.
        (
            &list,
            (
                b"1,2,3,4,5,6,7,8,9,10,11,12,13,14,15,16,17,18,19,20,21,22,23,24,25,26,27,28,29,30,\
                  31,32,33,34",
                b"1, 2, 3, 4, 5, 6, 7, 8, 9, 10, 11, 12, 13, 14, 15, 16, 17, 18, 19, 20, 21, 22, 23, \
                  24, 25, 26, 27, 28, 29, 30, 31, 32, 33, 34\n",
                Status::Accepted,
            ),
        ),
        (
            &settled,
            (
                b"a=(1 2 3 4 5 6 7 8 9 10 11 12 13 14 15 16 17 18),b=(1 2 3 4 5 6 7 8 9 10 11 12),\
                  c,a=1",
                b"a=1, b=(1 2 3 4 5 6 7 8 9 10 11 12), c\n",
                Status::Accepted,
            ),
        ),
        (&settled, (b"u=1, i, u=2", b"u=2, i\n", Status::Accepted)),
        (&checked, (b"1, \"a\nb\"", b"accepted\n", Status::Accepted)),
        (
            &list,
            (
                b"a\n\n",
                b"refused at 3 ended expected 09 20 22 25 28 2a 2d 30-3a 3f-5a 61-7a\n",
                Status::Refused,
            ),
        ),
        (
            &dict,
            (
                b"a=1,b;x, a=(1  2 );y=:YQ:",
                b"dict 2\n  a = inner 2\n    integer 1\n    integer 2\n    ; y bytes :YQ==:\
                  \n  b = boolean ?1\n    ; x boolean ?1\n",
                Status::Accepted,
            ),
        ),
        (
            &item,
            (
                b"1 2",
                b"refused at 2 found 0x32 expected 20 end\n",
                Status::Refused,
            ),
        ),
        (&item, (b"1", b"accepted\n", Status::Accepted)),
    ];
    for (request, row) in rows {
        let found = run_refusals(rt.alloc(), &seed, request, row)?;
        assert!(rt; found > Some(0), "{found:?}");
    }
    let empty = run_refusals(rt.alloc(), &seed, &list, (b"", b"\n", Status::Accepted))?;
    assert!(rt; empty.is_some());
    Ok(())
}

#[test]
fn runs_of_a_consumer(rt: HostRuntime) -> Result<(), Fail> {
    let alloc = rt.alloc();
    let seed = RandomState::new(&rt)?;
    let caches = Request::CacheStatus;
    let priority = Request::Priority;
    let targeted = names_of(alloc, &["cdn-cache-control", "x-cache-control"])?;
    let rows: [(&Request, Row); 7] = [
        (
            &caches,
            (
                b"c;hit=?0;fwd=odd;fwd-status=99;stored;ttl=-3",
                b"hop 0 c forwarded odd stored=?1 ttl=-3\nserved none\n",
                Status::Accepted,
            ),
        ),
        (
            &caches,
            (
                b"c;hit=\"x\"",
                b"hop 0 c unsaid\nserved none\n",
                Status::Accepted,
            ),
        ),
        (
            &caches,
            (b"7;hit", b"refused not a cache 0\n", Status::Refused),
        ),
        (
            &priority,
            (b"u=8, i", b"urgency 3 incremental true\n", Status::Accepted),
        ),
        (
            &targeted,
            (
                b"CDN-Cache-Control: max-age=60,\nX-Cache-Control: max-age=30, s-maxage=90, no-store=?0\n",
                b"field 1 x-cache-control\nlifetime shared 90\nlifetime private 30\n",
                Status::Accepted,
            ),
        ),
        (
            &targeted,
            (b"X-Cache-Control:\n", b"fallback\n", Status::Accepted),
        ),
        (
            &targeted,
            (b"\nnonsense\n", b"refused line 1\n", Status::Refused),
        ),
    ];
    for (request, row) in rows {
        let found = run_refusals(alloc, &seed, request, row)?;
        assert!(rt; found > Some(0), "{found:?}");
    }
    Ok(())
}

/// The output is written also if no memory is left for its text.
#[test]
fn answers_without_memory(rt: HostRuntime) -> Result<(), Fail> {
    let alloc = rt.alloc();
    let seed = RandomState::new(&rt)?;
    let mut room = Vec::with_capacity(alloc, 1000)?;
    let list = Request::Normalise(Dialect::Rfc9651, Kind::List);
    let seen = seen_without_memory(alloc, || {
        ran(
            alloc,
            &seed,
            &list,
            (b"", b"\n", Status::Accepted),
            &mut room,
        )
    });
    assert_eq!(&rt; seen, Some(Seen::Right));
    let item = Request::Show(Dialect::Rfc9651, Kind::Item);
    let text = b"refused at 0 ended expected 20 22 25 2a 2d 30-3a 3f-5a 61-7a\n";
    let seen = seen_without_memory(alloc, || {
        ran(alloc, &seed, &item, (b"", text, Status::Refused), &mut room)
    });
    assert_eq!(&rt; seen, Some(Seen::Right));
    Ok(())
}

/// Runs at a terminal, whose bytes go into the second buffer: the whole explanation or nothing
/// is written, and the output is written whatever memory is left for it.
fn explained(
    alloc: Global,
    seed: &RandomState,
    row: Row,
    words: &[u8],
    room: &mut Vec<u8>,
    explanation: &mut Vec<u8>,
) -> Seen {
    let (input, text, status) = row;
    room.clear();
    explanation.clear();
    let mut sink = Writing::new(&mut *room);
    let mut errors = ErrorStream {
        device: Writing::new(&mut *explanation),
        is_terminal: true,
    };
    let mut source = Reading::new(input);
    let item = Request::Check(Dialect::Rfc9651, Kind::Item);
    let answer = run(alloc, seed, &item, &mut source, &mut sink, &mut errors);
    drop(errors);
    if answer == Status::Stopped && room.is_empty() && explanation.is_empty() {
        return Seen::Refused;
    }
    if answer != status || room.as_slice() != text {
        return Seen::Wrong;
    }
    if explanation.is_empty() {
        return Seen::Refused;
    }
    seen_if(explanation.as_slice() == words)
}

/// An explanation whose allocation fails is omitted, and the output stays.
#[test]
fn explanations(rt: HostRuntime) -> Result<(), Fail> {
    let alloc = rt.alloc();
    let seed = RandomState::new(&rt)?;
    let mut room = Vec::with_capacity(alloc, 1000)?;
    let mut explanation = Vec::with_capacity(alloc, 1000)?;
    let row: Row = (
        b"1 2",
        b"refused at 2 found 0x32 expected 20 end\n",
        Status::Refused,
    );
    let words =
        b"byte 0x32 '2' at place 2, expected a space or the end\nline 1, place 2:\n1 2\n  ^\n";
    let found = refusals(alloc, || {
        explained(
            alloc,
            &seed,
            row,
            words.as_slice(),
            &mut room,
            &mut explanation,
        )
    });
    assert!(rt; found > Some(0), "{found:?}");
    Ok(())
}
