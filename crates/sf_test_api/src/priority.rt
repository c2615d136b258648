//! Priority fields with what they come to, and priorities with their fields.
use crate::building::seed;
use sf_field::ask;
use sf_parse::parse_dict;
use sf_use::{Asked, Priority, PriorityField, Urgency, merge, priority_field};
use sf_value::{Blob, OutOfRange};
use sf_write::to_text;
use std::hash::RandomState;
use std::process::Abort;

fn parts(asked: Asked) -> (u8, bool) {
    let priority = asked.with_defaults();
    (priority.urgency.get(), priority.incremental)
}

/// What the field of a request comes to.
fn alone(rt: &(impl Abort + AllocGlobal), seed: &RandomState, line: &[u8]) -> (u8, bool) {
    let line = Blob::new(rt.alloc(), line).expect(rt, "room");
    let asked = ask(rt.alloc(), seed, &PriorityField, &[line]);
    parts(asked.expect(rt, "a Dictionary"))
}

/// What the field comes to without a Dictionary; None if the scan declines the text.
fn scanned(line: &[u8]) -> Option<(u8, bool)> {
    match PriorityField::scan(line) {
        Some(asked) => Some(parts(asked)),
        None => None,
    }
}

/// What a field asks for.
fn asked(rt: &(impl Abort + AllocGlobal), seed: &RandomState, text: &[u8]) -> Asked {
    let dict = parse_dict(rt.alloc(), seed, text).expect(rt, "a Dictionary");
    Priority::from_dict(&dict)
}

/// The text of the field that asks for a priority.
fn written(
    rt: &(impl Abort + AllocGlobal),
    seed: &RandomState,
    urgency: u8,
    incremental: bool,
) -> Vec<u8> {
    let priority = Priority {
        urgency: Urgency::new(urgency).expect(rt, "an urgency"),
        incremental,
    };
    let dict = priority_field(rt.alloc(), seed, priority).expect(rt, "room");
    to_text(rt.alloc(), &dict.into()).expect(rt, "room")
}

#[test]
fn priorities(rt: HostRuntime) {
    let seed = seed(&rt);
    for &(line, want) in &[
        (b"u=8, i".as_slice(), (3, true)),
        (b"u=5, i", (5, true)),
        (b"u=0", (0, false)),
        (b"u=1.0", (3, false)),
        (b"u=-0", (0, false)),
        (b"u=-1", (3, false)),
        (b"u=1, u=9", (3, false)),
        (b"u=7;x", (7, false)),
        (b"u=(1), i=(?1), a=1", (3, false)),
        (b"i=1", (3, false)),
        (b"i=?0", (3, false)),
        (b"", (3, false)),
    ] {
        let found = (alone(&rt, &seed, line), scanned(line));
        assert_eq!(rt; found, (want, Some(want)));
    }
}

/// What two lines come to.
fn both(
    rt: &(impl Abort + AllocGlobal),
    seed: &RandomState,
    first: &[u8],
    second: &[u8],
) -> Option<(u8, bool)> {
    let first = Blob::new(rt.alloc(), first).expect(rt, "room");
    let second = Blob::new(rt.alloc(), second).expect(rt, "room");
    match ask(rt.alloc(), seed, &PriorityField, &[first, second]) {
        Ok(asked) => Some(parts(asked)),
        Err(_) => None,
    }
}

/// What no line comes to.
fn unasked(rt: &(impl Abort + AllocGlobal), seed: &RandomState) -> Option<(u8, bool)> {
    match ask(rt.alloc(), seed, &PriorityField, &[]) {
        Ok(asked) => Some(parts(asked)),
        Err(_) => None,
    }
}

#[test]
fn lines_of_priorities(rt: HostRuntime) {
    let seed = seed(&rt);
    for &(first, second, want) in &[
        (b"u=1".as_slice(), b"i".as_slice(), Some((1, true))),
        (b"u=1, i", b"u=2, i=?0", Some((2, false))),
        (b"a=\"b", b"\", u=5", Some((5, false))),
        (b"u=1", b"", None),
        (b"u=1,", b"i", None),
        (b"u=1", b"i=", None),
    ] {
        assert_eq!(rt; both(&rt, &seed, first, second), want);
    }
    assert_eq!(rt; unasked(&rt, &seed), Some((3, false)));
}

/// What a request and a response ask for, and what both come to.
#[test]
fn merging(rt: HostRuntime) {
    let seed = seed(&rt);
    for &(client, server, want) in &[
        (b"u=5, i".as_slice(), b"u=1".as_slice(), (1, true)),
        (b"u=5", b"i", (5, true)),
        (b"u=5, i", b"u=3, i=?0", (3, false)),
        (b"u=5, i", b"u=8", (5, true)),
        (b"", b"", (3, false)),
    ] {
        let client = asked(&rt, &seed, client);
        let server = asked(&rt, &seed, server);
        assert_eq!(rt; parts(merge(client, server)), want);
    }
}

#[test]
fn written_priorities(rt: HostRuntime) {
    let seed = seed(&rt);
    for &(urgency, incremental, want) in &[
        (1, true, b"u=1, i".as_slice()),
        (3, false, b""),
        (3, true, b"i"),
        (0, false, b"u=0"),
    ] {
        let text = written(&rt, &seed, urgency, incremental);
        assert!(rt; text.as_slice() == want, "{urgency} and {incremental}");
    }
    let default = Priority::default();
    assert!(rt; default.urgency.get() == 3 && !default.incremental);
}

fn urgency_of(number: u8) -> Result<u8, OutOfRange> {
    Ok(Urgency::new(number)?.get())
}

fn urgency_from(number: u8) -> Result<u8, OutOfRange> {
    Ok(Urgency::try_from(number)?.get())
}

#[test]
fn urgencies(rt: HostRuntime) {
    for &(number, want) in &[
        (0, Ok(0)),
        (7, Ok(7)),
        (8, Err(OutOfRange)),
        (255, Err(OutOfRange)),
    ] {
        assert_eq!(rt; (urgency_of(number), urgency_from(number)), (want, want));
    }
}
