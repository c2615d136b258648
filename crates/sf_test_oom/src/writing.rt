// Fields that are written.
use crate::expecting::{LISTED, MEMBERS, SINGLE, seen_if};
use sf_parse::{Refusal, parse_text};
use sf_test_alloc::{Seen, refusals, seen_without_memory};
use sf_value::{Field, Kind, OutOfMemory, Writing};
use sf_write::{display, to_text, write_field};
use std::alloc::{AllocError, Global};
use std::hash::RandomState;
use std::io::Write;
use std::test::Fail;

fn text_of(alloc: Global, field: &Field, want: &[u8]) -> Seen {
    match to_text(alloc, field) {
        Ok(text) => seen_if(text.as_slice() == want),
        Err(OutOfMemory) => Seen::Refused,
    }
}

fn text_refusals(
    alloc: Global,
    seed: &RandomState,
    kind: Kind,
    text: &[u8],
) -> Result<Option<usize>, Refusal> {
    let field = parse_text(alloc, seed, kind, text)?;
    Ok(refusals(alloc, || text_of(alloc, &field, text)))
}

#[test]
fn texts(rt: HostRuntime) -> Result<(), Fail> {
    let seed = RandomState::new(&rt)?;
    for (kind, text) in [
        (Kind::Item, SINGLE),
        (Kind::List, LISTED),
        (Kind::Dict, MEMBERS),
    ] {
        let found = text_refusals(rt.alloc(), &seed, kind, text)?;
        assert!(rt; found > Some(0), "{found:?}");
    }
    Ok(())
}

/// A List of Integers of about 900 bytes, which is its own canonical text.
fn long_text(alloc: Global) -> Result<Vec<u8>, AllocError> {
    let mut text = Vec::new(alloc);
    for _ in 0..300u32 {
        text.extend_from_slice(b"7, ")?;
    }
    text.push(b'8')?;
    Ok(text)
}

/// A text for which memory can't be had is refused, whatever its length.
#[test]
fn long_texts(rt: HostRuntime) -> Result<(), Fail> {
    let seed = RandomState::new(&rt)?;
    let text = long_text(rt.alloc())?;
    let found = text_refusals(rt.alloc(), &seed, Kind::List, text.as_slice())?;
    assert!(rt; found > Some(0), "{found:?}");
    Ok(())
}

/// Writes and displays into the buffer that is there.
fn written(field: &Field, room: &mut Vec<u8>, want: &[u8]) -> Seen {
    room.clear();
    let mut sink = Writing::new(&mut *room);
    let count = write_field(field, &mut sink);
    let written = count == Ok(want.len() as u64) && room.as_slice() == want;
    room.clear();
    let shown = write!(&mut *room, "{}", display(field)).is_ok() && room.as_slice() == want;
    seen_if(written && shown)
}

fn written_without_memory(
    alloc: Global,
    seed: &RandomState,
    kind: Kind,
    text: &[u8],
) -> Result<Option<Seen>, Fail> {
    let field = parse_text(alloc, seed, kind, text)?;
    let mut room = Vec::with_capacity(alloc, 1000)?;
    Ok(seen_without_memory(alloc, || written(&field, &mut room, text)))
}

#[test]
fn writing_takes_none(rt: HostRuntime) -> Result<(), Fail> {
    let seed = RandomState::new(&rt)?;
    for (kind, text) in [
        (Kind::Item, SINGLE),
        (Kind::List, LISTED),
        (Kind::Dict, MEMBERS),
    ] {
        let seen = written_without_memory(rt.alloc(), &seed, kind, text)?;
        assert_eq!(rt; seen, Some(Seen::Right));
    }
    Ok(())
}
