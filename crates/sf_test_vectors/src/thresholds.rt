//! Strings and Byte Sequences on both sides of the lengths up to which they are found at once, with
//! their canonical texts.
use sf_parse::parse_text;
use sf_value::Kind;
use sf_write::to_text;
use std::alloc::{AllocError, Global};
use std::hash::RandomState;
use std::process::Abort;
use std::test::Fail;

// What is before a bare item and after it in a canonical text.
static FRAMES: [(Kind, &[u8], &[u8]); 7] = [
    (Kind::Item, b"", b""),
    (Kind::Item, b"a;p=", b";q"),
    (Kind::List, b"", b", b"),
    (Kind::List, b"a, (", b" b)"),
    (Kind::List, b"(a;p=", b";q=1 b)"),
    (Kind::Dict, b"k=", b", z"),
    (Kind::Dict, b"k;p=", b";q, z"),
];

/// Appends a byte so many times.
fn append(text: &mut Vec<u8>, byte: u8, times: usize) -> Result<(), AllocError> {
    for _ in 0..times {
        text.push(byte)?;
    }
    Ok(())
}

/// A bare item in a frame.
fn framed(alloc: Global, front: &[u8], bare: &[u8], back: &[u8]) -> Result<Vec<u8>, AllocError> {
    let mut text = Vec::from_slice(alloc, front)?;
    text.extend_from_slice(bare)?;
    text.extend_from_slice(back)?;
    Ok(text)
}

/// Expects a bare item to have this canonical text, in each frame.
fn expect_canonical(
    rt: &(impl Abort + AllocGlobal),
    seed: &RandomState,
    bare: &[u8],
    canonical: &[u8],
) -> Result<(), Fail> {
    for (kind, front, back) in &FRAMES {
        let text = framed(rt.alloc(), front, bare, back)?;
        let wanted = framed(rt.alloc(), front, canonical, back)?;
        let field = parse_text(rt.alloc(), seed, *kind, text.as_slice())?;
        let written = to_text(rt.alloc(), &field)?;
        assert!(rt; written.as_slice() == wanted.as_slice(), "{text:?}");
    }
    Ok(())
}

// How many bytes are before the first escape of a String, and between it and the last one. Strings
// with 32 before, and 32 from the one to the other, are found at once.
static NEAR: [usize; 8] = [0, 1, 29, 30, 31, 32, 33, 34];

#[test]
fn strings_with_escapes(rt: HostRuntime) -> Result<(), Fail> {
    let seed = RandomState::new(&rt)?;
    for before in &NEAR {
        for between in &NEAR {
            let mut string = Vec::from_slice(rt.alloc(), b"\"")?;
            append(&mut string, b'x', *before)?;
            string.extend_from_slice(b"\\\"")?;
            append(&mut string, b'y', *between)?;
            string.extend_from_slice(b"\\\\\"")?;
            expect_canonical(&rt, &seed, string.as_slice(), string.as_slice())?;
        }
    }
    Ok(())
}

// What is after a part is looked for in its first 1,024 bytes.
static FAR: [usize; 8] = [1_020, 1_021, 1_022, 1_023, 1_024, 1_025, 1_026, 1_027];

#[test]
fn long_strings(rt: HostRuntime) -> Result<(), Fail> {
    let seed = RandomState::new(&rt)?;
    for length in &FAR {
        let mut string = Vec::from_slice(rt.alloc(), b"\"")?;
        append(&mut string, b'x', *length)?;
        string.push(b'"')?;
        expect_canonical(&rt, &seed, string.as_slice(), string.as_slice())?;
    }
    Ok(())
}

// The last group of a Byte Sequence without its padding, and with it.
static LAST_GROUPS: [(&[u8], &[u8]); 3] = [(b"", b""), (b"Zg", b"Zg=="), (b"Zm8", b"Zm8=")];

// How many groups are before it. Byte Sequences of fewer than 96 characters are found at once.
static GROUPS: [usize; 5] = [22, 23, 24, 25, 26];

/// A Byte Sequence of so many groups and a last one.
fn byte_sequence(alloc: Global, groups: usize, last: &[u8]) -> Result<Vec<u8>, AllocError> {
    let mut text = Vec::from_slice(alloc, b":")?;
    for _ in 0..groups {
        text.extend_from_slice(b"Zm9v")?;
    }
    text.extend_from_slice(last)?;
    text.push(b':')?;
    Ok(text)
}

#[test]
fn byte_sequences(rt: HostRuntime) -> Result<(), Fail> {
    let seed = RandomState::new(&rt)?;
    for groups in &GROUPS {
        for (last, padded) in &LAST_GROUPS {
            let short = byte_sequence(rt.alloc(), *groups, last)?;
            let whole = byte_sequence(rt.alloc(), *groups, padded)?;
            expect_canonical(&rt, &seed, short.as_slice(), whole.as_slice())?;
            expect_canonical(&rt, &seed, whole.as_slice(), whole.as_slice())?;
        }
    }
    Ok(())
}
