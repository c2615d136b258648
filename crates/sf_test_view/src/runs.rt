//! Runs of the bytes of a class: of each length, and with each byte of the class at each place.
use sf_parse::parse_text;
use sf_value::{Dialect, Kind};
use sf_view::{Node, View};
use std::alloc::Global;
use std::hash::RandomState;
use std::test::Fail;

/// What is before a run, the bytes of its class, what is after it, and by how much its length
/// grows.
type Row = (Kind, &'static [u8], &'static [u8], &'static [u8], usize);

static ROWS: [Row; 5] = [
    // The bytes of a key after its first (RFC 9651 section 3.1.2).
    (
        Kind::Dict,
        b"k",
        b"abcdefghijklmnopqrstuvwxyz0123456789_-.*",
        b"=1",
        1,
    ),
    // The bytes of a Token after its first (section 3.3.4).
    (
        Kind::Item,
        b"t",
        b"!#$%&'*+-.^_`|~:/0123456789abcdefghijklmnopqrstuvwxyzABCDEFGHIJKLMNOPQRSTUVWXYZ",
        b"",
        1,
    ),
    // The bytes of a String that are written without a backslash (section 3.3.3).
    (
        Kind::Item,
        b"\"",
        b" !#$%&'()*+,-./0123456789:;<=>?@ABCDEFGHIJKLMNOPQRSTUVWXYZ[]^_`\
abcdefghijklmnopqrstuvwxyz{|}~",
        b"\"",
        1,
    ),
    // The characters of base64 (RFC 4648 section 4), in whole groups.
    (
        Kind::Item,
        b":",
        b"ABCDEFGHIJKLMNOPQRSTUVWXYZabcdefghijklmnopqrstuvwxyz0123456789+/",
        b":",
        4,
    ),
    // The bytes of a Display String that are written as themselves (section 4.1.11).
    (
        Kind::Item,
        b"%\"",
        b" !#$&'()*+,-./0123456789:;<=>?@ABCDEFGHIJKLMNOPQRSTUVWXYZ[\\]^_`\
abcdefghijklmnopqrstuvwxyz{|}~",
        b"\"",
        1,
    ),
];

/// What follows: nothing, and more bytes than are tested at a time, which are 16 or 32.
static TAILS: [&[u8]; 3] = [
    b"",
    b";param=1234567890123",
    b";param=1234567890123;other=1234567890123",
];

/// The text with a run of so many bytes of the class, from this byte of the class on.
fn text_of(
    alloc: Global,
    row: Row,
    first: usize,
    count: usize,
    tail: &[u8],
) -> Result<Vec<u8>, Fail> {
    let (_, before, class, after, _) = row;
    let mut text = Vec::new(alloc);
    text.extend_from_slice(before)?;
    for step in 0..count {
        let place = first.wrapping_add(step) % class.len().max(1);
        if let Some(byte) = class.get(place) {
            text.push(*byte)?;
        }
    }
    text.extend_from_slice(after)?;
    text.extend_from_slice(tail)?;
    Ok(text)
}

/// Whether the text has a view and a value.
fn is_taken(alloc: Global, seed: &RandomState, kind: Kind, text: &[u8]) -> bool {
    let mut buffer = [Node::NONE; 4];
    View::scan(Dialect::Rfc9651, kind, text, &mut buffer).is_ok()
        && parse_text(alloc, seed, kind, text).is_ok()
}

#[test]
fn runs_of_each_length_are_taken(rt: HostRuntime) -> Result<(), Fail> {
    let seed = RandomState::new(&rt)?;
    for row in &ROWS {
        for groups in 0..200usize {
            let count = groups.wrapping_mul(row.4);
            for tail in &TAILS {
                let text = text_of(rt.alloc(), *row, count, count, tail)?;
                assert!(&rt; is_taken(rt.alloc(), &seed, row.0, text.as_slice()));
            }
        }
    }
    Ok(())
}

#[test]
fn each_byte_is_taken_at_each_place(rt: HostRuntime) -> Result<(), Fail> {
    let seed = RandomState::new(&rt)?;
    for row in &ROWS {
        for first in 0..row.2.len() {
            for tail in &TAILS {
                for count in [36, 160usize] {
                    let text = text_of(rt.alloc(), *row, first, count, tail)?;
                    assert!(&rt; is_taken(rt.alloc(), &seed, row.0, text.as_slice()));
                }
            }
        }
    }
    Ok(())
}
