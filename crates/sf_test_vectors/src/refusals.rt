//! Texts that spell no value, with the exact refusal.
use crate::acceptances::has_new_types;
use sf_parse::{Parser, Refusal, parse_text, parse_text_in, refuse_text};
use sf_value::{Dialect, Kind};
use std::alloc::Global;
use std::hash::RandomState;
use std::process::Abort;
use std::test::Fail;

// The kind, the text, the place, the byte found there, and the bytes that could have followed: two
// hexadecimal digits each, a run as its ends, and `end` if the prefix is a text.
pub(crate) type Row = (Kind, &'static [u8], u64, Option<u8>, &'static str);

const ITEM: &str = "20 22 25 2a 2d 30-3a 3f-5a 61-7a";

const BARE: &str = "22 25 2a 2d 30-3a 3f-5a 61-7a";

const MEMBER: &str = "09 20 22 25 28 2a 2d 30-3a 3f-5a 61-7a";

const OLD_ITEM: &str = "20 22 2a 2d 30-3a 3f 41-5a 61-7a";

fn hex(text: &str, at: usize) -> Option<u8> {
    let digits = text.get(at..at.checked_add(2)?)?;
    u8::from_str_radix(digits, 16).ok()
}

/// Whether a part of the set, as `30-39` or `2d`, has the byte.
fn part_has(part: &str, byte: u8) -> bool {
    match (hex(part, 0), part.len()) {
        (Some(low), 2) => byte == low,
        (Some(low), 5) => match hex(part, 3) {
            Some(high) => low <= byte && byte <= high,
            None => false,
        },
        _ => false,
    }
}

fn set_has(set: &str, byte: u8) -> bool {
    for part in set.split(' ') {
        if part_has(part, byte) {
            return true;
        }
    }
    false
}

fn set_ends(set: &str) -> bool {
    for part in set.split(' ') {
        if part == "end" {
            return true;
        }
    }
    false
}

/// Whether it is the set of what a bare item begins with, perhaps with more: it has the first bytes
/// of Dates and Display Strings, and not all that a string may go on with.
fn begins_item(set: &str) -> bool {
    set_has(set, b'@') && !set_has(set, b'!')
}

/// Whether the byte is in the set, in this dialect: the old one has no Dates and Display Strings.
fn set_has_in(dialect: Dialect, set: &str, byte: u8) -> bool {
    match dialect {
        Dialect::Rfc9651 => set_has(set, byte),
        Dialect::Rfc8941 => {
            let new = begins_item(set) && (byte == b'@' || byte == b'%');
            set_has(set, byte) && !new
        }
    }
}

fn check_refusal(
    rt: &impl Abort,
    dialect: Dialect,
    refusal: Refusal,
    row: Row,
) -> Result<(), Fail> {
    let (_, _, at, byte, set) = row;
    match refusal {
        Refusal::Syntax {
            place,
            found,
            expected,
            may_end,
        } => {
            assert_eq!(rt; place, at);
            assert_eq!(rt; found, byte);
            assert_eq!(rt; may_end, set_ends(set));
            for next in 0..128u8 {
                assert_eq!(rt; expected >> next & 1 == 1, set_has_in(dialect, set, next));
            }
            Ok(())
        }
        _ => Err(Fail::from("not Syntax")),
    }
}

fn refusal_in_chunks(
    alloc: Global,
    seed: &RandomState,
    dialect: Dialect,
    kind: Kind,
    prefix: &[u8],
    suffix: &[u8],
) -> Result<Refusal, Fail> {
    let mut parser = Parser::new_in(alloc, seed, dialect, kind, u64::MAX);
    if let Err(refusal) = parser.feed(prefix) {
        if parser.feed(&[]) != Err(refusal) {
            return Err(Fail::from("another refusal"));
        }
        return Ok(refusal);
    }
    if let Err(refusal) = parser.feed(suffix) {
        if parser.finish().err() != Some(refusal) {
            return Err(Fail::from("another refusal"));
        }
        return Ok(refusal);
    }
    match parser.finish() {
        Ok(_) => Err(Fail::from("accepted")),
        Err(refusal) => Ok(refusal),
    }
}

fn refusal_bytewise(
    alloc: Global,
    seed: &RandomState,
    dialect: Dialect,
    kind: Kind,
    text: &[u8],
) -> Result<Refusal, Fail> {
    let mut parser = Parser::new_in(alloc, seed, dialect, kind, u64::MAX);
    for byte in text {
        if let Err(refusal) = parser.feed(&[*byte]) {
            return Ok(refusal);
        }
    }
    match parser.finish() {
        Ok(_) => Err(Fail::from("accepted")),
        Err(refusal) => Ok(refusal),
    }
}

/// The row whole, also without a value, in every cutting into two chunks and a byte at a time.
fn check_row(
    rt: &impl Abort,
    alloc: Global,
    seed: &RandomState,
    dialect: Dialect,
    row: Row,
) -> Result<(), Fail> {
    let (kind, text, _, _, _) = row;
    let refusal = refusal_bytewise(alloc, seed, dialect, kind, text)?;
    check_refusal(rt, dialect, refusal, row)?;
    match parse_text_in(alloc, seed, dialect, kind, text) {
        Ok(_) => return Err(Fail::from("accepted")),
        Err(refusal) => check_refusal(rt, dialect, refusal, row)?,
    }
    match refuse_text(dialect, kind, text) {
        Some(refusal) => check_refusal(rt, dialect, refusal, row)?,
        None => return Err(Fail::from("accepted")),
    }
    for cut in 0..=text.len() {
        let (prefix, suffix) = text.split_at(cut);
        let refusal = refusal_in_chunks(alloc, seed, dialect, kind, prefix, suffix)?;
        check_refusal(rt, dialect, refusal, row)?;
    }
    Ok(())
}

/// The rows; in the dialect of RFC 8941 those without a byte that only the new types begin with.
pub(crate) fn check_rows(
    rt: &impl Abort,
    alloc: Global,
    seed: &RandomState,
    rows: &[Row],
) -> Result<(), Fail> {
    for row in rows {
        check_row(rt, alloc, seed, Dialect::Rfc9651, *row)?;
        if !has_new_types(row.1) {
            check_row(rt, alloc, seed, Dialect::Rfc8941, *row)?;
        }
    }
    Ok(())
}

pub(crate) static ITEMS: [Row; 34] = [
    (Kind::Item, b"a \t", 2, Some(0x09), "20 end"),
    (Kind::Item, b"", 0, None, ITEM),
    (Kind::Item, b"   ", 3, None, ITEM),
    (Kind::Item, b"\t", 0, Some(0x09), ITEM),
    (Kind::Item, b"9999999999999999", 15, Some(0x39), "20 3b end"),
    (
        Kind::Item,
        b"1234567890123.1",
        13,
        Some(0x2e),
        "20 30-39 3b end",
    ),
    (
        Kind::Item,
        b"123456789012.1234",
        16,
        Some(0x34),
        "20 3b end",
    ),
    (Kind::Item, b"1.2345", 5, Some(0x35), "20 3b end"),
    (Kind::Item, b"1.", 2, None, "30-39"),
    (Kind::Item, b"-", 1, None, "30-39"),
    (Kind::Item, b":YQ===:", 5, Some(0x3d), "3a"),
    (Kind::Item, b":Y:", 2, Some(0x3a), "2b 2f-39 41-5a 61-7a"),
    (Kind::Item, b":=:", 1, Some(0x3d), "2b 2f-3a 41-5a 61-7a"),
    (
        Kind::Item,
        b":iZ$",
        3,
        Some(0x24),
        "2b 2f-3a 3d 41-5a 61-7a",
    ),
    (Kind::Item, b":iZ===:", 5, Some(0x3d), "3a"),
    (Kind::Item, b"%\"%C3\"", 3, Some(0x43), "30-37 63-66"),
    (Kind::Item, b"%\"%C3%BC\"", 3, Some(0x43), "30-37 63-66"),
    (Kind::Item, b"%\"%c3%28\"", 6, Some(0x32), "38-39 61-62"),
    (Kind::Item, b"%\"%ed%a0%80\"", 6, Some(0x61), "38-39"),
    (Kind::Item, b"%\"%c3a\"", 5, Some(0x61), "25"),
    (Kind::Item, b"%\"%c1\"", 4, Some(0x31), "32-39 61-66"),
    (Kind::Item, b"%\"%e0%9f%80\"", 6, Some(0x39), "61-62"),
    (Kind::Item, b"%\"%f4%90%80%80\"", 6, Some(0x39), "38"),
    (Kind::Item, b"%\"%f5\"", 4, Some(0x35), "30-34"),
    (Kind::Item, b"@1.5", 2, Some(0x2e), "20 30-39 3b end"),
    (Kind::Item, b"?2", 1, Some(0x32), "30-31"),
    (Kind::Item, b"1, 2", 1, Some(0x2c), "20 2e 30-39 3b end"),
    (Kind::Item, b"1 2", 2, Some(0x32), "20 end"),
    (Kind::Item, b"\"a\\b\"", 3, Some(0x62), "22 5c"),
    (Kind::Item, b"\"\xc3\xa9\"", 1, Some(0xc3), "20-7e"),
    (Kind::Item, b"\"a\x7f\"", 2, Some(0x7f), "20-7e"),
    (Kind::Item, b"\"a\" ;b", 4, Some(0x3b), "20 end"),
    (Kind::Item, b"a;B", 2, Some(0x42), "20 2a 61-7a"),
    (Kind::Item, b"a;b=$;b=1", 4, Some(0x24), BARE),
];

/// Items, with or without parameters, after which a space and a mistake come.
static AFTER_ITEMS: [Row; 19] = [
    (Kind::Item, b"a b", 2, Some(0x62), "20 end"),
    (Kind::Item, b"\"x\"  ;a", 5, Some(0x3b), "20 end"),
    (Kind::Item, b"?1 ,", 3, Some(0x2c), "20 end"),
    (Kind::Item, b"1.5   (", 6, Some(0x28), "20 end"),
    (
        Kind::Item,
        b"a_token_of_more_than_16_bytes x",
        30,
        Some(0x78),
        "20 end",
    ),
    (Kind::Item, b"a;b c", 4, Some(0x63), "20 end"),
    (Kind::Item, b"-7;b=\"s\" \"", 9, Some(0x22), "20 end"),
    (Kind::Item, b"1.5;b=?0   x", 11, Some(0x78), "20 end"),
    (Kind::Item, b"a;b=1;c=2 x", 10, Some(0x78), "20 end"),
    (Kind::Item, b"a;b=1;c=2  \t", 11, Some(0x09), "20 end"),
    (Kind::Item, b"a; b; c ;d", 8, Some(0x3b), "20 end"),
    (Kind::Item, b"a;b=:YQ==:;c=@1 ,", 16, Some(0x2c), "20 end"),
    (Kind::Item, b"a;b=1;c= x", 8, Some(0x20), BARE),
    (
        Kind::Item,
        b"a;b;c;d;e;f;g;h;i;j x",
        20,
        Some(0x78),
        "20 end",
    ),
    (
        Kind::Item,
        b"a;b=1;c=2;d=3;e=4;f=5;g=6;h=7;i=8;j=9   ;k",
        40,
        Some(0x3b),
        "20 end",
    ),
    (Kind::Item, b"a;b;c;d;e;f;g;h;i;j= x", 20, Some(0x20), BARE),
    (
        Kind::Item,
        b"a;a_key_of_more_than_16_bytes=1;another_key_of_more_than_16_bytes x",
        66,
        Some(0x78),
        "20 end",
    ),
    (Kind::Item, b"a;b=1;b=2 b", 10, Some(0x62), "20 end"),
    (
        Kind::Item,
        b"a;b;c;d;e;f;g;h;i;j;b=1 \x80",
        24,
        Some(0x80),
        "20 end",
    ),
];

pub(crate) static LISTS_AND_DICTIONARIES: [Row; 19] = [
    (Kind::Item, b"a;b=", 4, None, BARE),
    (
        Kind::List,
        b"\t",
        0,
        Some(0x09),
        "20 22 25 28 2a 2d 30-3a 3f-5a 61-7a end",
    ),
    (Kind::Dict, b"\t", 0, Some(0x09), "20 2a 61-7a end"),
    (Kind::List, b"a,", 2, None, MEMBER),
    (Kind::List, b"a,,b", 2, Some(0x2c), MEMBER),
    (Kind::List, b"a, ", 3, None, MEMBER),
    (Kind::List, b"(\"x\"b)", 4, Some(0x62), "20 29 3b"),
    (
        Kind::List,
        b"(a",
        2,
        None,
        "20-21 23-27 29-2b 2d-3b 41-5a 5e-7a 7c 7e",
    ),
    (Kind::List, b"(a  )b", 5, Some(0x62), "09 20 2c 3b end"),
    (
        Kind::List,
        b"((a))",
        1,
        Some(0x28),
        "20 22 25 29-2a 2d 30-3a 3f-5a 61-7a",
    ),
    (
        Kind::List,
        b"(a\tb)",
        2,
        Some(0x09),
        "20-21 23-27 29-2b 2d-3b 41-5a 5e-7a 7c 7e",
    ),
    (Kind::List, b"a;\tb", 2, Some(0x09), "20 2a 61-7a"),
    (Kind::Dict, b"u=1, ", 5, None, "09 20 2a 61-7a"),
    (Kind::Dict, b"a=1,A=2", 4, Some(0x41), "09 20 2a 61-7a"),
    (Kind::Dict, b"a =1", 2, Some(0x3d), "09 20 2c end"),
    (
        Kind::Dict,
        b"a=",
        2,
        None,
        "22 25 28 2a 2d 30-3a 3f-5a 61-7a",
    ),
    (Kind::Item, b"\"\\n\"", 2, Some(0x6e), "22 5c"),
    (Kind::Dict, b"max-age=60,", 11, None, "09 20 2a 61-7a"),
    (
        Kind::Item,
        b"a,bcd",
        1,
        Some(0x2c),
        "20-21 23-27 2a-2b 2d-3b 41-5a 5e-7a 7c 7e end",
    ),
];

pub(crate) static OLD_DIALECT: [Row; 3] = [
    (Kind::Item, b"@1", 0, Some(0x40), OLD_ITEM),
    (Kind::Item, b"%\"a\"", 0, Some(0x25), OLD_ITEM),
    (
        Kind::Item,
        b"a;b=@1;b=1",
        4,
        Some(0x40),
        "22 2a 2d 30-3a 3f 41-5a 61-7a",
    ),
];

#[test]
fn items(rt: HostRuntime) -> Result<(), Fail> {
    let seed = RandomState::new(&rt)?;
    check_rows(&rt, rt.alloc(), &seed, &ITEMS)
}

#[test]
fn after_items(rt: HostRuntime) -> Result<(), Fail> {
    let seed = RandomState::new(&rt)?;
    check_rows(&rt, rt.alloc(), &seed, &AFTER_ITEMS)
}

#[test]
fn lists_and_dictionaries(rt: HostRuntime) -> Result<(), Fail> {
    let seed = RandomState::new(&rt)?;
    check_rows(&rt, rt.alloc(), &seed, &LISTS_AND_DICTIONARIES)
}

#[test]
fn old_dialect(rt: HostRuntime) -> Result<(), Fail> {
    let seed = RandomState::new(&rt)?;
    // These sets are those of the dialect of RFC 8941 itself.
    for row in &OLD_DIALECT {
        match parse_text_in(rt.alloc(), &seed, Dialect::Rfc8941, row.0, row.1) {
            Ok(_) => return Err(Fail::from("accepted")),
            Err(refusal) => check_refusal(&rt, Dialect::Rfc9651, refusal, *row)?,
        }
    }
    let whole = parse_text(rt.alloc(), &seed, Kind::Item, b"a,").err();
    let new = parse_text_in(rt.alloc(), &seed, Dialect::Rfc9651, Kind::Item, b"a,").err();
    assert_eq!(&rt; whole, new);
    Ok(())
}

/// What a parser with a limit of one byte returns for two, for none after them and at the end, and
/// its place.
fn past_the_limit(alloc: Global, seed: &RandomState) -> ([Option<Refusal>; 3], u64) {
    let mut parser = Parser::new(alloc, seed, Kind::Item, 1);
    let fed = parser.feed(b"ab").err();
    let place = parser.place();
    let again = parser.feed(b"").err();
    ([fed, again, parser.finish().err()], place)
}

#[test]
fn limits(rt: HostRuntime) -> Result<(), Fail> {
    let seed = RandomState::new(&rt)?;
    let refusal = Some(Refusal::TooLong { max: 1 });
    let (refusals, place) = past_the_limit(rt.alloc(), &seed);
    assert_eq!(&rt; refusals, [refusal, refusal, refusal]);
    assert_eq!(&rt; place, 1);
    Ok(())
}

/// The places after each of three chunks.
fn places(alloc: Global, seed: &RandomState, chunks: [&[u8]; 3]) -> Result<[u64; 3], Refusal> {
    let mut parser = Parser::new(alloc, seed, Kind::Item, u64::MAX);
    let mut places = [0; 3];
    for (place, chunk) in places.iter_mut().zip(chunks) {
        parser.feed(chunk)?;
        *place = parser.place();
    }
    Ok(places)
}

#[test]
fn place_after_chunks(rt: HostRuntime) -> Result<(), Fail> {
    let seed = RandomState::new(&rt)?;
    let chunks = [b":i".as_slice(), b"Z", b"==:"];
    assert_eq!(&rt; places(rt.alloc(), &seed, chunks), Ok([2, 3, 6]));
    Ok(())
}
