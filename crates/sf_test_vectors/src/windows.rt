//! Parts that reach over the border of what a parser reads of a chunk at a time, 8 KiB, and white
//! space of each length around what is tested at a time: all is read as it is byte by byte.
use crate::whole_members::is_read_the_same;
use sf_parse::{Refusal, parse_text};
use sf_value::{Dialect, Kind};
use std::alloc::Global;
use std::hash::RandomState;
use std::test::Fail;

/// Texts of more bytes than are read at a time: what comes first, what is repeated, and the end.
static LONG: [(Kind, &[u8], &[u8], &[u8]); 14] = [
    (Kind::List, b"", b"abc, ", b"x"),
    (Kind::List, b"", b"a;b=1;c , ", b"x;y"),
    (Kind::List, b"", b"\"x\\\"y\",\t", b"\"\""),
    (Kind::List, b"", b"(1 2;q);r, ", b"()"),
    (Kind::List, b"", b":aGk=:, ", b"%\"%c3%bc\""),
    (Kind::List, b"(", b"1.5 ", b"x)"),
    (Kind::List, b"(", b"x;a=1 ", b"y;b);c"),
    (Kind::List, b"(a", b";k=:aGk=:", b" b)"),
    (Kind::Dict, b"", b"k=1, ", b"k=2"),
    (Kind::Dict, b"", b"k, l=(1 2), ", b"m;n"),
    (Kind::Dict, b"a", b"; p=1", b", b"),
    (Kind::Item, b"a", b";p", b";q=?0"),
    (Kind::Item, b"\"", b"\\\\xyz", b"\""),
    (Kind::Item, b"%\"", b"x%c3%bc", b"\""),
];

/// What comes in place of the end: most of these are mistakes.
static BAD_ENDS: [&[u8]; 6] = [b"=", b",", b";", b"\x80", b"(", b"\\"];

/// The first part, the second as often as it takes to have this many bytes, and the end.
fn repeated(
    alloc: Global,
    first: &[u8],
    unit: &[u8],
    least: usize,
    end: &[u8],
) -> Result<Vec<u8>, Fail> {
    let mut text = Vec::new(alloc);
    text.extend_from_slice(first)?;
    for _ in 0..least {
        if text.len() >= least {
            break;
        }
        text.extend_from_slice(unit)?;
    }
    text.extend_from_slice(end)?;
    Ok(text)
}

#[test]
fn parts_over_the_border(rt: HostRuntime) -> Result<(), Fail> {
    let seed = RandomState::new(&rt)?;
    for (kind, first, unit, end) in &LONG {
        for least in [8_150, 8_192, 16_384] {
            let text = repeated(rt.alloc(), first, unit, least, end)?;
            let text = text.as_slice();
            assert!(&rt;
                parse_text(rt.alloc(), &seed, *kind, text).is_ok(),
                "{unit:?} {least}"
            );
            assert!(&rt;
                is_read_the_same(rt.alloc(), &seed, Dialect::Rfc9651, *kind, text),
                "{unit:?} {least}"
            );
        }
    }
    Ok(())
}

#[test]
fn mistakes_after_the_border(rt: HostRuntime) -> Result<(), Fail> {
    let seed = RandomState::new(&rt)?;
    for (kind, first, unit, _) in &LONG {
        for end in &BAD_ENDS {
            let text = repeated(rt.alloc(), first, unit, 8_192, end)?;
            let text = text.as_slice();
            assert!(&rt;
                is_read_the_same(rt.alloc(), &seed, Dialect::Rfc9651, *kind, text),
                "{unit:?} {end:?}"
            );
        }
    }
    Ok(())
}

// 2,731 times `ab,` are 8,193 bytes.
#[test]
fn place_after_the_border(rt: HostRuntime) -> Result<(), Fail> {
    let seed = RandomState::new(&rt)?;
    let text = repeated(rt.alloc(), b"", b"ab,", 8_192, b"=")?;
    let Err(Refusal::Syntax { place, found, .. }) = parse_text(
        rt.alloc(),
        &seed,
        Kind::List,
        text.as_slice(),
    ) else {
        panic!(&rt; "accepted");
    };
    assert_eq!(&rt; place, 8_193);
    assert_eq!(&rt; found, Some(b'='));
    Ok(())
}

/// Where white space may be, and what comes before and after it.
static SPACED: [(Kind, &[u8], &[u8]); 7] = [
    (Kind::List, b"", b"a"),
    (Kind::List, b"a", b", b"),
    (Kind::List, b"a,", b"b"),
    (Kind::List, b"(a", b"b)"),
    (Kind::List, b"(", b")"),
    (Kind::Dict, b"a;", b"b=1"),
    (Kind::Item, b"a", b""),
];

/// The byte of the white space, and what ends it.
const WHITE: [(&[u8], &[u8]); 4] = [(b" ", b""), (b"\t", b""), (b" ", b"\t"), (b" ", b"=")];

#[test]
fn white_space_of_each_length(rt: HostRuntime) -> Result<(), Fail> {
    let seed = RandomState::new(&rt)?;
    for (kind, before, after) in &SPACED {
        for length in 0..100 {
            for (space, end) in WHITE {
                let text = spaced(rt.alloc(), before, space, length, end, after)?;
                let text = text.as_slice();
                assert!(&rt;
                    is_read_the_same(rt.alloc(), &seed, Dialect::Rfc9651, *kind, text),
                    "{before:?} {length} {end:?}"
                );
            }
        }
    }
    Ok(())
}

/// White space of this many bytes and an end, between two parts.
fn spaced(
    alloc: Global,
    before: &[u8],
    space: &[u8],
    length: usize,
    end: &[u8],
    after: &[u8],
) -> Result<Vec<u8>, Fail> {
    let mut text = Vec::new(alloc);
    text.extend_from_slice(before)?;
    for _ in 0..length {
        text.extend_from_slice(space)?;
    }
    text.extend_from_slice(end)?;
    text.extend_from_slice(after)?;
    Ok(text)
}
