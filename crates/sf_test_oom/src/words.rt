// The error messages of refusals, alone and with their line, which do not allocate.
use crate::expecting::{expect_no_need, seen_if};
use sf_field::parse_lines;
use sf_parse::{Refusal, parse_text};
use sf_test_alloc::Seen;
use sf_value::{Blob, Kind};
use std::fmt::{Display, InlineText};
use std::hash::RandomState;
use std::test::Fail;

fn seen_words<D: Display + Drop>(value: D, want: &str) -> Seen {
    let words = InlineText::<300>::of(value);
    seen_if(words.as_str() == want)
}

/// Texts that are refused, by their kind, and what the refusal says.
const REFUSED: [(Kind, &[u8], &str); 16] = [
    (
        Kind::Item,
        b"1 2",
        "byte 0x32 '2' at place 2, expected a space or the end",
    ),
    (
        Kind::Item,
        b"",
        "the text ended at place 0, expected a letter, a digit, a quote, `%`, `*`, `-`, `:`, `?`, \
         `@` or a space",
    ),
    (
        Kind::Item,
        b"-",
        "the text ended at place 1, expected a digit",
    ),
    (
        Kind::Item,
        b"?2",
        "byte 0x32 '2' at place 1, expected `0` or `1`",
    ),
    (
        Kind::Item,
        b"1,",
        "byte 0x2c ',' at place 1, expected a digit, `.`, `;`, a space or the end",
    ),
    (
        Kind::Item,
        b"\"\xc3",
        "byte 0xc3 at place 1, expected a printable character",
    ),
    (
        Kind::Item,
        b"\"a\\",
        "the text ended at place 3, expected a quote or `\\`",
    ),
    (
        Kind::Item,
        b"a\r",
        "byte 0x0d at place 1, expected a token character, `;`, a space or the end",
    ),
    (
        Kind::Item,
        b"a;",
        "the text ended at place 2, expected a lower-case letter, `*` or a space",
    ),
    (
        Kind::Item,
        b":Y",
        "the text ended at place 2, expected a base64 character",
    ),
    (
        Kind::Item,
        b"%\"%",
        "the text ended at place 3, expected `0`, `1`, `2`, `3`, `4`, `5`, `6`, `7`, `c`, `d`, `e` \
         or `f`",
    ),
    (
        Kind::Item,
        b"%\"%2",
        "the text ended at place 4, expected a lower-case hexadecimal digit",
    ),
    (
        Kind::Item,
        b"1.5\"",
        "byte 0x22 '\"' at place 3, expected a digit, `;`, a space or the end",
    ),
    (
        Kind::List,
        b"(a",
        "the text ended at place 2, expected a token character, `)`, `;` or a space",
    ),
    (
        Kind::List,
        b"a b",
        "byte 0x62 'b' at place 2, expected `,`, a tab, a space or the end",
    ),
    (
        Kind::Dict,
        b"a!",
        "byte 0x21 '!' at place 1, expected a key character, `,`, `;`, `=`, a tab, a space or the \
         end",
    ),
];

#[test]
fn of_texts(rt: HostRuntime) -> Result<(), Fail> {
    let alloc = rt.alloc();
    let seed = RandomState::new(&rt)?;
    for (kind, text, want) in REFUSED {
        let refusal = parse_text(alloc, &seed, kind, text)
            .err()
            .ok_or("accepted")?;
        expect_no_need(&rt, || seen_words(refusal, want));
    }
    Ok(())
}

fn expecting(expected: u128, may_end: bool) -> Refusal {
    Refusal::Syntax {
        place: 7,
        found: None,
        expected,
        may_end,
    }
}

const DIGITS: u128 = 0x3ff << b'0';

const UPPER: u128 = 0x3ff_ffff << b'A';

const LOWER: u128 = 0x3ff_ffff << b'a';

#[test]
fn of_sets(rt: HostRuntime) -> Result<(), Fail> {
    for (expected, may_end, want) in [
        (0, false, "the text ended at place 7, expected nothing"),
        (0, true, "the text ended at place 7, expected the end"),
        (
            1 << b'\t',
            true,
            "the text ended at place 7, expected a tab or the end",
        ),
        (
            1 << b'`' | 1 << 0x7f,
            false,
            "the text ended at place 7, expected a backquote or 0x7f",
        ),
        (
            UPPER | 1,
            false,
            "the text ended at place 7, expected an upper-case letter or 0x00",
        ),
        (
            DIGITS | LOWER,
            true,
            "the text ended at place 7, expected a lower-case letter, a digit or the end",
        ),
        (
            DIGITS | 1 << b'-' | 1 << b' ',
            true,
            "the text ended at place 7, expected a digit, `-`, a space or the end",
        ),
    ] {
        let refusal = expecting(expected, may_end);
        expect_no_need(&rt, || seen_words(refusal, want));
    }
    Ok(())
}

#[test]
fn of_other_causes(rt: HostRuntime) -> Result<(), Fail> {
    for (refusal, want) in [
        (Refusal::OutOfMemory, "out of memory"),
        (Refusal::TooLong { max: 5 }, "more than 5 bytes"),
        (
            Refusal::ReadFault { place: 3 },
            "a read failed after 3 bytes",
        ),
    ] {
        expect_no_need(&rt, || seen_words(refusal, want));
        // It is in no line.
        expect_no_need(&rt, || seen_words(refusal.in_text(b"a, b"), want));
    }
    Ok(())
}

#[test]
fn in_a_text(rt: HostRuntime) -> Result<(), Fail> {
    let alloc = rt.alloc();
    let seed = RandomState::new(&rt)?;
    for (text, want) in [
        (
            b"1 2".as_slice(),
            "byte 0x32 '2' at place 2, expected a space or the end\nline 1, place 2:\n1 2\n  ^",
        ),
        (
            b"\"a\xc3\tb",
            "byte 0xc3 at place 2, expected a printable character\nline 1, place 2:\n\"a??b\n  ^",
        ),
        (
            b"-",
            "the text ended at place 1, expected a digit\nline 1, place 1:\n-\n ^",
        ),
    ] {
        let refusal = parse_text(alloc, &seed, Kind::Item, text)
            .err()
            .ok_or("accepted")?;
        expect_no_need(&rt, || seen_words(refusal.in_text(text), want));
    }
    Ok(())
}

/// Refused lines of one field, by their kind, and what the refusal says in them.
const LINES: [(Kind, [&[u8]; 2], &str); 3] = [
    (
        Kind::List,
        [b"a", b"b c"],
        "byte 0x63 'c' at place 5, expected `,`, a tab, a space or the end\n\
         line 2, place 2:\nb c\n  ^",
    ),
    // The comma between two lines counts as the end of the first.
    (
        Kind::Item,
        [b"1", b"2"],
        "byte 0x2c ',' at place 1, expected a digit, `.`, `;`, a space or the end\n\
         line 1, place 1:\n1\n ^",
    ),
    (
        Kind::List,
        [b"a", b""],
        "the text ended at place 3, expected a letter, a digit, a quote, `%`, `(`, `*`, `-`, `:`, \
         `?`, `@`, a tab or a space\nline 2, place 0:\n\n^",
    ),
];

#[test]
fn in_lines(rt: HostRuntime) -> Result<(), Fail> {
    let alloc = rt.alloc();
    let seed = RandomState::new(&rt)?;
    for (kind, [first, second], want) in LINES {
        let lines = [Blob::new(alloc, first)?, Blob::new(alloc, second)?];
        let refusal = parse_lines(alloc, &seed, kind, &lines)
            .err()
            .ok_or("accepted")?;
        expect_no_need(&rt, || seen_words(refusal.in_lines(&lines), want));
    }
    Ok(())
}

fn spot_in(lines: &[Blob], place: u64) -> Option<(usize, usize)> {
    let refusal = Refusal::Syntax {
        place,
        found: None,
        expected: 0,
        may_end: true,
    };
    let spot = refusal.in_lines(lines).spot?;
    Some((spot.line, spot.place))
}

/// The joined text is `ab, , c`.
#[test]
fn places_in_lines(rt: HostRuntime) -> Result<(), Fail> {
    let alloc = rt.alloc();
    let lines = [
        Blob::new(alloc, b"ab")?,
        Blob::new(alloc, b"")?,
        Blob::new(alloc, b"c")?,
    ];
    let wanted = [
        (1, 0),
        (1, 1),
        (1, 2),
        (1, 2),
        (2, 0),
        (2, 0),
        (3, 0),
        (3, 1),
        (3, 1),
    ];
    for (place, want) in wanted.iter().enumerate() {
        assert_eq!(&rt; spot_in(&lines, place as u64), Some(*want));
    }
    assert_eq!(&rt; spot_in(&lines, u64::MAX), Some((3, 1)));
    assert_eq!(&rt; spot_in(&[], 0), None);
    Ok(())
}
