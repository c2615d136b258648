// Texts that are parsed whole, from a reader and in chunks.
use crate::expecting::{
    LISTED, MEMBERS, SINGLE, expect_no_need, expect_refusals, padded_number, seen_field, seen_if,
    seen_minus_seven, seen_syntax,
};
use sf_parse::{Parser, Refusal, parse_reader, parse_text, parse_text_in};
use sf_test_alloc::{Scarcity, Seen, refusals};
use sf_test_io::Paced;
use sf_value::{Dialect, Field, Kind};
use std::alloc::Global;
use std::hash::RandomState;
use std::test::Fail;

fn text_refusals(
    alloc: Global,
    seed: &RandomState,
    kind: Kind,
    text: &[u8],
) -> Result<Option<usize>, Refusal> {
    let want = parse_text(alloc, seed, kind, text)?;
    Ok(refusals(alloc, || {
        seen_field(parse_text(alloc, seed, kind, text), &want)
    }))
}

#[test]
fn texts(rt: HostRuntime) -> Result<(), Fail> {
    let seed = RandomState::new(&rt)?;
    for (kind, text) in [
        (Kind::Item, SINGLE),
        (Kind::List, LISTED),
        (Kind::Dict, MEMBERS),
    ] {
        let found = text_refusals(rt.alloc(), &seed, kind, text)?;
        assert!(rt; found > Some(0), "{found:?}");
    }
    Ok(())
}

fn dialect_refusals(
    alloc: Global,
    seed: &RandomState,
    dialect: Dialect,
    text: &[u8],
) -> Result<Option<usize>, Refusal> {
    let want = parse_text(alloc, seed, Kind::Dict, text)?;
    Ok(refusals(alloc, || {
        seen_field(parse_text_in(alloc, seed, dialect, Kind::Dict, text), &want)
    }))
}

#[test]
fn texts_in_a_dialect(rt: HostRuntime) -> Result<(), Fail> {
    let seed = RandomState::new(&rt)?;
    for (dialect, text) in [
        (Dialect::Rfc9651, MEMBERS),
        (
            Dialect::Rfc8941,
            b"a=(1 \"x y\" *t :YQ==:);y=tok, b".as_slice(),
        ),
    ] {
        let found = dialect_refusals(rt.alloc(), &seed, dialect, text)?;
        assert!(rt; found > Some(0), "{found:?}");
    }
    Ok(())
}

/// Refused for its last byte, at 31.
const REFUSED: &[u8] = b"a=(1 \"x y\" *t :YQ==:);y=tok, b=#";

/// A whole text is refused also if there is no memory, whatever is before the bad byte.
#[test]
fn refused_texts(rt: HostRuntime) -> Result<(), Fail> {
    let alloc = rt.alloc();
    let seed = RandomState::new(&rt)?;
    expect_no_need(&rt, || {
        seen_syntax(parse_text(alloc, &seed, Kind::Dict, REFUSED), 31, b'#')
    });
    Ok(())
}

/// Dictionaries that are refused for their last byte, which is at this place, after parts of the
/// same member, for some of which a value would need memory.
const REFUSED_AFTER_PARTS: [(&[u8], u64); 3] = [
    (
        b"a=(1 \"longer than 16 bytes\" tok);p=\"longer than 16 bytes\";q=#",
        60,
    ),
    (b"a=(1;p;q=#", 9),
    (b"a=(1 2;p=\"longer than 16 bytes\";q;r=#", 36),
];

#[test]
fn refused_after_parts(rt: HostRuntime) -> Result<(), Fail> {
    let alloc = rt.alloc();
    let seed = RandomState::new(&rt)?;
    for (text, place) in REFUSED_AFTER_PARTS {
        expect_no_need(&rt, || {
            seen_syntax(parse_text(alloc, &seed, Kind::Dict, text), place, b'#')
        });
    }
    Ok(())
}

/// Items that are refused for their last byte, which is at this place, after a parameter and a
/// space.
const REFUSED_ITEMS: [(&[u8], u64, u8); 5] = [
    (b"a;x=1 b", 6, b'b'),
    (b"-7; x=12 %", 9, b'%'),
    (b"?1;c; x *", 8, b'*'),
    (b"\"x\";x=:YQ==:  \t", 14, b'\t'),
    (b"a;b;c;d;e;f;g;h;i=2.5 (", 22, b'('),
];

#[test]
fn refused_items(rt: HostRuntime) -> Result<(), Fail> {
    let alloc = rt.alloc();
    let seed = RandomState::new(&rt)?;
    for (text, place, byte) in REFUSED_ITEMS {
        expect_no_need(&rt, || {
            seen_syntax(parse_text(alloc, &seed, Kind::Item, text), place, byte)
        });
    }
    Ok(())
}

/// Texts that are refused for this byte at this place, after a key or a bare item of more than 16
/// bytes, for which alone a value would need memory.
const REFUSED_AFTER_LONG: [(Kind, &[u8], u64, u8); 17] = [
    (Kind::Dict, b"a_key_of_more_than_16_bytes=#", 28, b'#'),
    (Kind::Item, b"1;a_key_of_more_than_16_bytes=#", 30, b'#'),
    (Kind::List, b"1;a_key_of_more_than_16_bytes=#", 30, b'#'),
    (Kind::List, b"a_token_of_more_than_16_bytes\"", 29, b'"'),
    (Kind::Item, b"a_token_of_more_than_16_bytes x", 30, b'x'),
    (
        Kind::List,
        b"(\"a string of more than 16 bytes\"#",
        33,
        b'#',
    ),
    (
        Kind::List,
        b":cHJldGVuZCB0aGlzIGlzIGJpbmFyeSBjb250ZW50Lg==:#",
        46,
        b'#',
    ),
    (
        Kind::Item,
        b"a;p=:cHJldGVuZCB0aGlzIGlzIGJpbmFyeSBjb250ZW50Lg#",
        47,
        b'#',
    ),
    (
        Kind::Dict,
        b"k=:cHJldGVuZCB0aGlzIGlzIGJpbmFyeSBjb250ZW50Lg=#",
        46,
        b'#',
    ),
    (
        Kind::List,
        b"(:cHJldGVuZCB0aGlzIGlzIGJpbmFyeSBjb250ZW50Lg:#",
        45,
        b'#',
    ),
    (Kind::List, b"\"a \\\"quoted\\\" text of more\"#", 27, b'#'),
    (
        Kind::Item,
        b"a;p=\"a \\\"quoted\\\" text of more\"#",
        31,
        b'#',
    ),
    (
        Kind::Dict,
        b"k=\"a \\\"quoted\\\" text of more\"#",
        29,
        b'#',
    ),
    (Kind::List, b"(\"a \\\"quoted\\\" text of more\"#", 28, b'#'),
    (Kind::List, b"\"a \\\"quoted\\\" text of more\x07", 26, 0x07),
    (Kind::Item, b"\"a \\\"quoted\\\" text of more\" x", 28, b'x'),
    (
        Kind::Item,
        b":cHJldGVuZCB0aGlzIGlzIGJpbmFyeSBjb250ZW50Lg==: x",
        47,
        b'x',
    ),
];

#[test]
fn refused_after_long(rt: HostRuntime) -> Result<(), Fail> {
    let alloc = rt.alloc();
    let seed = RandomState::new(&rt)?;
    for (kind, text, place, byte) in REFUSED_AFTER_LONG {
        expect_no_need(&rt, || {
            seen_syntax(parse_text(alloc, &seed, kind, text), place, byte)
        });
    }
    Ok(())
}

/// Texts that are refused for their last byte, at this place, after a key of more than 16 bytes: in an
/// Inner List, after other parameters, before an Inner List, or after parts that allocate too.
const REFUSED_AFTER_KEYS: [(Kind, &[u8], u64); 14] = [
    (Kind::List, b"(a;a_key_of_more_than_16_bytes=#", 31),
    (Kind::List, b"(a;b;a_key_of_more_than_16_bytes=#", 33),
    (Kind::List, b"(a;b=2;c;a_key_of_more_than_16_bytes=#", 37),
    (Kind::List, b"(a b;a_key_of_more_than_16_bytes=#", 33),
    (Kind::List, b"(a);a_key_of_more_than_16_bytes=#", 32),
    (Kind::List, b"(a);b;a_key_of_more_than_16_bytes=#", 34),
    (Kind::Dict, b"a_key_of_more_than_16_bytes=(#", 29),
    (Kind::Dict, b"a_key_of_more_than_16_bytes=(a #", 31),
    (Kind::Dict, b"a_key_of_more_than_16_bytes=(a;#", 31),
    (Kind::Dict, b"k=(a;a_key_of_more_than_16_bytes=#", 33),
    (Kind::Dict, b"k=a;b;a_key_of_more_than_16_bytes=#", 34),
    (
        Kind::Dict,
        b"a_key_of_more_than_16_bytes=(a;a_key_of_more_than_16_bytes=#",
        59,
    ),
    (
        Kind::List,
        b"(\"a string of more than 16 bytes\";a_key_of_more_than_16_bytes=#",
        62,
    ),
    (Kind::Item, b"1;b;a_key_of_more_than_16_bytes=#", 32),
];

/// The field of a text that is fed byte by byte, so that the levels of the parser read all of it.
fn parse_bytes(
    alloc: Global,
    seed: &RandomState,
    kind: Kind,
    text: &[u8],
) -> Result<Field, Refusal> {
    let mut parser = Parser::new(alloc, seed, kind, u64::MAX);
    for byte in text {
        parser.feed(&[*byte])?;
    }
    parser.finish()
}

/// The field of a text that is fed as one chunk.
fn parse_chunk(
    alloc: Global,
    seed: &RandomState,
    kind: Kind,
    text: &[u8],
) -> Result<Field, Refusal> {
    let mut parser = Parser::new(alloc, seed, kind, u64::MAX);
    parser.feed(text)?;
    parser.finish()
}

/// The levels return the first of a failed allocation and of a mistake after it.
#[test]
fn refused_after_keys(rt: HostRuntime) -> Result<(), Fail> {
    let alloc = rt.alloc();
    let seed = RandomState::new(&rt)?;
    for (kind, text, place) in REFUSED_AFTER_KEYS {
        expect_refusals(&rt, || {
            seen_syntax(parse_bytes(alloc, &seed, kind, text), place, b'#')
        });
    }
    Ok(())
}

/// A text that is read as a whole is refused also if there is no memory.
#[test]
fn refused_after_keys_of_a_text(rt: HostRuntime) -> Result<(), Fail> {
    let alloc = rt.alloc();
    let seed = RandomState::new(&rt)?;
    for (kind, text, place) in REFUSED_AFTER_KEYS {
        expect_no_need(&rt, || {
            seen_syntax(parse_text(alloc, &seed, kind, text), place, b'#')
        });
    }
    Ok(())
}

/// One chunk needs memory, as the levels do.
#[test]
fn refused_after_keys_of_a_chunk(rt: HostRuntime) -> Result<(), Fail> {
    let alloc = rt.alloc();
    let seed = RandomState::new(&rt)?;
    for (kind, text, place) in REFUSED_AFTER_KEYS {
        expect_refusals(&rt, || {
            seen_syntax(parse_chunk(alloc, &seed, kind, text), place, b'#')
        });
    }
    Ok(())
}

/// The Dictionary of a text that a reader gives a byte a call.
fn read(alloc: Global, seed: &RandomState, text: &[u8]) -> Result<Field, Refusal> {
    let mut source = Paced::new(text, 1, 0, 0);
    parse_reader(alloc, seed, Kind::Dict, u64::MAX, &mut source)
}

#[test]
fn readers(rt: HostRuntime) -> Result<(), Fail> {
    let alloc = rt.alloc();
    let seed = RandomState::new(&rt)?;
    let want = parse_text(alloc, &seed, Kind::Dict, MEMBERS)?;
    expect_refusals(&rt, || seen_field(read(alloc, &seed, MEMBERS), &want));
    expect_refusals(&rt, || seen_syntax(read(alloc, &seed, REFUSED), 31, b'#'));
    Ok(())
}

fn ends_for_memory(parser: Parser) -> bool {
    parser.finish().err() == Some(Refusal::OutOfMemory)
}

/// Whether each later call returns out of memory, too, after so many bytes were fed.
fn stays_refused(mut parser: Parser, handed: usize) -> bool {
    let place = parser.place();
    let first = parser.feed(b"");
    let second = parser.feed(b"1");
    let third = parser.feed(b"");
    let again = Err(Refusal::OutOfMemory);
    let refused = first == again && second == again && third == again;
    let ended = ends_for_memory(parser);
    refused && ended && place <= handed as u64
}

/// Feeds the text in chunks of so many bytes, at least one, up to the first chunk that is refused,
/// and returns with its refusal how many bytes were fed.
fn feed_all(parser: &mut Parser, text: &[u8], size: usize) -> Result<(), (Refusal, usize)> {
    let mut handed = 0usize;
    for chunk in text.chunks(size.max(1)) {
        handed = handed.saturating_add(chunk.len());
        if let Err(refusal) = parser.feed(chunk) {
            return Err((refusal, handed));
        }
    }
    Ok(())
}

fn fed(alloc: Global, seed: &RandomState, size: usize, want: &Field) -> Seen {
    let mut parser = Parser::new(alloc, seed, Kind::Dict, u64::MAX);
    match feed_all(&mut parser, MEMBERS, size) {
        Ok(()) => seen_field(parser.finish(), want),
        Err((Refusal::OutOfMemory, handed)) => {
            if stays_refused(parser, handed) {
                Seen::Refused
            } else {
                Seen::Wrong
            }
        }
        Err(_) => Seen::Wrong,
    }
}

#[test]
fn pieces(rt: HostRuntime) -> Result<(), Fail> {
    let alloc = rt.alloc();
    let seed = RandomState::new(&rt)?;
    let want = parse_text(alloc, &seed, Kind::Dict, MEMBERS)?;
    for size in [1, 7, 64, 70, 1000usize] {
        expect_refusals(&rt, || fed(alloc, &seed, size, &want));
    }
    Ok(())
}

/// A parser that was refused with no memory left; there is memory again when this returns it.
fn refused_parser(alloc: Global, seed: &RandomState) -> Option<Parser> {
    let mut scarcity = Scarcity::new(alloc).ok()?;
    let mut parser = Parser::new(alloc, seed, Kind::Dict, u64::MAX);
    let scarce = scarcity.leave(alloc, 0);
    let answer = parser.feed(MEMBERS);
    scarcity.end();
    if scarce && answer == Err(Refusal::OutOfMemory) {
        Some(parser)
    } else {
        None
    }
}

#[test]
fn refused_for_good(rt: HostRuntime) -> Result<(), Fail> {
    let alloc = rt.alloc();
    let seed = RandomState::new(&rt)?;
    let parser = refused_parser(alloc, &seed).ok_or("not refused")?;
    assert!(rt; stays_refused(parser, MEMBERS.len()));
    Ok(())
}

/// Parsers that took the text.
fn fed_parsers(
    alloc: Global,
    seed: &RandomState,
    kind: Kind,
    text: &[u8],
) -> Result<Vec<Parser>, Fail> {
    let mut parsers = Vec::new(alloc);
    for _ in 0..300u32 {
        let mut parser = Parser::new(alloc, seed, kind, u64::MAX);
        parser.feed(text)?;
        parsers.push(parser)?;
    }
    Ok(parsers)
}

fn finish_next(parsers: &mut Vec<Parser>, want: &Field) -> Seen {
    match parsers.pop() {
        Some(parser) => seen_field(parser.finish(), want),
        None => Seen::Wrong,
    }
}

fn finish_refusals(
    alloc: Global,
    seed: &RandomState,
    kind: Kind,
    text: &[u8],
) -> Result<Option<usize>, Fail> {
    let want = parse_text(alloc, seed, kind, text)?;
    let mut parsers = fed_parsers(alloc, seed, kind, text)?;
    Ok(refusals(alloc, || finish_next(&mut parsers, &want)))
}

#[test]
fn ends(rt: HostRuntime) -> Result<(), Fail> {
    let seed = RandomState::new(&rt)?;
    for (kind, text) in [
        (Kind::Item, b"a;b=c".as_slice()),
        (Kind::List, b"(1 2);p"),
        (Kind::Dict, b"a=(1 2);p"),
    ] {
        let found = finish_refusals(rt.alloc(), &seed, kind, text)?;
        assert!(rt; found > Some(0), "{found:?}");
    }
    Ok(())
}

fn feed_number(parser: &mut Parser) -> Result<(), Refusal> {
    for _ in 0..100_000u32 {
        parser.feed(b" ")?;
    }
    for byte in b"-007" {
        parser.feed(&[*byte])?;
    }
    Ok(())
}

fn number_in_pieces(alloc: Global, seed: &RandomState) -> Seen {
    let mut parser = Parser::new(alloc, seed, Kind::Item, u64::MAX);
    if parser.place() != 0 || feed_number(&mut parser).is_err() {
        return Seen::Wrong;
    }
    seen_minus_seven(parser.finish())
}

#[test]
fn numbers_take_none(rt: HostRuntime) -> Result<(), Fail> {
    let alloc = rt.alloc();
    let seed = RandomState::new(&rt)?;
    let text = padded_number(alloc)?;
    expect_no_need(&rt, || number_in_pieces(alloc, &seed));
    expect_no_need(&rt, || {
        seen_minus_seven(parse_text(alloc, &seed, Kind::Item, text.as_slice()))
    });
    Ok(())
}
