//! Texts that are malformed after whole members.
use sf_parse::{Parser, Refusal};
use sf_value::{Dialect, Field, Kind, same};
use sf_view::parse_declined;
use std::alloc::Global;
use std::hash::RandomState;
use std::process::Abort;
use std::test::Fail;

// Whole members, and a comma after the last.
const LIST: &[u8] =
    b" 1, -2.5;q , \"a\\\"b\";x=\"y, z\",\t*t/a:b;k=?0, :YQ==:, ?1, (1 \"x, y\" b;p);q=2, (), \
@7, %\"%c3%bc, \",\t 10;a;b;c=1.5, a-token-that-is-long , another-token, \"and a text\", ";

const DICT: &[u8] = b" a=1, b=-2.5;q , c=\"a\\\"b\";x=\"y, z\",\td=*t/a:b;k=?0, e=:YQ==:, f, \
g=(1 \"x, y\" b;p);q=2, h=(), i=@7, j=%\"%c3%bc, \",\t k;a;b;c=1.5, l=a-token-that-is-long , \
a=2, m=another-token, ";

// What may come where a value of a key begins, a bare item, a member of a List after a comma, a
// member of a Dictionary after one, and a parameter after its semicolon.
const VALUE: &[u8] = b"\"%(*-0123456789:?@ABCDEFGHIJKLMNOPQRSTUVWXYZabcdefghijklmnopqrstuvwxyz";

const BARE: &[u8] = b"\"%*-0123456789:?@ABCDEFGHIJKLMNOPQRSTUVWXYZabcdefghijklmnopqrstuvwxyz";

const MEMBER: &[u8] = b"\t \"%(*-0123456789:?@ABCDEFGHIJKLMNOPQRSTUVWXYZabcdefghijklmnopqrstuvwxyz";

const KEY: &[u8] = b"\t *abcdefghijklmnopqrstuvwxyz";

const PARAMETER: &[u8] = b" *abcdefghijklmnopqrstuvwxyz";

// The kind, the member that is malformed, how far into it the place is, the byte found there,
// whether the text may end there, and the bytes that could have followed.
type Row = (Kind, &'static [u8], u64, Option<u8>, bool, &'static [u8]);

static ROWS: [Row; 19] = [
    (Kind::List, b"", 0, None, false, MEMBER),
    (Kind::List, b",", 0, Some(b','), false, MEMBER),
    (Kind::List, b"1x", 1, Some(b'x'), true, b"\t ,.0123456789;"),
    (
        Kind::List,
        b"1x, 2",
        1,
        Some(b'x'),
        true,
        b"\t ,.0123456789;",
    ),
    (Kind::List, b"-", 1, None, false, b"0123456789"),
    (Kind::List, b"?1 x", 3, Some(b'x'), true, b"\t ,"),
    (Kind::List, b"?2", 1, Some(b'2'), false, b"01"),
    (Kind::List, b"\"\\x\"", 2, Some(b'x'), false, b"\"\\"),
    (Kind::List, b"@1.5", 2, Some(b'.'), true, b"\t ,0123456789;"),
    (Kind::List, b"%x", 1, Some(b'x'), false, b"\""),
    (Kind::List, b"(b 1", 4, None, false, b" ).0123456789;"),
    (Kind::List, b"(b);x;y z", 8, Some(b'z'), true, b"\t ,"),
    (Kind::List, b"t;", 2, None, false, PARAMETER),
    (Kind::List, b"t;x=", 4, None, false, BARE),
    (Kind::Dict, b"", 0, None, false, KEY),
    (Kind::Dict, b"K=1", 0, Some(b'K'), false, KEY),
    (Kind::Dict, b"k=", 2, None, false, VALUE),
    (
        Kind::Dict,
        b"k=1x",
        3,
        Some(b'x'),
        true,
        b"\t ,.0123456789;",
    ),
    (Kind::Dict, b"k;X", 2, Some(b'X'), false, PARAMETER),
];

/// The set of the bytes, as a refusal has it.
fn set_of(bytes: &[u8]) -> u128 {
    let mut set = 0;
    for byte in 0..128u8 {
        if bytes.contains(&byte) {
            set |= 1 << byte;
        }
    }
    set
}

/// The whole members of a field of the kind.
fn members(kind: Kind) -> &'static [u8] {
    match kind {
        Kind::Dict => DICT,
        _ => LIST,
    }
}

/// The members, and the text after them.
fn joined(alloc: Global, kind: Kind, member: &[u8]) -> Result<Vec<u8>, Fail> {
    let mut text = Vec::new(alloc);
    text.extend_from_slice(members(kind))?;
    text.extend_from_slice(member)?;
    Ok(text)
}

#[test]
fn refusals_are_exact(rt: HostRuntime) -> Result<(), Fail> {
    let seed = RandomState::new(&rt)?;
    for (kind, member, offset, found, may_end, next) in &ROWS {
        let text = joined(rt.alloc(), *kind, member)?;
        let want = Refusal::Syntax {
            place: members(*kind).len() as u64 + *offset,
            found: *found,
            expected: set_of(next),
            may_end: *may_end,
        };
        let parsed = parse_declined(rt.alloc(), &seed, Dialect::Rfc9651, *kind, text.as_slice());
        assert_eq!(&rt; parsed.err(), Some(want));
    }
    Ok(())
}

/// The field of the text, or its refusal, by a parser that gets single bytes.
fn parse_bytes(
    alloc: Global,
    seed: &RandomState,
    dialect: Dialect,
    kind: Kind,
    text: &[u8],
) -> Result<Field, Refusal> {
    let mut parser = Parser::new_in(alloc, seed, dialect, kind, u64::MAX);
    for byte in text.chunks(1) {
        parser.feed(byte)?;
    }
    parser.finish()
}

/// Whether both are the same field or the same refusal.
fn agree(first: Result<Field, Refusal>, second: Result<Field, Refusal>) -> bool {
    match (first, second) {
        (Ok(first), Ok(second)) => same(&first, &second),
        (Err(first), Err(second)) => first == second,
        _ => false,
    }
}

/// Tries the text cut at each place from this one on.
fn check_cuts(
    rt: &impl Abort,
    alloc: Global,
    seed: &RandomState,
    dialect: Dialect,
    kind: Kind,
    text: &[u8],
    first: usize,
) {
    for cut in first..=text.len() {
        let (text, _) = text.split_at(cut);
        let parsed = parse_declined(alloc, seed, dialect, kind, text);
        assert!(rt; agree(parsed, parse_bytes(alloc, seed, dialect, kind, text)));
    }
}

#[test]
fn cut_texts_are_parsed_as_by_the_parser(rt: HostRuntime) -> Result<(), Fail> {
    let seed = RandomState::new(&rt)?;
    for (kind, member, _, _, _, _) in &ROWS {
        let text = joined(rt.alloc(), *kind, member)?;
        let first = members(*kind).len();
        for dialect in [Dialect::Rfc9651, Dialect::Rfc8941] {
            check_cuts(
                &rt,
                rt.alloc(),
                &seed,
                dialect,
                *kind,
                text.as_slice(),
                first,
            );
        }
    }
    Ok(())
}

#[test]
fn cut_members_are_parsed_as_by_the_parser(rt: HostRuntime) -> Result<(), Fail> {
    let seed = RandomState::new(&rt)?;
    for kind in [Kind::Item, Kind::List, Kind::Dict] {
        for text in [LIST, DICT] {
            check_cuts(&rt, rt.alloc(), &seed, Dialect::Rfc9651, kind, text, 0);
        }
    }
    Ok(())
}
