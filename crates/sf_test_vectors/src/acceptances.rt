//! Texts that spell a value, with its canonical text.
use sf_parse::{Parser, parse_text, parse_text_in, refuse_text};
use sf_value::{Dialect, Field, Kind, OutOfMemory, same};
use sf_write::to_text;
use std::alloc::Global;
use std::hash::RandomState;
use std::process::Abort;
use std::test::Fail;

pub(crate) type Row = (Kind, &'static [u8], &'static [u8]);

fn value_in_chunks(
    alloc: Global,
    seed: &RandomState,
    dialect: Dialect,
    kind: Kind,
    prefix: &[u8],
    suffix: &[u8],
) -> Result<Field, Fail> {
    let mut parser = Parser::new_in(alloc, seed, dialect, kind, u64::MAX);
    parser.feed(prefix)?;
    parser.feed(suffix)?;
    Ok(parser.finish()?)
}

fn value_bytewise(
    alloc: Global,
    seed: &RandomState,
    dialect: Dialect,
    kind: Kind,
    text: &[u8],
) -> Result<Field, Fail> {
    let mut parser = Parser::new_in(alloc, seed, dialect, kind, u64::MAX);
    for byte in text {
        parser.feed(&[*byte])?;
    }
    parser.feed(&[])?;
    Ok(parser.finish()?)
}

fn kind_and_text(alloc: Global, field: Field) -> Result<(Kind, Vec<u8>), OutOfMemory> {
    Ok((field.kind(), to_text(alloc, &field)?))
}

fn check_value(
    rt: &impl Abort,
    alloc: Global,
    field: Field,
    kind: Kind,
    canonical: &[u8],
) -> Result<(), Fail> {
    let (found, text) = kind_and_text(alloc, field)?;
    assert_eq!(rt; text.as_slice(), canonical);
    assert!(rt; found == kind);
    Ok(())
}

// A text in its dialect and of its kind.
type Spelling<'a> = (Dialect, Kind, &'a [u8]);

fn is_value_of(
    alloc: Global,
    seed: &RandomState,
    field: &Field,
    spelling: Spelling,
) -> Result<bool, Fail> {
    let (dialect, kind, text) = spelling;
    Ok(same(field, &parse_text_in(alloc, seed, dialect, kind, text)?))
}

fn have_equal_values(
    alloc: Global,
    seed: &RandomState,
    one: Spelling,
    other: Spelling,
) -> Result<bool, Fail> {
    let (dialect, kind, text) = one;
    let field = parse_text_in(alloc, seed, dialect, kind, text)?;
    is_value_of(alloc, seed, &field, other)
}

fn check_chunks(
    rt: &impl Abort,
    alloc: Global,
    seed: &RandomState,
    dialect: Dialect,
    row: Row,
) -> Result<(), Fail> {
    let (kind, text, canonical) = row;
    for cut in 0..=text.len() {
        let (prefix, suffix) = text.split_at(cut);
        let field = value_in_chunks(alloc, seed, dialect, kind, prefix, suffix)?;
        check_value(rt, alloc, field, kind, canonical)?;
    }
    let field = value_bytewise(alloc, seed, dialect, kind, text)?;
    check_value(rt, alloc, field, kind, canonical)
}

/// Whether the text has a byte that Dates and Display Strings begin with.
pub(crate) fn has_new_types(text: &[u8]) -> bool {
    text.iter().any(|byte| *byte == b'@' || *byte == b'%')
}

fn check_row(rt: &impl Abort, alloc: Global, seed: &RandomState, row: Row) -> Result<(), Fail> {
    let (kind, text, canonical) = row;
    let field = parse_text(alloc, seed, kind, text)?;
    check_value(rt, alloc, field, kind, canonical)?;
    assert!(rt; refuse_text(Dialect::Rfc9651, kind, text).is_none());
    let again = parse_text(alloc, seed, kind, canonical)?;
    check_value(rt, alloc, again, kind, canonical)?;
    let one = (Dialect::Rfc9651, kind, text);
    let other = (Dialect::Rfc9651, kind, canonical);
    assert!(rt; have_equal_values(alloc, seed, one, other)?);
    assert!(rt; canonical.len().saturating_mul(5) <= text.len().saturating_mul(8));
    check_chunks(rt, alloc, seed, Dialect::Rfc9651, row)?;
    if has_new_types(text) {
        return Ok(());
    }
    check_chunks(rt, alloc, seed, Dialect::Rfc8941, row)
}

pub(crate) fn check_rows(
    rt: &impl Abort,
    alloc: Global,
    seed: &RandomState,
    rows: &[Row],
) -> Result<(), Fail> {
    for row in rows {
        check_row(rt, alloc, seed, *row)?;
    }
    Ok(())
}

pub(crate) static ITEMS: [Row; 42] = [
    (Kind::Item, b" -0 ", b"0"),
    (Kind::Item, b"@-0", b"@0"),
    (Kind::Item, b"-0.0", b"0.0"),
    (Kind::Item, b"-0.5", b"-0.5"),
    (Kind::Item, b"007", b"7"),
    (Kind::Item, b"a/b:c", b"a/b:c"),
    (Kind::Item, b"01.500;q;q=?0;r=1", b"1.5;q=?0;r=1"),
    (Kind::Item, b"999999999999999", b"999999999999999"),
    (Kind::Item, b"-999999999999.999", b"-999999999999.999"),
    (Kind::Item, b":YQ:", b":YQ==:"),
    (Kind::Item, b":YQ=:", b":YQ==:"),
    (Kind::Item, b":YQ==:", b":YQ==:"),
    (Kind::Item, b"::", b"::"),
    (Kind::Item, b":iZ:", b":iQ==:"),
    (Kind::Item, b":iZ=:", b":iQ==:"),
    (Kind::Item, b":iZ==:", b":iQ==:"),
    (Kind::Item, b":iQ:", b":iQ==:"),
    (Kind::Item, b":YWE:", b":YWE=:"),
    (Kind::Item, b":YWF=:", b":YWE=:"),
    (Kind::Item, b"%\"%41\\\"", b"%\"A\\\""),
    (Kind::Item, b"%\"f%c3%bc\"", b"%\"f%c3%bc\""),
    (Kind::Item, b"%\"%25%22%0a\"", b"%\"%25%22%0a\""),
    (Kind::Item, b"%\"%7f%00\"", b"%\"%7f%00\""),
    (Kind::Item, b"%\"%ef%bb%bfa\"", b"%\"%ef%bb%bfa\""),
    (
        Kind::Item,
        b"%\"for %c3%bc users.\"",
        b"%\"for %c3%bc users.\"",
    ),
    (Kind::Item, b"\"a\\\"b\\\\\"", b"\"a\\\"b\\\\\""),
    (Kind::Item, b"a;  b;c=2;b=-01", b"a;b=-1;c=2"),
    (Kind::Item, b"a;b=@1;b=1", b"a;b=1"),
    (Kind::Item, b"@1659578233", b"@1659578233"),
    (Kind::Item, b"?1", b"?1"),
    (Kind::Item, b"?0;a", b"?0;a"),
    (Kind::Item, b"*a", b"*a"),
    (Kind::Item, b"a;*k=?1", b"a;*k"),
    (Kind::Item, b"1.10", b"1.1"),
    (Kind::Item, b"0.100", b"0.1"),
    (Kind::Item, b"1.0;a=1.000", b"1.0;a=1.0"),
    (Kind::Item, b"\"\"", b"\"\""),
    (Kind::Item, b"%\"\"", b"%\"\""),
    (Kind::Item, b"-0", b"0"),
    (Kind::Item, b"a;a;a=?0;a", b"a;a"),
    (Kind::Item, b"a;x=1;y=2;x=3", b"a;x=3;y=2"),
    (Kind::Item, b"abc", b"abc"),
];

/// Items, with or without parameters, after which spaces and the end come.
static BEFORE_SPACES: [Row; 6] = [
    (Kind::Item, b"a ", b"a"),
    (Kind::Item, b"-7;b=\"s\"   ", b"-7;b=\"s\""),
    (Kind::Item, b"a; b=1; c=?1 ", b"a;b=1;c"),
    (
        Kind::Item,
        b"a;b;c;d;e;f;g;h;i;j=2  ",
        b"a;b;c;d;e;f;g;h;i;j=2",
    ),
    (
        Kind::Item,
        b"a;a_key_of_more_than_16_bytes=1;another_key_of_more_than_16_bytes ",
        b"a;a_key_of_more_than_16_bytes=1;another_key_of_more_than_16_bytes",
    ),
    (
        Kind::Item,
        b"a;b;c;d;e;f;g;h;i;j;b=1 ",
        b"a;b=1;c;d;e;f;g;h;i;j",
    ),
];

pub(crate) static LISTS: [Row; 23] = [
    (Kind::List, b"a \t", b"a"),
    (Kind::List, b"", b""),
    (Kind::List, b"   ", b""),
    (Kind::List, b"1,2", b"1, 2"),
    (Kind::List, b"\"a, b\"", b"\"a, b\""),
    (Kind::List, b"()", b"()"),
    (Kind::List, b"( )", b"()"),
    (Kind::List, b"(a;b c)", b"(a;b c)"),
    (Kind::List, b"(a; b)", b"(a;b)"),
    (Kind::List, b":YQ:,:YQ:", b":YQ==:, :YQ==:"),
    (Kind::List, b"sugar, tea, rum", b"sugar, tea, rum"),
    (
        Kind::List,
        b"(\"foo\" \"bar\"), (\"baz\"), (\"bat\" \"one\"), ()",
        b"(\"foo\" \"bar\"), (\"baz\"), (\"bat\" \"one\"), ()",
    ),
    (
        Kind::List,
        b"abc;a=1;b=2; cde_456, (ghi;jk=4 l);q=\"9\";r=w",
        b"abc;a=1;b=2;cde_456, (ghi;jk=4 l);q=\"9\";r=w",
    ),
    (Kind::List, b"a\t ,\t b", b"a, b"),
    (Kind::List, b"( 1  2 );a, 3", b"(1 2);a, 3"),
    (
        Kind::List,
        b"OriginCache; hit; ttl=1100, \"CDN Company Here\"; hit; ttl=545",
        b"OriginCache;hit;ttl=1100, \"CDN Company Here\";hit;ttl=545",
    ),
    (Kind::List, b"c;hit;fwd=miss", b"c;hit;fwd=miss"),
    (Kind::List, b"7;hit", b"7;hit"),
    (Kind::List, b"a, (b), 7", b"a, (b), 7"),
    (
        Kind::List,
        b"c;hit=?0;fwd=odd;fwd-status=99;stored;ttl=-3",
        b"c;hit=?0;fwd=odd;fwd-status=99;stored;ttl=-3",
    ),
    (Kind::List, b"c;hit=\"x\"", b"c;hit=\"x\""),
    (
        Kind::List,
        b"c;stored;fwd-status=304",
        b"c;stored;fwd-status=304",
    ),
    (Kind::List, b"c;detail=1", b"c;detail=1"),
];

pub(crate) static DICTIONARIES: [Row; 24] = [
    (
        Kind::Dict,
        b"a=1,b;x, a=(1  2 );y=:YQ:",
        b"a=(1 2);y=:YQ==:, b;x",
    ),
    (Kind::Dict, b"", b""),
    (Kind::Dict, b"a=?1;b=?1", b"a;b"),
    (Kind::Dict, b"a=%\"%c3%bc\"", b"a=%\"%c3%bc\""),
    (
        Kind::Dict,
        b"en=\"Applepie\", da=:w4ZibGV0w6ZydGU=:",
        b"en=\"Applepie\", da=:w4ZibGV0w6ZydGU=:",
    ),
    (Kind::Dict, b"a=?0, b, c; foo=bar", b"a=?0, b, c;foo=bar"),
    (
        Kind::Dict,
        b"a=(1 2), b=3, c=4;aa=bb, d=(5 6);valid",
        b"a=(1 2), b=3, c=4;aa=bb, d=(5 6);valid",
    ),
    (Kind::Dict, b"u=1, i", b"u=1, i"),
    (Kind::Dict, b"a=1, b=2", b"a=1, b=2"),
    (Kind::Dict, b"b=2, a=1", b"b=2, a=1"),
    (Kind::Dict, b"a, b, a=2", b"a=2, b"),
    (
        Kind::Dict,
        b"max-age=30, s-maxage=90, no-store=?0",
        b"max-age=30, s-maxage=90, no-store=?0",
    ),
    (
        Kind::Dict,
        b"max-age=30, s-maxage=90, no-store=?0, no-store",
        b"max-age=30, s-maxage=90, no-store",
    ),
    (
        Kind::Dict,
        b"max-age=30,s-maxage=90,no-store=?1",
        b"max-age=30, s-maxage=90, no-store",
    ),
    (Kind::Dict, b"max-age=-1", b"max-age=-1"),
    (Kind::Dict, b"max-age=(1)", b"max-age=(1)"),
    (Kind::Dict, b"max-age=60;x=1", b"max-age=60;x=1"),
    (
        Kind::Dict,
        b"private=(a b), no-cache=\"x\"",
        b"private=(a b), no-cache=\"x\"",
    ),
    (Kind::Dict, b"u=8, i", b"u=8, i"),
    (Kind::Dict, b"u=5, i", b"u=5, i"),
    (Kind::Dict, b"u=1.0", b"u=1.0"),
    (Kind::Dict, b"u=-0", b"u=0"),
    (Kind::Dict, b"u=1, u=9", b"u=9"),
    (Kind::Dict, b"i=1", b"i=1"),
];

#[test]
fn items(rt: HostRuntime) -> Result<(), Fail> {
    let seed = RandomState::new(&rt)?;
    check_rows(&rt, rt.alloc(), &seed, &ITEMS)
}

#[test]
fn items_before_spaces(rt: HostRuntime) -> Result<(), Fail> {
    let seed = RandomState::new(&rt)?;
    check_rows(&rt, rt.alloc(), &seed, &BEFORE_SPACES)
}

#[test]
fn lists(rt: HostRuntime) -> Result<(), Fail> {
    let seed = RandomState::new(&rt)?;
    check_rows(&rt, rt.alloc(), &seed, &LISTS)
}

#[test]
fn dictionaries(rt: HostRuntime) -> Result<(), Fail> {
    let seed = RandomState::new(&rt)?;
    check_rows(&rt, rt.alloc(), &seed, &DICTIONARIES)
}

#[test]
fn both_dialects(rt: HostRuntime) -> Result<(), Fail> {
    let seed = RandomState::new(&rt)?;
    let old = (Dialect::Rfc8941, Kind::Item, b"a;b=1".as_slice());
    let new = (Dialect::Rfc9651, Kind::Item, b"a;b=1".as_slice());
    assert!(&rt; have_equal_values(rt.alloc(), &seed, old, new)?);
    let dialect = Dialect::Rfc8941;
    let field = value_in_chunks(rt.alloc(), &seed, dialect, Kind::Dict, b"a=(1", b" 2)")?;
    check_value(&rt, rt.alloc(), field, Kind::Dict, b"a=(1 2)")
}

#[test]
fn order_and_kind_count(rt: HostRuntime) -> Result<(), Fail> {
    let seed = RandomState::new(&rt)?;
    let new = Dialect::Rfc9651;
    for (one, other) in [
        (
            (new, Kind::Dict, b"a=1, b=2".as_slice()),
            (new, Kind::Dict, b"b=2, a=1".as_slice()),
        ),
        (
            (new, Kind::Item, b"a".as_slice()),
            (new, Kind::List, b"a".as_slice()),
        ),
    ] {
        assert!(&rt; !have_equal_values(rt.alloc(), &seed, one, other)?);
    }
    Ok(())
}
