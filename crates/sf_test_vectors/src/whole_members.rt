//! Lists and Dictionaries with whole members, and Items, in texts on both sides of the number of
//! bytes from which the parser looks for these: each bare item, before a comma, a space, a tab, the
//! end and a byte that is refused. What is read directly out of a text is compared with what a parser makes
//! of its bytes one by one.
use crate::{acceptances, refusals};
use sf_parse::{Parser, Refusal, parse_text_in};
use sf_value::{Dialect, Field, Kind, same};
use std::alloc::Global;
use std::hash::RandomState;
use std::process::Abort;
use std::test::Fail;

const MEMBER: &str = "09 20 22 25 28 2a 2d 30-3a 3f-5a 61-7a";

const FIRST_MEMBER: &str = "20 22 25 28 2a 2d 30-3a 3f-5a 61-7a end";

const AFTER_KEY: &str = "09 20 2a 2c-2e 30-39 3b 3d 5f 61-7a end";

// What may follow whole groups of a Byte Sequence, one character more, and two or three.
const IN_GROUP: &str = "2b 2f-3a 41-5a 61-7a";

const AFTER_ONE: &str = "2b 2f-39 41-5a 61-7a";

const AFTER_TWO: &str = "2b 2f-3a 3d 41-5a 61-7a";

static ACCEPTED: [acceptances::Row; 23] = [
    (
        Kind::List,
        b"\"a\\\"b\",\"c\\\\\" ,\"d\\\"\"\t,\
          xxxxxxxxxxxxxxxxxxxxxxxxxxxxxxxxxxxxxxxxxxxxxxxxxxxxxxxxxxxxxxxx",
        b"\"a\\\"b\", \"c\\\\\", \"d\\\"\", \
          xxxxxxxxxxxxxxxxxxxxxxxxxxxxxxxxxxxxxxxxxxxxxxxxxxxxxxxxxxxxxxxx",
    ),
    (
        Kind::List,
        b":YQ:,:YWE=: ,:iZ==:\t,xxxxxxxxxxxxxxxxxxxxxxxxxxxxxxxxxxxxxxxxxxxxxxxxxxxxxxxxxxxxxxxx",
        b":YQ==:, :YWE=:, :iQ==:, xxxxxxxxxxxxxxxxxxxxxxxxxxxxxxxxxxxxxxxxxxxxxxxxxxxxxxxxxxxxxxxx",
    ),
    (
        Kind::List,
        b"%\"%c3%bc\",%\"%25\" ,%\"a\"\t,\
          xxxxxxxxxxxxxxxxxxxxxxxxxxxxxxxxxxxxxxxxxxxxxxxxxxxxxxxxxxxxxxxx",
        b"%\"%c3%bc\", %\"%25\", %\"a\", \
          xxxxxxxxxxxxxxxxxxxxxxxxxxxxxxxxxxxxxxxxxxxxxxxxxxxxxxxxxxxxxxxx",
    ),
    (
        Kind::List,
        b"@1,@-0 ,@1659578233\t,xxxxxxxxxxxxxxxxxxxxxxxxxxxxxxxxxxxxxxxxxxxxxxxxxxxxxxxxxxxxxxxx",
        b"@1, @0, @1659578233, xxxxxxxxxxxxxxxxxxxxxxxxxxxxxxxxxxxxxxxxxxxxxxxxxxxxxxxxxxxxxxxx",
    ),
    (
        Kind::List,
        b"?0,?1 ,?0\t,xxxxxxxxxxxxxxxxxxxxxxxxxxxxxxxxxxxxxxxxxxxxxxxxxxxxxxxxxxxxxxxx",
        b"?0, ?1, ?0, xxxxxxxxxxxxxxxxxxxxxxxxxxxxxxxxxxxxxxxxxxxxxxxxxxxxxxxxxxxxxxxx",
    ),
    (
        Kind::List,
        b"1.50,-0 ,-999999999999.999\t,\
          xxxxxxxxxxxxxxxxxxxxxxxxxxxxxxxxxxxxxxxxxxxxxxxxxxxxxxxxxxxxxxxx",
        b"1.5, 0, -999999999999.999, \
          xxxxxxxxxxxxxxxxxxxxxxxxxxxxxxxxxxxxxxxxxxxxxxxxxxxxxxxxxxxxxxxx",
    ),
    (
        Kind::List,
        b"\"a\",b:/ ,\"\"\t,xxxxxxxxxxxxxxxxxxxxxxxxxxxxxxxxxxxxxxxxxxxxxxxxxxxxxxxxxxxxxxxx",
        b"\"a\", b:/, \"\", xxxxxxxxxxxxxxxxxxxxxxxxxxxxxxxxxxxxxxxxxxxxxxxxxxxxxxxxxxxxxxxx",
    ),
    (
        Kind::List,
        b"a;b=@1;b=1;  c,(1  2;q \"x\\\\y\" );r=:YQ: , ( )\t,\
          xxxxxxxxxxxxxxxxxxxxxxxxxxxxxxxxxxxxxxxxxxxxxxxxxxxxxxxxxxxxxxxx",
        b"a;b=1;c, (1 2;q \"x\\\\y\");r=:YQ==:, (), \
          xxxxxxxxxxxxxxxxxxxxxxxxxxxxxxxxxxxxxxxxxxxxxxxxxxxxxxxxxxxxxxxx",
    ),
    (
        Kind::Dict,
        b"a=1,b;x ,c=(1 \"y\" );z\t,a=\"\\\"\",d=\
          xxxxxxxxxxxxxxxxxxxxxxxxxxxxxxxxxxxxxxxxxxxxxxxxxxxxxxxxxxxxxxxx",
        b"a=\"\\\"\", b;x, c=(1 \"y\");z, d=\
          xxxxxxxxxxxxxxxxxxxxxxxxxxxxxxxxxxxxxxxxxxxxxxxxxxxxxxxxxxxxxxxx",
    ),
    (
        Kind::Dict,
        b"a,b,c,d,e,f,g,h,i,a=?0,j;k=@1,abcdefghijklmnopqrst=\
          xxxxxxxxxxxxxxxxxxxxxxxxxxxxxxxxxxxxxxxxxxxxxxxxxxxxxxxxxxxxxxxx",
        b"a=?0, b, c, d, e, f, g, h, i, j;k=@1, abcdefghijklmnopqrst=\
          xxxxxxxxxxxxxxxxxxxxxxxxxxxxxxxxxxxxxxxxxxxxxxxxxxxxxxxxxxxxxxxx",
    ),
    (
        Kind::List,
        b"  xxxxxxxxxxxxxxxxxxxxxxxxxxxxxxxxxxxxxxxxxxxxxxxxxxxxxxxxxxxxxxxx\t,a \t",
        b"xxxxxxxxxxxxxxxxxxxxxxxxxxxxxxxxxxxxxxxxxxxxxxxxxxxxxxxxxxxxxxxx, a",
    ),
    (
        Kind::Dict,
        b" xxxxxxxxxxxxxxxxxxxxxxxxxxxxxxxxxxxxxxxxxxxxxxxxxxxxxxxxxxxxxxxx;a;b=1 ,a \t",
        b"xxxxxxxxxxxxxxxxxxxxxxxxxxxxxxxxxxxxxxxxxxxxxxxxxxxxxxxxxxxxxxxx;a;b=1, a",
    ),
    (
        Kind::List,
        b"a, xxxxxxxxxxxxxxxxxxxxxxxxxxxxxxxxxxxxxxxxxxxxxxxxxxxxxxxxxxxx",
        b"a, xxxxxxxxxxxxxxxxxxxxxxxxxxxxxxxxxxxxxxxxxxxxxxxxxxxxxxxxxxxx",
    ),
    (
        Kind::List,
        b"a, xxxxxxxxxxxxxxxxxxxxxxxxxxxxxxxxxxxxxxxxxxxxxxxxxxxxxxxxxxxxx",
        b"a, xxxxxxxxxxxxxxxxxxxxxxxxxxxxxxxxxxxxxxxxxxxxxxxxxxxxxxxxxxxxx",
    ),
    (
        Kind::List,
        b"a, xxxxxxxxxxxxxxxxxxxxxxxxxxxxxxxxxxxxxxxxxxxxxxxxxxxxxxxxxxxxxx",
        b"a, xxxxxxxxxxxxxxxxxxxxxxxxxxxxxxxxxxxxxxxxxxxxxxxxxxxxxxxxxxxxxx",
    ),
    (
        Kind::Dict,
        b"a=1, xxxxxxxxxxxxxxxxxxxxxxxxxxxxxxxxxxxxxxxxxxxxxxxxxxxxxxxxxx",
        b"a=1, xxxxxxxxxxxxxxxxxxxxxxxxxxxxxxxxxxxxxxxxxxxxxxxxxxxxxxxxxx",
    ),
    (
        Kind::Dict,
        b"a=1, xxxxxxxxxxxxxxxxxxxxxxxxxxxxxxxxxxxxxxxxxxxxxxxxxxxxxxxxxxx",
        b"a=1, xxxxxxxxxxxxxxxxxxxxxxxxxxxxxxxxxxxxxxxxxxxxxxxxxxxxxxxxxxx",
    ),
    (
        Kind::Dict,
        b"a=1, xxxxxxxxxxxxxxxxxxxxxxxxxxxxxxxxxxxxxxxxxxxxxxxxxxxxxxxxxxxx",
        b"a=1, xxxxxxxxxxxxxxxxxxxxxxxxxxxxxxxxxxxxxxxxxxxxxxxxxxxxxxxxxxxx",
    ),
    // The vectors of RFC 4648 section 10, and the example of RFC 9651 section 3.3.5, in each place.
    (
        Kind::List,
        b"::,:Zg:,:Zg=: ,:Zg==:\t,:Zm8:,:Zm8=:,:Zm9v:;a,:Zm9vYg:,:Zm9vYg=: , :Zm9vYg==:,\
          :Zm9vYmE:,:Zm9vYmE=:,:Zm9vYmFy:",
        b"::, :Zg==:, :Zg==:, :Zg==:, :Zm8=:, :Zm8=:, :Zm9v:;a, :Zm9vYg==:, :Zm9vYg==:, :Zm9vYg==:, \
          :Zm9vYmE=:, :Zm9vYmE=:, :Zm9vYmFy:",
    ),
    (
        Kind::Dict,
        b"a=::,b=:Zg: ,c=:Zm8=:\t,d=:Zm9v:,e=:Zm9vYg=:;f,a=:Zm9vYmE:;g=:Zg=:,h;i=:Zm9vYmFy:,j=\
          :cHJldGVuZCB0aGlzIGlzIGJpbmFyeSBjb250ZW50Lg:",
        b"a=:Zm9vYmE=:;g=:Zg==:, b=:Zg==:, c=:Zm8=:, d=:Zm9v:, e=:Zm9vYg==:;f, h;i=:Zm9vYmFy:, j=\
          :cHJldGVuZCB0aGlzIGlzIGJpbmFyeSBjb250ZW50Lg==:",
    ),
    (
        Kind::List,
        b"( :: :Zg:  :Zm8:;p=:Zm9v: a :Zm9vYg==:),(:Zm9vYmFy:),(:Zg=:;q),\
          (:cHJldGVuZCB0aGlzIGlzIGJpbmFyeSBjb250ZW50Lg=: b);r=:Zm9vYmE:;s",
        b"(:: :Zg==: :Zm8=:;p=:Zm9v: a :Zm9vYg==:), (:Zm9vYmFy:), (:Zg==:;q), \
          (:cHJldGVuZCB0aGlzIGlzIGJpbmFyeSBjb250ZW50Lg==: b);r=:Zm9vYmE=:;s",
    ),
    (Kind::Item, b"  :Zm9vYmE:  ", b":Zm9vYmE=:"),
    (
        Kind::Item,
        b":cHJldGVuZCB0aGlzIGlzIGJpbmFyeSBjb250ZW50Lg:;a=::;b=:Zg=:;a=:Zm8: ",
        b":cHJldGVuZCB0aGlzIGlzIGJpbmFyeSBjb250ZW50Lg==:;a=:Zm8=:;b=:Zg==:",
    ),
];

static REFUSED: [refusals::Row; 53] = [
    (Kind::List, b"(a;p;\"", 5, Some(0x22), "20 2a 61-7a"),
    (
        Kind::List,
        b"(a b;p=\"s\";q=$",
        13,
        Some(0x24),
        "22 25 2a 2d 30-3a 3f-5a 61-7a",
    ),
    (Kind::Dict, b"a=(b;p;q=?", 10, None, "30-31"),
    (Kind::List, b"]", 0, Some(0x5d), FIRST_MEMBER),
    (Kind::List, b" \t", 1, Some(0x09), FIRST_MEMBER),
    (Kind::List, b"\xc3\xbc", 0, Some(0xc3), FIRST_MEMBER),
    (Kind::List, b"a, ]", 3, Some(0x5d), MEMBER),
    (Kind::List, b"a,\t", 3, None, MEMBER),
    (Kind::Dict, b"=1", 0, Some(0x3d), "20 2a 61-7a end"),
    (Kind::Dict, b" A=1", 1, Some(0x41), "20 2a 61-7a end"),
    (Kind::Dict, b"a=1,\t=1", 5, Some(0x3d), "09 20 2a 61-7a"),
    (Kind::Dict, b"a=1, ", 5, None, "09 20 2a 61-7a"),
    (Kind::Dict, b"a$=1", 1, Some(0x24), AFTER_KEY),
    (Kind::Dict, b" a, b_.*-9C", 10, Some(0x43), AFTER_KEY),
    (Kind::Dict, b"a=1, b\x80", 6, Some(0x80), AFTER_KEY),
    (Kind::Dict, b"a b", 2, Some(0x62), "09 20 2c end"),
    (
        Kind::List,
        b"\"a\\\"b\"$,xxxxxxxxxxxxxxxxxxxxxxxxxxxxxxxxxxxxxxxxxxxxxxxxxxxxxxxxxxxxxxxx",
        6,
        Some(0x24),
        "09 20 2c 3b end",
    ),
    (
        Kind::List,
        b":YQ:$,xxxxxxxxxxxxxxxxxxxxxxxxxxxxxxxxxxxxxxxxxxxxxxxxxxxxxxxxxxxxxxxx",
        4,
        Some(0x24),
        "09 20 2c 3b end",
    ),
    (
        Kind::List,
        b"%\"%c3%bc\"$,xxxxxxxxxxxxxxxxxxxxxxxxxxxxxxxxxxxxxxxxxxxxxxxxxxxxxxxxxxxxxxxx",
        9,
        Some(0x24),
        "09 20 2c 3b end",
    ),
    (
        Kind::List,
        b"@1$,xxxxxxxxxxxxxxxxxxxxxxxxxxxxxxxxxxxxxxxxxxxxxxxxxxxxxxxxxxxxxxxx",
        2,
        Some(0x24),
        "09 20 2c 30-39 3b end",
    ),
    (
        Kind::List,
        b"?1$,xxxxxxxxxxxxxxxxxxxxxxxxxxxxxxxxxxxxxxxxxxxxxxxxxxxxxxxxxxxxxxxx",
        2,
        Some(0x24),
        "09 20 2c 3b end",
    ),
    (
        Kind::List,
        b"1.5$,xxxxxxxxxxxxxxxxxxxxxxxxxxxxxxxxxxxxxxxxxxxxxxxxxxxxxxxxxxxxxxxx",
        3,
        Some(0x24),
        "09 20 2c 30-39 3b end",
    ),
    (
        Kind::List,
        b"a;b=1$,xxxxxxxxxxxxxxxxxxxxxxxxxxxxxxxxxxxxxxxxxxxxxxxxxxxxxxxxxxxxxxxx",
        5,
        Some(0x24),
        "09 20 2c 2e 30-39 3b end",
    ),
    (
        Kind::List,
        b"\"a\\b\",xxxxxxxxxxxxxxxxxxxxxxxxxxxxxxxxxxxxxxxxxxxxxxxxxxxxxxxxxxxxxxxx",
        3,
        Some(0x62),
        "22 5c",
    ),
    (
        Kind::List,
        b":Y:,xxxxxxxxxxxxxxxxxxxxxxxxxxxxxxxxxxxxxxxxxxxxxxxxxxxxxxxxxxxxxxxx",
        2,
        Some(0x3a),
        "2b 2f-39 41-5a 61-7a",
    ),
    (
        Kind::List,
        b"(a\tb),xxxxxxxxxxxxxxxxxxxxxxxxxxxxxxxxxxxxxxxxxxxxxxxxxxxxxxxxxxxxxxxx",
        2,
        Some(0x09),
        "20-21 23-27 29-2b 2d-3b 41-5a 5e-7a 7c 7e",
    ),
    (
        Kind::List,
        b"(\"a\"b),xxxxxxxxxxxxxxxxxxxxxxxxxxxxxxxxxxxxxxxxxxxxxxxxxxxxxxxxxxxxxxxx",
        4,
        Some(0x62),
        "20 29 3b",
    ),
    (
        Kind::List,
        b"a;\tb,xxxxxxxxxxxxxxxxxxxxxxxxxxxxxxxxxxxxxxxxxxxxxxxxxxxxxxxxxxxxxxxx",
        2,
        Some(0x09),
        "20 2a 61-7a",
    ),
    (
        Kind::List,
        b"a\t;b,xxxxxxxxxxxxxxxxxxxxxxxxxxxxxxxxxxxxxxxxxxxxxxxxxxxxxxxxxxxxxxxx",
        2,
        Some(0x3b),
        "09 20 2c end",
    ),
    (
        Kind::List,
        b"a,\"b\",,xxxxxxxxxxxxxxxxxxxxxxxxxxxxxxxxxxxxxxxxxxxxxxxxxxxxxxxxxxxxxxxx",
        6,
        Some(0x2c),
        MEMBER,
    ),
    (
        Kind::List,
        b"a,(1 2),xxxxxxxxxxxxxxxxxxxxxxxxxxxxxxxxxxxxxxxxxxxxxxxxxxxxxxxxxxxxxxxx,",
        73,
        None,
        MEMBER,
    ),
    (
        Kind::List,
        b"a,xxxxxxxxxxxxxxxxxxxxxxxxxxxxxxxxxxxxxxxxxxxxxxxxxxxxxxxxxxxxxxxx b",
        67,
        Some(0x62),
        "09 20 2c end",
    ),
    (
        Kind::Dict,
        b"a=1,b=2,A=xxxxxxxxxxxxxxxxxxxxxxxxxxxxxxxxxxxxxxxxxxxxxxxxxxxxxxxxxxxxxxxx",
        8,
        Some(0x41),
        "09 20 2a 61-7a",
    ),
    (
        Kind::Dict,
        b"a=1,b =2,xxxxxxxxxxxxxxxxxxxxxxxxxxxxxxxxxxxxxxxxxxxxxxxxxxxxxxxxxxxxxxxx",
        6,
        Some(0x3d),
        "09 20 2c end",
    ),
    (
        Kind::Dict,
        b"a=1,b=,xxxxxxxxxxxxxxxxxxxxxxxxxxxxxxxxxxxxxxxxxxxxxxxxxxxxxxxxxxxxxxxx",
        6,
        Some(0x2c),
        "22 25 28 2a 2d 30-3a 3f-5a 61-7a",
    ),
    // Byte Sequences that are broken off.
    (Kind::Item, b":", 1, None, IN_GROUP),
    (Kind::List, b":Z", 2, None, AFTER_ONE),
    (Kind::Dict, b"k=:Zg", 5, None, AFTER_TWO),
    (Kind::Item, b"a;p=:Zg=", 8, None, "3a 3d"),
    (Kind::List, b"(:Zg==", 6, None, "3a"),
    (Kind::List, b"(a;p=:Zm8", 9, None, AFTER_TWO),
    (Kind::List, b"a, :Zm9v", 8, None, IN_GROUP),
    // Bytes that are no characters.
    (Kind::Item, b":Zm9v Zm9v:", 5, Some(0x20), IN_GROUP),
    (Kind::List, b":Zm9vY-:", 6, Some(0x2d), AFTER_ONE),
    (
        Kind::Dict,
        b"k=:Zm9vYmFyZm9vYmFyZm_:",
        21,
        Some(0x5f),
        AFTER_TWO,
    ),
    (Kind::List, b"(b :Zg=x:)", 7, Some(0x78), "3a 3d"),
    (Kind::Dict, b"k;p=:Zg==\x80", 9, Some(0x80), "3a"),
    // Too many `=`.
    (Kind::Item, b":Zm9v=:", 5, Some(0x3d), IN_GROUP),
    (Kind::List, b"a;p=:Zm8==:, b", 9, Some(0x3d), "3a"),
    (Kind::Dict, b"k=:Zg===:, z", 7, Some(0x3d), "3a"),
    // Last groups of one character.
    (Kind::Item, b":Z:", 2, Some(0x3a), AFTER_ONE),
    (
        Kind::List,
        b"(a :Zm9vYmFyZm9vYmFyZ:)",
        21,
        Some(0x3a),
        AFTER_ONE,
    ),
    (Kind::Dict, b"k=:Zm9vY=:, z", 8, Some(0x3d), AFTER_ONE),
];

#[test]
fn accepted(rt: HostRuntime) -> Result<(), Fail> {
    let seed = RandomState::new(&rt)?;
    acceptances::check_rows(&rt, rt.alloc(), &seed, &ACCEPTED)
}

#[test]
fn refused(rt: HostRuntime) -> Result<(), Fail> {
    let seed = RandomState::new(&rt)?;
    refusals::check_rows(&rt, rt.alloc(), &seed, &REFUSED)
}

static FRONTS: [&[u8]; 4] = [b"", b"  ", b"a=1, ", b"\"x\"\t,"];

static PARTS: [&[u8]; 33] = [
    b"",
    b"17",
    b"-0.50",
    b"tok/a",
    b"*",
    b"\"s t\"",
    b"\"\"",
    b"?0",
    b"?1",
    b"\"a\\\"b\"",
    b":YQ:",
    b"@1",
    b"%\"f%c3%bc\"",
    b"(1 tok \"s\" ?0 1.5;p  )",
    b"(a;p=?0 (",
    b"(a;p;\"",
    b"(a b;p=\"s\";q=%",
    b"(a;p;q=:!",
    b"(a;p;q",
    b"a;p;q=?1;\"",
    b"k",
    b"k=-3",
    b"k=tok",
    b"k=\"s\"",
    b"k=?1",
    b"k=(1 a);p",
    b"k=:YQ:",
    b"k=",
    b"a=?0;p=1;q=\"s\";p=tok",
    b"a;p=@1;q;p=?0",
    b"-",
    b"?2",
    b"\"s",
];

static FOLLOWERS: [&[u8]; 17] = [
    b"",
    b",",
    b", b",
    b",a=2,",
    b" ",
    b"\t",
    b" ,\tb=2 ",
    b";",
    b";p",
    b"; p=1,c",
    b";\tp",
    b";p=,",
    b"=",
    b"$",
    b"\x80",
    b" x",
    b")",
];

/// Members that make a text so long that whole ones are looked for in a chunk.
const MORE: &[u8] =
    b", xxxxxxxxxxxxxxxxxxxxxxxxxxxxxxxxxxxxxxxxxxxxxxxxxxxxxxxxxxxxxxxxxxxxxx, y=z";

/// What a parser makes of the text, fed this many bytes at a time.
fn fed(
    alloc: Global,
    seed: &RandomState,
    dialect: Dialect,
    kind: Kind,
    text: &[u8],
    size: usize,
) -> Result<Field, Refusal> {
    let mut parser = Parser::new_in(alloc, seed, dialect, kind, u64::MAX);
    for chunk in text.chunks(size.max(1)) {
        parser.feed(chunk)?;
    }
    parser.finish()
}

fn are_same(one: &Result<Field, Refusal>, other: &Result<Field, Refusal>) -> bool {
    match one {
        Ok(field) => match other {
            Ok(again) => same(field, again),
            Err(_) => false,
        },
        Err(refusal) => match other {
            Ok(_) => false,
            Err(again) => *refusal == *again,
        },
    }
}

/// Whether the text is read directly as it is byte by byte, and as in chunks.
pub(crate) fn is_read_the_same(
    alloc: Global,
    seed: &RandomState,
    dialect: Dialect,
    kind: Kind,
    text: &[u8],
) -> bool {
    let bytewise = fed(alloc, seed, dialect, kind, text, 1);
    let whole = parse_text_in(alloc, seed, dialect, kind, text);
    let chunk = fed(alloc, seed, dialect, kind, text, usize::MAX);
    are_same(&whole, &bytewise) && are_same(&chunk, &bytewise)
}

fn check_part(
    rt: &(impl Abort + AllocGlobal),
    seed: &RandomState,
    kind: Kind,
    front: &[u8],
    part: &[u8],
) -> Result<(), Fail> {
    for follower in &FOLLOWERS {
        let mut text = Vec::new(rt.alloc());
        text.extend_from_slice(front)?;
        text.extend_from_slice(part)?;
        text.extend_from_slice(follower)?;
        for dialect in [Dialect::Rfc9651, Dialect::Rfc8941] {
            assert!(rt;
                is_read_the_same(rt.alloc(), seed, dialect, kind, text.as_slice()),
                "{text:?}"
            );
        }
        text.extend_from_slice(MORE)?;
        for dialect in [Dialect::Rfc9651, Dialect::Rfc8941] {
            assert!(rt;
                is_read_the_same(rt.alloc(), seed, dialect, kind, text.as_slice()),
                "{text:?}"
            );
        }
    }
    Ok(())
}

fn check_parts(
    rt: &(impl Abort + AllocGlobal),
    seed: &RandomState,
    kind: Kind,
) -> Result<(), Fail> {
    for front in &FRONTS {
        for part in &PARTS {
            check_part(rt, seed, kind, front, part)?;
        }
    }
    Ok(())
}

#[test]
fn items_as_by_levels(rt: HostRuntime) -> Result<(), Fail> {
    let seed = RandomState::new(&rt)?;
    check_parts(&rt, &seed, Kind::Item)
}

#[test]
fn lists_as_by_levels(rt: HostRuntime) -> Result<(), Fail> {
    let seed = RandomState::new(&rt)?;
    check_parts(&rt, &seed, Kind::List)
}

#[test]
fn dictionaries_as_by_levels(rt: HostRuntime) -> Result<(), Fail> {
    let seed = RandomState::new(&rt)?;
    check_parts(&rt, &seed, Kind::Dict)
}

// What is before a String or a Byte Sequence, and what is after it.
static FRAMES: [(Kind, &[u8], &[u8]); 8] = [
    (Kind::Item, b"", b""),
    (Kind::Item, b"a;p=", b";q"),
    (Kind::List, b"", b", b"),
    (Kind::List, b"a, (", b" b)"),
    (Kind::List, b"(a;p=", b";q=1 b)"),
    (Kind::List, b"(a;p;q=", b";% b)"),
    (Kind::Dict, b"k=", b", z"),
    (Kind::Dict, b"k;p=", b";q, z"),
];

// On both sides of the numbers of bytes that are tested at a time, of half a KiB, and of the number of
// bytes in which what is after a part is looked for.
static LENGTHS: [usize; 30] = [
    15, 16, 17, 31, 32, 33, 63, 64, 65, 79, 80, 81, 95, 96, 97, 111, 112, 113, 509, 510, 511, 512,
    513, 514, 1021, 1022, 1023, 1024, 1025, 1026,
];

// How a String ends: whole, with an escape, broken off, and with a mistake.
static ENDS: [&[u8]; 5] = [b"\"", b"\\\"\"", b"", b"\x01\"", b"\\x\""];

#[test]
fn long_strings_as_by_levels(rt: HostRuntime) -> Result<(), Fail> {
    let alloc = rt.alloc();
    let seed = RandomState::new(&rt)?;
    for (kind, front, back) in &FRAMES {
        for length in &LENGTHS {
            for end in &ENDS {
                let mut text = Vec::new(alloc);
                text.extend_from_slice(front)?;
                text.push(b'"')?;
                for _ in 0..*length {
                    text.push(b'x')?;
                }
                text.extend_from_slice(end)?;
                text.extend_from_slice(back)?;
                let is_same = is_read_the_same(
                    alloc,
                    &seed,
                    Dialect::Rfc9651,
                    *kind,
                    text.as_slice(),
                );
                assert!(&rt; is_same, "{length} {end:?}");
            }
        }
    }
    Ok(())
}

// On both sides of the numbers of characters that are tested at a time, of groups, of the groups that
// are decoded at a time, and of what is found at once.
static CHARACTERS: [usize; 34] = [
    0, 1, 2, 3, 4, 5, 14, 15, 16, 17, 18, 31, 32, 33, 34, 63, 64, 65, 66, 79, 80, 81, 92, 93, 94,
    95, 96, 97, 98, 127, 128, 129, 130, 1030,
];

// How a Byte Sequence ends: whole if its last group needs so many `=`, broken off, and with a mistake.
static CLOSINGS: [&[u8]; 8] = [b":", b"=:", b"==:", b"===:", b"", b"=", b"\"", b"=a:"];

#[test]
fn long_byte_sequences_as_by_levels(rt: HostRuntime) -> Result<(), Fail> {
    let alloc = rt.alloc();
    let seed = RandomState::new(&rt)?;
    for (kind, front, back) in &FRAMES {
        for length in &CHARACTERS {
            for closing in &CLOSINGS {
                let mut text = Vec::new(alloc);
                text.extend_from_slice(front)?;
                text.push(b':')?;
                for index in 0..*length {
                    text.push(b"Zm9vYmFy+/09azAZ"[index % 16])?;
                }
                text.extend_from_slice(closing)?;
                text.extend_from_slice(back)?;
                let is_same = is_read_the_same(
                    alloc,
                    &seed,
                    Dialect::Rfc9651,
                    *kind,
                    text.as_slice(),
                );
                assert!(&rt; is_same, "{length} {closing:?}");
            }
        }
    }
    Ok(())
}

/// Texts of many parts, of each type. Most are longer than the least chunk in which whole parts are
/// looked for.
static LONG: [(Kind, &[u8]); 15] = [
    (
        Kind::List,
        b"%\"a, b %c3%bc, c\";p=\"x, y\\\\, z\", \"d, \\\"e, f\", (\"g, h\" \"i; j\\\\\";q=%\"k; l\" m);\
          r=\"n, o\"",
    ),
    (
        Kind::Dict,
        b"a=\"b, \\\\c, d\";e=\"f, g;\\\\ h\";i, j=(%\"k l\" \"m) n\\\\\" o);p=%\"q; r\", s=\"t, u\", v",
    ),
    (
        Kind::Dict,
        b"sig1=(\"@method\" \"@path\";req tok/a -1.5;p=?0;q  :YQ:);created=1618884473;keyid=\"k\";\
          alg=tok, b;x=1;y=\"z\";w",
    ),
    (
        Kind::Dict,
        b"flag;a=1;b=tok;c=\"s\";d;e=?0;f=1.5;a=2;g=\"t\\\\u\";h=:YQ:, other=?1;p;q=1",
    ),
    (
        Kind::List,
        b"proxy.example.com;fwd=miss;fwd-status=200;stored;detail=\"a b\";x=:YQ:;y=@1;z=%\"f\", b;c",
    ),
    (
        Kind::List,
        b"(a b c;p=1;q=tok  \"s\" 1 2 3 4 5 6 7 8 9 10 11 12 13 14 15 16 17);x=1;y ,( ),(z);p",
    ),
    (
        Kind::List,
        b"(a;p=\"x\\\"y\";q=1;r=tok;s=\"t u\" b;p=1;q=2;r=3;s=4;t=5;u=6;v=7;w=8;x=9;y=10);z=\"\\\\\", c",
    ),
    (
        Kind::Item,
        b"  \"s\";a=1;b=tok;c=\"s\";d;e=?0;f=1.5;a=2;g=:YQ:;h=@1;i=%\"f\";k=\"a\\\"b\";l=2 ",
    ),
    (
        Kind::Dict,
        b"a=:YQ:;p=1;q=\"x\\\"y\", b=\"e\\\\s\";v=1;w, c=@1;d,e=%\"f\";g=?1, h;i=:YQ:;j",
    ),
    (
        Kind::List,
        b"(\"a\\\"b\" :YQ:;p=:Yg==: @1 %\"c\";t=@-2 -1.5;q tok);r=\"s\\\\t\";u, \"v\\\"\";w",
    ),
    (
        Kind::Dict,
        b"a_key_of_more_than_16_bytes=(1 tok);another_key_of_more_bytes=1;c, yet_another_long_key;d=2",
    ),
    (
        Kind::Dict,
        b"a=:cHJldGVuZCB0aGlzIGlzIGJpbmFyeQ:;b=:Zm9vYg=:;c, d=(:Zm9v: :Zg==:;e=:Zm8: f);g=:Zg:, h=::",
    ),
    (
        Kind::List,
        b":Zm9v:,:Zm9vYmE=:;a=:Zg=: , (:Zm9vYmFy:;b :: :Zm8:  c :Zm9vYmFyZm9vYmFy:);d=:Zg==:;e, :Zm8:",
    ),
    (Kind::Item, b" -1.5   "),
    (Kind::Item, b"\"a\\\"b\";c=\"d\\\\\"  "),
];

/// Bytes that are mistakes in most places.
const MISTAKES: [u8; 10] = *b"$\x80=;) \t,x\"";

#[test]
fn a_mistake_at_each_place(rt: HostRuntime) -> Result<(), Fail> {
    let seed = RandomState::new(&rt)?;
    for (kind, text) in &LONG {
        for place in 0..text.len() {
            for mistake in MISTAKES {
                let mut wrong = Vec::new(rt.alloc());
                wrong.extend_from_slice(&text[..place])?;
                wrong.push(mistake)?;
                wrong.extend_from_slice(&text[place..])?;
                for dialect in [Dialect::Rfc9651, Dialect::Rfc8941] {
                    assert!(rt;
                        is_read_the_same(rt.alloc(), &seed, dialect, *kind, wrong.as_slice()),
                        "{wrong:?}"
                    );
                }
            }
        }
    }
    Ok(())
}

#[test]
fn an_end_at_each_place(rt: HostRuntime) -> Result<(), Fail> {
    let seed = RandomState::new(&rt)?;
    for (kind, text) in &LONG {
        for end in 0..=text.len() {
            let short = &text[..end];
            for dialect in [Dialect::Rfc9651, Dialect::Rfc8941] {
                assert!(rt;
                    is_read_the_same(rt.alloc(), &seed, dialect, *kind, short),
                    "{short:?}"
                );
            }
        }
    }
    Ok(())
}

#[test]
fn chunks_of_each_size(rt: HostRuntime) -> Result<(), Fail> {
    let seed = RandomState::new(&rt)?;
    for (kind, text) in &LONG {
        let mut twice = Vec::new(rt.alloc());
        twice.extend_from_slice(text)?;
        twice.extend_from_slice(b",")?;
        twice.extend_from_slice(text)?;
        for dialect in [Dialect::Rfc9651, Dialect::Rfc8941] {
            let bytewise = fed(rt.alloc(), &seed, dialect, *kind, twice.as_slice(), 1);
            for size in 2..twice.len() {
                let chunks = fed(rt.alloc(), &seed, dialect, *kind, twice.as_slice(), size);
                assert!(rt; are_same(&chunks, &bytewise), "{twice:?} by {size}");
            }
        }
    }
    Ok(())
}

// Strings with an escape in each place, alone, after bytes that are not escaped and before them, on
// both sides of the numbers that are tested at a time.
static ESCAPED: [acceptances::Row; 8] = [
    (
        Kind::List,
        b"\"\\\"\",\"\\\\\" , \"\\\"\\\\\"\t,\"\\\\\\\"\\\\\\\"\";a,\"a\\\"\",\"\\\\b\" ,\"c\\\\\
          d\", \"\\\"\\\"\\\"\\\"\"",
        b"\"\\\"\", \"\\\\\", \"\\\"\\\\\", \"\\\\\\\"\\\\\\\"\";a, \"a\\\"\", \"\\\\b\", \"c\\\\\
          d\", \"\\\"\\\"\\\"\\\"\"",
    ),
    (
        Kind::Dict,
        b"a=\"\\\"\",b=\"\\\\x\" ,c=\"y\\\"\";d=\"\\\\\\\\\"\t,a=\"z\\\\\";e=\"\\\"q\";f,g;h=\"\\\\\"\
          ,i=(\"\\\"\" \"b\\\\\" );j=\"c\\\"d\"",
        b"a=\"z\\\\\";e=\"\\\"q\";f, b=\"\\\\x\", c=\"y\\\"\";d=\"\\\\\\\\\", g;h=\"\\\\\", i=\
          (\"\\\"\" \"b\\\\\");j=\"c\\\"d\"",
    ),
    (
        Kind::List,
        b"( \"\\\"\" \"a\\\\b\"  \"\\\\\\\\\";p=\"\\\"\" c \"d\\\"\"),(\"\\\\\"),(\"e\\\"\";q)\
          ,(\"f\\\\g\" h);r=\"\\\"i\";s",
        b"(\"\\\"\" \"a\\\\b\" \"\\\\\\\\\";p=\"\\\"\" c \"d\\\"\"), (\"\\\\\"), (\"e\\\"\";q)\
          , (\"f\\\\g\" h);r=\"\\\"i\";s",
    ),
    (Kind::Item, b"  \"\\\"a\"  ", b"\"\\\"a\""),
    (
        Kind::Item,
        b"\"\\\\\";a=\"\\\"\";b=\"c\\\\d\";a=\"e\\\"\" ",
        b"\"\\\\\";a=\"e\\\"\";b=\"c\\\\d\"",
    ),
    (
        Kind::List,
        b"\"abcdefghijklmno\\\"\", \"abcdefghijklmnop\\\\\", \"abcdefghijklmnopq\\\"x\", \"abc\
          defghijklmnopABCDEFGHIJKLMNO\\\\\\\"\", \"abcdefghijklmnopABCDEFGHIJKLMNOP\\\"\", \"\
          abcdefghijklmnopABCDEFGHIJKLMNOPQ\\\\y\", \"abcdefghijklmnopABCDEFGHIJKLMNOP01234567\
          89-+*/.,;:!?()[]{}<>#%&@\\\"\"",
        b"\"abcdefghijklmno\\\"\", \"abcdefghijklmnop\\\\\", \"abcdefghijklmnopq\\\"x\", \"abc\
          defghijklmnopABCDEFGHIJKLMNO\\\\\\\"\", \"abcdefghijklmnopABCDEFGHIJKLMNOP\\\"\", \"\
          abcdefghijklmnopABCDEFGHIJKLMNOPQ\\\\y\", \"abcdefghijklmnopABCDEFGHIJKLMNOP01234567\
          89-+*/.,;:!?()[]{}<>#%&@\\\"\"",
    ),
    (
        Kind::Dict,
        b"a=\"\\\"abcdefghijklmno\\\\\", b=\"\\\"abcdefghijklmnop\\\\\";c=\"\\\\abcdefghijklmn\
          opq\\\"\", d=(\"\\\\abcdefghijklmnopABCDEFGHIJKLMNO\\\"\" \"\\\"\\\"abcdefghijklmnop\
          ABCDEFGHIJKLMNOP\\\\\\\\\")",
        b"a=\"\\\"abcdefghijklmno\\\\\", b=\"\\\"abcdefghijklmnop\\\\\";c=\"\\\\abcdefghijklmn\
          opq\\\"\", d=(\"\\\\abcdefghijklmnopABCDEFGHIJKLMNO\\\"\" \"\\\"\\\"abcdefghijklmnop\
          ABCDEFGHIJKLMNOP\\\\\\\\\")",
    ),
    (
        Kind::Item,
        b"\"\\\\abcdefghijklmnopABCDEFGHIJKLMNOPQ\\\"\";a=\"\\\"abcdefghijklmnopABCDEFGHIJKLMN\
          OP0123456789-+*/.,;:!?()[]{}<>#%&@\\\\\"",
        b"\"\\\\abcdefghijklmnopABCDEFGHIJKLMNOPQ\\\"\";a=\"\\\"abcdefghijklmnopABCDEFGHIJKLMN\
          OP0123456789-+*/.,;:!?()[]{}<>#%&@\\\\\"",
    ),
];

static BADLY_ESCAPED: [refusals::Row; 25] = [
    // Backslashes before another byte.
    (Kind::Item, b"\"a\\b\"", 3, Some(0x62), "22 5c"),
    (Kind::List, b"\"\\n\", b", 2, Some(0x6e), "22 5c"),
    (
        Kind::Dict,
        b"k=\"0123456789abcdef\\ \"",
        20,
        Some(0x20),
        "22 5c",
    ),
    (Kind::Item, b"a;p=\"\\\\\\x\"", 8, Some(0x78), "22 5c"),
    (Kind::List, b"(b \"c\\\x80\" d)", 6, Some(0x80), "22 5c"),
    (Kind::List, b"(a;p=\"\\\"\\,\")", 9, Some(0x2c), "22 5c"),
    // Backslashes at the end.
    (Kind::Item, b"\"\\", 2, None, "22 5c"),
    (Kind::List, b"a, \"b\\\"c\\", 9, None, "22 5c"),
    (Kind::Dict, b"k=\"\\\\\\", 6, None, "22 5c"),
    (Kind::Item, b"a;p=\"\\", 6, None, "22 5c"),
    (Kind::List, b"(\"\\\"\\", 5, None, "22 5c"),
    // Strings that are broken off after an escape.
    (Kind::Item, b"\"\\\"", 3, None, "20-7e"),
    (Kind::Dict, b"k=\"\\\\", 5, None, "20-7e"),
    (Kind::Item, b"a;p=\"b\\\"", 8, None, "20-7e"),
    (Kind::List, b"(a \"\\\\\\\"", 8, None, "20-7e"),
    (Kind::List, b"a, \"\\\"b, c", 10, None, "20-7e"),
    // Bytes after an escape that no String has.
    (Kind::Item, b"\"\\\"\x01\"", 3, Some(0x01), "20-7e"),
    (Kind::List, b"\"a\\\\\x7f\", b", 4, Some(0x7f), "20-7e"),
    (Kind::Dict, b"k;p=\"\\\"\xc3\xbc\"", 7, Some(0xc3), "20-7e"),
    (
        Kind::List,
        b"(\"0123456789abcde\\\"\t\")",
        19,
        Some(0x09),
        "20-7e",
    ),
    // Bytes after a String.
    (Kind::Item, b"\"\\\"\"x", 4, Some(0x78), "20 3b end"),
    (Kind::List, b"\"\\\\\"$", 4, Some(0x24), "09 20 2c 3b end"),
    (Kind::List, b"(\"\\\"\"$)", 5, Some(0x24), "20 29 3b"),
    (Kind::Dict, b"k=\"\\\\\"=", 6, Some(0x3d), "09 20 2c 3b end"),
    (Kind::Item, b"a;p=\"\\\"\",", 8, Some(0x2c), "20 3b end"),
];

#[test]
fn escapes_accepted(rt: HostRuntime) -> Result<(), Fail> {
    let seed = RandomState::new(&rt)?;
    acceptances::check_rows(&rt, rt.alloc(), &seed, &ESCAPED)
}

#[test]
fn escapes_refused(rt: HostRuntime) -> Result<(), Fail> {
    let seed = RandomState::new(&rt)?;
    refusals::check_rows(&rt, rt.alloc(), &seed, &BADLY_ESCAPED)
}

/// Expects the text to be read in chunks as it is byte by byte: in chunks of two bytes, and of each size
/// that is a multiple of the step above.
fn check_chunks(
    rt: &(impl Abort + AllocGlobal),
    seed: &RandomState,
    kind: Kind,
    text: &[u8],
    step: usize,
) -> Result<(), Fail> {
    let dialect = Dialect::Rfc9651;
    let bytewise = fed(rt.alloc(), seed, dialect, kind, text, 1);
    for size in (2..text.len()).step_by(step.max(1)) {
        let chunks = fed(rt.alloc(), seed, dialect, kind, text, size);
        assert!(rt; are_same(&chunks, &bytewise), "{text:?} by {size}");
    }
    Ok(())
}

#[test]
fn escapes_in_chunks_of_each_size(rt: HostRuntime) -> Result<(), Fail> {
    let seed = RandomState::new(&rt)?;
    for (kind, text, _) in &ESCAPED {
        check_chunks(&rt, &seed, *kind, text, 1)?;
    }
    Ok(())
}

#[test]
fn escapes_cut_off_at_each_place(rt: HostRuntime) -> Result<(), Fail> {
    let seed = RandomState::new(&rt)?;
    for (kind, text, _) in &ESCAPED {
        for end in 0..text.len() {
            let short = &text[..end];
            assert!(&rt;
                is_read_the_same(rt.alloc(), &seed, Dialect::Rfc9651, *kind, short),
                "{short:?}"
            );
        }
    }
    Ok(())
}

// On both sides of the numbers of bytes that are tested at a time, and of 512.
static BEFORE: [usize; 19] = [
    0, 1, 14, 15, 16, 17, 30, 31, 32, 33, 63, 64, 65, 96, 510, 511, 512, 513, 2000,
];

// What is after so many bytes of a String: escapes, bytes after an escape, and each mistake.
static AFTER_MEMBERS: [&[u8]; 16] = [
    b"\"",
    b"\\\"\"",
    b"\\\\\"",
    b"\\\"\\\\\"",
    b"\\\\y\"",
    b"\\\"zzzzzzzzzzzzzzz\\\"\"",
    b"\\\"zzzzzzzzzzzzzzzz\\\\\"",
    b"\\\"zzzzzzzzzzzzzzzzz\"",
    b"\\\"\\\"\\\"\\\"\\\"\\\"\\\"\\\"\\\"\\\"\\\"\\\"\\\"\\\"\\\"\\\"\\\"\"",
    b"\\",
    b"\\\"",
    b"\\\"\\",
    b"\\x\"",
    b"\\\\\\ \"",
    b"\\\"\x01\"",
    b"\\\"\x80\"",
];

/// A String of a frame, of so many bytes and an end.
fn framed(
    alloc: Global,
    front: &[u8],
    length: usize,
    end: &[u8],
    back: &[u8],
) -> Result<Vec<u8>, Fail> {
    let mut text = Vec::new(alloc);
    text.extend_from_slice(front)?;
    text.push(b'"')?;
    for _ in 0..length {
        text.push(b'x')?;
    }
    text.extend_from_slice(end)?;
    text.extend_from_slice(back)?;
    Ok(text)
}

#[test]
fn escapes_as_by_levels(rt: HostRuntime) -> Result<(), Fail> {
    let seed = RandomState::new(&rt)?;
    for (kind, front, back) in &FRAMES {
        for length in &BEFORE {
            for end in &AFTER_MEMBERS {
                let text = framed(rt.alloc(), front, *length, end, back)?;
                let text = text.as_slice();
                for dialect in [Dialect::Rfc9651, Dialect::Rfc8941] {
                    assert!(&rt;
                        is_read_the_same(rt.alloc(), &seed, dialect, *kind, text),
                        "{length} {end:?}"
                    );
                }
            }
        }
    }
    Ok(())
}

#[test]
fn long_strings_in_chunks(rt: HostRuntime) -> Result<(), Fail> {
    let seed = RandomState::new(&rt)?;
    for (kind, front, back) in &FRAMES {
        for (length, step) in [(511, 5), (512, 5), (513, 5), (2000, 31)] {
            for end in &AFTER_MEMBERS[..4] {
                let text = framed(rt.alloc(), front, length, end, back)?;
                check_chunks(&rt, &seed, *kind, text.as_slice(), step)?;
            }
        }
    }
    Ok(())
}
