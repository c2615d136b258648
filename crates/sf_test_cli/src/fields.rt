//! `show`, `check` and `normalise`.
use crate::rows::{ACCEPTED, REFUSED, Row, expect_long, expect_rows, run_unseen};
use sf_test_io::{Paced, Tally};
use sf_tool::Request;
use sf_value::{Dialect, Kind};
use std::alloc::{AllocError, Global};
use std::hash::RandomState;
use std::test::Fail;

#[test]
fn normalises(rt: HostRuntime) -> Result<(), Fail> {
    let seed = RandomState::new(&rt)?;
    let items: [Row; 15] = [
        (b" -0 \n", b"0\n", ACCEPTED),
        (b"007", b"7\n", ACCEPTED),
        (b"a/b:c\n", b"a/b:c\n", ACCEPTED),
        (b"1\r\n", b"1\n", ACCEPTED),
        (b"\t1 \t\r\n", b"1\n", ACCEPTED),
        (b":iZ==:", b":iQ==:\n", ACCEPTED),
        (b"@1", b"@1\n", ACCEPTED),
        (
            b"",
            b"refused at 0 ended expected 20 22 25 2a 2d 30-3a 3f-5a 61-7a\n",
            REFUSED,
        ),
        (b"-", b"refused at 1 ended expected 30-39\n", REFUSED),
        (b"?2", b"refused at 1 found 0x32 expected 30-31\n", REFUSED),
        (
            b"9999999999999999",
            b"refused at 15 found 0x39 expected 20 3b end\n",
            REFUSED,
        ),
        (
            b"1\n2\n",
            b"refused at 1 found 0x2c expected 20 2e 30-39 3b end\n",
            REFUSED,
        ),
        (
            b"1 2",
            b"refused at 2 found 0x32 expected 20 end\n",
            REFUSED,
        ),
        (
            b"a\r",
            b"refused at 1 found 0x0d expected 20-21 23-27 2a-2b 2d-3b 41-5a 5e-7a 7c 7e end\n",
            REFUSED,
        ),
        (
            b"\"\xc3\"",
            b"refused at 1 found 0xc3 expected 20-7e\n",
            REFUSED,
        ),
    ];
    let request = Request::Normalise(Dialect::Rfc9651, Kind::Item);
    expect_rows(&rt, &seed, &request, &items);
    Ok(())
}

#[test]
fn normalises_lines(rt: HostRuntime) -> Result<(), Fail> {
    let seed = RandomState::new(&rt)?;
    let lists: [Row; 9] = [
        (b"a\r\n\tb \r\n", b"a, b\n", ACCEPTED),
        (b"", b"\n", ACCEPTED),
        (b"\"a\nb\"", b"\"a, b\"\n", ACCEPTED),
        (b":YQ:,:YQ:", b":YQ==:, :YQ==:\n", ACCEPTED),
        (
            b"a\n\n",
            b"refused at 3 ended expected 09 20 22 25 28 2a 2d 30-3a 3f-5a 61-7a\n",
            REFUSED,
        ),
        (
            b"a\n ",
            b"refused at 3 ended expected 09 20 22 25 28 2a 2d 30-3a 3f-5a 61-7a\n",
            REFUSED,
        ),
        (
            b"a\r",
            b"refused at 1 found 0x0d expected 09 20-21 23-27 2a-3b 41-5a 5e-7a 7c 7e end\n",
            REFUSED,
        ),
        (
            b"a\r\r\n",
            b"refused at 1 found 0x0d expected 09 20-21 23-27 2a-3b 41-5a 5e-7a 7c 7e end\n",
            REFUSED,
        ),
        (
            b"a\r \n",
            b"refused at 1 found 0x0d expected 09 20-21 23-27 2a-3b 41-5a 5e-7a 7c 7e end\n",
            REFUSED,
        ),
    ];
    let request = Request::Normalise(Dialect::Rfc9651, Kind::List);
    expect_rows(&rt, &seed, &request, &lists);
    let dicts: [Row; 2] = [
        (
            b"a=1,b;x, a=(1  2 );y=:YQ:\n",
            b"a=(1 2);y=:YQ==:, b;x\n",
            ACCEPTED,
        ),
        (b"", b"\n", ACCEPTED),
    ];
    let request = Request::Normalise(Dialect::Rfc9651, Kind::Dict);
    expect_rows(&rt, &seed, &request, &dicts);
    Ok(())
}

#[test]
fn checks(rt: HostRuntime) -> Result<(), Fail> {
    let seed = RandomState::new(&rt)?;
    let items: [Row; 3] = [
        (b"1", b"accepted\n", ACCEPTED),
        (b"@1", b"accepted\n", ACCEPTED),
        (
            b"1 2",
            b"refused at 2 found 0x32 expected 20 end\n",
            REFUSED,
        ),
    ];
    let request = Request::Check(Dialect::Rfc9651, Kind::Item);
    expect_rows(&rt, &seed, &request, &items);
    let old_items: [Row; 2] = [
        (b"1", b"accepted\n", ACCEPTED),
        (
            b"@1",
            b"refused at 0 found 0x40 expected 20 22 2a 2d 30-3a 3f 41-5a 61-7a\n",
            REFUSED,
        ),
    ];
    let request = Request::Check(Dialect::Rfc8941, Kind::Item);
    expect_rows(&rt, &seed, &request, &old_items);
    let old_lists: [Row; 1] = [(b"a\nb\n", b"a, b\n", ACCEPTED)];
    let request = Request::Normalise(Dialect::Rfc8941, Kind::List);
    expect_rows(&rt, &seed, &request, &old_lists);
    Ok(())
}

#[test]
fn checks_lines(rt: HostRuntime) -> Result<(), Fail> {
    let seed = RandomState::new(&rt)?;
    let lists: [Row; 14] = [
        (b"a;q=1 , (b c)\n", b"accepted\n", ACCEPTED),
        (b"a\r\n\tb;x \r\n(c d)", b"accepted\n", ACCEPTED),
        (b"", b"accepted\n", ACCEPTED),
        (b" \t\r\n", b"accepted\n", ACCEPTED),
        // A String that spans two lines.
        (b"\"a\nb\"", b"accepted\n", ACCEPTED),
        (b"x\n\"a\nb\"\ny", b"accepted\n", ACCEPTED),
        (
            b"(1\n2)",
            b"refused at 2 found 0x2c expected 20 29 2e 30-39 3b\n",
            REFUSED,
        ),
        (
            b"\n\n",
            b"refused at 0 found 0x2c expected 20 22 25 28 2a 2d 30-3a 3f-5a 61-7a end\n",
            REFUSED,
        ),
        (
            b"a\n\nb\n",
            b"refused at 3 found 0x2c expected 09 20 22 25 28 2a 2d 30-3a 3f-5a 61-7a\n",
            REFUSED,
        ),
        (
            b"a\nb,\n",
            b"refused at 5 ended expected 09 20 22 25 28 2a 2d 30-3a 3f-5a 61-7a\n",
            REFUSED,
        ),
        (
            b")\na\nb\n",
            b"refused at 0 found 0x29 expected 20 22 25 28 2a 2d 30-3a 3f-5a 61-7a end\n",
            REFUSED,
        ),
        (
            b"a\nb\nc\nd\n1x",
            b"refused at 13 found 0x78 expected 09 20 2c 2e 30-39 3b end\n",
            REFUSED,
        ),
        // More than 128 bytes, in lines and in one.
        (
            b"\"aaaaaaaaaaaaaaaaaaaaaaaaaaaaaaaaaaaaaa\"\n\"bbbbbbbbbbbbbbbbbbbbbbbbbbbbbbbbbbbbbb\"\n\
              \"cccccccccccccccccccccccccccccccccccccc\"\nd\n1x",
            b"refused at 130 found 0x78 expected 09 20 2c 2e 30-39 3b end\n",
            REFUSED,
        ),
        (
            b"\"aaaaaaaaaaaaaaaaaaaaaaaaaaaaaaaaaaaaaa\", \"bbbbbbbbbbbbbbbbbbbbbbbbbbbbbbbbbbbbbb\", \
              \"cccccccccccccccccccccccccccccccccccccc\", d, 1x",
            b"refused at 130 found 0x78 expected 09 20 2c 2e 30-39 3b end\n",
            REFUSED,
        ),
    ];
    let request = Request::Check(Dialect::Rfc9651, Kind::List);
    expect_rows(&rt, &seed, &request, &lists);
    let items: [Row; 2] = [
        (b"1;a\r\n", b"accepted\n", ACCEPTED),
        (
            b"1\n\n",
            b"refused at 1 found 0x2c expected 20 2e 30-39 3b end\n",
            REFUSED,
        ),
    ];
    let request = Request::Check(Dialect::Rfc9651, Kind::Item);
    expect_rows(&rt, &seed, &request, &items);
    Ok(())
}

/// Lines after members, which `check` and `normalise` read one by one: a mistake in a later line, and
/// Strings that span lines.
#[test]
fn lines_after_members(rt: HostRuntime) -> Result<(), Fail> {
    let seed = RandomState::new(&rt)?;
    let refused_lists: [Row; 7] = [
        (
            b"a\nb\n=\nc\nd\n",
            b"refused at 6 found 0x3d expected 09 20 22 25 28 2a 2d 30-3a 3f-5a 61-7a\n",
            REFUSED,
        ),
        (
            b"\"a\"\r\n =\r\n\r\n\r\n",
            b"refused at 5 found 0x3d expected 09 20 22 25 28 2a 2d 30-3a 3f-5a 61-7a\n",
            REFUSED,
        ),
        // The mistake is after a String that spans two lines.
        (
            b"a\n\"b\nc\"\n=\nd\n",
            b"refused at 11 found 0x3d expected 09 20 22 25 28 2a 2d 30-3a 3f-5a 61-7a\n",
            REFUSED,
        ),
        (
            b"a\nb;\nc\n",
            b"refused at 5 found 0x2c expected 20 2a 61-7a\n",
            REFUSED,
        ),
        (
            b"a\nb\nc;",
            b"refused at 8 ended expected 20 2a 61-7a\n",
            REFUSED,
        ),
        (
            b"a\n(b\nc)\n",
            b"refused at 5 found 0x2c expected 20-21 23-27 29-2b 2d-3b 41-5a 5e-7a 7c 7e\n",
            REFUSED,
        ),
        (
            b"a\n\"b\nc\n",
            b"refused at 8 ended expected 20-7e\n",
            REFUSED,
        ),
    ];
    let accepted_lists: [Row; 2] = [
        (
            b"b\n\"x\ny\"\na;q=1.50",
            b"b, \"x, y\", a;q=1.5\n",
            ACCEPTED,
        ),
        (b"a\n(b  c)\n\"\n\"\n", b"a, (b c), \", \"\n", ACCEPTED),
    ];
    let check = Request::Check(Dialect::Rfc9651, Kind::List);
    let normalise = Request::Normalise(Dialect::Rfc9651, Kind::List);
    expect_rows(&rt, &seed, &check, &refused_lists);
    expect_rows(&rt, &seed, &normalise, &refused_lists);
    expect_rows(&rt, &seed, &normalise, &accepted_lists);
    let refused_dicts: [Row; 2] = [
        (
            b"a=1\nb\n1\nc\n",
            b"refused at 8 found 0x31 expected 09 20 2a 61-7a\n",
            REFUSED,
        ),
        (
            b"a\nb=\n",
            b"refused at 5 ended expected 22 25 28 2a 2d 30-3a 3f-5a 61-7a\n",
            REFUSED,
        ),
    ];
    let accepted_dicts: [Row; 2] = [
        (b"a=1\nb=\"x\ny\"\na=2", b"a=2, b=\"x, y\"\n", ACCEPTED),
        (
            b"c\nb=\"x\ny\";p;q;p=?0\na",
            b"c, b=\"x, y\";p=?0;q, a\n",
            ACCEPTED,
        ),
    ];
    let check = Request::Check(Dialect::Rfc9651, Kind::Dict);
    let normalise = Request::Normalise(Dialect::Rfc9651, Kind::Dict);
    expect_rows(&rt, &seed, &check, &refused_dicts);
    expect_rows(&rt, &seed, &normalise, &refused_dicts);
    expect_rows(&rt, &seed, &normalise, &accepted_dicts);
    Ok(())
}

/// Four long lines that are accepted, a line that is refused, and 786,400 empty lines.
fn lines_after_a_mistake(alloc: Global) -> Result<Vec<u8>, AllocError> {
    let mut bytes = Vec::new(alloc);
    for _ in 0..4u32 {
        bytes.push(b'"')?;
        let spaces = spaces(alloc, 65_535)?;
        bytes.extend_from_slice(spaces.as_slice())?;
        bytes.extend_from_slice(b"\"\n")?;
    }
    bytes.extend_from_slice(b"=\n")?;
    for _ in 0..786_400u32 {
        bytes.push(b'\n')?;
    }
    Ok(bytes)
}

#[test]
fn many_lines_after_a_mistake(rt: HostRuntime) -> Result<(), Fail> {
    let seed = RandomState::new(&rt)?;
    let input = lines_after_a_mistake(rt.alloc())?;
    assert_eq!(&rt; input.len(), 1_048_554);
    let text = b"refused at 262156 found 0x3d expected 09 20 22 25 28 2a 2d 30-3a 3f-5a 61-7a\n";
    for request in [
        Request::Check(Dialect::Rfc9651, Kind::List),
        Request::Normalise(Dialect::Rfc9651, Kind::List),
        Request::Show(Dialect::Rfc9651, Kind::List),
    ] {
        expect_long(&rt, &seed, &request, input.as_slice(), text, REFUSED);
    }
    let mut blanks = spaces(rt.alloc(), 1_048_500)?;
    blanks.insert(0, b'\n')?;
    blanks.insert(0, b'=')?;
    let text = b"refused at 0 found 0x3d expected 20 22 25 2a 2d 30-3a 3f-5a 61-7a\n";
    let show = Request::Show(Dialect::Rfc9651, Kind::Item);
    expect_long(&rt, &seed, &show, blanks.as_slice(), text, REFUSED);
    Ok(())
}

#[test]
fn repeated_keys(rt: HostRuntime) -> Result<(), Fail> {
    let seed = RandomState::new(&rt)?;
    let checked: [Row; 2] = [
        (b"a=1, b;x, a=2\n", b"accepted\n", ACCEPTED),
        (b"a=1\nb;x\na=2\n", b"accepted\n", ACCEPTED),
    ];
    let request = Request::Check(Dialect::Rfc9651, Kind::Dict);
    expect_rows(&rt, &seed, &request, &checked);
    let normalised: [Row; 5] = [
        (b"a=1,b;x,a=2\n", b"a=2, b;x\n", ACCEPTED),
        (b"a=1\nb;x\na=2\n", b"a=2, b;x\n", ACCEPTED),
        (b"a=1\nb;x;y=?0;x=2\n", b"a=1, b;x=2;y=?0\n", ACCEPTED),
        (
            b"a=1\na=",
            b"refused at 7 ended expected 22 25 28 2a 2d 30-3a 3f-5a 61-7a\n",
            REFUSED,
        ),
        (
            b"A=1\na=1",
            b"refused at 0 found 0x41 expected 20 2a 61-7a end\n",
            REFUSED,
        ),
    ];
    let request = Request::Normalise(Dialect::Rfc9651, Kind::Dict);
    expect_rows(&rt, &seed, &request, &normalised);
    Ok(())
}

#[test]
fn shows(rt: HostRuntime) -> Result<(), Fail> {
    let seed = RandomState::new(&rt)?;
    let dicts: [Row; 2] = [
        (
            b"a=1,b;x, a=(1  2 );y=:YQ:",
            b"dict 2\n  a = inner 2\n    integer 1\n    integer 2\n    ; y bytes :YQ==:\n  \
              b = boolean ?1\n    ; x boolean ?1\n",
            ACCEPTED,
        ),
        (
            b"a=",
            b"refused at 2 ended expected 22 25 28 2a 2d 30-3a 3f-5a 61-7a\n",
            REFUSED,
        ),
    ];
    let request = Request::Show(Dialect::Rfc9651, Kind::Dict);
    expect_rows(&rt, &seed, &request, &dicts);
    let items: [Row; 1] = [(
        b"5;q=0.5",
        b"item\n  integer 5\n    ; q decimal 0.5\n",
        ACCEPTED,
    )];
    let request = Request::Show(Dialect::Rfc9651, Kind::Item);
    expect_rows(&rt, &seed, &request, &items);
    let lists: [Row; 2] = [
        (b"", b"list 0\n", ACCEPTED),
        (
            b"\"s\", (tok;p @1);r=%\"f%c3%bc\", ?0",
            b"list 3\n  string \"s\"\n  inner 2\n    token tok\n      ; p boolean ?1\n    date @1\n    \
              ; r display %\"f%c3%bc\"\n  boolean ?0\n",
            ACCEPTED,
        ),
    ];
    let request = Request::Show(Dialect::Rfc9651, Kind::List);
    expect_rows(&rt, &seed, &request, &lists);
    Ok(())
}

fn spaces(alloc: Global, count: u64) -> Result<Vec<u8>, AllocError> {
    let mut bytes = Vec::new(alloc);
    for _ in 0..count {
        bytes.push(b' ')?;
    }
    Ok(bytes)
}

#[test]
fn long_inputs(rt: HostRuntime) -> Result<(), Fail> {
    let seed = RandomState::new(&rt)?;
    let longest = spaces(rt.alloc(), 1_048_576)?;
    let longer = spaces(rt.alloc(), 1_048_577)?;
    let item = Request::Normalise(Dialect::Rfc9651, Kind::Item);
    let ended = b"refused at 0 ended expected 20 22 25 2a 2d 30-3a 3f-5a 61-7a\n";
    expect_long(&rt, &seed, &item, longest.as_slice(), ended, REFUSED);
    let list = Request::Normalise(Dialect::Rfc9651, Kind::List);
    expect_long(&rt, &seed, &list, longest.as_slice(), b"\n", ACCEPTED);
    let too_long = b"refused too long 1048576\n";
    expect_long(&rt, &seed, &item, longer.as_slice(), too_long, REFUSED);
    expect_long(&rt, &seed, &list, longer.as_slice(), too_long, REFUSED);
    Ok(())
}

/// 1,001 tokens, and spaces before the last one: 1,048,575 bytes.
fn members(alloc: Global) -> Result<Vec<u8>, AllocError> {
    let mut bytes = Vec::new(alloc);
    for _ in 0..1_000u32 {
        bytes.extend_from_slice(b"a,")?;
    }
    let spaces = spaces(alloc, 1_046_574)?;
    bytes.extend_from_slice(spaces.as_slice())?;
    bytes.push(b'a')?;
    Ok(bytes)
}

#[test]
fn few_calls(rt: HostRuntime) -> Result<(), Fail> {
    let seed = RandomState::new(&rt)?;
    let input = members(rt.alloc())?;
    assert_eq!(&rt; input.len(), 1_048_575);
    for (request, written) in [
        (Request::Check(Dialect::Rfc9651, Kind::List), 9),
        (Request::Normalise(Dialect::Rfc9651, Kind::List), 3_002),
        (Request::Show(Dialect::Rfc9651, Kind::List), 10_020),
    ] {
        let mut source = Paced::new(input.as_slice(), 1_048_576, 0, 0);
        let mut sink = Tally::new(rt.alloc());
        let answer = run_unseen(&rt, &seed, &request, &mut source, &mut sink);
        assert_eq!(&rt; answer, ACCEPTED);
        assert_eq!(&rt; sink.taken.len(), written);
        assert_eq!(&rt; sink.calls, 1);
        assert_eq!(&rt; source.calls, 5);
    }
    Ok(())
}

/// 13,000 members of a Dictionary: `aaaa`, `aaab` and so on, each after this text.
fn entries(alloc: Global, between: &[u8]) -> Result<Vec<u8>, AllocError> {
    let mut bytes = Vec::new(alloc);
    for n in 0..13_000u32 {
        if n > 0 {
            bytes.extend_from_slice(between)?;
        }
        for place in [17_576, 676, 26, 1] {
            bytes.push(b'a' + (n / place % 26) as u8)?;
        }
    }
    Ok(bytes)
}

/// More keys than a scan compares, and more lines than are on any stack.
#[test]
fn many_keys(rt: HostRuntime) -> Result<(), Fail> {
    let alloc = rt.alloc();
    let seed = RandomState::new(&rt)?;
    let check = Request::Check(Dialect::Rfc9651, Kind::Dict);
    let dict = Request::Normalise(Dialect::Rfc9651, Kind::Dict);
    let list = Request::Normalise(Dialect::Rfc9651, Kind::List);
    let mut normal = entries(alloc, b", ")?;
    normal.push(b'\n')?;
    for between in [b",".as_slice(), b"\n", b"\t,  ", b" \r\n\t"] {
        let input = entries(alloc, between)?;
        expect_long(
            &rt,
            &seed,
            &check,
            input.as_slice(),
            b"accepted\n",
            ACCEPTED,
        );
        expect_long(
            &rt,
            &seed,
            &dict,
            input.as_slice(),
            normal.as_slice(),
            ACCEPTED,
        );
        expect_long(
            &rt,
            &seed,
            &list,
            input.as_slice(),
            normal.as_slice(),
            ACCEPTED,
        );
    }
    let mut refused = entries(alloc, b"\n")?;
    refused.extend_from_slice(b"\n1")?;
    let text = b"refused at 78000 found 0x31 expected 09 20 2a 61-7a\n";
    expect_long(&rt, &seed, &check, refused.as_slice(), text, REFUSED);
    expect_long(&rt, &seed, &dict, refused.as_slice(), text, REFUSED);
    Ok(())
}
