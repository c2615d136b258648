//! Texts, chunks and lines.
use http_header::{HeaderMap, HeaderName, HeaderValue};
use sf_field::{from_headers, normalise_lines, parse_from, parse_lines};
use sf_parse::{Parser, Refusal, parse_reader, parse_text, runs_of};
use sf_value::{Blob, Dialect, Kind, Reading};
use sf_write::to_text;
use std::hash::RandomState;
use std::test::Fail;

#[test]
fn a_text(rt: HostRuntime) -> Result<(), Fail> {
    let alloc = rt.alloc();
    let seed = RandomState::new(&rt)?;
    let field = parse_text(alloc, &seed, Kind::Dict, b"u=1,  i=?1")?;
    let text = to_text(alloc, &field)?;
    assert_eq!(&rt; text.as_slice(), b"u=1, i".as_slice());
    Ok(())
}

#[test]
fn pieces(rt: HostRuntime) -> Result<(), Fail> {
    let alloc = rt.alloc();
    let seed = RandomState::new(&rt)?;
    let mut parser = Parser::new(alloc, &seed, Kind::Item, u64::MAX);
    parser.feed(b"%\"f%c3")?;
    parser.feed(b"%bc\"")?;
    let field = parser.finish()?;
    assert_eq!(&rt;
        to_text(alloc, &field)?.as_slice(),
        b"%\"f%c3%bc\"".as_slice()
    );
    Ok(())
}

#[test]
fn a_reader(rt: HostRuntime) -> Result<(), Fail> {
    let alloc = rt.alloc();
    let seed = RandomState::new(&rt)?;
    let mut source = Reading::new(b"u=1, i".as_slice());
    let field = parse_reader(alloc, &seed, Kind::Dict, 1000, &mut source)?;
    assert_eq!(&rt; to_text(alloc, &field)?.as_slice(), b"u=1, i".as_slice());
    Ok(())
}

#[test]
fn lines_of_a_field(rt: HostRuntime) -> Result<(), Fail> {
    let alloc = rt.alloc();
    let seed = RandomState::new(&rt)?;
    let lines = [
        Blob::new(alloc, b"a;q=1.0,b")?,
        Blob::new(alloc, b"(c  d)")?,
    ];
    let field = parse_lines(alloc, &seed, Kind::List, &lines)?;
    assert_eq!(&rt;
        to_text(alloc, &field)?.as_slice(),
        b"a;q=1.0, b, (c d)".as_slice()
    );
    let lines: [&[u8]; 2] = [b"a;q=1.0,b", b"(c  d)"];
    let same = parse_from(alloc, &seed, Dialect::Rfc9651, Kind::List, lines.iter())?;
    assert!(&rt; same == field);
    Ok(())
}

#[test]
fn lines(rt: HostRuntime) -> Result<(), Fail> {
    let alloc = rt.alloc();
    let seed = RandomState::new(&rt)?;
    let lines = [
        Blob::new(alloc, b"a;q=1.0,b")?,
        Blob::new(alloc, b"(c  d)")?,
    ];
    let text = normalise_lines(alloc, &seed, Kind::List, &lines)?;
    assert_eq!(&rt; text.as_slice(), b"a;q=1.0, b, (c d)".as_slice());
    Ok(())
}

#[test]
fn headers(rt: HostRuntime) -> Result<(), Fail> {
    let alloc = rt.alloc();
    let seed = RandomState::new(&rt)?;
    let priority = HeaderName::from_static("priority");
    let mut headers = HeaderMap::new(alloc);
    headers.append(
        HeaderName::from_static("priority"),
        HeaderValue::from_static("u=1"),
    )?;
    headers.append(
        HeaderName::from_static("priority"),
        HeaderValue::from_static("i"),
    )?;
    let field = from_headers(alloc, &seed, Kind::Dict, &headers, &priority)?;
    let text = match field {
        Some(field) => to_text(alloc, &field)?,
        None => Vec::new(alloc),
    };
    assert_eq!(&rt; text.as_slice(), b"u=1, i".as_slice());
    Ok(())
}

#[test]
fn a_refusal(rt: HostRuntime) -> Result<(), Fail> {
    let alloc = rt.alloc();
    let seed = RandomState::new(&rt)?;
    let wanted = Refusal::Syntax {
        place: 2,
        found: Some(b'2'),
        expected: 1 << 32, // a space alone
        may_end: true,
    };
    if let Err(refusal) = parse_text(alloc, &seed, Kind::Item, b"1 2") {
        assert_eq!(&rt; refusal, wanted);
        let words = refusal.to_string(alloc)?;
        assert_eq!(&rt;
            words.as_str(),
            "byte 0x32 '2' at place 2, expected a space or the end"
        );
        return Ok(());
    }
    Err(Fail::from("accepted"))
}

#[test]
fn a_refusal_in_its_line(rt: HostRuntime) -> Result<(), Fail> {
    let alloc = rt.alloc();
    let seed = RandomState::new(&rt)?;
    let lines = [Blob::new(alloc, b"a")?, Blob::new(alloc, b"b c")?];
    if let Err(refusal) = parse_lines(alloc, &seed, Kind::List, &lines) {
        let shown = refusal.in_lines(&lines).to_string(alloc)?;
        assert_eq!(&rt;
            shown.as_str(),
            "byte 0x63 'c' at place 5, expected `,`, a tab, a space or the end\n\
             line 2, place 2:\nb c\n  ^"
        );
        return Ok(());
    }
    Err(Fail::from("accepted"))
}

#[test]
fn the_bytes_that_could_have_followed(rt: HostRuntime) -> Result<(), Fail> {
    let alloc = rt.alloc();
    let seed = RandomState::new(&rt)?;
    // The rest of a token, a space, `)` or `;`.
    let wanted = [
        (b' ', b'!'),
        (b'#', b'\''),
        (b')', b'+'),
        (b'-', b';'),
        (b'A', b'Z'),
        (b'^', b'z'),
        (b'|', b'|'),
        (b'~', b'~'),
    ];
    if let Err(Refusal::Syntax { expected, .. }) = parse_text(alloc, &seed, Kind::List, b"(a") {
        let mut count = 0;
        for run in runs_of(expected) {
            assert_eq!(&rt; wanted.get(count), Some(&run));
            count += 1;
        }
        assert_eq!(&rt; count, wanted.len());
        return Ok(());
    }
    Err(Fail::from("not refused for the text"))
}
