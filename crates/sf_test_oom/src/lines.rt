// Field lines and header maps.
use crate::expecting::{
    LISTED, expect_no_need, expect_refusals, padded_number, seen_field, seen_if, seen_minus_seven,
};
use http_header::{HeaderMap, HeaderName, HeaderValue};
use sf_field::{from_headers, normalise_lines, parse_lines};
use sf_parse::{Refusal, parse_text};
use sf_test_alloc::Seen;
use sf_value::{Blob, Field, Kind};
use std::alloc::Global;
use std::hash::RandomState;
use std::test::Fail;

/// The lines of `LISTED`, none of them in its canonical form.
const LINES: [&[u8]; 3] = [
    b"( 1  \"x y\";p *t );y=:YQ:",
    b"b;x=?1 ,\"c\"",
    b"%\"f%c3%bc\" , ( )",
];

fn lines_of(alloc: Global) -> Result<Vec<Blob>, Fail> {
    let mut blobs = Vec::new(alloc);
    for line in LINES {
        blobs.push(Blob::new(alloc, line)?)?;
    }
    Ok(blobs)
}

fn seen_text(answer: Result<Vec<u8>, Refusal>, want: &[u8]) -> Seen {
    match answer {
        Ok(text) => seen_if(text.as_slice() == want),
        Err(Refusal::OutOfMemory) => Seen::Refused,
        Err(_) => Seen::Wrong,
    }
}

#[test]
fn lines(rt: HostRuntime) -> Result<(), Fail> {
    let alloc = rt.alloc();
    let seed = RandomState::new(&rt)?;
    let want = parse_text(alloc, &seed, Kind::List, LISTED)?;
    let lines = lines_of(alloc)?;
    expect_refusals(&rt, || {
        seen_field(
            parse_lines(alloc, &seed, Kind::List, lines.as_slice()),
            &want,
        )
    });
    expect_refusals(&rt, || {
        seen_text(
            normalise_lines(alloc, &seed, Kind::List, lines.as_slice()),
            LISTED,
        )
    });
    Ok(())
}

#[test]
fn numbers_take_none(rt: HostRuntime) -> Result<(), Fail> {
    let alloc = rt.alloc();
    let seed = RandomState::new(&rt)?;
    let line = Blob::new(alloc, padded_number(alloc)?.as_slice())?;
    let lines = vec![in alloc; line]?;
    expect_no_need(&rt, || {
        seen_minus_seven(parse_lines(alloc, &seed, Kind::Item, lines.as_slice()))
    });
    Ok(())
}

/// The lines as the values of `accept-x`, after another name.
fn headers_of(alloc: Global) -> Result<HeaderMap, Fail> {
    let mut headers = HeaderMap::new(alloc);
    headers.append(
        HeaderName::from_static("server"),
        HeaderValue::from_static("x"),
    )?;
    for line in LINES {
        headers.append(
            HeaderName::from_static("accept-x"),
            HeaderValue::from_bytes(alloc, line)?,
        )?;
    }
    Ok(headers)
}

fn seen_under(alloc: Global, seed: &RandomState, headers: &HeaderMap, want: &Field) -> Seen {
    let name = HeaderName::from_static("accept-x");
    match from_headers(alloc, seed, Kind::List, headers, &name) {
        Ok(Some(field)) => seen_field(Ok(field), want),
        Ok(None) => Seen::Wrong,
        Err(refusal) => seen_field(Err(refusal), want),
    }
}

#[test]
fn header_maps(rt: HostRuntime) -> Result<(), Fail> {
    let alloc = rt.alloc();
    let seed = RandomState::new(&rt)?;
    let want = parse_text(alloc, &seed, Kind::List, LISTED)?;
    let headers = headers_of(alloc)?;
    expect_refusals(&rt, || seen_under(alloc, &seed, &headers, &want));
    Ok(())
}
