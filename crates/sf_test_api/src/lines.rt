//! Lines and header maps with their results.
use crate::building::seed;
use http_header::{HeaderMap, HeaderName, HeaderValue};
use sf_field::{
    SetFault, from_headers, header_value, normalise_lines, parse_dict_lines, parse_item_lines,
    parse_lines, parse_lines_in, parse_list_lines, set_field,
};
use sf_parse::{Parser, Refusal, parse_dict, parse_item, parse_list, parse_text};
use sf_value::{Blob, Dialect, Dict, Field, Item, Kind, List};
use sf_write::to_text;
use std::alloc::Global;
use std::hash::RandomState;
use std::process::Abort;

fn lines_of(rt: &(impl Abort + AllocGlobal), lines: &[&[u8]]) -> Vec<Blob> {
    let mut blobs = Vec::new(rt.alloc());
    for line in lines {
        let line = Blob::new(rt.alloc(), line).expect(rt, "room");
        blobs.push(line).expect(rt, "room");
    }
    blobs
}

/// The bits of these bytes and of those from first to last.
fn bytes(others: &[u8], ranges: &[(u8, u8)]) -> u128 {
    let mut set = 0u128;
    for byte in 0..128u8 {
        let mut stands = others.contains(&byte);
        for (first, last) in ranges {
            stands = stands || (*first <= byte && byte <= *last);
        }
        if stands {
            set |= 1u128 << byte;
        }
    }
    set
}

/// What may follow a comma in a List.
fn after_comma() -> u128 {
    bytes(b"\t \"%(*-", &[(b'0', b':'), (b'?', b'Z'), (b'a', b'z')])
}

fn ended(place: u64, expected: u128) -> Refusal {
    Refusal::Syntax {
        place,
        found: None,
        expected,
        may_end: false,
    }
}

fn text_of(
    rt: &(impl Abort + AllocGlobal),
    field: Result<Field, Refusal>,
) -> Result<Vec<u8>, Refusal> {
    match field {
        Ok(field) => Ok(to_text(rt.alloc(), &field).expect(rt, "room")),
        Err(refusal) => Err(refusal),
    }
}

fn is_answer(answer: Result<Vec<u8>, Refusal>, want: Result<&str, Refusal>) -> bool {
    match answer {
        Ok(text) => match want {
            Ok(want) => return text.as_slice() == want.as_bytes(),
            Err(_) => return false,
        },
        Err(refusal) => return want == Err(refusal),
    }
}

fn check(
    rt: &(impl Abort + AllocGlobal),
    answer: Result<Vec<u8>, Refusal>,
    want: Result<&str, Refusal>,
) {
    assert!(rt; is_answer(answer, want), "{want:?}");
}

/// The values of the name after a header of another name.
fn headers_of(rt: &(impl Abort + AllocGlobal), name: &[u8], values: &[&[u8]]) -> HeaderMap {
    let mut headers = HeaderMap::new(rt.alloc());
    let server = HeaderName::from_static("server");
    let first = HeaderValue::from_static("x");
    headers.append(server, first).expect(rt, "room");
    for value in values {
        let name = HeaderName::from_bytes(rt.alloc(), name).expect(rt, "a name");
        let value = HeaderValue::from_bytes(rt.alloc(), value).expect(rt, "a value");
        headers.append(name, value).expect(rt, "room");
    }
    headers
}

const NORMAL: &[(Kind, &[&[u8]], &str)] = &[
    (Kind::List, &[b"\"a", b"b\""], "\"a, b\""),
    (Kind::List, &[], ""),
    (Kind::Dict, &[b""], ""),
    (Kind::Item, &[b" -0 "], "0"),
    (Kind::List, &[b":YQ:,:YQ:"], ":YQ==:, :YQ==:"),
    (Kind::List, &[b"a", b"b;x=?1", b"( c  )"], "a, b;x, (c)"),
];

fn normalised(
    rt: &(impl Abort + AllocGlobal),
    seed: &RandomState,
    kind: Kind,
    lines: &[&[u8]],
) -> Result<Vec<u8>, Refusal> {
    normalise_lines(rt.alloc(), seed, kind, &lines_of(rt, lines))
}

#[test]
fn normal_texts(rt: HostRuntime) {
    let seed = seed(&rt);
    for &(kind, lines, want) in NORMAL {
        check(&rt, normalised(&rt, &seed, kind, lines), Ok(want));
    }
    let refused = normalised(&rt, &seed, Kind::List, &[b"a", b""]);
    check(&rt, refused, Err(ended(3, after_comma())));
}

/// The text of the field that the lines are parsed as.
fn parsed(
    rt: &(impl Abort + AllocGlobal),
    seed: &RandomState,
    kind: Kind,
    lines: &[&[u8]],
) -> Result<Vec<u8>, Refusal> {
    let lines = lines_of(rt, lines);
    text_of(rt, parse_lines(rt.alloc(), seed, kind, &lines))
}

#[test]
fn parses_lines(rt: HostRuntime) {
    let seed = seed(&rt);
    let found = parsed(&rt, &seed, Kind::Dict, &[b"a=1;x", b" b ", b"a=2"]);
    check(&rt, found, Ok("a=2, b"));
    let refusal = Refusal::Syntax {
        place: 1,
        found: Some(b','),
        expected: bytes(b" .;", &[(b'0', b'9')]),
        may_end: true,
    };
    let found = parsed(&rt, &seed, Kind::Item, &[b"1", b"2"]);
    check(&rt, found, Err(refusal));
}

/// The older dialect refuses a date, and expects these bytes, a digit, a colon or a letter.
fn no_date(place: u64, others: &[u8]) -> Refusal {
    Refusal::Syntax {
        place,
        found: Some(b'@'),
        expected: bytes(others, &[(b'0', b':'), (b'A', b'Z'), (b'a', b'z')]),
        may_end: false,
    }
}

/// Expects this text of a line that is parsed as an Item in a dialect.
fn check_in(
    rt: &(impl Abort + AllocGlobal),
    seed: &RandomState,
    dialect: Dialect,
    line: &[u8],
    want: Result<&str, Refusal>,
) {
    let lines = lines_of(rt, &[line]);
    let field = parse_lines_in(rt.alloc(), seed, dialect, Kind::Item, &lines);
    check(rt, text_of(rt, field), want);
}

#[test]
fn parses_lines_in_a_dialect(rt: HostRuntime) {
    let seed = seed(&rt);
    // The second date is one that a later value of the key takes the place of.
    for &(line, text, place, others) in &[
        (b"@1".as_slice(), "@1", 0, b" \"*-?".as_slice()),
        (b"a;b=@1;b=1", "a;b=1", 4, b"\"*-?"),
    ] {
        check_in(&rt, &seed, Dialect::Rfc9651, line, Ok(text));
        let refusal = no_date(place, others);
        check_in(&rt, &seed, Dialect::Rfc8941, line, Err(refusal));
    }
}

fn priority() -> HeaderName {
    HeaderName::from_static("priority")
}

/// The text of the field of this name, if there is one.
fn text_under(
    rt: &(impl Abort + AllocGlobal),
    seed: &RandomState,
    headers: &HeaderMap,
    name: &HeaderName,
) -> Option<Result<Vec<u8>, Refusal>> {
    match from_headers(rt.alloc(), seed, Kind::Dict, headers, name) {
        Ok(Some(field)) => Some(text_of(rt, Ok(field))),
        Ok(None) => None,
        Err(refusal) => Some(Err(refusal)),
    }
}

/// The field `priority` of a map that has it with these values, after another name.
fn priority_of(
    rt: &(impl Abort + AllocGlobal),
    seed: &RandomState,
    name: &[u8],
    values: &[&[u8]],
) -> Option<Result<Vec<u8>, Refusal>> {
    let headers = headers_of(rt, name, values);
    text_under(rt, seed, &headers, &priority())
}

#[test]
fn parses_header_maps(rt: HostRuntime) {
    let seed = seed(&rt);
    let found = priority_of(&rt, &seed, b"priority", &[b"u=1", b"i"]);
    check(&rt, found.expect(&rt, "a field"), Ok("u=1, i"));
    let refusal = ended(5, bytes(b"\t *", &[(b'a', b'z')]));
    let found = priority_of(&rt, &seed, b"priority", &[b"u=1", b""]);
    check(&rt, found.expect(&rt, "a field"), Err(refusal));
    assert!(rt; priority_of(&rt, &seed, b"age", &[b"1", b"2"]).is_none());
}

/// Whether the Item has a parameter.
fn has_param(item: Result<Item, Refusal>, key: &[u8]) -> Option<bool> {
    match item {
        Ok(item) => Some(item.param(key).is_some()),
        Err(_) => None,
    }
}

fn length_of_list(list: Result<List, Refusal>) -> Option<usize> {
    match list {
        Ok(list) => Some(list.members.len()),
        Err(_) => None,
    }
}

fn length_of_dict(dict: Result<Dict, Refusal>) -> Option<usize> {
    match dict {
        Ok(dict) => Some(dict.members.len()),
        Err(_) => None,
    }
}

#[test]
fn texts_of_a_known_kind(rt: HostRuntime) {
    let alloc = rt.alloc();
    let seed = seed(&rt);
    assert!(rt; has_param(parse_item(alloc, &seed, b"a;q=1"), b"q") == Some(true));
    assert!(rt; length_of_list(parse_list(alloc, &seed, b"a, (b c)")) == Some(2));
    assert!(rt; length_of_dict(parse_dict(alloc, &seed, b"u=1, i")) == Some(2));
    assert!(rt; has_param(parse_item(alloc, &seed, b"a, b"), b"q").is_none());
}

#[test]
fn lines_of_a_known_kind(rt: HostRuntime) {
    let alloc = rt.alloc();
    let seed = seed(&rt);
    let lines = lines_of(&rt, &[b"a", b"b"]);
    assert!(rt; length_of_list(parse_list_lines(alloc, &seed, &lines)) == Some(2));
    assert!(rt; length_of_dict(parse_dict_lines(alloc, &seed, &lines)) == Some(2));
    assert!(rt; has_param(parse_item_lines(alloc, &seed, &lines), b"q").is_none());
}

/// Whether this is the List of the text.
fn is_list(
    alloc: Global,
    seed: &RandomState,
    answer: &Result<Field, Refusal>,
    text: &[u8],
) -> bool {
    answer.is_ok() && *answer == parse_text(alloc, seed, Kind::List, text)
}

#[test]
fn lines_one_by_one(rt: HostRuntime) {
    let seed = seed(&rt);
    let mut parser = Parser::new(rt.alloc(), &seed, Kind::List, u64::MAX);
    assert!(rt; parser.feed_line(b"a").is_ok());
    assert!(rt; parser.feed_line(b"b, c").is_ok() && parser.place() == 7);
    assert!(rt; is_list(rt.alloc(), &seed, &parser.finish(), b"a, b, c"));
}

/// An empty first line is joined by a comma, which is not allowed at the beginning.
#[test]
fn an_empty_first_line(rt: HostRuntime) {
    let mut parser = Parser::new(rt.alloc(), &seed(&rt), Kind::List, u64::MAX);
    assert!(rt; parser.feed_line(b"").is_ok());
    assert!(rt; parser.feed_line(b"b").is_err());
}

/// Sets the Dictionary of a text under a name.
fn set(
    rt: &(impl Abort + AllocGlobal),
    seed: &RandomState,
    headers: &mut HeaderMap,
    name: HeaderName,
    text: &[u8],
) -> Result<(), SetFault> {
    let field = parse_text(rt.alloc(), seed, Kind::Dict, text).expect(rt, "a Dictionary");
    set_field(rt.alloc(), headers, name, &field)
}

/// Whether the field `priority` is that of the text.
fn is_set(
    rt: &(impl Abort + AllocGlobal),
    seed: &RandomState,
    headers: &HeaderMap,
    text: &[u8],
) -> bool {
    let field = parse_text(rt.alloc(), seed, Kind::Dict, text).expect(rt, "a Dictionary");
    from_headers(rt.alloc(), seed, Kind::Dict, headers, &priority()) == Ok(Some(field))
}

#[test]
fn a_field_that_is_set(rt: HostRuntime) {
    let seed = seed(&rt);
    let mut headers = headers_of(&rt, b"priority", &[b"u=5", b"i"]);
    assert!(rt; set(&rt, &seed, &mut headers, priority(), b"u=1,i").is_ok());
    assert!(rt; headers.get_all(&priority()).iter().count() == 1);
    assert!(rt; is_set(&rt, &seed, &headers, b"u=1,i"));
    assert!(rt; set(&rt, &seed, &mut headers, priority(), b"").is_ok());
    assert!(rt; !headers.contains_key(&priority()));
}

#[test]
fn a_field_as_a_value(rt: HostRuntime) {
    let field = parse_text(rt.alloc(), &seed(&rt), Kind::Dict, b"u=1,i");
    let value = header_value(rt.alloc(), &field.expect(&rt, "a Dictionary"));
    let value = value.expect(&rt, "room");
    assert!(rt; value.as_bytes() == b"u=1, i".as_slice());
}

/// The name `n` with a number.
fn numbered(rt: &(impl Abort + AllocGlobal), number: u32) -> HeaderName {
    let name = format!(in rt.alloc(); "n{number}").expect(rt, "memory");
    HeaderName::from_bytes(rt.alloc(), name.as_bytes()).expect(rt, "a name")
}

/// A map with the name `server` and so many others.
fn map_of_names(rt: &(impl Abort + AllocGlobal), count: u32) -> HeaderMap {
    let mut headers = headers_of(rt, b"n", &[]);
    for number in 0..count {
        let value = HeaderValue::from_static("1");
        assert!(rt; headers.insert(numbered(rt, number), value).is_ok());
    }
    headers
}

#[test]
fn a_field_in_a_full_map(rt: HostRuntime) {
    let seed = seed(&rt);
    let mut headers = map_of_names(&rt, 24_575);
    let full = set(&rt, &seed, &mut headers, priority(), b"u=1");
    assert!(rt; full == Err(SetFault::Full));
    let none = set(&rt, &seed, &mut headers, priority(), b"");
    assert!(rt; none == Ok(()) && headers.keys_len() == 24_576);
    let present = set(&rt, &seed, &mut headers, numbered(&rt, 7), b"u=1");
    assert!(rt; present == Ok(()) && headers.keys_len() == 24_576);
}
