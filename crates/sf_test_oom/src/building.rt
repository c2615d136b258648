// Values that are built in a chain, and what is made of a value: a string, a header.
use crate::expecting::{LISTED, expect_refusals, seen_if};
use http_header::{HeaderMap, HeaderName};
use sf_field::{SetFault, header_value, set_field};
use sf_parse::{Refusal, parse_list, parse_text};
use sf_test_alloc::Seen;
use sf_value::{Dict, Field, Inner, Item, Key, Kind, OutOfMemory, TextFault, Token, same};
use sf_write::to_string;
use std::alloc::Global;
use std::hash::RandomState;
use std::test::Fail;

/// The Inner List `(a;q);r`.
fn inner(alloc: Global, seed: &RandomState) -> Result<Inner, TextFault> {
    let item = Item::new(alloc, seed, Token::new(alloc, b"a")?.into());
    let item = item.with_param(Key::new(alloc, b"q")?, true.into())?;
    let inner = Inner::new(alloc, seed).with_item(item)?;
    Ok(inner.with_param(Key::new(alloc, b"r")?, true.into())?)
}

/// The Dictionary `b=(a;q);r`.
fn dict(alloc: Global, seed: &RandomState) -> Result<Dict, TextFault> {
    let member = inner(alloc, seed)?.into();
    Ok(Dict::new(alloc, seed).with(Key::new(alloc, b"b")?, member)?)
}

fn build(alloc: Global, seed: &RandomState, want: &Field) -> Seen {
    match dict(alloc, seed) {
        Ok(dict) => seen_if(same(&dict.into(), want)),
        Err(TextFault::OutOfMemory) => Seen::Refused,
        Err(_) => Seen::Wrong,
    }
}

#[test]
fn built_values(rt: HostRuntime) -> Result<(), Fail> {
    let alloc = rt.alloc();
    let seed = RandomState::new(&rt)?;
    let want = parse_text(alloc, &seed, Kind::Dict, b"b=(a;q);r")?;
    expect_refusals(&rt, || build(alloc, &seed, &want));
    Ok(())
}

fn list_of(alloc: Global, seed: &RandomState) -> Seen {
    match parse_list(alloc, seed, LISTED) {
        Ok(list) => seen_if(list.members.len() == 5),
        Err(Refusal::OutOfMemory) => Seen::Refused,
        Err(_) => Seen::Wrong,
    }
}

fn string_of(alloc: Global, field: &Field) -> Seen {
    match to_string(alloc, field) {
        Ok(text) => seen_if(text.as_bytes() == LISTED),
        Err(OutOfMemory) => Seen::Refused,
    }
}

fn value_of(alloc: Global, field: &Field) -> Seen {
    match header_value(alloc, field) {
        Ok(value) => seen_if(value.as_bytes() == LISTED),
        Err(OutOfMemory) => Seen::Refused,
    }
}

/// Sets the field in a map without names, which a refusal leaves unchanged.
fn set(alloc: Global, field: &Field) -> Seen {
    let mut headers = HeaderMap::new(alloc);
    let name = HeaderName::from_static("x");
    match set_field(alloc, &mut headers, name, field) {
        Ok(()) => seen_if(headers.len() == 1),
        Err(SetFault::OutOfMemory) if headers.is_empty() => Seen::Refused,
        Err(_) => Seen::Wrong,
    }
}

#[test]
fn strings_and_headers(rt: HostRuntime) -> Result<(), Fail> {
    let alloc = rt.alloc();
    let seed = RandomState::new(&rt)?;
    let field = parse_text(alloc, &seed, Kind::List, LISTED)?;
    expect_refusals(&rt, || list_of(alloc, &seed));
    expect_refusals(&rt, || string_of(alloc, &field));
    expect_refusals(&rt, || value_of(alloc, &field));
    expect_refusals(&rt, || set(alloc, &field));
    Ok(())
}
