//! What may follow each prefix of each text: a parser that is fed a byte that no text has names the
//! bytes that it would have taken, and it takes just these.
use crate::{acceptances, refusals};
use sf_parse::{Parser, Refusal};
use sf_value::{Dialect, Kind};
use std::alloc::Global;
use std::hash::RandomState;
use std::process::Abort;
use std::test::Fail;

// The bytes that may follow a prefix, and whether it may end.
type Followers = (u128, bool);

fn parser_after(
    alloc: Global,
    seed: &RandomState,
    dialect: Dialect,
    kind: Kind,
    prefix: &[u8],
) -> Option<Parser> {
    let mut parser = Parser::new_in(alloc, seed, dialect, kind, u64::MAX);
    match parser.feed(prefix) {
        Ok(()) => Some(parser),
        Err(_) => None,
    }
}

/// What the byte 0xFF, which no text has, is refused with.
fn followers(parser: &mut Parser) -> Option<Followers> {
    match parser.feed(&[0xff]) {
        Err(
            Refusal::Syntax {
                expected,
                may_end,
                ..
            },
        ) => Some((expected, may_end)),
        _ => None,
    }
}

/// Whether the byte is taken if it was named, and otherwise refused with the same bytes.
fn byte_is_as_named(parser: &mut Parser, place: u64, byte: u8, followers: Followers) -> bool {
    let (expected, may_end) = followers;
    let may_follow = byte < 128 && expected >> (byte & 127) & 1 == 1;
    let refusal = Refusal::Syntax {
        place,
        found: Some(byte),
        expected,
        may_end,
    };
    match parser.feed(&[byte]) {
        Ok(()) => may_follow,
        Err(e) => !may_follow && e == refusal,
    }
}

/// Whether just the bytes that are named may follow the prefix; false also if it is refused.
fn prefix_is_as_named(
    alloc: Global,
    seed: &RandomState,
    dialect: Dialect,
    kind: Kind,
    prefix: &[u8],
) -> bool {
    let Some(mut parser) = parser_after(alloc, seed, dialect, kind, prefix) else {
        return false;
    };
    let Some(followers) = followers(&mut parser) else {
        return false;
    };
    for byte in 0..=255u8 {
        let Some(mut parser) = parser_after(alloc, seed, dialect, kind, prefix) else {
            return false;
        };
        if !byte_is_as_named(&mut parser, prefix.len() as u64, byte, followers) {
            return false;
        }
    }
    let Some(parser) = parser_after(alloc, seed, dialect, kind, prefix) else {
        return false;
    };
    parser.finish().is_ok() == followers.1
}

/// How many bytes of the text are taken.
fn taken(alloc: Global, seed: &RandomState, dialect: Dialect, kind: Kind, text: &[u8]) -> usize {
    let mut parser = Parser::new_in(alloc, seed, dialect, kind, u64::MAX);
    match parser.feed(text) {
        Ok(()) => text.len(),
        Err(_) => text.len().min(parser.place() as usize),
    }
}

fn check_text(
    rt: &(impl Abort + AllocGlobal),
    seed: &RandomState,
    dialect: Dialect,
    kind: Kind,
    text: &[u8],
) {
    let most = taken(rt.alloc(), seed, dialect, kind, text);
    for n in 0..=text.len() {
        let (prefix, _) = text.split_at(n);
        if n <= most {
            assert!(rt;
                prefix_is_as_named(rt.alloc(), seed, dialect, kind, prefix),
                "{n}"
            );
        }
    }
}

fn check_accepted(
    rt: &(impl Abort + AllocGlobal),
    seed: &RandomState,
    dialect: Dialect,
    rows: &[acceptances::Row],
) {
    for row in rows {
        check_text(rt, seed, dialect, row.0, row.1);
    }
}

fn check_refused(
    rt: &(impl Abort + AllocGlobal),
    seed: &RandomState,
    dialect: Dialect,
    rows: &[refusals::Row],
) {
    for row in rows {
        check_text(rt, seed, dialect, row.0, row.1);
    }
}

#[test]
fn new_dialect(rt: HostRuntime) -> Result<(), Fail> {
    let seed = RandomState::new(&rt)?;
    check_accepted(&rt, &seed, Dialect::Rfc9651, &acceptances::ITEMS);
    check_accepted(&rt, &seed, Dialect::Rfc9651, &acceptances::LISTS);
    check_accepted(&rt, &seed, Dialect::Rfc9651, &acceptances::DICTIONARIES);
    check_refused(&rt, &seed, Dialect::Rfc9651, &refusals::ITEMS);
    check_refused(
        &rt,
        &seed,
        Dialect::Rfc9651,
        &refusals::LISTS_AND_DICTIONARIES,
    );
    Ok(())
}

#[test]
fn old_dialect(rt: HostRuntime) -> Result<(), Fail> {
    let seed = RandomState::new(&rt)?;
    check_accepted(&rt, &seed, Dialect::Rfc8941, &acceptances::ITEMS);
    check_accepted(&rt, &seed, Dialect::Rfc8941, &acceptances::LISTS);
    check_accepted(&rt, &seed, Dialect::Rfc8941, &acceptances::DICTIONARIES);
    check_refused(&rt, &seed, Dialect::Rfc8941, &refusals::ITEMS);
    check_refused(
        &rt,
        &seed,
        Dialect::Rfc8941,
        &refusals::LISTS_AND_DICTIONARIES,
    );
    check_refused(&rt, &seed, Dialect::Rfc8941, &refusals::OLD_DIALECT);
    Ok(())
}
