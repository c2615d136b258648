//! Copies of views, whole fields and parts, beside the trees of their texts.
use crate::trees::TEXTS;
use crate::views::{ACCEPTED, CODED, DICTIONARY_TEXT};
use sf_parse::parse_text_in;
use sf_value::{Bare, Dialect, Field, Inner, Item, Kind, List, Member, same};
use sf_view::{BareView, Node, View};
use std::alloc::Global;
use std::hash::RandomState;
use std::test::Fail;

/// The field of a text, copied from its nodes.
fn copied_field(
    alloc: Global,
    seed: &RandomState,
    dialect: Dialect,
    kind: Kind,
    text: &[u8],
) -> Option<Field> {
    let mut buffer = [Node::NONE; 64];
    let view = View::scan(dialect, kind, text, &mut buffer).ok()?;
    view.to_field(alloc, seed, kind).ok()?
}

/// Whether the text is one field by both ways, its tree and its nodes.
fn is_by_both(
    alloc: Global,
    seed: &RandomState,
    dialect: Dialect,
    kind: Kind,
    text: &[u8],
) -> bool {
    let Ok(field) = parse_text_in(alloc, seed, dialect, kind, text) else {
        return false;
    };
    match copied_field(alloc, seed, dialect, kind, text) {
        Some(copy) => return same(&copy, &field),
        None => return false,
    }
}

#[test]
fn copied_fields_are_trees(rt: HostRuntime) -> Result<(), Fail> {
    let alloc = rt.alloc();
    let seed = RandomState::new(&rt)?;
    for (kind, text) in &TEXTS {
        assert!(&rt; is_by_both(alloc, &seed, Dialect::Rfc9651, *kind, text));
    }
    for (text, _) in &CODED {
        assert!(&rt; is_by_both(alloc, &seed, Dialect::Rfc9651, Kind::Item, text));
    }
    assert!(&rt; is_by_both(alloc, &seed, Dialect::Rfc9651, Kind::Dict, DICTIONARY_TEXT));
    Ok(())
}

fn push_run(text: &mut Vec<u8>, count: usize) -> Result<(), Fail> {
    for _ in 0..count {
        text.push(b'x')?;
    }
    Ok(())
}

/// The bytes that a text begins with, two runs of this length with the escape after each, a last run,
/// and a quote.
fn text_around(
    alloc: Global,
    before: &[u8],
    count: usize,
    escape: &[u8],
    last: usize,
) -> Result<Vec<u8>, Fail> {
    let mut text = Vec::new(alloc);
    text.extend_from_slice(before)?;
    for _ in 0..2u32 {
        push_run(&mut text, count)?;
        text.extend_from_slice(escape)?;
    }
    push_run(&mut text, last)?;
    text.extend_from_slice(b"\"")?;
    Ok(text)
}

/// Runs of each length before, between and after escapes, and an escape just before the quote.
#[test]
fn runs_around_escapes_are_copied(rt: HostRuntime) -> Result<(), Fail> {
    let alloc = rt.alloc();
    let seed = RandomState::new(&rt)?;
    for (before, escape) in [
        (b"\"".as_slice(), b"\\\"".as_slice()),
        (b"\"", b"\\\\\\\""),
        (b"%\"", b"%c3%bc"),
        (b"%\"\\", b"%25%22"),
    ] {
        for count in 0..100usize {
            for last in [0, count] {
                let text = text_around(alloc, before, count, escape, last)?;
                assert!(&rt;
                    is_by_both(alloc, &seed, Dialect::Rfc9651, Kind::Item, text.as_slice())
                );
            }
        }
    }
    Ok(())
}

#[test]
fn accepted_texts_are_copied_in_both_dialects(rt: HostRuntime) -> Result<(), Fail> {
    let alloc = rt.alloc();
    let seed = RandomState::new(&rt)?;
    for (kind, text) in &ACCEPTED {
        assert!(&rt; is_by_both(alloc, &seed, Dialect::Rfc9651, *kind, text));
        assert!(&rt; is_by_both(alloc, &seed, Dialect::Rfc8941, *kind, text));
    }
    Ok(())
}

/// The bare item of an Item field, copied.
fn copied(alloc: Global, text: &[u8]) -> Option<Bare> {
    let mut buffer = [Node::NONE; 8];
    let view = View::scan(Dialect::Rfc9651, Kind::Item, text, &mut buffer).ok()?;
    view.bare()?.to_bare(alloc).ok()?
}

static BARE_ITEMS: [&[u8]; 9] = [
    b"-42",
    b"4.5",
    b"\"a\\\"b\"",
    b"\"plain\"",
    b"a/b",
    b":AAECAwQFBgcICQ:",
    b"?0",
    b"@1659578233",
    b"%\"%f0%9f%92%a9%25\"",
];

#[test]
fn copied_bare_items_are_those_of_trees(rt: HostRuntime) -> Result<(), Fail> {
    let seed = RandomState::new(&rt)?;
    for text in &BARE_ITEMS {
        let field = parse_text_in(rt.alloc(), &seed, Dialect::Rfc9651, Kind::Item, text)?;
        match copied(rt.alloc(), text) {
            Some(bare) => {
                let copy = Field::Item(Item::new(rt.alloc(), &seed, bare));
                assert!(&rt; same(&copy, &field));
            }
            None => assert!(&rt; false),
        }
    }
    Ok(())
}

/// The Item of an Item field, copied with its parameters.
fn copied_item(alloc: Global, seed: &RandomState, text: &[u8]) -> Option<Item> {
    let mut buffer = [Node::NONE; 8];
    let view = View::scan(Dialect::Rfc9651, Kind::Item, text, &mut buffer).ok()?;
    view.to_item(alloc, seed).ok()?
}

static WITH_PARAMETERS: [&[u8]; 4] = [
    b"1; a; b=?0",
    b"5; foo=bar",
    b"a;b=\"\\\"\";c=:YQ==:;d=%\"%25\";e=1.5;f",
    b":YQ==:;q=@0",
];

#[test]
fn copied_items_are_those_of_trees(rt: HostRuntime) -> Result<(), Fail> {
    let seed = RandomState::new(&rt)?;
    for text in &WITH_PARAMETERS {
        let field = parse_text_in(rt.alloc(), &seed, Dialect::Rfc9651, Kind::Item, text)?;
        match copied_item(rt.alloc(), &seed, text) {
            Some(item) => assert!(&rt; same(&Field::Item(item), &field)),
            None => assert!(&rt; false),
        }
    }
    Ok(())
}

/// The Inner List that a List begins with, copied.
fn copied_inner(alloc: Global, seed: &RandomState, text: &[u8]) -> Option<Inner> {
    let mut buffer = [Node::NONE; 16];
    let view = View::scan(Dialect::Rfc9651, Kind::List, text, &mut buffer).ok()?;
    let (first, _) = view.split_first()?;
    first.to_inner(alloc, seed).ok()?
}

static INNER_LISTS: [&[u8]; 4] = [
    b"()",
    b"( 1  2 );a",
    b"(\"foo\"; a=1;b=2 :YQ==:);lvl=5;q=\"\\\"\"",
    b"(a;b c;d=1;e);f;g=h",
];

#[test]
fn copied_inner_lists_are_those_of_trees(rt: HostRuntime) -> Result<(), Fail> {
    let seed = RandomState::new(&rt)?;
    for text in &INNER_LISTS {
        let field = parse_text_in(rt.alloc(), &seed, Dialect::Rfc9651, Kind::List, text)?;
        match copied_inner(rt.alloc(), &seed, text) {
            Some(inner) => {
                let list = List::new(rt.alloc()).with(Member::Inner(inner))?;
                assert!(&rt; same(&Field::List(list), &field));
            }
            None => assert!(&rt; false),
        }
    }
    Ok(())
}

/// The member of a Dictionary with this key, copied.
fn copied_member(alloc: Global, seed: &RandomState, text: &[u8], key: &[u8]) -> Option<Member> {
    let mut buffer = [Node::NONE; 16];
    let view = View::scan(Dialect::Rfc9651, Kind::Dict, text, &mut buffer).ok()?;
    view.get(key)?.to_member(alloc, seed).ok()?
}

// A Dictionary and a key, and the member with that key as a List.
static MEMBERS: [(&[u8], &[u8], &[u8]); 4] = [
    (b"a=(1 2), b=3, c=4;aa=bb, d=(5 6);valid", b"a", b"(1 2)"),
    (b"a=(1 2), b=3, c=4;aa=bb, d=(5 6);valid", b"c", b"4;aa=bb"),
    (
        b"a=(1 2), b=3, c=4;aa=bb, d=(5 6);valid",
        b"d",
        b"(5 6);valid",
    ),
    (b"a=?0, b, c; foo=bar", b"c", b"?1;foo=bar"),
];

#[test]
fn copied_members_are_those_of_trees(rt: HostRuntime) -> Result<(), Fail> {
    let seed = RandomState::new(&rt)?;
    for (text, key, alone) in &MEMBERS {
        let field = parse_text_in(rt.alloc(), &seed, Dialect::Rfc9651, Kind::List, alone)?;
        match copied_member(rt.alloc(), &seed, text, key) {
            Some(member) => {
                let list = List::new(rt.alloc()).with(member)?;
                assert!(&rt; same(&Field::List(list), &field));
            }
            None => assert!(&rt; false),
        }
    }
    Ok(())
}

#[test]
fn what_has_no_copy(rt: HostRuntime) -> Result<(), Fail> {
    let alloc = rt.alloc();
    let seed = RandomState::new(&rt)?;
    let mut buffer = [Node::NONE; 8];
    let text = b"a=(1), b=2";
    let Some(view) = View::scan(Dialect::Rfc9651, Kind::Dict, text, &mut buffer).ok() else {
        assert!(&rt; false);
        return Ok(());
    };
    let (Some(inner), Some(item)) = (view.get(b"a"), view.get(b"b")) else {
        assert!(&rt; false);
        return Ok(());
    };
    assert!(&rt; inner.to_item(alloc, &seed)?.is_none());
    assert!(&rt; item.to_inner(alloc, &seed)?.is_none());
    let sixteen_digits = BareView::Integer(1_000_000_000_000_000);
    assert!(&rt; sixteen_digits.to_bare(alloc)?.is_none());
    assert!(&rt; BareView::Token(b"a b").to_bare(alloc)?.is_none());
    let unscanned = View {
        text: b"",
        nodes: &[],
    };
    assert!(&rt; unscanned.to_field(alloc, &seed, Kind::Item)?.is_none());
    Ok(())
}
