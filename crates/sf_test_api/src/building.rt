//! Values for the tests. A test ends if an allocation for one fails, or a part of it is refused.
use sf_value::{
    Bare, Blob, Dict, Entries, Field, Inner, Int, Item, Key, List, Member, Shown, Text,
    Thousandths, Token,
};
use std::hash::RandomState;
use std::process::Abort;
use std::random::RandomSource;

pub(crate) fn seed(rt: &(impl Abort + RandomSource)) -> RandomState {
    RandomState::new(rt).expect(rt, "a seed")
}

pub(crate) fn integer(rt: &impl Abort, n: i64) -> Bare {
    Bare::Integer(Int::new(n).expect(rt, "an Integer"))
}

pub(crate) fn decimal(rt: &impl Abort, thousandths: i64) -> Bare {
    Bare::Decimal(Thousandths::new(thousandths).expect(rt, "a Decimal"))
}

pub(crate) fn date(rt: &impl Abort, seconds: i64) -> Bare {
    Bare::Date(Int::new(seconds).expect(rt, "a Date"))
}

pub(crate) fn text(rt: &(impl Abort + AllocGlobal), bytes: &[u8]) -> Bare {
    Bare::Text(Text::new(rt.alloc(), bytes).expect(rt, "a String"))
}

pub(crate) fn token(rt: &(impl Abort + AllocGlobal), bytes: &[u8]) -> Bare {
    Bare::Token(Token::new(rt.alloc(), bytes).expect(rt, "a Token"))
}

pub(crate) fn blob(rt: &(impl Abort + AllocGlobal), bytes: &[u8]) -> Bare {
    Bare::Blob(Blob::new(rt.alloc(), bytes).expect(rt, "a Byte Sequence"))
}

pub(crate) fn shown(rt: &(impl Abort + AllocGlobal), text: &str) -> Bare {
    Bare::Shown(Shown::new(rt.alloc(), text).expect(rt, "a Display String"))
}

pub(crate) fn key(rt: &(impl Abort + AllocGlobal), bytes: &[u8]) -> Key {
    Key::new(rt.alloc(), bytes).expect(rt, "a key")
}

/// One of each of the eight types of bare items, by its place.
pub(crate) fn bare(rt: &(impl Abort + AllocGlobal), index: usize) -> Bare {
    match index {
        0 => integer(rt, 1),
        1 => decimal(rt, 1000),
        2 => text(rt, b"1"),
        3 => token(rt, b"a"),
        4 => blob(rt, b"1"),
        5 => Bare::Boolean(true),
        6 => date(rt, 1),
        _ => shown(rt, "1"),
    }
}

pub(crate) fn number_in(bare: &Bare) -> Option<i64> {
    Some(bare.as_integer()?.get())
}

/// Puts a value at the key of these bytes.
pub(crate) fn put<V: Drop>(
    rt: &(impl Abort + AllocGlobal),
    entries: &mut Entries<V>,
    bytes: &[u8],
    value: V,
) -> Option<V> {
    entries.put(key(rt, bytes), value).ok().expect(rt, "room")
}

pub(crate) fn plain(rt: &impl AllocGlobal, seed: &RandomState, bare: Bare) -> Item {
    Item::new(rt.alloc(), seed, bare)
}

/// An Item with one parameter.
pub(crate) fn item(
    rt: &(impl Abort + AllocGlobal),
    seed: &RandomState,
    bare: Bare,
    bytes: &[u8],
    value: Bare,
) -> Item {
    let item = plain(rt, seed, bare);
    item.with_param(key(rt, bytes), value).expect(rt, "room")
}

/// The Inner List of two Items.
pub(crate) fn both(
    rt: &(impl Abort + AllocGlobal),
    seed: &RandomState,
    first: Item,
    second: Item,
) -> Inner {
    let inner = Inner::new(rt.alloc(), seed);
    let inner = inner.with_item(first).expect(rt, "room");
    inner.with_item(second).expect(rt, "room")
}

/// The Inner List `(1 2)`.
pub(crate) fn one_and_two(rt: &(impl Abort + AllocGlobal), seed: &RandomState) -> Inner {
    let one = plain(rt, seed, integer(rt, 1));
    both(rt, seed, one, plain(rt, seed, integer(rt, 2)))
}

/// The Inner List `(1 2)` with the parameter `y`.
pub(crate) fn inner(rt: &(impl Abort + AllocGlobal), seed: &RandomState, param: Bare) -> Member {
    let inner = one_and_two(rt, seed);
    inner
        .with_param(key(rt, b"y"), param)
        .expect(rt, "room")
        .into()
}

/// The Item `?1` with one parameter.
pub(crate) fn flag(
    rt: &(impl Abort + AllocGlobal),
    seed: &RandomState,
    bytes: &[u8],
    value: Bare,
) -> Member {
    item(rt, seed, Bare::Boolean(true), bytes, value).into()
}

/// A Dictionary with one more member.
pub(crate) fn with(
    rt: &(impl Abort + AllocGlobal),
    dict: Dict,
    bytes: &[u8],
    member: Member,
) -> Dict {
    dict.with(key(rt, bytes), member).expect(rt, "room")
}

/// The Dictionary `a=(1 2);y=PARAM, b;x`, or with its members the other way round.
pub(crate) fn dict(
    rt: &(impl Abort + AllocGlobal),
    seed: &RandomState,
    param: &[u8],
    turned: bool,
) -> Field {
    let first = inner(rt, seed, blob(rt, param));
    let second = flag(rt, seed, b"x", Bare::Boolean(true));
    let none = Dict::new(rt.alloc(), seed);
    let both = if turned {
        with(rt, with(rt, none, b"b", second), b"a", first)
    } else {
        with(rt, with(rt, none, b"a", first), b"b", second)
    };
    both.into()
}

/// The List of two members.
pub(crate) fn two(rt: &(impl Abort + AllocGlobal), first: Member, second: Member) -> List {
    let list = List::new(rt.alloc()).with(first).expect(rt, "room");
    list.with(second).expect(rt, "room")
}

/// The List `N;y, (1 2);y=?0`.
pub(crate) fn list(rt: &(impl Abort + AllocGlobal), seed: &RandomState, n: i64) -> Field {
    let first = item(rt, seed, integer(rt, n), b"y", Bare::Boolean(true));
    let second = inner(rt, seed, Bare::Boolean(false));
    two(rt, first.into(), second).into()
}
