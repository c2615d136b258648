use crate::building::{bare, dict, integer, item, list, plain, seed, token};
use sf_value::{Dialect, Field, Item, Kind, List, Part, copy, same};
use std::hash::RandomState;
use std::process::Abort;

fn bares_are_same(rt: &(impl Abort + AllocGlobal), seed: &RandomState, i: usize, j: usize) -> bool {
    let twin = bare(rt, j).copy(rt.alloc(), seed).expect(rt, "room");
    bare(rt, i).same(&twin)
}

/// The Item `5` with a parameter of one of the eight types.
fn five(rt: &(impl Abort + AllocGlobal), seed: &RandomState, i: usize) -> Item {
    item(rt, seed, integer(rt, 5), b"y", bare(rt, i))
}

fn params_are_same(
    rt: &(impl Abort + AllocGlobal),
    seed: &RandomState,
    i: usize,
    j: usize,
) -> bool {
    let twin = five(rt, seed, j).copy(rt.alloc(), seed).expect(rt, "room");
    five(rt, seed, i).same(&twin)
}

#[test]
fn types_count(rt: HostRuntime) {
    let seed = seed(&rt);
    for i in 0..8usize {
        for j in 0..8usize {
            let bares = bares_are_same(&rt, &seed, i, j);
            let params = params_are_same(&rt, &seed, i, j);
            let is_right = bares == (i == j) && params == (i == j);
            assert!(rt; is_right, "{i} and {j}");
        }
    }
    assert!(rt; Dialect::Rfc8941 != Dialect::Rfc9651);
}

fn is_copied(rt: &(impl Abort + AllocGlobal), seed: &RandomState, field: &Field) -> bool {
    let twin = copy(rt.alloc(), seed, field).expect(rt, "room");
    same(field, &twin)
}

#[test]
fn order_counts(rt: HostRuntime) {
    let seed = seed(&rt);
    let value = dict(&rt, &seed, b"a", false);
    assert!(rt; value.kind() == Kind::Dict && is_copied(&rt, &seed, &value));
    for &(param, turned) in &[(b"a", true), (b"b", false)] {
        assert!(rt; !same(&value, &dict(&rt, &seed, param, turned)));
    }
}

#[test]
fn members_count(rt: HostRuntime) {
    let seed = seed(&rt);
    let value = list(&rt, &seed, 1);
    assert!(rt; value.kind() == Kind::List && is_copied(&rt, &seed, &value));
    assert!(rt; !same(&value, &list(&rt, &seed, 2)));
}

/// The Item `a`.
fn token_item(rt: &(impl Abort + AllocGlobal), seed: &RandomState) -> Item {
    plain(rt, seed, token(rt, b"a"))
}

#[test]
fn kinds_count(rt: HostRuntime) {
    let seed = seed(&rt);
    let value = Field::from(token_item(&rt, &seed));
    assert!(rt; value.kind() == Kind::Item && is_copied(&rt, &seed, &value));
    let list = List::new(rt.alloc()).with(token_item(&rt, &seed).into());
    assert!(rt; !same(&value, &list.expect(&rt, "room").into()));
}
