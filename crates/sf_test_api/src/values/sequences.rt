use crate::building::{integer, number_in, one_and_two, plain, seed};
use sf_value::{Item, Part, Sequence};
use std::alloc::{AllocError, Global};
use std::process::Abort;

#[test]
fn sequences_are_copied(rt: HostRuntime) {
    let seed = seed(&rt);
    let items = one_and_two(&rt, &seed).items;
    let mut twin = items.copy(rt.alloc(), &seed).expect(&rt, "room");
    assert!(rt; items.same(&twin) && items == twin && has_two(&twin));
    assert!(rt; pop(&mut twin) == 2 && items != twin);
}

fn has_two(items: &Sequence<Item>) -> bool {
    items.len() == 2 && items.as_slice().len() == 2 && !items.is_empty()
}

/// The number of the last Item, which is taken out.
fn pop(items: &mut Sequence<Item>) -> i64 {
    match items.pop() {
        Some(item) => number_of(&item),
        None => 0,
    }
}

fn number_of(item: &Item) -> i64 {
    number_in(&item.bare).unwrap_or(0)
}

fn sum_by_iter(items: &Sequence<Item>) -> i64 {
    let mut sum = 0;
    for item in items.iter() {
        sum = number_of(item).saturating_add(sum);
    }
    sum
}

fn sum_by_reference(items: &Sequence<Item>) -> i64 {
    let mut sum = 0;
    for item in items {
        sum = number_of(item).saturating_add(sum);
    }
    sum
}

fn sum_by_value(items: Sequence<Item>) -> i64 {
    let mut sum = 0;
    for item in items {
        sum = number_of(&item).saturating_add(sum);
    }
    sum
}

fn first(items: &Sequence<Item>) -> i64 {
    match items.first() {
        Some(item) => number_of(item),
        None => 0,
    }
}

#[test]
fn sequences_are_iterated(rt: HostRuntime) {
    let items = one_and_two(&rt, &seed(&rt)).items;
    assert!(rt; first(&items) == 1);
    assert!(rt; sum_by_iter(&items) == 3 && sum_by_reference(&items) == 3);
    assert!(rt; sum_by_value(Sequence::from(Vec::from(items))) == 3);
}

#[test]
fn sequences_are_vecs(rt: HostRuntime) {
    let seed = seed(&rt);
    let mut items = Sequence::new(rt.alloc());
    assert!(rt; items.is_empty());
    assert!(rt; items.push(plain(&rt, &seed, integer(&rt, 1))).is_ok());
    assert!(rt; items.push(plain(&rt, &seed, integer(&rt, 2))).is_ok());
    assert!(rt; items.into_vec().len() == 2);
}

/// The bytes, with `x` inserted at a place.
fn inserted(alloc: Global, bytes: &[u8], index: usize) -> Result<Sequence<u8>, AllocError> {
    let mut items = Sequence::from_vec(Vec::from_slice(alloc, bytes)?);
    if index <= items.len() {
        items.insert(index, b'x')?;
    }
    Ok(items)
}

#[test]
fn values_are_inserted(rt: HostRuntime) {
    for &(index, want) in &[(0, b"xabc"), (1, b"axbc"), (2, b"abxc"), (3, b"abcx")] {
        let items = inserted(rt.alloc(), b"abc", index).expect(&rt, "room");
        assert!(rt; items.as_slice() == want.as_slice());
    }
}

fn letters(rt: &(impl Abort + AllocGlobal), bytes: &[u8]) -> Sequence<u8> {
    Sequence::from_vec(Vec::from_slice(rt.alloc(), bytes).expect(rt, "room"))
}

#[test]
fn values_are_removed(rt: HostRuntime) {
    for &(index, value, rest) in &[(0, b'a', b"bc"), (1, b'b', b"ac"), (2, b'c', b"ab")] {
        let mut items = letters(&rt, b"abc");
        let removed = if index < items.len() {
            items.remove(index)
        } else {
            0
        };
        assert!(rt; removed == value && items.as_slice() == rest.as_slice());
    }
}

#[test]
fn the_last_value_is_popped(rt: HostRuntime) {
    let mut items = letters(&rt, b"ab");
    for &(value, left) in &[(Some(b'b'), 1), (Some(b'a'), 0), (None, 0)] {
        assert!(rt; items.pop() == value && items.len() == left);
    }
    assert!(rt; items.push(b'c').is_ok() && items.as_slice() == b"c".as_slice());
}

#[test]
fn values_are_changed_in_place(rt: HostRuntime) {
    let mut items = letters(&rt, b"abc");
    for item in items.as_mut_slice() {
        *item = item.to_ascii_uppercase();
    }
    assert!(rt; items.as_slice() == b"ABC".as_slice());
}
