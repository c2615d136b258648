use crate::building::{integer, number_in, put, seed};
use sf_value::{Bare, Entries};
use std::hash::RandomState;
use std::process::Abort;

fn number_of(value: Option<Bare>) -> Option<i64> {
    number_in(&value?)
}

/// `a` is put as 1, `b` as 2, and `a` again as 3.
fn put_again(rt: &(impl Abort + AllocGlobal), seed: &RandomState) -> Entries<Bare> {
    let mut entries = Entries::new(rt.alloc(), seed);
    for &(key, value, old) in &[
        (b"a".as_slice(), 1, None),
        (b"b", 2, None),
        (b"a", 3, Some(1)),
    ] {
        let answer = put(rt, &mut entries, key, integer(rt, value));
        assert!(rt; number_of(answer) == old);
    }
    entries
}

fn number_under(entries: &Entries<Bare>, key: &[u8]) -> Option<i64> {
    number_in(entries.get(key)?)
}

fn number_at(entries: &Entries<Bare>, index: usize, key: &[u8]) -> Option<i64> {
    let (found, value) = entries.at(index)?;
    if found == key { number_in(value) } else { None }
}

#[test]
fn a_later_value_takes_the_place(rt: HostRuntime) {
    let entries = put_again(&rt, &seed(&rt));
    assert!(rt; entries.len() == 2 && entries.at(2).is_none());
    let found = [number_at(&entries, 0, b"a"), number_at(&entries, 1, b"b")];
    assert_eq!(rt; found, [Some(3), Some(2)]);
}

#[test]
fn entries_are_looked_up(rt: HostRuntime) {
    let entries = put_again(&rt, &seed(&rt));
    assert!(rt; number_under(&entries, b"b") == Some(2));
    assert!(rt; entries.get(b"c").is_none() && entries.get(b"A").is_none());
    assert!(rt; entries.contains_key(b"a") && !entries.contains_key(b"c"));
}

#[test]
fn equal_entries_are_in_one_order(rt: HostRuntime) {
    let seed = seed(&rt);
    let entries = put_again(&rt, &seed);
    assert!(rt; entries == put_again(&rt, &seed));
    let mut turned = Entries::new(rt.alloc(), &seed);
    put(&rt, &mut turned, b"b", integer(&rt, 2));
    assert!(rt; entries != turned);
    put(&rt, &mut turned, b"a", integer(&rt, 3));
    assert!(rt; entries != turned);
}

#[test]
fn entries_may_be_none(rt: HostRuntime) {
    let entries = Entries::<Bare>::new(rt.alloc(), &seed(&rt));
    assert!(rt; entries.is_empty());
    assert!(rt; !put_again(&rt, &seed(&rt)).is_empty());
}

/// The key, and then `3` or `2`.
fn list_entry(rt: &impl Abort, listed: &mut Vec<u8>, key: &[u8], value: &Bare) {
    let digit = if number_in(value) == Some(3) {
        b'3'
    } else {
        b'2'
    };
    assert!(rt; listed.extend_from_slice(key).is_ok() && listed.push(digit).is_ok());
}

fn list_by_iter(rt: &impl Abort, listed: &mut Vec<u8>, entries: &Entries<Bare>) {
    for (key, value) in entries.iter() {
        list_entry(rt, listed, key, value);
    }
}

fn list_by_reference(rt: &impl Abort, listed: &mut Vec<u8>, entries: &Entries<Bare>) {
    for (key, value) in entries {
        list_entry(rt, listed, key, value);
    }
}

fn list_by_value(rt: &impl Abort, listed: &mut Vec<u8>, entries: Entries<Bare>) {
    for (key, value) in entries {
        list_entry(rt, listed, key.as_bytes(), &value);
    }
}

#[test]
fn entries_are_iterated_in_order(rt: HostRuntime) {
    let mut listed = Vec::new(rt.alloc());
    let entries = put_again(&rt, &seed(&rt));
    list_by_iter(&rt, &mut listed, &entries);
    list_by_reference(&rt, &mut listed, &entries);
    list_by_value(&rt, &mut listed, entries);
    assert!(rt; listed.as_slice() == b"a3b2a3b2a3b2".as_slice());
}
