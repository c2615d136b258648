//! Up to 8 entries are stored in one form, more in another: both, and the change from one to the
//! other.
use crate::building::{integer, key, number_in, put, seed};
use sf_value::{Bare, Entries, Item, Member, Part};
use std::hash::RandomState;
use std::mem;
use std::process::Abort;

/// The bytes of the key at a place. Every third is too long to be stored in place.
fn key_at(rt: &(impl Abort + AllocGlobal), place: u8) -> Vec<u8> {
    let mut key = Vec::from_slice(rt.alloc(), b"k").expect(rt, "room");
    let end: &[u8] = if place % 3 == 2 {
        b"-of-more-than-sixteen-bytes"
    } else {
        b""
    };
    assert!(rt; key.push(b'a' + place % 26).is_ok() && key.extend_from_slice(end).is_ok());
    key
}

/// What the key at a place has at last: every second is put again.
fn value_of(place: u8) -> i64 {
    if place % 2 == 0 {
        100 + i64::from(place)
    } else {
        i64::from(place)
    }
}

fn put_at(
    rt: &(impl Abort + AllocGlobal),
    entries: &mut Entries<Bare>,
    place: u8,
    value: i64,
) -> Option<i64> {
    let key = key_at(rt, place);
    match put(rt, entries, &key, integer(rt, value)) {
        Some(old) => number_in(&old),
        None => None,
    }
}

/// Keys in order, and then every second of them once more.
fn filled(rt: &(impl Abort + AllocGlobal), seed: &RandomState, count: u8) -> Entries<Bare> {
    let mut entries = Entries::new(rt.alloc(), seed);
    for place in 0..count {
        assert!(rt; put_at(rt, &mut entries, place, i64::from(place)).is_none());
    }
    for place in 0..count {
        if place % 2 == 0 {
            let old = put_at(rt, &mut entries, place, 100 + i64::from(place));
            assert!(rt; old == Some(i64::from(place)));
        }
    }
    entries
}

/// Sets a value by the bytes of its key, where so many entries may be expected.
fn set_at(
    rt: &(impl Abort + AllocGlobal),
    entries: &mut Entries<Bare>,
    expected: Option<usize>,
    place: u8,
    value: i64,
) {
    let key = key(rt, &key_at(rt, place));
    let (bytes, value) = (key.as_bytes(), integer(rt, value));
    let set = match expected {
        Some(expected) => entries.set_named_of(expected, rt.alloc(), bytes, value),
        None => entries.set_named(rt.alloc(), bytes, value),
    };
    assert!(rt; set.is_ok());
}

/// The same as [`filled`], each set by the bytes of its key.
fn set_by_bytes(
    rt: &(impl Abort + AllocGlobal),
    seed: &RandomState,
    expected: Option<usize>,
    count: u8,
) -> Entries<Bare> {
    let mut entries = Entries::new(rt.alloc(), seed);
    for place in 0..count {
        set_at(rt, &mut entries, expected, place, i64::from(place));
    }
    for place in 0..count {
        if place % 2 == 0 {
            set_at(rt, &mut entries, expected, place, 100 + i64::from(place));
        }
    }
    entries
}

/// Whether a key and its value are at a place.
fn stands_at(entries: &Entries<Bare>, place: u8, key: &[u8], value: i64) -> bool {
    match entries.at(usize::from(place)) {
        Some((found, bare)) => found == key && number_in(bare) == Some(value),
        None => false,
    }
}

fn number_under(entries: &Entries<Bare>, key: &[u8]) -> Option<i64> {
    number_in(entries.get(key)?)
}

fn look_up(rt: &(impl Abort + AllocGlobal), entries: &Entries<Bare>, count: u8) {
    assert!(rt; entries.len() == usize::from(count));
    for place in 0..count {
        let key = key_at(rt, place);
        assert!(rt; number_under(entries, &key) == Some(value_of(place)));
        assert!(rt; stands_at(entries, place, &key, value_of(place)));
    }
    let absent = key_at(rt, count);
    assert!(rt; entries.get(&absent).is_none() && entries.at(usize::from(count)).is_none());
}

/// Whether this is the key at a place, and what it has at last.
fn is_pair(rt: &(impl Abort + AllocGlobal), place: u8, key: &[u8], value: &Bare) -> bool {
    key == key_at(rt, place).as_slice() && number_in(value) == Some(value_of(place))
}

fn go_over(rt: &(impl Abort + AllocGlobal), entries: &Entries<Bare>, count: u8) {
    let mut place = 0;
    for (key, value) in entries {
        assert!(rt; is_pair(rt, place, key, value));
        place = place.wrapping_add(1);
    }
    assert!(rt; place == count);
}

fn take_apart(rt: &(impl Abort + AllocGlobal), entries: Entries<Bare>, count: u8) {
    let mut place = 0;
    for (key, value) in entries {
        assert!(rt; is_pair(rt, place, key.as_bytes(), &value));
        place = place.wrapping_add(1);
    }
    assert!(rt; place == count);
}

/// Looks the pairs up, and goes over them.
fn check_pairs(rt: &(impl Abort + AllocGlobal), entries: Entries<Bare>, count: u8) {
    look_up(rt, &entries, count);
    go_over(rt, &entries, count);
    take_apart(rt, entries, count);
}

#[test]
fn entries_of_each_count_are_the_same_pairs(rt: HostRuntime) {
    let seed = seed(&rt);
    for count in 0..21u8 {
        let entries = filled(&rt, &seed, count);
        let copy = entries.copy(rt.alloc(), &seed).expect(&rt, "room");
        assert!(rt; entries.same(&copy));
        check_pairs(&rt, copy, count);
        check_pairs(&rt, entries, count);
    }
}

#[test]
fn entries_are_set_by_the_bytes_of_keys(rt: HostRuntime) {
    let seed = seed(&rt);
    for count in 0..21u8 {
        for expected in [None, Some(0), Some(1), Some(5), Some(30)] {
            let entries = set_by_bytes(&rt, &seed, expected, count);
            assert!(rt; entries.same(&filled(&rt, &seed, count)));
            check_pairs(&rt, entries, count);
        }
    }
}

#[test]
fn entries_of_two_counts_differ(rt: HostRuntime) {
    let seed = seed(&rt);
    for count in 0..21u8 {
        let fewer = filled(&rt, &seed, count.saturating_sub(1));
        let is_same = filled(&rt, &seed, count).same(&fewer);
        assert!(rt; is_same == (count == 0));
    }
}

/// What `{:?}` prints of entries.
fn printed(rt: &(impl Abort + AllocGlobal), entries: &Entries<Bare>) -> String {
    format!(in rt.alloc(); "{entries:?}").expect(rt, "room")
}

/// A copy of entries from which all but a few were removed is as if only these had been put.
#[test]
fn copies_of_what_is_left_are_those_of_few(rt: HostRuntime) {
    let seed = seed(&rt);
    for left in 1..9u8 {
        let mut entries = all_but(&rt, &seed, 20, None);
        for place in left..20 {
            assert!(rt; remove(&rt, &mut entries, place).is_some());
        }
        let few = all_but(&rt, &seed, left, None);
        let copy = entries.copy(rt.alloc(), &seed).expect(&rt, "room");
        assert!(rt; copy.same(&few));
        assert!(rt; printed(&rt, &copy) == printed(&rt, &few));
    }
}

/// The keys in order with what each has at last, but for the one at a place.
fn all_but(
    rt: &(impl Abort + AllocGlobal),
    seed: &RandomState,
    count: u8,
    left_out: Option<u8>,
) -> Entries<Bare> {
    let mut entries = Entries::new(rt.alloc(), seed);
    for place in 0..count {
        if Some(place) != left_out {
            let key = key(rt, &key_at(rt, place));
            assert!(rt; entries.set(key, integer(rt, value_of(place))).is_ok());
        }
    }
    entries
}

fn remove(rt: &(impl Abort + AllocGlobal), entries: &mut Entries<Bare>, place: u8) -> Option<i64> {
    let key = key_at(rt, place);
    match entries.remove(&key) {
        Some(value) => number_in(&value),
        None => None,
    }
}

#[test]
fn each_key_is_taken_out(rt: HostRuntime) {
    let seed = seed(&rt);
    for count in 0..21u8 {
        for place in 0..=count {
            let mut entries = all_but(&rt, &seed, count, None);
            let there = if place < count {
                Some(value_of(place))
            } else {
                None
            };
            assert!(rt; remove(&rt, &mut entries, place) == there);
            assert!(rt; entries.same(&all_but(&rt, &seed, count, Some(place))));
            let copy = entries.copy(rt.alloc(), &seed).expect(&rt, "room");
            assert!(rt; copy.same(&entries));
            assert!(rt; remove(&rt, &mut entries, place).is_none());
        }
    }
}

#[test]
fn all_keys_are_taken_out_and_one_is_set(rt: HostRuntime) {
    let seed = seed(&rt);
    for count in 0..21u8 {
        let mut entries = all_but(&rt, &seed, count, None);
        for place in 0..count {
            assert!(rt; remove(&rt, &mut entries, place) == Some(value_of(place)));
        }
        assert!(rt; entries.is_empty());
        let copy = entries.copy(rt.alloc(), &seed).expect(&rt, "room");
        assert!(rt; copy.is_empty());
        assert!(rt; entries.set(key(&rt, b"k"), integer(&rt, 7)).is_ok());
        assert!(rt; number_under(&entries, b"k") == Some(7));
    }
}

/// Adds 1000 to the value of the key at a place, and returns whether it has a value.
fn raise(rt: &(impl Abort + AllocGlobal), entries: &mut Entries<Bare>, place: u8) -> bool {
    let key = key_at(rt, place);
    match entries.get_mut(&key) {
        Some(value) => {
            *value = integer(rt, value_of(place).saturating_add(1000));
            true
        }
        None => false,
    }
}

fn look_up_raised(rt: &(impl Abort + AllocGlobal), entries: &Entries<Bare>, count: u8) {
    for place in 0..count {
        let raised = value_of(place).saturating_add(1000);
        assert!(rt; stands_at(entries, place, &key_at(rt, place), raised));
    }
    assert!(rt; entries.len() == usize::from(count));
}

#[test]
fn each_value_is_changed_in_place(rt: HostRuntime) {
    let seed = seed(&rt);
    for count in 0..21u8 {
        let mut entries = all_but(&rt, &seed, count, None);
        for place in 0..=count {
            assert!(rt; raise(&rt, &mut entries, place) == (place < count));
        }
        look_up_raised(&rt, &entries, count);
    }
}

/// Adds 1000 to each value in turn, after a look at its key.
fn raise_all(rt: &(impl Abort + AllocGlobal), entries: &mut Entries<Bare>, count: u8) {
    let mut values = entries.iter_mut();
    for place in 0..count {
        assert!(rt; values.key() == Some(key_at(rt, place).as_slice()));
        match values.next() {
            Some(value) => *value = integer(rt, value_of(place).saturating_add(1000)),
            None => panic!(rt; "no value"),
        }
    }
    assert!(rt; values.key().is_none());
    assert!(rt; values.next().is_none() && values.next().is_none());
}

#[test]
fn values_are_lent_in_turn(rt: HostRuntime) {
    let seed = seed(&rt);
    for count in 0..21u8 {
        let mut entries = all_but(&rt, &seed, count, None);
        raise_all(&rt, &mut entries, count);
        look_up_raised(&rt, &entries, count);
    }
}

#[test]
fn values_are_small(rt: HostRuntime) {
    let sizes = [
        mem::size_of::<Entries<Bare>>(),
        mem::size_of::<Item>(),
        mem::size_of::<Member>(),
    ];
    assert_eq!(rt; sizes, [32, 72, 80]);
}
