// Values that are made, put and copied.
use crate::expecting::{LISTED, MEMBERS, SINGLE, expect_no_need, expect_refusals, seen_if};
use sf_parse::{Refusal, parse_text};
use sf_test_alloc::{Scarcity, Seen, refusals};
use sf_value::{
    Bare, Blob, Entries, Field, Int, Item, Key, Kind, Member, OutOfMemory, Part, Reading, Sequence,
    Shown, Text, TextFault, Token, Writing, copy, same,
};
use std::alloc::Global;
use std::hash::RandomState;
use std::test::Fail;

const LONG: &[u8] =
    b"abcdefghijklmnopqrstuvwxyzabcdefghijklmnopqrstuvwxyzabcdefghijklmnopqrstuvwxyz";

const LONG_TEXT: &str = "abcdefghijklmnopqrstuvwxyz\u{fc}\u{20ac}abcdefghijklmnopqrstuvwxyz";

fn make_key(alloc: Global) -> Seen {
    match Key::new(alloc, LONG) {
        Ok(key) => seen_if(key.as_bytes() == LONG),
        Err(TextFault::OutOfMemory) => Seen::Refused,
        Err(_) => Seen::Wrong,
    }
}

fn make_token(alloc: Global) -> Seen {
    match Token::new(alloc, LONG) {
        Ok(token) => seen_if(token.as_bytes() == LONG),
        Err(TextFault::OutOfMemory) => Seen::Refused,
        Err(_) => Seen::Wrong,
    }
}

fn make_text(alloc: Global) -> Seen {
    match Text::new(alloc, LONG) {
        Ok(text) => seen_if(text.as_bytes() == LONG),
        Err(TextFault::OutOfMemory) => Seen::Refused,
        Err(_) => Seen::Wrong,
    }
}

fn make_blob(alloc: Global) -> Seen {
    match Blob::new(alloc, LONG) {
        Ok(blob) => seen_if(blob.as_bytes() == LONG),
        Err(OutOfMemory) => Seen::Refused,
    }
}

fn make_shown(alloc: Global) -> Seen {
    match Shown::new(alloc, LONG_TEXT) {
        Ok(shown) => seen_if(shown.as_str() == LONG_TEXT),
        Err(OutOfMemory) => Seen::Refused,
    }
}

// The words that allocate.
#[derive(Clone, Copy)]
enum Word {
    Key,
    Token,
    Text,
    Blob,
    Shown,
}

fn make(alloc: Global, word: Word) -> Seen {
    match word {
        Word::Key => make_key(alloc),
        Word::Token => make_token(alloc),
        Word::Text => make_text(alloc),
        Word::Blob => make_blob(alloc),
        Word::Shown => make_shown(alloc),
    }
}

#[test]
fn words(rt: HostRuntime) {
    let alloc = rt.alloc();
    for word in [Word::Key, Word::Token, Word::Text, Word::Blob, Word::Shown] {
        expect_refusals(&rt, || make(alloc, word));
    }
}

/// What is refused for its bytes is refused for them also with no memory left.
fn make_bad(alloc: Global) -> Seen {
    let bad = Some(TextFault::BadByte { place: 1 });
    let key = Key::new(alloc, b"aB").err();
    let token = Token::new(alloc, b"a\"").err();
    let text = Text::new(alloc, b"a\x7f").err();
    let empty = Key::new(alloc, b"").err();
    seen_if(key == bad && token == bad && text == bad && empty == Some(TextFault::Empty))
}

#[test]
fn bad_words(rt: HostRuntime) {
    let alloc = rt.alloc();
    expect_no_need(&rt, || make_bad(alloc));
}

/// The keys of the entries before a put, in order, a byte each; the value of each is its byte.
const NAMES: &[u8] = b"abcdefghijklmnop";

// Entries, and the pair that is to be put.
#[derive(Drop)]
struct Put {
    entries: Entries<Bare>,
    key: Key,
    value: Bare,
}

fn number(byte: u8) -> Result<Bare, Fail> {
    Ok(Bare::Integer(Int::new(i64::from(byte))?))
}

fn is_number(bare: &Bare, byte: u8) -> bool {
    bare.as_integer().map(|n| n.get()) == Some(i64::from(byte))
}

/// The entries of the first so many names.
fn entries_of(alloc: Global, seed: &RandomState, count: usize) -> Result<Entries<Bare>, Fail> {
    let mut entries = Entries::new(alloc, seed);
    for name in NAMES.iter().take(count) {
        entries.set(Key::new(alloc, &[*name])?, number(*name)?)?;
    }
    Ok(entries)
}

fn stands_at(entries: &Entries<Bare>, index: usize, name: u8) -> bool {
    match entries.at(index) {
        Some((key, value)) => key == [name].as_slice() && is_number(value, name),
        None => false,
    }
}

/// Whether the entries are those of the first so many names.
fn are_first(entries: &Entries<Bare>, count: usize) -> bool {
    for i in 0..count {
        let Some(name) = NAMES.get(i) else {
            return false;
        };
        if !stands_at(entries, i, *name) {
            return false;
        }
    }
    entries.len() == count
}

/// Two equal puts of a key: one with ample memory, and one with little.
fn puts_of(alloc: Global, seed: &RandomState, count: usize, name: u8) -> Result<Vec<Put>, Fail> {
    let mut puts = Vec::with_capacity(alloc, 2)?;
    for _ in 0..2 {
        puts.push(Put {
            entries: entries_of(alloc, seed, count)?,
            key: Key::new(alloc, &[name])?,
            value: number(name)?,
        })?;
    }
    Ok(puts)
}

/// Puts a new key; a refused put is to be made again.
fn put_new(puts: &mut Vec<Put>, count: usize) -> Seen {
    let Some(put) = puts.pop() else {
        return Seen::Wrong;
    };
    let Put {
        mut entries,
        key,
        value,
    } = put;
    match entries.put(key, value) {
        Ok(old) => seen_if(
            old.is_none() && entries.len() > count && stands_at(&entries, count, b'z'),
        ),
        Err((key, value)) => {
            let unchanged = key.as_bytes() == b"z".as_slice()
                && is_number(&value, b'z')
                && are_first(&entries, count);
            let again = Put {
                entries,
                key,
                value,
            };
            if unchanged && puts.push(again).is_ok() {
                Seen::Refused
            } else {
                Seen::Wrong
            }
        }
    }
}

/// How often a put after so many entries was refused.
fn put_refusals(alloc: Global, seed: &RandomState, count: usize) -> Result<usize, Fail> {
    let mut puts = puts_of(alloc, seed, count, b'z')?;
    match refusals(alloc, || put_new(&mut puts, count)) {
        Some(refused) => Ok(refused),
        None => Err(Fail::from("another answer")),
    }
}

#[test]
fn new_keys(rt: HostRuntime) -> Result<(), Fail> {
    let seed = RandomState::new(&rt)?;
    let mut grew = 0u32;
    for count in 0..16usize {
        if put_refusals(rt.alloc(), &seed, count)? > 0 {
            grew = grew.saturating_add(1);
        }
    }
    assert!(rt; grew > 1, "{grew}");
    Ok(())
}

/// Sets a new key, of one byte, which is stored in place; a refusal leaves the entries unchanged.
fn set_new(alloc: Global, filled: &mut Vec<Entries<Bare>>, count: usize) -> Seen {
    let Some(mut entries) = filled.pop() else {
        return Seen::Wrong;
    };
    let Ok(key) = Key::new(alloc, b"z") else {
        return Seen::Wrong;
    };
    match entries.set(key, Bare::Boolean(true)) {
        Ok(()) => seen_if(entries.len() > count && entries.contains_key(b"z")),
        Err(OutOfMemory) => {
            if are_first(&entries, count) && filled.push(entries).is_ok() {
                Seen::Refused
            } else {
                Seen::Wrong
            }
        }
    }
}

#[test]
fn keys_that_are_set(rt: HostRuntime) -> Result<(), Fail> {
    let alloc = rt.alloc();
    let seed = RandomState::new(&rt)?;
    for count in [0, 8usize] {
        let mut filled = Vec::with_capacity(alloc, 2)?;
        for _ in 0..2 {
            filled.push(entries_of(alloc, &seed, count)?)?;
        }
        expect_refusals(&rt, || set_new(alloc, &mut filled, count));
    }
    Ok(())
}

/// Sets the key of [`LONG`] by its bytes, after so many entries; a refusal leaves them unchanged.
fn set_long(alloc: Global, filled: &mut Vec<Entries<Bare>>, key: &Key, count: usize) -> Seen {
    let Some(mut entries) = filled.pop() else {
        return Seen::Wrong;
    };
    match entries.set_named(alloc, key.as_bytes(), Bare::Boolean(true)) {
        Ok(()) => seen_if(entries.len() > count && entries.contains_key(LONG)),
        Err(OutOfMemory) => {
            if are_first(&entries, count) && filled.push(entries).is_ok() {
                Seen::Refused
            } else {
                Seen::Wrong
            }
        }
    }
}

#[test]
fn long_keys_that_are_set(rt: HostRuntime) -> Result<(), Fail> {
    let alloc = rt.alloc();
    let seed = RandomState::new(&rt)?;
    let key = Key::new(alloc, LONG)?;
    for count in [0, 1, 8, 9usize] {
        let mut filled = Vec::with_capacity(alloc, 2)?;
        for _ in 0..2 {
            filled.push(entries_of(alloc, &seed, count)?)?;
        }
        expect_refusals(&rt, || set_long(alloc, &mut filled, &key, count));
    }
    Ok(())
}

/// Sets the key of [`LONG`] once more, which needs no memory.
fn set_again(alloc: Global, entries: &mut Entries<Bare>, key: &Key) -> Seen {
    let count = entries.len();
    match entries.set_named(alloc, key.as_bytes(), Bare::Boolean(false)) {
        Ok(()) => seen_if(entries.len() == count),
        Err(OutOfMemory) => Seen::Wrong,
    }
}

#[test]
fn long_keys_that_are_present(rt: HostRuntime) -> Result<(), Fail> {
    let alloc = rt.alloc();
    let seed = RandomState::new(&rt)?;
    let key = Key::new(alloc, LONG)?;
    for count in [0, 1, 7, 8, 15usize] {
        let mut entries = entries_of(alloc, &seed, count)?;
        entries.set_named(alloc, key.as_bytes(), Bare::Boolean(true))?;
        expect_no_need(&rt, || set_again(alloc, &mut entries, &key));
        assert!(rt; entries.get(LONG) == Some(&Bare::Boolean(false)));
    }
    Ok(())
}

/// Puts the key that is first.
fn put_first(puts: &mut Vec<Put>, count: usize) -> Seen {
    let Some(put) = puts.pop() else {
        return Seen::Wrong;
    };
    let Put {
        mut entries,
        key,
        value,
    } = put;
    match entries.put(key, value) {
        Ok(Some(old)) => seen_if(is_number(&old, b'a') && are_first(&entries, count)),
        _ => Seen::Wrong,
    }
}

#[test]
fn present_keys(rt: HostRuntime) -> Result<(), Fail> {
    let seed = RandomState::new(&rt)?;
    for count in [1, 3, 4, 7, 8usize] {
        let mut puts = puts_of(rt.alloc(), &seed, count, b'a')?;
        expect_no_need(&rt, || put_first(&mut puts, count));
    }
    Ok(())
}

fn copied_entries(
    alloc: Global,
    seed: &RandomState,
    entries: &Entries<Bare>,
    count: usize,
) -> Seen {
    match entries.copy(alloc, seed) {
        Ok(copy) => seen_if(are_first(&copy, count)),
        Err(OutOfMemory) => Seen::Refused,
    }
}

#[test]
fn copies_of_entries(rt: HostRuntime) -> Result<(), Fail> {
    let alloc = rt.alloc();
    let seed = RandomState::new(&rt)?;
    for count in [1, 8, 9, 16usize] {
        let entries = entries_of(alloc, &seed, count)?;
        expect_refusals(&rt, || copied_entries(alloc, &seed, &entries, count));
    }
    Ok(())
}

fn copied(alloc: Global, seed: &RandomState, field: &Field) -> Seen {
    match copy(alloc, seed, field) {
        Ok(other) => seen_if(same(&other, field)),
        Err(OutOfMemory) => Seen::Refused,
    }
}

/// A Dictionary in which each key and each bare item has more than 16 bytes.
const LONG_KEYS: &[u8] = b"a_key_of_more_than_16_bytes=\"a string of more than 16 bytes\"\
    ;a_parameter_of_more_than_16=a_token_of_more_than_16_bytes";

fn copy_refusals(
    alloc: Global,
    seed: &RandomState,
    kind: Kind,
    text: &[u8],
) -> Result<Option<usize>, Refusal> {
    let field = parse_text(alloc, seed, kind, text)?;
    Ok(refusals(alloc, || copied(alloc, seed, &field)))
}

#[test]
fn copies(rt: HostRuntime) -> Result<(), Fail> {
    let seed = RandomState::new(&rt)?;
    for (kind, text) in [
        (Kind::Item, SINGLE),
        (Kind::List, LISTED),
        (Kind::Dict, MEMBERS),
        (Kind::Dict, LONG_KEYS),
    ] {
        let found = copy_refusals(rt.alloc(), &seed, kind, text)?;
        assert!(rt; found > Some(0), "{found:?}");
    }
    Ok(())
}

/// Copies of parameters, of the members of a List and of the Items of an Inner List.
#[derive(Drop)]
struct CopiedParts {
    params: Entries<Bare>,
    members: Sequence<Member>,
    items: Sequence<Item>,
}

/// How many can be added to each of these until one is refused.
#[derive(Clone, Copy, Debug, PartialEq, Eq)]
struct Room {
    params: usize,
    members: usize,
    items: usize,
}

/// More keys than any of these has room for.
const MORE_NAMES: &[u8] = b"abcdefghijklmnopqrstuvwxyz";

/// Copies of so many of each.
fn copies_of(alloc: Global, seed: &RandomState, count: usize) -> Result<CopiedParts, Fail> {
    let params = entries_of(alloc, seed, count)?;
    let mut members = Sequence::new(alloc);
    let mut items = Sequence::new(alloc);
    for _ in 0..count {
        members.push(Member::Item(plain(alloc, seed)))?;
        items.push(plain(alloc, seed))?;
    }
    Ok(CopiedParts {
        params: params.copy(alloc, seed)?,
        members: members.copy(alloc, seed)?,
        items: items.copy(alloc, seed)?,
    })
}

/// An Item in place.
fn plain(alloc: Global, seed: &RandomState) -> Item {
    Item::new(alloc, seed, Bare::Boolean(false))
}

/// How many entries with new keys can be added.
fn room_of_params(alloc: Global, params: &mut Entries<Bare>) -> usize {
    let len = params.len();
    for name in MORE_NAMES {
        let Ok(key) = Key::new(alloc, &[b'*', *name]) else {
            break;
        };
        if params.set(key, Bare::Boolean(true)).is_err() {
            break;
        }
    }
    params.len().saturating_sub(len)
}

/// How many members can be added.
fn room_of_members(alloc: Global, seed: &RandomState, members: &mut Sequence<Member>) -> usize {
    let len = members.len();
    for _ in MORE_NAMES {
        if members.push(Member::Item(plain(alloc, seed))).is_err() {
            break;
        }
    }
    members.len().saturating_sub(len)
}

/// How many Items can be added.
fn room_of_items(alloc: Global, seed: &RandomState, items: &mut Sequence<Item>) -> usize {
    let len = items.len();
    for _ in MORE_NAMES {
        if items.push(plain(alloc, seed)).is_err() {
            break;
        }
    }
    items.len().saturating_sub(len)
}

/// How many can be added to each, at most as many as there are more names.
fn room_of(alloc: Global, seed: &RandomState, copies: &mut CopiedParts) -> Room {
    Room {
        params: room_of_params(alloc, &mut copies.params),
        members: room_of_members(alloc, seed, &mut copies.members),
        items: room_of_items(alloc, seed, &mut copies.items),
    }
}

/// The same with no memory left; `None` if memory could not be made scarce.
fn room_without_memory(
    alloc: Global,
    seed: &RandomState,
    copies: &mut CopiedParts,
) -> Option<Room> {
    let mut scarcity = Scarcity::new(alloc).ok()?;
    if !scarcity.leave(alloc, 0) {
        return None;
    }
    Some(room_of(alloc, seed, copies))
}

// A vector grows to 4, 8, 16 and so on; more than 8 entries are in a map, with 9, 18 and so on.
#[test]
fn copies_have_the_room_of_additions(rt: HostRuntime) -> Result<(), Fail> {
    let alloc = rt.alloc();
    let seed = RandomState::new(&rt)?;
    // What is needed of the stack is taken before memory is scarce.
    let with_memory = room_of(alloc, &seed, &mut copies_of(alloc, &seed, 1)?);
    assert!(rt; with_memory.params == MORE_NAMES.len());
    for (count, entries, values) in [
        (1, 3, 3),
        (2, 2, 2),
        (4, 0, 0),
        (5, 3, 3),
        (8, 0, 0),
        (9, 0, 7),
        (10, 8, 6),
        (16, 2, 0usize),
    ] {
        let want = Room {
            params: entries,
            members: values,
            items: values,
        };
        let mut copies = copies_of(alloc, &seed, count)?;
        let found = room_without_memory(alloc, &seed, &mut copies);
        assert!(rt; found == Some(want), "{count}");
    }
    Ok(())
}

#[test]
fn comparing_takes_none(rt: HostRuntime) -> Result<(), Fail> {
    let seed = RandomState::new(&rt)?;
    let field = parse_text(rt.alloc(), &seed, Kind::Dict, MEMBERS)?;
    let equal = parse_text(rt.alloc(), &seed, Kind::Dict, MEMBERS)?;
    let other = parse_text(rt.alloc(), &seed, Kind::List, LISTED)?;
    expect_no_need(
        &rt,
        || seen_if(same(&field, &equal) && !same(&field, &other)),
    );
    Ok(())
}

fn make_empty(alloc: Global, seed: &RandomState) -> Seen {
    let entries = Entries::<Bare>::new(alloc, seed);
    let source = Reading::new(b"".as_slice());
    let sink = Writing::new(Vec::<u8>::new(alloc));
    seen_if(entries.is_empty() && source.given() == 0 && sink.failures() == 0)
}

#[test]
fn making_empty_takes_none(rt: HostRuntime) -> Result<(), Fail> {
    let alloc = rt.alloc();
    let seed = RandomState::new(&rt)?;
    expect_no_need(&rt, || make_empty(alloc, &seed));
    Ok(())
}
