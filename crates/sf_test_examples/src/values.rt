//! Values that are built, compared and written.
use sf_parse::{parse_item, parse_list, parse_text};
use sf_value::{Bare, Field, Int, Item, Key, Kind, List, Token, Writing};
use sf_write::{display, to_string, write_field};
use std::alloc::Global;
use std::hash::RandomState;
use std::test::Fail;

/// The Item `a;q=1`.
fn build(alloc: Global, seed: &RandomState) -> Result<Field, Fail> {
    let item = Item::new(alloc, seed, Token::new(alloc, b"a")?.into()).with_param(
        Key::new(alloc, b"q")?,
        Bare::Integer(Int::from(1)),
    )?;
    Ok(item.into())
}

/// What a Dictionary says under `u`, if that is an Integer.
fn urgency(field: &Field) -> Option<i64> {
    let number = field.as_dict()?.get(b"u")?.as_item()?.bare.as_integer()?;
    Some(number.get())
}

#[test]
fn a_look_at_a_value(rt: HostRuntime) -> Result<(), Fail> {
    let alloc = rt.alloc();
    let seed = RandomState::new(&rt)?;
    let field = parse_text(alloc, &seed, Kind::Dict, b"u=1,  i=?1")?;
    assert_eq!(&rt; urgency(&field), Some(1));
    Ok(())
}

#[test]
fn a_value(rt: HostRuntime) -> Result<(), Fail> {
    let alloc = rt.alloc();
    let seed = RandomState::new(&rt)?;
    let field = build(alloc, &seed)?;
    let mut out = Writing::new(Vec::new(alloc));
    let length = write_field(&field, &mut out)?;
    assert_eq!(&rt; length, 5);
    assert_eq!(&rt; out.into_inner().as_slice(), b"a;q=1".as_slice());
    Ok(())
}

#[test]
fn a_text_to_be_printed(rt: HostRuntime) -> Result<(), Fail> {
    let alloc = rt.alloc();
    let seed = RandomState::new(&rt)?;
    let field = build(alloc, &seed)?;
    let text = to_string(alloc, &field)?;
    assert_eq!(&rt; text.as_str(), "a;q=1");
    Ok(())
}

#[test]
fn a_value_that_is_printed(rt: HostRuntime) -> Result<(), Fail> {
    let alloc = rt.alloc();
    let seed = RandomState::new(&rt)?;
    let field = build(alloc, &seed)?;
    println!(&rt; "{}", display(&field))?;
    assert_eq!(&rt; display(&field).to_string(alloc)?.as_str(), "a;q=1");
    Ok(())
}

/// The Item with `q`, at the end of the List.
fn change(alloc: Global, mut item: Item, mut list: List) -> Result<List, Fail> {
    item.params
        .set(Key::new(alloc, b"q")?, Bare::Boolean(true))?;
    list.members.push(item.into())?;
    Ok(list)
}

#[test]
fn a_value_that_is_changed(rt: HostRuntime) -> Result<(), Fail> {
    let alloc = rt.alloc();
    let seed = RandomState::new(&rt)?;
    let item = parse_item(alloc, &seed, b"a;q=1")?;
    let list = change(alloc, item, parse_list(alloc, &seed, b"b")?)?;
    assert_eq!(&rt; to_string(alloc, &list.into())?.as_str(), "b, a;q");
    Ok(())
}

/// The Item with each of its parameters true.
fn change_all(mut item: Item) -> Item {
    let mut values = item.params.iter_mut();
    while let Some(value) = values.next() {
        *value = Bare::Boolean(true);
    }
    item
}

#[test]
fn values_that_are_changed_in_turn(rt: HostRuntime) -> Result<(), Fail> {
    let alloc = rt.alloc();
    let seed = RandomState::new(&rt)?;
    let item = change_all(parse_item(alloc, &seed, b"a;q=1;r=x")?);
    assert_eq!(&rt; to_string(alloc, &item.into())?.as_str(), "a;q;r");
    Ok(())
}

#[test]
fn equal_values(rt: HostRuntime) -> Result<(), Fail> {
    let alloc = rt.alloc();
    let seed = RandomState::new(&rt)?;
    let field = build(alloc, &seed)?;
    let parsed = parse_text(alloc, &seed, Kind::Item, b" a;  q=01")?;
    assert!(&rt; field == parsed);
    let list = parse_text(alloc, &seed, Kind::List, b"a;q=1")?;
    assert!(&rt; field != list);
    Ok(())
}
