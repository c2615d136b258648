//! Calls on a value, which is parsed before.

use crate::record::Record;
use crate::session::{Session, count_of};
use anyhow::anyhow;
use sf_use::{Priority, merge, priority_field, update_priority};
use sf_value::{Bare, Dict, Field, Item, Key, Writing, copy};
use sf_write::{to_text, write_field};
use std::hash::RandomState;

/// The keys that are added to a copy.
const KEYS: [&[u8]; 8] = [b"za", b"zb", b"zc", b"zd", b"ze", b"zf", b"zg", b"zh"];

/// Makes the calls of an operation on a value; `false` if it is no such operation.
pub(crate) fn answer(session: &mut Session, record: &Record) -> anyhow::Result<bool> {
    match record.operation {
        "to_text" => write_texts(session, record)?,
        "write_field" => write_fields(session, record)?,
        "copy" => copy_values(session, record)?,
        "same" => compare_values(session, record)?,
        "get" => look_up(session, record)?,
        "remove" => remove_first(session, record)?,
        "update_priority" => update_priorities(session, record)?,
        "priority_field" => write_priorities(session, record)?,
        _ => return Ok(false),
    }
    Ok(true)
}

fn write_texts(session: &mut Session, record: &Record) -> anyhow::Result<()> {
    let field = session.value_of(record)?;
    session.calls_begin();
    for _ in 0..record.times {
        let text = to_text(session.alloc, &field)?;
        session.digest.bytes(text.as_slice());
    }
    session.calls_end();
    Ok(())
}

fn write_fields(session: &mut Session, record: &Record) -> anyhow::Result<()> {
    let field = session.value_of(record)?;
    session.calls_begin();
    for _ in 0..record.times {
        let mut sink = Writing::new(Vec::with_capacity(session.alloc, record.text.len())?);
        let length = write_field(&field, &mut sink)?;
        session.digest.number(length);
    }
    session.calls_end();
    Ok(())
}

/// Copies a value with another seed so many times, and adds as many members as the parameter says
/// to each copy, at most eight.
fn copy_values(session: &mut Session, record: &Record) -> anyhow::Result<()> {
    let field = session.value_of(record)?;
    session.calls_begin();
    for _ in 0..record.times {
        let mut copied = copy(session.alloc, &session.other_seed, &field)?;
        for key in KEYS.iter().take(record.parameter) {
            copied = with_more(session, copied, key)?;
        }
        session.digest.number(count_of(&copied));
    }
    session.calls_end();
    Ok(())
}

/// The value with one more member, or an Item with one more parameter.
fn with_more(session: &Session, field: Field, key: &[u8]) -> anyhow::Result<Field> {
    let key = Key::new(session.alloc, key)?;
    match field {
        Field::Dict(dict) => {
            let mut dict = dict;
            let item = Item::new(session.alloc, &session.seed, Bare::Boolean(true));
            dict.members.set(key, item.into())?;
            Ok(Field::Dict(dict))
        }
        Field::List(list) => {
            let item = Item::new(session.alloc, &session.seed, Bare::Boolean(true));
            Ok(Field::List(list.with(item.into())?))
        }
        Field::Item(item) => Ok(Field::Item(item.with_param(key, Bare::Boolean(true))?)),
    }
}

fn compare_values(session: &mut Session, record: &Record) -> anyhow::Result<()> {
    let field = session.value_of(record)?;
    let copied = copy(session.alloc, &session.seed, &field)?;
    session.calls_begin();
    for _ in 0..record.times {
        session.digest.number(u64::from(field == copied));
    }
    session.calls_end();
    Ok(())
}

/// Looks up each key of a Dictionary in its copy, which has another seed, so many times.
fn look_up(session: &mut Session, record: &Record) -> anyhow::Result<()> {
    let field = session.value_of(record)?;
    let copied = copy(session.alloc, &session.other_seed, &field)?;
    session.calls_begin();
    for _ in 0..record.times {
        session.digest.number(found_in(&field, &copied));
    }
    session.calls_end();
    Ok(())
}

/// How many keys of the one Dictionary the other has.
fn found_in(one: &Field, other: &Field) -> u64 {
    let (Field::Dict(one), Field::Dict(other)) = (one, other) else {
        return 0;
    };
    let mut found = 0u64;
    for (key, _) in one.members.iter() {
        found = found.wrapping_add(u64::from(other.members.contains_key(key)));
    }
    found
}

/// Removes the first member, or the first parameter of an Item, once.
fn remove_first(session: &mut Session, record: &Record) -> anyhow::Result<()> {
    let mut field = session.value_of(record)?;
    let key = first_key(session, &field)?;
    session.calls_begin();
    let is_removed = match &mut field {
        Field::Item(item) => item.params.remove(key.as_slice()).is_some(),
        Field::Dict(dict) => dict.members.remove(key.as_slice()).is_some(),
        Field::List(list) => {
            let has_one = !list.members.is_empty();
            if has_one {
                list.members.remove(0);
            }
            has_one
        }
    };
    session.calls_end();
    session.digest.number(u64::from(is_removed));
    session.digest.number(count_of(&field));
    Ok(())
}

/// The first key of a Dictionary, or of the parameters of an Item; empty if there is none.
fn first_key(session: &Session, field: &Field) -> anyhow::Result<Vec<u8>> {
    let key = match field {
        Field::Item(item) => item.params.at(0).map_or(b"".as_slice(), |(key, _)| key),
        Field::Dict(dict) => dict.members.at(0).map_or(b"".as_slice(), |(key, _)| key),
        Field::List(_) => b"".as_slice(),
    };
    let mut copied = Vec::new(session.alloc);
    copied.extend_from_slice(key)?;
    Ok(copied)
}

/// Updates the priority in a Dictionary so many times.
fn update_priorities(session: &mut Session, record: &Record) -> anyhow::Result<()> {
    let Field::Dict(dict) = session.value_of(record)? else {
        return Err(anyhow!("no Dictionary"));
    };
    let mut dict = dict;
    session.calls_begin();
    for _ in 0..record.times {
        let client = Priority::from_dict(&dict);
        let server = Priority::from_dict(&dict);
        dict = update_priority(session.alloc, &session.seed, dict, merge(client, server))?;
        session.digest.number(dict.members.len() as u64);
    }
    session.calls_end();
    Ok(())
}

/// Makes the Dictionary of what a Priority field asks for so many times.
fn write_priorities(session: &mut Session, record: &Record) -> anyhow::Result<()> {
    let Field::Dict(dict) = session.value_of(record)? else {
        return Err(anyhow!("no Dictionary"));
    };
    session.calls_begin();
    for _ in 0..record.times {
        let priority = Priority::from_dict(&dict).with_defaults();
        let made = made_priority(session, priority)?;
        session.digest.number(made.members.len() as u64);
    }
    session.calls_end();
    Ok(())
}

fn made_priority(session: &Session, priority: Priority) -> anyhow::Result<Dict> {
    let seed: &RandomState = &session.seed;
    Ok(priority_field(session.alloc, seed, priority)?)
}
