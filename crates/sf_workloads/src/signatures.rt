//! Fields that are read, looked up, changed, compared and written: signatures, client hints,
//! policies and digests.

use crate::bench::Bench;
use crate::fields::{
    USUAL, put_brands, put_digest, put_hints, put_permissions, put_signature_input,
};
use sf_parse::{Parser, Refusal, parse_text};
use sf_value::{Bare, Field, Int, Key, Kind, Member, Writing, copy};
use sf_write::{to_text, write_field};

/// Reads, changes and writes so many fields.
pub(crate) fn answer(bench: &mut Bench, count: u64) -> anyhow::Result<()> {
    let mut text = Vec::with_capacity(bench.alloc, 1024)?;
    for _ in 0..count {
        text.clear();
        let kind = put_one(bench, &mut text)?;
        let field = if bench.random.one_in(10) {
            parse_chunks(bench, kind, text.as_slice())?
        } else {
            parse_text(bench.alloc, &bench.seed, kind, text.as_slice())?
        };
        use_field(bench, field)?;
    }
    Ok(())
}

/// Appends one of the fields.
fn put_one(bench: &mut Bench, text: &mut Vec<u8>) -> anyhow::Result<Kind> {
    let random = &mut bench.random;
    match random.below(8) {
        0..3 => put_signature_input(text, random, USUAL)?,
        3 | 4 => put_digest(text, random, USUAL)?,
        5 => put_permissions(text, random, USUAL)?,
        6 => {
            put_brands(text, random, USUAL)?;
            return Ok(Kind::List);
        }
        _ => {
            put_hints(text, random, USUAL)?;
            return Ok(Kind::List);
        }
    }
    Ok(Kind::Dict)
}

/// The field of a text that a socket gives in chunks of at most 64 bytes.
pub(crate) fn parse_chunks(bench: &mut Bench, kind: Kind, text: &[u8]) -> Result<Field, Refusal> {
    let mut parser = Parser::new(bench.alloc, &bench.seed, kind, 1_000_000);
    let mut rest = text;
    for _ in 0..text.len() {
        if rest.is_empty() {
            break;
        }
        let size = (1 + bench.random.below(64)).min(rest.len() as u64) as usize;
        let (chunk, more) = rest.split_at(size);
        parser.feed(chunk)?;
        rest = more;
    }
    parser.finish()
}

/// Looks up parts of a field, and writes a changed copy that is compared with it.
fn use_field(bench: &mut Bench, field: Field) -> anyhow::Result<()> {
    look_up(bench, &field);
    let copied = copy(bench.alloc, &bench.seed, &field)?;
    let other = changed(bench, copied)?;
    bench.digest.number(u64::from(field == other));
    let text = to_text(bench.alloc, &other)?;
    bench.digest.bytes(text.as_slice());
    if bench.random.one_in(4) {
        let mut sink = Writing::new(Vec::with_capacity(bench.alloc, 512)?);
        write_field(&field, &mut sink)?;
        bench.digest.bytes(sink.into_inner().as_slice());
    }
    Ok(())
}

/// Adds the parts that a reader of these fields looks up.
fn look_up(bench: &mut Bench, field: &Field) {
    match field {
        Field::Dict(dict) => {
            for key in [
                b"sig1".as_slice(),
                b"sha-256".as_slice(),
                b"sha-512".as_slice(),
                b"sync-xhr".as_slice(),
            ] {
                if let Some(member) = dict.get(key) {
                    add_member(bench, member);
                }
            }
        }
        Field::List(list) => {
            for member in list.members.iter() {
                add_member(bench, member);
            }
        }
        Field::Item(item) => add_bare(bench, &item.bare),
    }
}

/// Adds what a member says.
fn add_member(bench: &mut Bench, member: &Member) {
    match member {
        Member::Item(item) => {
            add_bare(bench, &item.bare);
            if let Some(version) = item.param(b"v") {
                add_bare(bench, version);
            }
        }
        Member::Inner(inner) => {
            for item in inner.items.iter() {
                add_bare(bench, &item.bare);
            }
            for key in [
                b"created".as_slice(),
                b"keyid".as_slice(),
                b"alg".as_slice(),
                b"nonce".as_slice(),
            ] {
                if let Some(bare) = inner.param(key) {
                    add_bare(bench, bare);
                }
            }
        }
    }
}

/// Adds a bare item.
fn add_bare(bench: &mut Bench, bare: &Bare) {
    match bare {
        Bare::Integer(number) | Bare::Date(number) => {
            bench.digest.number(number.get().unsigned_abs());
        }
        Bare::Decimal(number) => bench.digest.number(number.get().unsigned_abs()),
        Bare::Text(text) => bench.digest.bytes(text.as_bytes()),
        Bare::Token(token) => bench.digest.bytes(token.as_bytes()),
        Bare::Blob(blob) => bench.digest.bytes(blob.as_bytes()),
        Bare::Boolean(value) => bench.digest.number(u64::from(*value)),
        Bare::Shown(shown) => bench.digest.bytes(shown.as_bytes()),
    }
}

/// The field with another expiry: a parameter of each Inner List, or a member.
fn changed(bench: &mut Bench, field: Field) -> anyhow::Result<Field> {
    let seconds = 1_700_000_000 + bench.random.below(1_000_000) as i64;
    let expires = Bare::Integer(Int::new(seconds)?);
    let key = Key::new(bench.alloc, b"expires")?;
    match field {
        Field::Dict(dict) => {
            let mut dict = dict;
            if let Some(Member::Inner(inner)) = dict.members.get_mut(b"sig1") {
                inner.params.set(key, expires)?;
            } else {
                let item = sf_value::Item::new(bench.alloc, &bench.seed, expires);
                dict.members.set(key, item.into())?;
            }
            Ok(Field::Dict(dict))
        }
        Field::List(list) => {
            let item = sf_value::Item::new(bench.alloc, &bench.seed, expires);
            Ok(Field::List(list.with(item.into())?))
        }
        Field::Item(item) => Ok(Field::Item(item.with_param(key, expires)?)),
    }
}
