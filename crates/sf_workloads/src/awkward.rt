//! Inputs that are hard on one part of the work: keys that are alike or repeated, thousands of
//! parameters, mistakes at either end of a long text, blanks around each comma, single bytes.

use crate::bench::{Bench, add_refusal};
use crate::large::{add_count, run_on};
use crate::random::Random;
use crate::texts::{put_number, put_numbered, put_times};
use sf_parse::{Parser, Refusal, parse_text};
use sf_tool::Request;
use sf_value::{Dialect, Field, Kind, OutOfMemory};
use sf_view::normalise;

/// How an input is awkward.
#[derive(Clone, Copy, Drop)]
enum Shape {
    /// Keys of one length with a common beginning and a common end.
    AlikeKeys,
    /// Every eighth key is one that was there before.
    RepeatedKeys,
    /// One Item with thousands of parameters.
    Parameters,
    /// A List with a mistake in its last byte.
    LateMistake,
    /// A List with a mistake in its first byte.
    EarlyMistake,
    /// Blanks around each comma.
    Blanks,
    /// Display Strings of nothing but escapes.
    Escapes,
    /// Inner Lists of many Items.
    LongInnerLists,
}

/// The shapes in turn.
const SHAPES: [Shape; 8] = [
    Shape::AlikeKeys,
    Shape::RepeatedKeys,
    Shape::Parameters,
    Shape::LateMistake,
    Shape::EarlyMistake,
    Shape::Blanks,
    Shape::Escapes,
    Shape::LongInnerLists,
];

/// Reads so many awkward texts.
pub(crate) fn answer(bench: &mut Bench, count: u64) -> anyhow::Result<()> {
    for number in 0..count {
        let shape = SHAPES[(number % 8) as usize];
        let members = match number / 8 % 4 {
            0 => 20 + bench.random.below(100),
            1 => 500 + bench.random.below(1_000),
            2 => 3_000 + bench.random.below(3_000),
            _ => 10_000 + bench.random.below(10_000),
        };
        let mut text = Vec::with_capacity(bench.alloc, 1_000_000)?;
        let kind = put_shape(&mut text, &mut bench.random, shape, members)?;
        read_text(bench, kind, text.as_slice())?;
    }
    Ok(())
}

/// Appends a text of a shape with so many members, and returns its kind.
fn put_shape(
    text: &mut Vec<u8>,
    random: &mut Random,
    shape: Shape,
    members: u64,
) -> Result<Kind, OutOfMemory> {
    let kind = match shape {
        Shape::AlikeKeys | Shape::RepeatedKeys => Kind::Dict,
        Shape::Parameters => Kind::Item,
        _ => Kind::List,
    };
    let number = random.below(1_000_000);
    if matches!(shape, Shape::Parameters) {
        put_number(text, number)?;
    }
    if matches!(shape, Shape::EarlyMistake) {
        text.extend_from_slice(b"=")?;
    }
    for place in 0..members {
        if place > 0 && !matches!(shape, Shape::Parameters) {
            text.extend_from_slice(if matches!(shape, Shape::Blanks) {
                b" \t  , \t ".as_slice()
            } else {
                b", ".as_slice()
            })?;
        }
        put_member(text, random, shape, number.wrapping_add(place))?;
    }
    if matches!(shape, Shape::LateMistake) {
        text.extend_from_slice(b"=")?;
    }
    Ok(kind)
}

/// Appends one member, or one parameter, with this number.
fn put_member(
    text: &mut Vec<u8>,
    random: &mut Random,
    shape: Shape,
    number: u64,
) -> Result<(), OutOfMemory> {
    match shape {
        Shape::AlikeKeys => {
            put_numbered(
                text,
                b"x-a-common-beginning-",
                number.wrapping_add(10_000_000),
            )?;
            text.extend_from_slice(b"-and-a-common-end=1")?;
            Ok(())
        }
        Shape::RepeatedKeys => {
            let key = if number % 8 == 7 {
                number.saturating_sub(5)
            } else {
                number
            };
            put_numbered(text, b"key", key)?;
            put_numbered(text, b"=", random.below(1_000))
        }
        Shape::Parameters => {
            put_numbered(text, b";p", number)?;
            put_numbered(text, b"=", random.below(1_000))
        }
        Shape::LateMistake | Shape::EarlyMistake => {
            put_numbered(text, b"t", number)?;
            put_numbered(text, b";q=", random.below(10))
        }
        Shape::Blanks => put_number(text, number),
        Shape::Escapes => {
            text.extend_from_slice(b"%\"")?;
            put_times(text, b"%e2%82%ac", 1 + random.below(8))?;
            text.extend_from_slice(b"\"")?;
            Ok(())
        }
        Shape::LongInnerLists => {
            put_numbered(text, b"(", number)?;
            put_times(text, b" 1.5", random.below(16))?;
            text.extend_from_slice(b")")?;
            Ok(())
        }
    }
}

/// Normalises a text, parses it whole and in chunks of up to 16 bytes, and checks it.
fn read_text(bench: &mut Bench, kind: Kind, text: &[u8]) -> anyhow::Result<()> {
    let dialect = Dialect::Rfc9651;
    match normalise(bench.alloc, &bench.seed, dialect, kind, text) {
        Ok(text) => bench.digest.bytes(text.as_slice()),
        Err(refusal) => {
            let message = format!(in bench.alloc; "{refusal}")?;
            bench.digest.bytes(message.as_bytes());
        }
    }
    let whole = parse_text(bench.alloc, &bench.seed, kind, text);
    add_parsed(bench, whole);
    let chunked = parse_chunks(bench, kind, text);
    add_parsed(bench, chunked);
    run_on(bench, &Request::Check(dialect, kind), text)
}

/// The field of a text that is fed in chunks of 1 to 16 bytes.
fn parse_chunks(bench: &mut Bench, kind: Kind, text: &[u8]) -> Result<Field, Refusal> {
    let mut parser = Parser::new(bench.alloc, &bench.seed, kind, 10_000_000);
    let size = 1 + bench.random.below(16) as usize;
    for chunk in text.chunks(size) {
        parser.feed(chunk)?;
    }
    parser.finish()
}

/// Adds the number of members, or a refusal.
fn add_parsed(bench: &mut Bench, parsed: Result<Field, Refusal>) {
    match parsed {
        Ok(field) => add_count(bench, &field),
        Err(refusal) => add_refusal(&mut bench.digest, refusal),
    }
}
