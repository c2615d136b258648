//! Large fields, of 64 KiB to 1 MiB, through the command, the parser and a reader; and heads of
//! messages through the command `sflint`.

use crate::bench::{Bench, add_refusal};
use crate::fields::{USUAL, put_directives, put_hops, put_priority, put_signature_input};
use crate::random::Random;
use crate::texts::{put_base64, put_number, put_numbered};
use sf_lint::Settings;
use sf_parse::{parse_reader, parse_text};
use sf_tool::{ErrorStream, Request, run};
use sf_value::{Dialect, Field, Kind, OutOfMemory, Reading, Writing};

/// What a large field has.
#[derive(Clone, Copy, Drop)]
enum Shape {
    Keys,
    Integers,
    Tokens,
    InnerLists,
    Strings,
    DisplayStrings,
    Blobs,
    Mixed,
}

/// The shapes in turn.
const SHAPES: [Shape; 8] = [
    Shape::Keys,
    Shape::Integers,
    Shape::Tokens,
    Shape::InnerLists,
    Shape::Strings,
    Shape::DisplayStrings,
    Shape::Blobs,
    Shape::Mixed,
];

/// Reads so many large fields, each in each way; after each eight of them, an input of heads.
pub(crate) fn answer(bench: &mut Bench, count: u64) -> anyhow::Result<()> {
    for number in 0..count {
        let shape = SHAPES[(number % 8) as usize];
        let size = size_of(bench, number);
        let mut text = Vec::with_capacity(bench.alloc, (size as usize).saturating_add(1024))?;
        let kind = put_shape(&mut text, &mut bench.random, shape, size)?;
        read_text(bench, kind, text.as_slice())?;
        if number % 8 == 7 {
            lint_heads(bench, size)?;
        }
    }
    Ok(())
}

/// A length from 64 KiB on; the first 8 texts have up to 128 KiB, the next 8 up to 256, and so on,
/// and after those of up to 1 MiB they begin again.
fn size_of(bench: &mut Bench, number: u64) -> u64 {
    let least = match number / 8 % 4 {
        0 => 64_000,
        1 => 128_000,
        2 => 256_000,
        _ => 512_000,
    };
    bench.random.below(least).saturating_add(least)
}

/// Appends members of a shape until the text has this length, and returns the kind.
fn put_shape(
    text: &mut Vec<u8>,
    random: &mut Random,
    shape: Shape,
    size: u64,
) -> Result<Kind, OutOfMemory> {
    let mut number = random.below(1_000);
    for _ in 0..size {
        if text.len() as u64 >= size {
            break;
        }
        if !text.is_empty() {
            text.extend_from_slice(b", ")?;
        }
        number = number.wrapping_add(1);
        put_member(text, random, shape, number)?;
    }
    Ok(match shape {
        Shape::Keys | Shape::Mixed => Kind::Dict,
        _ => Kind::List,
    })
}

/// Appends one member; those of a Dictionary have the number in their key.
fn put_member(
    text: &mut Vec<u8>,
    random: &mut Random,
    shape: Shape,
    number: u64,
) -> Result<(), OutOfMemory> {
    let value = random.next();
    match shape {
        Shape::Keys => {
            put_numbered(text, b"k", number)?;
            put_numbered(text, b"=", value % 1_000)
        }
        Shape::Integers => put_number(text, value % 100),
        Shape::Tokens => {
            put_numbered(text, b"t", value % 100_000)?;
            put_numbered(text, b";q=0.", value % 10)
        }
        Shape::InnerLists => {
            put_numbered(text, b"(", value % 100)?;
            put_numbered(text, b" a", value % 1_000)?;
            text.extend_from_slice(b" b);x")?;
            Ok(())
        }
        Shape::Strings => {
            put_numbered(text, b"\"some text of a log, ", value % 100_000)?;
            text.extend_from_slice(b" with \\\"quotes\\\" and \\\\\"")?;
            Ok(())
        }
        Shape::DisplayStrings => {
            put_numbered(text, b"%\"Gr%c3%bc%c3%9fe %e2%82%ac", value % 1_000)?;
            text.extend_from_slice(b" %f0%9f%98%80\"")?;
            Ok(())
        }
        Shape::Blobs => {
            text.extend_from_slice(b":")?;
            put_base64(text, random, 32)?;
            text.extend_from_slice(b":")?;
            Ok(())
        }
        Shape::Mixed => {
            put_numbered(text, b"m", number)?;
            match value % 4 {
                0 => put_numbered(text, b";a=", value % 100),
                1 => put_numbered(text, b"=(1 2);b=", value % 100),
                2 => put_numbered(text, b"=@", value % 1_000_000_000),
                _ => put_numbered(text, b"=1.5;c=t", value % 100),
            }
        }
    }
}

/// Reads a text by the command in three ways, by the parser, and by a reader.
fn read_text(bench: &mut Bench, kind: Kind, text: &[u8]) -> anyhow::Result<()> {
    let dialect = Dialect::Rfc9651;
    run_on(bench, &Request::Check(dialect, kind), text)?;
    run_on(bench, &Request::Normalise(dialect, kind), text)?;
    run_on(bench, &Request::Show(dialect, kind), text)?;
    match parse_text(bench.alloc, &bench.seed, kind, text) {
        Ok(field) => add_count(bench, &field),
        Err(refusal) => add_refusal(&mut bench.digest, refusal),
    }
    let mut source = Reading::new(text);
    match parse_reader(bench.alloc, &bench.seed, kind, 2_000_000, &mut source) {
        Ok(field) => add_count(bench, &field),
        Err(refusal) => add_refusal(&mut bench.digest, refusal),
    }
    Ok(())
}

/// Runs a request of the command on an input, and adds its answer and its status.
pub(crate) fn run_on(bench: &mut Bench, request: &Request, text: &[u8]) -> anyhow::Result<()> {
    let mut source = Reading::new(text);
    let mut sink = Writing::new(Vec::with_capacity(bench.alloc, text.len().saturating_mul(4))?);
    let mut errors = ErrorStream {
        device: Writing::new(Vec::new(bench.alloc)),
        is_terminal: false,
    };
    let status = run(
        bench.alloc,
        &bench.seed,
        request,
        &mut source,
        &mut sink,
        &mut errors,
    );
    bench.digest.number(u64::from(status.code()));
    bench.digest.bytes(sink.into_inner().as_slice());
    Ok(())
}

/// Adds the number of members.
pub(crate) fn add_count(bench: &mut Bench, field: &Field) {
    let count = match field {
        Field::Item(item) => item.params.len(),
        Field::List(list) => list.members.len(),
        Field::Dict(dict) => dict.members.len(),
    };
    bench.digest.number(count as u64);
}

/// Runs `sflint` on heads of about this length in all.
fn lint_heads(bench: &mut Bench, size: u64) -> anyhow::Result<()> {
    let mut text = Vec::with_capacity(bench.alloc, (size as usize).saturating_add(1024))?;
    for _ in 0..size {
        if text.len() as u64 >= size {
            break;
        }
        put_head(bench, &mut text)?;
    }
    let settings = Settings {
        fields: Vec::new(bench.alloc),
        quiet: false,
        colour: false,
    };
    let mut source = Reading::new(text.as_slice());
    let mut sink = Writing::new(Vec::with_capacity(bench.alloc, text.len().saturating_mul(4))?);
    let status = sf_lint::run(bench.alloc, &bench.seed, &settings, &mut source, &mut sink);
    bench.digest.number(u64::from(status.code()));
    bench.digest.bytes(sink.into_inner().as_slice());
    Ok(())
}

/// Appends the head of a response with five structured fields, one of them refused now and then.
fn put_head(bench: &mut Bench, text: &mut Vec<u8>) -> anyhow::Result<()> {
    let random = &mut bench.random;
    text.extend_from_slice(b"HTTP/2 200\r\nserver: nginx\r\n")?;
    put_numbered(text, b"content-length: ", random.below(1_000_000))?;
    text.extend_from_slice(b"\r\ncache-status: ")?;
    let hops = 1 + random.below(2);
    put_hops(text, random, USUAL, hops)?;
    text.extend_from_slice(b"\r\ncdn-cache-control: ")?;
    put_directives(text, random, USUAL)?;
    text.extend_from_slice(b"\r\npriority: ")?;
    let number = random.below(10_000_000);
    put_priority(text, random, number)?;
    if random.one_in(20) {
        text.extend_from_slice(b"=")?;
    }
    text.extend_from_slice(b"\r\nsignature-input: ")?;
    put_signature_input(text, random, USUAL)?;
    text.extend_from_slice(b"\r\naccept-ch: Sec-CH-UA-Model, DPR, ")?;
    put_numbered(text, b"ECT-", random.below(1_000))?;
    text.extend_from_slice(b"\r\n\r\n")?;
    Ok(())
}
