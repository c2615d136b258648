//! What a server does with each request: the priority that the client and the origin ask for.

use crate::bench::Bench;
use crate::fields::put_priority;
use sf_field::{ask, header_value};
use sf_parse::parse_dict;
use sf_use::{Asked, Priority, PriorityField, merge, update_priority};
use sf_value::{Blob, Field};

/// The numbers of the fields are below this.
const NUMBERS: u64 = 10_000_000;

/// Answers so many requests.
pub(crate) fn answer(bench: &mut Bench, count: u64) -> anyhow::Result<()> {
    let mut text = Vec::with_capacity(bench.alloc, 64)?;
    let mut number = bench.random.below(NUMBERS);
    for _ in 0..count {
        number = number.wrapping_add(2) % NUMBERS;
        answer_one(bench, &mut text, number)?;
    }
    Ok(())
}

/// A line with a Priority field, which is made in the buffer.
fn line(bench: &mut Bench, text: &mut Vec<u8>, number: u64) -> anyhow::Result<Blob> {
    text.clear();
    put_priority(text, &mut bench.random, number)?;
    Ok(Blob::new(bench.alloc, text.as_slice())?)
}

/// What a line asks for; nothing if it is refused.
fn asked(bench: &Bench, line: &Blob) -> Asked {
    match ask(
        bench.alloc,
        &bench.seed,
        &PriorityField,
        std::slice::from_ref(line),
    ) {
        Ok(asked) => asked,
        Err(_) => Asked {
            urgency: None,
            incremental: None,
        },
    }
}

/// Merges the priorities of a request and its response; in one of eight, sets the merged priority in
/// the response's field.
fn answer_one(bench: &mut Bench, text: &mut Vec<u8>, number: u64) -> anyhow::Result<()> {
    let request = line(bench, text, number)?;
    let client = asked(bench, &request);
    let response = line(bench, text, number.wrapping_add(1))?;
    let server = asked(bench, &response);
    let priority = merge(client, server).with_defaults();
    add_priority(bench, &priority);
    if bench.random.one_in(8) {
        let dict = parse_dict(bench.alloc, &bench.seed, response.as_bytes())?;
        let merged = Asked {
            urgency: Some(priority.urgency),
            incremental: Some(priority.incremental),
        };
        let dict = update_priority(bench.alloc, &bench.seed, dict, merged)?;
        let value = header_value(bench.alloc, &Field::Dict(dict))?;
        bench.digest.bytes(value.as_bytes());
    }
    Ok(())
}

/// Adds a priority.
fn add_priority(bench: &mut Bench, priority: &Priority) {
    bench.digest.number(u64::from(priority.urgency.get()));
    bench.digest.number(u64::from(priority.incremental));
}
