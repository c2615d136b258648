//! Cache keys and logs: many short fields are normalised, and what is refused is explained.

use crate::bench::{Bench, add_refusal};
use crate::fields::{any_style, put_any};
use sf_field::normalise_lines;
use sf_parse::Refusal;
use sf_value::{Blob, Dialect, Kind};
use sf_view::normalise;

/// Normalises so many fields: some 5 % of them malformed, 3 % with a repeated key, and a tenth on
/// several lines.
pub(crate) fn answer(bench: &mut Bench, count: u64) -> anyhow::Result<()> {
    let mut text = Vec::with_capacity(bench.alloc, 1024)?;
    for _ in 0..count {
        text.clear();
        let style = any_style(&mut bench.random);
        let kind = put_any(&mut text, &mut bench.random, style)?;
        if bench.random.one_in(20) {
            spoil(bench, &mut text);
        }
        if matches!(kind, Kind::Dict) && bench.random.one_in(16) {
            let again: Vec<u8> = text.clone()?;
            text.extend_from_slice(b", ")?;
            text.extend_from_slice(again.as_slice())?;
        }
        if bench.random.one_in(2) {
            let made = normalise(
                bench.alloc,
                &bench.seed,
                Dialect::Rfc9651,
                kind,
                text.as_slice(),
            );
            add_normal(bench, made)?;
        } else {
            let made = by_lines(bench, kind, text.as_slice())?;
            add_normal(bench, made)?;
        }
    }
    Ok(())
}

/// Replaces a byte of the text by one that is seldom allowed.
fn spoil(bench: &mut Bench, text: &mut Vec<u8>) {
    let place = bench.random.below(text.len() as u64) as usize;
    let byte = *b"=,!]%"
        .get(bench.random.below(5) as usize)
        .unwrap_or(&b'=');
    if let Some(old) = text.as_mut_slice().get_mut(place) {
        *old = byte;
    }
}

/// The canonical text of a field on one line or, in one of five texts, on two.
fn by_lines(
    bench: &mut Bench,
    kind: Kind,
    text: &[u8],
) -> anyhow::Result<Result<Vec<u8>, Refusal>> {
    let mut lines = Vec::new(bench.alloc);
    if bench.random.one_in(5) && !matches!(kind, Kind::Item) {
        let cut = (text.len() / 2..text.len())
            .find(|place| text.get(*place) == Some(&b','))
            .unwrap_or(0);
        let (first, second) = text.split_at_checked(cut).unwrap_or((text, b""));
        if let Some((_, second)) = second.split_first() {
            lines.push(Blob::new(bench.alloc, first)?)?;
            lines.push(Blob::new(bench.alloc, second)?)?;
        } else {
            lines.push(Blob::new(bench.alloc, text)?)?;
        }
    } else {
        lines.push(Blob::new(bench.alloc, text)?)?;
    }
    Ok(normalise_lines(bench.alloc, &bench.seed, kind, lines.as_slice()))
}

/// Adds a canonical text, or the message of a refusal.
fn add_normal(bench: &mut Bench, made: Result<Vec<u8>, Refusal>) -> anyhow::Result<()> {
    match made {
        Ok(text) => bench.digest.bytes(text.as_slice()),
        Err(refusal) => {
            add_refusal(&mut bench.digest, refusal);
            let message = format!(in bench.alloc; "{refusal}")?;
            bench.digest.bytes(message.as_bytes());
        }
    }
    Ok(())
}
