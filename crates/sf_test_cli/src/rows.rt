//! One row of a table, run in every way.
use sf_test_io::{Paced, Tally, Trickle};
use sf_tool::{ErrorStream, Request, Status, run};
use sf_value::{Reading, Sink, Source, Writing};
use std::alloc::Global;
use std::hash::RandomState;
use std::process::Abort;

pub(crate) const ACCEPTED: Status = Status::Accepted;

pub(crate) const REFUSED: Status = Status::Refused;

/// An input, the whole output for it, and the status.
pub(crate) type Row = (&'static [u8], &'static [u8], Status);

/// Runs where standard error is no terminal, and nothing is written to it.
pub(crate) fn run_unseen<R: Source, W: Sink>(
    rt: &(impl Abort + AllocGlobal),
    seed: &RandomState,
    request: &Request,
    source: &mut R,
    sink: &mut W,
) -> Status {
    let mut errors = ErrorStream {
        device: Tally::new(rt.alloc()),
        is_terminal: false,
    };
    let answer = run(rt.alloc(), seed, request, source, sink, &mut errors);
    assert_eq!(rt; errors.device.calls, 0);
    answer
}

/// The input read at this pace, with a pause after so many bytes.
fn expect_paced(
    rt: &(impl Abort + AllocGlobal),
    seed: &RandomState,
    request: &Request,
    row: Row,
    pace: usize,
    pause: u64,
) {
    let (input, text, status) = row;
    let mut source = Paced::new(input, pace, pause, 0);
    let mut sink = Writing::new(Vec::new(rt.alloc()));
    let answer = run_unseen(rt, seed, request, &mut source, &mut sink);
    let written = sink.into_inner();
    assert_eq!(rt; written.as_slice(), text);
    assert_eq!(rt; answer, status);
    assert_eq!(rt; source.ends, 1);
}

/// The input as a reader in memory gives it.
pub(crate) fn expect_whole(
    rt: &(impl Abort + AllocGlobal),
    seed: &RandomState,
    request: &Request,
    row: Row,
) {
    let (input, text, status) = row;
    let mut source = Reading::new(input);
    let mut sink = Writing::new(Vec::new(rt.alloc()));
    let answer = run_unseen(rt, seed, request, &mut source, &mut sink);
    let written = sink.into_inner();
    assert_eq!(rt; written.as_slice(), text);
    assert_eq!(rt; answer, status);
}

/// The read after so many that gave a byte fails: nothing was written.
fn expect_failed_read(
    rt: &(impl Abort + AllocGlobal),
    seed: &RandomState,
    request: &Request,
    input: &[u8],
    fails_at: u64,
) {
    let mut source = Paced::new(input, 1, 0, fails_at);
    let mut sink = Trickle::new(rt.alloc(), 0);
    let answer = run_unseen(rt, seed, request, &mut source, &mut sink);
    assert_eq!(rt; answer, Status::Stopped);
    assert_eq!(rt; source.calls, fails_at);
    assert_eq!(rt; sink.calls, 0);
}

/// The write of the byte after this prefix of the output fails: the prefix was written.
fn expect_failed_write(
    rt: &(impl Abort + AllocGlobal),
    seed: &RandomState,
    request: &Request,
    input: &[u8],
    prefix: &[u8],
) {
    let calls = (prefix.len() as u64).saturating_add(1);
    let mut source = Reading::new(input);
    let mut sink = Trickle::new(rt.alloc(), calls);
    let answer = run_unseen(rt, seed, request, &mut source, &mut sink);
    assert_eq!(rt; answer, Status::Stopped);
    assert_eq!(rt; sink.taken.as_slice(), prefix);
    assert_eq!(rt; sink.calls, calls);
}

/// A row read whole, a byte at a time and in every cutting into two reads, with each read and each
/// write failing in turn.
fn expect_row(rt: &(impl Abort + AllocGlobal), seed: &RandomState, request: &Request, row: Row) {
    let (input, text, _) = row;
    expect_whole(rt, seed, request, row);
    expect_paced(rt, seed, request, row, 1, 0);
    for cut in 0..=input.len() {
        expect_paced(rt, seed, request, row, 512, cut as u64);
        expect_failed_read(rt, seed, request, input, (cut as u64).saturating_add(1));
    }
    for place in 0..text.len() {
        let (prefix, _) = text.split_at(place);
        expect_failed_write(rt, seed, request, input, prefix);
    }
}

/// Each row of a table.
pub(crate) fn expect_rows(
    rt: &(impl Abort + AllocGlobal),
    seed: &RandomState,
    request: &Request,
    rows: &[Row],
) {
    for row in rows {
        expect_row(rt, seed, request, *row);
    }
}

/// An input that is too long for every cutting: read whole, and a thousand bytes at a time.
pub(crate) fn expect_long(
    rt: &(impl Abort + AllocGlobal),
    seed: &RandomState,
    request: &Request,
    input: &[u8],
    text: &[u8],
    status: Status,
) {
    let mut source = Reading::new(input);
    let mut sink = Writing::new(Vec::new(rt.alloc()));
    let answer = run_unseen(rt, seed, request, &mut source, &mut sink);
    assert_eq!(rt; answer, status);
    assert_eq!(rt; sink.into_inner().as_slice(), text);
    let mut source = Paced::new(input, 1000, 0, 0);
    let mut sink = Writing::new(Vec::new(rt.alloc()));
    let answer = run_unseen(rt, seed, request, &mut source, &mut sink);
    assert_eq!(rt; answer, status);
    assert_eq!(rt; sink.into_inner().as_slice(), text);
}
