//! Sources of field lines that count how often they are asked. When a line is asked for is stated by
//! the trait `FieldLines`.
ghost use Rattle.std.specs.Prelude.{map};
ghost use Rattle.std.specs.Slice.Iter.{iter_rest};

use crate::building::seed;
use sf_field::{AskingCost, FieldLines, ask_from, parse_from};
use sf_use::CacheStatus;
use sf_value::{Dialect, Kind};
use std::cell::Cell;
use std::hash::RandomState;
use std::process::Abort;
use std::slice;

/// Lines of which each costs something, so that they are not asked for ahead.
#[derive(Drop)]
struct Counted<'a> {
    lines: slice::Iter<'a, &'a [u8]>,
    asked: &'a Cell<usize>,
}

impl<'a> AskingCost for Counted<'a> {}

impl<'a> FieldLines<'a> for Counted<'a> {
    ghost lines = { λ source. map (λ line. line.now) (iter_rest source.lines) };

    fn next_line(&mut self) -> Option<&'a [u8]> {
        self.asked.set(self.asked.get().saturating_add(1));
        let line = self.lines.next()?;
        Some(*line)
    }
}

/// The same lines, which may be asked for ahead.
#[derive(Drop)]
struct Free<'a> {
    lines: slice::Iter<'a, &'a [u8]>,
    asked: &'a Cell<usize>,
}

impl<'a> AskingCost for Free<'a> {
    fn asking_is_free(&self) -> bool {
        true
    }
}

impl<'a> FieldLines<'a> for Free<'a> {
    ghost lines = { λ source. map (λ line. line.now) (iter_rest source.lines) };

    fn next_line(&mut self) -> Option<&'a [u8]> {
        self.asked.set(self.asked.get().saturating_add(1));
        let line = self.lines.next()?;
        Some(*line)
    }
}

/// These lines, and then so many of `b`.
fn followed<'a>(rt: &(impl Abort + AllocGlobal), first: &[&'a [u8]], more: usize) -> Vec<&'a [u8]> {
    let mut lines = Vec::new(rt.alloc());
    for line in first {
        lines.push(*line).expect(rt, "room");
    }
    for _ in 0..more {
        lines.push(b"b".as_slice()).expect(rt, "room");
    }
    lines
}

/// How often the lines are asked for by `parse_from` and by `ask_from`.
fn asked(rt: &(impl Abort + AllocGlobal), seed: &RandomState, lines: &[&[u8]]) -> (usize, usize) {
    let parsing = Cell::new(0usize);
    let source = Counted {
        lines: lines.iter(),
        asked: &parsing,
    };
    drop(parse_from(rt.alloc(), seed, Dialect::Rfc9651, Kind::List, source));
    let asking = Cell::new(0usize);
    let source = Counted {
        lines: lines.iter(),
        asked: &asking,
    };
    drop(ask_from(rt.alloc(), seed, &CacheStatus, source));
    (parsing.get(), asking.get())
}

/// The same if asking is free.
fn asked_ahead(
    rt: &(impl Abort + AllocGlobal),
    seed: &RandomState,
    lines: &[&[u8]],
) -> (usize, usize) {
    let parsing = Cell::new(0usize);
    let source = Free {
        lines: lines.iter(),
        asked: &parsing,
    };
    drop(parse_from(rt.alloc(), seed, Dialect::Rfc9651, Kind::List, source));
    let asking = Cell::new(0usize);
    let source = Free {
        lines: lines.iter(),
        asked: &asking,
    };
    drop(ask_from(rt.alloc(), seed, &CacheStatus, source));
    (parsing.get(), asking.get())
}

/// A line is asked for once the one before it was parsed, and none after a refusal. If asking is
/// free, `parse_from` asks for two before it parses the first, and `ask_from` for at most 17, but
/// after the first for none after an empty one.
#[test]
fn asks_in_turn(rt: HostRuntime) {
    let seed = seed(&rt);
    for &(first, more, in_turn, ahead) in &[
        ([].as_slice(), 0, (1, 1), (1, 1)),
        ([b"a".as_slice()].as_slice(), 0, (2, 2), (2, 2)),
        ([b"a".as_slice()].as_slice(), 2, (4, 4), (4, 4)),
        // The first line is refused.
        ([b"a,,".as_slice()].as_slice(), 4_000, (1, 1), (2, 17)),
        // The second one is.
        ([b"a".as_slice(), b"b("].as_slice(), 4_000, (2, 2), (2, 17)),
        // The third one is: after an empty one it begins with a comma.
        ([b"a".as_slice(), b""].as_slice(), 4_000, (3, 3), (3, 3)),
        (
            [b"a".as_slice(), b"b", b""].as_slice(),
            4_000,
            (4, 4),
            (4, 4),
        ),
        // The first one is refused, and the second is empty.
        ([b"a,,".as_slice(), b""].as_slice(), 4_000, (1, 1), (2, 2)),
    ] {
        let lines = followed(&rt, first, more);
        assert_eq!(rt; asked(&rt, &seed, &lines), in_turn);
        assert_eq!(rt; asked_ahead(&rt, &seed, &lines), ahead);
    }
}
