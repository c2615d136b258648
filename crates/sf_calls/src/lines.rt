//! Calls on the lines of a field.
ghost use Rattle.std.specs.Slice.Iter.{iter_rest};

use crate::record::Record;
use crate::session::Session;
use anyhow::anyhow;
use sf_field::{
    AskFault, AskingCost, Consumer, FieldLines, UseFault, append_line, ask, ask_from,
    normalise_lines, parse_from, parse_lines,
};
use sf_parse::{Parser, Refusal};
use sf_use::{CacheStatus, Directives, PriorityField, TargetedRules};
use sf_value::{Blob, Dialect, Field};
use std::slice;

/// Makes the calls of an operation on lines; `false` if it is no such operation.
pub(crate) fn answer(session: &mut Session, record: &Record) -> anyhow::Result<bool> {
    match record.operation {
        "feed_line" => feed_lines(session, record)?,
        "parse_lines" => parse_all_lines(session, record)?,
        "parse_from" => parse_in_turn(session, record)?,
        "normalise_lines" => normalise_all_lines(session, record)?,
        "append_line" => join_lines(session, record)?,
        "message_in_lines" => write_messages(session, record)?,
        "cache_status" => ask_all(session, record, &CacheStatus)?,
        "priority" => ask_all(session, record, &PriorityField)?,
        "directives" => ask_all(session, record, &Directives)?,
        "targeted_rules" => ask_all(session, record, &TargetedRules)?,
        "ask_from" => ask_in_turn(session, record, &CacheStatus)?,
        _ => return Ok(false),
    }
    Ok(true)
}

/// Lines of which each costs something, so that none is asked for ahead.
#[derive(Drop)]
struct InTurn<'a> {
    lines: slice::Iter<'a, Blob>,
}

impl<'a> AskingCost for InTurn<'a> {}

impl<'a> FieldLines<'a> for InTurn<'a> {
    ghost lines = { λ source. iter_rest source.lines };

    fn next_line(&mut self) -> Option<&'a [u8]> {
        let line = self.lines.next()?;
        Some(line.as_bytes())
    }
}

impl<'a> InTurn<'a> {
    fn new(lines: &'a [Blob]) -> InTurn<'a> {
        InTurn {
            lines: lines.iter(),
        }
    }
}

/// The lines of a text.
pub(crate) fn lines_of(session: &Session, record: &Record) -> anyhow::Result<Vec<Blob>> {
    let mut lines = Vec::new(session.alloc);
    for line in record.text.split(|byte| *byte == b'\n') {
        lines.push(Blob::new(session.alloc, line)?)?;
    }
    Ok(lines)
}

/// The field of lines that are fed one by one.
fn fed(session: &Session, record: &Record, lines: &[Blob]) -> Result<Field, Refusal> {
    let mut parser = Parser::new(session.alloc, &session.seed, record.kind, u64::MAX);
    for line in lines {
        parser.feed_line(line.as_bytes())?;
    }
    parser.finish()
}

fn feed_lines(session: &mut Session, record: &Record) -> anyhow::Result<()> {
    let lines = lines_of(session, record)?;
    session.calls_begin();
    for _ in 0..record.times {
        let parsed = fed(session, record, lines.as_slice());
        session.add_parsed(parsed)?;
    }
    session.calls_end();
    Ok(())
}

fn parse_all_lines(session: &mut Session, record: &Record) -> anyhow::Result<()> {
    let lines = lines_of(session, record)?;
    session.calls_begin();
    for _ in 0..record.times {
        let parsed = parse_lines(session.alloc, &session.seed, record.kind, lines.as_slice());
        session.add_parsed(parsed)?;
    }
    session.calls_end();
    Ok(())
}

fn parse_in_turn(session: &mut Session, record: &Record) -> anyhow::Result<()> {
    let lines = lines_of(session, record)?;
    session.calls_begin();
    for _ in 0..record.times {
        let parsed = parse_from(
            session.alloc,
            &session.seed,
            Dialect::Rfc9651,
            record.kind,
            InTurn::new(lines.as_slice()),
        );
        session.add_parsed(parsed)?;
    }
    session.calls_end();
    Ok(())
}

fn normalise_all_lines(session: &mut Session, record: &Record) -> anyhow::Result<()> {
    let lines = lines_of(session, record)?;
    session.calls_begin();
    for _ in 0..record.times {
        let made = normalise_lines(session.alloc, &session.seed, record.kind, lines.as_slice());
        session.add_text(made)?;
    }
    session.calls_end();
    Ok(())
}

/// Joins the lines so many times.
fn join_lines(session: &mut Session, record: &Record) -> anyhow::Result<()> {
    let lines = lines_of(session, record)?;
    session.calls_begin();
    for _ in 0..record.times {
        let mut text = Vec::new(session.alloc);
        let mut after_line = false;
        for line in &lines {
            append_line(&mut text, after_line, line.as_bytes())?;
            after_line = true;
        }
        session.digest.bytes(text.as_slice());
    }
    session.calls_end();
    Ok(())
}

/// Writes the message of the refusal of the lines, with its line, so many times.
fn write_messages(session: &mut Session, record: &Record) -> anyhow::Result<()> {
    let lines = lines_of(session, record)?;
    let parsed = parse_lines(session.alloc, &session.seed, record.kind, lines.as_slice());
    session.calls_begin();
    if let Err(refusal) = parsed {
        for _ in 0..record.times {
            let shown = refusal.in_lines(lines.as_slice());
            let message = format!(in session.alloc; "{shown}")?;
            session.digest.bytes(message.as_bytes());
        }
    }
    session.calls_end();
    Ok(())
}

fn ask_all<C: Consumer>(session: &mut Session, record: &Record, consumer: &C) -> anyhow::Result<()>
where
    C::Answer: Drop,
{
    let lines = lines_of(session, record)?;
    session.calls_begin();
    for _ in 0..record.times {
        match ask(session.alloc, &session.seed, consumer, lines.as_slice()) {
            Ok(_) => session.digest.number(1),
            Err(fault) => add_fault(session, fault)?,
        }
    }
    session.calls_end();
    Ok(())
}

fn ask_in_turn<C: Consumer>(
    session: &mut Session,
    record: &Record,
    consumer: &C,
) -> anyhow::Result<()>
where
    C::Answer: Drop,
{
    let lines = lines_of(session, record)?;
    session.calls_begin();
    for _ in 0..record.times {
        let source = InTurn::new(lines.as_slice());
        match ask_from(session.alloc, &session.seed, consumer, source) {
            Ok(_) => session.digest.number(1),
            Err(fault) => add_fault(session, fault)?,
        }
    }
    session.calls_end();
    Ok(())
}

/// Adds why there is no answer.
fn add_fault(session: &mut Session, fault: AskFault) -> anyhow::Result<()> {
    match fault {
        AskFault::Field(refusal) => session.add_refusal(refusal)?,
        AskFault::Answer(UseFault::NotACache { index }) => session.digest.number(index as u64),
        AskFault::Answer(UseFault::OutOfMemory) => return Err(anyhow!("out of memory")),
    }
    Ok(())
}
