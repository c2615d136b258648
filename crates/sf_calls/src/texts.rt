//! Calls on a text.

use crate::record::Record;
use crate::session::Session;
use sf_parse::{Parser, Refusal, parse_reader, parse_text, parse_text_in, refuse_text};
use sf_value::{Dialect, Field, Reading};
use sf_view::{accepts, normalise, parse_declined};

/// Makes the calls of an operation on a text; `false` if it is no such operation.
pub(crate) fn answer(session: &mut Session, record: &Record) -> anyhow::Result<bool> {
    match record.operation {
        "parse_text" => parse_texts(session, record)?,
        "parse_text_in" => parse_older_texts(session, record)?,
        "feed" => feed_chunks(session, record)?,
        "parse_reader" => parse_readers(session, record)?,
        "normalise" => normalise_texts(session, record)?,
        "accepts" => accept_texts(session, record),
        "parse_declined" => parse_declined_texts(session, record)?,
        "refuse_text" => refuse_texts(session, record),
        "message" => write_messages(session, record)?,
        _ => return Ok(false),
    }
    Ok(true)
}

fn parse_texts(session: &mut Session, record: &Record) -> anyhow::Result<()> {
    session.calls_begin();
    for _ in 0..record.times {
        let parsed = parse_text(session.alloc, &session.seed, record.kind, record.text);
        session.add_parsed(parsed)?;
    }
    session.calls_end();
    Ok(())
}

fn parse_older_texts(session: &mut Session, record: &Record) -> anyhow::Result<()> {
    session.calls_begin();
    for _ in 0..record.times {
        let parsed = parse_text_in(
            session.alloc,
            &session.seed,
            Dialect::Rfc8941,
            record.kind,
            record.text,
        );
        session.add_parsed(parsed)?;
    }
    session.calls_end();
    Ok(())
}

/// The field of a text that is fed in chunks of so many bytes, or as one chunk if that is 0.
fn fed(session: &Session, record: &Record) -> Result<Field, Refusal> {
    let size = if record.parameter == 0 {
        record.text.len()
    } else {
        record.parameter
    };
    let mut parser = Parser::new(session.alloc, &session.seed, record.kind, u64::MAX);
    for chunk in record.text.chunks(size.max(1)) {
        parser.feed(chunk)?;
    }
    parser.finish()
}

fn feed_chunks(session: &mut Session, record: &Record) -> anyhow::Result<()> {
    session.calls_begin();
    for _ in 0..record.times {
        let parsed = fed(session, record);
        session.add_parsed(parsed)?;
    }
    session.calls_end();
    Ok(())
}

fn parse_readers(session: &mut Session, record: &Record) -> anyhow::Result<()> {
    session.calls_begin();
    for _ in 0..record.times {
        let mut source = Reading::new(record.text);
        let parsed = parse_reader(
            session.alloc,
            &session.seed,
            record.kind,
            u64::MAX,
            &mut source,
        );
        session.add_parsed(parsed)?;
    }
    session.calls_end();
    Ok(())
}

fn normalise_texts(session: &mut Session, record: &Record) -> anyhow::Result<()> {
    session.calls_begin();
    for _ in 0..record.times {
        let made = normalise(
            session.alloc,
            &session.seed,
            Dialect::Rfc9651,
            record.kind,
            record.text,
        );
        session.add_text(made)?;
    }
    session.calls_end();
    Ok(())
}

fn accept_texts(session: &mut Session, record: &Record) {
    session.calls_begin();
    for _ in 0..record.times {
        let accepted = accepts(Dialect::Rfc9651, record.kind, record.text);
        session.digest.number(u64::from(accepted));
    }
    session.calls_end();
}

fn refuse_texts(session: &mut Session, record: &Record) {
    session.calls_begin();
    for _ in 0..record.times {
        let refusal = refuse_text(Dialect::Rfc9651, record.kind, record.text);
        session.digest.number(u64::from(refusal.is_some()));
    }
    session.calls_end();
}

fn parse_declined_texts(session: &mut Session, record: &Record) -> anyhow::Result<()> {
    session.calls_begin();
    for _ in 0..record.times {
        let parsed = parse_declined(
            session.alloc,
            &session.seed,
            Dialect::Rfc9651,
            record.kind,
            record.text,
        );
        session.add_parsed(parsed)?;
    }
    session.calls_end();
    Ok(())
}

/// Writes the message of the text's refusal, with the line, so many times.
fn write_messages(session: &mut Session, record: &Record) -> anyhow::Result<()> {
    let parsed = parse_text(session.alloc, &session.seed, record.kind, record.text);
    session.calls_begin();
    if let Err(refusal) = parsed {
        for _ in 0..record.times {
            let shown = refusal.in_text(record.text);
            let message = format!(in session.alloc; "{refusal} {shown}")?;
            session.digest.bytes(message.as_bytes());
        }
    }
    session.calls_end();
    Ok(())
}
