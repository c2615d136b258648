//! Calls on a header map, in which the lines of the text are the values of one name.

use crate::record::Record;
use crate::session::Session;
use http_header::{HeaderMap, HeaderName};
use sf_field::{from_headers, set_field};
use sf_parse::parse_text;
use sf_use::{Choice, RulesChoice, select, select_rules};

/// Makes the calls of an operation on a header map; `false` if it is no such operation.
pub(crate) fn answer(session: &mut Session, record: &Record) -> anyhow::Result<bool> {
    match record.operation {
        "select" => select_fields(session, record)?,
        "select_rules" => select_all_rules(session, record)?,
        "from_headers" => read_headers(session, record)?,
        "set_field" => set_fields(session, record)?,
        _ => return Ok(false),
    }
    Ok(true)
}

/// The name of all values.
fn name() -> HeaderName {
    HeaderName::from_static("cdn-cache-control")
}

fn select_fields(session: &mut Session, record: &Record) -> anyhow::Result<()> {
    let headers = session.headers_of(record, name())?;
    let targets = [name()];
    session.calls_begin();
    for _ in 0..record.times {
        match select(session.alloc, &session.seed, &targets, &headers)? {
            Choice::Field { index, .. } => session.digest.number(index as u64),
            Choice::Fallback => session.digest.number(7),
        }
    }
    session.calls_end();
    Ok(())
}

fn select_all_rules(session: &mut Session, record: &Record) -> anyhow::Result<()> {
    let headers = session.headers_of(record, name())?;
    let targets = [name()];
    session.calls_begin();
    for _ in 0..record.times {
        match select_rules(session.alloc, &session.seed, &targets, &headers)? {
            RulesChoice::Field { index, .. } => session.digest.number(index as u64),
            RulesChoice::Fallback => session.digest.number(7),
        }
    }
    session.calls_end();
    Ok(())
}

fn read_headers(session: &mut Session, record: &Record) -> anyhow::Result<()> {
    let headers = session.headers_of(record, name())?;
    let name = name();
    session.calls_begin();
    for _ in 0..record.times {
        match from_headers(session.alloc, &session.seed, record.kind, &headers, &name) {
            Ok(Some(field)) => session.add_parsed(Ok(field))?,
            Ok(None) => session.digest.number(0),
            Err(refusal) => session.add_refusal(refusal)?,
        }
    }
    session.calls_end();
    Ok(())
}

/// Sets the field of the text in a header map so many times.
fn set_fields(session: &mut Session, record: &Record) -> anyhow::Result<()> {
    let mut headers = HeaderMap::with_hasher(session.alloc, session.seed);
    let parsed = parse_text(session.alloc, &session.seed, record.kind, record.text);
    session.calls_begin();
    if let Ok(field) = &parsed {
        for _ in 0..record.times {
            set_field(session.alloc, &mut headers, name(), field)?;
        }
    }
    session.calls_end();
    session.digest.number(headers.len() as u64);
    Ok(())
}
