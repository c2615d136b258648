//! Calls on `Cache-Control`, which is no structured field.

use crate::lines::lines_of;
use crate::record::Record;
use crate::session::Session;
use http_header::CACHE_CONTROL;
use sf_use::{CacheRules, fallback_rules};

/// Makes the calls of an operation on `Cache-Control`; `false` if it is no such operation.
pub(crate) fn answer(session: &mut Session, record: &Record) -> anyhow::Result<bool> {
    match record.operation {
        "of_cache_control" => read_texts(session, record),
        "of_cache_control_lines" => read_all_lines(session, record)?,
        "fallback_rules" => read_headers(session, record)?,
        _ => return Ok(false),
    }
    Ok(true)
}

fn read_texts(session: &mut Session, record: &Record) {
    session.calls_begin();
    for _ in 0..record.times {
        add_rules(session, CacheRules::of_cache_control(record.text));
    }
    session.calls_end();
}

fn read_all_lines(session: &mut Session, record: &Record) -> anyhow::Result<()> {
    let lines = lines_of(session, record)?;
    session.calls_begin();
    for _ in 0..record.times {
        add_rules(session, CacheRules::of_cache_control_lines(lines.iter()));
    }
    session.calls_end();
    Ok(())
}

fn read_headers(session: &mut Session, record: &Record) -> anyhow::Result<()> {
    let headers = session.headers_of(record, CACHE_CONTROL)?;
    session.calls_begin();
    for _ in 0..record.times {
        add_rules(session, Some(fallback_rules(&headers)));
    }
    session.calls_end();
    Ok(())
}

/// Adds `max-age` and `no-store`, if there are rules.
fn add_rules(session: &mut Session, rules: Option<CacheRules>) {
    match rules {
        Some(rules) => {
            session.digest.number(rules.policy.max_age.unwrap_or(7));
            session.digest.number(u64::from(rules.policy.no_store));
        }
        None => session.digest.number(0),
    }
}
