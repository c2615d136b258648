//! The commands `sf` and `sflint` on an input.

use crate::record::Record;
use crate::session::Session;
use anyhow::anyhow;
use http_header::{CDN_CACHE_CONTROL, HeaderName};
use sf_lint::{CacheSettings, Options, Settings, run_with};
use sf_tool::{ErrorStream, Request, Status, run};
use sf_value::{Dialect, Reading, Writing};
use std::alloc::Global;

/// Runs the command of an operation; `false` if it is no such operation.
pub(crate) fn answer(session: &mut Session, record: &Record) -> anyhow::Result<bool> {
    let dialect = Dialect::Rfc9651;
    match record.operation {
        "sf_check" => run_all(session, record, &Request::Check(dialect, record.kind))?,
        "sf_normalise" => run_all(session, record, &Request::Normalise(dialect, record.kind))?,
        "sf_show" => run_all(session, record, &Request::Show(dialect, record.kind))?,
        "sf_cache_status" => run_all(session, record, &Request::CacheStatus)?,
        "sf_targeted" => run_targeted(session, record)?,
        "sf_priority" => run_all(session, record, &Request::Priority)?,
        "sf_decide" => run_decide(session, record)?,
        "sflint" => run_lint(session, record, None)?,
        "sflint_decide" => run_lint_deciding(session, record)?,
        _ => return Ok(false),
    }
    Ok(true)
}

/// Runs a request on the text so many times, with an error stream that is a terminal, on which a
/// refusal is explained, unless the parameter is not 0.
fn run_all(session: &mut Session, record: &Record, request: &Request) -> anyhow::Result<()> {
    session.calls_begin();
    for _ in 0..record.times {
        let mut source = Reading::new(record.text);
        let mut sink = Writing::new(Vec::new(session.alloc));
        let mut errors = ErrorStream {
            device: Writing::new(Vec::new(session.alloc)),
            is_terminal: record.parameter == 0,
        };
        let status = run(
            session.alloc,
            &session.seed,
            request,
            &mut source,
            &mut sink,
            &mut errors,
        );
        add_end(session, status, sink.into_inner().as_slice())?;
    }
    session.calls_end();
    Ok(())
}

/// Returns the target list of a CDN.
fn cdn_targets(alloc: Global) -> anyhow::Result<Vec<HeaderName>> {
    let mut names = Vec::new(alloc);
    names.push(CDN_CACHE_CONTROL)?;
    Ok(names)
}

fn run_targeted(session: &mut Session, record: &Record) -> anyhow::Result<()> {
    let names = cdn_targets(session.alloc)?;
    run_all(session, record, &Request::Targeted(names))
}

fn run_decide(session: &mut Session, record: &Record) -> anyhow::Result<()> {
    let names = cdn_targets(session.alloc)?;
    run_all(session, record, &Request::Decide(names, 0))
}

fn run_lint_deciding(session: &mut Session, record: &Record) -> anyhow::Result<()> {
    let targets = cdn_targets(session.alloc)?;
    run_lint(session, record, Some(CacheSettings { targets, age: None }))
}

fn run_lint(
    session: &mut Session,
    record: &Record,
    caches: Option<CacheSettings>,
) -> anyhow::Result<()> {
    let settings = Settings {
        fields: Vec::new(session.alloc),
        quiet: false,
        colour: false,
    };
    let options = Options { settings, caches };
    session.calls_begin();
    for _ in 0..record.times {
        let mut source = Reading::new(record.text);
        let mut sink = Writing::new(Vec::new(session.alloc));
        let status = run_with(
            session.alloc,
            &session.seed,
            &options,
            &mut source,
            &mut sink,
        );
        add_end(session, status, sink.into_inner().as_slice())?;
    }
    session.calls_end();
    Ok(())
}

/// Adds how a command ended, and what it wrote. One that stopped ends the program.
fn add_end(session: &mut Session, status: Status, output: &[u8]) -> anyhow::Result<()> {
    if matches!(status, Status::Stopped) {
        return Err(anyhow!("out of memory"));
    }
    session.digest.number(u64::from(status.code()));
    session.digest.bytes(output);
    Ok(())
}
