//! The costs of single calls: `sf_calls` reads records from standard input, makes for each one call
//! of the library, as often as the record says, and prints a digest of all results. README.md says
//! what a record is.
#![tactic(auto)]

mod cache_control;
mod commands;
mod cursors;
mod digest;
mod headers;
mod hops;
mod lines;
mod nodes;
mod record;
mod session;
mod texts;
mod values;

use crate::record::{Record, next_record};
use crate::session::Session;
use anyhow::anyhow;
use sf_tool::read_all;
use sf_value::Reading;

/// The most bytes of records that are read.
const MOST: u64 = 1 << 32;

fn main(rt: HostRuntime) -> anyhow::Result<()> {
    let mut source = Reading::new(rt.stdin());
    let Ok(input) = read_all(rt.alloc(), MOST, &mut source) else {
        return Err(anyhow!("the records cannot be read"));
    };
    let mut session = Session::new(rt.alloc())?;
    let mut rest = input.as_slice();
    for _ in 0..input.len() {
        if rest.is_empty() {
            break;
        }
        let Some((record, more)) = next_record(rest) else {
            return Err(anyhow!("no record"));
        };
        answer(&mut session, &record)?;
        rest = more;
    }
    let digest = session.digest.value();
    println!(rt; "{digest:016x}")?;
    Ok(())
}

/// Makes the calls of a record.
fn answer(session: &mut Session, record: &Record) -> anyhow::Result<()> {
    let is_known = texts::answer(session, record)?
        || cursors::answer(session, record)
        || nodes::answer(session, record)?
        || lines::answer(session, record)?
        || hops::answer(session, record)?
        || values::answer(session, record)?
        || headers::answer(session, record)?
        || cache_control::answer(session, record)?
        || commands::answer(session, record)?;
    if is_known {
        Ok(())
    } else {
        Err(anyhow!("no such operation"))
    }
}
