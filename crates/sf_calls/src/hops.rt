//! Appending a hop to a Cache-Status field.

use crate::lines::lines_of;
use crate::record::Record;
use crate::session::Session;
use anyhow::anyhow;
use sf_use::{AppendFault, Appended, Hop, Name, Outcome, append_hop, append_to_lines};
use sf_value::{Dialect, Field, Token};

/// Makes the calls of an operation that appends a hop; `false` if it is no such operation.
pub(crate) fn answer(session: &mut Session, record: &Record) -> anyhow::Result<bool> {
    match record.operation {
        "append_hop" => append_to_values(session, record)?,
        "append_to_lines" => append_to_all_lines(session, record)?,
        _ => return Ok(false),
    }
    Ok(true)
}

/// The hop that is appended.
fn own_hop(session: &Session) -> anyhow::Result<Hop> {
    Ok(Hop {
        name: Name::Token(Token::new(session.alloc, b"edge.example")?),
        outcome: Outcome::Hit,
        ttl: None,
        key: None,
        detail: None,
    })
}

fn append_to_values(session: &mut Session, record: &Record) -> anyhow::Result<()> {
    let Field::List(list) = session.value_of(record)? else {
        return Err(anyhow!("no List"));
    };
    let mut list = list;
    let hop = own_hop(session)?;
    session.calls_begin();
    for _ in 0..record.times {
        append_hop(session.alloc, &session.seed, &mut list, &hop)?;
    }
    session.calls_end();
    session.digest.number(list.members.len() as u64);
    Ok(())
}

fn append_to_all_lines(session: &mut Session, record: &Record) -> anyhow::Result<()> {
    let lines = lines_of(session, record)?;
    let hop = own_hop(session)?;
    session.calls_begin();
    for _ in 0..record.times {
        match append_to_lines(
            session.alloc,
            &session.seed,
            Dialect::Rfc9651,
            lines.iter(),
            &hop,
        ) {
            Ok(appended) => add_appended(session, appended)?,
            Err(AppendFault::Conflict) => session.digest.number(0),
            Err(AppendFault::OutOfMemory) => return Err(anyhow!("out of memory")),
        }
    }
    session.calls_end();
    Ok(())
}

/// Adds the number of members with the hop, or the refusal of the lines.
fn add_appended(session: &mut Session, appended: Appended) -> anyhow::Result<()> {
    match appended {
        Appended::Joined(list) => {
            session.digest.number(list.members.len() as u64);
            Ok(())
        }
        Appended::Apart { own, refusal } => {
            session.digest.number(own.members.len() as u64);
            session.add_refusal(refusal)
        }
    }
}
