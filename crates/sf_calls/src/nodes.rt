//! Calls that make nodes, or that take them.

use crate::record::Record;
use crate::session::{Session, count_of};
use anyhow::anyhow;
use sf_nodes::{FieldNodes, flatten};
use sf_parse::Refusal;
use sf_value::Dialect;
use sf_view::{Node, View, entry, node_buffer, view_text};

/// A key that no text has.
const ABSENT: &[u8] = b"zz";

/// Makes the calls of an operation on nodes; `false` if it is no such operation.
pub(crate) fn answer(session: &mut Session, record: &Record) -> anyhow::Result<bool> {
    match record.operation {
        "scan" => scan_texts(session, record)?,
        "to_field" => build_fields(session, record)?,
        "field_nodes" => build_nodes(session, record)?,
        "view_text" => write_views(session, record)?,
        "entry" => look_up(session, record)?,
        "of_field" => build_nodes_of_fields(session, record)?,
        "flatten" => flatten_fields(session, record)?,
        _ => return Ok(false),
    }
    Ok(true)
}

/// Whether the text is scanned into these nodes.
fn is_scanned(record: &Record, nodes: &mut [Node]) -> bool {
    View::scan(Dialect::Rfc9651, record.kind, record.text, nodes).is_ok()
}

fn scan_texts(session: &mut Session, record: &Record) -> anyhow::Result<()> {
    let mut nodes = node_buffer(session.alloc, record.text)?;
    session.calls_begin();
    for _ in 0..record.times {
        let scanned = is_scanned(record, nodes.as_mut_slice());
        session.digest.number(u64::from(scanned));
    }
    session.calls_end();
    Ok(())
}

/// Builds the field of the text's nodes so many times, if the text is scanned.
fn build_fields(session: &mut Session, record: &Record) -> anyhow::Result<()> {
    let mut nodes = node_buffer(session.alloc, record.text)?;
    let Ok(view) = View::scan(
        Dialect::Rfc9651,
        record.kind,
        record.text,
        nodes.as_mut_slice(),
    ) else {
        session.calls_begin();
        session.calls_end();
        return Ok(());
    };
    session.calls_begin();
    for _ in 0..record.times {
        match view.to_field(session.alloc, &session.seed, record.kind)? {
            Some(field) => session.digest.number(count_of(&field)),
            None => session.digest.number(0),
        }
    }
    session.calls_end();
    Ok(())
}

/// The nodes of the text.
fn nodes_of<'a>(session: &Session, record: &Record<'a>) -> Result<FieldNodes<'a>, Refusal> {
    FieldNodes::of_text(
        session.alloc,
        &session.seed,
        Dialect::Rfc9651,
        record.kind,
        record.text,
    )
}

/// The nodes of a text that is accepted.
fn accepted_nodes<'a>(session: &Session, record: &Record<'a>) -> anyhow::Result<FieldNodes<'a>> {
    match nodes_of(session, record) {
        Ok(nodes) => Ok(nodes),
        Err(refusal) => Err(anyhow!("{refusal}")),
    }
}

fn build_nodes(session: &mut Session, record: &Record) -> anyhow::Result<()> {
    session.calls_begin();
    for _ in 0..record.times {
        match nodes_of(session, record) {
            Ok(nodes) => session.digest.number(nodes.view().nodes.len() as u64),
            Err(refusal) => session.add_refusal(refusal)?,
        }
    }
    session.calls_end();
    Ok(())
}

fn write_views(session: &mut Session, record: &Record) -> anyhow::Result<()> {
    let nodes = accepted_nodes(session, record)?;
    session.calls_begin();
    for _ in 0..record.times {
        let text = view_text(session.alloc, &nodes.view(), record.kind)?;
        session.digest.bytes(text.as_slice());
    }
    session.calls_end();
    Ok(())
}

/// Looks up a key that is absent among the nodes of a Dictionary so many times.
fn look_up(session: &mut Session, record: &Record) -> anyhow::Result<()> {
    let nodes = accepted_nodes(session, record)?;
    session.calls_begin();
    for _ in 0..record.times {
        let view = nodes.view();
        let found = entry(view.text, view.nodes, ABSENT).is_some();
        session.digest.number(u64::from(found));
    }
    session.calls_end();
    Ok(())
}

fn build_nodes_of_fields(session: &mut Session, record: &Record) -> anyhow::Result<()> {
    let field = session.value_of(record)?;
    session.calls_begin();
    for _ in 0..record.times {
        let nodes = FieldNodes::of_field(session.alloc, &field)?;
        session.digest.number(nodes.view().nodes.len() as u64);
    }
    session.calls_end();
    Ok(())
}

fn flatten_fields(session: &mut Session, record: &Record) -> anyhow::Result<()> {
    let field = session.value_of(record)?;
    session.calls_begin();
    for _ in 0..record.times {
        let flat = flatten(session.alloc, &field)?;
        session.digest.number(flat.node_count() as u64);
    }
    session.calls_end();
    Ok(())
}
