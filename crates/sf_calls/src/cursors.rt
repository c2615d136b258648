//! Cursors, which read a text member by member.

use crate::record::Record;
use crate::session::Session;
use sf_use::HopCursor;
use sf_value::Dialect;
use sf_view::{DictCursor, ItemCursor, ParamCursor};

/// Makes the calls of an operation on a cursor; `false` if it is no such operation.
pub(crate) fn answer(session: &mut Session, record: &Record) -> bool {
    match record.operation {
        "dict_cursor" => read_entries(session, record),
        "item_cursor" => read_items(session, record),
        "hop_cursor" => read_hops(session, record),
        _ => return false,
    }
    true
}

fn read_entries(session: &mut Session, record: &Record) {
    session.calls_begin();
    for _ in 0..record.times {
        session.digest.number(entries_in(record.text));
    }
    session.calls_end();
}

/// The number of members of a Dictionary that the cursor reads.
fn entries_in(text: &[u8]) -> u64 {
    let mut cursor = DictCursor::new(Dialect::Rfc9651, text);
    let mut count = 0u64;
    for _ in 0..text.len() {
        let Some(Some(_)) = cursor.next() else {
            break;
        };
        count = count.wrapping_add(1);
    }
    count
}

fn read_items(session: &mut Session, record: &Record) {
    session.calls_begin();
    for _ in 0..record.times {
        session.digest.number(items_in(record.text));
    }
    session.calls_end();
}

/// The number of Items of a List that the cursor reads.
fn items_in(text: &[u8]) -> u64 {
    let mut cursor = ItemCursor::new(Dialect::Rfc9651, text);
    let mut count = 0u64;
    for _ in 0..text.len() {
        let Some(Some(item)) = cursor.next() else {
            break;
        };
        let Some(next) = item_after(item.params, text.len()) else {
            break;
        };
        cursor = next;
        count = count.wrapping_add(1);
    }
    count
}

/// The cursor after at most so many parameters of an Item; `None` if they are declined.
fn item_after(params: ParamCursor<'_>, most: usize) -> Option<ItemCursor<'_>> {
    let mut params = params;
    for _ in 0..most {
        if params.next()?.is_none() {
            break;
        }
    }
    params.end()
}

fn read_hops(session: &mut Session, record: &Record) {
    session.calls_begin();
    for _ in 0..record.times {
        session.digest.number(hops_in(record.text));
    }
    session.calls_end();
}

/// The number of hops of a List that the cursor reads.
fn hops_in(text: &[u8]) -> u64 {
    let mut cursor = HopCursor::new(text);
    let mut count = 0u64;
    for _ in 0..text.len() {
        let Some(Some(_)) = cursor.next() else {
            break;
        };
        count = count.wrapping_add(1);
    }
    count
}
