//! Records: what is called, and on which text.

use sf_value::Kind;

/// A record. It is a line `OPERATION KIND PARAMETER TIMES LENGTH`, then the text, of this length,
/// and a line feed.
#[derive(Clone, Copy, Drop)]
pub(crate) struct Record<'a> {
    /// The operation, which names the call.
    pub(crate) operation: &'a str,
    /// The kind of the field.
    pub(crate) kind: Kind,
    /// What else the operation takes: the length of chunks, the number of additions, or whether the
    /// error stream is a terminal.
    pub(crate) parameter: usize,
    /// How often the call is made.
    pub(crate) times: usize,
    /// The text.
    pub(crate) text: &'a [u8],
}

/// The first record, and what follows it; `None` if the bytes begin with none.
pub(crate) fn next_record(bytes: &[u8]) -> Option<(Record<'_>, &[u8])> {
    let (head, rest) = cut_at(bytes, b'\n')?;
    let (operation, head) = cut_at(head, b' ')?;
    let (kind, head) = cut_at(head, b' ')?;
    let (parameter, head) = cut_at(head, b' ')?;
    let (times, length) = cut_at(head, b' ')?;
    let (text, rest) = rest.split_at_checked(number_of(length)?)?;
    let (_, rest) = rest.split_first()?;
    let record = Record {
        operation: str::from_utf8(operation).ok()?,
        kind: kind_of(kind)?,
        parameter: number_of(parameter)?,
        times: number_of(times)?,
        text,
    };
    Some((record, rest))
}

/// What is before the first such byte, and what is after it.
fn cut_at(bytes: &[u8], byte: u8) -> Option<(&[u8], &[u8])> {
    let end = bytes.iter().position(|other| *other == byte)?;
    let (head, rest) = bytes.split_at_checked(end)?;
    let (_, rest) = rest.split_first()?;
    Some((head, rest))
}

/// The kind with this name.
fn kind_of(word: &[u8]) -> Option<Kind> {
    match str::from_utf8(word).ok()? {
        "item" => Some(Kind::Item),
        "list" => Some(Kind::List),
        "dict" => Some(Kind::Dict),
        _ => None,
    }
}

/// The number with these digits.
fn number_of(digits: &[u8]) -> Option<usize> {
    str::from_utf8(digits).ok()?.parse().ok()
}
