//! The lengths of canonical texts, so that one allocation suffices for a text. The text itself does
//! not depend on them: with a wrong length, the buffer would only grow, or be too large.

use crate::flag::is_true;
use crate::{display_string, strings};
use sf_value::{Bare, Entries, Field, Inner, Item, Member};

/// The number of digits of a number.
fn digits(number: u64) -> usize {
    number.max(1).ilog10() as usize + 1
}

/// An Integer: a `-` if it is below 0, and the digits.
fn integer_len(number: i64) -> usize {
    digits(number.unsigned_abs()).saturating_add((number < 0) as usize)
}

/// A Decimal: a `-` if it is below 0, the whole part, the point, and one to three digits.
fn decimal_len(thousandths: i64) -> usize {
    let magnitude = thousandths.unsigned_abs();
    let after = if magnitude % 100 == 0 {
        1
    } else if magnitude % 10 == 0 {
        2
    } else {
        3
    };
    digits(magnitude / 1000).saturating_add((thousandths < 0) as usize + 1 + after)
}

/// A String: two quotes, the bytes, and a backslash before some of them.
fn string_len(text: &[u8]) -> usize {
    text.len()
        .saturating_add(strings::escaped_count(text))
        .saturating_add(2)
}

/// A Byte Sequence: two colons, and four characters for each three bytes, rounded up.
fn blob_len(bytes: &[u8]) -> usize {
    bytes.len().div_ceil(3).saturating_mul(4).saturating_add(2)
}

/// A Display String: `%` and two quotes, and each byte as one or three characters.
fn shown_len(text: &[u8]) -> usize {
    text.len()
        .saturating_add(display_string::escaped_count(text).saturating_mul(2))
        .saturating_add(3)
}

/// A bare item, by its type.
pub(crate) fn bare_len(bare: &Bare) -> usize {
    match bare {
        Bare::Integer(number) => integer_len(number.get()),
        Bare::Decimal(number) => decimal_len(number.get()),
        Bare::Text(text) => string_len(text.as_bytes()),
        Bare::Token(token) => token.as_bytes().len(),
        Bare::Blob(blob) => blob_len(blob.as_bytes()),
        Bare::Boolean(_) => 2,
        Bare::Date(seconds) => integer_len(seconds.get()).saturating_add(1),
        Bare::Shown(shown) => shown_len(shown.as_bytes()),
    }
}

/// What follows a key: nothing for Boolean true, otherwise `=` and the bare item.
fn value_len(value: &Bare) -> usize {
    if is_true(value) {
        0
    } else {
        bare_len(value).saturating_add(1)
    }
}

/// Parameters: for each a `;`, its key and what follows the key.
fn params_len(params: &Entries<Bare>) -> usize {
    let mut len = 0usize;
    for (key, value) in params {
        len = len
            .saturating_add(1)
            .saturating_add(key.len())
            .saturating_add(value_len(value));
    }
    len
}

/// An Item: its bare item and its parameters.
fn item_len(item: &Item) -> usize {
    bare_len(&item.bare).saturating_add(params_len(&item.params))
}

/// An Inner List: the parentheses, the Items with a space between two, and the parameters.
fn inner_len(inner: &Inner) -> usize {
    let items = inner.items.as_slice();
    let mut len = items.len().saturating_sub(1).saturating_add(2);
    for item in items {
        len = len.saturating_add(item_len(item));
    }
    len.saturating_add(params_len(&inner.params))
}

/// A member of a List: an Item or an Inner List.
fn member_len(member: &Member) -> usize {
    match member {
        Member::Item(item) => item_len(item),
        Member::Inner(inner) => inner_len(inner),
    }
}

/// What follows the key of a member of a Dictionary.
fn after_len(member: &Member) -> usize {
    match member {
        Member::Item(item) => value_len(&item.bare).saturating_add(params_len(&item.params)),
        Member::Inner(inner) => inner_len(inner).saturating_add(1),
    }
}

/// The commas and spaces between this many members.
fn commas_len(members: usize) -> usize {
    members.saturating_sub(1).saturating_mul(2)
}

/// The length of the canonical text of a field.
pub(crate) fn field_len(field: &Field) -> usize {
    match field {
        Field::Item(item) => item_len(item),
        Field::List(list) => {
            let members = list.members.as_slice();
            let mut len = commas_len(members.len());
            for member in members {
                len = len.saturating_add(member_len(member));
            }
            len
        }
        Field::Dict(dict) => {
            let mut len = commas_len(dict.members.len());
            for (key, member) in &dict.members {
                len = len
                    .saturating_add(key.len())
                    .saturating_add(after_len(member));
            }
            len
        }
    }
}
