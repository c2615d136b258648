//! Items and Inner Lists (RFC 9651 sections 4.1.3 and 4.1.1.1).
ghost use Rattle.std.specs.Prelude.{◌≡◌};
ghost use Rattle.sf_value.specs.declared.dialect.Dialect.TheVariants.{Rfc9651};
ghost use Rattle.sf_value.specs.Grammar.Words.{Each};
ghost use Rattle.sf_value.specs.Grammar.Valid.{ValidItem, ValidInner};
ghost use Rattle.sf_value.specs.Grammar.Canonical.{canon_item, canon_items, canon_inner};
ghost use Rattle.sf_write.specs.Writing.{Follows};

use crate::bare::put_bare;
use crate::params::put_params;
use crate::sending::{Sent, put};
use sf_value::{Inner, Item, Sink};

/// Writes an Item: its bare item and its parameters.
pub(crate) fn put_item<W: Sink>(item: &Item, before: Sent, out: &mut W) -> Sent
    ensures text { Follows W.state W.send_gives out.old out.new before result
        (canon_item item.now) }
    ensures valid { ValidItem Rfc9651 item.now }
{
    let sent = put_bare(&item.bare, before, out);
    put_params(&item.params, sent, out)
}

/// Writes Items with one space between two.
fn put_items<W: Sink>(items: &[Item], before: Sent, out: &mut W) -> Sent
    ensures text { Follows W.state W.send_gives out.old out.new before result
        (canon_items items.now) }
    ensures valid { Each (ValidItem Rfc9651) items.now }
{
    let Some((first, others)) = items.split_first() else {
        return before;
    };
    let mut sent = put_item(first, before, out);
    for item in others {
        sent = put(b" ", sent, out);
        sent = put_item(item, sent, out);
    }
    sent
}

/// Writes an Inner List: its Items in parentheses, and its parameters.
pub(crate) fn put_inner<W: Sink>(inner: &Inner, before: Sent, out: &mut W) -> Sent
    ensures text { Follows W.state W.send_gives out.old out.new before result
        (canon_inner inner.now) }
    ensures valid { ValidInner Rfc9651 inner.now }
{
    let sent = put(b"(", before, out);
    let sent = put_items(inner.items.as_slice(), sent, out);
    let sent = put(b")", sent, out);
    put_params(&inner.params, sent, out)
}
