//! Dictionaries (RFC 9651 section 4.1.2).
ghost use Rattle.std.specs.Prelude.{◌∷◌};
ghost use Rattle.sf_value.specs.Ascii.{equals};
ghost use Rattle.sf_value.specs.declared.dialect.Dialect.TheVariants.{Rfc9651};
ghost use Rattle.sf_value.specs.Grammar.Valid.{ValidItem, ValidInner, ValidMember, ValidEntries};
ghost use Rattle.sf_value.specs.Grammar.Canonical.{canon_behind, canon_entry, canon_flag};
ghost use Rattle.sf_value.specs.Grammar.Canonical.{canon_inner, canon_series};
ghost use Rattle.sf_write.specs.Writing.{Follows};

use crate::items::put_inner;
use crate::params::{put_params, put_value};
use crate::sending::{Sent, put};
use sf_value::{Entries, Inner, Item, Member, Sink};

/// Writes an Item after its key: only its parameters if it is Boolean true, otherwise `=` and its
/// text.
fn put_item_after<W: Sink>(item: &Item, before: Sent, out: &mut W) -> Sent
    ensures text { Follows W.state W.send_gives out.old out.new before result
        (canon_flag item.now.bare item.now.params) }
    ensures valid { ValidItem Rfc9651 item.now }
{
    let sent = put_value(&item.bare, before, out);
    put_params(&item.params, sent, out)
}

/// Writes an Inner List after its key: `=` and its text.
fn put_inner_after<W: Sink>(inner: &Inner, before: Sent, out: &mut W) -> Sent
    ensures text { Follows W.state W.send_gives out.old out.new before result
        (equals ∷ canon_inner inner.now) }
    ensures valid { ValidInner Rfc9651 inner.now }
{
    let sent = put(b"=", before, out);
    put_inner(inner, sent, out)
}

/// Writes what follows the key of a member.
fn put_after<W: Sink>(member: &Member, before: Sent, out: &mut W) -> Sent
    ensures text { Follows W.state W.send_gives out.old out.new before result
        (canon_behind member.now) }
    ensures valid { ValidMember Rfc9651 member.now }
{
    match member {
        Member::Item(item) => put_item_after(item, before, out),
        Member::Inner(inner) => put_inner_after(inner, before, out),
    }
}

/// Writes a member of a Dictionary: its key and what follows the key.
fn put_entry<W: Sink>(key: &[u8], member: &Member, before: Sent, out: &mut W) -> Sent
    ensures text { Follows W.state W.send_gives out.old out.new before result
        (canon_entry (key.now, member.now)) }
    ensures valid { ValidMember Rfc9651 member.now }
{
    let sent = put(key, before, out);
    put_after(member, sent, out)
}

/// Writes a Dictionary: its members, with a comma and a space between two.
pub(crate) fn put_entries<W: Sink>(entries: &Entries<Member>, before: Sent, out: &mut W) -> Sent
    ensures text { Follows W.state W.send_gives out.old out.new before result
        (canon_series canon_entry entries.now) }
    ensures valid { ValidEntries Rfc9651 entries.now }
{
    // The clauses of `len` state that each key is valid and that none occurs twice.
    let _ = entries.len();
    let mut others = entries.iter();
    let Some((key, member)) = others.next() else {
        return before;
    };
    let mut sent = put_entry(key, member, before, out);
    for (key, member) in others {
        sent = put(b", ", sent, out);
        sent = put_entry(key, member, sent, out);
    }
    sent
}
