//! Lists (RFC 9651 section 4.1.1).
ghost use Rattle.sf_value.specs.declared.dialect.Dialect.TheVariants.{Rfc9651};
ghost use Rattle.sf_value.specs.Grammar.Words.{Each};
ghost use Rattle.sf_value.specs.Grammar.Valid.{ValidMember};
ghost use Rattle.sf_value.specs.Grammar.Canonical.{canon_member, canon_series};
ghost use Rattle.sf_write.specs.Writing.{Follows};

use crate::items::{put_inner, put_item};
use crate::sending::{Sent, put};
use sf_value::{Member, Sink};

/// Writes a member of a List: an Item or an Inner List.
pub(crate) fn put_member<W: Sink>(member: &Member, before: Sent, out: &mut W) -> Sent
    ensures text { Follows W.state W.send_gives out.old out.new before result
        (canon_member member.now) }
    ensures valid { ValidMember Rfc9651 member.now }
{
    match member {
        Member::Item(item) => put_item(item, before, out),
        Member::Inner(inner) => put_inner(inner, before, out),
    }
}

/// Writes a List: its members, with a comma and a space between two.
pub(crate) fn put_members<W: Sink>(members: &[Member], before: Sent, out: &mut W) -> Sent
    ensures text { Follows W.state W.send_gives out.old out.new before result
        (canon_series canon_member members.now) }
    ensures valid { Each (ValidMember Rfc9651) members.now }
{
    let Some((first, others)) = members.split_first() else {
        return before;
    };
    let mut sent = put_member(first, before, out);
    for member in others {
        sent = put(b", ", sent, out);
        sent = put_member(member, sent, out);
    }
    sent
}
