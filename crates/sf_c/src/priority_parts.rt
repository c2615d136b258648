//! A Priority field with another priority, written member by member from its nodes. It does not
//! allocate.
ghost use Rattle.std.specs.Prelude.{◌≡◌, ℕ, List, [], true, Ok, IfSome, codes};
ghost use Rattle.std.specs.Str.{bytes_eq};
ghost use Rattle.sf_value.specs.declared.dialect.Dialect.TheVariants.{Rfc9651};
ghost use Rattle.sf_value.specs.declared.value.Member.{Member};
ghost use Rattle.sf_value.specs.Grammar.Canonical.{canon_entry};
ghost use Rattle.sf_value.specs.Grammar.Pairs.{Pairs};
ghost use Rattle.sf_write.specs.Writing.{Follows};
ghost use Rattle.sf_view.specs.View.{DescribesEntries, DescribesMember};
ghost use Rattle.sf_c.specs.PriorityParts.{SpellsChange, incremental_member, inserted, only_if};
ghost use Rattle.sf_c.specs.PriorityParts.{replaced, separator, series_text, set_i};
ghost use Rattle.sf_c.specs.PriorityParts.{unless, urgency_member, with_i};

use crate::filling::Parts;
use crate::priority_text::digit;
use sf_use::{Asked, Urgency};
use sf_value::Sink;
use sf_view::{View, put_entry_view};
use sf_write::{Sent, put};

/// The nodes of a Priority field, and what is put into it.
#[derive(Clone, Copy)]
pub(crate) struct ChangedPriority<'a> {
    /// The field.
    pub(crate) view: View<'a>,
    /// What is put into it.
    pub(crate) asked: Asked,
    /// The length of the text that the nodes are of.
    pub(crate) text_length: usize,
}

impl<'a> Parts for ChangedPriority<'a> {
    ghost spells = { SpellsChange };

    /// Whether eight fifths of the length of the field, which canonical text has at most, and the
    /// 11 bytes of `u` and `i` are short.
    fn is_short(&self) -> bool {
        self.text_length <= 112
    }

    fn put<W: Sink>(&self, out: &mut W) -> Sent {
        put_members(self.view, &self.asked, out)
    }
}

/// Writes the members, with what is set in the place of those with its keys, or last.
fn put_members<W: Sink>(view: View, asked: &Asked, out: &mut W) -> Sent
    ensures { (ps : Pairs Member) → DescribesEntries Rfc9651 view.entry.text.now view.entry.nodes.now ps
        → Follows W.state W.send_gives out.old out.new (Ok 0) result
        (series_text true (inserted asked.now.urgency asked.now.incremental ps)) }
{
    let mut sent = Ok(0);
    let mut first = true;
    let mut urgency = asked.urgency;
    let mut incremental = asked.incremental;
    let mut rest = view;
    loop {
        let Some((member, others)) = rest.split_first() else {
            return put_new(urgency, incremental, first, sent, out);
        };
        // The key is compared before anything is sent: after that it would be read again.
        let key = member.key();
        let new_urgency = take_if(is_named(b"u", key), &mut urgency);
        let new_incremental = take_if(is_named(b"i", key), &mut incremental);
        sent = put_separator(first, sent, out);
        sent = put_member(member, new_urgency, new_incremental, sent, out);
        first = false;
        rest = others;
    }
}

/// Takes what is set if the member has its key, so that it is put once.
fn take_if<T: Copy>(is_named: bool, set: &mut Option<T>) -> Option<T>
    ensures taken { result ≡ only_if is_named set.old }
    ensures left { set.new ≡ unless is_named set.old }
{
    if is_named {
        return set.take();
    }
    None
}

/// Whether a key has this name.
fn is_named(name: &[u8], key: &[u8]) -> bool
    ensures { result ≡ bytes_eq name.now key.now }
{
    name == key
}

/// Writes what is between two members.
#[inline]
fn put_separator<W: Sink>(first: bool, before: Sent, out: &mut W) -> Sent
    ensures { Follows W.state W.send_gives out.old out.new before result (separator first) }
{
    if first {
        return before;
    }
    put(b", ", before, out)
}

/// Writes a member, or what is set at its key: an urgency only if that is `u`, a flag only if it is
/// `i`.
fn put_member<W: Sink>(
    member: View,
    urgency: Option<Urgency>,
    incremental: Option<bool>,
    before: Sent,
    out: &mut W,
) -> Sent
    ensures { (k : List ℕ) (m : Member)
        → DescribesMember Rfc9651 member.entry.text.now k member.entry.nodes.now m
        → IfSome urgency (λ _. k ≡ codes "u") → IfSome incremental (λ _. k ≡ codes "i")
        → Follows W.state W.send_gives out.old out.new before result
        (canon_entry (replaced urgency incremental (k, m))) }
{
    match urgency {
        Some(urgency) => return put_urgency(urgency, before, out),
        None => return put_at_i(member, incremental, before, out),
    }
}

/// Writes a member, or the flag that is set at its key.
fn put_at_i<W: Sink>(member: View, incremental: Option<bool>, before: Sent, out: &mut W) -> Sent
    ensures { (k : List ℕ) (m : Member)
        → DescribesMember Rfc9651 member.entry.text.now k member.entry.nodes.now m
        → IfSome incremental (λ _. k ≡ codes "i")
        → Follows W.state W.send_gives out.old out.new before result
        (canon_entry (set_i incremental (k, m))) }
{
    match incremental {
        Some(incremental) => return put_incremental(incremental, before, out),
        None => return put_entry_view(&member, before, out),
    }
}

/// Writes the member `u`.
fn put_urgency<W: Sink>(urgency: Urgency, before: Sent, out: &mut W) -> Sent
    ensures { Follows W.state W.send_gives out.old out.new before result
        (canon_entry (codes "u", urgency_member urgency)) }
{
    put(&[b'u', b'=', digit(urgency)], before, out)
}

/// Writes the member `i`.
fn put_incremental<W: Sink>(incremental: bool, before: Sent, out: &mut W) -> Sent
    ensures { Follows W.state W.send_gives out.old out.new before result
        (canon_entry (codes "i", incremental_member incremental)) }
{
    if incremental {
        return put(b"i", before, out);
    }
    put(b"i=?0", before, out)
}

/// Writes the members that no member had the keys of.
fn put_new<W: Sink>(
    urgency: Option<Urgency>,
    incremental: Option<bool>,
    first: bool,
    before: Sent,
    out: &mut W,
) -> Sent
    ensures { Follows W.state W.send_gives out.old out.new before result
        (series_text first (inserted urgency incremental [])) }
{
    match urgency {
        Some(urgency) => {
            let sent = put_separator(first, before, out);
            let sent = put_urgency(urgency, sent, out);
            return put_new_incremental(incremental, false, sent, out);
        }
        None => return put_new_incremental(incremental, first, before, out),
    }
}

/// The same of `i` alone.
fn put_new_incremental<W: Sink>(
    incremental: Option<bool>,
    first: bool,
    before: Sent,
    out: &mut W,
) -> Sent
    ensures { Follows W.state W.send_gives out.old out.new before result
        (series_text first (with_i incremental [])) }
{
    match incremental {
        Some(incremental) => {
            let sent = put_separator(first, before, out);
            return put_incremental(incremental, sent, out);
        }
        None => return before,
    }
}
