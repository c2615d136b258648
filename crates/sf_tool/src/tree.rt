//! The indented tree of a field. Nothing here allocates. Each function writes after what was sent
//! before.
ghost use Rattle.std.specs.Prelude.{◌≡◌, ◌≤◌};
ghost use Rattle.sf_write.specs.Writing.{Follows};
ghost use Rattle.sf_tool.specs.Tree.{margin as margin_at, type_word as type_word_of};
ghost use Rattle.sf_tool.specs.Tree.{bare_line, param_lines};
ghost use Rattle.sf_tool.specs.Tree.{item_lines, items_lines, inner_lines, member_lines};
ghost use Rattle.sf_tool.specs.Tree.{members_lines, entries_lines, tree};

use crate::refusing::put_count;
use sf_value::{Bare, Entries, Field, Inner, Item, Member, Sink};
use sf_write::{Sent, put, put_bare};

/// Returns the margin of a line at this depth: two spaces for each parent. No line of a tree is
/// deeper than 3.
fn margin(depth: usize) -> &'static [u8]
    requires { depth ≤ 3 }
    ensures { result.now ≡ margin_at depth }
{
    match depth {
        0 => b"",
        1 => b"  ",
        2 => b"    ",
        _ => b"      ",
    }
}

/// Returns the word for the type of a bare item, and a space.
fn type_word(bare: &Bare) -> &'static [u8]
    ensures { result.now ≡ type_word_of bare.now }
{
    match bare {
        Bare::Integer(_) => b"integer ",
        Bare::Decimal(_) => b"decimal ",
        Bare::Text(_) => b"string ",
        Bare::Token(_) => b"token ",
        Bare::Blob(_) => b"bytes ",
        Bare::Boolean(_) => b"boolean ",
        Bare::Date(_) => b"date ",
        Bare::Shown(_) => b"display ",
    }
}

/// Writes the margin of a line at this depth.
fn put_margin<W: Sink>(depth: usize, before: Sent, out: &mut W) -> Sent
    requires { depth ≤ 3 }
    ensures { Follows W.state W.send_gives out.old out.new before result (margin_at depth) }
{
    put(margin(depth), before, out)
}

/// Writes a bare item and the end of its line.
fn put_bare_line<W: Sink>(bare: &Bare, before: Sent, out: &mut W) -> Sent
    ensures { Follows W.state W.send_gives out.old out.new before result (bare_line bare.now) }
{
    let sent = put(type_word(bare), before, out);
    let sent = put_bare(bare, sent, out);
    put(b"\n", sent, out)
}

/// Writes parameters, a line each.
fn put_params<W: Sink>(depth: usize, params: &Entries<Bare>, before: Sent, out: &mut W) -> Sent
    requires { depth ≤ 3 }
    ensures { Follows W.state W.send_gives out.old out.new before result
        (param_lines depth params.now) }
{
    let mut sent = before;
    for (key, value) in params {
        sent = put_margin(depth, sent, out);
        sent = put(b"; ", sent, out);
        sent = put(key, sent, out);
        sent = put(b" ", sent, out);
        sent = put_bare_line(value, sent, out);
    }
    sent
}

/// Writes an Item after the beginning of its line, which is already written.
fn put_item<W: Sink>(depth: usize, item: &Item, before: Sent, out: &mut W) -> Sent
    requires { depth ≤ 2 }
    ensures { Follows W.state W.send_gives out.old out.new before result
        (item_lines depth item.now) }
{
    let sent = put_bare_line(&item.bare, before, out);
    put_params(depth + 1, &item.params, sent, out)
}

/// Writes the Items of an Inner List.
fn put_items<W: Sink>(depth: usize, items: &[Item], before: Sent, out: &mut W) -> Sent
    requires { depth ≤ 2 }
    ensures { Follows W.state W.send_gives out.old out.new before result
        (items_lines depth items.now) }
{
    let mut sent = before;
    for item in items {
        sent = put_margin(depth, sent, out);
        sent = put_item(depth, item, sent, out);
    }
    sent
}

/// Writes an Inner List after the beginning of its line.
fn put_inner<W: Sink>(depth: usize, inner: &Inner, before: Sent, out: &mut W) -> Sent
    requires { depth ≤ 1 }
    ensures { Follows W.state W.send_gives out.old out.new before result
        (inner_lines depth inner.now) }
{
    let sent = put_count(b"inner ", inner.items.len() as u64, before, out);
    let sent = put_items(depth + 1, inner.items.as_slice(), sent, out);
    put_params(depth + 1, &inner.params, sent, out)
}

/// Writes a member after the beginning of its line.
fn put_member<W: Sink>(member: &Member, before: Sent, out: &mut W) -> Sent
    ensures { Follows W.state W.send_gives out.old out.new before result
        (member_lines 1 member.now) }
{
    match member {
        Member::Item(item) => put_item(1, item, before, out),
        Member::Inner(inner) => put_inner(1, inner, before, out),
    }
}

/// Writes the members of a List.
fn put_members<W: Sink>(members: &[Member], before: Sent, out: &mut W) -> Sent
    ensures { Follows W.state W.send_gives out.old out.new before result
        (members_lines members.now) }
{
    let mut sent = before;
    for member in members {
        sent = put_margin(1, sent, out);
        sent = put_member(member, sent, out);
    }
    sent
}

/// Writes the members of a Dictionary.
fn put_entries<W: Sink>(entries: &Entries<Member>, before: Sent, out: &mut W) -> Sent
    ensures { Follows W.state W.send_gives out.old out.new before result
        (entries_lines entries.now) }
{
    let mut sent = before;
    for (key, member) in entries {
        sent = put_margin(1, sent, out);
        sent = put(key, sent, out);
        sent = put(b" = ", sent, out);
        sent = put_member(member, sent, out);
    }
    sent
}

/// Writes the tree of a field.
pub(crate) fn put_tree<W: Sink>(field: &Field, before: Sent, out: &mut W) -> Sent
    ensures { Follows W.state W.send_gives out.old out.new before result (tree field.now) }
{
    match field {
        Field::Item(item) => {
            let sent = put(b"item\n", before, out);
            let sent = put_margin(1, sent, out);
            put_item(1, item, sent, out)
        }
        Field::List(list) => {
            let sent = put_count(b"list ", list.members.len() as u64, before, out);
            put_members(list.members.as_slice(), sent, out)
        }
        Field::Dict(dict) => {
            let sent = put_count(b"dict ", dict.members.len() as u64, before, out);
            put_entries(&dict.members, sent, out)
        }
    }
}
