//! A value as nodes, from its tree.
ghost use Rattle.std.specs.Prelude.{◌≡◌, ◌≤◌, ◌+◌, ◌^◌, ◌++◌, [], ◌∷◌, pos, length, IfOk, MatchResult};
ghost use Rattle.sf_nodes.specs.Nodes.{bare_content, entries_content, field_content, inner_content, inside_content};
ghost use Rattle.sf_nodes.specs.Nodes.{item_content, items_content, member_content, members_content, params_content};

use crate::parts::{Flat, Shape, add};
use sf_value::{Bare, Entries, Field, Inner, Item, Member, OutOfMemory};
use sf_view::{NodeType, Role};
use std::alloc::Global;

/// Adds a part that has a number and no bytes: a bare item, or an Inner List, whose number is 0.
fn push_number(
    flat: &mut Flat,
    role: Role,
    key: &[u8],
    size: u32,
    node_type: NodeType,
    number: i64,
) -> Result<(), OutOfMemory>
    ensures { IfOk result (λ _. flat.new ≡ flat.old ++ record {
      role = role;
      node_type = node_type;
      number = number;
      key = key.now;
      text = [];
      size = size;
    } ∷ []) }
{
    let shape = Shape {
        role,
        node_type,
        number,
        size,
    };
    flat.push(shape, key, b"")
}

/// Adds a bare item that has bytes.
fn push_text(
    flat: &mut Flat,
    role: Role,
    key: &[u8],
    size: u32,
    node_type: NodeType,
    text: &[u8],
) -> Result<(), OutOfMemory>
    ensures { IfOk result (λ _. flat.new ≡ flat.old ++ record {
      role = role;
      node_type = node_type;
      number = pos 0;
      key = key.now;
      text = text.now;
      size = size;
    } ∷ []) }
{
    let shape = Shape {
        role,
        node_type,
        number: 0,
        size,
    };
    flat.push(shape, key, text)
}

/// A bare item.
fn push_bare(
    flat: &mut Flat,
    role: Role,
    key: &[u8],
    size: u32,
    bare: &Bare,
) -> Result<(), OutOfMemory>
    ensures { IfOk result (λ _. flat.new ≡ flat.old ++ bare_content role key.now size bare.now ∷ []) }
{
    match bare {
        Bare::Integer(n) => push_number(flat, role, key, size, NodeType::Integer, n.get()),
        Bare::Decimal(n) => push_number(flat, role, key, size, NodeType::Decimal, n.get()),
        Bare::Text(text) => push_text(flat, role, key, size, NodeType::Text, text.as_bytes()),
        Bare::Token(token) => push_text(flat, role, key, size, NodeType::Token, token.as_bytes()),
        Bare::Blob(blob) => push_text(flat, role, key, size, NodeType::Blob, blob.as_bytes()),
        Bare::Boolean(b) => push_number(flat, role, key, size, NodeType::Boolean, i64::from(*b)),
        Bare::Date(n) => push_number(flat, role, key, size, NodeType::Date, n.get()),
        Bare::Shown(shown) => push_text(flat, role, key, size, NodeType::Shown, shown.as_bytes()),
    }
}

/// Parameters.
fn push_params(flat: &mut Flat, role: Role, params: &Entries<Bare>) -> Result<(), OutOfMemory>
    ensures { IfOk result (λ _. flat.new ≡ flat.old ++ params_content role params.now) }
{
    for (key, value) in params {
        push_bare(flat, role, key, 1, value)?;
    }
    Ok(())
}

/// The number of nodes, and one more. A text of less than 4 GiB has fewer than 2^32 nodes.
fn one_more(count: usize) -> Result<u32, OutOfMemory>
    // It fails only if the number has more than 32 bits.
    ensures { MatchResult result (λ n. n ≡ 1 + count) (λ _. 2 ^ 32 ≤ 1 + count) }
{
    if count >= 0xffff_ffff {
        return Err(OutOfMemory);
    }
    Ok(count as u32 + 1)
}

/// An Item.
fn push_item(flat: &mut Flat, role: Role, key: &[u8], item: &Item) -> Result<(), OutOfMemory>
    ensures { IfOk result (λ _. flat.new ≡ flat.old ++ item_content role key.now item.now) }
{
    let size = one_more(item.params.len())?;
    push_bare(flat, role, key, size, &item.bare)?;
    push_params(flat, Role::Parameter, &item.params)
}

/// The Items of an Inner List.
fn push_items(flat: &mut Flat, items: &[Item]) -> Result<(), OutOfMemory>
    ensures { IfOk result (λ _. flat.new ≡ flat.old ++ items_content items.now) }
{
    for item in items {
        push_item(flat, Role::InnerItem, b"", item)?;
    }
    Ok(())
}

/// The number of nodes of the Items, added to this number.
fn count_items(items: &[Item], more: usize) -> Result<usize, OutOfMemory>
    // It fails only if the number has more than 64 bits.
    ensures { MatchResult result (λ n. n ≡ more + length (items_content items.now))
        (λ _. 2 ^ 64 ≤ more + length (items_content items.now)) }
{
    let mut count = more;
    for item in items {
        let own = add(1, item.params.len())?;
        count = add(count, own)?;
    }
    Ok(count)
}

/// The number of nodes inside an Inner List.
fn count_inside(inner: &Inner) -> Result<usize, OutOfMemory>
    // It fails only if the number has more than 64 bits.
    ensures { MatchResult result (λ n. n ≡ length (inside_content inner.now))
        (λ _. 2 ^ 64 ≤ length (inside_content inner.now)) }
{
    let count = count_items(inner.items.as_slice(), inner.params.len())?;
    Ok(count)
}

/// Adds the Items and the parameters of an Inner List.
fn push_inside(flat: &mut Flat, inner: &Inner) -> Result<(), OutOfMemory>
    ensures { IfOk result (λ _. flat.new ≡ flat.old ++ inside_content inner.now) }
{
    push_items(flat, inner.items.as_slice())?;
    push_params(flat, Role::InnerParameter, &inner.params)
}

/// An Inner List.
fn push_inner(flat: &mut Flat, key: &[u8], inner: &Inner) -> Result<(), OutOfMemory>
    ensures { IfOk result (λ _. flat.new ≡ flat.old ++ inner_content key.now inner.now) }
{
    let count = count_inside(inner)?;
    let size = one_more(count)?;
    push_number(flat, Role::Member, key, size, NodeType::InnerList, 0)?;
    push_inside(flat, inner)
}

/// A member, with its key in a Dictionary.
fn push_member(flat: &mut Flat, key: &[u8], member: &Member) -> Result<(), OutOfMemory>
    ensures { IfOk result (λ _. flat.new ≡ flat.old ++ member_content key.now member.now) }
{
    match member {
        Member::Item(item) => push_item(flat, Role::Member, key, item),
        Member::Inner(inner) => push_inner(flat, key, inner),
    }
}

/// The members of a List.
fn push_members(flat: &mut Flat, members: &[Member]) -> Result<(), OutOfMemory>
    ensures { IfOk result (λ _. flat.new ≡ flat.old ++ members_content members.now) }
{
    for member in members {
        push_member(flat, b"", member)?;
    }
    Ok(())
}

/// The members of a Dictionary.
fn push_entries(flat: &mut Flat, entries: &Entries<Member>) -> Result<(), OutOfMemory>
    ensures { IfOk result (λ _. flat.new ≡ flat.old ++ entries_content entries.now) }
{
    for (key, member) in entries {
        push_member(flat, key, member)?;
    }
    Ok(())
}

/// Returns the nodes of a field, in the order of its canonical text, and the bytes that they point
/// into (RFC 9651 section 3). It fails only if an allocation fails, or if one member has 2^32 nodes
/// or more.
///
/// ```
/// let flat = flatten(alloc, &field)?; // of a=b;c
/// flat.node_count() // 2
/// ```
pub fn flatten(alloc: Global, field: &Field) -> Result<Flat, OutOfMemory>
    ensures { IfOk result (λ flat. flat ≡ field_content field.now) }
{
    let mut flat = Flat::new(alloc);
    match field {
        Field::Item(item) => push_item(&mut flat, Role::Member, b"", item)?,
        Field::List(list) => push_members(&mut flat, list.members.as_slice())?,
        Field::Dict(dict) => push_entries(&mut flat, &dict.members)?,
    }
    Ok(flat)
}
