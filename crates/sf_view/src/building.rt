//! Nodes of any origin, read as a field.
ghost use Rattle.std.specs.Prelude.{◌≡◌, ℕ, ◌+◌, ◌<◌, ◌^◌, List as Seq, None, IsTrue, IfOk};
ghost use Rattle.sf_value.specs.Grammar.Pairs.{value_at};
ghost use Rattle.sf_value.specs.Grammar.Tokens.{IsKey};
ghost use Rattle.sf_view.specs.declared.building.NoField.TheVariants as no_field;
ghost use Rattle.sf_view.specs.Building.{Gives, Reads, IsField, IsItemField, IsItem, IsInner, IsInside, IsMember};
ghost use Rattle.sf_view.specs.Building.{AreParams, IsParam, AreMembers, AreEntries, StartsItem, shift_fault};
ghost use Rattle.sf_view.specs.View.{slice_at, DescribesOpening};

use crate::copies::key_of;
use crate::keys::{bytes_at, first_node};
use crate::lookup::hop;
use crate::node::Node;
use crate::node_types::{NodeType, Role};
use crate::parts::after_first;
use crate::single::{Source, value_of};
use sf_value::{
    Bare, Dialect, Dict, Entries, Field, Inner, Item, Key, Kind, List, Member, OutOfMemory,
    Sequence,
};
use std::alloc::Global;
use std::hash::RandomState;

/// Why nodes are not read as a field.
#[derive(Clone, Copy, Debug, PartialEq, Eq)]
pub enum NoField {
    /// An allocation failed.
    OutOfMemory,
    /// They describe no valid field of the kind. The index is that of the first node that is wrong,
    /// whatever the nodes after it are; 0 if there are no nodes.
    Invalid(usize),
}

impl From<OutOfMemory> for NoField {
    ghost from_gives = { λ _ e. e ≡ no_field.OutOfMemory };

    fn from(_fault: OutOfMemory) -> NoField {
        NoField::OutOfMemory
    }
}

impl NoField {
    /// The same fault, with `count` more nodes before these.
    fn after(self, count: usize) -> NoField
        requires { (i : ℕ) → self ≡ no_field.Invalid i → count + i < 2 ^ 64 }
        ensures { result ≡ shift_fault count self }
    {
        match self {
            NoField::OutOfMemory => return NoField::OutOfMemory,
            NoField::Invalid(index) => return NoField::Invalid(count + index),
        }
    }
}

/// Returns the valid field of this kind that the nodes describe. The nodes can be those of a scan,
/// changed or not, or the caller's. Fails with `Invalid` if they describe none. Each node must have
/// the role, the type and the size of its part, a key and bytes that are in the text, and a valid
/// key and bare item; no key may occur twice in a Dictionary or in one part's parameters. Coded
/// bytes must spell the bare item (RFC 9651 section 4.2.3.1). It allocates.
///
/// ```
/// let mut node = Node::NONE;
/// node.number = 1;
/// node.size = 1;
/// node.node_type = NodeType::Integer.code();
/// node.role = Role::Member.code();
/// field_of(alloc, &seed, Dialect::Rfc9651, Kind::Item, b"", &[node])? // the Item 1
/// ```
pub fn field_of(
    alloc: Global,
    seed: &RandomState,
    dialect: Dialect,
    kind: Kind,
    text: &[u8],
    nodes: &[Node],
) -> Result<Field, NoField>
    // The nodes describe the field, and it is valid. Or they are wrong at the index: no nodes of
    // the same number that agree with them up to and including the index describe a valid field.
    ensures { Reads (IsField dialect kind text.now) nodes.now result }
{
    let source = Source {
        alloc,
        seed: *seed,
        dialect,
        text,
    };
    match kind {
        Kind::Item => match item_field(source, nodes) {
            Ok(item) => return Ok(Field::Item(item)),
            Err(fault) => return Err(fault),
        },
        Kind::List => match members(source, nodes) {
            Ok(members) => return Ok(Field::List(List { members })),
            Err(fault) => return Err(fault),
        },
        Kind::Dict => match entries(source, nodes) {
            Ok(members) => return Ok(Field::Dict(Dict { members })),
            Err(fault) => return Err(fault),
        },
    }
}

/// The Item of an Item field.
fn item_field(source: Source, nodes: &[Node]) -> Result<Item, NoField>
    ensures { Reads (IsItemField source.entry.dialect source.entry.text.now) nodes.now result }
{
    let Some(node) = first_node(nodes) else {
        return Err(NoField::Invalid(0));
    };
    if node.key_length != 0 {
        return Err(NoField::Invalid(0));
    }
    item(source, Role::Member, nodes)
}

/// The members of a List.
fn members(source: Source, nodes: &[Node]) -> Result<Sequence<Member>, NoField>
    ensures { Reads (AreMembers source.entry.dialect source.entry.text.now) nodes.now result }
{
    let mut all = Sequence::new(source.alloc);
    let mut rest = nodes;
    while !rest.is_empty() {
        let at = nodes.len() - rest.len();
        let Some((key, prefix, later)) = hop(source.text, rest) else {
            return Err(NoField::Invalid(at));
        };
        if !key.is_empty() {
            return Err(NoField::Invalid(at));
        }
        let member = match member(source, prefix) {
            Ok(member) => member,
            Err(fault) => return Err(fault.after(at)),
        };
        let Ok(_) = all.push(member) else {
            return Err(NoField::OutOfMemory);
        };
        rest = later;
    }
    Ok(all)
}

/// The members of a Dictionary.
fn entries(source: Source, nodes: &[Node]) -> Result<Entries<Member>, NoField>
    ensures { Reads (AreEntries source.entry.dialect source.entry.text.now) nodes.now result }
{
    let mut all = Entries::new(source.alloc, &source.seed);
    let mut rest = nodes;
    while !rest.is_empty() {
        let at = nodes.len() - rest.len();
        let Some((bytes, prefix, later)) = hop(source.text, rest) else {
            return Err(NoField::Invalid(at));
        };
        let Some(key) = new_key(source.alloc, bytes, &all)? else {
            return Err(NoField::Invalid(at));
        };
        let member = match member(source, prefix) {
            Ok(member) => member,
            Err(fault) => return Err(fault.after(at)),
        };
        all.set(key, member)?;
        rest = later;
    }
    Ok(all)
}

/// The key of these bytes; `None` if they are not a key, or the entries already have it.
fn new_key<V>(alloc: Global, bytes: &[u8], entries: &Entries<V>) -> Result<Option<Key>, OutOfMemory>
    ensures { IfOk result (Gives (λ k. (k ≡ bytes.now) × IsKey k × (value_at k entries.now ≡ None))) }
{
    if entries.contains_key(bytes) {
        return Ok(None);
    }
    key_of(alloc, bytes)
}

/// A member.
fn member(source: Source, nodes: &[Node]) -> Result<Member, NoField>
    ensures { Reads (IsMember source.entry.dialect source.entry.text.now) nodes.now result }
{
    let Some(node) = first_node(nodes) else {
        return Err(NoField::Invalid(0));
    };
    if node.node_type == NodeType::InnerList.code() {
        match inner(source, nodes) {
            Ok(inner) => return Ok(Member::Inner(inner)),
            Err(fault) => return Err(fault),
        }
    }
    match item(source, Role::Member, nodes) {
        Ok(item) => return Ok(Member::Item(item)),
        Err(fault) => return Err(fault),
    }
}

/// An Item.
fn item(source: Source, role: Role, nodes: &[Node]) -> Result<Item, NoField>
    ensures { Reads (IsItem source.entry.dialect source.entry.text.now role) nodes.now result }
{
    let Some(node) = first_node(nodes) else {
        return Err(NoField::Invalid(0));
    };
    let Some(bare) = value_of(source, role, nodes.len(), node)? else {
        return Err(NoField::Invalid(0));
    };
    match params(source, Role::Parameter, after_first(nodes)) {
        Ok(params) => return Ok(Item { bare, params }),
        Err(fault) => return Err(fault.after(1)),
    }
}

/// An Inner List.
fn inner(source: Source, nodes: &[Node]) -> Result<Inner, NoField>
    ensures { Reads (IsInner source.entry.dialect source.entry.text.now) nodes.now result }
{
    let Some(node) = first_node(nodes) else {
        return Err(NoField::Invalid(0));
    };
    if !is_opening(source, nodes.len(), node) {
        return Err(NoField::Invalid(0));
    }
    match inside(source, after_first(nodes)) {
        Ok(inner) => return Ok(inner),
        Err(fault) => return Err(fault.after(1)),
    }
}

/// Whether the node is that of an Inner List with this size.
fn is_opening(source: Source, size: usize, node: Node) -> bool
    ensures opening { IsTrue result → DescribesOpening source.entry.text.now
        (slice_at node.key_at node.key_length source.entry.text.now) size node }
    ensures all { (k : Seq ℕ) → DescribesOpening source.entry.text.now k size node → IsTrue result }
{
    node.role == Role::Member.code()
        && node.size as usize == size
        && node.node_type == NodeType::InnerList.code()
        && node.number == 0
        && node.text_length == 0
        && bytes_at(source.text, node.key_at as usize, node.key_length as usize).is_some()
}

/// The Items and the parameters of an Inner List.
fn inside(source: Source, nodes: &[Node]) -> Result<Inner, NoField>
    ensures { Reads (IsInside source.entry.dialect source.entry.text.now) nodes.now result }
{
    let mut items = Sequence::new(source.alloc);
    let mut rest = nodes;
    while starts_item(rest) {
        let at = nodes.len() - rest.len();
        let Some((key, prefix, later)) = hop(source.text, rest) else {
            return Err(NoField::Invalid(at));
        };
        if !key.is_empty() {
            return Err(NoField::Invalid(at));
        }
        let item = match item(source, Role::InnerItem, prefix) {
            Ok(item) => item,
            Err(fault) => return Err(fault.after(at)),
        };
        let Ok(_) = items.push(item) else {
            return Err(NoField::OutOfMemory);
        };
        rest = later;
    }
    let at = nodes.len() - rest.len();
    match params(source, Role::InnerParameter, rest) {
        Ok(params) => return Ok(Inner { items, params }),
        Err(fault) => return Err(fault.after(at)),
    }
}

/// Whether the first node is one of an Item of an Inner List.
fn starts_item(nodes: &[Node]) -> bool
    ensures starts { IsTrue result → StartsItem nodes.now }
    ensures all { StartsItem nodes.now → IsTrue result }
{
    match first_node(nodes) {
        Some(node) => return node.role == Role::InnerItem.code(),
        None => return false,
    }
}

/// Parameters.
fn params(source: Source, role: Role, nodes: &[Node]) -> Result<Entries<Bare>, NoField>
    ensures { Reads (AreParams source.entry.dialect source.entry.text.now role) nodes.now result }
{
    let mut all = Entries::new(source.alloc, &source.seed);
    let mut rest = nodes;
    while !rest.is_empty() {
        let at = nodes.len() - rest.len();
        let Some((bytes, prefix, later)) = hop(source.text, rest) else {
            return Err(NoField::Invalid(at));
        };
        let Some(key) = new_key(source.alloc, bytes, &all)? else {
            return Err(NoField::Invalid(at));
        };
        let Some(value) = param(source, role, prefix)? else {
            return Err(NoField::Invalid(at));
        };
        all.set(key, value)?;
        rest = later;
    }
    Ok(all)
}

/// The value of the parameter that one node describes.
fn param(source: Source, role: Role, nodes: &[Node]) -> Result<Option<Bare>, OutOfMemory>
    ensures { IfOk result (Gives (IsParam source.entry.dialect source.entry.text.now role nodes.now)) }
{
    let Some(node) = first_node(nodes) else {
        return Ok(None);
    };
    if nodes.len() != 1 {
        return Ok(None);
    }
    value_of(source, role, 1, node)
}
