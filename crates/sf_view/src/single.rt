//! The bare item of one node of any origin.
ghost use Rattle.std.specs.Prelude.{◌≡◌, pos, true, [], IsTrue, IfOk, IfSome, Some};
ghost use Rattle.sf_value.specs.declared.dialect.Dialect.TheVariants as dialect_is;
ghost use Rattle.sf_value.specs.declared.value.Bare.{Bare as Value};
ghost use Rattle.sf_value.specs.declared.value.Field.TheVariants as field_is;
ghost use Rattle.sf_value.specs.Grammar.BareItems.{SpellsBare};
ghost use Rattle.sf_value.specs.Grammar.Items.{item as item_of};
ghost use Rattle.sf_value.specs.Grammar.Valid.{ValidBare};
ghost use Rattle.sf_view.specs.NodeTypes.{is_coded};
ghost use Rattle.sf_view.specs.View.{type_of, number_of, text_of};
ghost use Rattle.sf_view.specs.Building.{Gives, IsBare, IsTight, IsValue, AgreesWith, is_type_in};

use crate::keys::bytes_at;
use crate::node::Node;
use crate::node_types::{NodeType, Role};
use crate::view::bare_of;
use sf_parse::{Refusal, parse_text_in};
use sf_value::{Bare, Dialect, Field, Item, Kind, OutOfMemory};
use std::alloc::Global;
use std::hash::RandomState;

/// The text that nodes point into, and what their values are built with.
#[derive(Clone, Copy, Drop)]
pub(crate) struct Source<'a> {
    pub alloc: Global,
    pub seed: RandomState,
    pub dialect: Dialect,
    pub text: &'a [u8],
}

/// The bare item of a node of this role and size; `None` if it has no valid one, or its key isn't
/// in the text.
pub(crate) fn value_of(
    source: Source,
    role: Role,
    size: usize,
    node: Node,
) -> Result<Option<Bare>, OutOfMemory>
    ensures { IfOk result (Gives (IsValue source.entry.dialect source.entry.text.now role size node)) }
{
    if node.role != role.code() || node.size as usize != size {
        return Ok(None);
    }
    let Some(_) = bytes_at(source.text, node.key_at as usize, node.key_length as usize) else {
        return Ok(None);
    };
    let Some(bytes) = bytes_at(
        source.text,
        node.text_at as usize,
        node.text_length as usize,
    ) else {
        return Ok(None);
    };
    bare_item(source, node, bytes)
}

/// The bare item of a node that points to these bytes; `None` if it has no valid one.
fn bare_item(source: Source, node: Node, bytes: &[u8]) -> Result<Option<Bare>, OutOfMemory>
    ensures { IfOk result (Gives (IsBare source.entry.dialect node bytes.now)) }
{
    let Some(bare) = candidate(source, node, bytes)? else {
        return Ok(None);
    };
    let parts = parts_of(&bare);
    if !has_type(source.dialect, parts.node_type) || !parts.are_in(node, bytes) {
        return Ok(None);
    }
    Ok(Some(bare))
}

/// The only bare item that the node may describe, if it points to these bytes.
fn candidate(source: Source, node: Node, bytes: &[u8]) -> Result<Option<Bare>, OutOfMemory>
    ensures only { IfOk result
        (λ made. (x : Value) → IsBare source.entry.dialect node bytes.now x → made ≡ Some x) }
    // If the bytes are coded, they are its text.
    ensures spelled { IfOk result
        (λ made. is_coded node.coded ≡ true → IfSome made (SpellsBare source.entry.dialect bytes.now)) }
{
    if node.coded != 0 {
        return spelled(source, bytes);
    }
    let Some(view) = bare_of(node, bytes) else {
        return Ok(None);
    };
    view.to_bare(source.alloc)
}

/// The bare item that the text spells (RFC 9651 section 4.2.3.1).
fn spelled(source: Source, text: &[u8]) -> Result<Option<Bare>, OutOfMemory>
    ensures only { IfOk result
        (λ made. (x : Value) → SpellsBare source.entry.dialect text.now x → made ≡ Some x) }
    ensures spelled { IfOk result (λ made. IfSome made (SpellsBare source.entry.dialect text.now)) }
{
    if !is_tight(text) {
        return Ok(None);
    }
    match parse_text_in(source.alloc, &source.seed, source.dialect, Kind::Item, text) {
        Ok(field) => return Ok(alone(field)),
        Err(Refusal::OutOfMemory) => return Err(OutOfMemory),
        Err(Refusal::Syntax { .. }) => return Ok(None),
        Err(_) => unreachable!(),
    }
}

/// Whether the text neither begins nor ends with a space.
fn is_tight(text: &[u8]) -> bool
    ensures tight { IsTrue result → IsTight text.now }
    ensures loose { IsTight text.now → IsTrue result }
{
    text.is_empty() || (text[0] != b' ' && text[text.len() - 1] != b' ')
}

/// The bare item of an Item without parameters.
fn alone(field: Field) -> Option<Bare>
    ensures some { IfSome result (λ x. field ≡ field_is.Item (item_of x [])) }
    ensures none { (x : Value) → field ≡ field_is.Item (item_of x []) → result ≡ Some x }
{
    match field {
        Field::Item(Item { bare, params }) => {
            if !params.is_empty() {
                return None;
            }
            return Some(bare);
        }
        Field::List(_) => return None,
        Field::Dict(_) => return None,
    }
}

/// The type, the number and the bytes that a node has for a bare item, if the bytes aren't coded.
#[derive(Clone, Copy, Drop)]
struct Parts<'a> {
    node_type: NodeType,
    number: i64,
    bytes: &'a [u8],
}

impl Parts<'_> {
    /// Whether the node, which points to these bytes, has this type, number and bytes. Coded bytes
    /// are not compared.
    fn are_in(&self, node: Node, bytes: &[u8]) -> bool
        ensures agree { IsTrue result
            → AgreesWith node bytes.now self.now.node_type self.now.number self.now.bytes.now }
        ensures all { AgreesWith node bytes.now self.now.node_type self.now.number self.now.bytes.now
            → IsTrue result }
    {
        node.node_type == self.node_type.code()
            && node.number == self.number
            && (node.coded != 0 || bytes == self.bytes)
    }
}

/// What a node has for a bare item.
fn parts_of(bare: &Bare) -> Parts
    ensures node_type { result.node_type ≡ type_of bare.now }
    ensures number { result.number ≡ number_of bare.now }
    ensures bytes { result.bytes.now ≡ text_of bare.now }
    ensures valid { ValidBare dialect_is.Rfc9651 bare.now }
{
    match bare {
        Bare::Integer(n) => return number_parts(NodeType::Integer, n.get()),
        Bare::Decimal(n) => return number_parts(NodeType::Decimal, n.get()),
        Bare::Text(text) => return text_parts(NodeType::Text, text.as_bytes()),
        Bare::Token(token) => return text_parts(NodeType::Token, token.as_bytes()),
        Bare::Blob(blob) => return text_parts(NodeType::Blob, blob.as_bytes()),
        Bare::Boolean(b) => return number_parts(NodeType::Boolean, i64::from(*b)),
        Bare::Date(n) => return number_parts(NodeType::Date, n.get()),
        Bare::Shown(shown) => return text_parts(NodeType::Shown, shown.as_bytes()),
    }
}

/// A number, and no bytes.
fn number_parts<'a>(node_type: NodeType, number: i64) -> Parts<'a>
    ensures node_type { result.node_type ≡ node_type }
    ensures number { result.number ≡ number }
    ensures bytes { result.bytes.now ≡ [] }
{
    Parts {
        node_type,
        number,
        bytes: b"",
    }
}

/// Bytes, and the number 0.
fn text_parts<'a>(node_type: NodeType, bytes: &'a [u8]) -> Parts<'a>
    ensures node_type { result.node_type ≡ node_type }
    ensures number { result.number ≡ pos 0 }
    ensures bytes { result.bytes.now ≡ bytes.now }
{
    Parts {
        node_type,
        number: 0,
        bytes,
    }
}

/// Whether the dialect has bare items of this type.
fn has_type(dialect: Dialect, node_type: NodeType) -> bool
    ensures { result ≡ is_type_in dialect node_type }
{
    match dialect {
        Dialect::Rfc9651 => return true,
        Dialect::Rfc8941 => return !matches!(node_type, NodeType::Date | NodeType::Shown),
    }
}
