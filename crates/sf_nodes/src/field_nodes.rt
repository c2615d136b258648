//! A field as nodes, with the bytes that they point into, in memory.
ghost use Rattle.std.specs.Prelude.{◌≡◌, IfOk, IfSome, MatchResult, Err};
ghost use Rattle.sf_value.specs.declared.dialect.Dialect.{Dialect as Which};
ghost use Rattle.sf_parse.specs.Parsers.{Parses};
ghost use Rattle.sf_view.specs.View.{DescribesField};
ghost use Rattle.sf_nodes.specs.Owned.{AreNodesOf, nodes_in};

use crate::flattening::flatten;
use sf_parse::Refusal;
use sf_value::{Dialect, Field, Kind, OutOfMemory};
use sf_view::{Node, View, node_buffer, parse_declined, scan_into};
use std::alloc::Global;
use std::borrow::CowSlice;
use std::hash::RandomState;
use std::marker::Model;

/// The nodes of a field, and the bytes that they point into: the text that was read, or a copy of
/// the field's bytes. Unlike a scan, it has a view of every field: a repeated key has one part, at
/// the first place and with the last value (RFC 9651 sections 3.1.2 and 3.2). Contracts see both.
///
/// ```
/// let nodes = FieldNodes::of_text(alloc, &seed, Dialect::Rfc9651, Kind::Dict, b"u=1, i, u=2")?;
/// nodes.view().get(b"u")?.bare() // Some(BareView::Integer(2))
/// ```
#[derive(Drop)]
pub struct FieldNodes<'a> {
    text: CowSlice<'a, u8>,
    nodes: Vec<Node>,
}

impl<'a> Model for FieldNodes<'a> {
    ghost use Rattle.std.specs.Cow.{cow_slice_items};
    ghost use Rattle.sf_nodes.specs.Owned.{NodesInText, nodes_in};

    ghost Value = { NodesInText };

    ghost view = { λ f. nodes_in (cow_slice_items f.text) f.nodes.items };
}

impl<'a> FieldNodes<'a> {
    /// Returns the nodes of a field, with their own copy of the bytes: those of its keys, and of
    /// its Strings, Tokens, Byte Sequences and Display Strings, decoded. It fails if an allocation
    /// fails, or if these bytes, or the nodes of one member, number 2^32 or more.
    ///
    /// ```
    /// let nodes = FieldNodes::of_field(alloc, &field)?; // of u=1, i
    /// nodes.view().get(b"u")?.bare() // Some(BareView::Integer(1))
    /// ```
    pub fn of_field(alloc: Global, field: &Field) -> Result<FieldNodes<'a>, OutOfMemory>
        // In both dialects, the nodes describe the field.
        ensures { IfOk result (λ n. (d : Which) → DescribesField d n.text n.nodes field.now) }
    {
        let (bytes, nodes) = flatten(alloc, field)?.into_nodes(alloc)?;
        Ok(FieldNodes {
            text: CowSlice::Owned(bytes),
            nodes,
        })
    }

    /// Reads a text as a field of this kind (RFC 9651 section 4.2), and returns its nodes, or the
    /// refusal that [`parse_declined`] returns. The text is scanned by [`scan_into`]; only if that
    /// declines it, for example because a key of parameters is repeated, the field is built and its
    /// nodes are made from that. It allocates. `Refusal::OutOfMemory` is also returned for a text
    /// of some gigabytes whose keys and texts together have 4 GiB or more.
    ///
    /// ```
    /// let nodes = FieldNodes::of_text(alloc, &seed, Dialect::Rfc9651, Kind::Item, b"a;b=1;b=2")?;
    /// nodes.view().params().get(b"b")?.bare() // Some(BareView::Integer(2))
    /// ```
    pub fn of_text(
        alloc: Global,
        seed: &RandomState,
        dialect: Dialect,
        kind: Kind,
        text: &'a [u8],
    ) -> Result<FieldNodes<'a>, Refusal>
        // The nodes describe the only field that the text spells, or this is its refusal.
        ensures { MatchResult result (AreNodesOf dialect kind text.now)
            (λ e. Parses dialect kind text.now (Err e)) }
    {
        if let Some(nodes) = scan_nodes(alloc, dialect, kind, text)? {
            return Ok(FieldNodes {
                text: CowSlice::Borrowed(text),
                nodes,
            });
        }
        let field = parse_declined(alloc, seed, dialect, kind, text)?;
        Ok(FieldNodes::of_field(alloc, &field)?)
    }

    /// Returns the view of the whole field. It does not allocate.
    ///
    /// ```
    /// nodes.view().to_field(alloc, &seed, Kind::Dict)? // Some(field), as parse_text returns it
    /// ```
    pub fn view(&self) -> View<'_>
        ensures text { result.text.now ≡ self.now.text }
        ensures nodes { result.nodes.now ≡ self.now.nodes }
    {
        View {
            text: self.text.as_slice(),
            nodes: self.nodes.as_slice(),
        }
    }
}

/// The nodes of a text that the scanner accepts; `None` says nothing about the text.
fn scan_nodes(
    alloc: Global,
    dialect: Dialect,
    kind: Kind,
    text: &[u8],
) -> Result<Option<Vec<Node>>, OutOfMemory>
    ensures { IfOk result
        (λ found. IfSome found (λ n. AreNodesOf dialect kind text.now (nodes_in text.now n.items))) }
{
    let mut nodes = node_buffer(alloc, text)?;
    let Some(count) = scan_into(alloc, dialect, kind, text, nodes.as_mut_slice()) else {
        return Ok(None);
    };
    nodes.truncate(count);
    Ok(Some(nodes))
}
