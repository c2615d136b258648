//! A whole text with its nodes, and what they describe.
ghost use Rattle.std.specs.Prelude.{◌≡◌, ◌∷◌, [], ℕ, List, length, IfOk, IfErr, IfSome, IfNone, None};
ghost use Rattle.sf_value.specs.declared.dialect.Dialect.{Dialect as Which};
ghost use Rattle.sf_value.specs.declared.value.Bare.{Bare};
ghost use Rattle.sf_value.specs.declared.value.Inner.{Inner};
ghost use Rattle.sf_value.specs.declared.value.Item.{Item};
ghost use Rattle.sf_value.specs.declared.value.Member.{Member};
ghost use Rattle.sf_value.specs.Grammar.Pairs.{Pairs, value_at};
ghost use Rattle.sf_view.specs.declared.node_types.NodeType.TheVariants as type_is;
ghost use Rattle.sf_view.specs.declared.node_types.Role.{Role as Place};
ghost use Rattle.sf_view.specs.NodeTypes.{type_number};
ghost use Rattle.sf_view.specs.View.{DescribesEntries, DescribesParams, DescribesItem, DescribesInner};
ghost use Rattle.sf_view.specs.Finding.{Finds, FindsParam};
ghost use Rattle.sf_view.specs.Views.{IsViewed, IsReason, reason, NodeShows, ShowsBare};

use crate::keys::{bytes_at, first_node};
use crate::lookup::entry;
use crate::node::Node;
use crate::node_types::NodeType;
use crate::series::scan_text;
use sf_value::{Dialect, Kind};

/// A part of a field, as the nodes that describe it and the text that they point into: the whole
/// field, a member, or the members that remain. It does not allocate.
#[derive(Clone, Copy, Debug, Drop)]
pub struct View<'a> {
    /// The whole text of the field.
    pub text: &'a [u8],
    /// The nodes of this part, in the order of the field.
    pub nodes: &'a [Node],
}

/// Why a text has no view.
#[derive(Clone, Copy, Debug, PartialEq, Eq)]
pub enum Unviewed {
    /// The scanner declines the text: it is malformed, a key is repeated or, rarely, its keys are
    /// too many or too alike to compare. `sf_parse::parse_text_in` returns the value or the exact
    /// refusal.
    Declined,
    /// As [`Unviewed::Declined`], or the buffer has too few nodes. As many nodes as the text has
    /// bytes are always enough.
    ShortBuffer,
    /// The text has 4 GiB or more, so that its offsets don't fit in a node.
    TooLong,
}

/// The bytes of a String, a Byte Sequence or a Display String, as a part of the text.
#[derive(Clone, Copy, Debug, Drop)]
pub struct Slice<'a> {
    /// The bytes themselves. If they are coded, the text of the whole bare item: its quotes or
    /// colons, and between them the escaped or encoded bytes.
    pub bytes: &'a [u8],
    /// Whether the bytes are escaped or encoded. After a scan: always for a Byte Sequence or a
    /// Display String, and for a String if it has an escape. In nodes of another origin, any bytes
    /// may be decoded already.
    pub coded: bool,
}

/// A bare item that borrows the text (RFC 9651 section 3.3).
#[derive(Clone, Copy, Debug, Drop)]
pub enum BareView<'a> {
    /// An Integer.
    Integer(i64),
    /// A Decimal, in thousandths.
    Decimal(i64),
    /// A String.
    Text(Slice<'a>),
    /// A Token, always uncoded.
    Token(&'a [u8]),
    /// A Byte Sequence.
    Blob(Slice<'a>),
    /// A Boolean.
    Boolean(bool),
    /// A Date, in seconds since 1970-01-01T00:00:00Z.
    Date(i64),
    /// A Display String.
    Shown(Slice<'a>),
}

impl<'a> View<'a> {
    /// Scans a whole text as a field of this kind, and writes a node for each part of it to the
    /// beginning of the buffer (RFC 9651 section 4.2). It does not allocate.
    ///
    /// ```
    /// let mut nodes = [Node::NONE; 16];
    /// let view = View::scan(Dialect::Rfc9651, Kind::Dict, b"u=1, i", &mut nodes)?;
    /// view.get(b"u")?.bare() // Some(BareView::Integer(1))
    /// ```
    pub fn scan(
        dialect: Dialect,
        kind: Kind,
        text: &'a [u8],
        nodes: &'a mut [Node],
    ) -> Result<View<'a>, Unviewed>
        // The text spells a field, and no other, and the nodes of the view describe it.
        ensures accepts { IfOk result (λ v. IsViewed dialect kind text.now v) }
        // Only a text of 4 GiB or more is too long, and only a buffer with fewer nodes than the
        // text has bytes may be too short.
        ensures excused { IfErr result (λ e. IsReason (length text.now) (length nodes.old) e) }
    {
        if text.len() > 0xffff_ffff {
            return Err(Unviewed::TooLong);
        }
        let enough = text.len() <= nodes.len();
        let Some(count) = scan_text(dialect, kind, text, nodes) else {
            return Err(declined(enough));
        };
        let (prefix, _) = nodes.split_at(count);
        Ok(View {
            text,
            nodes: prefix,
        })
    }

    /// The member of a Dictionary with this key, or the parameter with this key; `None` if there is
    /// none. It does not allocate, and takes time in proportion to the number of members or
    /// parameters.
    ///
    /// ```
    /// view.get(b"u") // of u=1, i: the view of the Integer 1
    /// view.get(b"u")?.params().get(b"q") // of u=1;q=2: the view of the Integer 2
    /// ```
    pub fn get(&self, key: &[u8]) -> Option<View<'a>>
        // Whatever members the nodes describe, those found describe the one with this key.
        ensures found { (d : Which) (ps : Pairs Member)
            → DescribesEntries d self.now.text.now self.now.nodes.now ps
            → IfSome result (λ m. Finds d self.now.text.now key.now ps m.nodes.now) }
        // They point into the same text.
        ensures text { IfSome result (λ m. m.text.now ≡ self.now.text.now) }
        // If none are found, no member has this key.
        ensures none { (d : Which) (ps : Pairs Member)
            → DescribesEntries d self.now.text.now self.now.nodes.now ps
            → IfNone result (value_at key.now ps ≡ None) }
        // Whatever parameters the nodes describe, the same holds.
        ensures found_param { (d : Which) (r : Place) (ps : Pairs Bare)
            → DescribesParams d self.now.text.now r self.now.nodes.now ps
            → IfSome result (λ p. FindsParam d self.now.text.now key.now r ps p.nodes.now) }
        ensures none_param { (d : Which) (r : Place) (ps : Pairs Bare)
            → DescribesParams d self.now.text.now r self.now.nodes.now ps
            → IfNone result (value_at key.now ps ≡ None) }
    {
        match entry(self.text, self.nodes, key) {
            Some(nodes) => Some(View {
                text: self.text,
                nodes,
            }),
            None => None,
        }
    }

    /// The bare item of an Item, or the value of a parameter: what the first node describes; `None`
    /// for an Inner List. It does not allocate.
    #[inline(always)]
    pub fn bare(&self) -> Option<BareView<'a>>
        // Whatever Item the nodes describe, this is its bare item.
        ensures item { (d : Which) (r : Place) (k : List ℕ) (i : Item)
            → DescribesItem d self.now.text.now r k self.now.nodes.now i
            → ShowsBare d result i.bare }
        // Whatever parameter the node describes, this is its value.
        ensures param { (d : Which) (r : Place) (k : List ℕ) (x : Bare)
            → DescribesParams d self.now.text.now r self.now.nodes.now ((k, x) ∷ [])
            → ShowsBare d result x }
        // An Inner List has no bare item.
        ensures inner { (d : Which) (k : List ℕ) (l : Inner)
            → DescribesInner d self.now.text.now k self.now.nodes.now l
            → result ≡ None }
    {
        let node = first_node(self.nodes)?;
        let bytes = bytes_at(self.text, node.text_at as usize, node.text_length as usize)?;
        bare_of(node, bytes)
    }
}

/// The bare item of a node that points to these bytes; `None` for an Inner List.
#[inline(always)]
pub(crate) fn bare_of<'a>(node: Node, bytes: &'a [u8]) -> Option<BareView<'a>>
    ensures bare { (d : Which) (x : Bare) → NodeShows d node bytes.now x → ShowsBare d result x }
    ensures inner { node.node_type ≡ type_number type_is.InnerList → result ≡ None }
{
    let coded = node.coded != 0;
    let Some(node_type) = NodeType::from_code(node.node_type) else {
        return None;
    };
    match node_type {
        NodeType::Integer => return Some(BareView::Integer(node.number)),
        NodeType::Decimal => return Some(BareView::Decimal(node.number)),
        NodeType::Text => return Some(BareView::Text(Slice { bytes, coded })),
        NodeType::Token => return Some(BareView::Token(bytes)),
        NodeType::Blob => return Some(BareView::Blob(Slice { bytes, coded })),
        NodeType::Boolean => return Some(BareView::Boolean(node.number != 0)),
        NodeType::Date => return Some(BareView::Date(node.number)),
        NodeType::Shown => return Some(BareView::Shown(Slice { bytes, coded })),
        NodeType::InnerList => return None,
    }
}

/// The reason that a text has no view. `enough` is whether the buffer has a node for each byte of
/// the text.
fn declined(enough: bool) -> Unviewed
    ensures { result ≡ reason enough }
{
    if enough {
        Unviewed::Declined
    } else {
        Unviewed::ShortBuffer
    }
}
