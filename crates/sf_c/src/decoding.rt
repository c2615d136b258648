//! The coded bytes of scanned nodes, decoded into the caller's buffer.
ghost use Rattle.std.specs.Prelude.{◌≡◌, ◌≤◌, ◌<◌, ◌^◌, ◌+◌, length, IfSome, IsTrue};
ghost use Rattle.sf_value.specs.Grammar.Words.{Each};
ghost use Rattle.sf_nodes.specs.NodeBytes.{IsDecoded};
ghost use Rattle.sf_c.specs.Decodings.{AreDecoded, IsNodeDecoded, HasCoded, decoded_to};

use crate::span::Span;
use sf_view::{Node, NodeType, Slice};

/// Whether no node is coded. It reads each, without an early exit, which takes less time than to
/// test where to stop.
#[inline]
pub(crate) fn none_coded(nodes: &[Node]) -> bool
    ensures { IsTrue result → Each IsDecoded nodes.now }
{
    let mut none = true;
    for node in nodes {
        none &= node.coded == 0;
    }
    none
}

/// Decodes the bytes of each coded node into the buffer, one after another, points the node to
/// them, and returns their number. `None` claims nothing.
pub(crate) fn decode_nodes(text: &[u8], nodes: &mut [Node], bytes: &mut [u8]) -> Option<usize>
    requires small { length text.now < 2 ^ 32 }
    ensures same_nodes { length nodes.new ≡ length nodes.old }
    ensures same_bytes { length bytes.new ≡ length bytes.old }
    // Each node describes what it described, with the text and these bytes after it.
    ensures decoded { IfSome result (AreDecoded text.now nodes.old nodes.new bytes.new) }
{
    let mut used = 0;
    let mut count = 0;
    while count < nodes.len() {
        let (node, end) = decode_node(text, nodes[count], bytes, used)?;
        nodes[count] = node;
        used = end;
        count += 1;
    }
    Some(used)
}

/// The node with its bytes decoded after the first `used` of the buffer, and the number used then.
#[inline]
fn decode_node(text: &[u8], node: Node, bytes: &mut [u8], used: usize) -> Option<(Node, usize)>
    requires small { length text.now < 2 ^ 32 }
    requires used { used ≤ length bytes.old }
    ensures same { length bytes.new ≡ length bytes.old }
    ensures decoded { IfSome result
        (λ r. IsNodeDecoded text.now bytes.old bytes.new used node r.0 r.1) }
{
    if !is_within(text, node.key_at, node.key_length) {
        return None;
    }
    if node.coded == 0 {
        if !is_within(text, node.text_at, node.text_length) {
            return None;
        }
        return Some((node, used));
    }
    let slice = coded_slice(text, node)?;
    let (_, free) = bytes.split_at_mut(used);
    let count = slice.decode_to(free)?;
    let at = text.len() + used;
    if at > 0xffff_ffff || count > 0xffff_ffff {
        return None;
    }
    Some((decoded_at(node, at as u32, count as u32), used + count))
}

/// The uncoded node with its bytes at this offset.
#[inline]
fn decoded_at(node: Node, text_at: u32, text_length: u32) -> Node
    ensures { result ≡ decoded_to text_at text_length node }
{
    Node {
        text_at,
        text_length,
        coded: 0,
        ..node
    }
}

/// Whether these bytes are within the text.
#[inline]
fn is_within(text: &[u8], at: u32, size: u32) -> bool
    ensures { IsTrue result → at + size ≤ length text.now }
{
    at as usize + size as usize <= text.len()
}

/// The coded bytes of a node of a String, a Byte Sequence or a Display String.
#[inline]
fn coded_slice<'a>(text: &'a [u8], node: Node) -> Option<Slice<'a>>
    ensures { IfSome result (HasCoded text.now node) }
{
    match NodeType::from_code(node.node_type)? {
        NodeType::Text | NodeType::Blob | NodeType::Shown => {
            let span = Span {
                at: node.text_at as usize,
                length: node.text_length as usize,
            };
            let bytes = span.of(text)?;
            Some(Slice { bytes, coded: true })
        }
        _ => None,
    }
}
