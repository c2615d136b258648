//! A buffer for the nodes of a text.
use crate::node::Node;
use sf_value::OutOfMemory;
use std::alloc::Global;

/// The number of nodes that are added together.
const BLOCK: usize = 32;

/// The number of bytes that are counted together: small enough that the count fits in a byte.
const CHUNK: usize = 128;

/// Returns a buffer with enough nodes for [`crate::View::scan`] of this text. It has one more than
/// the text has bytes that can be right before a part with a node, rounded up to a multiple of 32.
/// Such bytes count within Strings, too. No clause says that they are enough: if they were not, the
/// scan would return [`crate::Unviewed::ShortBuffer`]. It fails only if an allocation fails.
///
/// ```
/// let mut nodes = node_buffer(alloc, text)?;
/// let view = View::scan(Dialect::Rfc9651, Kind::Dict, text, nodes.as_mut_slice())?;
/// ```
pub fn node_buffer(alloc: Global, text: &[u8]) -> Result<Vec<Node>, OutOfMemory> {
    let block = [Node::NONE; BLOCK];
    let blocks = most_nodes(text).div_ceil(BLOCK);
    let mut nodes = Vec::with_capacity(alloc, blocks.saturating_mul(BLOCK))?;
    for _ in 0..blocks {
        nodes.extend_from_slice(&block)?;
    }
    Ok(nodes)
}

/// At least the number of nodes of a text: before each part but the first is a comma, a semicolon
/// or an opening bracket, or, in an Inner List, a space. No such byte is before two parts.
pub(crate) fn most_nodes(text: &[u8]) -> usize {
    let lists = occurrences(text, b'(');
    let spaces = if lists == 0 {
        0
    } else {
        occurrences(text, b' ')
    };
    occurrences(text, b',')
        .saturating_add(occurrences(text, b';'))
        .saturating_add(lists)
        .saturating_add(spaces)
        .saturating_add(1)
}

/// The number of times that the byte is in the text. The compiler vectorises the count of a chunk.
fn occurrences(text: &[u8], byte: u8) -> usize {
    let mut count = 0usize;
    for chunk in text.chunks(CHUNK) {
        let mut few = 0u8;
        for found in chunk {
            few = few.wrapping_add((*found == byte) as u8);
        }
        count = count.wrapping_add(few as usize);
    }
    count
}
