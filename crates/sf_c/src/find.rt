//! A node by its key.
ghost use Rattle.std.specs.Prelude.{◌≡◌, position, Some, None, IfSome, IfNone};
ghost use Rattle.sf_c.specs.Finding.{Finds, found_at, has_key as node_has_key};
ghost use Rattle.sf_c.specs.Finding.{is_named as node_is_named};
ghost use Rattle.sf_c.specs.Statuses.{status_at};

use crate::status::Status;
use sf_view::Node;

/// The first of the nodes with this role and this key. Returns `Answered` and sets `index`, or
/// returns `Absent`. Offsets below the length of `text` are in `text`, the others in `bytes`; a
/// node whose key is not within one of the two is not found. Does not allocate.
#[unsafe(no_mangle)]
pub extern "C" fn sf_find(
    nodes: &[Node],
    text: &[u8],
    bytes: &[u8],
    role: u32,
    key: &[u8],
    index: &mut usize,
) -> u32
    // The index of the first such node, or Absent if there is none.
    ensures { Finds text.now bytes.now role key.now nodes.now index.old index.new
        (status_at result) }
{
    match position_of(nodes, text, bytes, role, key) {
        Some(found) => {
            *index = found;
            Status::Answered.code()
        }
        None => Status::Absent.code(),
    }
}

/// The index of the first of the nodes with this role and this key.
fn position_of(nodes: &[Node], text: &[u8], bytes: &[u8], role: u32, key: &[u8]) -> Option<usize>
    ensures { result ≡ position (node_is_named text.now bytes.now role key.now) nodes.now }
{
    nodes
        .iter()
        .position(|node| is_named(node, text, bytes, role, key))
}

/// Whether a node has this role and this key.
fn is_named(node: &Node, text: &[u8], bytes: &[u8], role: u32, key: &[u8]) -> bool
    ensures { result ≡ node_is_named text.now bytes.now role key.now node.now }
{
    u32::from(node.role) == role && has_key(node, text, bytes, key)
}

/// Whether a node has this key.
fn has_key(node: &Node, text: &[u8], bytes: &[u8], key: &[u8]) -> bool
    ensures { result ≡ node_has_key text.now bytes.now key.now node.now }
{
    match bytes_at(text, bytes, node.key_at, node.key_length) {
        Some(found) => return found == key,
        None => return false,
    }
}

/// The bytes at an offset, which counts in the text and from its end on in the bytes; `None` if
/// they are not all in one of the two.
fn bytes_at<'a>(text: &'a [u8], bytes: &'a [u8], at: u32, length: u32) -> Option<&'a [u8]>
    ensures some { IfSome result (λ found. found_at text.now bytes.now at length ≡ Some found.now) }
    ensures none { IfNone result (found_at text.now bytes.now at length ≡ None) }
{
    let (at, length) = (at as usize, length as usize);
    if at + length <= text.len() {
        return Some(&text[at..at + length]);
    }
    if at < text.len() || at - text.len() + length > bytes.len() {
        return None;
    }
    let start = at - text.len();
    Some(&bytes[start..start + length])
}
