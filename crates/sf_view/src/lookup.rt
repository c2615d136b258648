//! Looking up a member of a Dictionary, or a parameter, among nodes.
ghost use Rattle.std.specs.Prelude.{◌≡◌, ◌≤◌, ◌<◌, ⊤, length, take, drop, IfNone, IfSome, List, None};
ghost use Rattle.sf_value.specs.declared.dialect.Dialect.{Dialect as Which};
ghost use Rattle.sf_value.specs.declared.value.Bare.{Bare};
ghost use Rattle.sf_value.specs.declared.value.Member.{Member};
ghost use Rattle.sf_value.specs.Grammar.Pairs.{Pairs, value_at};
ghost use Rattle.sf_view.specs.View.{DescribesEntries, DescribesParams};
ghost use Rattle.sf_view.specs.Finding.{Finds, FindsParam, IsHop, NoHop};
ghost use Rattle.sf_view.specs.declared.node_types.Role.{Role as Place};

use crate::keys::{bytes_at, first_node};
use crate::node::Node;

/// The first part: its key, its nodes, and those after it; `None` if there are no nodes, or its key
/// isn't in the source, or its size is wrong.
#[inline]
pub(crate) fn hop<'a>(
    source: &'a [u8],
    nodes: &'a [Node],
) -> Option<(&'a [u8], &'a [Node], &'a [Node])>
    ensures hop { IfSome result (λ r. IsHop source.now nodes.now r.0.now r.1.now r.2.now) }
    ensures none { IfNone result (NoHop source.now nodes.now) }
    ensures shorter { IfSome result (λ r. length r.2.now < length nodes.now) }
{
    let node = first_node(nodes)?;
    let key = bytes_at(source, node.key_at as usize, node.key_length as usize)?;
    let size = node.size as usize;
    if size == 0 || size > nodes.len() {
        return None;
    }
    let (prefix, later) = nodes.split_at(size);
    Some((key, prefix, later))
}

/// The nodes of the part with this key, if there is one, among the nodes of a Dictionary or of
/// parameters. The source is what the nodes point into, such as the text that was scanned. It does
/// not allocate.
///
/// ```
/// entry(view.text, view.nodes, b"i") // of u=1, i: Some, the node of the Boolean true
/// ```
pub fn entry<'a>(source: &'a [u8], nodes: &'a [Node], key: &[u8]) -> Option<&'a [Node]>
    // Whatever members the nodes describe, the nodes found describe the one with this key.
    ensures found { (d : Which) (ps : Pairs Member) → DescribesEntries d source.now nodes.now ps
        → IfSome result (λ ns. Finds d source.now key.now ps ns.now) }
    // If none are found, no member has this key.
    ensures none { (d : Which) (ps : Pairs Member) → DescribesEntries d source.now nodes.now ps
        → IfNone result (value_at key.now ps ≡ None) }
    // Whatever parameters the nodes describe, the same holds.
    ensures found_param { (d : Which) (r : Place) (ps : Pairs Bare)
        → DescribesParams d source.now r nodes.now ps
        → IfSome result (λ ns. FindsParam d source.now key.now r ps ns.now) }
    ensures none_param { (d : Which) (r : Place) (ps : Pairs Bare)
        → DescribesParams d source.now r nodes.now ps
        → IfNone result (value_at key.now ps ≡ None) }
{
    let mut rest = nodes;
    loop {
        let Some((name, prefix, later)) = hop(source, rest) else {
            return None;
        };
        if key == name {
            return Some(prefix);
        }
        rest = later;
    }
}
