//! The parts of a view, in order: members, Items of an Inner List, parameters.
ghost use Rattle.std.specs.Prelude.{◌≡◌, ◌≤◌, ◌<◌, ◌∷◌, [], ℕ, IfSome, IfNone, None, List, length, take, drop};
ghost use Rattle.sf_value.specs.declared.dialect.Dialect.{Dialect as Which};
ghost use Rattle.sf_value.specs.declared.value.Bare.{Bare};
ghost use Rattle.sf_value.specs.declared.value.Inner.{Inner};
ghost use Rattle.sf_value.specs.declared.value.Item.{Item};
ghost use Rattle.sf_value.specs.declared.value.Member.{Member};
ghost use Rattle.sf_value.specs.Grammar.Pairs.{Pairs};
ghost use Rattle.sf_view.specs.declared.node_types.Role.{Role as Place};
ghost use Rattle.sf_view.specs.declared.node_types.Role.TheVariants as role_is;
ghost use Rattle.sf_view.specs.View.{DescribesMembers, DescribesEntries, DescribesItems};
ghost use Rattle.sf_view.specs.View.{DescribesParams, DescribesMember, DescribesItem};
ghost use Rattle.sf_view.specs.View.{DescribesInner};
ghost use Rattle.sf_value.specs.Grammar.Words.{Each};
ghost use Rattle.sf_view.specs.Parts.{MembersSplit, EntriesSplit, ItemsSplit, ParamsSplit, ItemsShown};
ghost use Rattle.sf_view.specs.Finding.{StartsWithKey, NoKey, IsInside, IsAtParams, IsSplitAtParams, IsNoInner};

use crate::keys::{bytes_at, first_node};
use crate::lookup::hop;
use crate::node::Node;
use crate::node_types::{NodeType, Role};
use crate::view::View;

impl<'a> View<'a> {
    /// The first part, and a view of the parts after it: of the members of a List or of a
    /// Dictionary, of the Items of an Inner List, or of parameters; `None` if there are no parts.
    /// It does not allocate.
    ///
    /// ```
    /// let mut rest = view;
    /// while let Some((member, others)) = rest.split_first() {
    ///     ..
    ///     rest = others;
    /// }
    /// ```
    pub fn split_first(&self) -> Option<(View<'a>, View<'a>)>
        // Both views are of the same text.
        ensures text { IfSome result (λ r. (r.0.text.now ≡ self.now.text.now)
            × (r.1.text.now ≡ self.now.text.now)) }
        // The others are fewer.
        ensures fewer { IfSome result (λ r. length r.1.nodes.now < length self.now.nodes.now) }
        // Whatever members the nodes describe, these are the first of them and the others.
        ensures members { (d : Which) (ms : List Member)
            → DescribesMembers d self.now.text.now self.now.nodes.now ms
            → MembersSplit d self.now.text.now ms result }
        // The same of the members of a Dictionary, with their keys.
        ensures entries { (d : Which) (ps : Pairs Member)
            → DescribesEntries d self.now.text.now self.now.nodes.now ps
            → EntriesSplit d self.now.text.now ps result }
        // The same of the Items of an Inner List.
        ensures items { (d : Which) (is : List Item)
            → DescribesItems d self.now.text.now self.now.nodes.now is
            → ItemsSplit d self.now.text.now is result }
        // The same of parameters.
        ensures params { (d : Which) (r : Place) (ps : Pairs Bare)
            → DescribesParams d self.now.text.now r self.now.nodes.now ps
            → ParamsSplit d self.now.text.now r ps result }
    {
        let Some((_, prefix, later)) = hop(self.text, self.nodes) else {
            return None;
        };
        let first = View {
            text: self.text,
            nodes: prefix,
        };
        let others = View {
            text: self.text,
            nodes: later,
        };
        Some((first, others))
    }

    /// The key of a member of a Dictionary or of a parameter, as a part of the text; empty if the
    /// part has no key. It does not allocate.
    ///
    /// ```
    /// view.get(b"u")?.key() // b"u"
    /// ```
    pub fn key(&self) -> &'a [u8]
        // Whatever member the nodes describe, this is its key.
        ensures member { (d : Which) (k : List ℕ) (m : Member)
            → DescribesMember d self.now.text.now k self.now.nodes.now m
            → result.now ≡ k }
        // Whatever parameter the node describes, this is its key.
        ensures param { (d : Which) (r : Place) (k : List ℕ) (x : Bare)
            → DescribesParams d self.now.text.now r self.now.nodes.now ((k, x) ∷ [])
            → result.now ≡ k }
    {
        match first_key_of(self.text, self.nodes) {
            Some(key) => return key,
            None => return &[],
        }
    }

    /// The parameters of an Item, or of an Inner List as a whole. It does not allocate.
    ///
    /// ```
    /// view.params().get(b"q")?.bare()
    /// ```
    pub fn params(&self) -> View<'a>
        ensures text { result.text.now ≡ self.now.text.now }
        // Whatever Item the nodes describe, these describe its parameters.
        ensures item { (d : Which) (r : Place) (k : List ℕ) (i : Item)
            → DescribesItem d self.now.text.now r k self.now.nodes.now i
            → DescribesParams d self.now.text.now role_is.Parameter result.nodes.now i.params }
        // Whatever Inner List the nodes describe, these describe its parameters.
        ensures inner { (d : Which) (k : List ℕ) (l : Inner)
            → DescribesInner d self.now.text.now k self.now.nodes.now l
            → DescribesParams d self.now.text.now role_is.InnerParameter result.nodes.now l.params }
    {
        let nodes = match inner_parts(self.nodes) {
            Some((_, params)) => params,
            None => after_first(self.nodes),
        };
        View {
            text: self.text,
            nodes,
        }
    }

    /// The Items of an Inner List; `None` for an Item. It does not allocate.
    ///
    /// ```
    /// view.get(b"l")?.items() // of l=(1 2): a view of two Items
    /// ```
    pub fn items(&self) -> Option<View<'a>>
        ensures text { IfSome result (λ v. v.text.now ≡ self.now.text.now) }
        // Whatever Inner List the nodes describe, these describe its Items.
        ensures inner { (d : Which) (k : List ℕ) (l : Inner)
            → DescribesInner d self.now.text.now k self.now.nodes.now l
            → ItemsShown d self.now.text.now l.items result }
        // An Item has none.
        ensures item { (d : Which) (r : Place) (k : List ℕ) (i : Item)
            → DescribesItem d self.now.text.now r k self.now.nodes.now i
            → result ≡ None }
    {
        let (items, _) = inner_parts(self.nodes)?;
        Some(View {
            text: self.text,
            nodes: items,
        })
    }
}

/// The key of the first node; `None` if there is no node, or its key isn't in the text.
#[inline]
fn first_key_of<'a>(source: &'a [u8], nodes: &[Node]) -> Option<&'a [u8]>
    ensures some { IfSome result (λ k. StartsWithKey source.now nodes.now k.now) }
    ensures none { IfNone result (NoKey source.now nodes.now) }
{
    let node = first_node(nodes)?;
    bytes_at(source, node.key_at as usize, node.key_length as usize)
}

/// The nodes after the first.
#[inline]
pub(crate) fn after_first(nodes: &[Node]) -> &[Node]
    ensures { result.now ≡ drop 1 nodes.now }
{
    match nodes {
        [_, more @ ..] => return more,
        [] => return nodes,
    }
}

/// The nodes of the Items of an Inner List, and those of its parameters; `None` if the first node
/// isn't one of an Inner List.
fn inner_parts(nodes: &[Node]) -> Option<(&[Node], &[Node])>
    ensures some { IfSome result (λ r. IsSplitAtParams nodes.now r.0.now r.1.now) }
    ensures none { IfNone result (IsNoInner nodes.now) }
{
    let opening = first_node(nodes)?;
    if opening.node_type != NodeType::InnerList.code() {
        return None;
    }
    let inside = after_first(nodes);
    Some(inside.split_at(items_end(inside)))
}

/// The number of nodes before the first parameter of an Inner List.
#[inline]
fn items_end(nodes: &[Node]) -> usize
    ensures within { result ≤ length nodes.now }
    ensures before { Each IsInside (take result nodes.now) }
    ensures after { IsAtParams (drop result nodes.now) }
{
    let stop = Role::InnerParameter.code();
    let mut end = 0;
    while end < nodes.len() && nodes[end].role != stop {
        end += 1;
    }
    end
}
