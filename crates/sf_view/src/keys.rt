//! Whether the keys of the parts that nodes describe differ.
ghost use Rattle.std.specs.Prelude.{◌≡◌, ◌∷◌, [], ◌++◌, ◌≤◌, ◌<◌, ◌+◌, ◌*◌, ◌/◌, ◌%◌, ◌^◌, length};
ghost use Rattle.std.specs.Prelude.{List, IsTrue, IfSome, IfNone, ℕ, drop, slice_index_or};
ghost use Rattle.sf_view.specs.View.{slice_at};
ghost use Rattle.sf_view.specs.Scans.{keys_from, AreApart, DistinguishKeys};
ghost use Rattle.sf_view.specs.Keys.{hash_of, tag_of, Holds, IsAbsent, Enters};
ghost use Rattle.sf_view.specs.Marks.{mark_of, HaveMarks};

use crate::node::Node;

/// The marks of keys, as a set of bits; all bits once two keys have the same mark.
#[derive(Clone, Copy, Drop)]
pub(crate) struct Marks {
    pub bits: u64,
}

impl Marks {
    /// The marks of no keys.
    pub(crate) const NONE: Marks = Marks { bits: 0 };

    /// The marks of keys of which nothing is known.
    pub(crate) const ALL: Marks = Marks { bits: u64::MAX };

    /// The marks of the keys and of one more key, which has this mark.
    #[inline]
    pub(crate) fn with(self, mark: u32) -> Marks
        ensures { (ks : List (List ℕ)) (k : List ℕ) → mark ≡ mark_of k
            → HaveMarks self ks → HaveMarks result (ks ++ k ∷ []) }
    {
        let bit = mark % 64;
        if self.bits >> bit & 1 == 1 {
            return Marks { bits: u64::MAX };
        }
        Marks {
            bits: self.bits | 1 << bit,
        }
    }

    /// Whether the keys differ, by their marks or, if two have the same mark, by the keys of these
    /// nodes; `false` also if there are too many, or two have the same tag.
    #[inline]
    pub(crate) fn differ(self, source: &[u8], nodes: &[Node]) -> bool
        ensures { IsTrue result → DistinguishKeys self source.now nodes.now }
    {
        self.bits != u64::MAX || are_distinct(source, nodes)
    }
}

/// The first node.
#[inline]
pub(crate) fn first_node(nodes: &[Node]) -> Option<Node>
    ensures some { IfSome result (λ n. (n ≡ slice_index_or nodes.now 0 n) × (1 ≤ length nodes.now)) }
    ensures none { IfNone result (length nodes.now ≡ 0) }
{
    match nodes {
        [node, ..] => Some(*node),
        [] => None,
    }
}

/// The `size` bytes at this offset; `None` if the source does not have them.
#[inline]
pub(crate) fn bytes_at(source: &[u8], at: usize, size: usize) -> Option<&[u8]>
    ensures none { IfNone result (length source.now < at + size) }
    ensures some { IfSome result (λ bytes. bytes.now ≡ slice_at at size source.now) }
    ensures within { IfSome result (λ _. at + size ≤ length source.now) }
{
    if at > source.len() || size > source.len() - at {
        return None;
    }
    let (_, from) = source.split_at(at);
    let (bytes, _) = from.split_at(size);
    Some(bytes)
}

/// The nodes after the first `count`.
#[inline]
fn nodes_after(nodes: &[Node], count: usize) -> Option<&[Node]>
    ensures { IfSome result (λ later. (later.now ≡ drop count nodes.now) × (count ≤ length nodes.now)) }
{
    if count > nodes.len() {
        return None;
    }
    let (_, later) = nodes.split_at(count);
    Some(later)
}

/// The key of the first part, and the nodes after that part; `None` if it isn't in the source.
#[inline]
fn first_key<'a>(source: &'a [u8], nodes: &'a [Node]) -> Option<(&'a [u8], &'a [Node])>
    ensures keys { IfSome result (λ r. keys_from source.now 0 nodes.now
        ≡ r.0.now ∷ keys_from source.now 0 r.1.now) }
    ensures shorter { IfSome result (λ r. length r.1.now < length nodes.now) }
{
    let node = first_node(nodes)?;
    let key = bytes_at(source, node.key_at as usize, node.key_length as usize)?;
    let later = nodes_after(nodes, node.size as usize)?;
    if node.size == 0 {
        return None;
    }
    Some((key, later))
}

/// Whether none of the parts has the key.
#[inline]
fn is_absent(source: &[u8], key: &[u8], nodes: &[Node]) -> bool
    ensures { IsTrue result → IsAbsent key.now (keys_from source.now 0 nodes.now) }
{
    let mut rest = nodes;
    while !rest.is_empty() {
        let Some((other, later)) = first_key(source, rest) else {
            return false;
        };
        if key == other {
            return false;
        }
        rest = later;
    }
    true
}

/// Whether the keys differ, by comparing each two.
#[inline]
fn each_two(source: &[u8], nodes: &[Node]) -> bool
    ensures { IsTrue result → AreApart source.now nodes.now }
{
    let mut rest = nodes;
    while rest.len() > 1 {
        let Some((key, later)) = first_key(source, rest) else {
            return false;
        };
        if !is_absent(source, key, later) {
            return false;
        }
        rest = later;
    }
    true
}

/// A number that depends on the bytes alone.
#[inline]
fn hash(key: &[u8]) -> u64
    ensures { result ≡ hash_of 7 key.now }
{
    let mut value = 7u64;
    for byte in key {
        value = value.wrapping_mul(31).wrapping_add(u64::from(*byte));
    }
    value
}

/// The tag of a key, which is in a table in place of the key. Keys with different tags differ.
#[inline]
pub(crate) fn tag(key: &[u8]) -> u32
    ensures { result ≡ tag_of key.now }
{
    (hash(key).wrapping_mul(0x9e37_79b9_7f4a_7c15) >> 32) as u32
}

/// The number of slots that are searched for a tag.
pub(crate) const PROBES: usize = 64;

/// Puts a tag into the table; `false` if the table has it already, if none of its slots is empty,
/// or if the tag is 0, which marks an empty slot. The length of the table is a power of two.
#[inline]
pub(crate) fn enter(table: &mut [u32], tag: u32) -> bool
    ensures same { length table.new ≡ length table.old }
    ensures kept { (t : ℕ) → Holds table.old t → Holds table.new t }
    ensures entered { IsTrue result → Enters table.old table.new tag }
{
    if tag == 0 || table.is_empty() {
        return false;
    }
    let mask = table.len() - 1;
    for step in 0..PROBES {
        let slot = ((tag >> 16) as usize + step) & mask;
        if slot >= table.len() {
            return false;
        }
        let there = table[slot];
        if there == tag {
            return false;
        }
        if there == 0 {
            table[slot] = tag;
            return true;
        }
    }
    false
}

/// Enters each key.
fn all_enter(table: &mut [u32], source: &[u8], nodes: &[Node]) -> bool
    ensures { IsTrue result → AreApart source.now nodes.now }
{
    let mut rest = nodes;
    while !rest.is_empty() {
        let Some((key, later)) = first_key(source, rest) else {
            return false;
        };
        if !enter(table, tag(key)) {
            return false;
        }
        rest = later;
    }
    true
}

/// Whether the keys differ, by a table with so many slots.
#[inline(never)]
fn by_table_of<const SLOTS: usize>(source: &[u8], nodes: &[Node]) -> bool
    requires { SLOTS ≤ 16384 }
    ensures { IsTrue result → AreApart source.now nodes.now }
{
    let mut table = [0u32; SLOTS];
    all_enter(&mut table, source, nodes)
}

/// Whether the keys differ, by a table. It is not inlined, nor is the function for each size: a
/// function reserves stack for all its tables on entry.
#[inline(never)]
fn by_table(source: &[u8], nodes: &[Node]) -> bool
    ensures { IsTrue result → AreApart source.now nodes.now }
{
    let count = nodes.len();
    if count <= 96 {
        return by_table_of::<256>(source, nodes);
    }
    if count <= 384 {
        return by_table_of::<1024>(source, nodes);
    }
    if count <= 3072 {
        return by_table_of::<4096>(source, nodes);
    }
    by_table_of::<16_384>(source, nodes)
}

/// Whether the keys of the parts differ; `false` also if there are too many, or two have the same
/// tag.
#[inline(never)]
fn are_distinct(source: &[u8], nodes: &[Node]) -> bool
    ensures { IsTrue result → AreApart source.now nodes.now }
{
    if nodes.len() <= 8 {
        return each_two(source, nodes);
    }
    by_table(source, nodes)
}
