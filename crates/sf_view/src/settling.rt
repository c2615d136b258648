//! Nodes of a Dictionary in which a key is repeated: the last value is at the place of the first
//! one (RFC 9651 section 4.2.2).
ghost use Rattle.std.specs.Prelude.{◌≡◌, ◌≤◌, ◌<◌, ◌*◌, ◌^◌, ℕ, List as Seq, IfOk, IfSome, length};
ghost use Rattle.std.specs.Prelude.{take};
ghost use Rattle.sf_value.specs.declared.dialect.Dialect.{Dialect as Which};
ghost use Rattle.sf_value.specs.declared.value.Member.{Member};
ghost use Rattle.sf_value.specs.Grammar.Pairs.{Pairs, settle as settled_pairs};
ghost use Rattle.sf_view.specs.Scans.{Puts};
ghost use Rattle.sf_view.specs.View.{DescribesEntries};
ghost use Rattle.sf_view.specs.Keys.{tag_of};
ghost use Rattle.sf_view.specs.Settling.{key_from, run_from, runs_of, RunsDescribe};
ghost use Rattle.sf_view.specs.Settling.{IsPlace, HoldsPlace, HoldsPlaces, IsIndex, Settles};

use crate::item::put;
use crate::keys::{bytes_at, tag};
use crate::lookup::hop;
use crate::node::Node;
use std::alloc::Global;

/// If there are at most this many members, each two keys are compared.
const PAIRWISE: usize = 8;

/// The number of slots that are searched for a key.
const PROBES: usize = 64;

/// This many slots may be searched for each node and each 16 bytes of the text, on average: twice
/// what keys of different hashes need. `PROBES * PROBES` more may be searched, enough for as many
/// short keys of one hash as a table takes. If that is not enough, the text is declined, so keys
/// that someone chose for their hash cost little here.
const SEARCHES: usize = 4;

/// The largest number of nodes that are settled on the stack.
pub(crate) const STACK_NODES: usize = 32;

/// The number of slots of the table for these nodes.
const STACK_SLOTS: usize = 64;

/// The key of the part that starts at this node; `None` if it isn't in the source.
#[inline]
fn key_of_part<'a>(source: &'a [u8], nodes: &[Node], start: u32) -> Option<&'a [u8]>
    ensures { IfSome result (λ k. k.now ≡ key_from source.now nodes.now start) }
{
    let start = start as usize;
    if start >= nodes.len() {
        return None;
    }
    let node = nodes[start];
    bytes_at(source, node.key_at as usize, node.key_length as usize)
}

/// The nodes of the part that starts at this node; `None` if there are fewer.
#[inline]
fn part_from(nodes: &[Node], start: u32) -> Option<&[Node]>
    ensures { IfSome result (λ run. run.now ≡ run_from nodes.now start) }
{
    let start = start as usize;
    if start >= nodes.len() {
        return None;
    }
    let size = nodes[start].size as usize;
    let (_, from) = nodes.split_at(start);
    if size > from.len() {
        return None;
    }
    let (run, _) = from.split_at(size);
    Some(run)
}

/// The place of the key among those of these parts, by comparing it with each.
#[inline]
fn place_among(source: &[u8], nodes: &[Node], order: &[u32], key: &[u8]) -> Option<usize>
    ensures { IfSome result (λ p. IsPlace source.now nodes.now order.now key.now p) }
{
    let mut place = 0;
    while place < order.len() {
        let other = key_of_part(source, nodes, order[place])?;
        if key == other {
            return Some(place);
        }
        place += 1;
    }
    Some(place)
}

/// What a search of one slot costs: one, and one for each 16 bytes of the key, which may have to be
/// compared.
fn search_cost(key: &[u8]) -> usize
    ensures { length key.now ≤ result * 16 }
{
    (key.len() / 16).saturating_add(1)
}

/// As [`place_among`], by a table of places, into which the place of a new key is put; `None` also
/// if none of the key's slots has it or is empty, or if it would search more than is allowed. A
/// slot has a place and one more; 0 is an empty slot. The length of the table is a power of two.
#[inline]
fn place_by_table(
    source: &[u8],
    nodes: &[Node],
    order: &[u32],
    table: &mut [u32],
    searches: &mut usize,
    key: &[u8],
) -> Option<usize>
    ensures same { length table.new ≡ length table.old }
    ensures kept { (t p : ℕ) → HoldsPlace table.old t p → HoldsPlace table.new t p }
    ensures entered { IfSome result (λ p. p ≡ length order.now → 1 ≤ length table.old
        → HoldsPlace table.new (tag_of key.now) p) }
    ensures place { HoldsPlaces source.now nodes.now table.old order.now
        → IfSome result (λ p. IsPlace source.now nodes.now order.now key.now p) }
{
    if table.is_empty() || order.len() >= 0xffff_ffff {
        return None;
    }
    let own = tag(key);
    let mask = table.len() - 1;
    let cost = search_cost(key);
    for step in 0..PROBES {
        let slot = ((own >> 4) as usize + step) & mask;
        if slot >= table.len() || *searches < cost {
            return None;
        }
        *searches -= cost;
        let there = table[slot];
        if there == 0 {
            table[slot] = (order.len() + 1) as u32;
            return Some(order.len());
        }
        let place = (there - 1) as usize;
        if place >= order.len() {
            return None;
        }
        if key == key_of_part(source, nodes, order[place])? {
            return Some(place);
        }
    }
    None
}

/// The place of the key among those of these parts, by the table if it has slots.
#[inline]
fn place_of(
    source: &[u8],
    nodes: &[Node],
    order: &[u32],
    table: &mut [u32],
    searches: &mut usize,
    key: &[u8],
) -> Option<usize>
    ensures same { length table.new ≡ length table.old }
    ensures kept { (t p : ℕ) → HoldsPlace table.old t p → HoldsPlace table.new t p }
    ensures entered { IfSome result (λ p. p ≡ length order.now → 1 ≤ length table.old
        → HoldsPlace table.new (tag_of key.now) p) }
    ensures place { IsIndex source.now nodes.now table.old order.now
        → IfSome result (λ p. IsPlace source.now nodes.now order.now key.now p) }
{
    if table.is_empty() {
        return place_among(source, nodes, order, key);
    }
    place_by_table(source, nodes, order, table, searches, key)
}

/// How many slots may be searched for the nodes of a text of this length.
fn searches_for(nodes: &[Node], length: usize) -> usize {
    nodes
        .len()
        .saturating_add(length / 16)
        .saturating_mul(SEARCHES)
        .saturating_add(PROBES * PROBES)
}

/// Puts into `order` where each member that stays starts, in the order in which their keys first
/// occur, and returns the number of these members; `None` also if it would search more than is
/// allowed.
fn put_order(
    source: &[u8],
    nodes: &[Node],
    order: &mut [u32],
    table: &mut [u32],
    most_searches: usize,
) -> Option<usize>
    ensures same { length order.new ≡ length order.old }
    ensures within { IfSome result (λ n. n ≤ length order.new) }
    ensures settled { (d : Which) (ps : Pairs Member)
        → DescribesEntries d source.now nodes.now ps
        → IfSome result (λ n. RunsDescribe d source.now nodes.now (take n order.new)
        (settled_pairs ps)) }
{
    let mut rest = nodes;
    let mut count = 0;
    let mut searches = most_searches;
    loop {
        let Some((key, _, later)) = hop(source, rest) else {
            return Some(count);
        };
        let start = nodes.len() - rest.len();
        let place = place_of(source, nodes, &order[..count], table, &mut searches, key)?;
        if start > 0xffff_ffff || place >= order.len() {
            return None;
        }
        order[place] = start as u32;
        count = count.max(place + 1);
        rest = later;
    }
}

/// Puts the nodes of a part after those that are there.
#[inline]
fn put_run(run: &[Node], nodes: &mut [Node], at: usize) -> Option<usize>
    requires there { at ≤ length nodes.old }
    ensures same { length nodes.new ≡ length nodes.old }
    ensures puts { IfSome result (λ n. Puts nodes.old nodes.new at n run.now) }
{
    let mut count = at;
    for node in run {
        count = put(nodes, count, *node)?;
    }
    Some(count)
}

/// Puts the nodes of the parts that start at these nodes, in this order.
fn put_runs(raw: &[Node], order: &[u32], nodes: &mut [Node]) -> Option<usize>
    ensures same { length nodes.new ≡ length nodes.old }
    ensures puts { IfSome result (λ n. Puts nodes.old nodes.new 0 n (runs_of raw.now order.now)) }
{
    let mut count = 0;
    for start in order {
        let run = part_from(raw, *start)?;
        count = put_run(run, nodes, count)?;
    }
    Some(count)
}

/// As [`put_runs`], for members, which the nodes then describe.
fn put_members(raw: &[Node], order: &[u32], nodes: &mut [Node]) -> Option<usize>
    ensures same { length nodes.new ≡ length nodes.old }
    ensures within { IfSome result (λ n. n ≤ length nodes.new) }
    ensures described { (d : Which) (source : Seq ℕ) (ps : Pairs Member)
        → RunsDescribe d source raw.now order.now ps
        → IfSome result (λ n. DescribesEntries d source (take n nodes.new) ps) }
{
    let count = put_runs(raw, order, nodes)?;
    Some(count)
}

/// Puts the nodes of the members that stay if a later value of a key overwrites an earlier one, and
/// takes its place; `None` also if there are too many, or the table has too few slots.
fn settle(
    source: &[u8],
    raw: &[Node],
    order: &mut [u32],
    table: &mut [u32],
    nodes: &mut [Node],
) -> Option<usize>
    ensures same { length nodes.new ≡ length nodes.old }
    ensures within { IfSome result (λ n. n ≤ length nodes.new) }
    ensures settled { Settles source.now raw.now nodes.new result }
{
    let searches = searches_for(raw, source.len());
    let members = put_order(source, raw, order, table, searches)?;
    let count = put_members(raw, &order[..members], nodes)?;
    Some(count)
}

/// Settles up to 32 nodes on the stack.
#[inline(never)]
pub(crate) fn settle_few(source: &[u8], raw: &[Node], nodes: &mut [Node]) -> Option<usize>
    ensures same { length nodes.new ≡ length nodes.old }
    ensures within { IfSome result (λ n. n ≤ length nodes.new) }
    ensures settled { Settles source.now raw.now nodes.new result }
{
    if raw.len() <= PAIRWISE {
        let mut order = [0u32; PAIRWISE];
        return settle(source, raw, &mut order, &mut [], nodes);
    }
    settle_more(source, raw, nodes)
}

/// As [`settle_few`], for more nodes than `PAIRWISE`. It is not inlined: a function reserves stack
/// for all its tables on entry.
#[inline(never)]
fn settle_more(source: &[u8], raw: &[Node], nodes: &mut [Node]) -> Option<usize>
    ensures same { length nodes.new ≡ length nodes.old }
    ensures within { IfSome result (λ n. n ≤ length nodes.new) }
    ensures settled { Settles source.now raw.now nodes.new result }
{
    let mut order = [0u32; STACK_NODES];
    let mut table = [0u32; STACK_SLOTS];
    settle(source, raw, &mut order, &mut table, nodes)
}

/// The number of parts.
fn parts(nodes: &[Node]) -> usize {
    let mut count = 0usize;
    let mut at = 0;
    while at < nodes.len() {
        let size = nodes[at].size as usize;
        if size == 0 || size > nodes.len() - at {
            return nodes.len();
        }
        at += size;
        count = count.wrapping_add(1);
    }
    count
}

/// The number of slots for this many keys: none if each two keys are compared.
fn slots(members: usize) -> usize
    ensures { 8 < members → members < 2 ^ 61 → 2 * members ≤ result }
{
    if members <= PAIRWISE {
        return 0;
    }
    members.saturating_mul(2).min(1 << 62).next_power_of_two()
}

/// The settled nodes of members that take `read` bytes of the text, in new memory; `None` also if
/// an allocation fails or, with `only_half`, if more than half of the members stay.
#[inline(never)]
pub(crate) fn settled_nodes(
    alloc: Global,
    source: &[u8],
    read: usize,
    raw: &[Node],
    only_half: bool,
) -> Option<Vec<Node>>
    ensures { (d : Which) (ps : Pairs Member)
        → DescribesEntries d source.now raw.now ps
        → IfSome result (λ nodes. DescribesEntries d source.now nodes.items (settled_pairs ps)) }
{
    let members = parts(raw);
    let most = if only_half { members / 2 } else { members };
    // The order and the table, in one allocation.
    let mut index = vec![in alloc; 0u32; most.saturating_add(slots(most))].ok()?;
    if most > index.len() {
        return None;
    }
    let (order, table) = index.as_mut_slice().split_at_mut(most);
    let stay = put_order(source, raw, order, table, searches_for(raw, read))?;
    let mut nodes = Vec::from_slice(alloc, raw).ok()?;
    let count = put_members(raw, &order[..stay], nodes.as_mut_slice())?;
    nodes.truncate(count);
    Some(nodes)
}

/// Settles the first `count` nodes of a buffer in it.
#[inline(never)]
pub(crate) fn settle_into(
    alloc: Global,
    source: &[u8],
    nodes: &mut [Node],
    count: usize,
) -> Option<usize>
    requires there { count ≤ length nodes.old }
    ensures same { length nodes.new ≡ length nodes.old }
    ensures within { IfSome result (λ n. n ≤ length nodes.new) }
    ensures settled { Settles source.now (take count nodes.old) nodes.new result }
{
    if count <= STACK_NODES {
        return settle_copies(source, nodes, count);
    }
    let (raw, _) = nodes.split_at(count);
    let settled = settled_nodes(alloc, source, source.len(), raw, false)?;
    let stay = put_run(settled.as_slice(), nodes, 0)?;
    Some(stay)
}

/// The same of up to 32 nodes, copied to the stack.
#[inline(never)]
fn settle_copies(source: &[u8], nodes: &mut [Node], count: usize) -> Option<usize>
    requires there { count ≤ length nodes.old }
    ensures same { length nodes.new ≡ length nodes.old }
    ensures within { IfSome result (λ n. n ≤ length nodes.new) }
    ensures settled { Settles source.now (take count nodes.old) nodes.new result }
{
    let mut few = [Node::NONE; STACK_NODES];
    let copied = put_run(&nodes[..count], &mut few, 0)?;
    settle_few(source, &few[..copied], nodes)
}
