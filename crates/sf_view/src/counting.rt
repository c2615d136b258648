//! How many nodes and bytes the value of a text has, counted as the text is read, without nodes.
ghost use Rattle.std.specs.Prelude.{◌≡◌, ◌+◌, ◌++◌, ◌∷◌, ◌≤◌, [], ℕ, IfOk, IfSome, length};
ghost use Rattle.std.specs.Map.{keys_of};
ghost use Rattle.sf_value.specs.declared.dialect.Dialect.{Dialect as Which};
ghost use Rattle.sf_value.specs.declared.value.Bare.{Bare};
ghost use Rattle.sf_value.specs.declared.value.Kind.TheVariants as kind_is;
ghost use Rattle.sf_value.specs.Grammar.Pairs.{Pairs, settle};
ghost use Rattle.sf_value.specs.Grammar.Tokens.{IsKey};
ghost use Rattle.sf_view.specs.Counting.{CountsEntry, CountsInner, CountsItem, CountsItems};
ghost use Rattle.sf_view.specs.Counting.{CountsMember, CountsParams, HasCounts, IsSum};
ghost use Rattle.sf_view.specs.Keys.{AreInTable};
ghost use Rattle.sf_view.specs.Marks.{mark_of, AreMarked};
ghost use Rattle.sf_view.specs.View.{text_of};
ghost use Rattle.sf_view.specs.Views.{IsBorrowed};

use crate::cursor::{first_start, next_start};
use crate::keys::{Marks, PROBES, enter, tag};
use crate::text_parts::{read_bare, read_param};
use crate::view::BareView;
use sf_scan::param::find_key;
use sf_value::classes::{after_spaces, ends, strip_byte};
use sf_value::{Dialect, Entries, Kind};
use std::alloc::Global;
use std::hash::RandomState;

/// The numbers of nodes and bytes of a value: a node for each bare item and each Inner List, and the
/// bytes of each key, String, Token, Byte Sequence and Display String.
#[derive(Clone, Copy, Debug, Drop)]
pub struct Counts {
    /// The number of nodes.
    pub nodes: usize,
    /// The number of bytes.
    pub bytes: usize,
}

/// Why a text is not counted.
#[derive(Clone, Copy, Debug, PartialEq, Eq)]
pub enum Uncounted {
    /// It is malformed, or a count would overflow.
    Declined,
    /// A key is repeated or, rarely, there are many keys: to count them takes memory. From
    /// [`count_settled`]: an allocation failed.
    Repeated,
}

/// The numbers of a part of a text, and the rest of the text.
type Counted<'a> = Result<(Counts, &'a [u8]), Uncounted>;

/// Where keys are kept of which one is repeated.
#[derive(Clone, Copy, Drop)]
struct Memory<'s> {
    alloc: Global,
    seed: &'s RandomState,
}

/// The number of slots of a table for few keys.
const FEW: usize = 256;

/// The number of slots of the largest table, for up to about twelve thousand keys.
const MANY: usize = 16_384;

impl Counts {
    /// Those of nothing.
    const NONE: Counts = Counts { nodes: 0, bytes: 0 };

    /// So many more.
    #[inline(always)]
    fn more(self, nodes: usize, bytes: usize) -> Result<Counts, Uncounted>
        ensures nodes { IfOk result (λ c. c.nodes ≡ self.nodes + nodes) }
        ensures bytes { IfOk result (λ c. c.bytes ≡ self.bytes + bytes) }
    {
        let (Some(nodes), Some(bytes)) = (
            self.nodes.checked_add(nodes),
            self.bytes.checked_add(bytes),
        ) else {
            return Err(Uncounted::Declined);
        };
        Ok(Counts { nodes, bytes })
    }
}

/// Adds up what is counted at keys. A value replaces what was counted before it at its key, or it
/// is not taken: that depends on how the keys are told apart.
trait Tally {
    ghost use Rattle.sf_view.specs.declared.counting.Counts.{Counts};

    // These pairs were added, in this order.
    ghost has: { Self → Pairs Counts → Type 0 };

    /// Adds a key, and what is counted of its value.
    fn add(&mut self, key: &[u8], value: Counts) -> Result<(), Uncounted>
        requires { IsKey key.now }
        ensures { IfOk result (λ _. (ps : Pairs Counts) → has self.old ps
            → has self.new (ps ++ (key.now, value) ∷ [])) };

    /// The sum, with the bytes of the keys.
    fn total(&self) -> Result<Counts, Uncounted>
        ensures { IfOk result (λ c. (ps : Pairs Counts) → has self.now ps → IsSum c (settle ps)) };
}

/// Takes keys with different marks.
#[derive(Drop)]
struct ByMarks {
    counts: Counts,
    marks: Marks,
}

impl Tally for ByMarks {
    ghost has = { λ t ps. IsSum t.counts ps × AreMarked t.marks (keys_of ps) };

    #[inline(always)]
    fn add(&mut self, key: &[u8], value: Counts) -> Result<(), Uncounted> {
        self.marks = self.marks.with(mark(key));
        if self.marks.bits == u64::MAX {
            return Err(Uncounted::Repeated);
        }
        self.counts = with_entry(self.counts, key, value)?;
        Ok(())
    }

    #[inline(always)]
    fn total(&self) -> Result<Counts, Uncounted> {
        Ok(self.counts)
    }
}

/// Takes keys with different tags, which it keeps in a table.
#[derive(Drop)]
struct ByTable<'t> {
    counts: Counts,
    table: &'t mut [u32],
}

impl Tally for ByTable<'_> {
    ghost has = { λ t ps. IsSum t.counts ps × AreInTable t.table.now (keys_of ps) };

    #[inline(always)]
    fn add(&mut self, key: &[u8], value: Counts) -> Result<(), Uncounted> {
        if !enter(self.table, tag(key)) {
            return Err(Uncounted::Repeated);
        }
        self.counts = with_entry(self.counts, key, value)?;
        Ok(())
    }

    #[inline(always)]
    fn total(&self) -> Result<Counts, Uncounted> {
        Ok(self.counts)
    }
}

/// Takes all keys: a map has the last value of each.
#[derive(Drop)]
struct ByMap {
    alloc: Global,
    kept: Entries<Counts>,
}

impl Tally for ByMap {
    ghost has = { λ t ps. t.kept ≡ settle ps };

    #[inline(always)]
    fn add(&mut self, key: &[u8], value: Counts) -> Result<(), Uncounted> {
        let Ok(_) = self.kept.set_named(self.alloc, key, value) else {
            return Err(Uncounted::Repeated);
        };
        Ok(())
    }

    #[inline(always)]
    fn total(&self) -> Result<Counts, Uncounted> {
        sum(&self.kept)
    }
}

/// Returns how many nodes and bytes the value of a text has, without nodes and without an
/// allocation. An error claims nothing; if a key is repeated, [`count_settled`] counts.
///
/// ```
/// count_text(Dialect::Rfc9651, Kind::List, b"a;bc=1, d") // Ok: 3 nodes, 4 bytes
/// ```
pub fn count_text(dialect: Dialect, kind: Kind, text: &[u8]) -> Result<Counts, Uncounted>
    // The text spells a value, and no other, that has so many.
    ensures { IfOk result (HasCounts dialect kind text.now) }
{
    count(None, dialect, kind, text)
}

/// Returns the same, also if a key is repeated. It allocates the keys of a Dictionary or of an Item
/// in which one is repeated or, rarely, there are many, and frees them. An error claims nothing.
///
/// ```
/// count_settled(alloc, &seed, Dialect::Rfc9651, Kind::Dict, b"u=1, i, u=2") // Ok: 2 nodes, 2 bytes
/// ```
pub fn count_settled(
    alloc: Global,
    seed: &RandomState,
    dialect: Dialect,
    kind: Kind,
    text: &[u8],
) -> Result<Counts, Uncounted>
    // The text spells a value, and no other, that has so many.
    ensures { IfOk result (HasCounts dialect kind text.now) }
{
    count(Some(Memory { alloc, seed }), dialect, kind, text)
}

/// The same, with memory or without.
fn count(
    memory: Option<Memory>,
    dialect: Dialect,
    kind: Kind,
    text: &[u8],
) -> Result<Counts, Uncounted>
    ensures { IfOk result (HasCounts dialect kind text.now) }
{
    match kind {
        Kind::Item => return count_item_field(memory, dialect, text),
        Kind::List => return count_list(memory, dialect, text),
        Kind::Dict => return count_dict(memory, dialect, text),
    }
}

/// The number of bytes of a String, a Token, a Byte Sequence or a Display String.
#[inline(always)]
fn text_len(bare: BareView) -> usize
    ensures { (d : Which) (x : Bare) → IsBorrowed d bare.entry x → result ≡ length (text_of x) }
{
    match bare {
        BareView::Text(slice) => return slice.decoded_len(),
        BareView::Token(bytes) => return bytes.len(),
        BareView::Blob(slice) => return slice.decoded_len(),
        BareView::Shown(slice) => return slice.decoded_len(),
        BareView::Integer(_) => return 0,
        BareView::Decimal(_) => return 0,
        BareView::Boolean(_) => return 0,
        BareView::Date(_) => return 0,
    }
}

/// The mark of a key: keys with different marks differ.
#[inline(always)]
fn mark(key: &[u8]) -> u32
    ensures { result ≡ mark_of key.now }
{
    match key {
        [first, ..] => {
            9 * (u32::from(*first) + (key.len() % 64) as u32) + u32::from(key[key.len() - 1])
        }
        [] => 0,
    }
}

/// Parameters. Only a text that begins with one costs a call.
#[inline(always)]
fn count_params<'a>(memory: Option<Memory>, dialect: Dialect, text: &'a [u8]) -> Counted<'a>
    ensures { IfOk result (λ r. CountsParams dialect text.now r.1.now r.0.nodes r.0.bytes) }
{
    if strip_byte(text, b';').is_none() {
        return Ok((Counts::NONE, text));
    }
    count_each_param(memory, dialect, text)
}

/// As [`count_params`].
#[inline(never)]
#[tactic(auto, using(crate::proofs::KeyMarks::no_keys))]
fn count_each_param<'a>(memory: Option<Memory>, dialect: Dialect, text: &'a [u8]) -> Counted<'a>
    ensures { IfOk result (λ r. CountsParams dialect text.now r.1.now r.0.nodes r.0.bytes) }
{
    let mut tally = ByMarks {
        counts: Counts::NONE,
        marks: Marks::NONE,
    };
    match params_in(&mut tally, dialect, text) {
        Err(Uncounted::Repeated) => return more_params(memory, dialect, text),
        counted => return counted,
    }
}

/// The same of parameters of which two have the same mark.
#[inline(never)]
fn more_params<'a>(memory: Option<Memory>, dialect: Dialect, text: &'a [u8]) -> Counted<'a>
    ensures { IfOk result (λ r. CountsParams dialect text.now r.1.now r.0.nodes r.0.bytes) }
{
    let mut crowded = false;
    match params_by_table::<FEW>(dialect, text, &mut crowded) {
        Err(Uncounted::Repeated) => {}
        counted => return counted,
    }
    if crowded {
        match params_by_table::<MANY>(dialect, text, &mut crowded) {
            Err(Uncounted::Repeated) => {}
            counted => return counted,
        }
    }
    let Some(Memory { alloc, seed }) = memory else {
        return Err(Uncounted::Repeated);
    };
    let kept = Entries::new(alloc, seed);
    params_in(&mut ByMap { alloc, kept }, dialect, text)
}

/// Parameters, added to an empty tally.
#[inline(always)]
fn params_in<'a, T: Tally>(tally: &mut T, dialect: Dialect, text: &'a [u8]) -> Counted<'a>
    requires { T.has tally.old [] }
    ensures { IfOk result (λ r. CountsParams dialect text.now r.1.now r.0.nodes r.0.bytes) }
{
    let mut rest = text;
    while let Some(more) = strip_byte(rest, b';') {
        let Some((key, bare, left)) = read_param(dialect, more) else {
            return Err(Uncounted::Declined);
        };
        tally.add(key, of_bare(bare))?;
        rest = left;
    }
    Ok((tally.total()?, rest))
}

/// Parameters of which a table of so many slots has the keys; the flag is set if it has so many
/// that one may have found no slot. It is not inlined, nor are the other functions with a table: a
/// function reserves stack for it on entry.
#[inline(never)]
#[tactic(auto, using(crate::proofs::KeyMarks::no_keys))]
fn params_by_table<'a, const SLOTS: usize>(
    dialect: Dialect,
    text: &'a [u8],
    crowded: &mut bool,
) -> Counted<'a>
    requires { SLOTS ≤ 16384 }
    ensures { IfOk result (λ r. CountsParams dialect text.now r.1.now r.0.nodes r.0.bytes) }
{
    let mut table = [0u32; SLOTS];
    let mut tally = ByTable {
        counts: Counts::NONE,
        table: &mut table,
    };
    let counted = params_in(&mut tally, dialect, text);
    *crowded = tally.counts.nodes >= PROBES;
    counted
}

/// The numbers of a bare item.
#[inline(always)]
fn of_bare(bare: BareView) -> Counts
    ensures nodes { result.nodes ≡ 1 }
    ensures bytes { (d : Which) (x : Bare) → IsBorrowed d bare.entry x
        → result.bytes ≡ length (text_of x) }
{
    Counts {
        nodes: 1,
        bytes: text_len(bare),
    }
}

/// The numbers with those of a key and its value.
#[inline(always)]
fn with_entry(counts: Counts, key: &[u8], value: Counts) -> Result<Counts, Uncounted>
    ensures nodes { IfOk result (λ c. c.nodes ≡ counts.nodes + value.nodes) }
    ensures bytes { IfOk result (λ c. c.bytes ≡ counts.bytes + (length key.now + value.bytes)) }
{
    let Some(bytes) = key.len().checked_add(value.bytes) else {
        return Err(Uncounted::Declined);
    };
    counts.more(value.nodes, bytes)
}

/// The sum of what is kept at keys, and of their bytes.
fn sum(kept: &Entries<Counts>) -> Result<Counts, Uncounted>
    ensures { IfOk result (λ c. IsSum c kept.now) }
{
    let mut counts = Counts::NONE;
    for (key, value) in kept {
        counts = with_entry(counts, key, *value)?;
    }
    Ok(counts)
}

/// An Item.
#[inline(always)]
fn count_item<'a>(memory: Option<Memory>, dialect: Dialect, text: &'a [u8]) -> Counted<'a>
    ensures { IfOk result (λ r. CountsItem dialect text.now r.1.now r.0.nodes r.0.bytes) }
{
    let Some((bare, after)) = read_bare(dialect, text) else {
        return Err(Uncounted::Declined);
    };
    let (params, rest) = count_params(memory, dialect, after)?;
    let own = of_bare(bare);
    let counts = params.more(own.nodes, own.bytes)?;
    Ok((counts, rest))
}

/// The Items of an Inner List, and its closing bracket.
fn count_items<'a>(memory: Option<Memory>, dialect: Dialect, text: &'a [u8]) -> Counted<'a>
    ensures { IfOk result (λ r. CountsItems dialect 0 text.now r.1.now r.0.nodes r.0.bytes) }
{
    let mut rest = after_spaces(text);
    let mut counts = Counts::NONE;
    loop {
        if let Some(left) = strip_byte(rest, b')') {
            return Ok((counts, left));
        }
        let (item, after) = count_item(memory, dialect, rest)?;
        counts = counts.more(item.nodes, item.bytes)?;
        let Some(more) = strip_byte(after, b' ') else {
            let Some(left) = strip_byte(after, b')') else {
                return Err(Uncounted::Declined);
            };
            return Ok((counts, left));
        };
        rest = after_spaces(more);
    }
}

/// An Inner List.
fn count_inner<'a>(memory: Option<Memory>, dialect: Dialect, text: &'a [u8]) -> Counted<'a>
    ensures { IfOk result (λ r. CountsInner dialect text.now r.1.now r.0.nodes r.0.bytes) }
{
    let Some(inside) = strip_byte(text, b'(') else {
        return Err(Uncounted::Declined);
    };
    let (items, after) = count_items(memory, dialect, inside)?;
    let (params, rest) = count_params(memory, dialect, after)?;
    let all = items.more(params.nodes, params.bytes)?;
    let counts = all.more(1, 0)?;
    Ok((counts, rest))
}

/// A member of a List, or of a Dictionary after its key and =.
#[inline(always)]
fn count_member<'a>(memory: Option<Memory>, dialect: Dialect, text: &'a [u8]) -> Counted<'a>
    ensures { IfOk result (λ r. CountsMember dialect text.now r.1.now r.0.nodes r.0.bytes) }
{
    if strip_byte(text, b'(').is_some() {
        let (counts, rest) = count_inner(memory, dialect, text)?;
        return Ok((counts, rest));
    }
    let (counts, rest) = count_item(memory, dialect, text)?;
    Ok((counts, rest))
}

/// A member of a Dictionary: its key, the numbers of its value, and the rest.
#[inline(always)]
fn count_entry<'a>(
    memory: Option<Memory>,
    dialect: Dialect,
    text: &'a [u8],
) -> Result<(&'a [u8], Counts, &'a [u8]), Uncounted>
    ensures { IfOk result
        (λ r. CountsEntry dialect text.now r.0.now r.2.now r.1.nodes r.1.bytes) }
{
    let Some((key, after)) = find_key(text) else {
        return Err(Uncounted::Declined);
    };
    if let Some(value) = strip_byte(after, b'=') {
        let (member, rest) = count_member(memory, dialect, value)?;
        return Ok((key, member, rest));
    }
    let (params, rest) = count_params(memory, dialect, after)?;
    let counts = params.more(1, 0)?;
    Ok((key, counts, rest))
}

/// An Item and the spaces around it.
fn count_item_field(
    memory: Option<Memory>,
    dialect: Dialect,
    text: &[u8],
) -> Result<Counts, Uncounted>
    ensures { IfOk result (HasCounts dialect kind_is.Item text.now) }
{
    let (counts, rest) = count_item(memory, dialect, after_spaces(text))?;
    if !ends(after_spaces(rest)) {
        return Err(Uncounted::Declined);
    }
    Ok(counts)
}

/// A List.
fn count_list(memory: Option<Memory>, dialect: Dialect, text: &[u8]) -> Result<Counts, Uncounted>
    ensures { IfOk result (HasCounts dialect kind_is.List text.now) }
{
    let mut start = first_start(text);
    let mut counts = Counts::NONE;
    while let Some(rest) = start {
        let (member, after) = count_member(memory, dialect, rest)?;
        counts = counts.more(member.nodes, member.bytes)?;
        let Some(next) = next_start(after) else {
            return Err(Uncounted::Declined);
        };
        start = next;
    }
    Ok(counts)
}

/// A Dictionary.
#[tactic(auto, using(crate::proofs::KeyMarks::no_keys))]
fn count_dict(memory: Option<Memory>, dialect: Dialect, text: &[u8]) -> Result<Counts, Uncounted>
    ensures { IfOk result (HasCounts dialect kind_is.Dict text.now) }
{
    let mut tally = ByMarks {
        counts: Counts::NONE,
        marks: Marks::NONE,
    };
    match members_in(&mut tally, memory, dialect, text) {
        Err(Uncounted::Repeated) => return more_members(memory, dialect, text),
        counted => return counted,
    }
}

/// The same of a Dictionary of which two keys have the same mark.
#[inline(never)]
fn more_members(memory: Option<Memory>, dialect: Dialect, text: &[u8]) -> Result<Counts, Uncounted>
    ensures { IfOk result (HasCounts dialect kind_is.Dict text.now) }
{
    // A member takes at least two bytes, so at most half of the slots of a small table are used.
    let counted = if text.len() <= FEW {
        members_by_table::<FEW>(memory, dialect, text)
    } else {
        members_by_table::<MANY>(memory, dialect, text)
    };
    match counted {
        Err(Uncounted::Repeated) => {}
        counted => return counted,
    }
    let Some(Memory { alloc, seed }) = memory else {
        return Err(Uncounted::Repeated);
    };
    let kept = Entries::new(alloc, seed);
    members_in(&mut ByMap { alloc, kept }, memory, dialect, text)
}

/// The members of a Dictionary, added to an empty tally.
#[inline(always)]
fn members_in<T: Tally>(
    tally: &mut T,
    memory: Option<Memory>,
    dialect: Dialect,
    text: &[u8],
) -> Result<Counts, Uncounted>
    requires { T.has tally.old [] }
    ensures { IfOk result (HasCounts dialect kind_is.Dict text.now) }
{
    let mut start = first_start(text);
    while let Some(rest) = start {
        let (key, member, after) = count_entry(memory, dialect, rest)?;
        tally.add(key, member)?;
        let Some(next) = next_start(after) else {
            return Err(Uncounted::Declined);
        };
        start = next;
    }
    tally.total()
}

/// A Dictionary of which a table of so many slots has the keys.
#[inline(never)]
#[tactic(auto, using(crate::proofs::KeyMarks::no_keys))]
fn members_by_table<const SLOTS: usize>(
    memory: Option<Memory>,
    dialect: Dialect,
    text: &[u8],
) -> Result<Counts, Uncounted>
    requires { SLOTS ≤ 16384 }
    ensures { IfOk result (HasCounts dialect kind_is.Dict text.now) }
{
    let mut table = [0u32; SLOTS];
    let mut tally = ByTable {
        counts: Counts::NONE,
        table: &mut table,
    };
    members_in(&mut tally, memory, dialect, text)
}
