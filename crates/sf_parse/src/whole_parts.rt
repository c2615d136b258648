//! Parts of a field that are whole in a text, read without a state between two bytes, and built
//! where they are stored. A function that returns None says nothing about the text, which is then
//! refused, or read by the levels.
ghost use Rattle.std.specs.Prelude.{◌≡◌, ◌++◌, ◌∷◌, ℕ, List, [], true};
ghost use Rattle.std.specs.Prelude.{IfSome, IfOk, OnOk, OnErr};
ghost use Rattle.sf_value.specs.Ascii.{open_bracket, semicolon};
ghost use Rattle.sf_value.specs.Grammar.BareItems.{SpellsBare};
ghost use Rattle.sf_value.specs.Grammar.Fields.{SpellsEntry};
ghost use Rattle.sf_value.specs.Grammar.InnerLists.{SpellsInner, SpellsMember};
ghost use Rattle.sf_value.specs.Grammar.Items.{item as item_of};
ghost use Rattle.sf_value.specs.Grammar.Pairs.{Pairs, put};
ghost use Rattle.sf_value.specs.Grammar.Parameters.{SpellsParams};
ghost use Rattle.sf_value.specs.Grammar.Tokens.{IsKey};
ghost use Rattle.sf_scan.specs.Leaves.{leaf_bare};
ghost use Rattle.sf_parse.specs.Leaves.{IsLeaf};
ghost use Rattle.sf_parse.specs.Machine.Inners.{BetweenItems};
ghost use Rattle.sf_parse.specs.Machine.Members.{InMany, member_step};
ghost use Rattle.sf_parse.specs.Machine.Params.{Opened, params_step};
ghost use Rattle.sf_parse.specs.Prefixes.{Goes};
ghost use Rattle.sf_parse.specs.WholeParts.{ReadsAs, ReadsParam, BeginsMember};
ghost use Rattle.sf_parse.specs.WholeParts.{ReadsItems, IsAfterItem, AddsItem};
ghost use Rattle.sf_parse.specs.WholeParts.{found_member};
ghost use Rattle.sf_parse.specs.declared.whole_parts.Unread.TheVariants as unread_is;

use crate::ahead::{after_window, has_space, window};
use crate::context::Context;
use crate::leaf::{find_leaf, make};
use sf_scan::bare::AsLeaf;
use sf_scan::leaf::Leaf;
use sf_scan::param::next_param;
use sf_value::classes::{after_spaces, split, strip_byte};
use sf_value::{
    Bare, Dialect, Entries, Inner, Item, Key, Member, OutOfMemory, Sequence, ShortBytes,
    can_start_key,
};

/// Whole parts are looked for only in chunks of at least this many bytes. A smaller chunk seldom
/// has a whole part and what follows it, and would take more time.
pub const WHOLE_PARTS: usize = 64;

/// What was found of a parameter or of a member that is an Item: its key and its bare item. A member
/// of a List has no key.
#[derive(Clone, Copy)]
pub struct Found<'a> {
    /// The bytes of the key.
    pub key: &'a [u8],
    /// The bare item.
    pub leaf: Leaf<'a>,
}

/// How a member begins.
#[derive(Clone, Copy)]
pub enum Begun<'a> {
    /// With an Item, up to its parameters, and the rest.
    Item(Found<'a>, &'a [u8]),
    /// With the key and the opening bracket of an Inner List: the key, and the rest.
    Inner(&'a [u8], &'a [u8]),
}

/// Why a part was not read.
#[derive(Clone, Copy)]
pub enum Unread {
    /// It is malformed, or not whole in the text.
    NotWhole,
    /// An allocation failed.
    OutOfMemory,
}

impl From<OutOfMemory> for Unread {
    ghost from_gives = { λ _ e. e ≡ unread_is.OutOfMemory };

    fn from(_fault: OutOfMemory) -> Unread {
        Unread::OutOfMemory
    }
}

/// What was found of the parameter that a text begins with, after its semicolon, and the rest; None if
/// it begins with none.
#[inline(always)]
pub fn find_param(dialect: Dialect, text: &[u8]) -> Option<(Found<'_>, &[u8])>
    ensures key { IfSome result (λ r. IsKey r.0.key.now) }
    ensures leaf { IfSome result (λ r. IsLeaf r.0.leaf) }
    ensures param { IfSome result (λ r. ReadsParam dialect text.now r.0.key.now
        (leaf_bare r.0.leaf) r.1.now) }
{
    match next_param(dialect, text, AsLeaf) {
        Ok((key, leaf, stop)) => Some((Found { key, leaf }, stop.left)),
        Err(_) => None,
    }
}

/// The value of a key, a bare item, given the text after the key, and the rest; None if it can't be
/// read. Without `=` it is Boolean true.
#[inline(always)]
pub fn find_value<'a>(
    dialect: Dialect,
    key: &'a [u8],
    after: &'a [u8],
) -> Option<(Found<'a>, &'a [u8])>
    requires { IsKey key.now }
    ensures key { IfSome result (λ r. IsKey r.0.key.now) }
    ensures leaf { IfSome result (λ r. IsLeaf r.0.leaf) }
    // With the parameters that the rest begins with, they are a member of a Dictionary.
    ensures entry { IfSome result (λ r. (text : List ℕ) (params : Pairs Bare) (rest : List ℕ)
        → text ≡ key.now ++ after.now → ReadsAs (SpellsParams dialect) r.1.now params rest
        → ReadsAs (SpellsEntry dialect) text (found_member r.0 params) rest) }
{
    let Some(value) = strip_byte(after, b'=') else {
        let leaf = Leaf::Boolean(true);
        return Some((Found { key, leaf }, after));
    };
    let (leaf, rest) = find_leaf(dialect, value)?;
    Some((Found { key, leaf }, rest))
}

/// Whether the text may begin with parameters. It is a hint that saves time; no proof relies on it.
#[inline(always)]
pub fn may_begin_params(text: &[u8]) -> bool {
    let Some(more) = strip_byte(text, b';') else {
        return false;
    };
    match split(after_spaces(more)) {
        Some((first, _)) => can_start_key(first),
        None => false,
    }
}

/// Whether the text of a chunk after a bare item begins with a parameter and a byte that may follow
/// it. It is a hint that saves time; no proof relies on it.
#[inline(never)]
pub fn begins_param(dialect: Dialect, text: &[u8]) -> bool {
    let Some(more) = strip_byte(text, b';') else {
        return false;
    };
    match find_param(dialect, more) {
        Some((_, rest)) => matches!(split(rest), Some((b';' | b',' | b' ' | b'\t', _))),
        None => false,
    }
}

/// Puts the whole parameters that a text begins with, after the first semicolon, each with the
/// semicolon after it, and returns the rest.
#[inline(always)]
pub fn add_params<'a>(
    context: &Context,
    text: &'a [u8],
    params: &mut Entries<Bare>,
) -> Result<&'a [u8], OutOfMemory>
    // The bytes before the rest lead to the new parameters, after a semicolon.
    ensures { IfOk result (λ rest. Goes (params_step context.now.dialect) (Opened params.old)
        text.now rest.now (Opened params.new)) }
{
    if text.len() < WHOLE_PARTS {
        return Ok(text);
    }
    let begin = window(text);
    let left = put_each_param(context, begin, params)?;
    Ok(after_window(text, begin, left))
}

/// As [`add_params`], in its window. A call clears its stack, so [`add_params`] tests the length.
#[inline(never)]
fn put_each_param<'a>(
    context: &Context,
    text: &'a [u8],
    params: &mut Entries<Bare>,
) -> Result<&'a [u8], OutOfMemory>
    // The bytes before the rest lead to the new parameters, after a semicolon.
    ensures { IfOk result (λ rest. Goes (params_step context.now.dialect) (Opened params.old)
        text.now rest.now (Opened params.new)) }
{
    let mut rest = text;
    while rest.len() >= WHOLE_PARTS {
        let Some((found, after)) = find_param(context.dialect, rest) else {
            return Ok(rest);
        };
        let Some(more) = strip_byte(after, b';') else {
            return Ok(rest);
        };
        put_leaf(context, found, SEVERAL, params)?;
        rest = more;
    }
    Ok(rest)
}

/// How many parameters get memory with the first one, if it isn't the last.
const SEVERAL: usize = 4;

/// Puts a parameter that was found. The first one gets memory for as many as are expected.
#[inline(always)]
fn put_leaf(
    context: &Context,
    found: Found<'_>,
    expected: usize,
    params: &mut Entries<Bare>,
) -> Result<(), OutOfMemory>
    requires key { IsKey found.key.now }
    requires leaf { IsLeaf found.leaf }
    // It is put at its key.
    ensures put { OnOk result (params.new ≡ put params.old found.entry.key.now
        (leaf_bare found.entry.leaf)) }
    ensures failed { OnErr result (params.new ≡ params.old) }
{
    let value = make(context, found.leaf)?;
    params.set_named_of(expected, context.alloc, found.key, value)
}

/// Puts the whole parameters that a text begins with, and returns the rest, which begins with a
/// semicolon if the next parameter is not whole. It costs a call only if the text begins with a
/// semicolon.
#[inline(always)]
pub fn read_params<'a>(
    context: &Context,
    text: &'a [u8],
    params: &mut Entries<Bare>,
) -> Result<&'a [u8], OutOfMemory>
    requires { params.old ≡ [] }
    ensures reads { IfOk result (λ rest. ReadsAs (SpellsParams context.now.dialect) text.now
        params.new rest.now) }
    // It fails only if there may be parameters.
    ensures begun { OnErr result ((more : List ℕ) × (text.now ≡ semicolon ∷ more)) }
{
    if strip_byte(text, b';').is_none() {
        return Ok(text);
    }
    read_each_param(context, text, params)
}

/// As [`read_params`].
#[inline(never)]
fn read_each_param<'a>(
    context: &Context,
    text: &'a [u8],
    params: &mut Entries<Bare>,
) -> Result<&'a [u8], OutOfMemory>
    requires { params.old ≡ [] }
    ensures { IfOk result (λ rest. ReadsAs (SpellsParams context.now.dialect) text.now params.new
        rest.now) }
{
    let mut rest = text;
    while let Some(more) = strip_byte(rest, b';') {
        let Some((found, left)) = find_param(context.dialect, more) else {
            return Ok(rest);
        };
        let expected = if strip_byte(left, b';').is_none() {
            1
        } else {
            SEVERAL
        };
        put_leaf(context, found, expected, params)?;
        rest = left;
    }
    Ok(rest)
}

/// Adds whole Items of an Inner List, each with the space after it, and returns the rest.
#[inline(always)]
pub fn add_items<'a>(
    context: &Context,
    text: &'a [u8],
    items: &mut Sequence<Item>,
) -> Result<&'a [u8], OutOfMemory>
    // The bytes before the rest lead to the new Items.
    ensures { IfOk result (λ rest. Goes (member_step context.now.dialect)
        (InMany (BetweenItems items.old)) text.now rest.now (InMany (BetweenItems items.new))) }
{
    if text.len() < WHOLE_PARTS {
        return Ok(text);
    }
    let begin = window(text);
    let left = push_each_item(context, begin, items)?;
    Ok(after_window(text, begin, left))
}

/// As [`add_items`], in its window. A call clears its stack, so [`add_items`] tests the length.
#[inline(never)]
fn push_each_item<'a>(
    context: &Context,
    text: &'a [u8],
    items: &mut Sequence<Item>,
) -> Result<&'a [u8], OutOfMemory>
    // The bytes before the rest lead to the new Items.
    ensures { IfOk result (λ rest. Goes (member_step context.now.dialect)
        (InMany (BetweenItems items.old)) text.now rest.now (InMany (BetweenItems items.new))) }
{
    let mut rest = text;
    while rest.len() >= WHOLE_PARTS {
        let Some((leaf, after)) = find_leaf(context.dialect, rest) else {
            return Ok(rest);
        };
        if let Some(more) = strip_byte(after, b' ') {
            let params = Entries::new(context.alloc, &context.seed);
            push_leaf(context, leaf, params, items)?;
            rest = after_spaces(more);
            continue;
        }
        if !may_begin_params(after) {
            return Ok(rest);
        }
        let left = push_before_space(context, rest, leaf, after, items)?;
        if left.len() >= rest.len() {
            return Ok(left);
        }
        rest = left;
    }
    Ok(rest)
}

/// Adds an Item that was found, with the parameters after it and the space after those, and returns
/// the rest; all of the text if they are not whole. It is not inlined, so that a loop over Items
/// without parameters clears less stack.
#[inline(never)]
fn push_before_space<'a>(
    context: &Context,
    text: &'a [u8],
    leaf: Leaf<'_>,
    after: &'a [u8],
    items: &mut Sequence<Item>,
) -> Result<&'a [u8], OutOfMemory>
    requires leaf { IsLeaf leaf }
    requires reads { ReadsAs (SpellsBare context.now.dialect) text.now (leaf_bare leaf) after.now }
    // The bytes before the rest lead to the new Items.
    ensures { IfOk result (λ rest. Goes (member_step context.now.dialect)
        (InMany (BetweenItems items.old)) text.now rest.now (InMany (BetweenItems items.new))) }
{
    if !has_space(after) {
        return Ok(text);
    }
    let mut params = Entries::new(context.alloc, &context.seed);
    let rest = read_params(context, after, &mut params)?;
    let Some(left) = strip_byte(rest, b' ') else {
        return Ok(text);
    };
    push_leaf(context, leaf, params, items)?;
    Ok(after_spaces(left))
}

/// Adds an Item that was found.
#[inline(always)]
fn push_leaf(
    context: &Context,
    leaf: Leaf<'_>,
    params: Entries<Bare>,
    items: &mut Sequence<Item>,
) -> Result<(), OutOfMemory>
    requires { IsLeaf leaf }
    ensures added { OnOk result (items.new ≡ items.old ++ item_of (leaf_bare leaf.entry) params
        ∷ []) }
    ensures failed { OnErr result (items.new ≡ items.old) }
{
    let bare = make(context, leaf)?;
    items.push_or_drop(Item { bare, params })
}

/// What comes after an Item of an Inner List.
#[derive(Clone, Copy)]
pub enum AfterItem<'a> {
    /// The rest after spaces, where another Item may begin.
    Open(&'a [u8]),
    /// The rest after the closing bracket.
    Closed(&'a [u8]),
}

/// Adds the whole Items of an Inner List, and returns the rest after its closing bracket.
#[inline(always)]
fn read_items<'a>(
    context: &Context,
    text: &'a [u8],
    items: &mut Sequence<Item>,
) -> Result<&'a [u8], Unread>
    ensures { IfOk result (λ rest. ReadsItems context.now.dialect 0 text.now items.old items.new
        rest.now) }
{
    let mut rest = after_spaces(text);
    loop {
        if let Some(left) = strip_byte(rest, b')') {
            return Ok(left);
        }
        match push_item(context, rest, items)? {
            AfterItem::Open(left) => rest = left,
            AfterItem::Closed(left) => return Ok(left),
        }
    }
}

/// What comes after an Item of an Inner List: at least one space, or the closing bracket.
#[inline(always)]
fn after_item(text: &[u8]) -> Result<AfterItem<'_>, Unread>
    ensures { IfOk result (IsAfterItem text.now) }
{
    match split(text) {
        Some((b' ', more)) => Ok(AfterItem::Open(after_spaces(more))),
        Some((b')', rest)) => Ok(AfterItem::Closed(rest)),
        _ => Err(Unread::NotWhole),
    }
}

/// Adds the Item that a text begins with, and returns what comes after it.
#[inline(always)]
fn push_item<'a>(
    context: &Context,
    text: &'a [u8],
    items: &mut Sequence<Item>,
) -> Result<AfterItem<'a>, Unread>
    ensures { IfOk result (AddsItem context.now.dialect text.now items.old items.new) }
{
    let Some((leaf, after)) = find_leaf(context.dialect, text) else {
        return Err(Unread::NotWhole);
    };
    if strip_byte(after, b';').is_some() {
        return push_with_params(context, leaf, after, items);
    }
    let end = after_item(after)?;
    let params = Entries::new(context.alloc, &context.seed);
    push_leaf(context, leaf, params, items)?;
    Ok(end)
}

/// Adds an Item that was found, with the parameters after it, and returns what comes after them.
#[inline(never)]
fn push_with_params<'a>(
    context: &Context,
    leaf: Leaf<'_>,
    after: &'a [u8],
    items: &mut Sequence<Item>,
) -> Result<AfterItem<'a>, Unread>
    requires { IsLeaf leaf }
    ensures { IfOk result (λ end. (text : List ℕ)
        → ReadsAs (SpellsBare context.now.dialect) text (leaf_bare leaf.entry) after.now
        → AddsItem context.now.dialect text items.old items.new end) }
{
    let mut params = Entries::new(context.alloc, &context.seed);
    let rest = read_params(context, after, &mut params)?;
    let end = after_item(rest)?;
    push_leaf(context, leaf, params, items)?;
    Ok(end)
}

/// An Inner List after its opening bracket, and the rest.
#[inline(never)]
pub fn read_inner<'a>(context: &Context, inside: &'a [u8]) -> Result<(Inner, &'a [u8]), Unread>
    ensures { IfOk result (λ r. ReadsAs (SpellsInner context.now.dialect)
        (open_bracket ∷ inside.now) r.0 r.1.now) }
{
    let mut items = Sequence::new(context.alloc);
    let after = read_items(context, inside, &mut items)?;
    let mut params = Entries::new(context.alloc, &context.seed);
    let rest = read_params(context, after, &mut params)?;
    Ok((Inner { items, params }, rest))
}
