//! Parts of a text, read without nodes.
ghost use Rattle.std.specs.Prelude.{◌∷◌, ⊤, IfSome};
ghost use Rattle.sf_value.specs.Ascii.{semicolon, open_bracket};
ghost use Rattle.sf_value.specs.Grammar.Parameters.{SpellsParams};
ghost use Rattle.sf_value.specs.Grammar.Items.{SpellsItem};
ghost use Rattle.sf_value.specs.Grammar.InnerLists.{SpellsInner};
ghost use Rattle.sf_value.specs.declared.dialect.Dialect.{Dialect as Which};
ghost use Rattle.sf_value.specs.Grammar.BareItems.{SpellsBare};
ghost use Rattle.sf_scan.specs.Leaves.{leaf_bare};
ghost use Rattle.sf_view.specs.Views.{IsBorrowed};
ghost use Rattle.sf_view.specs.Reads.{Reads, ReadsBare, ReadsParam, ReadsMember, ReadsEntry};

use crate::view::{BareView, Slice};
use sf_scan::bare::{Take, bare};
use sf_scan::inner::inner_list;
use sf_scan::item::item;
use sf_scan::leaf::Leaf;
use sf_scan::maker::Nothing;
use sf_scan::param::{find_key, next_param, params};
use sf_value::Dialect;
use sf_value::classes::strip_byte;

/// The bare item of a key without a value.
const TRUE: BareView = BareView::Boolean(true);

/// Makes views of bare items.
#[derive(Clone, Copy)]
struct ToView;

impl<'a> Take<'a> for ToView {
    type Made = BareView<'a>;

    ghost fits = { λ t text. ⊤ };

    ghost makes = { λ t spelled leaf view. (d : Which) → SpellsBare d spelled (leaf_bare leaf)
        → IsBorrowed d view (leaf_bare leaf) };

    #[inline(always)]
    fn integer(self, number: i64) -> BareView<'a> {
        BareView::Integer(number)
    }

    #[inline(always)]
    fn decimal(self, number: i64) -> BareView<'a> {
        BareView::Decimal(number)
    }

    #[inline(always)]
    fn boolean(self, value: bool) -> BareView<'a> {
        BareView::Boolean(value)
    }

    #[inline(always)]
    fn token(self, bytes: &'a [u8]) -> BareView<'a> {
        BareView::Token(bytes)
    }

    #[inline(always)]
    fn text(self, bytes: &'a [u8]) -> BareView<'a> {
        BareView::Text(Slice {
            bytes,
            coded: false,
        })
    }

    #[inline]
    fn leaf(self, spelled: &'a [u8], leaf: Leaf<'a>) -> BareView<'a> {
        borrowed(leaf, spelled)
    }
}

/// A bare item, and the rest.
#[inline(always)]
pub(crate) fn read_bare(dialect: Dialect, text: &[u8]) -> Option<(BareView, &[u8])>
    ensures { IfSome result (λ r. ReadsBare dialect text.now r.0 r.1.now) }
{
    match bare(dialect, text, ToView) {
        Ok((stop, view)) => Some((view, stop.left)),
        Err(_) => None,
    }
}

/// The bare item of a leaf, given the bytes that spell it.
#[inline]
fn borrowed<'a>(leaf: Leaf<'a>, spelled: &'a [u8]) -> BareView<'a>
    ensures { (d : Which) → SpellsBare d spelled.now (leaf_bare leaf.entry)
        → IsBorrowed d result (leaf_bare leaf.entry) }
{
    let coded = Slice {
        bytes: spelled,
        coded: true,
    };
    match leaf {
        Leaf::Integer(number) => BareView::Integer(number),
        Leaf::Decimal(number) => BareView::Decimal(number),
        Leaf::Date(number) => BareView::Date(number),
        Leaf::Boolean(value) => BareView::Boolean(value),
        Leaf::Token(bytes) => BareView::Token(bytes),
        Leaf::Text(bytes) => BareView::Text(Slice {
            bytes,
            coded: false,
        }),
        Leaf::Escaped(_) => BareView::Text(coded),
        Leaf::Blob(_) => BareView::Blob(coded),
        Leaf::Display(_) => BareView::Shown(coded),
    }
}

/// One parameter, after its semicolon: its key, its value, and the rest.
#[inline(always)]
pub(crate) fn read_param<'a>(
    dialect: Dialect,
    text: &'a [u8],
) -> Option<(&'a [u8], BareView<'a>, &'a [u8])>
    ensures { IfSome result (λ r. ReadsParam dialect (semicolon ∷ text.now) r.0.now r.1 r.2.now) }
{
    match next_param(dialect, text, ToView) {
        Ok((key, view, stop)) => Some((key, view, stop.left)),
        Err(_) => None,
    }
}

/// The rest after parameters. It costs a call only if the text begins with a semicolon.
#[inline(always)]
pub(crate) fn after_params(dialect: Dialect, text: &[u8]) -> Option<&[u8]>
    ensures { IfSome result (λ rest. Reads (SpellsParams dialect) text.now rest.now) }
{
    match params(dialect, text, &mut Nothing) {
        Ok(stop) => Some(stop.left),
        Err(_) => None,
    }
}

/// The rest after an Item.
#[inline]
pub(crate) fn after_item(dialect: Dialect, text: &[u8]) -> Option<&[u8]>
    ensures { IfSome result (λ rest. Reads (SpellsItem dialect) text.now rest.now) }
{
    match item(dialect, text, &mut Nothing) {
        Ok(stop) => Some(stop.left),
        Err(_) => None,
    }
}

/// The rest after an Inner List, given what is after its opening bracket.
fn after_inner(dialect: Dialect, inside: &[u8]) -> Option<&[u8]>
    ensures { IfSome result (λ rest.
        Reads (SpellsInner dialect) (open_bracket ∷ inside.now) rest.now) }
{
    match inner_list(dialect, inside, &mut Nothing) {
        Ok(stop) => Some(stop.left),
        Err(_) => None,
    }
}

/// A member of a List, or of a Dictionary after its key and =: its bare item, or `None` for an
/// Inner List, and the rest.
#[inline(always)]
pub(crate) fn read_member<'a>(
    dialect: Dialect,
    text: &'a [u8],
) -> Option<(Option<BareView<'a>>, &'a [u8])>
    ensures { IfSome result (λ r. ReadsMember dialect text.now r.0 r.1.now) }
{
    if let Some(inside) = strip_byte(text, b'(') {
        return Some((None, after_inner(dialect, inside)?));
    }
    let (bare, after) = read_bare(dialect, text)?;
    Some((Some(bare), after_params(dialect, after)?))
}

/// A member of a Dictionary: its key, its bare item or `None` for an Inner List, and the rest.
#[inline(always)]
pub(crate) fn read_entry<'a>(
    dialect: Dialect,
    text: &'a [u8],
) -> Option<(&'a [u8], Option<BareView<'a>>, &'a [u8])>
    ensures { IfSome result (λ r. ReadsEntry dialect text.now r.0.now r.1 r.2.now) }
{
    let (key, after) = find_key(text)?;
    if let Some(value) = strip_byte(after, b'=') {
        let (bare, rest) = read_member(dialect, value)?;
        return Some((key, bare, rest));
    }
    Some((key, Some(TRUE), after_params(dialect, after)?))
}
