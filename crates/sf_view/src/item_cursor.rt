//! Lists of Items, read Item by Item and parameter by parameter without nodes.
ghost use Rattle.std.specs.Prelude.{◌≡◌, ◌<◌, ◌≤◌, [], IfSome, List, length};
ghost use Rattle.std.specs.Option.{option_copied};
ghost use Rattle.sf_value.specs.declared.value.Member.{Member};
ghost use Rattle.sf_value.specs.Grammar.InnerLists.{SpellsMember};
ghost use Rattle.sf_value.specs.Grammar.Series.{SpellsWhole};
ghost use Rattle.sf_view.specs.Cursors.{left_in};
ghost use Rattle.sf_view.specs.ItemCursors.{RemainsInList, RemainsInItem, ReadsNextItem, ReadsNextParam};

use crate::cursor::{first_start, next_start};
use crate::text_parts::{read_bare, read_param};
use crate::view::BareView;
use sf_value::Dialect;
use sf_value::classes::strip_byte;

/// The members of a List of Items, read from its text one after another. It does not allocate, and
/// declines a List with an Inner List.
///
/// ```
/// let mut items = ItemCursor::new(Dialect::Rfc9651, b"a;q=1, b");
/// while let Some(item) = items.next()? {
///     let mut params = item.params;
///     while let Some(param) = params.next()? {
///         .. // q, Integer 1
///     }
///     items = params.end()?;
/// }
/// ```
#[derive(Clone, Copy, Debug, Drop)]
pub struct ItemCursor<'a> {
    dialect: Dialect,
    /// The text from the next Item on; `None` after the last.
    rest: Option<&'a [u8]>,
}

/// The parameters of an Item of a List, read from its text one after another. A repeated key is
/// returned each time; its last value counts (RFC 9651 section 4.2.3.2).
#[derive(Clone, Copy, Debug, Drop)]
pub struct ParamCursor<'a> {
    dialect: Dialect,
    /// The text after what was read of the Item.
    rest: &'a [u8],
}

/// An Item of a List: its bare item, and a cursor of its parameters.
#[derive(Clone, Copy, Debug, Drop)]
pub struct ItemView<'a> {
    /// The bare item.
    pub bare: BareView<'a>,
    /// The parameters.
    pub params: ParamCursor<'a>,
}

/// A parameter.
#[derive(Clone, Copy, Debug, Drop)]
pub struct ParamView<'a> {
    /// The key, as a part of the text.
    pub key: &'a [u8],
    /// The value.
    pub bare: BareView<'a>,
}

impl<'a> ItemCursor<'a> {
    /// A cursor at the first Item of the text.
    #[inline]
    pub fn new(dialect: Dialect, text: &'a [u8]) -> ItemCursor<'a>
        ensures dialect { result.dialect ≡ dialect }
        // If the members that remain are these, the whole text spells them.
        ensures whole { (ms : List Member) → RemainsInList result ms
            → SpellsWhole (SpellsMember dialect) text.now ms }
    {
        ItemCursor {
            dialect,
            rest: first_start(text),
        }
    }

    /// Reads the bare item of the next member: `Some(None)` after the last one, and `None` if the
    /// cursor declines the text, of which nothing is then known. It declines a member that does not
    /// begin with a bare item, such as an Inner List. The cursor does not move:
    /// [`ParamCursor::end`] returns the one at the member after this.
    #[inline(always)]
    pub fn next(&self) -> Option<Option<ItemView<'a>>>
        // An Item with this bare item and the parameters that remain comes before the members that
        // remain; after the last one, none remain.
        ensures next { IfSome result (λ item. ReadsNextItem self.now item) }
        // Less of the text remains after a bare item.
        ensures fewer { IfSome result (λ item. IfSome item (λ i.
            length i.params.rest.now < left_in (option_copied self.now.rest))) }
    {
        let Some(text) = self.rest else {
            return Some(None);
        };
        let (bare, rest) = read_bare(self.dialect, text)?;
        let params = ParamCursor {
            dialect: self.dialect,
            rest,
        };
        Some(Some(ItemView { bare, params }))
    }
}

impl<'a> ParamCursor<'a> {
    /// Reads the next parameter: `Some(None)` after the last one, and `None` if the cursor declines
    /// the text, of which nothing is then known. It declines a semicolon without a parameter after
    /// it (RFC 9651 section 4.2.3.2).
    #[inline(always)]
    pub fn next(&mut self) -> Option<Option<ParamView<'a>>>
        ensures dialect { self.new.dialect ≡ self.old.dialect }
        // A parameter with this key and value comes before those that remain.
        ensures next { IfSome result (λ param. ReadsNextParam self.old self.new param) }
        // Less of the text remains after a parameter.
        ensures fewer { IfSome result (λ param. IfSome param (λ _.
            length self.new.rest.now < length self.old.rest.now)) }
        ensures kept { length self.new.rest.now ≤ length self.old.rest.now }
    {
        let Some(text) = strip_byte(self.rest, b';') else {
            return Some(None);
        };
        let (key, bare, rest) = read_param(self.dialect, text)?;
        self.rest = rest;
        Some(Some(ParamView { key, bare }))
    }

    /// The cursor at the next member, after the last parameter; `None` if the text is declined, as
    /// it is if a parameter was not read.
    #[inline]
    pub fn end(&self) -> Option<ItemCursor<'a>>
        ensures dialect { IfSome result (λ cursor. cursor.dialect ≡ self.now.dialect) }
        // If no parameter remains, the members of the new cursor do.
        ensures remains { IfSome result (λ cursor. (ms : List Member) → RemainsInList cursor ms
            → RemainsInItem self.now [] ms) }
        ensures fewer { IfSome result (λ cursor.
            left_in (option_copied cursor.rest) ≤ length self.now.rest.now) }
    {
        Some(ItemCursor {
            dialect: self.dialect,
            rest: next_start(self.rest)?,
        })
    }
}
