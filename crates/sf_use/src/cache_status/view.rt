//! Hops that borrow the text of a Cache-Status field.
ghost use Rattle.std.specs.Prelude.{◌≡◌, ◌<◌, ◌≤◌, ◌&&◌, is_some, List, length, IfSome};
ghost use Rattle.sf_value.specs.declared.dialect.Dialect.{Dialect as Which};
ghost use Rattle.sf_value.specs.declared.dialect.Dialect.TheVariants.{Rfc9651 as rfc9651};
ghost use Rattle.sf_value.specs.declared.value.Bare.{Bare};
ghost use Rattle.sf_value.specs.declared.value.Member.{Member};
ghost use Rattle.sf_value.specs.Grammar.InnerLists.{SpellsMember};
ghost use Rattle.sf_value.specs.Grammar.Series.{SpellsWhole};
ghost use Rattle.std.specs.Option.{option_copied};
ghost use Rattle.sf_view.specs.Cursors.{left_in};
ghost use Rattle.sf_view.specs.Views.{IsBorrowed};
ghost use Rattle.sf_use.specs.CacheStatus.Parameters.{as_name};
ghost use Rattle.sf_use.specs.CacheStatus.Views.{HopParts, RemainsInPath, ReadsNextHop};
ghost use Rattle.sf_use.specs.CacheStatus.Views.{ReadsParams, ShowsParts, ShowsName, with_param};

use sf_value::Dialect;
use sf_view::{BareView, ItemCursor, ParamCursor, ParamView, Slice};

/// The name of a cache, or a detail, that borrows the text: a String or a Token.
#[derive(Clone, Copy, Debug, Drop)]
pub enum NameView<'a> {
    /// A String: its bytes, or the escaped ones.
    Text(Slice<'a>),
    /// A Token.
    Token(&'a [u8]),
}

/// The parameters of a hop (RFC 9211 section 2) that borrow the text; `None` if one is absent, or
/// of another type than the RFC states.
#[derive(Clone, Copy, Debug, Drop)]
pub struct HopParams<'a> {
    /// `hit` (section 2.1).
    pub hit: Option<bool>,
    /// The token of `fwd` (section 2.2).
    pub fwd: Option<&'a [u8]>,
    /// `fwd-status` (section 2.3), which may be no status code.
    pub fwd_status: Option<i64>,
    /// `ttl` (section 2.4).
    pub ttl: Option<i64>,
    /// `stored` (section 2.5).
    pub stored: Option<bool>,
    /// `collapsed` (section 2.6).
    pub collapsed: Option<bool>,
    /// `key` (section 2.7).
    pub key: Option<Slice<'a>>,
    /// `detail` (section 2.8).
    pub detail: Option<NameView<'a>>,
}

/// A hop that borrows the text: the name of the cache, and its parameters.
#[derive(Clone, Copy, Debug, Drop)]
pub struct HopView<'a> {
    /// The name of the cache.
    pub name: NameView<'a>,
    /// What the cache did.
    pub params: HopParams<'a>,
}

/// The hops of a Cache-Status field, read from its text one after another. It does not allocate,
/// and declines a List with a member that names no cache.
///
/// ```
/// let mut hops = HopCursor::new(b"OriginCache; hit; ttl=1100, CDN; fwd=uri-miss");
/// while let Some(hop) = hops.next()? {
///     .. // OriginCache, a hit; then CDN
/// }
/// ```
#[derive(Clone, Copy, Debug, Drop)]
pub struct HopCursor<'a> {
    items: ItemCursor<'a>,
}

/// No parameter.
const NO_PARAMS: HopParams = HopParams {
    hit: None,
    fwd: None,
    fwd_status: None,
    ttl: None,
    stored: None,
    collapsed: None,
    key: None,
    detail: None,
};

impl<'a> HopCursor<'a> {
    /// A cursor at the first hop of the text, by RFC 9651.
    #[inline]
    pub fn new(text: &'a [u8]) -> HopCursor<'a>
        // If the members that remain are these, the whole text spells them.
        ensures { (ms : List Member) → RemainsInPath result ms
            → SpellsWhole (SpellsMember rfc9651) text.now ms }
    {
        HopCursor::new_in(Dialect::Rfc9651, text)
    }

    /// A cursor at the first hop of the text, in a dialect. RFC 9211 cites RFC 8941, by which a
    /// text with a Date or a Display String is refused.
    #[inline]
    pub fn new_in(dialect: Dialect, text: &'a [u8]) -> HopCursor<'a>
        // If the members that remain are these, the whole text spells them in the dialect.
        ensures { (ms : List Member) → RemainsInPath result ms
            → SpellsWhole (SpellsMember dialect) text.now ms }
    {
        HopCursor {
            items: ItemCursor::new(dialect, text),
        }
    }

    /// Reads the next hop: `Some(None)` after the last one, and `None` if the cursor declines the
    /// text, of which nothing is then claimed. It declines a text that spells no List, and a
    /// List with a member that names no cache. It is inlined, so that a hop is not copied.
    #[inline(always)]
    pub fn next(&mut self) -> Option<Option<HopView<'a>>>
        // A member with this hop comes before those that remain; after the last one, none remain.
        ensures next { IfSome result (λ hop. ReadsNextHop self.old self.new hop) }
        // Less of the text remains after a hop.
        ensures fewer { IfSome result (λ hop. IfSome hop (λ _.
            left_in (option_copied self.new.items.rest)
            < left_in (option_copied self.old.items.rest))) }
    {
        let Some(item) = self.items.next()? else {
            return Some(None);
        };
        let name = name_of(item.bare)?;
        let (params, items) = read_params(item.params)?;
        self.items = items;
        Some(Some(HopView { name, params }))
    }
}

/// Returns a bare item as a name, if it is a String or a Token.
#[inline]
fn name_of(bare: BareView) -> Option<NameView>
    ensures { (d : Which) (x : Bare) → IsBorrowed d bare.entry x → ShowsName d result (as_name x) }
{
    match bare {
        BareView::Text(slice) => return Some(NameView::Text(slice)),
        BareView::Token(bytes) => return Some(NameView::Token(bytes)),
        _ => return None,
    }
}

/// Reads the parameters of an Item.
#[inline(always)]
fn read_params(start: ParamCursor) -> Option<(HopParams, ItemCursor)>
    // Parameters that show these parts come before the members that remain.
    ensures reads { IfSome result (λ r. ReadsParams start.entry r.0 r.1) }
    ensures fewer { IfSome result (λ r.
        left_in (option_copied r.1.rest) ≤ length start.entry.rest.now) }
{
    let mut cursor = start;
    let mut params = NO_PARAMS;
    while let Some(param) = cursor.next()? {
        params.set(param);
    }
    Some((params, cursor.end()?))
}

impl<'a> HopParams<'a> {
    /// Returns whether `hit` and `fwd` both appear, of which only one should (RFC 9211 section
    /// 2.1), also if `hit` is false. Does not allocate.
    ///
    /// ```
    /// // edge;hit;fwd=stale
    /// hop.params.has_hit_and_fwd() // true
    /// ```
    pub fn has_hit_and_fwd(&self) -> bool
        ensures { result ≡ (is_some self.now.hit && is_some self.now.fwd) }
    {
        self.hit.is_some() && self.fwd.is_some()
    }

    /// Sets the parameter with this key, over an earlier one.
    #[inline]
    fn set(&mut self, param: ParamView<'a>)
        ensures { (d : Which) (s : HopParts) (x : Bare) → ShowsParts d self.old s
            → IsBorrowed d param.entry.bare x
            → ShowsParts d self.new (with_param s (param.entry.key.now, x)) }
    {
        let bare = &param.bare;
        match param.key {
            b"hit" => self.hit = bare.as_boolean(),
            b"fwd" => self.fwd = bare.as_token(),
            b"fwd-status" => self.fwd_status = bare.as_integer(),
            b"ttl" => self.ttl = bare.as_integer(),
            b"stored" => self.stored = bare.as_boolean(),
            b"collapsed" => self.collapsed = bare.as_boolean(),
            b"key" => self.key = bare.as_text(),
            b"detail" => self.detail = name_of(param.bare),
            _ => {}
        }
    }
}
