//! Reading hops from the text of a Cache-Status field, without its List.
ghost use Rattle.std.specs.Prelude.{◌≡◌, [], ◌∷◌, List as Seq, ℕ, Option as Maybe, Ok, IfSome};
ghost use Rattle.sf_field.specs.Asking.{MeansIn};
ghost use Rattle.sf_use.specs.declared.cache_status.hop.Hop.{Hop as HopValue};
ghost use Rattle.sf_use.specs.declared.cache_status.hop.Name.{Name as NameValue};
ghost use Rattle.sf_use.specs.CacheStatus.Hops.{hops as hops_in};
ghost use Rattle.sf_use.specs.CacheStatus.Reasons.{forward_of};
ghost use Rattle.sf_use.specs.CacheStatus.Views.{BorrowsName, HopParts, ShowsHop, ShowsName};
ghost use Rattle.sf_use.specs.CacheStatus.Views.{ShowsParts, outcome_in, passed_in};
ghost use Rattle.sf_value.specs.declared.dialect.Dialect.{Dialect as Which};
ghost use Rattle.sf_value.specs.declared.value.Bare.TheVariants as bare_is;
ghost use Rattle.sf_value.specs.declared.value.Kind.TheVariants.{List};
ghost use Rattle.sf_view.specs.Reads.{ShowsText};
ghost use Rattle.sf_view.specs.View.{DescribesText};

use crate::cache_status::hop::{Forward, Hop, Name, Outcome, Passed};
use crate::cache_status::reading::{named_forward, status_by};
use crate::cache_status::view::{HopCursor, HopParams, HopView, NameView};
use sf_value::{Dialect, Int, Text, Token};
use sf_view::{BareView, Slice};
use std::alloc::Global;

/// Returns the hops of a text in a dialect; `None` claims nothing.
pub(crate) fn scan_hops(alloc: Global, dialect: Dialect, text: &[u8]) -> Option<Vec<Hop>>
    // In the dialect the text spells a List, and no other value, and these are its hops.
    ensures { IfSome result (λ hops.
        MeansIn dialect List hops_in (text.now ∷ []) (Ok hops.items)) }
{
    let mut cursor = HopCursor::new_in(dialect, text);
    let mut hops = Vec::new(alloc);
    while let Some(view) = cursor.next()? {
        let hop = copy_hop(alloc, &view)?;
        if hops.push(hop).is_err() {
            return None;
        }
    }
    Some(hops)
}

/// Copies a hop; `None` claims nothing.
fn copy_hop(alloc: Global, view: &HopView) -> Option<Hop>
    // Whatever hop is borrowed, the copy is that one.
    ensures { (h : HopValue) → ShowsHop view.now h → IfSome result (λ hop. hop ≡ h) }
{
    let params = &view.params;
    Some(Hop {
        name: copy_name(alloc, view.name)?,
        outcome: copy_outcome(alloc, params)?,
        ttl: copy_integer(params.ttl)?,
        key: copy_key(alloc, params.key)?,
        detail: copy_detail(alloc, params.detail)?,
    })
}

/// Copies a name.
fn copy_name(alloc: Global, name: NameView) -> Option<Name>
    ensures { (d : Which) (n : NameValue) → BorrowsName d name.entry n
        → IfSome result (λ copy. copy ≡ n) }
{
    match name {
        NameView::Text(slice) => return Some(Name::Text(copy_text(alloc, slice)?)),
        NameView::Token(bytes) => return Some(Name::Token(Token::new(alloc, bytes).ok()?)),
    }
}

/// Copies a String.
fn copy_text(alloc: Global, slice: Slice) -> Option<Text>
    ensures { (d : Which) (t : Seq ℕ) → DescribesText d slice.entry.coded slice.entry.bytes.now
        (bare_is.Text t) → IfSome result (λ copy. copy ≡ t) }
{
    if !slice.coded {
        return Text::new(alloc, slice.bytes).ok();
    }
    BareView::Text(slice).to_bare(alloc).ok()??.into_text()
}

/// Copies what the cache did.
fn copy_outcome(alloc: Global, params: &HopParams) -> Option<Outcome>
    ensures { (d : Which) (s : HopParts) → ShowsParts d params.now s
        → IfSome result (λ outcome. outcome ≡ outcome_in s) }
{
    let is_hit = params.hit.unwrap_or(false);
    match copy_passed(alloc, params)? {
        Some(passed) if is_hit => return Some(Outcome::Conflict(passed)),
        Some(passed) => return Some(Outcome::Forwarded(passed)),
        None if is_hit => return Some(Outcome::Hit),
        None => return Some(Outcome::Unsaid),
    }
}

/// Copies what is said of a forwarded request, if `fwd` is present.
fn copy_passed(alloc: Global, params: &HopParams) -> Option<Option<Passed>>
    ensures { (d : Which) (s : HopParts) → ShowsParts d params.now s
        → IfSome result (λ passed. passed ≡ passed_in s) }
{
    let Some(token) = params.fwd else {
        return Some(None);
    };
    Some(Some(Passed {
        why: copy_forward(alloc, token)?,
        status: status_by(params.fwd_status),
        stored: params.stored,
        collapsed: params.collapsed,
    }))
}

/// Copies the reason of a token.
fn copy_forward(alloc: Global, token: &[u8]) -> Option<Forward>
    ensures { IfSome result (λ why. why ≡ forward_of token.now) }
{
    match named_forward(token) {
        Some(why) => return Some(why),
        None => return Some(Forward::Other(Token::new(alloc, token).ok()?)),
    }
}

/// Copies an Integer, if there is one.
fn copy_integer(number: Option<i64>) -> Option<Option<Int>>
    ensures { IfSome result (λ integer. integer ≡ number) }
{
    match number {
        Some(number) => return Some(Some(Int::new(number).ok()?)),
        None => return Some(None),
    }
}

/// Copies a cache key, if there is one.
fn copy_key(alloc: Global, key: Option<Slice>) -> Option<Option<Text>>
    ensures { (d : Which) (t : Maybe (Seq ℕ)) → ShowsText d key.entry t
        → IfSome result (λ copy. copy ≡ t) }
{
    match key {
        Some(slice) => return Some(Some(copy_text(alloc, slice)?)),
        None => return Some(None),
    }
}

/// Copies a detail, if there is one.
fn copy_detail(alloc: Global, detail: Option<NameView>) -> Option<Option<Name>>
    ensures { (d : Which) (n : Maybe NameValue) → ShowsName d detail.entry n
        → IfSome result (λ copy. copy ≡ n) }
{
    match detail {
        Some(name) => return Some(Some(copy_name(alloc, name)?)),
        None => return Some(None),
    }
}
