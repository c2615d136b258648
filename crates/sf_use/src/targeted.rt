//! Targeted cache control (RFC 9213): which field a cache obeys, and its directives.
ghost use Rattle.std.specs.Prelude.{◌≡◌, All, Ok, IfOk, IfErr, IfSome, IsOk};
ghost use Rattle.std.specs.Option.{option_copied};
ghost use Rattle.http_header.specs.HeaderMap.{ContainsKey};
ghost use Rattle.sf_field.specs.Meaning.{Gives};
ghost use Rattle.sf_use.specs.Scanning.{IsScanned, IsScannedIn, seconds_by, sets_by};
ghost use Rattle.sf_use.specs.Scanning.{with_directive};
ghost use Rattle.sf_use.specs.Targeted.{delta_seconds, directives, is_set as member_sets};
ghost use Rattle.sf_use.specs.Targeted.{life, policy};
ghost use Rattle.sf_use.specs.TargetedChoice.{IsChosen, IsChosenIn, IsReached, IsReachedIn};
ghost use Rattle.sf_use.specs.TargetedChoice.{MayOffer, IsOfferIn};
ghost use Rattle.sf_use.specs.TargetedChoice.{IsOfTarget, OffersAsAsked};
ghost use Rattle.sf_use.specs.declared.targeted.Choice.TheVariants.{Fallback};
ghost use Rattle.sf_value.specs.declared.dialect.Dialect.{Dialect as Which};
ghost use Rattle.sf_value.specs.declared.value.Member.{Member as MemberValue};
ghost use Rattle.sf_view.specs.Cursors.{boolean_in};
ghost use Rattle.sf_view.specs.Reads.{ShowsMember};

use http_header::{HeaderMap, HeaderName};
use sf_field::{AskFault, Consumer, UseFault, ask_from_in};
use sf_parse::Refusal;
use sf_value::{Bare, Dialect, Dict, Field, Kind, Member, OutOfMemory};
use sf_view::{DictCursor, EntryView};
use std::alloc::Global;
use std::hash::RandomState;

/// The directives of a targeted field (RFC 9213 section 2.1), with the meanings of RFC 9111 section
/// 5.2.2. Other directives are ignored, and so are parameters.
#[derive(Clone, Copy, Debug, Default, PartialEq, Eq)]
pub struct Policy {
    /// `max-age`: the freshness lifetime in seconds. It counts only if it is an Integer that is not
    /// negative.
    pub max_age: Option<u64>,
    /// `s-maxage`: the freshness lifetime in a shared cache, in seconds. It counts only if it is an
    /// Integer that is not negative.
    pub s_maxage: Option<u64>,
    /// `must-revalidate`: a stale response is not used before it is validated.
    pub must_revalidate: bool,
    /// `no-store`: the response is not stored.
    pub no_store: bool,
    /// `no-cache`: the response is not used before it is validated.
    pub no_cache: bool,
    /// `private`: the response is not stored by a shared cache.
    pub is_private: bool,
}

/// Reads a targeted field (RFC 9213 section 2.1), a Dictionary. `answer`, `answer_text` and
/// `answer_text_in` do not allocate.
///
/// ```
/// let policy = ask(alloc, &seed, &Directives, lines.as_slice())?;
/// ```
#[derive(Clone, Copy, Debug, Default, PartialEq, Eq)]
pub struct Directives;

/// Which field of a target list a cache obeys (RFC 9213 section 2.2).
#[derive(Clone, Copy, Debug, PartialEq, Eq)]
pub enum Choice {
    /// The field of a target.
    Field {
        /// The index of the target in the list, from 0.
        index: usize,
        /// The directives of the field.
        policy: Policy,
    },
    /// No target has a field that can be used: `Cache-Control` and `Expires` decide.
    Fallback,
}

/// A policy without directives.
pub(crate) const NO_DIRECTIVE: Policy = Policy {
    max_age: None,
    s_maxage: None,
    must_revalidate: false,
    no_store: false,
    no_cache: false,
    is_private: false,
};

impl Directives {
    /// Reads the text of one targeted field in one pass, and returns its directives, as
    /// [`Policy::from_dict`] does for its Dictionary, or `Some(None)` if the Dictionary is empty,
    /// so that the field is ignored (RFC 9213 section 2.1). Does not allocate. `None` claims
    /// nothing.
    ///
    /// ```
    /// let policy = Directives::scan(b"max-age=60, no-store")??;
    /// assert_eq!(rt; policy.max_age, Some(60));
    /// ```
    pub fn scan(text: &[u8]) -> Option<Option<Policy>>
        // The text spells a Dictionary, and no other value, and this is its policy, if it has a
        // member.
        ensures { IfSome result (IsScanned MayOffer text.now) }
    {
        Directives::scan_in(Dialect::Rfc9651, text)
    }

    /// Reads the text of one targeted field in a dialect, as [`Directives::scan`] does. RFC 9213
    /// cites RFC 8941, by which a text with a Date or a Display String is refused.
    ///
    /// ```
    /// Directives::scan_in(Dialect::Rfc8941, b"max-age=60, x=@1") // None
    /// ```
    pub fn scan_in(dialect: Dialect, text: &[u8]) -> Option<Option<Policy>>
        // In the dialect the text spells a Dictionary, and no other value, and this is its policy,
        // if it has a member.
        ensures { IfSome result (IsScannedIn dialect MayOffer text.now) }
    {
        let mut cursor = DictCursor::new(dialect, text);
        let mut policy = None;
        while let Some(member) = cursor.next()? {
            policy = Some(policy_with(policy.unwrap_or(NO_DIRECTIVE), member));
        }
        Some(policy)
    }
}

impl Policy {
    /// Returns the directives of a Dictionary. A directive without a number is set if it is present
    /// and not false (`?0`). Does not allocate.
    ///
    /// ```
    /// // max-age=30, s-maxage=90, no-store=?0
    /// let policy = Policy::from_dict(&dict);
    /// assert_eq!(rt; policy.lifetime(true), Some(90));
    /// assert_eq!(rt; policy.no_store, false);
    /// ```
    pub fn from_dict(dict: &Dict) -> Policy
        ensures { result ≡ policy dict.now }
    {
        Policy {
            max_age: seconds(dict.get(b"max-age")),
            s_maxage: seconds(dict.get(b"s-maxage")),
            must_revalidate: sets(dict.get(b"must-revalidate")),
            no_store: sets(dict.get(b"no-store")),
            no_cache: sets(dict.get(b"no-cache")),
            is_private: sets(dict.get(b"private")),
        }
    }

    /// Returns the freshness lifetime of the response in a shared or a private cache, in seconds,
    /// or `None` if the field doesn't set it. In a shared cache `s-maxage` takes precedence over
    /// `max-age` (RFC 9111 section 4.2.1); in a private cache only `max-age` counts. A directive
    /// whose value can't be used counts as absent here, unlike for [`CacheRules::lifetime`]. Does
    /// not allocate.
    ///
    /// [`CacheRules::lifetime`]: crate::CacheRules::lifetime
    ///
    /// ```
    /// // s-maxage=5
    /// policy.lifetime(true)  // Some(5)
    /// policy.lifetime(false) // None
    /// ```
    pub fn lifetime(&self, shared: bool) -> Option<u64>
        ensures { result ≡ life self.now shared }
    {
        if shared {
            self.s_maxage.or(self.max_age)
        } else {
            self.max_age
        }
    }
}

impl Consumer for Directives {
    ghost use Rattle.std.specs.Prelude.{◌≡◌, Ok, IsOk};
    ghost use Rattle.sf_value.specs.declared.value.Kind.TheVariants as kind_is;
    ghost use Rattle.sf_value.specs.Grammar.Fields.{kind_of};
    ghost use Rattle.sf_field.specs.Meaning.{Gives};
    ghost use Rattle.sf_use.specs.Targeted.{directives};

    type Answer = Policy;

    const KIND: Kind = Kind::Dict;

    ghost KIND = { kind_is.Dict };

    ghost meaning = { λ _ field. Ok (directives field) };

    fn answer(&self, _alloc: Global, field: &Field) -> Result<Policy, UseFault>
        requires { kind_of field.now ≡ kind_is.Dict }
        // The answer is the directives of the Dictionary.
        ensures gives { Gives (Ok (directives field.now)) result }
        ensures succeeds { IsOk result }
    {
        match field {
            Field::Dict(dict) => Ok(Policy::from_dict(dict)),
            _ => unreachable!(),
        }
    }

    /// Returns the directives that [`Directives::scan`] reads; an empty Dictionary has none.
    fn answer_text(&self, alloc: Global, text: &[u8]) -> Option<Policy> {
        self.answer_text_in(alloc, Dialect::Rfc9651, text)
    }

    /// Returns the directives that [`Directives::scan_in`] reads; an empty Dictionary has none.
    fn answer_text_in(&self, _alloc: Global, dialect: Dialect, text: &[u8]) -> Option<Policy> {
        let policy = Directives::scan_in(dialect, text)?;
        Some(policy.unwrap_or(NO_DIRECTIVE))
    }
}

/// Reads a targeted field as an offer: its policy, or `None` if it is empty, so that the field is
/// ignored (RFC 9213 section 2.1).
struct Offer;

impl Consumer for Offer {
    ghost use Rattle.std.specs.Prelude.{◌≡◌, Ok, IsOk};
    ghost use Rattle.sf_value.specs.declared.value.Kind.TheVariants as kind_is;
    ghost use Rattle.sf_value.specs.Grammar.Fields.{kind_of};
    ghost use Rattle.sf_use.specs.TargetedChoice.{offer};

    type Answer = Option<Policy>;

    const KIND: Kind = Kind::Dict;

    ghost KIND = { kind_is.Dict };

    ghost meaning = { λ _ field. Ok (offer field) };

    fn answer(&self, _alloc: Global, field: &Field) -> Result<Option<Policy>, UseFault> {
        Ok(policy_in(field))
    }

    fn answer_text(&self, _alloc: Global, text: &[u8]) -> Option<Option<Policy>> {
        Directives::scan(text)
    }

    fn answer_text_in(
        &self,
        _alloc: Global,
        dialect: Dialect,
        text: &[u8],
    ) -> Option<Option<Policy>> {
        Directives::scan_in(dialect, text)
    }
}

/// Returns the field that a cache obeys: that of the first target whose field is present, spells a
/// Dictionary and is not empty (RFC 9213 section 2.2). Absent, refused and empty fields are passed
/// over (section 2.1); if no field remains, the result is `Fallback`. `OutOfMemory` means that an
/// allocation for a field failed; later fields are then not read. A field of 2^64 bytes or more,
/// which no memory can hold, has the same result. If no field of a target is present, the call does
/// not allocate.
///
/// ```
/// let targets = [HeaderName::from_static("cdn-cache-control")];
/// match select(alloc, &seed, &targets, &headers)? {
///     Choice::Field { index, policy } => ..
///     Choice::Fallback => ..
/// }
/// ```
pub fn select(
    alloc: Global,
    seed: &RandomState,
    targets: &[HeaderName],
    headers: &HeaderMap,
) -> Result<Choice, OutOfMemory>
    // The first target of the list whose field can be used, or Fallback if there is none.
    ensures chosen { IfOk result (IsChosen targets.now headers.now) }
    // OutOfMemory only for the field of a target that is present, if no target before it has a
    // field that can be used.
    ensures reached { IfErr result (λ _. IsReached targets.now headers.now) }
    // If no field of a target is present, the call does not allocate.
    ensures absent { All (λ name. ¬ (ContainsKey headers.now name)) targets.now
        → result ≡ Ok Fallback }
{
    select_in(alloc, seed, Dialect::Rfc9651, targets, headers)
}

/// Returns the field that a cache obeys, as [`select`] does, where the fields are those of a
/// dialect: a field that the dialect refuses is passed over. RFC 9213 cites RFC 8941, by which a
/// field with a Date or a Display String is refused.
///
/// ```
/// // cdn-cache-control: max-age=60, x=@1
/// select_in(alloc, &seed, Dialect::Rfc8941, &targets, &headers)? // Choice::Fallback
/// ```
pub fn select_in(
    alloc: Global,
    seed: &RandomState,
    dialect: Dialect,
    targets: &[HeaderName],
    headers: &HeaderMap,
) -> Result<Choice, OutOfMemory>
    // The first target of the list whose field can be used, or Fallback if there is none.
    ensures chosen { IfOk result (IsChosenIn dialect targets.now headers.now) }
    // OutOfMemory only for the field of a target that is present, if no target before it has a
    // field that can be used.
    ensures reached { IfErr result (λ _. IsReachedIn dialect targets.now headers.now) }
    // If no field of a target is present, the call does not allocate.
    ensures absent { All (λ name. ¬ (ContainsKey headers.now name)) targets.now
        → result ≡ Ok Fallback }
{
    for (index, target) in targets.iter().enumerate() {
        match offered(alloc, seed, dialect, target, headers)? {
            Some(policy) => return Ok(Choice::Field { index, policy }),
            None => {}
        }
    }
    Ok(Choice::Fallback)
}

/// Returns the policy after one more member, which overwrites what an earlier one with its key set.
#[inline]
pub(crate) fn policy_with(policy: Policy, member: EntryView) -> Policy
    ensures { (d : Which) (m : MemberValue) → ShowsMember d member.entry.bare m
        → result ≡ with_directive policy (member.entry.key.now, m) }
{
    if member.key == b"max-age".as_slice() {
        return Policy {
            max_age: seconds_of(member.as_integer()),
            ..policy
        };
    }
    if member.key == b"s-maxage".as_slice() {
        return Policy {
            s_maxage: seconds_of(member.as_integer()),
            ..policy
        };
    }
    if member.key == b"must-revalidate".as_slice() {
        return Policy {
            must_revalidate: is_set(member),
            ..policy
        };
    }
    if member.key == b"no-store".as_slice() {
        return Policy {
            no_store: is_set(member),
            ..policy
        };
    }
    if member.key == b"no-cache".as_slice() {
        return Policy {
            no_cache: is_set(member),
            ..policy
        };
    }
    if member.key == b"private".as_slice() {
        return Policy {
            is_private: is_set(member),
            ..policy
        };
    }
    policy
}

/// Returns whether a member is not an Item of Boolean false.
#[inline]
pub(crate) fn is_set(member: EntryView) -> bool
    ensures { (d : Which) (m : MemberValue) → ShowsMember d member.entry.bare m
        → result ≡ sets_by (boolean_in m) }
{
    member.as_boolean().unwrap_or(true)
}

/// Returns a number of seconds that is not negative.
#[inline]
pub(crate) fn seconds_of(number: Option<i64>) -> Option<u64>
    ensures { result ≡ seconds_by number }
{
    u64::try_from(number?).ok()
}

/// Returns the seconds that a member sets: an Integer that is not negative.
pub(crate) fn seconds(member: Option<&Member>) -> Option<u64>
    ensures { result ≡ delta_seconds (option_copied member.entry) }
{
    let number = member?.as_item()?.bare.as_integer()?;
    u64::try_from(number.get()).ok()
}

/// Returns whether a member is present and not an Item of Boolean false.
pub(crate) fn sets(member: Option<&Member>) -> bool
    ensures { result ≡ member_sets (option_copied member.entry) }
{
    match member {
        None => false,
        Some(Member::Inner(_)) => true,
        Some(Member::Item(item)) => match item.bare {
            Bare::Boolean(set) => set,
            _ => true,
        },
    }
}

/// Returns the policy of a field, if it has a member.
fn policy_in(field: &Field) -> Option<Policy>
    // The policy of a Dictionary with a member, otherwise None.
    ensures { MayOffer field.now result }
{
    let dict = field.as_dict()?;
    if dict.members.is_empty() {
        return None;
    }
    Some(Policy::from_dict(dict))
}

/// Returns what a field offers whose offer was asked for with this result; None if the field is
/// refused or empty.
pub(crate) fn offer_in<A: Drop>(
    asked: Result<Option<A>, AskFault>,
) -> Result<Option<A>, OutOfMemory>
    // A header map is in memory, so no read of a source failed; and each Dictionary has an answer.
    requires { IfErr asked IsOfTarget }
    // A refused or empty field is passed over; only an allocation that failed, and a field that no
    // memory can hold, are OutOfMemory.
    ensures { OffersAsAsked asked result }
{
    match asked {
        Ok(offer) => Ok(offer),
        Err(AskFault::Field(Refusal::Syntax { .. })) => Ok(None),
        Err(AskFault::Field(Refusal::OutOfMemory | Refusal::TooLong { .. })) => Err(OutOfMemory),
        Err(AskFault::Field(Refusal::ReadFault { .. })) => unreachable!(),
        Err(AskFault::Answer(UseFault::OutOfMemory)) => Err(OutOfMemory),
        Err(AskFault::Answer(UseFault::NotACache { .. })) => unreachable!(),
    }
}

/// Returns the policy of the field of a name; None if the field is absent, refused or empty.
fn offered(
    alloc: Global,
    seed: &RandomState,
    dialect: Dialect,
    name: &HeaderName,
    headers: &HeaderMap,
) -> Result<Option<Policy>, OutOfMemory>
    // The policy of the name's field if it can be used, otherwise None.
    ensures offer { IfOk result (IsOfferIn dialect headers.now name.now) }
    // OutOfMemory only if the name is present.
    ensures present { IfErr result (λ _. ContainsKey headers.now name.now) }
{
    if !headers.contains_key(name) {
        return Ok(None);
    }
    offer_in(ask_from_in(alloc, seed, dialect, &Offer, headers.get_all(name).iter()))
}
