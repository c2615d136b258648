//! The directives of a targeted field (RFC 9213) for the decision of a cache
//! ([`CacheRules::decide`]), and of the field of a target list that it obeys.
ghost use Rattle.std.specs.Prelude.{◌≡◌, All, Ok, IfOk, IfErr, IfSome};
ghost use Rattle.std.specs.Option.{option_copied};
ghost use Rattle.http_header.specs.HeaderMap.{ContainsKey};
ghost use Rattle.sf_use.specs.Scanning.{IsScanned, IsScannedIn};
ghost use Rattle.sf_use.specs.Targeted.{is_set as member_sets};
ghost use Rattle.sf_use.specs.TargetedChoice.{IsReached, IsReachedIn};
ghost use Rattle.sf_use.specs.TargetedRules.{IsRulesChosen, IsRulesChosenIn, IsRulesOfferIn};
ghost use Rattle.sf_use.specs.TargetedRules.{MayOfferRules, is_invalid as is_invalid_member};
ghost use Rattle.sf_use.specs.TargetedRules.{permits as member_permits, rules as rules_of};
ghost use Rattle.sf_use.specs.TargetedRules.{with_rule};
ghost use Rattle.sf_use.specs.declared.targeted_rules.RulesChoice.TheVariants.{Fallback};
ghost use Rattle.sf_value.specs.declared.dialect.Dialect.{Dialect as Which};
ghost use Rattle.sf_value.specs.declared.value.Member.{Member as MemberValue};
ghost use Rattle.sf_view.specs.Overwriting.{overwritten};
ghost use Rattle.sf_view.specs.Reads.{ShowsMember};

use crate::caching::CacheRules;
use crate::targeted::{
    NO_DIRECTIVE, Policy, is_set, offer_in, policy_with, seconds, seconds_of, sets,
};
use http_header::{HeaderMap, HeaderName};
use sf_field::{Consumer, UseFault, ask_from_in};
use sf_value::{Dialect, Dict, Field, Kind, Member, OutOfMemory};
use sf_view::{DictCursor, EntryView};
use std::alloc::Global;
use std::hash::RandomState;

/// Reads a targeted field (RFC 9213 section 2.1), a Dictionary, for the decision of a cache.
/// `answer`, `answer_text` and `answer_text_in` do not allocate.
///
/// ```
/// let rules = ask(alloc, &seed, &TargetedRules, lines.as_slice())?;
/// let decision = rules.decide(CacheKind::Shared, age);
/// ```
#[derive(Clone, Copy, Debug, Default, PartialEq, Eq)]
pub struct TargetedRules;

/// Which field of a target list a cache obeys (RFC 9213 section 2.2), with what decides.
#[derive(Clone, Copy, Debug, PartialEq, Eq)]
pub enum RulesChoice {
    /// The field of a target.
    Field {
        /// The index of the target in the list, from 0.
        index: usize,
        /// The directives of the field.
        rules: CacheRules,
    },
    /// No target has a field that can be used: `Cache-Control` and `Expires` decide.
    Fallback,
}

/// Rules without directives.
pub(crate) const NO_RULE: CacheRules = CacheRules {
    policy: NO_DIRECTIVE,
    invalid_max_age: false,
    invalid_s_maxage: false,
    proxy_revalidate: false,
    must_understand: false,
    is_public: false,
};

impl CacheRules {
    /// Returns the directives of a Dictionary, as [`Policy::from_dict`] does. `max-age` and
    /// `s-maxage` are invalid if they are present and not an Integer that is not negative (RFC 9111
    /// section 4.2.1). `public` and `must-understand`, which permit to store, are set only by
    /// Boolean true (RFC 9213 section 2.1). Does not allocate.
    ///
    /// ```
    /// // s-maxage=1.5, max-age=600
    /// let rules = CacheRules::from_dict(&dict);
    /// assert_eq!(rt; rules.invalid_s_maxage, true);
    /// ```
    pub fn from_dict(dict: &Dict) -> CacheRules
        ensures { result ≡ rules_of dict.now }
    {
        CacheRules {
            policy: Policy::from_dict(dict),
            invalid_max_age: is_invalid(dict.get(b"max-age")),
            invalid_s_maxage: is_invalid(dict.get(b"s-maxage")),
            proxy_revalidate: sets(dict.get(b"proxy-revalidate")),
            must_understand: permits(dict.get(b"must-understand")),
            is_public: permits(dict.get(b"public")),
        }
    }

    /// Reads the text of one targeted field in one pass, and returns its directives, as
    /// [`CacheRules::from_dict`] does for its Dictionary, or `Some(None)` if the Dictionary is
    /// empty, so that the field is ignored (RFC 9213 section 2.1). Does not allocate. `None` claims
    /// nothing.
    ///
    /// ```
    /// let rules = CacheRules::scan(b"max-age=60, no-cache")??;
    /// rules.decide(CacheKind::Shared, 0) // MustRevalidate, by NoCache
    /// ```
    pub fn scan(text: &[u8]) -> Option<Option<CacheRules>>
        // The text spells a Dictionary, and no other value, and these are its rules, if it has a
        // member.
        ensures { IfSome result (IsScanned MayOfferRules text.now) }
    {
        CacheRules::scan_in(Dialect::Rfc9651, text)
    }

    /// Reads the text of one targeted field in a dialect, as [`CacheRules::scan`] does. RFC 9213
    /// cites RFC 8941, by which a text with a Date or a Display String is refused.
    ///
    /// ```
    /// CacheRules::scan_in(Dialect::Rfc8941, b"no-cache, x=@1") // None
    /// ```
    pub fn scan_in(dialect: Dialect, text: &[u8]) -> Option<Option<CacheRules>>
        // In the dialect the text spells a Dictionary, and no other value, and these are its rules,
        // if it has a member.
        ensures { IfSome result (IsScannedIn dialect MayOfferRules text.now) }
    {
        let mut cursor = DictCursor::new(dialect, text);
        let mut rules = None;
        while let Some(member) = cursor.next()? {
            rules = Some(rules_with(rules.unwrap_or(NO_RULE), member));
        }
        Some(rules)
    }
}

impl Consumer for TargetedRules {
    ghost use Rattle.std.specs.Prelude.{◌≡◌, Ok, IsOk};
    ghost use Rattle.sf_value.specs.declared.value.Kind.TheVariants as kind_is;
    ghost use Rattle.sf_value.specs.Grammar.Fields.{kind_of};
    ghost use Rattle.sf_field.specs.Meaning.{Gives};
    ghost use Rattle.sf_use.specs.TargetedRules.{field_rules};

    type Answer = CacheRules;

    const KIND: Kind = Kind::Dict;

    ghost KIND = { kind_is.Dict };

    ghost meaning = { λ _ field. Ok (field_rules field) };

    fn answer(&self, _alloc: Global, field: &Field) -> Result<CacheRules, UseFault>
        requires { kind_of field.now ≡ kind_is.Dict }
        // The answer is the rules of the Dictionary.
        ensures gives { Gives (Ok (field_rules field.now)) result }
        ensures succeeds { IsOk result }
    {
        match field {
            Field::Dict(dict) => Ok(CacheRules::from_dict(dict)),
            _ => unreachable!(),
        }
    }

    /// Returns the directives that [`CacheRules::scan`] reads; an empty Dictionary has none.
    fn answer_text(&self, alloc: Global, text: &[u8]) -> Option<CacheRules> {
        self.answer_text_in(alloc, Dialect::Rfc9651, text)
    }

    /// Returns the directives that [`CacheRules::scan_in`] reads; an empty Dictionary has none.
    fn answer_text_in(&self, _alloc: Global, dialect: Dialect, text: &[u8]) -> Option<CacheRules> {
        let rules = CacheRules::scan_in(dialect, text)?;
        Some(rules.unwrap_or(NO_RULE))
    }
}

/// Reads a targeted field as an offer: its rules, or `None` if it is empty, so that the field is
/// ignored (RFC 9213 section 2.1).
struct RulesOffer;

impl Consumer for RulesOffer {
    ghost use Rattle.std.specs.Prelude.{◌≡◌, Ok, IsOk};
    ghost use Rattle.sf_value.specs.declared.value.Kind.TheVariants as kind_is;
    ghost use Rattle.sf_value.specs.Grammar.Fields.{kind_of};
    ghost use Rattle.sf_use.specs.TargetedChoice.{offer_by};
    ghost use Rattle.sf_use.specs.TargetedRules.{rules};

    type Answer = Option<CacheRules>;

    const KIND: Kind = Kind::Dict;

    ghost KIND = { kind_is.Dict };

    ghost meaning = { λ _ field. Ok (offer_by rules field) };

    fn answer(&self, _alloc: Global, field: &Field) -> Result<Option<CacheRules>, UseFault> {
        Ok(rules_in(field))
    }

    fn answer_text(&self, _alloc: Global, text: &[u8]) -> Option<Option<CacheRules>> {
        CacheRules::scan(text)
    }

    fn answer_text_in(
        &self,
        _alloc: Global,
        dialect: Dialect,
        text: &[u8],
    ) -> Option<Option<CacheRules>> {
        CacheRules::scan_in(dialect, text)
    }
}

/// Returns the field that a cache obeys, as [`crate::select`] does, with the directives that decide
/// how it handles the response. `Fallback` and `OutOfMemory` are returned as by that call.
///
/// ```
/// let targets = [HeaderName::from_static("cdn-cache-control")];
/// match select_rules(alloc, &seed, &targets, &headers)? {
///     RulesChoice::Field { rules, .. } => rules.decide(CacheKind::Shared, age),
///     RulesChoice::Fallback => ..
/// }
/// ```
pub fn select_rules(
    alloc: Global,
    seed: &RandomState,
    targets: &[HeaderName],
    headers: &HeaderMap,
) -> Result<RulesChoice, OutOfMemory>
    // The first target of the list whose field can be used, or Fallback if there is none.
    ensures chosen { IfOk result (IsRulesChosen targets.now headers.now) }
    // OutOfMemory only for the field of a target that is present, if no target before it has a
    // field that can be used.
    ensures reached { IfErr result (λ _. IsReached targets.now headers.now) }
    // If no field of a target is present, the call does not allocate.
    ensures absent { All (λ name. ¬ (ContainsKey headers.now name)) targets.now
        → result ≡ Ok Fallback }
{
    select_rules_in(alloc, seed, Dialect::Rfc9651, targets, headers)
}

/// Returns the field that a cache obeys, as [`select_rules`] does, where the fields are those of a
/// dialect: a field that the dialect refuses is passed over, as by [`crate::select_in`].
///
/// ```
/// // cdn-cache-control: max-age=60, x=@1
/// select_rules_in(alloc, &seed, Dialect::Rfc8941, &targets, &headers)? // RulesChoice::Fallback
/// ```
pub fn select_rules_in(
    alloc: Global,
    seed: &RandomState,
    dialect: Dialect,
    targets: &[HeaderName],
    headers: &HeaderMap,
) -> Result<RulesChoice, OutOfMemory>
    // The first target of the list whose field can be used, or Fallback if there is none.
    ensures chosen { IfOk result (IsRulesChosenIn dialect targets.now headers.now) }
    // OutOfMemory only for the field of a target that is present, if no target before it has a
    // field that can be used.
    ensures reached { IfErr result (λ _. IsReachedIn dialect targets.now headers.now) }
    // If no field of a target is present, the call does not allocate.
    ensures absent { All (λ name. ¬ (ContainsKey headers.now name)) targets.now
        → result ≡ Ok Fallback }
{
    for (index, target) in targets.iter().enumerate() {
        match offered_rules(alloc, seed, dialect, target, headers)? {
            Some(rules) => return Ok(RulesChoice::Field { index, rules }),
            None => {}
        }
    }
    Ok(RulesChoice::Fallback)
}

/// Returns the rules after one more member, which overwrites what an earlier one with its key set.
#[inline]
fn rules_with(rules: CacheRules, member: EntryView) -> CacheRules
    ensures { (d : Which) (m : MemberValue) → ShowsMember d member.entry.bare m
        → result ≡ with_rule rules (member.entry.key.now, m) }
{
    CacheRules {
        policy: policy_with(rules.policy, member),
        invalid_max_age: invalid_with(rules.invalid_max_age, member, b"max-age"),
        invalid_s_maxage: invalid_with(rules.invalid_s_maxage, member, b"s-maxage"),
        proxy_revalidate: set_with(rules.proxy_revalidate, member, b"proxy-revalidate"),
        must_understand: permits_with(rules.must_understand, member, b"must-understand"),
        is_public: permits_with(rules.is_public, member, b"public"),
    }
}

/// Returns whether the directive of a key is set, after one more member.
#[inline]
fn set_with(was_set: bool, member: EntryView, key: &[u8]) -> bool
    ensures { (d : Which) (m : MemberValue) → ShowsMember d member.entry.bare m
        → result ≡ overwritten member_sets key.now was_set (member.entry.key.now, m) }
{
    if key == member.key {
        return is_set(member);
    }
    was_set
}

/// Returns whether the directive of a key permits what it stands for, after one more member.
#[inline]
fn permits_with(was_permitted: bool, member: EntryView, key: &[u8]) -> bool
    ensures { (d : Which) (m : MemberValue) → ShowsMember d member.entry.bare m
        → result ≡ overwritten member_permits key.now was_permitted (member.entry.key.now, m) }
{
    if key == member.key {
        return member.as_boolean().unwrap_or(false);
    }
    was_permitted
}

/// Returns whether the directive of a key is invalid, after one more member.
#[inline]
fn invalid_with(was_invalid: bool, member: EntryView, key: &[u8]) -> bool
    ensures { (d : Which) (m : MemberValue) → ShowsMember d member.entry.bare m
        → result ≡ overwritten is_invalid_member key.now was_invalid (member.entry.key.now, m) }
{
    if key == member.key {
        return seconds_of(member.as_integer()).is_none();
    }
    was_invalid
}

/// Returns whether a member is an Item of Boolean true.
fn permits(member: Option<&Member>) -> bool
    ensures { result ≡ member_permits (option_copied member.entry) }
{
    match member {
        Some(Member::Item(item)) => item.bare.as_boolean().unwrap_or(false),
        _ => false,
    }
}

/// Returns whether a member is present, but no number of seconds.
fn is_invalid(member: Option<&Member>) -> bool
    ensures { result ≡ is_invalid_member (option_copied member.entry) }
{
    member.is_some() && seconds(member).is_none()
}

/// Returns the rules of a field, if it has a member.
fn rules_in(field: &Field) -> Option<CacheRules>
    // The rules of a Dictionary with a member, otherwise None.
    ensures { MayOfferRules field.now result }
{
    let dict = field.as_dict()?;
    if dict.members.is_empty() {
        return None;
    }
    Some(CacheRules::from_dict(dict))
}

/// Returns the rules of the field of a name; None if the field is absent, refused or empty.
fn offered_rules(
    alloc: Global,
    seed: &RandomState,
    dialect: Dialect,
    name: &HeaderName,
    headers: &HeaderMap,
) -> Result<Option<CacheRules>, OutOfMemory>
    // The rules of the name's field if it can be used, otherwise None.
    ensures offer { IfOk result (IsRulesOfferIn dialect headers.now name.now) }
    // OutOfMemory only if the name is present.
    ensures present { IfErr result (λ _. ContainsKey headers.now name.now) }
{
    if !headers.contains_key(name) {
        return Ok(None);
    }
    offer_in(ask_from_in(
        alloc,
        seed,
        dialect,
        &RulesOffer,
        headers.get_all(name).iter(),
    ))
}
