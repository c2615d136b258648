//! The directives of a targeted field (RFC 9213) for the decision of a cache.
ghost use Rattle.std.specs.Prelude.{◌≡◌, Some};
ghost use Rattle.sf_value.specs.declared.value.Dict.{Dict as Dictionary};
ghost use Rattle.sf_value.specs.declared.value.Field.TheVariants as field_is;
ghost use Rattle.sf_use.specs.TargetedRules.{MayOfferRules};
ghost use Rattle.sf_c.specs.Calls.{ChecksDialect, dialect_at};
ghost use Rattle.sf_c.specs.Rules.{Rules, SaysRules, RulesCache, rules_by};
ghost use Rattle.sf_c.specs.Statuses.{status_at};

use crate::cache_control::PolicyFlags;
use crate::call::{dialect_of, parse_dict};
use crate::refusal::SyntaxRefusal;
use crate::seed::Seed;
use crate::status::Status;
use sf_use::CacheRules;
use sf_value::{Dialect, Dict};
use std::alloc::Global;

/// The directives that decide how a cache handles a response (RFC 9111 section 5.2.2). In C an
/// `sf_rules`.
#[repr(C)]
#[derive(Clone, Copy, Debug, Drop)]
pub struct RulesFlags {
    /// The directives of a policy.
    pub policy: PolicyFlags,
    /// 1 if `max-age` is present, but can't be used, otherwise 0.
    pub invalid_max_age: u8,
    /// The same for `s-maxage`.
    pub invalid_s_maxage: u8,
    /// 1 if `proxy-revalidate` is set, otherwise 0.
    pub proxy_revalidate: u8,
    /// 1 if `must-understand` is set, otherwise 0.
    pub must_understand: u8,
    /// 1 if `public` is set, otherwise 0.
    pub is_public: u8,
}

impl RulesFlags {
    /// The struct of the directives.
    pub(crate) fn of(rules: CacheRules) -> RulesFlags
        ensures { SaysRules result rules }
    {
        RulesFlags {
            policy: PolicyFlags::of(rules.policy),
            invalid_max_age: u8::from(rules.invalid_max_age),
            invalid_s_maxage: u8::from(rules.invalid_s_maxage),
            proxy_revalidate: u8::from(rules.proxy_revalidate),
            must_understand: u8::from(rules.must_understand),
            is_public: u8::from(rules.is_public),
        }
    }

    /// The directives of the struct.
    pub(crate) fn rules(&self) -> CacheRules
        ensures { result ≡ rules_by self.now }
    {
        CacheRules {
            policy: self.policy.policy(),
            invalid_max_age: self.invalid_max_age != 0,
            invalid_s_maxage: self.invalid_s_maxage != 0,
            proxy_revalidate: self.proxy_revalidate != 0,
            must_understand: self.must_understand != 0,
            is_public: self.is_public != 0,
        }
    }
}

/// The directives in the text of one targeted field (RFC 9213 section 2.1), for [`sf_decide`].
/// Returns `Answered` and sets `rules`; `Empty` if the Dictionary has no members, so that the next
/// field of the target list is used (section 2.2); `Refused` if the text spells no Dictionary, with
/// the refusal in `refusal`; `OutOfMemory`; or `BadCall` for a number that is no dialect.
///
/// [`sf_decide`]: crate::sf_decide
#[unsafe(no_mangle)]
pub extern "C" fn sf_cache_rules(
    alloc: Global,
    seed: &Seed,
    dialect: u32,
    text: &[u8],
    rules: &mut RulesFlags,
    refusal: &mut SyntaxRefusal,
) -> u32
    // BadCall if and only if the number is no dialect; otherwise the directives of a Dictionary; or
    // Empty if it has no members; or why the text spells none.
    ensures { ChecksDialect (dialect_at dialect) (status_at result)
        (λ old new. RulesCache old new text.now)
        (record { rules = rules.old; refusal = refusal.old })
        (record { rules = rules.new; refusal = refusal.new }) }
{
    let Some(dialect) = dialect_of(dialect) else {
        return Status::BadCall.code();
    };
    rule(alloc, seed, dialect, text, rules, refusal).code()
}

/// Writes the directives of a Dictionary, if it has a member.
fn offered(offer: Option<CacheRules>, rules: &mut RulesFlags) -> Status
    // Whatever Dictionary offers this, it is Empty if it has no members; otherwise the struct has
    // its directives.
    ensures { (d : Dictionary) → MayOfferRules (field_is.Dict d) offer
        → Rules rules.old rules.new d result }
{
    match offer {
        Some(said) => {
            *rules = RulesFlags::of(said);
            return Status::Answered;
        }
        None => return Status::Empty,
    }
}

/// Reads the directives of a Dictionary, which may have no members.
fn ruled(dict: &Dict, rules: &mut RulesFlags) -> Status
    // Empty if there are no members; otherwise the struct has the directives.
    ensures { Rules rules.old rules.new dict.now result }
{
    if dict.members.is_empty() {
        return Status::Empty;
    }
    *rules = RulesFlags::of(CacheRules::from_dict(dict));
    Status::Answered
}

/// Reads the directives of a text.
pub(crate) fn rule(
    alloc: Global,
    seed: &Seed,
    dialect: Dialect,
    text: &[u8],
    rules: &mut RulesFlags,
    refusal: &mut SyntaxRefusal,
) -> Status
    // The directives of a Dictionary; or Empty if it has no members; or why the text spells none.
    ensures { RulesCache (record { rules = rules.old; refusal = refusal.old })
        (record { rules = rules.new; refusal = refusal.new }) text.now dialect result }
{
    if let Some(offer) = CacheRules::scan_in(dialect, text) {
        return offered(offer, rules);
    }
    rules_by_tree(alloc, seed, dialect, text, rules, refusal)
}

/// Reads the directives of a text that was declined, from the tree of its value. It is not inlined,
/// so that an accepted text doesn't pay for its stack.
#[inline(never)]
fn rules_by_tree(
    alloc: Global,
    seed: &Seed,
    dialect: Dialect,
    text: &[u8],
    rules: &mut RulesFlags,
    refusal: &mut SyntaxRefusal,
) -> Status
    // The directives of a Dictionary; or Empty if it has no members; or why the text spells none.
    ensures { RulesCache (record { rules = rules.old; refusal = refusal.old })
        (record { rules = rules.new; refusal = refusal.new }) text.now dialect result }
{
    match parse_dict(alloc, seed, dialect, text, refusal) {
        Ok(dict) => ruled(&dict, rules),
        Err(status) => status,
    }
}
