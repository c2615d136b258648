//! Targeted cache control (RFC 9213).
ghost use Rattle.std.specs.Prelude.{◌≡◌, Some};
ghost use Rattle.sf_value.specs.declared.value.Dict.{Dict as Dictionary};
ghost use Rattle.sf_value.specs.declared.value.Field.TheVariants as field_is;
ghost use Rattle.sf_use.specs.TargetedChoice.{MayOffer};
ghost use Rattle.sf_c.specs.Policies.{Directs, LifeIs, SaysPolicy, SaysToCache};
ghost use Rattle.sf_c.specs.Policies.{policy_by, seconds_at};
ghost use Rattle.sf_c.specs.Statuses.{status_at};

use crate::call::parse_dict;
use crate::refusal::SyntaxRefusal;
use crate::seed::Seed;
use crate::status::Status;
use sf_use::{Directives, Policy};
use sf_value::{Dialect, Dict};
use std::alloc::Global;

/// The directives of a targeted field (RFC 9213 section 2.1). In C an `sf_policy`.
#[repr(C)]
#[derive(Clone, Copy, Debug, Drop)]
pub struct PolicyFlags {
    /// `max-age` in seconds; 0 if absent.
    pub max_age: u64,
    /// `s-maxage` in seconds; 0 if absent.
    pub s_maxage: u64,
    /// 1 if `max-age` is present with an Integer of at least 0, otherwise 0.
    pub has_max_age: u8,
    /// The same for `s-maxage`.
    pub has_s_maxage: u8,
    /// 1 if `must-revalidate` is set, otherwise 0.
    pub must_revalidate: u8,
    /// 1 if `no-store` is set, otherwise 0.
    pub no_store: u8,
    /// 1 if `no-cache` is set, otherwise 0.
    pub no_cache: u8,
    /// 1 if `private` is set, otherwise 0.
    pub is_private: u8,
}

impl PolicyFlags {
    /// The struct of a policy.
    pub(crate) fn of(policy: Policy) -> PolicyFlags
        // The struct has the policy as numbers, with 0 for absent seconds.
        ensures { SaysPolicy result policy }
    {
        PolicyFlags {
            max_age: policy.max_age.unwrap_or(0),
            s_maxage: policy.s_maxage.unwrap_or(0),
            has_max_age: u8::from(policy.max_age.is_some()),
            has_s_maxage: u8::from(policy.s_maxage.is_some()),
            must_revalidate: u8::from(policy.must_revalidate),
            no_store: u8::from(policy.no_store),
            no_cache: u8::from(policy.no_cache),
            is_private: u8::from(policy.is_private),
        }
    }

    /// The policy of the struct.
    pub(crate) fn policy(&self) -> Policy
        ensures { result ≡ policy_by self.now }
    {
        Policy {
            max_age: seconds_of(self.has_max_age, self.max_age),
            s_maxage: seconds_of(self.has_s_maxage, self.s_maxage),
            must_revalidate: self.must_revalidate != 0,
            no_store: self.no_store != 0,
            no_cache: self.no_cache != 0,
            is_private: self.is_private != 0,
        }
    }
}

/// The directives in the text of one targeted field (RFC 9213 section 2.1), by RFC 9651. Returns
/// `Answered` and sets `policy`; `Empty` if the Dictionary has no members, so that the next field
/// of the target list is used (section 2.2); `Refused` if the text spells no Dictionary, with the
/// refusal in `refusal`; or `OutOfMemory`.
#[unsafe(no_mangle)]
pub extern "C" fn sf_cache_control(
    alloc: Global,
    seed: &Seed,
    text: &[u8],
    policy: &mut PolicyFlags,
    refusal: &mut SyntaxRefusal,
) -> u32
    // The policy of a Dictionary; or Empty if it has no members; or why the text spells none.
    ensures { SaysToCache (record { policy = policy.old; refusal = refusal.old })
        (record { policy = policy.new; refusal = refusal.new }) text.now (status_at result) }
{
    direct(alloc, seed, text, policy, refusal).code()
}

/// Returns 1 and sets `seconds` to the freshness lifetime by this policy, in a shared cache if
/// `shared` is not 0, otherwise in a private one (RFC 9111 section 4.2.1); or returns 0 if the
/// policy has none, and leaves `seconds` unchanged. A directive whose value can't be used counts as
/// absent here, unlike for [`sf_decide`].
///
/// [`sf_decide`]: crate::sf_decide
#[unsafe(no_mangle)]
pub extern "C" fn sf_lifetime(policy: &PolicyFlags, shared: u32, seconds: &mut u64) -> u32
    // 1 and the lifetime by the policy, or 0 if the policy has none.
    ensures { LifeIs (policy_by policy.now) shared seconds.old seconds.new result }
{
    match policy.policy().lifetime(shared != 0) {
        Some(lifetime) => {
            *seconds = lifetime;
            1
        }
        None => 0,
    }
}

/// The seconds, if they are set.
pub(crate) fn seconds_of(has_seconds: u8, seconds: u64) -> Option<u64>
    ensures { result ≡ seconds_at has_seconds seconds }
{
    if has_seconds == 0 {
        None
    } else {
        Some(seconds)
    }
}

/// Writes the policy of a Dictionary, if it has a member.
fn offered(offer: Option<Policy>, policy: &mut PolicyFlags) -> Status
    // Whatever Dictionary offers this, it is Empty if it has no members; otherwise the struct has
    // its policy.
    ensures { (d : Dictionary) → MayOffer (field_is.Dict d) offer
        → Directs policy.old policy.new d result }
{
    match offer {
        Some(said) => {
            *policy = PolicyFlags::of(said);
            return Status::Answered;
        }
        None => return Status::Empty,
    }
}

/// Reads the policy of a Dictionary, which may have no members.
fn directed(dict: &Dict, policy: &mut PolicyFlags) -> Status
    // Empty if there are no members; otherwise the struct has the policy.
    ensures { Directs policy.old policy.new dict.now result }
{
    if dict.members.is_empty() {
        return Status::Empty;
    }
    *policy = PolicyFlags::of(Policy::from_dict(dict));
    Status::Answered
}

/// Reads the policy of a text.
pub(crate) fn direct(
    alloc: Global,
    seed: &Seed,
    text: &[u8],
    policy: &mut PolicyFlags,
    refusal: &mut SyntaxRefusal,
) -> Status
    // The policy of a Dictionary; or Empty if it has no members; or why the text spells none.
    ensures { SaysToCache (record { policy = policy.old; refusal = refusal.old })
        (record { policy = policy.new; refusal = refusal.new }) text.now (Some result) }
{
    if let Some(offer) = Directives::scan(text) {
        return offered(offer, policy);
    }
    policy_by_tree(alloc, seed, text, policy, refusal)
}

/// Reads the policy of a text that was declined, from the tree of its value. It is not inlined, so
/// that an accepted text doesn't pay for its stack.
#[inline(never)]
fn policy_by_tree(
    alloc: Global,
    seed: &Seed,
    text: &[u8],
    policy: &mut PolicyFlags,
    refusal: &mut SyntaxRefusal,
) -> Status
    // The policy of a Dictionary; or Empty if it has no members; or why the text spells none.
    ensures { SaysToCache (record { policy = policy.old; refusal = refusal.old })
        (record { policy = policy.new; refusal = refusal.new }) text.now (Some result) }
{
    match parse_dict(alloc, seed, Dialect::Rfc9651, text, refusal) {
        Ok(dict) => directed(&dict, policy),
        Err(status) => status,
    }
}
