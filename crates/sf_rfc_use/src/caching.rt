//! Laws of what a cache decides (RFC 9111 sections 3, 3.5, 4.2, 5.2.2, 5.2.3 and 5.3), each as the
//! contract of a function that does nothing. [`reuse`] uses the calls of `sf_use`, with the RFC's
//! sentences as its contract.
ghost use Rattle.std.specs.Prelude.{◌≡◌, if◌then◌else◌, MatchOption};
ghost use Rattle.sf_use.specs.CacheControl.{IsNoCacheControl};
ghost use Rattle.sf_use.specs.Caching.{understood};
ghost use Rattle.sf_rfc_use.specs.CachingLaws.{AuthorizedAsAllowed, ExpiresAsStated};
ghost use Rattle.sf_rfc_use.specs.CachingLaws.{FreshAsCalculated, FreshIsUsed, MaxAgeAsStated};
ghost use Rattle.sf_rfc_use.specs.CachingLaws.{StaleAsCalculated, StaleAsPermitted};
ghost use Rattle.sf_rfc_use.specs.CachingLaws.{StoredAsAllowed, StoringAsAllowed};
ghost use Rattle.sf_rfc_use.specs.CachingLaws.{UnrecognizedIgnored, UnspecifiedAsStated};
ghost use Rattle.sf_rfc_use.specs.CachingLaws.{IsUseOfText, UsedAsStated, situation};
ghost use Rattle.sf_rfc_use.specs.CachingLaws.{ValidatedAsRequired, ValidatedOnlyAsRequired};

use sf_use::{CacheKind, CacheRules, Reuse};

/// For all directives of `Cache-Control`, caches, ages and values of `Expires`: a response that is
/// stored may be stored (section 3). One that may be stored is stored, except by a shared cache one
/// that has `private` with field names. What permits to store a response, or to use it for a
/// request with `Authorization`, is what sections 3 and 3.5 list.
pub fn storing_agrees()
    ensures stored { StoredAsAllowed }
    ensures allowed { StoringAsAllowed }
    ensures authorized { AuthorizedAsAllowed }
{}

/// A response that must be validated is never used without (section 5.2.2.4), and a stale one is
/// served only if no directive prohibits it (sections 4.2.4, 5.2.2.2, 5.2.2.8 and 5.2.2.10). A
/// response has to be validated only for one of these two reasons, or if it has `no-cache` with
/// field names.
pub fn validation_agrees()
    ensures validated { ValidatedAsRequired }
    ensures stale { StaleAsPermitted }
    ensures only { ValidatedOnlyAsRequired }
{}

/// A response is used as fresh exactly if its lifetime is greater than its age (sections 4.2 and
/// 4.2.1), and for as many seconds as are left of it, unless it is not stored or has `no-cache`. It
/// is not fresh after its age is greater than `max-age` (section 5.2.2.1), nor when it is equal,
/// unless the cache is shared and the response has `s-maxage`.
pub fn freshness_agrees()
    ensures calculated { FreshAsCalculated }
    ensures used { FreshIsUsed }
    ensures max_age { MaxAgeAsStated }
{}

/// What is served as stale is stale (section 4.2.4), and a response whose freshness information is
/// invalid is stale (section 4.2.1). Nothing is decided exactly if no explicit expiration time is
/// present, unless the response is not stored or has `no-cache`.
pub fn staleness_agrees()
    ensures calculated { StaleAsCalculated }
    ensures unspecified { UnspecifiedAsStated }
{}

/// `Expires` changes nothing where a directive takes precedence over it (section 5.3), and neither
/// do directives that are not recognized (section 5.2.3).
pub fn ignoring_agrees()
    ensures expires { ExpiresAsStated }
    ensures unrecognized { UnrecognizedIgnored }
{}

/// For all directives of `Cache-Control`, caches, ages and values of `Expires`: each use that is
/// decided has the reasons that the RFC gives for it.
pub fn uses_agree()
    ensures { UsedAsStated }
{}

/// Returns how a cache uses a response with this `Cache-Control`, by the sentences of the RFC; None
/// if it is no list of directives. `understands`: the cache understands the status code. `expires`:
/// `Expires` less `Date`, in seconds. `age`: the age of the response, in seconds. Does not
/// allocate.
///
/// ```
/// reuse(b"max-age=60", CacheKind::Shared, true, None, 15) // Some(Reuse::Fresh { seconds: 45 })
/// ```
pub fn reuse(
    text: &[u8],
    cache: CacheKind,
    understands: bool,
    expires: Option<u64>,
    age: u64,
) -> Option<Reuse>
    ensures { MatchOption result (IsNoCacheControl text.now)
        (IsUseOfText (situation cache understands age expires) text.now) }
{
    let written = CacheRules::of_cache_control(text)?;
    let rules = rules_for(written, understands);
    Some(rules.decide_with(cache, expires, age).reuse)
}

/// Returns the rules for a cache that understands the status code, or doesn't.
fn rules_for(rules: CacheRules, understands: bool) -> CacheRules
    ensures { result ≡ if understands then understood rules else rules }
{
    if understands {
        return rules.understood();
    }
    rules
}
