//! Status codes (RFC 9110 section 15), by which a cache may store a response.
ghost use Rattle.std.specs.Prelude.{◌≡◌};
ghost use Rattle.sf_use.specs.Caching.{permits_storing};
ghost use Rattle.sf_lint.specs.StatusCodes.{is_defined as is_defined_in, is_final as is_final_in};
ghost use Rattle.sf_lint.specs.StatusCodes.{is_heuristic as is_heuristic_in, is_storable as is_storable_in};
ghost use Rattle.sf_lint.specs.StatusCodes.{rules_for as rules_in, status_code as status_code_in};

use crate::ages::delta_seconds;
use crate::head::{after_word, first_word};
use sf_use::{CacheKind, CacheRules};

/// Returns the status code of a status line (RFC 9112 section 4), if it has one of three digits.
pub(crate) fn status_code(line: &[u8]) -> Option<u64>
    ensures { result ≡ status_code_in line.now }
{
    let word = first_word(after_word(line));
    if word.len() != 3 {
        return None;
    }
    delta_seconds(word)
}

/// Whether a response with this code is final, and not an interim one.
fn is_final(code: u64) -> bool
    ensures { result ≡ is_final_in code }
{
    code >= 200
}

/// Whether RFC 9110 defines this code as heuristically cacheable (section 15.1).
fn is_heuristic(code: u64) -> bool
    ensures { result ≡ is_heuristic_in code }
{
    matches!(
        code,
        200 | 203 | 204 | 206 | 300 | 301 | 308 | 404 | 405 | 410 | 414 | 501
    )
}

/// Whether RFC 9110 defines this code, for a final response (sections 15.3 to 15.6).
fn is_defined(code: u64) -> bool
    ensures { result ≡ is_defined_in code }
{
    matches!(
        code,
        200..=206 | 300..=305 | 307..=308 | 400..=417 | 421..=422 | 426 | 500..=505
    )
}

/// Returns the rules for a cache that understands the codes that RFC 9110 defines.
pub(crate) fn rules_for(status: Option<u64>, rules: &CacheRules) -> CacheRules
    ensures { result ≡ rules_in status rules.now }
{
    match status {
        Some(code) if is_defined(code) => rules.understood(),
        _ => *rules,
    }
}

/// Whether the code is final, and a directive, `Expires` or the code permits to store the response
/// (RFC 9111 section 3). It is true without a code, since this is then not known.
pub(crate) fn is_storable(
    status: Option<u64>,
    rules: &CacheRules,
    cache: CacheKind,
    expires: Option<u64>,
) -> bool
    ensures { result ≡ is_storable_in status rules.now cache expires }
{
    match status {
        Some(code) => {
            is_final(code)
                && (rules.allows_storing(cache) || expires.is_some() || is_heuristic(code))
        }
        None => true,
    }
}
