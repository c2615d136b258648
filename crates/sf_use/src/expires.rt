//! `Expires` and `Date` (RFC 9111 section 5.3): the lifetime of a response whose directives set
//! none.
ghost use Rattle.std.specs.Prelude.{◌≡◌, ℕ, Option};
ghost use Rattle.std.specs.Option.{option_copied};
ghost use Rattle.sf_use.specs.Expires.{IsExpiresLifetime, IsExpiresOf, IsLifetimeOfLines, IsMade};
ghost use Rattle.sf_use.specs.Expires.{IsTime, seconds_until, sole_line};

use http_header::{DATE, EXPIRES, HeaderMap};
use httpdate::HttpDate;
use sf_field::FieldLines;

/// Returns the freshness lifetime that `Expires` sets, in seconds: its value less that of `Date`
/// (RFC 9111 section 4.2.1), or 0 if it is not after that. An `Expires` that is no HTTP-date (RFC
/// 9110 section 5.6.7), such as `0`, is in the past (RFC 9111 section 5.3), and so is the joined
/// text of several lines. Without a `Date` that is an HTTP-date, the time at which the response was
/// received counts, in seconds since 1970. Does not allocate.
///
/// ```
/// let lifetime = expires_lifetime(expires, Some(date), received);
/// let decision = rules.decide_with(CacheKind::Shared, Some(lifetime), age);
/// ```
pub fn expires_lifetime(expires: &[u8], date: Option<&[u8]>, received: u64) -> u64
    ensures { IsExpiresLifetime expires.now (option_copied date.entry) received result }
{
    seconds_to(expires, made_at(date, received))
}

/// Returns the lifetime that `Expires` and `Date` of a response set, as [`expires_lifetime`] does:
/// what [`crate::CacheRules::decide_with`] takes after [`crate::fallback_rules`]. `None` if the
/// response has no `Expires`. With several lines of `Expires` it is stale (RFC 9111 section 4.2.1),
/// so the lifetime is 0; several lines of `Date` count as none. Does not allocate.
///
/// ```
/// let rules = fallback_rules(&headers);
/// rules.decide_with(CacheKind::Shared, expires_of(&headers, received), age)
/// ```
pub fn expires_of(headers: &HeaderMap, received: u64) -> Option<u64>
    // The lifetime that the one line of Expires sets, or 0 if there are several.
    ensures { IsExpiresOf headers.now received result }
{
    let expires = headers.get_all(&EXPIRES).iter();
    lifetime_of(expires, headers.get_all(&DATE).iter(), received)
}

/// Returns the lifetime that lines of `Expires` and of `Date` set.
fn lifetime_of<'a, L: FieldLines<'a>>(expires: L, dates: L, received: u64) -> Option<u64>
    ensures { IsLifetimeOfLines (L.lines expires) (sole_line (L.lines dates)) received result }
{
    let mut lines = expires;
    let line = lines.next_line()?;
    match lines.next_line() {
        Some(_) => return Some(0),
        None => return Some(seconds_to(line, made_by(dates, received))),
    }
}

/// Returns when a response with these lines of `Date` was made.
fn made_by<'a, L: FieldLines<'a>>(dates: L, received: u64) -> u64
    ensures { IsMade (sole_line (L.lines dates)) received result }
{
    let mut lines = dates;
    let Some(date) = lines.next_line() else {
        return received;
    };
    match lines.next_line() {
        Some(_) => return received,
        None => return http_time(date).unwrap_or(received),
    }
}

/// Returns the seconds from this time to `Expires`.
fn seconds_to(expires: &[u8], made: u64) -> u64
    ensures { (time : Option ℕ) × IsTime expires.now time × (result ≡ seconds_until time made) }
{
    let Some(expired) = http_time(expires) else {
        return 0;
    };
    expired.saturating_sub(made)
}

/// Returns when a response with this `Date` was made.
fn made_at(date: Option<&[u8]>, received: u64) -> u64
    ensures { IsMade (option_copied date.entry) received result }
{
    let Some(date) = date else {
        return received;
    };
    http_time(date).unwrap_or(received)
}

/// Returns the seconds since 1970 that an HTTP-date shows (RFC 9110 section 5.6.7), in one of its
/// three formats; `None` for another text. An HTTP-date is read only from 1970 on, with letters in
/// the case of the RFC, the right day of the week and a second below 60. A year of two digits is
/// one from 1970 to 2069. Does not allocate.
///
/// ```
/// http_time(b"Sun, 06 Nov 1994 08:49:37 GMT") // 784111777
/// http_time(b"0") // None
/// ```
pub fn http_time(text: &[u8]) -> Option<u64>
    ensures { IsTime text.now result }
{
    match HttpDate::parse_ascii(text) {
        Ok(date) => return Some(date.unix_secs()),
        Err(_) => return None,
    }
}
