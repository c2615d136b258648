//! What a cache decides by if no field of its target list does (RFC 9213 section 2.2):
//! `Cache-Control`, and `Expires` less `Date`.
ghost use Rattle.std.specs.Prelude.{◌≡◌, Some};
ghost use Rattle.sf_use.specs.CacheControl.{refused_rules};
ghost use Rattle.sf_c.specs.Fallbacks.{AddsLine, HasDirectives, HasTime, IsLifetimeOfFields};
ghost use Rattle.sf_c.specs.Fallbacks.{ReportsRefused, SetsLifetime, TakesLine, fallback_field_at};
ghost use Rattle.sf_c.specs.Fallbacks.{lifetime_by, time_by};
ghost use Rattle.sf_c.specs.Statuses.{status_at};

use crate::cache_rules::RulesFlags;
use crate::decide::Response;
use crate::status::Status;
use sf_use::{CacheRules, Policy, http_time};

/// The time of a field with one date, `Expires` or `Date`, by the lines so far. In C an `sf_time`;
/// it begins with zeros.
#[repr(C)]
#[derive(Clone, Copy, Debug, Drop)]
pub struct Time {
    /// The seconds since 1970; 0 unless `lines` is 1.
    pub seconds: u64,
    /// 0 without a line, 1 if the only line is an HTTP-date, otherwise 2.
    pub lines: u32,
}

/// What a cache decides by if no field of its target list does, by the lines so far. In C an
/// `sf_fallback`; it begins with zeros.
#[repr(C)]
#[derive(Clone, Copy, Debug, Drop)]
pub struct Fallback {
    /// The directives of `Cache-Control`; those of `no-store` if it is refused.
    pub rules: RulesFlags,
    /// The time of `Expires`.
    pub expires: Time,
    /// The time of `Date`.
    pub date: Time,
    /// 1 if a line of `Cache-Control` is no list of directives, otherwise 0.
    pub is_refused: u32,
}

/// A field by which a cache decides then.
#[derive(Clone, Copy, Debug)]
enum FallbackField {
    /// `Cache-Control`.
    CacheControl,
    /// `Expires`.
    Expires,
    /// `Date`.
    Date,
}

impl Time {
    /// The time with one more line.
    fn with(self, line: &[u8]) -> Time
        ensures { TakesLine HasTime self result line.now }
    {
        if self.lines != 0 {
            return Time::NONE;
        }
        match http_time(line) {
            Some(seconds) => Time { seconds, lines: 1 },
            None => Time::NONE,
        }
    }

    /// No time, though there is a line.
    const NONE: Time = Time {
        seconds: 0,
        lines: 2,
    };

    /// The seconds since 1970, if there is a time.
    fn time(self) -> Option<u64>
        ensures { result ≡ time_by self }
    {
        if self.lines == 1 {
            Some(self.seconds)
        } else {
            None
        }
    }
}

impl Fallback {
    /// The lifetime that `Expires` sets.
    fn lifetime(&self, received: u64) -> Option<u64>
        ensures { result ≡ lifetime_by self.now received }
    {
        if self.expires.lines == 0 {
            return None;
        }
        let made = self.date.time().unwrap_or(received);
        match self.expires.time() {
            Some(time) => Some(time.saturating_sub(made)),
            None => Some(0),
        }
    }
}

/// Adds a line of a field by which a cache decides if no field of its target list does (RFC 9213
/// section 2.2). Returns `Answered`; `Refused` if this is a line of `Cache-Control`, and it or one
/// before it is no list of directives (RFC 9111 section 5.2), and sets the directives to those of
/// `no-store`; or `BadCall` for a number that is no field. Does not allocate.
#[unsafe(no_mangle)]
pub extern "C" fn sf_fallback_line(field: u32, line: &[u8], fallback: &mut Fallback) -> u32
    // What the lines of the field say, with this one; BadCall if and only if the number is no field.
    ensures { AddsLine fallback.old fallback.new line.now (fallback_field_at field)
        (status_at result) }
{
    let Some(field) = field_of(field) else {
        return Status::BadCall.code();
    };
    add(field, line, fallback).code()
}

/// Sets the lifetime of a response to the seconds from `Date` to `Expires`, or to 0 if `Expires` is
/// not later, is no HTTP-date or has several lines (RFC 9111 sections 4.2.1 and 5.3). Unless `Date`
/// has one line, which is an HTTP-date, the seconds are those from `received`, the time at which
/// the response was received in seconds since 1970. Returns `Answered`; or `Empty` without a line
/// of `Expires`, and leaves the response unchanged. Does not allocate.
#[unsafe(no_mangle)]
pub extern "C" fn sf_fallback_lifetime(
    fallback: &Fallback,
    received: u64,
    response: &mut Response,
) -> u32
    // The lifetime, if there is one.
    ensures sets { SetsLifetime response.old response.new (lifetime_by fallback.now received)
        (status_at result) }
    // It is the one that the lines set.
    ensures lines { IsLifetimeOfFields fallback.now received }
{
    match fallback.lifetime(received) {
        Some(lifetime) => {
            response.lifetime = lifetime;
            response.has_lifetime = 1;
            Status::Answered.code()
        }
        None => Status::Empty.code(),
    }
}

/// The field of this number, an `sf_fallback_field`.
fn field_of(number: u32) -> Option<FallbackField>
    ensures { result ≡ fallback_field_at number }
{
    match number {
        71 => Some(FallbackField::CacheControl),
        72 => Some(FallbackField::Expires),
        73 => Some(FallbackField::Date),
        _ => None,
    }
}

/// As [`sf_fallback_line`], for a field.
fn add(field: FallbackField, line: &[u8], fallback: &mut Fallback) -> Status
    ensures { AddsLine fallback.old fallback.new line.now (Some field) (Some result) }
{
    match field {
        FallbackField::CacheControl => direct(line, fallback),
        FallbackField::Expires => {
            fallback.expires = fallback.expires.with(line);
            Status::Answered
        }
        FallbackField::Date => {
            fallback.date = fallback.date.with(line);
            Status::Answered
        }
    }
}

/// Adds a line of `Cache-Control`.
fn direct(line: &[u8], fallback: &mut Fallback) -> Status
    ensures takes { TakesLine HasDirectives fallback.old fallback.new line.now }
    ensures reports { ReportsRefused fallback.new (Some result) }
    ensures expires { fallback.new.expires ≡ fallback.old.expires }
    ensures date { fallback.new.date ≡ fallback.old.date }
{
    if fallback.is_refused != 0 {
        return Status::Refused;
    }
    match fallback.rules.rules().with_cache_control(line) {
        Some(rules) => {
            fallback.rules = RulesFlags::of(rules);
            Status::Answered
        }
        None => {
            fallback.rules = RulesFlags::of(refused());
            fallback.is_refused = 1;
            Status::Refused
        }
    }
}

/// The directives of a field that is refused.
fn refused() -> CacheRules
    ensures { result ≡ refused_rules }
{
    CacheRules {
        policy: Policy {
            max_age: None,
            s_maxage: None,
            must_revalidate: false,
            no_store: true,
            no_cache: false,
            is_private: false,
        },
        invalid_max_age: false,
        invalid_s_maxage: false,
        proxy_revalidate: false,
        must_understand: false,
        is_public: false,
    }
}
