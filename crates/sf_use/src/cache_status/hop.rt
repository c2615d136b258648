//! Hops: the caches on the path of a response, and what each did.
ghost use Rattle.std.specs.Prelude.{◌≡◌};
ghost use Rattle.std.specs.Option.{option_and_then, option_copied};
ghost use Rattle.sf_value.specs.Grammar.Tokens.{IsToken};
ghost use Rattle.sf_use.specs.CacheStatus.Members.{is_hit as is_hit_of, says_hit as says_hit_of};
ghost use Rattle.sf_use.specs.CacheStatus.Members.{is_conflict as is_conflict_of, passed_by};
ghost use Rattle.sf_use.specs.CacheStatus.Reasons.{token_of};

use crate::cache_status::status::HopStatus;
use sf_value::{Int, Text, Token};

/// The name of a cache (RFC 9211 section 2), or a detail (section 2.8). The String `a` and the
/// Token `a` are different names.
#[derive(Debug, Drop)]
pub enum Name {
    /// A String.
    Text(Text),
    /// A Token.
    Token(Token),
}

/// Why a cache forwarded a request to the next server (RFC 9211 section 2.2).
#[derive(Debug, Drop)]
pub enum Forward {
    /// `bypass`: the cache was configured not to handle this request.
    Bypass,
    /// `method`: the semantics of the request's method require it to be forwarded.
    Method,
    /// `uri-miss`: no stored response matched the request's URI.
    UriMiss,
    /// `vary-miss`: a stored response matched the URI, but none matched the request's headers.
    VaryMiss,
    /// `miss`: no stored response could be used, and the cache can't say whether it is a `uri-miss`
    /// or a `vary-miss`.
    Miss,
    /// `request`: a fresh response was stored, but the request did not allow its use.
    Request,
    /// `stale`: the stored response was stale.
    Stale,
    /// `partial`: the stored response lacked a part of what was requested.
    Partial,
    /// Another token. If it is one of the eight above, it means the same as that reason.
    Other(Token),
}

/// What a field says about a request that a cache forwarded.
#[derive(Debug, Drop)]
pub struct Passed {
    /// The reason: `fwd` (RFC 9211 section 2.2).
    pub why: Forward,
    /// The status code of the next hop's response: `fwd-status` (section 2.3). If it is absent, it
    /// defaults to the status code of the response itself.
    pub status: Option<HopStatus>,
    /// Whether the cache stored the response: `stored` (section 2.5).
    pub stored: Option<bool>,
    /// Whether the request was collapsed with others: `collapsed` (section 2.6). If it is false,
    /// the cache tried, but had to make a new request; if it is absent, the request was not
    /// collapsed.
    pub collapsed: Option<bool>,
}

/// What a cache did with a request (RFC 9211 sections 2.1 and 2.2).
///
/// ```
/// match hop.outcome.passed() {
///     Some(passed) => .. // passed.why, passed.status, passed.stored, passed.collapsed
///     None => .. // a hit, or neither
/// }
/// ```
#[derive(Debug, Drop)]
pub enum Outcome {
    /// It answered from its store: `hit` is true, and `fwd` is absent.
    Hit,
    /// It forwarded the request: `fwd` is present, and `hit` is not true.
    Forwarded(Passed),
    /// `hit` is true and `fwd` is present, though the RFC allows only one of them.
    Conflict(Passed),
    /// `hit` is not true, and `fwd` is absent.
    Unsaid,
}

/// A cache on the path of a response, and what it did (RFC 9211 section 2).
///
/// ```
/// // edge;hit;ttl=30
/// let hop = Hop {
///     name: Name::Token(Token::new(alloc, b"edge")?),
///     outcome: Outcome::Hit,
///     ttl: Some(Int::new(30)?),
///     key: None,
///     detail: None,
/// };
/// ```
#[derive(Debug, Drop)]
pub struct Hop {
    /// The cache's name.
    pub name: Name,
    /// What it did with the request.
    pub outcome: Outcome,
    /// The remaining freshness lifetime in seconds, negative if the response is stale: `ttl`
    /// (section 2.4).
    pub ttl: Option<Int>,
    /// The cache key: `key` (section 2.7).
    pub key: Option<Text>,
    /// Further information from the cache: `detail` (section 2.8).
    pub detail: Option<Name>,
}

impl Forward {
    /// Returns the token of the reason. Does not allocate.
    pub fn as_bytes(&self) -> &[u8]
        ensures bytes { result.now ≡ token_of self.now }
        ensures token { IsToken (token_of self.now) }
    {
        match self {
            Forward::Bypass => b"bypass",
            Forward::Method => b"method",
            Forward::UriMiss => b"uri-miss",
            Forward::VaryMiss => b"vary-miss",
            Forward::Miss => b"miss",
            Forward::Request => b"request",
            Forward::Stale => b"stale",
            Forward::Partial => b"partial",
            Forward::Other(token) => token.as_bytes(),
        }
    }
}

impl Outcome {
    /// Returns whether the cache answered from its store without forwarding the request. Does not
    /// allocate.
    pub fn is_hit(&self) -> bool
        ensures { result ≡ is_hit_of self.now }
    {
        matches!(self, Outcome::Hit)
    }

    /// Returns whether the field has both a true `hit` and `fwd`, of which only one should appear
    /// (RFC 9211 section 2.1). [`crate::append_to_lines`] refuses such a hop. Does not allocate.
    pub fn is_conflict(&self) -> bool
        ensures { result ≡ is_conflict_of self.now }
    {
        matches!(self, Outcome::Conflict(_))
    }

    /// Returns what the field says about a forwarded request; `None` without `fwd`. Does not
    /// allocate.
    pub fn passed(&self) -> Option<&Passed>
        ensures { option_copied result ≡ passed_by self.now }
    {
        match self {
            Outcome::Forwarded(passed) | Outcome::Conflict(passed) => Some(passed),
            Outcome::Hit | Outcome::Unsaid => None,
        }
    }

    /// Returns the status code of the next hop's response, if `fwd-status` is present. Does not
    /// allocate.
    pub fn status(&self) -> Option<HopStatus>
        ensures { result ≡ option_and_then (λ p. p.status) (passed_by self.now) }
    {
        self.passed()?.status
    }

    /// Returns whether the response was stored, if `stored` is present. Does not allocate.
    pub fn stored(&self) -> Option<bool>
        ensures { result ≡ option_and_then (λ p. p.stored) (passed_by self.now) }
    {
        self.passed()?.stored
    }

    /// Returns whether the request was collapsed with others, if `collapsed` is present. Does not
    /// allocate.
    pub fn collapsed(&self) -> Option<bool>
        ensures { result ≡ option_and_then (λ p. p.collapsed) (passed_by self.now) }
    {
        self.passed()?.collapsed
    }

    /// Returns whether `hit` is true in the field: for `Hit` and `Conflict`. Does not allocate.
    pub fn says_hit(&self) -> bool
        ensures { result ≡ says_hit_of self.now }
    {
        matches!(self, Outcome::Hit | Outcome::Conflict(_))
    }
}
