//! What a cache decides about a response (RFC 9111 sections 3 and 4.2): whether it is stored, and
//! whether it is used without validation.
ghost use Rattle.std.specs.Prelude.{◌≡◌};
ghost use Rattle.sf_use.specs.Caching.{aged as aged_decision, stale as stale_decision};
ghost use Rattle.sf_use.specs.Caching.{decision, lifetime as lifetime_of, refusal as refusal_of};
ghost use Rattle.sf_use.specs.Caching.{has_max_age as says_max_age, has_s_maxage as says_s_maxage};
ghost use Rattle.sf_use.specs.Caching.{permits_authorized, permits_storing};
ghost use Rattle.sf_use.specs.Caching.{understood as when_understood};

use crate::targeted::Policy;

/// The greatest age and lifetime, in seconds: greater ones count as this one (RFC 9111 section
/// 1.2.2).
pub const GREATEST_SECONDS: u64 = 2_147_483_648;

/// A cache by who uses what it stores (RFC 9111 section 1).
#[derive(Clone, Copy, Debug, PartialEq, Eq)]
pub enum CacheKind {
    /// Stores responses for more than one user.
    Shared,
    /// Stores responses for one user.
    Private,
}

/// The directives that decide how a cache handles a response (RFC 9111 section 5.2.2): a
/// [`Policy`], and what it leaves out. Other directives are ignored.
#[derive(Clone, Copy, Debug, Default, PartialEq, Eq)]
pub struct CacheRules {
    /// The directives of a policy.
    pub policy: Policy,
    /// `max-age` is present, but is not a number of seconds, or has values that differ: the
    /// response is stale (RFC 9111 section 4.2.1), unless it has an `s-maxage` in a shared cache,
    /// which counts instead. If this is set, the `max_age` of the policy has no effect.
    pub invalid_max_age: bool,
    /// `s-maxage` is present, but is not a number of seconds, or has values that differ: in a
    /// shared cache the response is stale (RFC 9111 section 4.2.1). If this is set, the `s_maxage`
    /// of the policy has no effect.
    pub invalid_s_maxage: bool,
    /// `proxy-revalidate`: a shared cache doesn't use a stale response before it is validated.
    pub proxy_revalidate: bool,
    /// `must-understand`: only a cache that understands the status code stores the response, and
    /// it ignores `no-store`. Such a cache decides by [`CacheRules::understood`].
    pub must_understand: bool,
    /// `public`: the response may be stored, even if nothing else permits it.
    pub is_public: bool,
}

/// The directive that decided.
#[derive(Clone, Copy, Debug, PartialEq, Eq)]
pub enum Cause {
    /// No directive.
    Nothing,
    /// `no-store`.
    NoStore,
    /// `private`.
    Private,
    /// `must-understand`.
    MustUnderstand,
    /// `no-cache`.
    NoCache,
    /// `max-age`.
    MaxAge,
    /// `s-maxage`.
    SMaxage,
    /// A `max-age` that can't be used.
    InvalidMaxAge,
    /// An `s-maxage` that can't be used.
    InvalidSMaxage,
    /// The lifetime that the caller gave, of `Expires` or of a heuristic.
    Expires,
    /// `must-revalidate`.
    MustRevalidate,
    /// `proxy-revalidate`.
    ProxyRevalidate,
}

/// A freshness lifetime (RFC 9111 section 4.2.1), with the directive that sets it, or
/// [`Cause::Expires`] if it is the caller's.
#[derive(Clone, Copy, Debug, PartialEq, Eq)]
pub enum Lifetime {
    /// A number of seconds.
    Seconds {
        /// The number.
        seconds: u64,
        /// The directive.
        by: Cause,
    },
    /// The directive is present, but can't be used.
    Invalid {
        /// The directive.
        by: Cause,
    },
    /// No directive sets a lifetime, and the caller gave none.
    Unspecified,
}

/// How a cache may use a response (RFC 9111 sections 3 and 4).
#[derive(Clone, Copy, Debug, PartialEq, Eq)]
pub enum Reuse {
    /// It is not stored, so it is never used again.
    NotStored,
    /// It may be stored. It is used without validation.
    Fresh {
        /// The number of seconds for which it stays fresh, at least 1.
        seconds: u64,
    },
    /// It may be stored. It is stale, and used without validation only if the cache is
    /// disconnected, or if the client or the origin permits it (RFC 9111 section 4.2.4).
    Stale,
    /// It may be stored, by [`Cause::NoCache`] only if the status code, or `Expires`, or
    /// [`CacheRules::allows_storing`] permits it (RFC 9111 section 3). It is never used without
    /// validation: if the cache is disconnected, the answer is an error (section 5.2.2.2).
    MustRevalidate,
    /// It may be stored if the status code, or `Expires`, or [`CacheRules::allows_storing`] permits
    /// it. No directive sets a lifetime, so a heuristic may apply (RFC 9111 section 4.2.2).
    Unspecified,
}

/// What a cache decides about a response.
#[derive(Clone, Copy, Debug, PartialEq, Eq)]
pub struct Decision {
    /// How the response may be used.
    pub reuse: Reuse,
    /// The directive that decided.
    pub by: Cause,
}

impl CacheRules {
    /// Returns what a cache decides about a response of this age, in seconds. If no directive sets
    /// a lifetime, the result is `Unspecified` unless another directive decides. With
    /// `must-understand` the response is not stored: a cache that understands its status code calls
    /// [`CacheRules::understood`] first. Does not allocate.
    ///
    /// ```
    /// // max-age=60, must-revalidate
    /// let now = rules.decide(CacheKind::Shared, 10); // Fresh { seconds: 50 }, by MaxAge
    /// let later = rules.decide(CacheKind::Shared, 60); // MustRevalidate, by MustRevalidate
    /// ```
    pub fn decide(&self, cache: CacheKind, age: u64) -> Decision
        ensures { result ≡ decision self.now cache None age }
    {
        self.decide_with(cache, None, age)
    }

    /// Returns what a cache decides, as [`CacheRules::decide`] does, but that `otherwise` is the
    /// lifetime, in seconds, if no directive sets one: `Expires` less `Date` (RFC 9111 section
    /// 4.2.1), but not for a targeted field, by which `Expires` is ignored (RFC 9213 section 2.2);
    /// or that of a heuristic, if one may apply (RFC 9111 section 4.2.2). Does not allocate.
    ///
    /// ```
    /// // public
    /// rules.decide_with(CacheKind::Shared, Some(60), 20) // Fresh { seconds: 40 }, by Expires
    /// ```
    pub fn decide_with(&self, cache: CacheKind, otherwise: Option<u64>, age: u64) -> Decision
        ensures { result ≡ decision self.now cache otherwise age }
    {
        if let Some(by) = self.refusal(cache) {
            return Decision {
                reuse: Reuse::NotStored,
                by,
            };
        }
        if self.policy.no_cache {
            return Decision {
                reuse: Reuse::MustRevalidate,
                by: Cause::NoCache,
            };
        }
        match self.lifetime(cache, otherwise) {
            Lifetime::Seconds { seconds, by } => return self.aged(cache, seconds, by, age),
            Lifetime::Invalid { by } => return self.stale(cache, by),
            Lifetime::Unspecified => return Decision {
                reuse: Reuse::Unspecified,
                by: Cause::Nothing,
            },
        }
    }

    /// Returns the lifetime of the response, with the directive that sets it: in a shared cache
    /// `s-maxage`, then `max-age`, then `otherwise` (RFC 9111 section 4.2.1). Does not allocate.
    ///
    /// ```
    /// // s-maxage=1.5, max-age=600
    /// rules.lifetime(CacheKind::Shared, None) // Invalid, by InvalidSMaxage
    /// rules.lifetime(CacheKind::Private, None) // 600 s, by MaxAge
    /// ```
    pub fn lifetime(&self, cache: CacheKind, otherwise: Option<u64>) -> Lifetime
        ensures { result ≡ lifetime_of self.now cache otherwise }
    {
        if matches!(cache, CacheKind::Shared) {
            if self.invalid_s_maxage {
                return Lifetime::Invalid {
                    by: Cause::InvalidSMaxage,
                };
            }
            if let Some(seconds) = self.policy.s_maxage {
                return Lifetime::Seconds {
                    seconds,
                    by: Cause::SMaxage,
                };
            }
        }
        if self.invalid_max_age {
            return Lifetime::Invalid {
                by: Cause::InvalidMaxAge,
            };
        }
        if let Some(seconds) = self.policy.max_age {
            return Lifetime::Seconds {
                seconds,
                by: Cause::MaxAge,
            };
        }
        match otherwise {
            Some(seconds) => Lifetime::Seconds {
                seconds,
                by: Cause::Expires,
            },
            None => Lifetime::Unspecified,
        }
    }

    /// Returns the directives for a cache that understands the status code of the response and
    /// implements its requirements: `must-understand` is met, and `no-store` beside it ignored
    /// (RFC 9111 section 5.2.2.3). Does not allocate.
    ///
    /// ```
    /// // max-age=60, must-understand, no-store
    /// rules.decide(CacheKind::Shared, 0) // NotStored, by NoStore
    /// rules.understood().decide(CacheKind::Shared, 0) // Fresh { seconds: 60 }, by MaxAge
    /// ```
    pub fn understood(&self) -> CacheRules
        ensures { result ≡ when_understood self.now }
    {
        if !self.must_understand {
            return *self;
        }
        CacheRules {
            policy: Policy {
                no_store: false,
                ..self.policy
            },
            must_understand: false,
            ..*self
        }
    }

    /// Returns whether a directive permits a cache to store the response, whatever its status code:
    /// `public`, `max-age`, in a shared cache `s-maxage`, in a private one `private` (RFC 9111
    /// section 3). What forbids it is [`CacheRules::decide`]'s to say. Does not allocate.
    pub fn allows_storing(&self, cache: CacheKind) -> bool
        ensures { result ≡ permits_storing self.now cache }
    {
        if self.is_public || self.has_max_age() {
            return true;
        }
        match cache {
            CacheKind::Shared => return self.has_s_maxage(),
            CacheKind::Private => return self.policy.is_private,
        }
    }

    /// Returns whether a directive permits a shared cache to store the response to a request with
    /// `Authorization`: `must-revalidate`, `public` or `s-maxage` (RFC 9111 section 3.5). Does not
    /// allocate.
    pub fn allows_authorized(&self) -> bool
        ensures { result ≡ permits_authorized self.now }
    {
        self.policy.must_revalidate || self.is_public || self.has_s_maxage()
    }

    /// Returns whether `max-age` is present.
    fn has_max_age(&self) -> bool
        ensures { result ≡ says_max_age self.now }
    {
        self.invalid_max_age || self.policy.max_age.is_some()
    }

    /// Returns whether `s-maxage` is present.
    fn has_s_maxage(&self) -> bool
        ensures { result ≡ says_s_maxage self.now }
    {
        self.invalid_s_maxage || self.policy.s_maxage.is_some()
    }

    /// Returns the directive for which the response is not stored; the first in this order, if
    /// there are several.
    fn refusal(&self, cache: CacheKind) -> Option<Cause>
        ensures { result ≡ refusal_of self.now cache }
    {
        if self.policy.no_store {
            return Some(Cause::NoStore);
        }
        if self.policy.is_private && matches!(cache, CacheKind::Shared) {
            return Some(Cause::Private);
        }
        if self.must_understand {
            return Some(Cause::MustUnderstand);
        }
        None
    }

    /// Returns what is decided of a response with this lifetime, which a directive sets.
    fn aged(&self, cache: CacheKind, seconds: u64, by: Cause, age: u64) -> Decision
        ensures { result ≡ aged_decision self.now cache seconds by age }
    {
        let lifetime = seconds.min(GREATEST_SECONDS);
        let age = age.min(GREATEST_SECONDS);
        if age < lifetime {
            return Decision {
                reuse: Reuse::Fresh {
                    seconds: lifetime - age,
                },
                by,
            };
        }
        self.stale(cache, by)
    }

    /// Returns what is decided of a response that is stale because of this directive.
    fn stale(&self, cache: CacheKind, by: Cause) -> Decision
        ensures { result ≡ stale_decision self.now cache by }
    {
        if self.policy.must_revalidate {
            return Decision {
                reuse: Reuse::MustRevalidate,
                by: Cause::MustRevalidate,
            };
        }
        if matches!(cache, CacheKind::Private) {
            return Decision {
                reuse: Reuse::Stale,
                by,
            };
        }
        if self.proxy_revalidate {
            return Decision {
                reuse: Reuse::MustRevalidate,
                by: Cause::ProxyRevalidate,
            };
        }
        if self.has_s_maxage() {
            return Decision {
                reuse: Reuse::MustRevalidate,
                by,
            };
        }
        Decision {
            reuse: Reuse::Stale,
            by,
        }
    }
}
