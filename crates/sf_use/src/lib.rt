//! What fields mean to caches and servers: the path of a response through caches
//! ([`cache_status`], RFC 9211), the field that a cache obeys ([`targeted`] and [`targeted_rules`],
//! RFC 9213), what the cache decides by it ([`caching`], RFC 9111), and the priority of a response
//! ([`priority`], RFC 9218). If no targeted field decides, [`cache_control`] and [`expires`] read
//! `Cache-Control`, `Expires` and `Date`, which are no structured fields.
//!
//! [`CacheStatus`], [`Directives`], [`TargetedRules`], [`PriorityField`] and
//! [`ResponsePriorityField`] are consumers ([`sf_field::Consumer`]) for [`sf_field::ask`], whose
//! answer is the same for every spelling of a value. [`select`] finds the field of a target list
//! that a cache obeys, and its [`Policy`]; [`select_rules`] finds its [`CacheRules`], which decide
//! how a response is stored and used. [`merge`] merges the priorities of a client and a server; the
//! defaults are filled in afterwards, by [`Asked::with_defaults`].
//!
//! Contracts state that each answer is the meaning of the field, which `specs/` defines in the
//! terms of the RFC.
#![tactic(auto)]

pub mod cache_control;
pub mod cache_status;
pub mod caching;
pub mod expires;
pub mod laws;
pub mod priority;
mod priority_update;
mod response_priority;
pub mod targeted;
pub mod targeted_rules;

pub use cache_control::fallback_rules;
pub use cache_status::{
    AppendFault, Appended, CachePath, CacheStatus, Forward, Hop, HopCursor, HopParams, HopStatus,
    HopView, Name, NameView, Outcome, Passed, append_hop, append_to_lines,
};
pub use caching::{CacheKind, CacheRules, Cause, Decision, GREATEST_SECONDS, Lifetime, Reuse};
pub use expires::{expires_lifetime, expires_of, http_time};
pub use priority::{Asked, Priority, PriorityField, Urgency, merge, priority_field};
pub use priority_update::update_priority;
pub use response_priority::{ResponsePriority, ResponsePriorityField, response_priority_field};
pub use targeted::{Choice, Directives, Policy, select, select_in};
pub use targeted_rules::{RulesChoice, TargetedRules, select_rules, select_rules_in};
