//! What RFC 9111, RFC 9211, RFC 9213 and RFC 9218 say of a received field, sentence by sentence,
//! and proofs that `sf_use` agrees with it.
#![tactic(auto)]

pub mod cache_status;
pub mod caching;
pub mod priority;
pub mod targeted;
