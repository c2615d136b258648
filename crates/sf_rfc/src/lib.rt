//! The algorithms of RFC 9651, and proofs that they agree with the definitions of this repository.
#![tactic(auto)]

pub mod abnf;
pub mod joining;
pub mod parsing;
pub mod serialising;
pub mod utf8;
