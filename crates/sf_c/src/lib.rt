//! The library, called from C: a static library with one export for each call, declared for C in
//! `include/sf_functions.h`.
//!
//! Arguments and results are numbers, slices as a pointer and a length, and structs in C's layout;
//! nothing is owned across the boundary. The caller provides the buffer for a result; if it is too
//! small, the call stores the required length. An export that can fail returns one of the
//! [`Status`]es, and its contract states what it may write, and where. `specs/` states what each result
//! means, by the definitions of the crates below.
#![tactic(auto)]

mod buffer;
mod cache_control;
mod cache_rules;
mod cache_status;
mod cache_status_append;
mod call;
mod check;
mod decide;
mod decoding;
mod fallback;
mod filling;
mod find;
mod flag;
mod hop_numbers;
mod hop_parts;
mod hop_scan;
mod hop_text;
mod hop_value;
mod hops;
mod join;
pub mod laws;
mod normalise;
mod parse;
mod plain_priority;
mod priority;
mod priority_change;
mod priority_merge;
mod priority_parts;
mod priority_text;
mod refusal;
mod refusal_text;
mod response_priority;
mod seed;
mod select;
mod span;
mod status;
mod version;
mod write;

pub use cache_control::{PolicyFlags, sf_cache_control, sf_lifetime};
pub use cache_rules::{RulesFlags, sf_cache_rules};
pub use cache_status::{Path, sf_cache_status, sf_cache_status_in};
pub use cache_status_append::sf_cache_status_append;
pub use check::sf_check;
pub use decide::{DecisionFlags, Response, sf_decide};
pub use fallback::{Fallback, Time, sf_fallback_lifetime, sf_fallback_line};
pub use find::sf_find;
pub use hop_text::sf_hop_text;
pub use hops::HopNode;
pub use join::{Joined, sf_join};
pub use normalise::{sf_equal, sf_normalise};
pub use parse::{Sizes, sf_parse};
pub use priority::{PriorityFlags, sf_priority, sf_priority_in};
pub use priority_change::sf_priority_change;
pub use priority_merge::sf_priority_merge;
pub use priority_text::sf_priority_text;
pub use refusal::SyntaxRefusal;
pub use refusal_text::{sf_refusal_in_text, sf_refusal_text};
pub use response_priority::{
    ResponsePriorityFlags, sf_response_priority, sf_response_priority_text,
};
pub use seed::Seed;
pub use select::{sf_select, sf_select_rules};
pub use span::Span;
pub use status::Status;
pub use version::sf_version;
pub use write::sf_write;
