//! Scarce memory, for tests: [`refusals`] repeats a call, with a little more memory each time,
//! until it gets all that it needs, and [`seen_without_memory`] makes one with no memory left. The
//! call reports by [`Seen`] what it showed.
//!
//! ```text
//! let found = refusals(alloc, || match Vec::from_slice(alloc, text) {
//!     Ok(copy) if copy.as_slice() == text => Seen::Right,
//!     Err(_) => Seen::Refused,
//!     Ok(_) => Seen::Wrong,
//! });
//! assert!(rt; found > Some(0), "{found:?}");
//! ```
//!
//! # How it works
//!
//! A [`Scarcity`] first allocates 4,096 spare blocks of 64 KiB. Then it allocates blocks of 16 TiB,
//! of half of that and so on, each size until one is refused, down to the smallest: the whole
//! address space of the process. Nearly none of it is ever touched, so it costs 50 to 100 MB and
//! less than a second. To leave a budget it frees a spare block and allocates all but the budget of
//! it again. The allocations of a call are then cut from that rest, and fail if the rest is too
//! small. The budgets grow by 16 bytes, the granularity of the C library's allocator, so no smaller
//! step would show more.
//!
//! # What it can't see
//!
//! - It counts budgets and not growths. A growth for which memory that the call freed before is
//!   enough is never the first to fail. The C library determines how many budgets are refused, so
//!   assert that some were, and not how many.
//! - It relies on the C library's allocator: that it cuts a small block from a freed larger one,
//!   and keeps no other memory in reserve. After each budget it tests that a somewhat larger block
//!   is refused; if it is not, the call is not made. An address sanitizer has another allocator,
//!   and `rt try` builds with one: run tests that use this crate only by `rt test`.
//! - Only growths of the heap are refused. The stack can't grow at that time, either, so a call
//!   that needs more of it than any before ends the process. Both functions therefore call once
//!   with ample memory first, and touch 300,000 bytes of stack before.
//! - Every other allocation at that time is refused, too: what a test prepares, and what it writes
//!   to, must be allocated before. A failed assertion needs memory for its message, so assert only
//!   after the memory is freed.
//! - If the system counts reserved memory strictly, allocating all of it takes it from other
//!   processes, too.
//!
//! The contracts state which calls were made and what they showed. No contract can state that
//! memory was scarce at that time; the tests of this crate show it.
#![tactic(auto)]

mod calls;
mod scarcity;
#[cfg(test)]
mod tests;

pub use calls::{Seen, refusals, seen_without_memory};
pub use scarcity::Scarcity;
