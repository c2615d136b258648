//! Devices in memory for tests: they read and write bytes at a stated pace, and fail at a stated
//! call. They allocate only for the bytes that are sent to them.
#![tactic(auto)]

mod sinks;
mod sources;

pub use sinks::{Tally, Trickle};
pub use sources::Paced;
