//! Calls of the libraries on what they are for: values that are made, put together, copied and
//! written, lines and header maps that are read, and what consumers read of them. What is expected
//! comes from the RFCs. There is a module for each subject. The tests are in a crate of their own,
//! so that the libraries are not proved again with them.
//!
//! Texts that are parsed are in `sf_test_vectors`, runs of the command in `sf_test_cli`.
#![tactic(auto)]

#[cfg(test)]
mod appending;
#[cfg(test)]
mod asking;
#[cfg(test)]
mod building;
#[cfg(test)]
mod cache_control;
#[cfg(test)]
mod cache_status;
#[cfg(test)]
mod caching;
#[cfg(test)]
mod dialects;
#[cfg(test)]
mod lines;
#[cfg(test)]
mod priority;
#[cfg(test)]
mod response_priority;
#[cfg(test)]
mod targeted;
#[cfg(test)]
mod values;
#[cfg(test)]
mod writing;
