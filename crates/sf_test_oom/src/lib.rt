//! Tests with failing allocations; README.md says how they are made to fail.
//!
//! There is a file for each layer below: `values` for the calls of `sf_value`, `building` for those
//! that build and for what is made of a value, `writing` for `sf_write`, `parsing` and `words` for
//! `sf_parse`, `lines` for `sf_field`, `consumers` for `sf_use`, `tool` for `sf_tool`.
#![tactic(auto)]

#[cfg(test)]
mod building;
#[cfg(test)]
mod consumers;
#[cfg(test)]
mod expecting;
#[cfg(test)]
mod lines;
#[cfg(test)]
mod parsing;
#[cfg(test)]
mod tool;
#[cfg(test)]
mod values;
#[cfg(test)]
mod words;
#[cfg(test)]
mod writing;
