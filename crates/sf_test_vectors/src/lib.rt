//! Conformance vectors: texts of every kind with their outcomes, run through the parser whole, in
//! every cutting into two chunks and one byte at a time, and through the writer.
#![tactic(auto)]

#[cfg(test)]
mod acceptances;
#[cfg(test)]
mod followers;
#[cfg(test)]
mod messages;
#[cfg(test)]
mod readers;
#[cfg(test)]
mod refusals;
#[cfg(test)]
mod scanning;
#[cfg(test)]
mod thresholds;
#[cfg(test)]
mod whole_members;
#[cfg(test)]
mod windows;
