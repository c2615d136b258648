//! Most examples of docs/GUIDE.md, and the first of docs/CONSUMERS.md on Cache-Status, targeted
//! fields and Priority, as tests. The laws are called too.
#![tactic(auto)]

#[cfg(test)]
mod agent_cluster;
#[cfg(test)]
mod consumers;
#[cfg(test)]
mod laws;
#[cfg(test)]
mod parsing;
#[cfg(test)]
mod values;
