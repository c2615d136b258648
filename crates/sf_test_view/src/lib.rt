//! Views compared with trees: accepted texts have nodes, and the nodes describe what the tree has.
#![tactic(auto)]

#[cfg(test)]
mod building;
#[cfg(test)]
mod canonical;
#[cfg(test)]
mod copies;
#[cfg(test)]
mod counting;
#[cfg(test)]
mod cursors;
#[cfg(test)]
mod declined;
#[cfg(test)]
mod growing;
#[cfg(test)]
mod memory;
#[cfg(test)]
mod nodes;
#[cfg(test)]
mod runs;
#[cfg(test)]
mod settled;
#[cfg(test)]
mod trees;
#[cfg(test)]
mod views;
