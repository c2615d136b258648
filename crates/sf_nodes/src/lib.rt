//! The nodes of a field, from its text or from its tree, and laws of nodes.
#![tactic(auto)]

mod field_nodes;
mod flattening;
pub mod laws;
mod parts;

pub use field_nodes::FieldNodes;
pub use flattening::flatten;
pub use parts::Flat;
