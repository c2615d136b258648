//! One pass over a text of structured fields (RFC 9651): each construct has one function, which
//! gives the parts that it reads to a maker and returns where it stops. The place there says which
//! bytes may come.
//!
//! ```text
//! let mut q = Find::new(b"q");
//! let stop = item(Dialect::Rfc9651, b"a;q=1, b", &mut q)?; // stop.left is b", b"
//! q.found(); // Some(Leaf::Integer(1))
//! ```
//!
//! The contracts define texts and values by the grammar of `sf_value`; `specs/Stops` defines where
//! reading stops.
#![tactic(auto)]

pub mod allowed;
pub mod bare;
pub mod blob_place;
pub mod builder;
mod byte_sequence;
pub mod byte_sets;
pub mod char_place;
pub mod dict;
mod display_string;
pub mod entry;
pub mod field;
pub mod inner;
pub mod item;
pub mod leaf;
pub mod list;
pub mod maker;
pub mod member;
mod number;
pub mod number_place;
pub mod param;
pub mod place;
pub mod refusal;
pub mod series;
pub mod shown_place;
