//! The push parser of structured fields (RFC 9651 section 4.2).
//!
//! A [`Parser`] takes a text in chunks and keeps none of it: it keeps the values built so far and
//! the open construct. It refuses a text at the first byte that is not allowed, with exactly the
//! bytes that are allowed there ([`Refusal::Syntax`]), however the text is cut. [`parse_text`]
//! parses a whole text, and [`parse_reader`] what a reader returns. A refusal prints as an error
//! message, alone or with its line ([`InLine`]), and [`runs_of`] lists the bytes that it expects.
//!
//! ```text
//! let mut parser = Parser::new(alloc, &seed, Kind::Item, u64::MAX);
//! parser.feed(b"1.")?;
//! parser.feed(b"5;q")?;
//! let field = parser.finish()?; // the Decimal 1.5, with the parameter q
//! ```
//!
//! The contracts define texts and values by the grammar of `sf_value`; `specs/Parsers` defines what
//! a parser took and what it returns. [`laws`] states what follows from the machine by which this
//! is proved, and what the runs of a set are.
#![tactic(auto)]

mod ahead;
mod bare;
mod blob;
mod boolean;
mod byte_runs;
mod context;
mod date;
mod display_string;
mod entry;
mod field;
mod gathering;
mod item;
mod item_field;
pub mod laws;
mod leaf;
mod level;
mod member;
mod names;
mod number;
mod parameters;
mod parser;
mod parsing;
mod reader;
mod refusal;
mod refusing;
mod series;
mod series_members;
mod spots;
mod state;
mod text;
mod whole_parts;

pub use byte_runs::{Runs, runs_of};
pub use parser::Parser;
pub use parsing::{parse_dict, parse_item, parse_list, parse_text, parse_text_in};
pub use reader::parse_reader;
pub use refusal::Refusal;
pub use refusing::refuse_text;
pub use spots::{InLine, Spot};
