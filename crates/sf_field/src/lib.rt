//! Structured fields as a message has them (RFC 9651 section 4.2): several field lines, or the
//! values of one name in a header map, are parsed as one text, joined by a comma and a space. That
//! text is built only for several lines: by [`normalise_lines`], and by [`ask`] if it is short.
//!
//! A line can have any bytes, and can come from any type that implements [`FieldLines`]. Places in
//! a refusal are offsets in the joined text.
#![tactic(auto)]

mod asking;
mod consumer;
mod header_update;
mod headers;
mod joining;
mod kinds;
pub mod laws;
mod lines;

pub use asking::{AskFault, ask, ask_from, ask_from_in, ask_in};
pub use consumer::{Consumer, UseFault};
pub use header_update::{SetFault, header_value, set_field};
pub use headers::from_headers;
pub use kinds::{parse_dict_lines, parse_item_lines, parse_list_lines};
pub use lines::{
    AskingCost, FieldLines, append_line, normalise_lines, parse_from, parse_lines, parse_lines_in,
};
