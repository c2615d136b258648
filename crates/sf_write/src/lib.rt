//! Canonical texts of structured fields (RFC 9651 section 4.1): written directly to any sink,
//! without an allocation, or to a new text.
//!
//! Each of these is sent at once: a key, a Token, digits, the bytes of a String or a Display String
//! up to the next escape, and up to 256 characters of base64. A sink may take only a part of them
//! at a time. `specs/Writing.antt` states what the calls of a sink write together; the texts
//! themselves are defined in `sf_value`.
#![tactic(auto)]

mod bare;
mod blobs;
mod dicts;
mod display_string;
mod field;
mod flag;
mod formats;
mod gathered;
mod items;
mod length;
mod lists;
mod numbers;
mod params;
mod sending;
mod strings;

pub use bare::{bare_text, put_bare, put_boolean, put_text, write_bare};
pub use blobs::{put_base64, put_blob};
pub use display_string::{percent_escape, put_display_string};
pub use field::{put_field, to_text, write_field};
pub use formats::{Canonical, Displayed, display, to_string};
pub use numbers::{put_number, put_seconds, put_thousandths};
pub use sending::{Sent, WriteFault, put, send_all};
pub use sf_value::hex_digits;
pub use strings::put_string;
