//! The heads of HTTP messages, as `curl -I` prints them, with each structured field checked.
//!
//! [`run`] reads heads from a source and writes for each structured field its canonical text, or
//! why it is refused and where, to a sink; [`run_with`] writes what caches decide, too. [`kind_of`]
//! and [`dialect_of`] are the table of the registered structured fields. [`is_coloured`] decides
//! whether the output has colours. In `specs/`, `Registry` is that table, and `Settings` defines
//! which fields are structured; `Head` defines the lines of a head, `Report` what is printed for
//! them, and `Meanings` what a value means; `Heads` defines where each head ends, `Deciding` what
//! is printed of decisions, and `StatusCodes` and `Ages` how these depend on the status code and on
//! `Age`; `Colours` defines the colours, `Run` what a run reads and writes, and `Options` which
//! arguments make which options.
#![tactic(auto)]

mod ages;
mod colours;
mod deciding;
mod head;
mod heads;
mod ignored;
mod marking;
mod meaning;
mod options;
mod registry;
mod report;
mod running;
mod settings;
mod status_codes;

pub use colours::is_coloured;
pub use head::Line;
pub use options::{Options, OptionsFault, read_options, status_line};
pub use registry::{dialect_of, kind_of};
pub use running::{run, run_with};
pub use settings::{CacheSettings, CustomField, FieldType, Settings};
