//! The command `sf` as a library: [`read_request`] parses the command line, and [`run`] reads a
//! source and writes the answer to the request to a sink. Most other functions are parts of it
//! that `sf_lint` uses, too. In `specs/`, `CommandLine` defines which arguments make which request;
//! `Texts`, `Tree`, `PathLines`, `ChoiceLines`, `Deciding` and `PriorityLine` define what is
//! printed, and `Explaining` what a terminal shows of a refusal; and `Run` defines what a run
//! reads, answers and writes.
#![tactic(auto)]

mod answering;
mod choice;
mod cutting;
mod deciding;
mod explaining;
mod fields;
mod header_names;
mod marking;
mod path;
mod priority;
mod reading;
mod refusing;
mod request;
mod running;
mod scanning;
mod sets;
mod status;
mod tree;

pub use answering::answer_made;
pub use choice::put_policy;
pub use cutting::{split_at_first, split_line, trimmed, without_lead};
pub use deciding::{by_each_dialect, put_decision, with_cache_control};
pub use explaining::ErrorStream;
pub use fields::{InputFault, read_field_lines};
pub use header_names::header_name;
pub use marking::{caret_text, line_text, name_end};
pub use path::put_path;
pub use priority::put_priority;
pub use reading::{ReadAllFault, read_all};
pub use request::{MAX_NAMES, Request, RequestFault, age_of, kind_named, names_in, read_request};
pub use running::{INPUT_LIMIT, run};
pub use status::Status;
