//! Accept-only scanning of structured fields into nodes that point into the text, and their
//! canonical texts (RFC 9651 section 4).
//!
//! [`View::scan`] makes the nodes of a whole text, and [`scan_settled`] also if a key is repeated.
//! [`write_view`] and [`normalise`] write canonical texts, [`View::to_field`] copies to a value,
//! and [`field_of`] reads nodes that a caller made. [`accepts`], [`DictCursor`] and [`ItemCursor`]
//! read a text without nodes. A text that is declined may be well-formed: [`parse_declined`]
//! decides.
#![tactic(auto)]

mod bare;
mod bare_part;
mod bare_view;
mod buffer;
mod building;
mod bytes;
mod copies;
mod counting;
mod cursor;
mod declined;
mod growing;
mod item;
mod item_cursor;
mod keys;
mod lookup;
mod node;
mod node_types;
mod normal;
mod parts;
mod series;
mod settling;
mod single;
mod text_parts;
mod view;
mod writing;

pub use buffer::node_buffer;
pub use building::{NoField, field_of};
pub use bytes::Bytes;
pub use counting::{Counts, Uncounted, count_settled, count_text};
pub use cursor::{DictCursor, EntryView, accepts};
pub use declined::parse_declined;
pub use growing::{scan_into, scan_settled};
pub use item_cursor::{ItemCursor, ItemView, ParamCursor, ParamView};
pub use lookup::entry;
pub use node::Node;
pub use node_types::{NodeType, Role};
pub use normal::{canonical_text, normalise, settled_text, view_text};
pub use series::scan_text;
pub use view::{BareView, Slice, Unviewed, View};
pub use writing::{put_bare_view, put_entry_view, put_view, write_view};
