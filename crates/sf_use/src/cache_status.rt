//! Cache-Status (RFC 9211 section 2): which caches handled a response, and how.
//!
//! The field is a List. Each member is a cache, named by a String or a Token; the first is the
//! cache nearest the origin, and the last the one nearest the user. The parameters of a member say
//! what that cache did. [`CacheStatus`] reads the field as a [`CachePath`], with a [`Hop`] for each
//! member. [`append_to_lines`] appends the member of your own cache to the lines of the field, and
//! [`append_hop`] to its List.
//!
//! ```
//! let path = sf_field::ask(alloc, &seed, &CacheStatus, lines.as_slice())?;
//! if let Some(index) = path.served_by() {
//!     let from = &path.hops()[index];
//! }
//! ```

mod appended;
mod appending;
mod hop;
mod params;
mod path;
mod reading;
mod scanning;
mod status;
mod view;

pub use appended::{AppendFault, Appended, append_to_lines};
pub use appending::append_hop;
pub use hop::{Forward, Hop, Name, Outcome, Passed};
pub use path::{CachePath, CacheStatus};
pub use status::HopStatus;
pub use view::{HopCursor, HopParams, HopView, NameView};
