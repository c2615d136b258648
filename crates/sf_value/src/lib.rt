//! The values of Structured Fields for HTTP (RFC 9651): what a parser returns, what a writer
//! writes, and what a user builds, reads and compares.
//!
//! A [`Field`] is an [`Item`], a [`List`] or a [`Dict`]. An `Item` is a [`Bare`] item, of one of
//! eight types, with parameters. A member of a `List` or of a `Dict` is an `Item` or an [`Inner`]
//! list of `Item`s. Parameters and the members of a `Dict` are [`Entries`], values by [`Key`] in
//! the order in which the keys were first put; the members of a `List` and the `Item`s of an
//! `Inner` are a [`Sequence`], a small type over a `Vec`. The invariant of each type is what the
//! RFC requires, so any value can be written: an [`Int`] has at most 15 digits, a `Key` or a
//! [`Token`] has its alphabet, no key occurs twice.
//!
//! Fields are parsed by `sf_parse` and written by `sf_write`. Here, [`same`] compares two as trees,
//! in which order counts, and [`copy`] copies one. A call that makes a value takes the allocator
//! first, if the value may need it, and a seed next if it makes `Entries`; entries and sequences
//! keep these for what is added. A call that may allocate returns a `Result`. A call that fails
//! leaves the values that it borrowed unchanged. To build the Item `a;q=1`:
//!
//! ```text
//! let seed = RandomState::new(&rt)?;
//! let bare = Bare::Token(Token::new(alloc, b"a")?);
//! let item = Item::new(alloc, &seed, bare)
//!     .with_param(Key::new(alloc, b"q")?, Bare::Integer(Int::from(1)))?;
//! let field = Field::Item(item);
//! ```
//!
//! [`Source`] and [`Sink`] are the devices that texts are read from and written to; [`Reading`] and
//! [`Writing`] make these from any reader and writer. `specs/Grammar` defines which text spells
//! which value, and the canonical text of a value, in the terms of the RFC and without any code;
//! [`laws`] are proved of these definitions.
#![tactic(auto)]

mod blob;
mod building;
mod bytes;
mod capacity;
pub mod classes;
mod conversion;
mod device;
mod dialect;
mod digits;
mod display_string;
mod entries;
mod equality;
mod fault;
mod key;
mod key_hash;
mod lanes;
pub mod laws;
mod lookup;
mod number;
mod part;
mod sequence;
mod store;
mod table;
mod text;
mod token;
mod tree;
mod value;
mod word;

pub use blob::Blob;
pub use bytes::ShortBytes;
pub use classes::{
    can_be_in_key, can_be_in_token, can_start_key, can_start_token, is_ows, is_visible,
    stands_for_itself,
};
pub use device::{Failed, Reading, Sink, Source, Writing};
pub use dialect::Dialect;
pub use digits::{hex_digits, sextet, unhex};
pub use display_string::Shown;
pub use entries::{Entries, IntoIter, Iter, IterMut};
pub use fault::{OutOfMemory, OutOfRange, TextFault};
pub use key::Key;
pub use number::{Int, Thousandths};
pub use part::Part;
pub use sequence::Sequence;
pub use text::Text;
pub use token::Token;
pub use tree::{copy, same};
pub use value::{Bare, Dict, Field, Inner, Item, Kind, List, Member};
