//! The values of fields (RFC 9651 section 3).
ghost use Rattle.std.specs.Prelude.{◌≡◌};
ghost use Rattle.sf_value.specs.Grammar.Fields.{kind_of};

use crate::blob::Blob;
use crate::display_string::Shown;
use crate::entries::Entries;
use crate::number::{Int, Thousandths};
use crate::sequence::Sequence;
use crate::text::Text;
use crate::token::Token;

/// A bare item: a value without parameters (RFC 9651 section 3.3). Bare items of different types
/// differ, so the Integer 1, the Decimal 1.0 and the Date of second 1 are three values.
///
/// ```
/// let urgency = Bare::Integer(Int::new(1)?);
/// let incremental = Bare::Boolean(true);
/// urgency.as_integer() // Some(1)
/// ```
///
/// The numbers in it are `Copy`, and the toolchain refuses one pattern that takes such a number by
/// value out of a `Bare` within another enum, as `Ok(Some(Bare::Integer(old)))`. Match in two steps
/// or by reference, or look the number up: `Ok(Some(old)) => old.as_integer()`.
#[derive(Debug, Drop)]
pub enum Bare {
    /// An Integer (section 3.3.1).
    Integer(Int),
    /// A Decimal (section 3.3.2), in thousandths.
    Decimal(Thousandths),
    /// A String (section 3.3.3).
    Text(Text),
    /// A Token (section 3.3.4).
    Token(Token),
    /// A Byte Sequence (section 3.3.5).
    Blob(Blob),
    /// A Boolean (section 3.3.6).
    Boolean(bool),
    /// A Date (section 3.3.7), in seconds since 1970-01-01T00:00:00Z; RFC 8941 has none.
    Date(Int),
    /// A Display String (section 3.3.8); RFC 8941 has none.
    Shown(Shown),
}

/// An Item: a bare item with parameters (RFC 9651 section 3.3).
///
/// ```
/// let item = Item::new(alloc, &seed, Bare::Token(Token::new(alloc, b"a")?))
///     .with_param(Key::new(alloc, b"q")?, Bare::Integer(Int::from(1)))?; // a;q=1
/// ```
#[derive(Debug, Drop)]
pub struct Item {
    /// The bare item.
    pub bare: Bare,
    /// Its parameters (section 3.1.2), in order.
    pub params: Entries<Bare>,
}

/// An Inner List: Items in parentheses, with parameters (RFC 9651 section 3.1.1).
///
/// ```
/// let inner = Inner::new(alloc, &seed).with_item(item)?; // (a;q=1)
/// ```
#[derive(Debug, Drop)]
pub struct Inner {
    /// The Items in order, each with its parameters.
    pub items: Sequence<Item>,
    /// The parameters of the Inner List as a whole.
    pub params: Entries<Bare>,
}

/// A member of a List or of a Dictionary (RFC 9651 sections 3.1 and 3.2).
///
/// ```
/// match member {
///     Member::Item(item) => ..
///     Member::Inner(inner) => ..
/// }
/// ```
#[derive(Debug, Drop)]
pub enum Member {
    /// An Item.
    Item(Item),
    /// An Inner List.
    Inner(Inner),
}

/// A List (RFC 9651 section 3.1).
///
/// ```
/// for member in &list.members {
///     ..
/// }
/// ```
#[derive(Debug, Drop)]
pub struct List {
    /// Its members in order; there may be none.
    pub members: Sequence<Member>,
}

/// A Dictionary (RFC 9651 section 3.2).
///
/// ```
/// let urgency = dict.members.get(b"u"); // the Member, if there is one
/// ```
#[derive(Debug, Drop)]
pub struct Dict {
    /// Its members by key, in order; there may be none.
    pub members: Entries<Member>,
}

/// The value of a field (RFC 9651 section 3).
///
/// ```
/// match parse_text(alloc, &seed, Kind::Dict, b"u=1, i")? {
///     Field::Dict(dict) => ..
///     Field::Item(_) | Field::List(_) => .. // of another kind than was passed in: never
/// }
/// ```
#[derive(Debug, Drop)]
pub enum Field {
    /// The field is an Item.
    Item(Item),
    /// The field is a List.
    List(List),
    /// The field is a Dictionary.
    Dict(Dict),
}

/// The kinds of fields. The definition of a field states its kind; a text alone does not show it.
#[derive(Clone, Copy, Debug, PartialEq, Eq)]
pub enum Kind {
    /// An Item.
    Item,
    /// A List.
    List,
    /// A Dictionary.
    Dict,
}

impl Field {
    /// The kind of the field. It does not allocate.
    pub fn kind(&self) -> Kind
        ensures { result ≡ kind_of self.now }
    {
        match self {
            Field::Item(_) => Kind::Item,
            Field::List(_) => Kind::List,
            Field::Dict(_) => Kind::Dict,
        }
    }
}
