//! Bare items and parameters that point into the text.

/// A bare item of a text.
#[derive(Clone, Copy)]
pub enum Leaf<'a> {
    /// An Integer.
    Integer(i64),
    /// A Decimal, in thousandths.
    Decimal(i64),
    /// A Date, in seconds since 1970-01-01T00:00:00Z.
    Date(i64),
    /// The bytes of a Token.
    Token(&'a [u8]),
    /// The bytes between the quotes of a String that has no backslash: they are its value.
    Text(&'a [u8]),
    /// The bytes between the quotes of a String that has one: its value is these bytes without the
    /// backslash before each escaped byte.
    Escaped(&'a [u8]),
    /// The characters between the colons of a Byte Sequence, which are base64.
    Blob(&'a [u8]),
    /// The bytes between the quotes of a Display String: its value is these bytes, with each escape
    /// replaced by the byte that it encodes.
    Display(&'a [u8]),
    /// A Boolean.
    Boolean(bool),
}

/// A parameter of a text.
#[derive(Clone, Copy)]
pub struct Param<'a> {
    /// The bytes of its key.
    pub key: &'a [u8],
    /// Its value.
    pub leaf: Leaf<'a>,
}
