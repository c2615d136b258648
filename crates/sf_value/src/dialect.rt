//! The dialects of structured fields (RFC 9651 section 2.4 and appendix D).

/// The RFC by which a text is parsed. A text that RFC 8941 accepts has the same value by RFC 9651.
#[derive(Clone, Copy, Debug, PartialEq, Eq)]
pub enum Dialect {
    /// RFC 8941, which has no Dates and no Display Strings: a text with one is refused.
    Rfc8941,
    /// RFC 9651, which has all eight bare items.
    Rfc9651,
}
