//! Which fields are structured, and what is printed.
ghost use Rattle.std.specs.Prelude.{◌≡◌};
ghost use Rattle.sf_lint.specs.Settings.{custom_kind as custom_kind_in, is_targeted as is_targeted_in};
ghost use Rattle.sf_lint.specs.Settings.{type_of as type_in};

use crate::registry::{dialect_of, kind_of};
use http_header::HeaderName;
use sf_value::{Dialect, Kind};

/// A field that is structured because the settings have it, with its kind. Its dialect is that of
/// RFC 9651, also if the field is registered with another.
#[derive(Debug, Drop)]
pub struct CustomField {
    /// The name of the field.
    pub name: HeaderName,
    /// The kind of its value.
    pub kind: Kind,
}

/// The fields that are checked in addition to the registered ones, and how much is printed.
#[derive(Debug, Drop)]
pub struct Settings {
    /// Fields that are structured in addition to the registered ones. The first for a name
    /// counts, and takes precedence over a registered field.
    pub fields: Vec<CustomField>,
    /// Whether only refusals and decisions are printed.
    pub quiet: bool,
    /// Whether at the beginning of a line the word `ok` is green, `refused` red, and `ignored` and
    /// `invalid` yellow, by escape sequences for terminals.
    pub colour: bool,
}

/// The caches whose decisions are printed, and what a head doesn't say of a response.
#[derive(Debug, Drop)]
pub struct CacheSettings {
    /// The target list of the caches (RFC 9213 section 2.2): the first field of these names that
    /// can be used decides alone. [`crate::read_options`] returns from 1 to 64.
    pub targets: Vec<HeaderName>,
    /// The age of each response, in seconds; `None` for the age that its `Age` states.
    pub age: Option<u64>,
}

/// The kind and the dialect of a structured field.
#[derive(Clone, Copy, Debug, PartialEq, Eq)]
pub struct FieldType {
    /// The dialect of the field's specification.
    pub dialect: Dialect,
    /// The kind of its value.
    pub kind: Kind,
}

/// The kind that the settings have for the name, if there is one.
fn custom_kind(fields: &[CustomField], name: &HeaderName) -> Option<Kind>
    ensures { result ≡ custom_kind_in fields.now name.now }
{
    for field in fields {
        if field.name == *name {
            return Some(field.kind);
        }
    }
    None
}

/// Whether the name is that of a targeted cache control field (RFC 9213): it ends in
/// `-cache-control`.
pub(crate) fn is_targeted(name: &[u8]) -> bool
    ensures { result ≡ is_targeted_in name.now }
{
    name.ends_with(b"-cache-control")
}

/// The type of the field with this name, in lower case: None if it is not structured.
pub(crate) fn type_of(settings: &Settings, name: &HeaderName) -> Option<FieldType>
    ensures { result ≡ type_in settings.now name.now }
{
    if let Some(kind) = custom_kind(settings.fields.as_slice(), name) {
        return Some(FieldType {
            dialect: Dialect::Rfc9651,
            kind,
        });
    }
    if let Some(kind) = kind_of(name.as_str()) {
        return Some(FieldType {
            dialect: dialect_of(name.as_str()),
            kind,
        });
    }
    if is_targeted(name.as_bytes()) {
        return Some(FieldType {
            dialect: Dialect::Rfc8941,
            kind: Kind::Dict,
        });
    }
    None
}
