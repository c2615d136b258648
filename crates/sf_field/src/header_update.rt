//! Setting fields in a header map.
ghost use Rattle.std.specs.Prelude.{◌≡◌, ◌≢◌, ◌↔◌, [], Some, IfOk, IsErr, OnErr, OnOk, IsErrOf};
ghost use Rattle.http_header.specs.FieldValue.{plain_value};
ghost use Rattle.http_header.specs.HeaderMap.{RefusesInsert, insert as with_value};
ghost use Rattle.sf_value.specs.Grammar.Canonical.{canon};
ghost use Rattle.sf_field.specs.Faults.{set_fault_text};
ghost use Rattle.sf_field.specs.Headers.{set_text};
ghost use Rattle.sf_field.specs.declared.header_update.SetFault.TheVariants as fault_is;

use http_header::{HeaderMap, HeaderMapError, HeaderName, HeaderValue, HeaderValueError};
use sf_value::{Field, OutOfMemory};
use sf_write::to_text;
use std::alloc::Global;
use std::error::Error;
use std::fmt;

/// Why a field could not be set in a header map.
#[derive(Clone, Copy, Debug, PartialEq, Eq)]
pub enum SetFault {
    /// The name is new, and the map is full.
    Full,
    /// An allocation for the value or the map failed.
    OutOfMemory,
}

impl fmt::Display for SetFault {
    ghost output = { λ fault. Some (set_fault_text fault) };

    fn fmt<W: fmt::Write>(&self, f: &mut fmt::Formatter<W>) -> fmt::Result {
        match self {
            SetFault::Full => write!(f, "no room for a further name"),
            SetFault::OutOfMemory => write!(f, "out of memory"),
        }
    }
}

impl Error for SetFault {}

impl From<OutOfMemory> for SetFault {
    ghost from_gives = { λ _ e. e ≡ fault_is.OutOfMemory };

    fn from(_fault: OutOfMemory) -> SetFault {
        SetFault::OutOfMemory
    }
}

/// Returns the canonical text of a field (RFC 9651 section 4.1) as a header value. Every canonical
/// text is a valid one, so this fails only if an allocation fails.
///
/// ```
/// let value = header_value(alloc, &field)?;
/// ```
pub fn header_value(alloc: Global, field: &Field) -> Result<HeaderValue, OutOfMemory>
    // The value is the canonical text, and not marked as sensitive.
    ensures { IfOk result (λ value. value ≡ plain_value (canon field.now)) }
{
    let text = to_text(alloc, field)?;
    match HeaderValue::from_vec(text) {
        Ok(value) => Ok(value),
        Err(HeaderValueError::Invalid) => unreachable!(),
        Err(HeaderValueError::OutOfMemory) => Err(OutOfMemory),
    }
}

/// Sets a field in a header map: its canonical text replaces all values of the name. A List or a
/// Dictionary without members is not sent (RFC 9651 section 4.1), so the name is removed instead,
/// as by `HeaderMap::remove`, which moves the last name into its place. No other field has an empty
/// text ([`sf_value::laws::canon_is_empty`]). An error leaves the map unchanged.
///
/// ```
/// let priority = HeaderName::from_static("priority");
/// set_field(alloc, &mut headers, priority, &field)?; // priority: u=1, i
/// ```
pub fn set_field(
    alloc: Global,
    headers: &mut HeaderMap,
    name: HeaderName,
    field: &Field,
) -> Result<(), SetFault>
    ensures set { OnOk result (headers.new ≡ set_text headers.old name (canon field.now)) }
    // The map is full only for a new name, and for a field that is sent.
    ensures full { IsErrOf result SetFault.Full
        → RefusesInsert headers.old name × (canon field.now ≢ []) }
    // Such a field is not set in a map that has no capacity for its name.
    ensures refused { RefusesInsert headers.old name → canon field.now ≢ [] → IsErr result }
    ensures same { OnErr result (headers.new ≡ headers.old) }
{
    let value = header_value(alloc, field)?;
    if value.is_empty() {
        drop(headers.remove(&name));
        return Ok(());
    }
    insert(headers, name, value)
}

/// Puts the value in place of all values of the name.
fn insert(headers: &mut HeaderMap, name: HeaderName, value: HeaderValue) -> Result<(), SetFault>
    ensures set { OnOk result (headers.new ≡ with_value headers.old name value) }
    ensures full { IsErrOf result SetFault.Full ↔ RefusesInsert headers.old name }
    ensures same { OnErr result (headers.new ≡ headers.old) }
{
    match headers.insert(name, value) {
        Ok(_) => return Ok(()),
        Err(HeaderMapError::MaxSizeReached) => return Err(SetFault::Full),
        Err(HeaderMapError::OutOfMemory) => return Err(SetFault::OutOfMemory),
    }
}
