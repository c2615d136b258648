//! The parameters of Cache-Status (RFC 9211) that are ignored, since they have another type or
//! range than the RFC states, and those that are not ignored, but invalid.
ghost use Rattle.std.specs.Prelude.{◌≡◌, ◌++◌, IfOk};
ghost use Rattle.sf_value.specs.Lookups.{as_integer as integer_of};
ghost use Rattle.sf_use.specs.CacheStatus.Hops.{status_of as status_in};
ghost use Rattle.sf_lint.specs.Meanings.{hop_key, ignored_line, is_other as is_other_in};
ghost use Rattle.sf_lint.specs.Meanings.{has_both, has_invalid_status, invalid_line};
ghost use Rattle.sf_lint.specs.Meanings.{ignored_params as params_in};
ghost use Rattle.sf_lint.specs.Meanings.{invalid_params as invalid_params_in};
ghost use Rattle.sf_lint.specs.Meanings.{ignored_member as member_in};
ghost use Rattle.sf_lint.specs.Meanings.{ignored_members as members_in};

use crate::colours::Verdict;
use crate::settings::Settings;
use sf_use::HopStatus;
use sf_value::{Bare, Entries, Member, OutOfMemory};
use std::alloc::Global;

/// The type and range of a parameter that RFC 9211 states.
#[derive(Clone, Copy)]
enum ParamType {
    /// A Boolean.
    Boolean,
    /// An Integer.
    Integer,
    /// An Integer from 100 to 999.
    Status,
    /// A Token.
    Token,
    /// A String.
    Text,
    /// A String or a Token.
    Name,
}

/// Returns whether the parameter at the key is present, and not of this type.
fn is_other(params: &Entries<Bare>, key: &[u8], expected: ParamType) -> bool
    ensures { result ≡ is_other_in expected key.now params.now }
{
    let Some(bare) = params.get(key) else {
        return false;
    };
    match expected {
        ParamType::Boolean => return bare.as_boolean().is_none(),
        ParamType::Integer => return bare.as_integer().is_none(),
        ParamType::Status => return status_of(bare).is_none(),
        ParamType::Token => return bare.as_token().is_none(),
        ParamType::Text => return bare.as_text().is_none(),
        ParamType::Name => return !matches!(bare, Bare::Text(_) | Bare::Token(_)),
    }
}

/// Returns a bare item as a status code, if it is an Integer from 100 to 999.
fn status_of(bare: &Bare) -> Option<HopStatus>
    ensures { result ≡ status_in (integer_of bare.now) }
{
    let code = u16::try_from(bare.as_integer()?.get()).ok()?;
    HopStatus::new(code).ok()
}

/// Returns the text, followed by the line for the parameter at this key of the member of this
/// number, if it is ignored: it is not of this type.
fn with_ignored(
    alloc: Global,
    settings: &Settings,
    text: Vec<u8>,
    number: usize,
    params: &Entries<Bare>,
    key: &str,
    expected: ParamType,
) -> Result<Vec<u8>, OutOfMemory>
    ensures { IfOk result (λ longer. longer.items ≡ text.items ++ ignored_line settings.now
        (hop_key number key.now) (is_other_in expected key.now params.now)) }
{
    if !is_other(params, key.as_bytes(), expected) {
        return Ok(text);
    }
    let mut text = text;
    let ignored = Verdict::Ignored.text(settings);
    let line = format!(in alloc; "{ignored} hop {number} {key}\n")?;
    text.extend_from_slice(line.as_bytes())?;
    Ok(text)
}

/// Returns the lines for the parameters of the member of this number that are ignored.
fn ignored_params(
    alloc: Global,
    settings: &Settings,
    number: usize,
    params: &Entries<Bare>,
) -> Result<Vec<u8>, OutOfMemory>
    ensures { IfOk result (λ text. text.items ≡ params_in settings.now number params.now) }
{
    let text = Vec::new(alloc);
    let boolean = ParamType::Boolean;
    let text = with_ignored(alloc, settings, text, number, params, "hit", boolean)?;
    let token = ParamType::Token;
    let text = with_ignored(alloc, settings, text, number, params, "fwd", token)?;
    let status = ParamType::Status;
    let text = with_ignored(alloc, settings, text, number, params, "fwd-status", status)?;
    let integer = ParamType::Integer;
    let text = with_ignored(alloc, settings, text, number, params, "ttl", integer)?;
    let text = with_ignored(alloc, settings, text, number, params, "stored", boolean)?;
    let text = with_ignored(alloc, settings, text, number, params, "collapsed", boolean)?;
    let string = ParamType::Text;
    let text = with_ignored(alloc, settings, text, number, params, "key", string)?;
    let name = ParamType::Name;
    with_ignored(alloc, settings, text, number, params, "detail", name)
}

/// Returns whether `hit` and `fwd` are both read, while "only one of them should appear on each
/// list member" (RFC 9211 section 2.1).
fn is_both(params: &Entries<Bare>) -> bool
    ensures { result ≡ has_both params.now }
{
    match (params.get(b"hit"), params.get(b"fwd")) {
        (Some(hit), Some(fwd)) => hit.as_boolean().is_some() && fwd.as_token().is_some(),
        _ => false,
    }
}

/// Returns whether `fwd-status` is a status code that is not valid: 600 to 999 (RFC 9110 section
/// 15).
fn is_invalid_status(params: &Entries<Bare>) -> bool
    ensures { result ≡ has_invalid_status params.now }
{
    let Some(bare) = params.get(b"fwd-status") else {
        return false;
    };
    match status_of(bare) {
        Some(status) => !status.is_valid(),
        None => false,
    }
}

/// Returns the line for parameters of the member of this number that are invalid; nothing if they
/// are not.
fn invalid_text(
    alloc: Global,
    settings: &Settings,
    number: usize,
    what: &str,
    is_invalid: bool,
) -> Result<Vec<u8>, OutOfMemory>
    ensures { IfOk result
        (λ text. text.items ≡ invalid_line settings.now (hop_key number what.now) is_invalid) }
{
    if !is_invalid {
        return Ok(Vec::new(alloc));
    }
    let invalid = Verdict::Invalid.text(settings);
    let line = format!(in alloc; "{invalid} hop {number} {what}\n")?;
    Ok(line.into_bytes())
}

/// Returns the lines for the parameters of the member of this number that are not ignored, but
/// invalid.
fn invalid_params(
    alloc: Global,
    settings: &Settings,
    number: usize,
    params: &Entries<Bare>,
) -> Result<Vec<u8>, OutOfMemory>
    ensures { IfOk result (λ text. text.items ≡ invalid_params_in settings.now number params.now) }
{
    let mut text = invalid_text(alloc, settings, number, "hit fwd", is_both(params))?;
    let status = is_invalid_status(params);
    let status = invalid_text(alloc, settings, number, "fwd-status", status)?;
    text.extend_from_slice(status.as_slice())?;
    Ok(text)
}

/// Returns the lines for the parameters of the member of this number that are ignored, and for
/// those that are invalid.
fn told_params(
    alloc: Global,
    settings: &Settings,
    number: usize,
    params: &Entries<Bare>,
) -> Result<Vec<u8>, OutOfMemory>
    ensures { IfOk result (λ text. text.items
        ≡ params_in settings.now number params.now ++ invalid_params_in settings.now number
        params.now) }
{
    let mut text = ignored_params(alloc, settings, number, params)?;
    let invalid = invalid_params(alloc, settings, number, params)?;
    text.extend_from_slice(invalid.as_slice())?;
    Ok(text)
}

/// Returns the same for a member of Cache-Status.
fn ignored_member(
    alloc: Global,
    settings: &Settings,
    number: usize,
    member: &Member,
) -> Result<Vec<u8>, OutOfMemory>
    ensures { IfOk result (λ text. text.items ≡ member_in settings.now number member.now) }
{
    match member {
        Member::Item(item) => told_params(alloc, settings, number, &item.params),
        Member::Inner(_) => Ok(Vec::new(alloc)),
    }
}

/// Returns the same for all members of Cache-Status, in order.
pub(crate) fn ignored_members(
    alloc: Global,
    settings: &Settings,
    members: &[Member],
) -> Result<Vec<u8>, OutOfMemory>
    ensures { IfOk result (λ text. text.items ≡ members_in settings.now 0 members.now) }
{
    let mut text = Vec::new(alloc);
    for (number, member) in members.iter().enumerate() {
        let lines = ignored_member(alloc, settings, number, member)?;
        text.extend_from_slice(lines.as_slice())?;
    }
    Ok(text)
}
