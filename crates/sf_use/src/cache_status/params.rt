//! Parameters by key and type. A parameter of another type counts as absent.
ghost use Rattle.std.specs.Prelude.{◌≡◌, IfOk};
ghost use Rattle.std.specs.Option.{option_copied};
ghost use Rattle.sf_use.specs.CacheStatus.Parameters.{as_name, boolean_at as boolean_under};
ghost use Rattle.sf_use.specs.CacheStatus.Parameters.{integer_at as integer_under};
ghost use Rattle.sf_use.specs.CacheStatus.Parameters.{name_at as name_under, text_at as text_under};
ghost use Rattle.sf_use.specs.CacheStatus.Parameters.{token_at as token_under};

use crate::cache_status::hop::Name;
use sf_value::{Bare, Entries, Int, OutOfMemory, Text, Token};
use std::alloc::Global;

/// Returns the Boolean at the key, if there is one.
pub(crate) fn boolean_at(params: &Entries<Bare>, key: &[u8]) -> Option<bool>
    ensures { result ≡ boolean_under key.now params.now }
{
    params.get(key)?.as_boolean()
}

/// Returns the Integer at the key, if there is one.
pub(crate) fn integer_at(params: &Entries<Bare>, key: &[u8]) -> Option<Int>
    ensures { result ≡ integer_under key.now params.now }
{
    params.get(key)?.as_integer()
}

/// Returns the Token at the key, if there is one.
pub(crate) fn token_at<'a>(params: &'a Entries<Bare>, key: &[u8]) -> Option<&'a Token>
    ensures { option_copied result ≡ token_under key.now params.now }
{
    params.get(key)?.as_token()
}

/// Returns a copy of the String at the key, if there is one.
pub(crate) fn text_at(
    alloc: Global,
    params: &Entries<Bare>,
    key: &[u8],
) -> Result<Option<Text>, OutOfMemory>
    ensures { IfOk result (λ text. text ≡ text_under key.now params.now) }
{
    match params.get(key) {
        Some(Bare::Text(text)) => Ok(Some(text.copy(alloc)?)),
        _ => Ok(None),
    }
}

/// Returns a copy of the String or Token at the key, if there is one.
pub(crate) fn name_at(
    alloc: Global,
    params: &Entries<Bare>,
    key: &[u8],
) -> Result<Option<Name>, OutOfMemory>
    ensures { IfOk result (λ name. name ≡ name_under key.now params.now) }
{
    match params.get(key) {
        Some(bare) => name_of(alloc, bare),
        None => Ok(None),
    }
}

/// Returns a copy of a bare item as a name, if it is a String or a Token.
pub(crate) fn name_of(alloc: Global, bare: &Bare) -> Result<Option<Name>, OutOfMemory>
    ensures { IfOk result (λ name. name ≡ as_name bare.now) }
{
    match bare {
        Bare::Text(text) => Ok(Some(Name::Text(text.copy(alloc)?))),
        Bare::Token(token) => Ok(Some(Name::Token(token.copy(alloc)?))),
        _ => Ok(None),
    }
}
