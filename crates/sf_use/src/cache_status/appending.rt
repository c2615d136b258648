//! Appending a member for a hop.
ghost use Rattle.std.specs.Prelude.{◌≡◌, [], ◌∷◌, ◌++◌, IfOk, MatchResult};
ghost use Rattle.std.specs.Option.{option_map};
ghost use Rattle.sf_value.specs.declared.value.Bare.TheVariants as bare;
ghost use Rattle.sf_value.specs.Grammar.Tokens.{IsKey};
ghost use Rattle.sf_use.specs.CacheStatus.Members.{added, entry, parameters_of, passed_by};
ghost use Rattle.sf_use.specs.CacheStatus.Members.{bare_of as bare_name, hit_value as value_of_hit};
ghost use Rattle.sf_use.specs.CacheStatus.Members.{why_value as value_of_why};
ghost use Rattle.sf_use.specs.CacheStatus.Members.{status_value as value_of_status};
ghost use Rattle.sf_use.specs.CacheStatus.Members.{stored_value as value_of_stored};
ghost use Rattle.sf_use.specs.CacheStatus.Members.{collapsed_value as value_of_collapsed};
ghost use Rattle.sf_use.specs.CacheStatus.Reasons.{token_of as token_for};

use crate::cache_status::hop::{Forward, Hop, Name, Outcome};
use sf_value::{Bare, Entries, Int, Item, Key, List, Member, OutOfMemory, Text, TextFault, Token};
use std::alloc::Global;
use std::hash::RandomState;

/// Appends the member of a cache to a Cache-Status List, as the cache nearest the user (RFC 9211
/// section 2). Its parameters are in the order `hit`, `fwd`, `fwd-status`, `ttl`, `stored`,
/// `collapsed`, `key`, `detail`, each if the hop has it; `hit` for the outcomes `Hit` and
/// `Conflict`. The seed is that of the parameters. If an allocation fails, the List is unchanged.
///
/// ```
/// append_hop(alloc, &seed, &mut list, &hop)?;
/// ```
pub fn append_hop(
    alloc: Global,
    seed: &RandomState,
    list: &mut List,
    hop: &Hop,
) -> Result<(), OutOfMemory>
    // The hop's member is added at the end, or an allocation failed and the List is unchanged.
    ensures { MatchResult result
        (λ _. list.new.members ≡ list.old.members ++ entry hop.now ∷ [])
        (λ _. list.new ≡ list.old) }
{
    let member = member_of(alloc, seed, hop)?;
    list.members.push(member)?;
    Ok(())
}

/// Returns the member of a hop.
fn member_of(alloc: Global, seed: &RandomState, hop: &Hop) -> Result<Member, OutOfMemory>
    ensures { IfOk result (λ member. member ≡ entry hop.now) }
{
    let bare = bare_of(alloc, &hop.name)?;
    let params = params_of(alloc, seed, hop)?;
    Ok(Item { bare, params }.into())
}

/// Returns the parameters of a hop, in the order in which they are written.
fn params_of(alloc: Global, seed: &RandomState, hop: &Hop) -> Result<Entries<Bare>, OutOfMemory>
    ensures { IfOk result (λ params. params ≡ parameters_of hop.now) }
{
    let outcome = &hop.outcome;
    let mut params = Entries::new(alloc, seed);
    put(alloc, &mut params, b"hit", hit_value(outcome))?;
    let why = why_value(alloc, outcome)?;
    put(alloc, &mut params, b"fwd", why)?;
    put(alloc, &mut params, b"fwd-status", status_value(outcome))?;
    put(alloc, &mut params, b"ttl", ttl_value(hop.ttl))?;
    put(alloc, &mut params, b"stored", stored_value(outcome))?;
    put(alloc, &mut params, b"collapsed", collapsed_value(outcome))?;
    let key = key_value(alloc, &hop.key)?;
    put(alloc, &mut params, b"key", key)?;
    let detail = detail_value(alloc, &hop.detail)?;
    put(alloc, &mut params, b"detail", detail)?;
    Ok(params)
}

/// Puts a parameter, if it has a value.
fn put(
    alloc: Global,
    params: &mut Entries<Bare>,
    key: &[u8],
    value: Option<Bare>,
) -> Result<(), OutOfMemory>
    requires { IsKey key.now }
    // The parameter is put if it has a value.
    ensures { IfOk result (λ _. params.new ≡ added params.old key.now value) }
{
    let Some(value) = value else {
        return Ok(());
    };
    let key = match Key::new(alloc, key) {
        Ok(key) => key,
        Err(TextFault::OutOfMemory) => return Err(OutOfMemory),
        Err(TextFault::Empty) => unreachable!(),
        Err(TextFault::BadByte { .. }) => unreachable!(),
    };
    params.set(key, value)
}

/// Returns the value of `hit`, if it is written.
fn hit_value(outcome: &Outcome) -> Option<Bare>
    ensures { result ≡ value_of_hit outcome.now }
{
    outcome.says_hit().then_some(Bare::Boolean(true))
}

/// Returns the value of `fwd`, if it is written.
fn why_value(alloc: Global, outcome: &Outcome) -> Result<Option<Bare>, OutOfMemory>
    ensures { IfOk result (λ value. value ≡ value_of_why (passed_by outcome.now)) }
{
    match outcome.passed() {
        Some(passed) => Ok(Some(Bare::Token(token_of(alloc, &passed.why)?))),
        None => Ok(None),
    }
}

/// Returns the token of a reason.
fn token_of(alloc: Global, why: &Forward) -> Result<Token, OutOfMemory>
    ensures { IfOk result (λ token. token ≡ token_for why.now) }
{
    match Token::new(alloc, why.as_bytes()) {
        Ok(token) => Ok(token),
        Err(TextFault::OutOfMemory) => Err(OutOfMemory),
        Err(TextFault::Empty) => unreachable!(),
        Err(TextFault::BadByte { .. }) => unreachable!(),
    }
}

/// Returns the value of `fwd-status`, if it is written.
fn status_value(outcome: &Outcome) -> Option<Bare>
    ensures { result ≡ value_of_status (passed_by outcome.now) }
{
    let code = i32::from(outcome.status()?.get());
    Some(Bare::Integer(Int::from(code)))
}

/// Returns the value of `ttl`, if it is written.
fn ttl_value(ttl: Option<Int>) -> Option<Bare>
    ensures { result ≡ option_map bare.Integer ttl }
{
    Some(Bare::Integer(ttl?))
}

/// Returns the value of `stored`, if it is written.
fn stored_value(outcome: &Outcome) -> Option<Bare>
    ensures { result ≡ value_of_stored (passed_by outcome.now) }
{
    Some(Bare::Boolean(outcome.stored()?))
}

/// Returns the value of `collapsed`, if it is written.
fn collapsed_value(outcome: &Outcome) -> Option<Bare>
    ensures { result ≡ value_of_collapsed (passed_by outcome.now) }
{
    Some(Bare::Boolean(outcome.collapsed()?))
}

/// Returns the value of `key`, if it is written.
fn key_value(alloc: Global, key: &Option<Text>) -> Result<Option<Bare>, OutOfMemory>
    ensures { IfOk result (λ value. value ≡ option_map bare.Text key.now) }
{
    match key {
        Some(key) => Ok(Some(Bare::Text(key.copy(alloc)?))),
        None => Ok(None),
    }
}

/// Returns the value of `detail`, if it is written.
fn detail_value(alloc: Global, detail: &Option<Name>) -> Result<Option<Bare>, OutOfMemory>
    ensures { IfOk result (λ value. value ≡ option_map bare_name detail.now) }
{
    match detail {
        Some(detail) => Ok(Some(bare_of(alloc, detail)?)),
        None => Ok(None),
    }
}

/// Returns a name as a bare item.
fn bare_of(alloc: Global, name: &Name) -> Result<Bare, OutOfMemory>
    ensures { IfOk result (λ bare. bare ≡ bare_name name.now) }
{
    match name {
        Name::Text(text) => Ok(Bare::Text(text.copy(alloc)?)),
        Name::Token(token) => Ok(Bare::Token(token.copy(alloc)?)),
    }
}
