//! What a cache decides by the field that it obeys, or by `Cache-Control`, as a text.
ghost use Rattle.std.specs.Prelude.{◌≡◌, ◌++◌, IfOk};
ghost use Rattle.sf_write.specs.Writing.{Follows};
ghost use Rattle.sf_use.specs.declared.caching.Reuse.TheVariants as reuse_is;
ghost use Rattle.sf_tool.specs.Deciding.{IsChoiceText, IsDecisionText, IsDecisionTextIn};
ghost use Rattle.sf_tool.specs.Deciding.{IsRulesPlaceOf, cache_word, cause_text, decision_line};
ghost use Rattle.sf_tool.specs.Deciding.{dialects_text, different_text, fallback_lines};
ghost use Rattle.sf_tool.specs.Deciding.{obeyed_lines, reuse_text, rules_lines, same_text};
ghost use Rattle.sf_tool.specs.Deciding.{with_cache_control as names_with};

use crate::choice::{put_field_line, put_policy};
use crate::refusing::put_number;
use http_header::{CACHE_CONTROL, HeaderMap, HeaderName};
use sf_use::{
    CacheKind, CacheRules, Cause, Decision, Reuse, RulesChoice, fallback_rules, select_rules_in,
};
use sf_value::{Dialect, OutOfMemory, Sink, Writing};
use sf_write::{Sent, put};
use std::alloc::Global;
use std::hash::RandomState;

/// Returns the names of the fields that are read: these, and `Cache-Control`. Fails only if an
/// allocation fails.
pub fn with_cache_control(
    alloc: Global,
    names: &[HeaderName],
) -> Result<Vec<HeaderName>, OutOfMemory>
    ensures { IfOk result (λ all. all.items ≡ names_with names.now) }
{
    let mut all = Vec::new(alloc);
    for name in names {
        all.push(name.clone()?)?;
    }
    all.push(CACHE_CONTROL)?;
    Ok(all)
}

/// Returns the word of a kind of cache, and a space.
fn word_of(cache: CacheKind) -> &'static str
    ensures { result.now ≡ cache_word cache }
{
    match cache {
        CacheKind::Shared => "shared ",
        CacheKind::Private => "private ",
    }
}

/// Returns the word of what decided.
fn cause_word(by: Cause) -> &'static str
    ensures { result.now ≡ cause_text by }
{
    match by {
        Cause::Nothing => "nothing",
        Cause::NoStore => "no-store",
        Cause::Private => "private",
        Cause::MustUnderstand => "must-understand",
        Cause::NoCache => "no-cache",
        Cause::MaxAge => "max-age",
        Cause::SMaxage => "s-maxage",
        Cause::InvalidMaxAge => "invalid-max-age",
        Cause::InvalidSMaxage => "invalid-s-maxage",
        Cause::Expires => "expires",
        Cause::MustRevalidate => "must-revalidate",
        Cause::ProxyRevalidate => "proxy-revalidate",
    }
}

/// Writes that a response stays fresh for so many seconds.
fn put_fresh<W: Sink>(seconds: u64, before: Sent, out: &mut W) -> Sent
    ensures { Follows W.state W.send_gives out.old out.new before result
        (reuse_text (reuse_is.Fresh seconds)) }
{
    let sent = put(b"fresh ", before, out);
    put_number(seconds, sent, out)
}

/// Writes how a response may be used.
fn put_reuse<W: Sink>(reuse: Reuse, before: Sent, out: &mut W) -> Sent
    ensures { Follows W.state W.send_gives out.old out.new before result (reuse_text reuse) }
{
    match reuse {
        Reuse::NotStored => return put(b"not-stored", before, out),
        Reuse::Fresh { seconds } => return put_fresh(seconds, before, out),
        Reuse::Stale => return put(b"stale", before, out),
        Reuse::MustRevalidate => return put(b"revalidate", before, out),
        Reuse::Unspecified => return put(b"unspecified", before, out),
    }
}

/// Writes the line of what a cache of this kind decides (RFC 9111) after what was sent before. Does
/// not allocate.
pub fn put_decision<W: Sink>(
    cache: CacheKind,
    decision: Decision,
    before: Sent,
    out: &mut W,
) -> Sent
    ensures { Follows W.state W.send_gives out.old out.new before result
        (decision_line cache decision) }
{
    let sent = put(word_of(cache).as_bytes(), before, out);
    let sent = put_reuse(decision.reuse, sent, out);
    let sent = put(b" ", sent, out);
    let sent = put(cause_word(decision.by).as_bytes(), sent, out);
    put(b"\n", sent, out)
}

/// Writes the lines of rules, and of what is decided by them about a response of this age, in
/// seconds. `Expires` does not count.
fn put_rules<W: Sink>(rules: &CacheRules, age: u64, before: Sent, out: &mut W) -> Sent
    ensures { Follows W.state W.send_gives out.old out.new before result
        (rules_lines age rules.now) }
{
    let sent = put_policy(&rules.policy, before, out);
    let shared = rules.decide(CacheKind::Shared, age);
    let sent = put_decision(CacheKind::Shared, shared, sent, out);
    let private = rules.decide(CacheKind::Private, age);
    put_decision(CacheKind::Private, private, sent, out)
}

/// Returns the lines of the chosen field, which has this name.
fn chosen_text(
    alloc: Global,
    index: usize,
    name: &[u8],
    rules: &CacheRules,
    age: u64,
) -> Result<Vec<u8>, OutOfMemory>
    ensures { IfOk result (λ text. text.items ≡ obeyed_lines index name.now age rules.now) }
{
    let mut out = Writing::new(Vec::new(alloc));
    let sent = put_field_line(index, name, Ok(0), &mut out);
    match put_rules(rules, age, sent, &mut out) {
        Ok(_) => Ok(out.into_inner()),
        Err(_) => Err(OutOfMemory),
    }
}

/// Returns the lines of `Cache-Control`.
fn fallback_text(alloc: Global, rules: &CacheRules, age: u64) -> Result<Vec<u8>, OutOfMemory>
    ensures { IfOk result (λ text. text.items ≡ fallback_lines age rules.now) }
{
    let mut out = Writing::new(Vec::new(alloc));
    let sent = put(b"fallback cache-control\n", Ok(0), &mut out);
    match put_rules(rules, age, sent, &mut out) {
        Ok(_) => Ok(out.into_inner()),
        Err(_) => Err(OutOfMemory),
    }
}

/// Returns the lines of a choice among these names: those of `Cache-Control` if none of their
/// fields can be used.
fn choice_text(
    alloc: Global,
    names: &[HeaderName],
    age: u64,
    headers: &HeaderMap,
    choice: RulesChoice,
) -> Result<Vec<u8>, OutOfMemory>
    // A chosen field has one of these names.
    requires { IsRulesPlaceOf names.now choice }
    ensures { IfOk result (λ text. IsChoiceText names.now age headers.now choice text.items) }
{
    match choice {
        RulesChoice::Field { index, rules } => {
            return chosen_text(alloc, index, names[index].as_str().as_bytes(), &rules, age);
        }
        RulesChoice::Fallback => {
            let rules = fallback_rules(headers);
            return fallback_text(alloc, &rules, age);
        }
    }
}

/// Returns what caches decide that parse targeted fields in this dialect.
fn decision_text_in(
    alloc: Global,
    seed: &RandomState,
    dialect: Dialect,
    names: &[HeaderName],
    age: u64,
    headers: &HeaderMap,
) -> Result<Vec<u8>, OutOfMemory>
    ensures { IfOk result (λ text. IsDecisionTextIn dialect names.now age headers.now text.items) }
{
    let choice = select_rules_in(alloc, seed, dialect, names, headers)?;
    choice_text(alloc, names, age, headers, choice)
}

/// Returns a text after another one.
fn after(alloc: Global, first: &[u8], text: &[u8]) -> Result<Vec<u8>, OutOfMemory>
    ensures { IfOk result (λ all. all.items ≡ first.now ++ text.now) }
{
    let mut all = Vec::from_slice(alloc, first)?;
    all.extend_from_slice(text)?;
    Ok(all)
}

/// Returns the answer that both dialects give.
fn same(alloc: Global, text: &[u8]) -> Result<Vec<u8>, OutOfMemory>
    ensures { IfOk result (λ all. all.items ≡ same_text text.now) }
{
    after(alloc, b"by RFC 8941 and RFC 9651:\n", text)
}

/// Returns the answers by RFC 8941 and by RFC 9651, which differ. Fails only if an allocation
/// fails.
pub fn by_each_dialect(alloc: Global, older: &[u8], newer: &[u8]) -> Result<Vec<u8>, OutOfMemory>
    ensures { IfOk result (λ all. all.items ≡ different_text older.now newer.now) }
{
    let newer = after(alloc, b"by RFC 9651:\n", newer)?;
    let both = after(alloc, older, newer.as_slice())?;
    after(alloc, b"by RFC 8941:\n", both.as_slice())
}

/// Returns what caches decide about a response of this age, in seconds, by the first of the fields
/// of these names that they can use, or by `Cache-Control`: once if they decide the same by RFC
/// 8941 and by RFC 9651, and otherwise by each.
pub(crate) fn decision_text(
    alloc: Global,
    seed: &RandomState,
    names: &[HeaderName],
    age: u64,
    headers: &HeaderMap,
) -> Result<Vec<u8>, OutOfMemory>
    ensures { IfOk result (λ text. IsDecisionText names.now age headers.now text.items) }
{
    let older = decision_text_in(alloc, seed, Dialect::Rfc8941, names, age, headers)?;
    let newer = decision_text_in(alloc, seed, Dialect::Rfc9651, names, age, headers)?;
    if older.as_slice() == newer.as_slice() {
        return same(alloc, older.as_slice());
    }
    by_each_dialect(alloc, older.as_slice(), newer.as_slice())
}
