//! Parsing and writing as functions that C can time. Each does its work a number of times and
//! returns the result of the last time; see README.md in this folder.
#![tactic(auto)]

ghost use Rattle.std.specs.Prelude.{◌≡◌, ◌≢◌, ◌<◌, ◌≤◌, IfSome, IfNone, IsTrue};
ghost use Rattle.sf_value.specs.declared.value.Kind.TheVariants as kind_is;
ghost use Rattle.sf_bench.specs.Timed.{letter, IsAccepted, HasCanonical};

use sf_parse::parse_text;
use sf_use::PriorityField;
use sf_value::{Dialect, Kind};
use sf_view::{Node, View, accepts, normalise};
use std::alloc::Global;
use std::hash::RandomState;
use std::io;
use std::random::RandomSource;

/// The seed of the hashes: the same in every run, so that runs can be compared. A server takes one
/// that attackers can't predict.
struct SameSeed;

impl RandomSource for SameSeed {
    fn fill_bytes(&self, bytes: &mut [u8]) -> io::Result<()> {
        bytes.fill(7);
        Ok(())
    }
}

/// The kind of a letter: `i`, `l` or `d`.
fn kind_named(name: u8) -> Option<Kind>
    ensures some { IfSome result (λ kind. letter kind ≡ name) }
    // None only if the byte is the letter of no kind.
    ensures none { IfNone result ((k : Kind) → letter k ≢ name) }
{
    match name {
        b'i' => Some(Kind::Item),
        b'l' => Some(Kind::List),
        b'd' => Some(Kind::Dict),
        _ => None,
    }
}

/// Whether the text is accepted; `false` also if an allocation fails.
fn is_accepted(alloc: Global, seed: &RandomState, kind: Kind, text: &[u8]) -> bool
    // Only a text that spells a value of the kind is accepted.
    ensures { IsTrue result → IsAccepted kind text.now }
{
    match parse_text(alloc, seed, kind, text) {
        Ok(_) => true,
        Err(_) => false,
    }
}

/// The length of the canonical text of the value that the text spells; `None` if it is refused, and
/// if an allocation fails.
fn canonical_len(alloc: Global, seed: &RandomState, kind: Kind, text: &[u8]) -> Option<usize>
    // It is the length of the canonical text of the value that the text spells.
    ensures { IfSome result (HasCanonical kind text.now) }
{
    match normalise(alloc, seed, Dialect::Rfc9651, kind, text) {
        Ok(canonical) => Some(canonical.len()),
        Err(_) => None,
    }
}

/// Parses the text `times` times as a field of the kind of the letter `i`, `l` or `d`. Returns 1 if
/// it is accepted; 0 if it is refused, if an allocation fails, if `times` is 0, or for another
/// letter.
///
/// ```c
/// size_t sf_bench_parse(uint8_t kind, const uint8_t *text, size_t len, size_t times);
/// ```
#[unsafe(no_mangle)]
pub extern "C" fn sf_bench_parse(alloc: Global, name: u8, text: &[u8], times: usize) -> usize
    ensures bit { result ≤ 1 }
    ensures idle { times ≡ 0 → result ≡ 0 }
    // 1 only if the text spells a value of the kind of the letter.
    ensures accepted { 0 < result → (k : Kind) × (letter k ≡ name) × IsAccepted k text.now }
{
    let (Some(kind), Ok(seed)) = (kind_named(name), RandomState::new(&SameSeed)) else {
        return 0;
    };
    let mut accepted = false;
    for _ in 0..times {
        accepted = is_accepted(alloc, &seed, kind, text);
    }
    accepted as usize
}

/// Normalises the text `times` times as a field of the kind of the letter. Returns the length of
/// the canonical text; 0 if [`sf_bench_parse`] returns 0, or if that text is empty.
///
/// ```c
/// size_t sf_bench_normalise(uint8_t kind, const uint8_t *text, size_t len, size_t times);
/// ```
#[unsafe(no_mangle)]
pub extern "C" fn sf_bench_normalise(alloc: Global, name: u8, text: &[u8], times: usize) -> usize
    ensures idle { times ≡ 0 → result ≡ 0 }
    // A number above 0 is the length of the canonical text, by the kind of the letter.
    ensures canonical { 0 < result
        → (k : Kind) × (letter k ≡ name) × HasCanonical k text.now result }
{
    let (Some(kind), Ok(seed)) = (kind_named(name), RandomState::new(&SameSeed)) else {
        return 0;
    };
    let mut length = None;
    for _ in 0..times {
        length = canonical_len(alloc, &seed, kind, text);
    }
    length.unwrap_or(0)
}

/// Whether the text has a view; `false` also if a key is repeated.
fn has_view(kind: Kind, text: &[u8], nodes: &mut [Node]) -> bool
    // Only a text that spells a value of the kind has one.
    ensures accepted { IsTrue result → IsAccepted kind text.now }
{
    View::scan(Dialect::Rfc9651, kind, text, nodes).is_ok()
}

/// Scans the text `times` times into nodes that borrow it, in a buffer that is allocated once.
/// Returns 1 if it is accepted; otherwise 0, also if a key is repeated, if an allocation fails, if
/// `times` is 0, or for another letter.
///
/// ```c
/// size_t sf_bench_view(uint8_t kind, const uint8_t *text, size_t len, size_t times);
/// ```
#[unsafe(no_mangle)]
pub extern "C" fn sf_bench_view(alloc: Global, name: u8, text: &[u8], times: usize) -> usize
    ensures bit { result ≤ 1 }
    ensures idle { times ≡ 0 → result ≡ 0 }
    // 1 only if the text spells a value of the kind of the letter.
    ensures accepted { 0 < result → (k : Kind) × (letter k ≡ name) × IsAccepted k text.now }
{
    let Some(kind) = kind_named(name) else {
        return 0;
    };
    let mut buffer: Vec<Node> = Vec::new(alloc);
    if buffer.resize(text.len(), Node::NONE).is_err() {
        return 0;
    }
    let nodes = buffer.as_mut_slice();
    let mut accepted = false;
    for _ in 0..times {
        accepted = has_view(kind, text, nodes);
    }
    accepted as usize
}

/// Reads the text `times` times as [`accepts`] does, without nodes and without an allocation.
/// Returns 1 if it is accepted; otherwise 0, also if `times` is 0, or for another letter.
///
/// ```c
/// size_t sf_bench_check(uint8_t kind, const uint8_t *text, size_t len, size_t times);
/// ```
#[unsafe(no_mangle)]
pub extern "C" fn sf_bench_check(name: u8, text: &[u8], times: usize) -> usize
    ensures bit { result ≤ 1 }
    ensures idle { times ≡ 0 → result ≡ 0 }
    // 1 only if the text spells a value of the kind of the letter.
    ensures accepted { 0 < result → (k : Kind) × (letter k ≡ name) × IsAccepted k text.now }
{
    let Some(kind) = kind_named(name) else {
        return 0;
    };
    let mut accepted = false;
    for _ in 0..times {
        accepted = accepts(Dialect::Rfc9651, kind, text);
    }
    accepted as usize
}

/// Whether the text was read as a Priority field.
fn has_priority(text: &[u8]) -> bool
    // Only a text that spells a Dictionary was.
    ensures { IsTrue result → IsAccepted kind_is.Dict text.now }
{
    PriorityField::scan(text).is_some()
}

/// Reads the text `times` times as a Priority field, without an allocation. Returns 1 if it is
/// accepted and the letter is `d`; otherwise 0, also if `times` is 0.
///
/// ```c
/// size_t sf_bench_priority(uint8_t kind, const uint8_t *text, size_t len, size_t times);
/// ```
#[unsafe(no_mangle)]
pub extern "C" fn sf_bench_priority(name: u8, text: &[u8], times: usize) -> usize
    ensures bit { result ≤ 1 }
    ensures idle { times ≡ 0 → result ≡ 0 }
    // 1 only if the text spells a Dictionary, and the letter is `d`.
    ensures accepted { 0 < result
        → (name ≡ letter kind_is.Dict) × IsAccepted kind_is.Dict text.now }
{
    if name != b'd' {
        return 0;
    }
    let mut accepted = false;
    for _ in 0..times {
        accepted = has_priority(text);
    }
    accepted as usize
}
