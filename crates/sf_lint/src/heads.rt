//! Where the heads of an input begin and end, and what is decided by them. The n-th line is that at
//! index `n`, from 0; printed numbers of lines are from 1.
ghost use Rattle.std.specs.Prelude.{◌≡◌, ◌+◌, ◌<◌, ◌≤◌, ◌^◌, length, map, IfOk};
ghost use Rattle.sf_lint.specs.Heads.{DecidesAfter, DecidesHead, ends_head as ends_head_in};
ghost use Rattle.sf_lint.specs.Heads.{MayDecide, has_text as has_text_in, head_begin as head_begin_in};

use crate::deciding::head_text;
use crate::head::{is_start, is_status_line};
use crate::settings::CacheSettings;
use crate::status_codes::status_code;
use sf_value::OutOfMemory;
use std::alloc::Global;
use std::hash::RandomState;

/// Returns whether the n-th line is the last of its head.
fn ends_head(lines: &[&[u8]], n: usize) -> bool
    requires { (n < length lines.now) × (length lines.now < 2 ^ 62) }
    ensures { result ≡ ends_head_in (map (λ line. line.now) lines.now) n }
{
    n + 1 == lines.len() || is_start(lines[n + 1])
}

/// Returns the index of the last start line among the first n lines; 0 if there is none.
fn head_begin(lines: &[&[u8]], n: usize) -> usize
    requires { n ≤ length lines.now }
    ensures value { result ≡ head_begin_in (map (λ line. line.now) lines.now) n }
    ensures within { result ≤ n }
{
    let mut left = n;
    while left > 0 {
        left -= 1;
        if is_start(lines[left]) {
            return left;
        }
    }
    0
}

/// Returns whether one of the lines is not empty.
fn has_text(lines: &[&[u8]]) -> bool
    ensures { result ≡ has_text_in (map (λ line. line.now) lines.now) }
{
    for line in lines {
        if !line.is_empty() {
            return true;
        }
    }
    false
}

/// Returns what is printed of the decisions by a head, whose first line has this index: nothing for
/// that of a request, and if there are only empty lines.
fn head_decisions(
    alloc: Global,
    seed: &RandomState,
    caches: &CacheSettings,
    begin: usize,
    head: &[&[u8]],
) -> Result<Vec<u8>, OutOfMemory>
    requires { (begin < 2 ^ 62) × (length head.now < 2 ^ 62) }
    ensures { IfOk result (λ text. DecidesHead caches.now begin
        (map (λ line. line.now) head.now) text.items) }
{
    let Some((first, rest)) = head.split_first() else {
        return Ok(Vec::new(alloc));
    };
    if is_status_line(first) {
        // Printed numbers are from 1, and the fields begin after the status line.
        return head_text(alloc, seed, caches, status_code(first), begin + 2, rest);
    }
    if is_start(first) || !has_text(head) {
        return Ok(Vec::new(alloc));
    }
    head_text(alloc, seed, caches, None, begin + 1, head)
}

/// Returns what is printed of decisions after the n-th line: those by its head, if it is the last
/// line of that.
fn decisions_after(
    alloc: Global,
    seed: &RandomState,
    caches: &CacheSettings,
    lines: &[&[u8]],
    n: usize,
) -> Result<Vec<u8>, OutOfMemory>
    requires { (n < length lines.now) × (length lines.now < 2 ^ 62) }
    ensures { IfOk result (λ text. DecidesAfter caches.now
        (map (λ line. line.now) lines.now) n text.items) }
{
    if !ends_head(lines, n) {
        return Ok(Vec::new(alloc));
    }
    let begin = head_begin(lines, n + 1);
    head_decisions(alloc, seed, caches, begin, &lines[begin..n + 1])
}

/// Returns the same by these caches; nothing if there are none.
pub(crate) fn decisions_if(
    alloc: Global,
    seed: &RandomState,
    caches: &Option<CacheSettings>,
    lines: &[&[u8]],
    n: usize,
) -> Result<Vec<u8>, OutOfMemory>
    requires { (n < length lines.now) × (length lines.now < 2 ^ 62) }
    ensures { IfOk result (λ text. MayDecide caches.now
        (map (λ line. line.now) lines.now) n text.items) }
{
    match caches {
        Some(caches) => return decisions_after(alloc, seed, caches, lines, n),
        None => return Ok(Vec::new(alloc)),
    }
}
