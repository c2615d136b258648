//! The beginning of a text: the part of a chunk in which whole parts are read directly, and looking
//! ahead, to decide whether a part is read directly or left to the levels. Looking ahead only saves
//! time, and no proof relies on it.
ghost use Rattle.std.specs.Prelude.{◌≡◌, ◌≤◌, ◌++◌, ℕ, List, length};

use memchr::{memchr, memchr2, memchr3};
use sf_value::classes::{after_spaces, strip_byte};

/// At most this many bytes of a chunk are read directly at a time. A part that isn't whole in them is
/// read again by the levels, so what is read twice is bounded.
const DIRECT: usize = 8192;

/// At most this many bytes of a text are searched, so that a long text that is refused early isn't
/// first searched to its end.
const NEAR: usize = 1024;

/// The beginning of a text, which is searched.
#[inline(always)]
pub fn near(text: &[u8]) -> &[u8]
    ensures { length result.now ≤ length text.now }
{
    head(text, NEAR)
}

/// The beginning of a chunk, in which parts are read directly.
#[inline(always)]
pub fn window(chunk: &[u8]) -> &[u8]
    ensures split { (far : List ℕ) × (chunk.now ≡ result.now ++ far) }
    ensures within { length result.now ≤ length chunk.now }
{
    head(chunk, DIRECT)
}

/// At most so many bytes of a text, from its beginning.
#[inline(always)]
fn head(text: &[u8], most: usize) -> &[u8]
    ensures split { (far : List ℕ) × (text.now ≡ result.now ++ far) }
    ensures within { length result.now ≤ length text.now }
{
    let (first, _) = text.split_at(text.len().min(most));
    first
}

/// The rest of a chunk after what was read of its window, of which this is left.
#[inline(always)]
pub fn after_window<'a>(chunk: &'a [u8], window: &[u8], left: &[u8]) -> &'a [u8]
    requires { length window.now ≤ length chunk.now }
    ensures { (taken far : List ℕ) → chunk.now ≡ window.now ++ far
        → window.now ≡ taken ++ left.now → chunk.now ≡ taken ++ result.now }
{
    let (_, rest) = chunk.split_at(window.len().saturating_sub(left.len()));
    rest
}

/// How many of the bytes that are searched for are looked at. If all of these are within Strings,
/// the search gives up: a text that is refused early may have many more.
const STRINGS: usize = 4;

/// Whether there is a comma near the beginning of a text, outside Strings. In a chunk, an Inner List
/// or an Item with parameters is left to the levels if no comma follows it, since it would have to
/// be read again.
pub fn has_comma(text: &[u8]) -> bool {
    let mut rest = near(text);
    for _ in 0..STRINGS {
        let Some(place) = memchr(b',', rest) else {
            return false;
        };
        let Some(outside) = outside_of_quotes(rest, place) else {
            return false;
        };
        // Nothing was skipped, so the comma is not within a String.
        if outside.len() >= rest.len() - place {
            return true;
        }
        rest = outside;
    }
    false
}

/// Whether there is a space near the beginning of a text, outside Strings and not after a semicolon,
/// and no comma or closing bracket before it. An Item with parameters in an Inner List of a chunk is
/// left to the levels if no such space follows it.
pub fn has_space(text: &[u8]) -> bool {
    let mut rest = near(text);
    for _ in 0..STRINGS {
        let Some(place) = memchr3(b' ', b',', b')', rest) else {
            return false;
        };
        let Some(outside) = outside_of_quotes(rest, place) else {
            return false;
        };
        // Something was skipped, so the byte is within a String.
        if outside.len() < rest.len() - place {
            rest = outside;
            continue;
        }
        let (before, _) = rest.split_at(place);
        if !before.ends_with(b";") {
            return outside.first().copied() == Some(b' ');
        }
        // These spaces are before a key.
        rest = after_spaces(outside);
    }
    false
}

/// The text from this place on or, if the place is within a String, after that String. None if that
/// is not known: the String does not end, or there is a backslash, which may escape a quote.
fn outside_of_quotes(text: &[u8], place: usize) -> Option<&[u8]>
    requires { place ≤ length text.now }
{
    let (before, from) = text.split_at(place);
    let (is_odd, is_escaped) = quotes(before);
    if is_escaped {
        return None;
    }
    if !is_odd {
        return Some(from);
    }
    let end = memchr2(b'"', b'\\', from)?;
    let (_, quote) = from.split_at(end);
    strip_byte(quote, b'"')
}

/// Whether there is an odd number of quotes in these bytes, and whether there is a backslash. The
/// compiler vectorises the loop.
fn quotes(bytes: &[u8]) -> (bool, bool) {
    let mut odd = 0u8;
    let mut escapes = 0u8;
    for byte in bytes {
        odd ^= (*byte == b'"') as u8;
        escapes |= (*byte == b'\\') as u8;
    }
    (odd == 1, escapes == 1)
}
