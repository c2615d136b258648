//! Display Strings (RFC 9651 section 4.2.10).
ghost use Rattle.std.specs.Prelude.{◌≡◌, ◌<◌, [], ◌∷◌, true, MatchResult, MatchOption, IfSome};
ghost use Rattle.sf_value.specs.Ascii.{percent};
ghost use Rattle.sf_value.specs.Grammar.Dialects.{is_rfc9651};
ghost use Rattle.sf_value.specs.declared.dialect.Dialect.{Dialect as Which};
ghost use Rattle.sf_scan.specs.Characters.{can_begin as can_begin_at, low_digits as low_digits_at};
ghost use Rattle.sf_scan.specs.DisplayStrings.{PastUnencoded, BeginsDigit, BeginsByte};
ghost use Rattle.sf_scan.specs.DisplayStrings.{is_first_digit, is_second_digit};
ghost use Rattle.sf_scan.specs.DisplayStrings.{PastEscape, StopsEscape, Closes, StaysOpen};
ghost use Rattle.sf_value.specs.Grammar.BareItems.{SpellsBare};
ghost use Rattle.sf_scan.specs.Scans.{ScansLeaf};
ghost use Rattle.sf_scan.specs.Stops.{Past};
ghost use Rattle.sf_value.specs.Runs.{Lacks};

use crate::char_place::CharPlace;
use crate::leaf::Leaf;
use crate::place::{BarePlace, Stop};
use crate::shown_place::ShownPlace;
use sf_value::classes::{UnencodedByte, long_prefix, split, strip_byte};
use sf_value::unhex;

/// A Display String, after its percent sign.
#[inline(never)]
pub fn display_string(text: &[u8]) -> Result<(Stop<'_, BarePlace>, Leaf<'_>), Stop<'_, BarePlace>>
    ensures { (d : Which) → is_rfc9651 d ≡ true
        → ScansLeaf d (Past (percent ∷ []) (SpellsBare d)) text.now result }
{
    let Some(inside) = strip_byte(text, b'"') else {
        return Err(Stop {
            left: text,
            place: BarePlace::Shown(ShownPlace::Quote),
        });
    };
    let mut chars = CharPlace::Start;
    let mut left = after_unencoded(CharPlace::Start, inside);
    while let Some(escape) = strip_byte(left, b'%') {
        let (next, more) = match past_escape(chars, escape) {
            Some(past) => past,
            None => after_escape(chars, escape)?,
        };
        chars = next;
        left = after_unencoded(next, more);
    }
    let Some(rest) = after_quote(chars, left) else {
        return Err(Stop {
            left,
            place: BarePlace::Shown(ShownPlace::Between(chars)),
        });
    };
    let (bytes, _) = inside.split_at(inside.len() - left.len());
    Ok((
        Stop {
            left: rest,
            place: BarePlace::Complete,
        },
        Leaf::Display(bytes),
    ))
}

/// The rest after the bytes without an escape that may come.
fn after_unencoded(chars: CharPlace, text: &[u8]) -> &[u8]
    ensures { PastUnencoded chars text.now result.now }
{
    match chars {
        CharPlace::Start => {
            // An escape often comes after another; testing a run takes longer.
            if strip_byte(text, b'%').is_some() {
                return text;
            }
            let (_, rest) = long_prefix::<UnencodedByte>(text);
            rest
        }
        _ => text,
    }
}

/// The rest after the closing quote, if no character is open.
fn after_quote(chars: CharPlace, text: &[u8]) -> Option<&[u8]>
    ensures { MatchOption result (StaysOpen chars text.now)
        (λ rest. Closes chars text.now rest.now) }
{
    match chars {
        CharPlace::Start => strip_byte(text, b'"'),
        _ => None,
    }
}

/// The place in UTF-8 after the byte of an escape, and the rest, given the text after the percent
/// sign. It tests the byte as a whole, which is fast. It returns `None` if the escape is malformed
/// or its byte can't come; then [`after_escape`] finds where.
#[inline(always)]
fn past_escape(chars: CharPlace, text: &[u8]) -> Option<(CharPlace, &[u8])>
    ensures { IfSome result (λ r. PastEscape chars text.now r.0 r.1.now) }
{
    let (first, more) = split(text)?;
    let (second, rest) = split(more)?;
    let high = unhex(first)?;
    let low = unhex(second)?;
    let next = chars.after(high * 16 + low)?;
    Some((next, rest))
}

/// As [`past_escape`], digit by digit: the error is where one of the two can't come.
#[inline(never)]
fn after_escape(chars: CharPlace, text: &[u8]) -> Result<(CharPlace, &[u8]), Stop<'_, BarePlace>>
    ensures { MatchResult result (λ r. PastEscape chars text.now r.0 r.1.now)
        (λ stop. StopsEscape chars text.now stop) }
{
    let Some((high, more)) = first_digit(chars, text) else {
        return Err(Stop {
            left: text,
            place: BarePlace::Shown(ShownPlace::Percent(chars)),
        });
    };
    let Some((next, rest)) = second_digit(chars, high, more) else {
        return Err(Stop {
            left: more,
            place: BarePlace::Shown(ShownPlace::Digit(chars.low_digits(high))),
        });
    };
    Ok((next, rest))
}

/// The value of the first digit, if a byte that it begins may come, and the rest.
fn first_digit(chars: CharPlace, text: &[u8]) -> Option<(u8, &[u8])>
    ensures { MatchOption result (Lacks (is_first_digit chars) text.now)
        (λ r. BeginsDigit (can_begin_at chars) text.now r.0 r.1.now) }
{
    let Some((byte, rest)) = split(text) else {
        return None;
    };
    let Some(high) = unhex(byte) else {
        return None;
    };
    if !chars.can_begin(high) {
        return None;
    }
    Some((high, rest))
}

/// The place after the byte whose first digit has this value and whose second one begins the text,
/// and the rest.
fn second_digit(chars: CharPlace, high: u8, text: &[u8]) -> Option<(CharPlace, &[u8])>
    requires small { high < 16 }
    requires begins { can_begin_at chars high ≡ true }
    ensures { MatchOption result (Lacks (is_second_digit (low_digits_at chars high)) text.now)
        (λ r. BeginsByte chars high text.now r.0 r.1.now) }
{
    let Some((byte, rest)) = split(text) else {
        return None;
    };
    let Some(low) = unhex(byte) else {
        return None;
    };
    let Some(next) = chars.after(high * 16 + low) else {
        return None;
    };
    Some((next, rest))
}
