//! Byte Sequences (RFC 9651 section 4.2.7).
ghost use Rattle.std.specs.Prelude.{◌≡◌, ◌%◌, [], ◌∷◌, ◌++◌, MatchOption};
ghost use Rattle.sf_value.specs.Ascii.{colon};
ghost use Rattle.sf_value.specs.declared.dialect.Dialect.{Dialect as Which};
ghost use Rattle.sf_scan.specs.Blobs.{place_at, Closes, StaysOpen};
ghost use Rattle.sf_value.specs.Grammar.BareItems.{SpellsBare};
ghost use Rattle.sf_scan.specs.Scans.{ScansLeaf};
ghost use Rattle.sf_scan.specs.Stops.{Past};

use crate::blob_place::BlobPlace;
use crate::leaf::Leaf;
use crate::place::{BarePlace, Stop};
use sf_value::classes::{Base64, long_prefix, strip_byte};

/// A Byte Sequence, after its opening colon.
#[inline(never)]
pub fn byte_sequence(text: &[u8]) -> Result<(Stop<'_, BarePlace>, Leaf<'_>), Stop<'_, BarePlace>>
    ensures { (d : Which) → ScansLeaf d (Past (colon ∷ []) (SpellsBare d)) text.now result }
{
    let (run, after_run) = long_prefix::<Base64>(text);
    let mut place = after_characters(run.len());
    let mut left = after_run;
    while let Some(more) = strip_byte(left, b'=') {
        let Some(next) = place.padded() else {
            return Err(Stop {
                left,
                place: BarePlace::Blob(place),
            });
        };
        place = next;
        left = more;
    }
    let Some(rest) = after_colon(place, left) else {
        return Err(Stop {
            left,
            place: BarePlace::Blob(place),
        });
    };
    let (inside, _) = text.split_at(text.len() - left.len());
    Ok((
        Stop {
            left: rest,
            place: BarePlace::Complete,
        },
        Leaf::Blob(inside),
    ))
}

/// The rest after the closing colon, if it may come.
fn after_colon(place: BlobPlace, text: &[u8]) -> Option<&[u8]>
    ensures { MatchOption result (StaysOpen place text.now)
        (λ rest. Closes place text.now rest.now) }
{
    if !place.may_close() {
        return None;
    }
    let Some(rest) = strip_byte(text, b':') else {
        return None;
    };
    Some(rest)
}

/// The place after this many characters of base64.
fn after_characters(count: usize) -> BlobPlace
    ensures { result ≡ place_at (count % 4) }
{
    match count % 4 {
        0 => BlobPlace::Whole,
        1 => BlobPlace::One,
        2 => BlobPlace::Two,
        _ => BlobPlace::Three,
    }
}
