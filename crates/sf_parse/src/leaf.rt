//! Bare items that are found in a text and built only where they are stored (RFC 9651 section
//! 4.2.3.1). What was found is `Copy`: what follows it can be tested before anything is allocated.
ghost use Rattle.std.specs.Prelude.{◌≡◌, ◌<◌, ◌^◌, nat_abs, IfSome, IfOk, IsOk};
ghost use Rattle.sf_value.specs.Grammar.BareItems.{SpellsBare};
ghost use Rattle.sf_scan.specs.Leaves.{leaf_bare};
ghost use Rattle.sf_parse.specs.Leaves.{IsLeaf, FitsLeaf};
ghost use Rattle.sf_parse.specs.WholeParts.{ReadsAs};

use crate::blob::decode;
use crate::context::Context;
use crate::display_string::decode_escapes;
use crate::text::unescape;
use sf_scan::bare::{AsLeaf, bare};
use sf_scan::leaf::Leaf;
use sf_value::{
    Bare, Blob, Dialect, Int, OutOfMemory, ShortBytes, Shown, Text, Thousandths, Token,
};

/// The bare item that a text begins with, and the rest; None if it begins with none. A malformed
/// text is not searched after the place where it can't go on.
#[inline(always)]
pub fn find_leaf(dialect: Dialect, text: &[u8]) -> Option<(Leaf<'_>, &[u8])>
    ensures leaf { IfSome result (λ r. IsLeaf r.0) }
    ensures reads { IfSome result (λ r. ReadsAs (SpellsBare dialect) text.now (leaf_bare r.0)
        r.1.now) }
{
    match bare(dialect, text, AsLeaf) {
        Ok((stop, leaf)) => Some((leaf, stop.left)),
        Err(_) => None,
    }
}

/// The bare item that was found.
#[inline(always)]
pub fn make(context: &Context, leaf: Leaf<'_>) -> Result<Bare, OutOfMemory>
    requires { IsLeaf leaf }
    ensures made { IfOk result (λ bare. bare ≡ leaf_bare leaf.entry) }
    // A number, a Boolean, a Date, or a Token or String of at most 16 bytes does not allocate.
    ensures in_place { FitsLeaf leaf.entry → IsOk result }
{
    match leaf {
        Leaf::Integer(value) => return Ok(Bare::Integer(int(value))),
        Leaf::Decimal(value) => return Ok(Bare::Decimal(thousandths(value))),
        Leaf::Date(value) => return Ok(Bare::Date(int(value))),
        Leaf::Boolean(holds) => return Ok(Bare::Boolean(holds)),
        Leaf::Token(token) => {
            let bytes = ShortBytes::from_slice(context.alloc, token)?;
            return Ok(Bare::Token(Token::from_bytes(bytes)));
        }
        Leaf::Text(text) => {
            let bytes = ShortBytes::from_slice(context.alloc, text)?;
            return Ok(Bare::Text(Text::from_bytes(bytes)));
        }
        Leaf::Escaped(text) => {
            let bytes = unescape(context, text)?;
            return Ok(Bare::Text(Text::from_bytes(bytes)));
        }
        Leaf::Blob(text) => {
            let bytes = decode(context, text)?;
            return Ok(Bare::Blob(Blob::from_bytes(bytes)));
        }
        Leaf::Display(text) => {
            let bytes = decode_escapes(context, text)?;
            return Ok(Bare::Shown(Shown::from_bytes(bytes)));
        }
    }
}

/// An Integer or a Date of at most 15 digits.
#[inline(always)]
fn int(value: i64) -> Int
    requires { nat_abs value < 10 ^ 15 }
    ensures { result ≡ value }
{
    let Ok(number) = Int::new(value) else {
        unreachable!()
    };
    number
}

/// A Decimal of at most 15 digits.
#[inline(always)]
fn thousandths(value: i64) -> Thousandths
    requires { nat_abs value < 10 ^ 15 }
    ensures { result ≡ value }
{
    let Ok(number) = Thousandths::new(value) else {
        unreachable!()
    };
    number
}
