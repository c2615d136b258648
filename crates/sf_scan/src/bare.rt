//! Bare items (RFC 9651 section 4.2.3.1).
ghost use Rattle.std.specs.Prelude.{◌≡◌, ◌≢◌, ◌==◌, ◌&&◌, [], ◌∷◌, ◌++◌, ℕ, List, true, ⊤};
ghost use Rattle.std.specs.Prelude.{MatchOption, MatchResult};
ghost use Rattle.sf_value.specs.Ascii.{quote, colon, question_mark, at_sign};
ghost use Rattle.sf_value.specs.Ascii.{percent as percent_sign};
ghost use Rattle.sf_value.specs.declared.dialect.Dialect.{Dialect as Which};
ghost use Rattle.sf_value.specs.Grammar.Dialects.{is_rfc9651};
ghost use Rattle.sf_value.specs.Grammar.Strings.{is_escaped};
ghost use Rattle.sf_value.specs.Grammar.BareItems.{SpellsBare};
ghost use Rattle.sf_scan.specs.Leaves.{number_leaf};
ghost use Rattle.sf_scan.specs.Scans.{ReadsLeaf, ScansLeaf, ScansBare, leaf_outcome};
ghost use Rattle.sf_scan.specs.Scans.{Escapes, StopsEscaped, BeginsToken, BeginsEscaped};
ghost use Rattle.sf_scan.specs.declared.leaf.Leaf.{Leaf as AnyLeaf};
ghost use Rattle.sf_scan.specs.declared.leaf.Leaf.TheVariants as leaf_is;
ghost use Rattle.sf_scan.specs.Stops.{Past};
ghost use Rattle.sf_value.specs.Runs.{Lacks};

use crate::byte_sequence::byte_sequence;
use crate::display_string::display_string;
use crate::leaf::Leaf;
use crate::number::{NumberLeaf, date, number};
use crate::number_place::can_start_date;
use crate::place::{BarePlace, Stop};
use sf_value::classes::{InToken, Unescaped, long_prefix, split, strip_byte};
use sf_value::{Dialect, can_start_token};

/// Makes something of a bare item where it is found, so that no caller has to match on its type
/// again.
pub trait Take<'a>: Copy {
    /// What is made.
    type Made;

    // Whether it takes the bare item at the start of this text.
    ghost fits: { Self → List ℕ → Type 0 };

    // Whether this may be made of the leaf, which these bytes spell.
    ghost makes: { Self → List ℕ → AnyLeaf → Self.Made → Type 0 };

    /// Makes it of an Integer.
    fn integer(self, number: i64) -> Self::Made
        ensures { (spelled : List ℕ) → makes self spelled (leaf_is.Integer number) result };

    /// Makes it of a Decimal, in thousandths.
    fn decimal(self, number: i64) -> Self::Made
        ensures { (spelled : List ℕ) → makes self spelled (leaf_is.Decimal number) result };

    /// Makes it of a Boolean.
    fn boolean(self, value: bool) -> Self::Made
        ensures { (spelled : List ℕ) → makes self spelled (leaf_is.Boolean value) result };

    /// Makes it of a Token.
    fn token(self, bytes: &'a [u8]) -> Self::Made
        requires { (rest : List ℕ) × fits self (bytes.now ++ rest) }
        ensures { makes self bytes.entry.now (leaf_is.Token bytes.entry) result };

    /// Makes it of a String without an escape, whose bytes are these.
    fn text(self, bytes: &'a [u8]) -> Self::Made
        requires { (rest : List ℕ) × fits self (quote ∷ bytes.now ++ quote ∷ rest) }
        ensures { makes self (quote ∷ bytes.entry.now ++ quote ∷ []) (leaf_is.Text bytes.entry)
            result };

    /// Makes it of any leaf, which these bytes spell.
    fn leaf(self, spelled: &'a [u8], leaf: Leaf<'a>) -> Self::Made
        requires { (rest : List ℕ) × fits self (spelled.now ++ rest) }
        ensures { makes self spelled.entry.now leaf.entry result };
}

/// Makes nothing but the leaf.
#[derive(Clone, Copy)]
pub struct AsLeaf;

impl<'a> Take<'a> for AsLeaf {
    type Made = Leaf<'a>;

    ghost fits = { λ t text. ⊤ };

    ghost makes = { λ t spelled leaf made. made ≡ leaf };

    #[inline(always)]
    fn integer(self, number: i64) -> Leaf<'a> {
        Leaf::Integer(number)
    }

    #[inline(always)]
    fn decimal(self, number: i64) -> Leaf<'a> {
        Leaf::Decimal(number)
    }

    #[inline(always)]
    fn boolean(self, value: bool) -> Leaf<'a> {
        Leaf::Boolean(value)
    }

    #[inline(always)]
    fn token(self, bytes: &'a [u8]) -> Leaf<'a> {
        Leaf::Token(bytes)
    }

    #[inline(always)]
    fn text(self, bytes: &'a [u8]) -> Leaf<'a> {
        Leaf::Text(bytes)
    }

    #[inline(always)]
    fn leaf(self, _spelled: &'a [u8], leaf: Leaf<'a>) -> Leaf<'a> {
        leaf
    }
}

/// Reads the longest bare item that the text begins with. Returns where it stops, and what is made
/// of it. If the text begins with none, the error is where it can't go on.
///
/// ```text
/// bare(Dialect::Rfc9651, b"sugar;q", AsLeaf)?; // (stop, Leaf::Token(b"sugar")), stop.left is b";q"
/// bare(Dialect::Rfc9651, b"1.x", AsLeaf); // Err(stop), stop.left is b"x", where a digit may come
/// ```
#[inline(always)]
pub fn bare<'a, T: Take<'a>>(
    dialect: Dialect,
    text: &'a [u8],
    take: T,
) -> Result<(Stop<'a, BarePlace>, T::Made), Stop<'a, BarePlace>>
    requires { T.fits take text.now }
    ensures { ScansBare (T.makes take) dialect text.now result }
{
    let Some((first, more)) = split(text) else {
        return Err(Stop {
            left: text,
            place: BarePlace::Start,
        });
    };
    if first == b'"' {
        // A String that has an escape or is malformed is read from its start by `other`.
        let (run, left) = long_prefix::<Unescaped>(more);
        if let Some(rest) = strip_byte(left, b'"') {
            let end = Stop {
                left: rest,
                place: BarePlace::Complete,
            };
            return Ok((end, take.text(run)));
        }
    } else if first.is_ascii_digit() {
        return numbered(take, number(false, text));
    } else if first == b'-' {
        return numbered(take, number(true, more));
    } else if first == b'?' {
        return match boolean(more) {
            Ok((stop, value)) => Ok((stop, take.boolean(value))),
            Err(stop) => Err(stop),
        };
    } else if can_start_token(first) {
        let (stop, bytes) = token(text, more);
        return Ok((stop, take.token(bytes)));
    } else if first != b':' && first != b'%' && !can_start_date(dialect, first) {
        return Err(Stop {
            left: text,
            place: BarePlace::Start,
        });
    }
    match other(dialect, text, first, more) {
        Ok((stop, leaf)) => {
            let (spelled, _) = text.split_at(text.len() - stop.left.len());
            Ok((stop, take.leaf(spelled, leaf)))
        }
        Err(stop) => Err(stop),
    }
}

/// What is made of an Integer or a Decimal.
#[inline(always)]
fn numbered<'a, T: Take<'a>>(
    take: T,
    outcome: Result<(Stop<'a, BarePlace>, NumberLeaf), Stop<'a, BarePlace>>,
) -> Result<(Stop<'a, BarePlace>, T::Made), Stop<'a, BarePlace>>
    ensures { (d : Which) (text : List ℕ)
        → ScansLeaf d (SpellsBare d) text (leaf_outcome number_leaf outcome.entry)
        → ScansBare (T.makes take) d text result }
{
    match outcome {
        Ok((stop, number)) => {
            if number.is_decimal {
                return Ok((stop, take.decimal(number.value)));
            }
            Ok((stop, take.integer(number.value)))
        }
        Err(stop) => Err(stop),
    }
}

/// A Boolean, after its question mark.
#[inline(always)]
fn boolean(text: &[u8]) -> Result<(Stop<'_, BarePlace>, bool), Stop<'_, BarePlace>>
    ensures { (d : Which) → ScansLeaf d (Past (question_mark ∷ []) (SpellsBare d)) text.now
        (leaf_outcome leaf_is.Boolean result) }
{
    if let Some(rest) = strip_byte(text, b'0') {
        let end = Stop {
            left: rest,
            place: BarePlace::Complete,
        };
        return Ok((end, false));
    }
    if let Some(rest) = strip_byte(text, b'1') {
        let end = Stop {
            left: rest,
            place: BarePlace::Complete,
        };
        return Ok((end, true));
    }
    Err(Stop {
        left: text,
        place: BarePlace::QuestionMark,
    })
}

/// The Token that the text begins with; `more` is the text without its first byte.
#[inline(always)]
fn token<'a>(text: &'a [u8], more: &'a [u8]) -> (Stop<'a, BarePlace>, &'a [u8])
    requires { BeginsToken text.now more.now }
    ensures { (d : Which) → ReadsLeaf d (SpellsBare d) text.now (leaf_is.Token result.1) result.0 }
{
    let (run, left) = long_prefix::<InToken>(more);
    let (token, _) = text.split_at(run.len() + 1);
    let end = Stop {
        left,
        place: BarePlace::InToken,
    };
    (end, token)
}

/// A bare item that takes a call: a String with an escape, a Byte Sequence, a Display String or a
/// Date, whether or not it is malformed. `first` is the first byte of the text, and `more` are the
/// others. It is not inlined, nor are `after_escapes`, `byte_sequence`, `display_string` and
/// `date`: each call of [`bare`] would pay for clearing their results.
#[inline(never)]
fn other<'a>(
    dialect: Dialect,
    text: &'a [u8],
    first: u8,
    more: &'a [u8],
) -> Result<(Stop<'a, BarePlace>, Leaf<'a>), Stop<'a, BarePlace>>
    requires split { text.now ≡ first ∷ more.now }
    requires date { first ≢ quote → first ≢ colon → first ≢ percent_sign
        → (first == at_sign && is_rfc9651 dialect) ≡ true }
    ensures { ScansLeaf dialect (SpellsBare dialect) text.now result }
{
    if first == b'"' {
        return string(more);
    }
    if first == b':' {
        return byte_sequence(more);
    }
    if first == b'%' {
        return percent(dialect, text, more);
    }
    date(more)
}

/// What begins with a percent sign; `more` is the text without it.
#[inline(always)]
fn percent<'a>(
    dialect: Dialect,
    text: &'a [u8],
    more: &'a [u8],
) -> Result<(Stop<'a, BarePlace>, Leaf<'a>), Stop<'a, BarePlace>>
    requires { text.now ≡ percent_sign ∷ more.now }
    ensures { ScansLeaf dialect (SpellsBare dialect) text.now result }
{
    match dialect {
        Dialect::Rfc8941 => Err(Stop {
            left: text,
            place: BarePlace::Start,
        }),
        Dialect::Rfc9651 => display_string(more),
    }
}

/// A String that may have escapes, after its opening quote.
#[inline(always)]
fn string(text: &[u8]) -> Result<(Stop<'_, BarePlace>, Leaf<'_>), Stop<'_, BarePlace>>
    ensures { (d : Which) → ScansLeaf d (Past (quote ∷ []) (SpellsBare d)) text.now result }
{
    let left = after_escapes(text)?;
    let Some(rest) = strip_byte(left, b'"') else {
        return Err(Stop {
            left,
            place: BarePlace::InString,
        });
    };
    let (inside, _) = text.split_at(text.len() - left.len());
    let end = Stop {
        left: rest,
        place: BarePlace::Complete,
    };
    Ok((end, Leaf::Escaped(inside)))
}

/// The rest after the bytes of a String, some of which may be escaped.
#[inline(never)]
fn after_escapes(text: &[u8]) -> Result<&[u8], Stop<'_, BarePlace>>
    ensures { MatchResult result (λ rest. Escapes text.now rest.now)
        (λ stop. StopsEscaped text.now stop) }
{
    let (_, mut rest) = long_prefix::<Unescaped>(text);
    while let Some(escape) = strip_byte(rest, b'\\') {
        let Some(more) = after_escaped(escape) else {
            return Err(Stop {
                left: escape,
                place: BarePlace::Backslash,
            });
        };
        let (_, left) = long_prefix::<Unescaped>(more);
        rest = left;
    }
    Ok(rest)
}

/// The rest after a byte that may be escaped.
fn after_escaped(text: &[u8]) -> Option<&[u8]>
    ensures { MatchOption result (Lacks is_escaped text.now)
        (λ rest. BeginsEscaped text.now rest.now) }
{
    match split(text) {
        Some((b'"' | b'\\', rest)) => Some(rest),
        _ => None,
    }
}
