//! Parameters (RFC 9651 section 4.2.3.2).
ghost use Rattle.std.specs.Prelude.{◌≡◌, ◌++◌, ◌∷◌, ℕ, List, MatchOption};
ghost use Rattle.sf_value.specs.Ascii.{equals};
ghost use Rattle.sf_value.specs.Grammar.Classes.{is_in_key, is_key_start};
ghost use Rattle.sf_value.specs.Grammar.Tokens.{IsKey};
ghost use Rattle.sf_scan.specs.Parameters.{ScansParam};
ghost use Rattle.sf_scan.specs.Makers.{ScansParams};
ghost use Rattle.sf_value.specs.Runs.{Lacks};

use crate::bare::{AsLeaf, Take, bare};
use crate::leaf::Param;
use crate::maker::Maker;
use crate::place::{Halt, ParamPlace, Stop};
use sf_value::classes::{InKey, Space, any_prefix, few_prefix, split, strip_byte};
use sf_value::{Dialect, can_start_key};

/// Gives the maker each parameter that the text begins with, repeated keys included, and returns
/// where they stop. A fault of the maker is returned at once.
///
/// ```text
/// let mut all = Collect::new(alloc);
/// let stop = params(Dialect::Rfc9651, b";a;b=1, c", &mut all)?; // stop.left is b", c"
/// all.params().len() // 2
/// ```
///
/// It costs a call only if the text begins with a semicolon.
#[inline(always)]
pub fn params<'a, M: Maker<'a>>(
    dialect: Dialect,
    text: &'a [u8],
    maker: &mut M,
) -> Result<Stop<'a, ParamPlace>, Halt<'a, ParamPlace, M::Fault>>
    ensures { ScansParams M.with dialect text.now maker.old maker.new result }
{
    let Some(_) = strip_byte(text, b';') else {
        return Ok(Stop {
            left: text,
            place: ParamPlace::Before,
        });
    };
    each_param(dialect, text, maker)
}

/// As [`params`].
#[inline(never)]
fn each_param<'a, M: Maker<'a>>(
    dialect: Dialect,
    text: &'a [u8],
    maker: &mut M,
) -> Result<Stop<'a, ParamPlace>, Halt<'a, ParamPlace, M::Fault>>
    ensures { ScansParams M.with dialect text.now maker.old maker.new result }
{
    let mut end = Stop {
        left: text,
        place: ParamPlace::Before,
    };
    while let Some(more) = strip_byte(end.left, b';') {
        match next_param(dialect, more, AsLeaf) {
            Ok((key, leaf, stop)) => {
                if let Err(fault) = maker.parameter(Param { key, leaf }) {
                    return Err(Halt::Fault(fault));
                }
                end = stop;
            }
            Err(stop) => return Err(Halt::Refused(stop)),
        }
    }
    Ok(end)
}

/// Reads the parameter that the text begins with, after its semicolon. Returns its key, what is made
/// of its value, and where it stops. The value of a key alone is Boolean true.
///
/// ```text
/// next_param(Dialect::Rfc9651, b" q=1, a", AsLeaf)?; // (b"q", Leaf::Integer(1), stop)
/// ```
#[inline(always)]
pub fn next_param<'a, T: Take<'a>>(
    dialect: Dialect,
    text: &'a [u8],
    take: T,
) -> Result<(&'a [u8], T::Made, Stop<'a, ParamPlace>), Stop<'a, ParamPlace>>
    requires { (before value : List ℕ) → text.now ≡ before ++ equals ∷ value → T.fits take value }
    ensures { ScansParam (T.makes take) dialect text.now result }
{
    let (_, named) = few_prefix::<Space>(text);
    let Some((key, after)) = find_key(named) else {
        return Err(Stop {
            left: named,
            place: ParamPlace::Semicolon,
        });
    };
    let Some(value) = strip_byte(after, b'=') else {
        let end = Stop {
            left: after,
            place: ParamPlace::InKey,
        };
        return Ok((key, take.boolean(true), end));
    };
    match bare(dialect, value, take) {
        Ok((stop, made)) => {
            let end = Stop {
                left: stop.left,
                place: ParamPlace::InValue(stop.place),
            };
            Ok((key, made, end))
        }
        Err(stop) => Err(Stop {
            left: stop.left,
            place: ParamPlace::InValue(stop.place),
        }),
    }
}

/// The longest key that the text begins with, and the rest; `None` if it begins with none.
#[inline(always)]
pub fn find_key(text: &[u8]) -> Option<(&[u8], &[u8])>
    ensures { MatchOption result (Lacks is_key_start text.now)
        (λ r. (text.now ≡ r.0.now ++ r.1.now) × IsKey r.0.now × Lacks is_in_key r.1.now) }
{
    let (first, more) = split(text)?;
    if !can_start_key(first) {
        return None;
    }
    let (run, rest) = any_prefix::<InKey>(more);
    let (key, _) = text.split_at(run.len() + 1);
    Some((key, rest))
}
