//! A priority put into an existing Priority field.
ghost use Rattle.std.specs.Prelude.{◌≡◌, IfOk};
ghost use Rattle.sf_use.specs.PriorityUpdate.{updated};

use crate::priority::{Asked, put_item};
use sf_value::{Bare, Dict, Int, OutOfMemory};
use std::alloc::Global;
use std::hash::RandomState;

/// Puts the parameters of a priority that are set into the Dictionary of a Priority field (RFC 9218
/// section 4). A member `u` or `i` that is present is overwritten in place, with its parameters; a
/// new one goes last; the other members stay. A parameter that isn't set is unchanged in the field.
/// Fails only if an allocation fails.
///
/// ```
/// // u=5, i, x;p=1 with the urgency 1
/// let asked = Asked { urgency: Some(Urgency::new(1)?), incremental: None };
/// update_priority(alloc, &seed, dict, asked)? // u=1, i, x;p=1
/// ```
pub fn update_priority(
    alloc: Global,
    seed: &RandomState,
    dict: Dict,
    asked: Asked,
) -> Result<Dict, OutOfMemory>
    // The members that are set are put at their keys, and all others stay.
    ensures { IfOk result (λ new. new ≡ updated asked dict) }
{
    let Dict { members } = dict;
    let mut members = members;
    if let Some(urgency) = asked.urgency {
        let number = Int::from(i32::from(urgency.get()));
        put_item(alloc, seed, &mut members, b'u', Bare::Integer(number))?;
    }
    if let Some(incremental) = asked.incremental {
        put_item(alloc, seed, &mut members, b'i', Bare::Boolean(incremental))?;
    }
    Ok(Dict { members })
}
