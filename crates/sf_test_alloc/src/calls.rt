//! Calls with little memory.
ghost use Rattle.std.specs.Prelude.{[], ◌∷◌, ◌++◌, IfSome};
ghost use Rattle.std.specs.List.{FoldsTo};
ghost use Rattle.sf_test_alloc.specs.declared.calls.Seen.TheVariants as seen_is;
ghost use Rattle.sf_test_alloc.specs.Calls.{right_then_refused};

use crate::scarcity::{SPARES, STEP, Scarcity};
use std::alloc::Global;

/// What one call showed.
#[derive(Clone, Copy, PartialEq, Eq, Debug)]
pub enum Seen {
    /// It returned what it does with ample memory.
    Right,
    /// It returned out of memory, as its error type names it, and left what it borrowed as
    /// documented.
    Refused,
    /// Neither.
    Wrong,
}

/// Calls once with ample memory and then with ever larger budgets, from none on and each 16 bytes
/// larger than the one before, and returns how many were refused before one was right. Returns
/// `None` if the first call or the one after the refusals was not right, if 65,520 bytes were not
/// enough, or if memory could not be made scarce. What it took is freed when it returns.
pub fn refusals<F: FnMut() -> Seen>(alloc: Global, mut call: F) -> Option<usize>
    // The call can be made again, whatever it did before.
    requires { F.IsAlwaysCallable call }
    // The calls showed Right, then Refused as many times as is returned, and then Right.
    ensures { IfSome result (λ n. (last : F)
        × FoldsTo F.step call (right_then_refused n ++ seen_is.Right ∷ []) last) }
{
    if call() != Seen::Right {
        return None;
    }
    let Ok(mut scarcity) = Scarcity::new(alloc) else {
        return None;
    };
    for step in 0..SPARES {
        if !scarcity.leave(alloc, STEP * step) {
            return None;
        }
        match call() {
            Seen::Refused => {}
            Seen::Right => return Some(step),
            Seen::Wrong => return None,
        }
    }
    None
}

/// Calls once with ample memory and once with none left, and returns what the second call showed.
/// Returns `None` if the first was not right, or if memory could not be made scarce. What it took
/// is freed when it returns.
pub fn seen_without_memory<F: FnMut() -> Seen>(alloc: Global, mut call: F) -> Option<Seen>
    // The call can be made again, whatever it did before.
    requires { F.IsAlwaysCallable call }
    // Two calls were made: the first showed Right, the second what is returned.
    ensures { IfSome result (λ seen. (last : F)
        × FoldsTo F.step call (seen_is.Right ∷ seen ∷ []) last) }
{
    if call() != Seen::Right {
        return None;
    }
    let Ok(mut scarcity) = Scarcity::new(alloc) else {
        return None;
    };
    if !scarcity.leave(alloc, 0) {
        return None;
    }
    let seen = call();
    Some(seen)
}
