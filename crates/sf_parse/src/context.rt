//! What every level of the parser gets.
ghost use Rattle.std.specs.Prelude.{◌≡◌};

use sf_value::Dialect;
use std::alloc::Global;
use std::hash::RandomState;

/// The allocator, the seed of the entries' hashes, and the dialect.
#[derive(Clone, Copy)]
pub struct Context {
    pub alloc: Global,
    pub seed: RandomState,
    pub dialect: Dialect,
}

impl Context {
    /// The context for a text in this dialect.
    pub fn new(alloc: Global, seed: &RandomState, dialect: Dialect) -> Context
        ensures { result.dialect ≡ dialect }
    {
        Context {
            alloc,
            seed: *seed,
            dialect,
        }
    }
}
