//! What is made of the parts of a text while it is read.
ghost use Rattle.std.specs.Prelude.{◌≡◌, ℕ, List, [], ◌∷◌, ◌++◌, None, OnOk, map};
ghost use Rattle.sf_value.specs.declared.value.Bare.{Bare};
ghost use Rattle.sf_scan.specs.Leaves.{leaf_bare};
ghost use Rattle.sf_scan.specs.Parameters.{pair_of};
ghost use Rattle.std.specs.Option.{option_map};
ghost use Rattle.sf_scan.specs.Makers.{found_or};

use crate::leaf::{Leaf, Param};
use std::alloc::{AllocError, Global};
use std::convert::Infallible;
use std::marker::Model;

/// What is made of the parameters of a text, which it gets one by one.
pub trait Maker<'a> {
    /// Why it could not take one.
    type Fault: Drop;

    // The value after one more parameter with this key and this bare item.
    ghost with: { Self → List ℕ → Bare → Self };

    /// Takes one more parameter, or fails, as an allocation may.
    fn parameter(&mut self, param: Param<'a>) -> Result<(), Self::Fault>
        ensures { OnOk result
            (self.new ≡ with self.old param.entry.key.now (leaf_bare param.entry.leaf)) };
}

/// Makes nothing: for a text that is only tested.
#[derive(Drop)]
pub struct Nothing;

impl<'a> Maker<'a> for Nothing {
    type Fault = Infallible;

    ghost with = { λ m key x. m };

    fn parameter(&mut self, _param: Param<'a>) -> Result<(), Infallible> {
        Ok(())
    }
}

/// Finds the value of one key: its last value, if the key is repeated (RFC 9651 section 4.2.3.2).
#[derive(Drop)]
pub struct Find<'k, 'a> {
    key: &'k [u8],
    found: Option<Leaf<'a>>,
}

impl<'k, 'a> Model for Find<'k, 'a> {
    ghost use Rattle.std.specs.Prelude.{ℕ, List, Option};
    ghost use Rattle.std.specs.Option.{option_map};
    ghost use Rattle.sf_value.specs.declared.value.Bare.{Bare};
    ghost use Rattle.sf_scan.specs.Leaves.{leaf_bare};

    ghost Value = { List ℕ × Option Bare };

    ghost view = { λ f. (f.key.now, option_map leaf_bare f.found) };
}

impl<'k, 'a> Find<'k, 'a> {
    /// A look-up of this key in no parameters.
    pub fn new(key: &'k [u8]) -> Find<'k, 'a>
        ensures { result ≡ (key.now, None) }
    {
        Find { key, found: None }
    }

    /// The value that was found; `None` if no parameter had the key.
    pub fn found(&self) -> Option<Leaf<'a>>
        ensures { option_map leaf_bare result ≡ self.now.1 }
    {
        self.found
    }
}

impl<'k, 'a> Maker<'a> for Find<'k, 'a> {
    type Fault = Infallible;

    ghost with = { λ m key x. (m.0, found_or m.0 key x m.1) };

    fn parameter(&mut self, param: Param<'a>) -> Result<(), Infallible> {
        if param.key == self.key {
            self.found = Some(param.leaf);
        }
        Ok(())
    }
}

/// Collects the parameters in the order of the text, repeated keys included. It fails only if an
/// allocation fails.
#[derive(Drop)]
pub struct Collect<'a> {
    params: Vec<Param<'a>>,
}

impl<'a> Model for Collect<'a> {
    ghost use Rattle.std.specs.Prelude.{map};
    ghost use Rattle.sf_value.specs.declared.value.Bare.{Bare};
    ghost use Rattle.sf_value.specs.Grammar.Pairs.{Pairs};
    ghost use Rattle.sf_scan.specs.Parameters.{pair_of};

    ghost Value = { Pairs Bare };

    ghost view = { λ c. map pair_of c.params.items };
}

impl<'a> Collect<'a> {
    /// No parameters.
    pub fn new(alloc: Global) -> Collect<'a>
        ensures { result ≡ [] }
    {
        Collect {
            params: Vec::new(alloc),
        }
    }

    /// The parameters.
    pub fn params(&self) -> &[Param<'a>]
        ensures { map pair_of result.now ≡ self.now }
    {
        &self.params
    }
}

impl<'a> Maker<'a> for Collect<'a> {
    type Fault = AllocError;

    ghost with = { λ m key x. m ++ (key, x) ∷ [] };

    fn parameter(&mut self, param: Param<'a>) -> Result<(), AllocError> {
        self.params.push(param)?;
        Ok(())
    }
}
