//! What is made of the Items, members and fields of a text while it is read.
ghost use Rattle.std.specs.Prelude.{◌≡◌, ℕ, List, OnOk};
ghost use Rattle.sf_value.specs.declared.value.Bare.{Bare};
ghost use Rattle.sf_scan.specs.Leaves.{leaf_bare};

use crate::leaf::Leaf;
use crate::maker::{Find, Maker, Nothing};
use std::convert::Infallible;

/// What is made of the parts of a text, which it takes one by one in their order; each call may fail,
/// as an allocation may. An Item is its bare item and then its parameters; an Inner List is its
/// beginning, its Items, its end and then its parameters; a member of a Dictionary is its key and then
/// its value.
pub trait Builder<'a>: Maker<'a> {
    // The value after the bare item of one more Item.
    ghost bare: { Self → Bare → Self };

    // The value after the beginning of one more Inner List, and after its end.
    ghost opened: { Self → Self };

    ghost closed: { Self → Self };

    // The value after the key of one more member of a Dictionary.
    ghost named: { Self → List ℕ → Self };

    /// Takes the bare item of one more Item.
    fn bare_item(&mut self, leaf: Leaf<'a>) -> Result<(), Self::Fault>
        ensures { OnOk result (self.new ≡ bare self.old (leaf_bare leaf.entry)) };

    /// Begins one more Inner List.
    fn begin_inner(&mut self) -> Result<(), Self::Fault>
        ensures { OnOk result (self.new ≡ opened self.old) };

    /// Ends the Inner List that was begun last.
    fn end_inner(&mut self) -> Result<(), Self::Fault>
        ensures { OnOk result (self.new ≡ closed self.old) };

    /// Takes the key of one more member of a Dictionary, before its value.
    fn key(&mut self, key: &'a [u8]) -> Result<(), Self::Fault>
        ensures { OnOk result (self.new ≡ named self.old key.entry.now) };
}

impl<'a> Builder<'a> for Nothing {
    ghost bare = { λ m x. m };

    ghost opened = { λ m. m };

    ghost closed = { λ m. m };

    ghost named = { λ m key. m };

    fn bare_item(&mut self, _leaf: Leaf<'a>) -> Result<(), Infallible> {
        Ok(())
    }

    fn begin_inner(&mut self) -> Result<(), Infallible> {
        Ok(())
    }

    fn end_inner(&mut self) -> Result<(), Infallible> {
        Ok(())
    }

    fn key(&mut self, _key: &'a [u8]) -> Result<(), Infallible> {
        Ok(())
    }
}

// Of an Item, only its parameters count.
impl<'k, 'a> Builder<'a> for Find<'k, 'a> {
    ghost bare = { λ m x. m };

    ghost opened = { λ m. m };

    ghost closed = { λ m. m };

    ghost named = { λ m key. m };

    fn bare_item(&mut self, _leaf: Leaf<'a>) -> Result<(), Infallible> {
        Ok(())
    }

    fn begin_inner(&mut self) -> Result<(), Infallible> {
        Ok(())
    }

    fn end_inner(&mut self) -> Result<(), Infallible> {
        Ok(())
    }

    fn key(&mut self, _key: &'a [u8]) -> Result<(), Infallible> {
        Ok(())
    }
}
