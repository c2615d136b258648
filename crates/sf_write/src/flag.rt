//! The Boolean that is written as its key alone (RFC 9651 sections 4.1.1.2 and 4.1.2).
ghost use Rattle.std.specs.Prelude.{◌≡◌, ◌↔◌, IsTrue, true};
ghost use Rattle.sf_value.specs.declared.value.Bare.TheVariants.{Boolean};

use sf_value::Bare;

/// Returns whether a value is Boolean true, which is written as its key alone.
pub(crate) fn is_true(bare: &Bare) -> bool
    ensures { IsTrue result ↔ (bare.now ≡ Boolean true) }
{
    matches!(bare, Bare::Boolean(true))
}
