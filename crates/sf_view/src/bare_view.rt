//! The value of a borrowed bare item by type; `None` if it has another type.
ghost use Rattle.std.specs.Prelude.{◌≡◌};
ghost use Rattle.std.specs.Option.{option_copied};
ghost use Rattle.sf_value.specs.declared.dialect.Dialect.{Dialect as Which};
ghost use Rattle.sf_value.specs.declared.value.Bare.{Bare};
ghost use Rattle.sf_value.specs.Lookups.{as_integer, as_boolean, as_token, as_text};
ghost use Rattle.sf_view.specs.Views.{IsBorrowed};
ghost use Rattle.sf_view.specs.Reads.{ShowsText};

use crate::view::{BareView, Slice};

impl<'a> BareView<'a> {
    /// The Integer, if it is one.
    #[inline]
    pub fn as_integer(&self) -> Option<i64>
        // Whatever bare item is borrowed, this is its Integer.
        ensures { (d : Which) (x : Bare) → IsBorrowed d self.now x → result ≡ as_integer x }
    {
        match self {
            BareView::Integer(number) => return Some(*number),
            _ => return None,
        }
    }

    /// The Boolean, if it is one.
    #[inline]
    pub fn as_boolean(&self) -> Option<bool>
        // Whatever bare item is borrowed, this is its Boolean.
        ensures { (d : Which) (x : Bare) → IsBorrowed d self.now x → result ≡ as_boolean x }
    {
        match self {
            BareView::Boolean(value) => return Some(*value),
            _ => return None,
        }
    }

    /// The bytes of the Token, if it is one.
    #[inline]
    pub fn as_token(&self) -> Option<&'a [u8]>
        // Whatever bare item is borrowed, this is its Token.
        ensures { (d : Which) (x : Bare) → IsBorrowed d self.now x
            → option_copied result ≡ as_token x }
    {
        match self {
            BareView::Token(bytes) => return Some(*bytes),
            _ => return None,
        }
    }

    /// The bytes of the String, if it is one.
    #[inline]
    pub fn as_text(&self) -> Option<Slice<'a>>
        // Whatever bare item is borrowed, these are the bytes of its String.
        ensures { (d : Which) (x : Bare) → IsBorrowed d self.now x
            → ShowsText d result (as_text x) }
    {
        match self {
            BareView::Text(slice) => return Some(*slice),
            _ => return None,
        }
    }
}
