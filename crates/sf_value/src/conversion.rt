//! Conversions by `into` from the parts of a bare item, a member or a field. An [`crate::Int`] has
//! none, since it may be an Integer or a Date.
ghost use Rattle.std.specs.Prelude.{◌≡◌};
ghost use Rattle.sf_value.specs.declared.value.Bare.TheVariants as bare_is;
ghost use Rattle.sf_value.specs.declared.value.Field.TheVariants as field_is;
ghost use Rattle.sf_value.specs.declared.value.Member.TheVariants as member_is;

use crate::blob::Blob;
use crate::display_string::Shown;
use crate::number::Thousandths;
use crate::text::Text;
use crate::token::Token;
use crate::value::{Bare, Dict, Field, Inner, Item, List, Member};

impl From<Thousandths> for Bare {
    ghost from_gives = { λ n x. x ≡ bare_is.Decimal n };

    fn from(number: Thousandths) -> Bare {
        Bare::Decimal(number)
    }
}

impl From<Text> for Bare {
    ghost from_gives = { λ s x. x ≡ bare_is.Text s };

    fn from(text: Text) -> Bare {
        Bare::Text(text)
    }
}

impl From<Token> for Bare {
    ghost from_gives = { λ s x. x ≡ bare_is.Token s };

    fn from(token: Token) -> Bare {
        Bare::Token(token)
    }
}

impl From<Blob> for Bare {
    ghost from_gives = { λ s x. x ≡ bare_is.Blob s };

    fn from(blob: Blob) -> Bare {
        Bare::Blob(blob)
    }
}

impl From<bool> for Bare {
    ghost from_gives = { λ b x. x ≡ bare_is.Boolean b };

    fn from(boolean: bool) -> Bare {
        Bare::Boolean(boolean)
    }
}

impl From<Shown> for Bare {
    ghost from_gives = { λ s x. x ≡ bare_is.Shown s };

    fn from(shown: Shown) -> Bare {
        Bare::Shown(shown)
    }
}

impl From<Item> for Member {
    ghost from_gives = { λ i m. m ≡ member_is.Item i };

    fn from(item: Item) -> Member {
        Member::Item(item)
    }
}

impl From<Inner> for Member {
    ghost from_gives = { λ l m. m ≡ member_is.Inner l };

    fn from(inner: Inner) -> Member {
        Member::Inner(inner)
    }
}

impl From<Item> for Field {
    ghost from_gives = { λ i f. f ≡ field_is.Item i };

    fn from(item: Item) -> Field {
        Field::Item(item)
    }
}

impl From<List> for Field {
    ghost from_gives = { λ l f. f ≡ field_is.List l };

    fn from(list: List) -> Field {
        Field::List(list)
    }
}

impl From<Dict> for Field {
    ghost from_gives = { λ d f. f ≡ field_is.Dict d };

    fn from(dict: Dict) -> Field {
        Field::Dict(dict)
    }
}
