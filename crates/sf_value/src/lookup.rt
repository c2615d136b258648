//! Look-ups: a bare item as a value of its type, a member and a field as their variant, a parameter
//! and a member of a Dictionary by key. None of them allocates.
ghost use Rattle.std.specs.Prelude.{◌≡◌};
ghost use Rattle.std.specs.Option.{option_copied};
ghost use Rattle.sf_value.specs.Grammar.Pairs.{value_at};
ghost use Rattle.sf_value.specs.Lookups.{as_blob as blob_of, as_boolean as boolean_of};
ghost use Rattle.sf_value.specs.Lookups.{as_date as date_of, as_decimal as decimal_of};
ghost use Rattle.sf_value.specs.Lookups.{as_integer as integer_of, as_shown as shown_of};
ghost use Rattle.sf_value.specs.Lookups.{as_text as text_of, as_token as token_of};
ghost use Rattle.sf_value.specs.Lookups.{field_dict, field_item, field_list};
ghost use Rattle.sf_value.specs.Lookups.{member_inner, member_item};

use crate::blob::Blob;
use crate::display_string::Shown;
use crate::number::{Int, Thousandths};
use crate::text::Text;
use crate::token::Token;
use crate::value::{Bare, Dict, Field, Inner, Item, List, Member};

impl Bare {
    /// The number of an Integer; `None` if it is of another type.
    ///
    /// ```
    /// Bare::Integer(Int::new(7)?).as_integer() // Some(7)
    /// Bare::Date(Int::new(7)?).as_integer()    // None
    /// ```
    pub fn as_integer(&self) -> Option<Int>
        ensures { result ≡ integer_of self.now }
    {
        match self {
            Bare::Integer(number) => Some(*number),
            _ => None,
        }
    }

    /// The number of a Decimal; `None` if it is of another type.
    pub fn as_decimal(&self) -> Option<Thousandths>
        ensures { result ≡ decimal_of self.now }
    {
        match self {
            Bare::Decimal(number) => Some(*number),
            _ => None,
        }
    }

    /// The string of a String; `None` if it is of another type.
    pub fn as_text(&self) -> Option<&Text>
        ensures { option_copied result ≡ text_of self.now }
    {
        match self {
            Bare::Text(text) => Some(text),
            _ => None,
        }
    }

    /// The token of a Token; `None` if it is of another type.
    pub fn as_token(&self) -> Option<&Token>
        ensures { option_copied result ≡ token_of self.now }
    {
        match self {
            Bare::Token(token) => Some(token),
            _ => None,
        }
    }

    /// The bytes of a Byte Sequence; `None` if it is of another type.
    pub fn as_blob(&self) -> Option<&Blob>
        ensures { option_copied result ≡ blob_of self.now }
    {
        match self {
            Bare::Blob(blob) => Some(blob),
            _ => None,
        }
    }

    /// The value of a Boolean; `None` if it is of another type.
    pub fn as_boolean(&self) -> Option<bool>
        ensures { result ≡ boolean_of self.now }
    {
        match self {
            Bare::Boolean(boolean) => Some(*boolean),
            _ => None,
        }
    }

    /// The seconds of a Date, since 1970-01-01T00:00:00Z; `None` if it is of another type.
    pub fn as_date(&self) -> Option<Int>
        ensures { result ≡ date_of self.now }
    {
        match self {
            Bare::Date(seconds) => Some(*seconds),
            _ => None,
        }
    }

    /// The text of a Display String; `None` if it is of another type.
    pub fn as_shown(&self) -> Option<&Shown>
        ensures { option_copied result ≡ shown_of self.now }
    {
        match self {
            Bare::Shown(shown) => Some(shown),
            _ => None,
        }
    }

    /// The string of a String, taken out; `None` if it is of another type.
    pub fn into_text(self) -> Option<Text>
        ensures { result ≡ text_of self }
    {
        match self {
            Bare::Text(text) => Some(text),
            _ => None,
        }
    }

    /// The token of a Token, taken out; `None` if it is of another type.
    pub fn into_token(self) -> Option<Token>
        ensures { result ≡ token_of self }
    {
        match self {
            Bare::Token(token) => Some(token),
            _ => None,
        }
    }

    /// The bytes of a Byte Sequence, taken out; `None` if it is of another type.
    pub fn into_blob(self) -> Option<Blob>
        ensures { result ≡ blob_of self }
    {
        match self {
            Bare::Blob(blob) => Some(blob),
            _ => None,
        }
    }

    /// The text of a Display String, taken out; `None` if it is of another type.
    pub fn into_shown(self) -> Option<Shown>
        ensures { result ≡ shown_of self }
    {
        match self {
            Bare::Shown(shown) => Some(shown),
            _ => None,
        }
    }
}

impl Item {
    /// The value of the parameter with this key; `None` if there is none, also if the bytes are not
    /// a key.
    ///
    /// ```
    /// let item = parse_item(alloc, &seed, b"a;q=1")?;
    /// item.param(b"q")?.as_integer() // Some(1)
    /// item.param(b"r")               // None
    /// ```
    pub fn param(&self, key: &[u8]) -> Option<&Bare>
        ensures { option_copied result ≡ value_at key.now self.now.params }
    {
        self.params.get(key)
    }
}

impl Inner {
    /// The value of the parameter of the Inner List with this key; `None` if there is none, also if
    /// the bytes are not a key.
    pub fn param(&self, key: &[u8]) -> Option<&Bare>
        ensures { option_copied result ≡ value_at key.now self.now.params }
    {
        self.params.get(key)
    }
}

impl Member {
    /// The Item; `None` if the member is an Inner List.
    pub fn as_item(&self) -> Option<&Item>
        ensures { option_copied result ≡ member_item self.now }
    {
        match self {
            Member::Item(item) => Some(item),
            Member::Inner(_) => None,
        }
    }

    /// The Inner List; `None` if the member is an Item.
    pub fn as_inner(&self) -> Option<&Inner>
        ensures { option_copied result ≡ member_inner self.now }
    {
        match self {
            Member::Item(_) => None,
            Member::Inner(inner) => Some(inner),
        }
    }

    /// The Item, taken out; `None` if the member is an Inner List.
    pub fn into_item(self) -> Option<Item>
        ensures { result ≡ member_item self }
    {
        match self {
            Member::Item(item) => Some(item),
            Member::Inner(_) => None,
        }
    }

    /// The Inner List, taken out; `None` if the member is an Item.
    pub fn into_inner(self) -> Option<Inner>
        ensures { result ≡ member_inner self }
    {
        match self {
            Member::Item(_) => None,
            Member::Inner(inner) => Some(inner),
        }
    }
}

impl Dict {
    /// The member with this key; `None` if there is none, also if the bytes are not a key.
    ///
    /// ```
    /// let dict = parse_dict(alloc, &seed, b"u=1, i")?;
    /// let urgency = dict.get(b"u")?.as_item()?.bare.as_integer()?; // 1
    /// ```
    pub fn get(&self, key: &[u8]) -> Option<&Member>
        ensures { option_copied result ≡ value_at key.now self.now.members }
    {
        self.members.get(key)
    }
}

impl Field {
    /// The Item; `None` if the field is of another kind.
    pub fn as_item(&self) -> Option<&Item>
        ensures { option_copied result ≡ field_item self.now }
    {
        match self {
            Field::Item(item) => Some(item),
            _ => None,
        }
    }

    /// The List; `None` if the field is of another kind.
    pub fn as_list(&self) -> Option<&List>
        ensures { option_copied result ≡ field_list self.now }
    {
        match self {
            Field::List(list) => Some(list),
            _ => None,
        }
    }

    /// The Dictionary; `None` if the field is of another kind.
    pub fn as_dict(&self) -> Option<&Dict>
        ensures { option_copied result ≡ field_dict self.now }
    {
        match self {
            Field::Dict(dict) => Some(dict),
            _ => None,
        }
    }

    /// The Item, taken out; `None` if the field is of another kind.
    pub fn into_item(self) -> Option<Item>
        ensures { result ≡ field_item self }
    {
        match self {
            Field::Item(item) => Some(item),
            _ => None,
        }
    }

    /// The List, taken out; `None` if the field is of another kind.
    pub fn into_list(self) -> Option<List>
        ensures { result ≡ field_list self }
    {
        match self {
            Field::List(list) => Some(list),
            _ => None,
        }
    }

    /// The Dictionary, taken out; `None` if the field is of another kind.
    pub fn into_dict(self) -> Option<Dict>
        ensures { result ≡ field_dict self }
    {
        match self {
            Field::Dict(dict) => Some(dict),
            _ => None,
        }
    }
}
