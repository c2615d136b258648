//! Values as trees, in which order counts: their parts are compared and copied.
ghost use Rattle.std.specs.Prelude.{◌≡◌, ◌↔◌, IsTrue, IsOk, IfOk};
ghost use Rattle.sf_value.specs.Deciding.{bare_decides, inner_decides, item_decides};
ghost use Rattle.sf_value.specs.Deciding.{member_decides};
ghost use Rattle.sf_value.specs.BareBytes.{bytes_in};
ghost use Rattle.sf_value.specs.InPlaceValues.{BareInPlace, ItemInPlace, InnerInPlace};
ghost use Rattle.sf_value.specs.InPlaceValues.{MemberInPlace, FieldInPlace};

use crate::blob::Blob;
use crate::bytes::ShortBytes;
use crate::display_string::Shown;
use crate::fault::OutOfMemory;
use crate::part::Part;
use crate::text::Text;
use crate::token::Token;
use crate::value::{Bare, Dict, Field, Inner, Item, List, Member};
use std::alloc::Global;
use std::hash::RandomState;

impl Part for Bare {
    ghost in_place = { BareInPlace };

    ghost decides = { bare_decides };

    fn same(&self, other: &Bare) -> bool {
        match self {
            Bare::Integer(x) => match other {
                Bare::Integer(y) => x.get() == y.get(),
                _ => false,
            },
            Bare::Decimal(x) => match other {
                Bare::Decimal(y) => x.get() == y.get(),
                _ => false,
            },
            Bare::Text(x) => match other {
                Bare::Text(y) => x.as_bytes() == y.as_bytes(),
                _ => false,
            },
            Bare::Token(x) => match other {
                Bare::Token(y) => x.as_bytes() == y.as_bytes(),
                _ => false,
            },
            Bare::Blob(x) => match other {
                Bare::Blob(y) => x.as_bytes() == y.as_bytes(),
                _ => false,
            },
            Bare::Boolean(x) => match other {
                Bare::Boolean(y) => x == y,
                _ => false,
            },
            Bare::Date(x) => match other {
                Bare::Date(y) => x.get() == y.get(),
                _ => false,
            },
            Bare::Shown(x) => match other {
                Bare::Shown(y) => x.as_bytes() == y.as_bytes(),
                _ => false,
            },
        }
    }

    // The bytes are copied at one place for all types that have some: a function clears all its
    // stack on entry, and with a copy for each type there would be four results on it, each to be
    // moved.
    #[tactic(auto, using(crate::proofs::BareInPlaces::few_bytes))]
    fn copy(&self, alloc: Global, _seed: &RandomState) -> Result<Bare, OutOfMemory> {
        match self {
            Bare::Integer(n) => return Ok(Bare::Integer(*n)),
            Bare::Decimal(n) => return Ok(Bare::Decimal(*n)),
            Bare::Boolean(b) => return Ok(Bare::Boolean(*b)),
            Bare::Date(n) => return Ok(Bare::Date(*n)),
            _ => {
                let bytes = ShortBytes::from_slice(alloc, bytes_of(self))?;
                return Ok(with_bytes(self, bytes));
            }
        }
    }
}

impl Part for Item {
    ghost in_place = { ItemInPlace };

    ghost decides = { item_decides };

    fn same(&self, other: &Item) -> bool {
        self.bare.same(&other.bare) && self.params.same(&other.params)
    }

    // Inlined, since a copy that is returned is moved once more. The parameters are copied first:
    // mostly there are none, and so no bare item has to be kept across a call.
    #[inline(always)]
    fn copy(&self, alloc: Global, seed: &RandomState) -> Result<Item, OutOfMemory> {
        let params = self.params.copy(alloc, seed)?;
        let bare = self.bare.copy(alloc, seed)?;
        Ok(Item { bare, params })
    }
}

impl Part for Inner {
    ghost in_place = { InnerInPlace };

    ghost decides = { inner_decides };

    fn same(&self, other: &Inner) -> bool {
        self.items.same(&other.items) && self.params.same(&other.params)
    }

    fn copy(&self, alloc: Global, seed: &RandomState) -> Result<Inner, OutOfMemory> {
        Ok(Inner {
            items: self.items.copy(alloc, seed)?,
            params: self.params.copy(alloc, seed)?,
        })
    }
}

impl Part for Member {
    ghost in_place = { MemberInPlace };

    ghost decides = { member_decides };

    fn same(&self, other: &Member) -> bool {
        match self {
            Member::Item(x) => match other {
                Member::Item(y) => x.same(y),
                Member::Inner(_) => false,
            },
            Member::Inner(x) => match other {
                Member::Item(_) => false,
                Member::Inner(y) => x.same(y),
            },
        }
    }

    fn copy(&self, alloc: Global, seed: &RandomState) -> Result<Member, OutOfMemory> {
        match self {
            Member::Item(item) => Ok(Member::Item(item.copy(alloc, seed)?)),
            Member::Inner(inner) => Ok(Member::Inner(inner.copy(alloc, seed)?)),
        }
    }
}

/// Whether two fields are equal. The order of members, items and parameters counts, and fields of
/// different kinds are never equal, even if their texts are. It does not allocate.
///
/// ```
/// same(&field, &copy(alloc, &seed, &field)?) // true
/// ```
pub fn same(a: &Field, b: &Field) -> bool
    ensures { IsTrue result ↔ (a.now ≡ b.now) }
{
    match a {
        Field::Item(x) => match b {
            Field::Item(y) => x.same(y),
            _ => false,
        },
        Field::List(x) => match b {
            Field::List(y) => x.members.same(&y.members),
            _ => false,
        },
        Field::Dict(x) => match b {
            Field::Dict(y) => x.members.same(&y.members),
            _ => false,
        },
    }
}

/// A copy, equal to its source. The seed is for the hashes of its entries' keys. It fails only if
/// an allocation fails. A number, a Boolean, a Date or at most 16 bytes without parameters, and a
/// List or a Dictionary without members, do not allocate.
///
/// ```
/// let twin = copy(alloc, &seed, &field)?;
/// ```
pub fn copy(alloc: Global, seed: &RandomState, field: &Field) -> Result<Field, OutOfMemory>
    ensures copied { IfOk result (λ copy. copy ≡ field.now) }
    // A copy of what is in place is never out of memory.
    ensures in_place { FieldInPlace field.now → IsOk result }
{
    match field {
        Field::Item(item) => Ok(Field::Item(item.copy(alloc, seed)?)),
        Field::List(list) => Ok(Field::List(List {
            members: list.members.copy(alloc, seed)?,
        })),
        Field::Dict(dict) => Ok(Field::Dict(Dict {
            members: dict.members.copy(alloc, seed)?,
        })),
    }
}

/// The bytes of a bare item; none of a number, a Boolean or a Date.
#[inline(always)]
fn bytes_of(bare: &Bare) -> &[u8]
    ensures { result.now ≡ bytes_in bare.now }
{
    match bare {
        Bare::Text(text) => return text.as_bytes(),
        Bare::Token(token) => return token.as_bytes(),
        Bare::Blob(blob) => return blob.as_bytes(),
        Bare::Shown(shown) => return shown.as_bytes(),
        _ => return b"",
    }
}

/// The same bare item, with these bytes. [`Part::copy`] passes no number, Boolean or Date, but the
/// match has to name them.
#[inline(always)]
fn with_bytes(bare: &Bare, bytes: ShortBytes) -> Bare
    requires { bytes ≡ bytes_in bare.now }
    ensures { result ≡ bare.now }
{
    match bare {
        Bare::Integer(n) => return Bare::Integer(*n),
        Bare::Decimal(n) => return Bare::Decimal(*n),
        Bare::Text(text) => {
            // The proof has to know that these are the bytes of a string; so below.
            let _ = text.as_bytes();
            return Bare::Text(Text::from_bytes(bytes));
        }
        Bare::Token(token) => {
            let _ = token.as_bytes();
            return Bare::Token(Token::from_bytes(bytes));
        }
        Bare::Blob(_) => return Bare::Blob(Blob::from_bytes(bytes)),
        Bare::Boolean(b) => return Bare::Boolean(*b),
        Bare::Date(n) => return Bare::Date(*n),
        Bare::Shown(shown) => {
            let _ = shown.as_bytes();
            return Bare::Shown(Shown::from_bytes(bytes));
        }
    }
}
