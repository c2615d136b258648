//! `==` on values: equality of trees, in which order counts, as [`crate::same`] decides it. It does
//! not allocate.
ghost use Rattle.std.specs.Prelude.{◌≡◌, ◌↔◌, IsTrue, nat_eq};
ghost use Rattle.std.specs.Cmp.{decided, partial_equiv_from_equiv};
ghost use Rattle.std.specs.Cmp.Lexicographic.{pointwise, pointwise_decides, nat_list_eq_equiv};
ghost use Rattle.sf_value.specs.Equality.{bare_eq, dict_eq, field_eq, inner_eq, item_eq, list_eq};
ghost use Rattle.sf_value.specs.Equality.{entry_eq, member_eq};
ghost use Rattle.sf_value.specs.Deciding.{bare_equiv, dict_equiv, field_equiv, inner_equiv};
ghost use Rattle.sf_value.specs.Deciding.{item_equiv, list_equiv, member_equiv, pairs_decide};

use crate::blob::Blob;
use crate::display_string::Shown;
use crate::entries::Entries;
use crate::key::Key;
use crate::part::Part;
use crate::sequence::Sequence;
use crate::text::Text;
use crate::token::Token;
use crate::tree::same;
use crate::value::{Bare, Dict, Field, Inner, Item, List, Member};

impl PartialEq for Key {
    ghost eq = { pointwise nat_eq };

    ghost laws = { partial_equiv_from_equiv nat_list_eq_equiv };

    fn eq(&self, other: &Key) -> bool {
        self.as_bytes() == other.as_bytes()
    }
}

impl Eq for Key {
    ghost laws = { nat_list_eq_equiv };
}

impl PartialEq for Token {
    ghost eq = { pointwise nat_eq };

    ghost laws = { partial_equiv_from_equiv nat_list_eq_equiv };

    fn eq(&self, other: &Token) -> bool {
        self.as_bytes() == other.as_bytes()
    }
}

impl Eq for Token {
    ghost laws = { nat_list_eq_equiv };
}

impl PartialEq for Text {
    ghost eq = { pointwise nat_eq };

    ghost laws = { partial_equiv_from_equiv nat_list_eq_equiv };

    fn eq(&self, other: &Text) -> bool {
        self.as_bytes() == other.as_bytes()
    }
}

impl Eq for Text {
    ghost laws = { nat_list_eq_equiv };
}

impl PartialEq for Blob {
    ghost eq = { pointwise nat_eq };

    ghost laws = { partial_equiv_from_equiv nat_list_eq_equiv };

    fn eq(&self, other: &Blob) -> bool {
        self.as_bytes() == other.as_bytes()
    }
}

impl Eq for Blob {
    ghost laws = { nat_list_eq_equiv };
}

impl PartialEq for Shown {
    ghost eq = { pointwise nat_eq };

    ghost laws = { partial_equiv_from_equiv nat_list_eq_equiv };

    fn eq(&self, other: &Shown) -> bool {
        self.as_bytes() == other.as_bytes()
    }
}

impl Eq for Shown {
    ghost laws = { nat_list_eq_equiv };
}

impl PartialEq for Bare {
    ghost eq = { bare_eq };

    ghost laws = { partial_equiv_from_equiv bare_equiv };

    fn eq(&self, other: &Bare) -> bool
        ensures eq { result ≡ bare_eq self.now other.now }
        ensures same { IsTrue result ↔ (self.now ≡ other.now) }
    {
        self.same(other)
    }
}

impl Eq for Bare {
    ghost laws = { bare_equiv };
}

impl PartialEq for Item {
    ghost eq = { item_eq };

    ghost laws = { partial_equiv_from_equiv item_equiv };

    fn eq(&self, other: &Item) -> bool
        ensures eq { result ≡ item_eq self.now other.now }
        ensures same { IsTrue result ↔ (self.now ≡ other.now) }
    {
        self.same(other)
    }
}

impl Eq for Item {
    ghost laws = { item_equiv };
}

impl PartialEq for Inner {
    ghost eq = { inner_eq };

    ghost laws = { partial_equiv_from_equiv inner_equiv };

    fn eq(&self, other: &Inner) -> bool
        ensures eq { result ≡ inner_eq self.now other.now }
        ensures same { IsTrue result ↔ (self.now ≡ other.now) }
    {
        self.same(other)
    }
}

impl Eq for Inner {
    ghost laws = { inner_equiv };
}

impl PartialEq for Member {
    ghost eq = { member_eq };

    ghost laws = { partial_equiv_from_equiv member_equiv };

    fn eq(&self, other: &Member) -> bool
        ensures eq { result ≡ member_eq self.now other.now }
        ensures same { IsTrue result ↔ (self.now ≡ other.now) }
    {
        self.same(other)
    }
}

impl Eq for Member {
    ghost laws = { member_equiv };
}

impl PartialEq for List {
    ghost eq = { list_eq };

    ghost laws = { partial_equiv_from_equiv list_equiv };

    fn eq(&self, other: &List) -> bool
        ensures eq { result ≡ list_eq self.now other.now }
        ensures same { IsTrue result ↔ (self.now ≡ other.now) }
    {
        self.members.same(&other.members)
    }
}

impl Eq for List {
    ghost laws = { list_equiv };
}

impl PartialEq for Dict {
    ghost eq = { dict_eq };

    ghost laws = { partial_equiv_from_equiv dict_equiv };

    fn eq(&self, other: &Dict) -> bool
        ensures eq { result ≡ dict_eq self.now other.now }
        ensures same { IsTrue result ↔ (self.now ≡ other.now) }
    {
        self.members.same(&other.members)
    }
}

impl Eq for Dict {
    ghost laws = { dict_equiv };
}

impl PartialEq for Field {
    ghost eq = { field_eq };

    ghost laws = { partial_equiv_from_equiv field_equiv };

    fn eq(&self, other: &Field) -> bool
        ensures eq { result ≡ field_eq self.now other.now }
        ensures same { IsTrue result ↔ (self.now ≡ other.now) }
    {
        same(self, other)
    }
}

impl Eq for Field {
    ghost laws = { field_equiv };
}

impl<V: Part> PartialEq for Entries<V> {
    ghost eq = { pointwise (entry_eq V.eq) };

    ghost laws = { partial_equiv_from_equiv
        (decided (pointwise (entry_eq V.eq)) (pairs_decide V.eq V.decides)) };

    fn eq(&self, other: &Entries<V>) -> bool
        ensures eq { result ≡ pointwise (entry_eq V.eq) self.now other.now }
        ensures same { IsTrue result ↔ (self.now ≡ other.now) }
    {
        self.same(other)
    }
}

impl<V: Part> Eq for Entries<V> {
    ghost laws = { decided (pointwise (entry_eq V.eq)) (pairs_decide V.eq V.decides) };
}

impl<T: Part> PartialEq for Sequence<T> {
    ghost eq = { pointwise T.eq };

    ghost laws = { partial_equiv_from_equiv
        (decided (pointwise T.eq) (pointwise_decides T.decides)) };

    fn eq(&self, other: &Sequence<T>) -> bool
        ensures eq { result ≡ pointwise T.eq self.now other.now }
        ensures same { IsTrue result ↔ (self.now ≡ other.now) }
    {
        self.same(other)
    }
}

impl<T: Part> Eq for Sequence<T> {
    ghost laws = { decided (pointwise T.eq) (pointwise_decides T.decides) };
}
