//! How a map finds a key: by a hash of its bytes, which the hasher gets in one call.
ghost use Rattle.std.specs.Prelude.{[], ◌∷◌};
ghost use Rattle.std.proofs.Common.{ap};
ghost use Rattle.std.specs.Cmp.{on_equiv, on_per, partial_equiv_from_equiv};
ghost use Rattle.std.specs.Cmp.Lexicographic.{bytes_decides, nat_list_eq_equiv};
ghost use Rattle.std.specs.Str.{bytes_eq};

use crate::key::Key;
use indexmap::Equivalent;
use std::hash::{Hash, Hasher};

/// The bytes that are looked up in a map, whether or not they are a key.
#[derive(Clone, Copy)]
pub(crate) struct Name<'a> {
    pub(crate) bytes: &'a [u8],
}

/// A key passes its bytes to a hasher in one call, and nothing else.
impl Hash for Key {
    ghost hash_input = { λ key. key ∷ [] };

    ghost respects_eq = { λ x y h. ap (λ key. key ∷ []) ((bytes_decides x y).0 h) };

    fn hash<H: Hasher>(&self, state: &mut H) {
        state.write(self.as_bytes());
    }
}

impl<'a> PartialEq for Name<'a> {
    ghost eq = { λ x y. bytes_eq x.bytes.now y.bytes.now };

    ghost laws = { on_per (λ x. x.bytes.now) (partial_equiv_from_equiv nat_list_eq_equiv) };

    fn eq(&self, other: &Name<'a>) -> bool {
        self.bytes == other.bytes
    }
}

impl<'a> Eq for Name<'a> {
    ghost laws = { on_equiv (λ x. x.bytes.now) nat_list_eq_equiv };
}

/// Hashes as the key with these bytes.
impl<'a> Hash for Name<'a> {
    ghost hash_input = { λ name. name.bytes.now ∷ [] };

    ghost respects_eq = { λ x y h. ap (λ key. key ∷ [])
        ((bytes_decides x.bytes.now y.bytes.now).0 h) };

    fn hash<H: Hasher>(&self, state: &mut H) {
        state.write(self.bytes);
    }
}

impl<'a> Equivalent<Key> for Name<'a> {
    ghost equivalent = { λ name. bytes_eq name.bytes.now };

    ghost respects_hash = { λ name key h. ap (λ k. k ∷ [])
        ((bytes_decides name.bytes.now key).0 h) };

    ghost respects_eq = { λ name. nat_list_eq_equiv.congr name.bytes.now };

    fn equivalent(&self, key: &Key) -> bool {
        self.bytes == key.as_bytes()
    }
}
