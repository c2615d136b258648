//! Entries in order, by key (RFC 9651 sections 3.1.2 and 3.2).
ghost use Rattle.std.specs.Prelude.{◌≡◌, ℕ, List, [], ◌∷◌, ◌++◌, None, length, slice_get, ◌↔◌};
ghost use Rattle.std.specs.Prelude.{IsTrue, IsSome, IfSome, IfOk, IfErr, OnOk, OnErr, ◌<◌};
ghost use Rattle.std.specs.Option.{option_map, option_copied, option_copied_mut};
ghost use Rattle.std.specs.Borrow.{sem};
ghost use Rattle.sf_value.specs.Lending.{LendsValue, LendsValueAt, LendsNext};
ghost use Rattle.sf_value.specs.Lending.{lent_entries, lent_index, with_lent, values_left};
ghost use Rattle.sf_value.specs.Grammar.Pairs.{settle, without, value_at};
ghost use Rattle.sf_value.specs.Grammar.Tokens.{IsKey};
ghost use Rattle.sf_value.specs.Entries.{deref_entry, AreEntries};
ghost use Rattle.sf_value.specs.Deciding.{pairs_decide};
ghost use Rattle.std.specs.Iterator.{at_most};
ghost use Rattle.std.specs.Map.Iter.{TakesFirst, ShowsInOrder};

use crate::capacity::FIRST;
use crate::fault::OutOfMemory;
use crate::key::Key;
use crate::part::Part;
use crate::store::{Left, Lent, Slot, Store};
use std::alloc::Global;
use std::fmt;
use std::hash::RandomState;
use std::marker::Model;

/// Values by key, in the order in which the keys were first put: the parameters of an Item or an
/// Inner List (RFC 9651 section 3.1.2), and the members of a Dictionary (section 3.2). No key
/// occurs twice. Contracts see the list of the pairs of a key's bytes and its value.
///
/// ```
/// let mut entries = Entries::new(alloc, &seed);
/// entries.put(Key::new(alloc, b"a")?, 1) // Ok(None)
/// entries.put(Key::new(alloc, b"b")?, 2) // Ok(None)
/// entries.put(Key::new(alloc, b"a")?, 3) // Ok(Some(1)), and the place stays
/// entries.at(0)                          // Some((b"a", &3))
/// entries.get(b"b")                      // Some(&2)
/// ```
#[derive(Debug)]
pub struct Entries<V> {
    store: Store<V>,
}

impl<V> Model for Entries<V> {
    ghost use Rattle.std.specs.Prelude.{List, ℕ};
    ghost use Rattle.sf_value.specs.Entries.{AreEntries};
    ghost use Rattle.sf_value.specs.Stores.{stored, HasSeed};

    ghost Value = { List (List ℕ × V) };

    ghost view = { λ e. stored e.store };

    ghost invariant = { λ e. AreEntries (stored e.store) × HasSeed e.store };
}

/// The entries that remain of an iteration by reference, each as its key's bytes and its value.
#[derive(Debug, Drop)]
pub struct Iter<'a, V> {
    lent: Lent<'a, V>,
}

impl<'a, V> Model for Iter<'a, V> {
    ghost use Rattle.std.specs.Prelude.{List, ℕ};
    ghost use Rattle.sf_value.specs.Stores.{lent_pairs};

    ghost Value = { List (List ℕ × V) };

    ghost view = { λ a. lent_pairs a.lent };
}

/// Lends the values of entries in order, for changes. It lends one at a time, so that contracts
/// know the entries afterwards. A loop is `while let Some(value) = values.next()`, and its measure
/// is `values_left`, in `specs/Lending`.
#[derive(Debug, Drop)]
pub struct IterMut<'a, V> {
    entries: &'a mut Entries<V>,
    index: usize,
}

/// The entries that remain of an iteration by value, each as its key and its value.
#[derive(Drop)]
pub struct IntoIter<V> {
    left: Left<V>,
}

impl<V> Model for IntoIter<V> {
    ghost use Rattle.std.specs.Prelude.{List, ℕ};
    ghost use Rattle.std.specs.Map.{keys_of};
    ghost use Rattle.sf_value.specs.Grammar.Words.{Each};
    ghost use Rattle.sf_value.specs.Grammar.Tokens.{IsKey};
    ghost use Rattle.sf_value.specs.Stores.{left_pairs};

    ghost Value = { List (List ℕ × V) };

    ghost view = { λ a. left_pairs a.left };

    ghost invariant = { λ a. Each IsKey (keys_of (left_pairs a.left)) };
}

impl<V> Entries<V> {
    /// No entries. It does not allocate. The seed is for the hashes of keys; if attackers choose
    /// the keys, pass one that they can't predict.
    pub fn new(alloc: Global, seed: &RandomState) -> Entries<V>
        ensures { result ≡ [] }
    {
        Entries {
            store: Store::Fresh(alloc, *seed),
        }
    }

    /// The number of entries. It does not allocate.
    pub fn len(&self) -> usize
        ensures len { result ≡ length self.now }
        // Each key is valid, and none occurs twice.
        ensures entries { AreEntries self.now }
    {
        self.store.len()
    }

    /// Whether there are no entries. It does not allocate.
    pub fn is_empty(&self) -> bool
        ensures { IsTrue result ↔ (self.now ≡ []) }
    {
        self.len() == 0
    }

    /// The value of the key with these bytes; `None` if there is none, also if the bytes are not a
    /// key. It does not allocate.
    pub fn get(&self, key: &[u8]) -> Option<&V>
        ensures { option_copied result ≡ value_at key.now self.now }
    {
        self.store.get(key)
    }

    /// The value of the key with these bytes, as a mutable reference; `None` if there is none. It
    /// does not allocate.
    ///
    /// ```
    /// if let Some(value) = entries.get_mut(b"q") {
    ///     *value = Bare::Boolean(true);
    /// }
    /// ```
    pub fn get_mut(&mut self, key: &[u8]) -> Option<&mut V>
        // The final value of the reference is the key's value; everything else is unchanged.
        ensures* writes_back { sem 𝓛 (LendsValue V.row self.entry key.now result) }
        ensures value { option_copied_mut result ≡ value_at key.now self.old }
    {
        let place = self.store.place(key)?;
        self.store.value_mut(place)
    }

    /// Whether there is a value for the key with these bytes. It does not allocate.
    pub fn contains_key(&self, key: &[u8]) -> bool
        ensures { IsTrue result ↔ IsSome (value_at key.now self.now) }
    {
        self.get(key).is_some()
    }

    /// The key and the value at an index, from 0; `None` past the end. It does not allocate.
    pub fn at(&self, index: usize) -> Option<(&[u8], &V)>
        ensures { option_map deref_entry result ≡ slice_get self.now index }
    {
        self.store.at(index)
    }

    /// The value at an index, from 0, as a mutable reference; `None` past the end. [`Entries::at`]
    /// returns its key, which no call changes. It does not allocate.
    ///
    /// ```
    /// for place in 0..entries.len() {
    ///     if let Some(value) = entries.at_mut(place) {
    ///         *value = Bare::Boolean(true);
    ///     }
    /// }
    /// ```
    pub fn at_mut(&mut self, index: usize) -> Option<&mut V>
        // The final value of the reference is the value at the index; everything else is unchanged.
        ensures* writes_back { sem 𝓛 (LendsValueAt V.row self.entry index result) }
        ensures value { option_copied_mut result
            ≡ option_map (λ entry. entry.1) (slice_get self.old index) }
    {
        self.store.value_mut(index)
    }

    /// The entries in order, each as its key's bytes and its value. It does not allocate.
    pub fn iter(&self) -> Iter<'_, V>
        ensures rest { result ≡ self.now }
        // A loop takes them in order from the start, and a complete loop takes them all.
        ensures runs { ShowsInOrder (deref_entry {V = V}) }
    {
        Iter {
            lent: self.store.iter(),
        }
    }

    /// The values in order, as mutable references, one after another. It does not allocate.
    ///
    /// ```
    /// let mut values = entries.iter_mut();
    /// while let Some(value) = values.next() {
    ///     *value = Bare::Boolean(true);
    /// }
    /// ```
    pub fn iter_mut(&mut self) -> IterMut<'_, V>
        // A change through it is a change of these entries.
        ensures same { (lent_entries result).ghost_name ≡ self.entry.ghost_name }
        ensures entries { (lent_entries result).now ≡ self.old }
        ensures first { lent_index result ≡ 0 }
    {
        IterMut {
            entries: self,
            index: 0,
        }
    }
}

impl<'a, V> IterMut<'a, V> {
    /// The bytes of the key of the next value; `None` after the last. It does not allocate.
    pub fn key(&self) -> Option<&[u8]>
        ensures { option_copied result ≡ option_map (λ entry. entry.0)
            (slice_get (lent_entries self.now).now (lent_index self.now)) }
    {
        let (key, _) = self.entries.at(self.index)?;
        Some(key)
    }

    /// The next value, as a mutable reference; `None` after the last. It does not allocate.
    pub fn next(&mut self) -> Option<&mut V>
        // The final value of the reference is the value of its key, and the value after it comes
        // next; everything else is unchanged.
        ensures* writes_back { sem 𝓛 (LendsNext V.row self.entry result) }
        ensures value { option_copied_mut result ≡ option_map (λ entry. entry.1)
            (slice_get (lent_entries self.old).now (lent_index self.old)) }
        // Whatever its final value, fewer remain: so a loop ends.
        ensures fewer { IfSome result (λ _. (w : V)
            → values_left (with_lent self.old w) < values_left self.old) }
    {
        let index = self.index;
        if index >= self.entries.len() {
            return None;
        }
        self.index = index + 1;
        self.entries.at_mut(index)
    }
}

impl<V: Drop> Entries<V> {
    /// Puts a value at a key (RFC 9651 sections 4.2.2 and 4.2.3.2). A new key goes last, and the
    /// result is `None`. The value of a key that is present is replaced in place and returned; this
    /// does not allocate. If an allocation fails, the entries are unchanged, and the key and the
    /// value are returned.
    ///
    /// ```
    /// entries.put(Key::new(alloc, b"a")?, 3) // Ok(Some(1)), if the value of a was 1
    /// ```
    pub fn put(&mut self, key: Key, value: V) -> Result<Option<V>, (Key, V)>
        // A key that is present keeps its place and is overwritten; a new one goes last.
        ensures new { IfOk result (λ _. self.new ≡ settle (self.old ++ (key, value) ∷ [])) }
        ensures old { IfOk result (λ old. old ≡ value_at key self.old) }
        ensures same { IfErr result (λ _. self.new ≡ self.old) }
        ensures back { IfErr result (λ pair. pair ≡ (key, value)) }
        // It fails only if the key is new.
        ensures absent { IfErr result (λ _. value_at key self.old ≡ None) }
    {
        self.store.put(key, value)
    }

    /// Puts a value at a key, as [`Entries::put`] does, but drops the old value, or the pair if an
    /// allocation fails. The entries are then unchanged.
    ///
    /// ```
    /// entries.set(Key::new(alloc, b"q")?, Bare::Integer(Int::new(1)?))?;
    /// ```
    #[inline(always)]
    pub fn set(&mut self, key: Key, value: V) -> Result<(), OutOfMemory>
        // A key that is present keeps its place and is overwritten; a new one goes last.
        ensures new { OnOk result (self.new ≡ settle (self.old ++ (key, value) ∷ [])) }
        ensures same { OnErr result (self.new ≡ self.old) }
        // It fails only if the key is new.
        ensures absent { OnErr result (value_at key self.old ≡ None) }
    {
        self.store.set(key, value)
    }

    /// Puts a value at the key with these bytes, which must be valid, as [`Entries::set`] does. It
    /// takes less time, since most new keys are made in place. A key of more than 16 bytes is
    /// allocated even if it is present; if that allocation fails, the value of a key that is
    /// present is still replaced. It is for parsers, which test each byte as they read it.
    ///
    /// ```
    /// entries.set_named(alloc, b"q", Bare::Integer(Int::new(1)?))?;
    /// ```
    #[inline(always)]
    pub fn set_named(&mut self, alloc: Global, key: &[u8], value: V) -> Result<(), OutOfMemory>
        requires { IsKey key.now }
        // A key that is present keeps its place and is overwritten; a new one goes last.
        ensures new { OnOk result (self.new ≡ settle (self.old ++ (key.now, value) ∷ [])) }
        ensures same { OnErr result (self.new ≡ self.old) }
        // It fails only if the key is new.
        ensures absent { OnErr result (value_at key.now self.old ≡ None) }
    {
        self.store.set_named(alloc, key, value, FIRST)
    }

    /// As [`Entries::set_named`], for entries of which so many are expected: the first one gets
    /// memory for them, but for one at least and eight at most. If its key has more than 16 bytes,
    /// it gets memory for four instead. If more follow, the memory grows.
    ///
    /// ```
    /// entries.set_named_of(1, alloc, b"q", Bare::Integer(Int::new(1)?))?; // memory for one
    /// ```
    #[inline(always)]
    pub fn set_named_of(
        &mut self,
        expected: usize,
        alloc: Global,
        key: &[u8],
        value: V,
    ) -> Result<(), OutOfMemory>
        requires { IsKey key.now }
        // A key that is present keeps its place and is overwritten; a new one goes last.
        ensures new { OnOk result (self.new ≡ settle (self.old ++ (key.now, value) ∷ [])) }
        ensures same { OnErr result (self.new ≡ self.old) }
        // It fails only if the key is new.
        ensures absent { OnErr result (value_at key.now self.old ≡ None) }
    {
        self.store.set_named(alloc, key, value, expected)
    }

    /// Removes the key with these bytes, and returns its value; `None` if there is none. The other
    /// entries keep their order. It does not allocate.
    ///
    /// ```
    /// entries.remove(b"a") // Some(3), and the entry of b"b" is now the first
    /// ```
    pub fn remove(&mut self, key: &[u8]) -> Option<V>
        ensures value { result ≡ value_at key.now self.old }
        ensures rest { self.new ≡ without key.now self.old }
    {
        self.store.remove(key)
    }
}

// Written out, so that proofs about types that contain entries don't unfold them at a drop.
impl<V: Drop> Drop for Entries<V> {
    #[inline(always)]
    fn drop(self) {
        let Entries { store: _ } = self;
    }
}

impl<'a, V> Iterator for Iter<'a, V> {
    type Item = (&'a [u8], &'a V);

    ghost next_gives = { TakesFirst deref_entry };

    ghost remaining = { λ s. at_most (length s) };

    fn next(&mut self) -> Option<(&'a [u8], &'a V)> {
        match &mut self.lent {
            Lent::Nothing => return None,
            Lent::Few(slots) => {
                let slot = slots.next()?;
                return Some((slot.key.as_bytes(), &slot.value));
            }
            Lent::Many(entries) => {
                let (key, value) = entries.next()?;
                return Some((key.as_bytes(), value));
            }
        }
    }
}

impl<'a, V> IntoIterator for &'a Entries<V> {
    type Item = (&'a [u8], &'a V);

    type IntoIter = Iter<'a, V>;

    ghost into_iter_gives = { λ e r. (r ≡ e.now) × ShowsInOrder (deref_entry {V = V}) };

    fn into_iter(self) -> Iter<'a, V> {
        self.iter()
    }
}

impl<V: Drop> Iterator for IntoIter<V> {
    type Item = (Key, V);

    ghost next_gives = { TakesFirst (λ p. p) };

    ghost remaining = { λ s. at_most (length s) };

    fn next(&mut self) -> Option<(Key, V)> {
        match &mut self.left {
            Left::Nothing => return None,
            Left::Few(slots) => {
                let Slot { key, value, .. } = slots.next()?;
                return Some((key, value));
            }
            Left::Many(entries) => {
                return entries.next();
            }
        }
    }
}

// The entries that remain in a map can't be read without being taken.
impl<V> fmt::Debug for IntoIter<V> {
    fn fmt<W: fmt::Write>(&self, f: &mut fmt::Formatter<W>) -> fmt::Result {
        f.write_str("IntoIter { .. }")
    }
}

impl<V: Drop> IntoIterator for Entries<V> {
    type Item = (Key, V);

    type IntoIter = IntoIter<V>;

    ghost into_iter_gives = { λ e r. r ≡ e };

    fn into_iter(self) -> IntoIter<V> {
        let Entries { store } = self;
        IntoIter {
            left: store.into_iter(),
        }
    }
}

impl<V: Part> Part for Entries<V> {
    ghost in_place = { λ e. e ≡ [] };

    ghost decides = { pairs_decide V.eq V.decides };

    fn same(&self, other: &Entries<V>) -> bool {
        if self.len() != other.len() {
            return false;
        }
        for i in 0..self.len() {
            let (Some(x), Some(y)) = (self.at(i), other.at(i)) else {
                return false;
            };
            if x.0 != y.0 || !x.1.same(y.1) {
                return false;
            }
        }
        true
    }

    // Inlined, so that entries that are empty, as the parameters of most Items are, cost no call.
    #[inline(always)]
    fn copy(&self, alloc: Global, seed: &RandomState) -> Result<Entries<V>, OutOfMemory> {
        if let Store::Fresh(_, _) = &self.store {
            return Ok(Entries::new(alloc, seed));
        }
        Ok(Entries {
            store: self.store.copy(alloc, seed)?,
        })
    }
}
