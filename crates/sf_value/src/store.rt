//! How entries are stored: a few in a vector, in which they are found by their bytes, more in a
//! map, in which they are found by hashes.
ghost use Rattle.std.specs.Prelude.{◌≡◌, ◌<◌, ◌≤◌, ◌+◌, [], ◌∷◌, ◌++◌, None, length, slice_get};
ghost use Rattle.std.specs.Prelude.{IfOk, IfErr, OnOk, OnErr, IsOk, IsTrue, false, vec_len};
ghost use Rattle.std.specs.Prelude.{vec_capacity};
ghost use Rattle.std.specs.Option.{option_map, option_copied, option_copied_mut};
ghost use Rattle.std.specs.List.{position};
ghost use Rattle.std.specs.Map.{keys_of};
ghost use Rattle.std.specs.Str.{bytes_eq};
ghost use Rattle.std.specs.Borrow.{sem};
ghost use Rattle.sf_value.specs.Lending.{LendsStored};
ghost use Rattle.indexmap.specs.IndexMap.{insert_entry, spare, hasher_of};
ghost use Rattle.sf_value.specs.Grammar.Pairs.{settle, without, value_at, HasDistinctKeys};
ghost use Rattle.sf_value.specs.Grammar.Tokens.{IsKey};
ghost use Rattle.sf_value.specs.Entries.{deref_entry, AreEntries};
ghost use Rattle.sf_value.specs.Stores.{slot_pairs, stored, HasSeed, HasSlotSeed, HasRoom};
ghost use Rattle.sf_value.specs.Stores.{lent_pairs, left_pairs, HaveSeed, IsSeedOf, HasGrownRoom};
ghost use Rattle.sf_value.specs.Stores.{HasPlace};
ghost use Rattle.sf_value.specs.Capacities.{HasGrown};

use crate::bytes::{IN_PLACE, ShortBytes};
use crate::capacity::capacity_for;
use crate::fault::OutOfMemory;
use crate::key::Key;
use crate::key_hash::Name;
use crate::part::Part;
use crate::table;
use crate::table::Many;
use indexmap::{IndexMap, map};
use std::alloc::Global;
use std::hash::RandomState;
use std::{mem, slice, vec};

/// The largest number of entries in a vector.
const MAX_SLOTS: usize = 8;

/// One of a few entries.
#[derive(Debug, Drop)]
pub(crate) struct Slot<V> {
    pub(crate) key: Key,
    pub(crate) value: V,
    /// The seed of the map that replaces the vector when there are more entries. It is stored in
    /// the memory of the vector, so that no variant of `Store` is larger than a vector.
    seed: RandomState,
}

/// The storage of entries: none, a few in a vector, or more in a map. A map stays a map if entries
/// are removed from it, even all.
#[derive(Debug, Drop)]
pub(crate) enum Store<V> {
    Fresh(Global, RandomState),
    Few(Vec<Slot<V>>),
    Many(Box<Many<V>>),
}

/// The entries that remain of an iteration by reference.
#[derive(Debug, Drop)]
pub(crate) enum Lent<'a, V> {
    Nothing,
    Few(slice::Iter<'a, Slot<V>>),
    Many(map::Iter<'a, Key, V>),
}

/// The entries that remain of an iteration by value.
#[derive(Drop)]
pub(crate) enum Left<V> {
    Nothing,
    Few(vec::IntoIter<Slot<V>>),
    Many(map::IntoIter<Key, V>),
}

impl<V> Store<V> {
    /// The number of entries.
    pub(crate) fn len(&self) -> usize
        ensures { result ≡ length (stored self.now) }
    {
        match self {
            Store::Fresh(_, _) => 0,
            Store::Few(slots) => slots.len(),
            Store::Many(map) => map.len(),
        }
    }

    /// The value of the key with these bytes.
    pub(crate) fn get(&self, key: &[u8]) -> Option<&V>
        ensures { option_copied result ≡ value_at key.now (stored self.now) }
    {
        match self {
            Store::Fresh(_, _) => return None,
            Store::Few(slots) => {
                let place = place_of(slots, key)?;
                return Some(&slots[place].value);
            }
            Store::Many(map) => return map.get(Name { bytes: key }),
        }
    }

    /// The key and the value at an index.
    pub(crate) fn at(&self, index: usize) -> Option<(&[u8], &V)>
        ensures { option_map deref_entry result ≡ slice_get (stored self.now) index }
    {
        match self {
            Store::Fresh(_, _) => return None,
            Store::Few(slots) => {
                let slot = slots.get(index)?;
                return Some((slot.key.as_bytes(), &slot.value));
            }
            Store::Many(map) => {
                let (key, value) = map.get_index(index)?;
                return Some((key.as_bytes(), value));
            }
        }
    }

    /// The index of the key with these bytes.
    pub(crate) fn place(&self, key: &[u8]) -> Option<usize>
        // It is the first index whose key has these bytes.
        ensures { result ≡ position (bytes_eq key.now) (keys_of (stored self.now)) }
    {
        match self {
            Store::Fresh(_, _) => return None,
            Store::Few(slots) => return place_of(slots, key),
            Store::Many(map) => return map.get_index_of(Name { bytes: key }),
        }
    }

    /// The value at an index, as a mutable reference.
    pub(crate) fn value_mut(&mut self, place: usize) -> Option<&mut V>
        // The final value of the reference is the value there; everything else is unchanged.
        ensures* writes_back { sem 𝓛 (LendsStored V.row self.entry place result) }
        // At first it is the value of the entry at the index, if there is one.
        ensures value { option_copied_mut result
            ≡ option_map (λ entry. entry.1) (slice_get (stored self.old) place) }
    {
        match self {
            Store::Fresh(_, _) => return None,
            Store::Few(slots) => {
                let slot = slots.get_mut(place)?;
                return Some(&mut slot.value);
            }
            Store::Many(map) => return map.get_index_mut(place),
        }
    }

    /// All entries in order, by reference.
    pub(crate) fn iter(&self) -> Lent<'_, V>
        ensures { lent_pairs result ≡ stored self.now }
    {
        match self {
            Store::Fresh(_, _) => Lent::Nothing,
            Store::Few(slots) => Lent::Few(slots.iter()),
            Store::Many(map) => Lent::Many(map.iter()),
        }
    }
}

impl<V: Drop> Store<V> {
    /// All entries in order, by value.
    pub(crate) fn into_iter(self) -> Left<V>
        ensures { left_pairs result ≡ stored self }
    {
        match self {
            Store::Fresh(_, _) => Left::Nothing,
            Store::Few(slots) => Left::Few(slots.into_iter()),
            Store::Many(map) => Left::Many(Box::into_inner(map).into_iter()),
        }
    }

    /// Puts a value at a key, as `Entries::put` does. Only a new key allocates.
    pub(crate) fn put(&mut self, key: Key, value: V) -> Result<Option<V>, (Key, V)>
        // Each key is valid, and none occurs twice.
        requires entries { AreEntries (stored self.old) }
        // There is a seed: a vector has a slot, which has it.
        requires seed { HasSeed self.old }
        // Both still hold.
        ensures entries { AreEntries (stored self.new) }
        ensures seed { HasSeed self.new }
        // A key that is present keeps its place and is overwritten; a new one goes last.
        ensures new { IfOk result (λ _. stored self.new
            ≡ settle (stored self.old ++ (key, value) ∷ [])) }
        ensures old { IfOk result (λ old. old ≡ value_at key (stored self.old)) }
        ensures same { IfErr result (λ _. stored self.new ≡ stored self.old) }
        ensures back { IfErr result (λ pair. pair ≡ (key, value)) }
        // It fails only if the key is new.
        ensures absent { IfErr result (λ _. value_at key (stored self.old) ≡ None) }
    {
        match self {
            Store::Fresh(alloc, seed) => {
                // The proof has to know that these are the bytes of a key.
                let _ = key.as_bytes();
                let mut slots = Vec::new(*alloc);
                let seed = *seed;
                push(&mut slots, Slot { key, value, seed })?;
                *self = Store::Few(slots);
                return Ok(None);
            }
            Store::Few(slots) => {
                if let Some(place) = place_of(slots, key.as_bytes()) {
                    return Ok(Some(mem::replace(&mut slots[place].value, value)));
                }
                if slots.len() < MAX_SLOTS {
                    let seed = slots[0].seed;
                    push(slots, Slot { key, value, seed })?;
                    return Ok(None);
                }
                let Ok(mut map) = grown(slots) else {
                    return Err((key, value));
                };
                let put = table::put(&mut map, key, value);
                *self = Store::Many(map);
                return put;
            }
            Store::Many(map) => return table::put(map, key, value),
        }
    }

    /// Puts a value at a key, as `Entries::set` does. Only a new key allocates. It is inlined, so that
    /// a call for a map moves the key and the value once.
    #[inline(always)]
    pub(crate) fn set(&mut self, key: Key, value: V) -> Result<(), OutOfMemory>
        // Each key is valid, and none occurs twice.
        requires entries { AreEntries (stored self.old) }
        // There is a seed: a vector has a slot, which has it.
        requires seed { HasSeed self.old }
        // Both still hold.
        ensures entries { AreEntries (stored self.new) }
        ensures seed { HasSeed self.new }
        // A key that is present keeps its place and is overwritten; a new one goes last.
        ensures new { OnOk result (stored self.new
            ≡ settle (stored self.old ++ (key, value) ∷ [])) }
        ensures same { OnErr result (stored self.new ≡ stored self.old) }
        // It fails only if the key is new.
        ensures absent { OnErr result (value_at key (stored self.old) ≡ None) }
    {
        if let Store::Many(map) = self {
            return table::set(map, key, value);
        }
        self.set_in_few(key, value)
    }

    /// As `set`, if the entries are not in a map. The rarer cases are functions that are not inlined:
    /// a function clears all its stack on entry, so each case pays only for its own.
    #[inline(never)]
    fn set_in_few(&mut self, key: Key, value: V) -> Result<(), OutOfMemory>
        requires entries { AreEntries (stored self.old) }
        requires seed { HasSlotSeed self.old }
        ensures entries { AreEntries (stored self.new) }
        ensures seed { HasSeed self.new }
        ensures new { OnOk result (stored self.new
            ≡ settle (stored self.old ++ (key, value) ∷ [])) }
        ensures same { OnErr result (stored self.new ≡ stored self.old) }
        ensures absent { OnErr result (value_at key (stored self.old) ≡ None) }
    {
        match self {
            Store::Fresh(alloc, seed) => {
                // The proof has to know that these are the bytes of a key.
                let _ = key.as_bytes();
                let seed = *seed;
                let mut slots = Vec::new(*alloc);
                add(&mut slots, Slot { key, value, seed })?;
                *self = Store::Few(slots);
                return Ok(());
            }
            Store::Few(slots) => {
                if let Some(place) = place_of(slots, key.as_bytes()) {
                    overwrite(&mut slots[place], value);
                    return Ok(());
                }
                if slots.len() < MAX_SLOTS {
                    let seed = slots[0].seed;
                    add(slots, Slot { key, value, seed })?;
                    return Ok(());
                }
                return self.set_in_map(key, value);
            }
            Store::Many(_) => unreachable!(),
        }
    }

    /// As `set`, but the vector is replaced by a map. It is not inlined, nor is `table::set`: a
    /// call for a few entries would pay for their registers and their stack.
    #[inline(never)]
    fn set_in_map(&mut self, key: Key, value: V) -> Result<(), OutOfMemory>
        requires entries { AreEntries (stored self.old) }
        requires seed { HasSeed self.old }
        ensures entries { AreEntries (stored self.new) }
        ensures seed { HasSeed self.new }
        ensures new { OnOk result (stored self.new
            ≡ settle (stored self.old ++ (key, value) ∷ [])) }
        ensures same { OnErr result (stored self.new ≡ stored self.old) }
        ensures absent { OnErr result (value_at key (stored self.old) ≡ None) }
    {
        match self.put(key, value) {
            Ok(_) => return Ok(()),
            Err(_) => return Err(OutOfMemory),
        }
    }

    /// Puts a value at the key with these bytes, as `Entries::set_named` does. It is inlined for
    /// the common cases, in which neither the key nor the slot is moved: a short key that is the
    /// first, or among a few. The first entry with such a key gets memory for as many as are
    /// expected.
    #[inline(always)]
    pub(crate) fn set_named(
        &mut self,
        alloc: Global,
        key: &[u8],
        value: V,
        expected: usize,
    ) -> Result<(), OutOfMemory>
        requires key { IsKey key.now }
        // Each key is valid, and none occurs twice.
        requires entries { AreEntries (stored self.old) }
        // There is a seed: a vector has a slot, which has it.
        requires seed { HasSeed self.old }
        // Both still hold.
        ensures entries { AreEntries (stored self.new) }
        ensures seed { HasSeed self.new }
        // A key that is present keeps its place and is overwritten; a new one goes last.
        ensures new { OnOk result (stored self.new
            ≡ settle (stored self.old ++ (key.now, value) ∷ [])) }
        ensures same { OnErr result (stored self.new ≡ stored self.old) }
        // It fails only if the key is new.
        ensures absent { OnErr result (value_at key.now (stored self.old) ≡ None) }
    {
        if let Store::Many(map) = self {
            return table::set_named(map, alloc, key, value);
        }
        if key.len() > IN_PLACE {
            return self.set_made(alloc, key, value);
        }
        let seed = self.seed();
        let at = self.reserve(key, expected)?;
        if at >= MAX_SLOTS {
            return self.set_made(alloc, key, value);
        }
        // There is no other outcome: it is a vector, and a short key does not allocate.
        let Store::Few(slots) = self else {
            unreachable!()
        };
        if at < slots.len() {
            overwrite(&mut slots[at], value);
            return Ok(());
        }
        let Ok(bytes) = ShortBytes::from_slice(alloc, key) else {
            unreachable!()
        };
        slots.push_reserved(Slot {
            key: Key::from_bytes(bytes),
            value,
            seed,
        });
        Ok(())
    }

    /// The seed that a map of these entries will have. They are not in one yet.
    #[inline(always)]
    fn seed(&self) -> RandomState
        requires { HasSlotSeed self.now }
    {
        match self {
            Store::Fresh(_, seed) => *seed,
            Store::Few(slots) => slots[0].seed,
            Store::Many(_) => unreachable!(),
        }
    }

    /// The index of a key in the vector: where it is or, if it is new, where it is to be put, with
    /// capacity reserved for it. It is `MAX_SLOTS` if the key is new and the vector is full, or if
    /// the entries are in a map.
    #[inline(never)]
    fn reserve(&mut self, key: &[u8], expected: usize) -> Result<usize, OutOfMemory>
        requires { HasSeed self.old }
        ensures same { stored self.new ≡ stored self.old }
        ensures place { IfOk result (λ place. place < MAX_SLOTS → HasPlace key.now place self.new) }
        // Without an index, there is a seed as before.
        ensures other { IfOk result (λ place. MAX_SLOTS ≤ place → HasSeed self.new) }
        ensures seed { OnErr result (HasSeed self.new) }
        // It fails only if the key is new.
        ensures absent { OnErr result (value_at key.now (stored self.old) ≡ None) }
    {
        match self {
            Store::Fresh(alloc, seed) => {
                let (alloc, seed) = (*alloc, *seed);
                self.reserve_first(alloc, seed, expected)?;
                return Ok(0);
            }
            Store::Few(slots) => {
                if let Some(present) = place_of(slots, key) {
                    return Ok(present);
                }
                if slots.len() >= MAX_SLOTS {
                    return Ok(MAX_SLOTS);
                }
                slots.reserve(1)?;
                return Ok(slots.len());
            }
            Store::Many(_) => return Ok(MAX_SLOTS),
        }
    }

    /// Makes an empty vector with capacity for as many entries as are expected, but for one at
    /// least and `MAX_SLOTS` at most. The vector is stored first and grows there: if it were moved
    /// right after growing, it would be loaded while it is still being stored.
    #[inline(always)]
    fn reserve_first(
        &mut self,
        alloc: Global,
        seed: RandomState,
        expected: usize,
    ) -> Result<(), OutOfMemory>
        requires { stored self.old ≡ [] }
        ensures none { stored self.new ≡ [] }
        ensures room { OnOk result (HasRoom self.new) }
        ensures seed { OnErr result (HasSeed self.new) }
    {
        *self = Store::Few(Vec::new(alloc));
        let Store::Few(slots) = self else {
            unreachable!()
        };
        if slots.reserve_exact(expected.min(MAX_SLOTS).max(1)).is_err() {
            *self = Store::Fresh(alloc, seed);
            return Err(OutOfMemory);
        }
        Ok(())
    }

    /// As `set_named`, for a long key, or if the vector is full: it first makes the key, whether or
    /// not it is present.
    #[inline(never)]
    fn set_made(&mut self, alloc: Global, key: &[u8], value: V) -> Result<(), OutOfMemory>
        requires key { IsKey key.now }
        requires entries { AreEntries (stored self.old) }
        requires seed { HasSeed self.old }
        ensures entries { AreEntries (stored self.new) }
        ensures seed { HasSeed self.new }
        ensures new { OnOk result (stored self.new
            ≡ settle (stored self.old ++ (key.now, value) ∷ [])) }
        ensures same { OnErr result (stored self.new ≡ stored self.old) }
        ensures absent { OnErr result (value_at key.now (stored self.old) ≡ None) }
    {
        let Ok(bytes) = ShortBytes::from_slice(alloc, key) else {
            return self.overwrite(key, value);
        };
        self.set(Key::from_bytes(bytes), value)
    }

    /// As `set_named`, if there is no memory for the key: it replaces the value of a key that is
    /// present, and fails if the key is new.
    #[inline(never)]
    fn overwrite(&mut self, key: &[u8], value: V) -> Result<(), OutOfMemory>
        requires key { IsKey key.now }
        requires entries { AreEntries (stored self.old) }
        requires seed { HasSeed self.old }
        ensures entries { AreEntries (stored self.new) }
        ensures seed { HasSeed self.new }
        ensures new { OnOk result (stored self.new
            ≡ settle (stored self.old ++ (key.now, value) ∷ [])) }
        ensures same { OnErr result (stored self.new ≡ stored self.old) }
        ensures absent { OnErr result (value_at key.now (stored self.old) ≡ None) }
    {
        match self {
            Store::Fresh(_, _) => return Err(OutOfMemory),
            Store::Few(slots) => {
                let Some(present) = place_of(slots, key) else {
                    return Err(OutOfMemory);
                };
                overwrite(&mut slots[present], value);
                return Ok(());
            }
            Store::Many(map) => return table::overwrite(map, key, value),
        }
    }

    /// Removes the key with these bytes, and returns its value. The others keep their order.
    pub(crate) fn remove(&mut self, key: &[u8]) -> Option<V>
        // Each key is valid, and none occurs twice.
        requires entries { AreEntries (stored self.old) }
        // There is a seed: a vector has a slot, which has it.
        requires seed { HasSeed self.old }
        // Both still hold.
        ensures entries { AreEntries (stored self.new) }
        ensures seed { HasSeed self.new }
        ensures value { result ≡ value_at key.now (stored self.old) }
        ensures rest { stored self.new ≡ without key.now (stored self.old) }
    {
        match self {
            Store::Fresh(_, _) => return None,
            Store::Few(slots) => {
                let place = place_of(slots, key)?;
                let Slot {
                    key: _,
                    value,
                    seed,
                } = slots.remove(place);
                if !slots.is_empty() {
                    return Some(value);
                }
                let alloc = *slots.allocator();
                *self = Store::Fresh(alloc, seed);
                return Some(value);
            }
            Store::Many(map) => return map.shift_remove(Name { bytes: key }),
        }
    }
}

impl<V: Part> Store<V> {
    /// A copy with another seed, with the capacity that putting the entries one by one would give.
    /// It is not inlined: a copy of no entries would pay for its stack.
    #[inline(never)]
    pub(crate) fn copy(&self, alloc: Global, seed: &RandomState) -> Result<Store<V>, OutOfMemory>
        // Each key is valid, and none occurs twice.
        requires entries { AreEntries (stored self.now) }
        requires seed { HasSeed self.now }
        ensures seed { IfOk result HasSeed }
        ensures given { IfOk result (IsSeedOf seed.now) }
        ensures room { IfOk result HasGrownRoom }
        ensures copied { IfOk result (λ copy. stored copy ≡ stored self.now) }
        // Without entries it is never out of memory.
        ensures none { stored self.now ≡ [] → IsOk result }
    {
        match self {
            Store::Fresh(_, _) => return Ok(Store::Fresh(alloc, *seed)),
            Store::Few(slots) => return Ok(Store::Few(copy_few(slots, alloc, seed)?)),
            Store::Many(map) => {
                if map.is_empty() {
                    return Ok(Store::Fresh(alloc, *seed));
                }
                if map.len() <= MAX_SLOTS {
                    return Ok(Store::Few(copy_left(map, alloc, seed)?));
                }
                return Ok(Store::Many(copy_many(map, alloc, seed)?));
            }
        }
    }
}

/// Copies of a few entries, in a vector.
#[inline(never)]
fn copy_few<V: Part>(
    sources: &[Slot<V>],
    alloc: Global,
    seed: &RandomState,
) -> Result<Vec<Slot<V>>, OutOfMemory>
    ensures copied { IfOk result (λ copies. slot_pairs copies.items ≡ slot_pairs sources.now) }
    ensures seeds { IfOk result (λ copies. HaveSeed seed.now copies.items) }
    ensures room { IfOk result (λ copies. HasGrown (length copies.items) (vec_capacity copies)) }
{
    let mut copies = Vec::with_capacity(alloc, capacity_for(sources.len()))?;
    for source in sources {
        push_copy(&mut copies, &source.key, &source.value, alloc, seed)?;
    }
    Ok(copies)
}

/// Copies of the entries of a map in which only a few are left, in a vector.
#[inline(never)]
fn copy_left<V: Part>(
    map: &Many<V>,
    alloc: Global,
    seed: &RandomState,
) -> Result<Vec<Slot<V>>, OutOfMemory>
    ensures copied { IfOk result (λ copies. slot_pairs copies.items ≡ map.now.entries) }
    ensures seeds { IfOk result (λ copies. HaveSeed seed.now copies.items) }
    ensures room { IfOk result (λ copies. HasGrown (length copies.items) (vec_capacity copies)) }
{
    let mut copies = Vec::with_capacity(alloc, capacity_for(map.len()))?;
    for (key, value) in map.iter() {
        push_copy(&mut copies, key, value, alloc, seed)?;
    }
    Ok(copies)
}

/// Adds a copy of an entry to a vector that has capacity for it. A short key is made here, and not
/// moved out of a result. It is made before the value: if its bytes were read right after they are
/// written, the read would wait.
#[inline(always)]
fn push_copy<V: Part>(
    copies: &mut Vec<Slot<V>>,
    key: &Key,
    value: &V,
    alloc: Global,
    seed: &RandomState,
) -> Result<(), OutOfMemory>
    requires { vec_len copies.old < vec_capacity copies.old }
    ensures added { OnOk result (slot_pairs copies.new.items
        ≡ slot_pairs copies.old.items ++ (key.now, value.now) ∷ []) }
    ensures seeds { HaveSeed seed.now copies.old.items → HaveSeed seed.now copies.new.items }
    ensures room { vec_capacity copies.new ≡ vec_capacity copies.old }
{
    let bytes = key.as_bytes();
    if bytes.len() > IN_PLACE {
        return push_long_copy(copies, key, value, alloc, seed);
    }
    let Ok(bytes) = ShortBytes::from_slice(alloc, bytes) else {
        unreachable!()
    };
    let value = value.copy(alloc, seed)?;
    copies.push_reserved(Slot {
        key: Key::from_bytes(bytes),
        value,
        seed: *seed,
    });
    Ok(())
}

/// As [`push_copy`], for a long key, which is allocated.
#[inline(never)]
fn push_long_copy<V: Part>(
    copies: &mut Vec<Slot<V>>,
    key: &Key,
    value: &V,
    alloc: Global,
    seed: &RandomState,
) -> Result<(), OutOfMemory>
    requires { vec_len copies.old < vec_capacity copies.old }
    ensures added { OnOk result (slot_pairs copies.new.items
        ≡ slot_pairs copies.old.items ++ (key.now, value.now) ∷ []) }
    ensures seeds { HaveSeed seed.now copies.old.items → HaveSeed seed.now copies.new.items }
    ensures room { vec_capacity copies.new ≡ vec_capacity copies.old }
{
    let key = key.copy(alloc)?;
    let value = value.copy(alloc, seed)?;
    copies.push_reserved(Slot {
        key,
        value,
        seed: *seed,
    });
    Ok(())
}

/// Copies of the entries of a map, in a map that is made with capacity for them. It is no larger
/// than a map that grew to as many entries.
#[inline(never)]
fn copy_many<V: Part>(
    map: &Many<V>,
    alloc: Global,
    seed: &RandomState,
) -> Result<Box<Many<V>>, OutOfMemory>
    // No key occurs twice.
    requires distinct { HasDistinctKeys map.now.entries }
    ensures copied { IfOk result (λ copies. copies.value.entries ≡ map.now.entries) }
    ensures given { IfOk result (λ copies. hasher_of copies.value ≡ seed.now) }
{
    let empty = IndexMap::with_capacity_and_hasher(alloc, map.len(), *seed)?;
    let Ok(mut copies) = Box::new(alloc, empty) else {
        return Err(OutOfMemory);
    };
    for (key, value) in map.iter() {
        let value = value.copy(alloc, seed)?;
        insert(&mut copies, key.copy(alloc)?, value);
    }
    Ok(copies)
}

/// The index of the key with these bytes among a few.
fn place_of<V>(slots: &[Slot<V>], key: &[u8]) -> Option<usize>
    // It is the first index whose key has these bytes.
    ensures { result ≡ position (λ slot. bytes_eq key.now slot.key) slots.now }
{
    slots.iter().position(|slot| key == slot.key.as_bytes())
}

/// Puts the entries into an empty map that has capacity for them.
fn fill<V: Drop>(map: &mut Many<V>, slots: Vec<Slot<V>>)
    // No key occurs twice.
    requires distinct { HasDistinctKeys (slot_pairs slots.items) }
    requires empty { map.old.entries ≡ [] }
    // The map can take this many entries without an allocation.
    requires room { vec_len slots ≤ spare map.old }
    ensures { map.new.entries ≡ slot_pairs slots.items }
{
    for slot in slots {
        let Slot { key, value, .. } = slot;
        insert(map, key, value);
    }
}

/// Puts an entry into a map that has capacity for it.
#[inline(always)]
fn insert<V: Drop>(map: &mut Many<V>, key: Key, value: V)
    requires room { 0 < spare map.old }
    ensures entries { map.new.entries ≡ insert_entry bytes_eq map.old.entries key value }
    ensures room { spare map.old ≤ spare map.new + 1 }
    ensures seed { hasher_of map.new ≡ hasher_of map.old }
{
    let Ok(_) = map.insert(key, value) else {
        unreachable!()
    };
}

/// Moves the entries from the vector to a map. If an allocation fails, they stay in the vector.
fn grown<V: Drop>(slots: &mut Vec<Slot<V>>) -> Result<Box<Many<V>>, OutOfMemory>
    requires some { 0 < vec_len slots.old }
    // No key occurs twice.
    requires distinct { HasDistinctKeys (slot_pairs slots.old.items) }
    ensures all { IfOk result (λ map. map.value.entries ≡ slot_pairs slots.old.items) }
    ensures same { OnErr result (slots.new.items ≡ slots.old.items) }
{
    let seed = slots[0].seed;
    let alloc = *slots.allocator();
    let map = IndexMap::with_capacity_and_hasher(alloc, slots.len() + 1, seed)?;
    let Ok(mut map) = Box::new(alloc, map) else {
        return Err(OutOfMemory);
    };
    let few = mem::replace(slots, Vec::new(alloc));
    fill(&mut map, few);
    Ok(map)
}

/// Adds a new entry to a few.
fn push<V>(slots: &mut Vec<Slot<V>>, slot: Slot<V>) -> Result<(), (Key, V)>
    ensures added { IfOk result (λ _. slots.new.items ≡ slots.old.items ++ slot ∷ []) }
    ensures same { OnErr result (slots.new.items ≡ slots.old.items) }
    ensures back { IfErr result (λ pair. pair ≡ (slot.key, slot.value)) }
{
    match slots.push(slot) {
        Ok(()) => return Ok(()),
        Err(refused) => {
            let Slot { key, value, .. } = refused.value;
            return Err((key, value));
        }
    }
}

/// Overwrites the value of an entry, and drops the old one.
#[inline(never)]
fn overwrite<V: Drop>(slot: &mut Slot<V>, value: V)
    ensures key { slot.new.key ≡ slot.old.key }
    ensures value { slot.new.value ≡ value }
{
    slot.value = value;
}

/// Adds a new entry to a few, or drops it if an allocation fails.
#[inline(always)]
fn add<V: Drop>(slots: &mut Vec<Slot<V>>, slot: Slot<V>) -> Result<(), OutOfMemory>
    ensures added { OnOk result (slots.new.items ≡ slots.old.items ++ slot ∷ []) }
    ensures same { OnErr result (slots.new.items ≡ slots.old.items) }
{
    slots.reserve(1)?;
    slots.push_reserved(slot);
    Ok(())
}
