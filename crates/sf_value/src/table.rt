//! Entries in a hash table, if there are more than a few.
ghost use Rattle.std.specs.Prelude.{◌≡◌, [], ◌∷◌, ◌++◌, None, IfOk, IfErr, OnOk, OnErr};
ghost use Rattle.sf_value.specs.Grammar.Pairs.{settle, value_at};
ghost use Rattle.sf_value.specs.Grammar.Tokens.{IsKey};
ghost use Rattle.sf_value.specs.Entries.{AreEntries};

use crate::bytes::ShortBytes;
use crate::fault::OutOfMemory;
use crate::key::Key;
use crate::key_hash::Name;
use indexmap::IndexMap;
use std::alloc::Global;
use std::hash::RandomState;

/// Values by key in the order of their insertion, found by hashes.
pub(crate) type Many<V> = IndexMap<Key, V, RandomState>;

/// Puts a value at a key, as `Entries::put` does. Only a new key allocates.
pub(crate) fn put<V>(map: &mut Many<V>, key: Key, value: V) -> Result<Option<V>, (Key, V)>
    // Each key is valid, and none occurs twice.
    requires { AreEntries map.old.entries }
    // This still holds.
    ensures entries { AreEntries map.new.entries }
    // A key that is present keeps its place and is overwritten; a new one goes last.
    ensures new { IfOk result (λ _. map.new.entries
        ≡ settle (map.old.entries ++ (key, value) ∷ [])) }
    ensures old { IfOk result (λ old. old ≡ value_at key map.old.entries) }
    ensures same { IfErr result (λ _. map.new.entries ≡ map.old.entries) }
    ensures back { IfErr result (λ pair. pair ≡ (key, value)) }
    // It fails only if the key is new.
    ensures absent { IfErr result (λ _. value_at key map.old.entries ≡ None) }
{
    // The proof has to know that its bytes are those of a key.
    let _ = key.as_bytes();
    match map.insert(key, value) {
        Ok(old) => Ok(old),
        Err(refused) => Err(refused.value),
    }
}

/// Puts a value at a key, as `Entries::set` does, without the result of `put`.
#[inline(never)]
pub(crate) fn set<V: Drop>(map: &mut Many<V>, key: Key, value: V) -> Result<(), OutOfMemory>
    // Each key is valid, and none occurs twice.
    requires { AreEntries map.old.entries }
    // This still holds.
    ensures entries { AreEntries map.new.entries }
    // A key that is present keeps its place and is overwritten; a new one goes last.
    ensures new { OnOk result (map.new.entries ≡ settle (map.old.entries ++ (key, value) ∷ [])) }
    ensures same { OnErr result (map.new.entries ≡ map.old.entries) }
    // It fails only if the key is new.
    ensures absent { OnErr result (value_at key map.old.entries ≡ None) }
{
    // The proof has to know that its bytes are those of a key.
    let _ = key.as_bytes();
    match map.insert(key, value) {
        Ok(_) => Ok(()),
        Err(_) => Err(OutOfMemory),
    }
}

/// Puts a value at the key with these bytes, as `Entries::set_named` does. The key is made before
/// it is looked up, since a separate look-up would hash it once more.
#[inline(never)]
pub(crate) fn set_named<V: Drop>(
    map: &mut Many<V>,
    alloc: Global,
    key: &[u8],
    value: V,
) -> Result<(), OutOfMemory>
    requires key { IsKey key.now }
    // Each key is valid, and none occurs twice.
    requires entries { AreEntries map.old.entries }
    // This still holds.
    ensures entries { AreEntries map.new.entries }
    // A key that is present keeps its place and is overwritten; a new one goes last.
    ensures new { OnOk result (map.new.entries
        ≡ settle (map.old.entries ++ (key.now, value) ∷ [])) }
    ensures same { OnErr result (map.new.entries ≡ map.old.entries) }
    // It fails only if the key is new.
    ensures absent { OnErr result (value_at key.now map.old.entries ≡ None) }
{
    let Ok(bytes) = ShortBytes::from_slice(alloc, key) else {
        return overwrite(map, key, value);
    };
    match map.insert(Key::from_bytes(bytes), value) {
        Ok(_) => Ok(()),
        Err(_) => Err(OutOfMemory),
    }
}

/// As [`set_named`], if there is no memory for the key: it fails if the key is new.
#[inline(never)]
pub(crate) fn overwrite<V: Drop>(map: &mut Many<V>, key: &[u8], value: V) -> Result<(), OutOfMemory>
    requires key { IsKey key.now }
    requires entries { AreEntries map.old.entries }
    ensures entries { AreEntries map.new.entries }
    ensures new { OnOk result (map.new.entries
        ≡ settle (map.old.entries ++ (key.now, value) ∷ [])) }
    ensures same { OnErr result (map.new.entries ≡ map.old.entries) }
    ensures absent { OnErr result (value_at key.now map.old.entries ≡ None) }
{
    let Some(old) = map.get_mut(Name { bytes: key }) else {
        return Err(OutOfMemory);
    };
    *old = value;
    Ok(())
}
