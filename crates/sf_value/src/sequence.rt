//! Values in order.
ghost use Rattle.std.specs.Prelude.{◌≡◌, List, [], ◌∷◌, ◌++◌, ◌↔◌, IsTrue, length, slice_get};
ghost use Rattle.std.specs.Prelude.{◌+◌, ◌<◌, ◌≤◌, take, drop, Some};
ghost use Rattle.std.specs.Prelude.{IfOk, IfErr, OnOk, OnErr, IsOk, MatchOption, vec_capacity};
ghost use Rattle.std.specs.Slice.Iter.{iter_rest};
ghost use Rattle.std.specs.Vec.Iter.{into_iter_items, into_iter_steps};
ghost use Rattle.std.specs.Iterator.Runs.{EveryRun, ItemsAre};
ghost use Rattle.std.specs.declared.alloc.Global.{Global};
ghost use Rattle.std.specs.Iterator.Adapters.{IterYieldsInOrder};
ghost use Rattle.std.specs.Borrow.{sem};
ghost use Rattle.sf_value.specs.Lending.{LendsItems};
ghost use Rattle.sf_value.specs.Capacities.{HasGrown};
ghost use Rattle.std.specs.Cmp.Lexicographic.{pointwise_decides};

use crate::capacity::capacity_for;
use crate::fault::OutOfMemory;
use crate::part::Part;
use std::alloc::{AllocFailed, Global};
use std::hash::RandomState;
use std::marker::Model;
use std::ops::DerefSlice;
use std::{slice, vec};

/// Values in order, as the members of a List or the Items of an Inner List (RFC 9651 sections 3.1
/// and 3.1.1). It converts from and to a `Vec` without an allocation, and can be read as a slice.
/// Contracts see the list of the values.
///
/// ```
/// let mut members = Sequence::new(alloc);
/// members.push(Member::Item(item))?;
/// let list = List { members };
/// ```
#[derive(Debug, Drop)]
pub struct Sequence<T> {
    items: Vec<T>,
}

impl<T> Model for Sequence<T> {
    ghost use Rattle.std.specs.Prelude.{List};

    ghost Value = { List T };

    ghost view = { λ s. s.items.items };
}

impl<T> Sequence<T> {
    /// No values. It does not allocate.
    pub fn new(alloc: Global) -> Sequence<T>
        ensures { result ≡ [] }
    {
        Sequence {
            items: Vec::new(alloc),
        }
    }

    /// The values of a `Vec`. It does not allocate.
    pub fn from_vec(items: Vec<T>) -> Sequence<T>
        ensures { result ≡ items.items }
    {
        Sequence { items }
    }

    /// The values, as a `Vec`. It does not allocate.
    pub fn into_vec(self) -> Vec<T>
        ensures { result.items ≡ self }
    {
        let Sequence { items } = self;
        items
    }

    /// The values, as a slice. It does not allocate.
    pub fn as_slice(&self) -> &[T]
        ensures { result.now ≡ self.now }
    {
        self.items.as_slice()
    }

    /// The number of values. It does not allocate.
    pub fn len(&self) -> usize
        ensures { result ≡ length self.now }
    {
        self.items.len()
    }

    /// Whether there are no values. It does not allocate.
    pub fn is_empty(&self) -> bool
        ensures { IsTrue result ↔ (self.now ≡ []) }
    {
        self.items.is_empty()
    }

    /// The values in order. It does not allocate.
    pub fn iter(&self) -> slice::Iter<'_, T>
        ensures rest { iter_rest result ≡ self.now }
        // A loop takes them in order from the start, and a complete loop takes them all.
        ensures runs { IterYieldsInOrder T }
    {
        self.items.iter()
    }

    /// Adds a value at the end. If an allocation fails, the values are unchanged, and the error has
    /// the value that was passed in; `?` converts it to an [`OutOfMemory`].
    ///
    /// ```
    /// members.push(Member::Item(item))?;
    /// ```
    pub fn push(&mut self, item: T) -> Result<(), AllocFailed<T>>
        ensures added { IfOk result (λ _. self.new ≡ self.old ++ item ∷ []) }
        ensures same { OnErr result (self.new ≡ self.old) }
        ensures back { IfErr result (λ refused. refused.value ≡ item) }
    {
        self.items.push(item)
    }

    /// Removes the last value and returns it; `None` if there is none. It does not allocate.
    ///
    /// ```
    /// members.pop() // Some(member)
    /// ```
    pub fn pop(&mut self) -> Option<T>
        // None if there was none; otherwise the last one, and the others are unchanged.
        ensures { MatchOption result ((self.old ≡ []) × (self.new ≡ []))
            (λ last. self.old ≡ self.new ++ last ∷ []) }
    {
        self.items.pop()
    }

    /// Inserts a value at an index, which is at most the length; the values from there on move up.
    /// If an allocation fails, as `push`.
    ///
    /// ```
    /// members.insert(0, member)?; // the first one now
    /// ```
    pub fn insert(&mut self, index: usize, item: T) -> Result<(), AllocFailed<T>>
        requires { index ≤ length self.old }
        ensures inserted { IfOk result (λ _. self.new
            ≡ take index self.old ++ item ∷ drop index self.old) }
        ensures same { OnErr result (self.new ≡ self.old) }
        ensures back { IfErr result (λ refused. refused.value ≡ item) }
    {
        self.items.insert(index, item)
    }

    /// Removes the value at an index, which is less than the length, and returns it; the values
    /// after it move down. It does not allocate.
    ///
    /// ```
    /// let first = members.remove(0);
    /// ```
    pub fn remove(&mut self, index: usize) -> T
        requires { index < length self.old }
        ensures value { slice_get self.old index ≡ Some result }
        ensures rest { self.new ≡ take index self.old ++ drop (index + 1) self.old }
    {
        self.items.remove(index)
    }

    /// The values, as a mutable slice. It does not allocate.
    ///
    /// ```
    /// for member in members.as_mut_slice() {
    ///     ..
    /// }
    /// ```
    pub fn as_mut_slice(&mut self) -> &mut [T]
        // The final values of the slice are the values, as many as before.
        ensures* writes_back { sem 𝓛 (LendsItems T.row self.entry result) }
        ensures value { result.now ≡ self.old }
    {
        self.items.as_mut_slice()
    }
}

impl<T: Drop> Sequence<T> {
    /// Adds a value at the end, as [`Sequence::push`] does, but drops it if an allocation fails. It
    /// takes less time, since no result has the value.
    ///
    /// ```
    /// items.push_or_drop(item)?;
    /// ```
    #[inline(always)]
    pub fn push_or_drop(&mut self, item: T) -> Result<(), OutOfMemory>
        ensures added { OnOk result (self.new ≡ self.old ++ item ∷ []) }
        ensures same { OnErr result (self.new ≡ self.old) }
    {
        self.items.reserve(1)?;
        self.items.push_reserved(item);
        Ok(())
    }
}

impl<'a, T> IntoIterator for &'a Sequence<T> {
    type Item = &'a T;

    type IntoIter = slice::Iter<'a, T>;

    ghost into_iter_gives = { λ s r. (iter_rest r ≡ s.now) × IterYieldsInOrder T };

    fn into_iter(self) -> slice::Iter<'a, T> {
        self.iter()
    }
}

impl<T: Drop> IntoIterator for Sequence<T> {
    type Item = T;

    type IntoIter = vec::IntoIter<T>;

    ghost into_iter_gives = { λ s r.
        (into_iter_items r ≡ s)
        × EveryRun (into_iter_steps {X = T} {Z = Global})
        (λ p. ItemsAre p (into_iter_items p.from)) };

    fn into_iter(self) -> vec::IntoIter<T> {
        self.into_vec().into_iter()
    }
}

impl<T> From<Vec<T>> for Sequence<T> {
    ghost from_gives = { λ v s. s ≡ v.items };

    fn from(items: Vec<T>) -> Sequence<T> {
        Sequence { items }
    }
}

impl<T> From<Sequence<T>> for Vec<T> {
    ghost from_gives = { λ s v. v.items ≡ s };

    fn from(items: Sequence<T>) -> Vec<T> {
        items.into_vec()
    }
}

impl<T> DerefSlice for Sequence<T> {
    type Elem = T;

    ghost deref_gives = { λ s xs. xs ≡ s };

    fn deref(&self) -> &[T]
        ensures { result.now ≡ self.now }
    {
        self.as_slice()
    }
}

impl<T: Part> Part for Sequence<T> {
    ghost in_place = { λ s. s ≡ [] };

    ghost decides = { pointwise_decides T.decides };

    fn same(&self, other: &Sequence<T>) -> bool {
        let xs = self.as_slice();
        let ys = other.as_slice();
        if xs.len() != ys.len() {
            return false;
        }
        for i in 0..xs.len() {
            if !xs[i].same(&ys[i]) {
                return false;
            }
        }
        true
    }

    fn copy(&self, alloc: Global, seed: &RandomState) -> Result<Sequence<T>, OutOfMemory> {
        Ok(Sequence {
            items: copies(self.as_slice(), alloc, seed)?,
        })
    }
}

/// Copies of these values.
#[inline(always)]
fn copies<T: Part>(sources: &[T], alloc: Global, seed: &RandomState) -> Result<Vec<T>, OutOfMemory>
    ensures copied { IfOk result (λ copies. copies.items ≡ sources.now) }
    ensures room { IfOk result (λ copies. HasGrown (length sources.now) (vec_capacity copies)) }
    // Without values it is never out of memory.
    ensures none { sources.now ≡ [] → IsOk result }
{
    let mut items = Vec::with_capacity(alloc, capacity_for(sources.len()))?;
    for item in sources {
        items.push_reserved(item.copy(alloc, seed)?);
    }
    Ok(items)
}
