//! Building values: constructors, and calls that add one part, which are chained with `?`.
ghost use Rattle.std.specs.Prelude.{◌≡◌, [], ◌∷◌, ◌++◌, None, IfOk, OnErr};
ghost use Rattle.sf_value.specs.Grammar.Items.{item};
ghost use Rattle.sf_value.specs.Grammar.Pairs.{put, value_at};
ghost use Rattle.sf_value.specs.Grammar.InnerLists.{inner};

use crate::entries::Entries;
use crate::fault::OutOfMemory;
use crate::key::Key;
use crate::sequence::Sequence;
use crate::value::{Bare, Dict, Inner, Item, List, Member};
use std::alloc::Global;
use std::hash::RandomState;

impl Item {
    /// The Item of a bare item, with no parameters. It does not allocate. The seed is that of its
    /// parameters: see [`Entries::new`].
    ///
    /// ```
    /// let item = Item::new(alloc, &seed, Bare::Boolean(true)); // ?1
    /// ```
    pub fn new(alloc: Global, seed: &RandomState, bare: Bare) -> Item
        ensures { result ≡ item bare [] }
    {
        let params = Entries::new(alloc, seed);
        Item { bare, params }
    }

    /// The Item with one more parameter. The value of a key that is present is replaced in place,
    /// which does not allocate. It fails only if the key is new and an allocation fails.
    ///
    /// ```
    /// let item = Item::new(alloc, &seed, Bare::Token(Token::new(alloc, b"a")?))
    ///     .with_param(Key::new(alloc, b"q")?, Bare::Integer(Int::from(1)))?
    ///     .with_param(Key::new(alloc, b"r")?, Bare::Boolean(true))?; // a;q=1;r
    /// ```
    pub fn with_param(self, key: Key, value: Bare) -> Result<Item, OutOfMemory>
        // A key that is present keeps its place and is overwritten; a new one goes last.
        ensures new { IfOk result (λ more. more ≡ item self.bare (put self.params key value)) }
        // It fails only if the key is new.
        ensures absent { OnErr result (value_at key self.params ≡ None) }
    {
        let Item { bare, mut params } = self;
        params.set(key, value)?;
        Ok(Item { bare, params })
    }
}

impl Inner {
    /// The Inner List with no Items and no parameters. It does not allocate. The seed is that of
    /// its parameters: see [`Entries::new`].
    ///
    /// ```
    /// let inner = Inner::new(alloc, &seed); // ()
    /// ```
    pub fn new(alloc: Global, seed: &RandomState) -> Inner
        ensures { result ≡ inner [] [] }
    {
        let params = Entries::new(alloc, seed);
        Inner {
            items: Sequence::new(alloc),
            params,
        }
    }

    /// The Inner List with one more Item at its end. It fails only if an allocation fails.
    ///
    /// ```
    /// let inner = Inner::new(alloc, &seed).with_item(first)?.with_item(second)?;
    /// ```
    pub fn with_item(self, item: Item) -> Result<Inner, OutOfMemory>
        ensures { IfOk result (λ more. more ≡ inner (self.items ++ item ∷ []) self.params) }
    {
        let Inner { mut items, params } = self;
        items.push(item)?;
        Ok(Inner { items, params })
    }

    /// The Inner List with one more parameter of its own. The value of a key that is present is
    /// replaced in place, which does not allocate. It fails only if the key is new and an
    /// allocation fails.
    ///
    /// ```
    /// let inner = Inner::new(alloc, &seed)
    ///     .with_param(Key::new(alloc, b"q")?, Bare::Boolean(true))?; // ();q
    /// ```
    pub fn with_param(self, key: Key, value: Bare) -> Result<Inner, OutOfMemory>
        // A key that is present keeps its place and is overwritten; a new one goes last.
        ensures new { IfOk result (λ more. more ≡ inner self.items (put self.params key value)) }
        // It fails only if the key is new.
        ensures absent { OnErr result (value_at key self.params ≡ None) }
    {
        let Inner { items, mut params } = self;
        params.set(key, value)?;
        Ok(Inner { items, params })
    }
}

impl List {
    /// The List with no members. It does not allocate.
    pub fn new(alloc: Global) -> List
        ensures { result ≡ record { members = [] } }
    {
        List {
            members: Sequence::new(alloc),
        }
    }

    /// The List with one more member at its end. It fails only if an allocation fails.
    ///
    /// ```
    /// let list = List::new(alloc).with(Member::Item(item))?.with(Member::Inner(inner))?;
    /// ```
    pub fn with(self, member: Member) -> Result<List, OutOfMemory>
        ensures { IfOk result (λ more. more ≡ record { members = self.members ++ member ∷ [] }) }
    {
        let List { mut members } = self;
        members.push(member)?;
        Ok(List { members })
    }
}

impl Dict {
    /// The Dictionary with no members. It does not allocate. The seed is that of its members: see
    /// [`Entries::new`].
    pub fn new(alloc: Global, seed: &RandomState) -> Dict
        ensures { result ≡ record { members = [] } }
    {
        Dict {
            members: Entries::new(alloc, seed),
        }
    }

    /// The Dictionary with one more member. The value of a key that is present is replaced in
    /// place, which does not allocate. It fails only if the key is new and an allocation fails.
    ///
    /// ```
    /// let dict = Dict::new(alloc, &seed).with(Key::new(alloc, b"u")?, Member::Item(item))?;
    /// ```
    pub fn with(self, key: Key, member: Member) -> Result<Dict, OutOfMemory>
        // A key that is present keeps its place and is overwritten; a new one goes last.
        ensures new { IfOk result (λ more. more
            ≡ record { members = put self.members key member }) }
        // It fails only if the key is new.
        ensures absent { OnErr result (value_at key self.members ≡ None) }
    {
        let Dict { mut members } = self;
        members.set(key, member)?;
        Ok(Dict { members })
    }
}
