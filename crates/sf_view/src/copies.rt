//! Copies of parts of views, up to the whole field, as values.
ghost use Rattle.std.specs.Prelude.{◌≡◌, ◌∷◌, ◌^◌, ◌<◌, [], ℕ, List as Seq, nat_abs, Some, None, IfOk};
ghost use Rattle.sf_value.specs.declared.dialect.Dialect.{Dialect as Which};
ghost use Rattle.sf_value.specs.declared.value.Bare.{Bare as Value};
ghost use Rattle.sf_value.specs.declared.value.Bare.TheVariants as value_is;
ghost use Rattle.sf_value.specs.declared.value.Field.{Field as FieldValue};
ghost use Rattle.sf_value.specs.declared.value.Inner.{Inner as InnerValue};
ghost use Rattle.sf_value.specs.declared.value.Item.{Item as ItemValue};
ghost use Rattle.sf_value.specs.declared.value.Member.{Member as MemberValue};
ghost use Rattle.sf_value.specs.Grammar.Classes.{is_visible};
ghost use Rattle.sf_value.specs.Grammar.Tokens.{IsKey, IsToken};
ghost use Rattle.sf_value.specs.Grammar.Utf8.{WellFormed, Start};
ghost use Rattle.sf_value.specs.Grammar.Valid.{Valid, ValidBare, ValidItem, ValidInner, ValidMember};
ghost use Rattle.sf_value.specs.Grammar.Words.{Each, Every};
ghost use Rattle.sf_value.specs.Grammar.Pairs.{Pairs, HasDistinctKeys, settle};
ghost use Rattle.sf_view.specs.declared.node_types.Role.{Role as Place};
ghost use Rattle.sf_view.specs.View.{DescribesItem, DescribesItems, DescribesInner, DescribesParams};
ghost use Rattle.sf_view.specs.View.{DescribesMember, DescribesMembers, DescribesEntries, DescribesField};
ghost use Rattle.sf_view.specs.Decoding.{HasBytes, Remains};
ghost use Rattle.sf_view.specs.Views.{IsBorrowed, IsViewed};
ghost use Rattle.sf_view.specs.Copies.{IsCopy, IsFieldOf, list_of, dict_of};

use crate::bytes::{Coding, fill_part, take_run};
use crate::view::{BareView, Slice, View};
use sf_value::{
    Bare, Blob, Dict, Entries, Field, Inner, Int, Item, Key, Kind, List, Member, OutOfMemory,
    Sequence, ShortBytes, Shown, Text, TextFault, Thousandths, Token,
};
use std::alloc::Global;
use std::hash::RandomState;
use std::str;

impl BareView<'_> {
    /// Copies the bare item to a value; `None` if there is no such bare item, for example for an
    /// Integer of 16 digits, which no scan returns. It allocates.
    ///
    /// ```
    /// view.get(b"u")?.bare()?.to_bare(alloc)
    /// ```
    pub fn to_bare(&self, alloc: Global) -> Result<Option<Bare>, OutOfMemory>
        // Whatever bare item is borrowed, the copy is that one, and there is a copy if it is valid.
        ensures { (d : Which) (x : Value) → IsBorrowed d self.now x
            → IfOk result (IsCopy (ValidBare d x) x) }
    {
        match self {
            BareView::Integer(number) => return Ok(integer(*number)),
            BareView::Decimal(number) => return Ok(decimal(*number)),
            BareView::Text(slice) => return text(alloc, *slice),
            BareView::Token(bytes) => return token(alloc, bytes),
            BareView::Blob(slice) => return blob(alloc, *slice),
            BareView::Boolean(value) => return Ok(Some(Bare::Boolean(*value))),
            BareView::Date(second) => return Ok(date(*second)),
            BareView::Shown(slice) => return shown(alloc, *slice),
        }
    }
}

impl View<'_> {
    /// Copies the Item with its parameters to a value; `None` for an Inner List. It allocates.
    ///
    /// ```
    /// view.get(b"u")?.to_item(alloc, &seed)
    /// ```
    pub fn to_item(&self, alloc: Global, seed: &RandomState) -> Result<Option<Item>, OutOfMemory>
        // Whatever Item the nodes describe, the copy is that one, if no key is repeated in it; and
        // there is a copy if the Item is valid.
        ensures copy { (d : Which) (r : Place) (k : Seq ℕ) (i : ItemValue)
            → DescribesItem d self.now.text.now r k self.now.nodes.now i
            → HasDistinctKeys i.params
            → IfOk result (IsCopy (ValidItem d i) i) }
        // An Inner List has no copy as an Item.
        ensures inner { (d : Which) (k : Seq ℕ) (l : InnerValue)
            → DescribesInner d self.now.text.now k self.now.nodes.now l
            → IfOk result (λ copy. copy ≡ None) }
    {
        let Some(view) = self.bare() else {
            return Ok(None);
        };
        let Some(bare) = view.to_bare(alloc)? else {
            return Ok(None);
        };
        let Some(params) = params(alloc, seed, self.params())? else {
            return Ok(None);
        };
        Ok(Some(Item { bare, params }))
    }

    /// Copies the Inner List with its Items and parameters to a value; `None` for an Item. It
    /// allocates.
    ///
    /// ```
    /// view.get(b"l")?.to_inner(alloc, &seed) // of l=(1 2)
    /// ```
    pub fn to_inner(&self, alloc: Global, seed: &RandomState) -> Result<Option<Inner>, OutOfMemory>
        // Whatever Inner List the nodes describe, the copy is that one, if no key is repeated in
        // it; and there is a copy if the Inner List is valid.
        ensures copy { (d : Which) (k : Seq ℕ) (l : InnerValue)
            → DescribesInner d self.now.text.now k self.now.nodes.now l
            → Each (λ i. HasDistinctKeys i.params) l.items
            → HasDistinctKeys l.params
            → IfOk result (IsCopy (ValidInner d l) l) }
        // An Item has no copy as an Inner List.
        ensures item { (d : Which) (r : Place) (k : Seq ℕ) (i : ItemValue)
            → DescribesItem d self.now.text.now r k self.now.nodes.now i
            → IfOk result (λ copy. copy ≡ None) }
    {
        let Some(inside) = self.items() else {
            return Ok(None);
        };
        let Some(items) = items(alloc, seed, inside)? else {
            return Ok(None);
        };
        let Some(params) = params(alloc, seed, self.params())? else {
            return Ok(None);
        };
        Ok(Some(Inner { items, params }))
    }

    /// Copies the member of a List or of a Dictionary to a value; `None` only if the nodes are not
    /// those of a member. It allocates.
    ///
    /// ```
    /// view.get(b"u")?.to_member(alloc, &seed)
    /// ```
    pub fn to_member(
        &self,
        alloc: Global,
        seed: &RandomState,
    ) -> Result<Option<Member>, OutOfMemory>
        // Whatever valid member the nodes describe, the copy is that one.
        ensures { (d : Which) (k : Seq ℕ) (m : MemberValue)
            → DescribesMember d self.now.text.now k self.now.nodes.now m
            → ValidMember d m
            → IfOk result (λ copy. copy ≡ Some m) }
    {
        match self.items() {
            Some(_) => {
                let Some(inner) = self.to_inner(alloc, seed)? else {
                    return Ok(None);
                };
                return Ok(Some(Member::Inner(inner)));
            }
            None => {
                let Some(item) = self.to_item(alloc, seed)? else {
                    return Ok(None);
                };
                return Ok(Some(Member::Item(item)));
            }
        }
    }

    /// Copies the List to a value; `None` only if the nodes are not those of a List. It allocates.
    pub fn to_list(&self, alloc: Global, seed: &RandomState) -> Result<Option<List>, OutOfMemory>
        // Whatever valid members the nodes describe, the copy is the List of them.
        ensures { (d : Which) (ms : Seq MemberValue)
            → DescribesMembers d self.now.text.now self.now.nodes.now ms
            → Each (ValidMember d) ms
            → IfOk result (λ copy. copy ≡ Some (list_of ms)) }
    {
        let Some(members) = members(alloc, seed, *self)? else {
            return Ok(None);
        };
        Ok(Some(List { members }))
    }

    /// Copies the Dictionary to a value; `None` only if the nodes are not those of a Dictionary. If
    /// a key is repeated, the last member is at the position of the first. It allocates.
    pub fn to_dict(&self, alloc: Global, seed: &RandomState) -> Result<Option<Dict>, OutOfMemory>
        // Whatever valid members the nodes describe, the copy is the Dictionary that they make.
        ensures { (d : Which) (ps : Pairs MemberValue)
            → DescribesEntries d self.now.text.now self.now.nodes.now ps
            → Each (λ p. IsKey p.0 × ValidMember d p.1) ps
            → IfOk result (λ copy. copy ≡ Some (dict_of (settle ps))) }
    {
        let Some(members) = entries(alloc, seed, *self)? else {
            return Ok(None);
        };
        Ok(Some(Dict { members }))
    }

    /// Copies the whole field to a value; `None` only if the view is not of a field of this kind.
    /// It allocates.
    ///
    /// ```
    /// let view = View::scan(Dialect::Rfc9651, Kind::Dict, text, &mut nodes)?;
    /// view.to_field(alloc, &seed, Kind::Dict) // Ok(Some(field)): what parse_text returns
    /// ```
    pub fn to_field(
        &self,
        alloc: Global,
        seed: &RandomState,
        kind: Kind,
    ) -> Result<Option<Field>, OutOfMemory>
        // The copy of a view that a scan returned is the only field that the text spells.
        ensures scanned { (d : Which) (t : Seq ℕ) → IsViewed d kind t self.now
            → IfOk result (IsFieldOf d kind t) }
        // Whatever valid field the nodes describe, the copy is that one.
        ensures copy { (d : Which) (v : FieldValue)
            → DescribesField d self.now.text.now self.now.nodes.now v
            → Valid d kind v
            → IfOk result (λ copy. copy ≡ Some v) }
    {
        match kind {
            Kind::Item => {
                let Some(item) = self.to_item(alloc, seed)? else {
                    return Ok(None);
                };
                return Ok(Some(Field::Item(item)));
            }
            Kind::List => {
                let Some(list) = self.to_list(alloc, seed)? else {
                    return Ok(None);
                };
                return Ok(Some(Field::List(list)));
            }
            Kind::Dict => {
                let Some(dict) = self.to_dict(alloc, seed)? else {
                    return Ok(None);
                };
                return Ok(Some(Field::Dict(dict)));
            }
        }
    }
}

/// The members of a List that nodes describe.
fn members(
    alloc: Global,
    seed: &RandomState,
    view: View,
) -> Result<Option<Sequence<Member>>, OutOfMemory>
    ensures { (d : Which) (ms : Seq MemberValue)
        → DescribesMembers d view.entry.text.now view.entry.nodes.now ms
        → Each (ValidMember d) ms
        → IfOk result (λ all. all ≡ Some ms) }
{
    let mut all = Sequence::new(alloc);
    let mut rest = view;
    loop {
        let Some((part, others)) = rest.split_first() else {
            return Ok(Some(all));
        };
        let Some(member) = part.to_member(alloc, seed)? else {
            return Ok(None);
        };
        let Ok(_) = all.push(member) else {
            return Err(OutOfMemory);
        };
        rest = others;
    }
}

/// The members of a Dictionary that nodes describe. If a key is repeated, the last member is at the
/// position of the first.
fn entries(
    alloc: Global,
    seed: &RandomState,
    view: View,
) -> Result<Option<Entries<Member>>, OutOfMemory>
    ensures { (d : Which) (ps : Pairs MemberValue)
        → DescribesEntries d view.entry.text.now view.entry.nodes.now ps
        → Each (λ p. IsKey p.0 × ValidMember d p.1) ps
        → IfOk result (λ all. all ≡ Some (settle ps)) }
{
    let mut all = Entries::new(alloc, seed);
    let mut rest = view;
    loop {
        let Some((part, others)) = rest.split_first() else {
            return Ok(Some(all));
        };
        let Some((key, member)) = keyed_member(alloc, seed, part)? else {
            return Ok(None);
        };
        all.set(key, member)?;
        rest = others;
    }
}

/// The key and the value of a member of a Dictionary.
fn keyed_member(
    alloc: Global,
    seed: &RandomState,
    part: View,
) -> Result<Option<(Key, Member)>, OutOfMemory>
    ensures { (d : Which) (k : Seq ℕ) (m : MemberValue)
        → DescribesMember d part.entry.text.now k part.entry.nodes.now m
        → IsKey k
        → ValidMember d m
        → IfOk result (λ p. p ≡ Some (k, m)) }
{
    let Some(member) = part.to_member(alloc, seed)? else {
        return Ok(None);
    };
    let Some(key) = key_of(alloc, part.key())? else {
        return Ok(None);
    };
    Ok(Some((key, member)))
}

/// The Items that nodes describe.
fn items(
    alloc: Global,
    seed: &RandomState,
    view: View,
) -> Result<Option<Sequence<Item>>, OutOfMemory>
    ensures { (d : Which) (is : Seq ItemValue)
        → DescribesItems d view.entry.text.now view.entry.nodes.now is
        → Each (λ i. HasDistinctKeys i.params) is
        → IfOk result (IsCopy (Each (ValidItem d) is) is) }
{
    let mut all = Sequence::new(alloc);
    let mut rest = view;
    loop {
        let Some((part, others)) = rest.split_first() else {
            return Ok(Some(all));
        };
        let Some(item) = part.to_item(alloc, seed)? else {
            return Ok(None);
        };
        let Ok(_) = all.push(item) else {
            return Err(OutOfMemory);
        };
        rest = others;
    }
}

/// The parameters that nodes describe. If a key is repeated, the last value is at the position of
/// the first.
fn params(
    alloc: Global,
    seed: &RandomState,
    view: View,
) -> Result<Option<Entries<Bare>>, OutOfMemory>
    ensures { (d : Which) (r : Place) (ps : Pairs Value)
        → DescribesParams d view.entry.text.now r view.entry.nodes.now ps
        → IfOk result (IsCopy (Each (λ p. IsKey p.0 × ValidBare d p.1) ps) (settle ps)) }
{
    let mut all = Entries::new(alloc, seed);
    let mut rest = view;
    loop {
        let Some((param, others)) = rest.split_first() else {
            return Ok(Some(all));
        };
        let Some((key, value)) = pair(alloc, param)? else {
            return Ok(None);
        };
        all.set(key, value)?;
        rest = others;
    }
}

/// The key and the value of a parameter.
fn pair(alloc: Global, param: View) -> Result<Option<(Key, Bare)>, OutOfMemory>
    ensures { (d : Which) (r : Place) (k : Seq ℕ) (x : Value)
        → DescribesParams d param.entry.text.now r param.entry.nodes.now ((k, x) ∷ [])
        → IfOk result (IsCopy (IsKey k × ValidBare d x) (k, x)) }
{
    let Some(view) = param.bare() else {
        return Ok(None);
    };
    let Some(value) = view.to_bare(alloc)? else {
        return Ok(None);
    };
    let Some(key) = key_of(alloc, param.key())? else {
        return Ok(None);
    };
    Ok(Some((key, value)))
}

/// The key of these bytes; `None` if they are not a key.
pub(crate) fn key_of(alloc: Global, bytes: &[u8]) -> Result<Option<Key>, OutOfMemory>
    ensures { IfOk result (IsCopy (IsKey bytes.now) bytes.now) }
{
    match Key::new(alloc, bytes) {
        Ok(key) => return Ok(Some(key)),
        Err(TextFault::OutOfMemory) => return Err(OutOfMemory),
        Err(TextFault::Empty) => return Ok(None),
        Err(TextFault::BadByte { .. }) => return Ok(None),
    }
}

fn integer(number: i64) -> Option<Bare>
    ensures { IsCopy (nat_abs number < 10 ^ 15) (value_is.Integer number) result }
{
    match Int::new(number) {
        Ok(number) => return Some(Bare::Integer(number)),
        Err(_) => return None,
    }
}

fn decimal(number: i64) -> Option<Bare>
    ensures { IsCopy (nat_abs number < 10 ^ 15) (value_is.Decimal number) result }
{
    match Thousandths::new(number) {
        Ok(number) => return Some(Bare::Decimal(number)),
        Err(_) => return None,
    }
}

fn date(second: i64) -> Option<Bare>
    ensures { IsCopy (nat_abs second < 10 ^ 15) (value_is.Date second) result }
{
    match Int::new(second) {
        Ok(second) => return Some(Bare::Date(second)),
        Err(_) => return None,
    }
}

fn token(alloc: Global, bytes: &[u8]) -> Result<Option<Bare>, OutOfMemory>
    ensures { IfOk result (IsCopy (IsToken bytes.now) (value_is.Token bytes.now)) }
{
    match Token::new(alloc, bytes) {
        Ok(token) => return Ok(Some(Bare::Token(token))),
        Err(TextFault::OutOfMemory) => return Err(OutOfMemory),
        Err(TextFault::Empty) => return Ok(None),
        Err(TextFault::BadByte { .. }) => return Ok(None),
    }
}

fn text(alloc: Global, slice: Slice) -> Result<Option<Bare>, OutOfMemory>
    ensures { (d : Which) (t : Seq ℕ) → HasBytes d slice.entry t
        → IfOk result (IsCopy (Every is_visible t) (value_is.Text t)) }
{
    let bytes = decoded(alloc, slice)?;
    match Text::new(alloc, bytes.as_bytes()) {
        Ok(text) => return Ok(Some(Bare::Text(text))),
        Err(TextFault::OutOfMemory) => return Err(OutOfMemory),
        Err(TextFault::Empty) => return Ok(None),
        Err(TextFault::BadByte { .. }) => return Ok(None),
    }
}

fn blob(alloc: Global, slice: Slice) -> Result<Option<Bare>, OutOfMemory>
    ensures { (d : Which) (t : Seq ℕ) → HasBytes d slice.entry t
        → IfOk result (λ b. b ≡ Some (value_is.Blob t)) }
{
    let bytes = decoded(alloc, slice)?;
    Ok(Some(Bare::Blob(Blob::from_bytes(bytes))))
}

fn shown(alloc: Global, slice: Slice) -> Result<Option<Bare>, OutOfMemory>
    ensures { (d : Which) (t : Seq ℕ) → HasBytes d slice.entry t
        → IfOk result (IsCopy (WellFormed Start t) (value_is.Shown t)) }
{
    let bytes = decoded(alloc, slice)?;
    let Ok(text) = str::from_utf8(bytes.as_bytes()) else {
        return Ok(None);
    };
    Ok(Some(Bare::Shown(Shown::new(alloc, text)?)))
}

/// The bytes of a slice.
fn decoded(alloc: Global, slice: Slice) -> Result<ShortBytes, OutOfMemory>
    ensures { (d : Which) (t : Seq ℕ) → HasBytes d slice.entry t → IfOk result (λ bytes. bytes ≡ t) }
{
    if !slice.coded {
        return ShortBytes::from_slice(alloc, slice.bytes);
    }
    let start = slice.bytes();
    collect(alloc, start.coding, start.rest)
}

/// The number of bytes that are decoded one by one before a run of unescaped bytes is looked for
/// again.
const BLOCK: usize = 16;

/// The bytes that a text spells.
fn collect(alloc: Global, start: Coding, text: &[u8]) -> Result<ShortBytes, OutOfMemory>
    ensures { (t : Seq ℕ) → Remains start text.now t → IfOk result (λ bytes. bytes ≡ t) }
{
    let mut all = ShortBytes::new(alloc);
    let mut block = [0u8; BLOCK];
    let mut coding = start;
    let mut rest = text;
    loop {
        let (run, after) = take_run(coding, rest);
        if !run.is_empty() {
            all.extend(run)?;
        }
        let part = fill_part(coding, after, &mut block);
        all.extend(&block[..part.count])?;
        if part.whole {
            return Ok(all);
        }
        coding = part.coding;
        rest = part.rest;
    }
}
