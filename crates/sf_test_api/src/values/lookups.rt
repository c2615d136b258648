//! Values that are looked up, by the calls for it and by a user's own matches.
use crate::building;
use crate::building::{bare, integer, key, seed, token, with};
use sf_value::{
    Bare, Dict, Entries, Field, Inner, Int, Item, Key, List, OutOfRange, Thousandths, Token,
};
use std::hash::RandomState;
use std::process::Abort;

/// Which of the eight look-ups of a bare item find something.
fn found(bare: &Bare) -> [bool; 8] {
    [
        bare.as_integer().is_some(),
        bare.as_decimal().is_some(),
        bare.as_text().is_some(),
        bare.as_token().is_some(),
        bare.as_blob().is_some(),
        bare.as_boolean().is_some(),
        bare.as_date().is_some(),
        bare.as_shown().is_some(),
    ]
}

/// Which of the four that take the value out.
fn taken(rt: &(impl Abort + AllocGlobal), index: usize) -> [bool; 4] {
    [
        bare(rt, index).into_text().is_some(),
        bare(rt, index).into_token().is_some(),
        bare(rt, index).into_blob().is_some(),
        bare(rt, index).into_shown().is_some(),
    ]
}

#[test]
fn bare_items_by_type(rt: HostRuntime) {
    for index in 0..8usize {
        let mut wanted = [false; 8];
        wanted[index] = true;
        let wanted_out = [index == 2, index == 3, index == 4, index == 7];
        let found = (found(&bare(&rt, index)), taken(&rt, index));
        assert_eq!(rt; found, (wanted, wanted_out));
    }
}

/// The Item `a;q=1`.
fn item(rt: &(impl Abort + AllocGlobal), seed: &RandomState) -> Item {
    building::item(rt, seed, token(rt, b"a"), b"q", integer(rt, 1))
}

/// The Inner List `(a;q=1);r`.
fn inner(rt: &(impl Abort + AllocGlobal), seed: &RandomState) -> Inner {
    let inner = Inner::new(rt.alloc(), seed).with_item(item(rt, seed));
    let inner = inner.expect(rt, "room");
    inner
        .with_param(key(rt, b"r"), true.into())
        .expect(rt, "room")
}

/// The Dictionary `b=a;q=1, c=(a;q=1);r`.
fn dict(rt: &(impl Abort + AllocGlobal), seed: &RandomState) -> Dict {
    let dict = Dict::new(rt.alloc(), seed);
    let dict = with(rt, dict, b"b", item(rt, seed).into());
    with(rt, dict, b"c", inner(rt, seed).into())
}

/// The value of `b`: the number of `q`, and whether there is an `r` or an Inner List.
fn under_b(dict: &Dict) -> Option<(i64, bool, bool)> {
    let member = dict.get(b"b")?;
    let item = member.as_item()?;
    let number = item.param(b"q")?.as_integer()?.get();
    Some((
        number,
        item.param(b"r").is_some(),
        member.as_inner().is_some(),
    ))
}

/// The value of `c`: the number of Items, the flag `r`, and whether there is an Item.
fn under_c(dict: &Dict) -> Option<(usize, bool, bool)> {
    let member = dict.get(b"c")?;
    let inner = member.as_inner()?;
    let flag = inner.param(b"r")?.as_boolean()?;
    Some((inner.items.len(), flag, member.as_item().is_some()))
}

#[test]
fn parts_by_key(rt: HostRuntime) {
    let dict = dict(&rt, &seed(&rt));
    assert!(rt; dict.members.len() == 2 && dict.get(b"d").is_none());
    assert!(rt; under_b(&dict) == Some((1, false, false)));
    assert!(rt; under_c(&dict) == Some((1, true, false)));
}

fn cases(field: &Field) -> [bool; 3] {
    [
        field.as_item().is_some(),
        field.as_list().is_some(),
        field.as_dict().is_some(),
    ]
}

#[test]
fn an_item_by_kind(rt: HostRuntime) {
    let field = Field::from(item(&rt, &seed(&rt)));
    assert!(rt; cases(&field) == [true, false, false]);
    assert!(rt; field.into_item().is_some());
}

#[test]
fn a_list_by_kind(rt: HostRuntime) {
    let list = List::new(rt.alloc()).with(item(&rt, &seed(&rt)).into());
    let field = Field::from(list.expect(&rt, "room"));
    assert!(rt; cases(&field) == [false, true, false]);
    assert!(rt; field.into_dict().is_none());
}

#[test]
fn a_dictionary_by_kind(rt: HostRuntime) {
    let field = Field::from(dict(&rt, &seed(&rt)));
    assert!(rt; cases(&field) == [false, false, true]);
    assert!(rt; field.into_list().is_none());
}

#[test]
fn bare_items_with_equals(rt: HostRuntime) {
    for i in 0..8usize {
        for j in 0..8usize {
            let is_equal = bare(&rt, i) == bare(&rt, j);
            assert!(rt; is_equal == (i == j), "{i} and {j}");
        }
    }
}

#[test]
fn values_with_equals(rt: HostRuntime) {
    let seed = seed(&rt);
    assert!(rt; item(&rt, &seed) == item(&rt, &seed));
    assert!(rt; inner(&rt, &seed) == inner(&rt, &seed));
    assert!(rt; Field::from(dict(&rt, &seed)) == dict(&rt, &seed).into());
    assert!(rt; Field::from(dict(&rt, &seed)) != item(&rt, &seed).into());
}

fn int_from(number: i64) -> Result<i64, OutOfRange> {
    Ok(Int::try_from(number)?.get())
}

fn thousandths_from(number: i64) -> Result<i64, OutOfRange> {
    Ok(Thousandths::try_from(number)?.get())
}

#[test]
fn numbers_of_numbers(rt: HostRuntime) {
    let tried = [
        int_from(999_999_999_999_999),
        int_from(1_000_000_000_000_000),
        thousandths_from(-1500),
    ];
    assert_eq!(rt;
        tried,
        [Ok(999_999_999_999_999), Err(OutOfRange), Ok(-1500)]
    );
    let numbers = [i64::from(Int::from(-7)), i64::from(Thousandths::from(1500))];
    assert!(rt; numbers == [-7, 1500]);
}

// A user's own matches. An Integer or a Date is `Copy`, so the toolchain wants what holds it
// matched in two steps, or by reference: not as `Ok(Some(Bare::Integer(old)))` at once. Nor does it
// take one pattern that moves fields out of several parts, as
// `Field::Item(Item { bare: Bare::Token(t), .. })`.

fn replaced(params: &mut Entries<Bare>, key: Key, value: Bare) -> Option<i64> {
    let Ok(Some(old)) = params.put(key, value) else {
        return None;
    };
    match old {
        Bare::Integer(old) => Some(old.get()),
        _ => None,
    }
}

fn replaced_by_reference(params: &mut Entries<Bare>, key: Key, value: Bare) -> Option<i64> {
    match &params.put(key, value) {
        Ok(Some(Bare::Integer(old))) => Some(old.get()),
        _ => None,
    }
}

fn replaced_token(params: &mut Entries<Bare>, key: Key, value: Bare) -> Option<Token> {
    match params.put(key, value) {
        Ok(Some(Bare::Token(old))) => Some(old),
        _ => None,
    }
}

fn looked_up(params: &Entries<Bare>, key: &[u8]) -> Option<i64> {
    match params.get(key) {
        Some(Bare::Integer(found)) => Some(found.get()),
        _ => None,
    }
}

fn token_of(field: Field) -> Option<Token> {
    let Field::Item(item) = field else {
        return None;
    };
    let Item { bare, params: _ } = item;
    match bare {
        Bare::Token(token) => Some(token),
        _ => None,
    }
}

fn is_token(found: Option<Token>, bytes: &[u8]) -> bool {
    match found {
        Some(token) => token.as_bytes() == bytes,
        None => false,
    }
}

#[test]
fn matches_of_ones_own(rt: HostRuntime) {
    let mut params = item(&rt, &seed(&rt)).params;
    assert!(rt; looked_up(&params, b"q") == Some(1));
    let old = replaced(&mut params, key(&rt, b"q"), integer(&rt, 2));
    assert!(rt; old == Some(1));
    let old = replaced_by_reference(&mut params, key(&rt, b"q"), token(&rt, b"t"));
    assert!(rt; old == Some(2));
    let old = replaced_token(&mut params, key(&rt, b"q"), true.into());
    assert!(rt; is_token(old, b"t"));
}

#[test]
fn a_match_that_moves(rt: HostRuntime) {
    let token = token_of(item(&rt, &seed(&rt)).into());
    assert!(rt; is_token(token, b"a"));
}
