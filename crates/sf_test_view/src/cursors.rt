//! Texts that are read without nodes.
use crate::trees::TEXTS;
use crate::views::{ACCEPTED, CODED, DICTIONARY_TEXT, REFUSED};
use sf_value::{Dialect, Kind};
use sf_view::{BareView, DictCursor, EntryView, accepts};
use std::process::Abort;
use std::test::Fail;

#[test]
fn accepted_texts_are_accepted(rt: HostRuntime) -> Result<(), Fail> {
    for (kind, text) in &ACCEPTED {
        assert!(&rt; accepts(Dialect::Rfc9651, *kind, text));
        assert!(&rt; accepts(Dialect::Rfc8941, *kind, text));
    }
    for (kind, text) in &TEXTS {
        assert!(&rt; accepts(Dialect::Rfc9651, *kind, text));
    }
    for (text, _) in &CODED {
        assert!(&rt; accepts(Dialect::Rfc9651, Kind::Item, text));
    }
    assert!(&rt; accepts(Dialect::Rfc9651, Kind::Dict, DICTIONARY_TEXT));
    Ok(())
}

#[test]
fn refused_texts_are_not_accepted(rt: HostRuntime) -> Result<(), Fail> {
    for (kind, text) in &REFUSED {
        assert!(&rt; !accepts(Dialect::Rfc9651, *kind, text));
    }
    assert!(&rt; accepts(Dialect::Rfc9651, Kind::Item, b"@1"));
    assert!(&rt; !accepts(Dialect::Rfc8941, Kind::Item, b"@1"));
    assert!(&rt; !accepts(Dialect::Rfc8941, Kind::Item, b"%\"a\""));
    Ok(())
}

#[test]
fn repeated_keys_are_accepted(rt: HostRuntime) -> Result<(), Fail> {
    for (kind, text) in &[
        (Kind::Item, b"a;q=1;q=2".as_slice()),
        (Kind::List, b"(a;q;q b);r=1;r=2, c;q;q=?0"),
        (Kind::Dict, b"a=1,a=(2 3);b;b,a"),
    ] {
        assert!(&rt; accepts(Dialect::Rfc9651, *kind, text));
    }
    Ok(())
}

// A member as it is read: its key, its Integer and its Boolean, and whether it is an Inner List.
type Read = (&'static [u8], Option<i64>, Option<bool>, bool);

fn is_read_so(entry: EntryView, read: Read) -> bool {
    let (key, integer, boolean, is_inner) = read;
    entry.key == key
        && entry.as_integer() == integer
        && entry.as_boolean() == boolean
        && entry.bare.is_none() == is_inner
}

/// Whether these are the members that are read from the text, and no other.
fn reads(text: &[u8], members: &[Read]) -> Option<bool> {
    let mut cursor = DictCursor::new(Dialect::Rfc9651, text);
    for member in members {
        let Some(entry) = cursor.next()? else {
            return Some(false);
        };
        if !is_read_so(entry, *member) {
            return Some(false);
        }
    }
    Some(cursor.next()?.is_none())
}

#[test]
fn members_in_order(rt: HostRuntime) -> Result<(), Fail> {
    let members: [Read; 5] = [
        (b"u", Some(-1), None, false),
        (b"i", None, Some(true), false),
        (b"l", None, None, true),
        (b"b", None, None, false),
        (b"s", None, None, false),
    ];
    assert_eq!(&rt; reads(DICTIONARY_TEXT, &members), Some(true));
    let repeated: [Read; 3] = [
        (b"a", Some(1), None, false),
        (b"a", None, None, true),
        (b"a", None, Some(false), false),
    ];
    assert_eq!(&rt; reads(b"a=1;x,\ta=(1) , a=?0", &repeated), Some(true));
    assert_eq!(&rt; reads(b"", &[]), Some(true));
    assert_eq!(&rt; reads(b"  ", &[]), Some(true));
    assert_eq!(&rt; reads(b"\t", &[]), None);
    assert_eq!(&rt; reads(b"a=1,", &[(b"a", Some(1), None, false)]), None);
    assert_eq!(&rt;
        reads(b"a=1, a=1.5", &[(b"a", Some(1), None, false)]),
        Some(false)
    );
    Ok(())
}

/// The bytes of the String of the only member.
fn only_text(text: &[u8]) -> Option<&[u8]> {
    let mut cursor = DictCursor::new(Dialect::Rfc9651, text);
    let entry = cursor.next()??;
    match entry.bare {
        Some(BareView::Text(slice)) => return Some(slice.bytes),
        _ => return None,
    }
}

#[test]
fn bare_items_borrow_the_text(rt: HostRuntime) -> Result<(), Fail> {
    assert_eq!(&rt; only_text(b"a=\"b c\""), Some(b"b c".as_slice()));
    assert_eq!(&rt; only_text(b"a=\"\\\"\""), Some(b"\"\\\"\"".as_slice()));
    assert_eq!(&rt; only_text(b"a=b"), None);
    Ok(())
}
