//! Texts by both ways: the tree of each, and its view, have the same parts.
use sf_parse::parse_text_in;
use sf_value::{Bare, Dialect, Entries, Field, Inner, Item, Kind, Member};
use sf_view::{BareView, Node, Slice, View};
use std::alloc::Global;
use std::hash::RandomState;
use std::process::Abort;
use std::test::Fail;

/// Whether these are the bytes of the slice, one at a time and decoded at once.
fn same_bytes(slice: Slice, bytes: &[u8]) -> bool {
    let mut found = slice.bytes();
    for byte in bytes {
        if found.next() != Some(*byte) {
            return false;
        }
    }
    let mut buffer = [0u8; 64];
    if found.next().is_some() || bytes.len() > buffer.len() {
        return false;
    }
    match slice.decode(&mut buffer) {
        Some(decoded) => return decoded == bytes,
        None => return false,
    }
}

fn same_bare(view: BareView, bare: &Bare) -> bool {
    match bare {
        Bare::Integer(number) => match view {
            BareView::Integer(found) => return found == number.get(),
            _ => return false,
        },
        Bare::Decimal(number) => match view {
            BareView::Decimal(found) => return found == number.get(),
            _ => return false,
        },
        Bare::Text(text) => match view {
            BareView::Text(slice) => return same_bytes(slice, text.as_bytes()),
            _ => return false,
        },
        Bare::Token(token) => match view {
            BareView::Token(found) => return found == token.as_bytes(),
            _ => return false,
        },
        Bare::Blob(blob) => match view {
            BareView::Blob(slice) => return same_bytes(slice, blob.as_bytes()),
            _ => return false,
        },
        Bare::Boolean(value) => match view {
            BareView::Boolean(found) => return found == *value,
            _ => return false,
        },
        Bare::Date(second) => match view {
            BareView::Date(found) => return found == second.get(),
            _ => return false,
        },
        Bare::Shown(text) => match view {
            BareView::Shown(slice) => return same_bytes(slice, text.as_bytes()),
            _ => return false,
        },
    }
}

fn same_first(view: View, bare: &Bare) -> bool {
    match view.bare() {
        Some(found) => return same_bare(found, bare),
        None => return false,
    }
}

fn same_params(view: View, params: &Entries<Bare>) -> bool {
    let mut rest = view;
    for (key, value) in params {
        let Some((param, others)) = rest.split_first() else {
            return false;
        };
        if param.key() != key || !same_first(param, value) || view.get(key).is_none() {
            return false;
        }
        rest = others;
    }
    rest.split_first().is_none()
}

fn same_item(view: View, item: &Item) -> bool {
    view.items().is_none()
        && same_first(view, &item.bare)
        && same_params(view.params(), &item.params)
}

fn same_inner(view: View, inner: &Inner) -> bool {
    let Some(items) = view.items() else {
        return false;
    };
    let mut rest = items;
    for item in &inner.items {
        let Some((found, others)) = rest.split_first() else {
            return false;
        };
        if !same_item(found, item) {
            return false;
        }
        rest = others;
    }
    rest.split_first().is_none()
        && view.bare().is_none()
        && same_params(view.params(), &inner.params)
}

fn same_member(view: View, member: &Member) -> bool {
    match member {
        Member::Item(item) => return same_item(view, item),
        Member::Inner(inner) => return same_inner(view, inner),
    }
}

fn same_members(view: View, members: &[Member]) -> bool {
    let mut rest = view;
    for member in members {
        let Some((found, others)) = rest.split_first() else {
            return false;
        };
        if !same_member(found, member) {
            return false;
        }
        rest = others;
    }
    rest.split_first().is_none()
}

fn same_entries(view: View, members: &Entries<Member>) -> bool {
    let mut rest = view;
    for (key, member) in members {
        let Some((found, others)) = rest.split_first() else {
            return false;
        };
        if found.key() != key || !same_member(found, member) {
            return false;
        }
        rest = others;
    }
    rest.split_first().is_none()
}

pub(crate) fn same_field(view: View, field: &Field) -> bool {
    match field {
        Field::Item(item) => return same_item(view, item),
        Field::List(list) => return same_members(view, list.members.as_slice()),
        Field::Dict(dict) => return same_entries(view, &dict.members),
    }
}

fn check(
    rt: &impl Abort,
    alloc: Global,
    seed: &RandomState,
    kind: Kind,
    text: &[u8],
) -> Result<(), Fail> {
    let mut buffer = [Node::NONE; 64];
    let field = parse_text_in(alloc, seed, Dialect::Rfc9651, kind, text)?;
    match View::scan(Dialect::Rfc9651, kind, text, &mut buffer) {
        Ok(view) => assert!(rt; same_field(view, &field)),
        Err(_) => assert!(rt; false),
    }
    Ok(())
}

// The examples of RFC 9651, and texts with each type, escape and kind of part.
pub(crate) static TEXTS: [(Kind, &[u8]); 40] = [
    (
        Kind::List,
        b"\"foo\", \"bar\", \"It was the best of times.\"",
    ),
    (Kind::List, b"foo, bar"),
    (Kind::List, b"sugar, tea, rum"),
    (
        Kind::List,
        b"(\"foo\" \"bar\"), (\"baz\"), (\"bat\" \"one\"), ()",
    ),
    (
        Kind::List,
        b"(\"foo\"; a=1;b=2);lvl=5, (\"bar\" \"baz\");lvl=1",
    ),
    (
        Kind::List,
        b"abc;a=1;b=2; cde_456, (ghi;jk=4 l);q=\"9\";r=w",
    ),
    (Kind::Item, b"1; a; b=?0"),
    (Kind::Dict, b"en=\"Applepie\", da=:w4ZibGV0w6ZydGU=:"),
    (Kind::Dict, b"a=?0, b, c; foo=bar"),
    (Kind::Dict, b"rating=1.5, feelings=(joy sadness)"),
    (Kind::Dict, b"a=(1 2), b=3, c=4;aa=bb, d=(5 6);valid"),
    (Kind::Item, b"5"),
    (Kind::Item, b"5; foo=bar"),
    (Kind::Item, b"42"),
    (Kind::Item, b"4.5"),
    (Kind::Item, b"\"hello world\""),
    (Kind::Item, b"foo123/456"),
    (
        Kind::Item,
        b":cHJldGVuZCB0aGlzIGlzIGJpbmFyeSBjb250ZW50Lg==:",
    ),
    (Kind::Item, b"?1"),
    (Kind::Item, b"@1659578233"),
    (
        Kind::Item,
        b"%\"This is intended for display to %c3%bcsers.\"",
    ),
    (Kind::Item, b"-0"),
    (Kind::Item, b"-999999999999.999;q=-0.001"),
    (Kind::Item, b"\"a\\\"b\\\\\";a=\"\\\\\""),
    (Kind::Item, b":iZ:"),
    (Kind::Item, b":YWE:"),
    (Kind::Item, b"::;a=::"),
    (Kind::Item, b":+/+/:"),
    (Kind::Item, b":AAECAwQFBgcICQ:"),
    (Kind::Item, b"%\"%f0%9f%92%a9%25%22\""),
    (Kind::Item, b"@-1;d=@0"),
    (Kind::List, b""),
    (Kind::List, b"()"),
    (Kind::List, b"( );a"),
    (Kind::List, b"(a;b c;d=1;e);f;g=h"),
    (Kind::List, b"(\"\\\"\" ::;a);b, 1;c"),
    (Kind::Dict, b""),
    (Kind::Dict, b"u=1, i"),
    (Kind::Dict, b"a;b=1;c, d=();e, f=(g;h);i;j"),
    (
        Kind::Dict,
        b"a,b,c,d,e,f,g,h,i,j,k,l,m,n,o,p,q,r,s,t,u,v,w,x,y,z,aa,bb",
    ),
];

#[test]
fn views_have_the_parts_of_trees(rt: HostRuntime) -> Result<(), Fail> {
    let seed = RandomState::new(&rt)?;
    for (kind, text) in &TEXTS {
        check(&rt, rt.alloc(), &seed, *kind, text)?;
    }
    Ok(())
}
