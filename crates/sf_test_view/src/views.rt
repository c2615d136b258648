//! Texts with the nodes that they have, and texts that have none.
use sf_value::{Dialect, Kind};
use sf_view::{BareView, Node, NodeType, Role, Unviewed, View};
use std::process::Abort;
use std::test::Fail;

// A node with its bytes: role, type, nodes of the part, key, number, bytes, and whether they are
// coded.
type Part = (Role, NodeType, u32, &'static [u8], i64, &'static [u8], bool);

static DICTIONARY: [Part; 11] = [
    (Role::Member, NodeType::Integer, 1, b"u", -1, b"", false),
    (Role::Member, NodeType::Boolean, 2, b"i", 1, b"", false),
    (
        Role::Parameter,
        NodeType::Decimal,
        1,
        b"q",
        1500,
        b"",
        false,
    ),
    (Role::Member, NodeType::InnerList, 6, b"l", 0, b"", false),
    (Role::InnerItem, NodeType::Token, 2, b"", 0, b"a/b", false),
    (Role::Parameter, NodeType::Text, 1, b"x", 0, b"y z", false),
    (
        Role::InnerItem,
        NodeType::Text,
        1,
        b"",
        0,
        b"\"\\\"\"",
        true,
    ),
    (
        Role::InnerParameter,
        NodeType::Boolean,
        1,
        b"y",
        0,
        b"",
        false,
    ),
    (Role::InnerParameter, NodeType::Date, 1, b"z", 7, b"", false),
    (Role::Member, NodeType::Blob, 1, b"b", 0, b":YQ==:", true),
    (
        Role::Member,
        NodeType::Shown,
        1,
        b"s",
        0,
        b"%\"%c3%bc\"",
        true,
    ),
];

pub(crate) const DICTIONARY_TEXT: &[u8] =
    b" u=-1 ,\ti; q=1.5, l=( a/b;x=\"y z\"  \"\\\"\");y=?0;z=@7, b=:YQ==:,s=%\"%c3%bc\" ";

/// The bytes of the text from a place on; none if it has no such bytes.
fn bytes_at(text: &[u8], at: u32, length: u32) -> &[u8] {
    let (at, length) = (at as usize, length as usize);
    if at > text.len() || length > text.len() - at {
        return &[];
    }
    let (_, from) = text.split_at(at);
    let (bytes, _) = from.split_at(length);
    bytes
}

fn check_node(rt: &impl Abort, text: &[u8], node: Node, part: Part) {
    let (role, node_type, size, key, number, bytes, coded) = part;
    assert_eq!(rt; node.role, role.code());
    assert_eq!(rt; node.node_type, node_type.code());
    assert_eq!(rt; node.size, size);
    assert_eq!(rt; bytes_at(text, node.key_at, node.key_length), key);
    assert_eq!(rt; node.number, number);
    assert_eq!(rt; bytes_at(text, node.text_at, node.text_length), bytes);
    assert_eq!(rt; node.coded, u8::from(coded));
}

#[test]
fn each_part_has_its_node(rt: HostRuntime) -> Result<(), Fail> {
    let mut buffer = [Node::NONE; 16];
    let view = View::scan(Dialect::Rfc9651, Kind::Dict, DICTIONARY_TEXT, &mut buffer);
    match view {
        Ok(view) => {
            assert_eq!(&rt; view.nodes.len(), DICTIONARY.len());
            for (node, part) in view.nodes.iter().zip(DICTIONARY.iter()) {
                check_node(&rt, view.text, *node, *part);
            }
        }
        Err(_) => assert!(&rt; false),
    }
    Ok(())
}

fn has_view(dialect: Dialect, kind: Kind, text: &[u8]) -> bool {
    let mut buffer = [Node::NONE; 64];
    View::scan(dialect, kind, text, &mut buffer).is_ok()
}

pub(crate) static ACCEPTED: [(Kind, &[u8]); 34] = [
    (Kind::Item, b" -0 "),
    (Kind::Item, b"-0.5"),
    (Kind::Item, b"007"),
    (Kind::Item, b"a/b:c"),
    (Kind::Item, b"01.500;q=?0;r=1"),
    (Kind::Item, b"999999999999999"),
    (Kind::Item, b"-999999999999.999"),
    (Kind::Item, b":YQ:"),
    (Kind::Item, b":YQ=:"),
    (Kind::Item, b":YQ==:"),
    (Kind::Item, b"::"),
    (Kind::Item, b":iZ:"),
    (Kind::Item, b":YWE:"),
    (Kind::Item, b"\"a\\\"b\\\\\""),
    (Kind::Item, b"?0;a"),
    (Kind::Item, b"*a"),
    (Kind::Item, b"a;*k=?1"),
    (Kind::Item, b"\"\""),
    (Kind::List, b"a \t"),
    (Kind::List, b""),
    (Kind::List, b"   "),
    (Kind::List, b"1,2"),
    (Kind::List, b"()"),
    (Kind::List, b"( )"),
    (Kind::List, b"(a;b c)"),
    (Kind::List, b"(a; b)"),
    (Kind::List, b"a\t ,\t b"),
    (Kind::List, b"( 1  2 );a, 3"),
    (Kind::List, b"\"a, b\""),
    (Kind::Dict, b""),
    (Kind::Dict, b"a=?1;b=?1"),
    (Kind::Dict, b"a=(1 2), b=3, c=4;aa=bb, d=(5 6);valid"),
    (Kind::Dict, b"en=\"Applepie\", da=:w4ZibGV0w6ZydGU=:"),
    (
        Kind::Dict,
        b"a,b,c,d,e,f,g,h,i,j,k,l,m,n,o,p,q,r,s,t,u,v,w,x,y,z,aa,bb",
    ),
];

pub(crate) static REFUSED: [(Kind, &[u8]); 28] = [
    (Kind::Item, b""),
    (Kind::Item, b"1 2"),
    (Kind::Item, b"-"),
    (Kind::Item, b"1."),
    (Kind::Item, b"1.2345"),
    (Kind::Item, b"1234567890123456"),
    (Kind::Item, b"1234567890123.0"),
    (Kind::Item, b"\"a"),
    (Kind::Item, b"\"\\a\""),
    (Kind::Item, b"\"\x7f\""),
    (Kind::Item, b"?2"),
    (Kind::Item, b":a:"),
    (Kind::Item, b":YQ===:"),
    (Kind::Item, b":Y=Q:"),
    (Kind::Item, b"%\"%c3\""),
    (Kind::Item, b"%\"%C3%BC\""),
    (Kind::Item, b"@1.0"),
    (Kind::Item, b"a;"),
    (Kind::Item, b"a;A=1"),
    (Kind::Item, b"a\t"),
    (Kind::List, b"a,"),
    (Kind::List, b"a b"),
    (Kind::List, b"(a"),
    (Kind::List, b"(a\tb)"),
    (Kind::List, b"((a))"),
    (Kind::Dict, b"a,"),
    (Kind::Dict, b"A=1"),
    (Kind::Dict, b"a=,b"),
];

#[test]
fn accepted_texts_have_views(rt: HostRuntime) -> Result<(), Fail> {
    for (kind, text) in &ACCEPTED {
        assert!(&rt; has_view(Dialect::Rfc9651, *kind, text));
        assert!(&rt; has_view(Dialect::Rfc8941, *kind, text));
    }
    Ok(())
}

#[test]
fn refused_texts_have_none(rt: HostRuntime) -> Result<(), Fail> {
    for (kind, text) in &REFUSED {
        assert!(&rt; !has_view(Dialect::Rfc9651, *kind, text));
    }
    assert!(&rt; has_view(Dialect::Rfc9651, Kind::Item, b"@1"));
    assert!(&rt; !has_view(Dialect::Rfc8941, Kind::Item, b"@1"));
    assert!(&rt; !has_view(Dialect::Rfc8941, Kind::Item, b"%\"a\""));
    Ok(())
}

#[test]
fn a_short_buffer_is_reported(rt: HostRuntime) -> Result<(), Fail> {
    let mut buffer = [Node::NONE; 2];
    let short = View::scan(Dialect::Rfc9651, Kind::List, b"a, b, c", &mut buffer);
    assert!(&rt; short.err() == Some(Unviewed::ShortBuffer));
    let mut long = [Node::NONE; 8];
    let refused = View::scan(Dialect::Rfc9651, Kind::List, b"a b", &mut long);
    assert!(&rt; refused.err() == Some(Unviewed::Declined));
    Ok(())
}

/// The Integer of the member with this key.
fn integer(text: &[u8], key: &[u8]) -> Option<i64> {
    let mut buffer = [Node::NONE; 8];
    let view = View::scan(Dialect::Rfc9651, Kind::Dict, text, &mut buffer).ok()?;
    match view.get(key)?.bare()? {
        BareView::Integer(number) => Some(number),
        _ => None,
    }
}

#[test]
fn members_by_key(rt: HostRuntime) -> Result<(), Fail> {
    assert_eq!(&rt; integer(b"u=1, i;x=3, w=(4 5), z=6", b"u"), Some(1));
    assert_eq!(&rt; integer(b"u=1, i;x=3, w=(4 5), z=6", b"z"), Some(6));
    assert_eq!(&rt; integer(b"u=1, i;x=3, w=(4 5), z=6", b"i"), None);
    assert_eq!(&rt; integer(b"u=1, i;x=3, w=(4 5), z=6", b"w"), None);
    assert_eq!(&rt; integer(b"u=1, i;x=3, w=(4 5), z=6", b"x"), None);
    Ok(())
}

/// The Integers among the parts of a view, in order, as the digits of one number.
fn digits(view: View) -> i64 {
    let mut all = 0i64;
    let mut rest = view;
    for _ in 0..16 {
        let Some((first, others)) = rest.split_first() else {
            return all;
        };
        if let Some(BareView::Integer(number)) = first.bare() {
            all = all.wrapping_mul(10).wrapping_add(number);
        }
        rest = others;
    }
    all
}

#[test]
fn parts_in_order(rt: HostRuntime) -> Result<(), Fail> {
    let mut buffer = [Node::NONE; 16];
    let text = b"a=1;p=2;q=3, b=(4;r=6 5 7);s=8, c=9";
    let Some(view) = View::scan(Dialect::Rfc9651, Kind::Dict, text, &mut buffer).ok() else {
        assert!(&rt; false);
        return Ok(());
    };
    assert_eq!(&rt; digits(view), 19);
    let (Some(item), Some(inner)) = (view.get(b"a"), view.get(b"b")) else {
        assert!(&rt; false);
        return Ok(());
    };
    assert_eq!(&rt; digits(item.params()), 23);
    assert!(&rt; item.items().is_none());
    assert_eq!(&rt; digits(inner.params()), 8);
    assert!(&rt; inner.bare().is_none());
    assert_eq!(&rt; inner.items().map(digits), Some(457));
    assert_eq!(&rt; inner.key(), b"b".as_slice());
    assert_eq!(&rt;
        item.params().get(b"q").map(|param| param.key().len()),
        Some(1)
    );
    Ok(())
}

/// The bytes of an Item that is a String, a Byte Sequence or a Display String, in a buffer of so
/// many bytes; the empty ones of a text without a view, or of another type.
fn decodes(text: &[u8], room: usize, bytes: &[u8]) -> bool {
    let mut buffer = [Node::NONE; 8];
    let Some(view) = View::scan(Dialect::Rfc9651, Kind::Item, text, &mut buffer).ok() else {
        return false;
    };
    let slice = match view.bare() {
        Some(BareView::Text(slice)) => slice,
        Some(BareView::Blob(slice)) => slice,
        Some(BareView::Shown(slice)) => slice,
        _ => return false,
    };
    let mut decoded = [0u8; 32];
    if room > decoded.len() {
        return false;
    }
    match slice.decode(&mut decoded[..room]) {
        Some(found) => return found == bytes,
        None => return false,
    }
}

// The texts of RFC 9651 and of RFC 4648 section 10, with the bytes that they stand for.
pub(crate) static CODED: [(&[u8], &[u8]); 16] = [
    (b"\"hello world\"", b"hello world"),
    (b"\"\"", b""),
    (b"\"\\\"\\\\\"", b"\"\\"),
    (b"\"a\\\\b\\\"c\"", b"a\\b\"c"),
    (
        b":cHJldGVuZCB0aGlzIGlzIGJpbmFyeSBjb250ZW50Lg==:",
        b"pretend this is binary content.",
    ),
    (b"::", b""),
    (b":Zg==:", b"f"),
    (b":Zm8=:", b"fo"),
    (b":Zm9v:", b"foo"),
    (b":Zm9vYg==:", b"foob"),
    (b":Zm9vYmE=:", b"fooba"),
    (b":Zm9vYmFy:", b"foobar"),
    (b":Zm8:", b"fo"),
    (b"%\"\"", b""),
    (
        b"%\"for display to %c3%bcsers.\"",
        b"for display to \xc3\xbcsers.",
    ),
    (b"%\"%25%22\"", b"%\""),
];

#[test]
fn coded_bytes(rt: HostRuntime) -> Result<(), Fail> {
    for (text, bytes) in &CODED {
        assert!(&rt; decodes(text, bytes.len(), bytes));
    }
    assert!(&rt; !decodes(b":Zm9v:", 2, b"foo"));
    assert!(&rt; decodes(b"\"foo\"", 0, b"foo"));
    assert!(&rt; !decodes(b"\"f\\\\o\"", 2, b"f\\o"));
    Ok(())
}
