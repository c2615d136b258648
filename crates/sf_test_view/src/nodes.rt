//! Texts as nodes beside their trees, repeated keys included, and fields as nodes.
use crate::trees::{TEXTS, same_field};
use sf_nodes::FieldNodes;
use sf_parse::{Refusal, parse_text_in};
use sf_value::{Dialect, Field, Kind, same};
use sf_view::{BareView, Node, Unviewed, View, view_text};
use sf_write::to_text;
use std::alloc::Global;
use std::hash::RandomState;
use std::process::Abort;
use std::test::Fail;

// Each has a repeated key: in a Dictionary, in the parameters of an Item, of a member, of an Inner
// List, or of an Item in one.
pub(crate) static REPEATED: [(Kind, &[u8]); 14] = [
    (Kind::Dict, b"a=1, b, a=2"),
    (Kind::Dict, b"a, a"),
    (Kind::Dict, b"a=1;x=1, b=2, a=3;y, b"),
    (Kind::Dict, b"a=(1 2);x, b=\"s\\\"\", a=tok;y=1"),
    (Kind::Dict, b"a=1, b=:YQ==:, a=(b c;d);e"),
    (Kind::Dict, b"a;x=1;x=2, b=?0, c;y;y=1.5"),
    (Kind::Dict, b"d=(p;a;a=?0);e=1;e=2, f;g=1.5;g=-2.5, d=()"),
    (Kind::Item, b"tok;a=1;b;a=2"),
    (Kind::Item, b"1;a=:YQ==:;a=\"x\\\\y\""),
    (Kind::Item, b" -1.5;q;r=2;q=3;r=4;q "),
    (Kind::List, b"x;a=1;a=2, y"),
    (Kind::List, b"(p;a=1;b=2;a=3 q);l=1;m;l=?0"),
    (Kind::List, b"(p q;k=1;k=2;k=3), r"),
    (Kind::List, b"();a;a, (\"\\\\\" ::;a;a=\"\\\"\");b"),
];

// These have types that only RFC 9651 has.
static REPEATED_IN_RFC9651: [(Kind, &[u8]); 3] = [
    (Kind::Item, b"@1;a=@2;a=@-3"),
    (Kind::Dict, b"a=%\"%c3%bc\", b, a=%\"f%25\""),
    (Kind::List, b"(%\"%e2%82%ac\";d=@0;d=@1)"),
];

/// Whether the look-ups of the view, the copy of its field and its canonical text are those of the
/// tree.
fn is_tree(alloc: Global, seed: &RandomState, view: View, kind: Kind, field: &Field) -> bool {
    let Ok(Some(copy)) = view.to_field(alloc, seed, kind) else {
        return false;
    };
    let Ok(canonical) = view_text(alloc, &view, kind) else {
        return false;
    };
    let Ok(written) = to_text(alloc, field) else {
        return false;
    };
    same_field(view, field) && same(&copy, field) && canonical.as_slice() == written.as_slice()
}

/// Tries the nodes of the text, and those of its tree.
fn check(
    rt: &impl Abort,
    alloc: Global,
    seed: &RandomState,
    dialect: Dialect,
    kind: Kind,
    text: &[u8],
) -> Result<(), Fail> {
    let field = parse_text_in(alloc, seed, dialect, kind, text)?;
    let nodes = FieldNodes::of_text(alloc, seed, dialect, kind, text)?;
    assert!(rt; is_tree(alloc, seed, nodes.view(), kind, &field));
    let nodes = FieldNodes::of_field(alloc, &field)?;
    assert!(rt; is_tree(alloc, seed, nodes.view(), kind, &field));
    Ok(())
}

/// Why the scanner has no view of the text.
fn unviewed(dialect: Dialect, kind: Kind, text: &[u8]) -> Option<Unviewed> {
    let mut buffer = [Node::NONE; 64];
    View::scan(dialect, kind, text, &mut buffer).err()
}

#[test]
fn texts_with_repeated_keys_have_the_nodes_of_trees(rt: HostRuntime) -> Result<(), Fail> {
    let alloc = rt.alloc();
    let seed = RandomState::new(&rt)?;
    for (kind, text) in &REPEATED {
        for dialect in [Dialect::Rfc9651, Dialect::Rfc8941] {
            assert!(&rt; unviewed(dialect, *kind, text) == Some(Unviewed::Declined));
            check(&rt, alloc, &seed, dialect, *kind, text)?;
        }
    }
    for (kind, text) in &REPEATED_IN_RFC9651 {
        assert!(&rt; unviewed(Dialect::Rfc9651, *kind, text) == Some(Unviewed::Declined));
        check(&rt, alloc, &seed, Dialect::Rfc9651, *kind, text)?;
    }
    Ok(())
}

#[test]
fn texts_without_repeated_keys_have_the_nodes_of_trees(rt: HostRuntime) -> Result<(), Fail> {
    let seed = RandomState::new(&rt)?;
    for (kind, text) in &TEXTS {
        check(&rt, rt.alloc(), &seed, Dialect::Rfc9651, *kind, text)?;
    }
    Ok(())
}

/// The Integer of a member of a Dictionary, and that of its parameter.
fn numbers(view: View, key: &[u8], param: &[u8]) -> Option<(i64, i64)> {
    let member = view.get(key)?;
    let Some(BareView::Integer(first)) = member.bare() else {
        return None;
    };
    let Some(BareView::Integer(second)) = member.params().get(param)?.bare() else {
        return None;
    };
    Some((first, second))
}

#[test]
fn last_value_counts_at_the_first_place(rt: HostRuntime) -> Result<(), Fail> {
    let seed = RandomState::new(&rt)?;
    let text = b"a=1;p=5, b=2, a=3;p=6;q;p=7";
    let nodes = FieldNodes::of_text(rt.alloc(), &seed, Dialect::Rfc9651, Kind::Dict, text)?;
    let view = nodes.view();
    assert!(&rt; numbers(view, b"a", b"p") == Some((3, 7)));
    match view.split_first() {
        Some((first, _)) => assert!(&rt; first.key() == b"a".as_slice()),
        None => assert!(&rt; false),
    }
    Ok(())
}

// A text that spells no value is refused as the parser refuses it.
static REFUSED: [(Dialect, Kind, &[u8]); 7] = [
    (Dialect::Rfc9651, Kind::Item, b"1 2"),
    (Dialect::Rfc9651, Kind::Item, b""),
    (Dialect::Rfc9651, Kind::Dict, b"a=1, a=2,"),
    (Dialect::Rfc9651, Kind::Dict, b"a=1, a=(2"),
    (Dialect::Rfc9651, Kind::List, b"(p;a;a q\x7f)"),
    (Dialect::Rfc8941, Kind::Item, b"@1;a;a"),
    (Dialect::Rfc8941, Kind::Dict, b"a=1, a=%\"x\""),
];

/// The refusal of a text as nodes.
fn refusal_of(
    alloc: Global,
    seed: &RandomState,
    dialect: Dialect,
    kind: Kind,
    text: &[u8],
) -> Option<Refusal> {
    FieldNodes::of_text(alloc, seed, dialect, kind, text).err()
}

#[test]
fn refusals_are_those_of_the_parser(rt: HostRuntime) -> Result<(), Fail> {
    let alloc = rt.alloc();
    let seed = RandomState::new(&rt)?;
    for (dialect, kind, text) in &REFUSED {
        let parsed = parse_text_in(alloc, &seed, *dialect, *kind, text).err();
        let found = refusal_of(alloc, &seed, *dialect, *kind, text);
        assert!(&rt; found.is_some() && found == parsed);
    }
    Ok(())
}
