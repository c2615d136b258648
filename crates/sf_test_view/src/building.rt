//! Nodes read as fields: those of scans, and nodes that are wrong at one place.
use crate::trees::TEXTS;
use crate::views::{ACCEPTED, CODED, DICTIONARY_TEXT};
use sf_parse::parse_text_in;
use sf_value::{Dialect, Field, Kind, same};
use sf_view::{NoField, Node, NodeType, Role, View, field_of};
use std::alloc::Global;
use std::hash::RandomState;
use std::process::Abort;
use std::test::Fail;

/// The field that the nodes of a scan are read as.
fn read_field(
    alloc: Global,
    seed: &RandomState,
    dialect: Dialect,
    kind: Kind,
    text: &[u8],
) -> Option<Field> {
    let mut buffer = [Node::NONE; 64];
    let view = View::scan(dialect, kind, text, &mut buffer).ok()?;
    field_of(alloc, seed, dialect, kind, view.text, view.nodes).ok()
}

/// Whether the nodes of a scan are read as the field that the text spells.
fn is_read(alloc: Global, seed: &RandomState, dialect: Dialect, kind: Kind, text: &[u8]) -> bool {
    let Ok(field) = parse_text_in(alloc, seed, dialect, kind, text) else {
        return false;
    };
    match read_field(alloc, seed, dialect, kind, text) {
        Some(read) => return same(&read, &field),
        None => return false,
    }
}

#[test]
fn nodes_of_scans_are_read(rt: HostRuntime) -> Result<(), Fail> {
    let alloc = rt.alloc();
    let seed = RandomState::new(&rt)?;
    for (kind, text) in &TEXTS {
        assert!(&rt; is_read(alloc, &seed, Dialect::Rfc9651, *kind, text));
    }
    for (text, _) in &CODED {
        assert!(&rt; is_read(alloc, &seed, Dialect::Rfc9651, Kind::Item, text));
    }
    for (kind, text) in &ACCEPTED {
        assert!(&rt; is_read(alloc, &seed, Dialect::Rfc9651, *kind, text));
        assert!(&rt; is_read(alloc, &seed, Dialect::Rfc8941, *kind, text));
    }
    assert!(&rt; is_read(alloc, &seed, Dialect::Rfc9651, Kind::Dict, DICTIONARY_TEXT));
    Ok(())
}

/// A part of a node.
#[derive(Clone, Copy, Debug, Drop)]
enum Part {
    Number,
    KeyAt,
    KeyLength,
    TextAt,
    TextLength,
    Size,
    NodeType,
    Role,
    Coded,
}

/// The node with another number in one part.
fn with_part(node: Node, part: Part, number: u32) -> Node {
    let mut node = node;
    match part {
        Part::Number => node.number = i64::from(number) * 1_000_000,
        Part::KeyAt => node.key_at = number,
        Part::KeyLength => node.key_length = number,
        Part::TextAt => node.text_at = number,
        Part::TextLength => node.text_length = number,
        Part::Size => node.size = number,
        Part::NodeType => node.node_type = (number % 256) as u8,
        Part::Role => node.role = (number % 256) as u8,
        Part::Coded => node.coded = (number % 256) as u8,
    }
    node
}

// The nodes of DICTIONARY_TEXT: 0 is u=-1; 1 and 2 are i;q=1.5; 3 to 8 are the Inner List l, of
// which 4 is a/b, 5 its x, 6 the String, 7 its y and 8 its z; 9 is b and 10 is s. A row has the
// index of a node, the part of it that is changed, what it is changed to, and the index of the
// first node that is then wrong. A number counts in millions, so 1,000,000,000 has 16 digits.
static WRONG: [(usize, Part, u32, usize); 33] = [
    (0, Part::Number, 1_000_000_000, 0),
    (1, Part::Number, 2, 1),
    (4, Part::Number, 1, 4),
    (9, Part::Number, 1, 9),
    (0, Part::KeyLength, 0, 0),
    (0, Part::KeyAt, 0, 0),
    (0, Part::KeyAt, 4_294_967_295, 0),
    (2, Part::KeyLength, 0, 2),
    (2, Part::KeyLength, 4_294_967_295, 2),
    (4, Part::KeyLength, 1, 4),
    (1, Part::KeyAt, 1, 1),
    (10, Part::KeyAt, 1, 10),
    (8, Part::KeyAt, 41, 8),
    (0, Part::TextLength, 1, 0),
    (4, Part::TextLength, 0, 4),
    (4, Part::TextAt, 4_294_967_295, 4),
    (6, Part::TextLength, 3, 6),
    (0, Part::Size, 0, 0),
    (0, Part::Size, 2, 1),
    (0, Part::Size, 12, 0),
    (10, Part::Size, 2, 10),
    (3, Part::Size, 1, 4),
    (3, Part::Size, 5, 8),
    (3, Part::Size, 7, 9),
    (4, Part::Size, 1, 5),
    (4, Part::Size, 3, 6),
    (4, Part::Size, 6, 4),
    (9, Part::NodeType, 24, 9),
    (10, Part::NodeType, 0, 10),
    (5, Part::NodeType, 21, 5),
    (2, Part::Role, 14, 2),
    (4, Part::Role, 14, 4),
    (10, Part::Role, 12, 10),
];

/// The index at which nodes are wrong, or that they are not.
fn wrong_at(
    rt: &impl Abort,
    alloc: Global,
    seed: &RandomState,
    dialect: Dialect,
    kind: Kind,
    text: &[u8],
    nodes: &[Node],
) -> Option<usize> {
    match field_of(alloc, seed, dialect, kind, text, nodes) {
        Ok(_) => return None,
        Err(NoField::Invalid(index)) => return Some(index),
        Err(NoField::OutOfMemory) => {
            assert!(rt; false);
            return None;
        }
    }
}

#[test]
fn wrong_nodes_are_found(rt: HostRuntime) -> Result<(), Fail> {
    let alloc = rt.alloc();
    let seed = RandomState::new(&rt)?;
    for (index, part, number, wrong) in &WRONG {
        let mut nodes = [Node::NONE; 11];
        assert!(&rt; View::scan(Dialect::Rfc9651, Kind::Dict, DICTIONARY_TEXT, &mut nodes).is_ok());
        if let Some(node) = nodes.as_mut_slice().get_mut(*index) {
            *node = with_part(*node, *part, *number);
        }
        let found = wrong_at(
            &rt,
            alloc,
            &seed,
            Dialect::Rfc9651,
            Kind::Dict,
            DICTIONARY_TEXT,
            &nodes,
        );
        assert_eq!(&rt; found, Some(*wrong));
    }
    Ok(())
}

#[test]
fn kinds_and_dialects_are_kept(rt: HostRuntime) -> Result<(), Fail> {
    let alloc = rt.alloc();
    let seed = RandomState::new(&rt)?;
    let text = DICTIONARY_TEXT;
    let mut nodes = [Node::NONE; 11];
    assert!(&rt; View::scan(Dialect::Rfc9651, Kind::Dict, text, &mut nodes).is_ok());
    let dict = |dialect, kind, nodes: &[Node]| wrong_at(
        &rt, alloc, &seed, dialect, kind, text, nodes,
    );
    // A member of a List or an Item has no key, and RFC 8941 has no Dates.
    assert_eq!(&rt; dict(Dialect::Rfc9651, Kind::List, &nodes), Some(0));
    assert_eq!(&rt; dict(Dialect::Rfc9651, Kind::Item, &nodes), Some(0));
    assert_eq!(&rt; dict(Dialect::Rfc8941, Kind::Dict, &nodes), Some(8));
    assert_eq!(&rt; dict(Dialect::Rfc9651, Kind::Item, &[]), Some(0));
    assert_eq!(&rt; dict(Dialect::Rfc9651, Kind::List, &[]), None);
    assert_eq!(&rt; dict(Dialect::Rfc9651, Kind::Dict, &[]), None);
    Ok(())
}
