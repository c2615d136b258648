//! Nodes that are added while a text is read: how many there are, and that they are those of the text.
use sf_parse::parse_text;
use sf_value::{Dialect, Kind, OutOfMemory};
use sf_view::{canonical_text, normalise, scan_settled, settled_text, view_text};
use sf_write::to_text;
use std::alloc::Global;
use std::hash::RandomState;
use std::process::Abort;
use std::test::Fail;

/// A text of a beginning, a part that is repeated, and an end.
#[derive(Clone, Copy, Drop)]
struct Made<'a> {
    first: &'a [u8],
    part: &'a [u8],
    times: usize,
    last: &'a [u8],
}

/// The bytes of the text.
fn bytes(alloc: Global, made: Made) -> Result<Vec<u8>, OutOfMemory> {
    let mut text = Vec::from_slice(alloc, made.first)?;
    for _ in 0..made.times {
        text.extend_from_slice(made.part)?;
    }
    text.extend_from_slice(made.last)?;
    Ok(text)
}

/// The capacity of a scan's buffer, whether there are nodes or not.
fn capacity(alloc: Global, kind: Kind, made: Made) -> Result<usize, OutOfMemory> {
    let text = bytes(alloc, made)?;
    let mut nodes = Vec::new(alloc);
    let _view = scan_settled(alloc, Dialect::Rfc9651, kind, text.as_slice(), &mut nodes);
    Ok(nodes.capacity())
}

// Texts of 60,000 separators and more that have few nodes, or are refused early, or have few keys.
static FEW: [(Kind, Made); 8] = [
    (
        Kind::List,
        Made {
            first: b"\"x\",=",
            part: b";",
            times: 60_000,
            last: b"",
        },
    ),
    (
        Kind::List,
        Made {
            first: b"a,,",
            part: b",",
            times: 60_000,
            last: b"",
        },
    ),
    (
        Kind::Item,
        Made {
            first: b"\"",
            part: b",",
            times: 60_000,
            last: b"\"",
        },
    ),
    (
        Kind::List,
        Made {
            first: b"(\"",
            part: b" ",
            times: 60_000,
            last: b"\" a)",
        },
    ),
    (
        Kind::Dict,
        Made {
            first: b"a=\"",
            part: b";",
            times: 60_000,
            last: b"\", b",
        },
    ),
    (
        Kind::Dict,
        Made {
            first: b"",
            part: b"a,",
            times: 60_000,
            last: b"a",
        },
    ),
    (
        Kind::Dict,
        Made {
            first: b"b,",
            part: b"a;x=1,c,a=(1 2),",
            times: 20_000,
            last: b"c=2",
        },
    ),
    (
        Kind::Item,
        Made {
            first: b"a b",
            part: b";x",
            times: 60_000,
            last: b"",
        },
    ),
];

/// Twice the nodes that a scan begins with.
const MOST: usize = 2 * 4_096;

#[test]
fn nodes_are_bounded_by_what_was_read(rt: HostRuntime) -> Result<(), Fail> {
    for (kind, made) in &FEW {
        assert!(&rt; capacity(rt.alloc(), *kind, *made)? <= MOST);
    }
    Ok(())
}

// Texts of more nodes than a scan begins with, whose nodes are added at different places.
static MANY: [(Kind, Made); 9] = [
    (
        Kind::List,
        Made {
            first: b"",
            part: b"1, ",
            times: 20_000,
            last: b"2",
        },
    ),
    (
        Kind::List,
        Made {
            first: b"",
            part: b"a;x;y=1, (1 2;z), ",
            times: 6_000,
            last: b"()",
        },
    ),
    (
        Kind::List,
        Made {
            first: b"a, (",
            part: b"1;x ",
            times: 6_000,
            last: b"2), b;c",
        },
    ),
    (
        Kind::List,
        Made {
            first: b"(",
            part: b"1 ",
            times: 4_094,
            last: b"2;x);y",
        },
    ),
    (
        Kind::List,
        Made {
            first: b"(",
            part: b"1 ",
            times: 4_093,
            last: b"2;x;z);y",
        },
    ),
    (
        Kind::List,
        Made {
            first: b"",
            part: b"1,",
            times: 4_095,
            last: b"(2;x;z);y",
        },
    ),
    (
        Kind::List,
        Made {
            first: b"",
            part: b"1,",
            times: 4_094,
            last: b"(2;x;z);y",
        },
    ),
    (
        Kind::Dict,
        Made {
            first: b"b=1,",
            part: b"a;x=1,c,a=(1 2),",
            times: 6_000,
            last: b"c=2,b",
        },
    ),
    (
        Kind::Dict,
        Made {
            first: b"",
            part: b"a,",
            times: 4_095,
            last: b"b=1;x,a=(1 2)",
        },
    ),
];

#[test]
fn nodes_that_are_added_are_of_the_text(rt: HostRuntime) -> Result<(), Fail> {
    let seed = RandomState::new(&rt)?;
    let alloc = rt.alloc();
    for (kind, made) in &MANY {
        let text = bytes(alloc, *made)?;
        let field = parse_text(alloc, &seed, *kind, text.as_slice())?;
        let canonical = to_text(alloc, &field)?;
        let mut nodes = Vec::new(alloc);
        let scan = scan_settled(alloc, Dialect::Rfc9651, *kind, text.as_slice(), &mut nodes);
        let Some(view) = scan else {
            assert!(&rt; false);
            return Ok(());
        };
        assert!(&rt; view_text(alloc, &view, *kind)?.as_slice() == canonical.as_slice());
        let normal = normalise(alloc, &seed, Dialect::Rfc9651, *kind, text.as_slice())?;
        assert!(&rt; normal.as_slice() == canonical.as_slice());
    }
    Ok(())
}

/// A canonical text: a beginning, a part with one node that is repeated, numbered where its key must
/// differ, and an end.
#[derive(Clone, Copy, Drop)]
struct Canonical<'a> {
    kind: Kind,
    first: &'a [u8],
    part: &'a [u8],
    is_numbered: bool,
    last: &'a [u8],
    // How many nodes the beginning and the end have.
    others: usize,
}

// An Inner List and an Item in it have their nodes before those of their parts, but these are written
// first.
static CANONICAL: [Canonical; 9] = [
    Canonical {
        kind: Kind::Item,
        first: b"1",
        part: b";k",
        is_numbered: true,
        last: b"",
        others: 1,
    },
    Canonical {
        kind: Kind::List,
        first: b"0",
        part: b", 1",
        is_numbered: false,
        last: b"",
        others: 1,
    },
    Canonical {
        kind: Kind::List,
        first: b"0",
        part: b", 1",
        is_numbered: false,
        last: b", ()",
        others: 2,
    },
    Canonical {
        kind: Kind::List,
        first: b"0",
        part: b", 1",
        is_numbered: false,
        last: b", (2;x)",
        others: 4,
    },
    Canonical {
        kind: Kind::List,
        first: b"0",
        part: b", 1",
        is_numbered: false,
        last: b", (2;x;z);y",
        others: 6,
    },
    Canonical {
        kind: Kind::List,
        first: b"(0",
        part: b" 1",
        is_numbered: false,
        last: b");y",
        others: 3,
    },
    Canonical {
        kind: Kind::List,
        first: b"(0",
        part: b" 1",
        is_numbered: false,
        last: b" 2;x;z), 3",
        others: 6,
    },
    Canonical {
        kind: Kind::Dict,
        first: b"a",
        part: b", k",
        is_numbered: true,
        last: b"",
        others: 1,
    },
    Canonical {
        kind: Kind::Dict,
        first: b"a",
        part: b", k",
        is_numbered: true,
        last: b", b=(2;x;z);y",
        others: 6,
    },
];

// How many nodes a text has: on both sides of the number on the stack, and of the number that a scan
// begins with.
static NODES: [usize; 14] = [
    29, 30, 31, 32, 33, 34, 35, 4_093, 4_094, 4_095, 4_096, 4_097, 4_098, 4_099,
];

/// The text with so many nodes.
fn with_nodes(alloc: Global, made: Canonical, nodes: usize) -> Result<Vec<u8>, OutOfMemory> {
    let mut text = Vec::from_slice(alloc, made.first)?;
    for index in made.others..nodes {
        text.extend_from_slice(made.part)?;
        if made.is_numbered {
            text.extend_from_slice(format!(in alloc; "{index}")?.as_bytes())?;
        }
    }
    text.extend_from_slice(made.last)?;
    Ok(text)
}

#[test]
fn canonical_texts_of_as_many_nodes_as_there_are(rt: HostRuntime) -> Result<(), Fail> {
    let seed = RandomState::new(&rt)?;
    let alloc = rt.alloc();
    let dialect = Dialect::Rfc9651;
    for made in &CANONICAL {
        for nodes in &NODES {
            let made_text = with_nodes(alloc, *made, *nodes)?;
            let text = made_text.as_slice();
            let normal = normalise(alloc, &seed, dialect, made.kind, text)?;
            assert!(&rt; normal.as_slice() == text);
            for found in [
                canonical_text(alloc, dialect, made.kind, text)?,
                settled_text(alloc, dialect, made.kind, text)?,
            ] {
                assert!(&rt; found.is_some_and(|found| found.as_slice() == text));
            }
            let mut buffer = Vec::new(alloc);
            let view = scan_settled(alloc, dialect, made.kind, text, &mut buffer);
            assert!(&rt; view.is_some_and(|view| view.nodes.len() == *nodes));
        }
    }
    Ok(())
}
