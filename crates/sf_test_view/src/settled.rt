//! Dictionaries in which keys are repeated, and those of many keys: their canonical texts, written
//! from nodes and from trees.
use sf_parse::{Refusal, parse_text};
use sf_value::{Dialect, Kind, OutOfMemory};
use sf_view::{
    Node, View, canonical_text, node_buffer, normalise, scan_settled, settled_text, view_text,
};
use sf_write::to_text;
use std::alloc::Global;
use std::hash::RandomState;
use std::process::Abort;
use std::test::Fail;

// Texts with repeated keys, and what they spell: the last value of a key, at the place of its
// first.
pub(crate) static REPEATED: [(&[u8], &[u8]); 16] = [
    (b"a=1,b,a=2", b"a=2, b"),
    (b"a,a", b"a"),
    (b"a=1,a=2,a=3", b"a=3"),
    (b"u=1, i, u=2", b"u=2, i"),
    (b"a=1, b=2, b=3, a=4", b"a=4, b=3"),
    (b"b=1, a=2, c=3, a=4", b"b=1, a=4, c=3"),
    (
        b"a=1;x;y=2, b=(1 2);z, a=(3;q 4);w",
        b"a=(3;q 4);w, b=(1 2);z",
    ),
    (b"a=(1 2 3), b, a", b"a, b"),
    (b"a, b=(1 2 3), a=(4 5);p, b=?0;q", b"a=(4 5);p, b=?0;q"),
    (b"aa=1, ab=2, a=3, aa=4, a=5", b"aa=4, ab=2, a=5"),
    (b"a=\"x\", b=:YQ:, a=\"\\\"\"", b"a=\"\\\"\", b=:YQ==:"),
    // Eight members, and nine.
    (b"a,b,c,d,e,f,g,a=1", b"a=1, b, c, d, e, f, g"),
    (b"a,b,c,d,e,f,g,h,h=1", b"a, b, c, d, e, f, g, h=1"),
    (b"a,b,c,d,e,f,g,h,a=1", b"a=1, b, c, d, e, f, g, h"),
    (
        b"a=1,b=2,c=3,d=4,e=5,f=6,g=7,h=8,i=9,a=10,c=(1 2),i=11;x,j,a=12",
        b"a=12, b=2, c=(1 2), d=4, e=5, f=6, g=7, h=8, i=11;x, j",
    ),
    // More than 32 nodes.
    (
        b"a=(1 2 3 4 5 6 7 8 9 10 11 12 13 14 15 16 17 18),b=(1 2 3 4 5 6 7 8 9 10 11 12),c,a=1",
        b"a=1, b=(1 2 3 4 5 6 7 8 9 10 11 12), c",
    ),
];

/// Whether the canonical text is written from nodes, and is this one.
fn is_from_nodes(alloc: Global, text: &[u8], canonical: &[u8]) -> bool {
    match settled_text(alloc, Dialect::Rfc9651, Kind::Dict, text) {
        Ok(Some(written)) => return written.as_slice() == canonical,
        _ => return false,
    }
}

/// Whether a scan that settles has nodes of this canonical text, at most as many as it was given.
fn is_scanned(
    alloc: Global,
    kind: Kind,
    text: &[u8],
    canonical: &[u8],
) -> Result<bool, OutOfMemory> {
    let mut nodes = node_buffer(alloc, text)?;
    let most = nodes.len();
    let Some(view) = scan_settled(alloc, Dialect::Rfc9651, kind, text, &mut nodes) else {
        return Ok(false);
    };
    Ok(view.nodes.len() <= most && view_text(alloc, &view, kind)?.as_slice() == canonical)
}

#[test]
fn repeated_keys_are_settled(rt: HostRuntime) -> Result<(), Fail> {
    let seed = RandomState::new(&rt)?;
    let alloc = rt.alloc();
    for (text, canonical) in &REPEATED {
        assert!(&rt; is_from_nodes(alloc, text, canonical));
        assert!(&rt; is_scanned(alloc, Kind::Dict, text, canonical)?);
        // A text without a view is declined.
        assert!(&rt; canonical_text(alloc, Dialect::Rfc9651, Kind::Dict, text)?.is_none());
        let written = normalise(alloc, &seed, Dialect::Rfc9651, Kind::Dict, text)?;
        assert!(&rt; written.as_slice() == *canonical);
        // No more memory is kept than the text needs, however long the source is.
        assert!(&rt; written.capacity() == canonical.len());
        let field = parse_text(alloc, &seed, Kind::Dict, text)?;
        assert!(&rt; to_text(alloc, &field)?.as_slice() == *canonical);
    }
    Ok(())
}

/// How the members of a Dictionary are made: their number, and which of them repeat the key of an
/// earlier one, if any do.
#[derive(Clone, Copy, Drop)]
struct Shape {
    members: usize,
    every: usize,
    /// How far back the key is that is repeated.
    back: usize,
    /// Whether each member is one node.
    bare: bool,
}

/// A Dictionary of this shape.
fn made(alloc: Global, shape: Shape) -> Result<Vec<u8>, OutOfMemory> {
    let mut text = Vec::new(alloc);
    for i in 0..shape.members {
        let repeats = shape.every > 0 && i % shape.every.max(1) == shape.every.saturating_sub(1);
        let key = if repeats {
            i.saturating_sub(shape.back)
        } else {
            i
        };
        let member = match (shape.bare, i % 3) {
            (true, _) => format!(in alloc; "k{key}={i},")?,
            (_, 0) => format!(in alloc; "key-{key};q={i} , ")?,
            (_, 1) => format!(in alloc; "key-{key}=(a;x={i} \"b\");p=1.50, ")?,
            _ => format!(in alloc; "key-{key}={i},\t")?,
        };
        text.extend_from_slice(member.as_bytes())?;
    }
    text.extend_from_slice(b"z;last")?;
    Ok(text)
}

/// Whether nodes and the tree of a Dictionary of this shape have the same canonical text.
fn agree(alloc: Global, seed: &RandomState, shape: Shape) -> Result<bool, Refusal> {
    let text = made(alloc, shape)?;
    let field = parse_text(alloc, seed, Kind::Dict, text.as_slice())?;
    let canonical = to_text(alloc, &field)?;
    drop(field);
    let dialect = Dialect::Rfc9651;
    let normal = normalise(alloc, seed, dialect, Kind::Dict, text.as_slice())?;
    Ok(
        normal.as_slice() == canonical.as_slice()
            && is_from_nodes(alloc, text.as_slice(), canonical.as_slice())
            && is_scanned(alloc, Kind::Dict, text.as_slice(), canonical.as_slice())?,
    )
}

// On both sides of each number at which another way is taken, counted with the last member, and for
// the nodes of members of several.
static MEMBERS: [usize; 34] = [
    0, 1, 2, 3, 4, 5, 6, 7, 8, 9, 10, 11, 12, 15, 16, 17, 30, 31, 32, 33, 34, 95, 96, 97, 128, 129,
    383, 384, 385, 1024, 1025, 3070, 3071, 3072,
];

// How often a key is repeated, and how far back.
static REPEATS: [(usize, usize); 6] = [(0, 0), (2, 1), (8, 5), (7, 1000), (3, 2), (1, 4)];

#[test]
fn nodes_and_trees_agree(rt: HostRuntime) -> Result<(), Fail> {
    let seed = RandomState::new(&rt)?;
    for members in &MEMBERS {
        for (every, back) in &REPEATS {
            for bare in [true, false] {
                let shape = Shape {
                    members: *members,
                    every: *every,
                    back: *back,
                    bare,
                };
                assert!(&rt;
                    agree(rt.alloc(), &seed, shape)?,
                    "{members} {every} {back} {bare}"
                );
            }
        }
    }
    Ok(())
}

// More keys than a scan without memory compares, repeated and not.
static LARGE: [Shape; 5] = [
    Shape {
        members: 12_287,
        every: 8,
        back: 3,
        bare: true,
    },
    Shape {
        members: 12_288,
        every: 0,
        back: 0,
        bare: true,
    },
    Shape {
        members: 12_289,
        every: 12_289,
        back: 12_288,
        bare: true,
    },
    Shape {
        members: 30_000,
        every: 0,
        back: 0,
        bare: true,
    },
    Shape {
        members: 30_000,
        every: 8,
        back: 7_777,
        bare: false,
    },
];

#[test]
fn many_keys_are_settled(rt: HostRuntime) -> Result<(), Fail> {
    let seed = RandomState::new(&rt)?;
    for shape in &LARGE {
        assert!(&rt; agree(rt.alloc(), &seed, *shape)?);
    }
    Ok(())
}

#[test]
fn other_texts_are_scanned(rt: HostRuntime) -> Result<(), Fail> {
    let alloc = rt.alloc();
    assert!(&rt; is_scanned(alloc, Kind::Item, b"1;a=1.50", b"1;a=1.5")?);
    assert!(&rt; is_scanned(alloc, Kind::List, b"(1 2),b", b"(1 2), b")?);
    assert!(&rt; is_scanned(alloc, Kind::Dict, b"", b"")?);
    // A key of parameters that is repeated is declined.
    assert!(&rt; !is_scanned(alloc, Kind::Item, b"1;a;b;a=2", b"1;a=2;b")?);
    assert!(&rt; !is_scanned(alloc, Kind::Dict, b"a;x;x, a", b"a")?);
    // So is what is malformed.
    assert!(&rt; !is_scanned(alloc, Kind::Dict, b"a=1, b, a=", b"")?);
    // Nodes are added to a buffer that has too few.
    let mut nodes = Vec::from_slice(alloc, &[Node::NONE; 2])?;
    let added = scan_settled(alloc, Dialect::Rfc9651, Kind::Dict, b"a,b,a", &mut nodes);
    assert!(&rt; added.is_some());
    // A scan that does not allocate declines a repeated key.
    let mut nodes = Vec::from_slice(alloc, &[Node::NONE; 8])?;
    let scan = View::scan(Dialect::Rfc9651, Kind::Dict, b"a,b,a", nodes.as_mut_slice());
    assert!(&rt; scan.is_err());
    Ok(())
}

// Texts with a view, of few nodes and of many, and those without: their canonical texts.
static VIEWED: [(Kind, &[u8], Option<&[u8]>); 6] = [
    (Kind::Item, b"1.50;a=?1", Some(b"1.5;a")),
    (Kind::List, b"(1  2 ),b", Some(b"(1 2), b")),
    (Kind::Dict, b"a=1,b", Some(b"a=1, b")),
    (
        Kind::List,
        b"(1 2 3 4 5 6 7 8 9 10 11 12 13 14 15 16 17 18 19 20 21 22 23 24 25 26 27 28 29 30 31 32)",
        Some(
            b"(1 2 3 4 5 6 7 8 9 10 11 12 13 14 15 16 17 18 19 20 21 22 23 24 25 26 27 28 29 30 31 32)",
        ),
    ),
    (Kind::Item, b"1;a;b;a", None),
    (Kind::List, b"a,b,", None),
];

#[test]
fn views_have_canonical_texts(rt: HostRuntime) -> Result<(), Fail> {
    let alloc = rt.alloc();
    for (kind, text, canonical) in &VIEWED {
        let written = canonical_text(alloc, Dialect::Rfc9651, *kind, text)?;
        let settled = settled_text(alloc, Dialect::Rfc9651, *kind, text)?;
        for found in [written, settled] {
            let is_right = match (found, canonical) {
                (Some(found), Some(canonical)) => found.as_slice() == *canonical,
                (None, None) => true,
                _ => false,
            };
            assert!(&rt; is_right);
        }
    }
    Ok(())
}

/// A beginning of keys that are long.
const LONG: &[u8] = &[b'k'; 100];

#[test]
fn long_keys_are_settled(rt: HostRuntime) -> Result<(), Fail> {
    let seed = RandomState::new(&rt)?;
    let alloc = rt.alloc();
    let mut text = Vec::new(alloc);
    for i in 0..1000u32 {
        let key = if i % 8 == 7 { i.saturating_sub(5) } else { i };
        text.extend_from_slice(LONG)?;
        text.extend_from_slice(format!(in alloc; "{key}={i},")?.as_bytes())?;
    }
    text.extend_from_slice(b"z")?;
    let field = parse_text(alloc, &seed, Kind::Dict, text.as_slice())?;
    let canonical = to_text(alloc, &field)?;
    assert!(&rt; is_from_nodes(alloc, text.as_slice(), canonical.as_slice()));
    Ok(())
}

/// A Dictionary of so many keys, which begin like this and all have the same hash, and the first key
/// once more.
fn colliding(alloc: Global, beginning: &[u8], members: u32) -> Result<Vec<u8>, OutOfMemory> {
    let mut text = Vec::new(alloc);
    for i in 0..members {
        text.extend_from_slice(beginning)?;
        for bit in 0..7u32 {
            // Each pair adds as much to the hash as the other.
            let pair = if i >> bit & 1 == 1 { b"d*" } else { b"bh" };
            text.extend_from_slice(pair)?;
        }
        text.extend_from_slice(format!(in alloc; "={i},")?.as_bytes())?;
    }
    text.extend_from_slice(beginning)?;
    text.extend_from_slice(b"bhbhbhbhbhbhbh=last")?;
    Ok(text)
}

// How the keys of one hash begin, how many they are, and whether there are nodes: 64 slots are
// searched for a key, and fewer in all if the keys are long.
static COLLIDING: [(&[u8], u32, bool); 9] = [
    (b"", 2, true),
    (b"", 8, true),
    (b"", 9, true),
    (b"", 63, true),
    (b"", 64, true),
    (b"", 65, false),
    (b"", 128, false),
    (LONG, 9, true),
    (LONG, 64, false),
];

#[test]
fn keys_of_one_hash_are_settled(rt: HostRuntime) -> Result<(), Fail> {
    let seed = RandomState::new(&rt)?;
    let alloc = rt.alloc();
    for (beginning, members, has_nodes) in &COLLIDING {
        let text = colliding(alloc, beginning, *members)?;
        let field = parse_text(alloc, &seed, Kind::Dict, text.as_slice())?;
        let canonical = to_text(alloc, &field)?;
        let dialect = Dialect::Rfc9651;
        let normal = normalise(alloc, &seed, dialect, Kind::Dict, text.as_slice())?;
        assert!(&rt; normal.as_slice() == canonical.as_slice());
        let from_nodes = is_from_nodes(alloc, text.as_slice(), canonical.as_slice());
        assert!(rt; from_nodes == *has_nodes, "{members}");
    }
    Ok(())
}
