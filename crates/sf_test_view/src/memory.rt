//! Copies of whole fields, nodes read as fields, texts read as nodes, and canonical texts, with
//! little memory: each allocation fails in turn.
use crate::settled;
use crate::trees::same_field;
use sf_nodes::FieldNodes;
use sf_parse::{Refusal, parse_text};
use sf_test_alloc::{Seen, refusals};
use sf_value::{Dialect, Field, Kind, OutOfMemory, same};
use sf_view::{NoField, Node, View, field_of, normalise};
use std::alloc::Global;
use std::hash::RandomState;
use std::test::Fail;

/// Whether the copy is this field, or an allocation failed.
fn seen(answer: Result<Option<Field>, OutOfMemory>, want: &Field) -> Seen {
    match answer {
        Ok(Some(field)) => {
            if same(&field, want) {
                Seen::Right
            } else {
                Seen::Wrong
            }
        }
        Ok(None) => Seen::Wrong,
        Err(OutOfMemory) => Seen::Refused,
    }
}

/// How many budgets of memory were too small for the copy of a text's field.
fn copy_refusals(
    alloc: Global,
    seed: &RandomState,
    kind: Kind,
    text: &[u8],
) -> Result<Option<usize>, Refusal> {
    let want = parse_text(alloc, seed, kind, text)?;
    let mut buffer = [Node::NONE; 64];
    let Some(view) = View::scan(Dialect::Rfc9651, kind, text, &mut buffer).ok() else {
        return Ok(None);
    };
    Ok(refusals(alloc, || { seen(view.to_field(alloc, seed, kind), &want) }))
}

/// How many budgets of memory were too small for the field that a text's nodes are read as.
fn reading_refusals(
    alloc: Global,
    seed: &RandomState,
    kind: Kind,
    text: &[u8],
) -> Result<Option<usize>, Refusal> {
    let want = parse_text(alloc, seed, kind, text)?;
    let mut buffer = [Node::NONE; 64];
    let Some(view) = View::scan(Dialect::Rfc9651, kind, text, &mut buffer).ok() else {
        return Ok(None);
    };
    Ok(refusals(alloc, || {
        match field_of(alloc, seed, Dialect::Rfc9651, kind, view.text, view.nodes) {
            Ok(field) => seen(Ok(Some(field)), &want),
            Err(NoField::OutOfMemory) => seen(Err(OutOfMemory), &want),
            Err(NoField::Invalid(_)) => seen(Ok(None), &want),
        }
    }))
}

/// How many budgets of memory were too small for the nodes of a text.
fn node_refusals(
    alloc: Global,
    seed: &RandomState,
    kind: Kind,
    text: &[u8],
) -> Result<Option<usize>, Refusal> {
    let want = parse_text(alloc, seed, kind, text)?;
    Ok(refusals(alloc, || {
        match FieldNodes::of_text(alloc, seed, Dialect::Rfc9651, kind, text) {
            Ok(nodes) => {
                if same_field(nodes.view(), &want) {
                    Seen::Right
                } else {
                    Seen::Wrong
                }
            }
            Err(Refusal::OutOfMemory) => Seen::Refused,
            Err(_) => Seen::Wrong,
        }
    }))
}

/// How many budgets of memory were too small for the canonical text of a Dictionary.
fn normal_refusals(
    alloc: Global,
    seed: &RandomState,
    text: &[u8],
    canonical: &[u8],
) -> Option<usize> {
    refusals(alloc, || {
        match normalise(alloc, seed, Dialect::Rfc9651, Kind::Dict, text) {
            Ok(written) => {
                if written.as_slice() == canonical {
                    Seen::Right
                } else {
                    Seen::Wrong
                }
            }
            Err(Refusal::OutOfMemory) => Seen::Refused,
            Err(_) => Seen::Wrong,
        }
    })
}

// Keys and bytes that fit where they are, longer ones, and more entries than fit in place.
static TEXTS: [(Kind, &[u8]); 5] = [
    (Kind::Item, b"\"x y\";p=tok;q=:YQ==:"),
    (
        Kind::Item,
        b"\"a text with an escape: \\\"\";a-key-longer-than-16=a-token-longer-than-16",
    ),
    (
        Kind::List,
        b"(1 \"x y\";p *t);y=:YQ==:, b;x, \"c\", %\"f%c3%bc\", ()",
    ),
    (
        Kind::Dict,
        b"a=(1 \"x y\" *t :YQ==: %\"f%c3%bc\" @1 1.5 ?0;p=\"q\";r);y=:YQ==:, b;x, c=tok;q=0.5",
    ),
    (
        Kind::Dict,
        b"a,b,c,d,e,f,g,h,i,j,k,l,m,n,o,p,q,r,s,t,u,v,w,x,y,z,aa,bb",
    ),
];

#[test]
fn copies(rt: HostRuntime) -> Result<(), Fail> {
    let seed = RandomState::new(&rt)?;
    for (kind, text) in &TEXTS {
        let found = copy_refusals(rt.alloc(), &seed, *kind, text)?;
        assert!(rt; found > Some(0), "{found:?}");
    }
    Ok(())
}

#[test]
fn readings(rt: HostRuntime) -> Result<(), Fail> {
    let seed = RandomState::new(&rt)?;
    for (kind, text) in &TEXTS {
        let found = reading_refusals(rt.alloc(), &seed, *kind, text)?;
        assert!(rt; found > Some(0), "{found:?}");
    }
    Ok(())
}

// Their keys are repeated, so that their nodes are made from trees.
static REPEATED: [(Kind, &[u8]); 3] = [
    (
        Kind::Item,
        b"\"x y\";a-key-longer-than-16=tok;a-key-longer-than-16=:YQ==:",
    ),
    (Kind::List, b"(1 \"x\\\\y\";p *t);y=:YQ==:;y=1, b;x;x"),
    (
        Kind::Dict,
        b"a=(1 *t;p;p=2 %\"f%c3%bc\");y=:YQ==:, b;x, c=tok;q=0.5, d, e, f, g, h, i, j, a=?0",
    ),
];

#[test]
fn nodes_of_texts(rt: HostRuntime) -> Result<(), Fail> {
    let seed = RandomState::new(&rt)?;
    for (kind, text) in &TEXTS {
        let found = node_refusals(rt.alloc(), &seed, *kind, text)?;
        assert!(rt; found > Some(0), "{found:?}");
    }
    for (kind, text) in &REPEATED {
        let found = node_refusals(rt.alloc(), &seed, *kind, text)?;
        assert!(rt; found > Some(0), "{found:?}");
    }
    Ok(())
}

#[test]
fn canonical_texts(rt: HostRuntime) -> Result<(), Fail> {
    let seed = RandomState::new(&rt)?;
    for (text, canonical) in &settled::REPEATED {
        let found = normal_refusals(rt.alloc(), &seed, text, canonical);
        assert!(rt; found > Some(0), "{found:?}");
    }
    Ok(())
}
