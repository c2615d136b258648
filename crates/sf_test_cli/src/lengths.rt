//! Inputs on both sides of a length, or of a number of nodes, at which the command takes another way.
use crate::rows::{ACCEPTED, REFUSED, expect_long};
use sf_tool::Request;
use sf_value::{Dialect, Kind};
use std::alloc::{AllocError, Global};
use std::hash::RandomState;
use std::process::Abort;
use std::test::Fail;

// Of an input of at most 1,024 bytes the lines may be cut ahead.
static LENGTHS: [usize; 6] = [1_022, 1_023, 1_024, 1_025, 1_026, 1_027];

/// An input of this length, with bytes of a String between its beginning and its end.
fn padded(alloc: Global, first: &[u8], last: &[u8], length: usize) -> Result<Vec<u8>, AllocError> {
    let mut input = Vec::from_slice(alloc, first)?;
    let others = first.len().saturating_add(last.len());
    for _ in others..length {
        input.push(b'x')?;
    }
    input.extend_from_slice(last)?;
    Ok(input)
}

/// Expects this output for inputs of two lines, of each length.
fn expect_accepted(
    rt: &(impl Abort + AllocGlobal),
    seed: &RandomState,
    request: &Request,
    first: &[u8],
    last: &[u8],
    text: &[u8],
) -> Result<(), Fail> {
    for length in &LENGTHS {
        let input = padded(rt.alloc(), first, last, *length)?;
        expect_long(rt, seed, request, input.as_slice(), text, ACCEPTED);
    }
    Ok(())
}

/// Expects a refusal of inputs of two lines at their last byte but one, the byte `$`. The line feed
/// between the lines becomes a comma and a space.
fn expect_refused(
    rt: &(impl Abort + AllocGlobal),
    seed: &RandomState,
    request: &Request,
    first: &[u8],
    last: &[u8],
) -> Result<(), Fail> {
    for length in &LENGTHS {
        let input = padded(rt.alloc(), first, last, *length)?;
        let place = length.saturating_sub(1);
        let text = format!(in rt.alloc();
            "refused at {place} found 0x24 expected 09 20 2c 3b end\n"
        )?;
        expect_long(
            rt,
            seed,
            request,
            input.as_slice(),
            text.as_bytes(),
            REFUSED,
        );
    }
    Ok(())
}

#[test]
fn lines_of_short_inputs_and_longer_ones(rt: HostRuntime) -> Result<(), Fail> {
    let seed = RandomState::new(&rt)?;
    expect_accepted(
        &rt,
        &seed,
        &Request::CacheStatus,
        b"a;hit;x=\"",
        b"\"\nb;fwd=miss\n",
        b"hop 0 a hit\nhop 1 b forwarded miss\nserved 0\n",
    )?;
    expect_accepted(
        &rt,
        &seed,
        &Request::Priority,
        b"u=1;x=\"",
        b"\"\ni\n",
        b"urgency 1 incremental true\n",
    )?;
    let check = Request::Check(Dialect::Rfc9651, Kind::List);
    expect_accepted(&rt, &seed, &check, b"\"", b"\ny\"\n", b"accepted\n")?;
    expect_refused(
        &rt,
        &seed,
        &Request::CacheStatus,
        b"a;hit;x=\"",
        b"\"\n\"b\"$\n",
    )?;
    expect_refused(
        &rt,
        &seed,
        &Request::Priority,
        b"u=1;x=\"",
        b"\"\nb=\"c\"$\n",
    )?;
    expect_refused(&rt, &seed, &check, b"\"", b"\ny\"$\n")?;
    Ok(())
}

// Up to 32 nodes are on the stack.
static NODES: [usize; 9] = [28, 29, 30, 31, 32, 33, 34, 35, 36];

/// A canonical text: a beginning, a part with one node that is repeated, and an end.
#[derive(Clone, Copy, Drop)]
struct Canonical<'a> {
    kind: Kind,
    first: &'a [u8],
    part: &'a [u8],
    last: &'a [u8],
    // How many nodes the beginning and the end have.
    others: usize,
    // A member that ends with a String, which may follow.
    more: &'a [u8],
}

// An Inner List and an Item in it have their nodes before those of their parts, but these are written
// first.
static CANONICAL: [Canonical; 7] = [
    Canonical {
        kind: Kind::List,
        first: b"0",
        part: b", 1",
        last: b"",
        others: 1,
        more: b", \"b\"",
    },
    Canonical {
        kind: Kind::List,
        first: b"0",
        part: b", 1",
        last: b", ()",
        others: 2,
        more: b", \"b\"",
    },
    Canonical {
        kind: Kind::List,
        first: b"0",
        part: b", 1",
        last: b", (2;x)",
        others: 4,
        more: b", \"b\"",
    },
    Canonical {
        kind: Kind::List,
        first: b"0",
        part: b", 1",
        last: b", (2;x;z);y",
        others: 6,
        more: b", \"b\"",
    },
    Canonical {
        kind: Kind::List,
        first: b"(0",
        part: b" 1",
        last: b");y",
        others: 3,
        more: b", \"b\"",
    },
    Canonical {
        kind: Kind::List,
        first: b"(0",
        part: b" 1",
        last: b" 2;x;z), 3",
        others: 6,
        more: b", \"b\"",
    },
    Canonical {
        kind: Kind::Dict,
        first: b"a=(0",
        part: b" 1",
        last: b" 2;x;z);y, b",
        others: 7,
        more: b", c=\"b\"",
    },
];

/// The text with so many nodes.
fn with_nodes(alloc: Global, made: Canonical, nodes: usize) -> Result<Vec<u8>, AllocError> {
    let mut text = Vec::from_slice(alloc, made.first)?;
    for _ in made.others..nodes {
        text.extend_from_slice(made.part)?;
    }
    text.extend_from_slice(made.last)?;
    Ok(text)
}

#[test]
fn nodes_on_the_stack_and_more(rt: HostRuntime) -> Result<(), Fail> {
    let seed = RandomState::new(&rt)?;
    for made in &CANONICAL {
        let request = Request::Normalise(Dialect::Rfc9651, made.kind);
        for nodes in &NODES {
            let mut line = with_nodes(rt.alloc(), *made, *nodes)?;
            line.push(b'\n')?;
            let input = line.as_slice();
            expect_long(&rt, &seed, &request, input, input, ACCEPTED);
            let mut wrong = with_nodes(rt.alloc(), *made, *nodes)?;
            wrong.extend_from_slice(made.more)?;
            let place = wrong.len();
            wrong.extend_from_slice(b"$\n")?;
            let text = format!(in rt.alloc();
                "refused at {place} found 0x24 expected 09 20 2c 3b end\n"
            )?;
            let input = wrong.as_slice();
            expect_long(&rt, &seed, &request, input, text.as_bytes(), REFUSED);
        }
    }
    Ok(())
}
