//! Texts whose nodes and bytes are counted, beside the nodes that are made of their trees.
use crate::nodes::REPEATED as REPEATED_KEYS;
use crate::settled::REPEATED as REPEATED_MEMBERS;
use crate::trees::TEXTS;
use crate::views::{ACCEPTED, CODED, REFUSED};
use sf_nodes::flatten;
use sf_parse::parse_text;
use sf_value::{Dialect, Kind, Sequence};
use sf_view::{Counts, Uncounted, count_settled, count_text};
use std::alloc::Global;
use std::hash::RandomState;
use std::process::Abort;
use std::test::Fail;

/// Whether the counts are those of the nodes of the tree of this text.
fn are_of_tree(
    alloc: Global,
    seed: &RandomState,
    kind: Kind,
    text: &[u8],
    counts: Counts,
) -> Result<bool, Fail> {
    let field = parse_text(alloc, seed, kind, text)?;
    let flat = flatten(alloc, &field)?;
    Ok(counts.nodes == flat.node_count() && counts.bytes == flat.byte_count())
}

/// Whether the text is counted, and without memory if no key is repeated.
fn is_counted(
    alloc: Global,
    seed: &RandomState,
    kind: Kind,
    text: &[u8],
    repeated: bool,
) -> Result<bool, Fail> {
    let Ok(counts) = count_settled(alloc, seed, Dialect::Rfc9651, kind, text) else {
        return Ok(false);
    };
    let once = match count_text(Dialect::Rfc9651, kind, text) {
        Ok(once) => !repeated && once.nodes == counts.nodes && once.bytes == counts.bytes,
        Err(Uncounted::Repeated) => repeated,
        Err(Uncounted::Declined) => false,
    };
    Ok(once && are_of_tree(alloc, seed, kind, text, counts)?)
}

#[test]
fn texts_are_counted(rt: HostRuntime) -> Result<(), Fail> {
    let seed = RandomState::new(&rt)?;
    let alloc = rt.alloc();
    for (kind, text) in &TEXTS {
        assert!(&rt; is_counted(alloc, &seed, *kind, text, false)?);
    }
    for (kind, text) in &ACCEPTED {
        assert!(&rt; is_counted(alloc, &seed, *kind, text, false)?);
    }
    for (text, _) in &CODED {
        assert!(&rt; is_counted(alloc, &seed, Kind::Item, text, false)?);
    }
    for (kind, text) in &REPEATED_KEYS {
        assert!(&rt; is_counted(alloc, &seed, *kind, text, true)?);
    }
    for (text, _) in &REPEATED_MEMBERS {
        assert!(&rt; is_counted(alloc, &seed, Kind::Dict, text, true)?);
    }
    Ok(())
}

#[test]
fn refused_texts_are_not_counted(rt: HostRuntime) -> Result<(), Fail> {
    let seed = RandomState::new(&rt)?;
    for (kind, text) in &REFUSED {
        assert!(&rt; count_text(Dialect::Rfc9651, *kind, text).is_err());
        let settled = count_settled(rt.alloc(), &seed, Dialect::Rfc9651, *kind, text);
        assert!(&rt; settled.is_err());
    }
    Ok(())
}

/// Members or parameters with so many keys, and the first once more if it is to be repeated.
fn keys(alloc: Global, count: usize, before: u8, repeated: bool) -> Result<Sequence<u8>, Fail> {
    let mut text = Sequence::new(alloc);
    for index in 0..count {
        let digit = |at: usize| b'a' + (index / at % 16) as u8;
        for byte in [before, digit(4096), digit(256), digit(16), digit(1)] {
            text.push(byte)?;
        }
    }
    if repeated {
        for byte in [before, b'a', b'a', b'a', b'a'] {
            text.push(byte)?;
        }
    }
    Ok(text)
}

#[test]
fn many_keys_are_counted(rt: HostRuntime) -> Result<(), Fail> {
    let seed = RandomState::new(&rt)?;
    let alloc = rt.alloc();
    for count in [2, 8, 9, 20, 100, 300, 2000, 8192] {
        for repeated in [false, true] {
            let members = keys(alloc, count, b',', repeated)?;
            // A Dictionary begins with no comma.
            let Some((_, text)) = members.as_slice().split_first() else {
                return Ok(());
            };
            assert!(&rt; is_counted(alloc, &seed, Kind::Dict, text, repeated)?);
            let params = keys(alloc, count, b';', repeated)?;
            let mut item = Sequence::new(alloc);
            item.push(b'x')?;
            for byte in params.as_slice() {
                item.push(*byte)?;
            }
            assert!(&rt; is_counted(alloc, &seed, Kind::Item, item.as_slice(), repeated)?);
            assert!(&rt; is_counted(alloc, &seed, Kind::List, item.as_slice(), repeated)?);
        }
    }
    Ok(())
}
