//! Texts that a reader gives, a byte a read, with a read that fails.
use sf_parse::{Refusal, parse_reader, parse_text};
use sf_test_io::Paced;
use sf_value::{Field, Kind, same};
use std::alloc::Global;
use std::hash::RandomState;
use std::test::Fail;

const MEMBERS: &[u8] = b"a=1,b;x, a=(1  2 );y=:YQ:";

/// The Dictionary of all its bytes, and how often was read.
fn read_whole(alloc: Global, seed: &RandomState) -> Result<(Field, u64), Refusal> {
    let mut source = Paced::new(MEMBERS, 1, 0, 0);
    let field = parse_reader(alloc, seed, Kind::Dict, 25, &mut source)?;
    Ok((field, source.calls))
}

/// The refusal if the read of this number fails, and how often one failed.
fn read_until(alloc: Global, seed: &RandomState, fails_at: u64) -> (Option<Refusal>, u64) {
    let mut source = Paced::new(MEMBERS, 1, 0, fails_at);
    let refusal = parse_reader(alloc, seed, Kind::Dict, 25, &mut source).err();
    (refusal, source.failures)
}

fn is_value_of_members(alloc: Global, seed: &RandomState, field: &Field) -> Result<bool, Refusal> {
    Ok(same(field, &parse_text(alloc, seed, Kind::Dict, MEMBERS)?))
}

#[test]
fn byte_by_byte(rt: HostRuntime) -> Result<(), Fail> {
    let seed = RandomState::new(&rt)?;
    let (field, reads) = read_whole(rt.alloc(), &seed)?;
    assert_eq!(&rt; reads, 26);
    assert_eq!(&rt; is_value_of_members(rt.alloc(), &seed, &field), Ok(true));
    Ok(())
}

#[test]
fn each_read_fails(rt: HostRuntime) -> Result<(), Fail> {
    let seed = RandomState::new(&rt)?;
    for place in 0..=25u64 {
        let refusal = Some(Refusal::ReadFault { place });
        assert_eq!(&rt; read_until(rt.alloc(), &seed, place + 1), (refusal, 1));
    }
    Ok(())
}

// The result for a reader, without the value and the set of a refusal.
#[derive(Debug, PartialEq, Drop)]
enum Answer {
    Accepted(Kind),
    Refused(u64, Option<u8>),
    TooLong(u64),
    ReadFault(u64),
    OutOfMemory,
}

fn answer_of(parsed: Result<Field, Refusal>) -> Answer {
    match parsed {
        Ok(field) => Answer::Accepted(field.kind()),
        Err(Refusal::Syntax { place, found, .. }) => Answer::Refused(place, found),
        Err(Refusal::TooLong { max }) => Answer::TooLong(max),
        Err(Refusal::ReadFault { place }) => Answer::ReadFault(place),
        Err(Refusal::OutOfMemory) => Answer::OutOfMemory,
    }
}

fn read_with_limit(
    alloc: Global,
    seed: &RandomState,
    kind: Kind,
    max: u64,
    mut source: Paced<'_>,
) -> Answer {
    answer_of(parse_reader(alloc, seed, kind, max, &mut source))
}

#[test]
fn limits(rt: HostRuntime) -> Result<(), Fail> {
    let seed = RandomState::new(&rt)?;
    for (kind, max, text, answer) in [
        (
            Kind::Item,
            3,
            b"abc".as_slice(),
            Answer::Accepted(Kind::Item),
        ),
        (Kind::Item, 3, b"abcd", Answer::TooLong(3)),
        (Kind::Item, 3, b"a,bcd", Answer::Refused(1, Some(0x2c))),
        (Kind::Item, 0, b"", Answer::Refused(0, None)),
        (Kind::List, 0, b"", Answer::Accepted(Kind::List)),
        (Kind::Item, 0, b"a", Answer::TooLong(0)),
        (Kind::Item, 0, b"\t", Answer::TooLong(0)),
    ] {
        let source = Paced::new(text, 1, 0, 0);
        assert_eq!(&rt;
            read_with_limit(rt.alloc(), &seed, kind, max, source),
            answer
        );
    }
    Ok(())
}

#[test]
fn refused_before_a_fault(rt: HostRuntime) -> Result<(), Fail> {
    let seed = RandomState::new(&rt)?;
    let source = Paced::new(b"a,", 1, 0, 3);
    let answer = read_with_limit(rt.alloc(), &seed, Kind::Item, 9, source);
    assert_eq!(&rt; answer, Answer::Refused(1, Some(0x2c)));
    Ok(())
}
