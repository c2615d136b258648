//! Blocks of known sizes under budgets.
use crate::{Scarcity, Seen, refusals, seen_without_memory};
use std::alloc::Global;
use std::test::Fail;

/// Whether a block of so many bytes can be had.
fn can_have(alloc: Global, size: usize) -> bool {
    Vec::<u8>::with_capacity(alloc, size).is_ok()
}

fn take(alloc: Global, size: usize) -> Seen {
    if can_have(alloc, size) {
        Seen::Right
    } else {
        Seen::Refused
    }
}

/// Blocks of which each is held when the next is taken.
fn take_two(alloc: Global, first: usize, second: usize) -> Seen {
    match Vec::<u8>::with_capacity(alloc, first) {
        Ok(_held) => take(alloc, second),
        Err(_) => Seen::Refused,
    }
}

#[test]
fn leaves_what_is_asked(rt: HostRuntime) -> Result<(), Fail> {
    let alloc = rt.alloc();
    let mut scarcity = Scarcity::new(alloc)?;
    let without = scarcity.leave(alloc, 0) && !can_have(alloc, 1);
    let little = scarcity.leave(alloc, 1000) && can_have(alloc, 900) && !can_have(alloc, 5000);
    let more = scarcity.leave(alloc, 6000) && can_have(alloc, 5000);
    let again = scarcity.leave(alloc, 0) && !can_have(alloc, 1);
    scarcity.end();
    assert!(rt; without);
    assert!(rt; little);
    assert!(rt; more);
    assert!(rt; again);
    assert!(rt; can_have(alloc, 1_000_000));
    Ok(())
}

#[test]
fn budgets_grow_until_enough(rt: HostRuntime) {
    let alloc = rt.alloc();
    let found = refusals(alloc, || take_two(alloc, 300, 500));
    assert!(rt; found > Some(40), "{found:?}");
    assert!(rt; refusals(alloc, || Seen::Right) == Some(0));
    assert!(rt; refusals(alloc, || Seen::Refused).is_none());
    assert!(rt; seen_without_memory(alloc, || take(alloc, 1)) == Some(Seen::Refused));
    assert!(rt; seen_without_memory(alloc, || Seen::Right) == Some(Seen::Right));
}
