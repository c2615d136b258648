//! What the tests of all layers share.
use sf_parse::Refusal;
use sf_test_alloc::{Seen, refusals, seen_without_memory};
use sf_value::{Field, same};
use std::alloc::{AllocError, Global};
use std::process::Abort;

/// A Dictionary that has each type of value, parameters, an Inner List and parameters of its own.
/// It is its own canonical text.
pub(crate) const MEMBERS: &[u8] =
    b"a=(1 \"x y\" *t :YQ==: %\"f%c3%bc\" @1 1.5 ?0;p=\"q\";r);y=:YQ==:, b;x, c=tok;q=0.5";

/// A List of such values, which is its own canonical text.
pub(crate) const LISTED: &[u8] = b"(1 \"x y\";p *t);y=:YQ==:, b;x, \"c\", %\"f%c3%bc\", ()";

/// An Item with two parameters, which is its own canonical text.
pub(crate) const SINGLE: &[u8] = b"\"x y\";p=tok;q=:YQ==:";

/// Expects the call to run out of memory at least once, and to be right with more.
pub(crate) fn expect_refusals<F: FnMut() -> Seen>(rt: &(impl Abort + AllocGlobal), call: F)
    requires { F.IsAlwaysCallable call }
{
    let found = refusals(rt.alloc(), call);
    assert!(rt; found > Some(0), "{found:?}");
}

/// Expects the call to be right with no memory left.
pub(crate) fn expect_no_need<F: FnMut() -> Seen>(rt: &(impl Abort + AllocGlobal), call: F)
    requires { F.IsAlwaysCallable call }
{
    let seen = seen_without_memory(rt.alloc(), call);
    assert_eq!(rt; seen, Some(Seen::Right));
}

/// `Right` if this holds.
pub(crate) fn seen_if(right: bool) -> Seen {
    if right { Seen::Right } else { Seen::Wrong }
}

/// Whether a parse returned this field, or ran out of memory.
pub(crate) fn seen_field(answer: Result<Field, Refusal>, want: &Field) -> Seen {
    match answer {
        Ok(field) => seen_if(same(&field, want)),
        Err(Refusal::OutOfMemory) => Seen::Refused,
        Err(_) => Seen::Wrong,
    }
}

/// Whether a parse was refused at this place for this byte, or ran out of memory.
pub(crate) fn seen_syntax(answer: Result<Field, Refusal>, at: u64, byte: u8) -> Seen {
    match answer {
        Err(Refusal::OutOfMemory) => Seen::Refused,
        Err(Refusal::Syntax { place, found, .. }) => seen_if(place == at && found == Some(byte)),
        _ => Seen::Wrong,
    }
}

/// Whether a parse returned the Integer -7 and nothing else, or ran out of memory.
pub(crate) fn seen_minus_seven(answer: Result<Field, Refusal>) -> Seen {
    match answer {
        Ok(field) => seen_if(is_minus_seven(&field)),
        Err(Refusal::OutOfMemory) => Seen::Refused,
        Err(_) => Seen::Wrong,
    }
}

fn is_minus_seven(field: &Field) -> bool {
    let Some(item) = field.as_item() else {
        return false;
    };
    item.bare.as_integer().map(|n| n.get()) == Some(-7) && item.params.is_empty()
}

/// 100,000 spaces and `-007`.
pub(crate) fn padded_number(alloc: Global) -> Result<Vec<u8>, AllocError> {
    let mut text = Vec::new(alloc);
    for _ in 0..100_000u32 {
        text.push(b' ')?;
    }
    text.extend_from_slice(b"-007")?;
    Ok(text)
}
