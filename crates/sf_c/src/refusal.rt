//! Why a text is refused, as a struct of C.
ghost use Rattle.std.specs.Prelude.{◌≡◌};
ghost use Rattle.sf_c.specs.Refusals.{SaysSyntax, found_number};

/// Where and why a text is refused (RFC 9651 section 4.2). In C an `sf_refusal`.
#[repr(C)]
#[derive(Clone, Copy, Debug, Drop)]
pub struct SyntaxRefusal {
    /// The length in bytes of the longest viable prefix.
    pub place: u64,
    /// The bytes from 0 to 63 that could have followed that prefix: bit b is set exactly if byte b
    /// could.
    pub expected_low: u64,
    /// The same for the bytes from 64 to 127.
    pub expected_high: u64,
    /// The byte found there, or -1 if the text ended.
    pub found: i32,
    /// 1 if that prefix is itself a text of the kind, otherwise 0.
    pub may_end: u32,
}

impl SyntaxRefusal {
    /// The refusal with these parts.
    pub(crate) fn of(place: u64, found: Option<u8>, expected: u128, may_end: bool) -> SyntaxRefusal
        // The struct has these parts as numbers, and the set of bytes in two halves.
        ensures { SaysSyntax result place found expected may_end }
    {
        SyntaxRefusal {
            place,
            expected_low: (expected % 0x1_0000_0000_0000_0000) as u64,
            expected_high: (expected / 0x1_0000_0000_0000_0000) as u64,
            found: number_of(found),
            may_end: u32::from(may_end),
        }
    }
}

/// The byte that was found, or -1.
fn number_of(found: Option<u8>) -> i32
    ensures { result ≡ found_number found }
{
    match found {
        Some(byte) => i32::from(byte),
        None => -1,
    }
}
