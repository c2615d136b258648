//! Reading a source to its end.
ghost use Rattle.std.specs.Prelude.{◌<◌, ◌-◌, ◌^◌, MatchResult};
ghost use Rattle.sf_tool.specs.Reading.{ReadsToEnd, StopsFor};

use sf_value::Source;
use std::alloc::Global;

/// The size of the buffer for what is read: one pull returns at most 256 KiB.
const BLOCK: usize = 262_144;

/// Why a source was not read to its end.
#[derive(Clone, Copy)]
pub enum ReadAllFault {
    /// An allocation for the bytes failed.
    OutOfMemory,
    /// A read failed after this many bytes, and it was the last read.
    ReadFault { place: u64 },
    /// The source gave one byte more than this, and no further one was read.
    TooLong { max: u64 },
}

/// Returns all bytes of the source up to its end, if they are at most `max`, which is less than
/// 2^64 - 1. Does not read after the end, after a failed read, or after one byte more than `max`.
/// It is not inlined, so that its block is not on the stack afterwards.
#[inline(never)]
pub fn read_all<R: Source>(alloc: Global, max: u64, source: &mut R) -> Result<Vec<u8>, ReadAllFault>
    requires { max < 2 ^ 64 - 1 }
    // All bytes of the source, within the limit; or why reading stopped before its end.
    ensures { MatchResult result
        (λ all. ReadsToEnd (R.state source.old) (R.state source.new) max all.items)
        (λ fault. StopsFor (R.state source.old) (R.state source.new) max fault) }
{
    let mut all = Vec::new(alloc);
    let mut block = [0u8; BLOCK];
    let mut given = 0u64;
    loop {
        let length = (max - given + 1).min(BLOCK as u64) as usize;
        match source.pull(&mut block[..length]) {
            Ok(0) => return Ok(all),
            Ok(n) => {
                if n as u64 > max - given {
                    return Err(ReadAllFault::TooLong { max });
                }
                if all.extend_from_slice(&block[..n]).is_err() {
                    return Err(ReadAllFault::OutOfMemory);
                }
                given += n as u64;
            }
            Err(_) => return Err(ReadAllFault::ReadFault { place: given }),
        }
    }
}
