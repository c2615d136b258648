//! Sources that give bytes at a pace.
ghost use Rattle.std.specs.Prelude.{◌≡◌, ◌<◌, Some};

use sf_value::{Failed, Source};
use std::io::Read;

/// Gives at most a number of bytes a call, and pauses after a number of bytes: no call gives bytes
/// from both sides of the pause. The calls are counted from 1, and one of them may fail.
///
/// ```
/// let mut source = Paced::new(b"u=1, i", 1, 0, 3); // `u`, `=`, and then a failed call
/// ```
#[derive(Drop)]
pub struct Paced<'a> {
    /// The bytes that remain.
    pub rest: &'a [u8],
    /// The largest number of bytes of a call; one if it is 0.
    pub pace: usize,
    /// The number of bytes before the pause; 0 for none.
    pub pause: u64,
    /// The number of the call that fails; 0 for none.
    pub fails_at: u64,
    /// The number of calls that were made for bytes.
    pub calls: u64,
    /// The number of bytes that were given.
    pub given: u64,
    /// The number of calls that returned the end.
    pub ends: u64,
    /// The number of calls that failed.
    pub failures: u64,
}

impl<'a> Paced<'a> {
    /// The source of these bytes, before any call. It does not allocate.
    pub fn new(rest: &'a [u8], pace: usize, pause: u64, fails_at: u64) -> Paced<'a>
        ensures bytes { result.rest.now ≡ rest.now }
        ensures calls { (result.calls ≡ 0) × (result.failures ≡ 0) }
        ensures counts { (result.given ≡ 0) × (result.ends ≡ 0) }
        ensures settings { (result.pace ≡ pace) × (result.pause ≡ pause)
            × (result.fails_at ≡ fails_at) }
    {
        Paced {
            rest,
            pace,
            pause,
            fails_at,
            calls: 0,
            given: 0,
            ends: 0,
            failures: 0,
        }
    }

    /// The largest number of bytes of the next call.
    fn most(&self) -> usize
        ensures { 0 < result }
    {
        let left = self.pause.saturating_sub(self.given) as usize;
        let room = if left > 0 { left } else { self.pace };
        room.min(self.pace).max(1)
    }
}

impl Source for Paced<'_> {
    ghost state = { λ d. record {
      to_come = Some d.rest.now;
      given = d.given;
      ends = d.ends;
      failures = d.failures;
    } };

    fn pull(&mut self, block: &mut [u8]) -> Result<usize, Failed> {
        if block.is_empty() {
            return Ok(0);
        }
        self.calls = self.calls.saturating_add(1);
        if self.calls == self.fails_at {
            self.failures = self.failures.saturating_add(1);
            return Err(Failed);
        }
        let most = block.len().min(self.most());
        match self.rest.read(&mut block[..most]) {
            Ok(0) => {
                self.ends = self.ends.saturating_add(1);
                Ok(0)
            }
            Ok(n) => {
                self.given = self.given.saturating_add(n as u64);
                Ok(n)
            }
            Err(_) => {
                self.failures = self.failures.saturating_add(1);
                Err(Failed)
            }
        }
    }
}
