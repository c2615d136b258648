//! Sinks that take bytes at a pace.
ghost use Rattle.std.specs.Prelude.{◌≡◌, [], Some};

use sf_value::{Failed, Sink};
use std::alloc::Global;

/// Takes one byte a call. The calls are counted from 1, and one of them may fail; so does a call
/// whose allocation fails.
///
/// ```
/// let mut sink = Trickle::new(alloc, 3);
/// let answer = write_field(&field, &mut sink); // Err(WriteFault { written: 2 }), of a longer text
/// ```
#[derive(Drop)]
pub struct Trickle {
    /// The bytes that were taken.
    pub taken: Vec<u8>,
    /// The number of the call that fails; 0 for none.
    pub fails_at: u64,
    /// The number of calls that were made.
    pub calls: u64,
    /// The number of them that failed.
    pub failures: u64,
}

/// Takes all bytes of a call, and counts the calls with bytes.
///
/// ```
/// let mut sink = Tally::new(alloc);
/// run(alloc, &seed, &request, &mut source, &mut sink, &mut errors);
/// sink.calls // 1: the answer in one call
/// ```
#[derive(Drop)]
pub struct Tally {
    /// The bytes that were taken.
    pub taken: Vec<u8>,
    /// The number of calls with bytes.
    pub calls: u64,
    /// The number of them that failed, since an allocation failed.
    pub failures: u64,
}

impl Trickle {
    /// The sink without bytes. It does not allocate.
    pub fn new(alloc: Global, fails_at: u64) -> Trickle
        ensures taken { result.taken.items ≡ [] }
        ensures calls { (result.calls ≡ 0) × (result.failures ≡ 0) }
        ensures fails_at { result.fails_at ≡ fails_at }
    {
        Trickle {
            taken: Vec::new(alloc),
            fails_at,
            calls: 0,
            failures: 0,
        }
    }
}

impl Tally {
    /// The sink without bytes. It does not allocate.
    pub fn new(alloc: Global) -> Tally
        ensures taken { result.taken.items ≡ [] }
        ensures calls { (result.calls ≡ 0) × (result.failures ≡ 0) }
    {
        Tally {
            taken: Vec::new(alloc),
            calls: 0,
            failures: 0,
        }
    }
}

impl Sink for Trickle {
    ghost state = { λ t. record { taken = Some t.taken.items; failures = t.failures } };

    fn send(&mut self, bytes: &[u8]) -> Result<usize, Failed> {
        self.calls = self.calls.saturating_add(1);
        let Some(first) = bytes.first() else {
            return Ok(0);
        };
        if self.calls == self.fails_at || self.taken.push(*first).is_err() {
            self.failures = self.failures.saturating_add(1);
            return Err(Failed);
        }
        Ok(1)
    }
}

impl Sink for Tally {
    ghost state = { λ t. record { taken = Some t.taken.items; failures = t.failures } };

    fn send(&mut self, bytes: &[u8]) -> Result<usize, Failed> {
        if bytes.is_empty() {
            return Ok(0);
        }
        self.calls = self.calls.saturating_add(1);
        if self.taken.extend_from_slice(bytes).is_err() {
            self.failures = self.failures.saturating_add(1);
            return Err(Failed);
        }
        Ok(bytes.len())
    }
}
