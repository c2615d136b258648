//! A number that depends on all results.

/// The digest of the results so far.
#[derive(Drop)]
pub(crate) struct Digest {
    value: u64,
}

impl Digest {
    /// The digest of no result.
    pub(crate) fn new() -> Digest {
        Digest { value: 0 }
    }

    /// The digest.
    pub(crate) fn value(&self) -> u64 {
        self.value
    }

    /// Adds a number.
    pub(crate) fn number(&mut self, number: u64) {
        let mixed = (self.value ^ number).wrapping_mul(0x9e37_79b9_7f4a_7c15);
        self.value = mixed ^ (mixed >> 29);
    }

    /// Adds the number of bytes, and the last one.
    pub(crate) fn bytes(&mut self, bytes: &[u8]) {
        self.number(bytes.len() as u64);
        self.number(bytes.last().map_or(256, |byte| u64::from(*byte)));
    }
}
