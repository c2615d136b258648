//! What all workloads share.

use crate::digest::Digest;
use crate::random::Random;
use sf_parse::Refusal;
use std::alloc::Global;
use std::hash::RandomState;
use std::io;
use std::random::RandomSource;

/// The means of a workload, and the digest of its results.
#[derive(Drop)]
pub(crate) struct Bench {
    /// The allocator.
    pub(crate) alloc: Global,
    /// The seed of the hashes.
    pub(crate) seed: RandomState,
    /// The source of the inputs.
    pub(crate) random: Random,
    /// The digest of the results.
    pub(crate) digest: Digest,
}

/// The bytes of the hashes' seed: the same for the same inputs, so that runs can be compared. A
/// server takes some that nobody can predict.
#[derive(Clone, Copy, Drop)]
struct SeedBytes {
    byte: u8,
}

impl RandomSource for SeedBytes {
    fn fill_bytes(&self, bytes: &mut [u8]) -> io::Result<()> {
        bytes.fill(self.byte);
        Ok(())
    }
}

impl Bench {
    /// The means for the inputs of a seed.
    pub(crate) fn new(alloc: Global, seed: u64) -> anyhow::Result<Bench> {
        let bytes = SeedBytes {
            byte: (seed % 256) as u8,
        };
        Ok(Bench {
            alloc,
            seed: RandomState::new(&bytes)?,
            random: Random::new(seed),
            digest: Digest::new(),
        })
    }
}

/// Adds a refusal.
pub(crate) fn add_refusal(digest: &mut Digest, refusal: Refusal) {
    match refusal {
        Refusal::Syntax {
            place,
            found,
            expected,
            may_end,
        } => {
            digest.number(place);
            digest.number(found.map_or(256, |byte| u64::from(byte)));
            digest.number((expected >> 64) as u64);
            digest.number((expected % (1 << 64)) as u64);
            digest.number(u64::from(may_end));
        }
        Refusal::OutOfMemory => digest.number(1 << 32),
        Refusal::TooLong { max } => digest.number(max),
        Refusal::ReadFault { place } => digest.number(place),
    }
}
