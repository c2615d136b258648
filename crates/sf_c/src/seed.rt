//! The caller's seed for the hashes of keys.
ghost use Rattle.std.specs.Prelude.{◌≡◌, ◌++◌, length, min, take, drop, IsOk};

use std::hash::RandomState;
use std::io;
use std::random::RandomSource;

/// Sixteen bytes from a source that attackers can't predict. Attackers choose the keys of a text,
/// and if they can predict the hashes, look-ups become slow. No result depends on the seed. In C an
/// `sf_seed`.
#[repr(C)]
#[derive(Clone, Copy, Debug, Drop)]
pub struct Seed {
    /// The bytes.
    pub bytes: [u8; 16],
}

impl RandomSource for Seed {
    fn fill_bytes(&self, buf: &mut [u8]) -> io::Result<()>
        // The buffer begins with the bytes of the seed, as many of them as it holds.
        ensures bytes { buf.new
            ≡ take (min (length buf.old) 16) self.now.bytes
            ++ drop (min (length buf.old) 16) buf.old }
        ensures succeeds { IsOk result }
    {
        let count = buf.len().min(self.bytes.len());
        buf[..count].copy_from_slice(&self.bytes[..count]);
        Ok(())
    }
}

impl Seed {
    /// The initial state of the hashes of keys. It is never `None`, since filling it can't fail,
    /// but no clause says so.
    pub(crate) fn state(&self) -> Option<RandomState> {
        RandomState::new(self).ok()
    }
}
