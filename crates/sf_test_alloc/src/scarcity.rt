//! All memory of the process, allocated.
ghost use Rattle.std.specs.Prelude.{◌≡◌, ◌<◌, ◌≤◌, IfOk, IsTrue};

use std::alloc::{AllocError, Global};
use std::marker::Model;

/// How many blocks are held at most.
const MOST_BLOCKS: usize = 400_000;

/// How often memory can be left.
pub(crate) const SPARES: usize = 4096;

/// The length in bytes of a spare, which is the most that can be left.
const SPARE_SIZE: usize = 65_536;

/// The step in bytes in which the C library allocates memory.
pub(crate) const STEP: usize = 16;

/// The smallest blocks are taken in each of so many sizes, a step apart, and up to this one: the C
/// library keeps lists of freed blocks of just one size.
const SMALL_SIZES: usize = 64;

const LARGEST_SMALL: usize = 1032;

/// All memory of the process, held in blocks, and spares from which a little of it can be left.
/// Dropping it frees all of it. Contracts see how many blocks it holds.
#[derive(Drop)]
pub struct Scarcity {
    blocks: Vec<Vec<u8>>,
    spares: Vec<Vec<u8>>,
}

impl Model for Scarcity {
    ghost use Rattle.std.specs.Prelude.{ℕ, length};

    ghost Value = { ℕ };

    ghost view = { λ s. length s.blocks.items };
}

impl Scarcity {
    /// Reserves the spares and space for the blocks, some 280 MB of addresses of which almost none
    /// is touched; it takes no block yet. It fails if memory does not suffice.
    pub fn new(alloc: Global) -> Result<Scarcity, AllocError>
        ensures { IfOk result (λ s. s ≡ 0) }
    {
        if touch_stack(1) > 0 {
            return Err(AllocError);
        }
        let blocks = Vec::with_capacity(alloc, MOST_BLOCKS)?;
        let mut spares = Vec::with_capacity(alloc, SPARES)?;
        for _ in 0..SPARES {
            spares.push(Vec::with_capacity(alloc, SPARE_SIZE)?)?;
        }
        Ok(Scarcity { blocks, spares })
    }

    /// Takes blocks of this size until one is refused.
    fn take_all(&mut self, alloc: Global, size: usize)
        ensures { self.old ≤ self.new }
    {
        for _ in self.blocks.len()..MOST_BLOCKS {
            let Ok(block) = Vec::with_capacity(alloc, size) else {
                return;
            };
            if self.blocks.push(block).is_err() {
                return;
            }
        }
    }

    /// Takes what there is, large blocks first.
    fn take_everything(&mut self, alloc: Global)
        ensures { self.old ≤ self.new }
    {
        for power in 0..34u32 {
            self.take_all(alloc, 1usize << (44 - power));
        }
        for i in 0..SMALL_SIZES {
            self.take_all(alloc, LARGEST_SMALL - STEP * i);
        }
    }

    /// Frees a spare, and takes it again but for a budget.
    fn leave_of_spare(&mut self, alloc: Global, budget: usize) -> bool
        ensures kept { self.old ≤ self.new }
        // If it returns true, it holds more blocks than before.
        ensures more { IsTrue result → self.old < self.new }
    {
        if budget > SPARE_SIZE {
            return false;
        }
        let Some(spare) = self.spares.pop() else {
            return false;
        };
        drop(spare);
        match Vec::with_capacity(alloc, SPARE_SIZE - budget) {
            Ok(block) => self.blocks.push(block).is_ok(),
            Err(_) => false,
        }
    }

    /// Takes all memory but one block of about `budget` bytes, at most 65,536. It can do so 4,096
    /// times. Returns whether it did: `false` says that memory may not be scarce.
    pub fn leave(&mut self, alloc: Global, budget: usize) -> bool
        ensures kept { self.old ≤ self.new }
        // If it returns true, it holds more blocks than before.
        ensures more { IsTrue result → self.old < self.new }
    {
        self.take_everything(alloc);
        self.leave_of_spare(alloc, budget)
            && Vec::<u8>::with_capacity(alloc, budget.saturating_add(4 * STEP)).is_err()
    }

    /// Frees all of it, the spares too.
    pub fn end(&mut self)
        ensures { self.new ≡ 0 }
    {
        self.blocks.clear();
        self.spares.clear();
    }
}

/// Uses 300,000 bytes of the stack, which then stay the process's.
#[inline(never)]
fn touch_stack(byte: u8) -> usize {
    let block = [byte; 300_000];
    block.iter().filter(|b| **b == 0).count()
}
