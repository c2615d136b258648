//! Numbers that depend on a seed alone.
ghost use Rattle.std.specs.Prelude.{◌<◌};

/// A source of numbers: a counter whose values are mixed, as in SplitMix64.
#[derive(Drop)]
pub(crate) struct Random {
    state: u64,
}

impl Random {
    /// The source of a seed. The seed is mixed, so that the numbers of two seeds are not the same but
    /// for some at the beginning.
    pub(crate) fn new(seed: u64) -> Random {
        let mut source = Random { state: seed };
        Random {
            state: source.next(),
        }
    }

    /// The next number.
    pub(crate) fn next(&mut self) -> u64 {
        self.state = self.state.wrapping_add(0x9e37_79b9_7f4a_7c15);
        let mixed = (self.state ^ (self.state >> 30)).wrapping_mul(0xbf58_476d_1ce4_e5b9);
        let mixed = (mixed ^ (mixed >> 27)).wrapping_mul(0x94d0_49bb_1331_11eb);
        mixed ^ (mixed >> 31)
    }

    /// A number below `n`, or 0 if `n` is 0.
    pub(crate) fn below(&mut self, n: u64) -> u64
        ensures { 0 < n → result < n }
    {
        self.next() % n.max(1)
    }

    /// Whether one of `n` throws hits.
    pub(crate) fn one_in(&mut self, n: u64) -> bool {
        self.below(n) == 0
    }

    /// One of the words, or none of no words.
    pub(crate) fn word(&mut self, words: &[&'static [u8]]) -> &'static [u8] {
        let place = self.below(words.len() as u64) as usize;
        match words.get(place) {
            Some(word) => word,
            None => b"",
        }
    }
}
