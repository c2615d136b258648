//! A canonical text that is gathered in memory of exactly its length.
ghost use Rattle.std.specs.Prelude.{◌≡◌, ◌++◌, [], Some, MatchResult, IfOk, true, false};
ghost use Rattle.sf_write.specs.Gathered.{bytes_of};

use crate::length::field_len;
use sf_value::{Failed, Field, OutOfMemory, Sink};
use std::alloc::Global;
use std::marker::Model;

/// The number of bytes that are gathered at a time: the texts of most fields are shorter.
const BLOCK: usize = 512;

/// The last bytes of a text, on the stack.
#[derive(Drop)]
pub(crate) struct Block {
    bytes: [u8; BLOCK],
    len: usize,
}

impl Model for Block {
    ghost use Rattle.std.specs.Prelude.{ℕ, List, ◌≤◌, take};

    ghost Value = { List ℕ };

    ghost view = { λ b. take b.len b.bytes };

    ghost invariant = { λ b. b.len ≤ 512 };
}

impl Block {
    /// No bytes.
    fn new() -> Block
        ensures { result ≡ [] }
    {
        Block {
            bytes: [0; BLOCK],
            len: 0,
        }
    }

    /// Adds bytes at the end if they fit in the block, and returns whether they do.
    #[inline(always)]
    fn add(&mut self, bytes: &[u8]) -> bool
        ensures added { result ≡ true → self.new ≡ self.old ++ bytes.now }
        ensures same { result ≡ false → self.new ≡ self.old }
    {
        if bytes.len() > BLOCK - self.len {
            return false;
        }
        let end = self.len + bytes.len();
        self.bytes[self.len..end].copy_from_slice(bytes);
        self.len = end;
        true
    }

    /// The bytes.
    fn as_slice(&self) -> &[u8]
        ensures { result.now ≡ self.now }
    {
        &self.bytes[..self.len]
    }

    /// Removes all bytes.
    fn clear(&mut self)
        ensures { self.new ≡ [] }
    {
        self.len = 0;
    }
}

/// The canonical text of a field, as far as it was written. Its last bytes are in a block on the
/// stack, and those before them in memory of the length of the text. So a text that fits in one
/// block need not be measured before it is written.
#[derive(Drop)]
pub(crate) struct Gathered<'a> {
    alloc: Global,
    field: &'a Field,
    text: Vec<u8>,
    block: Block,
    failures: u64,
}

impl<'a> Gathered<'a> {
    /// The text of this field, of which nothing was written yet. It does not allocate.
    pub(crate) fn new(alloc: Global, field: &'a Field) -> Gathered<'a>
        ensures empty { bytes_of result ≡ [] }
        ensures failures { result.failures ≡ 0 }
    {
        Gathered {
            alloc,
            field,
            text: Vec::new(alloc),
            block: Block::new(),
            failures: 0,
        }
    }

    /// The bytes, in memory of their length, provided that all of the text was written and its
    /// length was computed right.
    #[inline(always)]
    pub(crate) fn into_text(self) -> Result<Vec<u8>, OutOfMemory>
        ensures { IfOk result (λ text. text.items ≡ bytes_of self.entry) }
    {
        let Gathered {
            alloc,
            field: _,
            mut text,
            block,
            failures: _,
        } = self;
        if text.is_empty() {
            return Ok(Vec::from_slice(alloc, block.as_slice())?);
        }
        text.extend_from_slice(block.as_slice())?;
        Ok(text)
    }

    /// Moves the block to memory, and adds these bytes. If an allocation fails, no byte is added.
    /// It is not inlined, since it is rare: a block takes many parts of a text.
    #[inline(never)]
    fn add_after_block(&mut self, bytes: &[u8]) -> Result<(), OutOfMemory>
        ensures added { MatchResult result
            (λ _. bytes_of self.new ≡ bytes_of self.old ++ bytes.now)
            (λ _. bytes_of self.new ≡ bytes_of self.old) }
        ensures failures { self.new.failures ≡ self.old.failures }
    {
        if self.text.is_empty() {
            self.text = Vec::with_capacity(self.alloc, field_len(self.field))?;
        }
        self.text.extend_from_slice(self.block.as_slice())?;
        self.block.clear();
        if !self.block.add(bytes) {
            self.text.extend_from_slice(bytes)?;
        }
        Ok(())
    }
}

impl Sink for Gathered<'_> {
    ghost state = { λ g. record { taken = Some (bytes_of g); failures = g.failures } };

    #[inline]
    fn send(&mut self, bytes: &[u8]) -> Result<usize, Failed> {
        if self.block.add(bytes) {
            return Ok(bytes.len());
        }
        // An empty slice always fits, but the proof does not know it.
        if bytes.is_empty() {
            return Ok(0);
        }
        if self.add_after_block(bytes).is_err() {
            self.failures = self.failures.saturating_add(1);
            return Err(Failed);
        }
        Ok(bytes.len())
    }
}
