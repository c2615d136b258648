//! The devices that texts are read from and written to. Calls that read a text take a [`Source`],
//! and calls that write one a [`Sink`]; [`Reading`] and [`Writing`] make these from any reader and
//! writer.
ghost use Rattle.std.specs.Prelude.{◌≡◌, ℕ, List, ◌+◌, ◌≤◌, Some, IfOk, codes, take};
ghost use Rattle.sf_value.specs.Devices.{SourceState, SinkState, Pulls, Sends};
ghost use Rattle.sf_value.specs.Devices.{reader_of, writer_of};

use std::error::Error;
use std::fmt;
use std::io::{Read, Write};

/// The error of a read or a write: no byte was read or written, whatever the cause.
#[derive(Clone, Copy, Debug, PartialEq, Eq)]
pub struct Failed;

/// A device that bytes are read from.
///
/// Contracts see a device through its `state`: the bytes that remain, or that it does not
/// show them; how many bytes it returned; how many calls returned the end; and how many calls
/// failed. A count that reaches 2^64 - 1 stays there.
///
/// ```
/// let mut block = [0; 512];
/// let count = source.pull(&mut block)?; // the first `count` bytes of the block; 0 at the end
/// ```
pub trait Source {
    // The bytes that remain, if it shows them, how many bytes it returned, how many calls returned
    // the end, and how many failed.
    ghost state: { Self → SourceState };

    /// Puts the next bytes at the start of the block, and returns how many. If the block is not
    /// empty, it returns 0 only if no byte is left. If the block is empty, it returns 0 and does
    /// not fail. A call that returns `Failed` has read no byte, and after it the source may no
    /// longer show its bytes.
    fn pull(&mut self, block: &mut [u8]) -> Result<usize, Failed>
        ensures { Pulls (state self.old) (state self.new) result block.new };
}

/// A device that bytes are written to.
///
/// Contracts see a device through its `state`: the bytes written, or that it does not show
/// them; and how many calls failed, a count that stays at 2^64 - 1 once it reaches that. A device
/// that does not show its bytes may state by `send_gives` how a call that wrote some changed it.
///
/// ```
/// let count = sink.send(b"a, b")?; // how many of the four bytes were written
/// ```
pub trait Sink {
    // The bytes written, if it shows them, and how many calls failed.
    ghost state: { Self → SinkState };

    // How a call that wrote these bytes changed the sink, beyond its state; nothing by default.
    ghost send_gives: { Self → List ℕ → Self → Type 0 } = { λ _ _ _. Unit {0} };

    /// Writes bytes from the start of `bytes`, and returns how many: at least one, unless `bytes`
    /// is empty; then it does not fail. A call that returns `Failed` has written no byte.
    fn send(&mut self, bytes: &[u8]) -> Result<usize, Failed>
        ensures sends { Sends (state self.old) (state self.new) result bytes.now }
        ensures gives { IfOk result (λ n. send_gives self.old (take n bytes.now) self.new) };
}

/// Any reader as a source. No read is repeated, whatever its error, and an empty block makes no
/// read.
///
/// ```
/// let mut source = Reading::new(b"u=1, i".as_slice());
/// let field = parse_reader(alloc, &seed, Kind::Dict, 1000, &mut source)?;
/// ```
#[derive(Debug, Drop)]
pub struct Reading<R> {
    reader: R,
    given: u64,
    ends: u64,
    failures: u64,
}

/// Any writer as a sink. No write is repeated, whatever its error, and an empty slice makes no
/// write; a write that returns 0 is `Failed`. It does not flush.
///
/// ```
/// let mut out = Writing::new(Vec::new(alloc));
/// write_field(&field, &mut out)?;
/// let text = out.into_inner();
/// ```
#[derive(Debug, Drop)]
pub struct Writing<W> {
    writer: W,
    failures: u64,
}

impl<R: Read> Reading<R> {
    /// The source of this reader's bytes, with its counts at 0. It does not allocate.
    pub fn new(reader: R) -> Reading<R>
        // The bytes that remain are the reader's, and all counts are 0.
        ensures state { ⟦<Reading<R> as Source>⟧.state result
            ≡ record { to_come = R.remaining reader; given = 0; ends = 0; failures = 0 } }
        // The reader is the one that was passed in, unchanged.
        ensures reader { reader_of result ≡ reader }
    {
        Reading {
            reader,
            given: 0,
            ends: 0,
            failures: 0,
        }
    }

    /// How many bytes it returned so far, up to 2^64 - 1. It does not allocate.
    pub fn given(&self) -> u64
        ensures { result ≡ (⟦<Reading<R> as Source>⟧.state self.now).given }
    {
        self.given
    }

    /// How many calls returned the reader's end so far, up to 2^64 - 1. It does not allocate.
    pub fn ends(&self) -> u64
        ensures { result ≡ (⟦<Reading<R> as Source>⟧.state self.now).ends }
    {
        self.ends
    }

    /// How many calls failed so far, up to 2^64 - 1. It does not allocate.
    pub fn failures(&self) -> u64
        ensures { result ≡ (⟦<Reading<R> as Source>⟧.state self.now).failures }
    {
        self.failures
    }

    /// The reader, as the calls so far left it. It does not allocate.
    pub fn into_inner(self) -> R
        // The bytes that remain are those of the source.
        ensures to_come { R.remaining result ≡ (⟦<Reading<R> as Source>⟧.state self).to_come }
        // It is the reader of this source.
        ensures reader { result ≡ reader_of self }
    {
        let Reading {
            reader,
            given: _,
            ends: _,
            failures: _,
        } = self;
        reader
    }
}

impl<W: Write> Writing<W> {
    /// The sink that passes its bytes to this writer, with the count of failed calls at 0. It does
    /// not allocate.
    pub fn new(writer: W) -> Writing<W>
        // The bytes taken are those of the writer, and no failure is counted yet.
        ensures state { ⟦<Writing<W> as Sink>⟧.state result
            ≡ record { taken = W.contents writer; failures = 0 } }
        // The writer is the one that was passed in, unchanged.
        ensures writer { writer_of result ≡ writer }
    {
        Writing {
            writer,
            failures: 0,
        }
    }

    /// How many calls failed so far, up to 2^64 - 1. It does not allocate.
    pub fn failures(&self) -> u64
        ensures { result ≡ (⟦<Writing<W> as Sink>⟧.state self.now).failures }
    {
        self.failures
    }

    /// The writer, as the calls so far left it. It does not allocate.
    pub fn into_inner(self) -> W
        // The writer has the bytes taken.
        ensures taken { W.contents result ≡ (⟦<Writing<W> as Sink>⟧.state self).taken }
        // It is the writer of this sink.
        ensures writer { result ≡ writer_of self }
    {
        let Writing {
            writer,
            failures: _,
        } = self;
        writer
    }
}

impl fmt::Display for Failed {
    ghost output = { λ _. Some (codes "a device failed") };

    fn fmt<W: fmt::Write>(&self, f: &mut fmt::Formatter<W>) -> fmt::Result {
        write!(f, "a device failed")
    }
}

impl Error for Failed {}

impl<R: Read> Source for Reading<R> {
    ghost state = { λ r. record {
      to_come = R.remaining r.reader;
      given = r.given;
      ends = r.ends;
      failures = r.failures;
    } };

    fn pull(&mut self, block: &mut [u8]) -> Result<usize, Failed> {
        if block.is_empty() {
            return Ok(0);
        }
        match self.reader.read(block) {
            Ok(0) => {
                self.ends = self.ends.saturating_add(1);
                Ok(0)
            }
            Ok(n) => {
                self.given = self.given.saturating_add(n as u64);
                Ok(n)
            }
            Err(_) => {
                self.failures = self.failures.saturating_add(1);
                Err(Failed)
            }
        }
    }
}

impl<W: Write> Sink for Writing<W> {
    ghost state = { λ w. record { taken = W.contents w.writer; failures = w.failures } };

    fn send(&mut self, bytes: &[u8]) -> Result<usize, Failed> {
        if bytes.is_empty() {
            return Ok(0);
        }
        match self.writer.write(bytes) {
            Ok(n) if n > 0 => Ok(n),
            _ => {
                self.failures = self.failures.saturating_add(1);
                Err(Failed)
            }
        }
    }
}
