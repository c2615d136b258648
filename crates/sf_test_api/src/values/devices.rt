use sf_value::{Failed, Reading, Sink, Source, Writing};
use std::io;
use std::io::{Read, Write};

// Gives one byte a call, and fails at its second.
#[derive(Drop)]
struct Halting<'a> {
    rest: &'a [u8],
    calls: u64,
}

impl Read for Halting<'_> {
    fn read(&mut self, buf: &mut [u8]) -> io::Result<usize> {
        self.calls = self.calls.saturating_add(1);
        if self.calls == 2 {
            return Err(io::Error::from(io::ErrorKind::Interrupted));
        }
        let most = buf.len().min(1);
        self.rest.read(&mut buf[..most])
    }
}

// Takes one byte a call, fails at its second, and takes none at its third. It counts its flushes.
#[derive(Drop)]
struct Stubborn {
    taken: Vec<u8>,
    calls: u64,
    flushes: u64,
}

impl Write for Stubborn {
    fn write(&mut self, buf: &[u8]) -> io::Result<usize> {
        self.calls = self.calls.saturating_add(1);
        if self.calls == 2 {
            return Err(io::Error::from(io::ErrorKind::Interrupted));
        }
        if self.calls == 3 {
            return Ok(0);
        }
        let Some(first) = buf.first() else {
            return Ok(0);
        };
        self.taken.push(*first)?;
        Ok(1)
    }

    fn flush(&mut self) -> io::Result<()> {
        self.flushes = self.flushes.saturating_add(1);
        Ok(())
    }
}

/// How many bytes a source gave, how often it ended, and how often it failed.
fn counts<R: Read>(source: &Reading<R>) -> [u64; 3] {
    [source.given(), source.ends(), source.failures()]
}

#[test]
fn readers_are_sources(rt: HostRuntime) {
    let mut block = [0u8; 4];
    let mut source = Reading::new(b"abcde".as_slice());
    for &(answer, held, wanted) in &[
        (Ok(4), b"abcd", [4, 0, 0]),
        (Ok(1), b"ebcd", [5, 0, 0]),
        (Ok(0), b"ebcd", [5, 1, 0]),
        (Ok(0), b"ebcd", [5, 2, 0]),
    ] {
        assert!(rt; source.pull(&mut block) == answer && block == *held);
        assert_eq!(rt; counts(&source), wanted);
    }
    assert!(rt; source.into_inner().is_empty());
}

#[test]
fn failed_reads_are_counted(rt: HostRuntime) {
    let mut block = [0u8; 4];
    let mut source = Reading::new(Halting {
        rest: b"xyz",
        calls: 0,
    });
    for &(answer, wanted) in &[
        (Ok(1), [1, 0, 0]),
        (Err(Failed), [1, 0, 1]),
        (Ok(1), [2, 0, 1]),
    ] {
        assert!(rt; source.pull(&mut block) == answer);
        assert_eq!(rt; counts(&source), wanted);
    }
    let reader = source.into_inner();
    assert!(rt; block[0] == b'y' && reader.rest == b"z".as_slice() && reader.calls == 3);
}

#[test]
fn writers_are_sinks(rt: HostRuntime) {
    let mut sink = Writing::new(Vec::new(rt.alloc()));
    assert!(rt; sink.send(b"ab") == Ok(2));
    assert!(rt; sink.send(b"c") == Ok(1) && sink.failures() == 0);
    assert!(rt; sink.into_inner().as_slice() == b"abc".as_slice());
}

#[test]
fn failed_writes_are_counted(rt: HostRuntime) {
    let mut sink = Writing::new(Stubborn {
        taken: Vec::new(rt.alloc()),
        calls: 0,
        flushes: 0,
    });
    for &(answer, failures) in &[(Ok(1), 0), (Err(Failed), 1), (Err(Failed), 2), (Ok(1), 2)] {
        assert!(rt; sink.send(b"xy") == answer && sink.failures() == failures);
    }
    let writer = sink.into_inner();
    assert!(rt; writer.taken.as_slice() == b"xx".as_slice());
    assert!(rt; writer.calls == 4 && writer.flushes == 0);
}

/// A pull into an empty block is no call of the device.
#[test]
fn a_pull_of_nothing_is_no_call(rt: HostRuntime) {
    let mut source = Reading::new(Halting {
        rest: b"xyz",
        calls: 1,
    });
    assert!(rt; source.pull(&mut []) == Ok(0) && counts(&source) == [0, 0, 0]);
    assert!(rt; source.into_inner().calls == 1);
}

/// Nor is a send of no bytes.
#[test]
fn a_send_of_nothing_is_no_call(rt: HostRuntime) {
    let mut sink = Writing::new(Stubborn {
        taken: Vec::new(rt.alloc()),
        calls: 1,
        flushes: 0,
    });
    assert!(rt; sink.send(b"") == Ok(0) && sink.failures() == 0);
    let writer = sink.into_inner();
    assert!(rt; writer.calls == 1 && writer.flushes == 0);
}
