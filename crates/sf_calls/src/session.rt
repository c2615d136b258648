//! What all calls share.

use crate::digest::Digest;
use crate::record::Record;
use anyhow::anyhow;
use http_header::{HeaderMap, HeaderName, HeaderValue};
use sf_parse::{Refusal, parse_text};
use sf_value::Field;
use std::alloc::Global;
use std::hash::RandomState;
use std::io;
use std::random::RandomSource;

/// The means of the calls, and the digest of their results.
#[derive(Drop)]
pub(crate) struct Session {
    /// The allocator.
    pub(crate) alloc: Global,
    /// The seed of the hashes.
    pub(crate) seed: RandomState,
    /// Another seed.
    pub(crate) other_seed: RandomState,
    /// The digest of the results.
    pub(crate) digest: Digest,
}

/// The bytes of a seed. A server takes some that nobody can predict; these are known, so that keys
/// of one hash can be made.
#[derive(Clone, Copy, Drop)]
struct SeedBytes {
    byte: u8,
}

impl RandomSource for SeedBytes {
    fn fill_bytes(&self, bytes: &mut [u8]) -> io::Result<()> {
        bytes.fill(self.byte);
        Ok(())
    }
}

impl Session {
    /// The means of all calls.
    pub(crate) fn new(alloc: Global) -> anyhow::Result<Session> {
        Ok(Session {
            alloc,
            seed: RandomState::new(&SeedBytes { byte: 1 })?,
            other_seed: RandomState::new(&SeedBytes { byte: 2 })?,
            digest: Digest::new(),
        })
    }

    /// Marks where the calls of a record begin. What counts instructions looks for its name.
    #[inline(never)]
    pub(crate) fn calls_begin(&mut self) {
        self.digest.number(1);
    }

    /// Marks where they end.
    #[inline(never)]
    pub(crate) fn calls_end(&mut self) {
        self.digest.number(2);
    }

    /// The value of the record's text, which is accepted.
    pub(crate) fn value_of(&self, record: &Record) -> anyhow::Result<Field> {
        match parse_text(self.alloc, &self.seed, record.kind, record.text) {
            Ok(field) => Ok(field),
            Err(refusal) => Err(anyhow!("{refusal}")),
        }
    }

    /// The header map in which each line of a text is a value of this name.
    pub(crate) fn headers_of(
        &self,
        record: &Record,
        name: HeaderName,
    ) -> anyhow::Result<HeaderMap> {
        let mut headers = HeaderMap::with_hasher(self.alloc, self.seed);
        for line in record.text.split(|byte| *byte == b'\n') {
            let mut value = Vec::new(self.alloc);
            value.extend_from_slice(line)?;
            headers.append(name.clone()?, HeaderValue::from_vec(value)?)?;
        }
        Ok(headers)
    }

    /// Adds the number of members, or the refusal.
    pub(crate) fn add_parsed(&mut self, parsed: Result<Field, Refusal>) -> anyhow::Result<()> {
        match parsed {
            Ok(field) => {
                self.digest.number(count_of(&field));
                Ok(())
            }
            Err(refusal) => self.add_refusal(refusal),
        }
    }

    /// Adds the length of a text, or the refusal.
    pub(crate) fn add_text(&mut self, made: Result<Vec<u8>, Refusal>) -> anyhow::Result<()> {
        match made {
            Ok(text) => {
                self.digest.bytes(text.as_slice());
                Ok(())
            }
            Err(refusal) => self.add_refusal(refusal),
        }
    }

    /// Adds a refusal. Out of memory is none: it ends the program.
    pub(crate) fn add_refusal(&mut self, refusal: Refusal) -> anyhow::Result<()> {
        match refusal {
            Refusal::Syntax { place, .. } => self.digest.number(place),
            Refusal::TooLong { max } => self.digest.number(max),
            Refusal::ReadFault { place } => self.digest.number(place),
            Refusal::OutOfMemory => return Err(anyhow!("out of memory")),
        }
        Ok(())
    }
}

/// The number of members, or of the parameters of an Item.
pub(crate) fn count_of(field: &Field) -> u64 {
    match field {
        Field::Item(item) => item.params.len() as u64,
        Field::List(list) => list.members.len() as u64,
        Field::Dict(dict) => dict.members.len() as u64,
    }
}
