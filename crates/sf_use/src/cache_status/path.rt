//! The path of a response through caches.
ghost use Rattle.std.specs.Prelude.{◌≡◌};
ghost use Rattle.sf_field.specs.Meaning.{Gives};
ghost use Rattle.sf_use.specs.CacheStatus.Hops.{hops_of};

use crate::cache_status::hop::Hop;
use crate::cache_status::reading::{first_nameless, read_hops};
use crate::cache_status::scanning::scan_hops;
use sf_field::{Consumer, UseFault};
use sf_value::{Dialect, Field, Kind, Member};
use std::alloc::Global;
use std::marker::Model;

/// The caches that handled a response (RFC 9211 section 2), the one nearest the origin first.
/// Contracts see the list of the hops.
///
/// ```
/// for hop in path.hops() {
///     ..
/// }
/// path.served_by() // Some(1), if the second answered from its store
/// ```
#[derive(Debug, Drop)]
pub struct CachePath {
    hops: Vec<Hop>,
}

impl Model for CachePath {
    ghost use Rattle.std.specs.Prelude.{List};
    ghost use Rattle.sf_use.specs.declared.cache_status.hop.Hop.{Hop};

    ghost Value = { List Hop };

    ghost view = { λ p. p.hops.items };
}

/// Reads Cache-Status (RFC 9211 section 2), a List, as a [`CachePath`].
///
/// A parameter of another type than the RFC states counts as absent, and so does a `fwd-status`
/// outside 100 to 999. Parameters that the RFC does not define are ignored. A `fwd` token that it
/// does not define is [`crate::Forward::Other`].
///
/// ```
/// let path = ask(alloc, &seed, &CacheStatus, lines.as_slice())?;
/// ```
#[derive(Clone, Copy, Debug, PartialEq, Eq)]
pub struct CacheStatus;

impl CachePath {
    ghost use Rattle.sf_use.specs.CacheStatus.Served.{served, IsLastHit};

    /// Returns the hops, the one nearest the origin first. Does not allocate.
    pub fn hops(&self) -> &[Hop]
        ensures { result.now ≡ self.now }
    {
        self.hops.as_slice()
    }

    /// Returns the index of the cache that served the response, from 0: the last hop whose outcome
    /// is [`crate::Outcome::Hit`]. `None` if there is none: the response came from the origin, or
    /// the field doesn't say. Does not allocate.
    pub fn served_by(&self) -> Option<usize>
        ensures place { result ≡ served self.now }
        // The hop at this index is a hit and none after it is; None if no hop is a hit.
        ensures last { IsLastHit self.now result }
    {
        let mut last = None;
        for (index, hop) in self.hops.iter().enumerate() {
            if hop.outcome.is_hit() {
                last = Some(index);
            }
        }
        last
    }
}

impl Consumer for CacheStatus {
    ghost use Rattle.sf_value.specs.declared.value.Kind.TheVariants.{List};
    ghost use Rattle.sf_value.specs.Grammar.Fields.{kind_of};
    ghost use Rattle.sf_use.specs.CacheStatus.Hops.{hops as hops_in};

    type Answer = CachePath;

    const KIND: Kind = Kind::List;

    ghost KIND = { List };

    ghost meaning = { λ _ field. hops_in field };

    /// Returns the hops of the List. Fails with `NotACache` and the index of the first such member
    /// if a member is not an Item of a String or a Token, otherwise with `OutOfMemory` if an
    /// allocation fails: all names are checked first, which does not allocate.
    fn answer(&self, alloc: Global, field: &Field) -> Result<CachePath, UseFault>
        requires { kind_of field.now ≡ List }
        // A hop for each member, or the index of the first that doesn't name a cache; out of memory
        // only if each does.
        ensures { Gives (hops_in field.now) result }
    {
        match field {
            Field::List(list) => read_path(alloc, list.members.as_slice()),
            Field::Item(_) | Field::Dict(_) => unreachable!(),
        }
    }

    /// Reads the hops in one pass over the text. `None` claims nothing: the text may spell no List,
    /// or one with a member that names no cache, or an allocation failed.
    fn answer_text(&self, alloc: Global, text: &[u8]) -> Option<CachePath> {
        self.answer_text_in(alloc, Dialect::Rfc9651, text)
    }

    /// Reads the hops in one pass over the text, as `answer_text` does, in a dialect.
    fn answer_text_in(&self, alloc: Global, dialect: Dialect, text: &[u8]) -> Option<CachePath> {
        let hops = scan_hops(alloc, dialect, text)?;
        Some(CachePath { hops })
    }
}

/// Returns the path of the members of a List.
fn read_path(alloc: Global, members: &[Member]) -> Result<CachePath, UseFault>
    // A hop for each member, or the index of the first that doesn't name a cache; out of memory
    // only if each does.
    ensures { Gives (hops_of members.now) result }
{
    if let Some(index) = first_nameless(members) {
        return Err(UseFault::NotACache { index });
    }
    let hops = read_hops(alloc, members)?;
    Ok(CachePath { hops })
}
