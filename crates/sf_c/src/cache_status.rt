//! Cache-Status (RFC 9211).
ghost use Rattle.std.specs.Prelude.{◌≡◌, is_some, unwrap_or, Some};
ghost use Rattle.sf_value.specs.declared.dialect.Dialect.TheVariants.{Rfc9651};
ghost use Rattle.sf_value.specs.declared.value.Kind.TheVariants as kind_is;
ghost use Rattle.sf_value.specs.Grammar.Fields.{kind_of};
ghost use Rattle.sf_c.specs.Calls.{ChecksDialect, dialect_at};
ghost use Rattle.sf_c.specs.Paths.{NamesCaches, SaysFew, ReportsPath};
ghost use Rattle.sf_c.specs.Refusals.{flag_number};
ghost use Rattle.sf_c.specs.Statuses.{status_at};

use crate::call::{Scan, dialect_of, parse};
use crate::hop_scan::scan_hops;
use crate::hops::{HopNode, flatten_hops};
use crate::laws::hops_are_few;
use crate::refusal::SyntaxRefusal;
use crate::seed::Seed;
use crate::status::Status;
use sf_field::{Consumer, UseFault};
use sf_use::{CachePath, CacheStatus};
use sf_value::{Dialect, Field, Kind};
use std::alloc::Global;

/// The sizes of the path of a response, and the cache that served the response. In C an `sf_path`.
#[repr(C)]
#[derive(Clone, Copy, Debug, Drop)]
pub struct Path {
    /// The number of hops.
    pub hops: usize,
    /// The number of bytes: those of names, `fwd` tokens, keys and details.
    pub bytes: usize,
    /// The index of the hop that served the response, from 0; 0 if there is none.
    pub served: usize,
    /// The index of the first member that does not name a cache, from 0; set only by `NotACache`.
    pub nameless: usize,
    /// 1 if a hop served the response, otherwise 0.
    pub is_served: u32,
}

impl Path {
    /// Sets the sizes, and the hop that served the response.
    fn set(&mut self, hops: usize, bytes: usize, served: Option<usize>)
        ensures { self.new ≡ record {
          hops = hops;
          bytes = bytes;
          served = unwrap_or served 0;
          nameless = self.old.nameless;
          is_served = flag_number (is_some served);
        } }
    {
        self.hops = hops;
        self.bytes = bytes;
        self.served = served.unwrap_or(0);
        self.is_served = u32::from(served.is_some());
    }
}

/// The path of a response by the text of its Cache-Status field (RFC 9211 section 2), by RFC 9651,
/// the cache nearest the origin first. Returns `Answered` if the first `path.hops` hops and the
/// first `path.bytes` bytes describe it; `Short` if one of the buffers is smaller than `path` says;
/// `NotACache` if a member names no cache, with the index of the first such member in
/// `path.nameless`; `Refused` if the text spells no List, with the refusal in `refusal`; or
/// `OutOfMemory`. What else the buffers hold is unspecified.
#[unsafe(no_mangle)]
pub extern "C" fn sf_cache_status(
    alloc: Global,
    seed: &Seed,
    text: &[u8],
    hops: &mut [HopNode],
    bytes: &mut [u8],
    path: &mut Path,
    refusal: &mut SyntaxRefusal,
) -> u32
    // The buffers describe the hops of the List, or the status says why not.
    ensures reports { ChecksDialect (Some Rfc9651) (status_at result)
        (λ old new. ReportsPath old new text.now)
        (record { hops = hops.old; bytes = bytes.old; path = path.old; refusal = refusal.old })
        (record { hops = hops.new; bytes = bytes.new; path = path.new; refusal = refusal.new }) }
    // If they are reported, the hops are at most four fifths of the text's length, rounded to the
    // nearest number, and the bytes at most eight fifths.
    ensures few { SaysFew text.now path.new (status_at result) }
{
    path_of(
        alloc,
        seed,
        Dialect::Rfc9651,
        text,
        hops,
        bytes,
        path,
        refusal,
    )
    .code()
}

/// The path of a response by the text of its Cache-Status field in a dialect, as by
/// [`sf_cache_status`]; or `BadCall` for a number that is no dialect.
#[unsafe(no_mangle)]
pub extern "C" fn sf_cache_status_in(
    alloc: Global,
    seed: &Seed,
    dialect: u32,
    text: &[u8],
    hops: &mut [HopNode],
    bytes: &mut [u8],
    path: &mut Path,
    refusal: &mut SyntaxRefusal,
) -> u32
    // BadCall if and only if the number is no dialect; otherwise the buffers describe the hops of
    // the List, or the status says why not.
    ensures reports { ChecksDialect (dialect_at dialect) (status_at result)
        (λ old new. ReportsPath old new text.now)
        (record { hops = hops.old; bytes = bytes.old; path = path.old; refusal = refusal.old })
        (record { hops = hops.new; bytes = bytes.new; path = path.new; refusal = refusal.new }) }
    // If they are reported, the hops are at most four fifths of the text's length, rounded to the
    // nearest number, and the bytes at most eight fifths.
    ensures few { SaysFew text.now path.new (status_at result) }
{
    let Some(dialect) = dialect_of(dialect) else {
        return Status::BadCall.code();
    };
    path_of(alloc, seed, dialect, text, hops, bytes, path, refusal).code()
}

/// The result of [`sf_cache_status`].
fn path_of(
    alloc: Global,
    seed: &Seed,
    dialect: Dialect,
    text: &[u8],
    hops: &mut [HopNode],
    bytes: &mut [u8],
    path: &mut Path,
    refusal: &mut SyntaxRefusal,
) -> Status
    // The buffers describe the hops of the List, or the status says why not.
    ensures reports { ReportsPath
        (record { hops = hops.old; bytes = bytes.old; path = path.old; refusal = refusal.old })
        (record { hops = hops.new; bytes = bytes.new; path = path.new; refusal = refusal.new })
        text.now dialect result }
    // If they are reported, the hops are at most four fifths of the text's length, rounded to the
    // nearest number, and the bytes at most eight fifths.
    ensures few { SaysFew text.now path.new (Some result) }
{
    match scan_hops(dialect, text, hops, bytes) {
        Some(found) => {
            hops_are_few();
            let sizes = found.sizes;
            if found.is_put {
                path.set(sizes.hops, sizes.bytes, sizes.served);
                return Status::Answered;
            }
            if sizes.exceeds(hops.len(), bytes.len()) {
                path.set(sizes.hops, sizes.bytes, sizes.served);
                return Status::Short;
            }
            // Not reached, but no clause says that a path that is not put exceeds a buffer.
            return path_by_tree(alloc, seed, dialect, text, hops, bytes, path, refusal);
        }
        None => return path_by_tree(alloc, seed, dialect, text, hops, bytes, path, refusal),
    }
}

/// The result of [`sf_cache_status`] for a text that was declined, by the tree of the value. It is
/// not inlined, so that an accepted text doesn't pay for its stack.
#[inline(never)]
fn path_by_tree(
    alloc: Global,
    seed: &Seed,
    dialect: Dialect,
    text: &[u8],
    hops: &mut [HopNode],
    bytes: &mut [u8],
    path: &mut Path,
    refusal: &mut SyntaxRefusal,
) -> Status
    ensures reports { ReportsPath
        (record { hops = hops.old; bytes = bytes.old; path = path.old; refusal = refusal.old })
        (record { hops = hops.new; bytes = bytes.new; path = path.new; refusal = refusal.new })
        text.now dialect result }
    ensures few { SaysFew text.now path.new (Some result) }
{
    let field = match parse(
        alloc,
        seed,
        Scan::Declined,
        dialect,
        Kind::List,
        text,
        refusal,
    ) {
        Ok(field) => field,
        Err(status) => return status,
    };
    let caches = match caches_in(alloc, &field, path) {
        Ok(caches) => caches,
        Err(status) => return status,
    };
    let Ok(flat) = flatten_hops(alloc, caches.hops()) else {
        return Status::OutOfMemory;
    };
    hops_are_few();
    path.set(flat.count(), flat.size(), caches.served_by());
    if hops.len() < path.hops {
        return Status::Short;
    }
    if bytes.len() < path.bytes {
        return Status::Short;
    }
    flat.write(hops, bytes);
    Status::Answered
}

/// The caches that a List names.
fn caches_in(alloc: Global, field: &Field, path: &mut Path) -> Result<CachePath, Status>
    requires { kind_of field.now ≡ kind_is.List }
    // A hop for each member, or the place of the first that names no cache; out of memory only if
    // each names one.
    ensures { NamesCaches path.old path.new field.now result }
{
    match CacheStatus.answer(alloc, field) {
        Ok(caches) => Ok(caches),
        Err(UseFault::NotACache { index }) => {
            path.nameless = index;
            Err(Status::NotACache)
        }
        Err(UseFault::OutOfMemory) => Err(Status::OutOfMemory),
    }
}
