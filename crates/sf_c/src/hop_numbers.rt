//! The numbers in the struct of a hop, an `sf_outcome` and an `sf_forward` of `include/sf.h`.

/// The outcome of a cache that says neither `hit` nor `fwd`.
pub(crate) const UNSAID: u16 = 0;

/// The outcome of a hit.
pub(crate) const HIT: u16 = 1;

/// The outcome of a cache that forwarded the request: `fwd` is present.
pub(crate) const FORWARDED: u16 = 2;

/// The outcome of a cache that says both.
pub(crate) const CONFLICT: u16 = 3;

/// There is no reason: `fwd` is absent.
pub(crate) const NO_FORWARD: u16 = 0;

/// The reason `bypass`.
pub(crate) const BYPASS: u16 = 1;

/// The reason `method`.
pub(crate) const METHOD: u16 = 2;

/// The reason `uri-miss`.
pub(crate) const URI_MISS: u16 = 3;

/// The reason `vary-miss`.
pub(crate) const VARY_MISS: u16 = 4;

/// The reason `miss`.
pub(crate) const MISS: u16 = 5;

/// The reason `request`.
pub(crate) const REQUEST: u16 = 6;

/// The reason `stale`.
pub(crate) const STALE: u16 = 7;

/// The reason `partial`.
pub(crate) const PARTIAL: u16 = 8;

/// A reason with another token.
pub(crate) const OTHER: u16 = 9;
