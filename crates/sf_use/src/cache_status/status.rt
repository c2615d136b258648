//! The status code of the response to a forwarded request.
ghost use Rattle.std.specs.Prelude.{◌≡◌, ◌↔◌, IsOk, IfOk};
ghost use Rattle.sf_use.specs.Ranges.{IsHopStatus, is_valid_status};

use sf_value::OutOfRange;
use std::marker::Model;

/// The greatest valid status code (RFC 9110 section 15).
const GREATEST_VALID: u16 = 599;

/// A status code of three digits, from 100 to 999, of the next hop's response to a forwarded
/// request (RFC 9211 section 2.3; RFC 9110 section 15). Contracts see the number.
///
/// ```
/// let status = HopStatus::new(304)?;
/// HopStatus::new(99) // Err(OutOfRange)
/// ```
#[derive(Clone, Copy, Debug, PartialEq, Eq)]
pub struct HopStatus {
    code: u16,
}

impl Model for HopStatus {
    ghost use Rattle.std.specs.Prelude.{ℕ};
    ghost use Rattle.sf_use.specs.Ranges.{IsHopStatus};

    ghost Value = { ℕ };

    ghost view = { λ s. s.code };

    ghost invariant = { λ s. IsHopStatus s.code };

    ghost inverse = { λ n. record { code = n } };
}

impl HopStatus {
    /// Returns the status of a code of three digits, or `OutOfRange` if it doesn't have three. Does
    /// not allocate.
    pub fn new(code: u16) -> Result<HopStatus, OutOfRange>
        ensures range { IsOk result ↔ IsHopStatus code }
        ensures code { IfOk result (λ status. status ≡ code) }
    {
        if 100 <= code && code <= 999 {
            Ok(HopStatus { code })
        } else {
            Err(OutOfRange)
        }
    }

    /// Returns whether the code is a valid one, from 100 to 599. RFC 9110 section 15 calls others
    /// invalid; those from 600 to 999 are often used within a program. Does not allocate.
    ///
    /// ```
    /// HopStatus::new(600)?.is_valid() // false
    /// ```
    pub fn is_valid(&self) -> bool
        ensures { result ≡ is_valid_status self.now }
    {
        100 <= self.code && self.code <= GREATEST_VALID
    }

    /// Returns the code. Does not allocate.
    pub fn get(&self) -> u16
        ensures code { result ≡ self.now }
        ensures range { IsHopStatus self.now }
    {
        self.code
    }
}

/// Converts as [`HopStatus::new`] does.
impl TryFrom<u16> for HopStatus {
    type Error = OutOfRange;

    ghost use Rattle.std.specs.Result.{OkIff};
    ghost use Rattle.sf_use.specs.Ranges.{IsHopStatus};

    ghost try_from_gives = { λ n r. OkIff r (IsHopStatus n) n };

    fn try_from(code: u16) -> Result<HopStatus, OutOfRange> {
        HopStatus::new(code)
    }
}
