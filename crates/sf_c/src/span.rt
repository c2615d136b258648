//! A range of the caller's bytes.
ghost use Rattle.std.specs.Prelude.{◌≡◌, ◌<◌, ◌^◌, MatchOption};
ghost use Rattle.sf_c.specs.Hops.{end_of};
ghost use Rattle.sf_c.specs.Spans.{IsSpanWithin, span_bytes};

/// A range of the caller's bytes. In C an `sf_span`.
#[repr(C)]
#[derive(Clone, Copy, Debug, Drop)]
pub struct Span {
    /// The offset of its first byte.
    pub at: usize,
    /// The number of its bytes.
    pub length: usize,
}

impl Span {
    /// Returns where the span ends.
    pub(crate) fn end(&self) -> usize
        requires { end_of self.now < 2 ^ 64 }
        ensures { result ≡ end_of self.now }
    {
        self.at + self.length
    }

    /// Returns the bytes of the span, or `None` if it is not within these.
    pub(crate) fn of<'a>(&self, bytes: &'a [u8]) -> Option<&'a [u8]>
        // The bytes are there, or the span is not within them.
        ensures { MatchOption result (IsSpanWithin bytes.now self.now → ⊥)
            (λ part. IsSpanWithin bytes.now self.now
            × (part.now ≡ span_bytes bytes.now self.now)) }
    {
        if self.at > bytes.len() || self.length > bytes.len() - self.at {
            return None;
        }
        Some(&bytes[self.at..self.at + self.length])
    }
}
