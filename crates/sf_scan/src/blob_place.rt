//! The places in a Byte Sequence (RFC 9651 section 4.2.7).
ghost use Rattle.std.specs.Prelude.{◌≡◌};
ghost use Rattle.sf_value.specs.Ascii.{colon};
ghost use Rattle.sf_scan.specs.Blobs.{in_blob, padded as padded_place};
ghost use Rattle.sf_scan.specs.Sets.{Marks};

use crate::byte_sets::{BASE64, COLON, EQUALS};

/// A place in a Byte Sequence, after its opening colon. Four characters of base64 are a group; `=`
/// may complete the last one.
#[derive(Clone, Copy)]
pub enum BlobPlace {
    /// After whole groups, of which there may be none.
    Whole,
    /// After the first character of a group.
    One,
    /// After the second character of a group.
    Two,
    /// After the third character of a group.
    Three,
    /// After an `=` that one more may follow.
    Pad,
    /// After the last `=` that the group may have.
    Padded,
}

impl BlobPlace {
    /// The bytes below 128 that may come, a bit for each.
    pub fn expected(self) -> u128
        ensures { Marks result (in_blob self) }
    {
        match self {
            BlobPlace::Whole => BASE64 | COLON,
            BlobPlace::One => BASE64,
            BlobPlace::Two => BASE64 | COLON | EQUALS,
            BlobPlace::Three => BASE64 | COLON | EQUALS,
            BlobPlace::Pad => COLON | EQUALS,
            BlobPlace::Padded => COLON,
        }
    }

    /// The place after an `=`; `None` if none may come.
    pub fn padded(self) -> Option<BlobPlace>
        ensures { result ≡ padded_place self }
    {
        match self {
            BlobPlace::Two => Some(BlobPlace::Pad),
            BlobPlace::Three | BlobPlace::Pad => Some(BlobPlace::Padded),
            BlobPlace::Whole | BlobPlace::One | BlobPlace::Padded => None,
        }
    }

    /// Whether the closing colon may come.
    pub fn may_close(self) -> bool
        ensures { result ≡ in_blob self colon }
    {
        !matches!(self, BlobPlace::One)
    }
}
