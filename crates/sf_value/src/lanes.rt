//! Classes of bytes, tested for 16 bytes at a time.
ghost use Rattle.std.specs.Prelude.{◌≡◌, map, not};
ghost use Rattle.std.specs.Simd.Lanes.{mask_l};

use crate::classes::{
    Base64, InKey, InToken, LaneClass, NoBackslash, NoPercent, Ows, Space, UnencodedByte,
    Unescaped, Visible,
};
use std::simd::prelude::*;

impl LaneClass for InKey {
    #[inline(always)]
    fn outside(bytes: u8x16) -> u64 {
        let lower = bytes.simd_ge(u8x16::splat(b'a')) & bytes.simd_le(u8x16::splat(b'z'));
        let digits = bytes.simd_ge(u8x16::splat(b'0')) & bytes.simd_le(u8x16::splat(b'9'));
        let marks = bytes.simd_ge(u8x16::splat(b'-')) & bytes.simd_le(u8x16::splat(b'.'));
        let others = bytes.simd_eq(u8x16::splat(b'_')) | bytes.simd_eq(u8x16::splat(b'*'));
        (!(lower | digits | marks | others)).to_bitmask()
    }
}

impl LaneClass for InToken {
    #[inline(always)]
    fn outside(bytes: u8x16) -> u64 {
        let invisible = bytes.simd_lt(u8x16::splat(b'!')) | bytes.simd_gt(u8x16::splat(b'~'));
        let brackets = bytes.simd_eq(u8x16::splat(b'(')) | bytes.simd_eq(u8x16::splat(b')'));
        let braces = bytes.simd_eq(u8x16::splat(b'{')) | bytes.simd_eq(u8x16::splat(b'}'));
        let from_semicolon = bytes.simd_ge(u8x16::splat(b';')) & bytes.simd_le(u8x16::splat(b'@'));
        let from_bracket = bytes.simd_ge(u8x16::splat(b'[')) & bytes.simd_le(u8x16::splat(b']'));
        let others = bytes.simd_eq(u8x16::splat(b'"')) | bytes.simd_eq(u8x16::splat(b','));
        (invisible | brackets | braces | from_semicolon | from_bracket | others).to_bitmask()
    }
}

impl LaneClass for Visible {
    #[inline(always)]
    fn outside(bytes: u8x16) -> u64 {
        (bytes.simd_lt(u8x16::splat(b' ')) | bytes.simd_gt(u8x16::splat(b'~'))).to_bitmask()
    }
}

impl LaneClass for Unescaped {
    #[inline(always)]
    fn outside(bytes: u8x16) -> u64 {
        let invisible = bytes.simd_lt(u8x16::splat(b' ')) | bytes.simd_gt(u8x16::splat(b'~'));
        let escaped = bytes.simd_eq(u8x16::splat(b'"')) | bytes.simd_eq(u8x16::splat(b'\\'));
        (invisible | escaped).to_bitmask()
    }
}

impl LaneClass for NoBackslash {
    #[inline(always)]
    fn outside(bytes: u8x16) -> u64 {
        (bytes.simd_eq(u8x16::splat(b'"')) | bytes.simd_eq(u8x16::splat(b'\\'))).to_bitmask()
    }
}

impl LaneClass for UnencodedByte {
    #[inline(always)]
    fn outside(bytes: u8x16) -> u64 {
        let invisible = bytes.simd_lt(u8x16::splat(b' ')) | bytes.simd_gt(u8x16::splat(b'~'));
        let encoded = bytes.simd_eq(u8x16::splat(b'"')) | bytes.simd_eq(u8x16::splat(b'%'));
        (invisible | encoded).to_bitmask()
    }
}

impl LaneClass for NoPercent {
    #[inline(always)]
    fn outside(bytes: u8x16) -> u64 {
        bytes.simd_eq(u8x16::splat(b'%')).to_bitmask()
    }
}

impl LaneClass for Base64 {
    #[inline(always)]
    fn outside(bytes: u8x16) -> u64 {
        let lower = bytes.simd_ge(u8x16::splat(b'a')) & bytes.simd_le(u8x16::splat(b'z'));
        let upper = bytes.simd_ge(u8x16::splat(b'A')) & bytes.simd_le(u8x16::splat(b'Z'));
        let from_slash = bytes.simd_ge(u8x16::splat(b'/')) & bytes.simd_le(u8x16::splat(b'9'));
        let plus = bytes.simd_eq(u8x16::splat(b'+'));
        (!(lower | upper | from_slash | plus)).to_bitmask()
    }
}

impl LaneClass for Space {
    #[inline(always)]
    fn outside(bytes: u8x16) -> u64 {
        (!bytes.simd_eq(u8x16::splat(b' '))).to_bitmask()
    }
}

impl LaneClass for Ows {
    #[inline(always)]
    fn outside(bytes: u8x16) -> u64 {
        let white = bytes.simd_eq(u8x16::splat(b' ')) | bytes.simd_eq(u8x16::splat(b'\t'));
        (!white).to_bitmask()
    }
}
