//! Parts of texts: each is appended to a text.

use crate::random::Random;
use itoa::Buffer;
use sf_value::OutOfMemory;

/// The characters of base64.
const BASE64: &[u8; 64] = b"ABCDEFGHIJKLMNOPQRSTUVWXYZabcdefghijklmnopqrstuvwxyz0123456789+/";

/// Appends a number in decimal.
pub(crate) fn put_number(text: &mut Vec<u8>, number: u64) -> Result<(), OutOfMemory> {
    text.extend_from_slice(Buffer::new().format(number).as_bytes())?;
    Ok(())
}

/// Appends a part and a number.
pub(crate) fn put_numbered(
    text: &mut Vec<u8>,
    part: &[u8],
    number: u64,
) -> Result<(), OutOfMemory> {
    text.extend_from_slice(part)?;
    put_number(text, number)
}

/// Appends characters of base64 for so many groups of three bytes.
pub(crate) fn put_base64(
    text: &mut Vec<u8>,
    random: &mut Random,
    groups: u64,
) -> Result<(), OutOfMemory> {
    for _ in 0..groups {
        let mut bits = random.next();
        let mut group = [0u8; 4];
        for place in 0..4usize {
            group[place] = BASE64[(bits % 64) as usize];
            bits /= 64;
        }
        text.extend_from_slice(&group)?;
    }
    Ok(())
}

/// Appends a part `times` times.
pub(crate) fn put_times(text: &mut Vec<u8>, part: &[u8], times: u64) -> Result<(), OutOfMemory> {
    for _ in 0..times {
        text.extend_from_slice(part)?;
    }
    Ok(())
}
