//! Texts from a reader.
ghost use Rattle.sf_value.specs.declared.dialect.Dialect.TheVariants.{Rfc9651};
ghost use Rattle.sf_parse.specs.Reading.{ReadAndParsed};

use crate::parser::Parser;
use crate::refusal::Refusal;
use sf_value::{Field, Kind, Source};
use std::alloc::Global;
use std::hash::RandomState;

/// Returns the value that the reader's text spells, in the dialect of RFC 9651. It reads at most
/// `max` + 1 bytes, in blocks of at most 512, repeats no read that failed, and does not read after
/// the reader's end. The result is the first of these that applies to the bytes read: Syntax with a
/// found byte if the first `max` bytes are no viable prefix; ReadFault if a read failed; TooLong if
/// there were more than `max` bytes; otherwise, at the reader's end, the value, or Syntax without a
/// found byte. If an allocation fails before, it is OutOfMemory, but not for a text for which
/// [`crate::parse_text`] does not allocate.
///
/// ```
/// let mut source = Reading::new(b"u=1, i".as_slice());
/// let field = parse_reader(alloc, &seed, Kind::Dict, 1000, &mut source)?;
/// ```
pub fn parse_reader<R: Source>(
    alloc: Global,
    seed: &RandomState,
    kind: Kind,
    max: u64,
    reader: &mut R,
) -> Result<Field, Refusal>
    // The result is that of the bytes read, of which there is at most one more than the limit.
    ensures { ReadAndParsed Rfc9651 kind (R.state reader.old) (R.state reader.new) max result }
{
    let limit = max.saturating_add(1);
    let mut parser = Parser::new(alloc, seed, kind, max);
    let mut block = [0u8; 512];
    let mut given = 0u64;
    while given < limit {
        let length = (limit - given).min(512) as usize;
        match reader.pull(&mut block[..length]) {
            Ok(0) => break,
            Ok(n) => {
                parser.feed(&block[..n])?;
                given += n as u64;
            }
            Err(_) => return Err(Refusal::ReadFault { place: given }),
        }
    }
    parser.finish()
}
