//! Messages that a writer has no room for: it holds the first parts of each.
use sf_parse::{Refusal, parse_text};
use sf_value::{Kind, OutOfMemory};
use std::alloc::Global;
use std::fmt;
use std::fmt::Write;
use std::hash::RandomState;
use std::process::Abort;
use std::test::Fail;

/// A writer with room for so many bytes. It takes what fits whole, and nothing else.
#[derive(Drop)]
struct Board {
    held: Vec<u8>,
    room: usize,
}

impl fmt::Write for Board {
    fn write_str(&mut self, text: &str) -> fmt::Result {
        if text.len() > self.room.saturating_sub(self.held.len()) {
            return Err(fmt::Error);
        }
        match self.held.extend_from_slice(text.as_bytes()) {
            Ok(()) => Ok(()),
            Err(_) => Err(fmt::Error),
        }
    }
}

// The kind, a text that is refused, and the parts of its message with the text, between bars.
type Row = (Kind, &'static [u8], &'static str);

static ROWS: [Row; 10] = [
    (
        Kind::Item,
        b"1 2",
        "byte |0x|3|2| '|2|'| at place |2|, expected |a space| or |the end|\nline |1|, place |2|:\n|\
         1| |2|\n| | |^",
    ),
    (
        Kind::Item,
        b"\x80\x01",
        "byte |0x|8|0| at place |0|, expected |a letter|, |a digit|, |a quote|, |`|%|`|, |`|*|`|, |`|-|\
         `|, |`|:|`|, |`|?|`|, |`|@|`| or |a space|\nline |1|, place |0|:\n|?|?|\n|^",
    ),
    (
        Kind::List,
        b"(a b",
        "the text ended at place |4|, expected |a token character|, |`|)|`|, |`|;|`| or |a space|\nline |\
         1|, place |4|:\n|(|a| |b|\n| | | | |^",
    ),
    (
        Kind::Dict,
        b"a=b, c=*=\xff",
        "byte |0x|3|d| '|=|'| at place |8|, expected |a token character|, |`|,|`|, |`|;|`|, |a tab|, |\
         a space| or |the end|\nline |1|, place |8|:\n|a|=|b|,| |c|=|*|=|?|\n| | | | | | | | |^",
    ),
    (
        Kind::Item,
        b"%\"%a",
        "byte |0x|6|1| '|a|'| at place |3|, expected |`|0|`|, |`|1|`|, |`|2|`|, |`|3|`|, |`|4|`|, |`|5|\
         `|, |`|6|`|, |`|7|`|, |`|c|`|, |`|d|`|, |`|e|`| or |`|f|`|\nline |1|, place |3|:\n|%|\"|%|a|\
         \n| | | |^",
    ),
    (
        Kind::Item,
        b"\"a\x01",
        "byte |0x|0|1| at place |2|, expected |a printable character|\nline |1|, place |2|:\n|\"|a|?|\n\
         | | |^",
    ),
    (
        Kind::Item,
        b":YQ!",
        "byte |0x|2|1| '|!|'| at place |3|, expected |a base64 character|, |`|:|`| or |`|=|`|\nline |1|\
         , place |3|:\n|:|Y|Q|!|\n| | | |^",
    ),
    (
        Kind::Dict,
        b"aB",
        "byte |0x|4|2| '|B|'| at place |1|, expected |a key character|, |`|,|`|, |`|;|`|, |`|=|`|, |a \
         tab|, |a space| or |the end|\nline |1|, place |1|:\n|a|B|\n| |^",
    ),
    (
        Kind::Dict,
        b"A",
        "byte |0x|4|1| '|A|'| at place |0|, expected |a lower-case letter|, |`|*|`|, |a space| or |the \
         end|\nline |1|, place |0|:\n|A|\n|^",
    ),
    (
        Kind::Item,
        b"1.5.5",
        "byte |0x|2|e| '|.|'| at place |3|, expected |a digit|, |`|;|`|, |a space| or |the end|\nline |\
         1|, place |3|:\n|1|.|5|.|5|\n| | | |^",
    ),
];

// What came at place 0, the bytes that may come, a bit for each, whether the text may end, and the
// parts of the message.
type MadeRow = (Option<u8>, u128, bool, &'static str);

// Refusals of which no text has some.
static MADE: [MadeRow; 5] = [
    (
        Some(7),
        0x07ff_fffe_0000_0000_0000_0000,
        false,
        "byte |0x|0|7| at place |0|, expected |an upper-case letter|",
    ),
    (
        Some(b'`'),
        1 << 96,
        true,
        "byte |0x|6|0| '|`|'| at place |0|, expected |a backquote| or |the end|",
    ),
    (
        None,
        0x8000_0000_0000_0000_0000_0000_8000_0202,
        false,
        "the text ended at place |0|, expected |0x|7|f|, |0x|0|1|, |a tab| or |0x|1|f|",
    ),
    (
        Some(255),
        0,
        false,
        "byte |0x|f|f| at place |0|, expected |nothing|",
    ),
    (
        None,
        0,
        true,
        "the text ended at place |0|, expected |the end|",
    ),
];

// Those that are not of a byte.
static OTHERS: [(Refusal, &str); 3] = [
    (Refusal::TooLong { max: 70 }, "more than |70| bytes"),
    (
        Refusal::ReadFault { place: 12 },
        "a read failed after |12| bytes",
    ),
    (Refusal::OutOfMemory, "out of memory"),
];

/// What a writer with this room holds of the parts, and whether it holds all.
fn held(alloc: Global, parts: &str, room: usize) -> Result<(Vec<u8>, bool), OutOfMemory> {
    let mut held = Vec::new(alloc);
    for part in parts.split('|') {
        if part.len() > room.saturating_sub(held.len()) {
            return Ok((held, false));
        }
        held.extend_from_slice(part.as_bytes())?;
    }
    Ok((held, true))
}

/// Whether a writer with this room holds just these parts of a message.
fn holds_parts<D: fmt::Display>(
    alloc: Global,
    message: &D,
    parts: &str,
    room: usize,
) -> Result<bool, OutOfMemory> {
    let (want, whole) = held(alloc, parts, room)?;
    let mut board = Board {
        held: Vec::new(alloc),
        room,
    };
    let written = write!(board, "{message}");
    Ok(written.is_ok() == whole && board.held.as_slice() == want.as_slice())
}

#[test]
fn messages_without_room(rt: HostRuntime) -> Result<(), Fail> {
    let alloc = rt.alloc();
    let seed = RandomState::new(&rt)?;
    for (kind, text, parts) in ROWS {
        let Err(refusal) = parse_text(alloc, &seed, kind, text) else {
            return Err(Fail::new("a text was accepted"));
        };
        let message = refusal.in_text(text);
        for room in 0..400usize {
            assert!(&rt; holds_parts(alloc, &message, parts, room)?, "{room}");
        }
    }
    for (found, expected, may_end, parts) in MADE {
        let place = 0;
        let refusal = Refusal::Syntax {
            place,
            found,
            expected,
            may_end,
        };
        for room in 0..100usize {
            assert!(&rt; holds_parts(alloc, &refusal, parts, room)?, "{room}");
        }
    }
    for (refusal, parts) in OTHERS {
        for room in 0..100usize {
            assert!(&rt; holds_parts(alloc, &refusal, parts, room)?, "{room}");
        }
    }
    Ok(())
}
