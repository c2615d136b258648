use sf_value::{
    Blob, Int, Key, OutOfMemory, OutOfRange, ShortBytes, Shown, Text, TextFault, Thousandths,
    Token, can_be_in_key, can_be_in_token, can_start_key, can_start_token, is_visible,
};
use std::alloc::Global;

/// The fault of bytes that are no key; whether the key and its copy have the bytes.
fn key_of(alloc: Global, bytes: &[u8]) -> Result<bool, TextFault> {
    let key = Key::new(alloc, bytes)?;
    let is_same = key.as_bytes() == bytes;
    Ok(is_same && is_key(&key.copy(alloc)?, bytes))
}

fn is_key(key: &Key, bytes: &[u8]) -> bool {
    key.as_bytes() == bytes
}

#[test]
fn keys_are_accepted_or_refused(rt: HostRuntime) {
    for &(bytes, want) in &[
        (b"".as_slice(), Err(TextFault::Empty)),
        (b"aB", Err(TextFault::BadByte { place: 1 })),
        (b"A", Err(TextFault::BadByte { place: 0 })),
        (b"_a", Err(TextFault::BadByte { place: 0 })),
        (b"ab c d", Err(TextFault::BadByte { place: 2 })),
        (b"*a.b-c_1", Ok(true)),
    ] {
        assert_eq!(rt; key_of(rt.alloc(), bytes), want);
    }
}

/// The fault of bytes that are no Token; whether the Token and its copy have the bytes.
fn token_of(alloc: Global, bytes: &[u8]) -> Result<bool, TextFault> {
    let token = Token::new(alloc, bytes)?;
    let is_same = token.as_bytes() == bytes;
    Ok(is_same && is_token(&token.copy(alloc)?, bytes))
}

fn is_token(token: &Token, bytes: &[u8]) -> bool {
    token.as_bytes() == bytes
}

#[test]
fn tokens_are_accepted_or_refused(rt: HostRuntime) {
    for &(bytes, want) in &[
        (b"".as_slice(), Err(TextFault::Empty)),
        (b"1a", Err(TextFault::BadByte { place: 0 })),
        (b"a\"", Err(TextFault::BadByte { place: 1 })),
        (b"a/b:c", Ok(true)),
        (b"*Foo!#$%&'*+-.^_`|~9", Ok(true)),
        (b"A:", Ok(true)),
    ] {
        assert_eq!(rt; token_of(rt.alloc(), bytes), want);
    }
}

/// The fault of bytes that are no String; whether the String and its copy have the bytes.
fn text_of(alloc: Global, bytes: &[u8]) -> Result<bool, TextFault> {
    let text = Text::new(alloc, bytes)?;
    let is_same = is_text(&text, bytes);
    Ok(is_same && is_text(&text.copy(alloc)?, bytes))
}

fn is_text(text: &Text, bytes: &[u8]) -> bool {
    text.as_bytes() == bytes && text.is_empty() == bytes.is_empty()
}

#[test]
fn strings_are_accepted_or_refused(rt: HostRuntime) {
    for &(bytes, want) in &[
        (b"".as_slice(), Ok(true)),
        (b"a\x7f", Err(TextFault::BadByte { place: 1 })),
        (b"\xc3\xa9", Err(TextFault::BadByte { place: 0 })),
        (b"a\"b\\ ~", Ok(true)),
        (b"\"z", Ok(true)),
    ] {
        assert_eq!(rt; text_of(rt.alloc(), bytes), want);
    }
}

fn int_of(value: i64) -> Result<i64, OutOfRange> {
    Ok(Int::new(value)?.get())
}

fn thousandths_of(value: i64) -> Result<i64, OutOfRange> {
    Ok(Thousandths::new(value)?.get())
}

#[test]
fn numbers_have_15_digits(rt: HostRuntime) {
    for &(value, fits) in &[
        (0, true),
        (-7, true),
        (999_999_999_999_999, true),
        (-999_999_999_999_999, true),
        (1_000_000_000_000_000, false),
        (-1_000_000_000_000_000, false),
        (i64::MIN, false),
    ] {
        let number = if fits { Ok(value) } else { Err(OutOfRange) };
        assert_eq!(rt; (int_of(value), thousandths_of(value)), (number, number));
    }
}

fn is_listed(byte: u8, list: &[u8]) -> bool {
    list.contains(&byte)
}

#[test]
fn key_classes_are_their_lists(rt: HostRuntime) {
    for byte in 0..=255u8 {
        let start = is_listed(byte, b"*abcdefghijklmnopqrstuvwxyz");
        let rest = is_listed(byte, b"*_-.0123456789abcdefghijklmnopqrstuvwxyz");
        assert_eq!(rt; (can_start_key(byte), can_be_in_key(byte)), (start, rest));
    }
}

#[test]
fn token_classes_are_their_lists(rt: HostRuntime) {
    let letters = b"*ABCDEFGHIJKLMNOPQRSTUVWXYZabcdefghijklmnopqrstuvwxyz".as_slice();
    for byte in 0..=255u8 {
        let start = is_listed(byte, letters);
        let rest = start || is_listed(byte, b":/!#$%&'*+-.^_`|~0123456789");
        let visible = byte == b' ' || byte.is_ascii_graphic();
        let classes = [
            can_start_token(byte),
            can_be_in_token(byte),
            is_visible(byte),
        ];
        assert_eq!(rt; classes, [start, rest, visible]);
    }
}

/// Whether the key of the byte `q`, and its copy, have just this byte.
fn first_key(alloc: Global) -> Result<bool, OutOfMemory> {
    let key = Key::first(alloc, b'q')?;
    let is_same = is_key(&key, b"q");
    Ok(is_same && is_key(&key.copy(alloc)?, b"q"))
}

#[test]
fn keys_begin_with_a_byte(rt: HostRuntime) {
    assert_eq!(rt; first_key(rt.alloc()), Ok(true));
}

/// Whether a Byte Sequence of these bytes, and its copy, have them.
fn blob_of(alloc: Global, bytes: &[u8]) -> Result<bool, OutOfMemory> {
    let blob = Blob::new(alloc, bytes)?;
    let is_same = is_blob(&blob, bytes);
    Ok(is_same && is_blob(&blob.copy(alloc)?, bytes))
}

fn is_blob(blob: &Blob, bytes: &[u8]) -> bool {
    blob.as_bytes() == bytes && blob.is_empty() == bytes.is_empty()
}

#[test]
fn byte_sequences_are_built_and_copied(rt: HostRuntime) {
    for &bytes in &[b"".as_slice(), b"\x89\x00\xff", b"\x89"] {
        assert_eq!(rt; blob_of(rt.alloc(), bytes), Ok(true));
    }
}

/// Whether a Display String of this text, and its copy, have the text and its bytes.
fn shown_of(alloc: Global, text: &str) -> Result<bool, OutOfMemory> {
    let shown = Shown::new(alloc, text)?;
    let is_same = is_shown(&shown, text);
    Ok(is_same && is_shown(&shown.copy(alloc)?, text))
}

fn is_shown(shown: &Shown, text: &str) -> bool {
    shown.as_str() == text
        && shown.as_bytes() == text.as_bytes()
        && shown.is_empty() == text.is_empty()
}

#[test]
fn display_strings_are_built_and_copied(rt: HostRuntime) {
    assert_eq!(rt; "fü".as_bytes(), b"f\xc3\xbc".as_slice());
    for &text in &["", "fü"] {
        assert_eq!(rt; shown_of(rt.alloc(), text), Ok(true));
    }
    assert!(rt; Shown::from_bytes(ShortBytes::new(rt.alloc())).is_empty());
}
