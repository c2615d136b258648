//! Texts of fields as messages have them. Each has a number that makes it unlike the others.

use crate::random::Random;
use crate::texts::{put_base64, put_number, put_numbered};
use sf_value::{Kind, OutOfMemory};

/// How a sender separates members and parameters.
#[derive(Clone, Copy, Drop)]
pub(crate) struct Style {
    /// What is between two members.
    pub(crate) comma: &'static [u8],
    /// What is before a parameter.
    pub(crate) semicolon: &'static [u8],
}

/// The separators that most senders use: not quite the canonical ones.
pub(crate) const USUAL: Style = Style {
    comma: b", ",
    semicolon: b"; ",
};

/// The canonical separators (RFC 9651 section 4.1).
pub(crate) const CANONICAL: Style = Style {
    comma: b", ",
    semicolon: b";",
};

/// A style: canonical, usual, or another one.
pub(crate) fn any_style(random: &mut Random) -> Style {
    match random.below(10) {
        0..4 => CANONICAL,
        4..7 => USUAL,
        7 => Style {
            comma: b",",
            semicolon: b";",
        },
        8 => Style {
            comma: b" ,  ",
            semicolon: b";  ",
        },
        _ => Style {
            comma: b",\t",
            semicolon: b"; ",
        },
    }
}

/// Names of caches, before a number.
const CACHES: [&[u8]; 6] = [
    b"cache-fra-eddf",
    b"edge-iad-kiad",
    b"ExampleCache-",
    b"cloudfront.net/",
    b"origin_shield.",
    b"varnish:",
];

/// Names of caches that are Strings, up to a number.
const SPACED_CACHES: [&[u8]; 4] = [
    b"\"Netlify Edge ",
    b"\"CDN Company Here ",
    b"\"Next.js ",
    b"\"reverse proxy (\\\"blue\\\") ",
];

/// Reasons to forward a request (RFC 9211 section 2.2).
const REASONS: [&[u8]; 8] = [
    b"uri-miss",
    b"miss",
    b"stale",
    b"vary-miss",
    b"bypass",
    b"request",
    b"partial",
    b"prefetch",
];

/// Appends the parameters of a hit.
fn put_hit(text: &mut Vec<u8>, random: &mut Random, style: Style) -> Result<(), OutOfMemory> {
    text.extend_from_slice(style.semicolon)?;
    text.extend_from_slice(b"hit")?;
    text.extend_from_slice(style.semicolon)?;
    put_numbered(text, b"ttl=", random.below(86_400))
}

/// Appends the parameters of a request that was forwarded.
fn put_forwarded(text: &mut Vec<u8>, random: &mut Random, style: Style) -> Result<(), OutOfMemory> {
    text.extend_from_slice(style.semicolon)?;
    text.extend_from_slice(b"fwd=")?;
    text.extend_from_slice(random.word(&REASONS))?;
    if random.one_in(2) {
        text.extend_from_slice(style.semicolon)?;
        put_numbered(text, b"fwd-status=", 200 + random.below(305))?;
    }
    if random.one_in(3) {
        text.extend_from_slice(style.semicolon)?;
        text.extend_from_slice(b"stored")?;
    }
    if random.one_in(5) {
        text.extend_from_slice(style.semicolon)?;
        text.extend_from_slice(b"collapsed=?0")?;
    }
    Ok(())
}

/// Appends a member of Cache-Status (RFC 9211 section 2).
pub(crate) fn put_hop(
    text: &mut Vec<u8>,
    random: &mut Random,
    style: Style,
) -> Result<(), OutOfMemory> {
    let number = random.below(10_000_000);
    if random.one_in(4) {
        put_numbered(text, random.word(&SPACED_CACHES), number)?;
        text.extend_from_slice(b"\"")?;
    } else {
        put_numbered(text, random.word(&CACHES), number)?;
    }
    if random.one_in(2) {
        put_hit(text, random, style)?;
    } else {
        put_forwarded(text, random, style)?;
    }
    if random.one_in(8) {
        text.extend_from_slice(style.semicolon)?;
        put_numbered(text, b"key=\"/assets/app.js?v=", random.below(1_000_000))?;
        text.extend_from_slice(b"\"")?;
    }
    if random.one_in(8) {
        text.extend_from_slice(style.semicolon)?;
        put_numbered(text, b"detail=MEMORY_", random.below(100))?;
    }
    Ok(())
}

/// Appends so many members of Cache-Status.
pub(crate) fn put_hops(
    text: &mut Vec<u8>,
    random: &mut Random,
    style: Style,
    hops: u64,
) -> Result<(), OutOfMemory> {
    for place in 0..hops {
        if place > 0 {
            text.extend_from_slice(style.comma)?;
        }
        put_hop(text, random, style)?;
    }
    Ok(())
}

/// Directives without a number, and one that is ignored.
const FLAGS: [&[u8]; 5] = [
    b"must-revalidate",
    b"private",
    b"no-store",
    b"no-cache=?0",
    b"immutable",
];

/// Appends a targeted field of two to five directives (RFC 9213 section 2.1).
pub(crate) fn put_directives(
    text: &mut Vec<u8>,
    random: &mut Random,
    style: Style,
) -> Result<(), OutOfMemory> {
    put_numbered(text, b"max-age=", random.below(31_536_000))?;
    if random.one_in(2) {
        text.extend_from_slice(style.comma)?;
        put_numbered(text, b"s-maxage=", random.below(31_536_000))?;
    }
    if random.one_in(3) {
        text.extend_from_slice(style.comma)?;
        put_numbered(text, b"stale-while-revalidate=", random.below(86_400))?;
    }
    for _ in 0..random.below(3) {
        text.extend_from_slice(style.comma)?;
        text.extend_from_slice(random.word(&FLAGS))?;
    }
    Ok(())
}

/// Appends a Priority field of 8 to 20 bytes (RFC 9218 section 5) with this number in it, which is
/// below ten million.
pub(crate) fn put_priority(
    text: &mut Vec<u8>,
    random: &mut Random,
    number: u64,
) -> Result<(), OutOfMemory> {
    match random.below(6) {
        0 => put_numbered(text, b"i;n=", number),
        1 => put_numbered(text, b"u=1, i, n=", number),
        2 => put_numbered(text, b"u=3, i;n=", number),
        3 => {
            put_numbered(text, b"n=", number)?;
            text.extend_from_slice(b", u=0")?;
            Ok(())
        }
        4 => {
            put_numbered(text, b"u=", random.below(10))?;
            put_numbered(text, b";n=", number)
        }
        _ => put_numbered(text, b"u=2;x, foo=", number),
    }
}

/// Components of a message that are signed (RFC 9421 section 2).
const COMPONENTS: [&[u8]; 8] = [
    b"\"@method\"",
    b"\"@authority\"",
    b"\"@path\"",
    b"\"@query-param\";name=\"id\"",
    b"\"content-digest\"",
    b"\"content-type\";req",
    b"\"date\"",
    b"\"cache-status\";sf",
];

/// Appends Signature-Input (RFC 9421 section 4.1): 2 to 8 components, and 3 to 5 parameters.
pub(crate) fn put_signature_input(
    text: &mut Vec<u8>,
    random: &mut Random,
    style: Style,
) -> Result<(), OutOfMemory> {
    text.extend_from_slice(b"sig1=(")?;
    text.extend_from_slice(random.word(&COMPONENTS))?;
    for _ in 0..1 + random.below(7) {
        text.extend_from_slice(b" ")?;
        text.extend_from_slice(random.word(&COMPONENTS))?;
    }
    text.extend_from_slice(b")")?;
    text.extend_from_slice(style.semicolon)?;
    put_numbered(text, b"created=", 1_600_000_000 + random.below(200_000_000))?;
    text.extend_from_slice(style.semicolon)?;
    put_numbered(text, b"keyid=\"test-key-rsa-pss-", random.below(1_000_000))?;
    text.extend_from_slice(b"\"")?;
    text.extend_from_slice(style.semicolon)?;
    text.extend_from_slice(b"alg=\"rsa-pss-sha512\"")?;
    if random.one_in(2) {
        text.extend_from_slice(style.semicolon)?;
        text.extend_from_slice(b"nonce=\"")?;
        put_base64(text, random, 11)?;
        text.extend_from_slice(b"\"")?;
    }
    if random.one_in(4) {
        text.extend_from_slice(style.semicolon)?;
        text.extend_from_slice(b"tag=\"app\"")?;
    }
    Ok(())
}

/// Appends Content-Digest (RFC 9530 section 2) of one or two hashes.
pub(crate) fn put_digest(
    text: &mut Vec<u8>,
    random: &mut Random,
    style: Style,
) -> Result<(), OutOfMemory> {
    let both = random.one_in(2);
    if both || random.one_in(2) {
        text.extend_from_slice(b"sha-256=:")?;
        put_base64(text, random, 10)?;
        text.extend_from_slice(b"PiE=:")?;
        if !both {
            return Ok(());
        }
        text.extend_from_slice(style.comma)?;
    }
    text.extend_from_slice(b"sha-512=:")?;
    put_base64(text, random, 21)?;
    text.extend_from_slice(b"Vg==:")?;
    Ok(())
}

/// Appends Sec-CH-UA: the brands of a browser.
pub(crate) fn put_brands(
    text: &mut Vec<u8>,
    random: &mut Random,
    style: Style,
) -> Result<(), OutOfMemory> {
    let version = random.below(140);
    text.extend_from_slice(b"\"Chromium\"")?;
    text.extend_from_slice(style.semicolon)?;
    put_numbered(text, b"v=\"", version)?;
    text.extend_from_slice(b"\"")?;
    text.extend_from_slice(style.comma)?;
    text.extend_from_slice(b"\"Google Chrome\"")?;
    text.extend_from_slice(style.semicolon)?;
    put_numbered(text, b"v=\"", version)?;
    put_numbered(text, b".0.", random.below(10_000))?;
    put_numbered(text, b".", random.below(1_000))?;
    text.extend_from_slice(b"\"")?;
    text.extend_from_slice(style.comma)?;
    text.extend_from_slice(b"\"Not-A.Brand\"")?;
    text.extend_from_slice(style.semicolon)?;
    put_numbered(text, b"v=\"", random.below(100))?;
    text.extend_from_slice(b"\"")?;
    Ok(())
}

/// Client hints.
const HINTS: [&[u8]; 8] = [
    b"Sec-CH-UA-Arch",
    b"Sec-CH-UA-Bitness",
    b"Sec-CH-UA-Full-Version-List",
    b"Sec-CH-UA-Model",
    b"Sec-CH-UA-Platform-Version",
    b"DPR",
    b"Viewport-Width",
    b"ECT",
];

/// Appends Accept-CH (RFC 8942 section 3.1): 2 to 8 hints, the last one custom.
pub(crate) fn put_hints(
    text: &mut Vec<u8>,
    random: &mut Random,
    style: Style,
) -> Result<(), OutOfMemory> {
    for _ in 0..1 + random.below(7) {
        text.extend_from_slice(random.word(&HINTS))?;
        text.extend_from_slice(style.comma)?;
    }
    put_numbered(text, b"X-Hint-", random.below(100_000_000))
}

/// Powerful features of a page, with `=`.
const FEATURES: [&[u8]; 6] = [
    b"geolocation=",
    b"camera=",
    b"microphone=",
    b"fullscreen=",
    b"payment=",
    b"usb=",
];

/// Appends Permissions-Policy: 2 to 6 features, the last one with an origin.
pub(crate) fn put_permissions(
    text: &mut Vec<u8>,
    random: &mut Random,
    style: Style,
) -> Result<(), OutOfMemory> {
    for _ in 0..1 + random.below(5) {
        text.extend_from_slice(random.word(&FEATURES))?;
        if random.one_in(2) {
            text.extend_from_slice(b"()")?;
        } else {
            text.extend_from_slice(b"(self)")?;
        }
        text.extend_from_slice(style.comma)?;
    }
    put_numbered(
        text,
        b"sync-xhr=(self \"https://shop-",
        random.below(10_000_000),
    )?;
    text.extend_from_slice(b".example\")")?;
    Ok(())
}

/// Appends an Item of one type or another, with a parameter or without.
pub(crate) fn put_item(
    text: &mut Vec<u8>,
    random: &mut Random,
    style: Style,
) -> Result<(), OutOfMemory> {
    match random.below(7) {
        0 => put_numbered(text, b"-", random.below(1_000_000_000))?,
        1 => {
            put_number(text, random.below(1_000_000))?;
            put_numbered(text, b".", random.below(1_000))?;
        }
        2 => put_numbered(text, b"@", 1_600_000_000 + random.below(200_000_000))?,
        3 => put_numbered(text, b"token-", random.below(100_000_000))?,
        4 => {
            put_numbered(text, b"\"W/", random.below(100_000_000))?;
            text.extend_from_slice(b" \\\"etag\\\"\"")?;
        }
        5 => {
            put_numbered(text, b"%\"Z%c3%bcrich ", random.below(100_000_000))?;
            text.extend_from_slice(b" %e2%82%ac\"")?;
        }
        _ => {
            text.extend_from_slice(b"?1")?;
            text.extend_from_slice(style.semicolon)?;
            put_numbered(text, b"n=", random.below(100_000_000))?;
        }
    }
    if random.one_in(3) {
        text.extend_from_slice(style.semicolon)?;
        put_numbered(text, b"q=0.", random.below(10))?;
    }
    Ok(())
}

/// Appends a field of one type or another, and returns its kind.
pub(crate) fn put_any(
    text: &mut Vec<u8>,
    random: &mut Random,
    style: Style,
) -> Result<Kind, OutOfMemory> {
    match random.below(10) {
        0 => {
            let hops = 1 + random.below(4);
            put_hops(text, random, style, hops)?;
            Ok(Kind::List)
        }
        1 => {
            put_directives(text, random, style)?;
            Ok(Kind::Dict)
        }
        2 => {
            let number = random.below(10_000_000);
            put_priority(text, random, number)?;
            Ok(Kind::Dict)
        }
        3 => {
            put_signature_input(text, random, style)?;
            Ok(Kind::Dict)
        }
        4 => {
            put_digest(text, random, style)?;
            Ok(Kind::Dict)
        }
        5 => {
            put_brands(text, random, style)?;
            Ok(Kind::List)
        }
        6 => {
            put_hints(text, random, style)?;
            Ok(Kind::List)
        }
        7 => {
            put_permissions(text, random, style)?;
            Ok(Kind::Dict)
        }
        _ => {
            put_item(text, random, style)?;
            Ok(Kind::Item)
        }
    }
}
