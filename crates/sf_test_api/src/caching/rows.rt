//! The rows of `tests/decisions.txt`, written by `tools/decisions`.
use sf_use::{CacheKind, Cause, Reuse};

/// The field that is obeyed.
#[derive(Clone, Copy, Debug, PartialEq, Eq)]
pub(crate) enum From {
    /// That of a target.
    Target(usize),
    /// `Cache-Control`.
    Fallback,
}

/// A head of a response, with what a cache decides.
pub(crate) struct Row {
    pub(crate) head: &'static [(&'static [u8], &'static [u8])],
    pub(crate) cache: CacheKind,
    pub(crate) age: u64,
    pub(crate) understood: bool,
    pub(crate) from: From,
    pub(crate) reuse: Reuse,
    pub(crate) by: Cause,
}

pub(crate) const TARGETS: [&[u8]; 2] = [b"examplecdn-cache-control", b"cdn-cache-control"];

#[rattlefmt::skip]
pub(crate) const ROWS: &[Row] = &[
    // 1
    Row {
        head: &[
            (b"cdn-cache-control", b"max-age=60"),
        ],
        cache: CacheKind::Shared,
        age: 0,
        understood: false,
        from: From::Target(1),
        reuse: Reuse::Fresh { seconds: 60 },
        by: Cause::MaxAge,
    },
    // 2
    Row {
        head: &[
            (b"cdn-cache-control", b"max-age=60"),
        ],
        cache: CacheKind::Shared,
        age: 59,
        understood: false,
        from: From::Target(1),
        reuse: Reuse::Fresh { seconds: 1 },
        by: Cause::MaxAge,
    },
    // 3
    Row {
        head: &[
            (b"cdn-cache-control", b"max-age=60"),
        ],
        cache: CacheKind::Shared,
        age: 60,
        understood: false,
        from: From::Target(1),
        reuse: Reuse::Stale,
        by: Cause::MaxAge,
    },
    // 4
    Row {
        head: &[
            (b"cdn-cache-control", b"max-age=60"),
        ],
        cache: CacheKind::Private,
        age: 61,
        understood: false,
        from: From::Target(1),
        reuse: Reuse::Stale,
        by: Cause::MaxAge,
    },
    // 5
    Row {
        head: &[
            (b"cdn-cache-control", b"max-age=0"),
        ],
        cache: CacheKind::Private,
        age: 0,
        understood: false,
        from: From::Target(1),
        reuse: Reuse::Stale,
        by: Cause::MaxAge,
    },
    // 6
    Row {
        head: &[
            (b"cdn-cache-control", b"no-store"),
        ],
        cache: CacheKind::Private,
        age: 0,
        understood: false,
        from: From::Target(1),
        reuse: Reuse::NotStored,
        by: Cause::NoStore,
    },
    // 7
    Row {
        head: &[
            (b"cdn-cache-control", b"max-age=60, no-store"),
        ],
        cache: CacheKind::Shared,
        age: 0,
        understood: false,
        from: From::Target(1),
        reuse: Reuse::NotStored,
        by: Cause::NoStore,
    },
    // 8
    Row {
        head: &[
            (b"cdn-cache-control", b"no-store, no-cache, private"),
        ],
        cache: CacheKind::Shared,
        age: 0,
        understood: false,
        from: From::Target(1),
        reuse: Reuse::NotStored,
        by: Cause::NoStore,
    },
    // 9
    Row {
        head: &[
            (b"cdn-cache-control", b"max-age=60, no-cache"),
        ],
        cache: CacheKind::Shared,
        age: 0,
        understood: false,
        from: From::Target(1),
        reuse: Reuse::MustRevalidate,
        by: Cause::NoCache,
    },
    // 10
    Row {
        head: &[
            (b"cdn-cache-control", b"no-cache"),
        ],
        cache: CacheKind::Private,
        age: 0,
        understood: false,
        from: From::Target(1),
        reuse: Reuse::MustRevalidate,
        by: Cause::NoCache,
    },
    // 11
    Row {
        head: &[
            (b"cdn-cache-control", b"max-age=60, no-cache=\"set-cookie\""),
        ],
        cache: CacheKind::Shared,
        age: 0,
        understood: false,
        from: From::Target(1),
        reuse: Reuse::MustRevalidate,
        by: Cause::NoCache,
    },
    // 12
    Row {
        head: &[
            (b"cdn-cache-control", b"max-age=60, private"),
        ],
        cache: CacheKind::Shared,
        age: 0,
        understood: false,
        from: From::Target(1),
        reuse: Reuse::NotStored,
        by: Cause::Private,
    },
    // 13
    Row {
        head: &[
            (b"cdn-cache-control", b"max-age=60, private"),
        ],
        cache: CacheKind::Private,
        age: 0,
        understood: false,
        from: From::Target(1),
        reuse: Reuse::Fresh { seconds: 60 },
        by: Cause::MaxAge,
    },
    // 14
    Row {
        head: &[
            (b"cdn-cache-control", b"max-age=60, private=\"set-cookie\""),
        ],
        cache: CacheKind::Shared,
        age: 0,
        understood: false,
        from: From::Target(1),
        reuse: Reuse::NotStored,
        by: Cause::Private,
    },
    // 15
    Row {
        head: &[
            (b"cdn-cache-control", b"private, no-cache"),
        ],
        cache: CacheKind::Shared,
        age: 0,
        understood: false,
        from: From::Target(1),
        reuse: Reuse::NotStored,
        by: Cause::Private,
    },
    // 16
    Row {
        head: &[
            (b"cdn-cache-control", b"max-age=60, must-revalidate"),
        ],
        cache: CacheKind::Shared,
        age: 10,
        understood: false,
        from: From::Target(1),
        reuse: Reuse::Fresh { seconds: 50 },
        by: Cause::MaxAge,
    },
    // 17
    Row {
        head: &[
            (b"cdn-cache-control", b"max-age=60, must-revalidate"),
        ],
        cache: CacheKind::Private,
        age: 60,
        understood: false,
        from: From::Target(1),
        reuse: Reuse::MustRevalidate,
        by: Cause::MustRevalidate,
    },
    // 18
    Row {
        head: &[
            (b"cdn-cache-control", b"max-age=60, proxy-revalidate"),
        ],
        cache: CacheKind::Shared,
        age: 60,
        understood: false,
        from: From::Target(1),
        reuse: Reuse::MustRevalidate,
        by: Cause::ProxyRevalidate,
    },
    // 19
    Row {
        head: &[
            (b"cdn-cache-control", b"max-age=60, proxy-revalidate"),
        ],
        cache: CacheKind::Private,
        age: 60,
        understood: false,
        from: From::Target(1),
        reuse: Reuse::Stale,
        by: Cause::MaxAge,
    },
    // 20
    Row {
        head: &[
            (b"cdn-cache-control", b"max-age=60, s-maxage=120"),
        ],
        cache: CacheKind::Shared,
        age: 100,
        understood: false,
        from: From::Target(1),
        reuse: Reuse::Fresh { seconds: 20 },
        by: Cause::SMaxage,
    },
    // 21
    Row {
        head: &[
            (b"cdn-cache-control", b"max-age=60, s-maxage=120"),
        ],
        cache: CacheKind::Private,
        age: 59,
        understood: false,
        from: From::Target(1),
        reuse: Reuse::Fresh { seconds: 1 },
        by: Cause::MaxAge,
    },
    // 22
    Row {
        head: &[
            (b"cdn-cache-control", b"max-age=600, s-maxage=60"),
        ],
        cache: CacheKind::Shared,
        age: 60,
        understood: false,
        from: From::Target(1),
        reuse: Reuse::MustRevalidate,
        by: Cause::SMaxage,
    },
    // 23
    Row {
        head: &[
            (b"cdn-cache-control", b"s-maxage=60"),
        ],
        cache: CacheKind::Private,
        age: 0,
        understood: false,
        from: From::Target(1),
        reuse: Reuse::Unspecified,
        by: Cause::Nothing,
    },
    // 24
    Row {
        head: &[
            (b"cdn-cache-control", b"s-maxage=0, max-age=60, must-revalidate"),
        ],
        cache: CacheKind::Shared,
        age: 0,
        understood: false,
        from: From::Target(1),
        reuse: Reuse::MustRevalidate,
        by: Cause::MustRevalidate,
    },
    // 25
    Row {
        head: &[
            (b"cdn-cache-control", b"max-age=60, must-understand, no-store"),
        ],
        cache: CacheKind::Shared,
        age: 0,
        understood: false,
        from: From::Target(1),
        reuse: Reuse::NotStored,
        by: Cause::NoStore,
    },
    // 26
    Row {
        head: &[
            (b"cdn-cache-control", b"max-age=60, must-understand, no-store"),
        ],
        cache: CacheKind::Shared,
        age: 0,
        understood: true,
        from: From::Target(1),
        reuse: Reuse::Fresh { seconds: 60 },
        by: Cause::MaxAge,
    },
    // 27
    Row {
        head: &[
            (b"cdn-cache-control", b"max-age=60, must-understand"),
        ],
        cache: CacheKind::Private,
        age: 0,
        understood: false,
        from: From::Target(1),
        reuse: Reuse::NotStored,
        by: Cause::MustUnderstand,
    },
    // 28
    Row {
        head: &[
            (b"cdn-cache-control", b"max-age=60, no-store"),
        ],
        cache: CacheKind::Shared,
        age: 0,
        understood: true,
        from: From::Target(1),
        reuse: Reuse::NotStored,
        by: Cause::NoStore,
    },
    // 29
    Row {
        head: &[
            (b"cdn-cache-control", b"public"),
        ],
        cache: CacheKind::Shared,
        age: 0,
        understood: false,
        from: From::Target(1),
        reuse: Reuse::Unspecified,
        by: Cause::Nothing,
    },
    // 30
    Row {
        head: &[
            (b"cdn-cache-control", b"max-age=1.5"),
        ],
        cache: CacheKind::Private,
        age: 0,
        understood: false,
        from: From::Target(1),
        reuse: Reuse::Stale,
        by: Cause::InvalidMaxAge,
    },
    // 31
    Row {
        head: &[
            (b"cdn-cache-control", b"max-age=-1"),
        ],
        cache: CacheKind::Shared,
        age: 0,
        understood: false,
        from: From::Target(1),
        reuse: Reuse::Stale,
        by: Cause::InvalidMaxAge,
    },
    // 32
    Row {
        head: &[
            (b"cdn-cache-control", b"max-age=\"60\""),
        ],
        cache: CacheKind::Shared,
        age: 0,
        understood: false,
        from: From::Target(1),
        reuse: Reuse::Stale,
        by: Cause::InvalidMaxAge,
    },
    // 33
    Row {
        head: &[
            (b"cdn-cache-control", b"max-age"),
        ],
        cache: CacheKind::Shared,
        age: 0,
        understood: false,
        from: From::Target(1),
        reuse: Reuse::Stale,
        by: Cause::InvalidMaxAge,
    },
    // 34
    Row {
        head: &[
            (b"cdn-cache-control", b"s-maxage=1.5, max-age=600"),
        ],
        cache: CacheKind::Shared,
        age: 0,
        understood: false,
        from: From::Target(1),
        reuse: Reuse::MustRevalidate,
        by: Cause::InvalidSMaxage,
    },
    // 35
    Row {
        head: &[
            (b"cdn-cache-control", b"s-maxage=1.5, max-age=600"),
        ],
        cache: CacheKind::Private,
        age: 0,
        understood: false,
        from: From::Target(1),
        reuse: Reuse::Fresh { seconds: 600 },
        by: Cause::MaxAge,
    },
    // 36
    Row {
        head: &[
            (b"cdn-cache-control", b"s-maxage=90, max-age=x"),
        ],
        cache: CacheKind::Shared,
        age: 0,
        understood: false,
        from: From::Target(1),
        reuse: Reuse::Fresh { seconds: 90 },
        by: Cause::SMaxage,
    },
    // 37
    Row {
        head: &[
            (b"cdn-cache-control", b"max-age=5, max-age=60"),
        ],
        cache: CacheKind::Shared,
        age: 10,
        understood: false,
        from: From::Target(1),
        reuse: Reuse::Fresh { seconds: 50 },
        by: Cause::MaxAge,
    },
    // 38
    Row {
        head: &[
            (b"cdn-cache-control", b"max-age=1.5, must-revalidate"),
        ],
        cache: CacheKind::Private,
        age: 0,
        understood: false,
        from: From::Target(1),
        reuse: Reuse::MustRevalidate,
        by: Cause::MustRevalidate,
    },
    // 39
    Row {
        head: &[
            (b"cdn-cache-control", b"max-age=2147483648"),
        ],
        cache: CacheKind::Shared,
        age: 2147483647,
        understood: false,
        from: From::Target(1),
        reuse: Reuse::Fresh { seconds: 1 },
        by: Cause::MaxAge,
    },
    // 40
    Row {
        head: &[
            (b"cdn-cache-control", b"max-age=999999999999999"),
        ],
        cache: CacheKind::Shared,
        age: 0,
        understood: false,
        from: From::Target(1),
        reuse: Reuse::Fresh { seconds: 2147483648 },
        by: Cause::MaxAge,
    },
    // 41
    Row {
        head: &[
            (b"cdn-cache-control", b"max-age=999999999999999"),
        ],
        cache: CacheKind::Shared,
        age: 2147483648,
        understood: false,
        from: From::Target(1),
        reuse: Reuse::Stale,
        by: Cause::MaxAge,
    },
    // 42
    Row {
        head: &[
            (b"cdn-cache-control", b"max-age=60"),
        ],
        cache: CacheKind::Private,
        age: 18446744073709551615,
        understood: false,
        from: From::Target(1),
        reuse: Reuse::Stale,
        by: Cause::MaxAge,
    },
    // 43
    Row {
        head: &[
            (b"examplecdn-cache-control", b"max-age=60,"),
            (b"cdn-cache-control", b"no-store"),
        ],
        cache: CacheKind::Shared,
        age: 0,
        understood: false,
        from: From::Target(1),
        reuse: Reuse::NotStored,
        by: Cause::NoStore,
    },
    // 44
    Row {
        head: &[
            (b"examplecdn-cache-control", b""),
            (b"cdn-cache-control", b"max-age=600"),
        ],
        cache: CacheKind::Shared,
        age: 0,
        understood: false,
        from: From::Target(1),
        reuse: Reuse::Fresh { seconds: 600 },
        by: Cause::MaxAge,
    },
    // 45
    Row {
        head: &[
            (b"cdn-cache-control", b"no-store"),
            (b"examplecdn-cache-control", b"max-age=30"),
            (b"cache-control", b"private"),
        ],
        cache: CacheKind::Shared,
        age: 0,
        understood: false,
        from: From::Target(0),
        reuse: Reuse::Fresh { seconds: 30 },
        by: Cause::MaxAge,
    },
    // 46
    Row {
        head: &[
            (b"cdn-cache-control", b"max-age=600"),
            (b"cache-control", b"no-store"),
        ],
        cache: CacheKind::Shared,
        age: 0,
        understood: false,
        from: From::Target(1),
        reuse: Reuse::Fresh { seconds: 600 },
        by: Cause::MaxAge,
    },
    // 47
    Row {
        head: &[
            (b"cache-control", b"no-store"),
            (b"cdn-cache-control", b"none"),
        ],
        cache: CacheKind::Shared,
        age: 0,
        understood: false,
        from: From::Target(1),
        reuse: Reuse::Unspecified,
        by: Cause::Nothing,
    },
    // 48
    Row {
        head: &[
            (b"cdn-cache-control", b"stale-while-revalidate=60, none"),
            (b"expires", b"Thu, 01 Dec 1994 16:00:00 GMT"),
        ],
        cache: CacheKind::Shared,
        age: 0,
        understood: false,
        from: From::Target(1),
        reuse: Reuse::Unspecified,
        by: Cause::Nothing,
    },
    // 49
    Row {
        head: &[
            (b"cdn-cache-control", b"max-age=60, No-Store"),
            (b"cache-control", b"max-age=5"),
        ],
        cache: CacheKind::Shared,
        age: 6,
        understood: false,
        from: From::Fallback,
        reuse: Reuse::Stale,
        by: Cause::MaxAge,
    },
    // 50
    Row {
        head: &[
            (b"cache-control", b"no-store, Max-Age=0"),
        ],
        cache: CacheKind::Shared,
        age: 0,
        understood: false,
        from: From::Fallback,
        reuse: Reuse::NotStored,
        by: Cause::NoStore,
    },
    // 51
    Row {
        head: &[
            (b"cache-control", b"No-Store"),
        ],
        cache: CacheKind::Private,
        age: 0,
        understood: false,
        from: From::Fallback,
        reuse: Reuse::NotStored,
        by: Cause::NoStore,
    },
    // 52
    Row {
        head: &[
            (b"cache-control", b"no-cache,,max-age=60,"),
        ],
        cache: CacheKind::Shared,
        age: 0,
        understood: false,
        from: From::Fallback,
        reuse: Reuse::MustRevalidate,
        by: Cause::NoCache,
    },
    // 53
    Row {
        head: &[
            (b"cache-control", b"max-age=\"60\""),
        ],
        cache: CacheKind::Shared,
        age: 15,
        understood: false,
        from: From::Fallback,
        reuse: Reuse::Fresh { seconds: 45 },
        by: Cause::MaxAge,
    },
    // 54
    Row {
        head: &[
            (b"cache-control", b"ext=\"no-store, \\\"max-age=1\", max-age=60"),
        ],
        cache: CacheKind::Shared,
        age: 0,
        understood: false,
        from: From::Fallback,
        reuse: Reuse::Fresh { seconds: 60 },
        by: Cause::MaxAge,
    },
    // 55
    Row {
        head: &[
            (b"cache-control", b"max-age=60, max-age=5"),
        ],
        cache: CacheKind::Private,
        age: 0,
        understood: false,
        from: From::Fallback,
        reuse: Reuse::Stale,
        by: Cause::InvalidMaxAge,
    },
    // 56
    Row {
        head: &[
            (b"cache-control", b"max-age=60"),
            (b"cache-control", b"private=\"set-cookie\", s-maxage=90"),
        ],
        cache: CacheKind::Shared,
        age: 0,
        understood: false,
        from: From::Fallback,
        reuse: Reuse::NotStored,
        by: Cause::Private,
    },
    // 57
    Row {
        head: &[
            (b"cache-control", b"max-age=4294967297"),
        ],
        cache: CacheKind::Shared,
        age: 1,
        understood: false,
        from: From::Fallback,
        reuse: Reuse::Fresh { seconds: 2147483647 },
        by: Cause::MaxAge,
    },
    // 58
    Row {
        head: &[
            (b"cache-control", b"public"),
            (b"date", b"Thu, 01 Dec 1994 15:59:00 GMT"),
            (b"expires", b"Thu, 01 Dec 1994 16:00:00 GMT"),
        ],
        cache: CacheKind::Shared,
        age: 20,
        understood: false,
        from: From::Fallback,
        reuse: Reuse::Fresh { seconds: 40 },
        by: Cause::Expires,
    },
    // 59
    Row {
        head: &[
            (b"cache-control", b"must-revalidate"),
            (b"date", b"Thu, 01 Dec 1994 15:59:00 GMT"),
            (b"expires", b"0"),
        ],
        cache: CacheKind::Private,
        age: 0,
        understood: false,
        from: From::Fallback,
        reuse: Reuse::MustRevalidate,
        by: Cause::MustRevalidate,
    },
    // 60
    Row {
        head: &[
            (b"cache-control", b"max-age=60"),
            (b"date", b"Thu, 01 Dec 1994 15:59:00 GMT"),
            (b"expires", b"Thu, 01 Dec 1994 15:00:00 GMT"),
        ],
        cache: CacheKind::Shared,
        age: 0,
        understood: false,
        from: From::Fallback,
        reuse: Reuse::Fresh { seconds: 60 },
        by: Cause::MaxAge,
    },
    // 61
    Row {
        head: &[
            (b"cdn-cache-control", b"max-age=60;no-store, stale-while-revalidate=30;max-age=5"),
        ],
        cache: CacheKind::Shared,
        age: 0,
        understood: false,
        from: From::Target(1),
        reuse: Reuse::Fresh { seconds: 60 },
        by: Cause::MaxAge,
    },
    // 62
    Row {
        head: &[
            (b"cdn-cache-control", b"max-age=60, no-store=?0"),
        ],
        cache: CacheKind::Shared,
        age: 0,
        understood: false,
        from: From::Target(1),
        reuse: Reuse::Fresh { seconds: 60 },
        by: Cause::MaxAge,
    },
    // 63
    Row {
        head: &[
            (b"cdn-cache-control", b"max-age=60, no-store=0"),
        ],
        cache: CacheKind::Shared,
        age: 0,
        understood: false,
        from: From::Target(1),
        reuse: Reuse::NotStored,
        by: Cause::NoStore,
    },
    // 64
    Row {
        head: &[
            (b"cdn-cache-control", b"max-age=600"),
            (b"cdn-cache-control", b"private"),
        ],
        cache: CacheKind::Shared,
        age: 0,
        understood: false,
        from: From::Target(1),
        reuse: Reuse::NotStored,
        by: Cause::Private,
    },
    // 65
    Row {
        head: &[
            (b"cdn-cache-control", b"no-store"),
            (b"cdn-cache-control", b"a b"),
            (b"cache-control", b"max-age=60"),
        ],
        cache: CacheKind::Shared,
        age: 0,
        understood: false,
        from: From::Fallback,
        reuse: Reuse::Fresh { seconds: 60 },
        by: Cause::MaxAge,
    },
    // 66
    Row {
        head: &[
            (b"cdn-cache-control", b"must-revalidate"),
            (b"cache-control", b"max-age=60"),
        ],
        cache: CacheKind::Shared,
        age: 0,
        understood: false,
        from: From::Target(1),
        reuse: Reuse::Unspecified,
        by: Cause::Nothing,
    },
    // 67
    Row {
        head: &[
            (b"cache-control", b"max-age=60, Max-Age=\"060\""),
        ],
        cache: CacheKind::Private,
        age: 0,
        understood: false,
        from: From::Fallback,
        reuse: Reuse::Fresh { seconds: 60 },
        by: Cause::MaxAge,
    },
    // 68
    Row {
        head: &[
            (b"cache-control", b"max-age=x"),
            (b"date", b"Thu, 01 Dec 1994 15:59:00 GMT"),
            (b"expires", b"Thu, 01 Dec 1994 16:00:00 GMT"),
        ],
        cache: CacheKind::Private,
        age: 0,
        understood: false,
        from: From::Fallback,
        reuse: Reuse::Stale,
        by: Cause::InvalidMaxAge,
    },
    // 69
    Row {
        head: &[
            (b"cache-control", b"s-maxage=30"),
            (b"date", b"Thu, 01 Dec 1994 15:59:00 GMT"),
            (b"expires", b"Thu, 01 Dec 1994 16:00:00 GMT"),
        ],
        cache: CacheKind::Private,
        age: 0,
        understood: false,
        from: From::Fallback,
        reuse: Reuse::Fresh { seconds: 60 },
        by: Cause::Expires,
    },
    // 70
    Row {
        head: &[
            (b"cache-control", b"s-maxage=30"),
            (b"date", b"Thu, 01 Dec 1994 15:59:00 GMT"),
            (b"expires", b"Thu, 01 Dec 1994 16:00:00 GMT"),
        ],
        cache: CacheKind::Shared,
        age: 30,
        understood: false,
        from: From::Fallback,
        reuse: Reuse::MustRevalidate,
        by: Cause::SMaxage,
    },
    // 71
    Row {
        head: &[
            (b"cache-control", b"max-age=60, stale-while-revalidate=30"),
        ],
        cache: CacheKind::Shared,
        age: 70,
        understood: false,
        from: From::Fallback,
        reuse: Reuse::Stale,
        by: Cause::MaxAge,
    },
    // 72
    Row {
        head: &[
            (b"cache-control", b"max-age=60, private=set-cookie"),
        ],
        cache: CacheKind::Shared,
        age: 0,
        understood: false,
        from: From::Fallback,
        reuse: Reuse::NotStored,
        by: Cause::Private,
    },
    // 73
    Row {
        head: &[
            (b"cache-control", b"max-age=60; public"),
        ],
        cache: CacheKind::Shared,
        age: 0,
        understood: false,
        from: From::Fallback,
        reuse: Reuse::NotStored,
        by: Cause::NoStore,
    },
    // 74
    Row {
        head: &[
            (b"cdn-cache-control", b"max-age=60, no-store, must-understand=1"),
        ],
        cache: CacheKind::Shared,
        age: 0,
        understood: true,
        from: From::Target(1),
        reuse: Reuse::NotStored,
        by: Cause::NoStore,
    },
];
