//! Texts of `Cache-Control` with what its directives say (RFC 9111 section 5.2).
use crate::targeted::headers_of;
use sf_use::{CacheRules, Policy, fallback_rules};

const NO_POLICY: Policy = Policy {
    max_age: None,
    s_maxage: None,
    must_revalidate: false,
    no_store: false,
    no_cache: false,
    is_private: false,
};

const NONE: CacheRules = CacheRules {
    policy: NO_POLICY,
    invalid_max_age: false,
    invalid_s_maxage: false,
    proxy_revalidate: false,
    must_understand: false,
    is_public: false,
};

const NO_STORE: CacheRules = CacheRules {
    policy: Policy {
        no_store: true,
        ..NO_POLICY
    },
    ..NONE
};

const INVALID: CacheRules = CacheRules {
    invalid_max_age: true,
    ..NONE
};

const LISTED: CacheRules = CacheRules {
    policy: Policy {
        no_cache: true,
        is_private: true,
        ..NO_POLICY
    },
    ..NONE
};

const REVALIDATED: CacheRules = CacheRules {
    policy: Policy {
        must_revalidate: true,
        ..NO_POLICY
    },
    proxy_revalidate: true,
    ..NONE
};

const SHARED: CacheRules = CacheRules {
    policy: Policy {
        max_age: Some(5),
        s_maxage: Some(10),
        ..NO_POLICY
    },
    ..NONE
};

const OTHERS: CacheRules = CacheRules {
    must_understand: true,
    is_public: true,
    ..NONE
};

/// Rules with this max-age.
fn aged(seconds: u64) -> CacheRules {
    CacheRules {
        policy: Policy {
            max_age: Some(seconds),
            ..NO_POLICY
        },
        ..NONE
    }
}

/// Directives, and what they say.
#[test]
fn directives(rt: HostRuntime) {
    for &(text, want) in &[
        // 5.2.2.1, 5.2.2.10: the token form, and the quoted form that recipients ought to accept.
        (b"max-age=5".as_slice(), aged(5)),
        (b"max-age=\"5\"", aged(5)),
        (b"max-age=5, s-maxage=10", SHARED),
        (b"s-maxage=\"10\", max-age=\"5\"", SHARED),
        // RFC 9110 5.6.4: a quoted-pair is the octet after the backslash.
        (b"max-age=\"6\\0\"", aged(60)),
        // 5.2: names are compared case-insensitively.
        (b"no-store, Max-Age=0", with_no_store(0)),
        (b"NO-STORE", NO_STORE),
        (b"No-Cache, PRIVATE", LISTED),
        // 5.2.2.4, 5.2.2.7: with field names, and 5.2.3's example.
        (b"no-cache=\"set-cookie, x\", private=\"a\"", LISTED),
        (b"no-cache, private, community=\"UCI\"", LISTED),
        (b"must-revalidate, proxy-revalidate", REVALIDATED),
        (b"public, must-understand", OTHERS),
        (b"no-transform, stale-while-revalidate=60", NONE),
        // RFC 9110 5.6.1.2: empty elements of a list.
        (b"", NONE),
        (b",", NONE),
        (b" ,\t, ", NONE),
        (b"max-age=5,", aged(5)),
        (b",max-age=5 ,\t,no-transform,", aged(5)),
        // RFC 9110 5.6.4: a comma in a quoted-string is of its value.
        (b"ext=\"no-store, \\\"max-age=1\", max-age=60", aged(60)),
        (b"x=\"\\\\\", max-age=60", aged(60)),
        (b"x=\"\", max-age=60", aged(60)),
        (b"x=\"\t\xff\", max-age=60", aged(60)),
        // 4.2.1: more than one value, and invalid freshness information.
        (b"max-age=60, max-age=5", INVALID),
        (b"max-age=5, Max-Age=\"5\"", aged(5)),
        (b"max-age=05, max-age=5", aged(5)),
        (b"max-age=5, max-age", INVALID),
        (b"max-age=x, max-age=5", INVALID),
        (b"max-age", INVALID),
        (b"max-age=1.5", INVALID),
        (b"max-age=-1", INVALID),
        (b"max-age=\"\"", INVALID),
        (b"max-age=\" 5\"", INVALID),
        // 1.2.2: numbers from 2^31 on.
        (b"max-age=2147483647", aged(2147483647)),
        (b"max-age=2147483648", aged(2147483648)),
        (b"max-age=4294967297", aged(2147483648)),
        (b"max-age=18446744073709551616", aged(2147483648)),
        (b"max-age=000000000000000000000000000005", aged(5)),
    ] {
        assert_eq!(rt; CacheRules::of_cache_control(text), Some(want));
    }
}

/// Rules with no-store and this max-age.
fn with_no_store(seconds: u64) -> CacheRules {
    CacheRules {
        policy: Policy {
            max_age: Some(seconds),
            no_store: true,
            ..NO_POLICY
        },
        ..NONE
    }
}

/// Texts that are no list of directives.
#[test]
fn refused(rt: HostRuntime) {
    for &text in &[
        b"no-store x".as_slice(),
        b"no-store; max-age=5",
        b"no-store, a=",
        b"no-store, a=,b",
        b"no-store, =a",
        b"no-store, a =b",
        b"no-store, a= b",
        b"no-store, a=\"",
        b"no-store, a=\"b",
        b"no-store, a=\"b\\",
        b"no-store, a=\"b\"c",
        b"no-store, a=\"\x7f\"",
        b"no-store, a=\"\\\x01\"",
        b"no-store, a=b=c",
        b"no-store, \"a\"",
        b"no-store, a/b",
        b"no-store, a:b",
        b"no-store\0",
        b"no-store, \xe9",
    ] {
        assert_eq!(rt; CacheRules::of_cache_control(text), None);
    }
}

/// The rules of two lines that come one by one.
fn one_by_one(first: &[u8], second: &[u8]) -> Option<CacheRules> {
    CacheRules::default()
        .with_cache_control(first)?
        .with_cache_control(second)
}

/// The lines of a response, with what decides if no targeted field does.
#[test]
fn fallback(rt: HostRuntime) {
    let name = b"cache-control".as_slice();
    assert_eq!(rt; fallback_rules(&headers_of(&rt, &[])), NONE);
    assert_eq!(rt;
        fallback_rules(&headers_of(&rt, &[(b"x", b"no-store")])),
        NONE
    );
    for &(lines, want) in &[
        ([b"".as_slice(), b"max-age=5"], aged(5)),
        ([b"max-age=5", b"s-maxage=10"], SHARED),
        ([b"max-age=5", b"max-age=6"], INVALID),
        ([b"no-cache,", b",private"], LISTED),
        // A line that is refused, and a quoted-string that would go on in the next line.
        ([b"max-age=5", b"a b"], NO_STORE),
        ([b"a b", b"max-age=5"], NO_STORE),
        ([b"a=\"b", b"c\", max-age=5"], NO_STORE),
    ] {
        let [first, second] = lines;
        let headers = headers_of(&rt, &[(name, first), (b"x", b"y"), (name, second)]);
        assert_eq!(rt; fallback_rules(&headers), want);
        assert_eq!(rt; one_by_one(first, second).unwrap_or(NO_STORE), want);
    }
    let lines: [&[u8]; 2] = [b"max-age=5", b"max-age=5, s-maxage=10"];
    assert_eq!(rt;
        CacheRules::of_cache_control_lines(lines.iter()),
        Some(SHARED)
    );
}
