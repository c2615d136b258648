//! Heads of responses with what caches decide about them.
use http_header::HeaderName;
use sf_lint::{CacheSettings, Options, Settings, run_with};
use sf_tool::Status;
use sf_value::{Reading, Writing};
use std::alloc::AllocError;
use std::hash::RandomState;
use std::process::Abort;
use std::test::Fail;

/// An input, and the whole output for it with `quiet`: decisions.
type Row = (&'static [u8], &'static [u8]);

/// A target list with one name.
fn one(rt: &impl AllocGlobal, name: HeaderName) -> Result<Vec<HeaderName>, AllocError> {
    let mut targets = Vec::new(rt.alloc());
    targets.push(name)?;
    Ok(targets)
}

/// The options that print decisions with this target list, and this age.
fn deciding(
    rt: &impl AllocGlobal,
    targets: Vec<HeaderName>,
    age: Option<u64>,
    quiet: bool,
) -> Options {
    let settings = Settings {
        fields: Vec::new(rt.alloc()),
        quiet,
        colour: false,
    };
    let caches = Some(CacheSettings { targets, age });
    Options { settings, caches }
}

/// The input gives this output and this status.
fn expect(
    rt: &(impl Abort + AllocGlobal),
    seed: &RandomState,
    options: &Options,
    row: Row,
    status: Status,
) {
    let mut source = Reading::new(row.0);
    let mut sink = Writing::new(Vec::new(rt.alloc()));
    let answer = run_with(rt.alloc(), seed, options, &mut source, &mut sink);
    assert_eq!(rt; sink.into_inner().as_slice(), row.1);
    assert_eq!(rt; answer, status);
}

/// The heads of RFC 9213 sections 2.3 and 3.1: what a CDN decides, whose target list is
/// `CDN-Cache-Control`, and what other caches decide.
#[test]
fn heads_of_the_rfc(rt: HostRuntime) -> Result<(), Fail> {
    let seed = RandomState::new(&rt)?;
    let cdn = deciding(
        &rt,
        one(&rt, HeaderName::from_static("cdn-cache-control"))?,
        None,
        true,
    );
    let other = deciding(&rt, one(&rt, HeaderName::from_static("none"))?, None, true);
    let rows: [(&'static [u8], &'static [u8], &'static [u8]); 5] = [
        (
            b"Age: 1800\nCache-Control: max-age=600\nCDN-Cache-Control: max-age=3600\n",
            b"decision cdn-cache-control: shared fresh 1800 max-age\n\
              decision cdn-cache-control: private fresh 1800 max-age\n",
            b"decision cache-control: shared stale max-age\n\
              decision cache-control: private stale max-age\n",
        ),
        (
            b"Cache-Control: max-age=60, s-maxage=120\nCDN-Cache-Control: max-age=600\n",
            b"decision cdn-cache-control: shared fresh 600 max-age\n\
              decision cdn-cache-control: private fresh 600 max-age\n",
            b"decision cache-control: shared fresh 120 s-maxage\n\
              decision cache-control: private fresh 60 max-age\n",
        ),
        (
            b"CDN-Cache-Control: max-age=600\nCache-Control: no-store\n",
            b"decision cdn-cache-control: shared fresh 600 max-age\n\
              decision cdn-cache-control: private fresh 600 max-age\n",
            b"decision cache-control: shared not-stored no-store\n\
              decision cache-control: private not-stored no-store\n",
        ),
        (
            b"Cache-Control: no-store\n",
            b"decision cache-control: shared not-stored no-store\n\
              decision cache-control: private not-stored no-store\n",
            b"decision cache-control: shared not-stored no-store\n\
              decision cache-control: private not-stored no-store\n",
        ),
        (
            b"Cache-Control: no-store\nCDN-Cache-Control: none\n",
            b"decision cdn-cache-control: shared unspecified nothing\n\
              decision cdn-cache-control: private unspecified nothing\n",
            b"decision cache-control: shared not-stored no-store\n\
              decision cache-control: private not-stored no-store\n",
        ),
    ];
    for (head, by_cdn, by_others) in rows {
        expect(&rt, &seed, &cdn, (head, by_cdn), Status::Accepted);
        expect(&rt, &seed, &other, (head, by_others), Status::Accepted);
    }
    Ok(())
}

/// What a status code permits (RFC 9111 section 3, RFC 9110 section 15), and `must-understand` (RFC
/// 9111 section 5.2.2.3).
#[test]
fn status_codes(rt: HostRuntime) -> Result<(), Fail> {
    let seed = RandomState::new(&rt)?;
    let options = deciding(
        &rt,
        one(&rt, HeaderName::from_static("cdn-cache-control"))?,
        None,
        true,
    );
    let rows: [Row; 11] = [
        // "heuristically cacheable"
        (
            b"HTTP/1.1 404 Not Found\n",
            b"decision cache-control: shared unspecified nothing\n\
              decision cache-control: private unspecified nothing\n",
        ),
        // "all other status codes are not"
        (
            b"HTTP/2 302 \r\nLocation: /\r\n\r\n",
            b"decision cache-control: shared not-stored status\n\
              decision cache-control: private not-stored status\n",
        ),
        (
            b"HTTP/2 302 \nCache-Control: no-cache\n",
            b"decision cache-control: shared not-stored status\n\
              decision cache-control: private not-stored status\n",
        ),
        // "a private response directive, if the cache is not shared"
        (
            b"HTTP/2 302\nCache-Control: private\n",
            b"decision cache-control: shared not-stored private\n\
              decision cache-control: private unspecified nothing\n",
        ),
        // "if the cache is shared: an s-maxage response directive"
        (
            b"HTTP/2 302\nCache-Control: s-maxage=5\n",
            b"decision cache-control: shared fresh 5 s-maxage\n\
              decision cache-control: private not-stored status\n",
        ),
        // "an Expires header field"
        (
            b"HTTP/2 302\nExpires: Thu, 01 Dec 1994 16:00:00 GMT\nDate: Thu, 01 Dec 1994 15:59:00 GMT\nAge: 20\n",
            b"decision cache-control: shared fresh 40 expires\n\
              decision cache-control: private fresh 40 expires\n",
        ),
        // a cache that obeys a targeted field "MUST ignore the Cache-Control and Expires header
        // fields in that response" (RFC 9213 section 2.2)
        (
            b"HTTP/2 302\nExpires: Thu, 01 Dec 1994 16:00:00 GMT\nDate: Thu, 01 Dec 1994 15:59:00 GMT\nCDN-Cache-Control: none\n",
            b"decision cdn-cache-control: shared not-stored status\n\
              decision cdn-cache-control: private not-stored status\n",
        ),
        // "the response status code is final"
        (
            b"HTTP/1.1 103 Early Hints\nCache-Control: max-age=60\n",
            b"decision cache-control: shared not-stored status\n\
              decision cache-control: private not-stored status\n",
        ),
        // "if it understands and implements the status code's caching requirements"
        (
            b"HTTP/1.1 200 OK\nCDN-Cache-Control: max-age=60, must-understand, no-store\n",
            b"decision cdn-cache-control: shared fresh 60 max-age\n\
              decision cdn-cache-control: private fresh 60 max-age\n",
        ),
        (
            b"HTTP/1.1 299 Else\nCDN-Cache-Control: max-age=60, must-understand\n",
            b"decision cdn-cache-control: shared not-stored must-understand\n\
              decision cdn-cache-control: private not-stored must-understand\n",
        ),
        // no three digits
        (
            b"HTTP/1.1 20\nCache-Control: max-age=60, must-understand\n",
            b"decision cache-control: shared not-stored must-understand\n\
              decision cache-control: private not-stored must-understand\n",
        ),
    ];
    for row in rows {
        expect(&rt, &seed, &options, row, Status::Accepted);
    }
    Ok(())
}

/// Ages (RFC 9111 section 5.1), and `Expires` without a `Date`.
#[test]
fn ages(rt: HostRuntime) -> Result<(), Fail> {
    let seed = RandomState::new(&rt)?;
    let stated = deciding(
        &rt,
        one(&rt, HeaderName::from_static("cdn-cache-control"))?,
        None,
        true,
    );
    let given = deciding(
        &rt,
        one(&rt, HeaderName::from_static("cdn-cache-control"))?,
        Some(59),
        true,
    );
    let fresh_1 = b"decision cache-control: shared fresh 1 max-age\n\
                    decision cache-control: private fresh 1 max-age\n";
    let fresh_60 = b"decision cache-control: shared fresh 60 max-age\n\
                     decision cache-control: private fresh 60 max-age\n";
    let stale = b"decision cache-control: shared stale max-age\n\
                  decision cache-control: private stale max-age\n";
    let rows: [Row; 8] = [
        (b"Cache-Control: max-age=60\n", fresh_60),
        (b"Cache-Control: max-age=60\nAge: 59\n", fresh_1),
        (
            b"Cache-Control: max-age=60\nAge:\t0059 , 7\nAge: 8\n",
            fresh_1,
        ),
        (b"Cache-Control: max-age=60\nAge: 60\n", stale),
        (
            b"Cache-Control: max-age=60\nAge: 99999999999999999999\n",
            stale,
        ),
        (b"Cache-Control: max-age=60\nAge: -1\n", fresh_60),
        (b"Cache-Control: max-age=60\nAge: 59.0\n", fresh_60),
        (b"Cache-Control: max-age=60\nAge:\n", fresh_60),
    ];
    for row in rows {
        expect(&rt, &seed, &stated, row, Status::Accepted);
        expect(&rt, &seed, &given, (row.0, fresh_1), Status::Accepted);
    }
    let row: Row = (
        b"Expires: Thu, 01 Dec 1994 16:00:00 GMT\n",
        b"decision cache-control: shared stale expires\n\
          decision cache-control: private stale expires\n",
    );
    expect(&rt, &seed, &stated, row, Status::Accepted);
    Ok(())
}

/// Several heads, a head of a request, lines that are no field lines, and a field of which the
/// dialects differ.
#[test]
fn whole_outputs(rt: HostRuntime) -> Result<(), Fail> {
    let seed = RandomState::new(&rt)?;
    let mut targets = one(&rt, HeaderName::from_static("examplecdn-cache-control"))?;
    targets.push(HeaderName::from_static("cdn-cache-control"))?;
    let options = deciding(&rt, targets, None, false);
    let rows: [(&'static [u8], &'static [u8], Status); 10] = [
        (b"", b"other fields: 0\n", Status::Accepted),
        (b"\r\n\n", b"other fields: 0\n", Status::Accepted),
        (
            b"HTTP/1.1 301 Moved\r\nLocation: /\r\nCache-Control: max-age=5\r\n\r\n\
              HTTP/2 200 \r\nExampleCDN-Cache-Control: x=,\r\ncdn-cache-control: max-age=600\r\n\
              CACHE-CONTROL: no-store\r\nAge: 100\r\n\r\n",
            b"HTTP/1.1 301 Moved\n\
              decision cache-control: shared fresh 5 max-age\n\
              decision cache-control: private fresh 5 max-age\n\
              HTTP/2 200 \n\
              refused examplecdn-cache-control: byte 0x2c ',' at place 2, expected \
              a letter, a digit, a quote, `(`, `*`, `-`, `:` or `?`\n\
              line 6, place 28:\nExampleCDN-Cache-Control: x=,\n\
              \x20                           ^\n\
              ok cdn-cache-control: max-age=600\nlifetime shared 600\nlifetime private 600\n\
              decision cdn-cache-control: shared fresh 500 max-age\n\
              decision cdn-cache-control: private fresh 500 max-age\n\
              other fields: 4\n",
            Status::Refused,
        ),
        (
            b"GET / HTTP/1.1\nCache-Control: no-cache\nHTTP/1.1 200 OK\nCache-Control: no-cache\n",
            b"GET / HTTP/1.1\nHTTP/1.1 200 OK\n\
              decision cache-control: shared revalidate no-cache\n\
              decision cache-control: private revalidate no-cache\nother fields: 2\n",
            Status::Accepted,
        ),
        // a Date, which RFC 9651 added
        (
            b"CDN-Cache-Control: max-age=60, x=@1\nCache-Control: no-store\n",
            b"refused cdn-cache-control: byte 0x40 '@' at place 14, expected \
              a letter, a digit, a quote, `(`, `*`, `-`, `:` or `?`\n\
              line 1, place 33:\nCDN-Cache-Control: max-age=60, x=@1\n\
              \x20                                ^\n\
              above by RFC 8941, below by RFC 9651:\nok cdn-cache-control: max-age=60, x=@1\n\
              lifetime shared 60\nlifetime private 60\n\
              by RFC 8941:\n\
              decision cache-control: shared not-stored no-store\n\
              decision cache-control: private not-stored no-store\n\
              by RFC 9651:\n\
              decision cdn-cache-control: shared fresh 60 max-age\n\
              decision cdn-cache-control: private fresh 60 max-age\nother fields: 1\n",
            Status::Refused,
        ),
        // a line that goes on an earlier one may have `no-store`
        (
            b"HTTP/1.1 200 OK\nCache-Control: max-age=60,\n no-store\n",
            b"HTTP/1.1 200 OK\nrefused line 3: obsolete line folding\nline 3, place 0:\n no-store\n^\n\
              decision none: line 3 is no field line\nother fields: 1\n",
            Status::Refused,
        ),
        // also if its third word is a version: a method is a token, and such a line has none
        (
            b"HTTP/1.1 200 OK\nCache-Control: max-age=60,\n no-store HTTP/1.1\n",
            b"HTTP/1.1 200 OK\nrefused line 3: obsolete line folding\nline 3, place 0:\n no-store HTTP/1.1\n^\n\
              decision none: line 3 is no field line\nother fields: 1\n",
            Status::Refused,
        ),
        (
            b"HTTP/1.1 200 OK\nCache-Control: max-age=60\nno-store, x HTTP/1.1\n",
            b"HTTP/1.1 200 OK\nrefused line 3: not a field line\nline 3, place 8:\nno-store, x HTTP/1.1\n        ^\n\
              decision none: line 3 is no field line\nother fields: 1\n",
            Status::Refused,
        ),
        // nor is the status line one with a bare CR: what caches decide is not known
        (
            b"HTTP/1.1 200 OK\r\r\nCache-Control: max-age=60\r\n",
            b"refused line 1: a CR or NUL in a start line\nline 1, place 15:\n\
              HTTP/1.1 200 OK?\n\x20              ^\n\
              decision none: line 1 is no field line\nother fields: 1\n",
            Status::Refused,
        ),
        (
            b"\nServer: x\nCache-Control: max-age=60\x01\n",
            b"decision none: line 3 is no field line\nother fields: 2\n",
            Status::Accepted,
        ),
    ];
    for (head, text, status) in rows {
        expect(&rt, &seed, &options, (head, text), status);
    }
    Ok(())
}
