//! `targeted`: which field is obeyed, and which lines are read, dropped or refused.
use crate::rows::{ACCEPTED, REFUSED, Row, expect_rows, expect_whole};
use http_header::HeaderName;
use sf_tool::Request;
use std::alloc::{AllocError, Global};
use std::hash::RandomState;
use std::test::Fail;

fn of_one(alloc: Global, name: HeaderName) -> Result<Request, AllocError> {
    let mut names = Vec::new(alloc);
    names.push(name)?;
    Ok(Request::Targeted(names))
}

fn of_two(alloc: Global, first: HeaderName, second: HeaderName) -> Result<Request, AllocError> {
    let mut names = Vec::new(alloc);
    names.push(first)?;
    names.push(second)?;
    Ok(Request::Targeted(names))
}

#[test]
fn fields_of_two_names(rt: HostRuntime) -> Result<(), Fail> {
    let seed = RandomState::new(&rt)?;
    let rows: [Row; 6] = [
        (
            b"CDN-Cache-Control: max-age=60,\nX-Cache-Control: max-age=30, s-maxage=90, no-store=?0\n",
            b"field 1 x-cache-control\nlifetime shared 90\nlifetime private 30\n",
            ACCEPTED,
        ),
        (
            b"x-cache-control: max-age=30\r\n\r\ncdn-cache-control:no-cache,\tprivate\n",
            b"field 0 cdn-cache-control\nlifetime shared none\nlifetime private none\nno-cache\nprivate\n",
            ACCEPTED,
        ),
        (b"X-Cache-Control:\n", b"fallback\n", ACCEPTED),
        (b"", b"fallback\n", ACCEPTED),
        (b"\nnonsense\n", b"refused line 1\n", REFUSED),
        (b" : 1", b"refused line 0\n", REFUSED),
    ];
    let request = of_two(
        rt.alloc(),
        HeaderName::from_static("cdn-cache-control"),
        HeaderName::from_static("x-cache-control"),
    )?;
    expect_rows(&rt, &seed, &request, &rows);
    Ok(())
}

#[test]
fn fields_of_one_name(rt: HostRuntime) -> Result<(), Fail> {
    let seed = RandomState::new(&rt)?;
    let cdn: [Row; 2] = [
        (
            b"cdn-cache-control: no-store",
            b"field 0 cdn-cache-control\nlifetime shared none\nlifetime private none\nno-store\n",
            ACCEPTED,
        ),
        (
            b"cdn-cache-control: must-revalidate, no-store, no-cache=\"x\", private=(a b), max-age=1",
            b"field 0 cdn-cache-control\nlifetime shared 1\nlifetime private 1\n\
              must-revalidate\nno-store\nno-cache\nprivate\n",
            ACCEPTED,
        ),
    ];
    expect_rows(
        &rt,
        &seed,
        &of_one(rt.alloc(), HeaderName::from_static("cdn-cache-control"))?,
        &cdn,
    );
    let age: [Row; 1] = [(b"b: 1\n: 2\n", b"refused line 1\n", REFUSED)];
    expect_rows(
        &rt,
        &seed,
        &of_one(rt.alloc(), HeaderName::from_static("age"))?,
        &age,
    );
    let a: [Row; 3] = [
        (
            b"b: \x00\na: no-store",
            b"field 0 a\nlifetime shared none\nlifetime private none\nno-store\n",
            ACCEPTED,
        ),
        (b"a: no-store\x01\n", b"refused line 0\n", REFUSED),
        (
            b"a: max-age=1\na: private\n",
            b"field 0 a\nlifetime shared 1\nlifetime private 1\nprivate\n",
            ACCEPTED,
        ),
    ];
    expect_rows(
        &rt,
        &seed,
        &of_one(rt.alloc(), HeaderName::from_static("a"))?,
        &a,
    );
    Ok(())
}

/// Lines of the names `cdn-cache-control` and `a`, which are listed, and of others.
#[test]
fn lines_that_are_read(rt: HostRuntime) -> Result<(), Fail> {
    let seed = RandomState::new(&rt)?;
    let rows: [Row; 8] = [
        (
            b"CDN-Cache-Control: max-age=60,\nA: max-age=30, no-store=?0\n",
            b"field 1 a\nlifetime shared 30\nlifetime private 30\n",
            ACCEPTED,
        ),
        (b"A:\n", b"fallback\n", ACCEPTED),
        (
            b"a:max-age=5;x=:YQ==:",
            b"field 1 a\nlifetime shared 5\nlifetime private 5\n",
            ACCEPTED,
        ),
        (
            b"\ta:\t max-age=6 \t\r\n",
            b"field 1 a\nlifetime shared 6\nlifetime private 6\n",
            ACCEPTED,
        ),
        (
            b"a: max-age=7\t,\tprivate",
            b"field 1 a\nlifetime shared 7\nlifetime private 7\nprivate\n",
            ACCEPTED,
        ),
        (b"a: \x80\xff", b"fallback\n", ACCEPTED),
        (b"b: 1\naa: 2\n", b"fallback\n", ACCEPTED),
        (b"b: \x7f\x01", b"fallback\n", ACCEPTED),
    ];
    let request = of_two(
        rt.alloc(),
        HeaderName::from_static("cdn-cache-control"),
        HeaderName::from_static("a"),
    )?;
    expect_rows(&rt, &seed, &request, &rows);
    Ok(())
}

#[test]
fn lines_that_are_refused(rt: HostRuntime) -> Result<(), Fail> {
    let seed = RandomState::new(&rt)?;
    let rows: [Row; 13] = [
        (b"b", b"refused line 0\n", REFUSED),
        (b":", b"refused line 0\n", REFUSED),
        (b": a", b"refused line 0\n", REFUSED),
        (b"a : 1", b"refused line 0\n", REFUSED),
        (b"b c: 1", b"refused line 0\n", REFUSED),
        (b"\xc3\xa9: 1", b"refused line 0\n", REFUSED),
        (b"HTTP/1.1 200 OK\n", b"refused line 0\n", REFUSED),
        (b":status: 200\n", b"refused line 0\n", REFUSED),
        (b"a: \x1f", b"refused line 0\n", REFUSED),
        (b"a: x\x7fy", b"refused line 0\n", REFUSED),
        (b"a: x\r\r\n", b"refused line 0\n", REFUSED),
        (
            b"a: 1\n\n \t\nb: \x00\na: \x00\nc\n",
            b"refused line 4\n",
            REFUSED,
        ),
        (b"a: 1\n\r\nc\na: \x00", b"refused line 2\n", REFUSED),
    ];
    let request = of_one(rt.alloc(), HeaderName::from_static("a"))?;
    expect_rows(&rt, &seed, &request, &rows);
    Ok(())
}

/// Lines of which none has a listed name.
#[test]
fn lines_of_other_names(rt: HostRuntime) -> Result<(), Fail> {
    let seed = RandomState::new(&rt)?;
    let rows: [Row; 2] = [
        (b"a: \x00\nb: 1", b"fallback\n", ACCEPTED),
        (b"a: 1\nb", b"refused line 1\n", REFUSED),
    ];
    let request = of_one(rt.alloc(), HeaderName::from_static("z"))?;
    expect_rows(&rt, &seed, &request, &rows);
    Ok(())
}

/// A request of so many names `a` and one other after them.
fn of_many(alloc: Global, count: usize, last: HeaderName) -> Result<Request, AllocError> {
    let mut names = Vec::new(alloc);
    for _ in 0..count {
        names.push(HeaderName::from_static("a"))?;
    }
    names.push(last)?;
    Ok(Request::Targeted(names))
}

/// The last of 64 names is there, as in a command line of the most names.
#[test]
fn the_last_of_64_names(rt: HostRuntime) -> Result<(), Fail> {
    let seed = RandomState::new(&rt)?;
    let rows: [Row; 1] = [(
        b"b: no-store\n",
        b"field 63 b\nlifetime shared none\nlifetime private none\nno-store\n",
        ACCEPTED,
    )];
    let request = of_many(rt.alloc(), 63, HeaderName::from_static("b"))?;
    expect_rows(&rt, &seed, &request, &rows);
    Ok(())
}

/// More names than a header map can hold make no difference.
#[test]
fn more_names_than_a_map_holds(rt: HostRuntime) -> Result<(), Fail> {
    let seed = RandomState::new(&rt)?;
    let request = of_many(rt.alloc(), 24_575, HeaderName::from_static("b"))?;
    expect_whole(&rt, &seed, &request, (b"", b"fallback\n", ACCEPTED));
    expect_whole(&rt, &seed, &request, (b"c", b"refused line 0\n", REFUSED));
    Ok(())
}

fn decide_by(alloc: Global, name: HeaderName, age: u64) -> Result<Request, AllocError> {
    let mut names = Vec::new(alloc);
    names.push(name)?;
    Ok(Request::Decide(names, age))
}

/// What a cache decides by the field that it obeys, or by `Cache-Control`, by both dialects.
#[test]
fn decisions(rt: HostRuntime) -> Result<(), Fail> {
    let seed = RandomState::new(&rt)?;
    let rows: [Row; 8] = [
        // The field is obeyed, and Cache-Control is not.
        (
            b"CDN-Cache-Control: max-age=60, s-maxage=90\nCache-Control: no-store\n",
            b"by RFC 8941 and RFC 9651:\nfield 0 cdn-cache-control\n\
              lifetime shared 90\nlifetime private 60\n\
              shared fresh 80 s-maxage\nprivate fresh 50 max-age\n",
            ACCEPTED,
        ),
        // Cache-Control decides, by its own grammar (RFC 9111 section 5.2).
        (
            b"Cache-Control: No-Store,, Max-Age=\"60\",\n",
            b"by RFC 8941 and RFC 9651:\nfallback cache-control\n\
              lifetime shared 60\nlifetime private 60\nno-store\n\
              shared not-stored no-store\nprivate not-stored no-store\n",
            ACCEPTED,
        ),
        (
            b"cdn-cache-control:\ncache-control: private\ncache-control: must-revalidate, max-age=5\n",
            b"by RFC 8941 and RFC 9651:\nfallback cache-control\n\
              lifetime shared 5\nlifetime private 5\nmust-revalidate\nprivate\n\
              shared not-stored private\nprivate revalidate must-revalidate\n",
            ACCEPTED,
        ),
        // It is absent, and it is no list of directives.
        (
            b"",
            b"by RFC 8941 and RFC 9651:\nfallback cache-control\n\
              lifetime shared none\nlifetime private none\n\
              shared unspecified nothing\nprivate unspecified nothing\n",
            ACCEPTED,
        ),
        (
            b"cache-control: max-age=60 no-cache\n",
            b"by RFC 8941 and RFC 9651:\nfallback cache-control\n\
              lifetime shared none\nlifetime private none\nno-store\n\
              shared not-stored no-store\nprivate not-stored no-store\n",
            ACCEPTED,
        ),
        // RFC 8941 has no Dates, so the field is passed over by it.
        (
            b"CDN-Cache-Control: max-age=60, x=@1\nCache-Control: max-age=10\n",
            b"by RFC 8941:\nfallback cache-control\nlifetime shared 10\nlifetime private 10\n\
              shared stale max-age\nprivate stale max-age\n\
              by RFC 9651:\nfield 0 cdn-cache-control\nlifetime shared 60\nlifetime private 60\n\
              shared fresh 50 max-age\nprivate fresh 50 max-age\n",
            ACCEPTED,
        ),
        // A line of Cache-Control is read, too; others are not.
        (b"Cache-Control: \x01\n", b"refused line 0\n", REFUSED),
        (b"Expires: \x01\nnonsense\n", b"refused line 1\n", REFUSED),
    ];
    let request = decide_by(rt.alloc(), HeaderName::from_static("cdn-cache-control"), 10)?;
    expect_rows(&rt, &seed, &request, &rows);
    Ok(())
}

/// The examples of RFC 9213 sections 2.3 and 3.1, for a cache with the target list
/// `[CDN-Cache-Control]`: what is decided is what the section says.
#[test]
fn examples_for_a_cdn(rt: HostRuntime) -> Result<(), Fail> {
    let seed = RandomState::new(&rt)?;
    let rows: [Row; 4] = [
        // "instruct a CDN cache [..] to consider the response fresh for 600 seconds"
        (
            b"Cache-Control: max-age=60, s-maxage=120\nCDN-Cache-Control: max-age=600\n",
            b"by RFC 8941 and RFC 9651:\nfield 0 cdn-cache-control\n\
              lifetime shared 600\nlifetime private 600\n\
              shared fresh 600 max-age\nprivate fresh 600 max-age\n",
            ACCEPTED,
        ),
        // "all other caches would be prevented from storing it"
        (
            b"CDN-Cache-Control: max-age=600\nCache-Control: no-store\n",
            b"by RFC 8941 and RFC 9651:\nfield 0 cdn-cache-control\n\
              lifetime shared 600\nlifetime private 600\n\
              shared fresh 600 max-age\nprivate fresh 600 max-age\n",
            ACCEPTED,
        ),
        // "Because CDN-Cache-Control is not present, this header field would prevent all caches from
        // storing the response"
        (
            b"Cache-Control: no-store\n",
            b"by RFC 8941 and RFC 9651:\nfallback cache-control\n\
              lifetime shared none\nlifetime private none\nno-store\n\
              shared not-stored no-store\nprivate not-stored no-store\n",
            ACCEPTED,
        ),
        // "would prevent all caches except for CDN caches from storing the response"
        (
            b"Cache-Control: no-store\nCDN-Cache-Control: none\n",
            b"by RFC 8941 and RFC 9651:\nfield 0 cdn-cache-control\n\
              lifetime shared none\nlifetime private none\n\
              shared unspecified nothing\nprivate unspecified nothing\n",
            ACCEPTED,
        ),
    ];
    let fresh = decide_by(rt.alloc(), HeaderName::from_static("cdn-cache-control"), 0)?;
    expect_rows(&rt, &seed, &fresh, &rows);
    // "From the CDN's perspective, this response is still fresh after being cached for 30 minutes"
    let aged: [Row; 1] = [(
        b"Age: 1800\nCache-Control: max-age=600\nCDN-Cache-Control: max-age=3600\n",
        b"by RFC 8941 and RFC 9651:\nfield 0 cdn-cache-control\n\
          lifetime shared 3600\nlifetime private 3600\n\
          shared fresh 1800 max-age\nprivate fresh 1800 max-age\n",
        ACCEPTED,
    )];
    let old = decide_by(
        rt.alloc(),
        HeaderName::from_static("cdn-cache-control"),
        1800,
    )?;
    expect_rows(&rt, &seed, &old, &aged);
    Ok(())
}

/// The same heads, for a cache whose target list has none of their fields.
#[test]
fn examples_for_other_caches(rt: HostRuntime) -> Result<(), Fail> {
    let seed = RandomState::new(&rt)?;
    let rows: [Row; 3] = [
        // "other shared caches to consider the response fresh for 120 seconds, and any remaining
        // caches to consider the response fresh for 60 seconds"
        (
            b"Cache-Control: max-age=60, s-maxage=120\nCDN-Cache-Control: max-age=600\n",
            b"by RFC 8941 and RFC 9651:\nfallback cache-control\n\
              lifetime shared 120\nlifetime private 60\n\
              shared fresh 120 s-maxage\nprivate fresh 60 max-age\n",
            ACCEPTED,
        ),
        // "all other caches would be prevented from storing it"
        (
            b"CDN-Cache-Control: max-age=600\nCache-Control: no-store\n",
            b"by RFC 8941 and RFC 9651:\nfallback cache-control\n\
              lifetime shared none\nlifetime private none\nno-store\n\
              shared not-stored no-store\nprivate not-stored no-store\n",
            ACCEPTED,
        ),
        // "prevent all caches except for CDN caches from storing the response"
        (
            b"Cache-Control: no-store\nCDN-Cache-Control: none\n",
            b"by RFC 8941 and RFC 9651:\nfallback cache-control\n\
              lifetime shared none\nlifetime private none\nno-store\n\
              shared not-stored no-store\nprivate not-stored no-store\n",
            ACCEPTED,
        ),
    ];
    let fresh = decide_by(
        rt.alloc(),
        HeaderName::from_static("examplecdn-cache-control"),
        0,
    )?;
    expect_rows(&rt, &seed, &fresh, &rows);
    // "from the standpoint of other caches, this response is already stale"
    let aged: [Row; 1] = [(
        b"Age: 1800\nCache-Control: max-age=600\nCDN-Cache-Control: max-age=3600\n",
        b"by RFC 8941 and RFC 9651:\nfallback cache-control\n\
          lifetime shared 600\nlifetime private 600\n\
          shared stale max-age\nprivate stale max-age\n",
        ACCEPTED,
    )];
    let old = decide_by(
        rt.alloc(),
        HeaderName::from_static("examplecdn-cache-control"),
        1800,
    )?;
    expect_rows(&rt, &seed, &old, &aged);
    Ok(())
}
