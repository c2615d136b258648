//! What fields mean to caches and servers.
use http_header::{HeaderMap, HeaderName, HeaderValue};
use sf_field::ask;
use sf_use::{CacheStatus, Choice, PriorityField, merge, select};
use sf_value::{Blob, Int};
use std::hash::RandomState;
use std::test::Fail;

#[test]
fn the_path_of_a_response(rt: HostRuntime) -> Result<(), Fail> {
    let alloc = rt.alloc();
    let seed = RandomState::new(&rt)?;
    let lines = [
        Blob::new(alloc, b"OriginCache; hit; ttl=1100")?,
        Blob::new(alloc, b"\"CDN Company Here\"; fwd=uri-miss")?,
    ];
    let path = ask(alloc, &seed, &CacheStatus, &lines)?;
    assert_eq!(&rt; path.hops().len(), 2);
    assert_eq!(&rt; path.served_by(), Some(0));
    assert_eq!(&rt; path.hops()[0].ttl, Some(Int::new(1100)?));
    Ok(())
}

#[test]
fn the_field_that_a_cache_obeys(rt: HostRuntime) -> Result<(), Fail> {
    let alloc = rt.alloc();
    let seed = RandomState::new(&rt)?;
    let targets = [
        HeaderName::from_static("example-cdn-cache-control"),
        HeaderName::from_static("cdn-cache-control"),
    ];
    let mut headers = HeaderMap::new(alloc);
    headers.append(
        HeaderName::from_static("cdn-cache-control"),
        HeaderValue::from_static("max-age=600, no-cache=?0"),
    )?;
    match select(alloc, &seed, &targets, &headers)? {
        Choice::Field { index, policy } => {
            assert_eq!(&rt; index, 1);
            assert_eq!(&rt; policy.lifetime(true), Some(600));
            assert!(&rt; !policy.no_cache);
        }
        Choice::Fallback => return Err(Fail::from("no field can be used")),
    }
    Ok(())
}

#[test]
fn the_priority_of_a_response(rt: HostRuntime) -> Result<(), Fail> {
    let alloc = rt.alloc();
    let seed = RandomState::new(&rt)?;
    let request = [Blob::new(alloc, b"u=5, i")?];
    let response = [Blob::new(alloc, b"u=1")?];
    let client = ask(alloc, &seed, &PriorityField, &request)?;
    let server = ask(alloc, &seed, &PriorityField, &response)?;
    assert_eq!(&rt; client.incremental, Some(true));
    let priority = merge(client, server).with_defaults();
    assert_eq!(&rt; priority.urgency.get(), 1);
    assert!(&rt; priority.incremental);
    Ok(())
}
