//! `cache-status` and `priority`.
use crate::rows::{ACCEPTED, REFUSED, Row, expect_rows};
use sf_tool::Request;
use std::hash::RandomState;
use std::test::Fail;

#[test]
fn cache_status(rt: HostRuntime) -> Result<(), Fail> {
    let seed = RandomState::new(&rt)?;
    let rows: [Row; 13] = [
        (
            b"OriginCache; hit; ttl=1100, \"CDN Company Here\"; hit; ttl=545\n",
            b"hop 0 OriginCache hit ttl=1100\nhop 1 \"CDN Company Here\" hit ttl=545\nserved 1\n",
            ACCEPTED,
        ),
        (
            b"c;hit;fwd=miss",
            b"hop 0 c conflict miss\nserved none\n",
            ACCEPTED,
        ),
        (b"", b"served none\n", ACCEPTED),
        (
            b"c;hit=?0;fwd=odd;fwd-status=99;stored;ttl=-3",
            b"hop 0 c forwarded odd stored=?1 ttl=-3\nserved none\n",
            ACCEPTED,
        ),
        (b"c;hit=\"x\"", b"hop 0 c unsaid\nserved none\n", ACCEPTED),
        (
            b"c;stored;fwd-status=304",
            b"hop 0 c unsaid\nserved none\n",
            ACCEPTED,
        ),
        (b"c;detail=1", b"hop 0 c unsaid\nserved none\n", ACCEPTED),
        (
            b"a;hit\nb;fwd=uri-miss;collapsed;stored\n",
            b"hop 0 a hit\nhop 1 b forwarded uri-miss stored=?1 collapsed=?1\nserved 0\n",
            ACCEPTED,
        ),
        (
            b"edge;fwd=stale;fwd-status=304;stored;detail=x",
            b"hop 0 edge forwarded stale status=304 stored=?1 detail=x\nserved none\n",
            ACCEPTED,
        ),
        (
            b"e;fwd=miss;detail=\"d\";key=\"k\\\"\";ttl=7;collapsed;stored=?0;fwd-status=200",
            b"hop 0 e forwarded miss status=200 stored=?0 collapsed=?1 ttl=7 key=\"k\\\"\" detail=\"d\"\n\
              served none\n",
            ACCEPTED,
        ),
        (b"7;hit", b"refused not a cache 0\n", REFUSED),
        (b"a, (b), 7", b"refused not a cache 1\n", REFUSED),
        (
            b"(a",
            b"refused at 2 ended expected 20-21 23-27 29-2b 2d-3b 41-5a 5e-7a 7c 7e\n",
            REFUSED,
        ),
    ];
    expect_rows(&rt, &seed, &Request::CacheStatus, &rows);
    Ok(())
}

#[test]
fn priority(rt: HostRuntime) -> Result<(), Fail> {
    let seed = RandomState::new(&rt)?;
    let rows: [Row; 8] = [
        (b"u=8, i", b"urgency 3 incremental true\n", ACCEPTED),
        (b"", b"urgency 3 incremental false\n", ACCEPTED),
        (b"u=1\ni\n", b"urgency 1 incremental true\n", ACCEPTED),
        (b"u=1.0", b"urgency 3 incremental false\n", ACCEPTED),
        (b"u=-0", b"urgency 0 incremental false\n", ACCEPTED),
        (b"u=1, u=9", b"urgency 3 incremental false\n", ACCEPTED),
        (b"i=1, u=7;x", b"urgency 7 incremental false\n", ACCEPTED),
        (
            b"u=",
            b"refused at 2 ended expected 22 25 28 2a 2d 30-3a 3f-5a 61-7a\n",
            REFUSED,
        ),
    ];
    expect_rows(&rt, &seed, &Request::Priority, &rows);
    Ok(())
}
