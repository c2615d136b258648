//! Heads whose output is known.
use http_header::HeaderName;
use sf_lint::{CustomField, Settings, is_coloured, run};
use sf_tool::Status;
use sf_value::{Kind, Reading, Writing};
use std::hash::RandomState;
use std::process::Abort;
use std::test::Fail;

/// An input, the whole output for it, and the status.
type Row = (&'static [u8], &'static [u8], Status);

/// The input gives this output and this status, without colours.
fn expect_row(rt: &(impl Abort + AllocGlobal), seed: &RandomState, row: Row) {
    let settings = Settings {
        fields: Vec::new(rt.alloc()),
        quiet: false,
        colour: false,
    };
    expect_with(rt, seed, settings, row);
}

/// The input gives this output and this status by these settings.
fn expect_with(rt: &(impl Abort + AllocGlobal), seed: &RandomState, settings: Settings, row: Row) {
    let (input, text, status) = row;
    let mut source = Reading::new(input);
    let mut sink = Writing::new(Vec::new(rt.alloc()));
    let answer = run(rt.alloc(), seed, &settings, &mut source, &mut sink);
    let written = sink.into_inner();
    assert_eq!(rt; written.as_slice(), text);
    assert_eq!(rt; answer, status);
}

#[test]
fn heads(rt: HostRuntime) -> Result<(), Fail> {
    let seed = RandomState::new(&rt)?;
    let rows: [Row; 8] = [
        (b"", b"other fields: 0\n", Status::Accepted),
        (
            b"HTTP/2 200 \r\ncache-status: OriginCache; hit; ttl=1100\r\npriority: u=1,i\r\nserver: x\r\n\r\n",
            b"HTTP/2 200 \nok cache-status: OriginCache;hit;ttl=1100\nhop 0 OriginCache hit ttl=1100\n\
              served 0\nok priority: u=1, i\nurgency 1 incremental true\nother fields: 1\n",
            Status::Accepted,
        ),
        (
            b"HTTP/1.1 200 OK\nPriority:  u=,i\nServer: a\n b\nnonsense\n",
            b"HTTP/1.1 200 OK\nrefused priority: byte 0x2c ',' at place 2, expected \
              a letter, a digit, a quote, `(`, `*`, `-`, `:` or `?`\n\
              line 2, place 13:\nPriority:  u=,i\n             ^\n\
              refused line 4: obsolete line folding\nline 4, place 0:\n b\n^\n\
              refused line 5: not a field line\nline 5, place 8:\nnonsense\n        ^\nother fields: 1\n",
            Status::Refused,
        ),
        // A byte that no field name has, before a colon and without one; no name; no tab is shown.
        (
            b"Bad name: x\nno colon\n: x\n\t\xff: x\nh\xc3\xa9: x\n",
            b"refused line 1: not a field line\nline 1, place 3:\nBad name: x\n   ^\n\
              refused line 2: not a field line\nline 2, place 2:\nno colon\n  ^\n\
              refused line 3: not a field line\nline 3, place 0:\n: x\n^\n\
              refused line 4: obsolete line folding\nline 4, place 0:\n??: x\n^\n\
              refused line 5: not a field line\nline 5, place 1:\nh??: x\n ^\nother fields: 0\n",
            Status::Refused,
        ),
        // No start line has a CR or NUL, so none of these lines begins a message. Of two CRs before an
        // LF, the first is in the line, and so is one that no LF follows.
        (
            b"HTTP/1.1 200 O\rK\nPriority: u=1\nHTTP/1.1 200 OK\r\r\npriority: i\n\
              GET /\0 HTTP/1.1\r\nHTTP/1.1 200 OK\r",
            b"refused line 1: a CR or NUL in a start line\nline 1, place 14:\n\
              HTTP/1.1 200 O?K\n\x20             ^\n\
              ok priority: u=1, i\nurgency 1 incremental true\n\
              refused line 3: a CR or NUL in a start line\nline 3, place 15:\n\
              HTTP/1.1 200 OK?\n\x20              ^\n\
              refused line 5: a CR or NUL in a start line\nline 5, place 5:\n\
              GET /? HTTP/1.1\n\x20    ^\n\
              refused line 6: a CR or NUL in a start line\nline 6, place 15:\n\
              HTTP/1.1 200 OK?\n\x20              ^\nother fields: 0\n",
            Status::Refused,
        ),
        (
            b"Cache-Status: A; hit\nX: y\nCACHE-STATUS: B; fwd=miss;;\n",
            b"refused cache-status: byte 0x3b ';' at place 20, expected a lower-case letter, `*` or a space\n\
              line 3, place 26:\nCACHE-STATUS: B; fwd=miss;;\n                          ^\nother fields: 1\n",
            Status::Refused,
        ),
        (
            b"GET /a:b HTTP/1.1\nPriority: u=1\n\nHTTP/1.1 200 OK\npriority: i\nPRIORITY: u=2\n",
            b"GET /a:b HTTP/1.1\nok priority: u=1\nurgency 1 incremental false\n\
              HTTP/1.1 200 OK\nok priority: i, u=2\nurgency 2 incremental true\nother fields: 0\n",
            Status::Accepted,
        ),
        (
            b"Example-CDN-Cache-Control: max-age=60\nDeprecation: @1688169599\nSec-GPC: @1\n",
            b"ok example-cdn-cache-control: max-age=60\nlifetime shared 60\nlifetime private 60\n\
              ok deprecation: @1688169599\n\
              refused sec-gpc: byte 0x40 '@' at place 0, expected \
              a letter, a digit, a quote, `*`, `-`, `:`, `?` or a space\n\
              line 3, place 9:\nSec-GPC: @1\n         ^\nabove by RFC 8941, below by RFC 9651:\nok sec-gpc: @1\n\
              other fields: 0\n",
            Status::Refused,
        ),
    ];
    for row in rows {
        expect_row(&rt, &seed, row);
    }
    Ok(())
}

/// Fields that RFC 8941 refuses and RFC 9651 accepts, with what they are by both; and one that both
/// refuse.
#[test]
fn fields_of_two_dialects(rt: HostRuntime) -> Result<(), Fail> {
    let seed = RandomState::new(&rt)?;
    let rows: [Row; 3] = [
        (
            b"CDN-Cache-Control: max-age=60, x=@1\n",
            b"refused cdn-cache-control: byte 0x40 '@' at place 14, expected \
              a letter, a digit, a quote, `(`, `*`, `-`, `:` or `?`\n\
              line 1, place 33:\nCDN-Cache-Control: max-age=60, x=@1\n\
              \x20                                ^\n\
              above by RFC 8941, below by RFC 9651:\nok cdn-cache-control: max-age=60, x=@1\n\
              lifetime shared 60\nlifetime private 60\nother fields: 0\n",
            Status::Refused,
        ),
        (
            b"Cache-Status: @1\n",
            b"refused cache-status: byte 0x40 '@' at place 0, expected \
              a letter, a digit, a quote, `(`, `*`, `-`, `:`, `?`, a space or the end\n\
              line 1, place 14:\nCache-Status: @1\n              ^\n\
              above by RFC 8941, below by RFC 9651:\nrefused cache-status: member 0 names no cache\nother fields: 0\n",
            Status::Refused,
        ),
        (
            b"Priority: u=@x\n",
            b"refused priority: byte 0x40 '@' at place 2, expected \
              a letter, a digit, a quote, `(`, `*`, `-`, `:` or `?`\n\
              line 1, place 12:\nPriority: u=@x\n            ^\nother fields: 0\n",
            Status::Refused,
        ),
    ];
    for row in rows {
        expect_row(&rt, &seed, row);
    }
    Ok(())
}

/// Hops with both `hit` and `fwd` (RFC 9211 section 2.1), and with a status that is outside 100 to
/// 599 (RFC 9110 section 15).
#[test]
fn hops_with_what_is_invalid(rt: HostRuntime) -> Result<(), Fail> {
    let seed = RandomState::new(&rt)?;
    let rows: [Row; 3] = [
        (
            b"Cache-Status: a; hit; fwd=miss, b; hit=?0; fwd=stale\n",
            b"ok cache-status: a;hit;fwd=miss, b;hit=?0;fwd=stale\n\
              invalid hop 0 hit fwd\ninvalid hop 1 hit fwd\n\
              hop 0 a conflict miss\nhop 1 b forwarded stale\nserved none\nother fields: 0\n",
            Status::Accepted,
        ),
        (
            b"Cache-Status: a; fwd=miss; fwd-status=600, b; fwd=miss; fwd-status=599\n",
            b"ok cache-status: a;fwd=miss;fwd-status=600, b;fwd=miss;fwd-status=599\n\
              invalid hop 0 fwd-status\n\
              hop 0 a forwarded miss status=600\nhop 1 b forwarded miss status=599\nserved none\n\
              other fields: 0\n",
            Status::Accepted,
        ),
        (
            b"Cache-Status: a; fwd=miss; fwd-status=99, b; hit; fwd-status=999\n",
            b"ok cache-status: a;fwd=miss;fwd-status=99, b;hit;fwd-status=999\n\
              ignored hop 0 fwd-status\ninvalid hop 1 fwd-status\n\
              hop 0 a forwarded miss\nhop 1 b hit\nserved 1\nother fields: 0\n",
            Status::Accepted,
        ),
    ];
    for row in rows {
        expect_row(&rt, &seed, row);
    }
    Ok(())
}

/// Fields without a meaning, of one line and of two, with a repeated key, and without a member.
#[test]
fn fields_without_a_meaning(rt: HostRuntime) -> Result<(), Fail> {
    let seed = RandomState::new(&rt)?;
    let rows: [Row; 5] = [
        (
            b"Accept-CH: a ,\tb;x=1.50\r\n",
            b"ok accept-ch: a, b;x=1.5\nother fields: 0\n",
            Status::Accepted,
        ),
        (
            b"accept-ch: a ,  b\r\naccept-ch:c\r\n",
            b"ok accept-ch: a, b, c\nother fields: 0\n",
            Status::Accepted,
        ),
        (
            b"no-vary-search: params, x, params=(\"a\"  \"b\")\r\n",
            b"ok no-vary-search: params=(\"a\" \"b\"), x\nother fields: 0\n",
            Status::Accepted,
        ),
        (
            b"accept-ch:\r\nsec-gpc:  ?1 \r\n",
            b"ok accept-ch: \nok sec-gpc: ?1\nother fields: 0\n",
            Status::Accepted,
        ),
        (
            b"accept-ch: a\naccept-ch: ,\n",
            b"refused accept-ch: byte 0x2c ',' at place 3, expected \
              a letter, a digit, a quote, `(`, `*`, `-`, `:`, `?`, a tab or a space\n\
              line 2, place 11:\naccept-ch: ,\n           ^\nother fields: 0\n",
            Status::Refused,
        ),
    ];
    for row in rows {
        expect_row(&rt, &seed, row);
    }
    Ok(())
}

/// A head with twelve structured fields, of which three are wrong.
#[test]
fn twelve_fields(rt: HostRuntime) -> Result<(), Fail> {
    let seed = RandomState::new(&rt)?;
    let row: Row = (
        b"HTTP/2 200 \r\n\
          date: Tue, 25 Nov 2025 10:00:00 GMT\r\n\
          content-type: text/html; charset=utf-8\r\n\
          accept-ch: Sec-CH-UA-Model,Sec-CH-DPR\r\n\
          cache-status: \"cdn.example\"; fwd=stale; fwd-status=304, edge;hit;ttl=30\r\n\
          cdn-cache-control: max-age=600,no-store\r\n\
          cross-origin-opener-policy: same-origin; report-to=\"coop\"\r\n\
          deprecation: @1688169599\r\n\
          no-vary-search: params=(\"utm_source\" \"utm_medium\"\r\n\
          origin-agent-cluster: ?true\r\n\
          permissions-policy: geolocation=(), camera=(self  \"https://a.example\")\r\n\
          priority: u=1, i\r\n\
          reporting-endpoints: default=\"https://r.example/\"\r\n\
          repr-digest: sha-256=4REjxQ4yrqUVicfSKYNO/cF9zNj5ANbzgDZt3/h3Qxo=\r\n\
          supports-loading-mode: fenced-frame\r\n\
          server: example\r\n\
          \r\n",
        b"HTTP/2 200 \n\
          ok accept-ch: Sec-CH-UA-Model, Sec-CH-DPR\n\
          ok cache-status: \"cdn.example\";fwd=stale;fwd-status=304, edge;hit;ttl=30\n\
          hop 0 \"cdn.example\" forwarded stale status=304\n\
          hop 1 edge hit ttl=30\n\
          served 1\n\
          ok cdn-cache-control: max-age=600, no-store\n\
          lifetime shared 600\n\
          lifetime private 600\n\
          no-store\n\
          ok cross-origin-opener-policy: same-origin;report-to=\"coop\"\n\
          ok deprecation: @1688169599\n\
          refused no-vary-search: the text ended at place 33, expected `)`, `;` or a space\n\
          line 9, place 49:\n\
          no-vary-search: params=(\"utm_source\" \"utm_medium\"\n                                                 ^\n\
          refused origin-agent-cluster: byte 0x74 't' at place 1, expected `0` or `1`\n\
          line 10, place 23:\n\
          origin-agent-cluster: ?true\n                       ^\n\
          ok permissions-policy: geolocation=(), camera=(self \"https://a.example\")\n\
          ok priority: u=1, i\n\
          urgency 1 incremental true\n\
          ok reporting-endpoints: default=\"https://r.example/\"\n\
          refused repr-digest: byte 0x52 'R' at place 9, expected \
          a digit, `,`, `.`, `;`, a tab, a space or the end\n\
          line 14, place 22:\n\
          repr-digest: sha-256=4REjxQ4yrqUVicfSKYNO/cF9zNj5ANbzgDZt3/h3Qxo=\n                      ^\n\
          ok supports-loading-mode: fenced-frame\n\
          other fields: 3\n",
        Status::Refused,
    );
    expect_row(&rt, &seed, row);
    Ok(())
}

/// Members of another type, or out of range.
#[test]
fn ignored_members(rt: HostRuntime) -> Result<(), Fail> {
    let seed = RandomState::new(&rt)?;
    let rows: [Row; 6] = [
        (
            b"Priority: u=9, i=1\n",
            b"ok priority: u=9, i=1\nignored u\nignored i\nurgency 3 incremental false\nother fields: 0\n",
            Status::Accepted,
        ),
        (
            b"CDN-Cache-Control: max-age=-1, s-maxage=5\n",
            b"ok cdn-cache-control: max-age=-1, s-maxage=5\nignored max-age\n\
              lifetime shared 5\nlifetime private none\nother fields: 0\n",
            Status::Accepted,
        ),
        // Each parameter of Cache-Status has another type than RFC 9211 gives it.
        (
            b"Cache-Status: A; hit=\"x\"; ttl=a; key=k; fwd=\"miss\"\n\
              Cache-Status: B; detail=1; collapsed=a; stored=1; fwd-status=\"x\"; fwd=5\n",
            b"ok cache-status: A;hit=\"x\";ttl=a;key=k;fwd=\"miss\", \
              B;detail=1;collapsed=a;stored=1;fwd-status=\"x\";fwd=5\n\
              ignored hop 0 hit\nignored hop 0 fwd\nignored hop 0 ttl\nignored hop 0 key\n\
              ignored hop 1 fwd\nignored hop 1 fwd-status\nignored hop 1 stored\n\
              ignored hop 1 collapsed\nignored hop 1 detail\n\
              hop 0 A unsaid\nhop 1 B unsaid\nserved none\nother fields: 0\n",
            Status::Accepted,
        ),
        // A status code has three digits, and a ttl has no fraction.
        (
            b"Cache-Status: A; fwd=miss; fwd-status=99, B; fwd-status=1000; ttl=1.5, \
              C; fwd=miss; fwd-status=304; ttl=-1\n",
            b"ok cache-status: A;fwd=miss;fwd-status=99, B;fwd-status=1000;ttl=1.5, \
              C;fwd=miss;fwd-status=304;ttl=-1\n\
              ignored hop 0 fwd-status\nignored hop 1 fwd-status\nignored hop 1 ttl\n\
              hop 0 A forwarded miss\nhop 1 B unsaid\nhop 2 C forwarded miss status=304 ttl=-1\n\
              served none\nother fields: 0\n",
            Status::Accepted,
        ),
        // Not ignored: a false hit, a status without fwd, each type of detail, an unknown
        // parameter.
        (
            b"Cache-Status: A; hit=?0; detail=b, \"C\"; fwd-status=304; detail=\"d\"; x=1\n",
            b"ok cache-status: A;hit=?0;detail=b, \"C\";fwd-status=304;detail=\"d\";x=1\n\
              hop 0 A unsaid detail=b\nhop 1 \"C\" unsaid detail=\"d\"\nserved none\nother fields: 0\n",
            Status::Accepted,
        ),
        // No parameter is reported as ignored in a field that is refused for a member.
        (
            b"Cache-Status: A; hit=1, 7\n",
            b"refused cache-status: member 1 names no cache\nother fields: 0\n",
            Status::Refused,
        ),
    ];
    for row in rows {
        expect_row(&rt, &seed, row);
    }
    Ok(())
}

/// The words in colours: green, yellow and red.
#[test]
fn colours(rt: HostRuntime) -> Result<(), Fail> {
    let seed = RandomState::new(&rt)?;
    let rows: [Row; 3] = [
        (
            b"HTTP/2 200\nPriority: u=9\nSec-GPC: 1 2\nCache-Status: ok;hit=1\n",
            b"HTTP/2 200\n\
              \x1b[32mok\x1b[0m priority: u=9\n\x1b[33mignored\x1b[0m u\nurgency 3 incremental false\n\
              \x1b[31mrefused\x1b[0m sec-gpc: byte 0x32 '2' at place 2, expected a space or the end\n\
              line 3, place 11:\nSec-GPC: 1 2\n           ^\n\
              \x1b[32mok\x1b[0m cache-status: ok;hit=1\n\x1b[33mignored\x1b[0m hop 0 hit\n\
              hop 0 ok unsaid\nserved none\nother fields: 0\n",
            Status::Refused,
        ),
        (
            b"CDN-Cache-Control: max-age=a\nCache-Status: 1\n",
            b"\x1b[32mok\x1b[0m cdn-cache-control: max-age=a\n\x1b[33mignored\x1b[0m max-age\n\
              lifetime shared none\nlifetime private none\n\
              \x1b[31mrefused\x1b[0m cache-status: member 0 names no cache\nother fields: 0\n",
            Status::Refused,
        ),
        (
            b"Server: refused\n refused\n",
            b"\x1b[31mrefused\x1b[0m line 2: obsolete line folding\n\
              line 2, place 0:\n refused\n^\nother fields: 1\n",
            Status::Refused,
        ),
    ];
    for row in rows {
        let settings = Settings {
            fields: Vec::new(rt.alloc()),
            quiet: false,
            colour: true,
        };
        expect_with(&rt, &seed, settings, row);
    }
    Ok(())
}

/// The line for an input that is too long.
#[test]
fn too_long(rt: HostRuntime) -> Result<(), Fail> {
    let seed = RandomState::new(&rt)?;
    let input = vec![in rt.alloc(); b'\n'; 1_048_577]?;
    let rows: [(bool, &[u8]); 2] = [
        (false, b"refused too long 1048576\n"),
        (true, b"\x1b[31mrefused\x1b[0m too long 1048576\n"),
    ];
    for (colour, text) in rows {
        let settings = Settings {
            fields: Vec::new(rt.alloc()),
            quiet: true,
            colour,
        };
        let mut source = Reading::new(input.as_slice());
        let mut sink = Writing::new(Vec::new(rt.alloc()));
        let answer = run(rt.alloc(), &seed, &settings, &mut source, &mut sink);
        assert_eq!(&rt; sink.into_inner().as_slice(), text);
        assert_eq!(&rt; answer, Status::Refused);
    }
    Ok(())
}

/// Colours are for terminals, and only an empty `NO_COLOR` counts as none.
#[test]
fn no_color(rt: HostRuntime) -> Result<(), Fail> {
    let rows: [(bool, Option<&str>, bool); 6] = [
        (true, None, true),
        (true, Some(""), true),
        (true, Some("1"), false),
        (true, Some("0"), false),
        (false, None, false),
        (false, Some(""), false),
    ];
    for (is_terminal, no_color, wanted) in rows {
        assert_eq!(&rt; is_coloured(is_terminal, no_color), wanted);
    }
    Ok(())
}

/// With `quiet`, and with fields that are given.
#[test]
fn settings(rt: HostRuntime) -> Result<(), Fail> {
    let seed = RandomState::new(&rt)?;
    let rows: [Row; 3] = [
        (
            b"HTTP/2 200\nPriority: u=1\nServer: a\n",
            b"",
            Status::Accepted,
        ),
        (
            b"HTTP/2 200\nCache-Status: 7; hit\nX-Date: @1\nCache-Status: a\n",
            b"refused cache-status: member 0 names no cache\n",
            Status::Refused,
        ),
        (
            b"X-Date: @1\nX-Date: @2\n",
            b"refused x-date: byte 0x2c ',' at place 2, expected a digit, `;`, a space or the end\n\
              line 1, place 10:\nX-Date: @1\n          ^\n",
            Status::Refused,
        ),
    ];
    for row in rows {
        let (input, text, status) = row;
        let mut fields = Vec::new(rt.alloc());
        fields.push(CustomField {
            name: HeaderName::from_static("x-date"),
            kind: Kind::Item,
        })?;
        let settings = Settings {
            fields,
            quiet: true,
            colour: false,
        };
        let mut source = Reading::new(input);
        let mut sink = Writing::new(Vec::new(rt.alloc()));
        let answer = run(rt.alloc(), &seed, &settings, &mut source, &mut sink);
        assert_eq!(&rt; sink.into_inner().as_slice(), text);
        assert_eq!(&rt; answer, status);
    }
    Ok(())
}
