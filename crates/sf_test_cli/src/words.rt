//! The words of the command line with the requests that they are, and the exit codes.
use sf_tool::{Request, RequestFault, Status, read_request};
use sf_value::Failed;
use std::alloc::{AllocError, Global};
use std::process::Abort;
use std::test::Fail;

/// A request by its `Debug` text, since it is not compared.
fn expect(rt: &(impl Abort + AllocGlobal), words: &[&str], wanted: &str) -> Result<(), AllocError> {
    let mut owned = Vec::new(rt.alloc());
    for word in words {
        owned.push(String::from_str(rt.alloc(), word)?)?;
    }
    let got = read_request(rt.alloc(), owned.as_slice());
    let shown = format!(in rt.alloc(); "{got:?}")?;
    assert_eq!(rt; shown.as_str(), wanted);
    Ok(())
}

#[test]
fn requests(rt: HostRuntime) -> Result<(), Fail> {
    let rows: [(&[&str], &str); 24] = [
        (
            &["sf", "check", "--kind", "dict"],
            "Ok(Check(Rfc9651, Dict))",
        ),
        (&["sf", "show", "--kind=item"], "Ok(Show(Rfc9651, Item))"),
        (
            &["sf", "normalise", "--kind", "list"],
            "Ok(Normalise(Rfc9651, List))",
        ),
        (
            &["sf", "show", "--kind", "list", "--dialect", "rfc8941"],
            "Ok(Show(Rfc8941, List))",
        ),
        (
            &["sf", "check", "--dialect=rfc8941", "--kind", "item"],
            "Ok(Check(Rfc8941, Item))",
        ),
        (
            &["sf", "normalise", "--dialect", "rfc8941", "--kind", "dict"],
            "Ok(Normalise(Rfc8941, Dict))",
        ),
        (
            &["sf", "check", "--kind", "item", "--dialect", "rfc9651"],
            "Ok(Check(Rfc9651, Item))",
        ),
        (&["sf", "cache-status"], "Ok(CacheStatus)"),
        (&["sf", "priority"], "Ok(Priority)"),
        (&["", "priority"], "Ok(Priority)"),
        (
            &["sf", "targeted", "A", "b"],
            "Ok(Targeted([\"a\", \"b\"]))",
        ),
        (
            &["sf", "targeted", "a", "A"],
            "Ok(Targeted([\"a\", \"a\"]))",
        ),
        (
            &["sf", "targeted", "CDN-Cache-Control"],
            "Ok(Targeted([\"cdn-cache-control\"]))",
        ),
        (
            &["sf", "targeted", "!#$%&'*+-.^_`|~9"],
            "Ok(Targeted([\"!#$%&'*+-.^_`|~9\"]))",
        ),
        (&["sf", "targeted", "--", "-a"], "Ok(Targeted([\"-a\"]))"),
        (
            &["sf", "targeted", "a", "--", "-b", "--c"],
            "Ok(Targeted([\"a\", \"-b\", \"--c\"]))",
        ),
        (&["sf", "targeted", "--", "a"], "Ok(Targeted([\"a\"]))"),
        (&["sf", "targeted", "help"], "Ok(Targeted([\"help\"]))"),
        (
            &["sf", "targeted", "--fallback", "cache-control", "A", "b"],
            "Ok(Decide([\"a\", \"b\"], 0))",
        ),
        (
            &["sf", "targeted", "a", "--fallback=cache-control"],
            "Ok(Decide([\"a\"], 0))",
        ),
        (
            &[
                "sf",
                "targeted",
                "a",
                "--fallback=cache-control",
                "--age=+05",
            ],
            "Ok(Decide([\"a\"], 5))",
        ),
        (
            &[
                "sf",
                "targeted",
                "--age",
                "60",
                "--fallback",
                "cache-control",
                "a",
            ],
            "Ok(Decide([\"a\"], 60))",
        ),
        (
            &[
                "sf",
                "targeted",
                "--fallback",
                "cache-control",
                "--age=18446744073709551615",
                "a",
            ],
            "Ok(Decide([\"a\"], 18446744073709551615))",
        ),
        (
            &[
                "sf",
                "targeted",
                "--fallback",
                "cache-control",
                "--",
                "--age",
            ],
            "Ok(Decide([\"--age\"], 0))",
        ),
    ];
    for (words, wanted) in rows {
        expect(&rt, words, wanted)?;
    }
    Ok(())
}

#[test]
fn other_words(rt: HostRuntime) -> Result<(), Fail> {
    let rows: [&[&str]; 55] = [
        &[],
        &["sf"],
        &["sf", ""],
        &["sf", "nonsense"],
        &["sf", "CHECK", "--kind", "item"],
        &["sf", "chec", "--kind", "item"],
        &["sf", "--kind", "item", "check"],
        &["sf", "check"],
        &["sf", "check", "--kind"],
        &["sf", "check", "--kind="],
        &["sf", "check", "--kind", "text"],
        &["sf", "check", "--kind", "Item"],
        &["sf", "check", "--kin", "item"],
        &["sf", "check", "-k", "item"],
        &["sf", "check", "item"],
        &["sf", "check", "--kind", "item", "more"],
        &["sf", "check", "--kind", "item", "--kind", "item"],
        &["sf", "check", "--dialect", "rfc8941"],
        &["sf", "check", "--kind", "item", "--dialect"],
        &["sf", "check", "--kind", "item", "--dialect", "rfc1"],
        &["sf", "check", "--kind", "item", "--dialect", "RFC9651"],
        &[
            "sf",
            "check",
            "--kind",
            "item",
            "--dialect",
            "rfc9651",
            "--dialect",
            "rfc9651",
        ],
        &["sf", "cache-status", "more"],
        &["sf", "cache-status", "--kind", "list"],
        &["sf", "priority", "more"],
        &["sf", "priority", "--dialect", "rfc9651"],
        &["sf", "targeted"],
        &["sf", "targeted", "--"],
        &["sf", "targeted", ""],
        &["sf", "targeted", "a b"],
        &["sf", "targeted", "a", "b:"],
        &["sf", "targeted", "é"],
        &["sf", "targeted", "-a"],
        &["sf", "targeted", "a", "--b"],
        &["sf", "targeted", "--kind", "item", "a"],
        &["sf", "targeted", "--dialect", "rfc9651", "a"],
        &["sf", "help"],
        &["sf", "help", "check"],
        &["sf", "--help"],
        &["sf", "-h"],
        &["sf", "check", "--kind", "item", "--help"],
        &["sf", "targeted", "a", "-h"],
        &["sf", "targeted", "a", "--age", "1"],
        &["sf", "targeted", "a", "--fallback", "expires"],
        &["sf", "targeted", "a", "--fallback", "Cache-Control"],
        &["sf", "targeted", "--fallback", "cache-control"],
        &[
            "sf",
            "targeted",
            "a",
            "--fallback",
            "cache-control",
            "--age",
            "-1",
        ],
        &[
            "sf",
            "targeted",
            "a",
            "--fallback",
            "cache-control",
            "--age",
            "1.5",
        ],
        &[
            "sf",
            "targeted",
            "a",
            "--fallback",
            "cache-control",
            "--age",
            "18446744073709551616",
        ],
        &[
            "sf",
            "targeted",
            "a",
            "--fallback",
            "cache-control",
            "--age=",
        ],
        &[
            "sf",
            "targeted",
            "a",
            "--fallback=cache-control",
            "--fallback=cache-control",
        ],
        &[
            "sf",
            "targeted",
            "a",
            "--fallback=cache-control",
            "--age=1",
            "--age=1",
        ],
        &["sf", "priority", "--fallback", "cache-control"],
        &["sf", "--version"],
        &["sf", "-V"],
    ];
    for words in rows {
        expect(&rt, words, "Err(Usage)")?;
    }
    Ok(())
}

fn count_of_names(alloc: Global, count: usize) -> Result<Option<usize>, AllocError> {
    let mut words = Vec::new(alloc);
    words.push(String::from_str(alloc, "sf")?)?;
    words.push(String::from_str(alloc, "targeted")?)?;
    for _ in 0..count {
        words.push(String::from_str(alloc, "a")?)?;
    }
    match read_request(alloc, words.as_slice()) {
        Ok(Request::Targeted(names)) => Ok(Some(names.len())),
        _ => Ok(None),
    }
}

#[test]
fn at_most_64_names(rt: HostRuntime) -> Result<(), Fail> {
    assert_eq!(&rt; count_of_names(rt.alloc(), 63)?, Some(63));
    assert_eq!(&rt; count_of_names(rt.alloc(), 64)?, Some(64));
    assert_eq!(&rt; count_of_names(rt.alloc(), 65)?, None);
    Ok(())
}

const USAGE: &str = "sf: usage: sf show, check or normalise --kind item, list or dict \
    [--dialect rfc8941 or rfc9651]; sf cache-status; \
    sf targeted [--fallback cache-control [--age SECONDS]] NAME..; sf priority";

const STOPPED: &str = "sf: out of memory or a device failed";

#[test]
fn faults(rt: HostRuntime) -> Result<(), Fail> {
    for (fault, status, line) in [
        (RequestFault::Usage, Status::Usage, USAGE),
        (RequestFault::OutOfMemory, Status::Stopped, STOPPED),
    ] {
        assert_eq!(&rt; fault.status(), status);
        assert_eq!(&rt; fault.to_string(rt.alloc())?.as_str(), line);
    }
    Ok(())
}

#[test]
fn lines_of_statuses(rt: HostRuntime) {
    assert_eq!(&rt; Status::Accepted.line(), None);
    assert_eq!(&rt; Status::Refused.line(), None);
    assert_eq!(&rt; Status::Usage.line(), Some(USAGE));
    assert_eq!(&rt; Status::Stopped.line(), Some(STOPPED));
}

#[test]
fn statuses_after_a_flush(rt: HostRuntime) {
    for status in [Status::Accepted, Status::Refused, Status::Stopped] {
        assert_eq!(&rt; status.after_flush::<Failed>(Ok(())), status);
        assert_eq!(&rt; status.after_flush(Err(Failed)), Status::Stopped);
    }
}

#[test]
fn codes_of_statuses(rt: HostRuntime) {
    assert_eq!(&rt; Status::Accepted.code(), 0);
    assert_eq!(&rt; Status::Refused.code(), 1);
    assert_eq!(&rt; Status::Usage.code(), 2);
    assert_eq!(&rt; Status::Stopped.code(), 3);
}
