//! The words of the command line with the settings that they make, and how the command ends.
use sf_lint::{OptionsFault, read_options, status_line};
use sf_tool::Status;
use std::alloc::AllocError;
use std::process::Abort;
use std::test::Fail;

/// Options by their `Debug` text, since they are not compared.
fn expect(rt: &(impl Abort + AllocGlobal), words: &[&str], wanted: &str) -> Result<(), AllocError> {
    let mut owned = Vec::new(rt.alloc());
    for word in words {
        owned.push(String::from_str(rt.alloc(), word)?)?;
    }
    let got = read_options(rt.alloc(), owned.as_slice());
    let shown = format!(in rt.alloc(); "{got:?}")?;
    assert_eq!(rt; shown.as_str(), wanted);
    Ok(())
}

#[test]
fn options(rt: HostRuntime) -> Result<(), Fail> {
    let rows: [(&[&str], &str); 23] = [
        (
            &["sflint"],
            "Ok(Options { settings: Settings { fields: [], quiet: false, colour: false }, caches: None })",
        ),
        (
            &["sflint", "--quiet"],
            "Ok(Options { settings: Settings { fields: [], quiet: true, colour: false }, caches: None })",
        ),
        (
            &["sflint", "--field", "X-List:list", "--field=y:item"],
            "Ok(Options { settings: Settings { fields: [CustomField { name: \"x-list\", kind: List }, \
             CustomField { name: \"y\", kind: Item }], quiet: false, colour: false }, caches: None })",
        ),
        (
            &["sflint", "--field", "priority:dict", "--quiet"],
            "Ok(Options { settings: Settings { fields: [CustomField { name: \"priority\", kind: Dict }], quiet: true, colour: false }, caches: None })",
        ),
        (
            &["sflint", "--decide"],
            "Ok(Options { settings: Settings { fields: [], quiet: false, colour: false }, \
             caches: Some(CacheSettings { targets: [\"cdn-cache-control\"], age: None }) })",
        ),
        (
            &[
                "sflint",
                "--target",
                "A-Cache-Control",
                "--age",
                "15",
                "--target=b",
                "--quiet",
                "--decide",
            ],
            "Ok(Options { settings: Settings { fields: [], quiet: true, colour: false }, \
             caches: Some(CacheSettings { targets: [\"a-cache-control\", \"b\"], age: Some(15) }) })",
        ),
        (&["sflint", "--age", "15"], "Err(Usage)"),
        (&["sflint", "--target", "b"], "Err(Usage)"),
        (&["sflint", "--decide", "--age", "-1"], "Err(Usage)"),
        (
            &["sflint", "--decide", "--age", "18446744073709551616"],
            "Err(Usage)",
        ),
        (
            &["sflint", "--decide", "--age", "1", "--age", "1"],
            "Err(Usage)",
        ),
        (&["sflint", "--decide", "--target", "a b"], "Err(Usage)"),
        (&["sflint", "--decide", "b"], "Err(Usage)"),
        (&["sflint", "--help"], "Err(Help)"),
        (&["sflint", "--version"], "Err(Version)"),
        (&["sflint", "head"], "Err(Usage)"),
        (&["sflint", "--verbose"], "Err(Usage)"),
        (&["sflint", "--field"], "Err(Usage)"),
        (&["sflint", "--field", "x"], "Err(Usage)"),
        (&["sflint", "--field", "x:"], "Err(Usage)"),
        (&["sflint", "--field", ":list"], "Err(Usage)"),
        (&["sflint", "--field", "x:List"], "Err(Usage)"),
        (&["sflint", "--field", "a b:list"], "Err(Usage)"),
    ];
    for (words, wanted) in rows {
        expect(&rt, words, wanted)?;
    }
    Ok(())
}

#[test]
fn endings(rt: HostRuntime) -> Result<(), Fail> {
    assert_eq!(&rt; OptionsFault::Usage.status().code(), 2);
    assert_eq!(&rt; OptionsFault::Help.status().code(), 0);
    assert_eq!(&rt; OptionsFault::Version.status().code(), 0);
    assert_eq!(&rt; OptionsFault::OutOfMemory.status().code(), 3);
    assert_eq!(&rt; OptionsFault::Version.text(), Some("sflint 0.1.0\n"));
    assert_eq!(&rt; OptionsFault::Usage.text(), None);
    assert_eq!(&rt; status_line(Status::Refused), None);
    let stopped = status_line(Status::Stopped);
    assert_eq!(&rt; stopped, Some("sflint: out of memory or a device failed"));
    Ok(())
}
