//! The registered structured fields.
ghost use Rattle.std.specs.Prelude.{◌≡◌};
ghost use Rattle.std.specs.List.{list_any};
ghost use Rattle.std.specs.Str.{bytes_eq};
ghost use Rattle.sf_lint.specs.Registry.{kind_of as kind_in, dialect_of as dialect_in};

use sf_value::{Dialect, Kind};

/// The fields whose value is an Item.
const ITEMS: [&str; 31] = [
    "available-dictionary",
    "dictionary-id",
    "capsule-protocol",
    "client-cert",
    "cross-origin-embedder-policy",
    "cross-origin-embedder-policy-report-only",
    "cross-origin-opener-policy",
    "cross-origin-opener-policy-report-only",
    "origin-agent-cluster",
    "deprecation",
    "observe-browsing-topics",
    "sec-ch-ua-arch",
    "sec-ch-ua-bitness",
    "sec-ch-ua-mobile",
    "sec-ch-ua-model",
    "sec-ch-ua-platform",
    "sec-ch-ua-platform-version",
    "sec-ch-ua-wow64",
    "sec-ch-dpr",
    "sec-ch-width",
    "sec-ch-viewport-width",
    "sec-ch-viewport-height",
    "sec-ch-device-memory",
    "sec-ch-prefers-color-scheme",
    "sec-ch-prefers-reduced-motion",
    "sec-fetch-dest",
    "sec-fetch-mode",
    "sec-fetch-site",
    "sec-fetch-user",
    "sec-fetch-storage-access",
    "sec-gpc",
];

/// The fields whose value is a List.
const LISTS: [&str; 11] = [
    "accept-ch",
    "critical-ch",
    "cache-groups",
    "cache-group-invalidation",
    "cache-status",
    "proxy-status",
    "client-cert-chain",
    "sec-ch-ua",
    "sec-ch-ua-full-version-list",
    "speculation-rules",
    "supports-loading-mode",
];

/// The fields whose value is a Dictionary.
const DICTIONARIES: [&str; 16] = [
    "accept-signature",
    "signature",
    "signature-input",
    "cdn-cache-control",
    "content-digest",
    "repr-digest",
    "want-content-digest",
    "want-repr-digest",
    "document-policy",
    "require-document-policy",
    "permissions-policy",
    "permissions-policy-report-only",
    "no-vary-search",
    "priority",
    "reporting-endpoints",
    "use-as-dictionary",
];

/// Whether the name is one of these.
fn is_one_of(names: &[&str], name: &str) -> bool
    ensures { result ≡ list_any (λ n. bytes_eq n.now name.now) names.now }
{
    names.contains(&name)
}

/// The kind of the registered structured field with this name, None if no field has it. The name is
/// in lower case. It does not allocate.
///
/// ```
/// kind_of("cache-status") // Some(Kind::List)
/// kind_of("server")       // None
/// ```
pub fn kind_of(name: &str) -> Option<Kind>
    ensures { result ≡ kind_in name.now }
{
    if is_one_of(&ITEMS, name) {
        return Some(Kind::Item);
    }
    if is_one_of(&LISTS, name) {
        return Some(Kind::List);
    }
    if is_one_of(&DICTIONARIES, name) {
        return Some(Kind::Dict);
    }
    None
}

/// The dialect of the registered structured field with this name: that of RFC 9651 for Deprecation,
/// which is a Date (RFC 9745), and that of RFC 8941 for every other name. The name is in lower
/// case. It does not allocate.
pub fn dialect_of(name: &str) -> Dialect
    ensures { result ≡ dialect_in name.now }
{
    if name == "deprecation" {
        Dialect::Rfc9651
    } else {
        Dialect::Rfc8941
    }
}
