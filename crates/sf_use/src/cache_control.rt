//! `Cache-Control` (RFC 9111 section 5.2), which is no structured field, read by its own grammar: the
//! field that decides if no targeted field does ([`crate::RulesChoice::Fallback`]).
ghost use Rattle.std.specs.Prelude.{◌≡◌, ◌≤◌, ◌||◌, ℕ, List, [], ◌∷◌, ◌++◌, length, false, Option};
ghost use Rattle.std.specs.Prelude.{MatchOption, Some, None};
ghost use Rattle.std.specs.List.{prefix_len};
ghost use Rattle.sf_value.specs.Grammar.Classes.{is_ows as is_ows_byte, is_tchar as is_tchar_byte};
ghost use Rattle.sf_use.specs.CacheControl.{HasCacheRules, IsFallback, IsNoCacheControl};
ghost use Rattle.sf_use.specs.CacheControl.{AreNoCacheControl, HaveCacheRules};
ghost use Rattle.sf_use.specs.CacheControl.{is_qdtext as is_qdtext_byte};
ghost use Rattle.sf_use.specs.CacheControl.{is_quotable as is_quotable_byte};
ghost use Rattle.sf_use.specs.CacheControlSteps.{ReadsFrom, after_run, argument_at};
ghost use Rattle.sf_use.specs.CacheControlSteps.{delta_seconds_of, element_at, is_name};
ghost use Rattle.sf_use.specs.CacheControlSteps.{invalid_with as disagree_with};
ghost use Rattle.sf_use.specs.CacheControlSteps.{one_more as one_value_more, quoted_at};
ghost use Rattle.sf_use.specs.CacheControlSteps.{rules_with as with_directive};
ghost use Rattle.sf_use.specs.CacheControlSteps.{seconds_with as agreed_with, value_at};
ghost use Rattle.sf_use.specs.CacheControlSteps.{with_byte, with_bytes};

use crate::caching::{CacheRules, GREATEST_SECONDS};
use crate::targeted::{NO_DIRECTIVE, Policy};
use crate::targeted_rules::NO_RULE;
use http_header::{CACHE_CONTROL, HeaderMap};
use sf_field::FieldLines;
use sf_value::{can_be_in_token, is_ows};

/// The rules of a field that is refused: the response is not stored.
const REFUSED: CacheRules = CacheRules {
    policy: Policy {
        no_store: true,
        ..NO_DIRECTIVE
    },
    ..NO_RULE
};

impl CacheRules {
    /// Reads the text of `Cache-Control`, a list of directives (RFC 9111 section 5.2). Names have
    /// no case, an argument is a token or a quoted-string, empty elements of the list and
    /// directives that are not known are skipped. A directive that takes no number is set if it is
    /// present. If `max-age` has no argument, or another one than a number of seconds, or two
    /// values that differ, it is invalid (section 4.2.1), and so is `s-maxage`; numbers from 2^31
    /// on are 2^31 (section 1.2.2). `None` if the text is no list of directives; then none of them
    /// counts, and the rules are best those of `no-store`, as by [`fallback_rules`]. Does not
    /// allocate.
    ///
    /// ```
    /// CacheRules::of_cache_control(b"No-Store, Max-Age=0,,") // no_store, and max_age of 0
    /// CacheRules::of_cache_control(b"max-age=60, max-age=5") // invalid_max_age
    /// CacheRules::of_cache_control(b"no-store, a b") // None
    /// ```
    pub fn of_cache_control(text: &[u8]) -> Option<CacheRules>
        // The rules of the list that the text spells, or None if it spells none.
        ensures { MatchOption result (IsNoCacheControl text.now) (HasCacheRules text.now) }
    {
        rules_from(NO_RULE, text)
    }

    /// Reads the field lines of `Cache-Control`, which are one list (RFC 9110 section 5.3), as
    /// [`CacheRules::of_cache_control`] reads one. `None` if a line is no list of directives, also
    /// if a quoted-string goes on in the next line. Without a line there are no directives. Does
    /// not allocate.
    ///
    /// ```
    /// let lines: [&[u8]; 2] = [b"max-age=60", b"private"];
    /// CacheRules::of_cache_control_lines(lines.iter()) // max_age of 60, and is_private
    /// ```
    pub fn of_cache_control_lines<'a, L: FieldLines<'a>>(lines: L) -> Option<CacheRules>
        // The rules of the directives of all lines, or None if a line spells no list.
        ensures { MatchOption result (AreNoCacheControl (L.lines lines))
            (HaveCacheRules (L.lines lines)) }
    {
        let mut lines = lines;
        let mut rules = NO_RULE;
        while let Some(line) = lines.next_line() {
            rules = rules_from(rules, line)?;
        }
        Some(rules)
    }

    /// Returns the rules of the lines of `Cache-Control` that these are of, and of one more line
    /// after them: what [`CacheRules::of_cache_control_lines`] reads if lines come one by one.
    /// Begin with the default, which has no directives. `None` if the line is no list of
    /// directives: the field is then refused, whatever lines come after it. Does not allocate.
    ///
    /// ```
    /// let one = CacheRules::default().with_cache_control(b"max-age=60")?;
    /// one.with_cache_control(b"private") // max_age of 60, and is_private
    /// ```
    pub fn with_cache_control(self, line: &[u8]) -> Option<CacheRules>
        // The rules of all lines, or None if this one spells no list.
        ensures { (lines : List (List ℕ)) → HaveCacheRules lines self
            → MatchOption result (IsNoCacheControl line.now)
            (HaveCacheRules (lines ++ line.now ∷ [])) }
    {
        rules_from(self, line)
    }
}

/// Returns the rules of the `Cache-Control` lines of a response, for which no targeted field decides
/// ([`crate::RulesChoice::Fallback`]). A response without the field has no directives. If the field
/// is refused ([`CacheRules::of_cache_control_lines`]), a directive that forbids to store may be
/// lost in it, so the response is not to be stored: the rules are those of `no-store`. Does not
/// allocate.
///
/// ```
/// let rules = match select_rules(alloc, &seed, &targets, &headers)? {
///     RulesChoice::Field { rules, .. } => rules,
///     RulesChoice::Fallback => fallback_rules(&headers),
/// };
/// ```
pub fn fallback_rules(headers: &HeaderMap) -> CacheRules
    // The rules of the directives of all lines, or those of no-store if a line spells no list.
    ensures { IsFallback headers.now result }
{
    CacheRules::of_cache_control_lines(headers.get_all(&CACHE_CONTROL).iter()).unwrap_or(REFUSED)
}

/// What the bytes of a value are as seconds (RFC 9111 section 1.2.2).
#[derive(Clone, Copy, Debug)]
enum Delta {
    /// No bytes.
    Empty,
    /// Digits.
    Seconds(u64),
    /// Other bytes.
    Other,
}

impl Delta {
    /// Returns what they are with one more byte. A number that reaches 2^31 stays 2^31, whatever
    /// digits come after it.
    fn with(self, byte: u8) -> Delta
        ensures { result ≡ with_byte self byte }
    {
        if !byte.is_ascii_digit() {
            return Delta::Other;
        }
        let digit = u64::from(byte - b'0');
        match self {
            Delta::Empty => return Delta::Seconds(digit.min(GREATEST_SECONDS)),
            Delta::Seconds(n) => {
                let more = n.saturating_mul(10).saturating_add(digit);
                return Delta::Seconds(more.min(GREATEST_SECONDS));
            }
            Delta::Other => return Delta::Other,
        }
    }

    /// Returns the number of seconds.
    fn seconds(self) -> Option<u64>
        ensures { result ≡ delta_seconds_of self }
    {
        match self {
            Delta::Seconds(n) => Some(n),
            _ => None,
        }
    }
}

/// Returns the rules after the directives of a text; None if it is no list of directives.
pub(crate) fn rules_from(rules: CacheRules, text: &[u8]) -> Option<CacheRules>
    ensures { ReadsFrom rules text.now result }
{
    let mut so_far = rules;
    let mut rest = text;
    loop {
        let (with_element, after) = element(so_far, rest)?;
        let Some((first, more)) = after.split_first() else {
            return Some(with_element);
        };
        if *first != b',' {
            return None;
        }
        so_far = with_element;
        rest = more;
    }
}

/// Reads an element of the list, a directive or none, with the white space around it. Returns the
/// rules with it, and what is after it.
fn element(rules: CacheRules, text: &[u8]) -> Option<(CacheRules, &[u8])>
    ensures { MatchOption result (element_at rules text.now ≡ None)
        (λ p. element_at rules text.now ≡ Some (p.0, p.1.now)) }
{
    let begun = after_ows(text);
    let (name, rest) = begun.split_at(token_length(begun));
    if name.is_empty() {
        return Some((rules, rest));
    }
    let (value, rest) = argument(rest)?;
    Some((rules_with(rules, name, value.seconds()), after_ows(rest)))
}

/// Reads the argument of a directive, if it has one.
fn argument(text: &[u8]) -> Option<(Delta, &[u8])>
    ensures { MatchOption result (argument_at text.now ≡ None)
        (λ p. argument_at text.now ≡ Some (p.0, p.1.now)) }
{
    let Some((first, rest)) = text.split_first() else {
        return Some((Delta::Empty, text));
    };
    if *first == b'=' {
        return value(rest);
    }
    Some((Delta::Empty, text))
}

/// Reads a value, a token or a quoted-string.
fn value(text: &[u8]) -> Option<(Delta, &[u8])>
    ensures { MatchOption result (value_at text.now ≡ None)
        (λ p. value_at text.now ≡ Some (p.0, p.1.now)) }
{
    let (first, rest) = text.split_first()?;
    if *first == b'"' {
        return quoted(rest);
    }
    let (token, rest) = text.split_at(token_length(text));
    if token.is_empty() {
        return None;
    }
    Some((token_seconds(token), rest))
}

/// Returns what the bytes of a token are as seconds.
fn token_seconds(token: &[u8]) -> Delta
    ensures { result ≡ with_bytes Delta.Empty token.now }
{
    let mut delta = Delta::Empty;
    for byte in token {
        delta = delta.with(*byte);
    }
    delta
}

/// Reads a quoted-string after its first quote (RFC 9110 section 5.6.4).
fn quoted(text: &[u8]) -> Option<(Delta, &[u8])>
    ensures { MatchOption result (quoted_at false Delta.Empty text.now ≡ None)
        (λ p. quoted_at false Delta.Empty text.now ≡ Some (p.0, p.1.now)) }
{
    let mut delta = Delta::Empty;
    let mut escaped = false;
    let mut rest = text;
    while let Some((byte, more)) = rest.split_first() {
        rest = more;
        if escaped {
            if !is_quotable(*byte) {
                return None;
            }
            escaped = false;
            delta = delta.with(*byte);
        } else if *byte == b'"' {
            return Some((delta, more));
        } else if *byte == b'\\' {
            escaped = true;
        } else if is_qdtext(*byte) {
            delta = delta.with(*byte);
        } else {
            return None;
        }
    }
    None
}

/// Returns the rules with one more directive, of this name and with this number of seconds.
fn rules_with(rules: CacheRules, name: &[u8], seconds: Option<u64>) -> CacheRules
    ensures { result ≡ with_directive rules name.now seconds }
{
    let policy = rules.policy;
    let is_max_age = is(name, b"max-age");
    let is_s_maxage = is(name, b"s-maxage");
    CacheRules {
        policy: Policy {
            max_age: seconds_with(is_max_age, policy.max_age, rules.invalid_max_age, seconds),
            s_maxage: seconds_with(
                is_s_maxage,
                policy.s_maxage,
                rules.invalid_s_maxage,
                seconds,
            ),
            must_revalidate: set_with(policy.must_revalidate, name, b"must-revalidate"),
            no_store: set_with(policy.no_store, name, b"no-store"),
            no_cache: set_with(policy.no_cache, name, b"no-cache"),
            is_private: set_with(policy.is_private, name, b"private"),
        },
        invalid_max_age: invalid_with(is_max_age, policy.max_age, rules.invalid_max_age, seconds),
        invalid_s_maxage: invalid_with(
            is_s_maxage,
            policy.s_maxage,
            rules.invalid_s_maxage,
            seconds,
        ),
        proxy_revalidate: set_with(rules.proxy_revalidate, name, b"proxy-revalidate"),
        must_understand: set_with(rules.must_understand, name, b"must-understand"),
        is_public: set_with(rules.is_public, name, b"public"),
    }
}

/// Whether a directive without a number is set after one more, which may have its name.
fn set_with(was_set: bool, name: &[u8], directive: &[u8]) -> bool
    ensures { result ≡ (was_set || is_name directive.now name.now) }
{
    was_set || is(name, directive)
}

/// Whether a directive has this name, without case.
fn is(name: &[u8], directive: &[u8]) -> bool
    ensures { result ≡ is_name directive.now name.now }
{
    name.eq_ignore_ascii_case(directive)
}

/// Returns the seconds of a directive after one more of its name: none, if one of the two is
/// invalid or if they differ.
fn one_more(was: Option<u64>, was_invalid: bool, next: Option<u64>) -> Option<u64>
    ensures { result ≡ one_value_more was was_invalid next }
{
    if was_invalid {
        return None;
    }
    let Some(seconds) = was else {
        return next;
    };
    let Some(others) = next else {
        return None;
    };
    if others == seconds {
        return was;
    }
    None
}

/// Returns the seconds of a directive after one more, which may have its name.
fn seconds_with(
    is_named: bool,
    was: Option<u64>,
    was_invalid: bool,
    next: Option<u64>,
) -> Option<u64>
    ensures { result ≡ agreed_with is_named was was_invalid next }
{
    if is_named {
        return one_more(was, was_invalid, next);
    }
    was
}

/// Whether a directive is present without a number of seconds after one more, which may have its
/// name.
fn invalid_with(is_named: bool, was: Option<u64>, was_invalid: bool, next: Option<u64>) -> bool
    ensures { result ≡ disagree_with is_named was was_invalid next }
{
    if is_named {
        return one_more(was, was_invalid, next).is_none();
    }
    was_invalid
}

/// Returns the bytes without the white space before them.
fn after_ows(text: &[u8]) -> &[u8]
    ensures { result.now ≡ after_run is_ows_byte text.now }
{
    let mut start = 0;
    while start < text.len() && is_ows(text[start]) {
        start += 1;
    }
    &text[start..]
}

/// Returns how many bytes of a token the text begins with.
fn token_length(text: &[u8]) -> usize
    ensures value { result ≡ prefix_len is_tchar_byte text.now }
    ensures within { result ≤ length text.now }
{
    let mut end = 0;
    while end < text.len() && is_tchar(text[end]) {
        end += 1;
    }
    end
}

/// Whether a token may have this byte (RFC 9110 section 5.6.2). A Token may have two more (RFC 9651
/// section 3.3.4).
fn is_tchar(byte: u8) -> bool
    ensures { result ≡ is_tchar_byte byte }
{
    can_be_in_token(byte) && byte != b':' && byte != b'/'
}

/// Whether a backslash in a quoted-string may be before this byte.
fn is_quotable(byte: u8) -> bool
    ensures { result ≡ is_quotable_byte byte }
{
    byte == b'\t' || (byte >= b' ' && byte != 0x7f)
}

/// Whether a quoted-string may have this byte without a backslash.
fn is_qdtext(byte: u8) -> bool
    ensures { result ≡ is_qdtext_byte byte }
{
    is_quotable(byte) && byte != b'"' && byte != b'\\'
}
