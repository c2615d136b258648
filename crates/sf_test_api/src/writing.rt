//! Values with their texts, and sinks that fail.
use crate::building::{
    blob, both, date, decimal, dict, flag, integer, item, key, plain, seed, shown, text, token,
    two, with,
};
use sf_test_io::Trickle;
use sf_value::{Bare, Dict, Field, Inner, List, Member, Text, Writing};
use sf_write::{
    Canonical, WriteFault, bare_text, display, put, put_bare, put_field, put_text, send_all,
    to_string, to_text, write_bare, write_field,
};
use std::alloc::{AllocError, Global};
use std::hash::RandomState;
use std::process::Abort;

fn check(rt: &(impl Abort + AllocGlobal), field: Field, want: &str) {
    let text = to_text(rt.alloc(), &field);
    check_text(rt, text.expect(rt, "room"), want);
}

fn check_bare(rt: &(impl Abort + AllocGlobal), bare: Bare, want: &str) {
    let text = bare_text(rt.alloc(), &bare);
    check_text(rt, text.expect(rt, "room"), want);
}

fn check_text(rt: &impl Abort, text: Vec<u8>, want: &str) {
    assert!(rt; text.as_slice() == want.as_bytes(), "{want}");
}

const EXAMPLE: &str = "a=(1 2);y=:YQ==:, b;x";

/// The Dictionary of that text, which has 21 bytes.
fn example(rt: &(impl Abort + AllocGlobal), seed: &RandomState) -> Field {
    dict(rt, seed, b"a", false)
}

#[test]
fn numbers(rt: HostRuntime) {
    for &(n, want) in &[
        (0, "0"),
        (-1, "-1"),
        (42, "42"),
        (999_999_999_999_999, "999999999999999"),
        (-999_999_999_999_999, "-999999999999999"),
    ] {
        check_bare(&rt, integer(&rt, n), want);
    }
    for &(seconds, want) in &[(0, "@0"), (1_659_578_233, "@1659578233"), (-3, "@-3")] {
        check_bare(&rt, date(&rt, seconds), want);
    }
}

#[test]
fn decimals(rt: HostRuntime) {
    for &(thousandths, want) in &[
        (0, "0.0"),
        (1500, "1.5"),
        (-500, "-0.5"),
        (1, "0.001"),
        (-20, "-0.02"),
        (300, "0.3"),
        (1050, "1.05"),
        (100_000, "100.0"),
        (-999_999_999_999_999, "-999999999999.999"),
    ] {
        check_bare(&rt, decimal(&rt, thousandths), want);
    }
}

#[test]
fn texts(rt: HostRuntime) {
    for &(bytes, want) in &[
        (b"".as_slice(), "\"\""),
        (b"a\"b\\", "\"a\\\"b\\\\\""),
        (b"\\\\x y", "\"\\\\\\\\x y\""),
    ] {
        check_bare(&rt, text(&rt, bytes), want);
    }
    check_bare(&rt, token(&rt, b"*a/b:c"), "*a/b:c");
    check_bare(&rt, Bare::Boolean(true), "?1");
    check_bare(&rt, Bare::Boolean(false), "?0");
}

#[test]
fn display_strings(rt: HostRuntime) {
    for &(text, want) in &[
        ("", "%\"\""),
        ("fü", "%\"f%c3%bc\""),
        ("%\"\n", "%\"%25%22%0a\""),
        ("\x7f\0", "%\"%7f%00\""),
        ("A\\", "%\"A\\\""),
        ("\u{feff}a", "%\"%ef%bb%bfa\""),
        ("for ü users.", "%\"for %c3%bc users.\""),
    ] {
        check_bare(&rt, shown(&rt, text), want);
    }
}

#[test]
fn byte_sequences(rt: HostRuntime) {
    for &(bytes, want) in &[
        (b"".as_slice(), "::"),
        (b"a", ":YQ==:"),
        (b"ab", ":YWI=:"),
        (b"abc", ":YWJj:"),
        (b"\x89", ":iQ==:"),
        (b"\xfb\xff\xbf", ":+/+/:"),
        (b"\xc3\x9cbung\xc3\xa4rzte", ":w5xidW5nw6RyenRl:"),
    ] {
        check_bare(&rt, blob(&rt, bytes), want);
    }
}

/// Byte sequences of n bytes, of one block and more. The first byte is n, and each further one is 7
/// more, by the low eight bits.
#[test]
fn long_byte_sequences(rt: HostRuntime) {
    for &(n, want) in &[
        (
            47,
            ":LzY9REtSWWBnbnV8g4qRmJ+mrbS7wsnQ197l7PP6AQgPFh0kKzI5QEdOVVxjanE=:",
        ),
        (
            48,
            ":MDc+RUxTWmFob3Z9hIuSmaCnrrW8w8rR2N/m7fT7AgkQFx4lLDM6QUhPVl1ka3J5:",
        ),
        (
            49,
            ":MTg/Rk1UW2JpcHd+hYyTmqGor7a9xMvS2eDn7vX8AwoRGB8mLTQ7QklQV15lbHN6gQ=\
             =:",
        ),
        (
            97,
            ":YWhvdn2Ei5KZoKeutbzDytHY3+bt9PsCCRAXHiUsMzpBSE9WXWRrcnmAh46VnKOqsbi\
             /xs3U2+Lp8Pf+BQwTGiEoLzY9REtSWWBnbnV8g4qRmJ+mrbS7wsnQ197l7PP6AQ==:",
        ),
    ] {
        let bytes = steps_of_seven(rt.alloc(), n).expect(&rt, "room");
        check_bare(&rt, blob(&rt, bytes.as_slice()), want);
    }
}

fn steps_of_seven(alloc: Global, n: u8) -> Result<Vec<u8>, AllocError> {
    let mut bytes = Vec::new(alloc);
    let mut byte = n;
    for _ in 0..n {
        bytes.push(byte)?;
        byte = byte.wrapping_add(7);
    }
    Ok(bytes)
}

/// `1.5;q=?0;r=1`
fn with_two_params(rt: &(impl Abort + AllocGlobal), seed: &RandomState) -> Field {
    let item = item(rt, seed, decimal(rt, 1500), b"q", Bare::Boolean(false));
    let item = item.with_param(key(rt, b"r"), integer(rt, 1));
    item.expect(rt, "room").into()
}

#[test]
fn items(rt: HostRuntime) {
    let seed = seed(&rt);
    check(&rt, with_two_params(&rt, &seed), "1.5;q=?0;r=1");
    let flagged = item(&rt, &seed, Bare::Boolean(true), b"b", Bare::Boolean(true));
    check(&rt, flagged.into(), "?1;b");
}

/// Two members that are Items with no parameters.
fn two_items(
    rt: &(impl Abort + AllocGlobal),
    seed: &RandomState,
    first: Bare,
    second: Bare,
) -> Field {
    let second = plain(rt, seed, second).into();
    two(rt, plain(rt, seed, first).into(), second).into()
}

/// `(a;b c)`
fn two_tokens_inside(rt: &(impl Abort + AllocGlobal), seed: &RandomState) -> Inner {
    let first = item(rt, seed, token(rt, b"a"), b"b", Bare::Boolean(true));
    both(rt, seed, first, plain(rt, seed, token(rt, b"c")))
}

/// `(a;b c), (), "x, y"`
fn members_of_both_forms(rt: &(impl Abort + AllocGlobal), seed: &RandomState) -> Field {
    let none = Inner::new(rt.alloc(), seed).into();
    let list = two(rt, two_tokens_inside(rt, seed).into(), none);
    let last = plain(rt, seed, text(rt, b"x, y")).into();
    list.with(last).expect(rt, "room").into()
}

#[test]
fn lists(rt: HostRuntime) {
    let seed = seed(&rt);
    check(&rt, List::new(rt.alloc()).into(), "");
    let twice = two_items(&rt, &seed, blob(&rt, b"a"), blob(&rt, b"a"));
    check(&rt, twice, ":YQ==:, :YQ==:");
    check(
        &rt,
        members_of_both_forms(&rt, &seed),
        "(a;b c), (), \"x, y\"",
    );
}

/// `a=?0, b, c;foo=bar`, whose last value was put in place of another.
fn flags(rt: &(impl Abort + AllocGlobal), seed: &RandomState) -> Field {
    let mut dict = Dict::new(rt.alloc(), seed);
    for (key, value) in [
        (b"a".as_slice(), false),
        (b"b".as_slice(), true),
        (b"c".as_slice(), true),
    ] {
        let member = plain(rt, seed, Bare::Boolean(value)).into();
        dict = with(rt, dict, key, member);
    }
    with(rt, dict, b"c", flag(rt, seed, b"foo", token(rt, b"bar"))).into()
}

#[test]
fn dictionaries(rt: HostRuntime) {
    let seed = seed(&rt);
    check(&rt, example(&rt, &seed), EXAMPLE);
    check(&rt, flags(&rt, &seed), "a=?0, b, c;foo=bar");
    check(&rt, Dict::new(rt.alloc(), &seed).into(), "");
}

/// So many of a byte, with these bytes before and after them.
fn run_between(
    alloc: Global,
    before: &[u8],
    byte: u8,
    count: usize,
    after: &[u8],
) -> Result<Vec<u8>, AllocError> {
    let mut bytes = Vec::new(alloc);
    bytes.extend_from_slice(before)?;
    bytes.resize(count.wrapping_add(before.len()), byte)?;
    bytes.extend_from_slice(after)?;
    Ok(bytes)
}

/// The text has memory of its own length.
fn check_fitted(rt: &(impl Abort + AllocGlobal), field: &Field, want: &[u8]) {
    let text = to_text(rt.alloc(), field).expect(rt, "room");
    assert!(rt; text.as_slice() == want, "{}", want.len());
    assert!(rt; text.capacity() == want.len(), "{}", want.len());
}

/// A text of up to 512 bytes is gathered on the stack, and a longer one in memory. Each piece of a
/// text ends on both sides of that length, and some are longer.
#[test]
fn texts_of_each_length(rt: HostRuntime) {
    let alloc = rt.alloc();
    let seed = seed(&rt);
    for count in (490..530usize).chain(1010..1030) {
        let name = run_between(alloc, b"", b't', count, b"").expect(&rt, "room");
        let last = item(&rt, &seed, date(&rt, -3), b"key", text(&rt, b"a\\b"));
        let first = plain(&rt, &seed, token(&rt, name.as_slice()));
        let list = two(&rt, first.into(), last.into());
        let want = run_between(alloc, b"", b't', count, b", @-3;key=\"a\\\\b\"");
        check_fitted(&rt, &list.into(), want.expect(&rt, "room").as_slice());
    }
}

/// The same of a String whose pieces are short.
#[test]
fn texts_of_many_pieces(rt: HostRuntime) {
    let alloc = rt.alloc();
    let seed = seed(&rt);
    for count in 245..265usize {
        let quotes = run_between(alloc, b"a", b'"', count, b"").expect(&rt, "room");
        let field = plain(&rt, &seed, text(&rt, quotes.as_slice())).into();
        let mut want = run_between(alloc, b"\"a", b'"', 0, b"").expect(&rt, "room");
        for _ in 0..count {
            want.extend_from_slice(b"\\\"").expect(&rt, "room");
        }
        want.extend_from_slice(b"\"").expect(&rt, "room");
        check_fitted(&rt, &field, want.as_slice());
    }
}

// What a sink took that takes one byte a call and fails at call `fails_at`, and the answer to it.
#[derive(Drop)]
struct Sent {
    sink: Trickle,
    answer: Result<u64, WriteFault>,
}

fn send(rt: &(impl Abort + AllocGlobal), field: &Field, fails_at: u64) -> Sent {
    let mut sink = Trickle::new(rt.alloc(), fails_at);
    let answer = write_field(field, &mut sink);
    Sent { sink, answer }
}

fn is_whole(sent: &Sent, want: &[u8]) -> bool {
    let sink = &sent.sink;
    sent.answer == Ok(want.len() as u64)
        && sink.taken.as_slice() == want
        && sink.failures == 0
        && sink.calls == want.len() as u64
}

/// One byte went out for each call before the one that failed, which was the last.
fn is_prefix(sent: &Sent, written: u64, want: &[u8]) -> bool {
    let sink = &sent.sink;
    sent.answer == Err(WriteFault { written })
        && want.get(..written as usize) == Some(sink.taken.as_slice())
        && sink.failures == 1
        && sink.calls == written.wrapping_add(1)
}

/// Writes the text of a field into a sink that fails at no call, and in turn at each.
fn check_sends(rt: &(impl Abort + AllocGlobal), field: &Field, want: &[u8]) {
    let length = want.len() as u64;
    assert!(rt; is_whole(&send(rt, field, 0), want));
    for written in 0..length {
        let sent = send(rt, field, written.wrapping_add(1));
        assert!(rt; is_prefix(&sent, written, want), "after {written}");
    }
    assert!(rt; is_whole(&send(rt, field, length.wrapping_add(1)), want));
}

#[test]
fn sends_that_fail(rt: HostRuntime) {
    let seed = seed(&rt);
    let one_and_two = two_items(&rt, &seed, integer(&rt, 1), integer(&rt, 2));
    check_sends(&rt, &one_and_two, b"1, 2");
    check_sends(&rt, &example(&rt, &seed), EXAMPLE.as_bytes());
}

#[test]
fn a_fault_says_how_much_goes_out(rt: HostRuntime) {
    let fault = WriteFault { written: 2 };
    let message = format!(in rt.alloc(); "{fault}").expect(&rt, "room");
    assert!(rt; message.as_str() == "a write failed after 2 bytes");
}

#[test]
fn counts_go_on(rt: HostRuntime) {
    let mut out = Writing::new(Vec::new(rt.alloc()));
    let field = example(&rt, &seed(&rt));
    let sent = put_field(&field, Ok(0), &mut out);
    assert!(rt; sent == Ok(21) && put(b"\n", sent, &mut out) == Ok(22));
    check_text(&rt, out.into_inner(), "a=(1 2);y=:YQ==:, b;x\n");
}

#[test]
fn counts_of_bare_items_go_on(rt: HostRuntime) {
    let mut out = Writing::new(Vec::new(rt.alloc()));
    assert!(rt; put_bare(&token(&rt, b"end"), Ok(22), &mut out) == Ok(25));
    assert!(rt; send_all(b"..", u64::MAX - 1, &mut out) == Ok(u64::MAX));
    assert!(rt; write_bare(&integer(&rt, 7), &mut out) == Ok(1));
    let text = Text::new(rt.alloc(), b"a\"").expect(&rt, "a String");
    assert!(rt; put_text(&text, Ok(1), &mut out) == Ok(6));
    check_text(&rt, out.into_inner(), "end..7\"a\\\"\"");
}

/// After a fault nothing is sent, and the fault stays.
#[test]
fn faults_go_on(rt: HostRuntime) {
    let mut out = Trickle::new(rt.alloc(), 2);
    let field = example(&rt, &seed(&rt));
    let fault = Err(WriteFault { written: 1 });
    assert!(rt; put(b"ab", Ok(0), &mut out) == fault);
    assert!(rt; put(b"c", fault, &mut out) == fault);
    assert!(rt; put_field(&field, fault, &mut out) == fault);
    assert!(rt; out.taken.as_slice() == b"a".as_slice() && out.calls == 2);
}

fn check_told(rt: &impl Abort, told: String, want: &str) {
    assert!(rt; told.as_str() == want, "{want}");
}

fn check_string(rt: &(impl Abort + AllocGlobal), field: Field, want: &str) {
    let text = to_string(rt.alloc(), &field);
    check_told(rt, text.expect(rt, "room"), want);
}

#[test]
fn texts_are_strings(rt: HostRuntime) {
    let seed = seed(&rt);
    check_string(&rt, example(&rt, &seed), EXAMPLE);
    check_string(
        &rt,
        plain(&rt, &seed, shown(&rt, "fü")).into(),
        "%\"f%c3%bc\"",
    );
    check_string(&rt, List::new(rt.alloc()).into(), "");
}

/// What `{}` shows of a value.
fn check_display(rt: &(impl Abort + AllocGlobal), value: &impl Canonical, want: &str) {
    let text = display(value).to_string(rt.alloc());
    check_told(rt, text.expect(rt, "room"), want);
}

#[test]
fn bare_items_are_displayed(rt: HostRuntime) {
    check_display(&rt, &date(&rt, 1_659_578_233), "@1659578233");
    check_display(
        &rt,
        &shown(&rt, "This is intended for display to ü users."),
        "%\"This is intended for display to %c3%bc users.\"",
    );
}

#[test]
fn an_item_is_displayed(rt: HostRuntime) {
    let value = item(&rt, &seed(&rt), integer(&rt, 5), b"foo", token(&rt, b"bar"));
    check_display(&rt, &value, "5;foo=bar");
}

#[test]
fn an_inner_list_is_displayed(rt: HostRuntime) {
    let seed = seed(&rt);
    let foo = plain(&rt, &seed, text(&rt, b"foo"));
    let value = both(&rt, &seed, foo, plain(&rt, &seed, text(&rt, b"bar")));
    check_display(&rt, &value, "(\"foo\" \"bar\")");
}

#[test]
fn a_member_is_displayed(rt: HostRuntime) {
    let value = item(&rt, &seed(&rt), integer(&rt, 4), b"aa", token(&rt, b"bb"));
    check_display(&rt, &Member::from(value), "4;aa=bb");
}

#[test]
fn fields_are_displayed(rt: HostRuntime) {
    let seed = seed(&rt);
    let list = two_items(&rt, &seed, token(&rt, b"sugar"), token(&rt, b"tea"));
    check_display(&rt, &list, "sugar, tea");
    check_display(&rt, &flags(&rt, &seed), "a=?0, b, c;foo=bar");
    check_display(&rt, &Field::from(List::new(rt.alloc())), "");
}

#[test]
fn a_value_is_displayed_among_words(rt: HostRuntime) {
    let value = decimal(&rt, 4500);
    let text = format!(in rt.alloc(); "q is {}.", display(&value)).expect(&rt, "room");
    assert!(rt; text.as_str() == "q is 4.5.");
}
