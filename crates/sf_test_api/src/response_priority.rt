//! The priorities of responses. Expected values come from RFC 9218 sections 4, 5 and 8.
use crate::building::seed;
use sf_field::ask_in;
use sf_parse::parse_dict;
use sf_use::{
    Asked, Priority, ResponsePriority, ResponsePriorityField, Urgency, merge, priority_field,
    response_priority_field,
};
use sf_value::{Blob, Dialect, Dict};
use sf_write::to_text;
use std::hash::RandomState;
use std::process::Abort;

fn response_of(
    rt: &(impl Abort + AllocGlobal),
    urgency: Option<u8>,
    incremental: Option<bool>,
) -> ResponsePriority {
    let urgency = match urgency {
        Some(number) => Some(Urgency::new(number).expect(rt, "an urgency")),
        None => None,
    };
    ResponsePriority {
        urgency,
        incremental,
    }
}

fn text_of(rt: &(impl Abort + AllocGlobal), dict: Dict) -> Vec<u8> {
    to_text(rt.alloc(), &dict.into()).expect(rt, "room")
}

fn written(
    rt: &(impl Abort + AllocGlobal),
    seed: &RandomState,
    response: ResponsePriority,
) -> Vec<u8> {
    let dict = response_priority_field(rt.alloc(), seed, response).expect(rt, "room");
    text_of(rt, dict)
}

/// What the field of a response sets.
fn read(rt: &(impl Abort + AllocGlobal), seed: &RandomState, text: &[u8]) -> ResponsePriority {
    let line = Blob::new(rt.alloc(), text).expect(rt, "room");
    let read = ask_in(
        rt.alloc(),
        seed,
        Dialect::Rfc8941,
        &ResponsePriorityField,
        &[line],
    );
    read.expect(rt, "a Dictionary")
}

/// What is set is written, also if it is the default, and is read again.
#[test]
fn written_responses(rt: HostRuntime) {
    let seed = seed(&rt);
    for &(urgency, incremental, want) in &[
        (None, None, b"".as_slice()),
        (Some(3), None, b"u=3"),
        (None, Some(false), b"i=?0"),
        (Some(3), Some(false), b"u=3, i=?0"),
        (Some(1), Some(true), b"u=1, i"),
        (None, Some(true), b"i"),
        (Some(0), None, b"u=0"),
    ] {
        let response = response_of(&rt, urgency, incremental);
        let text = written(&rt, &seed, response);
        assert!(rt; text.as_slice() == want, "{response:?}");
        assert!(rt; read(&rt, &seed, &text) == response, "{response:?}");
        let scanned = ResponsePriority::scan_in(Dialect::Rfc8941, &text);
        assert!(rt; scanned == Some(response), "{response:?}");
    }
}

/// Parameters that are out of range or of another type are ignored, so they are not set.
#[test]
fn ignored_parameters(rt: HostRuntime) {
    let seed = seed(&rt);
    for &text in &[b"u=8, i=1".as_slice(), b"u=1.0", b"x=1", b"u=-1, i=i"] {
        assert!(rt; read(&rt, &seed, text) == ResponsePriority::default());
    }
}

fn asked(rt: &(impl Abort + AllocGlobal), seed: &RandomState, text: &[u8]) -> Asked {
    let dict = parse_dict(rt.alloc(), seed, text).expect(rt, "a Dictionary");
    Priority::from_dict(&dict)
}

/// Tries that the response gives this priority to the request.
fn check_response(
    rt: &(impl Abort + AllocGlobal),
    seed: &RandomState,
    request: &[u8],
    response: &[u8],
    want: (u8, bool),
) {
    let priority = read(rt, seed, response).for_request(asked(rt, seed, request));
    assert!(rt; priority.urgency.get() == want.0);
    assert!(rt; priority.incremental == want.1);
    let server = read(rt, seed, response).as_asked();
    let merged = merge(asked(rt, seed, request), server).with_defaults();
    assert!(rt; merged == priority);
}

/// The request, the response, and the urgency and the flag that both come to. The first row is the
/// example of section 8.
#[test]
fn responses_to_requests(rt: HostRuntime) {
    let seed = seed(&rt);
    check_response(&rt, &seed, b"u=5, i", b"u=1", (1, true));
    check_response(&rt, &seed, b"u=5, i", b"", (5, true));
    check_response(&rt, &seed, b"u=5, i", b"u=3, i=?0", (3, false));
    check_response(&rt, &seed, b"u=5, i", b"i=?0", (5, false));
    check_response(&rt, &seed, b"", b"", (3, false));
    check_response(&rt, &seed, b"", b"u=7", (7, false));
}

/// A response with the default priority has it for every request; the field of a request with the
/// default priority is empty, and as a response it would leave what the client asked for.
#[test]
fn fixed_responses(rt: HostRuntime) {
    let seed = seed(&rt);
    let fixed = ResponsePriority::fixed(Priority::default());
    assert!(rt; written(&rt, &seed, fixed).as_slice() == b"u=3, i=?0".as_slice());
    let request = asked(&rt, &seed, b"u=5, i");
    assert!(rt; fixed.for_request(request) == Priority::default());
    let dict = priority_field(rt.alloc(), &seed, Priority::default()).expect(&rt, "room");
    let left = read(&rt, &seed, &text_of(&rt, dict)).for_request(request);
    assert!(rt; left.urgency.get() == 5 && left.incremental);
}
