use sf_value::{Failed, OutOfMemory, OutOfRange, TextFault};
use std::fmt::Display;
use std::process::Abort;

fn check_text_of(rt: &(impl Abort + AllocGlobal), fault: &(impl Display + Drop), text: &str) {
    let shown = fault.to_string(rt.alloc()).expect(rt, "room");
    assert!(rt; shown.as_str() == text, "{text}");
}

#[test]
fn faults_say_themselves(rt: HostRuntime) {
    assert!(rt; TextFault::from(OutOfMemory) == TextFault::OutOfMemory);
    check_text_of(&rt, &OutOfMemory, "out of memory");
    check_text_of(&rt, &OutOfRange, "a number out of range");
    check_text_of(&rt, &TextFault::Empty, "no byte");
    let bad = TextFault::BadByte { place: 3 };
    check_text_of(&rt, &bad, "a bad byte at 3");
    check_text_of(&rt, &TextFault::OutOfMemory, "out of memory");
    check_text_of(&rt, &Failed, "a device failed");
}
