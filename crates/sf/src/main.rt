//! The command `sf`: reads its arguments and standard input, and writes to standard output.
//! `sf_tool` defines what it does, its status and its messages.
#![tactic(auto)]

use sf_tool::{ErrorStream, Request, RequestFault, Status, read_request, run};
use sf_value::{Reading, Writing};
use std::env;
use std::hash::RandomState;
use std::io::{ErrorKind, IsTerminal, Write};
use std::process::ExitCode;

fn main(rt: HostRuntime) -> ExitCode {
    let status = match request_of(&rt) {
        Ok(request) => answer(&rt, &request),
        Err(fault) => fault.status(),
    };
    if let Some(line) = status.line() {
        // If that fails, too, nothing can be reported.
        let _ = rt.eprintln(line);
    }
    ExitCode::from(status.code())
}

/// The request of the command line.
fn request_of(rt: &HostRuntime) -> Result<Request, RequestFault> {
    let args = match env::args(rt) {
        Ok(args) => args,
        Err(error) => match error.kind() {
            ErrorKind::OutOfMemory => return Err(RequestFault::OutOfMemory),
            // An argument is not UTF-8.
            _ => return Err(RequestFault::Usage),
        },
    };
    let words: Vec<String> = match args.collect(rt.alloc()) {
        Ok(words) => words,
        Err(_) => return Err(RequestFault::OutOfMemory),
    };
    read_request(rt.alloc(), words.as_slice())
}

/// Answers the request from standard input to standard output, and flushes that. A refusal is
/// explained on standard error if that is a terminal.
fn answer(rt: &HostRuntime, request: &Request) -> Status {
    let Ok(seed) = RandomState::new(rt) else {
        return Status::Stopped;
    };
    let mut source = Reading::new(rt.stdin());
    let mut sink = Writing::new(rt.stdout());
    let stderr = rt.stderr();
    let is_terminal = stderr.is_terminal();
    let mut errors = ErrorStream {
        device: Writing::new(stderr),
        is_terminal,
    };
    let status = run(
        rt.alloc(),
        &seed,
        request,
        &mut source,
        &mut sink,
        &mut errors,
    );
    status.after_flush(sink.into_inner().flush())
}
