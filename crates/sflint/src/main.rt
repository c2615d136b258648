//! The command `sflint`: reads its arguments and standard input, and writes to standard output, in
//! colours if that is a terminal. `sf_lint` defines what it does, its status and its messages.
#![tactic(auto)]

use sf_lint::{Options, OptionsFault, Settings, is_coloured, read_options, run_with, status_line};
use sf_tool::Status;
use sf_value::{Reading, Writing};
use std::env;
use std::env::VarError;
use std::hash::RandomState;
use std::io::{ErrorKind, IsTerminal, Write};
use std::process::ExitCode;

fn main(rt: HostRuntime) -> ExitCode {
    let status = match options_of(&rt) {
        Ok(Options { settings, caches }) => {
            let colour = has_colours(&rt);
            let settings = Settings { colour, ..settings };
            answer(&rt, &Options { settings, caches })
        }
        Err(fault) => tell(&rt, fault),
    };
    if let Some(line) = status_line(status) {
        // If that fails, too, nothing can be reported.
        let _ = rt.eprintln(line);
    }
    ExitCode::from(status.code())
}

/// The options of the command line.
fn options_of(rt: &HostRuntime) -> Result<Options, OptionsFault> {
    let args = match env::args(rt) {
        Ok(args) => args,
        Err(error) => match error.kind() {
            ErrorKind::OutOfMemory => return Err(OptionsFault::OutOfMemory),
            // An argument is not UTF-8.
            _ => return Err(OptionsFault::Usage),
        },
    };
    let words: Vec<String> = match args.collect(rt.alloc()) {
        Ok(words) => words,
        Err(_) => return Err(OptionsFault::OutOfMemory),
    };
    read_options(rt.alloc(), words.as_slice())
}

/// Whether the output is coloured: if standard output is a terminal, unless the environment says
/// otherwise.
fn has_colours(rt: &HostRuntime) -> bool {
    let is_terminal = rt.stdout().is_terminal();
    match env::var(rt, "NO_COLOR") {
        Ok(value) => is_coloured(is_terminal, Some(value.as_str())),
        Err(VarError::NotPresent) => is_coloured(is_terminal, None),
        // A value that is not Unicode is not empty. Out of memory, the value is not known.
        Err(VarError::NotUnicode | VarError::OutOfMemory) => false,
    }
}

/// Writes the text of the fault to standard output, if it has one.
fn tell(rt: &HostRuntime, fault: OptionsFault) -> Status {
    let Some(text) = fault.text() else {
        return fault.status();
    };
    match rt.print(text) {
        Ok(()) => fault.status(),
        Err(_) => Status::Stopped,
    }
}

/// Writes the report on standard input to standard output, and flushes that.
fn answer(rt: &HostRuntime, options: &Options) -> Status {
    let Ok(seed) = RandomState::new(rt) else {
        return Status::Stopped;
    };
    let mut source = Reading::new(rt.stdin());
    let mut sink = Writing::new(rt.stdout());
    let status = run_with(rt.alloc(), &seed, options, &mut source, &mut sink);
    status.after_flush(sink.into_inner().flush())
}
