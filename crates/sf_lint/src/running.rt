//! Running the check of an input.
ghost use Rattle.std.specs.Prelude.{◌≡◌, ◌≤◌, ◌⊎◌, length};
ghost use Rattle.sf_lint.specs.Run.{AnswersWith, Runs, RunsWith, status_of as status_in};
ghost use Rattle.sf_lint.specs.Run.{too_long_text as too_long_in};
ghost use Rattle.sf_tool.specs.declared.status.Status.TheVariants as status_is;
ghost use Rattle.sf_tool.specs.Run.{input_limit};

use crate::options::Options;
use crate::report::report;
use crate::settings::{CacheSettings, Settings};
use sf_tool::{INPUT_LIMIT, ReadAllFault, Status, answer_made, read_all};
use sf_value::{Sink, Source};
use std::alloc::Global;
use std::hash::RandomState;

/// Checks the heads of an input: reads all of it from the source, and then writes the report to the
/// sink.
///
/// An input longer than [`INPUT_LIMIT`] is refused after one byte beyond the limit was read,
/// whatever memory is left. Nothing is read after that, or after the end of the input. If a read
/// fails, or an allocation, the result is `Stopped`, and nothing was written; a failed read is not
/// repeated. If a write fails, the result is `Stopped`, and a prefix of the answer was written.
/// Otherwise the whole answer was written, and the result is `Refused` if a field or a line is
/// refused, and `Accepted` if none is. The result is never `Usage`, and the sink is not flushed. At
/// most 262,144 bytes are read at a time, and the whole answer is sent to the sink at once.
///
/// ```
/// let settings = Settings { fields: Vec::new(alloc), quiet: false, colour: false };
/// let mut source = Reading::new(b"Priority: u=1,i\r\n".as_slice());
/// let mut sink = Writing::new(Vec::new(alloc));
/// run(alloc, &seed, &settings, &mut source, &mut sink); // Accepted, and "ok priority: u=1, i\n.."
/// ```
pub fn run<R: Source, W: Sink>(
    alloc: Global,
    seed: &RandomState,
    settings: &Settings,
    source: &mut R,
    sink: &mut W,
) -> Status
    // The whole input is read and answered, or refused as too long; otherwise nothing is written.
    ensures { Runs settings.now (R.state source.old) (R.state source.new)
        (W.state sink.old) (W.state sink.new) result }
{
    run_in(alloc, seed, settings, &None, source, sink)
}

/// Checks the heads of an input, as [`run`] does, and if the options have caches, writes after the
/// lines of each response what a shared and a private cache decide about it (RFC 9111).
///
/// The lines are those of the field that is obeyed, in the words of `sf targeted --fallback`, and
/// are written with `quiet` too. A decision also depends on the status code of the status line, on
/// `Age` if the caches have no age, and on `Expires` and `Date` if `Cache-Control` decides but has
/// no `max-age` (for a shared cache, no `s-maxage` either). What caches decide does not change the
/// result.
///
/// ```
/// // caches: Some(CacheSettings { targets: [CDN_CACHE_CONTROL], age: Some(15) })
/// let mut source = Reading::new(b"HTTP/2 200\r\nCache-Control: max-age=60\r\n".as_slice());
/// run_with(alloc, &seed, &options, &mut source, &mut sink);
/// // HTTP/2 200
/// // decision cache-control: shared fresh 45 max-age
/// // decision cache-control: private fresh 45 max-age
/// // other fields: 1
/// ```
pub fn run_with<R: Source, W: Sink>(
    alloc: Global,
    seed: &RandomState,
    options: &Options,
    source: &mut R,
    sink: &mut W,
) -> Status
    // The whole input is read and answered, or refused as too long; otherwise nothing is written.
    ensures { RunsWith options.now.caches options.now.settings (R.state source.old)
        (R.state source.new) (W.state sink.old) (W.state sink.new) result }
{
    run_in(
        alloc,
        seed,
        &options.settings,
        &options.caches,
        source,
        sink,
    )
}

/// Checks the heads of an input, by settings and with the decisions of these caches.
fn run_in<R: Source, W: Sink>(
    alloc: Global,
    seed: &RandomState,
    settings: &Settings,
    caches: &Option<CacheSettings>,
    source: &mut R,
    sink: &mut W,
) -> Status
    ensures { RunsWith caches.now settings.now (R.state source.old) (R.state source.new)
        (W.state sink.old) (W.state sink.new) result }
{
    match read_all(alloc, INPUT_LIMIT, source) {
        Ok(input) => answer(alloc, seed, settings, caches, input.as_slice(), sink),
        Err(ReadAllFault::TooLong { max: _ }) => answer_made(
            too_long_text(settings),
            Status::Refused,
            sink,
        ),
        Err(_) => Status::Stopped,
    }
}

/// Returns the line for an input that is longer than [`INPUT_LIMIT`], with this limit in decimal.
/// Does not allocate, since the line is written whatever memory is left.
fn too_long_text(settings: &Settings) -> &'static [u8]
    ensures { result.now ≡ too_long_in settings.now }
{
    if settings.colour {
        b"\x1b[31mrefused\x1b[0m too long 1048576\n"
    } else {
        b"refused too long 1048576\n"
    }
}

/// Returns the status of a report.
fn status_of(refused: bool) -> Status
    ensures status { result ≡ status_in refused }
    ensures answered { result ≡ status_is.Accepted ⊎ result ≡ status_is.Refused }
{
    if refused {
        Status::Refused
    } else {
        Status::Accepted
    }
}

/// Answers an input.
fn answer<W: Sink>(
    alloc: Global,
    seed: &RandomState,
    settings: &Settings,
    caches: &Option<CacheSettings>,
    input: &[u8],
    sink: &mut W,
) -> Status
    requires { length input.now ≤ input_limit }
    // The whole answer was written; or a prefix of it, and a write failed; or nothing.
    ensures { AnswersWith caches.now settings.now input.now (W.state sink.old) (W.state sink.new)
        result }
{
    match report(alloc, seed, settings, caches, input) {
        Ok(reported) => {
            let status = status_of(reported.refused);
            answer_made(reported.text.as_slice(), status, sink)
        }
        Err(_) => Status::Stopped,
    }
}
