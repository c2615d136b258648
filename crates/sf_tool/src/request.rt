//! The command line.
ghost use Rattle.std.specs.Prelude.{◌≡◌, ◌≢◌, ◌↔◌, [], map, true, false, Some, IfOk, IfErr, IsErrAnd};
ghost use Rattle.std.specs.Prelude.{MatchResult, string_bytes, IsTrue, Err, ℕ, Option, codes};
ghost use Rattle.clap.specs.Walk.{first_of};
ghost use Rattle.clap.specs.Words.{app_of, found_of, kind_of as kind_of_error, rows_of};
ghost use Rattle.clap.specs.Words.{subcommand_rows_of};
ghost use Rattle.sf_value.specs.declared.dialect.Dialect.{Dialect};
ghost use Rattle.sf_value.specs.declared.value.Kind.{Kind};
ghost use Rattle.sf_tool.specs.declared.request.RequestFault.TheVariants.{Usage};
ghost use Rattle.sf_tool.specs.Request.{HasFewNames};
ghost use Rattle.sf_tool.specs.Status.{fault_line, status_of};
ghost use Rattle.sf_tool.specs.CommandLine.{command_line, kind_command, names_command};
ghost use Rattle.sf_tool.specs.CommandLine.{kind_named as kind_named_in, name_list, option_of};
ghost use Rattle.clap.specs.Simple.{new_app, with_rule};
ghost use Rattle.sf_tool.specs.CommandLine.{NamesKind, NamesDialect, AsksFor, IsRequestOf};
ghost use Rattle.sf_tool.specs.CommandLine.{AreNames, IsGivenAge, NamesFallback};
ghost use Rattle.sf_tool.specs.CommandLine.{IsUsageOf, IsStray, IsOption, IsCommand};
ghost use Rattle.sf_tool.specs.Commands.{AsksAsFound, IsCommandFault, IsFoundFault};
ghost use Rattle.sf_tool.specs.Commands.{IsNamesFault};

use crate::header_names::header_name;
use crate::status::Status;
use clap::error::ErrorKind;
use clap::{Arg, ArgAction, ArgMatches, Command, Error as ClapError};
use http_header::HeaderName;
use sf_value::{Dialect, Kind};
use std::alloc::{AllocError, Global};
use std::error::Error;
use std::fmt;

/// The greatest number of names that `targeted` takes.
pub const MAX_NAMES: usize = 64;

/// A request: what to do with the field lines of the input.
#[derive(Debug, Drop)]
pub enum Request {
    /// Print the value as a tree; the lines are parsed in this dialect as a field of this kind.
    Show(Dialect, Kind),
    /// Print whether the lines are accepted in this dialect as a field of this kind.
    Check(Dialect, Kind),
    /// Print the canonical text; the lines are parsed in this dialect as a field of this kind.
    Normalise(Dialect, Kind),
    /// Print the hops of a Cache-Status field (RFC 9211), and which of them served the response.
    /// The lines are parsed by RFC 9651.
    CacheStatus,
    /// Print which field a cache with this target list obeys, and its policy (RFC 9213). Fields are
    /// parsed by RFC 9651. A request that [`read_request`] returns has from 1 to [`MAX_NAMES`]
    /// names.
    Targeted(Vec<HeaderName>),
    /// Print which field a cache with this target list obeys, or else that `Cache-Control` decides,
    /// and what a shared and a private cache decide by it about a response of this age, in seconds
    /// (RFC 9111). The listed fields are parsed by RFC 8941 and by RFC 9651; `Expires` is not read.
    /// A request that [`read_request`] returns has from 1 to [`MAX_NAMES`] names.
    Decide(Vec<HeaderName>, u64),
    /// Print the parameters of a Priority field, with the defaults for those that it does not set
    /// (RFC 9218). The lines are parsed by RFC 9651.
    Priority,
}

/// Why arguments make no request.
#[derive(Clone, Copy, Debug, PartialEq, Eq)]
pub enum RequestFault {
    /// The arguments are not those of a command, or ask for help.
    Usage,
    /// An allocation failed while they were parsed.
    OutOfMemory,
}

impl RequestFault {
    /// Returns how the command ends. Does not allocate.
    ///
    /// ```
    /// RequestFault::Usage.status() // Status::Usage, whose exit code is 2
    /// ```
    pub fn status(self) -> Status
        ensures { result ≡ status_of self }
    {
        match self {
            RequestFault::Usage => Status::Usage,
            RequestFault::OutOfMemory => Status::Stopped,
        }
    }
}

impl fmt::Display for RequestFault {
    ghost output = { λ fault. Some (fault_line fault) };

    fn fmt<W: fmt::Write>(&self, f: &mut fmt::Formatter<W>) -> fmt::Result {
        match self.status().line() {
            Some(line) => f.write_str(line),
            None => Ok(()),
        }
    }
}

impl Error for RequestFault {}

/// Parses the arguments of the command line, of which the first is the program's name.
///
/// `show`, `check` and `normalise` take `--kind item`, `--kind list` or `--kind dict`, and may take
/// `--dialect rfc8941` or `--dialect rfc9651`, which is the default. `cache-status` and `priority`
/// take nothing. `targeted` takes from 1 to [`MAX_NAMES`] header names (RFC 9110 section 5.1); a
/// name that begins with a hyphen has to follow `--`. It may take `--fallback cache-control`, and
/// with that `--age` and a number of seconds below 2^64, which is 0 if it is not given. Everything
/// else is `Usage`, including a request for help. A first argument that is no option and no command
/// is found without an allocation.
///
/// ```
/// let request = read_request(alloc, words.as_slice())?; // sf targeted CDN-Cache-Control
/// ```
pub fn read_request(alloc: Global, words: &[String]) -> Result<Request, RequestFault>
    // The request that the arguments make; Usage only if they make none.
    ensures request { MatchResult result (IsRequestOf (map string_bytes words.now))
        (IsUsageOf (map string_bytes words.now)) }
    // A request that has names has from 1 to 64.
    ensures few { IfOk result HasFewNames }
    // A first argument that is no option and no command is Usage, whatever memory there is.
    ensures stray { IsStray (map string_bytes words.now) → result ≡ Err Usage }
{
    if is_stray(words) {
        return Err(RequestFault::Usage);
    }
    let Ok(command) = make_command(alloc) else {
        return Err(RequestFault::OutOfMemory);
    };
    request_in(alloc, command.try_get_matches_from(words))
}

/// Returns whether the first argument is a word that is no option and no command.
fn is_stray(words: &[String]) -> bool
    ensures { IsTrue result ↔ IsStray (map string_bytes words.now) }
{
    if words.len() < 2 {
        return false;
    }
    let word = words[1].as_str();
    !is_option(word) && !is_command(word)
}

/// Returns whether a word begins as an option does.
fn is_option(word: &str) -> bool
    ensures { IsTrue result ↔ IsOption word.now }
{
    match word.as_bytes().first() {
        Some(byte) => *byte == b'-',
        None => false,
    }
}

/// Returns whether a word is the name of a command.
fn is_command(word: &str) -> bool
    ensures { IsTrue result ↔ IsCommand word.now }
{
    match word {
        "show" => true,
        "check" => true,
        "normalise" => true,
        "cache-status" => true,
        "targeted" => true,
        "priority" => true,
        _ => false,
    }
}

/// Returns the request of what clap parsed, or what its error means.
fn request_in(
    alloc: Global,
    parsed: Result<ArgMatches<'_>, ClapError>,
) -> Result<Request, RequestFault>
    // The request of the command that clap found; Usage only if there is none; OutOfMemory only for
    // names.
    ensures found { IfOk parsed.entry (λ m. MatchResult result (AsksAsFound (subcommand_rows_of m))
        (IsFoundFault (subcommand_rows_of m))) }
    // An error of clap is Usage, unless its kind is OutOfMemory.
    ensures fault { IfErr parsed.entry (λ e. IsErrAnd result
        (λ fault. (fault ≡ Usage) ↔ (kind_of_error e ≢ ErrorKind.OutOfMemory))) }
{
    let matches = match parsed {
        Ok(matches) => matches,
        Err(error) => return Err(fault_of(error.kind())),
    };
    match matches.subcommand() {
        Some((name, given)) => request_of(alloc, name, given),
        None => Err(RequestFault::Usage),
    }
}

/// Converts the kind of an error of clap.
fn fault_of(kind: ErrorKind) -> RequestFault
    ensures { (result ≡ Usage) ↔ (kind ≢ ErrorKind.OutOfMemory) }
{
    match kind {
        ErrorKind::OutOfMemory => RequestFault::OutOfMemory,
        _ => RequestFault::Usage,
    }
}

/// Returns the program, with its six commands.
fn make_command<'a>(alloc: Global) -> Result<Command<'a>, AllocError>
    // It is the program as defined: one of six commands has to be named.
    ensures { IfOk result (λ c. app_of c ≡ command_line) }
{
    Command::new(alloc, "sf")
        .subcommand_required(true)
        .subcommand(with_kind(alloc, "show")?)?
        .subcommand(with_kind(alloc, "check")?)?
        .subcommand(with_kind(alloc, "normalise")?)?
        .subcommand(Command::new(alloc, "cache-status"))?
        .subcommand(with_names(alloc, "targeted")?)?
        .subcommand(Command::new(alloc, "priority"))
}

/// Returns a command that takes a kind and a dialect.
fn with_kind<'a>(alloc: Global, name: &'a str) -> Result<Command<'a>, AllocError>
    // It takes `--kind`, which is required, and `--dialect`, and has no subcommands.
    ensures { IfOk result
        (λ c. app_of c ≡ record { top = kind_command name.entry.now; subs = [] }) }
{
    let kind = Arg::new(alloc, "kind").long("kind").required(true);
    let dialect = Arg::new(alloc, "dialect")
        .long("dialect")
        .default_value("rfc9651");
    Command::new(alloc, name).arg(kind)?.arg(dialect)
}

/// Returns a command that takes one name or more, and may take a fallback and an age.
fn with_names<'a>(alloc: Global, name: &'a str) -> Result<Command<'a>, AllocError>
    // It takes one name or more, `--fallback` and `--age`, and has no subcommands.
    ensures { IfOk result
        (λ c. app_of c ≡ record { top = names_command name.entry.now; subs = [] }) }
{
    let command = with_name_list(alloc, name)?;
    let command = with_option(alloc, command, "fallback")?;
    with_option(alloc, command, "age")
}

/// Returns a command that takes one option more, with a value.
fn with_option<'a>(
    alloc: Global,
    command: Command<'a>,
    name: &'a str,
) -> Result<Command<'a>, AllocError>
    ensures { IfOk result
        (λ c. app_of c ≡ with_rule (app_of command.entry) (option_of name.entry.now)) }
{
    command.arg(Arg::new(alloc, name).long(name))
}

/// Returns a command that takes one name or more.
fn with_name_list<'a>(alloc: Global, name: &'a str) -> Result<Command<'a>, AllocError>
    // It takes one name or more, and has no subcommands.
    ensures { IfOk result (λ c. app_of c ≡ with_rule (new_app name.entry.now) name_list) }
{
    let names = Arg::new(alloc, "name")
        .required(true)
        .num_args(1..)
        .action(ArgAction::Append);
    Command::new(alloc, name).arg(names)
}

/// Returns the request of a command and its arguments.
fn request_of(alloc: Global, name: &str, given: &ArgMatches<'_>) -> Result<Request, RequestFault>
    // The request that they make; Usage only if there is none; OutOfMemory only for names.
    ensures { MatchResult result (AsksFor name.now (rows_of (found_of given.now)))
        (IsCommandFault name.now (rows_of (found_of given.now))) }
{
    match name {
        "show" => Ok(Request::Show(dialect_of(given)?, kind_of(given)?)),
        "check" => Ok(Request::Check(dialect_of(given)?, kind_of(given)?)),
        "normalise" => Ok(Request::Normalise(dialect_of(given)?, kind_of(given)?)),
        "cache-status" => Ok(Request::CacheStatus),
        "targeted" => targeted(alloc, given),
        "priority" => Ok(Request::Priority),
        _ => Err(RequestFault::Usage),
    }
}

/// Returns the dialect that was given, or the default.
fn dialect_of(given: &ArgMatches<'_>) -> Result<Dialect, RequestFault>
    // The dialect that is named; Usage if what is named is not a dialect.
    ensures { MatchResult result (NamesDialect (rows_of (found_of given.now)))
        (λ fault. (fault ≡ Usage)
        × ((d : Dialect) → ¬ (NamesDialect (rows_of (found_of given.now)) d))) }
{
    let Some(word) = given.get_str("dialect") else {
        return Err(RequestFault::Usage);
    };
    match word {
        "rfc8941" => Ok(Dialect::Rfc8941),
        "rfc9651" => Ok(Dialect::Rfc9651),
        _ => Err(RequestFault::Usage),
    }
}

/// Returns the kind that was given.
fn kind_of(given: &ArgMatches<'_>) -> Result<Kind, RequestFault>
    // The kind that is named; Usage if what is named is not a kind.
    ensures { MatchResult result (NamesKind (rows_of (found_of given.now)))
        (λ fault. (fault ≡ Usage)
        × ((k : Kind) → ¬ (NamesKind (rows_of (found_of given.now)) k))) }
{
    let Some(word) = given.get_str("kind") else {
        return Err(RequestFault::Usage);
    };
    match kind_named(word.as_bytes()) {
        Some(kind) => return Ok(kind),
        None => return Err(RequestFault::Usage),
    }
}

/// Returns the kind of the name `item`, `list` or `dict`; `None` for any other word. Does not
/// allocate.
pub fn kind_named(word: &[u8]) -> Option<Kind>
    ensures { result ≡ kind_named_in word.now }
{
    if word == b"item".as_slice() {
        return Some(Kind::Item);
    }
    if word == b"list".as_slice() {
        return Some(Kind::List);
    }
    if word == b"dict".as_slice() {
        return Some(Kind::Dict);
    }
    None
}

/// Returns the request of `targeted` and its arguments.
fn targeted(alloc: Global, given: &ArgMatches<'_>) -> Result<Request, RequestFault>
    // The request that they make; Usage only if there is none; OutOfMemory only for names.
    ensures { MatchResult result (AsksFor (codes "targeted") (rows_of (found_of given.now)))
        (IsCommandFault (codes "targeted") (rows_of (found_of given.now))) }
{
    let fallback = fallback_of(given)?;
    let Some(words) = given.get_strs("name") else {
        return Err(RequestFault::Usage);
    };
    let names = names_in(alloc, words)?;
    match fallback {
        Some(age) => return Ok(Request::Decide(names, age)),
        None => return Ok(Request::Targeted(names)),
    }
}

/// Returns the age that was given as `--age`, in seconds; `None` if none was given. `Usage` if what
/// was given is not a number below 2^64, in digits that may follow a plus. Does not allocate.
pub fn age_of(given: &ArgMatches<'_>) -> Result<Option<u64>, RequestFault>
    // The age that is named; Usage if what is named is no number of seconds.
    ensures { MatchResult result (IsGivenAge (first_of (codes "age") (rows_of (found_of given.now))))
        (λ fault. (fault ≡ Usage) × ((age : Option ℕ)
        → ¬ (IsGivenAge (first_of (codes "age") (rows_of (found_of given.now))) age))) }
{
    let Some(word) = given.get_str("age") else {
        return Ok(None);
    };
    match word.parse::<u64>() {
        Ok(age) => return Ok(Some(age)),
        Err(_) => return Err(RequestFault::Usage),
    }
}

/// Returns the age that was given with a fallback, or 0; None if neither was given.
fn fallback_of(given: &ArgMatches<'_>) -> Result<Option<u64>, RequestFault>
    // What is given; Usage if that is no fallback and age.
    ensures { MatchResult result (NamesFallback (rows_of (found_of given.now)))
        (λ fault. (fault ≡ Usage)
        × ((age : Option ℕ) → ¬ (NamesFallback (rows_of (found_of given.now)) age))) }
{
    let age = age_of(given)?;
    let Some(word) = given.get_str("fallback") else {
        return match age {
            Some(_) => Err(RequestFault::Usage),
            None => Ok(None),
        };
    };
    match word {
        "cache-control" => return Ok(Some(age.unwrap_or(0))),
        _ => return Err(RequestFault::Usage),
    }
}

/// Returns the header names that these words are, in lower case (RFC 9110 section 5.1). `Usage` if
/// there is no word or more than [`MAX_NAMES`], or if a word is not a header name; `OutOfMemory` if
/// an allocation for a name before any such word failed.
///
/// ```
/// names_in(alloc, &["CDN-Cache-Control"])? // cdn-cache-control
/// ```
pub fn names_in(alloc: Global, words: &[&str]) -> Result<Vec<HeaderName>, RequestFault>
    // These names, or why they are none.
    ensures { MatchResult result (λ names. AreNames (map (λ w. w.now) words.now) names.items)
        (IsNamesFault (map (λ w. w.now) words.now)) }
{
    if words.is_empty() || words.len() > MAX_NAMES {
        return Err(RequestFault::Usage);
    }
    let mut names = Vec::new(alloc);
    for word in words {
        let Some(made) = header_name(alloc, word.as_bytes()) else {
            return Err(RequestFault::Usage);
        };
        let Ok(name) = made else {
            return Err(RequestFault::OutOfMemory);
        };
        let Ok(()) = names.push(name) else {
            return Err(RequestFault::OutOfMemory);
        };
    }
    Ok(names)
}
