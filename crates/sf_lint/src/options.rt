//! The command line of `sflint`.
ghost use Rattle.std.specs.Prelude.{◌≡◌, ◌⊎◌, ◌↔◌, ℕ, map, Option, Some, None, IfOk, MatchResult};
ghost use Rattle.std.specs.Prelude.{codes, string_bytes};
ghost use Rattle.std.specs.Option.{option_map};
ghost use Rattle.clap.specs.Words.{app_of, found_of, rows_of};
ghost use Rattle.clap.specs.Walk.{first_of};
ghost use Rattle.clap.specs.Simple.{with_rule};
ghost use Rattle.sf_tool.specs.CommandLine.{IsGivenAge, option_of};
ghost use Rattle.sf_lint.specs.Options.{decide_option, target_option};
ghost use Rattle.sf_lint.specs.Options.{command_line, AreOptionsOf, AreGiven, IsFaultOf};
ghost use Rattle.sf_lint.specs.Options.{AreGivenOptions, IsOptionsFault, AreGivenCaches};
ghost use Rattle.sf_lint.specs.Options.{IsCachesFault, AreTargets, IsTargetsFault, target_words};
ghost use Rattle.sf_lint.specs.Options.{IsGivenFault, AreFields, IsFieldsFault, is_true};
ghost use Rattle.sf_lint.specs.Options.{custom_of, fault_status, fault_line};
ghost use Rattle.sf_lint.specs.Options.{fault_text};
ghost use Rattle.sf_lint.specs.declared.options.OptionsFault.TheVariants as fault_is;

use crate::settings::{CacheSettings, CustomField, Settings};
use clap::error::ErrorKind;
use clap::{Arg, ArgAction, ArgMatches, Command};
use http_header::{CDN_CACHE_CONTROL, HeaderName};
use sf_tool::{RequestFault, Status, age_of, header_name, kind_named, names_in, split_at_first};
use std::alloc::{AllocError, Global};

/// What the arguments ask for.
#[derive(Debug, Drop)]
pub struct Options {
    /// Which fields are checked, and what is printed of them.
    pub settings: Settings,
    /// The caches whose decisions are printed; `None` if none are.
    pub caches: Option<CacheSettings>,
}

/// Why the arguments make no options.
#[derive(Clone, Copy, Debug, PartialEq, Eq)]
pub enum OptionsFault {
    /// The arguments are not those of the command.
    Usage,
    /// The arguments ask for help.
    Help,
    /// The arguments ask for the version.
    Version,
    /// An allocation failed while they were parsed.
    OutOfMemory,
}

impl OptionsFault {
    /// Returns the result of the command, once [`OptionsFault::text`] was written. Does not
    /// allocate.
    pub fn status(self) -> Status
        ensures { result ≡ fault_status self }
    {
        match self {
            OptionsFault::Usage => Status::Usage,
            OptionsFault::Help => Status::Accepted,
            OptionsFault::Version => Status::Accepted,
            OptionsFault::OutOfMemory => Status::Stopped,
        }
    }

    /// Returns the text for standard output, if help or the version was asked for; otherwise
    /// `None`. Does not allocate.
    pub fn text(self) -> Option<&'static str>
        ensures { option_map (λ s. s.now) result ≡ fault_text self }
    {
        match self {
            OptionsFault::Usage => None,
            OptionsFault::Help => Some(
                "usage: sflint [--field NAME:item|list|dict].. [--quiet]\n              \
                 [--decide [--age SECONDS] [--target NAME]..]\n\n\
                 Reads the heads of HTTP messages from standard input, as curl -sI prints them, and\n\
                 shows each structured field: its canonical text and its meaning, or why it is \
                 refused.\n\
                 \n  --field NAME:KIND  a field to check, with its kind: item, list or dict\
                 \n  --quiet            show only what is refused, and decisions\
                 \n  --decide           show what a shared and a private cache decide about each response\
                 \n  --age SECONDS      the age of each response; without it, that of its Age\
                 \n  --target NAME      a field that the caches obey before Cache-Control (RFC 9213), in\
                 \n                     order of preference; without it, CDN-Cache-Control\
                 \n  --help             show this help\
                 \n  --version          show the version\n\n\
                 The status is 0 if everything is accepted, 1 if something is refused, 2 if the \
                 arguments\nare wrong, and 3 if an allocation or a device fails.\n",
            ),
            OptionsFault::Version => Some("sflint 0.1.0\n"),
            OptionsFault::OutOfMemory => None,
        }
    }
}

/// Returns the line for standard error, without its line feed; `None` if the input was answered.
/// Does not allocate.
pub fn status_line(status: Status) -> Option<&'static str>
    ensures { option_map (λ s. s.now) result ≡ fault_line status }
{
    match status {
        Status::Accepted => None,
        Status::Refused => None,
        Status::Usage => {
            Some(
                "sflint: usage: sflint [--field NAME:item|list|dict].. [--quiet] \
                 [--decide [--age SECONDS] [--target NAME]..]; or --help",
            )
        }
        Status::Stopped => Some("sflint: out of memory or a device failed"),
    }
}

/// Parses the arguments of the command line, of which the first is the program's name.
///
/// `--field NAME:KIND` can be given any number of times: the name is a header name in any case, and
/// the kind `item`, `list` or `dict`. `--quiet` is given at most once, and so is `--decide`. With
/// `--decide` there may be one `--age`, a number of seconds below 2^64, and up to 64 `--target`,
/// each with a header name; without a target, the only one is `cdn-cache-control` (RFC 9213 section
/// 3). `--help` and `--version` are returned as faults. No argument sets colours: the settings have
/// none.
///
/// ```
/// let options = read_options(alloc, words.as_slice())?; // sflint --decide --age 15 --quiet
/// ```
pub fn read_options(alloc: Global, words: &[String]) -> Result<Options, OptionsFault>
    // The options that the arguments make; Usage only if they make none.
    ensures { MatchResult result (AreOptionsOf (map string_bytes words.now))
        (IsFaultOf (map string_bytes words.now)) }
{
    let Ok(command) = make_command(alloc) else {
        return Err(OptionsFault::OutOfMemory);
    };
    let matches = match command.try_get_matches_from(words) {
        Ok(matches) => matches,
        Err(error) => return Err(fault_of(error.kind())),
    };
    options_of(alloc, &matches)
}

/// Converts the kind of an error of clap.
fn fault_of(kind: ErrorKind) -> OptionsFault
    ensures help { (result ≡ fault_is.Help) ↔ (kind ≡ ErrorKind.DisplayHelp) }
    ensures version { (result ≡ fault_is.Version) ↔ (kind ≡ ErrorKind.DisplayVersion) }
    ensures memory { (result ≡ fault_is.OutOfMemory) ↔ (kind ≡ ErrorKind.OutOfMemory) }
{
    match kind {
        ErrorKind::OutOfMemory => OptionsFault::OutOfMemory,
        ErrorKind::DisplayHelp => OptionsFault::Help,
        ErrorKind::DisplayVersion => OptionsFault::Version,
        _ => OptionsFault::Usage,
    }
}

/// Returns the program, with its options.
fn make_command<'a>(alloc: Global) -> Result<Command<'a>, AllocError>
    // It is the program as defined.
    ensures { IfOk result (λ c. app_of c ≡ command_line) }
{
    let field = Arg::new(alloc, "field")
        .long("field")
        .action(ArgAction::Append);
    let quiet = Arg::new(alloc, "quiet")
        .long("quiet")
        .action(ArgAction::SetTrue);
    let command = Command::new(alloc, "sflint")
        .version("0.1.0")
        .arg(field)?
        .arg(quiet)?;
    with_caches(alloc, command)
}

/// Returns the program with the options for decisions.
fn with_caches<'a>(alloc: Global, command: Command<'a>) -> Result<Command<'a>, AllocError>
    ensures { IfOk result (λ c. app_of c ≡ with_rule (with_rule (with_rule (app_of command.entry)
        decide_option) (option_of (codes "age"))) target_option) }
{
    let deciding = with_decide(alloc, command)?;
    let aged = with_age(alloc, deciding)?;
    with_target(alloc, aged)
}

/// Returns the program with `--decide`.
fn with_decide<'a>(alloc: Global, command: Command<'a>) -> Result<Command<'a>, AllocError>
    ensures { IfOk result (λ c. app_of c ≡ with_rule (app_of command.entry) decide_option) }
{
    let decide = Arg::new(alloc, "decide")
        .long("decide")
        .action(ArgAction::SetTrue);
    command.arg(decide)
}

/// Returns the program with `--age`.
fn with_age<'a>(alloc: Global, command: Command<'a>) -> Result<Command<'a>, AllocError>
    ensures { IfOk result
        (λ c. app_of c ≡ with_rule (app_of command.entry) (option_of (codes "age"))) }
{
    command.arg(Arg::new(alloc, "age").long("age"))
}

/// Returns the program with `--target`.
fn with_target<'a>(alloc: Global, command: Command<'a>) -> Result<Command<'a>, AllocError>
    ensures { IfOk result (λ c. app_of c ≡ with_rule (app_of command.entry) target_option) }
{
    let target = Arg::new(alloc, "target")
        .long("target")
        .action(ArgAction::Append);
    command.arg(target)
}

/// Returns the options of the arguments.
fn options_of(alloc: Global, given: &ArgMatches<'_>) -> Result<Options, OptionsFault>
    // The options that they make; Usage only if they make none.
    ensures { MatchResult result (AreGivenOptions (rows_of (found_of given.now)))
        (IsOptionsFault (rows_of (found_of given.now))) }
{
    let settings = settings_of(alloc, given)?;
    let caches = caches_of(alloc, given)?;
    Ok(Options { settings, caches })
}

/// Returns the settings of the arguments.
fn settings_of(alloc: Global, given: &ArgMatches<'_>) -> Result<Settings, OptionsFault>
    // The settings that they make; Usage only if they make none.
    ensures { MatchResult result (AreGiven (rows_of (found_of given.now)))
        (IsGivenFault (rows_of (found_of given.now))) }
{
    let quiet = has_flag(given, "quiet");
    match given.get_strs("field") {
        Some(words) => {
            let fields = custom_fields(alloc, words)?;
            return Ok(Settings {
                fields,
                quiet,
                colour: false,
            });
        }
        None => {
            return Ok(Settings {
                fields: Vec::new(alloc),
                quiet,
                colour: false,
            });
        }
    }
}

/// Returns whether the flag of this name is given.
fn has_flag(given: &ArgMatches<'_>, name: &str) -> bool
    ensures { result ≡ is_true (first_of name.now (rows_of (found_of given.now))) }
{
    match given.get_str(name) {
        Some(word) => word == "true",
        None => false,
    }
}

/// Returns the caches of the arguments, if they ask for decisions.
fn caches_of(alloc: Global, given: &ArgMatches<'_>) -> Result<Option<CacheSettings>, OptionsFault>
    // The caches that they name; Usage only if they name none, but should.
    ensures { MatchResult result (AreGivenCaches (rows_of (found_of given.now)))
        (IsCachesFault (rows_of (found_of given.now))) }
{
    let age = given_age(given)?;
    let words = given.get_strs("target");
    if !has_flag(given, "decide") {
        return no_caches(age, words);
    }
    let targets = targets_of(alloc, words)?;
    Ok(Some(CacheSettings { targets, age }))
}

/// Returns no caches; Usage for an age or targets, which only decisions have.
fn no_caches(
    age: Option<u64>,
    words: Option<&[&str]>,
) -> Result<Option<CacheSettings>, OptionsFault>
    ensures { MatchResult result
        (λ caches. (caches ≡ None) × (age ≡ None) × (target_words words.entry ≡ None))
        (λ fault. (fault ≡ fault_is.Usage)
        × ¬ ((age ≡ None) × (target_words words.entry ≡ None))) }
{
    match age {
        Some(_) => return Err(OptionsFault::Usage),
        None => match words {
            Some(_) => return Err(OptionsFault::Usage),
            None => return Ok(None),
        },
    }
}

/// Returns the age that was given, in seconds; None if none was given.
fn given_age(given: &ArgMatches<'_>) -> Result<Option<u64>, OptionsFault>
    // The age that is named; Usage if what is named is no number of seconds.
    ensures { MatchResult result (IsGivenAge (first_of (codes "age") (rows_of (found_of given.now))))
        (λ fault. (fault ≡ fault_is.Usage) × ((age : Option ℕ)
        → ¬ (IsGivenAge (first_of (codes "age") (rows_of (found_of given.now))) age))) }
{
    match age_of(given) {
        Ok(age) => Ok(age),
        Err(_) => Err(OptionsFault::Usage),
    }
}

/// Returns the field of a word `NAME:KIND`.
fn custom_field(alloc: Global, word: &[u8]) -> Result<CustomField, OptionsFault>
    // The field that the word names; Usage only if it names none.
    ensures { MatchResult result (λ field. custom_of word.now ≡ Some field)
        (λ fault. (fault ≡ fault_is.Usage × custom_of word.now ≡ None)
        ⊎ (fault ≡ fault_is.OutOfMemory)) }
{
    let Some((name, rest)) = split_at_first(word, b':') else {
        return Err(OptionsFault::Usage);
    };
    let Some(kind) = kind_named(rest) else {
        return Err(OptionsFault::Usage);
    };
    match header_name(alloc, name) {
        Some(Ok(name)) => Ok(CustomField { name, kind }),
        Some(Err(_)) => Err(OptionsFault::OutOfMemory),
        None => Err(OptionsFault::Usage),
    }
}

/// Returns the fields of these words.
fn custom_fields(alloc: Global, words: &[&str]) -> Result<Vec<CustomField>, OptionsFault>
    // The fields that the words name; Usage only if one of them names none.
    ensures { MatchResult result (λ fields. AreFields (map (λ w. w.now) words.now) fields.items)
        (IsFieldsFault (map (λ w. w.now) words.now)) }
{
    let mut fields = Vec::new(alloc);
    for word in words {
        let field = custom_field(alloc, word.as_bytes())?;
        let Ok(()) = fields.push(field) else {
            return Err(OptionsFault::OutOfMemory);
        };
    }
    Ok(fields)
}

/// Returns the target list of these words; that of `CDN-Cache-Control` if there are none.
fn targets_of(alloc: Global, words: Option<&[&str]>) -> Result<Vec<HeaderName>, OptionsFault>
    // The targets that the words name; Usage only if they name none.
    ensures { MatchResult result (λ names. AreTargets (target_words words.entry) names.items)
        (IsTargetsFault (target_words words.entry)) }
{
    let Some(words) = words else {
        let mut targets = Vec::new(alloc);
        return match targets.push(CDN_CACHE_CONTROL) {
            Ok(()) => Ok(targets),
            Err(_) => Err(OptionsFault::OutOfMemory),
        };
    };
    match names_in(alloc, words) {
        Ok(names) => Ok(names),
        Err(RequestFault::Usage) => Err(OptionsFault::Usage),
        Err(RequestFault::OutOfMemory) => Err(OptionsFault::OutOfMemory),
    }
}
