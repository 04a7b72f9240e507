//! What the program's arguments ask for.
//! A contract sees the words as their bytes, the program as clap reads it, and what it finds in the words.
ghost use Rattle.std.specs.Prelude.{
  ◌≡◌,
  IfOk,
  MatchOption,
  map,
  option_map,
  string_bytes,
  slice_get,
};
ghost use Rattle.ele_invocation.specs.Built.{HasApp, HasRule, HasShape};
ghost use Rattle.ele_invocation.specs.Invocation.{
  IsAsked,
  IsCommand,
  IsRead,
  IsRefusal,
  IsShown,
  command_in,
  faults_in,
};
ghost use Rattle.ele_invocation.specs.Program.{
  all_commands,
  commands_for,
  default_rule,
  flag_rule,
  option_rule,
  program_app,
  program_shape,
};
ghost use Rattle.clap.specs.Words.{found_of, kind_of, new_app, rows_of, subcommand_rows_of};

use crate::evidence::{EVIDENCE, EVIDENCE_MORE, VERIFY, VERIFY_MORE};
use crate::forecast::{asked_forecast, forecast};
use crate::run::{asked_run, run};
use crate::storm::{asked_storm, storm};
use crate::topics::{asked_topic, topic_of};
use clap::error::ErrorKind;
use clap::{Arg, ArgAction, ArgMatches, Command, Error};
use ele_model::Limits;
use ele_moment::Moment;
use ele_outlook::ForecastOptions;
use ele_run_options::RunOptions;
use ele_storm_plan::StormPlan;
use std::alloc::{AllocError, Global};
use std::{io, mem};

/// What the arguments ask for.
#[derive(Drop)]
pub enum Invocation {
    /// A run of the script on standard input, with from 1 to 1,000,000,000 events and otherwise
    /// the largest limits.
    Run(Limits, RunOptions),
    /// A storm over a new core with the largest limits, and its audit.
    Storm(StormPlan),
    /// A forecast of the closings on standard input, and the name of the file with the labels that another tool
    /// keeps. These labels aren't in the options yet.
    Forecast(ForecastOptions, Option<String>),
    /// The evidence of the history that the script on standard input makes, under the largest limits.
    Evidence,
    /// Whether the text on standard input is the evidence of such a history.
    Verify,
    /// A text of help, or the version. The program ends with status 0.
    Help(String),
    /// The arguments aren't understood, for the reason in the text. The program ends with status 2.
    NotUnderstood(String),
    /// There was no memory to read the arguments.
    NoMemory,
}

const NO_COMMAND: &str =
    "error: there is no command\n\nFor more information, try 'elephant --help'.\n";

const NO_WORDS: &str = "error: the words can't be read as text\n";

const VERSION: &str = "2.1.0";

const ABOUT: &str = "A file system's core that keeps earlier versions";

const EXAMPLE: &str = "\
A script is lines, and each is answered as it comes. This one saves a file, and
reads it as it was:

    create /notes           ok file 1
    open write /notes       ok handle 1
    write 1 0 706c616e      ok done
    close 1                 ok closed version 2
    read /notes             ok bytes 4 706c616e

'elephant run < FILE' runs the script in FILE, and 'elephant help script' lists
all commands. 'elephant help TOPIC' explains script, policies, refusals, limits,
run, storm, forecast, evidence, verify, or a command, as in
'elephant help create'.";

const SCRIPT: &str = "List the commands of scripts";

const ALL_COMMANDS: &str = "'elephant help script' lists all commands.";

/// Returns an option without a value.
pub(crate) fn flag<'a>(alloc: Global, name: &'a str, help: &'a str) -> Arg<'a>
    ensures { HasRule (flag_rule name.entry.now) result }
{
    Arg::new(alloc, name)
        .long(name)
        .help(help)
        .action(ArgAction::SetTrue)
}

/// Returns an option with a value, which help calls `value`.
pub(crate) fn option<'a>(alloc: Global, name: &'a str, value: &'a str, help: &'a str) -> Arg<'a>
    ensures { HasRule (option_rule name.entry.now) result }
{
    Arg::new(alloc, name)
        .long(name)
        .value_name(value)
        .help(help)
}

/// Returns an option with a number, which is this one by default.
pub(crate) fn number<'a>(alloc: Global, name: &'a str, help: &'a str, default: &'a str) -> Arg<'a>
    ensures { HasRule (default_rule name.entry.now default.entry.now) result }
{
    option(alloc, name, "N", help).default_value(default)
}

/// Returns a command with these texts in its help, and without arguments.
pub(crate) fn command_of<'a>(
    alloc: Global,
    name: &'a str,
    about: &'a str,
    more: &'a str,
) -> Command<'a>
    ensures { HasShape (new_app name.entry.now).top result }
{
    Command::new(alloc, name).about(about).after_help(more)
}

// Returns the program without its commands.
fn program<'a>(alloc: Global) -> Command<'a>
    ensures { HasShape program_shape result }
{
    command_of(alloc, "elephant", ABOUT, EXAMPLE)
        .version(VERSION)
        .subcommand_required(true)
        .arg_required_else_help(true)
}

// Returns the program with each of its commands.
fn whole_program<'a>(alloc: Global) -> Result<Command<'a>, AllocError>
    ensures { IfOk result (HasApp (program_app all_commands)) }
{
    program(alloc)
        .subcommand(run(alloc)?)?
        .subcommand(storm(alloc)?)?
        .subcommand(forecast(alloc)?)?
        .subcommand(command_of(alloc, "evidence", EVIDENCE, EVIDENCE_MORE))?
        .subcommand(command_of(alloc, "verify", VERIFY, VERIFY_MORE))?
        .subcommand(command_of(alloc, "script", SCRIPT, ALL_COMMANDS))
}

// Returns the program as clap needs it to read these arguments. A command that comes first needs no other.
fn command<'a>(alloc: Global, first: &str) -> Result<Command<'a>, AllocError>
    ensures { IfOk result (HasApp (program_app (commands_for first.now))) }
{
    match first {
        "run" => program(alloc).subcommand(run(alloc)?),
        "storm" => program(alloc).subcommand(storm(alloc)?),
        "forecast" => program(alloc).subcommand(forecast(alloc)?),
        _ => whole_program(alloc),
    }
}

/// Returns the word at a position, if there are so many.
pub(crate) fn word(words: &[String], at: usize) -> Option<&str>
    ensures { option_map (λ word. word.now) result
        ≡ slice_get (map string_bytes words.now) at }
{
    match words.get(at) {
        Some(word) => Some(word.as_str()),
        None => None,
    }
}

/// Returns a refusal with this text.
pub(crate) fn not_understood(alloc: Global, text: &str) -> Invocation
    ensures { IsRefusal result }
{
    match String::from_str(alloc, text) {
        Ok(text) => Invocation::NotUnderstood(text),
        Err(_) => Invocation::NoMemory,
    }
}

// Returns what a command asks for by its matches.
fn asked_by(alloc: Global, now: Option<Moment>, name: &str, matches: &ArgMatches) -> Invocation
    ensures { IsCommand now name.now (rows_of (found_of matches.now)) result }
{
    match name {
        "run" => asked_run(alloc, matches),
        "storm" => asked_storm(alloc, matches),
        "forecast" => asked_forecast(alloc, now, matches),
        "evidence" => Invocation::Evidence,
        "verify" => Invocation::Verify,
        "script" => asked_topic(alloc, name, None),
        _ => not_understood(alloc, NO_COMMAND),
    }
}

// Returns what arguments ask for that clap understood.
fn understood(alloc: Global, now: Option<Moment>, matches: &ArgMatches) -> Invocation
    ensures { MatchOption (subcommand_rows_of matches.now) (IsRefusal result)
        (λ command. IsCommand now command.0 command.1 result) }
{
    match matches.subcommand() {
        Some((name, found)) => asked_by(alloc, now, name, found),
        None => not_understood(alloc, NO_COMMAND),
    }
}

// Returns what clap's error asks for: it is a refusal, or a text of help.
fn refused(alloc: Global, error: &Error) -> Invocation
    ensures shown { IsShown (kind_of error.now) result }
    ensures memory { kind_of error.now ≡ ErrorKind.OutOfMemory → result ≡ Invocation.NoMemory }
{
    let Ok(text) = error.to_string(alloc) else {
        return Invocation::NoMemory;
    };
    match error.kind() {
        ErrorKind::OutOfMemory => Invocation::NoMemory,
        ErrorKind::DisplayHelp | ErrorKind::DisplayVersion => Invocation::Help(text),
        _ => Invocation::NotUnderstood(text),
    }
}

// Returns what clap finds in the arguments.
fn read_words(alloc: Global, now: Option<Moment>, words: &[String]) -> Invocation
    ensures { IsRead now (faults_in (map string_bytes words.now))
        (command_in (map string_bytes words.now)) result }
{
    let Ok(command) = command(alloc, word(words, 1).unwrap_or("")) else {
        return Invocation::NoMemory;
    };
    match command.try_get_matches_from(words) {
        Ok(matches) => {
            let invocation = understood(alloc, now, &matches);
            // The words are kept for as long as the program runs.
            mem::forget(matches);
            invocation
        }
        Err(error) => refused(alloc, &error),
    }
}

/// Returns what the program's arguments ask for, where a clock shows `now`, or nothing. The first of them is the program's
/// name. Without a clock no word means a moment from now on.
pub fn words(alloc: Global, now: Option<Moment>, words: &[String]) -> Invocation
    ensures { IsAsked now (map string_bytes words.now) result }
{
    match topic_of(words) {
        Some((first, second)) => asked_topic(alloc, first, second),
        None => read_words(alloc, now, words),
    }
}

/// Returns what is asked for if the system doesn't provide the arguments, for that reason.
pub fn unreadable_args(alloc: Global, why: io::ErrorKind) -> Invocation
    ensures { IsRefusal result }
{
    match why {
        io::ErrorKind::OutOfMemory => Invocation::NoMemory,
        _ => not_understood(alloc, NO_WORDS),
    }
}
