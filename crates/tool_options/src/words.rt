//! Parses the command line.
ghost use Rattle.std.specs.Prelude.{◌≡◌, IfOk, List, Option, Some, map, true};
ghost use Rattle.tool_options.specs.Words as spec;

use crate::command::program;
use crate::completion::completion;
use crate::manual::manual;
use crate::read::{Misread, read_task};
use crate::tasks::Task;
use crate::texts::{COMMANDS, CommandText};
use clap::error::ErrorKind;
use clap::{ArgMatches, Error};
use std::alloc::{AllocError, Global};
use std::convert::AsStr;

/// The result of parsing the command line.
#[derive(Debug, Drop)]
pub enum Parsed<'a> {
    /// A task to run.
    Task(Task<'a>),
    /// A text for standard output: help, the version, a completion or the manual.
    Shown(String),
    /// A text for standard error, which says what is wrong with the words.
    Mistaken(String),
}

/// Parses the words of the command line, the first of which is the program's name.
///
/// A task has what the words say for its arguments, or their defaults. Words that ask for help, the
/// version, a completion or the manual return a text. Other words that the parser rejects are a
/// mistake, and so is a command whose arguments are no task. All other words return their task.
///
/// # Errors
///
/// Fails only if memory runs out.
pub fn parse<'a, S: AsStr>(alloc: Global, words: &'a [S]) -> Result<Parsed<'a>, AllocError>
    ensures { IfOk result (spec.AsksFrom (map S.text words.now)) }
{
    parse_by(alloc, COMMANDS.as_slice(), words)
}

// Parses words with the parser of some commands.
fn parse_by<'a, S: AsStr>(
    alloc: Global,
    commands: &'static [CommandText],
    words: &'a [S],
) -> Result<Parsed<'a>, AllocError>
    ensures { spec.is_simple (spec.program_of commands.now) ≡ true → IfOk result (spec.AsksBy
        (spec.subcommand_of (spec.program_of commands.now) (map S.text words.now))) }
{
    match program(alloc, commands)?.try_get_matches_from(words) {
        Ok(matches) => answer(alloc, commands, &matches),
        Err(error) => explain(alloc, &error),
    }
}

// Returns the result of the program's matches.
fn answer<'a>(
    alloc: Global,
    commands: &[CommandText],
    matches: &ArgMatches<'a>,
) -> Result<Parsed<'a>, AllocError>
    ensures { IfOk result (spec.AsksBy (spec.subcommand_rows_of matches.now)) }
{
    match matches.subcommand() {
        Some((name, matches)) => answer_to(alloc, commands, name, matches),
        None => mistake(alloc, "help", Misread::Absent),
    }
}

// Returns the result of the command `name` with these matches.
fn answer_to<'a>(
    alloc: Global,
    commands: &[CommandText],
    name: &str,
    matches: &ArgMatches<'a>,
) -> Result<Parsed<'a>, AllocError>
    ensures { IfOk result
        (spec.AsksBy (Some (name.now, spec.rows_of (spec.found_of matches.now)))) }
{
    match name {
        "completion" => complete(alloc, commands, matches),
        "man" => Ok(Parsed::Shown(manual(alloc, commands)?)),
        _ => match read_task(alloc, name, matches) {
            Ok(task) => Ok(Parsed::Task(task)),
            Err(misread) => mistake(alloc, name, misread),
        },
    }
}

// Returns the completion script for the shell of these matches.
fn complete<'a>(
    alloc: Global,
    commands: &[CommandText],
    matches: &ArgMatches<'a>,
) -> Result<Parsed<'a>, AllocError>
    ensures { (found : Option (spec.Text × List spec.Row)) → IfOk result (spec.AsksBy found) }
{
    let shell = matches.get_str("shell").unwrap_or("");
    match completion(alloc, shell, commands)? {
        Some(script) => Ok(Parsed::Shown(script)),
        None => mistake(alloc, "completion", Misread::Absent),
    }
}

// Returns the parser's text: help, the version or its error.
fn explain<'a>(alloc: Global, error: &Error) -> Result<Parsed<'a>, AllocError>
    ensures { (found : Option (spec.Text × List spec.Row)) → IfOk result (spec.AsksBy found) }
{
    if error.kind() == ErrorKind::OutOfMemory {
        return Err(AllocError);
    }
    let text = format!(in alloc; "{error}")?;
    if error.use_stderr() {
        Ok(Parsed::Mistaken(text))
    } else {
        Ok(Parsed::Shown(text))
    }
}

const KEY_MISSING: &str = "\
the following required arguments were not provided:
  <KEY>

Usage: sst get [OPTIONS] <FILE>... <KEY>";

const MERGED_MISSING: &str = "\
the following required arguments were not provided:
  --merged

Usage: sst dump --merged --at <N> <FILE>...";

// Returns the error of the command `name` in the parser's form.
fn mistake<'a>(alloc: Global, name: &str, misread: Misread) -> Result<Parsed<'a>, AllocError>
    ensures { (found : Option (spec.Text × List spec.Row)) → IfOk result (spec.AsksBy found) }
{
    let expected = match misread {
        Misread::OutOfMemory => return Err(AllocError),
        Misread::Filter => "invalid value for '--filter <BITS>': expected 1 to 100, or none",
        Misread::Key => KEY_MISSING,
        Misread::At => MERGED_MISSING,
        Misread::Absent => "a required argument was not provided",
    };
    let text = format!(in alloc;
        "error: {expected}\n\nFor more information, try 'sst {name} --help'.\n"
    )?;
    Ok(Parsed::Mistaken(text))
}
