//! Runs a command line.
ghost use Rattle.std.specs.Prelude.{◌≡◌, ◌≤◌, IfErr, IfOk, MatchResult, map};
ghost use Rattle.sst.specs.Words as spec;

use crate::{System, make, show};
use sst_tool::files::{Place, ToolError};
use sst_tool::lines::LineError;
use std::convert::AsStr;
use std::fs::File;
use std::io;
use std::io::{ErrorKind, Read, Write};
use std::rt::{Clock, Files};
use tool_options::{Parsed, Task, parse};

// The status of a yes or no: 0 for yes.
fn status_of(yes: bool) -> u8
    ensures { result ≡ spec.status_of_answer yes }
{
    if yes { 0 } else { 1 }
}

/// Returns whether the error says that the reader of the output closed its pipe.
pub(crate) fn is_closed(error: &io::Error) -> bool
    ensures { result ≡ spec.is_closed (spec.error_kind error.now) }
{
    matches!(error.kind(), ErrorKind::BrokenPipe)
}

// The status of an error: 2 if the command line is wrong, 0 if the reader of the output closed its
// pipe, else 1.
fn status_of_failure(failure: &ToolError<'_>) -> u8
    ensures { result ≡ spec.status_of_failure failure.now }
{
    match failure {
        ToolError::Key(_, LineError::OutOfMemory) => 1,
        ToolError::Key(_, _) => 2,
        ToolError::Output(error) if is_closed(error) => 0,
        _ => 1,
    }
}

/// Runs the command of these words, the first of which is the program's name.
///
/// Returns the exit status: 0; 1 after an error, for a faulty file, and if a key was not found; 2
/// if the words are wrong. Results go to `output`. Error messages go to `errors`, and so does a
/// progress bar if `shows_bar`. If the reader of the output closes its pipe, the command ends
/// without a message, and with status 0 or that of what it found so far.
pub fn run<S: AsStr, R: Files<File = File>, C: Clock, I: Read + Drop, W: Write, E: Write>(
    system: System<'_, R, C>,
    words: &[S],
    input: I,
    output: &mut W,
    errors: &mut E,
    shows_bar: bool,
) -> u8
    ensures small { result ≤ 2 }
    ensures runs { spec.Runs (map S.text words.now) (I.remaining input) result }
{
    match parse(system.alloc, words) {
        Ok(Parsed::Task(task)) => {
            let mut place = system.disk();
            let done = execute(system, &mut place, &task, input, output, errors, shows_bar);
            report(done, errors)
        }
        Ok(Parsed::Shown(text)) => print(output, errors, text.as_str()),
        Ok(Parsed::Mistaken(text)) => {
            // If even this cannot be printed, only the status is left.
            let _ = errors.write_all(text.as_str().as_bytes());
            2
        }
        Err(error) => report(Err(ToolError::from(error)), errors),
    }
}

// Prints a whole text, and returns its status.
fn print<W: Write, E: Write>(output: &mut W, errors: &mut E, text: &str) -> u8
    ensures { result ≤ 1 }
{
    match print_whole(output, text) {
        Ok(()) => 0,
        Err(error) => report(Err(ToolError::Output(error)), errors),
    }
}

fn print_whole<W: Write>(output: &mut W, text: &str) -> io::Result<()> {
    output.write_all(text.as_bytes())?;
    output.flush()
}

// Returns the status of a command, and prints its error unless that is a closed pipe.
fn report<E: Write>(done: Result<u8, ToolError<'_>>, errors: &mut E) -> u8
    ensures { MatchResult done.entry (λ status. result ≡ status)
        (λ failure. result ≡ spec.status_of_failure failure) }
{
    match done {
        Ok(status) => status,
        Err(failure) => {
            let status = status_of_failure(&failure);
            if status != 0 {
                // If even this cannot be printed, only the status is left.
                let _ = writeln!(errors, "sst: {failure}");
            }
            status
        }
    }
}

// Runs a task and flushes its output.
fn execute<'a, R: Files, C: Clock, P: Place, I: Read + Drop, W: Write, E: Write>(
    system: System<'_, R, C>,
    place: &mut P,
    task: &Task<'a>,
    input: I,
    output: &mut W,
    errors: &mut E,
    shows_bar: bool,
) -> Result<u8, ToolError<'a>>
    ensures small { IfOk result (λ status. status ≤ 1) }
    ensures does { IfOk result (λ status. spec.DoesTask P.File.reads task.now (I.remaining input)
        (P.content place.old) (P.there place.old) (P.done place.old) (P.done place.new) status) }
    ensures refused { IfErr result (λ e. spec.RefusesTask task.now (I.remaining input)
        (P.content place.old) (P.there place.old) (P.done place.old) e (P.done place.new)) }
{
    let done = perform(system, place, task, input, output, errors, shows_bar);
    let flushed = output.flush();
    let status = done?;
    status_flushed(status, flushed)
}

// Returns the status of a task whose output was flushed. It stays if the reader of the output
// closed its pipe.
fn status_flushed(status: u8, flushed: io::Result<()>) -> Result<u8, ToolError<'static>>
    ensures ok { IfOk result (λ s. s ≡ status) }
    ensures err { IfErr result (λ e. (error : spec.IoError) × (e ≡ spec.Output error)) }
{
    match flushed {
        Ok(()) => Ok(status),
        Err(error) => {
            if is_closed(&error) {
                Ok(status)
            } else {
                Err(ToolError::Output(error))
            }
        }
    }
}

// Runs a task.
fn perform<'a, R: Files, C: Clock, P: Place, I: Read + Drop, W: Write, E: Write>(
    system: System<'_, R, C>,
    place: &mut P,
    task: &Task<'a>,
    input: I,
    output: &mut W,
    errors: &mut E,
    shows_bar: bool,
) -> Result<u8, ToolError<'a>>
    ensures small { IfOk result (λ status. status ≤ 1) }
    ensures does { IfOk result (λ status. spec.DoesTask P.File.reads task.now (I.remaining input)
        (P.content place.old) (P.there place.old) (P.done place.old) (P.done place.new) status) }
    ensures refused { IfErr result (λ e. spec.RefusesTask task.now (I.remaining input)
        (P.content place.old) (P.there place.old) (P.done place.old) e (P.done place.new)) }
{
    match task {
        Task::Write(task) => make::write(system, place, task, input, output).and(Ok(0)),
        Task::Dump(task) => show::dump(system.alloc, place, task, output).and(Ok(0)),
        Task::Get(task) => show::get(system.alloc, place, task, output).map(status_of),
        Task::Stat(task) => show::stat(system.alloc, place, task, output).and(Ok(0)),
        Task::Verify(task) => {
            show::verify(system, place, task, output, errors, shows_bar).map(status_of)
        }
        Task::Compact(task) => make::compact(system, place, task, output).and(Ok(0)),
        Task::Pack(task) => make::pack(system.alloc, place, task, output).and(Ok(0)),
    }
}
