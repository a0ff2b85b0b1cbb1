//! The program `sst`. Without arguments it reads a script from standard input and answers each
//! line. With arguments it is a tool for table files.
#![tactic(auto)]

mod bar;
mod make;
mod piped;
mod running;
mod show;
mod systems;

use piped::Piped;
use running::run;
use sst_script::run_script;
use std::env::{Env, FillError, args};
use std::io;
use std::io::{BufWriter, IsTerminal, Write};
use std::process::ExitCode;
use systems::System;

fn main(rt: HostRuntime) -> ExitCode {
    let status = if has_arguments(&rt) {
        run_words(&rt)
    } else {
        answer_script(&rt)
    };
    ExitCode::from(status)
}

// Whether there is an argument.
fn has_arguments(rt: &HostRuntime) -> bool {
    let mut place = [0; 1];
    !matches!(rt.arg(1, &mut place), Err(FillError::NotPresent))
}

// Printed before a script is read from a terminal.
const AT_TERMINAL: &str = "\
sst: reads a script from standard input, up to its end (Ctrl-D). 'sst --help' lists the commands.
";

// Runs the script on standard input.
fn answer_script(rt: &HostRuntime) -> u8 {
    if rt.stdin().is_terminal() {
        // If even this cannot be printed, the script is read all the same.
        let _ = rt.stderr().write_all(AT_TERMINAL.as_bytes());
    }
    match BufWriter::new(rt.alloc(), rt.stdout()) {
        Ok(output) => answer_lines(rt, Piped::new(output)),
        // The answers need no buffer.
        Err(_) => answer_lines(rt, Piped::new(rt.stdout())),
    }
}

// Memory for the message of a script, taken before it runs.
const MESSAGE_SIZE: usize = 256;

// Runs the script on standard input, and returns its status. If the reader of the output closes its
// pipe, the script ends without a message, and with status 0.
fn answer_lines<W: Write + Drop>(rt: &HostRuntime, mut output: Piped<W>) -> u8 {
    let mut message = Vec::new(rt.alloc());
    // Without memory for it the message may be lost, and the status stays.
    let _ = message.reserve(MESSAGE_SIZE);
    let status = run_script(rt.alloc(), rt.stdin(), &mut output, &mut message);
    if output.is_closed() {
        return 0;
    }
    // If even this cannot be printed, only the status is left.
    let _ = rt.stderr().write_all(&message);
    status
}

// Runs the command of the arguments.
fn run_words(rt: &HostRuntime) -> u8 {
    match words(rt) {
        Ok(words) => {
            let system = System {
                files: rt,
                clock: rt,
                alloc: rt.alloc(),
            };
            let shows_bar = rt.stderr().is_terminal();
            let errors = &mut rt.stderr();
            match BufWriter::new(rt.alloc(), rt.stdout()) {
                Ok(mut output) => run(
                    system,
                    words.as_slice(),
                    rt.stdin(),
                    &mut output,
                    errors,
                    shows_bar,
                ),
                // The output needs no buffer.
                Err(_) => run(
                    system,
                    words.as_slice(),
                    rt.stdin(),
                    &mut rt.stdout(),
                    errors,
                    shows_bar,
                ),
            }
        }
        Err(error) => {
            let (text, status) = if error.kind() == io::ErrorKind::OutOfMemory {
                ("out of memory", 1)
            } else {
                ("an argument is not UTF-8", 2)
            };
            // If even this cannot be printed, only the status is left.
            let _ = writeln!(rt.stderr(), "sst: {text}");
            status
        }
    }
}

// Returns the arguments, the program's name first.
fn words(rt: &HostRuntime) -> io::Result<Vec<String>> {
    Ok(args(rt)?.collect(rt.alloc())?)
}
