//! The completion script for fish.
use super::{push_all, push_commands, push_joined};
use crate::texts::{ArgumentText, CommandText, Form, Takes};
use std::alloc::AllocError;

const HEAD: &str = "\
# Completes the commands of sst in fish: sst completion fish | source

# Whether the command is this one. Without an argument: whether there is no command yet.
function __sst_command
    set -l words (commandline -opc)
    test \"$words[2]\" = \"$argv[1]\"
end

complete -c sst -f
complete -c sst -n __sst_command -l help -d 'Print help'
complete -c sst -n __sst_command -l version -d 'Print the version'
complete -c sst -n __sst_command -a help -d 'Prints the help of a command'
complete -c sst -n '__sst_command help' -a '";

/// Appends the whole script.
pub(super) fn push_script(text: &mut String, commands: &[CommandText]) -> Result<(), AllocError> {
    text.push_str(HEAD)?;
    push_commands(text, commands)?;
    text.push_str("'\n")?;
    for command in commands {
        push_command(text, command)?;
    }
    Ok(())
}

// Appends a command and its arguments.
fn push_command(text: &mut String, command: &CommandText) -> Result<(), AllocError> {
    push_all(
        text,
        &["\ncomplete -c sst -n __sst_command -a ", command.name],
    )?;
    push_help(text, command.about)?;
    for argument in command.arguments {
        push_start(text, command)?;
        push_argument(text, argument)?;
    }
    push_start(text, command)?;
    text.push_str(" -l help -d 'Print help'\n")
}

// Appends the start of a line that is for a command alone.
fn push_start(text: &mut String, command: &CommandText) -> Result<(), AllocError> {
    push_all(
        text,
        &["complete -c sst -n '__sst_command ", command.name, "'"],
    )
}

// Appends an argument: its name and values.
fn push_argument(text: &mut String, argument: &ArgumentText) -> Result<(), AllocError> {
    match argument.form {
        Form::Flag => push_all(text, &[" -l ", argument.name])?,
        Form::Option(takes) => {
            push_all(text, &[" -l ", argument.name, " -r"])?;
            push_values(text, takes)?;
        }
        Form::Place(takes) => push_values(text, takes)?,
        Form::Files => push_values(text, Takes::File)?,
    }
    push_help(text, argument.help)
}

// Appends the values that are completed.
fn push_values(text: &mut String, takes: Takes) -> Result<(), AllocError> {
    match takes {
        Takes::Names(values) => {
            text.push_str(" -f -a '")?;
            push_joined(text, values, " ")?;
            text.push_str("'")
        }
        Takes::Text | Takes::Number(_, _) => text.push_str(" -f"),
        Takes::File => text.push_str(" -F"),
    }
}

// Appends a text as the description, between single quotes.
fn push_help(text: &mut String, help: &str) -> Result<(), AllocError> {
    text.push_str(" -d '")?;
    for character in help.chars() {
        match character {
            '\'' => text.push_str("\\'")?,
            '\\' => text.push_str("\\\\")?,
            other => text.push(other)?,
        }
    }
    text.push_str("'\n")
}
