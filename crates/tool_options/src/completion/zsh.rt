//! The completion script for zsh.
use super::{push_all, push_joined};
use crate::texts::{ArgumentText, CommandText, Form, Takes};
use std::alloc::AllocError;

const HEAD: &str = "\
#compdef sst
# Completes the commands of sst in zsh. It is the file _sst in a folder of $fpath.

_sst_commands() {
    local -a commands=(
";

const ARGUMENTS: &str = "        'help:Prints the help of a command'
    )
    _describe command commands
}

_sst() {
    local curcontext=$curcontext state line
    typeset -A opt_args
    _arguments -C -S \\
        '(- *)--help[Print help]' \\
        '(- *)--version[Print the version]' \\
        ': :_sst_commands' \\
        '*:: :->arguments' && return
    [[ $state == arguments ]] || return
    case $line[1] in
";

const TAIL: &str = "    help)
        _arguments ': :_sst_commands'
        ;;
    esac
}

if [[ $funcstack[1] == _sst ]]; then
    _sst \"$@\"
else
    compdef _sst sst
fi
";

/// Appends the whole script.
pub(super) fn push_script(text: &mut String, commands: &[CommandText]) -> Result<(), AllocError> {
    text.push_str(HEAD)?;
    for command in commands {
        push_all(text, &["        '", command.name, ":"])?;
        push_escaped(text, command.about)?;
        text.push_str("'\n")?;
    }
    text.push_str(ARGUMENTS)?;
    for command in commands {
        push_command(text, command)?;
    }
    text.push_str(TAIL)
}

// Appends the arguments of a command.
fn push_command(text: &mut String, command: &CommandText) -> Result<(), AllocError> {
    push_all(
        text,
        &["    ", command.name, ")\n        _arguments -S \\\n"],
    )?;
    for argument in command.arguments {
        push_argument(text, argument)?;
    }
    text.push_str("            '(- *)--help[Print help]'\n        ;;\n")
}

// Appends an argument: how it is given, its help, and its values.
fn push_argument(text: &mut String, argument: &ArgumentText) -> Result<(), AllocError> {
    text.push_str("            '")?;
    match argument.form {
        Form::Flag => push_named(text, argument, "")?,
        Form::Option(takes) => {
            push_named(text, argument, "=")?;
            push_values(text, argument.values, takes)?;
        }
        Form::Place(takes) => push_values(text, argument.values, takes)?,
        Form::Files => {
            text.push_str("*")?;
            push_values(text, argument.values, Takes::File)?;
        }
    }
    text.push_str("' \\\n")
}

// Appends the name of an option and its help.
fn push_named(text: &mut String, argument: &ArgumentText, mark: &str) -> Result<(), AllocError> {
    push_all(text, &["--", argument.name])?;
    text.push_str(mark)?;
    text.push_str("[")?;
    push_escaped(text, argument.help)?;
    text.push_str("]")
}

// Appends the values that are completed, under their name.
fn push_values(text: &mut String, names: &[&str], takes: Takes) -> Result<(), AllocError> {
    text.push_str(":")?;
    push_joined(text, names, " ")?;
    text.push_str(":")?;
    match takes {
        Takes::Names(values) => {
            text.push_str("(")?;
            push_joined(text, values, " ")?;
            text.push_str(")")
        }
        Takes::Text | Takes::Number(_, _) => text.push_str(" "),
        Takes::File => text.push_str("_files"),
    }
}

// Appends a text between single quotes, without what would end it or its part of the line.
fn push_escaped(text: &mut String, part: &str) -> Result<(), AllocError> {
    for character in part.chars() {
        match character {
            '\'' => text.push_str("'\\''")?,
            ':' => text.push_str("\\:")?,
            '[' => text.push_str("\\[")?,
            ']' => text.push_str("\\]")?,
            '\\' => text.push_str("\\\\")?,
            other => text.push(other)?,
        }
    }
    Ok(())
}
