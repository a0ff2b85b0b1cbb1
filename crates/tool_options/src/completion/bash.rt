//! The completion script for bash.
use super::{push_all, push_commands, push_joined};
use crate::texts::{CommandText, Form, Takes};
use std::alloc::AllocError;

const HEAD: &str = "\
# Completes the commands of sst in bash: source <(sst completion bash)
_sst() {
    local word=${COMP_WORDS[COMP_CWORD]} before=${COMP_WORDS[COMP_CWORD-1]} words=
    COMPREPLY=()
    if ((COMP_CWORD == 1)); then
        words=\"";

const VALUES: &str = "help --help --version\"
        COMPREPLY=($(compgen -W \"$words\" -- \"$word\"))
        return
    fi
    case \"${COMP_WORDS[1]} $before\" in
    'help help') words='";

const NO_FILES: &str = "') compopt +o default; return ;;\n";

const OPTIONS: &str = "    esac
    if [[ -z $words && $word == -* ]]; then
        case ${COMP_WORDS[1]} in
";

const TAIL: &str = "        esac
    fi
    COMPREPLY=($(compgen -W \"$words\" -- \"$word\"))
}
complete -o bashdefault -o default -F _sst sst
";

/// Appends the whole script.
pub(super) fn push_script(text: &mut String, commands: &[CommandText]) -> Result<(), AllocError> {
    text.push_str(HEAD)?;
    push_commands(text, commands)?;
    text.push_str(VALUES)?;
    push_commands(text, commands)?;
    text.push_str("' ;;\n")?;
    for command in commands {
        push_values(text, command)?;
    }
    text.push_str(OPTIONS)?;
    for command in commands {
        push_options(text, command)?;
    }
    text.push_str(TAIL)
}

// Appends the values of a command and of its options.
fn push_values(text: &mut String, command: &CommandText) -> Result<(), AllocError> {
    for argument in command.arguments {
        match argument.form {
            Form::Option(takes) => push_value(text, command.name, "--", argument.name, takes)?,
            Form::Place(takes) => push_value(text, command.name, "", command.name, takes)?,
            Form::Flag | Form::Files => (),
        }
    }
    Ok(())
}

// Appends the values after a word: some names, any text, or file names.
fn push_value(
    text: &mut String,
    command: &str,
    dashes: &str,
    word: &str,
    takes: Takes,
) -> Result<(), AllocError> {
    match takes {
        Takes::Names(names) => {
            push_all(text, &["    '", command, " ", dashes, word, "') words='"])?;
            push_joined(text, names, " ")?;
            text.push_str("' ;;\n")
        }
        Takes::Text | Takes::Number(_, _) => {
            push_all(text, &["    '", command, " ", dashes, word, NO_FILES])
        }
        Takes::File => Ok(()),
    }
}

// Appends the options of a command.
fn push_options(text: &mut String, command: &CommandText) -> Result<(), AllocError> {
    push_all(text, &["        ", command.name, ") words='"])?;
    for argument in command.arguments {
        if argument.is_named() {
            push_all(text, &["--", argument.name, " "])?;
        }
    }
    text.push_str("--help' ;;\n")
}
