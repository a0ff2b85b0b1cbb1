//! The parser of the command line, made from the texts.
ghost use Rattle.std.specs.Prelude.{◌≡◌, IfOk, false};
ghost use Rattle.tool_options.specs.Words as spec;

use crate::texts::{ABOUT, ArgumentText, CommandText, Form, NOTES, PROGRAM, Takes, VERSION};
use clap::builder::ValueParser;
use clap::{Arg, ArgAction, Command};
use std::alloc::{AllocError, Global};

/// Returns the parser of the program with these commands.
///
/// # Errors
///
/// Fails only if memory runs out.
pub(crate) fn program<'a>(
    alloc: Global,
    commands: &'static [CommandText],
) -> Result<Command<'a>, AllocError>
    ensures app { IfOk result (λ c. spec.app_of c ≡ spec.program_of commands.now) }
    ensures local { IfOk result (λ c. (spec.out-Command c).has_globals ≡ false) }
{
    let mut program = bare(alloc);
    for text in commands {
        program = program.subcommand(command(alloc, text)?)?;
    }
    Ok(program)
}

// Returns the parser of the program without its commands.
fn bare<'a>(alloc: Global) -> Command<'a>
    ensures app { spec.app_of result ≡ spec.bare_program }
    ensures local { (spec.out-Command result).has_globals ≡ false }
{
    Command::new(alloc, PROGRAM)
        .about(ABOUT)
        .version(VERSION)
        .after_help(NOTES)
        .subcommand_required(true)
        .arg_required_else_help(true)
}

// Returns the parser of a command with its arguments.
fn command<'a>(alloc: Global, text: &'static CommandText) -> Result<Command<'a>, AllocError>
    ensures app { IfOk result (λ c. spec.app_of c ≡ spec.command_app text.now) }
    ensures local { IfOk result (λ c. (spec.out-Command c).has_globals ≡ false) }
{
    let mut command = named(alloc, text);
    for taken in text.arguments {
        command = command.arg(argument(alloc, taken))?;
    }
    Ok(command)
}

// Returns the parser of a command without its arguments.
fn named<'a>(alloc: Global, text: &CommandText) -> Command<'a>
    ensures app { spec.app_of result ≡ spec.new_app text.now.name.now }
    ensures local { (spec.out-Command result).has_globals ≡ false }
{
    Command::new(alloc, text.name)
        .about(text.about)
        .override_usage(text.usage)
        .after_help(text.notes)
}

// Returns the parser of an argument.
fn argument<'a>(alloc: Global, text: &'static ArgumentText) -> Arg<'a>
    ensures rule { spec.rule_of result ≡ spec.argument_rule text.now }
    ensures local { result.global ≡ false }
{
    let argument = unformed(alloc, text);
    match text.form {
        Form::Flag => argument.long(text.name).action(ArgAction::SetTrue),
        Form::Option(_) => argument.long(text.name),
        Form::Place(_) => argument,
        Form::Files => argument.num_args(1..),
    }
}

// Returns the parser of an argument without its form.
fn unformed<'a>(alloc: Global, text: &'static ArgumentText) -> Arg<'a>
    ensures rule { spec.rule_of result ≡ spec.unformed text.now }
    ensures local { result.global ≡ false }
{
    Arg::new(alloc, text.name)
        .help(text.help)
        .required(text.required)
        .default_values(text.standard)
        .value_names(text.values)
        .value_parser(value_parser(text.form))
        .hide_possible_values(true)
}

// Returns the parser of an argument's values.
fn value_parser<'a>(form: Form) -> ValueParser<'a>
    ensures { result ≡ spec.parser_of form }
{
    match form {
        Form::Flag => ValueParser::Bool,
        Form::Option(takes) | Form::Place(takes) => value_of(takes),
        Form::Files => ValueParser::String,
    }
}

// Returns the parser of a value.
fn value_of<'a>(takes: Takes) -> ValueParser<'a>
    ensures { result ≡ spec.value_of takes }
{
    match takes {
        Takes::Text | Takes::File => ValueParser::String,
        Takes::Number(least, most) => ValueParser::Unsigned(least, most),
        Takes::Names(names) => ValueParser::Names(names),
    }
}
