//! The completion scripts for shells.
mod bash;
mod fish;
mod zsh;

use crate::texts::CommandText;
use std::alloc::{AllocError, Global};

/// Returns the script for a shell that completes these commands, their options and values, or
/// `None` if the shell is unknown.
///
/// # Errors
///
/// Fails only if memory runs out.
pub(crate) fn completion(
    alloc: Global,
    shell: &str,
    commands: &[CommandText],
) -> Result<Option<String>, AllocError> {
    let mut text = String::new(alloc);
    match shell {
        "bash" => bash::push_script(&mut text, commands)?,
        "zsh" => zsh::push_script(&mut text, commands)?,
        "fish" => fish::push_script(&mut text, commands)?,
        _ => return Ok(None),
    }
    Ok(Some(text))
}

/// Appends texts, one after another.
pub(crate) fn push_all(text: &mut String, parts: &[&str]) -> Result<(), AllocError> {
    for part in parts {
        text.push_str(part)?;
    }
    Ok(())
}

// Appends names, with a separator between them.
fn push_joined(text: &mut String, names: &[&str], separator: &str) -> Result<(), AllocError> {
    let mut before = "";
    for name in names {
        push_all(text, &[before, name])?;
        before = separator;
    }
    Ok(())
}

// Appends the names of commands, each followed by a space.
fn push_commands(text: &mut String, commands: &[CommandText]) -> Result<(), AllocError> {
    for command in commands {
        push_all(text, &[command.name, " "])?;
    }
    Ok(())
}
