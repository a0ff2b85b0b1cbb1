//! The manual page.
use crate::completion::push_all;
use crate::texts::{ABOUT, ArgumentText, CommandText, DATE, Form, NOTES, PROGRAM, VERSION};
use std::alloc::{AllocError, Global};

// The exit statuses.
const STATUSES: [(&str, &str); 3] = [
    ("0", "Success."),
    (
        "1",
        "\
An error, or memory ran out. Also if
.B verify
finds a fault, and if
.B get
finds no version of the key.",
    ),
    (
        "2",
        "\
The command line is wrong. A script ends with this status at a line that is
malformed or out of order, and if its input or output fails.",
    ),
];

// Notes on standard output and on the files that are left.
const OUTPUT: &str = "\
Results go to standard output, and errors to standard error. If the reader of
a pipe ends early, as head does, the command or the script ends early too. It
ends without a message, and with status 0 or that of what it found so far. The
commands write and compact print their line last. If that fails, the new files
are there.

With --json, write reads an object from each line. The commands dump and get
print an object for each entry, and stat prints one for each table. With
--loads too, get prints a further object for each file. In place of their
lines, verify prints an object for each, and write, compact and pack print one
object.";

const LEFT: &str = "\
After an error, write and compact remove what has a temporary name, as far as
the system lets them. A process that is killed leaves it: a file FILE.1.tmp of
write, or the folder FOLDER.1.tmp of compact. The next run with the same name
takes the next number, up to 1000. Once its files are in place, it removes the
regular files FILE.1.tmp and so on, up to its own number. From FOLDER.1.tmp it
removes the numbered tables, and then the folder if it is empty. An error of
this is ignored. Give no file of your own such a name. If two runs write the
same name at once, one may remove the temporary file of the other, which then
fails.

Whenever write is stopped, each FILE is as it was or complete. After compact is
stopped, FOLDER does not exist or has all its tables.";

const CODE: &str = ".RS 4\n.nf\n";

const CODE_END: &str = ".fi\n.RE\n";

// Examples, as in docs/SST.md.
const EXAMPLES: &str = "\
Write two tables, the second with later versions of some keys:

    sst write bookworm.sst --level 1 < bookworm.txt
    sst write updates.sst < updates.txt

Read a key in both, and then as a snapshot at 2 sees it:

    sst get updates.sst bookworm.sst perl
    sst get updates.sst bookworm.sst perl --at 2

Merge both into a new folder without tombstones, and check the new table:

    sst compact updates.sst bookworm.sst --to merged --watermark 3 --evict
    sst verify merged/000001.sst";

/// Returns the manual page of these commands, in the language of `man`.
///
/// # Errors
///
/// Fails only if memory runs out.
pub(crate) fn manual(alloc: Global, commands: &[CommandText]) -> Result<String, AllocError> {
    let mut page = String::new(alloc);
    push_page(&mut page, commands)?;
    Ok(page)
}

// Appends the whole page.
fn push_page(page: &mut String, commands: &[CommandText]) -> Result<(), AllocError> {
    push_head(page)?;
    for command in commands {
        push_between(page, ".br\n.B ", command.usage, "\n")?;
    }
    push_section(page, "DESCRIPTION", NOTES)?;
    page.push_str(".SH COMMANDS\n")?;
    for command in commands {
        push_command(page, command)?;
    }
    push_section(page, "OUTPUT", OUTPUT)?;
    push_statuses(page)?;
    push_section(page, "FILES", LEFT)?;
    push_section(page, "EXAMPLES", EXAMPLES)?;
    page.push_str(".SH SEE ALSO\n.BR sst.h (3)\n")
}

// Appends the title, the name and the first line of the synopsis.
fn push_head(page: &mut String) -> Result<(), AllocError> {
    push_all(page, &[".TH SST 1 ", DATE, " \"", PROGRAM, " ", VERSION])?;
    push_all(
        page,
        &["\" \"User Commands\"\n.SH NAME\n", PROGRAM, " \\- "],
    )?;
    push_between(page, "", ABOUT, "\n.SH SYNOPSIS\n.B sst\n")
}

// Appends a section.
fn push_section(page: &mut String, title: &str, lines: &str) -> Result<(), AllocError> {
    push_all(page, &[".SH ", title, "\n"])?;
    push_lines(page, lines)
}

// Appends the exit statuses.
fn push_statuses(page: &mut String) -> Result<(), AllocError> {
    page.push_str(".SH EXIT STATUS\n")?;
    let statuses = STATUSES;
    for (status, meaning) in statuses.as_slice() {
        push_all(page, &[".TP\n.B ", status, "\n", meaning, "\n"])?;
    }
    Ok(())
}

// Appends the section of a command.
fn push_command(page: &mut String, command: &CommandText) -> Result<(), AllocError> {
    push_between(page, ".SS ", command.usage, "\n")?;
    push_between(page, "", command.about, ".\n")?;
    push_lines(page, command.notes)?;
    for argument in command.arguments {
        push_argument(page, argument)?;
    }
    Ok(())
}

// Appends an argument, its values and its default.
fn push_argument(page: &mut String, argument: &ArgumentText) -> Result<(), AllocError> {
    page.push_str(".TP\n")?;
    let mut before = "\\fI";
    if argument.is_named() {
        push_between(page, "\\fB\\-\\-", argument.name, "\\fR")?;
        before = " \\fI";
    }
    for value in argument.values {
        push_all(page, &[before, value, "\\fR"])?;
        before = " \\fI";
    }
    page.push_str(match argument.form {
        Form::Files => " ...",
        _ => "",
    })?;
    push_between(page, "\n", argument.help, "")?;
    push_standard(page, argument.standard)?;
    page.push_str(".\n")
}

// Appends the default of an argument, if it has one.
fn push_standard(page: &mut String, standard: &[&str]) -> Result<(), AllocError> {
    for text in standard {
        push_all(page, &[" [default: ", text, "]"])?;
    }
    Ok(())
}

// Appends lines. An empty one ends a paragraph. Those that begin with four spaces are indented and
// not filled.
fn push_lines(page: &mut String, lines: &str) -> Result<(), AllocError> {
    let mut is_code = false;
    for line in lines.lines() {
        let code = line.strip_prefix("    ");
        if code.is_some() != is_code {
            is_code = !is_code;
            page.push_str(if is_code { CODE } else { CODE_END })?;
        }
        match code {
            Some(code) => push_between(page, "", code, "\n")?,
            None if line.is_empty() => page.push_str(".PP\n")?,
            None => push_between(page, "", line, "\n")?,
        }
    }
    page.push_str(if is_code { CODE_END } else { "" })
}

// Appends an escaped text between two texts in the language of `man`.
fn push_between(
    page: &mut String,
    before: &str,
    text: &str,
    after: &str,
) -> Result<(), AllocError> {
    page.push_str(before)?;
    push_text(page, text)?;
    page.push_str(after)
}

// Appends a text, with the characters escaped that `man` would interpret.
fn push_text(page: &mut String, text: &str) -> Result<(), AllocError> {
    for character in text.chars() {
        match character {
            '\\' => page.push_str("\\e")?,
            '-' => page.push_str("\\-")?,
            '\'' => page.push_str("\\(aq")?,
            other => page.push(other)?,
        }
    }
    Ok(())
}
