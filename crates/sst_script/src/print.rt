//! The text of results, and of why a script ends.
ghost use Rattle.std.specs.Prelude.{◌≡◌, [], ◌∷◌, ◌++◌};
ghost use Rattle.sst_script.specs.Words as spec;

use crate::stop::Stop;
use crate::write::write_text;
use itoa::Buffer;
use std::alloc::Allocator;
use std::io::{Result, Write};

/// The result of a command.
#[derive(Drop)]
pub enum Answer<A: Allocator> {
    /// Nothing is printed.
    Silent,
    /// The number of tables written.
    Tables(u64),
    /// The number of runs into which the tables were packed.
    Runs(u64),
    /// The lines of the entries that were read, or the line for none.
    Lines(Vec<u8, A>),
}

/// Prints a result; if writing fails, a prefix of it.
pub fn print_answer<W: Write, A: Allocator>(output: &mut W, answer: &Answer<A>) -> Result<()>
    ensures { spec.ShowsText (W.contents output.old) (W.contents output.new) result
        (spec.answer_lines answer.now) }
{
    match answer {
        Answer::Silent => Ok(()),
        Answer::Tables(count) => print_counted(output, b"tables ", *count),
        Answer::Runs(count) => print_counted(output, b"runs ", *count),
        Answer::Lines(text) => write_text(output, text),
    }
}

// Prints a line of a word and a number.
fn print_counted<W: Write>(output: &mut W, word: &[u8], count: u64) -> Result<()>
    ensures { spec.ShowsText (W.contents output.old) (W.contents output.new) result
        (word.now ++ spec.decimal count ++ 10 ∷ []) }
{
    write_text(output, word)?;
    write_text(output, Buffer::new().format(count).as_bytes())?;
    write_text(output, b"\n")
}

/// Prints the line of an error code; if writing fails, a prefix of it.
pub fn print_refusal<W: Write>(output: &mut W, number: u8) -> Result<()>
    ensures { spec.ShowsText (W.contents output.old) (W.contents output.new) result
        (spec.refusal_line number) }
{
    print_counted(output, b"refused ", u64::from(number))
}

/// Prints the line of why a script ends; if writing fails, a prefix of it.
pub fn print_stop<W: Write>(errors: &mut W, stop: Stop) -> Result<()>
    ensures { spec.ShowsText (W.contents errors.old) (W.contents errors.new) result
        (spec.stop_line stop) }
{
    match stop {
        Stop::Line(number) => print_counted(errors, b"sst: line ", number),
        Stop::Input => write_text(errors, b"sst: input\n"),
        Stop::Output => write_text(errors, b"sst: output\n"),
    }
}
