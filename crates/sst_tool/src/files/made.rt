//! The result of writing tables.
use crate::lines::{Format, word_for};
use std::io;
use std::io::Write;

/// The number of tables written, and of their entries.
#[derive(Clone, Copy, Debug, PartialEq, Eq)]
pub struct Made {
    /// The number of tables.
    pub tables: u64,
    /// The number of entries in all tables.
    pub entries: u64,
}

/// Prints the numbers in one line, as words or as a JSON object.
pub fn print_made<W: Write>(output: &mut W, made: Made, format: Format) -> io::Result<()> {
    let (tables, entries) = (made.tables, made.entries);
    match format {
        Format::Lines => {
            let table_word = word_for(tables, "table", "tables");
            let entry_word = word_for(entries, "entry", "entries");
            writeln!(output, "{tables} {table_word}, {entries} {entry_word}")
        }
        Format::Json => { writeln!(output, "{{\"tables\":{tables},\"entries\":{entries}}}") }
    }
}
