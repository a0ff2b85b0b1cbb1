//! Reads entries from lines and writes them into tables.
ghost use Rattle.std.specs.Prelude.{◌≡◌, ◌≢◌, ◌++◌, ◌∷◌, [], IfOk, IsTrue, IsPermutation, List};
ghost use Rattle.std.specs.Prelude.{IfErr, None, OnOk, length, true, if◌then◌else◌};
ghost use Rattle.sst_tool.specs.make.Words as spec;
ghost use Rattle.sst_tool.specs.declared.lines.entry_line.LineError.TheVariants as spelling;

use crate::files::{LineFault, ToolError};
use crate::lines::{Format, LineError, parse_entry};
use lsm_writers::MultiWriter;
use sst_blocks::{Error, InternalValue, SeqNo};
use std::alloc::{AllocError, Allocator};
use std::cmp::Ordering;
use std::io;
use std::io::{BufRead, ErrorKind};

/// An entry, and the number of its line.
#[derive(Drop)]
pub(crate) struct Numbered<A: Allocator> {
    line: u64,
    entry: InternalValue<A>,
}

// Reads the next line, without its newline. Returns `false` at the end.
fn read_line<I: BufRead, A: Allocator>(
    input: &mut I,
    line: &mut Vec<u8, A>,
) -> Result<bool, ToolError<'static>>
    ensures ok { IfOk result (spec.ReadsInputLine
        (I.remaining input.old) (I.remaining input.new) line.new.items) }
    ensures refused { IfErr result spec.IsOfInput }
{
    line.clear();
    match input.read_until(b'\n', line) {
        Ok(length) => {
            strip_end(line);
            Ok(length > 0)
        }
        Err(error) => Err(ToolError::Input(error)),
    }
}

// Removes the newline, which the last line may lack.
fn strip_end<A: Allocator>(line: &mut Vec<u8, A>)
    ensures { line.new.items ≡ spec.strip_last 10 line.old.items }
{
    if line.last() == Some(&b'\n') {
        line.pop();
    }
}

// The error of an input with more lines than can be counted.
fn too_many() -> ToolError<'static>
    ensures { spec.IsOfInput result }
{
    ToolError::Input(io::Error::from(ErrorKind::FileTooLarge))
}

// Parses a line.
fn parse_line<A: Allocator + Copy>(
    alloc: A,
    number: u64,
    line: &[u8],
    format: Format,
) -> Result<InternalValue<A>, ToolError<'static>>
    ensures ok { IfOk result (λ entry. spec.LineSpells format line.now entry) }
    ensures refused { IfErr result (λ error. spec.TellsSpelling number format line.now error) }
{
    match parse_entry(alloc, line, format) {
        Ok(entry) => Ok(entry),
        Err(error) => Err(spelling_error(number, error)),
    }
}

// Returns the error of a line that does not parse. `OutOfMemory` says nothing about the line.
fn spelling_error(number: u64, error: LineError) -> ToolError<'static>
    ensures memory { error ≡ spelling.OutOfMemory → result ≡ spec.Refused spec.OutOfMemory }
    ensures fault { error ≢ spelling.OutOfMemory → result ≡ spec.Line number (spec.Spelling error) }
{
    match error {
        LineError::OutOfMemory => ToolError::Refused(Error::OutOfMemory),
        error => ToolError::Line {
            number,
            fault: LineFault::Spelling(error),
        },
    }
}

// Returns the error of an entry that may not follow the one before it.
fn order_fault(sorted: bool) -> LineFault
    ensures { result ≡ (if sorted then spec.Repeated else spec.OutOfOrder) }
{
    if sorted {
        LineFault::Repeated
    } else {
        LineFault::OutOfOrder
    }
}

// Writes an entry, if it may follow those before it. After sorting, an entry that may not follow
// has the key and sequence number of the one before it.
#[tactic(auto, using(crate::proofs::Refusals::not_memory))]
fn write_entry<A: Allocator + Copy>(
    writer: &mut MultiWriter<A>,
    number: u64,
    entry: &InternalValue<A>,
    sorted: bool,
) -> Result<(), ToolError<'static>>
    ensures ok { OnOk result (writer.new ≡ spec.took writer.old entry.now) }
    ensures listed { OnOk result
        (spec.all_written writer.new ≡ spec.all_written writer.old ++ entry.now ∷ []) }
    ensures taken { OnOk result (spec.took_fault writer.old entry.now ≡ None) }
    ensures follows { OnOk result
        (spec.may_be_written (spec.all_written writer.old) entry.now.user_key entry.now.seqno
        ≡ true) }
    ensures refused { IfErr result (λ error.
        spec.TellsEntry number sorted writer.old entry.now error) }
{
    let entry = entry.as_entry_ref();
    if entry.seqno == SeqNo::MAX {
        let fault = LineFault::TooHigh;
        return Err(ToolError::Line { number, fault });
    }
    if !writer.can_follow_ref(&entry) {
        let fault = order_fault(sorted);
        return Err(ToolError::Line { number, fault });
    }
    match writer.write_ref(&entry) {
        Ok(()) => Ok(()),
        Err(Error::OutOfMemory) => Err(ToolError::Refused(Error::OutOfMemory)),
        Err(error) => {
            let fault = LineFault::Refused(error);
            Err(ToolError::Line { number, fault })
        }
    }
}

// Parses a line and writes its entry.
fn write_line<A: Allocator + Copy>(
    alloc: A,
    number: u64,
    line: &[u8],
    format: Format,
    writer: &mut MultiWriter<A>,
) -> Result<(), ToolError<'static>>
    ensures ok { OnOk result (spec.TookLine format line.now writer.old writer.new) }
    ensures refused { IfErr result (λ error.
        spec.TellsLine number format writer.old line.now error) }
{
    let entry = parse_line(alloc, number, line, format)?;
    write_entry(writer, number, &entry, false)
}

/// Writes the entries of lines in their order, and returns the number of entries. Empty lines are
/// skipped.
///
/// # Errors
///
/// Fails at the first line that does not parse, is out of order or cannot be written, with an error
/// of the input, and with `OutOfMemory`.
pub(crate) fn write_lines<I: BufRead, A: Allocator + Copy>(
    alloc: A,
    input: &mut I,
    format: Format,
    writer: &mut MultiWriter<A>,
) -> Result<u64, ToolError<'static>>
    ensures ok { IfOk result
        (λ n. (es : List spec.Entry) × spec.HasEntries format (I.remaining input.old) es
        × (n ≡ length es) × spec.TookAll writer.old es writer.new) }
    // An error that names a line names the first that is wrong, with its error.
    ensures refused { IfErr result (λ error.
        spec.StopsIn format (I.remaining input.old) writer.old error) }
{
    let mut line = Vec::new(alloc);
    let mut count = 0u64;
    for before in 0..u64::MAX {
        if !read_line(input, &mut line)? {
            return Ok(count);
        }
        if !line.is_empty() {
            write_line(alloc, before + 1, &line, format, writer)?;
            count += 1;
        }
    }
    Err(too_many())
}

/// Reads the entries of lines in their order. Empty lines are skipped.
///
/// # Errors
///
/// Fails at the first line that does not parse, with an error of the input, and with `OutOfMemory`.
pub(crate) fn collect_lines<I: BufRead, A: Allocator + Copy>(
    alloc: A,
    input: &mut I,
    format: Format,
) -> Result<Vec<Numbered<A>, A>, ToolError<'static>>
    ensures entries { IfOk result (λ rows.
        spec.HasEntries format (I.remaining input.old) (spec.row_entries rows.items)) }
    // Each entry has the number of its line.
    ensures rows { IfOk result (λ rows.
        spec.HasRows format (I.remaining input.old) (spec.numbered rows.items)) }
    // An error that names a line names the first that does not parse.
    ensures refused { IfErr result (spec.StopsReading format (I.remaining input.old)) }
{
    let mut rows = Vec::new(alloc);
    let mut line = Vec::new(alloc);
    for before in 0..u64::MAX {
        if !read_line(input, &mut line)? {
            return Ok(rows);
        }
        if !line.is_empty() {
            let entry = parse_line(alloc, before + 1, &line, format)?;
            rows.push(Numbered {
                line: before + 1,
                entry,
            })?;
        }
    }
    Err(too_many())
}

// Ascending keys, then descending sequence numbers.
fn compare_rows<A: Allocator>(left: &Numbered<A>, right: &Numbered<A>) -> Ordering
    ensures { result ≡ spec.version_cmp left.now.entry right.now.entry }
{
    let (left, right) = (left.entry.as_entry_ref(), right.entry.as_entry_ref());
    left.compare_version(&right)
}

/// Sorts entries by ascending key, then by descending sequence number. Of two equal ones the one of
/// the earlier line is first.
///
/// # Errors
///
/// Fails only if memory runs out.
pub(crate) fn sort_rows<A: Allocator>(rows: &mut Vec<Numbered<A>, A>) -> Result<(), AllocError>
    ensures rows { IsPermutation rows.old.items rows.new.items }
    ensures order { OnOk result
        (spec.IsSortOf spec.is_row_before (spec.numbered rows.old.items)
        (spec.numbered rows.new.items)) }
{
    rows.sort_by(compare_rows)
}

/// Writes sorted entries, and returns their number.
///
/// # Errors
///
/// Fails at the first entry that cannot be written or repeats the key and sequence number before
/// it, and with `OutOfMemory`.
pub(crate) fn write_rows<A: Allocator + Copy>(
    rows: &[Numbered<A>],
    writer: &mut MultiWriter<A>,
) -> Result<u64, ToolError<'static>>
    ensures ok { IfOk result (λ n.
        (n ≡ length rows.now) × spec.TookAll writer.old (spec.row_entries rows.now) writer.new) }
    // The entries before the named one were written.
    ensures refused { IfErr result (spec.StopsAmong (spec.numbered rows.now) writer.old) }
{
    for row in rows {
        write_entry(writer, row.line, &row.entry, true)?;
    }
    Ok(rows.len() as u64)
}
