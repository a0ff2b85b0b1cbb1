//! Writes lines into tables.
ghost use Rattle.std.specs.Prelude.{◌≡◌, ◌⊎◌, ◌+◌, ◌<◌, Any, IfErr, IfOk, IsErrAnd};
ghost use Rattle.std.specs.Prelude.{List, OnOk, length, map, true, ℕ};
ghost use Rattle.sst_tool.specs.make.Words as spec;

use crate::files::{
    FileError, FileName, Made, NewFile, Place, ToolError, place_files, place_series, table_files,
};
use crate::lines::Format;
use crate::make::WriteOptions;
use crate::make::entries::{collect_lines, sort_rows, write_lines, write_rows};
use lsm_writers::{FinishedTable, MultiWriter};
use sst_blocks::Error;
use std::alloc::Allocator;
use std::io::{BufRead, BufReader, Read};

// Sorts the entries of lines and writes them. Returns their number.
fn write_sorted<I: BufRead, A: Allocator + Copy>(
    alloc: A,
    input: &mut I,
    format: Format,
    writer: &mut MultiWriter<A>,
) -> Result<u64, ToolError<'static>>
    ensures ok { IfOk result
        (λ n. (es : List spec.Entry) × spec.HasEntries format (I.remaining input.old) es
        × (n ≡ length es) × spec.TookSorted true writer.old es writer.new) }
    ensures refused { IfErr result
        (spec.StopsInOrder format (I.remaining input.old) writer.old) }
{
    let mut rows = collect_lines(alloc, input, format)?;
    sort_rows(&mut rows)?;
    write_rows(&rows, writer)
}

// Writes the entries of lines, in their order or sorted. Returns their number.
fn fill<I: BufRead, A: Allocator + Copy>(
    alloc: A,
    input: &mut I,
    options: &WriteOptions,
    writer: &mut MultiWriter<A>,
) -> Result<u64, ToolError<'static>>
    ensures ok { IfOk result (λ n.
        spec.TookLines options.now (I.remaining input.old) writer.old writer.new n) }
    ensures refused { IfErr result
        (spec.StopsLines options.now.sort options.now.format (I.remaining input.old) writer.old) }
{
    if options.sort {
        write_sorted(alloc, input, options.format, writer)
    } else {
        write_lines(alloc, input, options.format, writer)
    }
}

// Tables, and the number of their entries.
type Tables<A> = (Vec<FinishedTable<A>, A>, u64);

// Returns the tables of a writer that took so many entries.
fn finish<A: Allocator + Copy>(
    writer: MultiWriter<A>,
    count: u64,
) -> Result<Tables<A>, ToolError<'static>>
    ensures ok { IfOk result (λ r. (r.1 ≡ count) × spec.AreTablesOf writer r.0.items) }
    ensures refused { IfErr result (spec.TellsEnd writer) }
{
    let tables = writer.finish()?;
    Ok((tables, count))
}

// Returns the tables of lines, and the number of their entries.
fn tables_of<I: BufRead, A: Allocator + Copy>(
    alloc: A,
    input: &mut I,
    options: &WriteOptions,
) -> Result<Tables<A>, ToolError<'static>>
    ensures lines { IfOk result (λ r.
        spec.AreOfLines options.now (I.remaining input.old) r.0.items r.1) }
    ensures small { OnOk result (spec.HasSmallSizes options.now.tables) }
    ensures refused { IfErr result (spec.RefusesLines options.now (I.remaining input.old)) }
{
    let mut writer = options.writer(alloc)?;
    match fill(alloc, input, options, &mut writer) {
        Ok(count) => finish(writer, count),
        Err(error) => {
            drop(writer);
            Err(error)
        }
    }
}

// Returns the tables of an input, at least one, and the number of their entries.
#[tactic(auto, using(crate::proofs::Refusals::memory_refused))]
fn read_tables<I: Read + Drop, A: Allocator + Copy>(
    alloc: A,
    input: I,
    options: &WriteOptions,
) -> Result<Tables<A>, ToolError<'static>>
    ensures lines { IfOk result (λ r. spec.AreOfLines options.now (I.remaining input) r.0.items
        r.1) }
    ensures some { IfOk result (λ r. 0 < length r.0.items) }
    ensures small { OnOk result (spec.HasSmallSizes options.now.tables) }
    ensures refused { IfErr result (spec.RefusesLines options.now (I.remaining input)) }
{
    let Ok(mut input) = BufReader::new(alloc, input) else {
        return Err(ToolError::Refused(Error::OutOfMemory));
    };
    let (tables, entries) = tables_of(alloc, &mut input, options)?;
    drop(input);
    if tables.is_empty() {
        return Err(ToolError::NoEntries);
    }
    Ok((tables, entries))
}

// Returns the name of a table's file: the path, or with a target a numbered one.
fn name_of<'a>(path: &'a str, target: Option<u64>, number: u64) -> FileName<'a>
    ensures path { spec.path_text result ≡ spec.table_file_name path.now target number }
    ensures paths { (n : ℕ) → spec.numbered_path result n ≡ spec.table_file_name path.now target n }
{
    match target {
        None => FileName::Plain(path),
        Some(_) => FileName::Part(path, number),
    }
}

// Returns the files of tables, numbered from 1. Fails only if memory runs out.
fn files_of<'a, 'b, A: Allocator + Copy>(
    alloc: A,
    path: &'a str,
    target: Option<u64>,
    tables: &'b [FinishedTable<A>],
) -> Result<Vec<NewFile<'a, 'b>, A>, ToolError<'a>>
    ensures files { IfOk result (λ wanted.
        map spec.named_bytes wanted.items ≡ spec.files_from path.now target 1 tables.now) }
    ensures refused { IfErr result (λ e. e ≡ spec.Refused spec.OutOfMemory) }
{
    Ok(table_files(alloc, name_of(path, target, 1), tables)?)
}

// Writes the files of tables. With a target the name after the last has to be free, so that no
// older file reads as one of these.
fn place_tables<'a, P: Place, A: Allocator + Copy>(
    place: &mut P,
    alloc: A,
    path: &'a str,
    target: Option<u64>,
    wanted: &[NewFile<'a, '_>],
) -> Result<(), FileError<'a>>
    ensures placed { OnOk result (spec.AreInPlace (P.done place.old) wanted.now (P.done place.new)) }
    ensures kept { OnOk result
        (spec.AreModesKept (P.modes place.old) (P.done place.old) (P.done place.new)) }
    ensures free { OnOk result (spec.IsFreeBehind target
        (P.there place.old (spec.table_file_name path.now target (length wanted.now + 1)))) }
    ensures stops { IfErr result (λ e.
        spec.StopsPlacing target (spec.table_file_name path.now target (length wanted.now + 1))
        (P.there place.old) (P.done place.old) wanted.now e (P.done place.new)) }
    // The error names one of these files, or the one after them if that is left over from an
    // earlier write.
    ensures named { IfErr result (λ e.
        (spec.path_text e.name ≡ spec.table_file_name path.now target (length wanted.now + 1))
        ⊎ Any (λ file. file.name ≡ e.name) wanted.now) }
    ensures left { IfErr result (λ e. spec.IfLeft e.fault
        (spec.path_text e.name ≡ spec.table_file_name path.now target (length wanted.now + 1))) }
{
    match target {
        None => place_files(place, alloc, wanted),
        Some(_) => {
            let next = (wanted.len() as u64).saturating_add(1);
            place_series(place, alloc, wanted, name_of(path, target, next))
        }
    }
}

// Writes tables into their files.
fn put_tables<'a, P: Place, A: Allocator + Copy>(
    place: &mut P,
    alloc: A,
    path: &'a str,
    target: Option<u64>,
    tables: &[FinishedTable<A>],
) -> Result<(), ToolError<'a>>
    ensures placed { OnOk result (spec.AreTablesPlaced path.now target tables.now
        (P.there place.old) (P.done place.old) (P.done place.new)) }
    ensures kept { OnOk result
        (spec.AreModesKept (P.modes place.old) (P.done place.old) (P.done place.new)) }
    ensures refused { IfErr result (λ e. spec.RefusesTables path.now target tables.now
        (P.there place.old) (P.done place.old) e (P.done place.new)) }
    ensures named { IfErr result (spec.TellsTableFile path.now target (length tables.now)) }
    ensures left { IfErr result (spec.TellsEarlier path.now target (length tables.now)) }
{
    let wanted = files_of(alloc, path, target, tables)?;
    Ok(place_tables(place, alloc, path, target, &wanted)?)
}

/// Writes the entries of lines into a table file, or with a target into several: `PATH.000001`,
/// `PATH.000002` and so on. Empty lines are skipped. The entries are in order, by ascending key and
/// then by descending sequence number, or are sorted first.
///
/// # Errors
///
/// - A block or partition would have more than 4 MiB.
/// - A line does not parse, is out of order or cannot be written: the first such line. If the lines
///   are sorted, the first that does not parse, or else the first in the sorted order that repeats
///   a key and sequence number or cannot be written.
/// - There are no entries, or the input cannot be read.
/// - The files cannot be written ([`place_files`], [`place_series`]).
/// - Memory runs out.
///
/// Nothing is written before the last two errors.
pub fn write_entries<'a, P: Place, I: Read + Drop, A: Allocator + Copy>(
    place: &mut P,
    alloc: A,
    input: I,
    path: &'a str,
    options: &WriteOptions,
) -> Result<Made, ToolError<'a>>
    // On success the result has the number of tables and of the entries that the lines spell.
    // Exactly the files of these tables were written, with their bytes.
    ensures lines { IfOk result (λ made. spec.WritesLines A options.now (I.remaining input)
        path.now (P.there place.old) made (P.done place.old) (P.done place.new)) }
    // Each file has the permissions of the regular file that it replaces, and replaces nothing
    // else.
    ensures kept { OnOk result
        (spec.AreModesKept (P.modes place.old) (P.done place.old) (P.done place.new)) }
    // There is an entry then, so a table, and no block or partition is too large.
    ensures some { IfOk result (λ made. 0 < made.tables) }
    ensures small { OnOk result (spec.HasSmallSizes options.now.tables) }
    // If one would be, this is the error.
    ensures large { ¬ spec.HasSmallSizes options.now.tables →
        IsErrAnd result (λ e. e ≡ spec.SizeTooLarge) }
    // After an error either no tables were made, for this cause, and nothing was done; or exactly
    // their files were not written, or are not durable.
    ensures refused { IfErr result (λ e. spec.RefusesToWrite A options.now (I.remaining input)
        path.now (P.there place.old) (P.done place.old) e (P.done place.new)) }
    // A line that is reported as out of order is the first such one. One that is reported as
    // repeated is the first, in the sorted order, that has the key and sequence number of an
    // earlier line.
    ensures order { IfErr result (spec.TellsLineOrder options.now.format (I.remaining input)) }
{
    // Sizes are tested before memory is allocated.
    options.tables.check_sizes()?;
    let (tables, entries) = read_tables(alloc, input, options)?;
    put_tables(place, alloc, path, options.tables.target, &tables)?;
    Ok(Made {
        tables: tables.len() as u64,
        entries,
    })
}
