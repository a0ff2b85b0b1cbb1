//! The commands that read tables.
ghost use Rattle.std.specs.Prelude.{◌≡◌, ◌<◌, ℕ, IfErr, IfOk, OnOk, false, true};
ghost use Rattle.sst.specs.Words as spec;

use crate::System;
use crate::bar::{Bar, Work, behind};
use crate::make::format_of;
use crate::running::is_closed;
use sst_blocks::{Error, SeqNo, Slice};
use sst_tool::files::{FileFault, KeyWord, Place, ToolError, open_bytes, open_table};
use sst_tool::lines::{Format, parse_bytes};
use sst_tool::show::{
    DumpOptions, GetOptions, NamedTable, NoProgress, VerifyLine, print_verify_line,
};
use std::alloc::Global;
use std::io;
use std::io::Write;
use std::rt::{Clock, Files};
use tool_options::{DumpTask, GetTask, StatTask, VerifyTask};

// Opens a file as a table. Only top levels are pinned, so an error of the filter or the index comes
// from the read that loads it.
fn open_named<'a, P: Place>(
    alloc: Global,
    place: &P,
    name: &'a str,
) -> Result<NamedTable<'a, Global>, ToolError<'a>>
    ensures name { IfOk result (λ f. f.name ≡ name.entry) }
    ensures returned { IfOk result (λ f. spec.IsToldByBytes false f.table) }
    ensures content { IfOk result (λ f. spec.HasContent (P.content place.now name.now) f.table) }
{
    let table = open_table(place, alloc, name, false)?;
    Ok(NamedTable { name, table })
}

// Opens files as tables.
fn open_each<'a, P: Place>(
    alloc: Global,
    place: &P,
    names: &[&'a str],
) -> Result<Vec<NamedTable<'a, Global>>, ToolError<'a>>
    ensures { IfOk result (λ files. spec.AreNamed (P.content place.now) names.now files.items) }
{
    let mut tables = Vec::new(alloc);
    for name in names {
        tables.push(open_named(alloc, place, name)?)?;
    }
    Ok(tables)
}

// Parses a key of the command line.
fn key_bytes<'a>(alloc: Global, name: KeyWord, word: &str) -> Result<Vec<u8>, ToolError<'a>>
    ensures { IfOk result (λ bytes. spec.WordMeans word.now bytes.items) }
{
    match parse_bytes(alloc, word.as_bytes()) {
        Ok(bytes) => Ok(bytes),
        Err(error) => Err(ToolError::Key(name, error)),
    }
}

// Parses an optional key of the command line.
fn bound_bytes<'a>(
    alloc: Global,
    name: KeyWord,
    word: Option<&str>,
) -> Result<Option<Vec<u8>>, ToolError<'a>>
    ensures { IfOk result (λ bytes. spec.MeansKey word.entry
        (spec.option_map (λ b. b.items) bytes)) }
{
    match word {
        Some(word) => Ok(Some(key_bytes(alloc, name, word)?)),
        None => Ok(None),
    }
}

/// Prints the entries of tables.
pub(crate) fn dump<'a, P: Place, W: Write>(
    alloc: Global,
    place: &P,
    task: &DumpTask<'a>,
    output: &mut W,
) -> Result<(), ToolError<'a>>
    ensures { OnOk result (spec.DoesDump task.now (P.content place.now)) }
{
    let from = bound_bytes(alloc, KeyWord::From, task.from)?;
    let to = bound_bytes(alloc, KeyWord::To, task.to)?;
    let options = DumpOptions {
        from: from.as_deref(),
        to: to.as_deref(),
        reverse: task.reverse,
        format: format_of(task.json),
    };
    let names = task.files.as_slice();
    let most = task.limit.unwrap_or(u64::MAX);
    if task.merged {
        let seqno = task.at.unwrap_or(SeqNo::MAX);
        return dump_together(alloc, place, names, &options, seqno, most, output);
    }
    dump_each(alloc, place, names, &options, most, output)
}

// Prints at most `most` of the newest entries of files, which are read together.
fn dump_together<'a, P: Place, W: Write>(
    alloc: Global,
    place: &P,
    names: &[&'a str],
    options: &DumpOptions<'_>,
    seqno: SeqNo,
    most: u64,
    output: &mut W,
) -> Result<(), ToolError<'a>>
    ensures { OnOk result
        (spec.DumpsMerged options.now seqno most (P.content place.now) names.now) }
{
    let files = open_each(alloc, place, names)?;
    sst_tool::show::dump_merged(alloc, output, files.as_slice(), options, seqno, most)?;
    Ok(())
}

// Prints at most `left` entries of files.
fn dump_each<'a, P: Place, W: Write>(
    alloc: Global,
    place: &P,
    names: &[&'a str],
    options: &DumpOptions<'_>,
    left: u64,
    output: &mut W,
) -> Result<(), ToolError<'a>>
    ensures { OnOk result ((rest : ℕ)
        × spec.DumpsEach options.now (P.content place.now) names.now left rest) }
{
    let mut left = left;
    for name in names {
        if left == 0 {
            return Ok(());
        }
        // One file is open at a time.
        let file = open_named(alloc, place, name)?;
        left = sst_tool::show::dump(alloc, output, &file, options, left)?;
    }
    Ok(())
}

/// Prints the visible version of a key. Returns whether there is one.
pub(crate) fn get<'a, P: Place, W: Write>(
    alloc: Global,
    place: &P,
    task: &GetTask<'a>,
    output: &mut W,
) -> Result<bool, ToolError<'a>>
    ensures { IfOk result (spec.DoesGet P.File.reads task.now (P.content place.now)) }
{
    let key = key_bytes(alloc, KeyWord::Key, task.key)?;
    let options = GetOptions {
        key: key.as_slice(),
        at: task.at,
        loads: task.loads,
        format: format_of(task.json),
    };
    sst_tool::show::get(alloc, output, place, task.files.as_slice(), &options)
}

/// Prints the metadata of tables.
pub(crate) fn stat<'a, P: Place, W: Write>(
    alloc: Global,
    place: &P,
    task: &StatTask<'a>,
    output: &mut W,
) -> Result<(), ToolError<'a>> {
    for name in task.files.as_slice() {
        let file = open_named(alloc, place, name)?;
        sst_tool::show::stat(alloc, output, &file, format_of(task.json))?;
    }
    Ok(())
}

/// Verifies files one after another, prints their faults, and returns whether there are none. Shows
/// a bar on `errors` if `shows_bar`.
///
/// A file that does not open as a table is a fault, and so is each block that does not load, as far
/// as the bytes say where blocks are.
///
/// # Errors
///
/// Fails with [`ToolError::Output`] and with `OutOfMemory`.
pub(crate) fn verify<'a, R: Files, C: Clock, P: Place, W: Write, E: Write>(
    system: System<'_, R, C>,
    place: &P,
    task: &VerifyTask<'a>,
    output: &mut W,
    errors: &mut E,
    shows_bar: bool,
) -> Result<bool, ToolError<'a>>
    // It returns true only if the bytes of each file store a list, and false only if a file is
    // faulty.
    ensures sound { IfOk result (λ sound. sound ≡ true →
        spec.AreSoundFiles (P.content place.now) task.now.files.items) }
    ensures faulty { IfOk result (λ sound. sound ≡ false →
        spec.HaveFaulty (P.content place.now) task.now.files.items) }
    ensures goes_on { IfErr result spec.NamesNone }
{
    let names = task.files.as_slice();
    let work = if shows_bar {
        Some(Work::of(system, names))
    } else {
        None
    };
    let format = format_of(task.json);
    let faults = verify_each(system, place, names, format, output, errors, work)?;
    Ok(faults == 0)
}

// Returns the number of faults so far if there are some and the reader of the output closed its
// pipe, and else the error of the output.
fn faults_so_far(faults: u64, error: io::Error) -> Result<u64, ToolError<'static>>
    ensures some { IfOk result (λ count. (count ≡ faults) × (0 < count)) }
    ensures goes_on { IfErr result spec.NamesNone }
{
    if faults > 0 && is_closed(&error) {
        Ok(faults)
    } else {
        Err(ToolError::Output(error))
    }
}

// Verifies files one after another. Returns the number of faults.
fn verify_each<'a, R: Files, C: Clock, P: Place, W: Write, E: Write>(
    system: System<'_, R, C>,
    place: &P,
    names: &[&'a str],
    format: Format,
    output: &mut W,
    errors: &mut E,
    work: Option<Work>,
) -> Result<u64, ToolError<'a>>
    ensures sound { IfOk result (λ faults. faults ≡ 0 →
        spec.AreSoundFiles (P.content place.now) names.now) }
    ensures faulty { IfOk result (λ faults. 0 < faults →
        spec.HaveFaulty (P.content place.now) names.now) }
    ensures goes_on { IfErr result spec.NamesNone }
{
    let mut work = work;
    let mut faults = 0u64;
    for name in names {
        let found = verify_file(system, place, name, format, output, errors, work)?;
        faults = faults.saturating_add(found);
        // The result of a file is shown before the next is read.
        if let Err(error) = output.flush() {
            return faults_so_far(faults, error);
        }
        work = behind(work, system.files, name);
    }
    Ok(faults)
}

// Reads and verifies a file. Returns the number of faults.
fn verify_file<'a, R: Files, C: Clock, P: Place, W: Write, E: Write>(
    system: System<'_, R, C>,
    place: &P,
    name: &'a str,
    format: Format,
    output: &mut W,
    errors: &mut E,
    work: Option<Work>,
) -> Result<u64, ToolError<'a>>
    ensures sound { IfOk result (λ faults. faults ≡ 0 →
        spec.IsSoundFile (P.content place.now name.now)) }
    ensures faulty { IfOk result (λ faults. 0 < faults →
        spec.IsFaultyFile (P.content place.now name.now)) }
    ensures goes_on { IfErr result spec.NamesNone }
{
    match place.read(system.alloc, name) {
        Ok(bytes) => verify_bytes(system, name, bytes, format, output, errors, work),
        Err(fault) => print_unread(system.alloc, output, name, &fault, format),
    }
}

// Prints the error of reading a file, which counts as a fault unless memory ran out. Returns the
// number of faults.
fn print_unread<'a, W: Write>(
    alloc: Global,
    output: &mut W,
    name: &str,
    fault: &FileFault,
    format: Format,
) -> Result<u64, ToolError<'a>>
    ensures some { IfOk result (λ faults. 0 < faults) }
    ensures memory { IfOk result (λ _. spec.is_memory_fault fault.now ≡ false) }
    ensures goes_on { IfErr result spec.NamesNone }
{
    if fault.is_memory() {
        return Err(ToolError::Refused(Error::OutOfMemory));
    }
    print_verify_line(alloc, output, name, VerifyLine::Unread(fault), format)?;
    Ok(1)
}

// Opens and verifies the bytes of a file. Returns the number of faults.
fn verify_bytes<'a, R: Files, C: Clock, W: Write, E: Write>(
    system: System<'_, R, C>,
    name: &'a str,
    bytes: Slice<Global>,
    format: Format,
    output: &mut W,
    errors: &mut E,
    work: Option<Work>,
) -> Result<u64, ToolError<'a>>
    ensures sound { IfOk result (λ faults. faults ≡ 0 →
        (t : spec.OpenTable) × (t.bytes ≡ bytes) × spec.IsSoundTable t) }
    ensures faulty { IfOk result (λ faults. 0 < faults → spec.StoresNoTable bytes) }
    ensures goes_on { IfErr result spec.NamesNone }
{
    let shared = bytes.clone()?;
    match open_bytes(system.alloc, shared, false) {
        Ok(table) => {
            let file = NamedTable { name, table };
            verify_opened(system, &file, format, output, errors, work)
        }
        Err(error) => print_unopened(system.alloc, output, name, bytes, error, format),
    }
}

// Prints the error of opening a table, which counts as a fault unless memory ran out, and each
// block that does not load. Returns the number of faults.
fn print_unopened<'a, W: Write>(
    alloc: Global,
    output: &mut W,
    name: &str,
    bytes: Slice<Global>,
    error: Error,
    format: Format,
) -> Result<u64, ToolError<'a>>
    ensures some { IfOk result (λ faults. 0 < faults) }
    ensures memory { IfOk result (λ _. spec.is_memory error ≡ false) }
    ensures goes_on { IfErr result spec.NamesNone }
{
    if is_memory(&error) {
        return Err(ToolError::Refused(Error::OutOfMemory));
    }
    print_verify_line(alloc, output, name, VerifyLine::Unopened(&error), format)?;
    let blocks = sst_tool::show::verify_unopened(alloc, output, name, bytes, format)?;
    Ok(blocks.saturating_add(1))
}

// Whether an error is `OutOfMemory`, which is no fault of a file.
fn is_memory(error: &Error) -> bool
    ensures { result ≡ spec.is_memory error.now }
{
    matches!(error, Error::OutOfMemory)
}

// Verifies an opened file. Returns the number of faults.
fn verify_opened<'a, R: Files, C: Clock, W: Write, E: Write>(
    system: System<'_, R, C>,
    file: &NamedTable<'a, Global>,
    format: Format,
    output: &mut W,
    errors: &mut E,
    work: Option<Work>,
) -> Result<u64, ToolError<'a>>
    ensures sound { IfOk result (λ faults. faults ≡ 0 → spec.IsSoundTable file.now.table) }
    ensures complete { spec.IsSoundTable file.now.table → IfOk result (λ faults. faults ≡ 0) }
    ensures goes_on { IfErr result spec.NamesNone }
{
    match work {
        Some(work) => {
            let size = file.table.file_len() as u64;
            let mut bar = Bar::new(errors, system.clock, work, size);
            let faults = sst_tool::show::verify(system.alloc, output, file, format, &mut bar);
            bar.clear();
            faults
        }
        None => sst_tool::show::verify(system.alloc, output, file, format, &mut NoProgress),
    }
}
