//! Reads the matches of a command as a task.
ghost use Rattle.std.specs.Prelude.{◌≡◌, ◌↔◌, IfOk, IfSome, IsTrue, Some, codes};
ghost use Rattle.tool_options.specs.Words as spec;

use crate::tasks::{
    CompactTask, DumpTask, GetTask, PackTask, StatTask, TableArguments, Task, VerifyTask, WriteTask,
};
use clap::ArgMatches;
use std::alloc::{AllocError, Global};

/// The error of reading matches as a task.
#[derive(Clone, Copy)]
pub(crate) enum Misread {
    /// Memory ran out.
    OutOfMemory,
    /// The filter's bits are neither a number from 1 to 100 nor `none`.
    Filter,
    /// There is no key after the files.
    Key,
    /// A snapshot is given for files that are not read together.
    At,
    /// A required argument is missing.
    Absent,
}

impl From<AllocError> for Misread {
    ghost use Rattle.std.specs.Prelude.{◌≡◌};
    ghost use Rattle.tool_options.specs.declared.read.Misread.TheVariants.{OutOfMemory};

    ghost from_gives = { λ _ e. e ≡ OutOfMemory };

    fn from(_error: AllocError) -> Misread {
        Misread::OutOfMemory
    }
}

/// Returns the task of the command `name` with these matches.
pub(crate) fn read_task<'a>(
    alloc: Global,
    name: &str,
    matches: &ArgMatches<'a>,
) -> Result<Task<'a>, Misread>
    ensures { IfOk result (λ t. spec.AsksFor name.now (spec.rows_of (spec.found_of matches.now))
        t) }
{
    match name {
        "write" => read_write(matches),
        "dump" => read_dump(alloc, matches),
        "get" => read_get(alloc, matches),
        "stat" => read_stat(alloc, matches),
        "verify" => read_verify(alloc, matches),
        "compact" => read_compact(alloc, matches),
        "pack" => read_pack(alloc, matches),
        _ => Err(Misread::Absent),
    }
}

fn read_write<'a>(matches: &ArgMatches<'a>) -> Result<Task<'a>, Misread>
    ensures { IfOk result (λ t. spec.AsksFor (codes "write")
        (spec.rows_of (spec.found_of matches.now)) t) }
{
    Ok(Task::Write(WriteTask {
        file: text(matches, "file").ok_or(Misread::Absent)?,
        tables: tables(matches)?,
        sort: flag(matches, "sort"),
        json: flag(matches, "json"),
    }))
}

// A snapshot is one of files that are read together.
fn read_dump<'a>(alloc: Global, matches: &ArgMatches<'a>) -> Result<Task<'a>, Misread>
    ensures { IfOk result (λ t. spec.AsksFor (codes "dump")
        (spec.rows_of (spec.found_of matches.now)) t) }
{
    let merged = flag(matches, "merged");
    let at = number(matches, "at");
    if !merged && at.is_some() {
        return Err(Misread::At);
    }
    Ok(Task::Dump(DumpTask {
        files: files(alloc, matches)?,
        from: text(matches, "from"),
        to: text(matches, "to"),
        reverse: flag(matches, "reverse"),
        limit: number(matches, "limit"),
        merged,
        at,
        json: flag(matches, "json"),
    }))
}

// The last word is the key.
fn read_get<'a>(alloc: Global, matches: &ArgMatches<'a>) -> Result<Task<'a>, Misread>
    ensures { IfOk result (λ t. spec.AsksFor (codes "get")
        (spec.rows_of (spec.found_of matches.now)) t) }
{
    let mut files = files(alloc, matches)?;
    let key = files.pop().ok_or(Misread::Absent)?;
    if files.is_empty() {
        return Err(Misread::Key);
    }
    Ok(Task::Get(GetTask {
        files,
        key,
        at: number(matches, "at"),
        loads: flag(matches, "loads"),
        json: flag(matches, "json"),
    }))
}

fn read_stat<'a>(alloc: Global, matches: &ArgMatches<'a>) -> Result<Task<'a>, Misread>
    ensures { IfOk result (λ t. spec.AsksFor (codes "stat")
        (spec.rows_of (spec.found_of matches.now)) t) }
{
    Ok(Task::Stat(StatTask {
        files: files(alloc, matches)?,
        json: flag(matches, "json"),
    }))
}

fn read_verify<'a>(alloc: Global, matches: &ArgMatches<'a>) -> Result<Task<'a>, Misread>
    ensures { IfOk result (λ t. spec.AsksFor (codes "verify")
        (spec.rows_of (spec.found_of matches.now)) t) }
{
    Ok(Task::Verify(VerifyTask {
        files: files(alloc, matches)?,
        json: flag(matches, "json"),
    }))
}

fn read_compact<'a>(alloc: Global, matches: &ArgMatches<'a>) -> Result<Task<'a>, Misread>
    ensures { IfOk result (λ t. spec.AsksFor (codes "compact")
        (spec.rows_of (spec.found_of matches.now)) t) }
{
    let folder = text(matches, "to").ok_or(Misread::Absent)?;
    let watermark = number(matches, "watermark").ok_or(Misread::Absent)?;
    Ok(Task::Compact(CompactTask {
        files: files(alloc, matches)?,
        folder,
        watermark,
        evict: flag(matches, "evict"),
        zero: flag(matches, "zero"),
        tables: tables(matches)?,
        json: flag(matches, "json"),
    }))
}

fn read_pack<'a>(alloc: Global, matches: &ArgMatches<'a>) -> Result<Task<'a>, Misread>
    ensures { IfOk result (λ t. spec.AsksFor (codes "pack")
        (spec.rows_of (spec.found_of matches.now)) t) }
{
    Ok(Task::Pack(PackTask {
        files: files(alloc, matches)?,
        json: flag(matches, "json"),
    }))
}

// Returns the options of new tables.
fn tables(matches: &ArgMatches<'_>) -> Result<TableArguments, Misread>
    ensures { IfOk result (spec.AsksForTables (spec.rows_of (spec.found_of matches.now))) }
{
    Ok(TableArguments {
        partitioned: says(matches, "index", "partitioned"),
        filter_bits: filter(matches).ok_or(Misread::Filter)?,
        block_size: size(matches, "block-size").ok_or(Misread::Absent)?,
        partition_size: size(matches, "partition-size").ok_or(Misread::Absent)?,
        level: small(matches, "level").ok_or(Misread::Absent)?,
        target: number(matches, "target"),
    })
}

// Returns the value of an argument.
fn text<'a>(matches: &ArgMatches<'a>, name: &str) -> Option<&'a str>
    ensures { spec.text_in result
        ≡ spec.first_of name.now (spec.rows_of (spec.found_of matches.now)) }
{
    matches.get_str(name)
}

// Whether an argument has this value.
fn says(matches: &ArgMatches<'_>, name: &str, word: &str) -> bool
    ensures { IsTrue result ↔
        (spec.first_of name.now (spec.rows_of (spec.found_of matches.now)) ≡ Some word.now) }
{
    match text(matches, name) {
        Some(text) => text == word,
        None => false,
    }
}

// Whether a flag is set.
fn flag(matches: &ArgMatches<'_>, name: &str) -> bool
    ensures { IsTrue result ↔ spec.Has (spec.rows_of (spec.found_of matches.now)) name.now }
{
    says(matches, name, "true")
}

// Returns the positional words.
fn files<'a>(alloc: Global, matches: &ArgMatches<'a>) -> Result<Vec<&'a str>, AllocError>
    ensures { let rows = spec.rows_of (spec.found_of matches.now) in
        IfOk result (λ files. spec.texts_of files.items ≡ spec.named_files rows) }
{
    match matches.get_strs("files") {
        Some(files) => files.to_vec(alloc),
        None => Ok(Vec::new(alloc)),
    }
}

// Returns the filter's bits for each key.
fn filter(matches: &ArgMatches<'_>) -> Option<u32>
    ensures { let found = spec.first_of (codes "filter")
        (spec.rows_of (spec.found_of matches.now)) in
        IfSome result (λ bits. (text : spec.Text) × (found ≡ Some text)
        × spec.SpellsBits text bits) }
{
    filter_bits(text(matches, "filter")?)
}

// Parses the filter's bits for each key: a number from 1 to 100, or 0 for `none`.
fn filter_bits(text: &str) -> Option<u32>
    ensures { IfSome result (spec.SpellsBits text.now) }
{
    if text == "none" {
        return Some(0);
    }
    text.parse::<u32>()
        .ok()
        .filter(|bits| 1 <= *bits && *bits <= 100)
}

// Returns the number of an argument.
fn number(matches: &ArgMatches<'_>, name: &str) -> Option<u64>
    ensures { spec.Spells 64 (spec.one_of name.now (spec.rows_of (spec.found_of matches.now)))
        result }
{
    matches.get_one(name)
}

// Returns the `u32` of an argument.
fn size(matches: &ArgMatches<'_>, name: &str) -> Option<u32>
    ensures { spec.Spells 32 (spec.one_of name.now (spec.rows_of (spec.found_of matches.now)))
        result }
{
    matches.get_one(name)
}

// Returns the `u8` of an argument.
fn small(matches: &ArgMatches<'_>, name: &str) -> Option<u8>
    ensures { spec.Spells 8 (spec.one_of name.now (spec.rows_of (spec.found_of matches.now)))
        result }
{
    matches.get_one(name)
}
