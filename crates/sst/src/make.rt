//! The commands that write tables.
ghost use Rattle.std.specs.Prelude.{◌≡◌, IfErr, OnOk};
ghost use Rattle.sst.specs.Words as spec;

use crate::System;
use lsm_sorted::compaction::Rules;
use lsm_writers::{BloomConstructionPolicy, IndexKind};
use sst_blocks::Timestamp;
use sst_tool::files::{Place, ToolError, print_made};
use sst_tool::lines::Format;
use sst_tool::make::{
    CompactOptions, TableOptions, WriteOptions, compact_files, pack_files, packed_object,
    print_packed, write_entries,
};
use std::alloc::Global;
use std::io::{Read, Write};
use std::rt::{Clock, Files};
use tool_options::{CompactTask, PackTask, TableArguments, WriteTask};

/// Returns the format of lines.
pub(crate) fn format_of(json: bool) -> Format
    ensures { result ≡ spec.format_of json }
{
    if json { Format::Json } else { Format::Lines }
}

// Returns the time of the clock, or 1970 if it has none.
fn now<C: Clock>(clock: &C) -> Timestamp {
    match clock.since_1970() {
        Ok(since) => Timestamp::from(since.as_nanos()),
        Err(_) => Timestamp::from(0),
    }
}

// Returns the options of new tables.
fn table_options(asked: &TableArguments, created_at: Timestamp) -> TableOptions
    ensures { result ≡ spec.tables_by asked.now result }
{
    TableOptions {
        index: if asked.partitioned {
            IndexKind::Partitioned(asked.partition_size)
        } else {
            IndexKind::Full
        },
        filter: BloomConstructionPolicy::BitsPerKey(asked.filter_bits.saturating_mul(10)),
        block_size: asked.block_size,
        level: asked.level,
        target: asked.target,
        created_at,
    }
}

// Returns the options of a task.
fn write_options(task: &WriteTask<'_>, created_at: Timestamp) -> WriteOptions
    ensures { result ≡ spec.write_by task.now result }
{
    WriteOptions {
        tables: table_options(&task.tables, created_at),
        format: format_of(task.json),
        sort: task.sort,
    }
}

// Returns the options of a task.
fn compact_options(task: &CompactTask<'_>, created_at: Timestamp) -> CompactOptions
    ensures { result ≡ spec.compact_by task.now result }
{
    CompactOptions {
        rules: Rules {
            watermark: task.watermark,
            evict: task.evict,
            zeroing: task.zero,
        },
        tables: table_options(&task.tables, created_at),
    }
}

/// Writes the entries of the input into tables, and prints how many there are.
pub(crate) fn write<'a, R: Files, C: Clock, P: Place, I: Read + Drop, W: Write>(
    system: System<'_, R, C>,
    place: &mut P,
    task: &WriteTask<'a>,
    input: I,
    output: &mut W,
) -> Result<(), ToolError<'a>>
    ensures does { OnOk result
        ((made : spec.MadeTables) × spec.WritesTables task.now (I.remaining input)
        (P.there place.old) made (P.done place.old) (P.done place.new)) }
    ensures refused { IfErr result (λ e. spec.RefusesWrite task.now (I.remaining input)
        (P.there place.old) (P.done place.old) e (P.done place.new)) }
{
    let options = write_options(task, now(system.clock));
    let made = write_entries(place, system.alloc, input, task.file, &options)?;
    print_made(output, made, format_of(task.json))?;
    Ok(())
}

/// Compacts tables into new ones, and prints how many there are.
pub(crate) fn compact<'a, R: Files, C: Clock, P: Place, W: Write>(
    system: System<'_, R, C>,
    place: &mut P,
    task: &CompactTask<'a>,
    output: &mut W,
) -> Result<(), ToolError<'a>>
    ensures does { OnOk result
        ((made : spec.MadeTables) × spec.CompactsTables task.now (P.content place.old)
        made (P.done place.old) (P.done place.new)) }
    ensures refused { IfErr result (λ e. spec.RefusesCompact task.now (P.content place.old)
        (P.there place.old) (P.done place.old) e (P.done place.new)) }
{
    let options = compact_options(task, now(system.clock));
    let files = task.files.as_slice();
    let made = compact_files(place, system.alloc, files, task.folder, &options)?;
    print_made(output, made, format_of(task.json))?;
    Ok(())
}

/// Prints the fewest runs of tables. For several runs, a chain of overlaps shows why.
pub(crate) fn pack<'a, P: Place, W: Write>(
    alloc: Global,
    place: &P,
    task: &PackTask<'a>,
    output: &mut W,
) -> Result<(), ToolError<'a>>
    ensures { IfErr result (spec.RefusesPack task.now (P.content place.now)) }
{
    let files = task.files.as_slice();
    let packed = pack_files(place, alloc, files)?;
    match format_of(task.json) {
        Format::Lines => print_packed(output, files, &packed)?,
        Format::Json => {
            let text = packed_object(alloc, files, &packed)?;
            output.write_all(&text)?;
        }
    }
    Ok(())
}
