//! Writes tables with options that are not the defaults.
ghost use Rattle.std.specs.Prelude.{IfOk};
ghost use Rattle.lsm_writers.specs.Writing.{IsFresh};

use lsm_writers::{BloomConstructionPolicy, FinishedTable, Timestamp, Writer};
use sst_blocks::{Error, InternalValue};
use std::alloc::Allocator;

/// The options of a table.
#[derive(Clone, Copy)]
pub struct Choices {
    pub id: u64,
    pub level: u8,
    pub moment: u64,
    /// Whether no option is set, and the fields below are ignored.
    pub keeps_defaults: bool,
    /// A partition size that is set before the kinds of index and filter.
    pub size_before: u32,
    pub has_index_parts: bool,
    pub has_filter_parts: bool,
    /// A partition size that is set after them.
    pub size_behind: u32,
    pub block_size: u32,
    /// Tenths of a bit per key.
    pub bits: u32,
    pub interval: u8,
}

/// The largest size that may be set.
const LARGEST: u32 = 4_194_304;

fn with_partition_size<A: Allocator + Copy>(writer: Writer<A>, size: u32) -> Writer<A>
    requires { IsFresh writer }
    ensures { IsFresh result }
{
    writer.use_meta_partition_size(size.min(LARGEST))
}

fn with_index<A: Allocator + Copy>(writer: Writer<A>, has_parts: bool) -> Writer<A>
    requires { IsFresh writer }
    ensures { IsFresh result }
{
    if has_parts {
        writer.use_partitioned_index()
    } else {
        writer
    }
}

fn with_filter<A: Allocator + Copy>(writer: Writer<A>, has_parts: bool) -> Writer<A>
    requires { IsFresh writer }
    ensures { IsFresh result }
{
    if has_parts {
        writer.use_partitioned_filter()
    } else {
        writer
    }
}

fn with_blocks<A: Allocator + Copy>(writer: Writer<A>, size: u32, interval: u8) -> Writer<A>
    requires { IsFresh writer }
    ensures { IsFresh result }
{
    writer
        .use_data_block_size(size.min(LARGEST))
        .use_data_block_restart_interval(interval.max(1))
}

fn configured<A: Allocator + Copy>(writer: Writer<A>, choices: &Choices) -> Writer<A>
    requires { IsFresh writer }
    ensures { IsFresh result }
{
    let writer = with_partition_size(writer, choices.size_before);
    let writer = with_index(writer, choices.has_index_parts);
    let writer = with_filter(writer, choices.has_filter_parts);
    let writer = with_partition_size(writer, choices.size_behind);
    let writer = with_blocks(writer, choices.block_size, choices.interval);
    writer.use_bloom_policy(BloomConstructionPolicy::BitsPerKey(choices.bits))
}

fn new_writer<A: Allocator + Copy>(alloc: A, choices: &Choices) -> Result<Writer<A>, Error> {
    let moment = Timestamp::from(u128::from(choices.moment));
    let writer = Writer::new(alloc, choices.id, choices.level, moment)?;
    if choices.keeps_defaults {
        Ok(writer)
    } else {
        Ok(configured(writer, choices))
    }
}

// Writes entries. Fails with `Source(0)` if one may not follow the one before.
fn put_all<A: Allocator + Copy>(
    writer: &mut Writer<A>,
    items: Vec<InternalValue<A>, A>,
) -> Result<(), Error> {
    for item in items {
        if !writer.can_follow(&item.key) {
            return Err(Error::Source(0));
        }
        writer.write(item)?;
    }
    Ok(())
}

// Returns a writer, or the error of writing. It is generic in the writer, so that a proof looks at
// none of its parts.
fn written<W: Drop>(writer: W, answer: Result<(), Error>) -> Result<W, Error> {
    answer?;
    Ok(writer)
}

/// The table of some entries. Fails with `Source(0)` if one may not follow the one before, and with
/// `Source(1)` if there are none.
pub fn write_table<A: Allocator + Copy>(
    alloc: A,
    choices: &Choices,
    items: Vec<InternalValue<A>, A>,
) -> Result<FinishedTable<A>, Error> {
    let mut writer = new_writer(alloc, choices)?;
    let put = put_all(&mut writer, items);
    written(writer, put)?.finish()?.ok_or(Error::Source(1))
}
