//! Prints the metadata of tables.
use crate::files::{Escaped, ToolError};
use crate::lines::{Format, append_bytes};
use crate::show::NamedTable;
use crate::show::facts::{
    ITEMS, NamedPlace, Place, Shown, Spread, blocks_of, little_endian, sections_of, spread_of,
};
use crate::show::picture::{print_blocks, print_sections};
use crate::show::stat_object::object_of;
use lsm_readers::{ParsedRegions, Table};
use sst_blocks::{Error, Header, ItemName, Slice};
use std::alloc::Allocator;
use std::io::{self, Write};

/// Writes the metadata of a table, as text or as a JSON object on one line.
///
/// It has the meta items, the sections and data blocks with their sizes and shares of the file, the
/// entries of a block, and the kinds of index and filter. Of the filter it has the bits for each
/// key, and the share of absent keys that are expected to pass.
///
/// # Errors
///
/// Fails with [`ToolError::Unreadable`] if a block of the file does not load, with
/// [`ToolError::Output`], and with `OutOfMemory`. Lines already written stay.
pub fn stat<'a, A: Allocator + Copy, W: Write>(
    alloc: A,
    output: &mut W,
    file: &NamedTable<'a, A>,
    format: Format,
) -> Result<(), ToolError<'a>> {
    match stat_file(alloc, output, file, format) {
        Ok(()) => Ok(()),
        Err(error) => Err(file.blame(alloc, error)),
    }
}

/// The metadata of a table except for its items.
#[derive(Drop)]
pub(crate) struct Parts<A: Allocator> {
    pub(crate) size: u64,
    pub(crate) entries: u64,
    pub(crate) index: &'static str,
    pub(crate) filter: &'static str,
    pub(crate) spread: Option<Spread>,
    pub(crate) sections: Vec<NamedPlace, A>,
    pub(crate) blocks: Vec<Place, A>,
}

fn stat_file<A: Allocator + Copy, W: Write>(
    alloc: A,
    output: &mut W,
    file: &NamedTable<'_, A>,
    format: Format,
) -> Result<(), ToolError<'static>> {
    let parts = parts_of(alloc, &file.table)?;
    match format {
        Format::Lines => print_text(alloc, output, file, &parts),
        Format::Json => {
            let text = object_of(alloc, file, &parts)?;
            Ok(output.write_all(&text)?)
        }
    }
}

fn parts_of<A: Allocator + Copy>(alloc: A, table: &Table<A>) -> Result<Parts<A>, Error> {
    let keys = number_of(table, ItemName::KeyCount)?.unwrap_or(0);
    let filter_bytes = filter_bytes(table)?;
    let spread = match table.regions.filter {
        Some(_) => spread_of(filter_bytes, keys),
        None => None,
    };
    let sections = sections_of(alloc, table)?;
    let blocks = blocks_of(alloc, table)?;
    Ok(Parts {
        size: table.file_len() as u64,
        entries: table.metadata.item_count,
        index: kind_of(table.regions.index.is_some()),
        filter: filter_of(&table.regions),
        spread,
        sections,
        blocks,
    })
}

/// Returns the value of a meta item, if the table has it.
///
/// # Errors
///
/// Fails as loading the meta block does.
pub(crate) fn item_of<A: Allocator + Copy>(
    table: &Table<A>,
    item: ItemName,
) -> Result<Option<Slice<A>>, Error> {
    match table.meta_item(item) {
        Ok(value) => Ok(Some(value)),
        Err(Error::MetaKeyMissing) => Ok(None),
        Err(error) => Err(error),
    }
}

// Returns the number of a meta item, if the table has it.
fn number_of<A: Allocator + Copy>(table: &Table<A>, item: ItemName) -> Result<Option<u64>, Error> {
    match item_of(table, item)? {
        Some(value) => Ok(little_endian(value.as_slice())),
        None => Ok(None),
    }
}

fn kind_of(has_partitions: bool) -> &'static str {
    if has_partitions {
        "partitioned"
    } else {
        "full"
    }
}

fn filter_of(regions: &ParsedRegions) -> &'static str {
    match regions.filter {
        Some(_) => kind_of(regions.filter_tli.is_some()),
        None => "none",
    }
}

// Returns the bytes of bits of the filter. Each of its blocks also has a header and a byte with the
// number of probes.
fn filter_bytes<A: Allocator + Copy>(table: &Table<A>) -> Result<u64, Error> {
    let blocks = number_of(table, ItemName::BlockCountFilter)?.unwrap_or(1);
    let beside = blocks.saturating_mul(Header::serialized_len() as u64 + 1);
    Ok(u64::from(table.filter_size()).saturating_sub(beside))
}

fn print_text<A: Allocator + Copy, W: Write>(
    alloc: A,
    output: &mut W,
    file: &NamedTable<'_, A>,
    parts: &Parts<A>,
) -> Result<(), ToolError<'static>> {
    let (name, size) = (Escaped(file.name), parts.size);
    writeln!(output, "{name}: {size} bytes")?;
    print_items(alloc, output, &file.table, &ITEMS)?;
    print_summary(output, parts)?;
    output.write_all(b"sections           offset        bytes   share\n")?;
    print_sections(output, &parts.sections, size)?;
    print_data(output, parts.blocks.len() as u64, parts.entries)?;
    Ok(print_blocks(output, &parts.blocks, size)?)
}

// Writes the meta items that the table has, one on each line.
fn print_items<A: Allocator + Copy, W: Write>(
    alloc: A,
    output: &mut W,
    table: &Table<A>,
    items: &[(ItemName, Shown)],
) -> Result<(), ToolError<'static>> {
    for (item, shown) in items {
        if let Some(value) = item_of(table, *item)? {
            print_item(alloc, output, *item, value.as_slice(), *shown)?;
        }
    }
    Ok(())
}

// Writes a meta item as a number, or else as a word.
fn print_item<A: Allocator + Copy, W: Write>(
    alloc: A,
    output: &mut W,
    item: ItemName,
    value: &[u8],
    shown: Shown,
) -> Result<(), ToolError<'static>> {
    let name = item_name(item);
    write!(output, "  {name:<26} ")?;
    if let Some(number) = number_shown(value, shown) {
        return Ok(writeln!(output, "{number}")?);
    }
    let text = append_bytes(Vec::new(alloc), value)?;
    output.write_all(&text)?;
    Ok(output.write_all(b"\n")?)
}

/// Returns the name of a meta item in a file.
pub(crate) fn item_name(item: ItemName) -> &'static str {
    str::from_utf8(item.key()).unwrap_or("of no name")
}

/// Returns the number to print for a value, if it is a number.
pub(crate) fn number_shown(value: &[u8], shown: Shown) -> Option<u64> {
    match shown {
        Shown::Number => little_endian(value),
        Shown::Bytes => None,
    }
}

// Writes the kinds, the bits of the filter for each key in tenths, and the share of keys that pass
// in hundredths of a percent.
fn print_summary<A: Allocator, W: Write>(output: &mut W, parts: &Parts<A>) -> io::Result<()> {
    let (index, filter) = (parts.index, parts.filter);
    writeln!(output, "index {index}, filter {filter}")?;
    let Some(spread) = parts.spread else {
        return Ok(());
    };
    let (bits, tenths) = (spread.tenths / 10, spread.tenths % 10);
    let (percent, rest) = (spread.passed / 10_000, spread.passed % 10_000 / 100);
    write!(output, "filter {bits}.{tenths} bits per key, about ")?;
    writeln!(output, "{percent}.{rest:02} % false positives")
}

// Writes the number of data blocks, and the entries of a block in tenths.
fn print_data<W: Write>(output: &mut W, count: u64, entries: u64) -> io::Result<()> {
    let tenths = entries.saturating_mul(10).checked_div(count).unwrap_or(0);
    let (each, rest) = (tenths / 10, tenths % 10);
    let word = if tenths == 10 { "entry" } else { "entries" };
    writeln!(output, "data blocks {count}, {each}.{rest} {word} each")
}
