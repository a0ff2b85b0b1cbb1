//! The metadata of a table as a JSON object.
use crate::lines::write_bytes;
use crate::show::NamedTable;
use crate::show::facts::{ITEMS, Place, Shown};
use crate::show::members::{line_of, write_number, write_text};
use crate::show::stats::{Parts, item_name, item_of, number_shown};
use json::Writer;
use lsm_readers::Table;
use sst_blocks::{Error, ItemName};
use std::alloc::{AllocError, Allocator};

/// Returns the object with a newline.
pub(crate) fn object_of<A: Allocator + Copy>(
    alloc: A,
    file: &NamedTable<'_, A>,
    parts: &Parts<A>,
) -> Result<Vec<u8, A>, Error> {
    let mut writer = Writer::new(Vec::new(alloc));
    writer.begin_object()?;
    write_text(&mut writer, "name", file.name)?;
    write_number(&mut writer, "bytes", parts.size)?;
    writer.key("meta")?;
    write_items(alloc, &mut writer, &file.table, &ITEMS)?;
    write_parts(&mut writer, parts)?;
    writer.end_object()?;
    Ok(line_of(writer)?)
}

// Writes an object of the meta items that the table has.
fn write_items<A: Allocator + Copy>(
    alloc: A,
    writer: &mut Writer<A>,
    table: &Table<A>,
    items: &[(ItemName, Shown)],
) -> Result<(), Error> {
    writer.begin_object()?;
    for (item, shown) in items {
        if let Some(value) = item_of(table, *item)? {
            write_item(alloc, writer, *item, value.as_slice(), *shown)?;
        }
    }
    Ok(writer.end_object()?)
}

// Writes an item as a number, or else as bytes.
fn write_item<A: Allocator + Copy>(
    alloc: A,
    writer: &mut Writer<A>,
    item: ItemName,
    value: &[u8],
    shown: Shown,
) -> Result<(), AllocError> {
    writer.key(item_name(item))?;
    match number_shown(value, shown) {
        Some(number) => writer.u64(number),
        None => write_bytes(alloc, writer, value),
    }
}

// Writes the kinds, the filter, the sections and the data blocks.
fn write_parts<A: Allocator>(writer: &mut Writer<A>, parts: &Parts<A>) -> Result<(), AllocError> {
    write_text(writer, "index", parts.index)?;
    write_text(writer, "filter", parts.filter)?;
    if let Some(spread) = parts.spread {
        write_number(writer, "filter_bits_per_key_tenths", spread.tenths)?;
        write_number(writer, "false_positives_per_million", spread.passed)?;
    }
    writer.key("sections")?;
    writer.begin_array()?;
    for section in &parts.sections {
        writer.begin_object()?;
        write_text(writer, "name", section.name)?;
        write_place(writer, section.place)?;
    }
    writer.end_array()?;
    writer.key("blocks")?;
    writer.begin_array()?;
    for block in &parts.blocks {
        writer.begin_object()?;
        write_place(writer, *block)?;
    }
    writer.end_array()
}

// Writes offset and length of a range, and ends its object.
fn write_place<A: Allocator>(writer: &mut Writer<A>, place: Place) -> Result<(), AllocError> {
    write_number(writer, "offset", place.offset)?;
    write_number(writer, "bytes", place.size)?;
    writer.end_object()
}
