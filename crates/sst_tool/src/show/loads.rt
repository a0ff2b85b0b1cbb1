//! The blocks that a point read loads.
use crate::files::{BlockPlace, Escaped, section_name};
use crate::show::blocks::{handles_in, source_of};
use crate::show::members::{line_of, write_number, write_text};
use json::Writer;
use lsm_readers::{ParsedRegions, Table};
use lsm_sorted::Ranged;
use sst_blocks::{BlockHandle, BlockSource, Error, Opened, SectionName, SeqNo};
use std::alloc::{AllocError, Allocator, Global};
use std::io::{self, Write};

/// The blocks that a point read loads from a table.
#[derive(Drop)]
pub(crate) struct TableLoads<A: Allocator = Global> {
    /// The number of blocks of each kind.
    pub(crate) opened: Opened,
    /// The positions of those of the filter, the index and the data.
    pub(crate) places: Vec<BlockPlace, A>,
}

/// The blocks that a point read loads from a file.
#[derive(Drop)]
pub(crate) struct FileLoads<'a, A: Allocator = Global> {
    /// The name of the file, as given.
    pub(crate) name: &'a str,
    /// The blocks.
    pub(crate) loaded: TableLoads<A>,
}

/// Returns what a point read at a snapshot loads from a table.
///
/// # Errors
///
/// Fails only if memory runs out.
pub(crate) fn loaded_by<A: Allocator + Copy>(
    alloc: A,
    table: &Table<A>,
    key: &[u8],
    seqno: SeqNo,
) -> Result<TableLoads<A>, Error> {
    let opened = loads_of_read(table, key, seqno)?;
    let low = seqno.saturating_sub(table.global_seqno());
    let asked = asked_places(alloc, table, key, low)?;
    let places = places_of_loads(alloc, opened, &asked)?;
    Ok(TableLoads { opened, places })
}

// Returns the number of loads, which is zero if the key range does not have the key. Fails only if
// memory runs out, since then not all is loaded.
fn loads_of_read<A: Allocator + Copy>(
    table: &Table<A>,
    key: &[u8],
    seqno: SeqNo,
) -> Result<Opened, Error> {
    if !table.key_range().contains_key(key) {
        return Ok(Opened::none());
    }
    let (found, opened) = table.get_counted(key, seqno, Table::<A>::key_hash(key));
    match found {
        Err(Error::OutOfMemory) => Err(Error::OutOfMemory),
        _ => Ok(opened),
    }
}

// Returns the positions of the blocks that were loaded.
fn places_of_loads<A: Allocator + Copy>(
    alloc: A,
    opened: Opened,
    asked: &AskedPlaces,
) -> Result<Vec<BlockPlace, A>, AllocError> {
    let mut places = Vec::new(alloc);
    add_loaded(
        &mut places,
        SectionName::Filter,
        opened.filter_loads,
        asked.filter,
    )?;
    add_loaded(
        &mut places,
        asked.index_section,
        opened.index_loads,
        asked.index,
    )?;
    add_loaded(
        &mut places,
        SectionName::Data,
        opened.data_loads,
        asked.data,
    )?;
    Ok(places)
}

// Adds a block, if one was loaded and its handle is known.
fn add_loaded<A: Allocator>(
    places: &mut Vec<BlockPlace, A>,
    section: SectionName,
    loads: u64,
    place: Option<BlockHandle>,
) -> Result<(), AllocError> {
    match place {
        Some(place) if loads > 0 => {
            let offset = place.offset().0;
            places.push(BlockPlace { section, offset })?;
            Ok(())
        }
        _ => Ok(()),
    }
}

// The blocks on the path of a point read.
#[derive(Clone, Copy)]
struct AskedPlaces {
    // the block of the filter
    filter: Option<BlockHandle>,
    // the block of the index: a partition, or the only block of a full index
    index: Option<BlockHandle>,
    // the section of that block
    index_section: SectionName,
    // the data block
    data: Option<BlockHandle>,
}

// Returns the blocks on the path of a point read, at a snapshot in stored sequence numbers. Fails
// only if memory runs out.
fn asked_places<A: Allocator + Copy>(
    alloc: A,
    table: &Table<A>,
    key: &[u8],
    seqno: SeqNo,
) -> Result<AskedPlaces, Error> {
    let source = source_of(alloc, table)?;
    let asked = asked_in(&source, &table.regions, key, seqno);
    drop(source);
    asked
}

// Returns the blocks of these regions on the path of a point read. Fails only if memory runs out.
fn asked_in<A: Allocator + Copy>(
    source: &BlockSource<A>,
    regions: &ParsedRegions,
    key: &[u8],
    seqno: SeqNo,
) -> Result<AskedPlaces, Error> {
    let filter = filter_place(source, regions, key)?;
    let index = index_place(source, regions, key, seqno)?;
    let data = data_place(source, &index, key, seqno)?;
    Ok(AskedPlaces {
        filter,
        index,
        index_section: index_section(regions),
        data,
    })
}

// Returns the section of the index block on the path.
fn index_section(regions: &ParsedRegions) -> SectionName {
    if regions.index.is_some() {
        SectionName::Index
    } else {
        SectionName::Tli
    }
}

// Returns the filter block for a key. Fails only if memory runs out.
fn filter_place<A: Allocator + Copy>(
    source: &BlockSource<A>,
    regions: &ParsedRegions,
    key: &[u8],
) -> Result<Option<BlockHandle>, Error> {
    match regions.filter_tli {
        None => Ok(regions.filter),
        Some(tops) => reached(source, &tops, key, SeqNo::MAX),
    }
}

// Returns the index block that has the handle of the data block. Fails only if memory runs out.
fn index_place<A: Allocator + Copy>(
    source: &BlockSource<A>,
    regions: &ParsedRegions,
    key: &[u8],
    seqno: SeqNo,
) -> Result<Option<BlockHandle>, Error> {
    let tli = regions.tli;
    if regions.index.is_none() {
        return Ok(Some(tli));
    }
    reached(source, &tli, key, seqno)
}

// Returns the data block that an index block names, if there is one. Fails only if memory runs out.
fn data_place<A: Allocator + Copy>(
    source: &BlockSource<A>,
    index: &Option<BlockHandle>,
    key: &[u8],
    seqno: SeqNo,
) -> Result<Option<BlockHandle>, Error> {
    match index {
        None => Ok(None),
        Some(place) => reached(source, place, key, seqno),
    }
}

// Returns the first handle in a block that reaches a key and sequence number. Returns `None` if the
// block does not load. Fails only if memory runs out.
fn reached<A: Allocator + Copy>(
    source: &BlockSource<A>,
    place: &BlockHandle,
    key: &[u8],
    seqno: SeqNo,
) -> Result<Option<BlockHandle>, Error> {
    match handles_in(source, place)? {
        Some(handles) => Ok(handles.find(key, seqno)),
        None => Ok(None),
    }
}

/// Writes the loaded blocks of a file as a line of text.
pub(crate) fn print_words<A: Allocator, W: Write>(
    output: &mut W,
    file: &FileLoads<'_, A>,
) -> io::Result<()> {
    let (name, opened) = (Escaped(file.name), file.loaded.opened);
    let (data, index) = (opened.data_loads, opened.index_loads);
    let (filter, meta) = (opened.filter_loads, opened.meta_loads);
    write!(
        output,
        "{name}: loaded data {data}, index {index}, filter {filter}, meta {meta}"
    )?;
    for place in &file.loaded.places {
        write!(output, "; {place}")?;
    }
    output.write_all(b"\n")
}

/// Returns the loaded blocks of a file as a line with a JSON object.
///
/// # Errors
///
/// Fails only if memory runs out.
pub(crate) fn object_of<A: Allocator + Copy>(
    alloc: A,
    file: &FileLoads<'_, A>,
) -> Result<Vec<u8, A>, AllocError> {
    let mut writer = Writer::new(Vec::new(alloc));
    writer.begin_object()?;
    write_text(&mut writer, "name", file.name)?;
    writer.key("loaded")?;
    write_counts(&mut writer, file.loaded.opened)?;
    writer.key("blocks")?;
    writer.begin_array()?;
    for place in &file.loaded.places {
        write_place(&mut writer, *place)?;
    }
    writer.end_array()?;
    writer.end_object()?;
    line_of(writer)
}

fn write_counts<A: Allocator>(writer: &mut Writer<A>, opened: Opened) -> Result<(), AllocError> {
    writer.begin_object()?;
    write_number(writer, "data", opened.data_loads)?;
    write_number(writer, "index", opened.index_loads)?;
    write_number(writer, "filter", opened.filter_loads)?;
    write_number(writer, "meta", opened.meta_loads)?;
    writer.end_object()
}

fn write_place<A: Allocator>(writer: &mut Writer<A>, place: BlockPlace) -> Result<(), AllocError> {
    writer.begin_object()?;
    write_text(writer, "section", section_name(place.section))?;
    write_number(writer, "offset", place.offset)?;
    writer.end_object()
}
