//! The blocks of a table, in the order of a verification, and their load errors.
use crate::files::{BlockPlace, RefusedAt};
use lsm_readers::{ParsedRegions, Table, TableInner};
use sst_blocks::{BlockHandle, BlockSource, BlockType, Error, IndexBlock, Opened, SectionName};
use std::alloc::Allocator;

/// A block of a table.
#[derive(Clone, Copy)]
pub(crate) struct NamedBlock {
    /// The section of the block.
    pub(crate) section: SectionName,
    /// The kind that it must have.
    pub(crate) kind: BlockType,
    /// Its handle.
    pub(crate) place: BlockHandle,
}

impl NamedBlock {
    fn new(section: SectionName, kind: BlockType, place: BlockHandle) -> NamedBlock {
        NamedBlock {
            section,
            kind,
            place,
        }
    }

    /// Returns the position of the block.
    pub(crate) fn begin(&self) -> BlockPlace {
        BlockPlace {
            section: self.section,
            offset: self.place.offset().0,
        }
    }
}

/// Returns the block that an error comes from. It is the first block that fails to load with this
/// error, in the order of a verification: filter, index, data. The search ends if memory runs out.
pub fn refused_at<A: Allocator + Copy>(alloc: A, table: &Table<A>, refusal: &Error) -> RefusedAt {
    match first_refused(alloc, table, refusal) {
        Ok(Some(place)) => RefusedAt::Block(place),
        _ => RefusedAt::Unknown,
    }
}

// Returns the first block of a table that fails to load with this error.
fn first_refused<A: Allocator + Copy>(
    alloc: A,
    table: &Table<A>,
    refusal: &Error,
) -> Result<Option<BlockPlace>, Error> {
    let source = source_of(alloc, table)?;
    let inner: &TableInner<A> = table;
    let blocks = named_blocks(alloc, &source, inner)?;
    first_of(&source, &blocks, refusal)
}

// Returns the first of these blocks that fails to load with this error.
fn first_of<A: Allocator + Clone>(
    source: &BlockSource<A>,
    blocks: &[NamedBlock],
    refusal: &Error,
) -> Result<Option<BlockPlace>, Error> {
    for block in blocks {
        if is_refused_so(source, block, refusal)? {
            return Ok(Some(block.begin()));
        }
    }
    Ok(None)
}

// Whether a block fails to load with this error.
fn is_refused_so<A: Allocator + Clone>(
    source: &BlockSource<A>,
    block: &NamedBlock,
    refusal: &Error,
) -> Result<bool, Error> {
    match refusal_of(source, block)? {
        Some(error) => Ok(is_same(&error, refusal)),
        None => Ok(false),
    }
}

// Whether two errors are equal. A function of its own: each pair of variants is a case of the
// proof.
fn is_same(error: &Error, refusal: &Error) -> bool {
    error == refusal
}

/// Returns a source for the blocks of a table.
pub(crate) fn source_of<A: Allocator + Copy>(
    alloc: A,
    table: &Table<A>,
) -> Result<BlockSource<A>, Error> {
    BlockSource::new(alloc, table.bytes()?)
}

/// Lists the blocks of a table in the order of a verification: the filter, then each index block
/// followed by its data blocks. An index block that does not load has none.
pub(crate) fn named_blocks<A: Allocator + Copy>(
    alloc: A,
    source: &BlockSource<A>,
    inner: &TableInner<A>,
) -> Result<Vec<NamedBlock, A>, Error> {
    let mut blocks = Vec::new(alloc);
    match &inner.pinned_filter_index {
        Some(tops) => {
            let places = places_of(alloc, tops)?;
            add_each(&mut blocks, SectionName::Filter, BlockType::Filter, &places)?;
        }
        None => add_filter(&mut blocks, inner.regions.filter)?,
    }
    add_index(alloc, &mut blocks, source, &inner.regions)?;
    Ok(blocks)
}

/// Lists the blocks of a file that has these regions: the meta block, the top level of the filter,
/// and then those of [`named_blocks`].
pub(crate) fn region_blocks<A: Allocator + Copy>(
    alloc: A,
    source: &BlockSource<A>,
    regions: &ParsedRegions,
) -> Result<Vec<NamedBlock, A>, Error> {
    let mut blocks = Vec::new(alloc);
    blocks.push(NamedBlock::new(SectionName::Meta, BlockType::Meta, regions.metadata))?;
    match regions.filter_tli {
        Some(tops) => {
            let top = NamedBlock::new(SectionName::FilterTli, BlockType::Index, tops);
            blocks.push(top)?;
            let places = places_in(alloc, source, &tops)?;
            add_each(&mut blocks, SectionName::Filter, BlockType::Filter, &places)?;
        }
        None => add_filter(&mut blocks, regions.filter)?,
    }
    add_index(alloc, &mut blocks, source, regions)?;
    Ok(blocks)
}

// Adds the block of a full filter, if there is one.
fn add_filter<A: Allocator>(
    blocks: &mut Vec<NamedBlock, A>,
    filter: Option<BlockHandle>,
) -> Result<(), Error> {
    if let Some(place) = filter {
        let block = NamedBlock::new(SectionName::Filter, BlockType::Filter, place);
        blocks.push(block)?;
    }
    Ok(())
}

// Adds the blocks of the index, and the data blocks.
fn add_index<A: Allocator + Copy>(
    alloc: A,
    blocks: &mut Vec<NamedBlock, A>,
    source: &BlockSource<A>,
    regions: &ParsedRegions,
) -> Result<(), Error> {
    let tli = regions.tli;
    blocks.push(NamedBlock::new(SectionName::Tli, BlockType::Index, tli))?;
    let handles = places_in(alloc, source, &tli)?;
    if regions.index.is_none() {
        return add_each(blocks, SectionName::Data, BlockType::Data, &handles);
    }
    for place in &handles {
        blocks.push(NamedBlock::new(SectionName::Index, BlockType::Index, *place))?;
        let places = places_in(alloc, source, place)?;
        add_each(blocks, SectionName::Data, BlockType::Data, &places)?;
    }
    Ok(())
}

// Adds a block for each handle.
fn add_each<A: Allocator>(
    blocks: &mut Vec<NamedBlock, A>,
    section: SectionName,
    kind: BlockType,
    places: &[BlockHandle],
) -> Result<(), Error> {
    for place in places {
        blocks.push(NamedBlock::new(section, kind, *place))?;
    }
    Ok(())
}

// Returns the block handles of an index block.
fn places_of<A: Allocator + Copy>(
    alloc: A,
    handles: &IndexBlock<A>,
) -> Result<Vec<BlockHandle, A>, Error> {
    let mut places = Vec::new(alloc);
    for index in 0..handles.len() {
        places.push(handles.place_at(index))?;
    }
    Ok(places)
}

// Loads an index block and returns its block handles: none if it does not load.
fn places_in<A: Allocator + Copy>(
    alloc: A,
    source: &BlockSource<A>,
    place: &BlockHandle,
) -> Result<Vec<BlockHandle, A>, Error> {
    match handles_in(source, place)? {
        Some(handles) => places_of(alloc, &handles),
        None => Ok(Vec::new(alloc)),
    }
}

/// Loads an index block. Returns `None` if it does not load.
///
/// # Errors
///
/// Fails only if memory runs out.
pub(crate) fn handles_in<A: Allocator + Clone>(
    source: &BlockSource<A>,
    place: &BlockHandle,
) -> Result<Option<IndexBlock<A>>, Error> {
    let mut opened = Opened::none();
    match source.load(place, BlockType::Index, &mut opened) {
        Ok(block) => Ok(Some(IndexBlock::new(block))),
        Err(Error::OutOfMemory) => Err(Error::OutOfMemory),
        Err(_) => Ok(None),
    }
}

/// Loads a block and returns its error, if there is one.
///
/// # Errors
///
/// Fails only if memory runs out.
pub(crate) fn refusal_of<A: Allocator + Clone>(
    source: &BlockSource<A>,
    block: &NamedBlock,
) -> Result<Option<Error>, Error> {
    let mut opened = Opened::none();
    match source.load(&block.place, block.kind, &mut opened) {
        Ok(_) => Ok(None),
        Err(Error::OutOfMemory) => Err(Error::OutOfMemory),
        Err(error) => Ok(Some(error)),
    }
}
