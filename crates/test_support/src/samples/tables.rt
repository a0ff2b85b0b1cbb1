//! Opens tables, changes their bytes and reads from them, for tests.
use lsm_tables::table::Table;
use sst_blocks::{
    Block, BlockHandle, BlockSource, BlockType, Checksum, DataBlock, Error, Opened, SeqNo, Slice,
};
use std::alloc::Allocator;

/// The table of some bytes, with filter and index pinned.
pub fn open<A: Allocator + Clone>(
    alloc: A,
    bytes: Slice<A>,
    global_seqno: SeqNo,
) -> Result<Table<A>, Error> {
    Table::recover(alloc, bytes, Checksum(0), global_seqno, 0, true, true)
}

/// The sequence number that a read finds, if any, and the number of data blocks that it loads.
pub fn read<A: Allocator + Clone>(
    table: &Table<A>,
    key: &[u8],
    seqno: SeqNo,
) -> (Result<Option<SeqNo>, Error>, u64) {
    let (found, opened) = table.get_counted(key, seqno, Table::<A>::key_hash(key));
    let found = match found {
        Ok(Some(item)) => Ok(Some(item.key.seqno)),
        Ok(None) => Ok(None),
        Err(error) => Err(error),
    };
    (found, opened.data_loads)
}

/// Some bytes, of which some ranges are overwritten: their offset, and the new bytes.
pub fn overwritten<A: Allocator + Clone>(
    alloc: A,
    bytes: &[u8],
    changes: &[(usize, &[u8])],
) -> Result<Slice<A>, Error> {
    let mut bytes = Vec::from_slice(alloc, bytes)?;
    for (from, written) in changes {
        for (i, byte) in written.iter().enumerate() {
            if let Some(place) = bytes.get_mut(from.saturating_add(i)) {
                *place = *byte;
            }
        }
    }
    Slice::from_vec(bytes)
}

// The entries of a block, if its kind has entries.
fn entries_of<A: Allocator>(block: Block<A>) -> Result<DataBlock<A>, Error> {
    match block.kind() {
        BlockType::Data | BlockType::Meta => Ok(DataBlock::new(block)),
        BlockType::Index | BlockType::Filter => Err(Error::Source(2)),
    }
}

/// The entries of a data block or of a meta block.
pub fn load_entries<A: Allocator + Clone>(
    source: &BlockSource<A>,
    handle: &BlockHandle,
    kind: BlockType,
    opened: &mut Opened,
) -> Result<DataBlock<A>, Error> {
    entries_of(source.load(handle, kind, opened)?)
}
