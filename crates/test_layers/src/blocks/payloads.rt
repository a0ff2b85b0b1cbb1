//! Blocks of payloads that tests write byte by byte.
ghost use Rattle.std.specs.Prelude.{◌≡◌, []};

use sst_blocks::{
    Block, BlockSource, BlockType, DataBlock, Error, IndexBlock, Opened, SectionName,
    SectionWriter, TableVersion, TagName, hash,
};
use std::alloc::Allocator;

/// Returns `value`, or the error in `done`.
pub(crate) fn once_done<T: Drop, E>(value: T, done: Result<(), E>) -> Result<T, E> {
    done?;
    Ok(value)
}

// The header of a block of either version: magic number, kind, length twice, and hash of the
// payload.
fn header(version: TableVersion, kind: BlockType, payload: &[u8]) -> [[u8; 4]; 6] {
    let len = u32::try_from(payload.len())
        .unwrap_or(u32::MAX)
        .to_le_bytes();
    let [a, b, c, d, e, f, g, h] = hash(payload).to_le_bytes();
    [
        version.mark(),
        [kind.tag(), 0, 0, 0],
        len,
        len,
        [a, b, c, d],
        [e, f, g, h],
    ]
}

// Starts a section with a block of this header and this payload.
fn write<A: Allocator + Copy>(
    writer: &mut SectionWriter<A>,
    header: &[[u8; 4]],
    payload: &[u8],
) -> Result<(), Error>
    requires { writer.old.started ≡ [] }
{
    writer.start(SectionName::Data)?;
    for part in header {
        writer.append(part)?;
    }
    writer.append(payload)
}

/// A table of this payload alone.
pub(crate) fn source_of<A: Allocator + Copy>(
    alloc: A,
    version: TableVersion,
    kind: BlockType,
    payload: &[u8],
) -> Result<BlockSource<A>, Error> {
    let mut writer = SectionWriter::new(alloc)?;
    let written = write(&mut writer, &header(version, kind, payload), payload);
    let (bytes, _) = once_done(writer, written)?.finish()?;
    BlockSource::new(alloc, bytes)
}

// The block loaded from a table of this payload alone.
fn load<A: Allocator + Copy>(
    alloc: A,
    version: TableVersion,
    kind: BlockType,
    payload: &[u8],
) -> Result<Block<A>, Error> {
    let source = source_of(alloc, version, kind, payload)?;
    let block = source.load_at(0, kind, &mut Opened::none());
    drop(source);
    block
}

pub(crate) fn data_block<A: Allocator + Copy>(
    alloc: A,
    version: TableVersion,
    payload: &[u8],
) -> Result<DataBlock<A>, Error> {
    let block = load(alloc, version, BlockType::Data, payload)?;
    match block.kind() {
        BlockType::Data => Ok(DataBlock::new(block)),
        _ => {
            drop(block);
            Err(Error::InvalidTag(TagName::BlockType, 0))
        }
    }
}

pub(crate) fn index_block<A: Allocator + Copy>(
    alloc: A,
    version: TableVersion,
    payload: &[u8],
) -> Result<IndexBlock<A>, Error> {
    let block = load(alloc, version, BlockType::Index, payload)?;
    match block.kind() {
        BlockType::Index => Ok(IndexBlock::new(block)),
        _ => {
            drop(block);
            Err(Error::InvalidTag(TagName::BlockType, 1))
        }
    }
}
