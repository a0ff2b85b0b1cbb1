//! The bytes of tables: written blocks and changed bytes.
ghost use Rattle.std.specs.Prelude.{◌≡◌, []};

use sst_blocks::{
    Block, BlockHandle, BlockOffset, BlockSource, BlockType, CompressionType, Error, SectionName,
    SectionWriter, Slice, hash,
};
use std::alloc::{Allocator, Global};

/// A block at an offset, of this size including the header.
pub(crate) fn handle(offset: u64, size: u32) -> BlockHandle {
    BlockHandle::new(BlockOffset(offset), size)
}

fn change(bytes: &mut [u8], changes: &[(usize, u8)]) {
    for (at, value) in changes {
        if let Some(byte) = bytes.get_mut(*at) {
            *byte = *value;
        }
    }
}

/// A copy of some bytes, with these changes: index and new value.
pub(crate) fn changed_bytes<A: Allocator + Copy>(
    alloc: A,
    bytes: &[u8],
    changes: &[(usize, u8)],
) -> Result<Slice<A>, Error> {
    let mut bytes = Vec::from_slice(alloc, bytes)?;
    change(&mut bytes, changes);
    Ok(Slice::from_vec(bytes)?)
}

/// A source of some bytes, with these changes: index and new value.
pub(crate) fn changed(
    alloc: Global,
    bytes: &[u8],
    changes: &[(usize, u8)],
) -> Result<BlockSource, Error> {
    BlockSource::new(alloc, changed_bytes(alloc, bytes, changes)?)
}

/// The result of a writer's last call, the bytes and their checksum.
pub(crate) fn finished<T: Drop, A: Allocator + Copy>(
    writer: SectionWriter<A>,
    written: Result<T, Error>,
) -> Result<(T, Slice<A>, u128), Error> {
    let written = written?;
    let (bytes, checksum) = writer.finish()?;
    Ok((written, bytes, checksum.0))
}

/// A kind, a payload, and the offset and size of the block that is written.
pub(crate) type Written<'a> = (BlockType, &'a [u8], u64, u32);

fn write_block(
    writer: &mut SectionWriter,
    kind: BlockType,
    payload: &[u8],
) -> Result<BlockHandle, Error> {
    if payload.len() > 5_000 {
        return Err(Error::BlockTooLarge);
    }
    Block::write_into(writer, payload, kind, CompressionType::None)
}

// Writes a section of these blocks, and returns whether each is at its offset.
fn write(
    writer: &mut SectionWriter,
    name: SectionName,
    blocks: &[Written<'_>],
) -> Result<bool, Error>
    requires { writer.old.started ≡ [] }
{
    writer.start(name)?;
    let mut lie_so = true;
    for &(kind, payload, offset, size) in blocks {
        lie_so &= write_block(writer, kind, payload)? == handle(offset, size);
    }
    Ok(lie_so)
}

/// A table of these blocks alone, with some bytes changed. Fails with [`Error::Source`] if a block
/// is at another offset, or if the checksum is not the hash of all bytes written.
pub(crate) fn table_of(
    alloc: Global,
    name: SectionName,
    blocks: &[Written<'_>],
    changes: &[(usize, u8)],
) -> Result<BlockSource, Error> {
    let mut writer = SectionWriter::new(alloc)?;
    let written = write(&mut writer, name, blocks);
    let (lie_so, bytes, checksum) = finished(writer, written)?;
    if !lie_so || checksum != u128::from(hash(bytes.as_slice())) {
        return Err(Error::Source(0));
    }
    changed(alloc, bytes.as_slice(), changes)
}
