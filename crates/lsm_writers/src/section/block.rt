//! Writing blocks of handles.
ghost use Rattle.std.specs.Prelude.{◌≡◌, ◌+◌, ◌<◌, ◌^◌, ◌++◌, ◌∷◌, [], length, take, All};
ghost use Rattle.std.specs.Prelude.{IfOk, IfErr, OnOk, OnErr};
ghost use Rattle.lsm_writers.specs.Words as spec;

use sst_blocks::{
    Block, BlockHandle, BlockType, CompressionType, Error, IndexBlock, KeyedBlockHandle,
    SectionName, SectionWriter,
};
use std::alloc::Allocator;

/// Appends one block of these handles, and returns its handle. `buffer` is scratch memory for the
/// payload. Fails if the block is too large, or with [`Error::OutOfMemory`]; nothing is written
/// then.
pub(crate) fn write_block<A: Allocator + Clone>(
    writer: &mut SectionWriter<A>,
    handles: &[KeyedBlockHandle<A>],
    buffer: &mut Vec<u8, A>,
    compression: CompressionType,
) -> Result<BlockHandle, Error>
    requires { spec.AreStrictHandles handles.now }
    ensures ok { let bytes = writer.old.bytes ++ spec.handles_block spec.V4 handles.now in
        OnOk result (writer.new ≡ record writer.old { bytes = bytes }) }
    ensures place { let size = spec.header_len + length
        (spec.handles_payload spec.V4 handles.now) in
        IfOk result (λ h. h ≡ record { offset = length writer.old.bytes; size = size }) }
    ensures bound { let size = length (spec.handles_block spec.V4 handles.now) in
        OnOk result (size ≡ spec.index_block_bound_of handles.now) }
    ensures short { OnOk result (length (spec.handles_block spec.V4 handles.now) < 2 ^ 32) }
    ensures unchanged { OnErr result (writer.new ≡ writer.old) }
    ensures refused { spec.Faults result (spec.handles_fault handles.now) }
{
    buffer.clear();
    IndexBlock::encode_into(buffer, handles)?;
    Block::write_into(writer, buffer, BlockType::Index, compression)
}

/// Writes a section of one block of these handles: the top level, or a full index. Its errors are
/// those of [`write_block`]; the bytes written before stay.
pub(crate) fn write_top_level<A: Allocator + Clone>(
    writer: &mut SectionWriter<A>,
    handles: &[KeyedBlockHandle<A>],
    buffer: &mut Vec<u8, A>,
    compression: CompressionType,
) -> Result<(), Error>
    requires unwritten { All (λ s. spec.slot_index s.0 ≡ 2 → ⊥) writer.old.started }
    requires strict { spec.AreStrictHandles handles.now }
    ensures ok { OnOk result (writer.new ≡
        spec.appended writer.old ((spec.Tli, spec.handles_block spec.V4 handles.now) ∷ [])) }
    ensures short { OnOk result
        (spec.SectionFits (spec.Tli, spec.handles_block spec.V4 handles.now)) }
    ensures before { take (length writer.old.bytes) writer.new.bytes ≡ writer.old.bytes }
    ensures refused { spec.Faults result (spec.handles_fault handles.now) }
{
    writer.start(SectionName::Tli)?;
    write_block(writer, handles, buffer, compression)?;
    Ok(())
}

/// Writes the section of a top level without handles. The payload is a constant, so only the
/// section writer allocates. Fails only with [`Error::OutOfMemory`]; no byte is written then.
pub(crate) fn write_empty_top_level<A: Allocator + Clone>(
    writer: &mut SectionWriter<A>,
    compression: CompressionType,
) -> Result<(), Error>
    requires { All (λ s. spec.slot_index s.0 ≡ 2 → ⊥) writer.old.started }
    ensures ok { OnOk result (writer.new ≡
        spec.appended writer.old ((spec.Tli, spec.handles_block spec.V4 []) ∷ [])) }
    ensures bytes { OnErr result (writer.new.bytes ≡ writer.old.bytes) }
    ensures err { IfErr result (λ e. e ≡ spec.OutOfMemory) }
{
    writer.start(SectionName::Tli)?;
    Block::write_into(writer, &[0, 0, 0, 0], BlockType::Index, compression)?;
    Ok(())
}
