//! Blocks from exactly their bytes.
ghost use Rattle.std.specs.Prelude.{◌≡◌, ◌+◌, ◌<◌, ◌≤◌, ◌^◌, ℕ, List, length};
ghost use Rattle.std.specs.Prelude.{slice_range, IfErr, OnOk, Err, Some, true};
ghost use Rattle.sst_blocks.specs.Words as spec;

use crate::block::{Header, PayloadRange, has_room, payload_range};
use crate::{Block, BlockType, Error, Slice, has_hash};
use std::alloc::Allocator;

impl<A: Allocator + Clone> Block<A> {
    /// Decodes a block of a kind from exactly its bytes, header included.
    ///
    /// It makes the checks of [`BlockSource::load`] in the same order. So the bytes at a handle
    /// decode to what a load of that handle returns.
    ///
    /// # Errors
    ///
    /// Fails as [`BlockSource::load`], with [`Error::Truncated`] if there are fewer bytes than a
    /// header has. [`Error::OutOfMemory`] hides only the errors that it can hide there.
    ///
    /// [`BlockSource::load`]: crate::BlockSource::load
    pub fn decode(alloc: A, kind: BlockType, bytes: Slice<A>) -> Result<Block<A>, Error>
        ensures returned { spec.Gives (λ (b : spec.Loaded). b) result
            (spec.decode_block kind bytes) }
        // Faults in the length, header, checksum or count come before any `OutOfMemory`.
        ensures first { spec.FaultsFirst result (spec.decode_fault kind bytes) }
        // The bytes at an offset in a body decode to what a load there returns.
        ensures placed { (body : List ℕ) (offset : ℕ) → offset + length bytes ≤ length body →
            bytes ≡ slice_range body offset (offset + length bytes) →
            spec.Gives (λ (b : spec.Loaded). b) result
            (spec.load_result body offset (length bytes) kind) }
    {
        let range = payload_range(bytes.as_slice(), 0, bytes.len(), kind)?;
        open_range(alloc, kind, &bytes, &range)
    }
}

/// Opens the block whose header was read.
///
/// # Errors
///
/// Fails with the first fault in the checksum, the count or the grammar, or with
/// [`Error::OutOfMemory`].
fn open_range<A: Allocator + Clone>(
    alloc: A,
    kind: BlockType,
    bytes: &Slice<A>,
    range: &PayloadRange,
) -> Result<Block<A>, Error>
    requires ordered { range.now.start ≤ range.now.end }
    requires within { range.now.end ≤ length bytes.now }
    requires short { range.now.end < range.now.start + 2 ^ 32 }
    ensures returned { let payload = slice_range bytes.now range.now.start range.now.end in
        let header = range.now.header in
        spec.Gives (λ (b : spec.Loaded). b) result
        (spec.checked_payload header.version header.checksum kind payload) }
    ensures first { let payload = slice_range bytes.now range.now.start range.now.end in
        let header = range.now.header in
        spec.FaultsFirst result (spec.option_or (spec.checksum_fault header.checksum payload)
        (spec.room_fault header.version kind payload)) }
{
    check_payload(bytes.as_slice(), kind, range)?;
    let payload = bytes.slice(range.start, range.end)?;
    Block::open(alloc, range.header.version, kind, payload, false)
}

/// Checks the checksum and the count of a payload.
///
/// # Errors
///
/// Fails with [`Error::ChecksumMismatch`] or [`Error::InvalidBlock`].
fn check_payload(bytes: &[u8], kind: BlockType, range: &PayloadRange) -> Result<(), Error>
    requires ordered { range.now.start ≤ range.now.end }
    requires within { range.now.end ≤ length bytes.now }
    ensures sum { let payload = slice_range bytes.now range.now.start range.now.end in
        OnOk result (spec.fnv1a payload ≡ range.now.header.checksum) }
    ensures room { let payload = slice_range bytes.now range.now.start range.now.end in
        OnOk result (spec.has_room range.now.header.version kind payload ≡ true) }
    ensures returned { let payload = slice_range bytes.now range.now.start range.now.end in
        let header = range.now.header in
        IfErr result (λ e. spec.checked_payload header.version header.checksum kind payload
        ≡ Err e) }
    ensures first { let payload = slice_range bytes.now range.now.start range.now.end in
        let header = range.now.header in
        IfErr result (λ e. spec.option_or (spec.checksum_fault header.checksum payload)
        (spec.room_fault header.version kind payload) ≡ Some e) }
{
    let payload = &bytes[range.start..range.end];
    if !has_hash(payload, range.header.checksum) {
        return Err(Error::ChecksumMismatch);
    }
    if !has_room(range.header.version, kind, payload) {
        return Err(Error::InvalidBlock);
    }
    Ok(())
}

/// Returns the size in bytes that a block's header stores, header included.
///
/// `head` is the header, [`Header::serialized_len`] bytes.
///
/// # Errors
///
/// Fails with the first fault of the header that a load of the block reports: in its magic number,
/// its reserved bytes, its kind, its compression or its lengths.
///
/// [`Header::serialized_len`]: crate::Header::serialized_len
pub fn block_size(head: &[u8], kind: BlockType) -> Result<u64, Error>
    requires { length head.now ≡ spec.header_len }
    ensures { result ≡ spec.head_size kind head.now }
{
    let header = Header::decode(head, kind)?;
    if header.data_len != header.uncompressed_len {
        return Err(Error::InvalidHeader);
    }
    Ok(u64::from(Header::LEN) + u64::from(header.data_len))
}
