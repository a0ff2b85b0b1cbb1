//! Blocks: a checksummed payload of one kind.
ghost use Rattle.std.specs.Prelude.{◌≡◌, ◌+◌, ◌++◌, ◌<◌, ◌^◌, List, Ok, true, length, IsTrue, IfOk};
ghost use Rattle.std.specs.Prelude.{IfErr, OnOk, OnErr};
ghost use Rattle.sst_blocks.specs.Words as spec;

mod decode;
mod header;
mod range;

use crate::data_block::entry_head_len;
use crate::index_block::{HandleRef, handle_head_len};
use crate::reading::starts_in;
use crate::starts::{Starts, has_room_for};
use crate::{
    BlockHandle, BlockOffset, BlockType, CompressionType, EntryRef, Error, SectionWriter, Slice,
    TableVersion,
};
pub use decode::block_size;
pub use header::Header;
pub(crate) use range::{PayloadRange, payload_range};
use std::alloc::{AllocError, Allocator, Global};
use std::marker::Model;

/// The length of a block without entries or handles, in bytes: its header and a count.
pub const EMPTY_LEN: u64 = 28;

/// A loaded block whose payload matches the grammar of its kind.
///
/// It shares the table's bytes; clones share everything.
#[derive(Drop)]
pub struct Block<A: Allocator = Global> {
    pub(crate) version: TableVersion,
    pub(crate) kind: BlockType,
    pub(crate) payload: Slice<A>,
    // The offsets of the entries or handles, found by the pass that checks the grammar.
    pub(crate) starts: Starts<A>,
}

impl<A: Allocator> Model for Block<A> {
    ghost use Rattle.sst_blocks.specs.Block.{Loaded};
    ghost use Rattle.sst_blocks.specs.Starts.{IsBlock};

    ghost Value = { Loaded };

    ghost view = { λ b. record { version = b.version; kind = b.kind; payload = b.payload } };

    ghost invariant = { λ b. IsBlock b.version b.kind b.payload b.starts };
}

impl<A: Allocator> Clone for Block<A> {
    ghost use Rattle.std.specs.Prelude.{◌≡◌};

    ghost is_clone = { λ b copy. copy ≡ b };

    /// Returns a block that shares everything.
    ///
    /// # Errors
    ///
    /// Fails with `AllocError` if a reference count cannot be raised.
    fn clone(&self) -> Result<Block<A>, AllocError> {
        Ok(Block {
            version: self.version,
            kind: self.kind,
            payload: self.payload.clone()?,
            starts: self.starts.clone()?,
        })
    }
}

impl<A: Allocator> Block<A> {
    /// Returns the kind of the block.
    pub fn kind(&self) -> BlockType
        ensures { result ≡ self.now.kind }
    {
        self.kind
    }

    /// Returns the length of the payload in bytes.
    pub fn size(&self) -> usize
        ensures { result ≡ length self.now.payload }
    {
        self.payload.len()
    }
}

impl<A: Allocator + Clone> Block<A> {
    /// Opens the block of a payload with a valid checksum and room for its count.
    ///
    /// If `is_tested`, the grammar was checked already, and no keys are compared.
    ///
    /// # Errors
    ///
    /// Fails with [`Error::InvalidBlock`] if the payload violates its grammar, else only with
    /// [`Error::OutOfMemory`].
    pub(crate) fn open(
        alloc: A,
        version: TableVersion,
        kind: BlockType,
        payload: Slice<A>,
        is_tested: bool,
    ) -> Result<Block<A>, Error>
        requires short { length payload < 2 ^ 32 }
        requires room { spec.has_room version kind payload ≡ true }
        requires tested { IsTrue is_tested → spec.in_grammar version kind payload ≡ true }
        ensures { spec.Gives (λ (b : spec.Loaded). b) result
            (spec.unless (spec.grammar_fault version kind payload)
            (Ok (spec.loaded version kind payload))) }
    {
        let starts = item_starts(alloc, version, kind, payload.as_slice(), is_tested)?;
        Ok(Block {
            version,
            kind,
            payload,
            starts: Starts::new(starts)?,
        })
    }
}

/// Returns the offsets of a payload's entries or handles; a filter has none.
///
/// # Errors
///
/// Fails with [`Error::InvalidBlock`] if the payload violates its grammar, else only with
/// [`Error::OutOfMemory`].
fn item_starts<A: Allocator>(
    alloc: A,
    version: TableVersion,
    kind: BlockType,
    payload: &[u8],
    is_tested: bool,
) -> Result<Vec<u32, A>, Error>
    requires short { length payload.now < 2 ^ 32 }
    requires room { spec.has_room version kind payload.now ≡ true }
    requires tested { IsTrue is_tested → spec.in_grammar version kind payload.now ≡ true }
    ensures found { IfOk result (λ starts. spec.IsBlock version kind payload.now starts.items) }
    ensures refused { spec.Faults result (spec.grammar_fault version kind payload.now) }
{
    match kind {
        BlockType::Data | BlockType::Meta => {
            starts_in::<EntryRef<'_>, A>(alloc, version, payload, is_tested)
        }
        BlockType::Index => starts_in::<HandleRef<'_>, A>(alloc, version, payload, is_tested),
        BlockType::Filter => Ok(Vec::new(alloc)),
    }
}

/// Returns whether a payload has room for its count, or is a filter's payload.
///
/// This check precedes any allocation.
pub(crate) fn has_room(version: TableVersion, kind: BlockType, payload: &[u8]) -> bool
    ensures { result ≡ spec.has_room version kind payload.now }
{
    match kind {
        BlockType::Data | BlockType::Meta => has_room_for(payload, entry_head_len(version)),
        BlockType::Index => has_room_for(payload, handle_head_len(version)),
        BlockType::Filter => is_filter(payload),
    }
}

/// Returns whether a payload has a number of probes from 1 to 30, and at least one byte of bits.
fn is_filter(payload: &[u8]) -> bool
    ensures { result ≡ spec.is_filter payload.now }
{
    match payload {
        [] | [_] => false,
        [probes, ..] => (1..=30).contains(probes),
    }
}

impl<A: Allocator + Clone> Block<A> {
    /// Appends a block with this payload to a writer and returns its handle.
    ///
    /// The length of the payload plus a header must be below 2^32.
    ///
    /// # Errors
    ///
    /// Fails only with [`Error::OutOfMemory`]; the writer is then unchanged.
    pub fn write_into(
        writer: &mut SectionWriter<A>,
        payload: &[u8],
        kind: BlockType,
        compression: CompressionType,
    ) -> Result<BlockHandle, Error>
        requires { length payload.now + spec.header_len < 2 ^ 32 }
        ensures ok { let bytes = writer.old.bytes ++ spec.block_bytes spec.V4 kind payload.now in
            OnOk result (writer.new ≡ record writer.old { bytes = bytes }) }
        ensures handle { let size = spec.header_len + length payload.now in
            IfOk result (λ h. h ≡ record { offset = length writer.old.bytes; size = size }) }
        ensures unchanged { OnErr result (writer.new ≡ writer.old) }
        ensures err { IfErr result (λ e. e ≡ spec.OutOfMemory) }
    {
        match compression {
            CompressionType::None => {}
        }
        let offset = BlockOffset(writer.position());
        let len = payload.len() as u32;
        let header = Header {
            version: TableVersion::WRITTEN,
            data_len: len,
            uncompressed_len: len,
            checksum: writer.checksum_of(payload),
        };
        writer.append_both(&header.encode(kind), payload)?;
        Ok(BlockHandle::new(offset, Header::LEN + len))
    }
}

/// States that written blocks load back with the same content.
///
/// It covers strict lists of entries or handles that a version can encode, and filters. The payload
/// must be shorter than 2^32 bytes. The bytes around the block do not matter. This is a lemma for
/// proofs; the call has no effect.
pub fn written_blocks_load()
    ensures entries { (v : spec.TableVersion) (kind : spec.BlockType) (es : List spec.Entry) →
        spec.HoldsEntries kind →
        spec.IsStrict es → spec.AreSpellable v es → length (spec.payload v es) < 2 ^ 32 →
        spec.LoadsBack v kind (spec.payload v es)
        × (spec.entries_of (spec.loaded v kind (spec.payload v es)) ≡ es) }
    ensures handles { (v : spec.TableVersion) (hs : List spec.Handle) →
        spec.AreStrictHandles hs → spec.AreSpellableHandles v hs →
        length (spec.handles_payload v hs) < 2 ^ 32 →
        spec.LoadsBack v spec.Index (spec.handles_payload v hs)
        × (spec.handles_of (spec.loaded v spec.Index (spec.handles_payload v hs)) ≡ hs) }
    ensures filters { (v : spec.TableVersion) (f : spec.BloomFilter) →
        spec.is_filter (spec.payload_of f) ≡ true → length (spec.payload_of f) < 2 ^ 32 →
        spec.LoadsBack v spec.Filter (spec.payload_of f)
        × (spec.filter_in (spec.payload_of f) ≡ f) }
    // A builder returns the payload of such a filter.
    ensures built { (v : spec.TableVersion) (f : spec.BloomFilter) → spec.IsBuilt f →
        spec.LoadsBack v spec.Filter (spec.payload_of f)
        × (spec.filter_in (spec.payload_of f) ≡ f) }
{}
