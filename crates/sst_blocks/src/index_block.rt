//! Index blocks: strict lists of block handles.
ghost use Rattle.std.specs.Prelude.{◌≡◌, ◌+◌, ◌++◌, ◌<◌, ◌^◌, ◌≤◌, ◌↔◌, [], Some, None};
ghost use Rattle.std.specs.Prelude.{not, length, find, IsTrue, IfOk, IfErr, OnOk, OnErr};
ghost use Rattle.sst_blocks.specs.Words as spec;

mod encode;
mod find;
mod iter;
mod read;

use crate::item::{block_bound, encode};
use crate::reading::{front_len, item_at};
use crate::starts::Starts;
use crate::{Block, BlockHandle, BlockOffset, Error, KeyedBlockHandle, SeqNo, Slice, TableVersion};
pub(crate) use find::find_handle;
pub use iter::Iter;
use read::head_len;
pub(crate) use read::{HandleRef, head_len as handle_head_len};
use sst_entries::compare_versions;
use std::alloc::{AllocError, Allocator, Global};
use std::marker::Model;

/// The encoded size of a handle without its end key, in bytes.
///
/// It covers the sequence number, the block's offset and size, and the key's length.
pub const HANDLE_HEAD_LEN: u64 = 24;

/// A block of handles in strict order of end key and sequence number.
///
/// It shares the table's bytes; clones share everything. In contracts it is the list of its
/// handles.
#[derive(Drop)]
pub struct IndexBlock<A: Allocator = Global> {
    version: TableVersion,
    payload: Slice<A>,
    starts: Starts<A>,
}

impl<A: Allocator> Model for IndexBlock<A> {
    ghost use Rattle.std.specs.Prelude.{List, unwrap_or, []};
    ghost use Rattle.sst_blocks.specs.Handle.{Handle};
    ghost use Rattle.sst_blocks.specs.Handles.{handles_in};
    ghost use Rattle.sst_blocks.specs.Starts.{HandlesAt};

    ghost Value = { List Handle };

    ghost view = { λ b. unwrap_or (handles_in b.version b.payload) [] };

    ghost invariant = { λ b. HandlesAt b.version b.payload b.starts };
}

impl<A: Allocator> Clone for IndexBlock<A> {
    ghost use Rattle.std.specs.Prelude.{◌≡◌};

    ghost is_clone = { λ b copy. copy ≡ b };

    /// Returns a block that shares everything.
    ///
    /// # Errors
    ///
    /// Fails with `AllocError` if a reference count cannot be raised.
    fn clone(&self) -> Result<IndexBlock<A>, AllocError> {
        Ok(IndexBlock {
            version: self.version,
            payload: self.payload.clone()?,
            starts: self.starts.clone()?,
        })
    }
}

/// Returns an upper bound on the length of the block of these handles, in bytes.
///
/// The bound includes the header and saturates at `u64::MAX`.
pub fn index_block_bound<A: Allocator>(handles: &[KeyedBlockHandle<A>]) -> u64
    ensures { result ≡ spec.index_block_bound_of handles.now }
{
    block_bound(handles)
}

impl<A: Allocator> IndexBlock<A> {
    /// Returns the handles of a loaded block, which must be of kind `Index`.
    pub fn new(block: Block<A>) -> IndexBlock<A>
        requires { block.kind ≡ spec.Index }
        ensures { result ≡ spec.handles_of block }
    {
        IndexBlock {
            version: block.version,
            payload: block.payload,
            starts: block.starts,
        }
    }

    /// Returns the number of handles.
    pub fn len(&self) -> usize
        ensures value { result ≡ length self.now }
        ensures strict { spec.AreStrictHandles self.now }
    {
        self.starts.len()
    }

    /// Returns whether there are no handles.
    pub fn is_empty(&self) -> bool
        ensures { IsTrue result ↔ (self.now ≡ []) }
    {
        self.len() == 0
    }

    // The handle at an index, without raising a reference count.
    #[inline(always)]
    #[tactic(auto, unfolding(crate::specs::Handles::handles_in))]
    fn handle_ref(&self, index: usize) -> HandleRef<'_>
        requires { index < length self.now }
        ensures { spec.slice_get self.now index ≡ Some (spec.handle_of_ref result) }
    {
        item_at(self.version, self.payload.as_slice(), &self.starts, index)
    }

    /// Returns the handle at an index; its end key shares the block's bytes.
    ///
    /// The index must be below [`IndexBlock::len`].
    ///
    /// # Errors
    ///
    /// Fails only with [`Error::OutOfMemory`].
    pub fn handle(&self, index: usize) -> Result<KeyedBlockHandle<A>, Error>
        requires { index < length self.now }
        ensures found { IfOk result (λ h. spec.slice_get self.now index ≡ Some h) }
        ensures err { IfErr result (λ e. e ≡ spec.OutOfMemory) }
    {
        let handle = self.handle_ref(index);
        let start = self.starts.at(index);
        let key_at = start + head_len(self.version);
        let end_key = self.payload.slice(key_at, key_at + handle.end_key.len())?;
        let inner = BlockHandle::new(BlockOffset(handle.offset), handle.size);
        Ok(KeyedBlockHandle::new(end_key, handle.seqno, inner))
    }

    /// Returns the block handle at an index, without its end key.
    ///
    /// The index must be below [`IndexBlock::len`]. The call does not allocate.
    pub fn place_at(&self, index: usize) -> BlockHandle
        requires { index < length self.now }
        ensures { spec.option_map spec.place_of (spec.slice_get self.now index) ≡ Some result }
    {
        let found = self.handle_ref(index);
        BlockHandle::new(BlockOffset(found.offset), found.size)
    }

    /// Returns the number of handles before the first that reaches a key at `seqno`.
    ///
    /// A handle reaches it if its end key is greater, or equal with a sequence number below
    /// `seqno`. It is a binary search.
    pub fn first_reaching(&self, key: &[u8], seqno: SeqNo) -> usize
        ensures place { result ≡ spec.front_length (λ h. not (spec.reaches key.now seqno h))
            self.now }
        ensures within { result ≤ length self.now }
        ensures strict { spec.AreStrictHandles self.now }
    {
        let payload = self.payload.as_slice();
        front_len::<HandleRef<'_>, A, _>(
            self.version,
            payload,
            &self.starts,
            move |end_key, number| !compare_versions(key, seqno, end_key, number).is_lt(),
        )
    }

    /// Returns the number of handles before the first whose end key is greater than `key`.
    pub fn first_above(&self, key: &[u8]) -> usize
        ensures place { result ≡ spec.front_length (λ h. not (spec.is_above key.now h)) self.now }
        ensures within { result ≤ length self.now }
    {
        // No sequence number is below 0.
        self.first_reaching(key, 0)
    }

    /// Returns the handle of the first block that reaches a key at `seqno`.
    ///
    /// No other block can contain the newest entry of the key below `seqno`. The call does not
    /// allocate.
    pub fn find(&self, key: &[u8], seqno: SeqNo) -> Option<BlockHandle>
        ensures { result ≡ spec.option_map spec.place_of
            (find (spec.reaches key.now seqno) self.now) }
    {
        let index = self.first_reaching(key, seqno);
        if index == self.len() {
            return None;
        }
        Some(self.place_at(index))
    }

    /// Returns an iterator over the handles, from both ends.
    pub fn iter<'a>(&'a self) -> Iter<'a, A>
        ensures span { result ≡ spec.whole_span self.now }
        ensures yields { spec.YieldsItems ⟦<Iter<'a, A> as Iterator>⟧.next_gives
            ⟦<Iter<'a, A> as DoubleEndedIterator>⟧.next_back_gives self.now result }
        ensures can { spec.CanYield ⟦<Iter<'a, A> as Iterator>⟧.next_gives
            ⟦<Iter<'a, A> as DoubleEndedIterator>⟧.next_back_gives
            ⟦<Iter<'a, A> as Iterator>⟧.can_next
            ⟦<Iter<'a, A> as DoubleEndedIterator>⟧.can_next_back result }
        // After an error both ends yield only `None`.
        ensures ends { spec.EndsAtError ⟦<Iter<'a, A> as Iterator>⟧.next_gives
            ⟦<Iter<'a, A> as DoubleEndedIterator>⟧.next_back_gives result }
    {
        Iter::new(self)
    }

    /// Appends the payload of a block of these handles to `buf`.
    ///
    /// The handles must be in strict order.
    ///
    /// # Errors
    ///
    /// `buf` is unchanged on any error. The faults are, in this order:
    /// - [`Error::KeyTooLong`]: an end key is too long.
    /// - [`Error::BlockTooLarge`]: [`index_block_bound`] is 2^32 or more.
    ///
    /// If there is none of these, it fails only with [`Error::OutOfMemory`].
    #[tactic(auto, unfolding(crate::specs::Handles::handles_payload))]
    pub fn encode_into(buf: &mut Vec<u8, A>, handles: &[KeyedBlockHandle<A>]) -> Result<(), Error>
        requires { spec.AreStrictHandles handles.now }
        ensures ok { OnOk result (buf.new.items ≡ buf.old.items ++ spec.handles_payload spec.V4
            handles.now) }
        ensures unchanged { OnErr result (buf.new.items ≡ buf.old.items) }
        ensures refused { spec.Faults result (spec.handles_fault handles.now) }
        // Faults of the handles come before any `OutOfMemory`.
        ensures first { spec.FaultsFirst result (spec.handles_fault handles.now) }
        // The payload encodes the handles, and the block's length equals the bound.
        ensures fit { OnOk result (spec.AreSpellableHandles spec.V4 handles.now) }
        ensures reads { OnOk result
            (spec.handles_in spec.V4 (spec.handles_payload spec.V4 handles.now) ≡
            Some handles.now) }
        ensures bound { let len = spec.header_len + length
            (spec.handles_payload spec.V4 handles.now) in
            OnOk result (len ≡ spec.index_block_bound_of handles.now) }
        ensures short { OnOk result (
            spec.header_len + length (spec.handles_payload spec.V4 handles.now) < 2 ^ 32) }
    {
        encode(buf, handles)
    }
}
