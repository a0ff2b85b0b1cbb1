//! Data blocks: strict lists of entries.
ghost use Rattle.std.specs.Prelude.{◌≡◌, ℕ, ◌+◌, ◌++◌, ◌<◌, ◌≤◌, ◌≢◌, ◌^◌, ◌↔◌, List, [], Some};
ghost use Rattle.std.specs.Prelude.{None, Bool, false, not, is_some, length, IsTrue, IfOk};
ghost use Rattle.std.specs.Prelude.{IfErr, OnOk, OnErr, slice_range};
ghost use Rattle.sst_blocks.specs.Words as spec;

mod cursor;
mod encode;
mod entry_ref;
mod find;
mod iter;

use crate::entry_place::EntryPlace;
use crate::item::{block_bound, encode};
use crate::reading::{front_len, item_at, key_at};
use crate::starts::Starts;
use crate::{Block, EntryRef, Error, InternalValue, SeqNo, Slice, TableVersion};
pub use cursor::Cursor;
pub use encode::{check_entry, put_entry};
use entry_ref::head_len;
pub(crate) use entry_ref::head_len as entry_head_len;
pub(crate) use find::find_entry;
pub use iter::Iter;
use sst_entries::compare_versions;
use std::alloc::{AllocError, Allocator, Global};
use std::marker::Model;

/// The encoded size of an entry without its key and value, in bytes.
///
/// It covers the tag, the sequence number and both lengths.
pub const ENTRY_HEAD_LEN: u64 = 17;

/// A block of entries in strict order.
///
/// It shares the table's bytes; clones share everything. In contracts it is the list of its
/// entries.
#[derive(Drop)]
pub struct DataBlock<A: Allocator = Global> {
    version: TableVersion,
    payload: Slice<A>,
    starts: Starts<A>,
}

impl<A: Allocator> Model for DataBlock<A> {
    ghost use Rattle.std.specs.Prelude.{List, unwrap_or, []};
    ghost use Rattle.sst_entries.specs.Entry.{Entry};
    ghost use Rattle.sst_blocks.specs.Reading.{entries_in};
    ghost use Rattle.sst_blocks.specs.Starts.{EntriesAt};

    ghost Value = { List Entry };

    ghost view = { λ b. unwrap_or (entries_in b.version b.payload) [] };

    ghost invariant = { λ b. EntriesAt b.version b.payload b.starts };
}

impl<A: Allocator> Clone for DataBlock<A> {
    ghost use Rattle.std.specs.Prelude.{◌≡◌};

    ghost is_clone = { λ b copy. copy ≡ b };

    /// Returns a block that shares everything.
    ///
    /// # Errors
    ///
    /// Fails with `AllocError` if a reference count cannot be raised.
    fn clone(&self) -> Result<DataBlock<A>, AllocError> {
        Ok(DataBlock {
            version: self.version,
            payload: self.payload.clone()?,
            starts: self.starts.clone()?,
        })
    }
}

/// Returns an upper bound on the length of the block of these entries, in bytes.
///
/// The bound includes the header and saturates at `u64::MAX`.
pub fn data_block_bound<A: Allocator>(items: &[InternalValue<A>]) -> u64
    ensures { result ≡ spec.data_block_bound_of items.now }
{
    block_bound(items)
}

impl<A: Allocator> DataBlock<A> {
    /// Returns the entries of a loaded block, which must be of kind `Data` or `Meta`.
    pub fn new(block: Block<A>) -> DataBlock<A>
        requires { spec.HoldsEntries block.kind }
        ensures { result ≡ spec.entries_of block }
    {
        DataBlock {
            version: block.version,
            payload: block.payload,
            starts: block.starts,
        }
    }

    /// Appends the payload of a block of these entries to `buf`.
    ///
    /// The entries must be in strict order. The restart interval and the hash ratio are accepted
    /// for compatibility and have no effect.
    ///
    /// # Errors
    ///
    /// `buf` is unchanged on any error. The faults are, in this order:
    /// - [`Error::KeyTooLong`], else [`Error::ValueTooLong`]: for the first entry that is too long.
    /// - [`Error::BlockTooLarge`]: [`data_block_bound`] is 2^32 or more.
    ///
    /// If there is none of these, it fails only with [`Error::OutOfMemory`].
    #[tactic(auto, unfolding(crate::specs::Payload::payload))]
    pub fn encode_into(
        buf: &mut Vec<u8, A>,
        items: &[InternalValue<A>],
        restart_interval: u8,
        hash_ratio: u32,
    ) -> Result<(), Error>
        requires { spec.IsStrict items.now }
        ensures ok { OnOk result (buf.new.items ≡ buf.old.items ++ spec.payload spec.V4 items.now) }
        ensures unchanged { OnErr result (buf.new.items ≡ buf.old.items) }
        ensures refused { spec.Faults result (spec.entries_fault items.now) }
        // Faults of the entries come before any `OutOfMemory`.
        ensures first { spec.FaultsFirst result (spec.entries_fault items.now) }
        // The payload encodes the entries, and the block's length equals the bound.
        ensures fit { OnOk result (spec.AreSpellable spec.V4 items.now) }
        ensures reads { OnOk result (spec.entries_in spec.V4 (spec.payload spec.V4 items.now)
            ≡ Some items.now) }
        ensures bound { let len = spec.header_len + length (spec.payload spec.V4 items.now) in
            OnOk result (len ≡ spec.data_block_bound_of items.now) }
        ensures short { OnOk result (spec.header_len + length (spec.payload spec.V4 items.now) < 2 ^
            32) }
    {
        let _ = restart_interval;
        let _ = hash_ratio;
        encode(buf, items)
    }

    /// Returns the number of entries.
    pub fn len(&self) -> usize
        ensures value { result ≡ length self.now }
        ensures strict { spec.IsStrict self.now }
    {
        self.starts.len()
    }

    /// Returns whether the block has no entries.
    pub fn is_empty(&self) -> bool
        ensures { IsTrue result ↔ (self.now ≡ []) }
    {
        self.len() == 0
    }

    /// Borrows the entry at an index, which must be below [`DataBlock::len`].
    #[inline(always)]
    #[tactic(auto, unfolding(crate::specs::Reading::entries_in))]
    pub fn entry_ref(&self, index: usize) -> EntryRef<'_>
        requires { index < length self.now }
        ensures { spec.slice_get self.now index ≡ Some (spec.entry_of_ref result) }
    {
        item_at(self.version, self.payload.as_slice(), &self.starts, index)
    }

    /// Returns the key and the sequence number of the entry at an index.
    ///
    /// The index must be below [`DataBlock::len`]. The rest of the entry is not decoded.
    #[inline(always)]
    #[tactic(auto, unfolding(crate::specs::Reading::entries_in))]
    pub fn key_at(&self, index: usize) -> (&[u8], SeqNo)
        requires { index < length self.now }
        ensures { spec.option_map spec.key_and_number (spec.slice_get self.now index)
            ≡ Some (result.0.now, result.1) }
    {
        key_at::<EntryRef<'_>, A>(self.version, self.payload.as_slice(), &self.starts, index)
    }

    // The entry at an index, already read. Its key and value share the block's memory.
    #[inline(always)]
    fn share(&self, index: usize, entry: &EntryRef<'_>) -> Result<InternalValue<A>, Error>
        requires { spec.slice_get self.now index ≡ Some (spec.entry_of_ref entry.now) }
        ensures found { IfOk result (λ e. e ≡ spec.entry_of_ref entry.now) }
        ensures err { IfErr result (λ e. e ≡ spec.OutOfMemory) }
    {
        let key_at = self.starts.at(index) + head_len(self.version);
        EntryPlace::of(key_at, entry).share(&self.payload)
    }

    /// Returns the entry at an index; its key and value share the block's memory.
    ///
    /// The index must be below [`DataBlock::len`].
    ///
    /// # Errors
    ///
    /// Fails only with [`Error::OutOfMemory`].
    #[inline(always)]
    pub fn entry(&self, index: usize) -> Result<InternalValue<A>, Error>
        requires { index < length self.now }
        ensures found { IfOk result (λ e. spec.slice_get self.now index ≡ Some e) }
        ensures err { IfErr result (λ e. e ≡ spec.OutOfMemory) }
    {
        self.share(index, &self.entry_ref(index))
    }

    /// Returns the number of leading entries that pass a test of key and sequence number.
    ///
    /// It is a binary search: no entry may pass after one that fails.
    fn front_len<P: Fn(&[u8], SeqNo) -> bool>(&self, passes: P) -> usize
        requires { P.IsAlwaysCallable passes }
        ensures within { result ≤ length self.now }
        ensures strict { spec.IsStrict self.now }
        ensures value { (p : List ℕ → ℕ → Bool) →
            ((key : _) (n : _) (r : _) → P.post passes key n r → r ≡ p key.now n) →
            spec.CountsFront self.now (λ e. p e.user_key e.seqno) result }
    {
        let payload = self.payload.as_slice();
        front_len::<EntryRef<'_>, A, P>(self.version, payload, &self.starts, passes)
    }

    /// Returns the index of the first entry whose key is at least `key`.
    ///
    /// If there is none, it returns the number of entries. It is a binary search.
    pub fn first_at_least(&self, key: &[u8]) -> usize
        ensures place { result ≡ spec.front_length (λ e. spec.key_lt e.user_key key.now) self.now }
        ensures within { result ≤ length self.now }
        ensures strict { spec.IsStrict self.now }
    {
        self.front_len(|user_key, _| user_key.cmp(key).is_lt())
    }

    /// Returns the index of the first entry whose key is greater than `key`.
    ///
    /// If there is none, it returns the number of entries. It is a binary search.
    pub fn first_above(&self, key: &[u8]) -> usize
        ensures place { result ≡ spec.front_length (λ e. not (spec.key_lt key.now e.user_key))
            self.now }
        ensures within { result ≤ length self.now }
        ensures strict { spec.IsStrict self.now }
    {
        self.front_len(|user_key, _| !key.cmp(user_key).is_lt())
    }

    /// Returns an iterator over the entries, from both ends.
    pub fn iter<'a>(&'a self) -> Iter<'a, A>
        ensures span { result ≡ spec.whole_span self.now }
        ensures yields { spec.YieldsItems ⟦<Iter<'a, A> as Iterator>⟧.next_gives
            ⟦<Iter<'a, A> as DoubleEndedIterator>⟧.next_back_gives self.now result }
        ensures can { spec.CanYield ⟦<Iter<'a, A> as Iterator>⟧.next_gives
            ⟦<Iter<'a, A> as DoubleEndedIterator>⟧.next_back_gives
            ⟦<Iter<'a, A> as Iterator>⟧.can_next
            ⟦<Iter<'a, A> as DoubleEndedIterator>⟧.can_next_back result }
        // After an error both ends yield only `None`.
        ensures ends { spec.EndsAtError ⟦<Iter<'a, A> as Iterator>⟧.next_gives
            ⟦<Iter<'a, A> as DoubleEndedIterator>⟧.next_back_gives result }
    {
        Iter::new(self)
    }

    /// Converts the block into a cursor over its entries, from both ends.
    pub fn into_cursor(self) -> Cursor<A>
        ensures { result ≡ spec.cursor_of self }
    {
        let len = self.len();
        self.into_cursor_of(0, len)
    }

    /// Converts the block into a cursor over the entries from index `from` up to `to`.
    ///
    /// The caller ensures that `to` is at most [`DataBlock::len`].
    pub fn into_cursor_of(self, from: usize, to: usize) -> Cursor<A>
        requires { to ≤ length self }
        ensures { result ≡ spec.cursor_of (slice_range self from to) }
    {
        Cursor::new(self.version, self.payload, self.starts, from, to)
    }

    /// Returns the first entry of a key with a sequence number below `seqno`.
    ///
    /// It is a binary search.
    ///
    /// # Errors
    ///
    /// Fails only with [`Error::OutOfMemory`], and only if the entry exists.
    pub fn point_read(&self, key: &[u8], seqno: SeqNo) -> Result<Option<InternalValue<A>>, Error>
        ensures found { IfOk result (λ found. found ≡ spec.point self.now key.now seqno) }
        ensures err { IfErr result (λ e. e ≡ spec.OutOfMemory) }
        // Without such an entry the call succeeds.
        ensures some { OnErr result (spec.point self.now key.now seqno ≢ None) }
    {
        let index = self.front_len(move |user_key, number| {
            !compare_versions(key, seqno, user_key, number).is_lt()
        });
        if index == self.len() {
            return Ok(None);
        }
        let entry = self.entry_ref(index);
        if entry.user_key != key {
            return Ok(None);
        }
        Ok(Some(self.share(index, &entry)?))
    }
}
