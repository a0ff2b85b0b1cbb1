//! Queries of one block that need no memory for the offsets of its items.
ghost use Rattle.std.specs.Prelude.{◌≡◌, Option, None, Ok, Err, Some, IfOk, IfSome, MatchResult};
ghost use Rattle.sst_blocks.specs.Words as spec;

use super::BlockSource;
use super::payload::Payload;
use crate::data_block::{entry_head_len, find_entry};
use crate::index_block::find_handle;
use crate::{
    BlockHandle, BlockOffset, BlockType, EntryPlace, EntryRef, Error, InternalValue, Opened, SeqNo,
    contains_hash,
};
use std::alloc::Allocator;

impl<A: Allocator + Clone> BlockSource<A> {
    /// Finds the first entry of a key with a sequence number below `seqno`, in the data block of a
    /// handle.
    ///
    /// It returns the entry's position and shares nothing. If the grammar was checked already, the
    /// search ends at the key. Each call counts in `opened`, even if it fails.
    ///
    /// # Errors
    ///
    /// Fails as [`BlockSource::load`], but never with [`Error::OutOfMemory`]: it does not allocate.
    pub fn point_place(
        &self,
        handle: &BlockHandle,
        key: &[u8],
        seqno: SeqNo,
        opened: &mut Opened,
    ) -> Result<Option<EntryPlace>, Error>
        ensures returned { let body = spec.body_of self.now in
            spec.result_map (spec.option_map (spec.entry_placed self.now)) result
            ≡ spec.point_result body handle.now.offset handle.now.size key.now seqno }
        ensures placed { IfOk result (λ found. IfSome found (spec.IsPlacedIn self.now)) }
        ensures first { let body = spec.body_of self.now in
            spec.FaultsFirst result
            (spec.place_fault body handle.now.offset handle.now.size spec.Data) }
        ensures counted { opened.new ≡ spec.with_load spec.Data opened.old }
    {
        opened.count(BlockType::Data);
        let payload = self.verified_payload(handle, BlockType::Data)?;
        self.place_of_entry(&payload, key, seqno)
    }

    /// Borrows the entry at a position, or returns `None` if the bytes end before it.
    #[inline]
    pub fn entry_at(&self, place: &EntryPlace) -> Option<EntryRef<'_>>
        ensures { spec.option_map spec.entry_of_ref result ≡ spec.placed_in self.now place.now }
    {
        place.find(self.bytes.as_slice())
    }

    /// Returns the first entry of a key with a sequence number below `seqno`, in the data block of
    /// a handle.
    ///
    /// The key and the value share the table's bytes. Each call counts in `opened`, even if it
    /// fails.
    ///
    /// # Errors
    ///
    /// Fails as [`BlockSource::point_place`], and with [`Error::OutOfMemory`] only if the entry
    /// exists.
    pub fn point_read(
        &self,
        handle: &BlockHandle,
        key: &[u8],
        seqno: SeqNo,
        opened: &mut Opened,
    ) -> Result<Option<InternalValue<A>>, Error>
        ensures returned { let body = spec.body_of self.now in
            spec.Gives (λ (found : Option spec.Entry). found) result
            (spec.point_result body handle.now.offset handle.now.size key.now seqno) }
        // Only sharing an existing entry can fail with `OutOfMemory`.
        ensures sure { let body = spec.body_of self.now in
            spec.IsSure result (spec.point_result body handle.now.offset handle.now.size key.now
            seqno) }
        ensures first { let body = spec.body_of self.now in
            spec.FaultsFirst result
            (spec.place_fault body handle.now.offset handle.now.size spec.Data) }
        ensures counted { opened.new ≡ spec.with_load spec.Data opened.old }
    {
        match self.point_place(handle, key, seqno, opened) {
            Ok(Some(place)) => Ok(Some(place.share(&self.bytes)?)),
            Ok(None) => Ok(None),
            Err(error) => Err(error),
        }
    }

    /// Finds the first handle that reaches a key at `seqno`, in the index block of a handle.
    ///
    /// A handle reaches it if its end key is greater, or equal with a sequence number below
    /// `seqno`. If the grammar was checked already, the search ends at that handle. Each call
    /// counts in `opened`, even if it fails.
    ///
    /// # Errors
    ///
    /// Fails as [`BlockSource::load`], but never with [`Error::OutOfMemory`]: it does not allocate.
    pub fn find(
        &self,
        handle: &BlockHandle,
        key: &[u8],
        seqno: SeqNo,
        opened: &mut Opened,
    ) -> Result<Option<BlockHandle>, Error>
        ensures returned { let body = spec.body_of self.now in
            result ≡ spec.find_result body handle.now.offset handle.now.size key.now seqno }
        ensures first { let body = spec.body_of self.now in
            spec.FaultsFirst result
            (spec.place_fault body handle.now.offset handle.now.size spec.Index) }
        ensures counted { opened.new ≡ spec.with_load spec.Index opened.old }
    {
        opened.count(BlockType::Index);
        let payload = self.verified_payload(handle, BlockType::Index)?;
        self.handle_in(&payload, key, seqno)
    }

    /// Returns whether the filter in the filter block of a handle may contain a hash.
    ///
    /// Each call counts in `opened`, even if it fails.
    ///
    /// # Errors
    ///
    /// Fails as [`BlockSource::load`], but never with [`Error::OutOfMemory`]: it does not allocate.
    pub fn maybe_contains_hash(
        &self,
        handle: &BlockHandle,
        hash: u64,
        opened: &mut Opened,
    ) -> Result<bool, Error>
        ensures returned { let body = spec.body_of self.now in
            result ≡ spec.maybe_result body handle.now.offset handle.now.size hash }
        ensures first { let body = spec.body_of self.now in
            spec.FaultsFirst result
            (spec.place_fault body handle.now.offset handle.now.size spec.Filter) }
        ensures counted { opened.new ≡ spec.with_load spec.Filter opened.old }
    {
        opened.count(BlockType::Filter);
        let payload = self.verified_payload(handle, BlockType::Filter)?;
        Ok(self.has_hash_in(&payload, hash))
    }

    /// Returns the payload of the block of a kind, with its checksum and count verified.
    fn verified_payload(&self, handle: &BlockHandle, kind: BlockType) -> Result<Payload, Error>
        ensures placed { IfOk result (spec.IsPlaced self.now kind) }
        ensures valid { IfOk result (spec.IsValid (spec.body_of self.now) kind) }
        ensures returned { let body = spec.body_of self.now in
            let loaded = spec.load_result body handle.now.offset handle.now.size kind in
            MatchResult result (λ p. loaded ≡ spec.checked_in body kind p) (λ e. loaded ≡ Err e) }
        ensures first { let body = spec.body_of self.now in
            let fault = spec.place_fault body handle.now.offset handle.now.size kind in
            MatchResult result (λ _. fault ≡ None) (λ e. fault ≡ Some e) }
    {
        let payload = self.payload_of(handle, kind)?;
        self.test(&payload, kind)?;
        Ok(payload)
    }

    /// Finds the first entry of a key below `seqno` in a payload of entries.
    fn place_of_entry(
        &self,
        payload: &Payload,
        key: &[u8],
        seqno: SeqNo,
    ) -> Result<Option<EntryPlace>, Error>
        requires placed { spec.IsPlaced self.now spec.Data payload.now }
        requires valid { spec.IsValid (spec.body_of self.now) spec.Data payload.now }
        ensures returned { let body = spec.body_of self.now in
            spec.result_map (spec.option_map (spec.entry_placed self.now)) result
            ≡ spec.result_map (spec.point_of key.now seqno)
            (spec.checked_in body spec.Data payload.now) }
        ensures placed { IfOk result (λ found. IfSome found (spec.IsPlacedIn self.now)) }
    {
        let version = payload.header.version;
        let bytes = &self.body()[payload.start..payload.end];
        let first = find_entry(version, bytes, key, seqno, payload.is_verified)?;
        self.cache_grammar(payload, BlockType::Data);
        let Some((at, entry)) = first else {
            return Ok(None);
        };
        if entry.user_key != key {
            return Ok(None);
        }
        let key_at = payload.start + at + entry_head_len(version);
        Ok(Some(EntryPlace::of(key_at, &entry)))
    }

    /// Finds the first handle that reaches a key at `seqno` in a payload of handles.
    fn handle_in(
        &self,
        payload: &Payload,
        key: &[u8],
        seqno: SeqNo,
    ) -> Result<Option<BlockHandle>, Error>
        requires placed { spec.IsPlaced self.now spec.Index payload.now }
        requires valid { spec.IsValid (spec.body_of self.now) spec.Index payload.now }
        ensures returned { let body = spec.body_of self.now in
            result ≡ spec.result_map (spec.place_for key.now seqno)
            (spec.checked_in body spec.Index payload.now) }
    {
        let version = payload.header.version;
        let bytes = &self.body()[payload.start..payload.end];
        let first = find_handle(version, bytes, key, seqno, payload.is_verified)?;
        self.cache_grammar(payload, BlockType::Index);
        match first {
            Some(found) => Ok(Some(BlockHandle::new(BlockOffset(found.offset), found.size))),
            None => Ok(None),
        }
    }

    /// Returns whether the filter of a payload may contain a hash.
    fn has_hash_in(&self, payload: &Payload, hash: u64) -> bool
        requires placed { spec.IsPlaced self.now spec.Filter payload.now }
        requires valid { spec.IsValid (spec.body_of self.now) spec.Filter payload.now }
        ensures returned { let body = spec.body_of self.now in
            Ok result ≡ spec.result_map (spec.maybe_in hash)
            (spec.checked_in body spec.Filter payload.now) }
    {
        // A filter's grammar is the check that `test` has made already.
        self.cache_grammar(payload, BlockType::Filter);
        contains_hash(&self.body()[payload.start..payload.end], hash)
    }
}
