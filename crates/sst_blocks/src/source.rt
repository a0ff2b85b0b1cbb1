//! The only access to the blocks of a table's bytes.
ghost use Rattle.std.specs.Prelude.{◌≡◌, ◌↔◌, ◌+◌, ◌*◌, ◌/◌, ◌⊎◌, ◌<◌, ◌^◌, List, ℕ, length, map};
ghost use Rattle.std.specs.Prelude.{IfErr, IfOk, IfSome, IsTrue, OnOk, MatchOption, MatchResult};
ghost use Rattle.std.specs.Prelude.{Err, None, Some, true};
ghost use Rattle.sst_blocks.specs.Words as spec;

mod payload;
mod reads;

use crate::block::{Header, has_room, payload_range};
use crate::marks::{Marks, SPAN, Verified};
use crate::{
    Block, BlockHandle, BlockType, Error, Opened, Slice, TRAILER_LEN, Toc, has_hash, hash_four,
    have_hashes,
};
use payload::Payload;
use std::alloc::{AllocError, Allocator, Global};
use std::marker::Model;
use std::sync::Arc;

/// The length of a block header in bytes.
const HEADER_LEN: usize = Header::LEN as usize;

/// The bytes of a table with a valid trailer, through which all its blocks are loaded.
///
/// It has a verified-block cache, shared by its clones. Per 2,048 bytes, the cache remembers the
/// last payload starting there whose checksum matched. Such a payload is not hashed again. Once its
/// grammar is checked too, its keys are not compared again. If the cache cannot be allocated, the
/// source works without one. Except for `OutOfMemory`, no result depends on the cache. In contracts
/// the source is its bytes.
#[derive(Drop)]
pub struct BlockSource<A: Allocator = Global> {
    bytes: Slice<A>,
    alloc: A,
    // `None` if the cache could not be allocated.
    marks: Option<Arc<Marks<A>, A>>,
}

impl<A: Allocator> Model for BlockSource<A> {
    ghost use Rattle.std.specs.Prelude.{◌≡◌, List, ℕ, None};
    ghost use Rattle.sst_blocks.specs.Sections.{trailer_fault};
    ghost use Rattle.std.specs.Prelude.{MatchOption};
    ghost use Rattle.std.specs.Arc.{arc_value};

    ghost Value = { List ℕ };

    ghost view = { λ s. s.bytes };

    ghost invariant = { λ s. (trailer_fault s.bytes ≡ None) ×
        MatchOption s.marks (Unit {0}) (λ m. arc_value m ≡ s.bytes) };
}

impl<A: Allocator + Clone> Clone for BlockSource<A> {
    ghost use Rattle.std.specs.Prelude.{◌≡◌};

    ghost is_clone = { λ s copy. copy ≡ s };

    /// Returns a source over the same bytes, whose loads return the same.
    ///
    /// The clone has no verified-block cache if the cache's reference count cannot be raised.
    ///
    /// # Errors
    ///
    /// Fails with `AllocError` if the reference count of the bytes cannot be raised, or if the
    /// allocator does not clone.
    fn clone(&self) -> Result<BlockSource<A>, AllocError> {
        Ok(BlockSource {
            bytes: self.bytes.clone()?,
            alloc: self.alloc.clone()?,
            marks: shared(&self.marks),
        })
    }
}

// Shares the cache, or returns `None` if its reference count cannot be raised.
fn shared<A: Allocator>(marks: &Option<Arc<Marks<A>, A>>) -> Option<Arc<Marks<A>, A>>
    ensures { (bytes : List ℕ) →
        MatchOption marks.now (Unit {0}) (λ m. spec.arc_value m ≡ bytes) →
        MatchOption result (Unit {0}) (λ m. spec.arc_value m ≡ bytes) }
{
    match marks {
        Some(marks) => marks.clone().ok(),
        None => None,
    }
}

// An empty cache, or `None` if it cannot be allocated.
fn new_marks<A: Allocator + Clone>(alloc: &A, bytes: &Slice<A>) -> Option<Arc<Marks<A>, A>>
    ensures { MatchOption result (Unit {0}) (λ m. spec.arc_value m ≡ bytes.now) }
{
    match shared_marks(alloc, bytes) {
        Ok(marks) => Some(marks),
        Err(_) => None,
    }
}

fn shared_marks<A: Allocator + Clone>(
    alloc: &A,
    bytes: &Slice<A>,
) -> Result<Arc<Marks<A>, A>, AllocError>
    ensures { IfOk result (λ m. spec.arc_value m ≡ bytes.now) }
{
    let marks = Marks::new(alloc.clone()?, bytes)?;
    Ok(Arc::new(alloc.clone()?, marks)?)
}

impl<A: Allocator + Clone> BlockSource<A> {
    /// Opens a source over a table's bytes by reading the trailer.
    ///
    /// # Errors
    ///
    /// Fails only with [`Error::InvalidTrailer`]: if there are fewer than 120 bytes, the magic
    /// number differs, or a section reaches past the body. It never fails with
    /// [`Error::OutOfMemory`]: without memory for a cache, it has none.
    pub fn new(alloc: A, bytes: Slice<A>) -> Result<BlockSource<A>, Error>
        ensures ok { IfOk result (λ s. s ≡ bytes) }
        ensures short { length bytes < 2 ^ 63 }
        ensures refused { spec.Refuses result (spec.trailer_fault bytes) }
    {
        Toc::of(bytes.as_slice())?;
        let marks = new_marks(&alloc, &bytes);
        Ok(BlockSource {
            bytes,
            alloc,
            marks,
        })
    }

    /// Returns the positions and lengths of the sections, read from the trailer.
    pub fn toc(&self) -> Toc
        ensures toc { result ≡ map (spec.section_in self.now) spec.section_names }
        ensures read { spec.trailer_fault self.now ≡ None }
    {
        match Toc::of(self.bytes.as_slice()) {
            Ok(toc) => toc,
            Err(_) => unreachable!(),
        }
    }

    /// Returns the bytes of the table, trailer included.
    pub fn bytes(&self) -> &Slice<A>
        ensures { result.now ≡ self.now }
    {
        &self.bytes
    }

    /// Returns the size of the verified-block cache in bytes.
    ///
    /// It is 8 bytes per 2,048 bytes of the table, plus 8; or 0 if the cache could not be
    /// allocated.
    pub fn marks_size(&self) -> usize
        ensures { (result ≡ 0) ⊎ (result ≡ 8 * (length self.now / 2048 + 1)) }
    {
        match &self.marks {
            Some(_) => 8 * (self.bytes.len() / SPAN as usize + 1),
            None => 0,
        }
    }

    /// Returns the allocator for the memory of blocks.
    pub fn allocator(&self) -> &A {
        &self.alloc
    }

    /// Loads the block of a kind that a handle describes.
    ///
    /// Each call counts in `opened`, even if it fails.
    ///
    /// # Errors
    ///
    /// Fails with the first of these faults:
    /// - [`Error::Truncated`]: the handle's size is below a header's, or reaches past the body.
    /// - [`Error::InvalidHeader`]: the magic number or a reserved byte is wrong.
    /// - [`Error::InvalidTag`]: the block is of another kind.
    /// - [`Error::UnsupportedCompression`]: the payload is compressed.
    /// - [`Error::InvalidHeader`]: the lengths disagree.
    /// - [`Error::ChecksumMismatch`]: the payload has another checksum.
    /// - [`Error::InvalidBlock`]: the payload violates its grammar.
    ///
    /// It also fails with [`Error::OutOfMemory`]. This error can only hide an
    /// [`Error::InvalidBlock`] that takes memory to find: in a block of entries or handles with
    /// room for its count.
    pub fn load(
        &self,
        handle: &BlockHandle,
        kind: BlockType,
        opened: &mut Opened,
    ) -> Result<Block<A>, Error>
        ensures returned { let body = spec.body_of self.now in
            spec.Gives (λ (b : spec.Loaded). b) result
            (spec.load_result body handle.now.offset handle.now.size kind) }
        // Faults in the position, header, checksum or count come before any `OutOfMemory`.
        ensures first { let body = spec.body_of self.now in
            spec.FaultsFirst result (spec.place_fault body handle.now.offset handle.now.size kind) }
        ensures counted { opened.new ≡ spec.with_load kind opened.old }
    {
        opened.count(kind);
        let payload = self.payload_of(handle, kind)?;
        self.block(&payload, kind)
    }

    /// Loads the block of a kind at a position, with the size that its header stores.
    ///
    /// Each call counts in `opened`, even if it fails.
    ///
    /// # Errors
    ///
    /// Fails as [`BlockSource::load`]. If the header or the payload reaches past the body, the
    /// error is [`Error::Truncated`].
    pub fn load_at(
        &self,
        position: u64,
        kind: BlockType,
        opened: &mut Opened,
    ) -> Result<Block<A>, Error>
        ensures returned { let returned = spec.load_at_result (spec.body_of self.now) position
            kind in spec.Gives (λ (b : spec.Loaded). b) result returned }
        ensures first { spec.FaultsFirst result
            (spec.position_fault (spec.body_of self.now) position kind) }
        // The block ends below 2^63.
        ensures within { IfOk result (λ b. position + spec.header_len + length b.payload < 2 ^ 63) }
        ensures counted { opened.new ≡ spec.with_load kind opened.old }
    {
        opened.count(kind);
        let payload = self.payload_at(position, kind)?;
        self.block(&payload, kind)
    }

    /// Returns the payload of the block of a kind that a handle describes.
    ///
    /// # Errors
    ///
    /// Fails with the first fault in the handle, the header or its lengths.
    fn payload_of(&self, handle: &BlockHandle, kind: BlockType) -> Result<Payload, Error>
        ensures placed { IfOk result (spec.IsPlaced self.now kind) }
        ensures returned { let body = spec.body_of self.now in
            let loaded = spec.load_result body handle.now.offset handle.now.size kind in
            MatchResult result (λ p. loaded ≡ spec.checked_in body kind p) (λ e. loaded ≡ Err e) }
        ensures first { let body = spec.body_of self.now in
            let fault = spec.place_fault body handle.now.offset handle.now.size kind in
            MatchResult result (λ p. fault ≡ spec.fault_in body kind p) (λ e. fault ≡ Some e) }
    {
        let size = handle.size() as usize;
        let range = payload_range(self.body(), handle.offset().0, size, kind)?;
        Ok(Payload {
            header: range.header,
            start: range.start,
            end: range.end,
            is_verified: self.is_cached(range.start, Verified::Grammar),
        })
    }

    /// Returns the payload of the block of a kind at a position, with the size that its header
    /// stores.
    ///
    /// # Errors
    ///
    /// Fails with the first fault in the position, the header or its lengths.
    fn payload_at(&self, position: u64, kind: BlockType) -> Result<Payload, Error>
        ensures placed { IfOk result (spec.IsPlaced self.now kind) }
        ensures within { let body = spec.body_of self.now in
            IfOk result (λ p.
            position + spec.header_len + length (spec.payload_in body p) < 2 ^ 63) }
        ensures returned { let body = spec.body_of self.now in
            let loaded = spec.load_at_result body position kind in
            MatchResult result (λ p. loaded ≡ spec.checked_in body kind p) (λ e. loaded ≡ Err e) }
        ensures first { let body = spec.body_of self.now in
            let fault = spec.position_fault body position kind in
            MatchResult result (λ p. fault ≡ spec.fault_in body kind p) (λ e. fault ≡ Some e) }
    {
        let body = self.body();
        if body.len() < HEADER_LEN || ((body.len() - HEADER_LEN) as u64) < position {
            // No header ends within the body.
            return Err(Error::Truncated);
        }
        let header_start = position as usize;
        let start = header_start + HEADER_LEN;
        let header = Header::decode(&body[header_start..start], kind)?;
        if header.data_len != header.uncompressed_len {
            // The two lengths disagree.
            return Err(Error::InvalidHeader);
        }
        let len = header.data_len as usize;
        if body.len() - start < len {
            // The payload reaches past the body.
            return Err(Error::Truncated);
        }
        Ok(Payload {
            header,
            start,
            end: start + len,
            is_verified: self.is_cached(start, Verified::Grammar),
        })
    }

    /// The bytes before the trailer.
    fn body(&self) -> &[u8]
        ensures body { result.now ≡ spec.body_of self.now }
        ensures bound { length result.now < 2 ^ 63 }
    {
        &self.bytes.as_slice()[..self.bytes.len() - TRAILER_LEN]
    }

    /// Loads the block of a payload.
    fn block(&self, payload: &Payload, kind: BlockType) -> Result<Block<A>, Error>
        requires { spec.IsPlaced self.now kind payload.now }
        ensures returned { spec.Gives (λ (b : spec.Loaded). b) result
            (spec.checked_in (spec.body_of self.now) kind payload.now) }
        ensures first { spec.FaultsFirst result
            (spec.fault_in (spec.body_of self.now) kind payload.now) }
    {
        self.test(payload, kind)?;
        let block = self.open(payload, kind)?;
        self.cache_grammar(payload, kind);
        Ok(block)
    }

    /// Checks the checksum and the count of a payload, unless the cache has it.
    ///
    /// # Errors
    ///
    /// Fails with [`Error::ChecksumMismatch`] or [`Error::InvalidBlock`].
    fn test(&self, payload: &Payload, kind: BlockType) -> Result<(), Error>
        requires { spec.IsPlaced self.now kind payload.now }
        ensures valid { OnOk result (spec.IsValid (spec.body_of self.now) kind payload.now) }
        ensures returned { let body = spec.body_of self.now in
            IfErr result (λ e. spec.checked_in body kind payload.now ≡ Err e) }
        ensures first { let body = spec.body_of self.now in
            IfErr result (λ e. spec.fault_in body kind payload.now ≡ Some e) }
    {
        if payload.is_verified {
            return Ok(());
        }
        if !self.has_sum(payload) {
            return Err(Error::ChecksumMismatch);
        }
        if !has_room(
            payload.header.version,
            kind,
            &self.body()[payload.start..payload.end],
        ) {
            return Err(Error::InvalidBlock);
        }
        Ok(())
    }

    /// Opens the block of a payload with a valid checksum and room for its count.
    fn open(&self, payload: &Payload, kind: BlockType) -> Result<Block<A>, Error>
        requires placed { spec.IsPlaced self.now kind payload.now }
        requires valid { spec.IsValid (spec.body_of self.now) kind payload.now }
        ensures returned { spec.Gives (λ (b : spec.Loaded). b) result
            (spec.checked_in (spec.body_of self.now) kind payload.now) }
    {
        let bytes = self.bytes.slice(payload.start, payload.end)?;
        Block::open(
            self.alloc.clone()?,
            payload.header.version,
            kind,
            bytes,
            payload.is_verified,
        )
    }

    /// Returns whether a payload has its header's checksum; a cached one is not hashed again.
    fn has_sum(&self, payload: &Payload) -> bool
        requires { spec.IsHeaded self.now payload.now }
        ensures { let bytes = spec.payload_in (spec.body_of self.now) payload.now in
            IsTrue result ↔ (spec.fnv1a bytes ≡ payload.now.header.checksum) }
    {
        if self.is_cached(payload.start, Verified::Checksum) {
            return true;
        }
        let same = has_hash(
            &self.body()[payload.start..payload.end],
            payload.header.checksum,
        );
        if same {
            self.cache(payload.start, Verified::Checksum);
        }
        same
    }

    /// Caches that a payload's grammar was checked, unless the cache says so already.
    fn cache_grammar(&self, payload: &Payload, kind: BlockType)
        requires placed { spec.IsPlaced self.now kind payload.now }
        requires valid { spec.IsValid (spec.body_of self.now) kind payload.now }
        requires items { let bytes = spec.payload_in (spec.body_of self.now) payload.now in
            spec.in_grammar payload.now.header.version kind bytes ≡ true }
    {
        if !payload.is_verified {
            self.cache(payload.start, Verified::Grammar);
        }
    }

    /// Returns whether the cache says this of the payload starting here.
    fn is_cached(&self, start: usize, verified: Verified) -> bool
        ensures { IsTrue result → spec.Holds verified self.now start }
    {
        match &self.marks {
            Some(marks) => marks.has(start as u64, verified),
            None => false,
        }
    }

    /// Caches this of the payload starting here.
    fn cache(&self, start: usize, verified: Verified)
        requires { spec.Holds verified self.now start }
    {
        if let Some(marks) = &self.marks {
            marks.add(start as u64, verified);
        }
    }

    /// Verifies the checksums of up to four consecutive data blocks, the first at `position`.
    ///
    /// It hashes two or four blocks in one loop. Below 2, `most` does nothing; below 4, at most two
    /// blocks are verified. The call does nothing without a cache, or if the first block is in it.
    ///
    /// It stops before a block in the cache. It also stops after a block whose payload ends in the
    /// 2,048 bytes in which it starts. Later loads return the same with or without this call.
    pub fn compare_ahead(&self, position: u64, most: usize) {
        let start = position.wrapping_add(HEADER_LEN as u64) as usize;
        if self.marks.is_none() || most < 2 || self.is_cached(start, Verified::Checksum) {
            return;
        }
        let Ok(first) = self.payload_at(position, BlockType::Data) else {
            return;
        };
        let first = Some(first);
        let second = self.next_payload(first);
        if most < 4 {
            self.compare_both(first, second);
            return;
        }
        let third = self.next_payload(second);
        let fourth = self.next_payload(third);
        self.compare_four(first, second, third, fourth);
    }

    /// Verifies the checksums of these blocks, four at a time in one loop, the rest in pairs.
    ///
    /// The call does nothing without a cache. It skips:
    /// - blocks in the cache;
    /// - blocks whose size in the header differs from the handle's;
    /// - blocks whose payload ends in the 2,048 bytes in which it starts, since another block could
    ///   replace their cache entry.
    ///
    /// Later loads return the same with or without this call.
    pub fn compare_together(&self, blocks: &[(BlockHandle, BlockType)]) {
        if self.marks.is_none() {
            return;
        }
        let mut first = None;
        let mut second = None;
        let mut third = None;
        for (handle, kind) in blocks {
            let Some(payload) = self.unverified_payload(handle, *kind) else {
                continue;
            };
            if third.is_some() {
                self.compare_four(first, second, third, Some(payload));
                first = None;
                second = None;
                third = None;
            } else {
                third = second;
                second = first;
                first = Some(payload);
            }
        }
        self.compare_four(first, second, third, None);
    }

    /// Verifies four payloads in one loop and caches the matches; fewer are verified in pairs.
    fn compare_four(
        &self,
        first: Option<Payload>,
        second: Option<Payload>,
        third: Option<Payload>,
        fourth: Option<Payload>,
    )
        requires first { IfSome first (λ p. spec.IsHeaded self.now p) }
        requires second { IfSome second (λ p. spec.IsHeaded self.now p) }
        requires third { IfSome third (λ p. spec.IsHeaded self.now p) }
        requires fourth { IfSome fourth (λ p. spec.IsHeaded self.now p) }
    {
        if first.is_none() || second.is_none() || third.is_none() || fourth.is_none() {
            self.compare_both(first, second);
            self.compare_both(third, fourth);
            return;
        }
        let sums = hash_four(
            self.bytes_of(first),
            self.bytes_of(second),
            self.bytes_of(third),
            self.bytes_of(fourth),
        );
        self.cache_sum(first, sums.0 == sum_of(first));
        self.cache_sum(second, sums.1 == sum_of(second));
        self.cache_sum(third, sums.2 == sum_of(third));
        self.cache_sum(fourth, sums.3 == sum_of(fourth));
    }

    /// Verifies two payloads in one loop, each from both ends, and caches the matches.
    fn compare_both(&self, first: Option<Payload>, second: Option<Payload>)
        requires first { IfSome first (λ p. spec.IsHeaded self.now p) }
        requires second { IfSome second (λ p. spec.IsHeaded self.now p) }
    {
        let (is_first, is_second) = have_hashes(
            self.bytes_of(first),
            sum_of(first),
            self.bytes_of(second),
            sum_of(second),
        );
        self.cache_sum(first, is_first);
        self.cache_sum(second, is_second);
    }

    /// Returns the payload of a block that is worth verifying ahead.
    ///
    /// The handle's size must agree. The block must not be in the cache, and must leave the 2,048
    /// bytes in which its payload starts.
    fn unverified_payload(&self, handle: &BlockHandle, kind: BlockType) -> Option<Payload>
        ensures { IfSome result (λ p. spec.IsHeaded self.now p) }
    {
        let Ok(payload) = self.payload_of(handle, kind) else {
            return None;
        };
        if payload.start as u64 / SPAN == payload.end as u64 / SPAN
            || self.is_cached(payload.start, Verified::Checksum)
        {
            return None;
        }
        Some(payload)
    }

    /// Returns the payload of the block after another, unless it is in the cache.
    fn next_payload(&self, before: Option<Payload>) -> Option<Payload>
        ensures { IfSome result (λ p. spec.IsHeaded self.now p) }
    {
        let before = before?;
        // The cache keeps only the last payload that starts in a span, so hashing the next one
        // would be useless.
        if before.start as u64 / SPAN == before.end as u64 / SPAN {
            return None;
        }
        let Ok(payload) = self.payload_at(before.end as u64, BlockType::Data) else {
            return None;
        };
        // Its cache entry stays: it may also say that the grammar was checked.
        if self.is_cached(payload.start, Verified::Checksum) {
            return None;
        }
        Some(payload)
    }

    /// The bytes of the payload; none for `None`.
    fn bytes_of(&self, payload: Option<Payload>) -> &[u8]
        requires { IfSome payload (λ p. spec.IsHeaded self.now p) }
        ensures { IfSome payload (λ p. result.now ≡ spec.payload_in (spec.body_of self.now) p) }
    {
        match payload {
            Some(payload) => &self.body()[payload.start..payload.end],
            None => &[],
        }
    }

    /// Caches a payload whose checksum matched.
    fn cache_sum(&self, payload: Option<Payload>, has_sum: bool)
        requires headed { IfSome payload (λ p. spec.IsHeaded self.now p) }
        requires sum { let body = spec.body_of self.now in
            IfSome payload (λ p.
            IsTrue has_sum → spec.fnv1a (spec.payload_in body p) ≡ p.header.checksum) }
    {
        if let Some(payload) = payload {
            if has_sum {
                self.cache(payload.start, Verified::Checksum);
            }
        }
    }
}

// The stored checksum, or 0 for `None`.
fn sum_of(payload: Option<Payload>) -> u64
    ensures { IfSome payload (λ p. result ≡ p.header.checksum) }
{
    match payload {
        Some(payload) => payload.header.checksum,
        None => 0,
    }
}
