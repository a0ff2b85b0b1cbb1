//! Point reads over any block source.
ghost use Rattle.std.specs.Prelude.{◌≡◌, ◌+◌, ◌<◌, ◌^◌, [], ℕ, List, Option, IfOk, IfSome, IsOk};
ghost use Rattle.lsm_readers.specs.Words as spec;

use crate::Inner;
use crate::pinned::handle_by;
use sst_blocks::{
    BlockHandle, BlockSource, Counted, EntryPlace, Error, InternalValue, LoadBlocks, Opened, SeqNo,
};
use std::alloc::Allocator;

// Applies the global seqno, which the caller has checked to fit.
fn lift<A: Allocator>(item: InternalValue<A>, global_seqno: SeqNo) -> InternalValue<A>
    requires { item.seqno + global_seqno < 2 ^ 64 }
    ensures { result ≡ spec.lifted global_seqno item }
{
    let mut item = item;
    item.key.seqno += global_seqno;
    item
}

// Whether the filter block at a handle may contain a hash.
fn block_admits<S: LoadBlocks>(
    source: &mut S,
    handle: &BlockHandle,
    key_hash: u64,
) -> Result<bool, Error>
    ensures read { let read = spec.block_admits (S.body source.old) key_hash handle.now in
        spec.ReadsFrom S.access result read (S.opened source.old) (S.opened source.new) }
    ensures body { S.body source.new ≡ S.body source.old }
{
    source.maybe_contains_hash(handle, key_hash)
}

// Whether the filter may contain a key.
fn filter_admits<S: LoadBlocks>(
    source: &mut S,
    inner: &Inner<S::Alloc>,
    key: &[u8],
    key_hash: u64,
) -> Result<bool, Error>
    ensures read { let read = spec.parts_admit (S.body source.old) (spec.parts_of inner.now) key.now
        key_hash in
        spec.ReadsFrom S.access result read (S.opened source.old) (S.opened source.new) }
    ensures body { S.body source.new ≡ S.body source.old }
{
    if let Some(tops) = &inner.pinned_filter_index {
        // Partitions are chosen by the key alone, whatever the seqno of the read.
        return match tops.find(key, SeqNo::MAX) {
            Some(handle) => block_admits(source, &handle, key_hash),
            None => Ok(false),
        };
    }
    match &inner.pinned_filter_block {
        Some(filter) => Ok(filter.maybe_contains_hash(key_hash)),
        None => match &inner.regions.filter {
            Some(handle) => block_admits(source, handle, key_hash),
            None => Ok(true),
        },
    }
}

// Whether a key may have a version below a stored seqno.
fn admission<S: LoadBlocks>(
    source: &mut S,
    inner: &Inner<S::Alloc>,
    key: &[u8],
    seqno: SeqNo,
    key_hash: u64,
) -> Result<bool, Error>
    requires { key_hash ≡ spec.hash_of key.now }
    ensures read { let read = spec.admission (S.body source.old) (spec.parts_of inner.now) key.now
        seqno in
        spec.ReadsFrom S.access result read (S.opened source.old) (S.opened source.new) }
    ensures body { S.body source.new ≡ S.body source.old }
{
    if seqno <= inner.metadata.seqnos.0 {
        return Ok(false);
    }
    filter_admits(source, inner, key, key_hash)
}

// The handle of the one data block that a read of a key at a stored seqno needs.
pub(crate) fn admitted_handle<S: LoadBlocks>(
    source: &mut S,
    inner: &Inner<S::Alloc>,
    key: &[u8],
    seqno: SeqNo,
    key_hash: u64,
) -> Result<Option<BlockHandle>, Error>
    requires { key_hash ≡ spec.hash_of key.now }
    ensures read { let read = spec.admitted_handle (S.body source.old) (spec.parts_of inner.now)
        key.now seqno in
        spec.ReadsFrom S.access result read (S.opened source.old) (S.opened source.new) }
    ensures body { S.body source.new ≡ S.body source.old }
{
    if admission(source, inner, key, seqno, key_hash)? {
        let (index, tli) = (&inner.pinned_block_index, &inner.regions.tli);
        handle_by(source, index, tli, key, seqno)
    } else {
        Ok(None)
    }
}

// Applies the global seqno to the entry found.
fn lifted_found<A: Allocator>(
    found: Option<InternalValue<A>>,
    global_seqno: SeqNo,
) -> Option<InternalValue<A>>
    requires { IfSome found (λ item. item.seqno + global_seqno < 2 ^ 64) }
    ensures { result ≡ spec.option_map (spec.lifted global_seqno) found }
{
    match found {
        Some(item) => Some(lift(item, global_seqno)),
        None => None,
    }
}

// Reads a key in the data block of a handle.
pub(crate) fn read_in<S: LoadBlocks>(
    source: &mut S,
    handle: BlockHandle,
    global_seqno: SeqNo,
    key: &[u8],
    seqno: SeqNo,
) -> Result<Option<InternalValue<S::Alloc>>, Error>
    requires { seqno + global_seqno < 2 ^ 64 }
    ensures read { let read = spec.match_at (S.body source.old) global_seqno key.now seqno handle in
        spec.ReadsFrom S.access result read (S.opened source.old) (S.opened source.new) }
    ensures body { S.body source.new ≡ S.body source.old }
{
    let found = source.point_read(&handle, key, seqno)?;
    Ok(lifted_found(found, global_seqno))
}

/// Returns the newest version of `key` visible at `seqno`, global seqno applied.
///
/// `key_hash` must be the hash of `key`. Blocks that are not pinned are loaded from `source`. These
/// are at most one filter block, one index block and one data block. The data block is the first
/// whose end reaches the key at that seqno.
///
/// # Errors
///
/// The first fault of loading these blocks, or [`Error::OutOfMemory`]. If no block is loaded, the
/// call does not fail. An example is a pinned filter that excludes the key, or that has no
/// partition for it.
pub fn point_in<S: LoadBlocks>(
    source: &mut S,
    inner: &Inner<S::Alloc>,
    key: &[u8],
    seqno: SeqNo,
    key_hash: u64,
) -> Result<Option<InternalValue<S::Alloc>>, Error>
    requires { key_hash ≡ spec.hash_of key.now }
    ensures returned { let read = spec.answer_by (S.body source.old) inner.now key.now seqno in
        spec.IsKnown S.access →
        spec.Gives (λ (found : Option spec.Entry). found) result read.returned }
    // If the bytes are in memory, a fault that is found before any allocation takes precedence over
    // `OutOfMemory`.
    ensures early { let read = spec.answer_by (S.body source.old) inner.now key.now seqno in
        spec.IsInMemory S.access → spec.FaultsFirst result read.early }
    // Without a load it does not fail: memory is allocated only for a block.
    ensures calm { let read = spec.answer_by (S.body source.old) inner.now key.now seqno in
        spec.IsKnown S.access → read.loads ≡ [] → IsOk result }
    ensures body { S.body source.new ≡ S.body source.old }
    // It makes the loads of the read, and no others.
    ensures opened { let read = spec.answer_by (S.body source.old) inner.now key.now seqno in
        spec.IsKnown S.access →
        spec.Opens result read.loads (S.opened source.old) (S.opened source.new) }
    // These are few, also if an allocation fails.
    ensures few { spec.IsKnown S.access → spec.LoadsFew (spec.parts_of inner.now)
        (S.opened source.old) (S.opened source.new) }
{
    let low = seqno.saturating_sub(inner.global_seqno);
    match admitted_handle(source, inner, key, low, key_hash)? {
        Some(handle) => read_in(source, handle, inner.global_seqno, key, low),
        None => Ok(None),
    }
}

// Applies the global seqno to a position, which the caller has checked to fit.
fn lift_place(place: EntryPlace, global_seqno: SeqNo) -> EntryPlace
    requires { place.seqno + global_seqno < 2 ^ 64 }
    ensures entry { (bytes : List ℕ) →
        spec.entry_placed bytes result ≡ spec.lifted global_seqno (spec.entry_placed bytes place) }
    ensures placed { (bytes : List ℕ) → spec.IsPlacedIn bytes place → spec.IsPlacedIn bytes result }
{
    let mut place = place;
    place.seqno += global_seqno;
    place
}

// Applies the global seqno to the position found.
fn lifted_place(found: Option<EntryPlace>, global_seqno: SeqNo) -> Option<EntryPlace>
    requires { IfSome found (λ place. place.seqno + global_seqno < 2 ^ 64) }
    ensures entry { (bytes : List ℕ) → spec.option_map (spec.entry_placed bytes) result
        ≡ spec.option_map (spec.lifted global_seqno)
        (spec.option_map (spec.entry_placed bytes) found) }
    ensures placed { (bytes : List ℕ) → IfSome found (spec.IsPlacedIn bytes) →
        IfSome result (spec.IsPlacedIn bytes) }
{
    match found {
        Some(place) => Some(lift_place(place, global_seqno)),
        None => None,
    }
}

// The position of the newest visible version in the data block of a handle.
pub(crate) fn place_at<A: Allocator + Clone>(
    source: &BlockSource<A>,
    handle: &BlockHandle,
    global_seqno: SeqNo,
    key: &[u8],
    seqno: SeqNo,
    opened: &mut Opened,
) -> Result<Option<EntryPlace>, Error>
    requires { seqno + global_seqno < 2 ^ 64 }
    ensures read { spec.DoesRead spec.in_memory (spec.placed_entry source.now result) (spec.match_at
        (spec.body_of source.now) global_seqno key.now seqno handle.now) opened.old opened.new }
    ensures placed { IfOk result (λ found. IfSome found (spec.IsPlacedIn source.now)) }
{
    let found = source.point_place(handle, key, seqno, opened)?;
    Ok(lifted_place(found, global_seqno))
}

// The position of the newest visible version in a table, and the number of loads by kind.
fn read_place<A: Allocator + Clone>(
    source: &BlockSource<A>,
    inner: &Inner<A>,
    key: &[u8],
    seqno: SeqNo,
    key_hash: u64,
) -> (Result<Option<EntryPlace>, Error>, Opened)
    requires { key_hash ≡ spec.hash_of key.now }
    ensures read { spec.DoesRead spec.in_memory (spec.placed_entry source.now result.0)
        (spec.table_answer (spec.table_of source.now inner.now) key.now seqno) spec.none_opened
        result.1 }
    ensures placed { IfOk result.0 (λ found. IfSome found (spec.IsPlacedIn source.now)) }
{
    let add = inner.global_seqno;
    let low = seqno.saturating_sub(add);
    let mut counted = Counted::new(source);
    let admitted = admitted_handle(&mut counted, inner, key, low, key_hash);
    let mut opened = counted.opened();
    let handle = match admitted {
        Ok(handle) => handle,
        Err(error) => return (Err(error), opened),
    };
    match handle {
        Some(handle) => {
            let found = place_at(source, &handle, add, key, low, &mut opened);
            (found, opened)
        }
        None => (Ok(None), opened),
    }
}

/// Returns the position of the newest version of `key` visible at `seqno`, and the loads by kind.
///
/// The position's seqno has the global seqno applied. `key_hash` must be the hash of `key`. The
/// call loads the blocks that [`point_in`] loads. Its result shares no bytes.
///
/// # Errors
///
/// Those of [`point_in`]. If no block is loaded, the call does not fail.
pub fn place_in<A: Allocator + Clone>(
    source: &BlockSource<A>,
    inner: &Inner<A>,
    key: &[u8],
    seqno: SeqNo,
    key_hash: u64,
) -> (Result<Option<EntryPlace>, Error>, Opened)
    requires { key_hash ≡ spec.hash_of key.now }
    ensures returned { spec.Gives (spec.option_map (spec.entry_placed source.now)) result.0
        (spec.table_answer (spec.table_of source.now inner.now) key.now seqno).returned }
    ensures early { spec.FaultsFirst result.0 (spec.table_answer (spec.table_of source.now
        inner.now) key.now seqno).early }
    ensures calm { (spec.table_answer (spec.table_of source.now inner.now) key.now seqno).loads ≡ []
        → IsOk result.0 }
    ensures opened { spec.Opens result.0 (spec.table_answer (spec.table_of source.now inner.now)
        key.now seqno).loads spec.none_opened result.1 }
    ensures few { spec.LoadsFew (spec.parts_of inner.now) spec.none_opened result.1 }
    // The entry is within the bytes.
    ensures placed { IfOk result.0 (λ found. IfSome found (spec.IsPlacedIn source.now)) }
{
    read_place(source, inner, key, seqno, key_hash)
}
