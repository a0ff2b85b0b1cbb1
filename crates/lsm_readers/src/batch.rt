//! Point reads for a batch of queries in key order.
ghost use Rattle.std.specs.Prelude.{◌≡◌, ◌-◌, ◌<◌, ◌≤◌, IfOk, IfSome, IsOk, None, Ok, [], false};
ghost use Rattle.std.specs.Prelude.{length, replicate, slice_set};
ghost use Rattle.lsm_readers.specs.Words as spec;

use crate::keeping::Keeping;
use crate::order::{Headed, key_order};
use crate::point::admitted_handle;
use crate::{Inner, Query};
use sst_blocks::{BlockHandle, BlockSource, BlockType, Builder, Counted, Error, LoadBlocks, SeqNo};
use std::alloc::{AllocError, Allocator, Global};

/// How many data blocks are compared ahead of the reads that need them. So many blocks of 4 KiB fit
/// in a processor's nearest cache until they are read.
const AHEAD: usize = 8;

/// The index of a query, and the handle of the data block that its read needs, if any.
#[derive(Clone, Copy)]
pub(crate) struct Lookup {
    pub(crate) at: usize,
    pub(crate) handle: Option<BlockHandle>,
}

/// How a batch finds an entry in a data block, and what it returns of it.
pub(crate) trait Finder<A: Allocator + Clone> {
    ghost use Rattle.std.specs.Prelude.{◌+◌, ◌<◌, ◌^◌, IfOk, IfSome, List, ℕ};
    ghost use Rattle.lsm_readers.specs.Words as spec;

    /// The form of a found entry.
    type Found: Drop;

    /// It reads these bytes.
    ghost is_over: { Self → List ℕ → Type 0 };

    /// The entry that was found in these bytes.
    ghost entry: { List ℕ → Self.Found → spec.Entry };

    /// The found entry is within these bytes.
    ghost is_within: { List ℕ → Self.Found → Type 0 };

    /// Finds the newest version of a key below a stored seqno in the data block of a handle, and
    /// applies the global seqno. Fails as the load of that block does.
    fn find_in(
        &mut self,
        blocks: &BlockSource<A>,
        handle: &BlockHandle,
        global_seqno: SeqNo,
        key: &[u8],
        seqno: SeqNo,
    ) -> Result<Option<Self::Found>, Error>
        requires over { is_over self.old blocks.now }
        requires fits { seqno + global_seqno < 2 ^ 64 }
        ensures returned { let body = spec.body_of blocks.now in
            let read = spec.match_at body global_seqno key.now seqno handle.now in
            spec.Gives (spec.option_map (entry blocks.now)) result read.returned }
        ensures within { IfOk result (λ found. IfSome found (is_within blocks.now)) }
        ensures over { is_over self.new blocks.now };

    /// Prepares for several reads of a data block.
    fn expect(&mut self, blocks: &BlockSource<A>, handle: &BlockHandle)
        requires over { is_over self.old blocks.now }
        ensures over { is_over self.new blocks.now };
}

/// The results of some queries, in their order, and which of them are known.
#[derive(Drop)]
pub(crate) struct Batch<T: Drop, A: Allocator = Global> {
    pub(crate) found: Vec<Option<T>, A>,
    pub(crate) done: Vec<bool, A>,
}

impl<T: Drop, A: Allocator + Clone> Batch<T, A> {
    /// Returns a batch of `count` queries without any known result.
    fn new(alloc: &A, count: usize) -> Result<Batch<T, A>, AllocError>
        ensures found { IfOk result (λ b. b.found.items ≡ replicate count None) }
        ensures done { IfOk result (λ b. b.done.items ≡ replicate count false) }
    {
        let done = vec![in alloc.clone()?; false; count]?;
        let mut found = Vec::with_capacity(alloc.clone()?, count)?;
        for _ in 0..count {
            found.push(None)?;
        }
        Ok(Batch { found, done })
    }
}

/// Replaces an item. Generic, so that a proof does not unfold the parts of a large item.
fn put<T: Drop, A: Allocator>(items: &mut Vec<T, A>, at: usize, item: T)
    requires { at < length items.old.items }
    ensures { items.new.items ≡ slice_set items.old.items at item }
{
    items[at] = item;
}

/// The lookup of the query at an index. `None` if the lookup fails or there is no such query.
fn lookup_at<S: LoadBlocks>(
    source: &mut S,
    inner: &Inner<S::Alloc>,
    queries: &[Query<S::Alloc>],
    at: usize,
) -> Option<Lookup>
    requires { spec.IsKnown S.access }
    ensures lookup { let parts = spec.parts_of inner.now in
        IfSome result (λ p.
        spec.IsLookup (S.body source.old) inner.now.global_seqno parts queries.now p) }
    ensures body { S.body source.new ≡ S.body source.old }
{
    let query = queries.get(at)?;
    let key = query.key.as_slice();
    let low = query.seqno.saturating_sub(inner.global_seqno);
    match admitted_handle(source, inner, key, low, Builder::<S::Alloc>::get_hash(key)) {
        Ok(handle) => Some(Lookup { at, handle }),
        Err(_) => None,
    }
}

/// The lookups of the queries at some indexes, in that order, up to the first that fails.
fn find_lookups<S: LoadBlocks>(
    source: &mut S,
    inner: &Inner<S::Alloc>,
    queries: &[Query<S::Alloc>],
    order: &[Headed],
    alloc: S::Alloc,
) -> Result<Vec<Lookup, S::Alloc>, AllocError>
    requires { spec.IsKnown S.access }
    ensures lookups { let parts = spec.parts_of inner.now in
        IfOk result (λ lookups.
        spec.All (spec.IsLookup (S.body source.old) inner.now.global_seqno parts queries.now)
        lookups.items) }
    ensures body { S.body source.new ≡ S.body source.old }
{
    let mut lookups = Vec::with_capacity(alloc, order.len())?;
    for headed in order {
        let Some(lookup) = lookup_at(source, inner, queries, headed.at) else {
            return Ok(lookups);
        };
        lookups.push(lookup)?;
    }
    Ok(lookups)
}

/// Reads a query's key in the data block of a handle. Fails as the load of that block does.
fn read_lookup<F: Finder<A>, A: Allocator + Clone>(
    finder: &mut F,
    blocks: &BlockSource<A>,
    inner: &Inner<A>,
    query: &Query<A>,
    handle: Option<BlockHandle>,
) -> Result<Option<F::Found>, Error>
    requires over { F.is_over finder.old blocks.now }
    requires handle { let low = query.now.seqno - inner.now.global_seqno in
        (spec.admitted_handle (spec.body_of blocks.now) (spec.parts_of inner.now) query.now.key
        low).returned ≡ Ok handle }
    ensures returned { spec.Gives (spec.option_map (F.entry blocks.now)) result
        (spec.query_in blocks.now inner.now query.now) }
    ensures within { IfOk result (λ found. IfSome found (F.is_within blocks.now)) }
    ensures over { F.is_over finder.new blocks.now }
{
    let add = inner.global_seqno;
    let low = query.seqno.saturating_sub(add);
    match handle {
        Some(handle) => finder.find_in(blocks, &handle, add, query.key.as_slice(), low),
        None => Ok(None),
    }
}

/// Reads one query by itself.
fn read_one<F: Finder<A>, A: Allocator + Clone>(
    finder: &mut F,
    blocks: &BlockSource<A>,
    inner: &Inner<A>,
    query: &Query<A>,
) -> Result<Option<F::Found>, Error>
    requires over { F.is_over finder.old blocks.now }
    ensures returned { spec.Gives (spec.option_map (F.entry blocks.now)) result
        (spec.query_in blocks.now inner.now query.now) }
    ensures within { IfOk result (λ found. IfSome found (F.is_within blocks.now)) }
    ensures over { F.is_over finder.new blocks.now }
{
    let key = query.key.as_slice();
    let low = query.seqno.saturating_sub(inner.global_seqno);
    let mut source = Counted::new(blocks);
    let key_hash = Builder::<A>::get_hash(key);
    let handle = admitted_handle(&mut source, inner, key, low, key_hash)?;
    read_lookup(finder, blocks, inner, query, handle)
}

/// Collects the data blocks of the first lookups, at most [`AHEAD`], without immediate repeats.
/// Returns how many lookups these are: at least one, if there is any. Fails only if an allocation
/// fails.
fn gather_blocks<A: Allocator>(
    lookups: &[Lookup],
    blocks: &mut Vec<(BlockHandle, BlockType), A>,
) -> Result<usize, AllocError>
    ensures some { IfOk result (λ n. 0 < length lookups.now → 0 < n) }
    ensures within { IfOk result (λ n. n ≤ length lookups.now) }
{
    blocks.clear();
    let mut last = None;
    for (index, lookup) in lookups.iter().enumerate() {
        if lookup.handle != last {
            if blocks.len() == AHEAD {
                return Ok(index);
            }
            if let Some(handle) = lookup.handle {
                blocks.push((handle, BlockType::Data))?;
            }
            last = lookup.handle;
        }
    }
    Ok(lookups.len())
}

/// The data block that the read of a lookup needs. `None` past the end.
fn handle_of(lookups: &[Lookup], index: usize) -> Option<BlockHandle> {
    lookups.get(index)?.handle
}

/// Prepares for the read of a lookup, if it is the first of several that need the same data block.
fn prepare<F: Finder<A>, A: Allocator + Clone>(
    finder: &mut F,
    blocks: &BlockSource<A>,
    lookups: &[Lookup],
    index: usize,
)
    requires over { F.is_over finder.old blocks.now }
    ensures over { F.is_over finder.new blocks.now }
{
    let handle = handle_of(lookups, index);
    if handle != handle_of(lookups, index.wrapping_add(1))
        || handle == handle_of(lookups, index.wrapping_sub(1))
    {
        return;
    }
    if let Some(handle) = handle {
        finder.expect(blocks, &handle);
    }
}

/// Reads the queries of some lookups in order, up to the first that fails. Returns whether none
/// failed.
fn read_lookups<F: Finder<A>, A: Allocator + Clone>(
    finder: &mut F,
    blocks: &BlockSource<A>,
    inner: &Inner<A>,
    queries: &[Query<A>],
    lookups: &[Lookup],
    batch: &mut Batch<F::Found, A>,
) -> bool
    requires over { F.is_over finder.old blocks.now }
    requires lookups { let parts = spec.parts_of inner.now in
        spec.All (spec.IsLookup (spec.body_of blocks.now) inner.now.global_seqno parts queries.now)
        lookups.now }
    requires found { spec.AreFound (F.entry blocks.now) (F.is_within blocks.now) (spec.query_in
        blocks.now inner.now) queries.now batch.old.found.items batch.old.done.items }
    ensures found { spec.AreFound (F.entry blocks.now) (F.is_within blocks.now) (spec.query_in
        blocks.now inner.now) queries.now batch.new.found.items batch.new.done.items }
    ensures over { F.is_over finder.new blocks.now }
{
    for (index, lookup) in lookups.iter().enumerate() {
        prepare(finder, blocks, lookups, index);
        let query = &queries[lookup.at];
        let Ok(found) = read_lookup(finder, blocks, inner, query, lookup.handle) else {
            return false;
        };
        put(&mut batch.found, lookup.at, found);
        put(&mut batch.done, lookup.at, true);
    }
    true
}

/// Reads the queries of some lookups, up to the first that fails. The checksums of their blocks are
/// compared several in one loop, shortly before the reads.
fn read_ahead<F: Finder<A>, A: Allocator + Clone>(
    finder: &mut F,
    blocks: &BlockSource<A>,
    inner: &Inner<A>,
    queries: &[Query<A>],
    lookups: &[Lookup],
    batch: &mut Batch<F::Found, A>,
) -> Result<(), AllocError>
    requires over { F.is_over finder.old blocks.now }
    requires lookups { let parts = spec.parts_of inner.now in
        spec.All (spec.IsLookup (spec.body_of blocks.now) inner.now.global_seqno parts queries.now)
        lookups.now }
    requires found { spec.AreFound (F.entry blocks.now) (F.is_within blocks.now) (spec.query_in
        blocks.now inner.now) queries.now batch.old.found.items batch.old.done.items }
    ensures found { spec.AreFound (F.entry blocks.now) (F.is_within blocks.now) (spec.query_in
        blocks.now inner.now) queries.now batch.new.found.items batch.new.done.items }
    ensures over { F.is_over finder.new blocks.now }
{
    let mut named = Vec::with_capacity(blocks.allocator().clone()?, AHEAD)?;
    let mut from = 0;
    while from < lookups.len() {
        let far = &lookups[from..];
        let count = gather_blocks(far, &mut named)?;
        blocks.compare_together(&named);
        if !read_lookups(finder, blocks, inner, queries, &far[..count], batch) {
            return Ok(());
        }
        from += count;
    }
    Ok(())
}

/// Reads some queries in key order, up to the first that fails.
fn read_batch<F: Finder<A>, A: Allocator + Clone>(
    finder: &mut F,
    blocks: &BlockSource<A>,
    inner: &Inner<A>,
    queries: &[Query<A>],
    batch: &mut Batch<F::Found, A>,
) -> Result<(), AllocError>
    requires over { F.is_over finder.old blocks.now }
    requires found { spec.AreFound (F.entry blocks.now) (F.is_within blocks.now) (spec.query_in
        blocks.now inner.now) queries.now batch.old.found.items batch.old.done.items }
    ensures found { spec.AreFound (F.entry blocks.now) (F.is_within blocks.now) (spec.query_in
        blocks.now inner.now) queries.now batch.new.found.items batch.new.done.items }
    ensures over { F.is_over finder.new blocks.now }
{
    if queries.len() < 2 {
        // A single query has no neighbour to look up with.
        return Ok(());
    }
    let order = key_order(blocks.allocator().clone()?, queries)?;
    let alloc = blocks.allocator().clone()?;
    let lookups = find_lookups(&mut Keeping::new(blocks), inner, queries, &order, alloc)?;
    read_ahead(finder, blocks, inner, queries, &lookups, batch)
}

/// Returns what was found for all queries in order, and reads those that are not known yet. Fails
/// as the first of these reads that fails.
fn read_rest<F: Finder<A>, A: Allocator + Clone>(
    finder: &mut F,
    blocks: &BlockSource<A>,
    inner: &Inner<A>,
    queries: &[Query<A>],
    batch: Batch<F::Found, A>,
) -> Result<Vec<Option<F::Found>, A>, Error>
    requires over { F.is_over finder.old blocks.now }
    requires found { spec.AreFound (F.entry blocks.now) (F.is_within blocks.now) (spec.query_in
        blocks.now inner.now) queries.now batch.found.items batch.done.items }
    ensures returned { spec.Gives (λ found. spec.entries_by (F.entry blocks.now) found.items) result
        (spec.answers_to (spec.query_in blocks.now inner.now) queries.now) }
    ensures within { IfOk result (λ found.
        spec.All (λ one. IfSome one (F.is_within blocks.now)) found.items) }
{
    let Batch { mut found, done } = batch;
    for (at, query) in queries.iter().enumerate() {
        if !done[at] {
            put(&mut found, at, read_one(finder, blocks, inner, query)?);
        }
    }
    Ok(found)
}

/// Returns what is found for each query, in their order. Fails as the earliest query that fails, or
/// with [`Error::OutOfMemory`].
pub(crate) fn read_all<F: Finder<A>, A: Allocator + Clone>(
    finder: &mut F,
    blocks: &BlockSource<A>,
    inner: &Inner<A>,
    queries: &[Query<A>],
) -> Result<Vec<Option<F::Found>, A>, Error>
    requires over { F.is_over finder.old blocks.now }
    ensures returned { spec.Gives (λ found. spec.entries_by (F.entry blocks.now) found.items) result
        (spec.answers_to (spec.query_in blocks.now inner.now) queries.now) }
    ensures within { IfOk result (λ found.
        spec.All (λ one. IfSome one (F.is_within blocks.now)) found.items) }
    // Without queries it fails only if a clone of the allocator does.
    ensures calm { queries.now ≡ [] → ((alloc : A) → A.is_infallible alloc) → IsOk result }
{
    let alloc = blocks.allocator();
    if queries.is_empty() {
        return Ok(Vec::new(alloc.clone()?));
    }
    let mut batch = Batch::new(alloc, queries.len())?;
    // After an allocation failure or a failed read, each query that is left is read by itself.
    let _ = read_batch(finder, blocks, inner, queries, &mut batch);
    read_rest(finder, blocks, inner, queries, batch)
}
