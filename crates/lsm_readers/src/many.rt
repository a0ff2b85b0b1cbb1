//! Point reads of many keys in one table.
ghost use Rattle.std.specs.Prelude.{◌≡◌, IfOk, IfSome, IsOk, []};
ghost use Rattle.lsm_readers.specs.Words as spec;

use crate::Inner;
use crate::batch::{Finder, read_all};
use crate::keeping::Keeping;
use crate::point::place_at;
use sst_blocks::{
    BlockHandle, BlockSource, EntryPlace, Error, InternalValue, Opened, SeqNo, UserKey,
};
use std::alloc::{Allocator, Global};

/// A point read of one key at a snapshot, for [`get_many`](crate::get_many).
#[derive(Drop)]
#[derive_where(Debug, PartialEq, Eq)]
pub struct Query<A: Allocator = Global> {
    /// The key.
    pub key: UserKey<A>,
    /// The snapshot: only versions with a smaller seqno are visible.
    pub seqno: SeqNo,
}

/// Returns the newest visible version of each query's key, in the order of the queries.
///
/// Each result is that of [`point_in`](crate::point_in) with the hash of the query's key. Queries
/// may be in any order and may repeat. They are looked up in key order. The checksums of their data
/// blocks are compared several in one loop. A block that several keys need is loaded once, if
/// memory for its entry offsets is available.
///
/// # Errors
///
/// The error of the earliest query that has one, or [`Error::OutOfMemory`]. No result is returned
/// then. The list is allocated first, so `OutOfMemory` can replace any other error. It can also
/// occur if the reads would load nothing. Without queries, the call fails only if a clone of the
/// allocator does.
pub fn many_in<A: Allocator + Clone>(
    blocks: &BlockSource<A>,
    inner: &Inner<A>,
    queries: &[Query<A>],
) -> Result<Vec<Option<InternalValue<A>>, A>, Error>
    ensures returned { spec.Gives (λ found. found.items) result (spec.answers_to (spec.query_in
        blocks.now inner.now) queries.now) }
    // Without queries it fails only if a clone of the allocator does.
    ensures calm { queries.now ≡ [] → ((alloc : A) → A.is_infallible alloc) → IsOk result }
{
    read_all(&mut Keeping::new(blocks), blocks, inner, queries)
}

/// Finds positions. Each is found by a pass over its block up to the key.
#[derive(Drop)]
struct Places;

impl<A: Allocator + Clone> Finder<A> for Places {
    type Found = EntryPlace;

    ghost is_over = { λ _ _. Unit {0} };

    ghost entry = { spec.entry_placed };

    ghost is_within = { spec.IsPlacedIn };

    fn find_in(
        &mut self,
        blocks: &BlockSource<A>,
        handle: &BlockHandle,
        global_seqno: SeqNo,
        key: &[u8],
        seqno: SeqNo,
    ) -> Result<Option<EntryPlace>, Error> {
        place_at(
            blocks,
            handle,
            global_seqno,
            key,
            seqno,
            &mut Opened::none(),
        )
    }

    fn expect(&mut self, _blocks: &BlockSource<A>, _handle: &BlockHandle) {}
}

/// Returns the position of the newest visible version of each query's key, in the order of the
/// queries.
///
/// Each position is that of [`place_in`](crate::place_in) with the hash of the query's key. Queries
/// may be in any order and may repeat. They are looked up in key order. The checksums of their data
/// blocks are compared several in one loop. The result shares no bytes.
///
/// # Errors
///
/// Those of [`many_in`].
pub fn many_places_in<A: Allocator + Clone>(
    blocks: &BlockSource<A>,
    inner: &Inner<A>,
    queries: &[Query<A>],
) -> Result<Vec<Option<EntryPlace>, A>, Error>
    ensures returned { spec.Gives (λ found. spec.entries_placed blocks.now found.items) result
        (spec.answers_to (spec.query_in blocks.now inner.now) queries.now) }
    // The entries are within the bytes.
    ensures placed { IfOk result (λ found.
        spec.All (λ place. IfSome place (spec.IsPlacedIn blocks.now)) found.items) }
    // Without queries it fails only if a clone of the allocator does.
    ensures calm { queries.now ≡ [] → ((alloc : A) → A.is_infallible alloc) → IsOk result }
{
    read_all(&mut Places, blocks, inner, queries)
}
