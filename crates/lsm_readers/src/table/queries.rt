//! Point reads of many keys in one table.
ghost use Rattle.std.specs.Prelude.{◌≡◌, IfOk, IfSome, IsOk, List, Ok, [], map};
ghost use Rattle.lsm_readers.specs.Words as spec;

use crate::{Inner, Query, Table, many_in, many_places_in};
use sst_blocks::{EntryPlace, Error, InternalValue};
use std::alloc::Allocator;

fn answers<A: Allocator + Clone>(
    table: &Table<A>,
    queries: &[Query<A>],
) -> Result<Vec<Option<InternalValue<A>>, A>, Error>
    ensures returned { spec.Gives (λ found. found.items) result
        (spec.many_results table.now queries.now) }
    ensures open { spec.IsOpen table.now }
    ensures calm { queries.now ≡ [] → ((alloc : A) → A.is_infallible alloc) → IsOk result }
{
    let inner: &Inner<A> = &table.inner;
    many_in(&table.source, inner, queries)
}

/// Returns the newest visible version of each query's key, in the order of the queries.
///
/// Each result is that of [`Table::get`] with the hash of the query's key. Queries may be in any
/// order and may repeat. They are looked up in key order. The checksums of their data blocks are
/// compared several in one loop. A block that several keys need is loaded once, if memory for its
/// entry offsets is available. A tombstone is returned as an entry; test
/// [`InternalValue::is_tombstone`].
///
/// # Errors
///
/// The error of the earliest query that has one, or [`Error::OutOfMemory`]. No result is returned
/// then, and the table does not change. The list is allocated first, so `OutOfMemory` can replace
/// any other error. It can also occur if `get` would load nothing. Without queries, the call fails
/// only if a clone of the allocator does.
///
/// # Examples
///
/// ```
/// queries.push(Query {
///     key: Slice::from(alloc, one.0)?,
///     seqno: one.1,
/// })?;
/// // ..
/// let queries = queries_of(by.0, by.1)?;
/// let found = get_many(table, &queries);
/// ```
pub fn get_many<A: Allocator + Clone>(
    table: &Table<A>,
    queries: &[Query<A>],
) -> Result<Vec<Option<InternalValue<A>>, A>, Error>
    ensures returned { spec.Gives (λ found. found.items) result
        (spec.many_results table.now queries.now) }
    // On bytes that store a list it is each query's newest visible version in the list, global
    // seqno applied. It fails with `OutOfMemory` only.
    ensures list { (es : List spec.Entry) → spec.StoresList table.now.bytes es → spec.Gives (λ
        found. found.items) result (Ok (spec.points es table.now.global_seqno queries.now)) }
    // Without queries it fails only if a clone of the allocator does.
    ensures calm { queries.now ≡ [] → ((alloc : A) → A.is_infallible alloc) → IsOk result }
{
    answers(table, queries)
}

fn places<A: Allocator + Clone>(
    table: &Table<A>,
    queries: &[Query<A>],
) -> Result<Vec<Option<EntryPlace>, A>, Error>
    ensures returned { spec.Gives (λ found. spec.entries_placed table.now.bytes found.items) result
        (spec.many_results table.now queries.now) }
    ensures placed { IfOk result (λ found.
        spec.All (λ place. IfSome place (spec.IsPlacedIn table.now.bytes)) found.items) }
    ensures open { spec.IsOpen table.now }
    ensures calm { queries.now ≡ [] → ((alloc : A) → A.is_infallible alloc) → IsOk result }
{
    let inner: &Inner<A> = &table.inner;
    many_places_in(&table.source, inner, queries)
}

/// Returns the position of the newest visible version of each query's key, in the order of the
/// queries.
///
/// Each is the position of the entry that [`get_many`] returns, without taking a reference count:
/// [`Table::entry_at`] borrows the entry from the table. The result borrows nothing. Queries may be
/// in any order and may repeat. They are looked up in key order. The checksums of their data blocks
/// are compared several in one loop.
///
/// # Errors
///
/// Those of [`get_many`]. No result is returned then, and the table does not change.
pub fn get_many_places<A: Allocator + Clone>(
    table: &Table<A>,
    queries: &[Query<A>],
) -> Result<Vec<Option<EntryPlace>, A>, Error>
    ensures returned { spec.Gives (λ found. spec.entries_placed table.now.bytes found.items) result
        (spec.many_results table.now queries.now) }
    // The entries are within the table's bytes.
    ensures placed { IfOk result (λ found.
        spec.All (λ place. IfSome place (spec.IsPlacedIn table.now.bytes)) found.items) }
    // On bytes that store a list they are each query's newest visible version in the list, global
    // seqno applied. It fails with `OutOfMemory` only.
    ensures list { (es : List spec.Entry) → spec.StoresList table.now.bytes es → spec.Gives (λ
        found. spec.entries_placed table.now.bytes found.items) result (Ok (spec.points es
        table.now.global_seqno queries.now)) }
    // Without queries it fails only if a clone of the allocator does.
    ensures calm { queries.now ≡ [] → ((alloc : A) → A.is_infallible alloc) → IsOk result }
{
    places(table, queries)
}
