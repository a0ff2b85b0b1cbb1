//! Point reads that borrow the entry from the table's bytes.
ghost use Rattle.std.specs.Prelude.{◌≡◌, [], IfOk, IfSome, IsOk, List, Ok, Option};
ghost use Rattle.lsm_readers.specs.Words as spec;

use crate::{Inner, Table, place_in};
use sst_blocks::{EntryPlace, EntryRef, Error, Opened, SeqNo};
use std::alloc::Allocator;

impl<A: Allocator + Clone> Table<A> {
    /// Returns the position of the newest version of `key` visible at `seqno`, and the loads by
    /// kind.
    ///
    /// The position's seqno has the global seqno applied. `key_hash` must be [`Table::key_hash`] of
    /// the key. The result borrows nothing: [`Table::entry_at`] borrows the entry from the table.
    ///
    /// # Errors
    ///
    /// Those of [`Table::get_ref`].
    pub fn get_place(
        &self,
        key: &[u8],
        seqno: SeqNo,
        key_hash: u64,
    ) -> (Result<Option<EntryPlace>, Error>, Opened)
        requires { key_hash ≡ spec.hash_of key.now }
        ensures returned { spec.Gives (spec.option_map (spec.entry_placed self.now.bytes)) result.0
            (spec.table_answer self.now key.now seqno).returned }
        // A fault that is found before any allocation takes precedence over `OutOfMemory`.
        ensures early { spec.FaultsFirst result.0 (spec.table_answer self.now key.now seqno).early }
        // If no block is loaded, the read does not fail.
        ensures calm { (spec.table_answer self.now key.now seqno).loads ≡ [] → IsOk result.0 }
        ensures opened { let loads = (spec.table_answer self.now key.now seqno).loads in
            spec.Opens result.0 loads spec.none_opened result.1 }
        ensures few { spec.LoadsFew self.now.parts spec.none_opened result.1 }
        ensures open { spec.IsOpen self.now }
        // The entry is within the table's bytes.
        ensures placed { IfOk result.0 (λ found. IfSome found (spec.IsPlacedIn self.now.bytes)) }
        // On bytes that store a list it is the newest visible version in the list, global seqno
        // applied.
        ensures list { spec.FindsInList (spec.option_map (spec.entry_placed self.now.bytes))
            self.now key.now seqno result.0 }
    {
        let inner: &Inner<A> = &self.inner;
        place_in(&self.source, inner, key, seqno, key_hash)
    }

    /// Returns the entry at a position that [`Table::get_place`] of this table returned, borrowed
    /// from the table.
    ///
    /// A position of another table yields some bytes of this one, or `None` if it is past their
    /// end.
    #[inline]
    pub fn entry_at(&self, place: &EntryPlace) -> Option<EntryRef<'_>>
        ensures { spec.option_map spec.entry_of_ref result ≡ spec.placed_in self.now.bytes
            place.now }
    {
        self.source.entry_at(place)
    }

    // Borrows the entry at the position found.
    fn found_at(
        &self,
        found: Result<Option<EntryPlace>, Error>,
    ) -> Result<Option<EntryRef<'_>>, Error>
        requires { IfOk found (λ place. IfSome place (spec.IsPlacedIn self.now.bytes)) }
        ensures { spec.result_map (spec.option_map spec.entry_of_ref) result
            ≡ spec.result_map (spec.option_map (spec.entry_placed self.now.bytes)) found }
    {
        match found {
            Ok(Some(place)) => Ok(self.entry_at(&place)),
            Ok(None) => Ok(None),
            Err(error) => Err(error),
        }
    }

    /// Returns the newest version of `key` visible at `seqno`, borrowed from the table, and the
    /// loads by kind.
    ///
    /// The version and the errors are those of [`Table::get_ref`].
    pub fn get_ref_counted(
        &self,
        key: &[u8],
        seqno: SeqNo,
        key_hash: u64,
    ) -> (Result<Option<EntryRef<'_>>, Error>, Opened)
        requires { key_hash ≡ spec.hash_of key.now }
        ensures returned { spec.Gives (spec.option_map spec.entry_of_ref) result.0
            (spec.table_answer self.now key.now seqno).returned }
        // A fault that is found before any allocation takes precedence over `OutOfMemory`.
        ensures early { spec.FaultsFirst result.0 (spec.table_answer self.now key.now seqno).early }
        // If no block is loaded, the read does not fail.
        ensures calm { (spec.table_answer self.now key.now seqno).loads ≡ [] → IsOk result.0 }
        ensures opened { let loads = (spec.table_answer self.now key.now seqno).loads in
            spec.Opens result.0 loads spec.none_opened result.1 }
        ensures few { spec.LoadsFew self.now.parts spec.none_opened result.1 }
        ensures open { spec.IsOpen self.now }
        // On bytes that store a list it is the newest visible version in the list, global seqno
        // applied.
        ensures list { spec.FindsInList (spec.option_map spec.entry_of_ref) self.now key.now seqno
            result.0 }
    {
        let (found, opened) = self.get_place(key, seqno, key_hash);
        (self.found_at(found), opened)
    }

    /// Returns the newest version of `key` visible at `seqno`, borrowed from the table.
    ///
    /// It is the entry that [`Table::get`] returns, global seqno applied, without taking a
    /// reference count. `key_hash` must be [`Table::key_hash`] of the key. The read loads at most
    /// one filter block, one index block and one data block. A tombstone is returned as an entry;
    /// test [`EntryRef::is_tombstone`].
    ///
    /// # Errors
    ///
    /// The first fault of loading these blocks, or [`Error::OutOfMemory`]. If no block is loaded,
    /// the read does not fail.
    pub fn get_ref(
        &self,
        key: &[u8],
        seqno: SeqNo,
        key_hash: u64,
    ) -> Result<Option<EntryRef<'_>>, Error>
        requires { key_hash ≡ spec.hash_of key.now }
        ensures returned { spec.Gives (spec.option_map spec.entry_of_ref) result
            (spec.table_answer self.now key.now seqno).returned }
        ensures early { spec.FaultsFirst result (spec.table_answer self.now key.now seqno).early }
        ensures calm { (spec.table_answer self.now key.now seqno).loads ≡ [] → IsOk result }
        // On bytes that store a list it is the newest visible version in the list, global seqno
        // applied.
        ensures list { (es : List spec.Entry) → spec.StoresList self.now.bytes es → spec.Gives
            (spec.option_map spec.entry_of_ref) result (Ok (spec.point (spec.lift es
            self.now.global_seqno) key.now seqno)) }
    {
        self.get_ref_counted(key, seqno, key_hash).0
    }
}
