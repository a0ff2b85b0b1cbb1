//! Results of point reads of many keys.
ghost use Rattle.std.specs.Prelude.{◌≡◌, ◌<◌, IfErr, IfOk, IfSome, List, Ok, Option, Some};
ghost use Rattle.std.specs.Prelude.{length, map};
ghost use Rattle.sst_c.specs.Words as spec;

use lsm_readers::{Query, Table, get_many_places};
use sst_blocks::{EntryPlace, EntryRef, Error};
use std::marker::Model;

/// The results of point reads of a table, one for each key.
///
/// They are positions in the table's bytes, with one reference to the table. Contracts see the
/// entries.
#[derive(Drop)]
pub struct AnswerList {
    table: Table,
    places: Vec<Option<EntryPlace>>,
}

impl Model for AnswerList {
    ghost use Rattle.std.specs.Prelude.{List, Option, map};
    ghost use Rattle.std.specs.Option.{option_and_then};
    ghost use Rattle.sst_blocks.specs.EntryPlace.{placed_in};
    ghost use Rattle.sst_entries.specs.Entry.{Entry};

    ghost Value = { List (Option Entry) };

    ghost view = { λ l. map (option_and_then (placed_in l.table.bytes)) l.places.items };
}

impl AnswerList {
    // The entries at positions within a table's bytes.
    fn placed(table: &Table, places: Vec<Option<EntryPlace>>) -> Result<AnswerList, Error>
        requires { spec.All (λ place. IfSome place (spec.IsPlacedIn table.now.bytes)) places.items }
        ensures ok { IfOk result (λ found.
            found ≡ spec.entries_placed table.now.bytes places.items) }
        ensures err { IfErr result (λ e. e ≡ spec.OutOfMemory) }
    {
        let share = table.clone()?;
        Ok(AnswerList {
            table: share,
            places,
        })
    }

    /// Reads a table for some queries. Fails as `get_many`.
    pub(crate) fn read(table: &Table, queries: &[Query]) -> Result<AnswerList, Error>
        ensures returned { spec.GivesMany result (spec.many_results table.now queries.now) }
        ensures list { (es : List spec.Entry) → spec.StoresList table.now.bytes es →
            spec.GivesMany result (Ok (spec.points_asked es table.now.global_seqno queries.now)) }
    {
        match get_many_places(table, queries) {
            Ok(places) => AnswerList::placed(table, places),
            Err(error) => Err(error),
        }
    }

    /// The number of keys.
    pub(crate) fn len(&self) -> usize
        ensures { result ≡ length self.now }
    {
        self.places.len()
    }

    /// The entry found for the key at an index, borrowed from the table.
    pub(crate) fn entry(&self, index: usize) -> Option<EntryRef<'_>>
        requires { index < length self.now }
        ensures { spec.slice_get self.now index ≡ Some (spec.option_map spec.entry_of_ref result) }
    {
        match &self.places[index] {
            Some(place) => self.table.entry_at(place),
            None => None,
        }
    }
}
