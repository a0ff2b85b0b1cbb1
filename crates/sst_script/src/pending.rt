//! The pending entries, which the next run is written from.
ghost use Rattle.std.specs.Prelude.{◌≡◌, ◌↔◌, [], ◌∷◌, ◌++◌, length, IsTrue, IfErr, IfOk, IfSome};
ghost use Rattle.std.specs.Prelude.{OnErr, OnOk, MatchOption};
ghost use Rattle.sst_script.specs.Words as spec;

use crate::Failure;
use lsm_readers::Table;
use lsm_runs::write_run;
use lsm_sorted::Run;
use lsm_writers::TableIds;
use sst_blocks::{Error, InternalValue, SeqNo, Slice, Timestamp, ValueType};
use std::alloc::Allocator;
use std::marker::Model;

/// The target size of a table in bytes of data blocks.
pub(crate) const TARGET_SIZE: u64 = 65_536;

/// Entries that tables can be written from. Its model is the list.
#[derive(Drop)]
pub(crate) struct Pending<A: Allocator> {
    items: Vec<InternalValue<A>, A>,
}

impl<A: Allocator> Model for Pending<A> {
    ghost use Rattle.std.specs.Prelude.{List};
    ghost use Rattle.sst_entries.specs.Entry.{Entry};
    ghost use Rattle.lsm_writers.specs.Writing.{IsWritable};

    ghost Value = { List Entry };

    ghost view = { λ p. p.items.items };

    ghost invariant = { λ p. IsWritable p.items.items };
}

impl<A: Allocator + Clone> Pending<A> {
    /// Returns an empty list.
    pub(crate) fn new(alloc: A) -> Pending<A>
        ensures { result ≡ [] }
    {
        Pending {
            items: Vec::new(alloc),
        }
    }

    /// Whether there are none.
    pub(crate) fn is_empty(&self) -> bool
        ensures { IsTrue result ↔ (self.now ≡ []) }
    {
        self.items.is_empty()
    }

    /// The entries.
    pub(crate) fn items(&self) -> &[InternalValue<A>]
        ensures items { result.now ≡ self.now }
        ensures writable { spec.IsWritable result.now }
    {
        &self.items
    }

    /// Whether an entry of this key and seqno may be next.
    fn can_follow(&self, key: &[u8], seqno: SeqNo) -> bool
        ensures { result ≡ spec.may_be_written self.now key.now seqno }
    {
        seqno < SeqNo::MAX
            && match self.items.last() {
                None => true,
                Some(last) => last
                    .key
                    .user_key
                    .as_slice()
                    .cmp(key)
                    .then(seqno.cmp(&last.key.seqno))
                    .is_lt(),
            }
    }

    /// Adds an entry.
    ///
    /// # Errors
    ///
    /// `BadLine` if the entry may not follow the last one, else `OutOfMemory`. Nothing is added
    /// then.
    pub(crate) fn add(
        &mut self,
        key: &[u8],
        seqno: SeqNo,
        kind: ValueType,
        value: &[u8],
    ) -> Result<(), Failure>
        ensures ok { OnOk result (self.new ≡ self.old ++ spec.entry key.now value.now seqno kind
            ∷ []) }
        ensures order { OnOk result (IsTrue (spec.may_be_written self.old key.now seqno)) }
        ensures refused { IfErr result (λ e. e ≡ spec.entry_failure self.old key.now seqno) }
        ensures err { OnErr result (self.new ≡ self.old) }
    {
        if !self.can_follow(key, seqno) {
            return Err(Failure::BadLine);
        }
        let alloc = self.items.allocator();
        let key = Slice::from(alloc.clone()?, key)?;
        let value = Slice::from(alloc.clone()?, value)?;
        self.items
            .push(InternalValue::from_components(key, value, seqno, kind))?;
        Ok(())
    }

    /// Drops the entries.
    pub(crate) fn clear(&mut self)
        ensures { self.new ≡ [] }
    {
        self.items.clear();
    }

    /// Writes the entries as tables, and opens these as a run, none if there are no entries; also
    /// returns the id counter after the last table.
    ///
    /// # Errors
    ///
    /// Those of [`write_run`].
    pub(crate) fn write(
        self,
        alloc: A,
        ids: TableIds,
    ) -> Result<(Option<Run<Table<A>, A>>, TableIds), Error>
        ensures run { IfOk result (λ r. MatchOption r.0 (self ≡ [])
            (λ run. spec.IsRunOfList self 0 run)) }
        ensures cut { IfOk result (λ r. IfSome r.0 (λ run.
            spec.AreCutOf (spec.run_label ids spec.target_size 0) spec.target_size self 0 run)) }
        ensures ids { IfOk result (λ r.
            r.1 ≡ spec.ids_behind ids spec.target_size (spec.option_map_or length r.0 0)) }
        ensures refused { spec.Faults result (spec.tables_fault ids spec.target_size 0 self) }
    {
        write_run(alloc, ids, TARGET_SIZE, Timestamp::from(0), self.items, 0)
    }
}
