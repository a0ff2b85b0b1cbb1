//! Writing a list as a run, compacting it alone, and reading it.
ghost use Rattle.std.specs.Prelude.{◌≡◌, ◌∷◌, [], List, IfErr, IfOk, IfSome, MatchOption};
ghost use Rattle.example_calling.specs.Reads.{ReadsSome};
ghost use Rattle.example_calling.specs.Written.{IfBothFit, OnTablesOf};
ghost use Rattle.sst_entries.specs.declared.error.Error.TheVariants.{OutOfMemory};
ghost use Rattle.lsm_tables.specs.Words.{AreCompactable, CanYield, Entry, Faults, FitsAsTables};
ghost use Rattle.lsm_tables.specs.Words.{IsRunOfList, IsWritable, both_fault, kept, tables_fault};
ghost use Rattle.lsm_tables.specs.Words.{unfiltered};

use crate::{Reads, read_run};
use lsm_tables::block::{Error, InternalValue, SeqNo, UserKey};
use lsm_tables::compaction::{Rules, compact_to_run};
use lsm_tables::run::{NewestOfRuns, Run, write_run};
use lsm_tables::table::{Table, TableIds, Timestamp};
use std::alloc::Allocator;
use std::ops::Bound;
use std::sync::Arc;

// Compacts a run alone into tables, and puts these in a run; none if nothing is kept.
fn compact_alone<A: Allocator + Clone>(
    alloc: A,
    run: Run<Table<A>, A>,
    ids: TableIds,
    target_size: u64,
    rules: Rules,
) -> Result<Option<Run<Table<A>, A>>, Error>
    requires { AreCompactable (run ∷ []) }
    // It is the run of what is kept of the list.
    ensures run { (es : List Entry) → IsRunOfList es 0 run →
        let left = kept rules (unfiltered es) in
        IfOk result (λ r. MatchOption r (left ≡ []) (λ new. IsRunOfList left 0 new)) }
    ensures none { (es : List Entry) → IsRunOfList es 0 run →
        let left = kept rules (unfiltered es) in
        IfOk result (λ r. IfSome r (λ _. left ≡ [] → ⊥)) }
    ensures refused { (es : List Entry) → IsRunOfList es 0 run →
        Faults result (tables_fault ids target_size 0 (kept rules (unfiltered es))) }
    ensures taken { (es : List Entry) → IsRunOfList es 0 run → IsWritable es →
        FitsAsTables ids target_size (kept rules (unfiltered es)) →
        IfErr result (λ e. e ≡ OutOfMemory) }
{
    let runs = [Arc::new(alloc.clone()?, run)?];
    let created_at = Timestamp::from(0);
    let (compacted, _) = compact_to_run(alloc, &runs, rules, ids, target_size, created_at)?;
    Ok(compacted)
}

// Writes a list as a run and compacts it; none if nothing is kept.
fn write_and_compact<A: Allocator + Clone>(
    alloc: &A,
    items: Vec<InternalValue<A>, A>,
    target_size: u64,
    rules: Rules,
) -> Result<Option<Run<Table<A>, A>>, Error>
    requires { IsWritable items.items }
    ensures run { let left = kept rules (unfiltered items.items) in
        IfOk result (λ r. MatchOption r (left ≡ []) (λ run. IsRunOfList left 0 run)) }
    ensures none { let left = kept rules (unfiltered items.items) in
        IfOk result (λ r. IfSome r (λ _. left ≡ [] → ⊥)) }
    // Except for `OutOfMemory`, the error is the first one: of writing the list, which is cut into
    // these tables, and then what is kept.
    ensures refused { let left = kept rules (unfiltered items.items) in
        OnTablesOf target_size items.items (λ tables.
        Faults result (both_fault target_size items.items tables left)) }
    ensures taken { IfBothFit target_size items.items (kept rules (unfiltered items.items))
        (IfErr result (λ e. e ≡ OutOfMemory)) }
{
    let (ids, created_at) = (TableIds::new(1), Timestamp::from(0));
    let (run, ids) = write_run(alloc.clone()?, ids, target_size, created_at, items, 0)?;
    let Some(run) = run else {
        return Ok(None);
    };
    compact_alone(alloc.clone()?, run, ids, target_size, rules)
}

/// Writes a list as a run, compacts it, opens the new tables, and returns a point read and a range;
/// `None` if nothing is kept.
///
/// By the contracts of writing, compacting, opening and reading runs alone, they read what the
/// compaction keeps of the list. The tables are of the first level, with ids from 1 on.
///
/// # Errors
///
/// The first error of writing the list, or else of writing what is kept with the next ids;
/// [`Error::OutOfMemory`].
pub fn compact_run_back<A: Allocator + Clone>(
    alloc: A,
    items: Vec<InternalValue<A>, A>,
    target_size: u64,
    rules: Rules,
    key: &[u8],
    seqno: SeqNo,
    range: (Bound<UserKey<A>>, Bound<UserKey<A>>),
) -> Result<Option<Reads<A>>, Error>
    requires { IsWritable items.items }
    // They are the first match of the key in what is kept and, from both ends, the newest version
    // of each key within the bounds.
    ensures list { let ends = ⟦<NewestOfRuns<A> as DoubleEndedIterator>⟧ in
        let left = kept rules (unfiltered items.items) in ReadsSome ends.next_gives
        ends.next_back_gives key.now seqno range left left result }
    // If nothing is kept, there is no result.
    ensures none { let left = kept rules (unfiltered items.items) in
        IfOk result (λ r. IfSome r (λ _. left ≡ [] → ⊥)) }
    // Both ends of the range may be called any number of times.
    ensures can { let ends = ⟦<NewestOfRuns<A> as DoubleEndedIterator>⟧ in
        IfOk result (λ r. IfSome r (λ read. CanYield ends.next_gives ends.next_back_gives
        ends.can_next ends.can_next_back read.1)) }
    // Except for `OutOfMemory`, the error is the first one: of writing the list, which is cut into
    // these tables, and then what is kept.
    ensures refused { let left = kept rules (unfiltered items.items) in
        OnTablesOf target_size items.items (λ tables.
        Faults result (both_fault target_size items.items tables left)) }
    // If the tables of the list fit, and then those of what is kept, with enough ids left, the only
    // error is `OutOfMemory`.
    ensures taken { IfBothFit target_size items.items (kept rules (unfiltered items.items))
        (IfErr result (λ e. e ≡ OutOfMemory)) }
{
    let run = write_and_compact(&alloc, items, target_size, rules)?;
    match run {
        Some(run) => Ok(Some(read_run(alloc, run, key, seqno, range)?)),
        None => Ok(None),
    }
}
