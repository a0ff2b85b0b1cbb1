//! Compacting a part of several runs, and reading the runs before and after.
ghost use Rattle.std.specs.Prelude.{◌≡◌, ◌∷◌, ◌++◌, [], IfErr, IfOk, MatchOption, OnOk, map};
ghost use Rattle.example_calling.specs.Reads.{OnSides, ReadsAfter, ReadsAlike, ReadsBefore};
ghost use Rattle.example_calling.specs.Reads.{ReadsSides, ReadsSidesKept};
ghost use Rattle.lsm_tables.specs.Words.{OnLists};
ghost use Rattle.lsm_tables.specs.Words as spec;
ghost use Rattle.std.specs.Arc.{arc_value};

use crate::Reads;
use crate::reads::read_runs;
use lsm_iters::beside;
use lsm_tables::block::{Error, SeqNo, UserKey};
use lsm_tables::compaction::{Rules, compact_to_run};
use lsm_tables::laws::compaction_law;
use lsm_tables::run::{NewestOfRuns, Run, share};
use lsm_tables::table::{Table, TableIds, Timestamp};
use std::alloc::Allocator;
use std::ops::Bound;
use std::sync::Arc;

// Shares runs and adds them after others.
fn share_behind<A: Allocator>(
    shared: &mut Vec<Arc<Run<Table<A>, A>, A>, A>,
    runs: &[Arc<Run<Table<A>, A>, A>],
) -> Result<(), Error>
    ensures runs { OnOk result (map arc_value shared.new.items ≡ map arc_value shared.old.items
        ++ spec.each_run runs.now) }
    ensures err { IfErr result (λ e. e ≡ spec.OutOfMemory) }
{
    for run in runs {
        shared.push(run.clone()?)?;
    }
    Ok(())
}

// Adjacent runs: those before a part, the part, and those after it.
fn side_by_side<A: Allocator + Clone>(
    alloc: &A,
    front: &[Arc<Run<Table<A>, A>, A>],
    part: &[Arc<Run<Table<A>, A>, A>],
    behind: &[Arc<Run<Table<A>, A>, A>],
) -> Result<Vec<Arc<Run<Table<A>, A>, A>, A>, Error>
    ensures runs { IfOk result (λ v. map arc_value v.items
        ≡ map arc_value front.now ++ (map arc_value part.now ++ map arc_value behind.now)) }
    ensures err { IfErr result (λ e. e ≡ spec.OutOfMemory) }
{
    let mut runs = Vec::new(alloc.clone()?);
    share_behind(&mut runs, front)?;
    share_behind(&mut runs, part)?;
    share_behind(&mut runs, behind)?;
    Ok(runs)
}

// A point read and a range of adjacent runs.
fn read_side_by_side<A: Allocator + Clone>(
    alloc: &A,
    front: &[Arc<Run<Table<A>, A>, A>],
    part: &[Arc<Run<Table<A>, A>, A>],
    behind: &[Arc<Run<Table<A>, A>, A>],
    key: &[u8],
    seqno: SeqNo,
    range: (Bound<UserKey<A>>, Bound<UserKey<A>>),
) -> Result<Reads<A>, Error>
    ensures list { ReadsSides ⟦<NewestOfRuns<A> as Iterator>⟧.next_gives
        ⟦<NewestOfRuns<A> as DoubleEndedIterator>⟧.next_back_gives key.now seqno range
        front.now part.now behind.now result }
    ensures can { let ends = ⟦<NewestOfRuns<A> as DoubleEndedIterator>⟧ in
        IfOk result (λ read. spec.CanYield ends.next_gives ends.next_back_gives ends.can_next
        ends.can_next_back read.1) }
    ensures taken { OnSides front.now part.now behind.now (λ _ _ _.
        IfErr result (λ e. e ≡ spec.OutOfMemory)) }
{
    let runs = side_by_side(alloc, front, part, behind)?;
    read_runs(alloc, &runs, key, seqno, range)
}

// A point read and a range of adjacent runs. It shares the bounds, because they are used again.
fn read_within<A: Allocator + Clone>(
    alloc: &A,
    front: &[Arc<Run<Table<A>, A>, A>],
    part: &[Arc<Run<Table<A>, A>, A>],
    behind: &[Arc<Run<Table<A>, A>, A>],
    key: &[u8],
    seqno: SeqNo,
    range: &(Bound<UserKey<A>>, Bound<UserKey<A>>),
) -> Result<Reads<A>, Error>
    ensures list { ReadsSides ⟦<NewestOfRuns<A> as Iterator>⟧.next_gives
        ⟦<NewestOfRuns<A> as DoubleEndedIterator>⟧.next_back_gives key.now seqno
        range.now front.now part.now behind.now result }
    ensures can { let ends = ⟦<NewestOfRuns<A> as DoubleEndedIterator>⟧ in
        IfOk result (λ read. spec.CanYield ends.next_gives ends.next_back_gives ends.can_next
        ends.can_next_back read.1) }
    ensures taken { OnSides front.now part.now behind.now (λ _ _ _.
        IfErr result (λ e. e ≡ spec.OutOfMemory)) }
{
    let bounds = (share(&range.0)?, share(&range.1)?);
    read_side_by_side(alloc, front, part, behind, key, seqno, bounds)
}

// A run alone, as a shared one; none if there is none.
fn shared_alone<A: Allocator + Clone>(
    alloc: &A,
    run: Option<Run<Table<A>, A>>,
) -> Result<Vec<Arc<Run<Table<A>, A>, A>, A>, Error>
    ensures runs { IfOk result (λ v.
        MatchOption run (v.items ≡ []) (λ r. map arc_value v.items ≡ r ∷ [])) }
    ensures err { IfErr result (λ e. e ≡ spec.OutOfMemory) }
{
    let mut runs = Vec::new(alloc.clone()?);
    match run {
        None => Ok(runs),
        Some(run) => {
            runs.push(Arc::new(alloc.clone()?, run)?)?;
            Ok(runs)
        }
    }
}

// Compacts a part into a run, if something is kept.
fn compact_part<A: Allocator + Clone>(
    alloc: &A,
    part: &[Arc<Run<Table<A>, A>, A>],
    rules: Rules,
    ids: TableIds,
    target_size: u64,
    created_at: Timestamp,
) -> Result<Vec<Arc<Run<Table<A>, A>, A>, A>, Error>
    requires { spec.AreCompactable (spec.each_run part.now) }
    ensures made { OnLists part.now (λ ps. IfOk result (λ v. (made : spec.TableLists)
        × (spec.joined_in made ≡ spec.kept_in rules ps)
        × spec.RunsHoldLists (map arc_value v.items) made)) }
    ensures refused { (ps : spec.TableLists) → spec.RunsHold part.now ps →
        spec.Faults result (spec.tables_fault ids target_size created_at (spec.kept_in rules ps)) }
    ensures taken { (ps : spec.TableLists) → spec.RunsHold part.now ps →
        spec.FitsAsTables ids target_size (spec.kept_in rules ps) →
        IfErr result (λ e. e ≡ spec.OutOfMemory) }
{
    let (run, _) = compact_to_run(alloc.clone()?, part, rules, ids, target_size, created_at)?;
    shared_alone(alloc, run)
}

// A point read and a range of adjacent runs after the part is compacted.
fn read_compacted<A: Allocator + Clone>(
    alloc: &A,
    front: &[Arc<Run<Table<A>, A>, A>],
    part: &[Arc<Run<Table<A>, A>, A>],
    behind: &[Arc<Run<Table<A>, A>, A>],
    rules: Rules,
    ids: TableIds,
    target_size: u64,
    created_at: Timestamp,
    key: &[u8],
    seqno: SeqNo,
    range: (Bound<UserKey<A>>, Bound<UserKey<A>>),
) -> Result<Reads<A>, Error>
    requires { spec.AreCompactable (spec.each_run part.now) }
    ensures list { ReadsSidesKept ⟦<NewestOfRuns<A> as Iterator>⟧.next_gives
        ⟦<NewestOfRuns<A> as DoubleEndedIterator>⟧.next_back_gives key.now seqno
        range rules front.now part.now behind.now result }
    ensures can { let ends = ⟦<NewestOfRuns<A> as DoubleEndedIterator>⟧ in
        IfOk result (λ read. spec.CanYield ends.next_gives ends.next_back_gives ends.can_next
        ends.can_next_back read.1) }
    ensures refused { OnSides front.now part.now behind.now (λ _ ps _. spec.Faults result
        (spec.tables_fault ids target_size created_at (spec.kept_in rules ps))) }
    ensures taken { OnSides front.now part.now behind.now (λ _ ps _.
        spec.FitsAsTables ids target_size (spec.kept_in rules ps) →
        IfErr result (λ e. e ≡ spec.OutOfMemory)) }
{
    let made = compact_part(alloc, part, rules, ids, target_size, created_at)?;
    read_side_by_side(alloc, front, &made, behind, key, seqno, range)
}

/// Returns a point read and a range of several runs before and after a part of them is compacted by
/// [`compact_to_run`].
///
/// The new run replaces the part. By the contracts of reading and compacting runs and
/// [`compaction_law`] alone, readers see the same in two cases:
///
/// - nothing is evicted or zeroed, and the part has no weak tombstone;
/// - of each key, all other entries are newer than the part.
///
/// For point reads, the bound must be the watermark or above.
///
/// The conditions on the part are those of [`compact_to_run`]. Some clauses also have premises: the
/// other runs are in order, their tables hold lists, and no key of all lists has one seqno twice.
/// The runs are not changed.
///
/// # Errors
///
/// Those of [`compact_to_run`].
pub fn compact_part_back<A: Allocator + Clone>(
    alloc: A,
    front: &[Arc<Run<Table<A>, A>, A>],
    part: &[Arc<Run<Table<A>, A>, A>],
    behind: &[Arc<Run<Table<A>, A>, A>],
    rules: Rules,
    ids: TableIds,
    target_size: u64,
    created_at: Timestamp,
    key: &[u8],
    seqno: SeqNo,
    range: (Bound<UserKey<A>>, Bound<UserKey<A>>),
) -> Result<(Reads<A>, Reads<A>), Error>
    requires { spec.AreCompactable (spec.each_run part.now) }
    // The reads before are those of all lists together.
    ensures before { ReadsBefore ⟦<NewestOfRuns<A> as Iterator>⟧.next_gives
        ⟦<NewestOfRuns<A> as DoubleEndedIterator>⟧.next_back_gives key.now seqno
        range front.now part.now behind.now result }
    // The reads after are those of what is kept of the part's lists, and of the others.
    ensures after { ReadsAfter ⟦<NewestOfRuns<A> as Iterator>⟧.next_gives
        ⟦<NewestOfRuns<A> as DoubleEndedIterator>⟧.next_back_gives key.now seqno
        range rules front.now part.now behind.now result }
    // Both show the same under the conditions of the law: point reads for a bound of the watermark
    // or above, ranges always.
    ensures alike { ReadsAlike ⟦<NewestOfRuns<A> as Iterator>⟧.next_gives
        ⟦<NewestOfRuns<A> as DoubleEndedIterator>⟧.next_back_gives key.now seqno
        range rules front.now part.now behind.now result }
    // Both ends of both ranges may be called any number of times.
    ensures can { let ends = ⟦<NewestOfRuns<A> as DoubleEndedIterator>⟧ in
        let can = spec.CanYield ends.next_gives ends.next_back_gives ends.can_next
        ends.can_next_back in IfOk result (λ r. can r.0.1 × can r.1.1) }
    // Except for `OutOfMemory`, the error is the first one of writing what is kept: reading does
    // not fail.
    ensures refused { OnSides front.now part.now behind.now (λ _ ps _. spec.Faults result
        (spec.tables_fault ids target_size created_at (spec.kept_in rules ps))) }
    // If the tables of what is kept fit and enough ids remain, the only error is `OutOfMemory`.
    ensures taken { OnSides front.now part.now behind.now (λ _ ps _.
        spec.FitsAsTables ids target_size (spec.kept_in rules ps) →
        IfErr result (λ e. e ≡ spec.OutOfMemory)) }
{
    compaction_law();
    let before = read_within(&alloc, front, part, behind, key, seqno, &range)?;
    let after = read_compacted(
        &alloc,
        front,
        part,
        behind,
        rules,
        ids,
        target_size,
        created_at,
        key,
        seqno,
        range,
    );
    beside(before, after)
}
