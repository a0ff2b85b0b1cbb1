//! Testing that the entries of runs are in strict order together.
ghost use Rattle.std.specs.Prelude.{◌≡◌, ◌<◌, ◌↔◌, All, IfErr, IfOk, IsTrue, List, None, OnOk};
ghost use Rattle.std.specs.Prelude.{Some, length, map};
ghost use Rattle.example_store.specs.Words as spec;
ghost use Rattle.lsm_tables.specs.Words.{OutOfMemory};

use lsm_tables::block::{EntryRef, Error, Lending, SeqNo};
use lsm_tables::merge::LendingMerger;
use lsm_tables::run::{Run, RunScanner};
use lsm_tables::table::Table;
use std::alloc::Allocator;
use std::marker::Model;
use std::sync::Arc;

/// Whether the sorted entries of some runs are in strict order: no key has one seqno twice.
///
/// Each table is read at most once.
///
/// # Errors
///
/// Those of the scans of its tables, and [`Error::OutOfMemory`].
pub fn are_strict<A: Allocator + Clone>(
    alloc: &A,
    runs: &[Arc<Run<Table<A>, A>, A>],
) -> Result<bool, Error>
    requires some { spec.AllByRecursion (λ (run : List spec.OpenTable). 0 < length run)
        (spec.each_run runs.now) }
    ensures exact { spec.OnFullLists runs.now (λ lists.
        IfOk result (λ b. IsTrue b ↔ spec.IsStrict (spec.union_in lists))) }
    ensures memory { spec.OnFullLists runs.now (λ _. IfErr result (λ e. e ≡ OutOfMemory)) }
{
    let scanners = scanners_of(alloc, runs)?;
    come_in_order(alloc, scanners)
}

// A scanner of each run.
fn scanners_of<A: Allocator + Clone>(
    alloc: &A,
    runs: &[Arc<Run<Table<A>, A>, A>],
) -> Result<Vec<RunScanner<A>, A>, Error>
    requires some { spec.AllByRecursion (λ (run : List spec.OpenTable). 0 < length run)
        (spec.each_run runs.now) }
    ensures list { let advances = ⟦<RunScanner<A> as Lending>⟧.advances in
        spec.OnFullLists runs.now (λ lists. IfOk result (λ v.
        spec.YieldTogether advances spec.nowhere v.items (map spec.joined lists))) }
    ensures memory { spec.OnFullLists runs.now (λ _. IfErr result (λ e. e ≡ OutOfMemory)) }
{
    let mut scanners = Vec::new(alloc.clone()?);
    for run in runs {
        scanners.push(scanner_of(run)?)?;
    }
    Ok(scanners)
}

// The scanner of a whole run.
fn scanner_of<A: Allocator + Clone>(run: &Arc<Run<Table<A>, A>, A>) -> Result<RunScanner<A>, Error>
    requires { 0 < length (spec.arc_value run.now) }
    ensures list { let advances = ⟦<RunScanner<A> as Lending>⟧.advances in
        spec.OnFullTables (spec.arc_value run.now) (λ lists.
        IfOk result (spec.YieldsList advances spec.nowhere (spec.joined lists))) }
    ensures memory { spec.OnFullTables (spec.arc_value run.now) (λ _.
        IfErr result (λ e. e ≡ OutOfMemory)) }
{
    RunScanner::culled(run.clone()?, (None, None))
}

// Whether the merged entries of several sources are in strict order. Generic, so that a proof does
// not unfold a scanner's parts. Fails as the sources do, or with `OutOfMemory`.
fn come_in_order<L: Lending + Drop, A: Allocator + Clone>(
    alloc: &A,
    sources: Vec<L, A>,
) -> Result<bool, Error>
    requires { All (spec.CanLend L.advances L.can_advance) sources.items }
    ensures exact { (lists : spec.TableLists) →
        spec.YieldTogether L.advances spec.nowhere sources.items (map spec.joined lists) →
        IfOk result (λ b. IsTrue b ↔ spec.IsStrict (spec.union_in lists)) }
    ensures memory { (lists : spec.TableLists) →
        spec.YieldTogether L.advances spec.nowhere sources.items (map spec.joined lists) →
        IfErr result (λ e. e ≡ OutOfMemory) }
{
    let last = LastRead {
        key: Vec::new(alloc.clone()?),
        seqno: None,
    };
    let merger = LendingMerger::new(alloc.clone()?, sources)?;
    comes_in_order(merger, last)
}

// Whether each entry that a stream lends is strictly after the one before it. Fails as the stream
// does, or with `OutOfMemory`.
fn comes_in_order<L: Lending + Drop, A: Allocator>(
    mut items: L,
    mut last: LastRead<A>,
) -> Result<bool, Error>
    requires first { last ≡ None }
    requires can { spec.CanLend L.advances L.can_advance items }
    ensures exact { (es : List spec.Entry) → spec.YieldsList L.advances spec.nowhere es items →
        IfOk result (λ b. IsTrue b ↔ spec.IsStrict es) }
    ensures memory { (es : List spec.Entry) → spec.YieldsList L.advances spec.nowhere es items →
        IfErr result (λ e. e ≡ OutOfMemory) }
{
    while items.advance()? {
        if let Some(entry) = items.entry() {
            if !last.comes_next(&entry)? {
                return Ok(false);
            }
        }
    }
    Ok(true)
}

// The key and the seqno of the last entry, if one was read.
#[derive(Drop)]
struct LastRead<A: Allocator> {
    key: Vec<u8, A>,
    seqno: Option<SeqNo>,
}

impl<A: Allocator> Model for LastRead<A> {
    ghost use Rattle.std.specs.Prelude.{Option};
    ghost use Rattle.std.specs.Option.{option_map};
    ghost use Rattle.lsm_tables.specs.Words.{Entry, read_place};

    ghost Value = { Option Entry };

    ghost view = { λ l. option_map (λ n. read_place l.key.items n) l.seqno };
}

impl<A: Allocator> LastRead<A> {
    // Whether an entry comes strictly after the last one, which it then replaces.
    fn comes_next(&mut self, entry: &EntryRef<'_>) -> Result<bool, Error>
        ensures follows { IfOk result (λ b.
            b ≡ spec.may_follow self.old (spec.entry_of_ref entry.now)) }
        ensures last { let e = spec.entry_of_ref entry.now in
            OnOk result (self.new ≡ Some (spec.read_place e.user_key e.seqno)) }
        ensures memory { IfErr result (λ e. e ≡ OutOfMemory) }
    {
        let follows = self.is_before(entry);
        self.seqno = Some(entry.seqno);
        self.key.clear();
        self.key.extend_from_slice(entry.user_key)?;
        Ok(follows)
    }

    // Whether the last entry, if there is one, is before an entry.
    fn is_before(&self, entry: &EntryRef<'_>) -> bool
        ensures { result ≡ spec.may_follow self.now (spec.entry_of_ref entry.now) }
    {
        let Some(seqno) = self.seqno else {
            return true;
        };
        self.key
            .as_slice()
            .cmp(entry.user_key)
            .then(entry.seqno.cmp(&seqno))
            .is_lt()
    }
}
