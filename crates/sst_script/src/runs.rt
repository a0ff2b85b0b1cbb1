//! Reading the runs that a script has written.
ghost use Rattle.std.specs.Prelude.{◌≡◌, ◌+◌, ◌-◌, ◌<◌, ◌^◌, Bool, IfErr, IfOk, Ok};
ghost use Rattle.std.specs.Prelude.{◌∷◌, [], map};
ghost use Rattle.sst_script.specs.Words as spec;

use crate::lines::{line_of_found, lines_of_newest};
use lsm_readers::Table;
use lsm_runs::{get_runs_ref, lend_runs_at};
use lsm_sorted::Run;
use sst_blocks::{Error, InternalValue, SeqNo, Slice, UserKey};
use std::alloc::Allocator;
use std::ops::Bound;
use std::sync::Arc;

/// Returns the line of the newest version in the runs of a key visible at a seqno, or the line for
/// none. Fails with `OutOfMemory` only.
pub(crate) fn newest_line<A: Allocator + Clone>(
    alloc: &A,
    runs: &[Arc<Run<Table<A>, A>, A>],
    key: &[u8],
    bound: SeqNo,
) -> Result<Vec<u8, A>, Error>
    ensures { spec.ForRuns (map spec.arc_value runs.now) (λ rs. spec.Gives spec.vec_items result
        (Ok (spec.found_line (spec.point (spec.union rs) key.now bound)))) }
{
    let found = get_runs_ref(runs, key, bound)?;
    line_of_found(alloc.clone()?, found)
}

/// Returns the lines of the newest version in the runs of each key within two bounds, or the line
/// for none. Fails with `OutOfMemory` only.
///
/// The seqnos in the runs are below the highest one, so a read at that sees all of them.
pub(crate) fn newest_lines<A: Allocator + Clone>(
    alloc: &A,
    runs: &[Arc<Run<Table<A>, A>, A>],
    low: Bound<&[u8]>,
    high: Bound<&[u8]>,
) -> Result<Vec<u8, A>, Error>
    requires { spec.AreCompactable (map spec.arc_value runs.now) }
    ensures { spec.ForRuns (map spec.arc_value runs.now) (λ rs. spec.Gives spec.vec_items result
        (Ok (spec.entry_lines (spec.newest_between low.entry high.entry rs)))) }
{
    let bounds = (owned(alloc, low)?, owned(alloc, high)?);
    let beside = alloc.clone()?;
    let stream = lend_runs_at(alloc.clone()?, runs, bounds, SeqNo::MAX)?;
    lines_of_newest(beside, stream)
}

// The bound with an owned key.
fn owned<A: Allocator + Clone>(alloc: &A, bound: Bound<&[u8]>) -> Result<Bound<UserKey<A>>, Error>
    ensures ok { IfOk result (λ b. b ≡ spec.key_bound bound.entry) }
    ensures err { IfErr result (λ e. e ≡ spec.OutOfMemory) }
{
    match bound {
        Bound::Included(key) => Ok(Bound::Included(Slice::from(alloc.clone()?, key)?)),
        Bound::Excluded(key) => Ok(Bound::Excluded(Slice::from(alloc.clone()?, key)?)),
        Bound::Unbounded => Ok(Bound::Unbounded),
    }
}

/// A run as a shared one. Fails with `OutOfMemory` only.
pub(crate) fn share<A: Allocator + Clone>(
    alloc: &A,
    run: Run<Table<A>, A>,
) -> Result<Arc<Run<Table<A>, A>, A>, Error>
    ensures ok { IfOk result (λ shared. spec.arc_value shared ≡ run) }
    ensures err { IfErr result (λ e. e ≡ spec.OutOfMemory) }
{
    Ok(Arc::new(alloc.clone()?, run)?)
}

/// One run as a list of shared ones. Fails with `OutOfMemory` only.
pub(crate) fn share_one<A: Allocator + Clone>(
    alloc: &A,
    run: Run<Table<A>, A>,
) -> Result<Vec<Arc<Run<Table<A>, A>, A>, A>, Error>
    ensures ok { IfOk result (λ runs. map spec.arc_value runs.items ≡ run ∷ []) }
    ensures err { IfErr result (λ e. e ≡ spec.OutOfMemory) }
{
    let shared = share(alloc, run)?;
    let mut runs = Vec::new(alloc.clone()?);
    runs.push(shared)?;
    Ok(runs)
}

/// Runs as shared ones. Fails with `OutOfMemory` only.
pub(crate) fn share_all<A: Allocator + Clone>(
    alloc: A,
    runs: Vec<Run<Table<A>, A>, A>,
) -> Result<Vec<Arc<Run<Table<A>, A>, A>, A>, Error>
    ensures ok { IfOk result (λ shared. map spec.arc_value shared.items ≡ runs.items) }
    ensures err { IfErr result (λ e. e ≡ spec.OutOfMemory) }
{
    let mut shared = Vec::new(alloc.clone()?);
    for run in runs {
        shared.push(share(&alloc, run)?)?;
    }
    Ok(shared)
}

/// Whether the runs have an entry with the key and seqno of one of these entries. Fails with
/// `OutOfMemory` only.
pub(crate) fn is_repeated<A: Allocator + Clone>(
    runs: &[Arc<Run<Table<A>, A>, A>],
    items: &[InternalValue<A>],
) -> Result<bool, Error>
    requires { spec.IsWritable items.now }
    ensures { spec.ForRuns (map spec.arc_value runs.now) (λ rs.
        spec.Gives (λ (held : Bool). held) result (Ok (spec.repeats rs items.now))) }
{
    for item in items {
        if has_entry(runs, item.key.user_key.as_slice(), item.key.seqno)? {
            return Ok(true);
        }
    }
    Ok(false)
}

// Whether the runs have an entry of this key and seqno: it is then the newest version visible at
// the next seqno.
fn has_entry<A: Allocator + Clone>(
    runs: &[Arc<Run<Table<A>, A>, A>],
    key: &[u8],
    seqno: SeqNo,
) -> Result<bool, Error>
    requires { seqno < 2 ^ 64 - 1 }
    ensures { spec.ForRuns (map spec.arc_value runs.now) (λ rs.
        spec.Gives (λ (held : Bool). held) result
        (Ok (spec.has_entry (spec.union rs) key.now seqno))) }
{
    let found = get_runs_ref(runs, key, seqno + 1)?;
    Ok(found.is_some_and(|entry| entry.seqno == seqno))
}
