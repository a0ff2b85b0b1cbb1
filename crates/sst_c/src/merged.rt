//! Ranges of several runs, read from both ends.
ghost use Rattle.std.specs.Prelude.{◌≡◌, ◌<◌, false, IfErr, IfOk, IsSomeAnd, None, Ok, Some, true};
ghost use Rattle.sst_c.specs.Words as spec;

use crate::asked::{Asked, NewestAt};
use crate::codes::{CLOSED, NO_SUCH, OPEN, OTHER_KIND};
use crate::handle::Handle;
use crate::held::{Held, What};
use crate::ranges::{bounds, outcome_of};
use crate::run_list::RunList;
use lsm_runs::{RunReader, range_runs_at};
use lsm_sorted::Below;
use sst_blocks::{Error, InternalValue, SeqNo, Slice};
use std::alloc::Global;
use std::ops::Bound;

// A reader of a run that yields the entries visible at a sequence number.
type ReaderAt = Below<RunReader<Global>>;

// The newest versions visible at `seqno` within two bounds.
fn newest_within(
    alloc: Global,
    runs: &RunList,
    range: (Bound<Slice>, Bound<Slice>),
    seqno: SeqNo,
) -> Result<Asked, Error>
    ensures ranges { let below = ⟦<ReaderAt as DoubleEndedIterator>⟧ in
        let ends = ⟦<NewestAt as DoubleEndedIterator>⟧ in
        IfOk result (spec.RangesRuns below.next_gives below.next_back_gives ends.next_gives
        ends.next_back_gives range.0 range.1 seqno runs.now) }
    ensures err { IfErr result (λ e. e ≡ spec.OutOfMemory) }
{
    Ok(Asked::new(range_runs_at(alloc, runs.as_slice(), range, seqno)?))
}

// The range of several runs within bounds as C passes them.
fn merged_within(
    alloc: Global,
    runs: &RunList,
    lower_kind: u32,
    lower: &[u8],
    upper_kind: u32,
    upper: &[u8],
    seqno: SeqNo,
) -> Result<Asked, Error>
    requires lower { lower_kind < 3 }
    requires upper { upper_kind < 3 }
    ensures ranges { let below = ⟦<ReaderAt as DoubleEndedIterator>⟧ in
        let ends = ⟦<NewestAt as DoubleEndedIterator>⟧ in
        IfOk result (spec.RangesRuns below.next_gives below.next_back_gives ends.next_gives
        ends.next_back_gives (spec.decode_bound lower_kind lower.now) (spec.decode_bound upper_kind
        upper.now) seqno runs.now) }
    ensures err { IfErr result (λ e. e ≡ spec.OutOfMemory) }
{
    let range = bounds(alloc, lower_kind, lower, upper_kind, upper)?;
    newest_within(alloc, runs, range, seqno)
}

// Puts a range of runs into a closed handle.
fn begin_merged(
    alloc: Global,
    held: &Held,
    lower_kind: u32,
    lower: &[u8],
    upper_kind: u32,
    upper: &[u8],
    seqno: SeqNo,
    range: &mut Handle,
) -> u32
    requires { range.old.boxed.value ≡ None }
    ensures begins { spec.OpensNewWithin lower_kind upper_kind spec.are_runs held.now.what
        range.new.boxed.value result }
    ensures ranges { let below = ⟦<ReaderAt as DoubleEndedIterator>⟧ in
        let ends = ⟦<NewestAt as DoubleEndedIterator>⟧ in
        result ≡ 0 → IsSomeAnd range.new.boxed.value (λ r. spec.RangesRunsHeld below.next_gives
        below.next_back_gives ends.next_gives ends.next_back_gives lower_kind lower.now upper_kind
        upper.now seqno held.now.what r.what) }
{
    let What::Runs(runs) = &held.what else {
        return OTHER_KIND;
    };
    if lower_kind > 2 || upper_kind > 2 {
        return NO_SUCH;
    }
    match merged_within(alloc, runs, lower_kind, lower, upper_kind, upper, seqno) {
        Ok(newest) => range.begin(alloc, What::Merged(Some(newest))),
        Err(error) => u32::from(error.number()),
    }
}

/// Opens a range over a list of runs, read from both ends.
///
/// It yields the newest version of each key within the bounds that is visible at `seqno`: versions
/// with a smaller sequence number. A bound has kind 0 for none, 1 to include its key, 2 to exclude
/// it. `range` must be closed. No block is loaded yet.
///
/// The range holds references to the tables. The tables and the list may be closed before it.
///
/// # Errors
///
/// - 101: `range` is open.
/// - 100: `runs` is closed.
/// - 102: `runs` holds no list of runs.
/// - 105: a bound has another kind.
/// - 1: out of memory.
///
/// On error, both handles are unchanged.
#[unsafe(no_mangle)]
pub extern "C" fn sst_runs_range_open(
    alloc: Global,
    runs: &mut Handle,
    lower_kind: u32,
    lower: &[u8],
    upper_kind: u32,
    upper: &[u8],
    seqno: u64,
    range: &mut Handle,
) -> u32
    ensures opens { spec.OpensWithin lower_kind upper_kind spec.are_runs runs.old.boxed.value
        runs.new.boxed.value range.old.boxed.value range.new.boxed.value result }
    // It yields the newest versions within the bounds and below `seqno`, from both ends.
    ensures ranges { let below = ⟦<ReaderAt as DoubleEndedIterator>⟧ in
        let ends = ⟦<NewestAt as DoubleEndedIterator>⟧ in
        spec.MakesFrom runs.old.boxed.value result range.new.boxed.value (spec.RangesRunsHeld
        below.next_gives below.next_back_gives ends.next_gives ends.next_back_gives lower_kind
        lower.now upper_kind upper.now seqno) }
{
    if range.is_open() {
        return OPEN;
    }
    let Some(held) = runs.take(alloc) else {
        return CLOSED;
    };
    let code = begin_merged(
        alloc, &held, lower_kind, lower, upper_kind, upper, seqno, range,
    );
    runs.put(held);
    code
}

/// Drops the value.
pub(crate) fn give_up<T: Drop>(kept: &mut Option<T>)
    ensures { kept.new ≡ None }
{
    *kept = None;
}

/// Steps a range of several runs, unless a read failed before.
pub(crate) fn step_merged(
    merged: &mut Option<Asked>,
    back: bool,
) -> Result<Option<InternalValue>, Error>
    ensures over { merged.old ≡ None → (result ≡ Ok None) × (merged.new ≡ None) }
    ensures front { (s : spec.NewestAt) → merged.old ≡ Some s → back ≡ false →
        spec.StepsUntil ⟦<NewestAt as Iterator>⟧.next_gives s result merged.new }
    ensures back { (s : spec.NewestAt) → merged.old ≡ Some s → back ≡ true →
        spec.StepsUntil ⟦<NewestAt as DoubleEndedIterator>⟧.next_back_gives
        s result merged.new }
{
    let Some(asked) = merged else {
        return Ok(None);
    };
    match outcome_of(asked.step(back)) {
        Ok(found) => Ok(found),
        Err(error) => {
            give_up(merged);
            Err(error)
        }
    }
}
