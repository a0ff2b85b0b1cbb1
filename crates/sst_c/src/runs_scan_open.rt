//! Opening scans of several runs.
ghost use Rattle.std.specs.Prelude.{◌≡◌, ◌<◌, IfErr, IfOk, IsSomeAnd, None};
ghost use Rattle.sst_c.specs.Words as spec;

use crate::codes::{CLOSED, NO_SUCH, OPEN, OTHER_KIND};
use crate::handle::Handle;
use crate::held::{Held, What};
use crate::ranges::bounds;
use crate::run_list::RunList;
use crate::runs_scan::{LentAt, RunsScan};
use lsm_runs::lend_runs_at;
use sst_blocks::{Error, Lending, SeqNo, Slice};
use std::alloc::Global;
use std::ops::Bound;

// The newest versions visible at `seqno` within two bounds, borrowed.
fn newest_within(
    alloc: Global,
    runs: &RunList,
    range: (Bound<Slice>, Bound<Slice>),
    seqno: SeqNo,
) -> Result<RunsScan, Error>
    ensures scans { let advances = ⟦<LentAt as Lending>⟧.advances in
        IfOk result (spec.ScansRuns advances range.0 range.1 seqno runs.now) }
    ensures err { IfErr result (λ e. e ≡ spec.OutOfMemory) }
{
    Ok(RunsScan::new(lend_runs_at(alloc, runs.as_slice(), range, seqno)?))
}

// The scan of several runs within bounds as C passes them.
fn scan_within(
    alloc: Global,
    runs: &RunList,
    lower_kind: u32,
    lower: &[u8],
    upper_kind: u32,
    upper: &[u8],
    seqno: SeqNo,
) -> Result<RunsScan, Error>
    requires lower { lower_kind < 3 }
    requires upper { upper_kind < 3 }
    ensures scans { IfOk result (spec.ScansRuns ⟦<LentAt as Lending>⟧.advances
        (spec.decode_bound lower_kind lower.now) (spec.decode_bound upper_kind upper.now) seqno
        runs.now) }
    ensures err { IfErr result (λ e. e ≡ spec.OutOfMemory) }
{
    let range = bounds(alloc, lower_kind, lower, upper_kind, upper)?;
    newest_within(alloc, runs, range, seqno)
}

// Puts a scan of runs into a closed handle.
fn begin_scan(
    alloc: Global,
    held: &Held,
    lower_kind: u32,
    lower: &[u8],
    upper_kind: u32,
    upper: &[u8],
    seqno: SeqNo,
    scan: &mut Handle,
) -> u32
    requires { scan.old.boxed.value ≡ None }
    ensures begins { spec.OpensNewWithin lower_kind upper_kind spec.are_runs held.now.what
        scan.new.boxed.value result }
    ensures scans { result ≡ 0 → IsSomeAnd scan.new.boxed.value (λ k.
        spec.ScansRunsHeld ⟦<LentAt as Lending>⟧.advances lower_kind lower.now
        upper_kind upper.now seqno held.now.what k.what) }
{
    let What::Runs(runs) = &held.what else {
        return OTHER_KIND;
    };
    if lower_kind > 2 || upper_kind > 2 {
        return NO_SUCH;
    }
    match scan_within(alloc, runs, lower_kind, lower, upper_kind, upper, seqno) {
        Ok(newest) => scan.begin(alloc, What::RunsScan(Some(newest))),
        Err(error) => u32::from(error.number()),
    }
}

/// Opens a scan of a list of runs, read from the front.
///
/// It reads the same entries as `sst_runs_range_open` with the same arguments. These are the newest
/// version of each key within the bounds that is visible at `seqno`. `sst_scan_next` borrows each
/// entry from its table's memory. `scan` must be closed. No block is loaded yet.
///
/// The scan holds references to the tables. The tables and the list may be closed before it.
///
/// # Errors
///
/// - 101: `scan` is open.
/// - 100: `runs` is closed.
/// - 102: `runs` holds no list of runs.
/// - 105: a bound has another kind.
/// - 1: out of memory.
///
/// On error, both handles are unchanged.
#[unsafe(no_mangle)]
pub extern "C" fn sst_runs_scan_open(
    alloc: Global,
    runs: &mut Handle,
    lower_kind: u32,
    lower: &[u8],
    upper_kind: u32,
    upper: &[u8],
    seqno: u64,
    scan: &mut Handle,
) -> u32
    ensures opens { spec.OpensWithin lower_kind upper_kind spec.are_runs runs.old.boxed.value
        runs.new.boxed.value scan.old.boxed.value scan.new.boxed.value result }
    // It lends the newest versions within the bounds and below `seqno`.
    ensures scans { spec.MakesFrom runs.old.boxed.value result scan.new.boxed.value
        (spec.ScansRunsHeld ⟦<LentAt as Lending>⟧.advances lower_kind lower.now
        upper_kind upper.now seqno) }
{
    if scan.is_open() {
        return OPEN;
    }
    let Some(held) = runs.take(alloc) else {
        return CLOSED;
    };
    let code = begin_scan(
        alloc, &held, lower_kind, lower, upper_kind, upper, seqno, scan,
    );
    runs.put(held);
    code
}
