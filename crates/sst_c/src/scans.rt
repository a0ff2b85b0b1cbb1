//! Scans of a table, block after block, and the steps of scans of several runs.
ghost use Rattle.std.specs.Prelude.{◌≡◌, ◌≢◌, ◌<◌, ◌⊎◌, false, IfErr, IfOk, IsSomeAnd, List, None};
ghost use Rattle.std.specs.Prelude.{Some, is_some, length, true};
ghost use Rattle.sst_c.specs.Words as spec;

use crate::codes::{CLOSED, OPEN, OTHER_KIND};
use crate::entries::{EntryReport, tell};
use crate::handle::Handle;
use crate::held::{Held, What};
use crate::reads::take_held;
use crate::runs_scan::{LentAt, step_runs};
use lsm_readers::{Scanner, Table};
use sst_blocks::{Error, Lending};
use std::alloc::Global;

fn scan_of(table: &Table) -> Result<Scanner, Error>
    ensures scans { IfOk result (spec.ScansTable table.now) }
    ensures refused { spec.Faults result (spec.scan_fault table.now) }
    ensures early { spec.FaultsFirst result (spec.early_scan_fault table.now) }
    ensures fine { (es : List spec.Entry) → spec.StoresList table.now.bytes es → 0 < length es →
        IfErr result (λ e. e ≡ spec.OutOfMemory) }
{
    table.scan()
}

// Puts a scan of a table into a closed handle.
#[tactic(auto, using(crate::proofs::Answering::tell))]
fn begin_scan(alloc: Global, table: &Table, scan: &mut Handle) -> u32
    requires { scan.old.boxed.value ≡ None }
    ensures returned { spec.FaultReported result (spec.scan_fault table.now) }
    ensures early { spec.ReportsFirst result (spec.early_scan_fault table.now) }
    ensures fine { (es : List spec.Entry) → spec.StoresList table.now.bytes es → 0 < length es →
        (result ≡ 0) ⊎ (result ≡ 1) }
    ensures new { result ≡ 0 → IsSomeAnd scan.new.boxed.value (λ k. spec.found_by k ≡ None) }
    ensures scans { result ≡ 0 → IsSomeAnd scan.new.boxed.value (λ k.
        spec.IsScanWhere (spec.ScansTable table.now) k.what) }
    ensures left { result ≢ 0 → scan.new.boxed.value ≡ None }
{
    match scan_of(table) {
        Ok(scanner) => scan.begin(alloc, What::Scan(scanner)),
        Err(error) => u32::from(error.number()),
    }
}

fn begin(alloc: Global, held: &Held, scan: &mut Handle) -> u32
    requires { scan.old.boxed.value ≡ None }
    ensures begins { spec.OpensNew spec.is_table held.now.what scan.new.boxed.value result }
    ensures reports { (t : spec.OpenTable) → held.now.what ≡ spec.TableOf t →
        spec.ReportsScan t result }
    ensures scans { result ≡ 0 →
        IsSomeAnd scan.new.boxed.value (λ k. spec.ScansHeld held.now.what k.what) }
{
    let What::Table(table) = &held.what else {
        return OTHER_KIND;
    };
    begin_scan(alloc, table, scan)
}

/// Opens a scan of all entries of a table, in order.
///
/// It reads each data block once, in file order, without the index. It reads as many as the table
/// claims. The call loads the first one. `scan` must be closed. The scan holds a reference to the
/// table, which may be closed before it.
///
/// # Errors
///
/// - 101: `scan` is open.
/// - 100: `table` is closed.
/// - 102: `table` holds no table.
/// - An error code of `Table::scan`: the first fault of loading the first block.
///
/// On error, both handles are unchanged.
#[unsafe(no_mangle)]
pub extern "C" fn sst_scan_open(alloc: Global, table: &mut Handle, scan: &mut Handle) -> u32
    ensures opens { spec.OpensFrom spec.is_table table.old.boxed.value table.new.boxed.value
        scan.old.boxed.value scan.new.boxed.value result }
    // Except for `OutOfMemory`, it fails only with the fault of the first block.
    ensures reports { (h : spec.HeldValue) (t : spec.OpenTable) → scan.old.boxed.value ≡ None →
        table.old.boxed.value ≡ Some h → h.what ≡ spec.TableOf t → spec.ReportsScan t result }
    // It yields all entries of the table, in order.
    ensures scans { spec.MakesFrom table.old.boxed.value result scan.new.boxed.value
        spec.ScansHeld }
{
    if scan.is_open() {
        return OPEN;
    }
    let Some(held) = table.take(alloc) else {
        return CLOSED;
    };
    let code = begin(alloc, &held, scan);
    table.put(held);
    code
}

// Steps a scanner, which then borrows the entry.
#[tactic(auto, using(crate::proofs::Scanning::steps))]
fn step_scan(scanner: &mut Scanner) -> u32
    ensures steps { spec.StepsBy spec.ScansLent scanner.old result scanner.new.lent scanner.new }
    ensures fine { is_some scanner.new.lent ≡ true → result ≡ 0 }
{
    match scanner.advance() {
        Ok(_) => 0,
        Err(error) => u32::from(error.number()),
    }
}

/// Steps the held object, if it is a scan.
pub(crate) fn step(held: &mut Held) -> u32
    ensures other { spec.is_scan held.old.what ≡ false →
        (result ≡ 102) × (spec.found_by held.new ≡ None) × (held.new.what ≡ held.old.what) }
    ensures steps { (s : spec.Scan) → held.old.what ≡ spec.ScanOf s →
        spec.IsScanWhere (spec.StepsBy spec.ScansLent s result (spec.found_by held.new))
        held.new.what }
    ensures ends { (s : spec.Scan) → held.old.what ≡ spec.ScanOf s → spec.found_by held.new ≡ None →
        spec.IsScanWhere spec.IsEndedScan held.new.what }
    ensures over { (s : spec.Scan) → held.old.what ≡ spec.ScanOf s → spec.IsEndedScan s →
        (result ≡ 0) × (spec.found_by held.new ≡ None) }
    ensures runs { (s : spec.LentNewestAt) → held.old.what ≡ spec.RunsScanOf (Some s) →
        spec.IsRunsScanAs (spec.StepsAs ⟦<LentAt as Lending>⟧.advances s result
        (spec.found_by held.new)) held.new.what }
    ensures over_runs { held.old.what ≡ spec.RunsScanOf None →
        (result ≡ 0) × (spec.found_by held.new ≡ None) × (held.new.what ≡ spec.RunsScanOf None) }
    ensures fine { is_some (spec.found_by held.new) ≡ true → result ≡ 0 }
{
    match &mut held.what {
        What::Scan(scanner) => {
            held.found.set_lent();
            step_scan(scanner)
        }
        What::RunsScan(scan) => {
            held.found.set_lent();
            step_runs(scan)
        }
        _ => {
            held.found.clear();
            OTHER_KIND
        }
    }
}

/// Advances a scan to the next entry.
///
/// The scan borrows the entry from the table's memory. `entry` gets its kind, sequence number and
/// lengths. At the end, the handle has found nothing, and `entry` is zero.
///
/// # Errors
///
/// - 100: the handle is closed.
/// - 102: the handle holds no scan.
/// - The error of `Scanner::advance`, or, for several runs, of a step of `lend_runs_at`. The scan
///   is at its end then.
///
/// On error nothing is found, and `entry` is zero.
#[unsafe(no_mangle)]
pub extern "C" fn sst_scan_next(alloc: Global, scan: &mut Handle, entry: &mut EntryReport) -> u32
    ensures reads { spec.ReadsThrough spec.is_scan scan.old.boxed.value scan.new.boxed.value result
        entry.new }
    ensures steps { spec.ReadsHeld scan.old.boxed.value result scan.new.boxed.value
        (spec.StepsScan ⟦<LentAt as Lending>⟧.advances) }
{
    *entry = tell(None);
    let Some(mut held) = scan.take(alloc) else {
        return CLOSED;
    };
    let code = step(&mut held);
    *entry = tell(held.found_entry());
    scan.put(held);
    code
}

// Reads a scan in bulk.
fn take(held: &mut Held, entries: &mut [EntryReport], bytes: &mut [u8], count: &mut u64) -> u32
    ensures other { spec.is_scan held.old.what ≡ false →
        (result ≡ 102) × (spec.found_by held.new ≡ None) × (held.new.what ≡ held.old.what) }
    ensures none { spec.is_scan held.old.what ≡ false → (count.new ≡ count.old)
        × (entries.new ≡ entries.old) × (bytes.new ≡ bytes.old) }
    ensures takes { spec.TakesScan ⟦<LentAt as Lending>⟧.advances entries.old
        entries.new bytes.old bytes.new count.new held.old.what result (spec.found_by held.new)
        held.new.what }
{
    if !held.is_scan() {
        held.found.clear();
        return OTHER_KIND;
    }
    take_held(held, false, entries, bytes, count)
}

/// Reads the next entries of a scan in bulk.
///
/// Each is read as by `sst_scan_next`. Their keys and values are copied back to back to the front
/// of `bytes`. `entries` gets the kind, sequence number and lengths of each, and `count` their
/// number.
///
/// It stops:
///
/// - if `entries` is full;
/// - at the end of the scan;
/// - at an error;
/// - at an entry that does not fit into the rest of `bytes`. The handle has then found this entry,
///   and `found` gets its kind, sequence number and lengths.
///
/// In the first three cases the handle has found nothing, and `found` is zero.
///
/// # Errors
///
/// - 100: the handle is closed.
/// - 102: the handle holds no scan.
/// - The error at which it stopped. The entries before it are copied and counted.
///
/// With 100 and 102 nothing is copied, and `count` is 0.
#[unsafe(no_mangle)]
pub extern "C" fn sst_scan_take(
    alloc: Global,
    scan: &mut Handle,
    entries: &mut [EntryReport],
    bytes: &mut [u8],
    count: &mut u64,
    found: &mut EntryReport,
) -> u32
    ensures through { spec.TakesThrough spec.is_scan scan.old.boxed.value scan.new.boxed.value
        entries.old entries.new bytes.old bytes.new count.new result found.new }
    // It makes as many steps as needed, each as `sst_scan_next` does.
    ensures takes { spec.ReadsHeld scan.old.boxed.value result scan.new.boxed.value
        (spec.TakesScan ⟦<LentAt as Lending>⟧.advances entries.old entries.new
        bytes.old bytes.new count.new) }
{
    *count = 0;
    *found = tell(None);
    let Some(mut held) = scan.take(alloc) else {
        return CLOSED;
    };
    let code = take(&mut held, entries, bytes, count);
    *found = tell(held.found_entry());
    scan.put(held);
    code
}
