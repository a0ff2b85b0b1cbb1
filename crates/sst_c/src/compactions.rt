//! Compacting a list of runs into finished tables.
ghost use Rattle.std.specs.Prelude.{◌≡◌, ◌≢◌, ◌⊎◌, false, IfErr, IfOk, IsSomeAnd, None, Some, true};
ghost use Rattle.std.specs.Prelude.{unwrap_or};
ghost use Rattle.sst_c.specs.Words as spec;

use crate::codes::{CLOSED, NO_SUCH, OPEN, OTHER_KIND, OUT_OF_ORDER};
use crate::handle::Handle;
use crate::held::{Files, Held, What};
use crate::options::{TableOptions, are_usable, writer_options};
use crate::run_list::RunList;
use lsm_runs::{CompactionOutcome, NoObserver, compact_any_runs};
use lsm_sorted::compaction::Rules;
use lsm_sorted::compaction::stream::{NoCallback, NoFilter};
use lsm_writers::{FinishedTable, MultiWriter, TableIds, Timestamp};
use sst_blocks::Error;
use std::alloc::Global;

/// A writer of tables of `target_size` bytes of data blocks each. Table ids count up from that of
/// the options.
pub(crate) fn compactor_of(
    alloc: Global,
    options: &TableOptions,
    target_size: u64,
) -> Result<MultiWriter, Error>
    requires { spec.are_usable options.now ≡ true }
    ensures ok { IfOk result (λ w. w ≡ spec.decode_compactor options.now target_size) }
    ensures fresh { IfOk result spec.IsFreshRun }
    ensures err { IfErr result (λ e. e ≡ spec.OutOfMemory) }
{
    let created_at = Timestamp::from(u128::from(options.created_at));
    let ids = TableIds::new(options.id);
    let writer = MultiWriter::new(alloc, ids, target_size, options.level as u8, created_at)?;
    Ok(writer.use_options(writer_options(options)))
}

// Compacts a list of runs with this writer, without a filter, a callback and an observer.
fn compacted_by(
    alloc: Global,
    runs: &RunList,
    rules: Rules,
    writer: MultiWriter,
) -> Result<CompactionOutcome, Error>
    requires { spec.IsFreshRun writer }
    ensures { spec.IsUnfiltered runs.now rules writer result }
{
    let mut observer = NoObserver;
    let (outcome, _) = compact_any_runs(
        alloc,
        runs.as_slice(),
        rules,
        writer,
        NoFilter,
        NoCallback,
        &mut observer,
    )?;
    Ok(outcome)
}

// Compacts a list of runs with a writer that has these options.
fn compacted(
    alloc: Global,
    runs: &RunList,
    options: &TableOptions,
    rules: Rules,
    target_size: u64,
) -> Result<CompactionOutcome, Error>
    requires { spec.are_usable options.now ≡ true }
    ensures { spec.IsUnfiltered runs.now rules (spec.decode_compactor options.now target_size)
        result }
{
    let writer = compactor_of(alloc, options, target_size)?;
    compacted_by(alloc, runs, rules, writer)
}

/// Puts finished tables into the handle, and writes the first unused id.
pub(crate) fn tell_tables(
    alloc: Global,
    tables: Vec<FinishedTable>,
    left: TableIds,
    files: &mut Handle,
    next_id: &mut u64,
) -> u32
    requires { files.old.boxed.value ≡ None }
    ensures memory { (result ≡ 0) ⊎ (result ≡ 1) }
    ensures new { result ≡ 0 → IsSomeAnd files.new.boxed.value (λ k. spec.found_by k ≡ None) }
    ensures kept { result ≡ 0 → IsSomeAnd files.new.boxed.value (λ k.
        spec.HoldsFiles tables.items k.what) }
    ensures next { result ≡ 0 → next_id.new ≡ unwrap_or left 0 }
    ensures left { result ≢ 0 →
        (next_id.new ≡ next_id.old) × (files.new.boxed.value ≡ None) }
{
    let mut ids = left;
    let kept = Files {
        writer: None,
        tables,
    };
    let code = files.begin(alloc, What::Files(kept));
    if code == 0 {
        *next_id = ids.next().unwrap_or(0);
    }
    code
}

// Puts the tables of a compaction into the handle, and returns its code.
#[tactic(auto, using(crate::proofs::Compacting::reported_outcomes))]
fn tell_outcome(
    alloc: Global,
    came: Result<CompactionOutcome, Error>,
    files: &mut Handle,
    next_id: &mut u64,
) -> u32
    requires empty { files.old.boxed.value ≡ None }
    requires through { IfOk came spec.GoesThrough }
    ensures returned { spec.ReportsOutcome result files.new.boxed.value next_id.new came }
    ensures left { result ≢ 0 →
        (next_id.new ≡ next_id.old) × (files.new.boxed.value ≡ None) }
{
    match came {
        Ok(CompactionOutcome::Tables(tables, left)) => {
            tell_tables(alloc, tables, left, files, next_id)
        }
        Ok(CompactionOutcome::OutOfOrder) => OUT_OF_ORDER,
        // Unreachable: there is no observer that could stop it.
        Ok(CompactionOutcome::Stopped) => OUT_OF_ORDER,
        Err(error) => u32::from(error.number()),
    }
}

// Compacts a list of runs into a closed handle.
fn compact_into(
    alloc: Global,
    runs: &RunList,
    options: &TableOptions,
    rules: Rules,
    target_size: u64,
    files: &mut Handle,
    next_id: &mut u64,
) -> u32
    requires empty { files.old.boxed.value ≡ None }
    requires usable { spec.are_usable options.now ≡ true }
    ensures returned { spec.IsReportedOf
        (spec.IsUnfiltered runs.now rules (spec.decode_compactor options.now target_size))
        result files.new.boxed.value next_id.new }
    ensures left { result ≢ 0 →
        (next_id.new ≡ next_id.old) × (files.new.boxed.value ≡ None) }
{
    let came = compacted(alloc, runs, options, rules, target_size);
    tell_outcome(alloc, came, files, next_id)
}

fn compact_held(
    alloc: Global,
    held: &Held,
    options: &TableOptions,
    rules: Rules,
    target_size: u64,
    files: &mut Handle,
    next_id: &mut u64,
) -> u32
    requires empty { files.old.boxed.value ≡ None }
    ensures kind { spec.are_runs held.now.what ≡ false → result ≡ 102 }
    ensures compacts { spec.CompactsHeld options.now rules target_size held.now.what result
        files.new.boxed.value next_id.new }
    ensures left { result ≢ 0 →
        (next_id.new ≡ next_id.old) × (files.new.boxed.value ≡ None) }
{
    let What::Runs(runs) = &held.what else {
        return OTHER_KIND;
    };
    if !are_usable(options) {
        return NO_SUCH;
    }
    compact_into(alloc, runs, options, rules, target_size, files, next_id)
}

/// Compacts the tables of a list of runs into new finished tables.
///
/// `files` must be closed; it then holds the new tables, written with `options`. A new table starts
/// at the next key once the current one has `target_size` bytes of data blocks; with 0 each key has
/// a table of its own. The first table has the id of the options, or the id after it if
/// `target_size` is 0. Each further table has the next id. `next_id` gets the first unused id, or 0
/// if none is left.
///
/// No reader may read at a sequence number below `watermark`. With `evict_tombstones`, a tombstone
/// is dropped if no older version of its key is kept. With `zero_seqnos`, sequence numbers below
/// the watermark become 0. The list of runs is not changed.
///
/// # Errors
///
/// - 101: `files` is open.
/// - 100: `runs` is closed.
/// - 102: `runs` holds no list of runs.
/// - 105: an option is out of range.
/// - 104: a kept entry is not in order after the one before it, or has the sequence number
///   `u64::MAX`.
/// - An error code of `compact_any_runs`.
///
/// On error, `files` and `next_id` are unchanged.
#[unsafe(no_mangle)]
pub extern "C" fn sst_compact(
    alloc: Global,
    runs: &mut Handle,
    options: &TableOptions,
    watermark: u64,
    evict_tombstones: bool,
    zero_seqnos: bool,
    target_size: u64,
    files: &mut Handle,
    next_id: &mut u64,
) -> u32
    ensures uses { spec.UsesSource spec.are_runs runs.old.boxed.value runs.new.boxed.value
        files.old.boxed.value files.new.boxed.value result }
    ensures compacts { (h : spec.HeldValue) → files.old.boxed.value ≡ None →
        runs.old.boxed.value ≡ Some h → spec.CompactsHeld options.now
        (spec.rules_by watermark evict_tombstones zero_seqnos) target_size h.what result
        files.new.boxed.value next_id.new }
    ensures left { result ≢ 0 → next_id.new ≡ next_id.old }
{
    if files.is_open() {
        return OPEN;
    }
    let Some(held) = runs.take(alloc) else {
        return CLOSED;
    };
    let rules = Rules {
        watermark,
        evict: evict_tombstones,
        zeroing: zero_seqnos,
    };
    let code = compact_held(alloc, &held, options, rules, target_size, files, next_id);
    runs.put(held);
    code
}
