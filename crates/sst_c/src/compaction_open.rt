//! Opening a compaction that hands out each finished table at once.
ghost use Rattle.std.specs.Prelude.{◌≡◌, ◌⊎◌, false, IfErr, IfOk, IsSomeAnd, None, Some, true};
ghost use Rattle.sst_c.specs.Words as spec;

use crate::codes::{CLOSED, NO_SUCH, OPEN, OTHER_KIND};
use crate::compaction_steps::OpenCompaction;
use crate::compactions::compactor_of;
use crate::handle::Handle;
use crate::held::{Held, What};
use crate::options::{TableOptions, are_usable};
use crate::run_list::RunList;
use lsm_runs::{RunScanner, compact_each};
use lsm_sorted::LendingMerger;
use lsm_sorted::compaction::Rules;
use lsm_sorted::compaction::lending::LendingCompaction;
use lsm_sorted::compaction::stream::{NoCallback, NoFilter};
use lsm_writers::MultiWriter;
use sst_blocks::{Error, Lending};
use std::alloc::Global;

/// The entries that a compaction of runs keeps, borrowed from their blocks.
type Kept = LendingCompaction<
    LendingMerger<RunScanner<Global>, Global>,
    NoFilter,
    NoCallback,
    Global,
>;

fn opened_by(
    alloc: Global,
    runs: &RunList,
    rules: Rules,
    writer: MultiWriter,
) -> Result<OpenCompaction, Error>
    requires { spec.IsFreshRun writer }
    ensures starts { IfOk result
        (spec.StartsCompaction ⟦<Kept as Lending>⟧.advances runs.now rules writer) }
    ensures opens { spec.Faults result (spec.first_blocks_fault runs.now) }
    ensures err { spec.AreMergeable runs.now → IfErr result (λ e. e ≡ spec.OutOfMemory) }
{
    Ok(OpenCompaction::new(compact_each(alloc, runs.as_slice(), rules, writer)?))
}

fn opened(
    alloc: Global,
    runs: &RunList,
    options: &TableOptions,
    rules: Rules,
    target_size: u64,
) -> Result<OpenCompaction, Error>
    requires { spec.are_usable options.now ≡ true }
    ensures starts { IfOk result (spec.StartsCompaction ⟦<Kept as Lending>⟧.advances runs.now rules
        (spec.decode_compactor options.now target_size)) }
    ensures opens { spec.Faults result (spec.first_blocks_fault runs.now) }
    ensures err { spec.AreMergeable runs.now → IfErr result (λ e. e ≡ spec.OutOfMemory) }
{
    let writer = compactor_of(alloc, options, target_size)?;
    opened_by(alloc, runs, rules, writer)
}

// Puts a compaction of runs into a closed handle.
fn begin(
    alloc: Global,
    held: &Held,
    options: &TableOptions,
    rules: Rules,
    target_size: u64,
    compaction: &mut Handle,
) -> u32
    requires { compaction.old.boxed.value ≡ None }
    ensures begins { spec.OpensNew spec.are_runs held.now.what compaction.new.boxed.value result }
    ensures starts { spec.OpensCompaction ⟦<Kept as Lending>⟧.advances options.now rules target_size
        held.now.what result compaction.new.boxed.value }
{
    let What::Runs(runs) = &held.what else {
        return OTHER_KIND;
    };
    if !are_usable(options) {
        return NO_SUCH;
    }
    match opened(alloc, runs, options, rules, target_size) {
        Ok(opened) => compaction.begin(alloc, What::Compaction(Some(opened))),
        Err(error) => u32::from(error.number()),
    }
}

/// Opens a compaction of a list of runs that hands out each new table as soon as it is finished.
///
/// The tables are those of `sst_compact` with the same arguments; `sst_compaction_next` hands them
/// out. `compaction` must be closed. The first data block of each run is loaded, and nothing is
/// written yet.
///
/// The compaction holds references to the tables. The tables and the list may be closed before it,
/// and the list may change.
///
/// # Errors
///
/// - 101: `compaction` is open.
/// - 100: `runs` is closed.
/// - 102: `runs` holds no list of runs.
/// - 105: an option is out of range.
/// - The error code of the first run whose first data block cannot be loaded, or 1: out of memory.
///
/// On error, both handles are unchanged.
#[unsafe(no_mangle)]
pub extern "C" fn sst_compaction_open(
    alloc: Global,
    runs: &mut Handle,
    options: &TableOptions,
    watermark: u64,
    evict_tombstones: bool,
    zero_seqnos: bool,
    target_size: u64,
    compaction: &mut Handle,
) -> u32
    ensures opens { spec.OpensFrom spec.are_runs runs.old.boxed.value runs.new.boxed.value
        compaction.old.boxed.value compaction.new.boxed.value result }
    ensures starts { (h : spec.HeldValue) → compaction.old.boxed.value ≡ None →
        runs.old.boxed.value ≡ Some h → spec.OpensCompaction ⟦<Kept as Lending>⟧.advances
        options.now (spec.rules_by watermark evict_tombstones zero_seqnos) target_size h.what
        result compaction.new.boxed.value }
{
    if compaction.is_open() {
        return OPEN;
    }
    let Some(held) = runs.take(alloc) else {
        return CLOSED;
    };
    let rules = Rules {
        watermark,
        evict: evict_tombstones,
        zeroing: zero_seqnos,
    };
    let code = begin(alloc, &held, options, rules, target_size, compaction);
    runs.put(held);
    code
}
