//! Compactions that hand out each finished table at once.
ghost use Rattle.std.specs.Prelude.{◌≡◌, ◌≢◌, ◌∷◌, ◌⊎◌, [], false, IsSomeAnd, None, Some, is_some};
ghost use Rattle.std.specs.Prelude.{true, unwrap_or};
ghost use Rattle.sst_c.specs.Words as spec;

use crate::codes::{CLOSED, NO_MEMORY, NOTHING, OPEN, OTHER_KIND, OUT_OF_ORDER};
use crate::compactions::tell_tables;
use crate::handle::Handle;
use crate::held::{Held, What};
use crate::merged::give_up;
use lsm_runs::Compaction;
use lsm_writers::{FinishedTable, TableIds, TableStream, TableStreamError};
use sst_blocks::Lending;
use std::alloc::Global;
use std::marker::Model;

/// A compaction that yields its tables one by one.
///
/// It can be polled any number of times, also after the end. Contracts see the stream.
#[derive(Drop)]
pub struct OpenCompaction {
    tables: Compaction<Global>,
}

impl Model for OpenCompaction {
    ghost use Rattle.sst_c.specs.Compacting.{Compacting};

    ghost Value = { Compacting };

    ghost view = { λ c. c.tables };

    ghost invariant = { λ c. ⟦<Compaction<Global> as Iterator>⟧.can_next c.tables };
}

// The next item of a stream of tables. It is generic in the source: a proof about a call on the
// concrete stream costs much.
fn next_of<L: Lending + Drop>(
    tables: &mut TableStream<L, Global>,
) -> Option<Result<FinishedTable, TableStreamError>>
    requires { ⟦<TableStream<L, Global> as Iterator>⟧.can_next tables.old }
    ensures can { ⟦<TableStream<L, Global> as Iterator>⟧.can_next tables.new }
    ensures gives { ⟦<TableStream<L, Global> as Iterator>⟧.next_gives tables.old result tables.new }
{
    tables.next()
}

// Returns the table and the id counter after it, or the code of an error or of the end.
fn taken(
    item: Option<Result<FinishedTable, TableStreamError>>,
    ids: TableIds,
) -> Result<(FinishedTable, TableIds), u32>
    ensures { result ≡ spec.item_taken item ids }
{
    match item {
        Some(Ok(table)) => Ok((table, ids)),
        Some(Err(TableStreamError::OutOfOrder)) => Err(OUT_OF_ORDER),
        Some(Err(TableStreamError::Failed(error))) => Err(u32::from(error.number())),
        None => Err(NOTHING),
    }
}

impl OpenCompaction {
    /// Wraps a compaction that can be polled.
    pub(crate) fn new(tables: Compaction<Global>) -> OpenCompaction
        requires { ⟦<Compaction<Global> as Iterator>⟧.can_next tables }
        ensures { result ≡ tables }
    {
        OpenCompaction { tables }
    }

    // Takes the next table, with the id counter after it.
    fn take_next(&mut self) -> Result<(FinishedTable, TableIds), u32>
        ensures { spec.TakesNext ⟦<Compaction<Global> as Iterator>⟧.next_gives self.old result
            self.new }
    {
        let item = next_of(&mut self.tables);
        taken(item, self.tables.table_ids())
    }
}

// Puts a finished table into the handle, and writes the first unused id.
fn tell_table(
    alloc: Global,
    table: FinishedTable,
    left: TableIds,
    files: &mut Handle,
    next_id: &mut u64,
) -> u32
    requires { files.old.boxed.value ≡ None }
    ensures memory { (result ≡ 0) ⊎ (result ≡ 1) }
    ensures new { result ≡ 0 → IsSomeAnd files.new.boxed.value (λ k. spec.found_by k ≡ None) }
    ensures kept { result ≡ 0 → IsSomeAnd files.new.boxed.value (λ k.
        spec.HoldsFiles (table ∷ []) k.what) }
    ensures next { result ≡ 0 → next_id.new ≡ unwrap_or left 0 }
    ensures left { result ≢ 0 →
        (next_id.new ≡ next_id.old) × (files.new.boxed.value ≡ None) }
{
    let mut tables = Vec::new(alloc);
    match tables.push(table) {
        Ok(()) => tell_tables(alloc, tables, left, files, next_id),
        Err(refused) => {
            drop(refused);
            NO_MEMORY
        }
    }
}

// Puts the taken table into the handle, or returns the code.
fn tell_taken(
    alloc: Global,
    taken: Result<(FinishedTable, TableIds), u32>,
    files: &mut Handle,
    next_id: &mut u64,
) -> u32
    requires { files.old.boxed.value ≡ None }
    ensures returned { spec.ReportsTable result files.new.boxed.value next_id.new taken }
    ensures left { result ≢ 0 →
        (next_id.new ≡ next_id.old) × (files.new.boxed.value ≡ None) }
{
    match taken {
        Ok((table, left)) => tell_table(alloc, table, left, files, next_id),
        Err(code) => code,
    }
}

// Hands out the next table. The compaction is dropped at the end and after an error.
fn hand_out(
    alloc: Global,
    compaction: &mut Option<OpenCompaction>,
    files: &mut Handle,
    next_id: &mut u64,
) -> u32
    requires { files.old.boxed.value ≡ None }
    ensures over { compaction.old ≡ None → (result ≡ 106) × (compaction.new ≡ None) }
    ensures hands { (s : spec.CompactionState) → compaction.old ≡ Some s →
        spec.HandsOut ⟦<Compaction<Global> as Iterator>⟧.next_gives s result
        files.new.boxed.value next_id.new compaction.new }
    ensures left { result ≢ 0 →
        (next_id.new ≡ next_id.old) × (files.new.boxed.value ≡ None) }
{
    let Some(source) = compaction else {
        return NOTHING;
    };
    let taken = source.take_next();
    let code = tell_taken(alloc, taken, files, next_id);
    if code != 0 {
        give_up(compaction);
    }
    code
}

// Hands out the next table of the held object, if it is a compaction.
fn hand_out_held(alloc: Global, held: &mut Held, files: &mut Handle, next_id: &mut u64) -> u32
    requires { files.old.boxed.value ≡ None }
    ensures steps { spec.StepsCompaction ⟦<Compaction<Global> as Iterator>⟧.next_gives held.old.what
        result files.new.boxed.value next_id.new held.new.what }
    ensures found { spec.found_by held.new ≡ spec.found_by held.old }
    ensures left { result ≢ 0 →
        (next_id.new ≡ next_id.old) × (files.new.boxed.value ≡ None) }
{
    match &mut held.what {
        What::Compaction(compaction) => hand_out(alloc, compaction, files, next_id),
        _ => OTHER_KIND,
    }
}

/// Hands out the next finished table of a compaction.
///
/// `files` must be closed; it then holds this one table. `next_id` gets the first id that is not
/// used so far, or 0 if none is left.
///
/// # Errors
///
/// - 101: `files` is open.
/// - 100: `compaction` is closed.
/// - 102: `compaction` holds no compaction.
/// - 106: no table is left. Each later call returns this too.
/// - 104: a kept entry is not in order after the one before it, or has the sequence number
///   `u64::MAX`.
/// - The error code of a block that cannot be loaded, of the writer, or 1: out of memory.
///
/// The last three end the compaction and drop its unfinished table. Out of memory can drop the
/// table that was just finished, too. On error, `files` and `next_id` are unchanged.
#[unsafe(no_mangle)]
pub extern "C" fn sst_compaction_next(
    alloc: Global,
    compaction: &mut Handle,
    files: &mut Handle,
    next_id: &mut u64,
) -> u32
    ensures opens { spec.OpensHandle files.old.boxed.value files.new.boxed.value result }
    ensures unclosed { is_some files.old.boxed.value ≡ true →
        compaction.new.boxed.value ≡ compaction.old.boxed.value }
    ensures shut { files.old.boxed.value ≡ None → compaction.old.boxed.value ≡ None →
        (result ≡ 100) × (compaction.new.boxed.value ≡ None) }
    // It is one call of the library's compaction.
    ensures steps { spec.StepsHeld ⟦<Compaction<Global> as Iterator>⟧.next_gives
        compaction.old.boxed.value compaction.new.boxed.value
        files.old.boxed.value files.new.boxed.value result next_id.new }
    // The entry found by the last read is unchanged.
    ensures found { (h : spec.HeldValue) → compaction.old.boxed.value ≡ Some h →
        IsSomeAnd compaction.new.boxed.value (λ k. spec.found_by k ≡ spec.found_by h) }
    ensures left { result ≢ 0 → next_id.new ≡ next_id.old }
{
    if files.is_open() {
        return OPEN;
    }
    let Some(mut held) = compaction.take(alloc) else {
        return CLOSED;
    };
    let code = hand_out_held(alloc, &mut held, files, next_id);
    compaction.put(held);
    code
}
