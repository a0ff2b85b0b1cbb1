//! Packing the tables of a list of runs into the fewest runs.
ghost use Rattle.std.specs.Prelude.{◌≡◌, ◌≢◌, ◌⊎◌, false, IsSomeAnd, None, Some, length, true};
ghost use Rattle.sst_c.specs.Words as spec;

use crate::codes::{CLOSED, NO_SUCH, OPEN, OTHER_KIND};
use crate::handle::Handle;
use crate::held::{Held, What};
use crate::packed::packing_of;
use std::alloc::Global;

// Puts the packed runs into a closed handle.
fn pack(alloc: Global, held: &Held, packed: &mut Handle) -> u32
    requires { packed.old.boxed.value ≡ None }
    ensures begins { spec.OpensNew spec.are_runs held.now.what packed.new.boxed.value result }
    ensures memory { spec.are_runs held.now.what ≡ true → (result ≡ 0) ⊎ (result ≡ 1) }
    ensures kind { result ≡ 0 →
        IsSomeAnd packed.new.boxed.value (λ k. spec.are_runs k.what ≡ true) }
    ensures packed { result ≡ 0 → IsSomeAnd packed.new.boxed.value (λ k.
        spec.ArePackedOf (spec.runs_held held.now.what) (spec.runs_held k.what)) }
{
    let What::Runs(runs) = &held.what else {
        return OTHER_KIND;
    };
    match runs.packed(alloc) {
        Ok(fewest) => packed.begin(alloc, What::Runs(fewest)),
        Err(error) => u32::from(error.number()),
    }
}

/// Packs the tables of a list of runs into the fewest runs.
///
/// The order of each key's tables is kept. `packed` must be closed; it then holds a list of the
/// packed runs, with references to the tables. If the tables store lists, reads of both lists of
/// runs find the same entries. `runs` is not changed.
///
/// # Errors
///
/// - 101: `packed` is open.
/// - 100: `runs` is closed.
/// - 102: `runs` holds no list of runs.
/// - 1: out of memory.
///
/// On error, both handles are unchanged.
#[unsafe(no_mangle)]
pub extern "C" fn sst_runs_pack(alloc: Global, runs: &mut Handle, packed: &mut Handle) -> u32
    ensures opens { spec.OpensFrom spec.are_runs runs.old.boxed.value runs.new.boxed.value
        packed.old.boxed.value packed.new.boxed.value result }
    ensures memory { (h : spec.HeldValue) → packed.old.boxed.value ≡ None →
        runs.old.boxed.value ≡ Some h → spec.are_runs h.what ≡ true → (result ≡ 0) ⊎ (result ≡ 1) }
    ensures kind { result ≡ 0 →
        IsSomeAnd packed.new.boxed.value (λ k. spec.are_runs k.what ≡ true) }
    // They are the packed runs of the list. If the tables store lists, they hold the same entries.
    ensures packed { (h : spec.HeldValue) → runs.old.boxed.value ≡ Some h → result ≡ 0 →
        IsSomeAnd packed.new.boxed.value (λ k.
        spec.ArePackedOf (spec.runs_held h.what) (spec.runs_held k.what)) }
{
    if packed.is_open() {
        return OPEN;
    }
    let Some(held) = runs.take(alloc) else {
        return CLOSED;
    };
    let code = pack(alloc, &held, packed);
    runs.put(held);
    code
}

// Puts the packing of the tables of runs into a closed handle.
fn show_packing(alloc: Global, held: &Held, packing: &mut Handle) -> u32
    requires { packing.old.boxed.value ≡ None }
    ensures begins { spec.OpensNew spec.are_runs held.now.what packing.new.boxed.value result }
    ensures memory { spec.are_runs held.now.what ≡ true → (result ≡ 0) ⊎ (result ≡ 1) }
    ensures packed { result ≡ 0 →
        IsSomeAnd packing.new.boxed.value (λ k. spec.PacksHeld held.now.what k.what) }
{
    let What::Runs(runs) = &held.what else {
        return OTHER_KIND;
    };
    match packing_of(alloc, runs) {
        Ok(packed) => packing.begin(alloc, What::Packing(packed)),
        Err(error) => u32::from(error.number()),
    }
}

/// Computes a packing of the tables of a list of runs into the fewest runs.
///
/// `packing` must be closed. It then holds the packed runs, and a chain of overlapping tables that
/// shows that no fewer suffice. A table is identified by its index in the list, run after run, from
/// 0.
///
/// # Errors
///
/// - 101: `packing` is open.
/// - 100: `runs` is closed.
/// - 102: `runs` holds no list of runs.
/// - 1: out of memory.
///
/// On error, both handles are unchanged.
#[unsafe(no_mangle)]
pub extern "C" fn sst_packing_open(alloc: Global, runs: &mut Handle, packing: &mut Handle) -> u32
    ensures opens { spec.OpensFrom spec.are_runs runs.old.boxed.value runs.new.boxed.value
        packing.old.boxed.value packing.new.boxed.value result }
    ensures memory { (h : spec.HeldValue) → packing.old.boxed.value ≡ None →
        runs.old.boxed.value ≡ Some h → spec.are_runs h.what ≡ true → (result ≡ 0) ⊎ (result ≡ 1) }
    // The tables are those of the list, and the order of each key's tables is kept. No fewer runs
    // suffice, and the chain has as many tables as there are runs.
    ensures packed { spec.MakesFrom runs.old.boxed.value result packing.new.boxed.value
        spec.PacksHeld }
{
    if packing.is_open() {
        return OPEN;
    }
    let Some(held) = runs.take(alloc) else {
        return CLOSED;
    };
    let code = show_packing(alloc, &held, packing);
    runs.put(held);
    code
}

fn count(held: &Held, runs: &mut u64) -> u32
    ensures other { spec.is_packing held.now.what ≡ false → result ≡ 102 }
    ensures returned { spec.is_packing held.now.what ≡ true →
        (result ≡ 0) × (runs.new ≡ length (spec.packed_runs held.now.what)) }
    ensures left { result ≢ 0 → runs.new ≡ runs.old }
{
    match &held.what {
        What::Packing(packed) => {
            *runs = packed.runs.len() as u64;
            0
        }
        _ => OTHER_KIND,
    }
}

/// Writes the number of packed runs to `runs`.
///
/// # Errors
///
/// - 100: the handle is closed.
/// - 102: the handle holds no packing.
///
/// On error, `runs` is unchanged.
#[unsafe(no_mangle)]
pub extern "C" fn sst_packing_count(alloc: Global, packing: &mut Handle, runs: &mut u64) -> u32
    ensures queries { spec.QueriesHandle spec.is_packing packing.old.boxed.value
        packing.new.boxed.value result }
    ensures returned { (h : spec.HeldValue) → packing.old.boxed.value ≡ Some h →
        spec.is_packing h.what ≡ true →
        (result ≡ 0) × (runs.new ≡ length (spec.packed_runs h.what)) }
    ensures left { result ≢ 0 → runs.new ≡ runs.old }
{
    let Some(held) = packing.take(alloc) else {
        return CLOSED;
    };
    let code = count(&held, runs);
    packing.put(held);
    code
}

fn count_run(held: &Held, run: u64, tables: &mut u64) -> u32
    ensures other { spec.is_packing held.now.what ≡ false → result ≡ 102 }
    ensures counts { spec.CountsRun held.now.what run result tables.new }
    ensures left { result ≢ 0 → tables.new ≡ tables.old }
{
    let What::Packing(packed) = &held.what else {
        return OTHER_KIND;
    };
    match packed.runs.get(run as usize) {
        Some(run) => {
            *tables = run.as_slice().len() as u64;
            0
        }
        None => NO_SUCH,
    }
}

/// Writes the number of tables of the packed run at index `run`, from 0, to `tables`.
///
/// # Errors
///
/// - 100: the handle is closed.
/// - 102: the handle holds no packing.
/// - 105: there is no run at this index.
///
/// On error, `tables` is unchanged.
#[unsafe(no_mangle)]
pub extern "C" fn sst_packing_run(
    alloc: Global,
    packing: &mut Handle,
    run: u64,
    tables: &mut u64,
) -> u32
    ensures queries { spec.QueriesHandle spec.is_packing packing.old.boxed.value
        packing.new.boxed.value result }
    ensures counts { (h : spec.HeldValue) → packing.old.boxed.value ≡ Some h →
        spec.CountsRun h.what run result tables.new }
    ensures left { result ≢ 0 → tables.new ≡ tables.old }
{
    let Some(held) = packing.take(alloc) else {
        return CLOSED;
    };
    let code = count_run(&held, run, tables);
    packing.put(held);
    code
}

fn tell_table(held: &Held, run: u64, place: u64, table: &mut u64) -> u32
    ensures other { spec.is_packing held.now.what ≡ false → result ≡ 102 }
    ensures finds { spec.FindsPacked held.now.what run place result table.new }
    ensures left { result ≢ 0 → table.new ≡ table.old }
{
    let What::Packing(packed) = &held.what else {
        return OTHER_KIND;
    };
    let Some(run) = packed.runs.get(run as usize) else {
        return NO_SUCH;
    };
    match run.as_slice().get(place as usize) {
        Some(placed) => {
            *table = placed.place as u64;
            0
        }
        None => NO_SUCH,
    }
}

/// Writes the index in the list of the table at `place` in a packed run to `table`.
///
/// `run` and `place` count from 0.
///
/// # Errors
///
/// - 100: the handle is closed.
/// - 102: the handle holds no packing.
/// - 105: there is no such run, or it has no table at `place`.
///
/// On error, `table` is unchanged.
#[unsafe(no_mangle)]
pub extern "C" fn sst_packing_table(
    alloc: Global,
    packing: &mut Handle,
    run: u64,
    place: u64,
    table: &mut u64,
) -> u32
    ensures queries { spec.QueriesHandle spec.is_packing packing.old.boxed.value
        packing.new.boxed.value result }
    ensures finds { (h : spec.HeldValue) → packing.old.boxed.value ≡ Some h →
        spec.FindsPacked h.what run place result table.new }
    ensures left { result ≢ 0 → table.new ≡ table.old }
{
    let Some(held) = packing.take(alloc) else {
        return CLOSED;
    };
    let code = tell_table(&held, run, place, table);
    packing.put(held);
    code
}

fn tell_link(held: &Held, place: u64, table: &mut u64) -> u32
    ensures other { spec.is_packing held.now.what ≡ false → result ≡ 102 }
    ensures finds { spec.FindsLink held.now.what place result table.new }
    ensures left { result ≢ 0 → table.new ≡ table.old }
{
    let What::Packing(packed) = &held.what else {
        return OTHER_KIND;
    };
    match packed.chain.get(place as usize) {
        Some(link) => {
            *table = link.0 as u64;
            0
        }
        None => NO_SUCH,
    }
}

/// Writes the index in the list of the table at `place` in the chain, from 0, to `table`.
///
/// The chain has as many tables as there are packed runs. Each overlaps the next one, which is
/// older.
///
/// # Errors
///
/// - 100: the handle is closed.
/// - 102: the handle holds no packing.
/// - 105: the chain has no table at `place`.
///
/// On error, `table` is unchanged.
#[unsafe(no_mangle)]
pub extern "C" fn sst_packing_chain(
    alloc: Global,
    packing: &mut Handle,
    place: u64,
    table: &mut u64,
) -> u32
    ensures queries { spec.QueriesHandle spec.is_packing packing.old.boxed.value
        packing.new.boxed.value result }
    ensures finds { (h : spec.HeldValue) → packing.old.boxed.value ≡ Some h →
        spec.FindsLink h.what place result table.new }
    ensures left { result ≢ 0 → table.new ≡ table.old }
{
    let Some(held) = packing.take(alloc) else {
        return CLOSED;
    };
    let code = tell_link(&held, place, table);
    packing.put(held);
    code
}
