//! Packing the tables of a list of runs.
ghost use Rattle.std.specs.Prelude.{◌≡◌, ◌++◌, IfErr, IfOk, OnOk, map};
ghost use Rattle.sst_c.specs.Words as spec;

use crate::run_list::RunList;
use lsm_readers::Table;
use lsm_sorted::{Packed, Run, pack_each};
use sst_blocks::Error;
use std::alloc::Global;
use std::sync::Arc;

fn share_run(tables: &mut Vec<Table>, run: &Run<Table>) -> Result<(), Error>
    ensures ok { OnOk result (tables.new.items ≡ tables.old.items ++ run.now) }
    ensures err { IfErr result (λ e. e ≡ spec.OutOfMemory) }
{
    for table in run.as_slice() {
        tables.push(table.clone()?)?;
    }
    Ok(())
}

// References to the tables of all runs, run after run.
fn share_all(alloc: Global, runs: &[Arc<Run<Table>>]) -> Result<Vec<Table>, Error>
    ensures ok { IfOk result
        (λ tables. tables.items ≡ spec.tables_in (map spec.arc_value runs.now)) }
    ensures err { IfErr result (λ e. e ≡ spec.OutOfMemory) }
{
    let mut tables = Vec::new(alloc);
    for run in runs {
        share_run(&mut tables, run)?;
    }
    Ok(tables)
}

/// Packs the tables of a list of runs.
///
/// A table is identified by its index among all of them, run after run.
pub(crate) fn packing_of(alloc: Global, runs: &RunList) -> Result<Packed<Table>, Error>
    ensures ok { IfOk result (spec.IsPackedOf spec.range_of (spec.tables_in runs.now)) }
    ensures err { IfErr result (λ e. e ≡ spec.OutOfMemory) }
{
    let tables = share_all(alloc, runs.as_slice())?;
    pack_each(alloc, tables)
}
