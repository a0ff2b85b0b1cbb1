//! A run of a table that was stored in version 3 and of a table that is written now. It is read as
//! one and compacted: the proof shows that the stored bytes are a table of their entries.
ghost use Rattle.std.specs.Prelude.{[], ◌∷◌, IfOk, List};
ghost use Rattle.test_reads.specs.Words as spec;

use crate::runs::compactions::{Version, are, entries_of};
use lsm_sorted::Run;
use lsm_tables::compaction::compact_runs;
use lsm_tables::run::RunReader;
use lsm_tables::table::Table;
use lsm_writers::{FinishedTable, MultiWriter, TableIds, Timestamp, write_list};
use sst_blocks::{Checksum, Error, InternalValue, Slice, ValueType};
use std::alloc::Global;
use std::ops::Bound;
use std::sync::Arc;
use test_support::samples::large::{asked, asked_if_any};
use test_support::samples::runs::{Tables, name_of};
use test_support::samples::stored::two_levels;
use test_support::samples::tables::open;

const V: ValueType = ValueType::Value;

// The bytes of the stored table, which are a table of its entries.
fn stored_bytes(alloc: Global) -> Result<Slice, Error>
    ensures { IfOk result (λ b. spec.IsTable b spec.stored_entries) }
{
    Slice::from(alloc, &two_levels::BYTES)
}

// The bytes of a table of c@2.
fn new_bytes(alloc: Global) -> Result<Slice, Error>
    ensures { IfOk result (λ b. spec.IsTable b spec.new_entries) }
{
    let (key, value) = (Slice::from(alloc, b"c")?, Slice::from(alloc, b"")?);
    let mut items = Vec::new(alloc);
    items.push(InternalValue::from_components(key, value, 2, V))?;
    match write_list(alloc, 2, 0, Timestamp::from(0), items)? {
        Some(table) => Ok(table.bytes),
        None => Err(Error::Source(1)),
    }
}

// The table of some bytes.
fn table(alloc: Global, bytes: Slice) -> Result<Table, Error>
    ensures { (es : List spec.Entry) → spec.IsTable bytes es →
        IfOk result (λ t. spec.HoldsList t es) }
{
    let table = Table::recover(alloc, bytes, Checksum(0), 0, 0, true, true)?;
    table.tells_its_list();
    Ok(table)
}

fn stored_table(alloc: Global) -> Result<Table, Error>
    ensures { IfOk result (λ t. spec.HoldsList t spec.stored_entries) }
{
    table(alloc, stored_bytes(alloc)?)
}

fn new_table(alloc: Global) -> Result<Table, Error>
    ensures { IfOk result (λ t. spec.HoldsList t spec.new_entries) }
{
    table(alloc, new_bytes(alloc)?)
}

// The run of both tables. Fails with `Source(2)` if they are no run.
fn run(alloc: Global) -> Result<Tables<Global>, Error>
    ensures { IfOk result (λ run. spec.AreCompactable (spec.arc_value run ∷ [])) }
{
    let stored = stored_table(alloc)?;
    let new = new_table(alloc)?;
    let mut tables = Vec::new(alloc);
    tables.push(stored)?;
    tables.push(new)?;
    let Some(both) = Run::new(tables) else {
        return Err(Error::Source(2));
    };
    if !both.is_in_order() {
        return Err(Error::Source(2));
    }
    Ok(Arc::new(alloc, both)?)
}

const ENTRIES: [Version; 5] = [
    (b'a', 9, V),
    (b'a', 7, V),
    (b'a', 5, V),
    (b'b', 1, V),
    (b'c', 2, V),
];

// Whether a reader yields all entries, and then nothing.
fn yields_all(reader: &mut RunReader) -> Result<bool, Error> {
    for (key, seqno, _) in &ENTRIES {
        if name_of(reader.next())? != Some((*key, *seqno)) {
            return Ok(false);
        }
    }
    Ok(name_of(reader.next())? == None)
}

// The reader of the whole run.
fn reader(alloc: Global) -> Result<Option<RunReader>, Error> {
    RunReader::new(run(alloc)?, (Bound::Unbounded, Bound::Unbounded))
}

// The versions of the run's tables.
fn versions_in(run: &Tables<Global>) -> Result<[Option<u8>; 2], Error> {
    let mut versions = [None; 2];
    for (version, table) in versions.iter_mut().zip(run.as_slice().iter()) {
        *version = Some(table.metadata.table_version);
    }
    Ok(versions)
}

#[test]
fn a_stored_table_and_a_new_one_are_read_as_one_run(rt: HostRuntime) {
    assert!(rt; asked(run(rt.alloc()), versions_in) == Ok([Some(3), Some(4)]));
    assert!(rt; asked_if_any(reader(rt.alloc()), yields_all) == Ok(Some(true)));
}

// The compaction of the run at threshold 0.
fn kept(alloc: Global) -> Result<Vec<FinishedTable>, Error> {
    let runs = [run(alloc)?];
    let writer = MultiWriter::new(alloc, TableIds::new(1), 0, 0, Timestamp::from(0))?;
    let (tables, _) = compact_runs(alloc, &runs, 0, false, false, writer)?;
    Ok(tables)
}

fn version_of(table: &Table) -> Result<u8, Error> {
    Ok(table.metadata.table_version)
}

// Whether tables are written in version 4.
fn are_new(alloc: Global, tables: &[FinishedTable]) -> Result<bool, Error> {
    for table in tables {
        if asked(open(alloc, table.bytes.clone()?, 0), version_of)? != 4 {
            return Ok(false);
        }
    }
    Ok(true)
}

// Whether the compaction has these entries, in tables of version 4.
fn is_kept(alloc: Global, entries: &[Version]) -> Result<bool, Error> {
    let tables = kept(alloc)?;
    let are_new = are_new(alloc, &tables)?;
    Ok(are(&entries_of(alloc, tables)?, entries) && are_new)
}

#[test]
fn a_stored_table_and_a_new_one_are_compacted(rt: HostRuntime) {
    assert!(rt; is_kept(rt.alloc(), &ENTRIES) == Ok(true));
}
