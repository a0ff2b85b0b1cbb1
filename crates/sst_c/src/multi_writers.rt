//! Writing several tables, one after another.
ghost use Rattle.std.specs.Prelude.{◌≡◌, ◌≢◌, ◌<◌, ◌∷◌, ◌⊎◌, [], false, IfErr, IfOk, IsSomeAnd};
ghost use Rattle.std.specs.Prelude.{IsTrue, None, Some, is_some, true, unwrap_or};
ghost use Rattle.sst_c.specs.Words as spec;

use crate::codes::{CLOSED, NO_MEMORY, NO_SUCH, NOTHING, OPEN, OTHER_KIND, OUT_OF_ORDER};
use crate::compactions::{compactor_of, tell_tables};
use crate::handle::Handle;
use crate::held::{Files, Held, What, box_of};
use crate::options::{TableOptions, are_usable};
use crate::writers::kind_of;
use lsm_writers::{FinishedTable, MultiWriter, TableIds};
use sst_blocks::{EntryRef, Error, SeqNo, ValueType};
use std::alloc::Global;

// Puts a writer with these options into a closed handle.
fn begin(alloc: Global, options: &TableOptions, target_size: u64, writer: &mut Handle) -> u32
    requires empty { writer.old.boxed.value ≡ None }
    requires usable { spec.are_usable options.now ≡ true }
    ensures memory { (result ≡ 0) ⊎ (result ≡ 1) }
    ensures opened { result ≡ 0 → IsSomeAnd writer.new.boxed.value (λ h. (spec.found_by h ≡ None)
        × (spec.multi_writer_in h.what ≡ Some (spec.decode_compactor options.now target_size))) }
    ensures left { result ≢ 0 → writer.new.boxed.value ≡ None }
{
    match compactor_of(alloc, options, target_size) {
        Ok(begun) => writer.begin(alloc, What::MultiWriter(Some(begun))),
        Err(error) => u32::from(error.number()),
    }
}

/// Opens a writer of several tables, one after another.
///
/// A new table starts at the next key once the current one has `target_size` bytes of data blocks;
/// with 0 each key has a table of its own. The first table has the id of the options, or the id
/// after it if `target_size` is 0. Each further table has the next id. `writer` must be closed.
///
/// # Errors
///
/// - 101: `writer` is open.
/// - 105: an option is out of range.
/// - 1: out of memory.
///
/// On error, `writer` is unchanged.
#[unsafe(no_mangle)]
pub extern "C" fn sst_multi_writer_open(
    alloc: Global,
    options: &TableOptions,
    target_size: u64,
    writer: &mut Handle,
) -> u32
    ensures opens { spec.OpensHandle writer.old.boxed.value writer.new.boxed.value result }
    ensures unusable { writer.old.boxed.value ≡ None → spec.are_usable options.now ≡ false →
        result ≡ 105 }
    ensures memory { writer.old.boxed.value ≡ None → spec.are_usable options.now ≡ true →
        (result ≡ 0) ⊎ (result ≡ 1) }
    ensures opened { result ≡ 0 → IsSomeAnd writer.new.boxed.value (λ h. (spec.found_by h ≡ None)
        × (spec.multi_writer_in h.what ≡ Some (spec.decode_compactor options.now target_size))) }
{
    if writer.is_open() {
        return OPEN;
    }
    if !are_usable(options) {
        return NO_SUCH;
    }
    begin(alloc, options, target_size, writer)
}

// Writes an entry that is in order. It is one call of the library.
fn written(writer: &mut MultiWriter, entry: &EntryRef<'_>) -> Result<(), Error>
    requires { let e = spec.entry_of_ref entry.now in
        IsTrue (spec.may_be_written (spec.all_written writer.old) e.user_key e.seqno) }
    ensures { spec.WritesToTables writer.old (spec.entry_of_ref entry.now) result writer.new }
{
    writer.write_ref(entry)
}

// Returns 0, or the code of the error.
fn code_of(outcome: Result<(), Error>) -> u32
    ensures { result ≡ spec.result_code outcome }
{
    match outcome {
        Ok(()) => 0,
        Err(error) => u32::from(error.number()),
    }
}

// Writes an entry, if it is in order.
fn write_next(
    writer: &mut MultiWriter,
    key: &[u8],
    seqno: SeqNo,
    kind: ValueType,
    value: &[u8],
) -> u32
    ensures order { spec.may_be_written (spec.all_written writer.old) key.now seqno ≡ false →
        (result ≡ 104) × (writer.new ≡ writer.old) }
    ensures took { spec.may_be_written (spec.all_written writer.old) key.now seqno ≡ true →
        spec.ReportsWriting writer.old (spec.entry key.now value.now seqno kind) result writer.new }
{
    let entry = EntryRef {
        user_key: key,
        seqno,
        value_type: kind,
        value,
    };
    if !writer.can_follow_ref(&entry) {
        return OUT_OF_ORDER;
    }
    code_of(written(writer, &entry))
}

// Writes an entry, if its kind exists and it is in order.
fn add_kind(writer: &mut MultiWriter, key: &[u8], seqno: SeqNo, kind: u64, value: &[u8]) -> u32
    ensures { spec.AddsToTables writer.old (spec.row_of kind seqno key.now value.now) result
        writer.new }
{
    match kind_of(kind) {
        Some(kind) => write_next(writer, key, seqno, kind, value),
        None => NO_SUCH,
    }
}

fn add(held: &mut Held, key: &[u8], seqno: SeqNo, kind: u64, value: &[u8]) -> u32
    ensures other { spec.multi_writer_in held.old.what ≡ None →
        (result ≡ 102) × (held.new.what ≡ held.old.what) }
    ensures writes { spec.AddsToHeld (spec.row_of kind seqno key.now value.now) held.old.what
        result held.new.what }
    ensures found { spec.found_by held.new ≡ spec.found_by held.old }
{
    match &mut held.what {
        What::MultiWriter(Some(writer)) => add_kind(writer, key, seqno, kind, value),
        _ => OTHER_KIND,
    }
}

/// Writes an entry as `sst_writer_add` does, and first begins the next table if one is due.
///
/// # Errors
///
/// - 100: the handle is closed.
/// - 102: the handle holds no writer of several tables.
/// - 105: there is no such kind.
/// - 104: the entry is not in order after the last one, or its sequence number is `u64::MAX`.
/// - An error code of `MultiWriter::write`. Each later entry fails too.
///
/// With the first four codes the writer is unchanged. After the others the unfinished table is
/// lost, and the finished ones can still be taken.
#[unsafe(no_mangle)]
pub extern "C" fn sst_multi_writer_add(
    alloc: Global,
    writer: &mut Handle,
    key: &[u8],
    seqno: u64,
    kind: u32,
    value: &[u8],
) -> u32
    ensures through { spec.ThroughMultiWriter writer.old.boxed.value writer.new.boxed.value result }
    // It is one call of the library's writer.
    ensures writes { (h : spec.HeldValue) → writer.old.boxed.value ≡ Some h →
        IsSomeAnd writer.new.boxed.value (λ k.
        spec.AddsToHeld (spec.row_of kind seqno key.now value.now) h.what result k.what) }
{
    let Some(mut held) = writer.take(alloc) else {
        return CLOSED;
    };
    let code = add(&mut held, key, seqno, u64::from(kind), value);
    writer.put(held);
    code
}

// Boxes an object without a table that has memory for one.
fn room_for_one(alloc: Global) -> Result<Box<Held>, Error>
    ensures found { IfOk result (λ room. room.value.found ≡ spec.Kept None) }
    ensures room { IfOk result (λ room. spec.HasRoomForOne room.value.what) }
    ensures err { IfErr result (λ e. e ≡ spec.OutOfMemory) }
{
    let tables = Vec::with_capacity(alloc, 1)?;
    let files = Files {
        writer: None,
        tables,
    };
    box_of(alloc, What::Files(files))
}

// Adds the first finished table. There is memory for it.
#[tactic(auto, using(crate::proofs::MultiWriting::after_none))]
fn add_first(files: &mut Files, table: FinishedTable)
    requires writer { files.old.writer ≡ None }
    requires none { files.old.tables.items ≡ [] }
    requires room { spec.vec_len files.old.tables < spec.vec_capacity files.old.tables }
    ensures writer { files.new.writer ≡ None }
    ensures table { files.new.tables.items ≡ table ∷ [] }
{
    files.tables.push_reserved(table);
}

// Adds a finished table to an object that has memory for one.
fn add_table(room: &mut What, table: FinishedTable)
    requires { spec.HasRoomForOne room.old }
    ensures { spec.HoldsFiles (table ∷ []) room.new }
{
    let What::Files(files) = room else {
        return;
    };
    add_first(files, table);
}

// Puts a finished table into a closed handle. There is memory for it.
fn put_table(mut room: Box<Held>, table: FinishedTable, files: &mut Handle)
    requires empty { files.old.boxed.value ≡ None }
    requires found { room.value.found ≡ spec.Kept None }
    requires room { spec.HasRoomForOne room.value.what }
    ensures { spec.HoldsNew (table ∷ []) files.new.boxed.value }
{
    add_table(&mut room.what, table);
    files.put(room);
}

// Returns the next id, or 0 if none is left.
fn id_or_zero(mut ids: TableIds) -> u64
    ensures { result ≡ unwrap_or ids 0 }
{
    ids.next().unwrap_or(0)
}

// Puts the taken table into a closed handle, if there is one. There is memory for it.
fn tell_taken(
    room: Box<Held>,
    taken: Option<FinishedTable>,
    left: TableIds,
    files: &mut Handle,
    next_id: &mut u64,
) -> u32
    requires empty { files.old.boxed.value ≡ None }
    requires found { room.value.found ≡ spec.Kept None }
    requires room { spec.HasRoomForOne room.value.what }
    ensures returned { spec.ReportsTaken result files.new.boxed.value next_id.new left taken }
    ensures left { result ≢ 0 →
        (next_id.new ≡ next_id.old) × (files.new.boxed.value ≡ None) }
{
    let Some(table) = taken else {
        return NOTHING;
    };
    put_table(room, table, files);
    *next_id = id_or_zero(left);
    0
}

// Takes the oldest finished table. It is one call of the library.
fn taken(writer: &mut MultiWriter) -> Option<FinishedTable>
    ensures { spec.TakesOldest writer.old result writer.new }
{
    writer.take_finished()
}

// Takes the oldest finished table. Memory comes first, so that no table is lost without it.
fn take_table(alloc: Global, writer: &mut MultiWriter, files: &mut Handle, next_id: &mut u64) -> u32
    requires { files.old.boxed.value ≡ None }
    ensures takes { spec.TakesTable writer.old result files.new.boxed.value next_id.new writer.new }
    ensures left { result ≢ 0 →
        (next_id.new ≡ next_id.old) × (files.new.boxed.value ≡ None) }
{
    let Ok(room) = room_for_one(alloc) else {
        return NO_MEMORY;
    };
    let left = writer.table_ids();
    let came = taken(writer);
    tell_taken(room, came, left, files, next_id)
}

fn take_held(alloc: Global, held: &mut Held, files: &mut Handle, next_id: &mut u64) -> u32
    requires { files.old.boxed.value ≡ None }
    ensures other { spec.multi_writer_in held.old.what ≡ None →
        (result ≡ 102) × (held.new.what ≡ held.old.what) }
    ensures takes { spec.HandsOutTable result files.new.boxed.value next_id.new held.old.what
        held.new.what }
    ensures found { spec.found_by held.new ≡ spec.found_by held.old }
    ensures left { result ≢ 0 →
        (next_id.new ≡ next_id.old) × (files.new.boxed.value ≡ None) }
{
    match &mut held.what {
        What::MultiWriter(Some(writer)) => take_table(alloc, writer, files, next_id),
        _ => OTHER_KIND,
    }
}

/// Takes the oldest finished table that was not taken.
///
/// `files` must be closed; it then holds this one table. `next_id` gets the id of the table after
/// the unfinished one, or 0 if none is left. Tables can be taken between any two calls, also after
/// an error of `sst_multi_writer_add`.
///
/// # Errors
///
/// - 101: `files` is open.
/// - 100: `writer` is closed.
/// - 102: `writer` holds no writer of several tables.
/// - 106: every finished table was taken.
/// - 1: out of memory.
///
/// On error, nothing changes.
#[unsafe(no_mangle)]
pub extern "C" fn sst_multi_writer_take(
    alloc: Global,
    writer: &mut Handle,
    files: &mut Handle,
    next_id: &mut u64,
) -> u32
    ensures opens { spec.OpensHandle files.old.boxed.value files.new.boxed.value result }
    ensures unclosed { is_some files.old.boxed.value ≡ true →
        writer.new.boxed.value ≡ writer.old.boxed.value }
    ensures through { files.old.boxed.value ≡ None →
        spec.ThroughMultiWriter writer.old.boxed.value writer.new.boxed.value result }
    // It is one call of the library's writer.
    ensures takes { spec.LeadsFromHeld files.old.boxed.value writer.old.boxed.value
        writer.new.boxed.value (spec.HandsOutTable result files.new.boxed.value next_id.new) }
    ensures left { result ≢ 0 → next_id.new ≡ next_id.old }
{
    if files.is_open() {
        return OPEN;
    }
    let Some(mut held) = writer.take(alloc) else {
        return CLOSED;
    };
    let code = take_held(alloc, &mut held, files, next_id);
    writer.put(held);
    code
}

// Finishes a writer. It is one call of the library.
fn finished(writer: MultiWriter) -> Result<Vec<FinishedTable>, Error>
    ensures { spec.FinishesTables writer result }
{
    writer.finish()
}

// Puts the finished tables into a closed handle, or returns the code of the error.
fn tell_finished(
    alloc: Global,
    came: Result<Vec<FinishedTable>, Error>,
    left: TableIds,
    files: &mut Handle,
    next_id: &mut u64,
) -> u32
    requires { files.old.boxed.value ≡ None }
    ensures returned { spec.ReportsTables result files.new.boxed.value next_id.new left came }
    ensures left { result ≢ 0 →
        (next_id.new ≡ next_id.old) × (files.new.boxed.value ≡ None) }
{
    match came {
        Ok(tables) => tell_tables(alloc, tables, left, files, next_id),
        Err(error) => u32::from(error.number()),
    }
}

// Finishes a writer into a closed handle.
fn finish_into(alloc: Global, writer: MultiWriter, files: &mut Handle, next_id: &mut u64) -> u32
    requires { files.old.boxed.value ≡ None }
    ensures returned { spec.ReportsFinished writer result files.new.boxed.value next_id.new }
    ensures left { result ≢ 0 →
        (next_id.new ≡ next_id.old) × (files.new.boxed.value ≡ None) }
{
    let left = writer.table_ids();
    let came = finished(writer);
    tell_finished(alloc, came, left, files, next_id)
}

// Finishes the writer, if it is not finished.
fn finish_some(
    alloc: Global,
    writer: &mut Option<MultiWriter>,
    files: &mut Handle,
    next_id: &mut u64,
) -> u32
    requires { files.old.boxed.value ≡ None }
    ensures none { writer.old ≡ None → result ≡ 102 }
    ensures over { writer.new ≡ None }
    ensures returned { (w : spec.TablesWritingValue) → writer.old ≡ Some w →
        spec.ReportsFinished w result files.new.boxed.value next_id.new }
    ensures left { result ≢ 0 →
        (next_id.new ≡ next_id.old) × (files.new.boxed.value ≡ None) }
{
    match writer.take() {
        Some(writer) => finish_into(alloc, writer, files, next_id),
        None => OTHER_KIND,
    }
}

fn finish_held(alloc: Global, held: &mut Held, files: &mut Handle, next_id: &mut u64) -> u32
    requires { files.old.boxed.value ≡ None }
    ensures other { spec.multi_writer_in held.old.what ≡ None →
        (result ≡ 102) × (held.new.what ≡ held.old.what) }
    ensures finishes { spec.FinishesInto result files.new.boxed.value next_id.new held.old.what
        held.new.what }
    ensures found { spec.found_by held.new ≡ spec.found_by held.old }
    ensures left { result ≢ 0 →
        (next_id.new ≡ next_id.old) × (files.new.boxed.value ≡ None) }
{
    match &mut held.what {
        What::MultiWriter(writer) => finish_some(alloc, writer, files, next_id),
        _ => OTHER_KIND,
    }
}

/// Finishes a writer of several tables.
///
/// `files` must be closed; it then holds the tables that were not taken, none if nothing was
/// written. `next_id` gets the first unused id, or 0 if none is left. The handle of the writer then
/// holds no writer.
///
/// # Errors
///
/// - 101: `files` is open.
/// - 100: `writer` is closed.
/// - 102: `writer` holds no writer of several tables.
/// - An error code of `MultiWriter::finish`. The writer is dropped then, with the tables that were
///   not taken.
///
/// On error, `files` and `next_id` are unchanged.
#[unsafe(no_mangle)]
pub extern "C" fn sst_multi_writer_finish(
    alloc: Global,
    writer: &mut Handle,
    files: &mut Handle,
    next_id: &mut u64,
) -> u32
    ensures opens { spec.OpensHandle files.old.boxed.value files.new.boxed.value result }
    ensures unclosed { is_some files.old.boxed.value ≡ true →
        writer.new.boxed.value ≡ writer.old.boxed.value }
    ensures through { files.old.boxed.value ≡ None →
        spec.ThroughMultiWriter writer.old.boxed.value writer.new.boxed.value result }
    // It is one call of the library's writer.
    ensures finishes { spec.LeadsFromHeld files.old.boxed.value writer.old.boxed.value
        writer.new.boxed.value (spec.FinishesInto result files.new.boxed.value next_id.new) }
    ensures left { result ≢ 0 → next_id.new ≡ next_id.old }
{
    if files.is_open() {
        return OPEN;
    }
    let Some(mut held) = writer.take(alloc) else {
        return CLOSED;
    };
    let code = finish_held(alloc, &mut held, files, next_id);
    writer.put(held);
    code
}
