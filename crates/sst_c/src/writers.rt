//! Writing a table.
ghost use Rattle.std.specs.Prelude.{◌≡◌, ◌≢◌, ◌⊎◌, [], false, IfErr, IfOk, IsSomeAnd, IsTrue, None};
ghost use Rattle.std.specs.Prelude.{Some, true};
ghost use Rattle.sst_c.specs.Words as spec;

use crate::codes::{CLOSED, NO_MEMORY, NO_SUCH, OPEN, OTHER_KIND, OUT_OF_ORDER};
use crate::handle::Handle;
use crate::held::{Files, Held, What};
use crate::options::{TableOptions, are_usable, writer_options};
use lsm_writers::{FinishedTable, Timestamp, Writer};
use sst_blocks::{EntryRef, Error, SeqNo, ValueType};
use std::alloc::Global;

fn new_writer(alloc: Global, options: &TableOptions) -> Result<Writer, Error>
    requires { spec.are_usable options.now ≡ true }
    ensures ok { IfOk result (λ w. w ≡ spec.decode_writing options.now) }
    ensures err { IfErr result (λ e. e ≡ spec.OutOfMemory) }
{
    let created_at = Timestamp::from(u128::from(options.created_at));
    let writer = Writer::new(alloc, options.id, options.level as u8, created_at)?;
    Ok(writer.use_options(writer_options(options)))
}

// Puts a writer with these options into a closed handle.
fn begin(alloc: Global, options: &TableOptions, writer: &mut Handle) -> u32
    requires empty { writer.old.boxed.value ≡ None }
    requires usable { spec.are_usable options.now ≡ true }
    ensures memory { (result ≡ 0) ⊎ (result ≡ 1) }
    ensures opened { result ≡ 0 → IsSomeAnd writer.new.boxed.value (λ h. (spec.found_by h ≡ None)
        × (spec.writer_in h.what ≡ Some (spec.decode_writing options.now))
        × (spec.files_held h.what ≡ [])) }
    ensures left { result ≢ 0 → writer.new.boxed.value ≡ None }
{
    match new_writer(alloc, options) {
        Ok(begun) => {
            let files = Files {
                writer: Some(begun),
                tables: Vec::new(alloc),
            };
            writer.begin(alloc, What::Files(files))
        }
        Err(error) => u32::from(error.number()),
    }
}

/// Opens a writer of a table.
///
/// `writer` must be closed.
///
/// # Errors
///
/// - 101: `writer` is open.
/// - 105: an option is out of range.
/// - 1: out of memory.
///
/// On error, `writer` is unchanged.
#[unsafe(no_mangle)]
pub extern "C" fn sst_writer_open(alloc: Global, options: &TableOptions, writer: &mut Handle) -> u32
    ensures opens { spec.OpensHandle writer.old.boxed.value writer.new.boxed.value result }
    ensures unusable { writer.old.boxed.value ≡ None → spec.are_usable options.now ≡ false →
        result ≡ 105 }
    ensures memory { writer.old.boxed.value ≡ None → spec.are_usable options.now ≡ true →
        (result ≡ 0) ⊎ (result ≡ 1) }
    ensures opened { result ≡ 0 → IsSomeAnd writer.new.boxed.value (λ h. (spec.found_by h ≡ None)
        × (spec.writer_in h.what ≡ Some (spec.decode_writing options.now))
        × (spec.files_held h.what ≡ [])) }
{
    if writer.is_open() {
        return OPEN;
    }
    if !are_usable(options) {
        return NO_SUCH;
    }
    begin(alloc, options, writer)
}

/// Returns the value type of a kind as C passes it.
pub(crate) fn kind_of(kind: u64) -> Option<ValueType>
    ensures { result ≡ spec.decode_kind kind }
{
    match kind {
        1 => Some(ValueType::Value),
        2 => Some(ValueType::Tombstone),
        3 => Some(ValueType::WeakTombstone),
        5 => Some(ValueType::Indirection),
        _ => None,
    }
}

// Writes an entry that is in order.
#[tactic(auto, using(crate::proofs::Answering::tell), unfolding(crate::specs::Writing::TookEntry))]
fn write(writer: &mut Writer, key: &[u8], seqno: SeqNo, kind: ValueType, value: &[u8]) -> u32
    requires { IsTrue (spec.may_be_written (spec.written writer.old) key.now seqno) }
    ensures { spec.TookEntry writer.old (spec.entry key.now value.now seqno kind) result
        writer.new }
{
    let entry = EntryRef {
        user_key: key,
        seqno,
        value_type: kind,
        value,
    };
    match writer.write_ref(&entry) {
        Ok(()) => 0,
        Err(error) => u32::from(error.number()),
    }
}

// Writes an entry, if it is in order.
fn write_next(writer: &mut Writer, key: &[u8], seqno: SeqNo, kind: ValueType, value: &[u8]) -> u32
    ensures order { spec.may_be_written (spec.written writer.old) key.now seqno ≡ false →
        (result ≡ 104) × (writer.new ≡ writer.old) }
    ensures took { spec.may_be_written (spec.written writer.old) key.now seqno ≡ true →
        spec.TookEntry writer.old (spec.entry key.now value.now seqno kind) result writer.new }
{
    let entry = EntryRef {
        user_key: key,
        seqno,
        value_type: kind,
        value,
    };
    if !writer.can_follow_ref(&entry) {
        return OUT_OF_ORDER;
    }
    write(writer, key, seqno, kind, value)
}

/// Writes an entry, if its kind exists and it is in order.
pub(crate) fn add_kind(
    writer: &mut Writer,
    key: &[u8],
    seqno: SeqNo,
    kind: u64,
    value: &[u8],
) -> u32
    ensures { spec.AddsOne writer.old (spec.row_of kind seqno key.now value.now) result writer.new }
{
    match kind_of(kind) {
        Some(kind) => write_next(writer, key, seqno, kind, value),
        None => NO_SUCH,
    }
}

fn add(held: &mut Held, key: &[u8], seqno: SeqNo, kind: u64, value: &[u8]) -> u32
    ensures other { spec.writer_in held.old.what ≡ None →
        (result ≡ 102) × (held.new.what ≡ held.old.what) }
    ensures writes { spec.WritesEntry (spec.row_of kind seqno key.now value.now) held.old.what
        result held.new.what }
    ensures found { spec.found_by held.new ≡ spec.found_by held.old }
{
    match &mut held.what {
        What::Files(files) => match &mut files.writer {
            Some(writer) => add_kind(writer, key, seqno, kind, value),
            None => OTHER_KIND,
        },
        _ => OTHER_KIND,
    }
}

/// Writes an entry: its key, sequence number, kind and value.
///
/// The key and the value are copied. The kind is 1 for a value, 2 for a tombstone, 3 for a weak
/// tombstone, 5 for an indirection. Entries ascend by key; versions of one key descend by sequence
/// number.
///
/// # Errors
///
/// - 100: the handle is closed.
/// - 102: the handle holds no writer.
/// - 105: there is no such kind.
/// - 104: the entry is not in order after the last one, or its sequence number is `u64::MAX`.
/// - An error code of `Writer::write`. Each later entry that is in order fails too.
///
/// With the first four codes the writer is unchanged.
#[unsafe(no_mangle)]
pub extern "C" fn sst_writer_add(
    alloc: Global,
    writer: &mut Handle,
    key: &[u8],
    seqno: u64,
    kind: u32,
    value: &[u8],
) -> u32
    ensures through { spec.WritesThrough writer.old.boxed.value writer.new.boxed.value result }
    ensures writes { (h : spec.HeldValue) → writer.old.boxed.value ≡ Some h →
        IsSomeAnd writer.new.boxed.value (λ k.
        spec.WritesEntry (spec.row_of kind seqno key.now value.now) h.what result k.what) }
{
    let Some(mut held) = writer.take(alloc) else {
        return CLOSED;
    };
    let code = add(&mut held, key, seqno, u64::from(kind), value);
    writer.put(held);
    code
}

// Finishes a writer, and adds its table at the end, if anything was written.
#[tactic(auto, using(crate::proofs::Answering::tell), unfolding(crate::specs::Writing::AddsFileOf))]
fn finish_behind(tables: &mut Vec<FinishedTable>, writer: Writer) -> u32
    ensures returned { spec.FinishReported result writer }
    ensures finished { result ≡ 0 → spec.AddsFileOf writer tables.old.items tables.new.items }
    ensures refused { result ≢ 0 → tables.new.items ≡ tables.old.items }
{
    match writer.finish() {
        Ok(Some(table)) => match tables.push(table) {
            Ok(()) => 0,
            Err(refused) => {
                drop(refused);
                NO_MEMORY
            }
        },
        Ok(None) => 0,
        Err(error) => u32::from(error.number()),
    }
}

fn finish_files(files: &mut Files) -> u32
    ensures none { files.old.writer ≡ None → (result ≡ 102) × (files.new ≡ files.old) }
    ensures returned { (w : spec.WritingValue) → files.old.writer ≡ Some w →
        spec.FinishReported result w }
    ensures given { (w : spec.WritingValue) → files.old.writer ≡ Some w → files.new.writer ≡ None }
    ensures finished { (w : spec.WritingValue) → files.old.writer ≡ Some w → result ≡ 0 →
        spec.AddsFileOf w files.old.tables.items files.new.tables.items }
    ensures refused { (w : spec.WritingValue) → files.old.writer ≡ Some w → result ≢ 0 →
        files.new.tables.items ≡ files.old.tables.items }
{
    match files.writer.take() {
        Some(writer) => finish_behind(&mut files.tables, writer),
        None => OTHER_KIND,
    }
}

fn finish(held: &mut Held) -> u32
    ensures other { spec.writer_in held.old.what ≡ None →
        (result ≡ 102) × (held.new.what ≡ held.old.what) }
    ensures finishes { spec.Finishes held.old.what result held.new.what }
    ensures found { spec.found_by held.new ≡ spec.found_by held.old }
{
    match &mut held.what {
        What::Files(files) => finish_files(files),
        _ => OTHER_KIND,
    }
}

/// Finishes the table that is being written.
///
/// The handle then holds the finished table, or none if nothing was written.
///
/// # Errors
///
/// - 100: the handle is closed.
/// - 102: the handle holds no writer.
/// - An error code of `Writer::finish`. The entries written are dropped then.
#[unsafe(no_mangle)]
pub extern "C" fn sst_writer_finish(alloc: Global, writer: &mut Handle) -> u32
    ensures through { spec.WritesThrough writer.old.boxed.value writer.new.boxed.value result }
    ensures finishes { (h : spec.HeldValue) → writer.old.boxed.value ≡ Some h →
        IsSomeAnd writer.new.boxed.value (λ k. spec.Finishes h.what result k.what) }
{
    let Some(mut held) = writer.take(alloc) else {
        return CLOSED;
    };
    let code = finish(&mut held);
    writer.put(held);
    code
}
