//! Opening tables, and point reads.
ghost use Rattle.std.specs.Prelude.{◌≡◌, ◌≢◌, false, IsSomeAnd, List, None, Some, is_some, true};
ghost use Rattle.sst_c.specs.Words as spec;

use crate::codes::{CLOSED, NO_MEMORY, OPEN, OTHER_KIND};
use crate::entries::{EntryReport, tell};
use crate::handle::Handle;
use crate::held::{FoundEntry, Held, What};
use lsm_readers::Table;
use sst_blocks::{Checksum, EntryPlace, Error, InternalValue, SeqNo, Slice};
use std::alloc::Global;

/// Opens a table from its bytes into a closed handle.
#[tactic(auto, using(crate::proofs::Answering::states, crate::proofs::Answering::reports_begun))]
pub(crate) fn open_from(
    alloc: Global,
    bytes: Slice,
    global_seqno: SeqNo,
    pin_filter: bool,
    pin_index: bool,
    table: &mut Handle,
) -> u32
    requires { table.old.boxed.value ≡ None }
    ensures opened { result ≡ 0 → IsSomeAnd table.new.boxed.value
        (spec.IsOpenedAs bytes global_seqno pin_filter pin_index) }
    ensures returned { spec.ReportsCode result
        (spec.recovered_result bytes global_seqno pin_filter pin_index) }
    ensures early { spec.ReportsFirst result (spec.early_fault bytes) }
    ensures list { (es : List spec.Entry) → spec.StoresList bytes es →
        spec.ReportsCode result (spec.fits_result es global_seqno) }
    ensures left { result ≢ 0 → table.new.boxed.value ≡ None }
{
    let opened = Table::recover(
        alloc,
        bytes,
        Checksum(0),
        global_seqno,
        0,
        pin_filter,
        pin_index,
    );
    match opened {
        Ok(opened) => table.begin(alloc, What::Table(opened)),
        Err(error) => u32::from(error.number()),
    }
}

/// Opens a table from a copy of its bytes.
///
/// `table` must be closed.
///
/// # Errors
///
/// - 101: `table` is open.
/// - An error code of `Table::recover`.
///
/// On error, `table` is unchanged.
#[unsafe(no_mangle)]
pub extern "C" fn sst_table_open(
    alloc: Global,
    file: &[u8],
    global_seqno: u64,
    pin_filter: bool,
    pin_index: bool,
    table: &mut Handle,
) -> u32
    ensures opens { spec.OpensHandle table.old.boxed.value table.new.boxed.value result }
    ensures opened { result ≡ 0 → IsSomeAnd table.new.boxed.value
        (spec.IsOpenedAs file.now global_seqno pin_filter pin_index) }
    ensures returned { table.old.boxed.value ≡ None →
        spec.ReportsCode result (spec.recovered_result file.now global_seqno pin_filter pin_index) }
    // Bytes that store a list are opened if the highest sequence number fits.
    ensures list { table.old.boxed.value ≡ None → (es : List spec.Entry) →
        spec.StoresList file.now es → spec.ReportsCode result (spec.fits_result es global_seqno) }
{
    if table.is_open() {
        return OPEN;
    }
    let Ok(bytes) = Slice::from(alloc, file) else {
        return NO_MEMORY;
    };
    open_from(alloc, bytes, global_seqno, pin_filter, pin_index, table)
}

/// Keeps the entry that a read found, or none if it failed. Returns 0 or the error code.
#[inline]
pub(crate) fn keep(found: &mut FoundEntry, outcome: Result<Option<InternalValue>, Error>) -> u32
    ensures code { result ≡ spec.result_code outcome }
    ensures found { found.new ≡ spec.Kept (spec.found_of outcome) }
    ensures fine { is_some (spec.found_of outcome) ≡ true → result ≡ 0 }
{
    match outcome {
        Ok(item) => {
            *found = FoundEntry::Kept(item);
            0
        }
        Err(error) => {
            *found = FoundEntry::Kept(None);
            u32::from(error.number())
        }
    }
}

// Keeps the position that a read found, or none if it failed. Returns 0 or the error code.
fn keep_place(found: &mut FoundEntry, outcome: Result<Option<EntryPlace>, Error>) -> u32
    ensures code { result ≡ spec.result_code outcome }
    ensures found { found.new ≡ spec.kept_in_table outcome }
{
    match outcome {
        Ok(Some(place)) => {
            *found = FoundEntry::InTable(place);
            0
        }
        Ok(None) => {
            found.clear();
            0
        }
        Err(error) => {
            found.clear();
            u32::from(error.number())
        }
    }
}

// Reads a key of a table, and keeps the position of the entry that it finds.
fn get_in(table: &Table, key: &[u8], seqno: SeqNo, found: &mut FoundEntry) -> u32
    ensures { spec.GetsFromTable table.now key.now seqno result
        (spec.found_at found.new (spec.TableOf table.now)) }
{
    let hash = Table::<Global>::key_hash(key);
    keep_place(found, table.get_place(key, seqno, hash).0)
}

fn get(held: &mut Held, key: &[u8], seqno: SeqNo) -> u32
    ensures kept { held.new.what ≡ held.old.what }
    ensures other { spec.is_table held.old.what ≡ false →
        (result ≡ 102) × (spec.found_by held.new ≡ None) }
    ensures gets { (t : spec.OpenTable) → held.old.what ≡ spec.TableOf t →
        spec.GetsFromTable t key.now seqno result (spec.found_by held.new) }
{
    match &held.what {
        What::Table(table) => get_in(table, key, seqno, &mut held.found),
        _ => {
            held.found.clear();
            OTHER_KIND
        }
    }
}

/// Finds the newest version of a key visible at `seqno` in a table.
///
/// A read at `seqno` sees versions with a smaller sequence number. The handle has then found this
/// entry, and `entry` gets its kind, sequence number and lengths. If there is none, it has found
/// nothing, and `entry` is zero.
///
/// # Errors
///
/// - 100: the handle is closed.
/// - 102: the handle holds no table.
/// - An error code of `Table::get`.
///
/// On error nothing is found, and `entry` is zero.
#[unsafe(no_mangle)]
pub extern "C" fn sst_table_get(
    alloc: Global,
    table: &mut Handle,
    key: &[u8],
    seqno: u64,
    entry: &mut EntryReport,
) -> u32
    ensures reads { spec.ReadsThrough spec.is_table table.old.boxed.value table.new.boxed.value
        result entry.new }
    ensures kept { (h : spec.HeldValue) → table.old.boxed.value ≡ Some h →
        IsSomeAnd table.new.boxed.value (λ k. k.what ≡ h.what) }
    ensures gets { (h : spec.HeldValue) (t : spec.OpenTable) → table.old.boxed.value ≡ Some h →
        h.what ≡ spec.TableOf t →
        spec.GetsFromTable t key.now seqno result (spec.found_in table.new.boxed.value) }
{
    *entry = tell(None);
    let Some(mut held) = table.take(alloc) else {
        return CLOSED;
    };
    let code = get(&mut held, key, seqno);
    *entry = tell(held.found_entry());
    table.put(held);
    code
}
