//! Tables over bytes that the caller keeps.
ghost use Rattle.std.specs.Prelude.{◌≡◌, IsSomeAnd, List, None};
ghost use Rattle.sst_c.specs.Words as spec;

use crate::codes::OPEN;
use crate::handle::Handle;
use crate::tables::open_from;
use sst_blocks::Slice;
use std::alloc::Global;

/// Opens a table over the caller's bytes without copying them.
///
/// `table` must be closed. `file` must stay at its address and unchanged as long as anything reads
/// it. Ranges, scans, shares, runs, answers and verifications of the table read it too.
///
/// # Errors
///
/// - 101: `table` is open.
/// - An error code of `Table::recover`.
///
/// On error, `table` is unchanged.
#[unsafe(no_mangle)]
pub extern "C" fn sst_table_open_kept(
    alloc: Global,
    file: &'static [u8],
    global_seqno: u64,
    pin_filter: bool,
    pin_index: bool,
    table: &mut Handle,
) -> u32
    ensures opens { spec.OpensHandle table.old.boxed.value table.new.boxed.value result }
    ensures opened { result ≡ 0 → IsSomeAnd table.new.boxed.value
        (spec.IsOpenedAs file.now global_seqno pin_filter pin_index) }
    ensures returned { table.old.boxed.value ≡ None →
        spec.ReportsCode result (spec.recovered_result file.now global_seqno pin_filter pin_index) }
    // A fault that is found before anything is allocated takes precedence over `OutOfMemory`.
    ensures early { table.old.boxed.value ≡ None →
        spec.ReportsFirst result (spec.early_fault file.now) }
    // Bytes that store a list are opened if the highest sequence number fits.
    ensures list { table.old.boxed.value ≡ None → (es : List spec.Entry) →
        spec.StoresList file.now es → spec.ReportsCode result (spec.fits_result es global_seqno) }
{
    if table.is_open() {
        return OPEN;
    }
    open_from(
        alloc,
        Slice::from_static(file),
        global_seqno,
        pin_filter,
        pin_index,
        table,
    )
}
