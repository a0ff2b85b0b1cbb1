//! The memory of a table.
ghost use Rattle.std.specs.Prelude.{◌≡◌, ◌≢◌, false, Some};
ghost use Rattle.sst_c.specs.Words as spec;

use crate::codes::{CLOSED, OTHER_KIND};
use crate::handle::Handle;
use crate::held::{Held, What};
use lsm_readers::Table;
use std::alloc::Global;

/// The memory of a table, in bytes.
#[repr(C)]
#[derive(Clone, Copy)]
pub struct TableMemory {
    /// Length of the file.
    pub file_len: u64,
    /// Size of the pinned index, whole or top level; 0 if none is pinned.
    ///
    /// It is part of the file's bytes.
    pub pinned_index_size: u64,
    /// Size of the pinned filter; 0 if none is pinned or the filter is partitioned.
    ///
    /// It is part of the file's bytes.
    pub pinned_filter_size: u64,
    /// Size of the verified-block cache; 0 if it could not be allocated.
    ///
    /// The cache records which blocks had their checksums compared.
    pub marks_size: u64,
}

fn memory_of(table: &Table) -> TableMemory
    ensures { spec.ReportsMemory table.now result }
{
    TableMemory {
        file_len: table.file_len() as u64,
        pinned_index_size: table.pinned_block_index_size() as u64,
        pinned_filter_size: table.pinned_filter_size() as u64,
        marks_size: table.marks_size() as u64,
    }
}

fn tell_memory(held: &Held, memory: &mut TableMemory) -> u32
    ensures other { spec.is_table held.now.what ≡ false → result ≡ 102 }
    ensures returned { (t : spec.OpenTable) → held.now.what ≡ spec.TableOf t →
        (result ≡ 0) × spec.ReportsMemory t memory.new }
    ensures left { result ≢ 0 → memory.new ≡ memory.old }
{
    match &held.what {
        What::Table(table) => {
            *memory = memory_of(table);
            0
        }
        _ => OTHER_KIND,
    }
}

/// Writes the memory of a table, all its handles together, to `memory`.
///
/// # Errors
///
/// - 100: the handle is closed.
/// - 102: the handle holds no table.
///
/// On error, `memory` is unchanged.
#[unsafe(no_mangle)]
pub extern "C" fn sst_table_memory(
    alloc: Global,
    table: &mut Handle,
    memory: &mut TableMemory,
) -> u32
    ensures queries { spec.QueriesHandle spec.is_table table.old.boxed.value table.new.boxed.value
        result }
    ensures returned { (h : spec.HeldValue) (t : spec.OpenTable) → table.old.boxed.value ≡ Some h →
        h.what ≡ spec.TableOf t → (result ≡ 0) × spec.ReportsMemory t memory.new }
    ensures left { result ≢ 0 → memory.new ≡ memory.old }
{
    let Some(held) = table.take(alloc) else {
        return CLOSED;
    };
    let code = tell_memory(&held, memory);
    table.put(held);
    code
}
