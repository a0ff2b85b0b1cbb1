//! Table info: the facts in a table's meta block.
ghost use Rattle.std.specs.Prelude.{◌≡◌, ◌≢◌, false, Some};
ghost use Rattle.sst_c.specs.Words as spec;

use crate::codes::{CLOSED, OTHER_KIND};
use crate::handle::Handle;
use crate::held::{Held, What};
use lsm_readers::Table;
use std::alloc::Global;

/// Table info: the facts in a table's meta block.
#[repr(C)]
#[derive(Clone, Copy)]
pub struct TableFacts {
    /// The id of the table.
    pub id: u64,
    /// The version of the file format, 3 or 4.
    pub version: u64,
    /// The global sequence number, which is added to every stored sequence number.
    pub global_seqno: u64,
    /// The lowest stored sequence number.
    pub lowest_seqno: u64,
    /// The highest stored sequence number.
    pub highest_seqno: u64,
    /// Number of entries.
    pub item_count: u64,
    /// Number of tombstones, weak tombstones included.
    pub tombstone_count: u64,
    /// Number of weak tombstones.
    pub weak_tombstone_count: u64,
    /// Number of data blocks.
    pub data_block_count: u64,
    /// Number of index blocks.
    pub index_block_count: u64,
    /// Size of the data blocks in bytes.
    pub data_size: u64,
}

fn facts_of(table: &Table) -> TableFacts
    ensures { result ≡ spec.table_facts table.now }
{
    let said = &table.metadata;
    TableFacts {
        id: said.id,
        version: u64::from(said.table_version),
        global_seqno: table.global_seqno,
        lowest_seqno: said.seqnos.0,
        highest_seqno: said.seqnos.1,
        item_count: said.item_count,
        tombstone_count: said.tombstone_count,
        weak_tombstone_count: said.weak_tombstone_count,
        data_block_count: said.data_block_count,
        index_block_count: said.index_block_count,
        data_size: said.file_size,
    }
}

fn tell_facts(held: &Held, facts: &mut TableFacts) -> u32
    ensures other { spec.is_table held.now.what ≡ false → result ≡ 102 }
    ensures returned { (t : spec.OpenTable) → held.now.what ≡ spec.TableOf t →
        (result ≡ 0) × (facts.new ≡ spec.table_facts t) }
    ensures left { result ≢ 0 → facts.new ≡ facts.old }
{
    match &held.what {
        What::Table(table) => {
            *facts = facts_of(table);
            0
        }
        _ => OTHER_KIND,
    }
}

/// Writes the table info of a table to `facts`.
///
/// # Errors
///
/// - 100: the handle is closed.
/// - 102: the handle holds no table.
///
/// On error, `facts` is unchanged.
#[unsafe(no_mangle)]
pub extern "C" fn sst_table_facts(alloc: Global, table: &mut Handle, facts: &mut TableFacts) -> u32
    ensures queries { spec.QueriesHandle spec.is_table table.old.boxed.value table.new.boxed.value
        result }
    ensures returned { (h : spec.HeldValue) (t : spec.OpenTable) → table.old.boxed.value ≡ Some h →
        h.what ≡ spec.TableOf t → (result ≡ 0) × (facts.new ≡ spec.table_facts t) }
    ensures left { result ≢ 0 → facts.new ≡ facts.old }
{
    let Some(held) = table.take(alloc) else {
        return CLOSED;
    };
    let code = tell_facts(&held, facts);
    table.put(held);
    code
}
