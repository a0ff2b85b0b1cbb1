//! Verifying a table.
ghost use Rattle.std.specs.Prelude.{◌≡◌, None, Some, false};
ghost use Rattle.sst_c.specs.Words as spec;

use crate::codes::{CLOSED, FAULTY, NO_MEMORY, OTHER_KIND};
use crate::handle::Handle;
use crate::held::{Held, What};
use lsm_readers::{Fault, Finding, Table, Verified, VerifyError};
use sst_blocks::Checksum;
use std::alloc::Global;

/// The result of a verification: the counts of a valid table, or the first fault and its position.
#[repr(C)]
#[derive(Clone, Copy)]
pub struct VerifyReport {
    /// Number of entries.
    pub item_count: u64,
    /// Number of data blocks.
    pub data_block_count: u64,
    /// Offset of the block with the fault.
    pub offset: u64,
    /// The section of the fault, or 0 if there is none.
    ///
    /// 1 data blocks, 2 index partitions, 3 index, 4 filter, 5 top level of the filter, 6 version,
    /// 7 meta block.
    pub section: u32,
    /// The fault, or 0 if there is none: the position of its variant in [`Fault`], from 1 on.
    ///
    /// `include/sst.h` has a name for each, from `SST_FAULT_UNLOADED` on. Only
    /// [`sst_table_verify_with`] reports 12, another checksum of the file.
    pub fault: u32,
    /// The error code of the load for faults 1 and 7, else 0.
    pub detail: u32,
    /// Unused.
    pub unused: u32,
}

/// Returns a report of zeros.
pub(crate) fn nothing() -> VerifyReport
    ensures { result ≡ spec.no_finding }
{
    VerifyReport {
        item_count: 0,
        data_block_count: 0,
        offset: 0,
        section: 0,
        fault: 0,
        detail: 0,
        unused: 0,
    }
}

fn number_of(fault: &Fault) -> u32
    ensures { result ≡ spec.fault_number fault.now }
{
    match fault {
        Fault::Unloaded(_) => 1,
        Fault::Hollow => 2,
        Fault::Misplaced => 3,
        Fault::TooHigh => 4,
        Fault::Unordered => 5,
        Fault::Denied => 6,
        Fault::Unfiltered(_) => 7,
        Fault::OtherKey => 8,
        Fault::OtherNumber => 9,
        Fault::Unborne(_) => 10,
        Fault::Unnamed => 11,
        Fault::OtherChecksum => 12,
    }
}

fn detail_of(fault: &Fault) -> u32
    ensures { result ≡ spec.detail_of fault.now }
{
    match fault {
        Fault::Unloaded(error) => u32::from(error.number()),
        Fault::Unfiltered(error) => u32::from(error.number()),
        _ => 0,
    }
}

/// Returns the report of a fault.
pub(crate) fn tell_finding(finding: &Finding) -> VerifyReport
    ensures { result ≡ spec.finding_result finding.now }
{
    VerifyReport {
        item_count: 0,
        data_block_count: 0,
        offset: finding.offset,
        section: 1 + finding.section.place() as u32,
        fault: number_of(&finding.fault),
        detail: detail_of(&finding.fault),
        unused: 0,
    }
}

/// Returns the report of a valid table.
pub(crate) fn tell_verified(verified: Verified) -> VerifyReport
    ensures { result ≡ spec.verified_result verified }
{
    VerifyReport {
        item_count: verified.item_count,
        data_block_count: verified.data_block_count,
        offset: 0,
        section: 0,
        fault: 0,
        detail: 0,
        unused: 0,
    }
}

fn verify(table: &Table, returned: &mut VerifyReport) -> u32
    requires { returned.old ≡ spec.no_finding }
    ensures { spec.VerifiesTable table.now result returned.new }
{
    tell(&table.verify(), returned)
}

fn verify_with(table: &Table, checksum: u64, returned: &mut VerifyReport) -> u32
    requires { returned.old ≡ spec.no_finding }
    ensures { spec.VerifiesTableWith table.now checksum result returned.new }
{
    tell(&table.verify_with(Checksum(u128::from(checksum))), returned)
}

// Writes the report of a verification, and returns its code.
fn tell(came: &Result<Verified, VerifyError>, returned: &mut VerifyReport) -> u32
    requires { returned.old ≡ spec.no_finding }
    ensures code { result ≡ spec.verify_code came.now }
    ensures returned { returned.new ≡ spec.verify_result came.now }
{
    match came {
        Ok(verified) => {
            *returned = tell_verified(*verified);
            0
        }
        Err(VerifyError::OutOfMemory) => NO_MEMORY,
        Err(VerifyError::Found(finding)) => {
            *returned = tell_finding(finding);
            FAULTY
        }
    }
}

fn verify_held(held: &Held, returned: &mut VerifyReport) -> u32
    requires { returned.old ≡ spec.no_finding }
    ensures other { spec.is_table held.now.what ≡ false →
        (result ≡ 102) × (returned.new ≡ spec.no_finding) }
    ensures verifies { (t : spec.OpenTable) → held.now.what ≡ spec.TableOf t →
        spec.VerifiesTable t result returned.new }
{
    match &held.what {
        What::Table(table) => verify(table, returned),
        _ => OTHER_KIND,
    }
}

/// Reads a whole table once, and checks that its bytes store a list, whoever wrote them.
///
/// `returned` gets the number of entries and of data blocks.
///
/// # Errors
///
/// - 107: the table has a fault. `returned` gets the first one and its position.
/// - 100: the handle is closed.
/// - 102: the handle holds no table.
/// - 1: out of memory. Nothing is known about the table then.
///
/// With 100, 102 and 1, `returned` is zero.
#[unsafe(no_mangle)]
pub extern "C" fn sst_table_verify(
    alloc: Global,
    table: &mut Handle,
    returned: &mut VerifyReport,
) -> u32
    ensures kept { table.new.boxed.value ≡ table.old.boxed.value }
    ensures shut { table.old.boxed.value ≡ None →
        (result ≡ 100) × (returned.new ≡ spec.no_finding) }
    ensures other { (h : spec.HeldValue) → table.old.boxed.value ≡ Some h →
        spec.is_table h.what ≡ false → (result ≡ 102) × (returned.new ≡ spec.no_finding) }
    // It reports the first fault, or the counts of a table that stores a list.
    ensures verifies { (h : spec.HeldValue) (t : spec.OpenTable) → table.old.boxed.value ≡ Some h →
        h.what ≡ spec.TableOf t → spec.VerifiesTable t result returned.new }
{
    *returned = nothing();
    let Some(held) = table.take(alloc) else {
        return CLOSED;
    };
    let code = verify_held(&held, returned);
    table.put(held);
    code
}

fn verify_held_with(held: &Held, checksum: u64, returned: &mut VerifyReport) -> u32
    requires { returned.old ≡ spec.no_finding }
    ensures other { spec.is_table held.now.what ≡ false →
        (result ≡ 102) × (returned.new ≡ spec.no_finding) }
    ensures verifies { (t : spec.OpenTable) → held.now.what ≡ spec.TableOf t →
        spec.VerifiesTableWith t checksum result returned.new }
{
    match &held.what {
        What::Table(table) => verify_with(table, checksum, returned),
        _ => OTHER_KIND,
    }
}

/// Compares the checksum of a table's bytes, then verifies it as [`sst_table_verify`] does.
///
/// `checksum` is the FNV-1a hash of all bytes of the file, as `sst_files_tell` reports it.
///
/// # Errors
///
/// - 107: the bytes have another checksum, or the table has a fault. `returned` gets the first
///   fault and its position. If the checksum differs, this is fault 12 at offset 0 of the data
///   section, and no block is read.
/// - 100: the handle is closed.
/// - 102: the handle holds no table.
/// - 1: out of memory. The bytes have this checksum, and nothing else is known about the table.
///
/// With 100, 102 and 1, `returned` is zero.
#[unsafe(no_mangle)]
pub extern "C" fn sst_table_verify_with(
    alloc: Global,
    table: &mut Handle,
    checksum: u64,
    returned: &mut VerifyReport,
) -> u32
    ensures kept { table.new.boxed.value ≡ table.old.boxed.value }
    ensures shut { table.old.boxed.value ≡ None →
        (result ≡ 100) × (returned.new ≡ spec.no_finding) }
    ensures other { (h : spec.HeldValue) → table.old.boxed.value ≡ Some h →
        spec.is_table h.what ≡ false → (result ≡ 102) × (returned.new ≡ spec.no_finding) }
    // It reports another checksum, or else what `sst_table_verify` does.
    ensures verifies { (h : spec.HeldValue) (t : spec.OpenTable) → table.old.boxed.value ≡ Some h →
        h.what ≡ spec.TableOf t → spec.VerifiesTableWith t checksum result returned.new }
{
    *returned = nothing();
    let Some(held) = table.take(alloc) else {
        return CLOSED;
    };
    let code = verify_held_with(&held, checksum, returned);
    table.put(held);
    code
}
