//! Finished tables: their ids, checksums, lengths and bytes.
ghost use Rattle.std.specs.Prelude.{◌≡◌, ◌≢◌, Some, false, length, true};
ghost use Rattle.sst_c.specs.Words as spec;

use crate::codes::{CLOSED, NO_SUCH, OTHER_KIND};
use crate::found::copy_out;
use crate::handle::Handle;
use crate::held::{Held, What};
use lsm_writers::FinishedTable;
use std::alloc::Global;

/// The id, checksum and length of a finished table.
#[repr(C)]
#[derive(Clone, Copy)]
pub struct FileReport {
    /// The id of the table.
    pub id: u64,
    /// The FNV-1a checksum of all its bytes.
    pub checksum: u64,
    /// Length of the file in bytes.
    pub len: u64,
}

#[tactic(auto, unfolding(crate::specs::Files::file_facts))]
fn describe(file: &FinishedTable) -> FileReport
    ensures { result ≡ spec.file_facts file.now }
{
    FileReport {
        id: file.id,
        checksum: u64::try_from(file.checksum.0).unwrap_or(0),
        len: file.bytes.len() as u64,
    }
}

fn tell_file(held: &Held, index: u64, returned: &mut FileReport) -> u32
    ensures tells { spec.TellsFile held.now.what index result returned.new }
    ensures other { spec.are_files held.now.what ≡ false → result ≡ 102 }
    ensures left { result ≢ 0 → returned.new ≡ returned.old }
{
    match &held.what {
        What::Files(files) => match files.tables.get(index as usize) {
            Some(file) => {
                *returned = describe(file);
                0
            }
            None => NO_SUCH,
        },
        _ => OTHER_KIND,
    }
}

/// Writes the id, checksum and length of the finished table at `index`, from 0, to `returned`.
///
/// # Errors
///
/// - 100: the handle is closed.
/// - 102: the handle holds neither finished tables nor a writer.
/// - 105: there is no finished table at `index`.
///
/// On error, `returned` is unchanged.
#[unsafe(no_mangle)]
pub extern "C" fn sst_files_tell(
    alloc: Global,
    files: &mut Handle,
    index: u64,
    returned: &mut FileReport,
) -> u32
    ensures queries { spec.QueriesHandle spec.are_files files.old.boxed.value files.new.boxed.value
        result }
    ensures tells { (h : spec.HeldValue) → files.old.boxed.value ≡ Some h →
        spec.TellsFile h.what index result returned.new }
    ensures left { result ≢ 0 → returned.new ≡ returned.old }
{
    let Some(held) = files.take(alloc) else {
        return CLOSED;
    };
    let code = tell_file(&held, index, returned);
    files.put(held);
    code
}

// Copies the bytes from an offset on, as many as fit.
fn copy_part(bytes: &[u8], offset: u64, room: &mut [u8], count: &mut u64) -> u32
    ensures copies { spec.CopiesPart bytes.now offset room.old room.new count.new result }
    ensures left { result ≢ 0 → (room.new ≡ room.old) × (count.new ≡ count.old) }
{
    if offset > bytes.len() as u64 {
        return NO_SUCH;
    }
    let rest = &bytes[offset as usize..];
    let part = &rest[..rest.len().min(room.len())];
    copy_out(part, room);
    *count = part.len() as u64;
    0
}

fn copy_file(held: &Held, index: u64, offset: u64, room: &mut [u8], count: &mut u64) -> u32
    ensures other { spec.are_files held.now.what ≡ false → result ≡ 102 }
    ensures copies { spec.CopiesFile held.now.what index offset room.old room.new count.new result }
    ensures left { result ≢ 0 → (room.new ≡ room.old) × (count.new ≡ count.old) }
{
    match &held.what {
        What::Files(files) => match files.tables.get(index as usize) {
            Some(file) => copy_part(file.bytes.as_slice(), offset, room, count),
            None => NO_SUCH,
        },
        _ => OTHER_KIND,
    }
}

/// Copies the bytes of the finished table at `index` from `offset` on, as many as fit into `room`.
///
/// `count` gets the number of bytes copied. It is 0 at the end of the table.
///
/// # Errors
///
/// - 100: the handle is closed.
/// - 102: the handle holds neither finished tables nor a writer.
/// - 105: there is no finished table at `index`, or `offset` is past its end.
///
/// On error, `room` and `count` are unchanged.
#[unsafe(no_mangle)]
pub extern "C" fn sst_files_copy(
    alloc: Global,
    files: &mut Handle,
    index: u64,
    offset: u64,
    room: &mut [u8],
    count: &mut u64,
) -> u32
    ensures queries { spec.QueriesHandle spec.are_files files.old.boxed.value files.new.boxed.value
        result }
    ensures copies { (h : spec.HeldValue) → files.old.boxed.value ≡ Some h →
        spec.CopiesFile h.what index offset room.old room.new count.new result }
    ensures left { result ≢ 0 → (room.new ≡ room.old) × (count.new ≡ count.old) }
{
    let Some(held) = files.take(alloc) else {
        return CLOSED;
    };
    let code = copy_file(&held, index, offset, room, count);
    files.put(held);
    code
}

fn count_files(held: &Held, count: &mut u64) -> u32
    ensures other { spec.are_files held.now.what ≡ false → result ≡ 102 }
    ensures some { spec.are_files held.now.what ≡ true → result ≡ 0 }
    ensures count { spec.are_files held.now.what ≡ true →
        count.new ≡ length (spec.files_held held.now.what) }
    ensures left { result ≢ 0 → count.new ≡ count.old }
{
    match &held.what {
        What::Files(files) => {
            *count = files.tables.len() as u64;
            0
        }
        _ => OTHER_KIND,
    }
}

/// Writes the number of finished tables to `count`.
///
/// It is 0 while the table is being written.
///
/// # Errors
///
/// - 100: the handle is closed.
/// - 102: the handle holds neither finished tables nor a writer.
///
/// On error, `count` is unchanged.
#[unsafe(no_mangle)]
pub extern "C" fn sst_files_count(alloc: Global, files: &mut Handle, count: &mut u64) -> u32
    ensures queries { spec.QueriesHandle spec.are_files files.old.boxed.value files.new.boxed.value
        result }
    ensures some { (h : spec.HeldValue) → files.old.boxed.value ≡ Some h →
        spec.are_files h.what ≡ true → result ≡ 0 }
    ensures count { (h : spec.HeldValue) → files.old.boxed.value ≡ Some h →
        spec.are_files h.what ≡ true → count.new ≡ length (spec.files_held h.what) }
    ensures left { result ≢ 0 → count.new ≡ count.old }
{
    let Some(held) = files.take(alloc) else {
        return CLOSED;
    };
    let code = count_files(&held, count);
    files.put(held);
    code
}
