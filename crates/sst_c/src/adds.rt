//! Writing entries in bulk.
ghost use Rattle.std.specs.Prelude.{◌≡◌, ◌≢◌, ◌==◌, IsSomeAnd, None, Some, length, map};
ghost use Rattle.sst_c.specs.Words as spec;

use crate::codes::{CLOSED, NO_SUCH, OTHER_KIND};
use crate::entries::EntryReport;
use crate::handle::Handle;
use crate::held::{Held, What};
use crate::writers::add_kind;
use lsm_writers::Writer;
use std::alloc::Global;

// Returns whether the keys and values of the entries have `count` bytes in total.
fn have_bytes(entries: &[EntryReport], count: u64) -> bool
    ensures { result ≡ (spec.sum (map spec.reported_size entries.now) == count) }
{
    let mut left = count;
    for returned in entries {
        if returned.key_len > left || returned.value_len > left - returned.key_len {
            return false;
        }
        left -= returned.key_len + returned.value_len;
    }
    left == 0
}

fn add_told(writer: &mut Writer, returned: &EntryReport, key: &[u8], value: &[u8]) -> u32
    ensures { spec.AddsOne writer.old (spec.row returned.now key.now value.now) result writer.new }
{
    add_kind(writer, key, returned.seqno, returned.kind, value)
}

// Writes entries one after another, up to the first that fails.
fn add_each(writer: &mut Writer, entries: &[EntryReport], bytes: &[u8], count: &mut u64) -> u32
    requires { spec.sum (map spec.reported_size entries.now) ≡ length bytes.now }
    ensures { spec.AddsMany writer.old (spec.rows_of_reports entries.now bytes.now) count.new result
        writer.new }
{
    let mut at = 0;
    for place in 0..entries.len() {
        *count = place as u64;
        let returned = &entries[place];
        let middle = at + returned.key_len as usize;
        let end = middle + returned.value_len as usize;
        let code = add_told(writer, returned, &bytes[at..middle], &bytes[middle..end]);
        if code != 0 {
            return code;
        }
        at = end;
    }
    *count = entries.len() as u64;
    0
}

// Writes entries, if their lengths add up to the length of `bytes`.
fn add_fitting(writer: &mut Writer, entries: &[EntryReport], bytes: &[u8], count: &mut u64) -> u32
    ensures lengths { spec.sum (map spec.reported_size entries.now) ≢ length bytes.now →
        (result ≡ 105) × (writer.new ≡ writer.old) × (count.new ≡ count.old) }
    ensures added { spec.sum (map spec.reported_size entries.now) ≡ length bytes.now → spec.AddsMany
        writer.old (spec.rows_of_reports entries.now bytes.now) count.new result writer.new }
{
    if !have_bytes(entries, bytes.len() as u64) {
        return NO_SUCH;
    }
    add_each(writer, entries, bytes, count)
}

fn add_many(held: &mut Held, entries: &[EntryReport], bytes: &[u8], count: &mut u64) -> u32
    ensures other { spec.writer_in held.old.what ≡ None →
        (result ≡ 102) × (held.new.what ≡ held.old.what) }
    ensures writes { spec.WritesMany entries.now bytes.now count.old count.new held.old.what result
        held.new.what }
    ensures found { spec.found_by held.new ≡ spec.found_by held.old }
{
    match &mut held.what {
        What::Files(files) => match &mut files.writer {
            Some(writer) => add_fitting(writer, entries, bytes, count),
            None => OTHER_KIND,
        },
        _ => OTHER_KIND,
    }
}

/// Writes entries one after another as `sst_writer_add` does, up to the first that fails.
///
/// `entries` has the kind, sequence number and lengths of each entry. `bytes` has their keys and
/// values back to back: key, value, key, value. `count` gets the number of entries written.
///
/// # Errors
///
/// - 100: the handle is closed.
/// - 102: the handle holds no writer.
/// - 105: the lengths do not add up to the length of `bytes`.
/// - The error of `sst_writer_add` for the first entry that fails. The entries before it are
///   written and counted.
///
/// With 100, 102 and 105 nothing is written and `count` is 0.
#[unsafe(no_mangle)]
pub extern "C" fn sst_writer_add_many(
    alloc: Global,
    writer: &mut Handle,
    entries: &[EntryReport],
    bytes: &[u8],
    count: &mut u64,
) -> u32
    ensures through { spec.WritesThrough writer.old.boxed.value writer.new.boxed.value result }
    ensures shut { writer.old.boxed.value ≡ None → count.new ≡ 0 }
    ensures writes { (h : spec.HeldValue) → writer.old.boxed.value ≡ Some h →
        IsSomeAnd writer.new.boxed.value (λ k.
        spec.WritesMany entries.now bytes.now 0 count.new h.what result k.what) }
{
    *count = 0;
    let Some(mut held) = writer.take(alloc) else {
        return CLOSED;
    };
    let code = add_many(&mut held, entries, bytes, count);
    writer.put(held);
    code
}
