//! Writing one table.
ghost use Rattle.std.specs.Prelude.{◌≡◌};

use crate::digest::code;
use lsm_writers::{FinishedTable, Timestamp, Writer};
use sst_blocks::{EntryRef, Error, InternalValue, SeqNo, Slice, ValueType};
use std::alloc::Global;

/// The number of tables written, the number of their bytes, and the wrapping sum of their
/// checksums.
#[repr(C)]
#[derive(Clone, Copy)]
pub struct Written {
    /// The number of tables.
    pub tables: u64,
    /// The number of bytes.
    pub bytes: u64,
    /// The sum of the checksums.
    pub checksum: u64,
}

impl Written {
    /// Returns the value for no table.
    pub fn none() -> Written
        ensures { result ≡ record { tables = 0; bytes = 0; checksum = 0 } }
    {
        Written {
            tables: 0,
            bytes: 0,
            checksum: 0,
        }
    }

    pub(crate) fn add(&mut self, table: &FinishedTable) {
        // A table's checksum is one of 64 bits.
        let checksum = u64::try_from(table.checksum.0).unwrap_or(0);
        self.tables = self.tables.wrapping_add(1);
        self.bytes = self.bytes.wrapping_add(table.bytes.len() as u64);
        self.checksum = self.checksum.wrapping_add(checksum);
    }
}

// Writes an entry, if it may follow those before it.
#[inline(always)]
pub(crate) fn write_next(writer: &mut Writer, item: InternalValue) -> Result<(), Error> {
    if !writer.can_follow(&item.key) {
        return Err(Error::Source(3));
    }
    writer.write(item)
}

// The first key and value, and the bytes after them.
#[inline(always)]
fn first_parts<'a>(
    store: &'a [u8],
    key_len: usize,
    value_len: usize,
) -> Result<(&'a [u8], &'a [u8], &'a [u8]), Error> {
    let Some((key, after)) = store.split_at_checked(key_len) else {
        return Err(Error::Source(1));
    };
    let Some((value, after)) = after.split_at_checked(value_len) else {
        return Err(Error::Source(2));
    };
    Ok((key, value, after))
}

// The entry of the first key and value, and the bytes after them.
#[inline(always)]
pub(crate) fn first_item<'a>(
    alloc: Global,
    store: &'a [u8],
    key_len: usize,
    value_len: usize,
    seqno: SeqNo,
) -> Result<(InternalValue, &'a [u8]), Error> {
    let (key, value, after) = first_parts(store, key_len, value_len)?;
    let key = Slice::from(alloc, key)?;
    let value = Slice::from(alloc, value)?;
    let item = InternalValue::from_components(key, value, seqno, ValueType::Value);
    Ok((item, after))
}

// Writes entries whose keys and values are concatenated.
fn write_each(
    alloc: Global,
    writer: &mut Writer,
    store: &[u8],
    key_len: usize,
    value_len: usize,
    seqno: SeqNo,
) -> Result<(), Error> {
    let mut rest = store;
    for _ in 0..store.len() {
        if rest.is_empty() {
            break;
        }
        let (item, after) = first_item(alloc, rest, key_len, value_len, seqno)?;
        rest = after;
        write_next(writer, item)?;
    }
    Ok(())
}

// Writes a borrowed entry, if it may follow those before it.
#[inline(always)]
fn write_next_ref(writer: &mut Writer, entry: &EntryRef<'_>) -> Result<(), Error> {
    if !writer.can_follow_ref(entry) {
        return Err(Error::Source(3));
    }
    writer.write_ref(entry)
}

// Writes entries whose keys and values are concatenated, and borrows each of them.
fn write_each_ref(
    writer: &mut Writer,
    store: &[u8],
    key_len: usize,
    value_len: usize,
    seqno: SeqNo,
) -> Result<(), Error> {
    let mut rest = store;
    for _ in 0..store.len() {
        if rest.is_empty() {
            break;
        }
        let (user_key, value, after) = first_parts(rest, key_len, value_len)?;
        rest = after;
        let entry = EntryRef {
            user_key,
            seqno,
            value_type: ValueType::Value,
            value,
        };
        write_next_ref(writer, &entry)?;
    }
    Ok(())
}

// Copies a table's bytes to the start of `out`, if there is room.
fn copy_out(table: &FinishedTable, out: &mut [u8]) {
    let bytes = table.bytes.as_slice();
    let len = bytes.len();
    if len <= out.len() {
        out[..len].copy_from_slice(bytes);
    }
}

// A writer of a table, with index and filter in partitions or each in one block.
fn writer_of(alloc: Global, partitioned: bool) -> Result<Writer, Error> {
    let writer = Writer::new(alloc, 1, 0, Timestamp::from(0))?;
    if partitioned {
        Ok(writer.use_partitioned_index().use_partitioned_filter())
    } else {
        Ok(writer)
    }
}

// The table of a writer, if all was written and it has entries.
pub(crate) fn finished(
    writer: Writer,
    wrote: Result<(), Error>,
) -> Result<Option<FinishedTable>, Error> {
    wrote?;
    writer.finish()
}

// Finishes a table, if all was written, and copies it out.
fn finish(
    writer: Writer,
    wrote: Result<(), Error>,
    out: &mut [u8],
    written: &mut Written,
) -> Result<(), Error> {
    let table = finished(writer, wrote)?;
    *written = Written::none();
    if let Some(table) = table {
        written.add(&table);
        copy_out(&table, out);
    }
    Ok(())
}

fn build(
    alloc: Global,
    partitioned: bool,
    store: &[u8],
    key_len: usize,
    value_len: usize,
    seqno: SeqNo,
    out: &mut [u8],
    written: &mut Written,
) -> Result<(), Error> {
    let mut writer = writer_of(alloc, partitioned)?;
    let wrote = write_each(alloc, &mut writer, store, key_len, value_len, seqno);
    finish(writer, wrote, out, written)
}

fn build_ref(
    alloc: Global,
    store: &[u8],
    key_len: usize,
    value_len: usize,
    seqno: SeqNo,
    written: &mut Written,
) -> Result<(), Error> {
    let mut writer = writer_of(alloc, false)?;
    let wrote = write_each_ref(&mut writer, store, key_len, value_len, seqno);
    finish(writer, wrote, &mut [], written)
}

/// Writes a table of entries with one seqno.
///
/// The keys and values are concatenated in `store`, each of one length. The table is copied to the
/// start of `out` if `out` has room for all of it.
#[unsafe(no_mangle)]
pub extern "C" fn tool_bench_build(
    alloc: Global,
    store: &[u8],
    key_len: usize,
    value_len: usize,
    seqno: u64,
    out: &mut [u8],
    written: &mut Written,
) -> u32 {
    code(build(alloc, false, store, key_len, value_len, seqno, out, written))
}

/// Writes a table as [`tool_bench_build`] does, with its index and its filter in partitions of
/// 4,096 bytes.
#[unsafe(no_mangle)]
pub extern "C" fn tool_bench_build_partitioned(
    alloc: Global,
    store: &[u8],
    key_len: usize,
    value_len: usize,
    seqno: u64,
    out: &mut [u8],
    written: &mut Written,
) -> u32 {
    code(build(alloc, true, store, key_len, value_len, seqno, out, written))
}

/// Writes a table as [`tool_bench_build`] does, borrowing each entry, and does not copy it out.
#[unsafe(no_mangle)]
pub extern "C" fn tool_bench_build_ref(
    alloc: Global,
    store: &[u8],
    key_len: usize,
    value_len: usize,
    seqno: u64,
    written: &mut Written,
) -> u32 {
    code(build_ref(alloc, store, key_len, value_len, seqno, written))
}
