//! Writes a table, opens it and reads it back: the first calls of a store.
#![tactic(auto)]

use lsm_tables::block::{Error, InternalValue, SeqNo, Slice, ValueType};
use lsm_tables::table::{FinishedTable, OpenOptions, Table, Timestamp, Writer};
use std::alloc::Allocator;

/// Keys, sequence numbers and values: keys in ascending order, and the versions of a key from the
/// newest to the oldest.
const ENTRIES: [(&[u8], SeqNo, &[u8]); 3] = [
    (b"apple", 7, b"red"),
    (b"apple", 3, b"green"),
    (b"pear", 5, b"yellow"),
];

/// Writes an entry, if its key and sequence number come after those of the one before it.
fn write_entry<A: Allocator + Copy>(
    alloc: A,
    writer: &mut Writer<A>,
    (key, seqno, value): (&[u8], SeqNo, &[u8]),
) -> Result<(), Error> {
    let key = Slice::from(alloc, key)?;
    let value = Slice::from(alloc, value)?;
    let item = InternalValue::from_components(key, value, seqno, ValueType::Value);
    if !writer.can_follow(&item.key) {
        return Ok(());
    }
    writer.write(item)
}

/// Writes the entries as table 1 of level 0, created at timestamp 0.
fn write_table<A: Allocator + Copy>(alloc: A) -> Result<Option<FinishedTable<A>>, Error> {
    let mut writer = Writer::new(alloc, 1, 0, Timestamp::from(0))?;
    let entries = ENTRIES;
    for entry in entries {
        write_entry(alloc, &mut writer, entry)?;
    }
    writer.finish()
}

/// Opens a table. By default the global sequence number is 0, and filter and index are pinned.
fn open_table<A: Allocator + Copy>(alloc: A, written: FinishedTable<A>) -> Result<Table<A>, Error> {
    OpenOptions::default().open(alloc, &written)
}

fn main(rt: HostRuntime) -> anyhow::Result<()> {
    let Some(written) = write_table(rt.alloc())? else {
        return Ok(());
    };
    let table = open_table(rt.alloc(), written)?;

    // The newest version of a key with a sequence number below 5.
    if let Some(item) = table.get_by_key(b"apple", 5)? {
        println!(rt; "found number {}", item.key.seqno)?;
    }

    for item in table.scan()? {
        println!(rt; "scanned number {}", item?.key.seqno)?;
    }
    Ok(())
}
