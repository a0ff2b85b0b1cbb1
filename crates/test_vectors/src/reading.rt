//! The metadata of tables, and the results of reads.
use crate::digest::Digest;
use crate::walking::{ALL, BACKS, FRONTS, put_steps};
use lsm_readers::{ParsedMeta, Query, Table};
use sst_blocks::{Checksum, Error, Opened, SeqNo, Slice};
use std::alloc::Allocator;

/// The parts that are pinned while a table is open.
#[derive(Clone, Copy)]
pub struct Pins {
    pub filter: bool,
    pub index: bool,
}

/// The largest number of steps of an iteration over a damaged table.
const SOME: usize = 80;

/// Opens a table with a global sequence number.
pub fn open<A: Allocator + Copy>(
    alloc: A,
    bytes: &[u8],
    pins: Pins,
    global_seqno: SeqNo,
) -> Result<Table<A>, Error> {
    let bytes = Slice::from(alloc, bytes)?;
    Table::recover(
        alloc,
        bytes,
        Checksum(0),
        global_seqno,
        0,
        pins.filter,
        pins.index,
    )
}

/// Calls a function on a large value with a second one, and drops the large one; or returns the
/// error of making it. It is generic, so that a proof looks at no part of the value.
pub fn asked<T: Drop, C: Copy, U, F: FnOnce(&T, C) -> Result<U, Error> + Drop>(
    made: Result<T, Error>,
    with: C,
    ask: F,
) -> Result<U, Error>
    requires { F.IsAlwaysCallable ask }
{
    ask(&made?, with)
}

// The counts of a meta block.
fn put_counts<A: Allocator>(digest: &mut Digest, meta: &ParsedMeta<A>) {
    digest.put_number(u64::from(meta.table_version));
    digest.put_number(meta.id);
    digest.put_number(meta.item_count);
    digest.put_number(meta.tombstone_count);
    digest.put_number(meta.weak_tombstone_count);
    digest.put_number(meta.weak_tombstone_reclaimable);
    digest.put_number(meta.data_block_count);
    digest.put_number(meta.index_block_count);
    digest.put_number(meta.file_size);
}

/// The metadata of a table: its meta block, and the sizes of its pinned parts.
pub fn put_facts<A: Allocator>(digest: &mut Digest, table: &Table<A>) {
    let meta = &table.metadata;
    put_counts(digest, meta);
    digest.put_number(meta.seqnos.0);
    digest.put_number(meta.seqnos.1);
    digest.put_bytes(meta.key_range.min().as_slice());
    digest.put_bytes(meta.key_range.max().as_slice());
    digest.put_number(u64::from(table.filter_size()));
    digest.put_number(table.pinned_filter_size() as u64);
    digest.put_number(table.pinned_block_index_size() as u64);
}

/// Adds the result of a point read, and returns the loads.
pub fn put_read<A: Allocator + Copy>(
    digest: &mut Digest,
    table: &Table<A>,
    read: &Query<A>,
) -> Opened {
    let key = read.key.as_slice();
    let (found, opened) = table.get_counted(key, read.seqno, Table::<A>::key_hash(key));
    digest.put_answer(&found);
    opened
}

// The results of point reads, with the loads of each if they are wanted.
fn put_reads<A: Allocator + Copy>(
    digest: &mut Digest,
    table: &Table<A>,
    reads: &[Query<A>],
    with_loads: bool,
) {
    for read in reads {
        let opened = put_read(digest, table, read);
        if with_loads {
            digest.put_opened(&opened);
        }
    }
}

// The entries from some ends, up to a number of steps.
fn put_entries<A: Allocator + Copy>(
    digest: &mut Digest,
    table: &Table<A>,
    ends: [bool; 2],
    steps: usize,
) -> Result<(), Error> {
    put_steps(digest, table.iter(), ends, steps)
}

// The metadata of a table, and the results of its reads.
fn digest_of_all<A: Allocator + Copy>(table: &Table<A>, reads: &[Query<A>]) -> Result<u64, Error> {
    let mut digest = Digest::new();
    put_facts(&mut digest, table);
    put_reads(&mut digest, table, reads, true);
    put_entries(&mut digest, table, FRONTS, ALL)?;
    put_entries(&mut digest, table, BACKS, ALL)?;
    put_steps(&mut digest, table.scan(), FRONTS, ALL)?;
    Ok(digest.finish())
}

/// The checksum of a table's metadata and of the results of its reads.
pub fn read_all<A: Allocator + Copy>(
    alloc: A,
    bytes: &[u8],
    pins: Pins,
    reads: &[Query<A>],
) -> Result<u64, Error> {
    asked(open(alloc, bytes, pins, 0), reads, digest_of_all)
}

// The results of point reads of a damaged table and of an iteration over it.
fn digest_of_damaged<A: Allocator + Copy>(
    table: &Table<A>,
    reads: &[Query<A>],
) -> Result<u64, Error> {
    let mut digest = Digest::new();
    put_reads(&mut digest, table, reads, false);
    put_entries(&mut digest, table, FRONTS, SOME)?;
    Ok(digest.finish())
}

/// Some bytes with changes: each two numbers are an offset and a byte.
pub fn changed<A: Allocator>(alloc: A, bytes: &[u8], changes: &[u64]) -> Result<Vec<u8, A>, Error> {
    let mut bytes = Vec::from_slice(alloc, bytes)?;
    let mut position = None;
    for number in changes {
        match position {
            None => position = Some(*number as usize),
            Some(at) => {
                if let Some(place) = bytes.get_mut(at) {
                    *place = number.to_le_bytes()[0];
                }
                position = None;
            }
        }
    }
    Ok(bytes)
}

/// The checksum of the results of reads of a table with some bytes changed.
pub fn read_damaged<A: Allocator + Copy>(
    alloc: A,
    bytes: &[u8],
    pins: Pins,
    changes: &[u64],
    reads: &[Query<A>],
) -> Result<u64, Error> {
    let bytes = changed(alloc, bytes, changes)?;
    asked(open(alloc, &bytes, pins, 0), reads, digest_of_damaged)
}
