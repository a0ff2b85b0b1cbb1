//! The writes to a store and to plain maps, and the steps between them.
use crate::compare::{Compared, KEYS, Plain, compare};
use crate::reopen::reopen;
use crate::store::Store;
use lsm_tables::block::{Error, SeqNo};
use std::alloc::Global;
use std::collections::BTreeMap;

// The number of entries at which the memtable is flushed.
const LIMIT: usize = 2_000;

// The target size of a table in bytes of data blocks.
const TARGET: u64 = 16_384;

fn put(store: &mut Store, plain: &mut Plain, key: u32, value: u32) -> Result<(), Error> {
    store.put(&key.to_be_bytes(), &value.to_be_bytes())?;
    plain.insert(key, value)?;
    Ok(())
}

fn delete(store: &mut Store, plain: &mut Plain, key: u32) -> Result<(), Error> {
    store.delete(&key.to_be_bytes())?;
    plain.remove(&key);
    Ok(())
}

// Puts each key once, out of order.
fn put_all(store: &mut Store, plain: &mut Plain) -> Result<(), Error> {
    for n in 0..KEYS {
        let key = n.wrapping_mul(7_919) % KEYS;
        put(store, plain, key, key)?;
    }
    Ok(())
}

// Overwrites the keys that are multiples of `step`.
fn put_each(store: &mut Store, plain: &mut Plain, step: u32, more: u32) -> Result<(), Error> {
    for n in 0..KEYS {
        if n.is_multiple_of(step) {
            put(store, plain, n, n.wrapping_add(more))?;
        }
    }
    Ok(())
}

// Deletes the keys that are multiples of `step`.
fn delete_each(store: &mut Store, plain: &mut Plain, step: u32) -> Result<(), Error> {
    for n in 0..KEYS {
        if n.is_multiple_of(step) {
            delete(store, plain, n)?;
        }
    }
    Ok(())
}

fn copy_into(copy: &mut Plain, plain: &Plain) -> Result<(), Error> {
    for (key, value) in plain {
        copy.insert(*key, *value)?;
    }
    Ok(())
}

// Writes until the first snapshot.
fn write_first(store: &mut Store, plain: &mut Plain) -> Result<SeqNo, Error> {
    put_all(store, plain)?;
    put_each(store, plain, 2, 1_000_000)?;
    delete_each(store, plain, 4)?;
    Ok(store.snapshot())
}

// Writes until the second snapshot: keys that were deleted get a value once more.
fn write_second(store: &mut Store, plain: &mut Plain) -> Result<SeqNo, Error> {
    put_each(store, plain, 8, 2_000_000)?;
    delete_each(store, plain, 5)?;
    put_each(store, plain, 7, 3_000_000)?;
    Ok(store.snapshot())
}

// Writes after both snapshots, which no comparison sees.
fn write_third(store: &mut Store, plains: &Plains) -> Result<(), Error> {
    for key in 0..KEYS / 4 {
        let value = plains.second_at.to_be_bytes();
        store.put(&key.to_be_bytes(), value.as_slice())?;
    }
    Ok(())
}

// A map for each snapshot, and the snapshots.
#[derive(Drop)]
struct Plains {
    first: Plain,
    first_at: SeqNo,
    second: Plain,
    second_at: SeqNo,
}

// Compares at one snapshot.
fn compare_one(
    alloc: Global,
    moment: &'static str,
    store: &Store,
    plain: &Plain,
    snapshot: SeqNo,
    all: &mut Vec<Compared>,
) -> Result<(), Error> {
    all.push(compare(alloc, moment, store, plain, snapshot)?)?;
    Ok(())
}

// Compares at both snapshots.
fn compare_both(
    alloc: Global,
    moment: &'static str,
    store: &Store,
    plains: &Plains,
    all: &mut Vec<Compared>,
) -> Result<(), Error> {
    compare_one(alloc, moment, store, &plains.first, plains.first_at, all)?;
    compare_one(alloc, moment, store, &plains.second, plains.second_at, all)
}

fn write_both(store: &mut Store, plains: &mut Plains) -> Result<(), Error> {
    plains.first_at = write_first(store, &mut plains.first)?;
    copy_into(&mut plains.second, &plains.first)?;
    plains.second_at = write_second(store, &mut plains.second)?;
    Ok(())
}

// Writes, packs and compacts, and compares each time.
fn compare_steps(
    alloc: Global,
    store: &mut Store,
    plains: &mut Plains,
    all: &mut Vec<Compared>,
) -> Result<(), Error> {
    write_both(store, plains)?;
    compare_both(alloc, "written", store, plains, all)?;
    store.pack()?;
    compare_both(alloc, "packed", store, plains, all)?;
    store.compact(plains.first_at)?;
    compare_both(alloc, "compacted", store, plains, all)
}

// Writes more to a store that was opened, and compares before and after.
fn compare_opened(
    alloc: Global,
    store: &mut Store,
    plains: &Plains,
    all: &mut Vec<Compared>,
) -> Result<(), Error> {
    compare_both(alloc, "opened", store, plains, all)?;
    write_third(store, plains)?;
    store.flush()?;
    compare_both(alloc, "written again", store, plains, all)?;
    compare_compacted(alloc, store, plains, all)
}

// Compacts and packs a store, and compares each time.
fn compare_compacted(
    alloc: Global,
    store: &mut Store,
    plains: &Plains,
    all: &mut Vec<Compared>,
) -> Result<(), Error> {
    store.compact_part(0, 3, plains.first_at)?;
    compare_both(alloc, "compacted in part", store, plains, all)?;
    store.pack()?;
    compare_both(alloc, "packed again", store, plains, all)?;
    store.compact(plains.second_at)?;
    let (second, at) = (&plains.second, plains.second_at);
    compare_one(alloc, "compacted again", store, second, at, all)
}

fn compare_over(
    rt: &HostRuntime,
    store: &mut Store,
    all: &mut Vec<Compared>,
) -> anyhow::Result<()> {
    let alloc = rt.alloc();
    let mut plains = Plains {
        first: BTreeMap::new(alloc),
        first_at: 0,
        second: BTreeMap::new(alloc),
        second_at: 0,
    };
    compare_steps(alloc, store, &mut plains, all)?;
    let mut opened = reopen(rt, store, LIMIT, TARGET)?;
    compare_opened(alloc, &mut opened, &plains, all)?;
    drop(opened);
    Ok(())
}

/// Runs all comparisons.
pub fn compare_all(rt: &HostRuntime) -> anyhow::Result<Vec<Compared>> {
    let mut all = Vec::new(rt.alloc());
    let mut store = Store::new(rt.alloc(), LIMIT, TARGET)?;
    compare_over(rt, &mut store, &mut all)?;
    drop(store);
    Ok(all)
}
