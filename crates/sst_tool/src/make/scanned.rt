//! Reads whole tables, to find the one that an error comes from.
ghost use Rattle.std.specs.Prelude.{◌≡◌, ◌<◌, IfErr, IfOk, IfSome, IsOk, List, OnOk, Some, false};
ghost use Rattle.std.specs.Prelude.{length, true};
ghost use Rattle.sst_tool.specs.make.Words as spec;

use lsm_readers::{Scanner, Table};
use sst_blocks::{EntryRef, Error, Lending, SeqNo, compare_versions};
use std::alloc::Allocator;

// Returns the first error of a scan.
fn first_refusal<A: Allocator + Clone>(items: &mut Scanner<A>) -> Option<Error>
    // Except for OutOfMemory it is the first error that the scan yields, and `None` if it yields
    // none.
    ensures first { (rs : List spec.R) → spec.YieldsResults spec.ScansLent rs items.old →
        spec.IsFirstRefusal rs result }
{
    loop {
        match items.advance() {
            Ok(true) => {}
            Ok(false) => return None,
            Err(error) => return Some(error),
        }
    }
}

// Entries that are in order up to an error are in order up to the first that cannot be read.
// OutOfMemory says nothing about them.
fn ended_by(error: Error) -> Result<bool, Error>
    ensures fault { OnOk result (spec.is_memory error ≡ false) }
    ensures order { IfOk result (λ b. b ≡ true) }
    ensures memory { IfErr result (λ e. e ≡ spec.OutOfMemory) }
    ensures known { spec.is_memory error ≡ false → IsOk result }
{
    if error == Error::OutOfMemory {
        return Err(error);
    }
    Ok(true)
}

// Whether an entry may follow the one before it, which has this key and sequence number.
fn may_follow(key: &[u8], last: Option<SeqNo>, entry: &EntryRef<'_>) -> bool
    ensures { result ≡
        spec.may_follow (spec.option_map (spec.read_place key.now) last)
        (spec.entry_of_ref entry.now) }
{
    match last {
        None => true,
        Some(seqno) => compare_versions(key, seqno, entry.user_key, entry.seqno).is_lt(),
    }
}

// Replaces the bytes of a buffer. Fails only if memory runs out.
fn put_bytes<A: Allocator>(buffer: &mut Vec<u8, A>, bytes: &[u8]) -> Result<(), Error>
    ensures put { IfOk result (λ _. buffer.new.items ≡ bytes.now) }
    ensures memory { IfErr result (λ e. e ≡ spec.OutOfMemory) }
{
    buffer.clear();
    buffer.extend_from_slice(bytes)?;
    Ok(())
}

// Whether entries are in order, up to the first that cannot be read. Fails only if memory runs out.
fn is_in_order<A: Allocator + Copy>(alloc: A, items: &mut Scanner<A>) -> Result<bool, Error>
    ensures order { (rs : List spec.R) → spec.YieldsResults spec.ScansLent rs items.old →
        IfOk result (λ b. b ≡ spec.come_in_order rs) }
    ensures memory { IfErr result (λ e. e ≡ spec.OutOfMemory) }
{
    // An entry is borrowed until the next step, so its key is copied.
    let mut key = Vec::new(alloc);
    let mut last = None;
    loop {
        if let Err(error) = items.advance() {
            return ended_by(error);
        }
        let Some(entry) = items.entry() else {
            return Ok(true);
        };
        if !may_follow(&key, last, &entry) {
            return Ok(false);
        }
        last = Some(entry.seqno);
        put_bytes(&mut key, entry.user_key)?;
    }
}

/// Scans a whole table and returns its first error.
pub(crate) fn refusal_of<A: Allocator + Copy>(table: &Table<A>) -> Option<Error>
    // Except for OutOfMemory it is the first error of a scan, and `None` if that has none.
    ensures first { spec.IsFirstRefusal (spec.table_scan table.now) result }
    // If the bytes store a list with an entry, the only error is OutOfMemory.
    ensures list { (es : List spec.Entry) → spec.StoresList table.now.bytes es → 0 < length es →
        IfSome result (λ e. e ≡ spec.OutOfMemory) }
    // A fault that is found before memory is allocated is returned whatever memory there is.
    ensures early { (e : spec.Refusal) → spec.early_scan_fault table.now ≡ Some e →
        result ≡ Some e }
{
    match table.scan() {
        Ok(mut items) => {
            let refusal = first_refusal(&mut items);
            drop(items);
            refusal
        }
        Err(error) => Some(error),
    }
}

/// Returns whether the entries of a table are in order, up to the first that cannot be read.
///
/// # Errors
///
/// Fails only if memory runs out.
pub(crate) fn has_order<A: Allocator + Copy>(alloc: A, table: &Table<A>) -> Result<bool, Error>
    ensures order { IfOk result (λ b. b ≡ spec.come_in_order (spec.table_scan table.now)) }
    // If the bytes store a list, they are.
    ensures list { (es : List spec.Entry) → spec.StoresList table.now.bytes es →
        IfOk result (λ b. b ≡ true) }
    ensures memory { IfErr result (λ e. e ≡ spec.OutOfMemory) }
    // If the first block has a fault that is found before memory is allocated, memory cannot run
    // out.
    ensures early { (e : spec.Refusal) → spec.early_scan_fault table.now ≡ Some e → IsOk result }
{
    match table.scan() {
        Ok(mut items) => {
            let returned = is_in_order(alloc, &mut items);
            drop(items);
            returned
        }
        Err(error) => ended_by(error),
    }
}
