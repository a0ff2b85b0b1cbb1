//! Writing a list as a run, and reading it.
ghost use Rattle.std.specs.Prelude.{◌≡◌, ◌+◌, ◌^◌, ◌<◌, [], Some, IfErr, IfOk, IfSome};
ghost use Rattle.example_calling.specs.Reads.{ReadsSome};
ghost use Rattle.sst_entries.specs.declared.error.Error.TheVariants.{OutOfMemory};
ghost use Rattle.lsm_tables.specs.Words.{CanYield, Faults, FitsAsTables, IsWritable, chain_fault};
ghost use Rattle.lsm_tables.specs.Words.{highest_seqno, lift};

use crate::{Reads, read_run};
use lsm_tables::block::{Error, InternalValue, SeqNo, UserKey};
use lsm_tables::run::{NewestOfRuns, write_run};
use lsm_tables::table::{TableIds, Timestamp};
use std::alloc::Allocator;
use std::ops::Bound;

/// Writes a list as a run, opens it, and returns a point read and a range of it; `None` if the list
/// has no entry.
///
/// By the contracts of writing, opening and reading runs alone, they read the list.
///
/// # Errors
///
/// Those of [`write_run`] with ids from 1 on.
pub fn read_run_back<A: Allocator + Clone>(
    alloc: A,
    items: Vec<InternalValue<A>, A>,
    target_size: u64,
    global_seqno: SeqNo,
    key: &[u8],
    seqno: SeqNo,
    range: (Bound<UserKey<A>>, Bound<UserKey<A>>),
) -> Result<Option<Reads<A>>, Error>
    requires { IsWritable items.items }
    // They are the first match of the key in the list and, from both ends, the newest version of
    // each key within the bounds. The global seqno is applied.
    ensures list { ReadsSome ⟦<NewestOfRuns<A> as Iterator>⟧.next_gives
        ⟦<NewestOfRuns<A> as DoubleEndedIterator>⟧.next_back_gives key.now seqno range
        items.items (lift items.items global_seqno) result }
    // If the list has no entry, there is no result.
    ensures none { IfOk result (λ r. IfSome r (λ _. items.items ≡ [] → ⊥)) }
    // Both ends of the range may be called any number of times.
    ensures can { let ends = ⟦<NewestOfRuns<A> as DoubleEndedIterator>⟧ in
        IfOk result (λ r. IfSome r (λ read. CanYield ends.next_gives ends.next_back_gives
        ends.can_next ends.can_next_back read.1)) }
    // Except for `OutOfMemory`, the error is that of writing and opening the list: reading does not
    // fail.
    ensures refused { Faults result
        (chain_fault (Some 1) target_size 0 items.items global_seqno) }
    ensures taken { FitsAsTables (Some 1) target_size items.items →
        highest_seqno items.items + global_seqno < 2 ^ 64 →
        IfErr result (λ e. e ≡ OutOfMemory) }
{
    let (ids, created_at) = (TableIds::new(1), Timestamp::from(0));
    let (run, _) = write_run(
        alloc.clone()?,
        ids,
        target_size,
        created_at,
        items,
        global_seqno,
    )?;
    match run {
        Some(run) => Ok(Some(read_run(alloc, run, key, seqno, range)?)),
        None => Ok(None),
    }
}
