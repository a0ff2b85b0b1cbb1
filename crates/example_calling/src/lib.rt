//! Examples of proofs by a caller of the crate `lsm_tables`.
//!
//! - A read of a table that stores a list.
//! - A list that is written, opened and read.
//! - A table of any bytes that is verified and read.
//! - Runs that are compacted.
//! - A loop over the newest versions of several runs below a seqno.
//!
//! The reads need no proof file. The compaction needs one law, and the loop one invariant.
//!
//! The modules prove workflows end to end. A list is written as a table or as a run, or is
//! compacted, and reads return what the list says. The proofs use the contracts of the calls alone.
#![tactic(auto)]

ghost use Rattle.std.specs.Prelude.{◌≡◌, ◌-◌, ◌^◌, [], IfErr, IfOk, List, MatchOption, Some};
ghost use Rattle.std.specs.Prelude.{false, length, min, true};
ghost use Rattle.example_calling.specs.Reads.{OnYielded};
ghost use Rattle.example_calling.specs.Written.{SeesAlike};
ghost use Rattle.lsm_tables.specs.Words as spec;
ghost use Rattle.std.specs.Iterator.{IsFinite};
ghost use Rattle.std.specs.Option.{option_map_or};

mod chain;
mod compacted;
mod one_answer;
mod part;
mod reads;
mod written;

pub use chain::read_run_back;
pub use compacted::compact_run_back;
use lsm_tables::block::{Error, InternalValue, IterItem, SeqNo};
use lsm_tables::compaction::{Rules, compact_to_run};
use lsm_tables::merge::NewestOf;
use lsm_tables::run::{Run, range_runs_at};
use lsm_tables::table::{Table, TableIds, Timestamp, VerifyError, write_and_open};
pub use one_answer::{PointAndScan, Ranges, read_each_way};
pub use part::compact_part_back;
pub use reads::{Reads, read_run};
use std::alloc::Allocator;
use std::ops::Bound;
use std::sync::Arc;
pub use written::read_back;

/// Returns the newest version of a key visible at `seqno`, of a table that was opened without a
/// global seqno.
///
/// The contract is for a table that stores a list. This is known to whoever wrote the list, or has
/// verified the table.
///
/// # Errors
///
/// [`Error::OutOfMemory`] only, if the table stores a list.
pub fn find<A: Allocator + Clone>(
    table: &Table<A>,
    key: &[u8],
    seqno: SeqNo,
) -> Result<Option<InternalValue<A>>, Error>
    ensures found { (es : List spec.Entry) → spec.StoresList table.now.bytes es →
        table.now.global_seqno ≡ 0 → IfOk result (λ found. found ≡ spec.point es key.now seqno) }
    ensures memory { (es : List spec.Entry) → spec.StoresList table.now.bytes es →
        IfErr result (λ e. e ≡ spec.OutOfMemory) }
{
    table.get_by_key(key, seqno)
}

/// Writes a list as a table, opens it, and returns the newest version of a key visible at `seqno`.
/// Returns `None` if the list has no entry.
///
/// # Errors
///
/// Those of [`write_and_open`].
pub fn write_and_find<A: Allocator + Clone>(
    alloc: A,
    items: Vec<InternalValue<A>, A>,
    key: &[u8],
    seqno: SeqNo,
) -> Result<Option<Option<InternalValue<A>>>, Error>
    requires { spec.IsWritable items.items }
    ensures found { IfOk result (λ r. MatchOption r (items.items ≡ [])
        (λ found. found ≡ spec.point items.items key.now seqno)) }
    ensures refused { IfErr result (λ e. spec.is_memory e ≡ false →
        spec.opening_fault (spec.label_of 1 0 0) items.items 0 ≡ Some e) }
{
    match write_and_open(alloc, 1, Timestamp::from(0), items, 0)? {
        None => Ok(None),
        Some(table) => Ok(Some(table.get_by_key(key, seqno)?)),
    }
}

/// Verifies a table of any bytes, and returns the newest version of a key visible at `seqno`.
///
/// The table was opened without a global seqno. If the call succeeds, its bytes store a list, and
/// the result is that list's. It reads the whole table.
///
/// # Errors
///
/// Those of [`Table::verify`].
pub fn verify_and_find<A: Allocator + Clone>(
    table: &Table<A>,
    key: &[u8],
    seqno: SeqNo,
) -> Result<Option<InternalValue<A>>, VerifyError>
    requires { table.now.global_seqno ≡ 0 }
    ensures { IfOk result (λ found. (es : List spec.Entry) × spec.StoresList table.now.bytes es ×
        (found ≡ spec.point es key.now seqno)) }
{
    table.verify()?;
    match table.get_by_key(key, seqno) {
        Ok(found) => Ok(found),
        // A read of a table that stores a list fails with `OutOfMemory` only.
        Err(_) => Err(VerifyError::OutOfMemory),
    }
}

/// Compacts runs into one, none if nothing is kept, and returns the id counter after its tables.
///
/// A read at `watermark` or above sees in it what it saw in the runs together.
///
/// # Errors
///
/// Those of [`compact_to_run`].
pub fn compact_below<A: Allocator + Clone>(
    alloc: A,
    runs: &[Arc<Run<Table<A>, A>, A>],
    watermark: SeqNo,
    ids: TableIds,
    target: u64,
) -> Result<(Option<Run<Table<A>, A>>, TableIds), Error>
    requires { spec.AreCompactable (spec.each_run runs.now) }
    ensures seen { spec.OnLists runs.now (λ lists.
        IfOk result (λ r. SeesAlike watermark (spec.union_in lists) r.0)) }
    ensures ids { IfOk result (λ r. r.1 ≡ spec.ids_behind ids target (option_map_or length r.0 0)) }
    ensures refused { spec.OnLists runs.now (λ lists.
        IfErr result (λ e. spec.is_memory e ≡ false → spec.tables_fault ids target 0
        (spec.kept_in (spec.rules_by watermark true false) lists) ≡ Some e)) }
{
    let rules = Rules {
        watermark,
        evict: true,
        zeroing: false,
    };
    let made = compact_to_run(alloc, runs, rules, ids, target, Timestamp::from(0))?;
    Ok(made)
}

/// Returns the number of keys that several runs have, by versions visible at `seqno`, at most
/// `u64::MAX`.
///
/// # Errors
///
/// [`Error::OutOfMemory`] only, if their tables hold lists.
pub fn count_below<A: Allocator + Clone>(
    alloc: A,
    runs: &[Arc<Run<Table<A>, A>, A>],
    seqno: SeqNo,
) -> Result<u64, Error>
    ensures exact { spec.OnLists runs.now (λ lists.
        let found = spec.newest (spec.numbered_below seqno (spec.union_in lists)) in
        IfOk result (λ count. count ≡ min (length found) (2 ^ 64 - 1))) }
    ensures memory { spec.OnLists runs.now (λ lists. IfErr result (λ e. e ≡ spec.OutOfMemory)) }
{
    let all = (Bound::Unbounded, Bound::Unbounded);
    count_newest(range_runs_at(alloc, runs, all, seqno)?)
}

// The number of newest versions that some sources have, as `count`. Generic in the sources: a whole
// concrete stream costs a proof a minute or two.
fn count_newest<S: DoubleEndedIterator<Item = IterItem<A>> + Drop, A: Allocator>(
    items: NewestOf<S, A>,
) -> Result<u64, Error>
    requires can { ⟦<NewestOf<S, A> as Iterator>⟧.can_next items }
    requires finite { IsFinite (⟦<NewestOf<S, A> as Iterator>⟧.remaining items) }
    ensures exact { OnYielded ⟦<NewestOf<S, A> as Iterator>⟧.next_gives
        ⟦<NewestOf<S, A> as DoubleEndedIterator>⟧.next_back_gives items (λ es.
        IfOk result (λ n. n ≡ min (length es) (2 ^ 64 - 1))) }
    ensures memory { OnYielded ⟦<NewestOf<S, A> as Iterator>⟧.next_gives
        ⟦<NewestOf<S, A> as DoubleEndedIterator>⟧.next_back_gives items (λ _.
        IfErr result (λ e. e ≡ spec.OutOfMemory)) }
{
    count(items)
}

// The number of entries that a stream yields, at most `u64::MAX`.
fn count<I: DoubleEndedIterator<Item = IterItem<A>> + Drop, A: Allocator>(
    items: I,
) -> Result<u64, Error>
    requires can { I.can_next items }
    requires finite { IsFinite (I.remaining items) }
    ensures exact { (es : List spec.Entry) →
        spec.YieldsList I.next_gives I.next_back_gives es items →
        IfOk result (λ count. count ≡ min (length es) (2 ^ 64 - 1)) }
    ensures memory { (es : List spec.Entry) →
        spec.YieldsList I.next_gives I.next_back_gives es items →
        IfErr result (λ e. e ≡ spec.OutOfMemory) }
{
    let mut count = 0u64;
    for item in items {
        item?;
        count = count.saturating_add(1);
    }
    Ok(count)
}
