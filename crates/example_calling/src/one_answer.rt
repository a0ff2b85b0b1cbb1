//! All reads of one table.
ghost use Rattle.std.specs.Prelude.{◌≡◌, [], IfErr, IfOk, List};
ghost use Rattle.sst_entries.specs.declared.error.Error.TheVariants.{OutOfMemory};
ghost use Rattle.example_calling.specs.Reads.{RangesRead, ReadsEachWay};
ghost use Rattle.lsm_readers.specs.Words.{Entry, StoresList};
ghost use Rattle.sst_entries.specs.Error.{Faults};
ghost use Rattle.lsm_runs.specs.compaction.Written.{ReadsList, reads_fault};

use lsm_iters::beside;
use lsm_tables::block::{Error, InternalValue, SeqNo, UserKey};
use lsm_tables::table::{Iter, Scanner, Table};
use std::alloc::Allocator;
use std::ops::Bound;

/// The entries of a table within two bounds, and all of them.
pub type Ranges<A> = (Iter<A>, Iter<A>);

/// The result of a point read of a table, and a scan of the table.
pub type PointAndScan<A> = (Option<InternalValue<A>>, Scanner<A>);

// The entries within two bounds, and all.
fn ranges_of<A: Allocator + Clone>(
    table: &Table<A>,
    lower: Bound<UserKey<A>>,
    upper: Bound<UserKey<A>>,
) -> Result<Ranges<A>, Error>
    ensures list { RangesRead ⟦<Iter<A> as Iterator>⟧.next_gives
        ⟦<Iter<A> as DoubleEndedIterator>⟧.next_back_gives table.now lower upper result }
    ensures err { IfErr result (λ e. e ≡ OutOfMemory) }
{
    let range = table.range(lower, upper)?;
    let all = table.iter();
    beside(range, all)
}

// The result of a point read, and a scan.
fn read_and_scan<A: Allocator + Clone>(
    table: &Table<A>,
    key: &[u8],
    seqno: SeqNo,
) -> Result<PointAndScan<A>, Error>
    ensures list { (es : List Entry) → StoresList table.now.bytes es → IfOk result (λ read.
        ReadsList es table.now.global_seqno key.now seqno read.0 read.1) }
    ensures refused { Faults result (reads_fault table.now key.now seqno) }
    ensures err { (es : List Entry) → StoresList table.now.bytes es → (es ≡ [] → ⊥) →
        IfErr result (λ e. e ≡ OutOfMemory) }
{
    let found = table.get(key, seqno, Table::<A>::key_hash(key))?;
    Ok((found, table.scan()?))
}

/// Runs every kind of read on a table: a point read, a scan of all, a range within two bounds, and
/// a range of all.
///
/// Both ranges may be read from both ends. If the bytes store a list, the results are those of the
/// list, the global seqno applied, and depend on nothing else of the table. So two tables of one
/// list yield the same, whatever differs between them:
///
/// - who wrote them;
/// - which index and filter they have, in one block or in partitions, and which of these blocks are
///   pinned;
/// - the sizes of their blocks, and the version in which they are stored.
///
/// # Errors
///
/// [`Error::OutOfMemory`] only, if the table stores a list that has an entry. For other tables,
/// those of [`Table::get`], or else of [`Table::scan`].
pub fn read_each_way<A: Allocator + Clone>(
    table: &Table<A>,
    key: &[u8],
    seqno: SeqNo,
    lower: Bound<UserKey<A>>,
    upper: Bound<UserKey<A>>,
) -> Result<(PointAndScan<A>, Ranges<A>), Error>
    ensures list { ReadsEachWay ⟦<Iter<A> as Iterator>⟧.next_gives
        ⟦<Iter<A> as DoubleEndedIterator>⟧.next_back_gives table.now key.now seqno lower upper
        result }
    // Whatever the table's bytes, except for `OutOfMemory`, the error is that of the point read, or
    // else of the scan.
    ensures refused { Faults result (reads_fault table.now key.now seqno) }
    // If the list has an entry, the only error is `OutOfMemory`.
    ensures err { (es : List Entry) → StoresList table.now.bytes es → (es ≡ [] → ⊥) →
        IfErr result (λ e. e ≡ OutOfMemory) }
{
    let read = read_and_scan(table, key, seqno)?;
    Ok((read, ranges_of(table, lower, upper)?))
}
