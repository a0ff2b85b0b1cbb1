//! Compaction of some results, with filters and callbacks, by value and borrowed.
ghost use Rattle.std.specs.Iterator.{IsFinite};
ghost use Rattle.sst_entries.specs.Stream.{CanYield, nowhere};

mod rows;

use crate::sorted::sources::forward_of;
use crate::sorted::words::{byte_of, gives_all, lends_so, results_of, said_by, said_of_lent};
use lsm_sorted::compaction::Rules;
use lsm_sorted::compaction::lending::{LendingCompaction, LentCallback, LentFilter};
use lsm_sorted::compaction::stream::{
    CompactionStream, DroppedKvCallback, StreamFilter, StreamFilterVerdict,
};
use rows::ROWS;
use sst_entries::{EntryRef, Error, InternalValue, IterItem, Slice, ValueType};
use std::alloc::Global;
use std::str::SplitWhitespace;
use test_support::lent_list;

// Compares the entries that it receives with words.
#[derive(Drop)]
struct Received {
    words: SplitWhitespace<'static>,
    is_right: bool,
}

impl Received {
    // A callback that expects these entries.
    fn new(wanted: &'static str) -> Received {
        Received {
            words: wanted.split_whitespace(),
            is_right: true,
        }
    }

    // Compares an entry with the next word.
    fn receive(&mut self, entry: &EntryRef<'_>) {
        let said = said_of_lent(entry);
        self.is_right &= said == said_by(self.words.next().unwrap_or(""));
    }

    // Whether it received all expected entries, and no others.
    fn is_done(mut self) -> bool {
        self.is_right && self.words.next().is_none()
    }
}

impl DroppedKvCallback<Global> for Received {
    ghost gets = { λ c x d. Unit {0} };

    fn on_dropped(&mut self, kv: &InternalValue) {
        self.receive(&kv.as_entry_ref());
    }
}

impl LentCallback for Received {
    ghost gets = { λ c x d. Unit {0} };

    fn on_dropped_ref(&mut self, kv: &EntryRef<'_>) {
        self.receive(kv);
    }
}

// A filter that acts on some entries and keeps all others.
#[derive(Clone, Copy)]
enum Plan {
    // Keeps all.
    KeepAll,
    // Drops the entry with this sequence number.
    DropAt(u64),
    // Fails at the entry with this sequence number.
    FailAt(u64),
    // Replaces entries below this sequence number with tombstones.
    ReplaceBelow(u64),
    // Drops a key, and replaces entries below this sequence number with tombstones.
    DropKeyReplaceBelow(u8, u64),
    // Five consecutive keys are versions of one, the newest first. Drops each below the watermark
    // that is after a newer one.
    NewestOfFive(Option<u8>, u8),
}

// Whether a key is a version below the watermark, and the key before it is a newer version of the
// same.
fn is_older_of_five(previous: &mut Option<u8>, watermark: u8, key: u8) -> bool {
    let letter = key.saturating_sub(b'a');
    let is_of_previous = *previous == Some(letter / 5);
    *previous = Some(letter / 5);
    is_of_previous && 4 - letter % 5 < watermark
}

impl Plan {
    // Whether an entry is dropped.
    fn drops(&mut self, key: u8, seqno: u64) -> bool {
        match self {
            Plan::DropAt(n) => seqno == *n,
            Plan::DropKeyReplaceBelow(dropped, _) => key == *dropped,
            Plan::NewestOfFive(previous, watermark) => is_older_of_five(previous, *watermark, key),
            _ => false,
        }
    }

    // The verdict on an entry.
    fn says_of(&mut self, entry: &EntryRef<'_>) -> Result<StreamFilterVerdict, Error> {
        if self.drops(byte_of(entry.user_key), entry.seqno) {
            return Ok(StreamFilterVerdict::Drop);
        }
        match self {
            Plan::FailAt(n) if entry.seqno == *n => Err(Error::Source(9)),
            Plan::ReplaceBelow(n) | Plan::DropKeyReplaceBelow(_, n) if entry.seqno < *n => Ok(
                StreamFilterVerdict::Replace((ValueType::Tombstone, Slice::empty())),
            ),
            _ => Ok(StreamFilterVerdict::Keep),
        }
    }
}

impl StreamFilter<Global> for Plan {
    ghost gives = { λ f x v g. Unit {0} };

    fn filter_item(&mut self, item: &InternalValue) -> Result<StreamFilterVerdict, Error> {
        self.says_of(&item.as_entry_ref())
    }
}

impl LentFilter<Global> for Plan {
    ghost gives = { λ f x v g. Unit {0} };

    fn filter_ref(&mut self, entry: &EntryRef<'_>) -> Result<StreamFilterVerdict, Error> {
        self.says_of(entry)
    }
}

// The form of a compaction: by value; borrowed; or borrowed without a filter and a callback.
#[derive(Clone, Copy)]
enum How {
    ByValue,
    Filtered,
    Lent,
}

// The form of a compaction, its threshold and its filter, and whether it evicts tombstones and
// zeroes sequence numbers. Then the source, the results, and the reported entries.
type Row = (
    How,
    u64,
    Plan,
    bool,
    bool,
    &'static str,
    &'static str,
    &'static str,
);

// Whether a compaction of any source yields the results of a row and reports its entries.
fn gives_and_reports<I: Iterator<Item = IterItem> + Drop>(row: &Row, source: I) -> bool
    requires can { CanYield I.next_gives nowhere I.can_next I.can_next source }
    requires finite { IsFinite (I.remaining source) }
{
    let mut stream = CompactionStream::new(source, row.1)
        .evict_tombstones(row.3)
        .zero_seqnos(row.4)
        .with_filter(row.2)
        .with_drop_callback(Received::new(row.7));
    let given = gives_all(&mut stream, row.6);
    stream.into_callback().is_done() && given
}

fn rules_of(row: &Row) -> Rules {
    Rules {
        watermark: row.1,
        evict: row.3,
        zeroing: row.4,
    }
}

// Whether a lending compaction yields the results of a row and reports its entries.
fn lends_and_reports(alloc: Global, row: &Row) -> Result<bool, Error> {
    let source = lent_list(results_of(alloc, row.5)?);
    let received = Received::new(row.7);
    let rules = rules_of(row);
    let mut lending = LendingCompaction::with(alloc, source, rules, row.2, received)?;
    let is_right = lends_so(&mut lending, row.6);
    Ok(lending.into_callback().is_done() && is_right)
}

// Whether a lending compaction without a filter and a callback yields the results of a row.
fn lends_unfiltered(alloc: Global, row: &Row) -> Result<bool, Error> {
    let source = lent_list(results_of(alloc, row.5)?);
    let mut lending = LendingCompaction::new(alloc, source, rules_of(row))?;
    Ok(lends_so(&mut lending, row.6))
}

// Whether a row has its results.
fn compacts(alloc: Global, row: &Row) -> Result<bool, Error> {
    match row.0 {
        How::ByValue => Ok(gives_and_reports(row, forward_of(alloc, row.5)?)),
        How::Filtered => lends_and_reports(alloc, row),
        How::Lent => lends_unfiltered(alloc, row),
    }
}

#[test]
fn keeps_drops_reports_and_lends_as_the_rules_and_the_filter_say(rt: HostRuntime) {
    for row in ROWS {
        assert!(rt; matches!(compacts(rt.alloc(), row), Ok(true)), "{}", row.5);
    }
}
