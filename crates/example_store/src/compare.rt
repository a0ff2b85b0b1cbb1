//! Comparing a store at a snapshot with a plain map.
ghost use Rattle.std.specs.Prelude.{IfOk};
ghost use Rattle.example_store.specs.Words as spec;

use crate::store::Store;
use lsm_tables::block::{EntryRef, Error, IterItem, Lending, SeqNo};
use lsm_tables::merge::{Below, NewestOf};
use std::alloc::{Allocator, Global};
use std::collections::BTreeMap;
use std::ops::Bound;

/// The number of keys that are written.
pub const KEYS: u32 = 20_000;

/// The expected contents of a store at a snapshot.
pub type Plain = BTreeMap<u32, u32>;

/// The number of comparisons, and of those that failed.
#[derive(Clone, Copy)]
pub struct Count {
    /// All comparisons.
    pub all: usize,
    /// Comparisons that found a wrong, missing or additional entry.
    pub wrong: usize,
}

impl Count {
    // Counts one comparison.
    fn add(&mut self, is_right: bool) {
        self.all = self.all.saturating_add(1);
        self.wrong = self.wrong.saturating_add(usize::from(!is_right));
    }
}

/// The comparisons at one snapshot after one step.
#[derive(Clone, Copy)]
pub struct Compared {
    /// The step before them.
    pub moment: &'static str,
    /// The snapshot.
    pub snapshot: SeqNo,
    /// Point reads of each key.
    pub gets: Count,
    /// The keys with a value, from the front.
    pub front: Count,
    /// The keys with a value, from the back.
    pub back: Count,
}

// Whether a value is this number.
fn is_value(found: Option<&[u8]>, want: Option<&u32>) -> bool {
    let Some(want) = want else {
        return found.is_none();
    };
    let Some(found) = found else {
        return false;
    };
    found == want.to_be_bytes().as_slice()
}

// Whether a key has the expected value.
fn is_got(store: &Store, plain: &Plain, key: u32, snapshot: SeqNo) -> Result<bool, Error> {
    let found = store.get(&key.to_be_bytes(), snapshot)?;
    Ok(is_value(found, plain.get(&key)))
}

// Reads each key.
fn compare_gets(store: &Store, plain: &Plain, snapshot: SeqNo) -> Result<Count, Error> {
    let mut count = Count { all: 0, wrong: 0 };
    for key in 0..KEYS {
        count.add(is_got(store, plain, key, snapshot)?);
    }
    Ok(count)
}

// Keys and their values.
type Rows = Vec<(u32, u32)>;

fn rows_of(alloc: Global, plain: &Plain) -> Result<Rows, Error> {
    let mut rows = Vec::new(alloc);
    for (key, value) in plain {
        rows.push((*key, *value))?;
    }
    Ok(rows)
}

// Whether an entry has this key and this value.
fn is_row(item: &EntryRef<'_>, want: Option<&(u32, u32)>) -> bool {
    match want {
        Some((key, value)) => {
            item.user_key == key.to_be_bytes().as_slice()
                && item.value == value.to_be_bytes().as_slice()
        }
        None => false,
    }
}

// Compares the next entry, if it has a value.
fn compare_item(item: &EntryRef<'_>, rows: &[(u32, u32)], count: &mut Count) {
    if !item.is_tombstone() {
        let want = rows.get(count.all);
        count.add(is_row(item, want));
    }
}

// Counts the rows that no entry was compared with as wrong.
fn count_missing(rows: &[(u32, u32)], count: &mut Count) {
    let missing = rows.len().saturating_sub(count.all);
    count.wrong = count.wrong.saturating_add(missing);
}

// Compares all entries that a stream lends in turn with the values of these rows.
fn compare_lent<L: Lending + Drop>(mut items: L, rows: &[(u32, u32)]) -> Result<Count, Error>
    requires { spec.CanLend L.advances L.can_advance items }
{
    let mut count = Count { all: 0, wrong: 0 };
    while items.advance()? {
        if let Some(item) = items.entry() {
            compare_item(&item, rows, &mut count);
        }
    }
    count_missing(rows, &mut count);
    Ok(count)
}

// Compares all entries in turn with the values of these rows.
fn compare_each<I: Iterator<Item = IterItem<A>> + Drop, A: Allocator>(
    items: I,
    rows: &[(u32, u32)],
) -> Result<Count, Error>
    requires can { I.can_next items }
    requires finite { spec.IsFinite (I.remaining items) }
{
    let mut count = Count { all: 0, wrong: 0 };
    for item in items {
        compare_item(&item?.as_entry_ref(), rows, &mut count);
    }
    count_missing(rows, &mut count);
    Ok(count)
}

// Compares newest versions from the back. Generic in the sources: a whole concrete stream makes a
// proof expensive.
fn compare_newest<S: DoubleEndedIterator<Item = IterItem<A>> + Drop, A: Allocator>(
    items: Result<NewestOf<S, A>, Error>,
    rows: &[(u32, u32)],
) -> Result<Count, Error>
    requires can { IfOk items (λ s. ⟦<NewestOf<S, A> as Iterator>⟧.can_next s) }
    requires can_back { IfOk items (λ s.
        ⟦<NewestOf<S, A> as DoubleEndedIterator>⟧.can_next_back s) }
    requires finite { IfOk items (λ s.
        spec.IsFinite (⟦<NewestOf<S, A> as Iterator>⟧.remaining s)) }
{
    compare_each(items?.rev(), rows)
}

// Compares newest versions below a seqno from the back. Generic in the sources: each layer of a
// concrete stream costs a proof about half as much again.
fn compare_below<S: DoubleEndedIterator<Item = IterItem<A>> + Drop, A: Allocator>(
    items: Result<NewestOf<Below<S>, A>, Error>,
    rows: &[(u32, u32)],
) -> Result<Count, Error>
    requires can { IfOk items (λ s. ⟦<NewestOf<Below<S>, A> as Iterator>⟧.can_next s) }
    requires can_back { IfOk items (λ s.
        ⟦<NewestOf<Below<S>, A> as DoubleEndedIterator>⟧.can_next_back s) }
    requires finite { IfOk items (λ s.
        spec.IsFinite (⟦<NewestOf<Below<S>, A> as Iterator>⟧.remaining s)) }
{
    compare_newest(items, rows)
}

// Compares all that a store has at a snapshot, from the front.
fn compare_front(store: &Store, rows: &[(u32, u32)], snapshot: SeqNo) -> Result<Count, Error> {
    let all = (Bound::Unbounded, Bound::Unbounded);
    compare_lent(store.range(all, snapshot)?, rows)
}

// Compares all that a store has at a snapshot, from the back. Generic in the allocator: with a
// concrete one a proof unfolds more of each part.
fn compare_back<A: Allocator + Clone>(
    store: &Store<A>,
    rows: &[(u32, u32)],
    snapshot: SeqNo,
) -> Result<Count, Error> {
    let all = (Bound::Unbounded, Bound::Unbounded);
    compare_below(store.double_ended_range(all, snapshot), rows)
}

/// Compares a store with a plain map at a snapshot: point reads of each key, and ranges from both
/// ends.
pub fn compare(
    alloc: Global,
    moment: &'static str,
    store: &Store,
    plain: &Plain,
    snapshot: SeqNo,
) -> Result<Compared, Error> {
    let mut rows = rows_of(alloc, plain)?;
    let gets = compare_gets(store, plain, snapshot)?;
    let front = compare_front(store, &rows, snapshot)?;
    rows.reverse();
    let back = compare_back(store, &rows, snapshot)?;
    Ok(Compared {
        moment,
        snapshot,
        gets,
        front,
        back,
    })
}
