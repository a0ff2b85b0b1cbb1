//! The entries that are in no table yet.
ghost use Rattle.std.specs.Prelude.{◌≡◌, ◌<◌, ◌≤◌, ◌&&◌, [], length, not, IfErr, IfOk, List};
ghost use Rattle.std.specs.Prelude.{None, OnErr, OnOk};
ghost use Rattle.example_store.specs.Words as spec;
ghost use Rattle.lsm_tables.specs.Words.{OutOfMemory};

use lsm_tables::block::{EntryRef, Error, InternalValue, IterItem, Lending, SeqNo, UserKey};
use lsm_tables::run::{LentEntries, lend_entries_within};
use std::alloc::{Allocator, Global};
use std::marker::Model;
use std::ops::Bound;
use std::vec::IntoIter;

/// The newest entries of a store in order: keys ascending, and the newest version of a key first.
///
/// Its model is the list.
#[derive(Drop)]
pub struct Memtable<A: Allocator = Global> {
    items: Vec<InternalValue<A>, A>,
}

impl<A: Allocator> Model for Memtable<A> {
    ghost use Rattle.std.specs.Prelude.{List};
    ghost use Rattle.lsm_tables.specs.Words.{Entry, IsStrict};

    ghost Value = { List Entry };

    ghost view = { λ m. m.items.items };

    ghost invariant = { λ m. IsStrict m.items.items };
}

impl<A: Allocator + Clone> Memtable<A> {
    /// Returns a memtable without entries.
    pub fn new(alloc: A) -> Memtable<A>
        ensures { result ≡ [] }
    {
        Memtable {
            items: Vec::new(alloc),
        }
    }

    /// Drops all entries.
    pub fn clear(&mut self)
        ensures { self.new ≡ [] }
    {
        self.items.clear();
    }

    /// Returns the number of entries.
    pub fn len(&self) -> usize
        ensures { result ≡ length self.now }
    {
        self.items.len()
    }

    /// Adds an entry with a seqno above all others.
    ///
    /// # Errors
    ///
    /// [`Error::OutOfMemory`] only. Nothing is added then.
    pub fn insert(&mut self, item: InternalValue<A>) -> Result<(), Error>
        requires newest { spec.AllByRecursion (λ (e : spec.Entry). e.seqno < item.seqno) self.old }
        // It is inserted in order, and a read finds it before the others.
        ensures put { OnOk result (spec.IsPut item self.old self.new) }
        ensures err { OnErr result (self.new ≡ self.old) }
        ensures memory { IfErr result (λ e. e ≡ OutOfMemory) }
    {
        let place = count_before(&self.items, &item);
        self.items.insert(place, item)?;
        Ok(())
    }

    /// Returns the newest version of a key visible at `seqno`, borrowed.
    pub fn get(&self, key: &[u8], seqno: SeqNo) -> Option<EntryRef<'_>>
        ensures { spec.option_map spec.entry_of_ref result ≡ spec.point self.now key.now seqno }
    {
        let place = count_up_to(&self.items, key, seqno);
        let Some(item) = self.items.get(place) else {
            return None;
        };
        if !item.key.user_key.equals(key) {
            return None;
        }
        Some(item.as_entry_ref())
    }

    /// Returns the entries, shared: no bytes are copied.
    ///
    /// # Errors
    ///
    /// [`Error::OutOfMemory`] only.
    pub fn share(&self, alloc: &A) -> Result<Vec<InternalValue<A>, A>, Error>
        ensures items { IfOk result (λ shared. shared.items ≡ self.now) }
        ensures strict { spec.IsStrict self.now }
        ensures memory { IfErr result (λ e. e ≡ OutOfMemory) }
    {
        let items = self.items.as_slice();
        Ok(Vec::from_clones(alloc.clone()?, items)?)
    }

    /// Returns a lending source of the entries within two bounds, in order.
    pub fn lend<'a>(&'a self, bounds: &(Bound<UserKey<A>>, Bound<UserKey<A>>)) -> LentEntries<'a, A>
        ensures list { spec.YieldsList ⟦<LentEntries<'a, A> as Lending>⟧.advances spec.nowhere
            (spec.within bounds.now.0 bounds.now.1 self.now) result }
        ensures can { spec.CanLend ⟦<LentEntries<'a, A> as Lending>⟧.advances
            ⟦<LentEntries<'a, A> as Lending>⟧.can_advance result }
        ensures strict { spec.IsStrict self.now }
    {
        lend_entries_within(&self.items, bounds)
    }

    /// Returns the entries within two bounds, shared, in order, from both ends.
    ///
    /// # Errors
    ///
    /// [`Error::OutOfMemory`] only.
    pub fn within(
        &self,
        alloc: &A,
        bounds: &(Bound<UserKey<A>>, Bound<UserKey<A>>),
    ) -> Result<IntoIter<IterItem<A>, A>, Error>
        ensures list { spec.YieldsPart ⟦<IntoIter<IterItem<A>, A> as Iterator>⟧.next_gives
            ⟦<IntoIter<IterItem<A>, A> as DoubleEndedIterator>⟧.next_back_gives bounds.now.0
            bounds.now.1 self.now result }
        ensures strict { spec.IsStrict self.now }
        // Both ends may be called, and it ends.
        ensures can { let ends = ⟦<IntoIter<IterItem<A>, A> as DoubleEndedIterator>⟧ in
            IfOk result (spec.CanYield ends.next_gives ends.next_back_gives ends.can_next
            ends.can_next_back) }
        ensures ends { IfOk result (λ s.
            spec.IsFinite (⟦<IntoIter<IterItem<A>, A> as Iterator>⟧.remaining s)) }
        ensures memory { IfErr result (λ e. e ≡ OutOfMemory) }
    {
        let found = items_within(alloc, &self.items, bounds)?;
        Ok(found.into_iter())
    }
}

// The number of entries of a sorted list before an entry.
fn count_before<A: Allocator>(items: &[InternalValue<A>], item: &InternalValue<A>) -> usize
    ensures exact { spec.IsStrict items.now →
        result ≡ spec.front_length (λ e. spec.is_before e item.now) items.now }
    ensures within { result ≤ length items.now }
{
    items.partition_point(|other| item.may_follow(Some(other)))
}

// The number of entries of a sorted list that are not after a key and a seqno.
fn count_up_to<A: Allocator>(items: &[InternalValue<A>], key: &[u8], seqno: SeqNo) -> usize
    ensures exact { spec.IsStrict items.now →
        result ≡ spec.front_length (λ e. not (spec.is_before (spec.read_place key.now seqno) e))
        items.now }
    ensures within { result ≤ length items.now }
{
    items.partition_point(|item| {
        let found = &item.key;
        !key.cmp(found.user_key.as_slice())
            .then(found.seqno.cmp(&seqno))
            .is_lt()
    })
}

// The entries whose keys are within two bounds, shared.
fn items_within<A: Allocator + Clone>(
    alloc: &A,
    items: &[InternalValue<A>],
    bounds: &(Bound<UserKey<A>>, Bound<UserKey<A>>),
) -> Result<Vec<IterItem<A>, A>, Error>
    ensures items { IfOk result (λ found.
        found.items ≡ spec.ok_results (spec.within bounds.now.0 bounds.now.1 items.now)) }
    ensures memory { IfErr result (λ e. e ≡ OutOfMemory) }
{
    let mut found = Vec::new(alloc.clone()?);
    for item in items {
        if !is_within(bounds, item.key.user_key.as_slice()) {
            continue;
        }
        found.push(Ok(item.clone()?))?;
    }
    Ok(found)
}

// Whether a key is within two bounds.
fn is_within<A: Allocator>(bounds: &(Bound<UserKey<A>>, Bound<UserKey<A>>), key: &[u8]) -> bool
    ensures { result ≡ (spec.is_from bounds.now.0 key.now && spec.is_to bounds.now.1 key.now) }
{
    is_from(&bounds.0, key) && is_to(&bounds.1, key)
}

fn is_from<A: Allocator>(low: &Bound<UserKey<A>>, key: &[u8]) -> bool
    ensures { result ≡ spec.is_from low.now key.now }
{
    match low {
        Bound::Included(low) => !key.cmp(low.as_slice()).is_lt(),
        Bound::Excluded(low) => low.as_slice().cmp(key).is_lt(),
        Bound::Unbounded => true,
    }
}

fn is_to<A: Allocator>(high: &Bound<UserKey<A>>, key: &[u8]) -> bool
    ensures { result ≡ spec.is_to high.now key.now }
{
    match high {
        Bound::Included(high) => !high.as_slice().cmp(key).is_lt(),
        Bound::Excluded(high) => key.cmp(high.as_slice()).is_lt(),
        Bound::Unbounded => true,
    }
}
