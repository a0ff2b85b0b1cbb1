//! The entries of a slice as a lending source.
ghost use Rattle.std.specs.Prelude.{◌≡◌, ◌≤◌, None, length, not};
ghost use Rattle.lsm_runs.specs.Words as spec;

use sst_blocks::{EntryRef, Error, InternalValue, Lending, UserKey};
use std::alloc::{Allocator, Global};
use std::marker::Model;
use std::ops::Bound;

/// A lending source of the entries of a slice, such as a memtable's entries within some bounds.
///
/// It lends each entry from the slice, in order. It has no errors and does not allocate.
#[derive(Drop)]
pub struct LentEntries<'a, A: Allocator = Global> {
    rest: &'a [InternalValue<A>],
    current: Option<&'a InternalValue<A>>,
}

impl<'a, A: Allocator> Model for LentEntries<'a, A> {
    ghost use Rattle.std.specs.Option.{option_map};
    ghost use Rattle.lsm_runs.specs.LentSources.{EntriesLeft};

    ghost Value = { EntriesLeft };

    ghost view = { λ s. record { rest = s.rest.now; current = option_map (λ e. e.now) s.current } };
}

/// Returns a lending source of the entries of a slice.
pub fn lend_entries<'a, A: Allocator>(items: &'a [InternalValue<A>]) -> LentEntries<'a, A>
    // Nothing is lent yet.
    ensures none { ⟦<LentEntries<'a, A> as Lending>⟧.lent result ≡ None }
    ensures list { spec.YieldsList ⟦<LentEntries<'a, A> as Lending>⟧.advances spec.nowhere items.now
        result }
    // It may be called any number of times.
    ensures can { spec.CanLend ⟦<LentEntries<'a, A> as Lending>⟧.advances
        ⟦<LentEntries<'a, A> as Lending>⟧.can_advance result }
{
    LentEntries {
        rest: items,
        current: None,
    }
}

/// Returns a lending source of the entries of a slice whose keys are within both bounds.
///
/// The slice must be in order: keys ascending, the newest version of a key first, and no sequence
/// number twice for a key. Binary searches find the first and the last entry.
pub fn lend_entries_within<'a, A: Allocator>(
    items: &'a [InternalValue<A>],
    range: &(Bound<UserKey<A>>, Bound<UserKey<A>>),
) -> LentEntries<'a, A>
    // Nothing is lent yet.
    ensures none { ⟦<LentEntries<'a, A> as Lending>⟧.lent result ≡ None }
    ensures list { spec.IsStrict items.now →
        spec.YieldsList ⟦<LentEntries<'a, A> as Lending>⟧.advances spec.nowhere
        (spec.within range.now.0 range.now.1 items.now) result }
    // It may be called any number of times.
    ensures can { spec.CanLend ⟦<LentEntries<'a, A> as Lending>⟧.advances
        ⟦<LentEntries<'a, A> as Lending>⟧.can_advance result }
{
    let from = lower_place(items, &range.0);
    let to = upper_place(items, &range.1);
    lend_entries(&items[from..to.max(from)])
}

// The number of entries before a lower bound.
fn lower_place<A: Allocator>(items: &[InternalValue<A>], low: &Bound<UserKey<A>>) -> usize
    ensures exact { spec.IsStrict items.now → result ≡ spec.lower_place low.now items.now }
    ensures within { result ≤ length items.now }
{
    match low {
        Bound::Included(low) => count_below(items, low.as_slice()),
        Bound::Excluded(low) => count_up_to(items, low.as_slice()),
        Bound::Unbounded => 0,
    }
}

// The number of entries up to an upper bound.
fn upper_place<A: Allocator>(items: &[InternalValue<A>], high: &Bound<UserKey<A>>) -> usize
    ensures exact { spec.IsStrict items.now → result ≡ spec.upper_place high.now items.now }
    ensures within { result ≤ length items.now }
{
    match high {
        Bound::Included(high) => count_up_to(items, high.as_slice()),
        Bound::Excluded(high) => count_below(items, high.as_slice()),
        Bound::Unbounded => items.len(),
    }
}

// The number of entries with keys below a key.
fn count_below<A: Allocator>(items: &[InternalValue<A>], key: &[u8]) -> usize
    ensures exact { spec.IsStrict items.now →
        result ≡ spec.front_length (λ e. spec.key_lt e.user_key key.now) items.now }
    ensures within { result ≤ length items.now }
{
    items.partition_point(|item| item.key.user_key.as_slice().cmp(key).is_lt())
}

// The number of entries with keys not above a key.
fn count_up_to<A: Allocator>(items: &[InternalValue<A>], key: &[u8]) -> usize
    ensures exact { spec.IsStrict items.now →
        result ≡ spec.front_length (λ e. not (spec.key_lt key.now e.user_key)) items.now }
    ensures within { result ≤ length items.now }
{
    items.partition_point(|item| !key.cmp(item.key.user_key.as_slice()).is_lt())
}

impl<'a, A: Allocator> Lending for LentEntries<'a, A> {
    ghost can_advance = { λ s. Unit {0} };

    ghost advances = { spec.LendsFirst };

    ghost lent = { λ s. s.current };

    ghost left = { λ s. length s.rest };

    #[inline]
    fn advance(&mut self) -> Result<bool, Error> {
        let Some((first, rest)) = self.rest.split_first() else {
            self.current = None;
            return Ok(false);
        };
        self.current = Some(first);
        self.rest = rest;
        Ok(true)
    }

    #[inline(always)]
    fn entry(&self) -> Option<EntryRef<'_>> {
        match self.current {
            Some(item) => Some(item.as_entry_ref()),
            None => None,
        }
    }
}
