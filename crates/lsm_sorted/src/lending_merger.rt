//! Merging several sorted lending sources.
ghost use Rattle.std.specs.Prelude.{◌≡◌, ℕ, ◌+◌, ◌<◌, ◌≤◌, true, false, [], length, All, IfOk};
ghost use Rattle.std.specs.Prelude.{Bool, IfErr, IsOk, Some, None};
ghost use Rattle.lsm_sorted.specs.Words as spec;

use crate::compare_refs;
use sst_entries::{EntryRef, Error, Lending};
use std::alloc::{Allocator, Global};
use std::cmp::Ordering;

/// A lending iterator that merges several sorted lending sources in order.
///
/// Entries with equal key, seqno and kind come in source order. Entries are neither moved nor
/// shared. A comparison uses copies of the first 16 bytes of both keys, and reads the entries only
/// if these are equal. The first [`Lending::advance`] advances each source. Each later one advances
/// only the source of the current entry.
///
/// # Errors
///
/// `advance` fails with the error of a source that it advances. So an error comes right after the
/// entry that precedes it in its source. The merger is then exhausted.
#[derive(Drop)]
pub struct LendingMerger<L, A: Allocator = Global> {
    sources: Vec<L, A>,
    // One head for each source with a current entry. The head of the first entry is the last
    // element. While its source stays ahead, it is popped and pushed back without a move.
    queue: Vec<Head, A>,
    is_started: bool,
    // Whether the source that was advanced last stayed ahead of all others.
    stayed_ahead: bool,
}

// A source with a current entry, by its index, and the prefix of that entry's key. Two different
// prefixes order their heads without reading the entries.
#[derive(Clone, Copy)]
struct Head {
    prefix: u128,
    source: usize,
}

// The first 16 bytes of a key as a big-endian number, padded with zeros. Eight bytes would decide
// less: keys that count up often share the first eight.
#[inline(always)]
fn prefix_of(key: &[u8]) -> u128
    ensures { spec.IsPrefix result key.now }
{
    match key.first_chunk::<16>() {
        Some(bytes) => u128::from_be_bytes(*bytes),
        None => short_prefix(key),
    }
}

// The prefix of a key of fewer than 16 bytes, padded with zeros.
fn short_prefix(key: &[u8]) -> u128
    requires { length key.now < 16 }
    ensures { spec.IsPrefix result key.now }
{
    let mut bytes = [0; 16];
    bytes[..key.len()].copy_from_slice(key);
    u128::from_be_bytes(bytes)
}

// Whether an entry comes before another: by key, seqno and kind, then by source index.
#[inline(always)]
fn is_before(entry: &EntryRef<'_>, place: usize, other: &EntryRef<'_>, other_place: usize) -> bool
    ensures { result ≡ spec.is_turn (spec.entry_of_ref entry.now) place
        (spec.entry_of_ref other.now) other_place }
{
    match compare_refs(entry, other) {
        Ordering::Equal => place < other_place,
        found => found.is_lt(),
    }
}

impl<L: Lending + Drop, A: Allocator> LendingMerger<L, A> {
    /// Creates a merger of sources that each yield their entries in order.
    ///
    /// The call reserves a slot for each source, so no later step allocates.
    ///
    /// # Errors
    ///
    /// [`Error::OutOfMemory`] only.
    pub fn new(alloc: A, sources: Vec<L, A>) -> Result<Self, Error>
        // It has no current entry yet.
        ensures none { IfOk result (λ m. ⟦<LendingMerger<L, A> as Lending>⟧.lent m ≡ None) }
        // For sorted sources without errors, it yields their merged entries in order.
        ensures yields { IfOk result (λ m. spec.YieldsMerged L.advances spec.nowhere sources.items
            ⟦<LendingMerger<L, A> as Lending>⟧.advances spec.nowhere m) }
        // With errors, it yields the same up to the first one, which directly follows the entry
        // before it in its source.
        ensures places { IfOk result (λ m. spec.YieldsInPlace L.advances spec.nowhere sources.items
            ⟦<LendingMerger<L, A> as Lending>⟧.advances spec.nowhere m) }
        // After an error it is exhausted, whatever the sources yield.
        ensures ends { IfOk result (λ m. spec.EndsAtError
            ⟦<LendingMerger<L, A> as Lending>⟧.advances spec.nowhere m) }
        // It can be advanced as often as its sources can.
        ensures can { All (spec.CanAdvance L.advances L.can_advance) sources.items →
            IfOk result (spec.CanAdvance ⟦<LendingMerger<L, A> as Lending>⟧.advances
            ⟦<LendingMerger<L, A> as Lending>⟧.can_advance) }
        ensures advance { All (spec.CanYield L.advances spec.nowhere L.can_advance L.can_advance)
            sources.items → IfOk result ⟦<LendingMerger<L, A> as Lending>⟧.can_advance }
        ensures err { IfErr result (λ e. e ≡ spec.OutOfMemory) }
    {
        let queue = Vec::with_capacity(alloc, sources.len())?;
        Ok(LendingMerger {
            sources,
            queue,
            is_started: false,
            stayed_ahead: false,
        })
    }
}

impl<L: Lending, A: Allocator> LendingMerger<L, A> {
    // The current entry of a source.
    #[inline(always)]
    fn lent_by(&self, source: usize) -> Option<EntryRef<'_>>
        ensures { spec.option_map spec.entry_of_ref result ≡
            spec.lent_of L.lent self.now.sources.items source }
    {
        match self.sources.get(source) {
            Some(lender) => lender.entry(),
            None => None,
        }
    }

    // Whether an entry of one source comes before the current entry of another. Called only if the
    // prefixes are equal. It is not inlined, so that the calling search stays short.
    #[inline(never)]
    fn comes_before(&self, entry: &EntryRef<'_>, source: usize, other: usize) -> bool
        ensures { result ≡ spec.goes_before (Some (spec.entry_of_ref entry.now)) source
            (spec.lent_of L.lent self.now.sources.items other) other }
    {
        match self.lent_by(other) {
            Some(other_entry) => is_before(entry, source, &other_entry, other),
            None => false,
        }
    }

    // Whether the entry of one head comes before that of another. The other entry is read only if
    // the prefixes are equal.
    #[inline(always)]
    fn is_ahead(&self, entry: &EntryRef<'_>, head: Head, other: Head) -> bool
        ensures { result ≡ spec.sorts_before (Some (spec.entry_of_ref entry.now)) head
            (spec.lent_of L.lent self.now.sources.items other.source) other }
    {
        if head.prefix == other.prefix {
            return self.comes_before(entry, head.source, other.source);
        }
        head.prefix < other.prefix
    }

    // The index at which to insert a head into a queue without its source.
    #[inline(always)]
    fn index_of(&self, entry: &EntryRef<'_>, head: Head) -> usize
        requires heads { All (spec.IsHead (spec.lent_of L.lent self.now.sources.items))
            self.now.queue.items }
        requires head { spec.IsHead (spec.lent_of L.lent self.now.sources.items) head }
        requires entry { spec.lent_of L.lent self.now.sources.items head.source ≡
            Some (spec.entry_of_ref entry.now) }
        ensures within { result ≤ length self.now.queue.items }
        ensures belongs { spec.Belongs (spec.lent_of L.lent self.now.sources.items) head.source
            (spec.queued self.now) result }
    {
        match self.queue.last() {
            // One comparison while a source stays ahead for long. If sources take turns, it would
            // mostly be wasted.
            Some(&next) if self.stayed_ahead && self.is_ahead(entry, head, next) => {
                self.queue.len()
            }
            _ => self
                .queue
                .partition_point(|&other| self.is_ahead(entry, head, other)),
        }
    }

    // The head of a source with a current entry, and the index at which to insert it into a queue
    // without that source.
    fn head_of(&self, source: usize) -> (usize, Head)
        requires heads { All (spec.IsHead (spec.lent_of L.lent self.now.sources.items))
            self.now.queue.items }
        ensures within { result.0 ≤ length self.now.queue.items }
        ensures source { result.1.source ≡ source }
        ensures head { spec.IsHead (spec.lent_of L.lent self.now.sources.items) result.1 }
        ensures belongs { spec.Belongs (spec.lent_of L.lent self.now.sources.items) source
            (spec.queued self.now) result.0 }
    {
        let Some(entry) = self.lent_by(source) else {
            return (0, Head { prefix: 0, source });
        };
        let prefix = prefix_of(entry.user_key);
        let head = Head { prefix, source };
        (self.index_of(&entry, head), head)
    }

    // Advances a source that is not in the queue. If it has an entry, its head is inserted into the
    // queue.
    fn go_on(&mut self, source: usize) -> Result<(), Error>
        requires place { source < length self.old.sources.items }
        requires ready { spec.IsReady L.advances L.can_advance L.lent self.old }
        requires apart { spec.is_queued source (spec.queued self.old) ≡ false }
        requires space { length self.old.queue.items < spec.vec_capacity self.old.queue }
        ensures ready { spec.IsReady L.advances L.can_advance L.lent self.new }
        ensures count { length self.new.sources.items ≡ length self.old.sources.items }
        ensures same { self.new.is_started ≡ self.old.is_started }
        ensures few { length self.new.queue.items ≤ length self.old.queue.items + 1 }
        ensures known { (bound : ℕ) → source < bound →
            All (λ q. q < bound) (spec.queued self.old) →
            All (λ q. q < bound) (spec.queued self.new) }
        ensures lowers { IfOk result (λ _.
            spec.lent_total L.left self.new ≤ spec.lent_total L.left self.old) }
        ensures goes { (stops : spec.Error → Bool) →
            spec.AsksOne stops L.advances L.lent source self.old result self.new }
    {
        if self.sources[source].advance()? {
            let (index, head) = self.head_of(source);
            self.stayed_ahead = index == self.queue.len();
            // The queue has capacity for each source.
            let _ = self.queue.insert(index, head);
        }
        Ok(())
    }

    // Advances each source to its first entry.
    #[inline(never)]
    fn start(&mut self) -> Result<(), Error>
        requires ready { spec.IsReady L.advances L.can_advance L.lent self.old }
        requires fresh { self.old.queue.items ≡ [] }
        ensures ready { spec.IsReady L.advances L.can_advance L.lent self.new }
        ensures same { self.new.is_started ≡ self.old.is_started }
        ensures lowers { IfOk result (λ _.
            spec.lent_total L.left self.new ≤ spec.lent_total L.left self.old) }
        ensures starts { (stops : spec.Error → Bool) →
            spec.StartsLent stops L.advances L.lent self.old result self.new }
    {
        for source in 0..self.sources.len() {
            self.go_on(source)?;
        }
        Ok(())
    }

    // Advances the source of the current entry, and in the first call all sources.
    #[inline(always)]
    fn step(&mut self) -> Result<(), Error>
        requires { spec.MayLend L.advances L.can_advance L.lent self.old }
        ensures ready { spec.IsReady L.advances L.can_advance L.lent self.new }
        ensures started { self.new.is_started ≡ true }
        ensures lowers { IfOk result (λ _. spec.StepLowers L.left self.old self.new) }
        ensures over { spec.LendsNoMore self.old → IsOk result × spec.LendsNoMore self.new }
        ensures fault { IfErr result (λ _. 0 < spec.lent_size L.left self.old) }
        ensures steps { (stops : spec.Error → Bool) →
            spec.StepsOn stops L.advances L.lent self.old result self.new }
    {
        if !self.is_started {
            self.is_started = true;
            return self.start();
        }
        match self.queue.pop() {
            Some(head) => self.go_on(head.source),
            None => Ok(()),
        }
    }
}

impl<L: Lending, A: Allocator> Lending for LendingMerger<L, A> {
    ghost can_advance = { spec.MayLend L.advances L.can_advance L.lent };

    ghost advances = { spec.AdvancesLent L.advances L.can_advance L.lent };

    ghost lent = { spec.lent_first L.lent };

    ghost left = { spec.lent_size L.left };

    fn advance(&mut self) -> Result<bool, Error> {
        match self.step() {
            Ok(()) => Ok(!self.queue.is_empty()),
            Err(error) => {
                self.queue.clear();
                Err(error)
            }
        }
    }

    #[inline]
    fn entry(&self) -> Option<EntryRef<'_>> {
        match self.queue.last() {
            Some(head) => self.lent_by(head.source),
            None => None,
        }
    }
}
