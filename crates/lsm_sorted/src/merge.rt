//! Merging several sorted sources.
ghost use Rattle.std.specs.Prelude.{◌≡◌, ℕ, ◌+◌, ◌*◌, ◌<◌, ◌≤◌, true, false, List, [], length, map};
ghost use Rattle.std.specs.Prelude.{All, IfOk, IfErr, IfSome, IfNone};
ghost use Rattle.lsm_sorted.specs.Words as spec;
ghost use Rattle.std.proofs.Common.{refl};

use crate::LazyTournament;
use crate::heap::ends::{AtBack, AtFront, End, Ends};
use crate::heap::words::compare_keys;
use sst_entries::{Direction, Error, InternalKey, InternalValue, IterItem, UserValue};
use std::alloc::{Allocator, Global};
use std::cmp::Ordering;

// An entry in the heap. On equal keys, entries of earlier sources come first. Entries of one source
// keep their order: the one from its front precedes the one from its back.
#[derive(Drop)]
struct HeapItem<A: Allocator> {
    // Key and value are laid out as in an `InternalValue`, so that an entry moves in one piece.
    key: InternalKey<A>,
    value: UserValue<A>,
    source: usize,
    end: Direction,
}

impl<A: Allocator> Ord for HeapItem<A> {
    ghost cmp = { spec.turn_cmp };

    ghost total = { spec.turn_total };

    ghost matches_partial_cmp = { λ x y. refl };

    ghost matches_eq = { λ x y. refl };

    #[inline(always)]
    fn cmp(&self, other: &HeapItem<A>) -> Ordering {
        match compare_keys(&self.key, &other.key) {
            Ordering::Equal => self
                .source
                .cmp(&other.source)
                .then(self.end.cmp(&other.end)),
            found => found,
        }
    }
}

impl<A: Allocator> PartialOrd for HeapItem<A> {
    ghost partial_cmp = { spec.as_partial_cmp spec.turn_cmp };

    ghost laws = { spec.partial_order_from_total spec.turn_total };

    fn partial_cmp(&self, other: &HeapItem<A>) -> Option<Ordering> {
        Some(self.cmp(other))
    }
}

impl<A: Allocator> PartialEq for HeapItem<A> {
    ghost eq = { spec.eq_by_cmp spec.turn_cmp };

    ghost laws = { spec.partial_equiv_from_equiv (spec.eq_by_cmp_equiv spec.turn_total) };

    fn eq(&self, other: &HeapItem<A>) -> bool {
        self.cmp(other).is_eq()
    }
}

impl<A: Allocator> Eq for HeapItem<A> {
    ghost laws = { spec.eq_by_cmp_equiv spec.turn_total };
}

impl<A: Allocator> HeapItem<A> {
    fn new(item: InternalValue<A>, source: usize, end: Direction) -> Self
        ensures entry { spec.entry_of result ≡ item }
        ensures source { result.source ≡ source }
        ensures end { result.end ≡ end }
    {
        HeapItem {
            key: item.key,
            value: item.value,
            source,
            end,
        }
    }

    fn into_item(self) -> InternalValue<A>
        ensures { result ≡ spec.entry_of self }
    {
        InternalValue {
            key: self.key,
            value: self.value,
        }
    }
}

// Drops an entry. Not inlined: a variable in which an entry may be dropped is moved in many small
// pieces.
#[cold]
#[inline(never)]
fn give_up<A: Allocator>(item: HeapItem<A>) {
    let _ = item;
}

/// An iterator that merges several sorted sources in order.
///
/// It is double-ended if the sources are. A call polls the sources at its own end only. Entries
/// with equal key, seqno and kind come in source order.
///
/// # Errors
///
/// If a source returns an error, the call that polled it returns that error. The entry taken in
/// that call is dropped. The merger is then exhausted at both ends.
#[derive(Drop)]
pub struct Merger<I, A: Allocator = Global> {
    sources: Vec<Ends<I>, A>,
    heap: LazyTournament<HeapItem<A>, A>,
    front_ready: bool,
    back_ready: bool,
    failed: bool,
}

fn fused<I: Iterator<Item = IterItem<A>>, A: Allocator>(
    alloc: A,
    iterators: Vec<I, A>,
) -> Result<Vec<Ends<I>, A>, Error>
    ensures ok { IfOk result (λ v. v.items ≡ map spec.new_ends iterators.items) }
    ensures err { IfErr result (λ e. e ≡ spec.OutOfMemory) }
{
    let sources = iterators
        .into_iter()
        .map(|iter| Ends { iter, done: false })
        .collect(alloc)?;
    Ok(sources)
}

impl<I: Iterator<Item = IterItem<A>>, A: Allocator + Clone> Merger<I, A> {
    /// Creates a merger of sources that each yield their entries in order.
    ///
    /// The call reserves two slots for each source, so no later step allocates. For calls at both
    /// ends, see [`from_both_ends`].
    ///
    /// # Errors
    ///
    /// [`Error::OutOfMemory`] only.
    pub fn new(alloc: A, iterators: Vec<I, A>) -> Result<Self, Error>
        ensures fresh { IfOk result (λ m. spec.IsMergerOf iterators.items m) }
        ensures places { IfOk result (λ m. m.heap.room ≡ 2 * length iterators.items) }
        // For sorted sources without errors, it yields their merged entries in order from the
        // front.
        ensures yields { IfOk result
            (λ m. spec.YieldsMerged I.next_gives spec.nowhere iterators.items
            ⟦<Merger<I, A> as Iterator>⟧.next_gives spec.nowhere m) }
        // With any errors, it yields the same until a call returns one.
        ensures before { IfOk result
            (λ m. spec.YieldsBeforeErrors I.next_gives spec.nowhere iterators.items
            ⟦<Merger<I, A> as Iterator>⟧.next_gives spec.nowhere m) }
        // With errors, it yields the same until a source returns one, and that call returns the
        // error.
        ensures until { IfOk result
            (λ m. spec.YieldsUntilError I.next_gives spec.nowhere iterators.items
            ⟦<Merger<I, A> as Iterator>⟧.next_gives spec.nowhere m) }
        // An error comes only after the entries before it in its source, except perhaps the last of
        // them.
        ensures late { IfOk result
            (λ m. spec.MeetsErrorsLate I.next_gives spec.nowhere iterators.items spec.Front
            ⟦<Merger<I, A> as Iterator>⟧.next_gives m) }
        // After an error it is exhausted, whatever the sources yield.
        ensures ends { IfOk result (λ m. spec.EndsAtError ⟦<Merger<I, A> as Iterator>⟧.next_gives
            spec.nowhere m) }
        // The merged list is a union of the lists. It is the only one if no two entries share key
        // and seqno.
        ensures union { IfOk result (λ _. (lists : List (List spec.R)) →
            spec.IsUnion lists (spec.union_of lists)) }
        ensures only { IfOk result (λ _. (lists : List (List spec.R)) (xs : List spec.Entry) →
            spec.IsUnion lists xs → spec.IsStrict xs → xs ≡ spec.union_of lists) }
        ensures can { IfOk result (λ m. spec.CanMergeForward I.next_gives I.can_next I.remaining
            iterators.items ⟦<Merger<I, A> as Iterator>⟧.next_gives
            ⟦<Merger<I, A> as Iterator>⟧.can_next m) }
        ensures few { IfOk result (λ m. spec.HoldsAtMost 1 ⟦<Merger<I, A> as Iterator>⟧.next_gives
            spec.nowhere m) }
        ensures err { IfErr result (λ e. e ≡ spec.OutOfMemory) }
    {
        let Some(places) = iterators.len().checked_mul(2) else {
            return Err(Error::OutOfMemory);
        };
        let heap = LazyTournament::with_capacity(alloc.clone()?, places)?;
        let sources = fused(alloc, iterators)?;
        Ok(Merger {
            sources,
            heap,
            front_ready: false,
            back_ready: false,
            failed: false,
        })
    }
}

/// States what a merger of double-ended sources yields, for calls at both ends in any order.
///
/// The call does nothing: its contract states the law.
pub fn from_both_ends<I: DoubleEndedIterator<Item = IterItem<A>>, A: Allocator>(
    merger: &Merger<I, A>,
)
    // For sorted sources without errors, it yields their merged entries in order.
    ensures yields { spec.OfItsSources (spec.YieldsMerged I.next_gives I.next_back_gives)
        ⟦<Merger<I, A> as Iterator>⟧.next_gives
        ⟦<Merger<I, A> as DoubleEndedIterator>⟧.next_back_gives merger.now }
    // With any errors, it yields the same until a call returns one.
    ensures before { spec.OfItsSources (spec.YieldsBeforeErrors I.next_gives I.next_back_gives)
        ⟦<Merger<I, A> as Iterator>⟧.next_gives
        ⟦<Merger<I, A> as DoubleEndedIterator>⟧.next_back_gives merger.now }
    // With errors, it yields the same until a source returns one, and that call returns the error.
    ensures until { spec.OfItsSources (spec.YieldsUntilError I.next_gives I.next_back_gives)
        ⟦<Merger<I, A> as Iterator>⟧.next_gives
        ⟦<Merger<I, A> as DoubleEndedIterator>⟧.next_back_gives merger.now }
    // With calls at the front only, an error comes after the entries before it in its source. The
    // last of them may be missing.
    ensures late { (its : List I) → spec.IsMergerOf its merger.now →
        spec.MeetsErrorsLate I.next_gives I.next_back_gives its spec.Front
        ⟦<Merger<I, A> as Iterator>⟧.next_gives merger.now }
    // With calls at the back only, an error comes after the entries that follow it in its source.
    // The first of them may be missing.
    ensures late_back { (its : List I) → spec.IsMergerOf its merger.now →
        spec.MeetsErrorsLate I.next_gives I.next_back_gives its spec.Back
        ⟦<Merger<I, A> as DoubleEndedIterator>⟧.next_back_gives merger.now }
    // After an error it is exhausted, whatever the sources yield.
    ensures ends { spec.EndsAtError ⟦<Merger<I, A> as Iterator>⟧.next_gives
        ⟦<Merger<I, A> as DoubleEndedIterator>⟧.next_back_gives merger.now }
    ensures can { (its : List I) → spec.IsMergerOf its merger.now →
        spec.CanMerge I.next_gives I.next_back_gives I.can_next I.can_next_back I.remaining its
        ⟦<Merger<I, A> as Iterator>⟧.next_gives
        ⟦<Merger<I, A> as DoubleEndedIterator>⟧.next_back_gives
        ⟦<Merger<I, A> as Iterator>⟧.can_next ⟦<Merger<I, A> as DoubleEndedIterator>⟧.can_next_back
        merger.now }
    ensures few { (its : List I) → spec.IsMergerOf its merger.now →
        spec.HoldsAtMost 2 ⟦<Merger<I, A> as Iterator>⟧.next_gives
        ⟦<Merger<I, A> as DoubleEndedIterator>⟧.next_back_gives merger.now }
{
    let _ = merger;
}

impl<I, A: Allocator> Merger<I, A> {
    // Whether the sources were polled at this end.
    fn is_ready(&self, end: Direction) -> bool
        ensures { result ≡ spec.is_ready end self.now }
    {
        match end {
            Direction::Front => self.front_ready,
            Direction::Back => self.back_ready,
        }
    }

    fn make_ready(&mut self, end: Direction)
        ensures { self.new ≡ spec.made_ready end self.old }
    {
        match end {
            Direction::Front => self.front_ready = true,
            Direction::Back => self.back_ready = true,
        }
    }

    // Removes the first entry of the heap, seen from an end.
    #[inline(always)]
    fn pop(&mut self, end: Direction) -> Option<HeapItem<A>>
        ensures none { IfNone result (spec.HoldsNone self.old self.new) }
        ensures some { IfSome result (λ h. spec.Pops end self.old h self.new) }
    {
        match end {
            Direction::Front => self.heap.pop_min(),
            Direction::Back => self.heap.pop_max(),
        }
    }

    // An error ends the merge for good.
    #[cold]
    #[inline(never)]
    fn fail(&mut self, error: Error) -> Option<IterItem<A>>
        ensures answer { result ≡ Some (Err error) }
        ensures state { self.new ≡ record self.old { failed = true } }
    {
        self.failed = true;
        Some(Err(error))
    }
}

impl<I: Iterator<Item = IterItem<A>>, A: Allocator> Merger<I, A> {
    // Moves the entry at an end of source `i` into the heap.
    #[inline(always)]
    fn take<E: End<I>>(&mut self, i: usize) -> Result<(), Error>
        requires place { i < length self.old.sources.items }
        requires goes { All (spec.Goes I.next_gives E.back_gives I.can_next E.can_back I.remaining)
            self.old.sources.items }
        requires space { length self.old.heap.items < self.old.heap.room }
        ensures goes { All (spec.Goes I.next_gives E.back_gives I.can_next E.can_back I.remaining)
            self.new.sources.items }
        ensures same { spec.SameRoom self.old self.new }
        ensures adds { spec.Adds E.end i self.old.heap.items self.new.heap.items }
        ensures lowers { spec.LowersTotal I.remaining self.old result self.new }
        ensures asks { spec.AsksSource (spec.Steps I.next_gives E.back_gives E.end) E.end i self.old
            result self.new }
    {
        let source = &mut self.sources[i];
        match source.ask::<E>() {
            Some(Ok(item)) => {
                self.heap.push(HeapItem::new(item, i, E::end()));
                Ok(())
            }
            Some(Err(error)) => Err(error),
            None => Ok(()),
        }
    }

    // Moves the entry at an end of each source into the heap.
    #[inline(never)]
    fn fill<E: End<I>>(&mut self) -> Result<(), Error>
        requires places { spec.HasPlaces I.next_gives E.back_gives I.can_next E.can_back I.remaining
            self.old }
        requires first { spec.is_ready E.end self.old ≡ false }
        ensures places { IfOk result (λ _.
            spec.HasPlaces I.next_gives E.back_gives I.can_next E.can_back I.remaining self.new) }
        ensures failed { self.new.failed ≡ self.old.failed }
        ensures lowers { spec.LowersTotal I.remaining self.old result self.new }
        ensures fills { spec.Fills (spec.Steps I.next_gives E.back_gives E.end) E.end self.old
            result self.new }
    {
        for i in 0..self.sources.len() {
            self.take::<E>(i)?;
        }
        self.make_ready(E::end());
        Ok(())
    }

    // Fills the heap, once for each end.
    #[inline(always)]
    fn fill_once<E: End<I>>(&mut self) -> Result<(), Error>
        requires { spec.HasPlaces I.next_gives E.back_gives I.can_next E.can_back I.remaining
            self.old }
        ensures places { IfOk result (λ _.
            spec.HasPlaces I.next_gives E.back_gives I.can_next E.can_back I.remaining self.new) }
        ensures failed { self.new.failed ≡ self.old.failed }
        ensures lowers { spec.LowersTotal I.remaining self.old result self.new }
        ensures fills { spec.Fills (spec.Steps I.next_gives E.back_gives E.end) E.end self.old
            result self.new }
    {
        if self.is_ready(E::end()) {
            return Ok(());
        }
        self.fill::<E>()
    }

    // The result of a call at an end: the first entry of all sources, seen from there. The next
    // entry of its source goes into the heap.
    #[inline(always)]
    fn call<E: End<I>>(&mut self) -> Option<IterItem<A>>
        requires { spec.MayMerge I.next_gives E.back_gives I.can_next E.can_back I.remaining
            self.old }
        ensures calls { spec.Calls (spec.Steps I.next_gives E.back_gives E.end) E.end
            (spec.MayMerge I.next_gives E.back_gives I.can_next E.can_back I.remaining) self.old
            result self.new }
        ensures goes { spec.MakesProgress
            (spec.MayMerge I.next_gives E.back_gives I.can_next E.can_back I.remaining)
            (λ m. spec.at_most (spec.merge_size I.remaining m)) self.old result self.new }
    {
        if self.failed {
            return None;
        }
        if let Err(error) = self.fill_once::<E>() {
            return self.fail(error);
        }
        let Some(lead) = self.pop(E::end()) else {
            return None;
        };
        match self.take::<E>(lead.source) {
            Ok(()) => Some(Ok(lead.into_item())),
            Err(error) => {
                give_up(lead);
                self.fail(error)
            }
        }
    }
}

impl<I: Iterator<Item = IterItem<A>>, A: Allocator> Iterator for Merger<I, A> {
    type Item = IterItem<A>;

    ghost can_next = { spec.MayMerge I.next_gives spec.nowhere I.can_next I.can_next I.remaining };

    ghost next_gives = { spec.Calls I.next_gives spec.Front
        (spec.MayMerge I.next_gives spec.nowhere I.can_next I.can_next I.remaining) };

    ghost remaining = { λ m. spec.at_most (spec.merge_size I.remaining m) };

    fn next(&mut self) -> Option<IterItem<A>> {
        self.call::<AtFront>()
    }
}

impl<I: DoubleEndedIterator<Item = IterItem<A>>, A: Allocator> DoubleEndedIterator
    for Merger<I, A> {
    ghost can_next_back = { spec.MayMerge I.next_gives I.next_back_gives I.can_next I.can_next_back
        I.remaining };

    ghost next_back_gives = { spec.Calls I.next_back_gives spec.Back
        (spec.MayMerge I.next_gives I.next_back_gives I.can_next I.can_next_back I.remaining) };

    fn next_back(&mut self) -> Option<IterItem<A>> {
        self.call::<AtBack>()
    }
}
