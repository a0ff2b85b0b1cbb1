//! The entries of a source below a seqno bound.
ghost use Rattle.std.specs.Prelude.{◌≡◌, IfErr, IfOk, None, OnErr, is_some, map, nat_lt};
ghost use Rattle.lsm_sorted.specs.Words as spec;

use crate::give_up::give_up;
use sst_entries::{EntryRef, Error, InternalValue, IterItem, Lending, SeqNo};
use std::alloc::Allocator;

fn is_below<A: Allocator>(entry: &InternalValue<A>, seqno: SeqNo) -> bool
    ensures { result ≡ nat_lt entry.now.seqno seqno }
{
    entry.key.seqno < seqno
}

/// An iterator over the entries of a source whose seqno is below a bound.
///
/// It is double-ended or a [`Lending`] if the source is. A step drops the entries before the one
/// that it yields. It passes on the source's errors and has none of its own.
#[derive(Drop)]
pub struct Below<I> {
    iter: I,
    seqno: SeqNo,
}

impl<I: Iterator<Item = IterItem<A>>, A: Allocator> Below<I> {
    /// Creates an iterator over the entries of a source whose seqno is below `seqno`.
    ///
    /// The call does not poll the source. For calls at both ends, see [`Below::from_both_ends`].
    pub fn new(iter: I, seqno: SeqNo) -> Self
        ensures of { result ≡ spec.below_of seqno iter }
        // For any list, up to an error that stops the source, it yields the entries below the bound
        // and the errors.
        ensures yields { spec.YieldsBelow I.next_gives spec.nowhere iter seqno
            ⟦<Below<I> as Iterator>⟧.next_gives spec.nowhere result }
        ensures can { spec.CanStepForward I.next_gives I.can_next I.remaining iter
            ⟦<Below<I> as Iterator>⟧.next_gives ⟦<Below<I> as Iterator>⟧.can_next result }
        // A `for` loop may iterate over it.
        ensures next { spec.CanYield I.next_gives spec.nowhere I.can_next I.can_next iter →
            spec.IsFinite (I.remaining iter) → ⟦<Below<I> as Iterator>⟧.can_next result }
    {
        Below { iter, seqno }
    }
}

impl<I: DoubleEndedIterator<Item = IterItem<A>>, A: Allocator> Below<I> {
    /// States what it yields for a double-ended source, for calls at both ends in any order.
    ///
    /// The call does nothing: its contract states the law.
    pub fn from_both_ends(&self)
        ensures yields { spec.YieldsItsBelow I.next_gives I.next_back_gives
            ⟦<Below<I> as Iterator>⟧.next_gives ⟦<Below<I> as DoubleEndedIterator>⟧.next_back_gives
            self.now }
        ensures can { (iter : I) (seqno : _) → self.now ≡ spec.below_of seqno iter →
            spec.CanStep I.next_gives I.next_back_gives iter ⟦<Below<I> as Iterator>⟧.next_gives
            ⟦<Below<I> as DoubleEndedIterator>⟧.next_back_gives self.now I.can_next I.can_next_back
            I.remaining ⟦<Below<I> as Iterator>⟧.can_next
            ⟦<Below<I> as DoubleEndedIterator>⟧.can_next_back }
        // A `for` loop may iterate over it, from the front or from the back.
        ensures next { spec.MayStartBelow I.next_gives I.next_back_gives I.can_next I.can_next_back
            I.remaining ⟦<Below<I> as Iterator>⟧.can_next self.now }
        ensures next_back { spec.MayStartBelow I.next_gives I.next_back_gives I.can_next
            I.can_next_back I.remaining ⟦<Below<I> as DoubleEndedIterator>⟧.can_next_back self.now }
    {}
}

// Whether the current entry of a source is below a bound; true if there is none.
#[inline]
fn is_low<L: Lending>(source: &L, seqno: SeqNo) -> bool
    ensures { result ≡ spec.lent_passes seqno (L.lent source.now) }
{
    match source.entry() {
        Some(entry) => entry.seqno < seqno,
        None => true,
    }
}

// Advances a source to its next entry below a bound.
#[inline]
fn advance_below<L: Lending>(source: &mut L, seqno: SeqNo) -> Result<bool, Error>
    requires { spec.CanYield L.advances spec.nowhere L.can_advance L.can_advance source.old }
    ensures goes { spec.LendsBelow L.advances L.can_advance L.left (spec.below_of seqno source.old)
        (spec.came result (L.lent source.new)) (spec.below_of seqno source.new) }
    ensures more { IfOk result (λ more. more ≡ is_some (L.lent source.new)) }
    ensures err { OnErr result (L.lent source.new ≡ None) }
    ensures low { spec.only_below seqno (L.lent source.new) ≡ L.lent source.new }
    ensures lowers { spec.Lowers (spec.came result (L.lent source.new)) (L.left source.old)
        (L.left source.new) }
{
    while source.advance()? {
        if is_low(source, seqno) {
            return Ok(true);
        }
    }
    Ok(false)
}

impl<L: Lending> Below<L> {
    /// Creates a lending iterator over the entries of a source whose seqno is below `seqno`.
    ///
    /// The source is not advanced yet.
    pub fn lending(source: L, seqno: SeqNo) -> Self
        ensures of { result ≡ spec.below_of seqno source }
        // The current entry of the source stays current if it is below the bound. So no other entry
        // is ever current.
        ensures lent { ⟦<Below<L> as Lending>⟧.lent result ≡ spec.only_below seqno (L.lent source) }
        // For any list, up to an error that stops the source, it yields the entries below the bound
        // and the errors.
        ensures yields { spec.YieldsBelow L.advances spec.nowhere source seqno
            ⟦<Below<L> as Lending>⟧.advances spec.nowhere result }
        // It can be advanced as often as the source can.
        ensures can { spec.CanAdvance L.advances L.can_advance source →
            spec.CanAdvance ⟦<Below<L> as Lending>⟧.advances ⟦<Below<L> as Lending>⟧.can_advance
            result }
        ensures advance { spec.CanYield L.advances spec.nowhere L.can_advance L.can_advance source →
            ⟦<Below<L> as Lending>⟧.can_advance result }
    {
        Below {
            iter: source,
            seqno,
        }
    }
}

impl<L: Lending> Lending for Below<L> {
    ghost can_advance = { spec.MayLendBelow L.advances L.can_advance L.left };

    ghost advances = { spec.LendsBelow L.advances L.can_advance L.left };

    ghost lent = { spec.lent_below L.lent };

    ghost left = { λ b. L.left b.iter };

    #[inline]
    fn advance(&mut self) -> Result<bool, Error> {
        advance_below(&mut self.iter, self.seqno)
    }

    #[inline(always)]
    fn entry(&self) -> Option<EntryRef<'_>> {
        match self.iter.entry() {
            Some(entry) if entry.seqno < self.seqno => Some(entry),
            _ => None,
        }
    }
}

/// Limits each of several sources to the entries below one bound.
///
/// # Errors
///
/// [`Error::OutOfMemory`] only.
pub fn each_below<I: Drop, A: Allocator>(
    alloc: A,
    iterators: Vec<I, A>,
    seqno: SeqNo,
) -> Result<Vec<Below<I>, A>, Error>
    ensures of { IfOk result (λ v. v.items ≡ map (spec.below_of seqno) iterators.items) }
    ensures err { IfErr result (λ e. e ≡ spec.OutOfMemory) }
{
    let sources = iterators
        .into_iter()
        .map(|iter| Below { iter, seqno })
        .collect(alloc)?;
    Ok(sources)
}

impl<I: Iterator<Item = IterItem<A>>, A: Allocator> Iterator for Below<I> {
    type Item = IterItem<A>;

    ghost can_next = { spec.MayAsk I.next_gives spec.nowhere I.can_next I.can_next I.remaining };

    ghost next_gives = { spec.GivesBelow
        (spec.MayAsk I.next_gives spec.nowhere I.can_next I.can_next I.remaining) I.next_gives };

    ghost remaining = { λ s. I.remaining s.iter };

    fn next(&mut self) -> Option<IterItem<A>> {
        loop {
            match self.iter.next() {
                Some(Ok(entry)) => {
                    if is_below(&entry, self.seqno) {
                        return Some(Ok(entry));
                    }
                    give_up(entry);
                }
                Some(Err(error)) => return Some(Err(error)),
                None => return None,
            }
        }
    }
}

impl<I: DoubleEndedIterator<Item = IterItem<A>>, A: Allocator> DoubleEndedIterator for Below<I> {
    ghost can_next_back = { spec.MayAsk I.next_gives I.next_back_gives I.can_next I.can_next_back
        I.remaining };

    ghost next_back_gives = { spec.GivesBelow (spec.MayAsk I.next_gives I.next_back_gives I.can_next
        I.can_next_back I.remaining) I.next_back_gives };

    fn next_back(&mut self) -> Option<IterItem<A>> {
        loop {
            match self.iter.next_back() {
                Some(Ok(entry)) => {
                    if is_below(&entry, self.seqno) {
                        return Some(Ok(entry));
                    }
                    give_up(entry);
                }
                Some(Err(error)) => return Some(Err(error)),
                None => return None,
            }
        }
    }
}
