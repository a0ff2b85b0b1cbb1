//! Compaction by reference: entries are borrowed, and versions and tombstones that no reader needs
//! are dropped.
ghost use Rattle.std.specs.Prelude.{◌≡◌, ◌<◌, ◌≤◌, ◌&&◌, true, false, cond, if◌then◌else◌};
ghost use Rattle.std.specs.Prelude.{Bool, List, Result, nat_lt};
ghost use Rattle.std.specs.Prelude.{IfErr, IfOk, IsSome, None, Ok, OnErr, Some, is_some};
ghost use Rattle.lsm_sorted.specs.Words as spec;

use crate::compaction::Rules;
use crate::compaction::stream::{NoCallback, NoFilter, StreamFilterVerdict};
use sst_entries::{EntryRef, Error, Lending, SeqNo, ValueType};
use std::alloc::{Allocator, Global};

/// A filter that may change or drop borrowed entries during a compaction.
///
/// The compaction calls it for each entry that is neither a tombstone nor hidden by a newer
/// version.
pub trait LentFilter<A: Allocator> {
    // `gives f x v g`: filter `f` returns `v` for entry `x` and becomes `g`.
    ghost gives: { Self → spec.Entry → Result spec.Verdict spec.Error → Self → Type 0 };

    /// Returns the verdict on an entry.
    ///
    /// # Errors
    ///
    /// The compaction passes on any error.
    fn filter_ref(&mut self, entry: &EntryRef<'_>) -> Result<StreamFilterVerdict<A>, Error>
        ensures { gives self.old (spec.entry_of_ref entry.now) (spec.said result) self.new };
}

/// A callback that receives, borrowed, the entries that a compaction removes or changes.
///
/// These are the entries that the filter drops or replaces, and the older versions that a newer one
/// hides. Tombstones that the compaction itself drops are not reported.
pub trait LentCallback {
    // `gets c x d`: callback `c` receives entry `x` and becomes `d`.
    ghost gets: { Self → spec.Entry → Self → Type 0 };

    /// Receives an entry as it was before the filter.
    fn on_dropped_ref(&mut self, kv: &EntryRef<'_>)
        ensures { gets self.old (spec.entry_of_ref kv.now) self.new };
}

impl<A: Allocator> LentFilter<A> for NoFilter {
    ghost gives = { λ f x v g. v ≡ Ok spec.keep };

    fn filter_ref(&mut self, _entry: &EntryRef<'_>) -> Result<StreamFilterVerdict<A>, Error> {
        Ok(StreamFilterVerdict::Keep)
    }
}

impl LentCallback for NoCallback {
    ghost gets = { λ c x d. Unit {0} };

    fn on_dropped_ref(&mut self, _kv: &EntryRef<'_>) {}
}

// The source of the current entry.
#[derive(Clone, Copy)]
enum Lends {
    // There is no current entry.
    Nothing,
    // It is borrowed from the source.
    Source,
    // Its key and value are in the buffers; it has this seqno and kind.
    Held(SeqNo, ValueType),
}

/// A lending iterator over the entries of a source that a compaction keeps.
///
/// The source must yield its entries in order. The rules are those of
/// [`CompactionStream`](crate::compaction::stream::CompactionStream). The newest version of a key
/// below the watermark hides the older ones. Tombstones may be dropped, and seqnos may become 0.
///
/// A filter may change or drop each entry that is neither a tombstone nor hidden. An entry that it
/// drops hides nothing. A callback receives each entry that the filter drops or changes, and each
/// hidden entry. It receives them as they were before the filter, when the compaction passes them.
///
/// Most entries are borrowed from the source, before it is advanced. Two kinds wait for the entry
/// that follows:
///
/// - a weak tombstone below the watermark;
/// - a tombstone at or above the watermark, if tombstones are evicted.
///
/// They are copied into two buffers, for key and value. So is an entry that the filter changes. The
/// key buffer also holds the key of an entry below the watermark, whose older versions are hidden.
/// Both buffers are reused, so memory is allocated only to grow them.
///
/// # Errors
///
/// An error of the source or the filter is passed on in order. An error of the source replaces an
/// entry that waits, and ends the hiding of older versions. If a buffer cannot grow, `advance`
/// fails with [`Error::OutOfMemory`] in place of the entry. The compaction is then exhausted.
#[derive(Drop)]
pub struct LendingCompaction<L, F = NoFilter, C = NoCallback, A: Allocator = Global> {
    source: L,
    rules: Rules,
    filter: F,
    callback: C,
    // The key of the last kept entry, and its value if it waited or was changed.
    key: Vec<u8, A>,
    value: Vec<u8, A>,
    lends: Lends,
    // Whether the next versions of the key are hidden.
    hides: bool,
    // Whether the source's current entry is still to be processed.
    is_pending: bool,
    is_over: bool,
}

// Whether the next entry decides if this one stays.
#[inline(always)]
fn has_to_wait(rules: &Rules, entry: &EntryRef<'_>) -> bool
    ensures { result ≡ spec.has_to_wait rules.now (spec.entry_of_ref entry.now) }
{
    if entry.seqno < rules.watermark {
        entry.value_type == ValueType::WeakTombstone
    } else {
        rules.evict && entry.is_tombstone()
    }
}

// Whether an entry that need not wait is dropped.
#[inline(always)]
fn goes_at_once(rules: &Rules, entry: &EntryRef<'_>) -> bool
    ensures { result ≡ (rules.now.evict && spec.is_tombstone_kind
        (spec.entry_of_ref entry.now).kind) }
{
    rules.evict && entry.is_tombstone()
}

// A seqno as it is yielded.
#[inline(always)]
fn zeroed(rules: &Rules, seqno: SeqNo) -> SeqNo
    ensures { result ≡
        (if rules.now.zeroing && nat_lt seqno rules.now.watermark then 0 else seqno) }
{
    if rules.zeroing && seqno < rules.watermark {
        0
    } else {
        seqno
    }
}

// Replaces the contents of a buffer.
#[inline(always)]
fn remember<A: Allocator>(buffer: &mut Vec<u8, A>, bytes: &[u8]) -> Result<(), Error>
    ensures bytes { IfOk result (λ _. buffer.new.items ≡ bytes.now) }
    ensures err { IfErr result (λ e. e ≡ spec.OutOfMemory) }
{
    buffer.clear();
    buffer.extend_from_slice(bytes)?;
    Ok(())
}

#[inline(always)]
fn is_version<A: Allocator>(key: &Vec<u8, A>, entry: &EntryRef<'_>) -> bool
    ensures { result ≡ spec.same_key (spec.entry_of_ref entry.now).user_key key.now.items }
{
    entry.user_key == key.as_slice()
}

// Whether an entry is hidden.
#[inline(always)]
fn is_given<A: Allocator>(hides: bool, key: &Vec<u8, A>, entry: &EntryRef<'_>) -> bool
    ensures { result ≡
        spec.is_given (cond hides (Some key.now.items) None) (spec.entry_of_ref entry.now) }
{
    hides && is_version(key, entry)
}

#[inline(always)]
fn is_value(kind: ValueType) -> bool
    ensures { result ≡ spec.is_value kind }
{
    matches!(kind, ValueType::Value)
}

// The filter's verdict on an entry. A tombstone is kept without a call. An entry that the filter
// changes or drops is reported.
#[inline(always)]
fn ask<F: LentFilter<A>, C: LentCallback, A: Allocator>(
    filter: &mut F,
    callback: &mut C,
    entry: &EntryRef<'_>,
) -> Result<StreamFilterVerdict<A>, Error>
    ensures asks { spec.Asks F.gives filter.old (spec.entry_of_ref entry.now) (spec.said result)
        filter.new }
    ensures reports { spec.GetsAll C.gets callback.old
        (spec.reports_by (spec.entry_of_ref entry.now) (spec.said result)) callback.new }
{
    if entry.is_tombstone() {
        return Ok(StreamFilterVerdict::Keep);
    }
    let verdict = filter.filter_ref(entry)?;
    if !matches!(verdict, StreamFilterVerdict::Keep) {
        callback.on_dropped_ref(entry);
    }
    Ok(verdict)
}

impl<L: Lending, A: Allocator> LendingCompaction<L, NoFilter, NoCallback, A> {
    /// Creates a compaction of the source's remaining entries, without a filter and a callback.
    ///
    /// The call does not advance the source.
    ///
    /// # Errors
    ///
    /// [`Error::OutOfMemory`] if the allocator cannot be cloned for the second buffer.
    pub fn new(alloc: A, source: L, rules: Rules) -> Result<Self, Error>
    where
        L: Drop,
        A: Clone,
        // It has no current entry yet.
        ensures none { IfOk result (λ c. ⟦<LendingCompaction<L, NoFilter, NoCallback, A> as Lending>⟧.lent c ≡ None) }
        // For a list without errors, it yields the entries that a compaction keeps.
        ensures kept { IfOk result (λ c. spec.YieldsCompactedEntries L.advances source
            ⟦<LendingCompaction<L, NoFilter, NoCallback, A> as Lending>⟧.advances c rules) }
        // With errors, it yields the entries kept between them, and each error in order.
        ensures places { IfOk result (λ c. spec.YieldsCompactedResults L.advances source
            ⟦<LendingCompaction<L, NoFilter, NoCallback, A> as Lending>⟧.advances c rules) }
        // For any source, it passes on each error. Its only error of its own is `OutOfMemory`.
        ensures faults { IfOk result
            (spec.AlwaysReports spec.PassesAll L.advances source spec.lender
            ⟦<LendingCompaction<L, NoFilter, NoCallback, A> as Lending>⟧.advances) }
        // After its own `OutOfMemory` it is exhausted. After the end it advances the source again,
        // and yields nothing while the source yields nothing.
        ensures over { IfOk result (spec.AlwaysReports spec.StaysOver L.advances source spec.lender
            ⟦<LendingCompaction<L, NoFilter, NoCallback, A> as Lending>⟧.advances) }
        // It can be advanced as often as the source can.
        ensures can { spec.CanYield L.advances spec.nowhere L.can_advance L.can_advance source →
            IfOk result (spec.CanYield
            ⟦<LendingCompaction<L, NoFilter, NoCallback, A> as Lending>⟧.advances spec.nowhere
            ⟦<LendingCompaction<L, NoFilter, NoCallback, A> as Lending>⟧.can_advance
            ⟦<LendingCompaction<L, NoFilter, NoCallback, A> as Lending>⟧.can_advance) }
        ensures advance { spec.CanYield L.advances spec.nowhere L.can_advance L.can_advance source →
            IfOk result ⟦<LendingCompaction<L, NoFilter, NoCallback, A> as Lending>⟧.can_advance }
        ensures err { IfErr result (λ e. e ≡ spec.OutOfMemory) }
    {
        Self::fresh(alloc, source, rules, NoFilter, NoCallback)
    }
}

impl<L: Lending, F: LentFilter<A> + Drop, C: LentCallback + Drop, A: Allocator> LendingCompaction<
    L,
    F,
    C,
    A,
> {
    /// Creates a compaction of the source's remaining entries, with a filter and a callback.
    ///
    /// The call does not advance the source, and calls neither the filter nor the callback.
    ///
    /// # Errors
    ///
    /// [`Error::OutOfMemory`] if the allocator cannot be cloned for the second buffer.
    pub fn with(alloc: A, source: L, rules: Rules, filter: F, callback: C) -> Result<Self, Error>
    where
        L: Drop,
        A: Clone,
        // It has no current entry yet.
        ensures none { IfOk result (λ c.
            ⟦<LendingCompaction<L, F, C, A> as Lending>⟧.lent c ≡ None) }
        // For a list without errors, it yields, filters and reports as a compaction does.
        ensures whole { IfOk result (λ s. spec.CompactsLent L.advances source
            ⟦<LendingCompaction<L, F, C, A> as Lending>⟧.advances s rules F.gives C.gets
            filter callback spec.lent_filter spec.lent_callback) }
        // With errors, the same between them, and each error in order.
        ensures places { IfOk result (λ s. spec.CompactsLentResults L.advances source
            ⟦<LendingCompaction<L, F, C, A> as Lending>⟧.advances s rules F.gives C.gets
            filter callback spec.lender spec.lent_filter spec.lent_callback) }
        // For any source, it passes on each error. Its only other errors are the filter's and its
        // own `OutOfMemory`.
        ensures faults { IfOk result
            (spec.AlwaysReports (spec.PassesAllOr (spec.FilterSays F.gives)) L.advances
            source spec.lender ⟦<LendingCompaction<L, F, C, A> as Lending>⟧.advances) }
        // After its own `OutOfMemory` it is exhausted; this is stated for filters that never return
        // `OutOfMemory`. After the end it advances the source again, and yields nothing while the
        // source yields nothing.
        ensures over { IfOk result (spec.AlwaysReports (spec.StaysOverOr (spec.FilterSays F.gives))
            L.advances source spec.lender ⟦<LendingCompaction<L, F, C, A> as Lending>⟧.advances) }
        // It can be advanced as often as the source can.
        ensures can { spec.CanYield L.advances spec.nowhere L.can_advance L.can_advance source →
            IfOk result (spec.CanYield ⟦<LendingCompaction<L, F, C, A> as Lending>⟧.advances
            spec.nowhere ⟦<LendingCompaction<L, F, C, A> as Lending>⟧.can_advance
            ⟦<LendingCompaction<L, F, C, A> as Lending>⟧.can_advance) }
        ensures advance { spec.CanYield L.advances spec.nowhere L.can_advance L.can_advance source →
            IfOk result ⟦<LendingCompaction<L, F, C, A> as Lending>⟧.can_advance }
        ensures err { IfErr result (λ e. e ≡ spec.OutOfMemory) }
    {
        Self::fresh(alloc, source, rules, filter, callback)
    }

    // A compaction before its first call.
    fn fresh(alloc: A, source: L, rules: Rules, filter: F, callback: C) -> Result<Self, Error>
    where
        L: Drop,
        A: Clone,
        ensures fresh { IfOk result (λ s. s ≡ spec.fresh_of source rules filter callback s) }
        ensures err { IfErr result (λ e. e ≡ spec.OutOfMemory) }
    {
        let key = Vec::new(alloc.clone()?);
        Ok(LendingCompaction {
            source,
            rules,
            filter,
            callback,
            key,
            value: Vec::new(alloc),
            lends: Lends::Nothing,
            hides: false,
            is_pending: false,
            is_over: false,
        })
    }

    /// Returns the callback.
    pub fn callback(&self) -> &C
        ensures { result.now ≡ spec.lent_callback self.now }
    {
        &self.callback
    }

    /// Drops the compaction and returns the callback.
    pub fn into_callback(self) -> C
    where
        L: Drop,
        ensures { result ≡ spec.lent_callback self }
    {
        self.callback
    }

    // Ensures that an entry is pending, and returns whether there is one.
    #[inline(always)]
    fn fetch(&mut self) -> Result<bool, Error>
        requires may { spec.MayLendCompacted L.advances L.can_advance self.old }
        requires live { self.old.is_over ≡ false }
        ensures may { spec.MayLendCompacted L.advances L.can_advance self.new }
        ensures fetches { spec.FetchesCompacted F.gives C.gets L.advances L.lent self.old
            (spec.failure result) self.new }
        ensures over { self.new.is_over ≡ self.old.is_over }
        ensures lends { self.new.lends ≡ self.old.lends }
        ensures pending { IfOk result (λ more. self.new.is_pending ≡ more) }
        ensures ends { IfOk result (λ more. more ≡ false →
            spec.compacted_left L.left self.new ≡ 0) }
        ensures rests { OnErr result (self.new.is_pending ≡ false) }
        ensures few { IfOk result (λ _.
            spec.compacted_left L.left self.new ≤ spec.compacted_left L.left self.old) }
        ensures fewer { IfErr result (λ _.
            spec.compacted_left L.left self.new < spec.compacted_left L.left self.old) }
    {
        if self.is_pending {
            return Ok(true);
        }
        match self.source.advance() {
            Ok(more) => {
                self.is_pending = more;
                Ok(more)
            }
            Err(error) => {
                self.hides = false;
                Err(error)
            }
        }
    }

    // Advances the source after a head whose key is in the buffer. Returns whether the head is
    // dropped.
    fn lets_go(&mut self, seqno: SeqNo) -> Result<bool, Error>
        requires may { spec.MayLendCompacted L.advances L.can_advance self.old }
        requires live { self.old.is_over ≡ false }
        requires pending { self.old.is_pending ≡ false }
        requires hides { self.old.hides ≡ false }
        ensures may { spec.MayLendCompacted L.advances L.can_advance self.new }
        ensures rules { self.new.rules ≡ self.old.rules }
        ensures over { self.new.is_over ≡ self.old.is_over }
        ensures lends { self.new.lends ≡ self.old.lends }
        ensures key { self.new.key ≡ self.old.key }
        ensures value { self.new.value ≡ self.old.value }
        ensures rests { OnErr result (self.new.is_pending ≡ false) }
        ensures settles { spec.SettlesWaiting F.gives C.gets L.advances L.lent self.old seqno result
            self.new }
        ensures few { spec.one_more_if self.new.is_pending (L.left self.new.source) ≤
            L.left self.old.source }
    {
        self.is_pending = self.source.advance()?;
        let Some(next) = self.source.entry() else {
            return Ok(self.rules.evict);
        };
        if !is_version(&self.key, &next) {
            return Ok(self.rules.evict);
        }
        if seqno >= self.rules.watermark {
            return Ok(false);
        }
        self.callback.on_dropped_ref(&next);
        self.is_pending = false;
        self.hides = true;
        Ok(is_value(next.value_type))
    }

    // Makes the waiting head in the buffers current, or drops it.
    fn settle(&mut self, seqno: SeqNo, kind: ValueType) -> Result<bool, Error>
        requires may { spec.MayLendCompacted L.advances L.can_advance self.old }
        requires live { self.old.is_over ≡ false }
        requires pending { self.old.is_pending ≡ false }
        requires hides { self.old.hides ≡ false }
        requires empty { self.old.lends ≡ spec.Nothing }
        requires waits { spec.has_to_wait self.old.rules
            (spec.entry self.old.key.items self.old.value.items seqno kind) ≡ true }
        ensures may { spec.MayLendCompacted L.advances L.can_advance self.new }
        ensures settles { spec.SettlesLent F.gives C.gets L.advances L.lent self.old
            (spec.entry self.old.key.items self.old.value.items seqno kind) result self.new }
        ensures rests { OnErr result (self.new.is_pending ≡ false) }
        ensures more { IfOk result (λ more. more ≡ is_some (spec.lent_compacted L.lent self.new)) }
        ensures err { OnErr result (spec.lent_compacted L.lent self.new ≡ None) }
        ensures live { self.new.is_over ≡ false }
        ensures empty { IfOk result (λ more. more ≡ false → self.new.lends ≡ spec.Nothing) }
        ensures few { spec.compacted_left L.left self.new ≤ L.left self.old.source }
    {
        if self.lets_go(seqno)? {
            return Ok(false);
        }
        self.lends = Lends::Held(seqno, kind);
        Ok(true)
    }

    // Makes the pending head current as it is, or drops it. The head has to wait, so it is copied.
    fn wait(&mut self) -> Result<bool, Error>
        requires may { spec.MayLendCompacted L.advances L.can_advance self.old }
        requires live { self.old.is_over ≡ false }
        requires pending { self.old.is_pending ≡ true }
        requires hides { self.old.hides ≡ false }
        requires empty { self.old.lends ≡ spec.Nothing }
        requires some { IsSome (L.lent self.old.source) }
        requires waits { (head : spec.Entry) → L.lent self.old.source ≡ Some head →
            spec.has_to_wait self.old.rules head ≡ true }
        ensures may { spec.MayLendCompacted L.advances L.can_advance self.new }
        ensures settles { (head : spec.Entry) → L.lent self.old.source ≡ Some head →
            spec.SettlesLent F.gives C.gets L.advances L.lent self.old head result self.new }
        ensures rests { OnErr result (self.new.is_pending ≡ false) }
        ensures more { IfOk result (λ more. more ≡ is_some (spec.lent_compacted L.lent self.new)) }
        ensures err { OnErr result (spec.lent_compacted L.lent self.new ≡ None) }
        ensures live { IfOk result (λ _. self.new.is_over ≡ false) }
        ensures empty { IfOk result (λ more. more ≡ false → self.new.lends ≡ spec.Nothing) }
        ensures fewer { spec.compacted_left L.left self.new < spec.compacted_left L.left self.old }
    {
        self.is_pending = false;
        let Some(head) = self.source.entry() else {
            return Ok(false);
        };
        let seqno = head.seqno;
        let kind = head.value_type;
        if let Err(error) = remember(&mut self.key, head.user_key) {
            self.is_over = true;
            return Err(error);
        }
        if let Err(error) = remember(&mut self.value, head.value) {
            self.is_over = true;
            return Err(error);
        }
        self.settle(seqno, kind)
    }

    // Makes the pending head current with this kind and value, or drops it.
    fn replace(&mut self, kind: ValueType, value: &[u8]) -> Result<bool, Error>
        requires may { spec.MayLendCompacted L.advances L.can_advance self.old }
        requires live { self.old.is_over ≡ false }
        requires pending { self.old.is_pending ≡ true }
        requires hides { self.old.hides ≡ false }
        requires empty { self.old.lends ≡ spec.Nothing }
        requires some { IsSome (L.lent self.old.source) }
        ensures may { spec.MayLendCompacted L.advances L.can_advance self.new }
        ensures settles { (head : spec.Entry) → L.lent self.old.source ≡ Some head →
            spec.SettlesLent F.gives C.gets L.advances L.lent self.old
            (spec.put_into head kind value.now) result self.new }
        ensures rests { OnErr result (self.new.is_pending ≡ false) }
        ensures more { IfOk result (λ more. more ≡ is_some (spec.lent_compacted L.lent self.new)) }
        ensures err { OnErr result (spec.lent_compacted L.lent self.new ≡ None) }
        ensures live { IfOk result (λ _. self.new.is_over ≡ false) }
        ensures empty { IfOk result (λ more. more ≡ false → self.new.lends ≡ spec.Nothing) }
        ensures fewer { spec.compacted_left L.left self.new < spec.compacted_left L.left self.old }
    {
        self.is_pending = false;
        let Some(head) = self.source.entry() else {
            return Ok(false);
        };
        let seqno = head.seqno;
        let changed = EntryRef {
            value_type: kind,
            value,
            ..head
        };
        let waits = has_to_wait(&self.rules, &changed);
        let goes = goes_at_once(&self.rules, &changed);
        if let Err(error) = remember(&mut self.key, head.user_key) {
            self.is_over = true;
            return Err(error);
        }
        if let Err(error) = remember(&mut self.value, value) {
            self.is_over = true;
            return Err(error);
        }
        if waits {
            return self.settle(seqno, kind);
        }
        if seqno >= self.rules.watermark {
            self.lends = Lends::Held(seqno, kind);
            return Ok(true);
        }
        self.hides = true;
        if goes {
            return Ok(false);
        }
        self.lends = Lends::Held(seqno, kind);
        Ok(true)
    }

    // Processes the source's current entry, and returns whether it yields one.
    #[inline(always)]
    fn look(&mut self) -> Result<bool, Error>
        requires may { spec.MayLendCompacted L.advances L.can_advance self.old }
        requires live { self.old.is_over ≡ false }
        requires pending { self.old.is_pending ≡ true }
        requires empty { self.old.lends ≡ spec.Nothing }
        ensures may { spec.MayLendCompacted L.advances L.can_advance self.new }
        ensures steps { spec.StepsCompacted F.gives C.gets L.advances L.lent self.old
            (spec.came result (spec.lent_compacted L.lent self.new)) self.new }
        ensures rests { OnErr result (self.new.is_pending ≡ false) }
        ensures more { IfOk result (λ more. more ≡ is_some (spec.lent_compacted L.lent self.new)) }
        ensures err { OnErr result (spec.lent_compacted L.lent self.new ≡ None) }
        ensures live { IfOk result (λ _. self.new.is_over ≡ false) }
        ensures empty { IfOk result (λ more. more ≡ false → self.new.lends ≡ spec.Nothing) }
        ensures fewer { spec.compacted_left L.left self.new < spec.compacted_left L.left self.old }
    {
        let Some(head) = self.source.entry() else {
            self.is_pending = false;
            return Ok(false);
        };
        if is_given(self.hides, &self.key, &head) {
            self.callback.on_dropped_ref(&head);
            self.is_pending = false;
            return Ok(false);
        }
        self.hides = false;
        match ask(&mut self.filter, &mut self.callback, &head) {
            Ok(StreamFilterVerdict::Keep) => {}
            Ok(StreamFilterVerdict::Replace((kind, value))) => {
                return self.replace(kind, value.as_slice());
            }
            Ok(StreamFilterVerdict::Drop) => {
                self.is_pending = false;
                return Ok(false);
            }
            Err(error) => {
                self.is_pending = false;
                return Err(error);
            }
        }
        if has_to_wait(&self.rules, &head) {
            return self.wait();
        }
        self.is_pending = false;
        if head.seqno >= self.rules.watermark {
            self.lends = Lends::Source;
            return Ok(true);
        }
        let goes = goes_at_once(&self.rules, &head);
        if let Err(error) = remember(&mut self.key, head.user_key) {
            self.is_over = true;
            return Err(error);
        }
        self.hides = true;
        if goes {
            return Ok(false);
        }
        self.lends = Lends::Source;
        Ok(true)
    }

    // Advances to the next entry that is kept.
    fn go_on(&mut self) -> Result<bool, Error>
        requires may { spec.MayLendCompacted L.advances L.can_advance self.old }
        requires live { self.old.is_over ≡ false }
        requires empty { self.old.lends ≡ spec.Nothing }
        ensures goes { spec.AdvancesCompacted L.advances L.lent L.can_advance F.gives C.gets
            self.old (spec.came result (spec.lent_compacted L.lent self.new)) self.new }
        ensures more { IfOk result (λ more. more ≡ is_some (spec.lent_compacted L.lent self.new)) }
        ensures err { OnErr result (spec.lent_compacted L.lent self.new ≡ None) }
        ensures lowers { spec.Lowers (spec.came result (spec.lent_compacted L.lent self.new))
            (spec.compacted_left L.left self.old) (spec.compacted_left L.left self.new) }
    {
        while self.fetch()? {
            if self.look()? {
                return Ok(true);
            }
        }
        Ok(false)
    }
}

impl<L: Lending, F: LentFilter<A> + Drop, C: LentCallback + Drop, A: Allocator> Lending
    for LendingCompaction<L, F, C, A> {
    ghost can_advance = { spec.MayLendCompacted L.advances L.can_advance };

    ghost advances = { spec.AdvancesCompacted L.advances L.lent L.can_advance F.gives C.gets };

    ghost lent = { spec.lent_compacted L.lent };

    ghost left = { spec.compacted_left L.left };

    fn advance(&mut self) -> Result<bool, Error> {
        self.lends = Lends::Nothing;
        if self.is_over {
            return Ok(false);
        }
        self.go_on()
    }

    #[inline]
    fn entry(&self) -> Option<EntryRef<'_>> {
        match self.lends {
            Lends::Nothing => None,
            Lends::Source => match self.source.entry() {
                Some(entry) => Some(EntryRef {
                    seqno: zeroed(&self.rules, entry.seqno),
                    ..entry
                }),
                None => None,
            },
            Lends::Held(seqno, value_type) => Some(EntryRef {
                user_key: self.key.as_slice(),
                seqno: zeroed(&self.rules, seqno),
                value_type,
                value: self.value.as_slice(),
            }),
        }
    }
}
