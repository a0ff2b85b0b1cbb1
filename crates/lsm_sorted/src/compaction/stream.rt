//! A stream of entries without those that no reader needs.
ghost use Rattle.std.specs.Prelude.{◌≡◌, ◌≤◌, nat_lt, Bool, false, List, Some, None, Result, Ok};
ghost use Rattle.std.specs.Prelude.{IfOk};
ghost use Rattle.lsm_sorted.specs.Words as spec;

use crate::ahead::Ahead;
use crate::give_up::give_up;
use sst_entries::{Error, InternalValue, IterItem, SeqNo, UserValue, ValueType};
use std::alloc::{Allocator, Global};

/// A callback that receives the entries that a compaction removes or changes.
///
/// These are the entries that the filter drops or replaces, and the older versions that a newer one
/// hides. Tombstones that the compaction itself drops are not reported.
pub trait DroppedKvCallback<A: Allocator> {
    // `gets c x d`: callback `c` receives entry `x` and becomes `d`.
    ghost gets: { Self → spec.Entry → Self → Type 0 };

    /// Receives an entry as it was before the filter.
    fn on_dropped(&mut self, kv: &InternalValue<A>)
        ensures { gets self.old kv.now self.new };
}

/// The verdict of a [`StreamFilter`] on an entry.
#[derive(Drop)]
#[derive_where(Debug)]
pub enum StreamFilterVerdict<A: Allocator = Global> {
    /// Keeps the entry as it is.
    Keep,
    /// Replaces the kind and the value of the entry.
    Replace((ValueType, UserValue<A>)),
    /// Drops the entry, without a tombstone in its place.
    Drop,
}

/// A filter that may change or drop entries during a compaction.
///
/// The compaction calls it for each entry that is neither a tombstone nor hidden by a newer
/// version.
pub trait StreamFilter<A: Allocator> {
    // `gives f x v g`: filter `f` returns `v` for entry `x` and becomes `g`.
    ghost gives: { Self → spec.Entry → Result spec.Verdict spec.Error → Self → Type 0 };

    /// Returns the verdict on an entry.
    ///
    /// # Errors
    ///
    /// The compaction passes on any error.
    fn filter_item(&mut self, item: &InternalValue<A>) -> Result<StreamFilterVerdict<A>, Error>
        ensures { gives self.old item.now (spec.said result) self.new };
}

/// A filter that keeps every entry.
#[derive(Clone, Copy, Debug)]
pub struct NoFilter;

impl<A: Allocator> StreamFilter<A> for NoFilter {
    ghost gives = { λ f x v g. v ≡ Ok spec.keep };

    fn filter_item(&mut self, _item: &InternalValue<A>) -> Result<StreamFilterVerdict<A>, Error> {
        Ok(StreamFilterVerdict::Keep)
    }
}

/// A callback that ignores every entry.
#[derive(Clone, Copy, Debug)]
pub struct NoCallback;

impl<A: Allocator> DroppedKvCallback<A> for NoCallback {
    ghost gets = { λ c x d. Unit {0} };

    fn on_dropped(&mut self, _kv: &InternalValue<A>) {}
}

/// An iterator that drops the entries of a source that no reader needs.
///
/// The source must yield its keys in ascending order, and the versions of a key from the newest
/// down. No reader may read at a seqno below the threshold. So the newest version of a key below it
/// hides all older ones, and these are dropped. A weak tombstone below the threshold is dropped too
/// if the next version of its key is a value.
///
/// # Errors
///
/// An error of the source or the filter is passed on, and the stream continues after it. An error
/// of the source drops the entry that was read but not yet yielded. An error of the filter drops
/// the entry that it was called for.
#[derive(Drop)]
pub struct CompactionStream<I: Iterator, F = NoFilter, C = NoCallback> {
    inner: Ahead<I>,
    gc_seqno_threshold: SeqNo,
    filter: F,
    dropped_callback: C,
    evict_tombstones: bool,
    zero_seqnos: bool,
}

impl<I: Iterator<Item = IterItem<A>>, A: Allocator> CompactionStream<I, NoFilter, NoCallback> {
    /// Creates a stream over entries, for readers at the threshold or above.
    ///
    /// It evicts no tombstones and zeroes no seqnos. It has no filter and no callback.
    pub fn new(iter: I, gc_seqno_threshold: SeqNo) -> Self
        ensures starts { spec.compaction_outlook result ≡ spec.before_any iter }
        ensures compacts { (stops : spec.Error → Bool) (xs : List spec.R) →
            spec.YieldsExactly (spec.answer_stops stops) I.next_gives spec.nowhere iter xs →
            spec.Compacts stops I.next_gives result xs }
        ensures may { spec.CanYield I.next_gives spec.nowhere I.can_next I.can_next iter →
            spec.IsFinite (I.remaining iter) →
            spec.MayCompact I.next_gives I.can_next I.remaining result }
        ensures rules { spec.rules_of result ≡ record {
          watermark = gc_seqno_threshold;
          evict = false;
          zeroing =
              false;
        } }
    {
        CompactionStream {
            inner: Ahead::new(iter),
            gc_seqno_threshold,
            filter: NoFilter,
            dropped_callback: NoCallback,
            evict_tombstones: false,
            zero_seqnos: false,
        }
    }
}

impl<I: Iterator<Item = IterItem<A>>, F, C, A: Allocator> CompactionStream<I, F, C> {
    /// Returns the stream with this filter in place of its own.
    pub fn with_filter<NF>(self, filter: NF) -> CompactionStream<I, NF, C>
    where
        F: Drop,
        ensures source { spec.source_of result ≡ spec.source_of self }
        ensures rules { spec.rules_of result ≡ spec.rules_of self }
        ensures filter { spec.filter_of result ≡ filter }
        ensures callback { spec.callback_of result ≡ spec.callback_of self }
    {
        let CompactionStream {
            inner,
            gc_seqno_threshold,
            filter: _,
            dropped_callback,
            evict_tombstones,
            zero_seqnos,
        } = self;
        CompactionStream {
            inner,
            gc_seqno_threshold,
            filter,
            dropped_callback,
            evict_tombstones,
            zero_seqnos,
        }
    }

    /// Returns the stream with this callback in place of its own.
    pub fn with_drop_callback<NC>(self, callback: NC) -> CompactionStream<I, F, NC>
    where
        C: Drop,
        ensures source { spec.source_of result ≡ spec.source_of self }
        ensures rules { spec.rules_of result ≡ spec.rules_of self }
        ensures filter { spec.filter_of result ≡ spec.filter_of self }
        ensures callback { spec.callback_of result ≡ callback }
    {
        CompactionStream {
            inner: self.inner,
            gc_seqno_threshold: self.gc_seqno_threshold,
            filter: self.filter,
            dropped_callback: callback,
            evict_tombstones: self.evict_tombstones,
            zero_seqnos: self.zero_seqnos,
        }
    }

    /// Sets whether a tombstone is dropped if no older version of its key is kept.
    ///
    /// A weak tombstone stays if it hides a next version that is not a value. Set this only if no
    /// older version of the keys exists elsewhere.
    pub fn evict_tombstones(mut self, b: bool) -> Self
        ensures source { spec.source_of result ≡ spec.source_of self }
        ensures rules { spec.rules_of result ≡ record {
          watermark = (spec.rules_of self).watermark;
          evict = b;
          zeroing =
              (spec.rules_of self).zeroing;
        } }
        ensures filter { spec.filter_of result ≡ spec.filter_of self }
        ensures callback { spec.callback_of result ≡ spec.callback_of self }
    {
        self.evict_tombstones = b;
        self
    }

    /// Sets whether seqnos below the threshold are yielded as 0.
    ///
    /// A small seqno takes less space where seqnos are stored with variable length.
    pub fn zero_seqnos(mut self, b: bool) -> Self
        ensures source { spec.source_of result ≡ spec.source_of self }
        ensures rules { spec.rules_of result ≡ record {
          watermark = (spec.rules_of self).watermark;
          evict = (spec.rules_of
              self).evict;
          zeroing = b;
        } }
        ensures filter { spec.filter_of result ≡ spec.filter_of self }
        ensures callback { spec.callback_of result ≡ spec.callback_of self }
    {
        self.zero_seqnos = b;
        self
    }

    /// Returns the callback.
    pub fn callback(&self) -> &C
        ensures { result.now ≡ spec.callback_of self.now }
    {
        &self.dropped_callback
    }

    /// Drops the stream and returns the callback.
    pub fn into_callback(self) -> C
    where
        I: Drop,
        F: Drop,
        ensures { result ≡ spec.callback_of self }
    {
        self.dropped_callback
    }
}

fn has_key_of<A: Allocator>(x: &InternalValue<A>, head: &InternalValue<A>) -> bool
    ensures { result ≡ spec.same_key x.now.user_key head.now.user_key }
{
    x.key.user_key == head.key.user_key
}

// The head after a verdict, or `None` if the verdict drops it. A head that is changed or dropped is
// reported.
fn apply_verdict<C: DroppedKvCallback<A>, A: Allocator>(
    callback: &mut C,
    mut head: InternalValue<A>,
    verdict: StreamFilterVerdict<A>,
) -> Option<InternalValue<A>>
    ensures returned { Ok result ≡ spec.told_by head (Ok (spec.verdict_of verdict)) }
    ensures reports { spec.GetsAll C.gets callback.old
        (spec.reports_by head (Ok (spec.verdict_of verdict))) callback.new }
{
    match verdict {
        StreamFilterVerdict::Keep => Some(head),
        StreamFilterVerdict::Replace((kind, value)) => {
            callback.on_dropped(&head);
            head.key.value_type = kind;
            head.value = value;
            Some(head)
        }
        StreamFilterVerdict::Drop => {
            callback.on_dropped(&head);
            None
        }
    }
}

impl<
    I: Iterator<Item = IterItem<A>>,
    F: StreamFilter<A>,
    C: DroppedKvCallback<A>,
    A: Allocator,
> CompactionStream<I, F, C> {
    // The head after the filter, or `None` if the filter drops it.
    fn filtered(&mut self, head: InternalValue<A>) -> Result<Option<InternalValue<A>>, Error>
        ensures source { spec.source_of self.new ≡ spec.source_of self.old }
        ensures rules { spec.rules_of self.new ≡ spec.rules_of self.old }
        ensures filters { spec.Filters F.gives C.gets head (spec.filter_of self.old)
            (spec.callback_of self.old)
            result (spec.filter_of self.new) (spec.callback_of self.new) }
    {
        if head.is_tombstone() {
            return Ok(Some(head));
        }
        let verdict = self.filter.filter_item(&head)?;
        Ok(apply_verdict(&mut self.dropped_callback, head, verdict))
    }

    // Reads the next entries of the head's key, and reports them.
    fn drain_key(&mut self, head: &InternalValue<A>) -> Result<(), Error>
        requires { spec.MayCompact I.next_gives I.can_next I.remaining self.old }
        ensures may { spec.MayCompact I.next_gives I.can_next I.remaining self.new }
        ensures rules { spec.rules_of self.new ≡ spec.rules_of self.old }
        ensures filter { spec.filter_of self.new ≡ spec.filter_of self.old }
        ensures size { spec.compaction_size I.remaining self.new ≤ spec.compaction_size I.remaining
            self.old }
        ensures drains { (stops : spec.Error → Bool) →
            spec.DrainsFrom stops I.next_gives C.gets head.now.user_key self.old
            (spec.callback_of self.old) result self.new }
        ensures hears { spec.HearsAhead I.next_gives result
            (spec.DrainsIn C.gets head.now.user_key (spec.callback_of self.old) result
            (spec.callback_of self.new)) self.old self.new }
    {
        loop {
            match self.inner.next() {
                Some(Ok(x)) => {
                    if !has_key_of(&x, head) {
                        self.inner.put_back(x);
                        return Ok(());
                    }
                    self.dropped_callback.on_dropped(&x);
                    give_up(x);
                }
                Some(Err(error)) => return Err(error),
                None => return Ok(()),
            }
        }
    }

    // Whether the head is dropped, which depends on the entry after it. Older versions that no
    // reader needs are drained.
    fn lets_go(&mut self, head: &InternalValue<A>) -> Result<bool, Error>
        requires { spec.MayCompact I.next_gives I.can_next I.remaining self.old }
        ensures may { spec.MayCompact I.next_gives I.can_next I.remaining self.new }
        ensures rules { spec.rules_of self.new ≡ spec.rules_of self.old }
        ensures filter { spec.filter_of self.new ≡ spec.filter_of self.old }
        ensures size { spec.compaction_size I.remaining self.new ≤ spec.compaction_size I.remaining
            self.old }
        ensures settles { (stops : spec.Error → Bool) →
            spec.SettlesFrom stops I.next_gives C.gets head.now self.old result self.new }
        ensures hears { spec.HearsAhead I.next_gives result
            (spec.SettlesIn C.gets (spec.rules_of self.old) head.now (spec.callback_of self.old)
            result (spec.callback_of self.new)) self.old self.new }
    {
        let next = match self.inner.next() {
            Some(Ok(next)) => next,
            Some(Err(error)) => return Err(error),
            None => return Ok(self.goes_alone(head)),
        };
        if !has_key_of(&next, head) {
            self.inner.put_back(next);
            return Ok(self.goes_alone(head));
        }
        if !self.is_below_threshold(head) {
            self.inner.put_back(next);
            return Ok(false);
        }
        let goes = self.drain_hidden(head, &next);
        give_up(next);
        goes
    }

    // Reports this version and the older ones after it, which the head hides. Returns whether the
    // head is dropped.
    #[inline(never)]
    fn drain_hidden(
        &mut self,
        head: &InternalValue<A>,
        next: &InternalValue<A>,
    ) -> Result<bool, Error>
        requires { spec.MayCompact I.next_gives I.can_next I.remaining self.old }
        ensures may { spec.MayCompact I.next_gives I.can_next I.remaining self.new }
        ensures rules { spec.rules_of self.new ≡ spec.rules_of self.old }
        ensures filter { spec.filter_of self.new ≡ spec.filter_of self.old }
        ensures size { spec.compaction_size I.remaining self.new ≤ spec.compaction_size I.remaining
            self.old }
        ensures goes { IfOk result (λ b. b ≡ spec.goes (spec.rules_of self.old).evict head.now.kind
            (Some next.now)) }
        ensures drains { (stops : spec.Error → Bool) →
            ((d : C) × C.gets (spec.callback_of self.old) next.now d
            × spec.DrainsFrom stops I.next_gives C.gets head.now.user_key self.old d result self.new) }
        ensures hears { (d : C) × C.gets (spec.callback_of self.old) next.now d ×
            spec.HearsAhead I.next_gives result (spec.DrainsIn C.gets head.now.user_key d result
            (spec.callback_of self.new)) self.old self.new }
    {
        self.dropped_callback.on_dropped(next);
        self.drain_key(head)?;
        Ok(self.goes_before(head, next))
    }
}

impl<I: Iterator<Item = IterItem<A>>, F, C, A: Allocator> CompactionStream<I, F, C> {
    fn is_below_threshold(&self, head: &InternalValue<A>) -> bool
        ensures { result ≡ nat_lt head.now.seqno (spec.rules_of self.now).watermark }
    {
        head.key.seqno < self.gc_seqno_threshold
    }

    // Whether a head is dropped that no older version follows.
    fn goes_alone(&self, head: &InternalValue<A>) -> bool
        ensures { result ≡ spec.goes (spec.rules_of self.now).evict head.now.kind None }
    {
        self.evict_tombstones && head.is_tombstone()
    }

    // Whether a head is dropped that hides this version and all older ones.
    fn goes_before(&self, head: &InternalValue<A>, next: &InternalValue<A>) -> bool
        ensures { result ≡ spec.goes (spec.rules_of self.now).evict head.now.kind (Some next.now) }
    {
        match head.key.value_type {
            ValueType::Tombstone => self.evict_tombstones,
            ValueType::WeakTombstone => next.key.value_type == ValueType::Value,
            ValueType::Value | ValueType::Indirection => false,
        }
    }

    // The head as the stream yields it.
    fn zeroed(&self, mut head: InternalValue<A>) -> InternalValue<A>
        ensures { result ≡ spec.zeroed (spec.rules_of self.now) head }
    {
        if self.zero_seqnos && self.is_below_threshold(&head) {
            head.key.seqno = 0;
        }
        head
    }
}

impl<
    I: Iterator<Item = IterItem<A>>,
    F: StreamFilter<A> + Drop,
    C: DroppedKvCallback<A> + Drop,
    A: Allocator,
> Iterator for CompactionStream<I, F, C> {
    type Item = IterItem<A>;

    ghost can_next = { spec.MayCompact I.next_gives I.can_next I.remaining };

    ghost next_gives = { spec.CompactsNext I.next_gives I.can_next I.remaining F.gives C.gets };

    ghost remaining = { λ s. spec.at_most (spec.compaction_size I.remaining s) };

    fn next(&mut self) -> Option<IterItem<A>> {
        loop {
            let head = match self.inner.next() {
                Some(Ok(head)) => head,
                Some(Err(error)) => return Some(Err(error)),
                None => return None,
            };
            let head = match self.filtered(head) {
                Ok(Some(head)) => head,
                Ok(None) => continue,
                Err(error) => return Some(Err(error)),
            };
            match self.lets_go(&head) {
                Ok(true) => give_up(head),
                Ok(false) => return Some(Ok(self.zeroed(head))),
                Err(error) => {
                    give_up(head);
                    return Some(Err(error));
                }
            }
        }
    }
}

impl<
    I: Iterator<Item = IterItem<A>>,
    F: StreamFilter<A> + Drop,
    C: DroppedKvCallback<A> + Drop,
    A: Allocator,
> CompactionStream<I, F, C> {
    /// States what a stream does from this call until it returns `None`.
    ///
    /// It yields the entries of each key as the verdicts of its filter leave them. It calls the
    /// filter only for heads that are not tombstones. The callback receives exactly the reported
    /// entries. After each call the stream may be called again. This call does nothing: its
    /// contract states the law.
    pub fn whole_run(&self)
        ensures gives { spec.CompactsWhole I.next_gives
            ⟦<CompactionStream<I, F, C> as Iterator>⟧.next_gives self.now F.gives C.gets }
        // Before any call, this holds for any source, errors included.
        ensures heard { spec.CompactsHeard I.next_gives
            ⟦<CompactionStream<I, F, C> as Iterator>⟧.next_gives self.now F.gives C.gets }
        ensures can { spec.MayCompact I.next_gives I.can_next I.remaining self.now →
            spec.CanYield ⟦<CompactionStream<I, F, C> as Iterator>⟧.next_gives spec.nowhere
            ⟦<CompactionStream<I, F, C> as Iterator>⟧.can_next
            ⟦<CompactionStream<I, F, C> as Iterator>⟧.can_next self.now }
    {}
}

impl<
    I: Iterator<Item = IterItem<A>>,
    C: DroppedKvCallback<A> + Drop,
    A: Allocator,
> CompactionStream<I, NoFilter, C> {
    /// States what a stream without a filter yields.
    ///
    /// For any list of results, it yields the output of the compaction rules. For entries without
    /// errors, these are the entries kept. The call does nothing: its contract states the law.
    pub fn unfiltered_run(&self)
        ensures outs { spec.YieldsOuts I.next_gives
            ⟦<CompactionStream<I, NoFilter, C> as Iterator>⟧.next_gives self.now }
        ensures kept { spec.YieldsKept I.next_gives
            ⟦<CompactionStream<I, NoFilter, C> as Iterator>⟧.next_gives self.now }
        // Before any call, this holds for any source, errors included.
        ensures heard { spec.GivesOuts I.next_gives
            ⟦<CompactionStream<I, NoFilter, C> as Iterator>⟧.next_gives self.now }
    {}
}

/// States what readers see after a compaction without a filter.
///
/// Whatever is evicted and zeroed, a reader sees the same in the kept entries as in the sorted
/// list. This holds if its bound is the watermark or above, or above every version of its key.
///
/// If each entry comes before the next by key, or by descending seqno, the same holds of the kept
/// entries.
///
/// If a part of the entries is compacted and the rest stays, a reader at the watermark or above
/// sees the same in both together. Conditions:
///
/// - no key has one seqno twice;
/// - nothing is evicted or zeroed and the part has no weak tombstone, or of each key all entries of
///   the rest are newer.
///
/// The call does nothing: its contract states the laws.
pub fn read_law()
    ensures reads { spec.ReadLaw }
    ensures strict { spec.StaysStrict }
    ensures part { spec.PartLaw }
{}
