//! Ranges, read from both ends, and opening a range of a table.
ghost use Rattle.std.specs.Prelude.{◌≡◌, ◌≢◌, ◌<◌, ◌⊎◌, false, IfErr, IfOk, IsSomeAnd, None};
ghost use Rattle.std.specs.Prelude.{is_some, true};
ghost use Rattle.sst_c.specs.Words as spec;

use crate::asked::NewestAt;
use crate::codes::{CLOSED, NO_SUCH, OPEN, OTHER_KIND};
use crate::entries::{EntryReport, tell};
use crate::handle::Handle;
use crate::held::{FoundEntry, Held, What};
use crate::merged::step_merged;
use crate::reads::take_held;
use crate::tables::keep;
use lsm_iters::Iter;
use lsm_readers::Table;
use sst_blocks::{Error, InternalValue, IterItem, Lending, Slice};
use std::alloc::Global;
use std::ops::Bound;

// A bound as C passes it: kind 0 for none, 1 to include the key, 2 to exclude it.
pub(crate) fn bound(alloc: Global, kind: u32, key: &[u8]) -> Result<Bound<Slice>, Error>
    requires { kind < 3 }
    ensures ok { IfOk result (λ b. b ≡ spec.decode_bound kind key.now) }
    ensures err { IfErr result (λ e. e ≡ spec.OutOfMemory) }
{
    match kind {
        0 => Ok(Bound::Unbounded),
        1 => Ok(Bound::Included(Slice::from(alloc, key)?)),
        _ => Ok(Bound::Excluded(Slice::from(alloc, key)?)),
    }
}

pub(crate) fn bounds(
    alloc: Global,
    lower_kind: u32,
    lower: &[u8],
    upper_kind: u32,
    upper: &[u8],
) -> Result<(Bound<Slice>, Bound<Slice>), Error>
    requires lower { lower_kind < 3 }
    requires upper { upper_kind < 3 }
    ensures lower { IfOk result (λ b. b.0 ≡ spec.decode_bound lower_kind lower.now) }
    ensures upper { IfOk result (λ b. b.1 ≡ spec.decode_bound upper_kind upper.now) }
    ensures err { IfErr result (λ e. e ≡ spec.OutOfMemory) }
{
    let low = bound(alloc, lower_kind, lower)?;
    let high = bound(alloc, upper_kind, upper)?;
    Ok((low, high))
}

// A range of a table, for bounds as C passes them.
fn range_within(
    alloc: Global,
    table: &Table,
    lower_kind: u32,
    lower: &[u8],
    upper_kind: u32,
    upper: &[u8],
) -> Result<Iter, Error>
    requires lower { lower_kind < 3 }
    requires upper { upper_kind < 3 }
    ensures ranges { IfOk result (spec.RangesTable (spec.decode_bound lower_kind lower.now)
        (spec.decode_bound upper_kind upper.now) table.now) }
    ensures err { IfErr result (λ e. e ≡ spec.OutOfMemory) }
{
    let (lower, upper) = bounds(alloc, lower_kind, lower, upper_kind, upper)?;
    table.range(lower, upper)
}

// Puts a range of a table into a closed handle.
fn begin_within(
    alloc: Global,
    table: &Table,
    lower_kind: u32,
    lower: &[u8],
    upper_kind: u32,
    upper: &[u8],
    range: &mut Handle,
) -> u32
    requires empty { range.old.boxed.value ≡ None }
    requires lower { lower_kind < 3 }
    requires upper { upper_kind < 3 }
    ensures memory { (result ≡ 0) ⊎ (result ≡ 1) }
    ensures new { result ≡ 0 → IsSomeAnd range.new.boxed.value (λ r. spec.found_by r ≡ None) }
    ensures ranges { result ≡ 0 → IsSomeAnd range.new.boxed.value (λ r.
        spec.IsRangeWithin lower_kind lower.now upper_kind upper.now table.now r.what) }
    ensures left { result ≢ 0 → range.new.boxed.value ≡ None }
{
    match range_within(alloc, table, lower_kind, lower, upper_kind, upper) {
        Ok(iter) => range.begin(alloc, What::Range(iter)),
        Err(error) => u32::from(error.number()),
    }
}

fn begin(
    alloc: Global,
    held: &Held,
    lower_kind: u32,
    lower: &[u8],
    upper_kind: u32,
    upper: &[u8],
    range: &mut Handle,
) -> u32
    requires { range.old.boxed.value ≡ None }
    ensures begins { spec.OpensNewWithin lower_kind upper_kind spec.is_table held.now.what
        range.new.boxed.value result }
    ensures ranges { result ≡ 0 → IsSomeAnd range.new.boxed.value (λ r.
        spec.RangesHeld lower_kind lower.now upper_kind upper.now held.now.what r.what) }
{
    let What::Table(table) = &held.what else {
        return OTHER_KIND;
    };
    if lower_kind > 2 || upper_kind > 2 {
        return NO_SUCH;
    }
    begin_within(alloc, table, lower_kind, lower, upper_kind, upper, range)
}

/// Opens a range of a table, read from both ends.
///
/// A bound has kind 0 for none, 1 to include its key, 2 to exclude it. `range` must be closed. No
/// block is loaded yet. The range holds a reference to the table, which may be closed before it.
///
/// # Errors
///
/// - 101: `range` is open.
/// - 100: `table` is closed.
/// - 102: `table` holds no table.
/// - 105: a bound has another kind.
/// - 1: out of memory.
///
/// On error, both handles are unchanged.
#[unsafe(no_mangle)]
pub extern "C" fn sst_range_open(
    alloc: Global,
    table: &mut Handle,
    lower_kind: u32,
    lower: &[u8],
    upper_kind: u32,
    upper: &[u8],
    range: &mut Handle,
) -> u32
    ensures opens { spec.OpensWithin lower_kind upper_kind spec.is_table table.old.boxed.value
        table.new.boxed.value range.old.boxed.value range.new.boxed.value result }
    // It reads the table within the bounds, from both ends.
    ensures ranges { spec.MakesFrom table.old.boxed.value result range.new.boxed.value
        (spec.RangesHeld lower_kind lower.now upper_kind upper.now) }
{
    if range.is_open() {
        return OPEN;
    }
    let Some(held) = table.take(alloc) else {
        return CLOSED;
    };
    let code = begin(alloc, &held, lower_kind, lower, upper_kind, upper, range);
    table.put(held);
    code
}

pub(crate) fn outcome_of(answer: Option<IterItem<Global>>) -> Result<Option<InternalValue>, Error>
    ensures { result ≡ spec.outcome_of answer }
{
    match answer {
        None => Ok(None),
        Some(Ok(item)) => Ok(Some(item)),
        Some(Err(error)) => Err(error),
    }
}

// Steps a range of a table from the front. The range then borrows the entry.
#[tactic(auto, using(crate::proofs::Ranging::range_steps))]
fn step_front(iter: &mut Iter) -> u32
    ensures steps { let gives = ⟦<Iter<Global> as Iterator>⟧.next_gives in
        spec.StepsBy gives iter.old result iter.new.lent iter.new }
    ensures fine { is_some iter.new.lent ≡ true → result ≡ 0 }
{
    match iter.advance() {
        Ok(_) => 0,
        Err(error) => u32::from(error.number()),
    }
}

// Steps a range of a table from the back. The range then borrows the entry.
#[tactic(auto, using(crate::proofs::Ranging::range_steps_back))]
fn step_back(iter: &mut Iter) -> u32
    ensures steps { let gives = ⟦<Iter<Global> as DoubleEndedIterator>⟧.next_back_gives in
        spec.StepsBy gives iter.old result iter.new.lent iter.new }
    ensures fine { is_some iter.new.lent ≡ true → result ≡ 0 }
{
    match iter.advance_back() {
        Ok(_) => 0,
        Err(error) => u32::from(error.number()),
    }
}

// Steps a range of a table. The range then borrows the entry.
fn step_of(iter: &mut Iter, back: bool, found: &mut FoundEntry) -> u32
    ensures front { back ≡ false → let gives = ⟦<Iter<Global> as Iterator>⟧.next_gives in
        spec.StepsBy gives iter.old result (spec.found_at found.new (spec.RangeOf iter.new))
        iter.new }
    ensures back { back ≡ true →
        let gives = ⟦<Iter<Global> as DoubleEndedIterator>⟧.next_back_gives in
        spec.StepsBy gives iter.old result (spec.found_at found.new (spec.RangeOf iter.new))
        iter.new }
    ensures fine { is_some (spec.found_at found.new (spec.RangeOf iter.new)) ≡ true → result ≡ 0 }
{
    found.set_lent();
    if back {
        step_back(iter)
    } else {
        step_front(iter)
    }
}

/// Steps the held object, if it is a range.
pub(crate) fn step(held: &mut Held, back: bool) -> u32
    ensures other { spec.is_range held.old.what ≡ false →
        (result ≡ 102) × (spec.found_by held.new ≡ None) × (held.new.what ≡ held.old.what) }
    ensures steps { spec.StepsRange ⟦<NewestAt as Iterator>⟧.next_gives
        ⟦<NewestAt as DoubleEndedIterator>⟧.next_back_gives back held.old.what result
        (spec.found_by held.new) held.new.what }
    ensures fine { is_some (spec.found_by held.new) ≡ true → result ≡ 0 }
{
    match &mut held.what {
        What::Range(iter) => step_of(iter, back, &mut held.found),
        What::Merged(merged) => keep(&mut held.found, step_merged(merged, back)),
        _ => {
            held.found.clear();
            OTHER_KIND
        }
    }
}

/// Reads the next entry of a range, from the back if `back` is set, else from the front.
///
/// The handle has then found this entry, and `entry` gets its kind, sequence number and lengths. At
/// the end, it has found nothing, and `entry` is zero.
///
/// # Errors
///
/// - 100: the handle is closed.
/// - 102: the handle holds no range.
/// - The error of the step of a table's range.
/// - The error of the step of a range over several runs, as `range_runs_at`. Both ends are
///   exhausted then.
///
/// On error nothing is found, and `entry` is zero.
#[unsafe(no_mangle)]
pub extern "C" fn sst_range_next(
    alloc: Global,
    range: &mut Handle,
    back: bool,
    entry: &mut EntryReport,
) -> u32
    ensures reads { spec.ReadsThrough spec.is_range range.old.boxed.value range.new.boxed.value
        result entry.new }
    // It is one step of the range from that end.
    ensures steps { spec.ReadsHeld range.old.boxed.value result range.new.boxed.value
        (spec.StepsRange ⟦<NewestAt as Iterator>⟧.next_gives
        ⟦<NewestAt as DoubleEndedIterator>⟧.next_back_gives back) }
{
    *entry = tell(None);
    let Some(mut held) = range.take(alloc) else {
        return CLOSED;
    };
    let code = step(&mut held, back);
    *entry = tell(held.found_entry());
    range.put(held);
    code
}

// Reads a range in bulk.
fn take(
    held: &mut Held,
    back: bool,
    entries: &mut [EntryReport],
    bytes: &mut [u8],
    count: &mut u64,
) -> u32
    ensures other { spec.is_range held.old.what ≡ false →
        (result ≡ 102) × (spec.found_by held.new ≡ None) × (held.new.what ≡ held.old.what) }
    ensures none { spec.is_range held.old.what ≡ false → (count.new ≡ count.old)
        × (entries.new ≡ entries.old) × (bytes.new ≡ bytes.old) }
    ensures takes { let ends = ⟦<NewestAt as DoubleEndedIterator>⟧ in
        spec.TakesRange ends.next_gives ends.next_back_gives back entries.old entries.new bytes.old
        bytes.new count.new held.old.what result (spec.found_by held.new) held.new.what }
{
    if !held.is_range() {
        held.found.clear();
        return OTHER_KIND;
    }
    take_held(held, back, entries, bytes, count)
}

/// Reads the next entries of a range in bulk.
///
/// Each is read as by `sst_range_next` from that end. Their keys and values are copied back to back
/// to the front of `bytes`. `entries` gets the kind, sequence number and lengths of each, and
/// `count` their number.
///
/// It stops:
///
/// - if `entries` is full;
/// - at the end of the range;
/// - at an error;
/// - at an entry that does not fit into the rest of `bytes`. The handle has then found this entry,
///   and `found` gets its kind, sequence number and lengths.
///
/// In the first three cases the handle has found nothing, and `found` is zero.
///
/// # Errors
///
/// - 100: the handle is closed.
/// - 102: the handle holds no range.
/// - The error at which it stopped. The entries before it are copied and counted.
///
/// With 100 and 102 nothing is copied, and `count` is 0.
#[unsafe(no_mangle)]
pub extern "C" fn sst_range_take(
    alloc: Global,
    range: &mut Handle,
    back: bool,
    entries: &mut [EntryReport],
    bytes: &mut [u8],
    count: &mut u64,
    found: &mut EntryReport,
) -> u32
    ensures through { spec.TakesThrough spec.is_range range.old.boxed.value range.new.boxed.value
        entries.old entries.new bytes.old bytes.new count.new result found.new }
    // It makes as many steps as needed, each as `sst_range_next` does.
    ensures takes { let ends = ⟦<NewestAt as DoubleEndedIterator>⟧ in
        spec.ReadsHeld range.old.boxed.value result range.new.boxed.value (spec.TakesRange
        ends.next_gives ends.next_back_gives back entries.old entries.new bytes.old bytes.new
        count.new) }
{
    *count = 0;
    *found = tell(None);
    let Some(mut held) = range.take(alloc) else {
        return CLOSED;
    };
    let code = take(&mut held, back, entries, bytes, count);
    *found = tell(held.found_entry());
    range.put(held);
    code
}
