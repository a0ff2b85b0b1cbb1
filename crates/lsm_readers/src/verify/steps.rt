//! Reading a whole table in steps of one block each.
ghost use Rattle.std.specs.Prelude.{◌≡◌, ◌∷◌, ◌<◌, ◌-◌, ◌^◌, [], List, IfErr, IfOk, IfNone};
ghost use Rattle.std.specs.Prelude.{IfSome, IsOk, Ok, Some, drop, false, length, true};
ghost use Rattle.lsm_readers.specs.Words as spec;
ghost use Rattle.lsm_readers.specs.declared.verify.VerifyError.TheVariants.{OutOfMemory};
ghost use Rattle.sst_blocks.specs.declared.block_type.BlockType.TheVariants as block;
ghost use Rattle.sst_blocks.specs.declared.section.SectionName.TheVariants as section;

use super::blocks::{count_at, handle_at, load_chunk, load_part, read_contents, test_top};
use super::end::{test_filter, test_left};
use super::{Unread, VerifyError};
use crate::Inner;
use sst_blocks::{BlockHandle, BlockSource, IndexBlock, SectionName};
use std::alloc::{Allocator, Global};
use std::marker::Model;

/// The handles of an index block that are left. Contracts see their list.
#[derive(Drop)]
pub(crate) struct HandlesLeft<A: Allocator = Global> {
    block: Option<IndexBlock<A>>,
    // The index of the next handle in the block.
    index: usize,
}

impl<A: Allocator> Model for HandlesLeft<A> {
    ghost use Rattle.std.specs.Prelude.{List};
    ghost use Rattle.sst_blocks.specs.Handle.{Handle};
    ghost use Rattle.lsm_readers.specs.Handles.{handles_ahead};

    ghost Value = { List Handle };

    ghost view = { λ h. handles_ahead h.index h.block };
}

/// The blocks of a table that are left to read.
#[derive(Drop)]
pub(crate) enum Stage<A: Allocator = Global> {
    /// The filter blocks from an index on, then the index.
    Filter(usize),
    /// The data blocks of some handles, then some partitions of the index.
    Index {
        handles: HandlesLeft<A>,
        tops: HandlesLeft<A>,
    },
}

impl<A: Allocator> Stage<A> {
    /// The stage before anything is read.
    pub(crate) fn start() -> Stage<A>
        ensures { (parts : spec.Parts) →
            spec.ahead_of parts result ≡ spec.before_index (spec.places_in parts) }
    {
        Stage::Filter(0)
    }
}

impl<A: Allocator> Unread<A> {
    /// The total size of the data blocks that are left, in bytes.
    pub(crate) fn size_left(&self) -> u64
        ensures { result ≡ self.now.counts.size }
    {
        self.counts.size
    }
}

/// The number of handles in a block, or 0 without one.
fn count_in<A: Allocator>(block: &Option<IndexBlock<A>>) -> usize
    ensures { result ≡ length (spec.handles_ahead 0 block.now) }
{
    match block {
        Some(block) => block.len(),
        None => 0,
    }
}

impl<A: Allocator> HandlesLeft<A> {
    /// No handles.
    fn none() -> HandlesLeft<A>
        ensures { result ≡ [] }
    {
        HandlesLeft {
            block: None,
            index: 0,
        }
    }

    /// All handles of a block.
    fn all(block: IndexBlock<A>) -> HandlesLeft<A>
        ensures { result ≡ block }
    {
        HandlesLeft {
            block: Some(block),
            index: 0,
        }
    }

    /// The next handle, if one is left, as its block and its index there. The handle is not cloned,
    /// so nothing is allocated.
    fn next(&self) -> Option<(&IndexBlock<A>, usize)>
        ensures some { IfSome result (λ next.
            spec.slice_get next.0.now next.1 ≡ spec.slice_get self.now 0) }
        ensures within { IfSome result (λ next. next.1 < length next.0.now) }
        ensures none { IfNone result (self.now ≡ []) }
    {
        match &self.block {
            Some(block) if self.index < block.len() => Some((block, self.index)),
            _ => None,
        }
    }

    /// Skips the next handle, if one is left.
    fn pass(&mut self)
        ensures { self.new ≡ drop 1 self.old }
    {
        if self.index < count_in(&self.block) {
            self.index += 1;
        }
    }
}

/// A copy of the counts and the last entry. Fails with `OutOfMemory` only.
fn copy_left<A: Allocator>(left: &Unread<A>) -> Result<Unread<A>, VerifyError>
    ensures ok { IfOk result (λ copy. copy ≡ left.now) }
    ensures err { IfErr result (λ e. e ≡ OutOfMemory) }
{
    match left.last.clone() {
        Ok(last) => Ok(Unread {
            last,
            counts: left.counts,
        }),
        Err(_) => Err(VerifyError::OutOfMemory),
    }
}

/// Reads the data block of the handle at an index, and returns the counts that are left after it.
///
/// The block is loaded before the handle is cloned. So a fault that is found before any allocation
/// takes precedence over `OutOfMemory`.
fn read_at<A: Allocator + Clone>(
    source: &BlockSource<A>,
    inner: &Inner<A>,
    left: &Unread<A>,
    handles: &IndexBlock<A>,
    index: usize,
) -> Result<Unread<A>, VerifyError>
    requires { index < length handles.now }
    ensures returned { (h : spec.Handle) → spec.slice_get handles.now index ≡ Some h →
        spec.Finds (λ (read : spec.UnreadLeft). read) result
        (spec.block_found (spec.body_of source.now) (spec.parts_of inner.now) left.now h) }
    ensures early { (h : spec.Handle) → spec.slice_get handles.now index ≡ Some h → spec.FindsFirst
        result (spec.chunk_early (spec.body_of source.now) (spec.parts_of inner.now) left.now.counts
        (spec.place_of h)) }
{
    let place = handles.place_at(index);
    let counts = count_at(inner, left.counts, &place)?;
    let block = load_chunk(source, &place)?;
    let handle = handle_at(handles, index)?;
    let mut read = copy_left(left)?;
    read.counts = counts;
    read_contents(source, inner, &mut read, &handle, &block)?;
    Ok(read)
}

/// Reads the data block of the next handle, if one is left. On an error nothing changes.
fn step_block<A: Allocator + Clone>(
    source: &BlockSource<A>,
    inner: &Inner<A>,
    handles: &mut HandlesLeft<A>,
    left: &mut Unread<A>,
) -> Result<bool, VerifyError>
    ensures read { IfOk result (λ read. read ≡ true →
        (h : spec.Handle) × (handles.old ≡ h ∷ handles.new) ×
        (spec.block_found (spec.body_of source.now) (spec.parts_of inner.now) left.old h
        ≡ Ok left.new)) }
    ensures none { IfOk result (λ read. read ≡ false →
        (handles.old ≡ []) × (handles.new ≡ []) × (left.new ≡ left.old)) }
    ensures refused { IfErr result (λ e. spec.Misses e
        (spec.blocks_found (spec.body_of source.now) (spec.parts_of inner.now) left.old
        handles.old)) }
    ensures next { (h : spec.Handle) (rest : List spec.Handle) → handles.old ≡ h ∷ rest →
        IfErr result (λ e. spec.Misses e
        (spec.block_found (spec.body_of source.now) (spec.parts_of inner.now) left.old h)) }
    ensures early { (h : spec.Handle) (rest : List spec.Handle) → handles.old ≡ h ∷ rest →
        spec.FindsFirst result (spec.chunk_early (spec.body_of source.now) (spec.parts_of inner.now)
        left.old.counts (spec.place_of h)) }
    ensures calm { handles.old ≡ [] → IsOk result }
    ensures unchanged { IfErr result (λ _.
        (handles.new ≡ handles.old) × (left.new ≡ left.old)) }
{
    let (block, index) = match handles.next() {
        Some(next) => next,
        None => return Ok(false),
    };
    let read = read_at(source, inner, left, block, index)?;
    *left = read;
    handles.pass();
    Ok(true)
}

/// Loads the index partition of the handle at an index in the top level. As in [`read_at`], the
/// block is loaded before the handle is cloned.
fn load_partition<A: Allocator + Clone>(
    source: &BlockSource<A>,
    tops: &IndexBlock<A>,
    index: usize,
) -> Result<IndexBlock<A>, VerifyError>
    requires { index < length tops.now }
    ensures returned { (top : spec.Handle) → spec.slice_get tops.now index ≡ Some top →
        spec.Finds (λ (handles : List spec.Handle). handles) result
        (spec.partition_found (spec.body_of source.now) top) }
    ensures early { (top : spec.Handle) → spec.slice_get tops.now index ≡ Some top →
        let body = spec.body_of source.now in
        spec.FindsFirst result (spec.early_at body section.Index (spec.place_of top) block.Index) }
{
    let handles = load_part(source, SectionName::Index, &tops.place_at(index))?;
    let top = handle_at(tops, index)?;
    test_top(&top, &handles)?;
    Ok(handles)
}

/// Reads the partition of the next handle in the top level, if one is left. On an error nothing
/// changes.
fn step_part<A: Allocator + Clone>(
    source: &BlockSource<A>,
    tops: &mut HandlesLeft<A>,
) -> Result<Option<IndexBlock<A>>, VerifyError>
    ensures read { IfOk result (λ read. IfSome read (λ handles.
        (top : spec.Handle) × (tops.old ≡ top ∷ tops.new) ×
        (spec.partition_found (spec.body_of source.now) top ≡ Ok handles))) }
    ensures none { IfOk result (λ read. IfNone read ((tops.old ≡ []) × (tops.new ≡ []))) }
    ensures refused { IfErr result (λ e. (top : spec.Handle) (rest : List spec.Handle) →
        tops.old ≡ top ∷ rest →
        spec.Misses e (spec.partition_found (spec.body_of source.now) top)) }
    ensures early { (top : spec.Handle) (rest : List spec.Handle) → tops.old ≡ top ∷ rest →
        let body = spec.body_of source.now in
        spec.FindsFirst result (spec.early_at body section.Index (spec.place_of top) block.Index) }
    ensures calm { tops.old ≡ [] → IsOk result }
    ensures unchanged { IfErr result (λ _. tops.new ≡ tops.old) }
{
    let (block, index) = match tops.next() {
        Some(next) => next,
        None => return Ok(None),
    };
    let handles = load_partition(source, block, index)?;
    tops.pass();
    Ok(Some(handles))
}

/// Reads the next data block or, if the current partition has none left, the next partition. If
/// none is left, it checks the end and returns `true`. On `true` and on an error nothing changes.
fn step_index<A: Allocator + Clone>(
    source: &BlockSource<A>,
    inner: &Inner<A>,
    handles: &mut HandlesLeft<A>,
    tops: &mut HandlesLeft<A>,
    left: &mut Unread<A>,
) -> Result<bool, VerifyError>
    ensures goes { IfOk result (λ ends. ends ≡ false →
        spec.GoesOne (spec.body_of source.now) (spec.parts_of inner.now)
        (spec.in_index handles.old tops.old) left.old
        (spec.in_index handles.new tops.new) left.new) }
    ensures ends { IfOk result (λ ends. ends ≡ true →
        spec.IsThrough (spec.body_of source.now) (spec.parts_of inner.now)
        (spec.in_index handles.old tops.old) left.old) }
    ensures answered { IfOk result (λ ends. ends ≡ true →
        (handles.new ≡ handles.old) × (tops.new ≡ tops.old) × (left.new ≡ left.old)) }
    ensures refused { let ahead = spec.in_index handles.old tops.old in
        IfErr result (λ e. spec.Misses e
        (spec.rest_found (spec.body_of source.now) (spec.parts_of inner.now) ahead left.old)) }
    ensures next { let ahead = spec.in_index handles.old tops.old in
        IfErr result (λ e. spec.Misses e
        (spec.next_found (spec.body_of source.now) (spec.parts_of inner.now) ahead left.old)) }
    ensures early { let ahead = spec.in_index handles.old tops.old in
        spec.FindsFirst result (spec.step_early (spec.body_of source.now) (spec.parts_of inner.now)
        ahead left.old) }
    ensures calm { spec.StepsCalmly (spec.body_of source.now) (spec.in_index handles.old tops.old)
        left.old → IfErr result (λ e. spec.is_found e ≡ true) }
    ensures unchanged { IfErr result (λ _.
        (handles.new ≡ handles.old) × (tops.new ≡ tops.old) × (left.new ≡ left.old)) }
{
    if step_block(source, inner, handles, left)? {
        return Ok(false);
    }
    match step_part(source, tops)? {
        Some(block) => {
            *handles = HandlesLeft::all(block);
            Ok(false)
        }
        None => {
            test_left(source, inner, left)?;
            Ok(true)
        }
    }
}

/// The handle of the filter block at an index, if there is one.
fn filter_at<A: Allocator>(inner: &Inner<A>, index: usize) -> Option<BlockHandle>
    ensures place { result ≡ spec.slice_get (spec.places_in (spec.parts_of inner.now)) index }
    ensures room { IfSome result (λ _. index < 2 ^ 64 - 1) }
{
    match &inner.pinned_filter_index {
        Some(tops) => {
            if index < tops.len() {
                Some(tops.place_at(index))
            } else {
                None
            }
        }
        None => {
            if index == 0 {
                inner.regions.filter
            } else {
                None
            }
        }
    }
}

/// Reads the block of a full index, or the top level of a partitioned one.
fn open_index<A: Allocator + Clone>(
    source: &BlockSource<A>,
    inner: &Inner<A>,
) -> Result<Stage<A>, VerifyError>
    ensures goes { (left : spec.UnreadLeft) → let parts = spec.parts_of inner.now in
        IfOk result (λ stage. spec.GoesOne (spec.body_of source.now) parts (spec.before_index [])
        left (spec.ahead_of parts stage) left) }
    ensures refused { (left : spec.UnreadLeft) → IfErr result (λ e. spec.Misses e
        (spec.rest_found (spec.body_of source.now) (spec.parts_of inner.now) (spec.before_index [])
        left)) }
    ensures next { let tli = (spec.parts_of inner.now).regions.tli in
        IfErr result (λ e. spec.Misses e
        (spec.passed (spec.handles_found (spec.body_of source.now) section.Tli tli))) }
    ensures early { let tli = (spec.parts_of inner.now).regions.tli in
        spec.FindsFirst result
        (spec.early_at (spec.body_of source.now) section.Tli tli block.Index) }
{
    let handles = load_part(source, SectionName::Tli, &inner.regions.tli)?;
    let handles = HandlesLeft::all(handles);
    match inner.regions.index {
        None => Ok(Stage::Index {
            handles,
            tops: HandlesLeft::none(),
        }),
        Some(_) => Ok(Stage::Index {
            handles: HandlesLeft::none(),
            tops: handles,
        }),
    }
}

/// Reads the filter block at an index or, after the last, the index block.
fn step_filter<A: Allocator + Clone>(
    source: &BlockSource<A>,
    inner: &Inner<A>,
    index: usize,
) -> Result<Stage<A>, VerifyError>
    ensures goes { (left : spec.UnreadLeft) → let parts = spec.parts_of inner.now in let ahead =
        spec.filters_from parts index in IfOk result (λ stage. spec.GoesOne (spec.body_of
        source.now) parts ahead left (spec.ahead_of parts stage) left) }
    ensures refused { (left : spec.UnreadLeft) → let parts = spec.parts_of inner.now in let ahead =
        spec.filters_from parts index in IfErr result (λ e. spec.Misses e (spec.rest_found
        (spec.body_of source.now) parts ahead left)) }
    ensures next { (left : spec.UnreadLeft) → let parts = spec.parts_of inner.now in let ahead =
        spec.filters_from parts index in IfErr result (λ e. spec.Misses e (spec.next_found
        (spec.body_of source.now) parts ahead left)) }
    ensures early { (left : spec.UnreadLeft) → let parts = spec.parts_of inner.now in let ahead =
        spec.filters_from parts index in spec.FindsFirst result (spec.step_early (spec.body_of
        source.now) parts ahead left) }
{
    match filter_at(inner, index) {
        Some(place) => {
            test_filter(source, &place)?;
            Ok(Stage::Filter(index + 1))
        }
        None => open_index(source, inner),
    }
}

/// Reads one more block of a table or, if none is left, checks the end and returns `true`. On
/// `true` and on an error nothing changes.
pub(crate) fn step_stage<A: Allocator + Clone>(
    source: &BlockSource<A>,
    inner: &Inner<A>,
    stage: &mut Stage<A>,
    left: &mut Unread<A>,
) -> Result<bool, VerifyError>
    ensures goes { let parts = spec.parts_of inner.now in IfOk result (λ ends. ends ≡ false →
        spec.GoesOne (spec.body_of source.now) parts (spec.ahead_of parts stage.old) left.old
        (spec.ahead_of parts stage.new) left.new) }
    ensures ends { let parts = spec.parts_of inner.now in IfOk result (λ ends. ends ≡ true →
        spec.IsThrough (spec.body_of source.now) parts (spec.ahead_of parts stage.old) left.old) }
    ensures answered { IfOk result (λ ends. ends ≡ true →
        (stage.new ≡ stage.old) × (left.new ≡ left.old)) }
    ensures refused { let parts = spec.parts_of inner.now in
        let ahead = spec.ahead_of parts stage.old in
        IfErr result (λ e. spec.Misses e
        (spec.rest_found (spec.body_of source.now) parts ahead left.old)) }
    // A fault is in the next block, or at the end.
    ensures next { let parts = spec.parts_of inner.now in
        let ahead = spec.ahead_of parts stage.old in
        IfErr result (λ e. spec.Misses e
        (spec.next_found (spec.body_of source.now) parts ahead left.old)) }
    // A fault that is found before any allocation takes precedence over `OutOfMemory`.
    ensures early { let parts = spec.parts_of inner.now in
        let ahead = spec.ahead_of parts stage.old in
        spec.FindsFirst result (spec.step_early (spec.body_of source.now) parts ahead left.old) }
    ensures calm { let ahead = spec.ahead_of (spec.parts_of inner.now) stage.old in
        spec.StepsCalmly (spec.body_of source.now) ahead left.old →
        IfErr result (λ e. spec.is_found e ≡ true) }
    ensures unchanged { IfErr result (λ _. (stage.new ≡ stage.old) × (left.new ≡ left.old)) }
{
    match stage {
        Stage::Filter(index) => {
            *stage = step_filter(source, inner, *index)?;
            Ok(false)
        }
        Stage::Index { handles, tops } => step_index(source, inner, handles, tops, left),
    }
}
