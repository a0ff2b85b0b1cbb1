//! One step of a lending range of a table, at either end.
ghost use Rattle.std.specs.Prelude.{◌≡◌, ◌+◌, ◌<◌, ◌^◌, Ok, Err, IfErr, IfOk, MatchOption, None};
ghost use Rattle.std.specs.Prelude.{Option, Some, is_some, true};
ghost use Rattle.lsm_iters.specs.Words as spec;

use crate::block_cursor::BlockCursor;
use crate::blocks::Blocks;
use crate::{Parts, Walk, lift_seqno};
use sst_blocks::{EntryRef, Error, InternalValue};
use sst_entries::Direction;
use std::alloc::Allocator;
use std::mem;

/// The data blocks of a table that hold a range.
pub(crate) type RangeWalk<A> = Walk<Blocks<A>, BlockCursor<A>>;

// Moves to the next entry at an end of a loaded block and returns whether there is one.
#[inline(always)]
fn move_in<A: Allocator>(part: &mut Option<BlockCursor<A>>, at: Direction) -> bool
    ensures moved { spec.LendsAt at part.old part.new }
    ensures more { result ≡ is_some (spec.lent_in part.new) }
{
    match part {
        Some(part) => part.move_to(at),
        None => false,
    }
}

// Moves to the next entry of the block loaded at an end and returns whether there is one.
#[inline(always)]
fn move_near<A: Allocator>(walk: &mut RangeWalk<A>, at: Direction) -> bool
    ensures is { walk.new ≡ spec.with_near at walk.old (spec.near at walk.new) }
    ensures moved { spec.LendsAt at (spec.near at walk.old) (spec.near at walk.new) }
    ensures more { result ≡ is_some (spec.lent_in (spec.near at walk.new)) }
{
    match at {
        Direction::Front => move_in(&mut walk.front, at),
        Direction::Back => move_in(&mut walk.back, at),
    }
}

// Replaces the block loaded at an end.
#[inline(always)]
fn put<A: Allocator>(walk: &mut RangeWalk<A>, part: BlockCursor<A>, at: Direction)
    ensures { walk.new ≡ spec.with_near at walk.old (Some part) }
{
    match at {
        Direction::Front => drop(mem::replace(&mut walk.front, Some(part))),
        Direction::Back => drop(mem::replace(&mut walk.back, Some(part))),
    }
}

// Moves to the next entry of the block at the other end and returns whether there is one. The
// blocks are swapped, since an end lends only from its own block.
fn move_far<A: Allocator>(walk: &mut RangeWalk<A>, at: Direction) -> bool
    ensures is { walk.new ≡ spec.with_near at (spec.swapped walk.old) (spec.near at walk.new) }
    ensures moved { spec.LendsAt at (spec.far at walk.old) (spec.near at walk.new) }
    ensures more { result ≡ is_some (spec.lent_in (spec.near at walk.new)) }
{
    mem::swap(&mut walk.front, &mut walk.back);
    move_near(walk, at)
}

/// Returns the current entry of a loaded block, as stored.
#[inline(always)]
pub(crate) fn entry_in<A: Allocator>(part: &Option<BlockCursor<A>>) -> Option<EntryRef<'_>>
    ensures { spec.option_map spec.entry_of_ref result ≡ spec.lent_in part.now }
{
    match part {
        Some(part) => part.entry(),
        None => None,
    }
}

/// Returns the current entry, sharing the block's memory. Fails with [`Error::OutOfMemory`] only.
#[inline(always)]
pub(crate) fn share_in<A: Allocator>(
    part: &Option<BlockCursor<A>>,
) -> Result<InternalValue<A>, Error>
    requires { is_some (spec.lent_in part.now) ≡ true }
    ensures found { IfOk result (λ e. spec.lent_in part.now ≡ Some e) }
    ensures err { IfErr result (λ e. e ≡ spec.OutOfMemory) }
{
    let Some(part) = part else { unreachable!() };
    part.share()
}

/// Clears the current entry of a loaded block until it moves.
#[inline(always)]
pub(crate) fn unlend_in<A: Allocator>(part: &mut Option<BlockCursor<A>>)
    ensures none { spec.lent_in part.new ≡ None }
    ensures left { spec.behind_in part.new ≡ spec.behind_in part.old }
{
    if let Some(part) = part {
        part.unlend();
    }
}

// Advances to the next entry at an end, as stored, and returns whether there is one. Loading the
// next block drops the loaded one with its current entry.
#[inline(always)]
fn step<A: Allocator + Clone>(walk: &mut RangeWalk<A>, at: Direction) -> Result<bool, Error>
    ensures takes { spec.WalkTakes spec.cursor_remains spec.coming_blocks spec.KeepsBlocks at
        walk.old (spec.came result (spec.lent_in (spec.near at walk.new))) walk.new }
    ensures there { (e : spec.Entry) → (spec.taken_at at (spec.behind_in (spec.near at walk.old))).0
        ≡ Some e → spec.came result (spec.lent_in (spec.near at walk.new)) ≡ Some (Ok e) }
{
    loop {
        if move_near(walk, at) {
            return Ok(true);
        }
        match walk.parts.load(at) {
            Some(Ok(part)) => put(walk, part, at),
            Some(Err(error)) => return Err(error),
            None => return Ok(move_far(walk, at)),
        }
    }
}

/// Returns the block that is loaded at an end.
#[inline(always)]
pub(crate) fn near<A: Allocator>(walk: &RangeWalk<A>, at: Direction) -> &Option<BlockCursor<A>>
    ensures { result.now ≡ spec.near at walk.now }
{
    match at {
        Direction::Front => &walk.front,
        Direction::Back => &walk.back,
    }
}

// Returns whether the block at an end has a current entry. Fails with [`Error::SeqNoOverflow`] if
// its sequence number overflows with the global one added.
#[inline(always)]
fn lends<A: Allocator>(walk: &RangeWalk<A>, at: Direction) -> Result<bool, Error>
    ensures lifted { spec.came result (spec.lent_at at walk.now) ≡
        spec.lifted_answer walk.now.parts.of.global_seqno (spec.option_map (λ e. Ok e)
        (spec.lent_in (spec.near at walk.now))) }
    ensures more { IfOk result (λ more. more ≡ is_some (spec.lent_at at walk.now)) }
    ensures fits { IfOk result (λ _. MatchOption (spec.lent_in (spec.near at walk.now)) (Unit {0})
        (λ e. e.seqno + walk.now.parts.of.global_seqno < 2 ^ 64)) }
{
    match entry_in(near(walk, at)) {
        None => Ok(false),
        Some(entry) => match lift_seqno(entry.seqno, walk.parts.global_seqno) {
            Ok(_) => Ok(true),
            Err(error) => Err(error),
        },
    }
}

/// Advances to the next entry at an end and returns whether there is one.
///
/// After an error the iteration is not exhausted yet; the caller must call [`end`].
#[inline(always)]
pub(crate) fn next_entry<A: Allocator + Clone>(
    walk: &mut RangeWalk<A>,
    at: Direction,
) -> Result<bool, Error>
    ensures ok { (l : Option spec.Entry) → IfOk result (λ _. spec.RangeLendsAt at
        (spec.range_lending walk.old l) (spec.came result (spec.lent_at at walk.new))
        (spec.range_at at walk.new)) }
    ensures more { IfOk result (λ more. more ≡ is_some (spec.lent_at at walk.new)) }
    ensures fits { IfOk result (λ _. MatchOption (spec.lent_in (spec.near at walk.new)) (Unit {0})
        (λ e. e.seqno + walk.new.parts.of.global_seqno < 2 ^ 64)) }
    ensures err { (l : Option spec.Entry) → IfErr result (λ e. spec.RangeLendsAt at
        (spec.range_lending walk.old l) (Some (Err e)) (spec.over (spec.range_at at walk.new))) }
{
    if let Err(refusal) = walk.parts.initialize() {
        return Err(refusal);
    }
    if let Err(error) = step(walk, at) {
        return Err(error);
    }
    lends(walk, at)
}

/// Drops the current entry and everything that is left.
pub(crate) fn end<A: Allocator + Clone>(walk: &mut RangeWalk<A>)
    ensures over { (at : Direction) →
        spec.range_at at walk.new ≡ spec.over (spec.range_at at walk.old) }
    ensures none { (at : Direction) → spec.lent_in (spec.near at walk.new) ≡ None }
{
    walk.parts.end();
    walk.front = None;
    walk.back = None;
}
