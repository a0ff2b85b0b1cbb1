//! One step of a lending reader of a run, from the front.
ghost use Rattle.std.specs.Prelude.{◌≡◌, None, Some, IfOk, Result, is_some};
ghost use Rattle.lsm_runs.specs.Words as spec;

use lsm_iters::{Iter, Parts, Walk};
use lsm_run_parts::Unopened;
use sst_blocks::{EntryRef, Error, Lending};
use sst_entries::Direction;
use std::alloc::Allocator;
use std::mem;

/// The iteration over the tables of a run.
pub(crate) type RunWalk<A> = Walk<Unopened<A>, Iter<A>>;

// Advances to the next entry of a table, if one is open; returns whether there is one.
#[inline]
fn advance_in<A: Allocator + Clone>(part: &mut Option<Iter<A>>) -> Result<bool, Error>
    ensures lends { spec.ReaderLends part.old (spec.came result (spec.lent_of_reader part.new))
        part.new }
    ensures more { IfOk result (λ more. more ≡ is_some (spec.lent_of_reader part.new)) }
{
    match part {
        Some(part) => part.advance(),
        None => Ok(false),
    }
}

// Drops a reader for the next one. Generic, so that a proof does not unfold a reader's parts.
fn put<T: Drop>(part: &mut Option<T>, next: T)
    ensures { part.new ≡ Some next }
{
    drop(mem::replace(part, Some(next)));
}

// Drops a reader.
fn let_go<T: Drop>(part: &mut Option<T>)
    ensures { part.new ≡ None }
{
    drop(part.take());
}

// Advances in the table at the back, when no other is left; returns whether there is an entry. The
// table moves to the front, so that only the front table ever lends.
fn advance_last<A: Allocator + Clone>(walk: &mut RunWalk<A>) -> Result<bool, Error>
    ensures is { walk.new ≡ record walk.old { front = walk.new.front; back = walk.old.front } }
    ensures lends { spec.ReaderLends walk.old.back
        (spec.came result (spec.lent_of_reader walk.new.front)) walk.new.front }
    ensures more { IfOk result (λ more. more ≡ is_some (spec.lent_of_reader walk.new.front)) }
{
    mem::swap(&mut walk.front, &mut walk.back);
    advance_in(&mut walk.front)
}

/// The entry lent from a table, if one is open.
#[inline(always)]
pub(crate) fn entry_in<A: Allocator + Clone>(part: &Option<Iter<A>>) -> Option<EntryRef<'_>>
    ensures { spec.option_map spec.entry_of_ref result ≡ spec.lent_of_reader part.now }
{
    match part {
        Some(part) => part.entry(),
        None => None,
    }
}

/// Lends nothing from a table, if one is open, until it advances.
#[inline(always)]
pub(crate) fn unlend_in<A: Allocator + Clone>(part: &mut Option<Iter<A>>)
    ensures { part.new ≡ spec.option_map spec.without_lent part.old }
{
    if let Some(part) = part {
        part.unlend();
    }
}

// Opens the next table and puts it at the front; `None` if none is left. Not inlined, so that room
// for a reader is made once a table, not once an entry.
#[inline(never)]
fn open_next<A: Allocator + Clone>(walk: &mut RunWalk<A>) -> Option<Result<(), Error>>
    ensures { spec.OpensNext walk.old result walk.new }
{
    match walk.parts.load(Direction::Front) {
        Some(Ok(reader)) => {
            put(&mut walk.front, reader);
            Some(Ok(()))
        }
        Some(Err(error)) => Some(Err(error)),
        None => None,
    }
}

/// Advances to the next entry; returns whether there is one. An error does not end the iteration
/// yet. Opening the next table drops the current one, with the entry lent from it.
#[inline]
pub(crate) fn step<A: Allocator + Clone>(walk: &mut RunWalk<A>) -> Result<bool, Error>
    ensures takes { spec.WalkTakes spec.range_remains spec.coming_tables spec.KeepsTables spec.Front
        walk.old (spec.came result (spec.lent_of_reader walk.new.front)) walk.new }
    ensures there { (x : Result spec.Entry spec.Error) → spec.Stands walk.old.front x →
        spec.came result (spec.lent_of_reader walk.new.front) ≡ Some x }
    ensures more { IfOk result (λ more. more ≡ is_some (spec.lent_of_reader walk.new.front)) }
{
    loop {
        if advance_in(&mut walk.front)? {
            return Ok(true);
        }
        match open_next(walk) {
            Some(Ok(())) => {}
            Some(Err(error)) => return Err(error),
            None => return advance_last(walk),
        }
    }
}

/// Drops what is lent and what is left.
pub(crate) fn end<A: Allocator + Clone>(walk: &mut RunWalk<A>)
    ensures { spec.run_of walk.new ≡ spec.over_run (spec.run_of walk.old) }
{
    walk.parts.end();
    let_go(&mut walk.front);
    let_go(&mut walk.back);
}
