//! Iterations over entries and over the handles of the index, from both ends, and block by block.
use crate::digest::Digest;
use lsm_iters::{BlockIndexIter, BlockIndexIterImpl, Iter};
use lsm_readers::Scanner;
use sst_blocks::{Error, Opened};
use std::alloc::Allocator;

/// An iterator. Its callers are generic, so that a proof looks at none of its parts.
pub trait Walk {
    /// Adds the result of a step at an end. Returns whether it was not the end, and the blocks
    /// loaded so far.
    fn put_step(&mut self, digest: &mut Digest, is_back: bool) -> (bool, Opened);
}

impl<A: Allocator + Copy> Walk for Iter<A> {
    fn put_step(&mut self, digest: &mut Digest, is_back: bool) -> (bool, Opened) {
        let step = if is_back {
            self.next_back()
        } else {
            self.next()
        };
        (digest.put_step(&step), self.opened())
    }
}

impl<A: Allocator + Copy> Walk for BlockIndexIterImpl<A> {
    fn put_step(&mut self, digest: &mut Digest, is_back: bool) -> (bool, Opened) {
        let step = if is_back {
            self.next_back()
        } else {
            self.next()
        };
        (digest.put_handle(&step), self.opened())
    }
}

// A scan has a front only.
impl<A: Allocator + Copy> Walk for Scanner<A> {
    fn put_step(&mut self, digest: &mut Digest, _: bool) -> (bool, Opened) {
        (digest.put_step(&self.next()), self.opened())
    }
}

/// The ends of each two steps, `true` for the back.
pub const FRONTS: [bool; 2] = [false, false];

pub const BACKS: [bool; 2] = [true, true];

pub const IN_TURN: [bool; 2] = [false, true];

/// More steps than any table here has entries.
pub const ALL: usize = 1_000;

/// The items of an iteration, up to its end or to a number of steps.
pub fn put_steps<W: Walk + Drop>(
    digest: &mut Digest,
    made: Result<W, Error>,
    ends: [bool; 2],
    steps: usize,
) -> Result<(), Error> {
    let mut walk = made?;
    for step in 0..steps {
        if !walk.put_step(digest, ends[step % 2]).0 {
            break;
        }
    }
    Ok(())
}

/// The number of `None` results after which an iteration is left: the one at its end, and two more
/// from each end.
const NOTHING: u64 = 5;

// The result and the loads of each step of an iteration, to its end and after it.
fn put_to_end<W: Walk>(digest: &mut Digest, walk: &mut W, ends: [bool; 2]) {
    let mut nothing = 0u64;
    for step in 0..ALL {
        let ends = if nothing == 0 { ends } else { IN_TURN };
        let (is_some, opened) = walk.put_step(digest, ends[step % 2]);
        digest.put_loads(&opened);
        if !is_some {
            nothing = nothing.saturating_add(1);
        }
        if nothing == NOTHING {
            break;
        }
    }
}

/// The result and the loads of each step of an iteration, to its end and after it; or the error of
/// making it.
pub fn put_walk<W: Walk + Drop>(digest: &mut Digest, made: Result<W, Error>, ends: [bool; 2]) {
    match made {
        Ok(mut walk) => put_to_end(digest, &mut walk, ends),
        Err(error) => digest.put_error(&error),
    }
}
