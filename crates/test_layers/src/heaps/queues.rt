//! The priority queues over numbers, each with the room that it was made with, and a count of the
//! numbers in a queue.
ghost use Rattle.std.specs.Prelude.{◌≡◌, ℕ};

use lsm_sorted::{IntervalHeap, LazyTournament, Tournament};
use sst_entries::Error;
use std::alloc::Allocator;
use std::marker::Model;

/// A turn of a queue: pushes a number if there is room, or pops the least or the greatest.
#[derive(Clone, Copy)]
pub(crate) enum Turn {
    Add(u8),
    Least,
    Greatest,
}

/// A queue of numbers, with room for some.
pub(crate) trait Queue {
    /// Takes a turn. Returns the number that was popped, how many numbers are left, and how many
    /// comparisons were made, if they are counted.
    fn take(&mut self, turn: Turn) -> (Option<u8>, usize, u64);
}

#[derive(Drop)]
pub(crate) struct Played<A: Allocator> {
    queue: Tournament<u8, A>,
    room: usize,
}

impl<A: Allocator> Model for Played<A> {
    ghost Value = { ℕ };

    ghost view = { λ q. q.room };

    ghost invariant = { λ q. q.queue.room ≡ q.room };
}

pub(crate) fn tournament<A: Allocator + Clone>(alloc: A, room: usize) -> Result<Played<A>, Error> {
    let queue = Tournament::with_capacity(alloc, room)?;
    Ok(Played { queue, room })
}

impl<A: Allocator> Queue for Played<A> {
    fn take(&mut self, turn: Turn) -> (Option<u8>, usize, u64) {
        let mut taken = None;
        match turn {
            Turn::Add(number) => {
                if self.queue.len() < self.room {
                    self.queue.push(number);
                }
            }
            Turn::Least => taken = self.queue.pop_min(),
            Turn::Greatest => taken = self.queue.pop_max(),
        }
        (taken, self.queue.len(), self.queue.steps())
    }
}

#[derive(Drop)]
pub(crate) struct Heaped<A: Allocator> {
    queue: IntervalHeap<u8, A>,
    room: usize,
}

impl<A: Allocator> Model for Heaped<A> {
    ghost Value = { ℕ };

    ghost view = { λ q. q.room };

    ghost invariant = { λ q. q.queue.room ≡ q.room };
}

pub(crate) fn interval_heap<A: Allocator>(alloc: A, room: usize) -> Result<Heaped<A>, Error> {
    let queue = IntervalHeap::with_capacity(alloc, room)?;
    Ok(Heaped { queue, room })
}

impl<A: Allocator> Queue for Heaped<A> {
    fn take(&mut self, turn: Turn) -> (Option<u8>, usize, u64) {
        let mut taken = None;
        match turn {
            Turn::Add(number) => {
                if self.queue.len() < self.room {
                    self.queue.push(number);
                }
            }
            Turn::Least => taken = self.queue.pop_min(),
            Turn::Greatest => taken = self.queue.pop_max(),
        }
        (taken, self.queue.len(), 0)
    }
}

#[derive(Drop)]
pub(crate) struct Lazy<A: Allocator> {
    queue: LazyTournament<u8, A>,
    room: usize,
}

impl<A: Allocator> Model for Lazy<A> {
    ghost Value = { ℕ };

    ghost view = { λ q. q.room };

    ghost invariant = { λ q. q.queue.room ≡ q.room };
}

pub(crate) fn lazy_tournament<A: Allocator + Clone>(
    alloc: A,
    room: usize,
) -> Result<Lazy<A>, Error> {
    let queue = LazyTournament::with_capacity(alloc, room)?;
    Ok(Lazy { queue, room })
}

impl<A: Allocator> Queue for Lazy<A> {
    fn take(&mut self, turn: Turn) -> (Option<u8>, usize, u64) {
        let mut taken = None;
        match turn {
            Turn::Add(number) => {
                if self.queue.len() < self.room {
                    self.queue.push(number);
                }
            }
            Turn::Least => taken = self.queue.pop_min(),
            Turn::Greatest => taken = self.queue.pop_max(),
        }
        (taken, self.queue.len(), self.queue.steps())
    }
}

/// A multiset of the numbers 0 to 2, by their counts.
#[derive(Drop)]
pub(crate) struct Counts {
    pub(crate) of: [usize; 3],
}

impl Counts {
    /// Counts a number that is pushed, or removes the least or the greatest.
    pub(crate) fn take(&mut self, turn: Turn) -> Option<u8> {
        let numbers = match turn {
            Turn::Add(number) => {
                if let Some(count) = self.of.get_mut(number as usize) {
                    *count = count.saturating_add(1);
                }
                return None;
            }
            Turn::Least => [0u8, 1, 2],
            Turn::Greatest => [2, 1, 0],
        };
        for number in numbers {
            if let Some(count) = self.of.get_mut(number as usize) {
                if *count > 0 {
                    *count -= 1;
                    return Some(number);
                }
            }
        }
        None
    }

    pub(crate) fn len(&self) -> usize {
        let [zeros, ones, twos] = self.of;
        zeros.saturating_add(ones).saturating_add(twos)
    }
}
