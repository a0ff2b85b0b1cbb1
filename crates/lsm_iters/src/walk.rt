//! Double-ended iteration over the items of lazily loaded parts.
ghost use Rattle.std.specs.Prelude.{◌≡◌, Some};
ghost use Rattle.lsm_iters.specs.Words as spec;

use crate::ends::step_in;
use crate::{Ends, Parts};
use sst_entries::{Direction, Error};
use std::mem;

/// A double-ended iteration over the items of all parts.
///
/// It loads a part when a step first needs it. If no part is left to load, an end takes from the
/// part loaded at the other end. As [`Ends`] it is exhausted at both ends after an error.
#[derive(Drop)]
pub struct Walk<P, T> {
    /// The parts that are not loaded yet.
    pub parts: P,
    /// The part that is loaded at the front.
    pub front: Option<T>,
    /// The part that is loaded at the back.
    pub back: Option<T>,
}

impl<P: Parts> Walk<P, P::Part>
where
    P::Part: Drop,
{
    /// Returns an iteration over parts; nothing is loaded yet.
    pub fn new(parts: P) -> Self
        ensures { result ≡ record { parts = parts; front = None; back = None } }
    {
        Walk {
            parts,
            front: None,
            back: None,
        }
    }

    /// Takes the next item of the part loaded at this end.
    #[inline(always)]
    fn step_near(&mut self, at: Direction) -> Option<Result<<P::Part as Ends>::Item, Error>>
        ensures gives { let old = spec.remains_in P.Part.left (spec.near at self.old) in
            spec.StepGives at old result (spec.remains_in P.Part.left (spec.near at self.new)) }
        ensures is { self.new ≡ spec.with_near at self.old (spec.near at self.new) }
    {
        match at {
            Direction::Front => step_in(&mut self.front, at),
            Direction::Back => step_in(&mut self.back, at),
        }
    }

    /// Takes the next item of the part loaded at the other end.
    #[inline(always)]
    fn step_far(&mut self, at: Direction) -> Option<Result<<P::Part as Ends>::Item, Error>>
        ensures gives { let old = spec.remains_in P.Part.left (spec.far at self.old) in
            spec.StepGives at old result (spec.remains_in P.Part.left (spec.far at self.new)) }
        ensures is { self.new ≡ spec.with_far at self.old (spec.far at self.new) }
    {
        match at {
            Direction::Front => step_in(&mut self.back, at),
            Direction::Back => step_in(&mut self.front, at),
        }
    }

    /// Replaces the part loaded at an end.
    #[inline(always)]
    fn put(&mut self, part: P::Part, at: Direction)
        ensures { self.new ≡ spec.with_near at self.old (Some part) }
    {
        match at {
            Direction::Front => drop(mem::replace(&mut self.front, Some(part))),
            Direction::Back => drop(mem::replace(&mut self.back, Some(part))),
        }
    }

    /// Takes the next item at an end.
    ///
    /// After an error it is not exhausted yet; the caller must call [`Self::end`].
    #[inline(always)]
    pub fn take(&mut self, at: Direction) -> Option<Result<<P::Part as Ends>::Item, Error>>
        ensures { spec.WalkTakes P.Part.left P.coming P.keeps at self.old result self.new }
    {
        loop {
            if let Some(item) = self.step_near(at) {
                return Some(item);
            }
            match self.parts.load(at) {
                Some(Ok(part)) => self.put(part, at),
                Some(Err(error)) => return Some(Err(error)),
                None => return self.step_far(at),
            }
        }
    }

    /// Drops everything that is left, at both ends.
    pub fn end(&mut self)
        ensures { spec.Ended P.coming P.ends self.old self.new }
    {
        self.parts.end();
        drop(self.front.take());
        drop(self.back.take());
    }
}

impl<P: Parts> Ends for Walk<P, P::Part>
where
    P::Part: Drop,
{
    type Item = <P::Part as Ends>::Item;

    ghost left = { spec.walk_left P.Part.left P.coming };

    #[inline(always)]
    fn step(&mut self, at: Direction) -> Option<Result<<P::Part as Ends>::Item, Error>>
        ensures gives { let left = spec.walk_left P.Part.left P.coming in
            spec.StepGives at (left self.old) result (left self.new) }
        ensures walk { spec.WalkGives P.Part.left P.coming P.keeps P.ends at self.old result
            self.new }
    {
        match self.take(at) {
            Some(Ok(item)) => Some(Ok(item)),
            Some(Err(error)) => {
                self.end();
                Some(Err(error))
            }
            None => None,
        }
    }
}
