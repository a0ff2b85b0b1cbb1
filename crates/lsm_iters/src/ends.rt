//! The trait for sequences that are taken from both ends.
ghost use Rattle.lsm_iters.specs.Words as spec;

use sst_entries::{Direction, Error};

/// A sequence whose items are taken from either end.
pub trait Ends {
    type Item;

    // The results that are left, and how many loads they may take.
    ghost left: { Self → spec.Remains Self.Item };

    /// Takes the next item at an end.
    fn step(&mut self, at: Direction) -> Option<Result<Self::Item, Error>>
        ensures { spec.StepGives at (left self.old) result (left self.new) };
}

/// Takes the next item at an end of a part, if there is a part.
#[inline(always)]
pub fn step_in<T: Ends>(part: &mut Option<T>, at: Direction) -> Option<Result<T::Item, Error>>
    ensures { spec.StepGives at (spec.remains_in T.left part.old) result
        (spec.remains_in T.left part.new) }
{
    match part {
        Some(part) => part.step(at),
        None => None,
    }
}
