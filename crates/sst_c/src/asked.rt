//! The newest versions in several runs, read from both ends.
ghost use Rattle.std.specs.Prelude.{◌≡◌, false, true};
ghost use Rattle.sst_c.specs.Words as spec;

use lsm_runs::NewestOfRunsAt;
use lsm_sorted::NewestOf;
use sst_blocks::IterItem;
use std::alloc::Global;
use std::marker::Model;

/// A stream of the newest versions visible at a snapshot of several runs, read from both ends.
pub(crate) type NewestAt = NewestOfRunsAt<Global>;

/// The newest versions visible at a snapshot of several runs, read from both ends.
///
/// It can be stepped any number of times, also after the end. Contracts see the stream.
#[derive(Drop)]
pub struct Asked {
    newest: NewestAt,
}

impl Model for Asked {
    ghost use Rattle.sst_entries.specs.Stream.{CanYield};
    ghost use Rattle.sst_c.specs.Newest.{NewestAt};

    ghost Value = { NewestAt };

    ghost view = { λ a. a.newest };

    ghost invariant = { λ a. CanYield ⟦<NewestAt as Iterator>⟧.next_gives
        ⟦<NewestAt as DoubleEndedIterator>⟧.next_back_gives
        ⟦<NewestAt as Iterator>⟧.can_next
        ⟦<NewestAt as DoubleEndedIterator>⟧.can_next_back a.newest };
}

impl Asked {
    /// Wraps a stream that can be stepped any number of times.
    pub(crate) fn new(newest: NewestAt) -> Asked
        requires { let iter = ⟦<NewestAt as DoubleEndedIterator>⟧ in spec.CanYield
            iter.next_gives iter.next_back_gives iter.can_next iter.can_next_back newest }
        ensures { result ≡ newest }
    {
        Asked { newest }
    }

    /// Returns the next entry, from the back if `back` is set, else from the front.
    pub(crate) fn step(&mut self, back: bool) -> Option<IterItem<Global>>
        ensures front { back ≡ false →
            ⟦<NewestAt as Iterator>⟧.next_gives self.old result self.new }
        ensures back { back ≡ true →
            ⟦<NewestAt as DoubleEndedIterator>⟧.next_back_gives
            self.old result self.new }
    {
        step_of(&mut self.newest, back)
    }
}

// A step of a stream of newest versions. It is generic in its source: a proof about a call on the
// concrete stream costs much.
#[tactic(auto, using(crate::proofs::Asking::asking))]
fn step_of<S: DoubleEndedIterator<Item = IterItem<Global>>>(
    newest: &mut NewestOf<S, Global>,
    back: bool,
) -> Option<IterItem<Global>>
    requires { let iter = ⟦<NewestOf<S, Global> as DoubleEndedIterator>⟧ in spec.CanYield
        iter.next_gives iter.next_back_gives iter.can_next iter.can_next_back newest.old }
    ensures can { let iter = ⟦<NewestOf<S, Global> as DoubleEndedIterator>⟧ in spec.CanYield
        iter.next_gives iter.next_back_gives iter.can_next iter.can_next_back newest.new }
    ensures front { back ≡ false →
        ⟦<NewestOf<S, Global> as Iterator>⟧.next_gives newest.old result newest.new }
    ensures back { back ≡ true →
        ⟦<NewestOf<S, Global> as DoubleEndedIterator>⟧.next_back_gives
        newest.old result newest.new }
{
    if back {
        newest.next_back()
    } else {
        newest.next()
    }
}
