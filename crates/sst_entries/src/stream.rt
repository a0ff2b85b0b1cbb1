//! Streams of results that are read from both ends.
ghost use Rattle.std.specs.Prelude.{Bool, IfOk, OnErr};
ghost use Rattle.sst_entries.specs.Words as spec;

use crate::{Error, InternalValue};
use std::alloc::{AllocError, Allocator, Global};

/// An end of a list; `Front` orders before `Back`.
#[derive(Clone, Copy, Debug, PartialEq, Eq, PartialOrd, Ord)]
pub enum Direction {
    /// The front, read by `next`.
    Front,
    /// The back, read by `next_back`.
    Back,
}

/// An item of a stream of entries: an entry or an error.
pub type IterItem<A = Global> = Result<InternalValue<A>, Error>;

/// Calls a source once at one end and returns its item.
pub fn answer_at<I: DoubleEndedIterator<Item = Result<X, Error>>, X>(
    source: &mut I,
    end: Direction,
) -> Option<Result<X, Error>>
    requires { spec.CanYield I.next_gives I.next_back_gives I.can_next I.can_next_back source.old }
    ensures steps { spec.Steps I.next_gives I.next_back_gives end source.old result source.new }
    ensures can { spec.CanYield I.next_gives I.next_back_gives I.can_next I.can_next_back
        source.new }
{
    match end {
        Direction::Front => source.next(),
        Direction::Back => source.next_back(),
    }
}

/// Calls a source at each end of a list and returns the items.
///
/// # Errors
///
/// Fails with `AllocError` if allocation fails. The source then keeps the state that the calls so
/// far produced. It may be called again in either case.
pub fn answers_at<I: DoubleEndedIterator<Item = Result<X, Error>>, X: Drop, A: Allocator>(
    alloc: A,
    source: &mut I,
    ends: &[Direction],
) -> Result<Vec<Option<Result<X, Error>>, A>, AllocError>
    requires { spec.CanYield I.next_gives I.next_back_gives I.can_next I.can_next_back source.old }
    ensures ran { IfOk result (λ answers.
        spec.Runs I.next_gives I.next_back_gives source.old ends.now answers.items source.new) }
    // Up to an error that stops the source, the items are those of its list.
    ensures yielded { IfOk result (λ answers.
        spec.AnswersOf I.next_gives I.next_back_gives source.old ends.now answers.items) }
    ensures refused { OnErr result (
        spec.LedBy I.next_gives I.next_back_gives source.old ends.now source.new) }
    ensures can { spec.CanYield I.next_gives I.next_back_gives I.can_next I.can_next_back
        source.new }
{
    let mut answers = Vec::new(alloc);
    for end in ends {
        let answer = answer_at(source, *end);
        answers.push(answer)?;
    }
    Ok(answers)
}

/// Returns an iterator that yields the vector's items, errors included.
pub fn source_of<X: Drop, A: Allocator>(
    items: Vec<Result<X, Error>, A>,
) -> std::vec::IntoIter<Result<X, Error>, A>
    ensures { (stops : spec.Error → Bool) → spec.YieldsExactly (spec.answer_stops stops)
        ⟦<std::vec::IntoIter<Result<X, Error>, A> as Iterator>⟧.next_gives
        ⟦<std::vec::IntoIter<Result<X, Error>, A> as DoubleEndedIterator>⟧.next_back_gives
        result items.items }
{
    items.into_iter()
}

/// States that a double-ended source also yields its list from the front alone.
///
/// This is a lemma for proofs; the call has no effect.
pub fn from_the_front<I: DoubleEndedIterator<Item = Result<X, Error>>, X>(source: &I)
    ensures yields { spec.YieldsInFront I.next_gives I.next_back_gives source.now }
    ensures can { spec.CanYield I.next_gives I.next_back_gives I.can_next I.can_next_back
        source.now → spec.CanYield I.next_gives spec.nowhere I.can_next I.can_next source.now }
{
    let _ = source;
}
