//! Lists of entries, and the entries at both ends of a stream of them.
ghost use Rattle.std.specs.Prelude.{IfOk};
ghost use Rattle.lsm_writers.specs.Writing.{IsWritable};
ghost use Rattle.sst_entries.specs.Stream.{CanYield};

use crate::samples::rows::{Row, entry};
use crate::samples::runs::{Bounds, Name, Tables, name_in, name_of, owned_range};
use lsm_sorted::NewestOf;
use lsm_tables::run::{RunReader, range_runs};
use lsm_writers::is_writable;
use sst_blocks::{Direction, Error, InternalValue, IterItem, answers_at};
use std::alloc::Allocator;

/// The newest versions of several runs.
pub type Stream<A> = NewestOf<RunReader<A>, A>;

/// The entries of some rows. Fails with `Source(0)` if they cannot be written.
pub fn list_of<A: Allocator + Copy>(
    alloc: A,
    rows: &[Row<'_>],
) -> Result<Vec<InternalValue<A>, A>, Error>
    ensures { IfOk result (λ v. IsWritable v.items) }
{
    let mut items = Vec::new(alloc);
    for row in rows {
        items.push(entry(alloc, row)?)?;
    }
    if is_writable(&items) {
        Ok(items)
    } else {
        Err(Error::Source(0))
    }
}

// The items that a stream yields at some ends. It is generic in its sources: passing a concrete
// stream to a function generic in streams costs a proof minutes.
fn answers_in<S: DoubleEndedIterator<Item = IterItem<A>>, A: Allocator + Copy>(
    alloc: A,
    stream: &mut NewestOf<S, A>,
    ends: &[Direction],
) -> Result<Vec<Option<IterItem<A>>, A>, Error>
    requires { let iter = ⟦<NewestOf<S, A> as DoubleEndedIterator>⟧ in
        CanYield iter.next_gives iter.next_back_gives iter.can_next iter.can_next_back stream.old }
{
    Ok(answers_at(alloc, stream, ends)?)
}

// The items that the stream of several runs yields at some ends. Only this function passes that
// stream on, and only `answers_last` drops it.
fn answers_of<A: Allocator + Copy>(
    alloc: A,
    stream: &mut Stream<A>,
    ends: &[Direction],
) -> Result<Vec<Option<IterItem<A>>, A>, Error>
    requires { let iter = ⟦<Stream<A> as DoubleEndedIterator>⟧ in
        CanYield iter.next_gives iter.next_back_gives iter.can_next iter.can_next_back stream.old }
{
    answers_in(alloc, stream, ends)
}

fn answers_last<A: Allocator + Copy>(
    alloc: A,
    mut stream: Stream<A>,
    ends: &[Direction],
) -> Result<Vec<Option<IterItem<A>>, A>, Error>
    requires { let iter = ⟦<Stream<A> as DoubleEndedIterator>⟧ in
        CanYield iter.next_gives iter.next_back_gives iter.can_next iter.can_next_back stream }
{
    let answers = answers_of(alloc, &mut stream, ends);
    drop(stream);
    answers
}

/// The items that some runs yield at some ends, within bounds.
pub fn answers_within<A: Allocator + Copy>(
    alloc: A,
    runs: &[Tables<A>],
    bounds: Bounds<'_>,
    ends: &[Direction],
) -> Result<Vec<Option<IterItem<A>>, A>, Error> {
    let range = owned_range(alloc, bounds)?;
    answers_last(alloc, range_runs(alloc, runs, range)?, ends)
}

const BACK_AND_FRONT: [Direction; 2] = [Direction::Back, Direction::Front];

/// The items that a stream yields at its back, and then at its front.
pub fn ends_of<A: Allocator + Copy>(
    alloc: A,
    stream: &mut Stream<A>,
) -> Result<Vec<Option<IterItem<A>>, A>, Error>
    requires { let iter = ⟦<Stream<A> as DoubleEndedIterator>⟧ in
        CanYield iter.next_gives iter.next_back_gives iter.can_next iter.can_next_back stream.old }
{
    answers_of(alloc, stream, &BACK_AND_FRONT)
}

/// The names of the entry that a read finds, and of the first and the last entry of a stream.
pub fn read_names<A: Allocator + Copy>(
    alloc: A,
    read: (Option<InternalValue<A>>, Stream<A>),
) -> Result<[Option<Name>; 3], Error>
    requires { let iter = ⟦<Stream<A> as DoubleEndedIterator>⟧ in
        CanYield iter.next_gives iter.next_back_gives iter.can_next iter.can_next_back read.1 }
{
    let (found, stream) = read;
    let ends = answers_last(alloc, stream, &BACK_AND_FRONT);
    named(found, ends?)
}

// The names of the last and the first entry of a stream.
fn names_of<A: Allocator>(ends: Vec<Option<IterItem<A>>, A>) -> [Result<Option<Name>, Error>; 2] {
    let mut names = [Ok(None), Ok(None)];
    for (slot, answer) in names.iter_mut().zip(ends.into_iter()) {
        *slot = name_of(answer);
    }
    names
}

/// The names of a found entry, and of the first and the last entry of a stream, from the items of
/// [`ends_of`].
pub fn named<A: Allocator + Copy>(
    found: Option<InternalValue<A>>,
    ends: Vec<Option<IterItem<A>>, A>,
) -> Result<[Option<Name>; 3], Error> {
    let name = found.as_ref().map(name_in);
    drop(found);
    let [last, first] = names_of(ends);
    Ok([name, first?, last?])
}
