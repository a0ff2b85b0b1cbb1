//! Reading the tables of a run one after another, from both ends.
ghost use Rattle.std.specs.Prelude.{◌≡◌, ◌-◌, ◌+◌, ℕ, [], None, Some, List, IfOk, IfSome, IsOk};
ghost use Rattle.std.specs.Prelude.{MatchOption, length, map};
ghost use Rattle.lsm_runs.specs.Words as spec;

use crate::lending_reader::{RunWalk, end, entry_in, step, unlend_in};
use lsm_iters::{Ends, Walk};
use lsm_readers::Table;
use lsm_run_parts::{Unopened, ends_in, places_within};
use lsm_sorted::{Ranged, Run};
use sst_blocks::{EntryRef, Error, IterItem, Lending, UserKey};
use sst_entries::Direction;
use std::alloc::{Allocator, Global};
use std::marker::Model;
use std::ops::Bound;
use std::sync::Arc;

/// An iterator over the entries of the tables of a run, one table after another, from both ends.
///
/// It shares the run. As an iterator it yields entries that share the tables' bytes. As a
/// [`Lending`] it lends them from there, from the front. Each continues where the other stopped. An
/// entry that is lent is the one that the last call yielded.
///
/// Each table is opened once, by the first step that needs it. After an error,
/// [`Error::OutOfMemory`] included, it is exhausted at both ends.
#[derive(Drop)]
pub struct RunReader<A: Allocator = Global> {
    walk: RunWalk<A>,
}

impl<A: Allocator> Model for RunReader<A> {
    ghost use Rattle.lsm_runs.specs.RunRange.{RunRange};
    ghost use Rattle.lsm_runs.specs.RunRange.{run_of};

    ghost Value = { RunRange A };

    ghost view = { λ r. run_of r.walk };
}

impl<A: Allocator + Clone> RunReader<A> {
    /// Returns a reader of the entries within both bounds of a run in order.
    ///
    /// It returns `None` exactly if no table's range reaches past both bounds. No table is opened
    /// yet. The call does not fail.
    pub fn new(
        run: Arc<Run<Table<A>, A>, A>,
        range: (Bound<UserKey<A>>, Bound<UserKey<A>>),
    ) -> Result<Option<RunReader<A>>, Error>
        // For a run in order, the span is that of the tables whose ranges reach past both bounds.
        ensures span { spec.IsReaderWithin (spec.arc_value run) range.0 range.1 result }
        // For any other run, it is some span within it.
        ensures is { let tables = spec.arc_value run in IfOk result (λ r. IfSome r (λ reader.
            (ends : ℕ × ℕ) × spec.ArePlacesOf tables ends ×
            spec.IsRunOf tables (spec.span_of ends range.0 range.1) reader)) }
        ensures yields { spec.ReaderYields ⟦<RunReader<A> as Iterator>⟧.next_gives
            ⟦<RunReader<A> as DoubleEndedIterator>⟧.next_back_gives (λ _. Unit {0}) result }
        // For tables of lists in a run in order, it yields the part of all lists within the bounds,
        // global seqnos applied. Without a reader no entry is within the bounds.
        ensures list { spec.ReaderYieldsList ⟦<RunReader<A> as Iterator>⟧.next_gives
            ⟦<RunReader<A> as DoubleEndedIterator>⟧.next_back_gives (spec.arc_value run) range.0
            range.1 result }
        // For a run in order, it opens at most as many tables as have a range that reaches past
        // both bounds.
        ensures few { spec.ReaderOpensFew ⟦<RunReader<A> as Iterator>⟧.next_gives
            ⟦<RunReader<A> as DoubleEndedIterator>⟧.next_back_gives (spec.arc_value run) range.0
            range.1 result }
        // For any other run, at most as many as it has.
        ensures most { IfOk result (λ r. IfSome r (spec.OpensAtMost
            ⟦<RunReader<A> as Iterator>⟧.next_gives
            ⟦<RunReader<A> as DoubleEndedIterator>⟧.next_back_gives (length (spec.arc_value run)))) }
        // Except for `OutOfMemory`, it lends what it yields at the front, up to the first error,
        // also with calls at the back in between.
        ensures lends { spec.ReaderYields ⟦<RunReader<A> as Lending>⟧.advances
            ⟦<RunReader<A> as DoubleEndedIterator>⟧.next_back_gives
            ⟦<RunReader<A> as Lending>⟧.can_advance result }
        // For tables of lists in a run in order, it lends exactly the entries within the bounds.
        ensures lends_list { spec.ReaderYieldsList ⟦<RunReader<A> as Lending>⟧.advances
            ⟦<RunReader<A> as DoubleEndedIterator>⟧.next_back_gives (spec.arc_value run) range.0
            range.1 result }
        // It opens no more tables for lending.
        ensures lends_few { spec.ReaderOpensFew ⟦<RunReader<A> as Lending>⟧.advances
            ⟦<RunReader<A> as DoubleEndedIterator>⟧.next_back_gives (spec.arc_value run) range.0
            range.1 result }
        ensures lends_most { IfOk result (λ r. IfSome r (spec.OpensAtMost
            ⟦<RunReader<A> as Lending>⟧.advances
            ⟦<RunReader<A> as DoubleEndedIterator>⟧.next_back_gives (length (spec.arc_value run)))) }
        ensures ok { IsOk result }
    {
        match places_within(&run, &range) {
            Some(ends) => Ok(Some(RunReader::of_span(run, range, ends))),
            None => Ok(None),
        }
    }

    /// Returns a reader of the tables from a first index to a last, by default of all.
    ///
    /// The first and the last table are read within both bounds, those between whole. No table is
    /// opened yet. The call does not fail.
    ///
    /// The first index must be at most the last, and the last below the number of tables.
    pub fn culled(
        run: Arc<Run<Table<A>, A>, A>,
        range: (Bound<UserKey<A>>, Bound<UserKey<A>>),
        span: (Option<usize>, Option<usize>),
    ) -> Result<RunReader<A>, Error>
        requires { spec.ArePlacesOf (spec.arc_value run)
            (spec.ends_given (spec.arc_value run) span) }
        ensures is { let tables = spec.arc_value run in
            let ends = spec.ends_given tables span in
            IfOk result (λ reader. spec.IsRunOf tables (spec.span_of ends range.0 range.1) reader) }
        // For every list of ends, it yields the results of its tables, up to the first error.
        ensures yields { IfOk result (spec.ReaderYieldsLeft ⟦<RunReader<A> as Iterator>⟧.next_gives
            ⟦<RunReader<A> as DoubleEndedIterator>⟧.next_back_gives (λ _. Unit {0})) }
        // For tables of lists, it yields the span's entries, global seqnos applied. The first and
        // the last list are cut at the bounds, those between are whole.
        ensures list { spec.SpanYieldsList ⟦<RunReader<A> as Iterator>⟧.next_gives
            ⟦<RunReader<A> as DoubleEndedIterator>⟧.next_back_gives (spec.arc_value run) span
            range.0 range.1 result }
        // It lends the same from the front, also with calls at the back in between.
        ensures lends { IfOk result (spec.ReaderYieldsLeft ⟦<RunReader<A> as Lending>⟧.advances
            ⟦<RunReader<A> as DoubleEndedIterator>⟧.next_back_gives
            ⟦<RunReader<A> as Lending>⟧.can_advance) }
        ensures lends_list { spec.SpanYieldsList ⟦<RunReader<A> as Lending>⟧.advances
            ⟦<RunReader<A> as DoubleEndedIterator>⟧.next_back_gives (spec.arc_value run) span
            range.0 range.1 result }
        // It opens at most as many tables as the span has.
        ensures few { spec.SpanOpensFew ⟦<RunReader<A> as Iterator>⟧.next_gives
            ⟦<RunReader<A> as DoubleEndedIterator>⟧.next_back_gives (spec.arc_value run) span result }
        ensures lends_few { spec.SpanOpensFew ⟦<RunReader<A> as Lending>⟧.advances
            ⟦<RunReader<A> as DoubleEndedIterator>⟧.next_back_gives (spec.arc_value run) span result }
        ensures ok { IsOk result }
    {
        let ends = ends_in(run.as_slice(), span);
        Ok(RunReader::of_span(run, range, ends))
    }

    /// A reader of the tables from a first index to a last; none of them is open yet.
    fn of_span(
        run: Arc<Run<Table<A>, A>, A>,
        range: (Bound<UserKey<A>>, Bound<UserKey<A>>),
        ends: (usize, usize),
    ) -> RunReader<A>
        requires { spec.ArePlacesOf (spec.arc_value run) ends }
        ensures { spec.IsRunOf (spec.arc_value run) (spec.span_of ends range.0 range.1) result }
    {
        RunReader {
            walk: Walk::new(Unopened::new(run, range, ends)),
        }
    }

    /// Returns the number of tables opened. A failed opening is not counted.
    pub fn tables_opened(&self) -> usize
        ensures { result ≡ self.now.unopened.opened }
    {
        self.walk.parts.opened()
    }

    /// The result of a call at an end.
    #[inline(always)]
    fn answer(&mut self, at: Direction) -> Option<IterItem<A>>
        ensures { spec.RunGives (spec.taken_at at) (spec.tables_at at) self.old result self.new }
    {
        let answer = self.walk.step(at);
        unlend_in(&mut self.walk.front);
        answer
    }
}

impl<A: Allocator + Clone> Iterator for RunReader<A> {
    type Item = IterItem<A>;

    ghost can_next = { λ _. Unit {0} };

    ghost next_gives = { spec.RunGives spec.front_of spec.front_tables };

    ghost remaining = { λ s. spec.at_most (spec.run_size s) };

    // Always inlined: a call that returns an entry by value costs more than the step.
    #[inline(always)]
    fn next(&mut self) -> Option<IterItem<A>> {
        self.answer(Direction::Front)
    }
}

impl<A: Allocator + Clone> DoubleEndedIterator for RunReader<A> {
    ghost can_next_back = { λ _. Unit {0} };

    ghost next_back_gives = { spec.RunGives spec.back_of spec.back_tables };

    #[inline(always)]
    fn next_back(&mut self) -> Option<IterItem<A>> {
        self.answer(Direction::Back)
    }
}

impl<A: Allocator + Clone> Lending for RunReader<A> {
    ghost can_advance = { λ _. Unit {0} };

    ghost advances = { spec.RunLends };

    ghost lent = { λ s. spec.lent_of_reader s.front };

    ghost left = { spec.run_size };

    #[inline]
    fn advance(&mut self) -> Result<bool, Error> {
        match step(&mut self.walk) {
            Ok(more) => Ok(more),
            Err(error) => {
                end(&mut self.walk);
                Err(error)
            }
        }
    }

    #[inline(always)]
    fn entry(&self) -> Option<EntryRef<'_>> {
        entry_in(&self.walk.front)
    }
}
