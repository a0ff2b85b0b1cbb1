//! Reading the tables of a run whole, one after another.
ghost use Rattle.std.specs.Prelude.{◌≡◌, ◌<◌, Err, IfErr, IfOk, List, Some, false, true, length};
ghost use Rattle.std.specs.Prelude.{is_some, slice_get};
ghost use Rattle.lsm_runs.specs.Words as spec;

use lsm_readers::{Scanner, Table};
use lsm_run_parts::{ends_in, place_behind};
use lsm_sorted::Run;
use sst_blocks::{EntryRef, Error, IterItem, Lending};
use std::alloc::{Allocator, Global};
use std::marker::Model;
use std::sync::Arc;

/// An iterator over the entries of the tables of a run, one table after another, from the front.
///
/// It shares the run. It yields entries, or lends them from their blocks.
///
/// The first table is opened when the scanner is made, each further one by the first step that
/// needs it. After an error, [`Error::OutOfMemory`] included, it is exhausted.
#[derive(Drop)]
pub struct RunScanner<A: Allocator = Global> {
    tables: Arc<Run<Table<A>, A>, A>,
    // the index of the first unopened table, and that after the last one
    lo: usize,
    hi: usize,
    lo_reader: Option<Scanner<A>>,
}

impl<A: Allocator> Model for RunScanner<A> {
    ghost use Rattle.std.specs.Prelude.{◌≤◌, ◌-◌, drop, length, take};
    ghost use Rattle.std.specs.Arc.{arc_value};
    ghost use Rattle.lsm_runs.specs.RunScan.{RunScan};

    ghost Value = { RunScan };

    ghost view = { λ s. record {
      scan = s.lo_reader;
      tables = take (s.hi - s.lo) (drop s.lo (arc_value s.tables));
    } };

    ghost invariant = { λ s. (s.lo ≤ s.hi) × (s.hi ≤ length (arc_value s.tables)) };
}

// The scanner of the table at an index.
fn scan_at<A: Allocator + Clone>(tables: &[Table<A>], place: usize) -> Result<Scanner<A>, Error>
    requires { place < length tables.now }
    ensures begins { (t : spec.OpenTable) → slice_get tables.now place ≡ Some t →
        spec.BeginsScan t result }
    ensures refused { (t : spec.OpenTable) → slice_get tables.now place ≡ Some t →
        spec.Faults result (spec.scan_fault t) }
    ensures early { (t : spec.OpenTable) → slice_get tables.now place ≡ Some t →
        spec.FaultsFirst result (spec.early_scan_fault t) }
{
    tables[place].scan()
}

// Advances to the next entry of a table, if one is open; returns whether there is one.
#[inline]
fn advance_in<A: Allocator + Clone>(reader: &mut Option<Scanner<A>>) -> Result<bool, Error>
    ensures goes { spec.ScansItem reader.old (spec.came result (spec.lent_of_scan reader.new))
        reader.new }
    ensures more { IfOk result (λ more. more ≡ is_some (spec.lent_of_scan reader.new)) }
{
    match reader {
        Some(reader) => reader.advance(),
        None => Ok(false),
    }
}

// Shares the entry that a table lends.
#[inline]
fn share_in<A: Allocator + Clone>(reader: &mut Option<Scanner<A>>) -> IterItem<A>
    requires { is_some (spec.lent_of_scan reader.old) ≡ true }
    ensures ok { IfOk result (λ e.
        (spec.lent_of_scan reader.old ≡ Some e) × (reader.new ≡ reader.old)) }
    ensures err { IfErr result (λ e. e ≡ spec.OutOfMemory) }
{
    match reader {
        Some(reader) => reader.share(),
        None => unreachable!(),
    }
}

impl<A: Allocator + Clone> RunScanner<A> {
    /// Returns a scanner of the tables from a first index to a last, by default of all.
    ///
    /// The first index must be at most the last, and the last below the number of tables. The first
    /// table is opened here.
    ///
    /// # Errors
    ///
    /// Exactly those of [`Table::scan`] of the first table. A table without entries has no data
    /// block, so this fails with the fault of loading the first one.
    pub fn culled(
        run: Arc<Run<Table<A>, A>, A>,
        span: (Option<usize>, Option<usize>),
    ) -> Result<RunScanner<A>, Error>
        requires { spec.ArePlacesOf (spec.arc_value run)
            (spec.ends_given (spec.arc_value run) span) }
        ensures is { let tables = spec.arc_value run in
            IfOk result (λ s. spec.IsScanOf tables (spec.ends_given tables span) s) }
        // Except for `OutOfMemory`, it yields the results of the tables' scans, up to the first
        // error, and then nothing.
        ensures yields { spec.SpanScans ⟦<RunScanner<A> as Iterator>⟧.next_gives (spec.arc_value
            run) span result }
        // For tables of lists that each have an entry, it yields these lists one after another,
        // global seqnos applied.
        ensures list { spec.SpanScansList ⟦<RunScanner<A> as Iterator>⟧.next_gives (spec.arc_value
            run) span result }
        // It lends what it yields.
        ensures lends { spec.SpanScans ⟦<RunScanner<A> as Lending>⟧.advances (spec.arc_value run)
            span result }
        ensures lends_list { spec.SpanScansList ⟦<RunScanner<A> as Lending>⟧.advances
            (spec.arc_value run) span result }
        // Except for `OutOfMemory`, it fails exactly with the error of beginning the first table's
        // scan.
        ensures refused { let tables = spec.arc_value run in (t : spec.OpenTable) →
            slice_get tables (spec.ends_given tables span).0 ≡ Some t →
            spec.Faults result (spec.scan_fault t) }
        // An error that is found before any allocation takes precedence over `OutOfMemory`.
        ensures early { let tables = spec.arc_value run in (t : spec.OpenTable) →
            slice_get tables (spec.ends_given tables span).0 ≡ Some t →
            spec.FaultsFirst result (spec.early_scan_fault t) }
        // Except for `OutOfMemory`, the error is the first result of the scans.
        ensures returned { IfErr result (λ e. spec.is_memory e ≡ false → spec.first (spec.span_scan
            (spec.arc_value run) span) ≡ Some (Err e)) }
    {
        let (lo, hi) = ends_in(run.as_slice(), span);
        let reader = scan_at(run.as_slice(), lo)?;
        let hi = place_behind(run.as_slice(), hi);
        Ok(RunScanner {
            tables: run,
            lo: lo + 1,
            hi,
            lo_reader: Some(reader),
        })
    }

    /// Opens the next table, if one is left.
    fn next_table(&mut self) -> Option<Result<Scanner<A>, Error>>
        ensures { spec.BeginsNext self.old result self.new }
    {
        if self.lo == self.hi {
            return None;
        }
        let place = self.lo;
        self.lo += 1;
        Some(scan_at(self.tables.as_slice(), place))
    }

    /// Drops what is left.
    fn end(&mut self)
        ensures { self.new ≡ spec.over_scan self.old }
    {
        self.lo = self.hi;
        self.lo_reader = None;
    }

    /// Advances to the next entry; returns whether there is one. An error does not end the scanner
    /// yet.
    #[inline]
    fn step(&mut self) -> Result<bool, Error>
        ensures ok { IfOk result (λ more. (more ≡ is_some (spec.lent_of_run self.new)) ×
            spec.RunScansNext self.old (spec.came result (spec.lent_of_run self.new)) self.new) }
        ensures err { IfErr result (λ e.
            spec.RunScansNext self.old (Some (Err e)) (spec.over_scan self.new)) }
    {
        loop {
            if advance_in(&mut self.lo_reader)? {
                return Ok(true);
            }
            match self.next_table() {
                Some(Ok(reader)) => self.lo_reader = Some(reader),
                Some(Err(error)) => return Err(error),
                None => return Ok(false),
            }
        }
    }

    /// Returns the lent entry; its key and value share the table's memory. An entry must be lent.
    ///
    /// # Errors
    ///
    /// [`Error::OutOfMemory`] only. The scanner is exhausted then.
    #[inline]
    pub fn share(&mut self) -> IterItem<A>
        requires { is_some (spec.lent_of_run self.old) ≡ true }
        ensures ok { IfOk result (λ e. (spec.lent_of_run self.old ≡ Some e)
            × (self.new ≡ self.old)) }
        ensures err { IfErr result
            (λ e. (e ≡ spec.OutOfMemory) × (self.new ≡ spec.over_scan self.old)) }
    {
        match share_in(&mut self.lo_reader) {
            Ok(item) => Ok(item),
            Err(error) => {
                self.end();
                Err(error)
            }
        }
    }
}

impl<A: Allocator + Clone> Lending for RunScanner<A> {
    ghost can_advance = { λ _. Unit {0} };

    ghost advances = { spec.RunScansNext };

    ghost lent = { spec.lent_of_run };

    ghost left = { spec.run_scan_size };

    #[inline]
    fn advance(&mut self) -> Result<bool, Error> {
        match self.step() {
            Ok(more) => Ok(more),
            Err(error) => {
                self.end();
                Err(error)
            }
        }
    }

    #[inline]
    fn entry(&self) -> Option<EntryRef<'_>> {
        match &self.lo_reader {
            Some(reader) => reader.entry(),
            None => None,
        }
    }
}

impl<A: Allocator + Clone> Iterator for RunScanner<A> {
    type Item = IterItem<A>;

    ghost can_next = { λ _. Unit {0} };

    ghost next_gives = { spec.RunScansNext };

    ghost remaining = { λ s. spec.at_most (spec.run_scan_size s) };

    // Always inlined: a call that returns an entry by value costs more than the step.
    #[inline(always)]
    fn next(&mut self) -> Option<IterItem<A>> {
        match self.advance() {
            Ok(true) => Some(self.share()),
            Ok(false) => None,
            Err(error) => Some(Err(error)),
        }
    }
}
