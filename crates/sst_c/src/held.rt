//! The contents of a handle.
ghost use Rattle.std.specs.Prelude.{◌≡◌, ◌++◌, IfErr, IfOk, List, None};
ghost use Rattle.sst_c.specs.Words as spec;

use crate::answer_list::AnswerList;
use crate::asked::Asked;
use crate::compaction_steps::OpenCompaction;
use crate::entries::entry_of;
use crate::run_list::RunList;
use crate::runs_scan::{RunsScan, lent_by};
use crate::verifier::Verifier;
use lsm_iters::Iter;
use lsm_readers::{Scanner, Table};
use lsm_runs::RunPlace;
use lsm_sorted::Packed;
use lsm_writers::{FinishedTable, MultiWriter, Writer};
use sst_blocks::{EntryPlace, EntryRef, Error, InternalValue, Lending};
use std::alloc::Global;

/// The contents of a handle: an object, and the entry that the last read through it found.
#[derive(Drop)]
pub struct Held {
    /// The entry found by the last read.
    pub found: FoundEntry,
    /// The object.
    pub what: What,
}

/// The entry found by the last read.
#[derive(Drop)]
pub enum FoundEntry {
    /// An entry with a reference to the table's memory, or none.
    Kept(Option<InternalValue>),
    /// The entry that the held scan or range borrows from the table's memory, or none.
    Lent,
    /// The entry at this position in the bytes of the held table.
    InTable(EntryPlace),
    /// The entry at this position in the tables of the held runs.
    InRuns(RunPlace),
}

impl FoundEntry {
    /// Resets it to no entry.
    pub(crate) fn clear(&mut self)
        ensures { self.new ≡ spec.Kept None }
    {
        *self = FoundEntry::Kept(None);
    }

    /// Sets it to the entry that the scan or range borrows.
    pub(crate) fn set_lent(&mut self)
        ensures { self.new ≡ spec.IsLent }
    {
        *self = FoundEntry::Lent;
    }

    // Returns `false` for a position in the runs that has no entry.
    fn is_settled(&self, runs: &RunList) -> bool
        ensures { result ≡ spec.is_settled self.now runs.now }
    {
        match self {
            FoundEntry::InRuns(place) => runs.entry_at(place).is_some(),
            _ => true,
        }
    }

    /// Clears a position in the runs that has no entry.
    ///
    /// Adding runs could otherwise put an entry at that position.
    #[tactic(auto, using(crate::proofs::Placing::settled))]
    pub(crate) fn settle(&mut self, runs: &RunList)
        ensures { (more : List (List spec.OpenTable)) →
            spec.found_at self.new (spec.RunsOf (runs.now ++ more))
            ≡ spec.found_at self.old (spec.RunsOf runs.now) }
    {
        if !self.is_settled(runs) {
            self.clear();
        }
    }
}

/// The object in a handle.
#[derive(Drop)]
pub enum What {
    /// An opened table.
    Table(Table),
    /// A range of a table, read from both ends.
    Range(Iter),
    /// A scan of a table, read from the front.
    Scan(Scanner),
    /// A range over several runs, read from both ends; `None` after a read failed.
    Merged(Option<Asked>),
    /// A scan of several runs, which borrows from the front; `None` after a read failed.
    RunsScan(Option<RunsScan>),
    /// The finished tables, and the writer of an unfinished one.
    Files(Files),
    /// A list of runs, the newest first.
    Runs(RunList),
    /// The results of point reads, one for each key.
    Answers(AnswerList),
    /// A verification of a table by steps.
    Verification(Verifier),
    /// A packing of tables in runs.
    Packing(Packed<Table>),
    /// A compaction by steps; `None` after its end or an error.
    Compaction(Option<OpenCompaction>),
    /// A writer of several tables; `None` after it is finished.
    MultiWriter(Option<MultiWriter>),
}

/// The finished tables, and the writer of an unfinished one.
#[derive(Drop)]
pub struct Files {
    /// The writer of the unfinished table, if there is one.
    pub writer: Option<Writer>,
    /// The finished tables.
    pub tables: Vec<FinishedTable>,
}

/// Boxes a new object, with no entry found.
pub(crate) fn box_of(alloc: Global, what: What) -> Result<Box<Held>, Error>
    ensures ok { IfOk result (λ held. held.value ≡ spec.begun what) }
    ensures err { IfErr result (λ e. e ≡ spec.OutOfMemory) }
{
    let found = FoundEntry::Kept(None);
    Ok(Box::new(alloc, Held { found, what })?)
}

fn lent(what: &What) -> Option<EntryRef<'_>>
    ensures { spec.option_map spec.entry_of_ref result ≡ spec.borrowed_in what.now }
{
    match what {
        What::Scan(scanner) => scanner.entry(),
        What::Range(iter) => iter.entry(),
        What::RunsScan(scan) => lent_by(scan),
        _ => None,
    }
}

fn in_table<'a>(what: &'a What, place: &EntryPlace) -> Option<EntryRef<'a>>
    ensures { spec.option_map spec.entry_of_ref result ≡ spec.in_table place.now what.now }
{
    match what {
        What::Table(table) => table.entry_at(place),
        _ => None,
    }
}

fn in_runs<'a>(what: &'a What, place: &RunPlace) -> Option<EntryRef<'a>>
    ensures { spec.option_map spec.entry_of_ref result ≡ spec.in_runs place.now what.now }
{
    match what {
        What::Runs(runs) => runs.entry_at(place),
        _ => None,
    }
}

impl Held {
    /// Borrows the entry that the last read found.
    pub(crate) fn found_entry(&self) -> Option<EntryRef<'_>>
        ensures { spec.option_map spec.entry_of_ref result ≡ spec.found_by self.now }
    {
        match &self.found {
            FoundEntry::Kept(found) => entry_of(found),
            FoundEntry::Lent => lent(&self.what),
            FoundEntry::InTable(place) => in_table(&self.what, place),
            FoundEntry::InRuns(place) => in_runs(&self.what, place),
        }
    }
}
