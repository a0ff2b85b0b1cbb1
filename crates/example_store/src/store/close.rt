//! Closing a store, and the state that it leaves.
ghost use Rattle.std.specs.Prelude.{◌≡◌, [], IfErr, IfOk, List, OnErr, OnOk, Some, false, map};
ghost use Rattle.example_store.specs.Words as spec;
ghost use Rattle.lsm_tables.specs.Words.{OutOfMemory};

use crate::store::Store;
use lsm_tables::block::{Error, SeqNo, Slice};
use lsm_tables::run::Run;
use lsm_tables::table::{Table, TableIds};
use std::alloc::{Allocator, Global};
use std::sync::Arc;

/// The state of a closed store, from which [`Store::open`] opens it.
#[derive(Drop)]
pub struct Closed<A: Allocator = Global> {
    /// The bytes of the tables, run by run, the newest run first.
    pub files: Vec<Vec<Slice<A>, A>, A>,
    /// The counter of the tables' ids.
    pub ids: TableIds,
    /// The sequence number of the next write.
    pub next: SeqNo,
    /// The oldest snapshot that is kept.
    pub oldest: SeqNo,
}

impl<A: Allocator + Clone> Store<A> {
    /// Flushes the store, and returns its state: the bytes of its tables, which are shared, and its
    /// counters.
    ///
    /// The store may still be used.
    ///
    /// # Errors
    ///
    /// Those of [`Store::flush`]. Nothing is lost then.
    pub fn close(&mut self) -> Result<Closed<A>, Error>
        // The result is the state of the store as it is now.
        ensures closed { IfOk result (λ closed. spec.IsStore self.new
            × spec.IsClosed self.new closed) }
        // The store reads as the same history.
        ensures story { (ws : List spec.Entry) → spec.IsReported self.old ws →
            spec.IsReported self.new ws }
        ensures next { self.new.next ≡ self.old.next }
        ensures oldest { self.new.oldest ≡ self.old.oldest }
        ensures limit { self.new.limit ≡ self.old.limit }
        ensures target { self.new.target ≡ self.old.target }
        // The counter that is returned is after the new tables, if there are any.
        ensures flushed { OnOk result (spec.HasFlushed self.old self.new) }
        ensures err { OnErr result (spec.StaysOrFlushes self.old self.new) }
        ensures refused { IfErr result (λ e. spec.is_memory e ≡ false →
            spec.tables_fault self.old.ids self.old.target 0 self.old.recent ≡ Some e) }
    {
        self.flush()?;
        self.kept()
    }

    // The state of a store whose memtable is empty.
    fn kept(&self) -> Result<Closed<A>, Error>
        requires { self.now.recent ≡ [] }
        ensures sound { spec.IsStore self.now }
        ensures closed { IfOk result (spec.IsClosed self.now) }
        ensures memory { IfErr result (λ e. e ≡ OutOfMemory) }
    {
        let files = files_of(&self.alloc, &self.runs)?;
        Ok(Closed {
            files,
            ids: self.ids,
            next: self.next,
            oldest: self.oldest,
        })
    }
}

// The bytes of the tables of some runs, shared.
fn files_of<A: Allocator + Clone>(
    alloc: &A,
    runs: &[Arc<Run<Table<A>, A>, A>],
) -> Result<Vec<Vec<Slice<A>, A>, A>, Error>
    ensures files { IfOk result (λ files. map (λ run. run.items) files.items ≡ spec.bytes_by_run
        (spec.each_run runs.now)) }
    ensures memory { IfErr result (λ e. e ≡ OutOfMemory) }
{
    let mut files = Vec::new(alloc.clone()?);
    for run in runs {
        files.push(bytes_of(alloc, run.as_slice())?)?;
    }
    Ok(files)
}

// The bytes of some tables, shared.
fn bytes_of<A: Allocator + Clone>(alloc: &A, tables: &[Table<A>]) -> Result<Vec<Slice<A>, A>, Error>
    ensures files { IfOk result (λ files.
        files.items ≡ map (λ (t : spec.OpenTable). t.bytes) tables.now) }
    ensures memory { IfErr result (λ e. e ≡ OutOfMemory) }
{
    let mut files = Vec::new(alloc.clone()?);
    for table in tables {
        files.push(table.bytes()?)?;
    }
    Ok(files)
}
