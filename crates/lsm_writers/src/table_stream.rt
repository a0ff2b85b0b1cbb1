//! Tables of the entries of a source, one by one.
ghost use Rattle.std.specs.Prelude.{◌≡◌, ◌<◌, [], Err, IfOk, MatchOption, None, OnSome};
ghost use Rattle.std.specs.Iterator.{at_most};
ghost use Rattle.lsm_writers.specs.Words as spec;

use crate::{FinishedTable, MultiWriter, TableIds};
use sst_entries::{Error, Lending};
use std::alloc::{Allocator, Global};

/// The error that a [`TableStream`] yields.
#[derive(Debug, Drop, PartialEq, Eq, thiserror::Error)]
pub enum TableStreamError {
    /// An entry of the source does not follow the one before it, or has the seqno `u64::MAX`.
    #[error("entries out of order")]
    OutOfOrder,

    /// The source or the writer failed.
    #[error("{0}")]
    Failed(Error),
}

impl From<Error> for TableStreamError {
    ghost use Rattle.std.specs.Prelude.{◌≡◌};
    ghost use Rattle.lsm_writers.specs.declared.table_stream.TableStreamError.TheVariants.{Failed};

    ghost from_gives = { λ error failure. failure ≡ Failed error };

    fn from(error: Error) -> TableStreamError {
        TableStreamError::Failed(error)
    }
}

/// An iterator that writes the entries of a source into tables, and yields each table as soon as it
/// is finished.
///
/// The tables are those that [`MultiWriter::finish`] returns for all entries of the source. The
/// stream keeps the source and the current table in memory, but no table that it yielded. Dropping it
/// drops the current table.
///
/// Nothing is required of the entries: the stream tests each one before it is written; see
/// [`MultiWriter::can_follow`].
///
/// # Errors
///
/// The stream yields one error, after every table that was finished before it. After that it yields
/// only `None`, and the entries of the current table are lost. The error is the first of these, or
/// [`Error::OutOfMemory`]:
///
/// - [`TableStreamError::OutOfOrder`] exactly if the next entry cannot follow those before it;
/// - [`TableStreamError::Failed`] with an error of the source or of the writer.
///
/// For `OutOfMemory` the contract leaves open whether a table that the failing call finished is
/// yielded.
#[derive(Drop)]
pub struct TableStream<L, A: Allocator = Global> {
    source: L,
    // `None` once the source is exhausted or a call failed
    writer: Option<MultiWriter<A>>,
    // the error that follows the last table
    error: Option<TableStreamError>,
    ids: TableIds,
}

impl<L: Lending, A: Allocator + Clone> TableStream<L, A> {
    /// Creates a stream of the tables that `writer` makes of the entries of `source`.
    ///
    /// Neither is called yet. No entry may have been written to the writer.
    pub fn new(source: L, writer: MultiWriter<A>) -> TableStream<L, A>
        ensures starts { spec.Starts L.advances source writer result }
        ensures can { spec.StartsReady L.advances L.can_advance source writer result }
        ensures ids { result.ids ≡ writer.ids }
    {
        writer.stays_writing();
        let ids = writer.table_ids();
        TableStream {
            source,
            writer: Some(writer),
            error: None,
            ids,
        }
    }

    /// Returns the id counter of the writer. After the last table, or an error, its next id is unused.
    pub fn table_ids(&self) -> TableIds
        ensures { result ≡ self.now.ids }
    {
        self.ids
    }
}

impl<L: Lending + Drop, A: Allocator + Clone> Iterator for TableStream<L, A> {
    type Item = Result<FinishedTable<A>, TableStreamError>;

    ghost can_next = { spec.CanPoll L.advances L.can_advance };

    ghost next_gives = { spec.YieldsNextTable L.advances };

    ghost remaining = { λ s. at_most (spec.items_left L.left s) };

    fn next(&mut self) -> Option<Result<FinishedTable<A>, TableStreamError>> {
        let Some(writer) = &mut self.writer else {
            return take_error(&mut self.error);
        };
        let made = write_until(&mut self.source, writer);
        self.ids = writer.table_ids();
        match made {
            Ok(Some(table)) => Some(Ok(table)),
            Ok(None) => end(&mut self.writer),
            Err(error) => stop(&mut self.writer, &mut self.error, error),
        }
    }
}

// Writes entries until a table is finished, each if it may follow those before it. Returns `None` at
// the end of the source.
fn write_until<L: Lending, A: Allocator + Clone>(
    source: &mut L,
    writer: &mut MultiWriter<A>,
) -> Result<Option<FinishedTable<A>>, TableStreamError>
    requires { spec.CanTake L.advances L.can_advance source.old writer.old }
    ensures steps { spec.WritesUntil L.advances source.old writer.old result source.new writer.new }
    ensures can { IfOk result (λ t. OnSome t
        (spec.CanTake L.advances L.can_advance source.new writer.new)) }
    ensures lowers { IfOk result (λ t. OnSome t (L.left source.new < L.left source.old)) }
    // At the end of the source every finished table was returned.
    ensures taken { IfOk result (λ _. writer.new.tables ≡ []) }
{
    while source.advance()? {
        if let Some(entry) = source.entry() {
            if !writer.can_follow_ref(&entry) {
                return Err(TableStreamError::OutOfOrder);
            }
            writer.write_ref(&entry)?;
            if let Some(table) = writer.take_finished() {
                return Ok(Some(table));
            }
        }
    }
    Ok(None)
}

// Finishes a writer whose finished tables were taken. Returns the last table, if there is one.
fn last_table<A: Allocator + Clone>(
    writer: MultiWriter<A>,
) -> Result<Option<FinishedTable<A>>, Error>
    requires { writer.tables ≡ [] }
    ensures table { IfOk result (λ t. spec.AreFinished writer.present.options
        (spec.first_label writer) (spec.tables_of writer) (spec.option_to_list t)) }
    ensures refused { spec.Faults result (spec.run_fault writer) }
{
    let mut tables = writer.finish()?;
    Ok(tables.pop())
}

// Drops the writer at the end of the source. Returns the last table, if there is one.
fn end<A: Allocator + Clone>(
    writer: &mut Option<MultiWriter<A>>,
) -> Option<Result<FinishedTable<A>, TableStreamError>>
    requires { MatchOption writer.old (Unit {0}) (λ n. n.tables ≡ []) }
    ensures over { writer.new ≡ None }
    ensures ends { spec.EndsAll writer.old result }
{
    match last_table(writer.take()?) {
        Ok(table) => Some(Ok(table?)),
        Err(error) => Some(Err(TableStreamError::Failed(error))),
    }
}

// Drops the writer after an error. A table that was finished before the error comes first.
fn stop<A: Allocator + Clone>(
    writer: &mut Option<MultiWriter<A>>,
    slot: &mut Option<TableStreamError>,
    error: TableStreamError,
) -> Option<Result<FinishedTable<A>, TableStreamError>>
    ensures over { writer.new ≡ None }
    ensures stops { spec.StopsAfter writer.old error result }
    ensures left { spec.LeavesError result error slot.old slot.new }
{
    let mut last = writer.take()?;
    match last.take_finished() {
        Some(table) => {
            *slot = Some(error);
            Some(Ok(table))
        }
        None => Some(Err(error)),
    }
}

// Returns the error that follows the last table, once.
fn take_error<A: Allocator>(
    slot: &mut Option<TableStreamError>,
) -> Option<Result<FinishedTable<A>, TableStreamError>>
    ensures given { result ≡ spec.option_map (λ e. Err e) slot.old }
    ensures none { slot.new ≡ None }
{
    match slot.take() {
        Some(error) => Some(Err(error)),
        None => None,
    }
}
