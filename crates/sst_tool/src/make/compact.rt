//! Compacts files.
ghost use Rattle.std.specs.Prelude.{◌≡◌, ◌+◌, ◌^◌, ◌<◌, ◌∷◌, [], IfErr, IfNone, IfOk, IfSome, ℕ};
ghost use Rattle.std.specs.Prelude.{IsErrAnd, List, MatchOption, OnOk, Option, Some, false};
ghost use Rattle.std.specs.Prelude.{length, map, true};
ghost use Rattle.sst_tool.specs.make.Words as spec;

use crate::files::{Made, Place, ToolError, open_tables};
use crate::make::CompactOptions;
use crate::make::fill::{check_folder, write_tables};
use crate::make::print::path_at;
use crate::make::scanned::{has_order, refusal_of};
use crate::show::refused_at;
use lsm_readers::Table;
use lsm_runs::{CompactionOutcome, OpenOptions, compact_to_run_with};
use lsm_sorted::Run;
use lsm_writers::FinishedTable;
use sst_blocks::Error;
use std::alloc::Allocator;
use std::sync::Arc;

// Runs of tables.
type Runs<A> = Vec<Arc<Run<Table<A>, A>, A>, A>;

// Returns a table, shared, as a run of its own.
fn run_of<A: Allocator + Copy>(
    alloc: A,
    table: &Table<A>,
) -> Result<Arc<Run<Table<A>, A>, A>, Error>
    ensures ok { IfOk result (λ run. spec.arc_value run ≡ table.now ∷ []) }
    ensures err { IfErr result (λ e. e ≡ spec.OutOfMemory) }
{
    let mut alone = Vec::new(alloc);
    alone.push(table.clone()?)?;
    match Run::new(alone) {
        Some(run) => Ok(Arc::new(alloc, run)?),
        // A list with a table is a run.
        None => Err(Error::OutOfMemory),
    }
}

// Returns each table, shared, as a run of its own.
fn runs_of<A: Allocator + Copy>(alloc: A, tables: &[Table<A>]) -> Result<Runs<A>, Error>
    ensures ok { IfOk result (λ runs. map spec.arc_value runs.items ≡ spec.each_alone tables.now) }
    ensures err { IfErr result (λ e. e ≡ spec.OutOfMemory) }
{
    let mut runs = Vec::new(alloc);
    for table in tables {
        runs.push(run_of(alloc, table)?)?;
    }
    Ok(runs)
}

// Counts the entries that the tables' metadata have.
fn count_entries<A: Allocator>(tables: &[Table<A>]) -> u64
    ensures { result ≡ spec.counted tables.now }
{
    let mut count = 0u64;
    for table in tables {
        count = count.saturating_add(table.metadata.item_count);
    }
    count
}

// Counts the entries of a run, if there is one.
fn count_run<A: Allocator>(run: &Option<Run<Table<A>, A>>) -> u64
    ensures { MatchOption run.now (result ≡ 0) (λ tables. result ≡ spec.counted tables) }
{
    match run {
        Some(run) => count_entries(run.as_slice()),
        None => 0,
    }
}

// Returns the error with the file that it comes from, if memory suffices to find it.
fn blame<'a, A: Allocator + Copy>(
    alloc: A,
    paths: &[&'a str],
    tables: &[Table<A>],
    error: Error,
) -> ToolError<'a>
    ensures memory { error ≡ spec.OutOfMemory → result ≡ spec.Refused spec.OutOfMemory }
    ensures order { spec.IfOutOfOrder result ⊥ }
    // The error names the first file that cannot be read to its end, if there is one. Otherwise it
    // is the given one.
    ensures blames { spec.IsBlame paths.now tables.now result }
    ensures misses { spec.MissesNone tables.now result }
    ensures kept { spec.KeepsRefusal error result }
    ensures names { spec.NamesOrder paths.now tables.now result }
    ensures named { spec.BlamesNoneForMemory result }
{
    if error == Error::OutOfMemory {
        return ToolError::Refused(error);
    }
    for (place, table) in tables.iter().enumerate() {
        match refusal_of(table) {
            None => {}
            // The file stays unknown.
            Some(Error::OutOfMemory) => return ToolError::Unplaced(error),
            Some(error) => return blame_file(alloc, path_at(paths, place), table, error),
        }
    }
    ToolError::Refused(error)
}

// Names a file, with its error and the block that it comes from if it is found.
fn blame_file<'a, A: Allocator + Copy>(
    alloc: A,
    path: &'a str,
    table: &Table<A>,
    error: Error,
) -> ToolError<'a>
    requires { spec.MeetsFirst table.now error }
    ensures names { spec.NamesBlame path.now table.now result }
    ensures order { spec.IfOutOfOrder result ⊥ }
    ensures memory { spec.BlamesNoneForMemory result }
{
    let at = refused_at(alloc, table, &error);
    ToolError::Unreadable {
        name: path,
        at,
        error,
    }
}

// Finds the file whose entries are out of order. If there is none, a key has a sequence number
// twice.
fn blame_order<'a, A: Allocator + Copy>(
    alloc: A,
    paths: &[&'a str],
    tables: &[Table<A>],
) -> ToolError<'a>
    ensures none { spec.BlamesNone result }
    ensures memory { spec.BlamesNoneForMemory result }
    ensures misses { spec.MissesNone tables.now result }
    ensures order { spec.TellsOnlyOrder result }
    // The error names the first file whose entries are out of order, if there is one.
    ensures names { spec.NamesOrder paths.now tables.now result }
{
    for (place, table) in tables.iter().enumerate() {
        match has_order(alloc, table) {
            Ok(true) => {}
            Ok(false) => return ToolError::OutOfOrder(path_at(paths, place)),
            // The file stays unknown.
            Err(_) => return ToolError::Unordered,
        }
    }
    ToolError::Repeated
}

// The outcome of a compaction, and the number of entries of its tables.
type Outcome<A> = (CompactionOutcome<A>, u64);

// Compacts tables, each as a run of its own.
fn compact_tables<A: Allocator + Copy>(
    alloc: A,
    tables: &[Table<A>],
    options: &CompactOptions,
) -> Result<Outcome<A>, Error>
    requires { spec.HasSmallSizes options.now.tables }
    // Whatever the tables have, the new tables are those of a list that can be written.
    ensures made { IfOk result (λ r. spec.HasMade (spec.writer_by options.now.tables) r.0) }
    // If the tables store lists, the new tables are those of the kept entries of all together; or
    // one of these may not follow.
    ensures merged { spec.OnKeptEntries options.now tables.now (λ es. IfOk result (λ r.
        spec.CameInOrder (spec.writer_by options.now.tables) es r.0)) }
    ensures through { IfOk result (λ r. spec.GoesThrough r.0) }
    ensures count { IfOk result (λ r. spec.HasCount r.0 r.1) }
    // If the tables may be compacted, the new tables are those of the kept entries. An error other
    // than OutOfMemory is the first of writing and opening them. If they fit, the only error is
    // OutOfMemory.
    ensures tables { spec.IfCompactable options.now tables.now (λ es. IfOk result (λ r.
        spec.AreTablesBy (spec.writer_by options.now.tables) es r.0)) }
    ensures refused { spec.IfCompactable options.now tables.now (λ es. spec.Faults result
        (spec.run_with_fault (spec.writer_by options.now.tables) es 0)) }
    ensures taken { spec.IfCompactable options.now tables.now (λ es.
        spec.FitsBy (spec.writer_by options.now.tables) es →
        spec.highest_seqno es + 0 < 2 ^ 64 → IfErr result (λ e. e ≡ spec.OutOfMemory)) }
{
    let runs = runs_of(alloc, tables)?;
    let writer = options.tables.writer(alloc)?;
    let how = OpenOptions::default();
    let (outcome, run) = compact_to_run_with(alloc, &runs, options.rules, writer, &how)?;
    let entries = count_run(&run);
    drop(run);
    Ok((outcome, entries))
}

// The new tables, and the number of their entries.
#[derive(Drop)]
struct NewTables<A: Allocator> {
    tables: Vec<FinishedTable<A>, A>,
    entries: u64,
}

// Returns the tables of an outcome, or `None` if entries were out of order.
fn finished<A: Allocator>(outcome: CompactionOutcome<A>) -> Option<Vec<FinishedTable<A>, A>>
    ensures some { IfSome result
        (λ tables. (left : Option ℕ) × (outcome ≡ spec.Tables tables left)) }
    ensures none { IfNone result (spec.HasNoTables outcome) }
{
    match outcome {
        CompactionOutcome::Tables(tables, _) => Some(tables),
        CompactionOutcome::OutOfOrder | CompactionOutcome::Stopped => None,
    }
}

// Compacts tables of files. An error names its file, if that is known.
fn compact_opened<'a, A: Allocator + Copy>(
    alloc: A,
    paths: &[&'a str],
    tables: &[Table<A>],
    options: &CompactOptions,
) -> Result<NewTables<A>, ToolError<'a>>
    requires { spec.HasSmallSizes options.now.tables }
    ensures made { IfOk result
        (λ made. spec.AreCompactedOf options.now tables.now made.tables.items) }
    ensures count { IfOk result (λ made. spec.TellCount made.tables.items made.entries) }
    ensures order { IfErr result (spec.TellsOrder options.now tables.now) }
    ensures library { IfErr result (spec.TellsLibrary options.now tables.now) }
    ensures blames { IfErr result (spec.IsBlame paths.now tables.now) }
    ensures misses { IfErr result (spec.MissesNone tables.now) }
    ensures names { IfErr result (spec.NamesOrder paths.now tables.now) }
    ensures memory { IfErr result spec.BlamesNoneForMemory }
{
    let (outcome, entries) = match compact_tables(alloc, tables, options) {
        Ok(outcome) => outcome,
        Err(error) => return Err(blame(alloc, paths, tables, error)),
    };
    match finished(outcome) {
        Some(tables) => Ok(NewTables { tables, entries }),
        None => Err(blame_order(alloc, paths, tables)),
    }
}

// Opens files and compacts their tables.
#[tactic(auto, using(crate::proofs::Blaming::blamed_memory, crate::proofs::Blaming::blamed_order))]
fn open_and_compact<'a, P: Place, A: Allocator + Copy>(
    place: &P,
    alloc: A,
    paths: &[&'a str],
    options: &CompactOptions,
) -> Result<NewTables<A>, ToolError<'a>>
    requires { spec.HasSmallSizes options.now.tables }
    ensures made { IfOk result (λ made.
        spec.AreOfFiles options.now (P.content place.now) paths.now made.tables.items) }
    ensures count { IfOk result (λ made. spec.TellCount made.tables.items made.entries) }
    ensures order { IfErr result (λ e. spec.IfOutOfOrder e ((opened : List spec.OpenTable)
        × (length opened ≡ length paths.now) × spec.TellsOrder options.now opened e)) }
    ensures memory { IfErr result spec.BlamesNoneForMemory }
    ensures refused { IfErr result (spec.RefusesFiles options.now (P.content place.now) paths.now) }
{
    let tables = open_tables(place, alloc, paths, true)?;
    compact_opened(alloc, paths, &tables, options)
}

/// Compacts table files, each as a run of its own, and writes the new tables into a new folder. The
/// files are named `000001.sst`, `000002.sst` and so on. Which entries are kept is that of
/// [`compact_any_runs`](lsm_runs::compact_any_runs).
///
/// # Errors
///
/// - The folder's name is taken. This is tested before any file is read.
/// - A block or partition would have more than 4 MiB.
/// - A file cannot be opened ([`open_tables`]) or read.
/// - The entries of a file are out of order, or a key has a sequence number twice among the kept
///   entries.
/// - A new table cannot be written, or the folder cannot be made
///   ([`place_folder`](crate::files::place_folder)).
/// - Memory runs out.
///
/// No existing file is changed. After an error nothing has the folder's name, except if only
/// syncing its name failed.
pub fn compact_files<'a, P: Place, A: Allocator + Copy>(
    place: &mut P,
    alloc: A,
    paths: &[&'a str],
    folder: &'a str,
    options: &CompactOptions,
) -> Result<Made, ToolError<'a>>
    // On success the new tables are those of a list that can be written, made of these files,
    // opened in their order. If these store lists, it is the list of the kept entries of all
    // together. The result has the number of new tables and of their entries. A folder was made
    // under a temporary name, filled with exactly these tables, synced, renamed and synced again.
    // After that only temporary folders of its name were removed, and nothing else was done.
    ensures made { IfOk result (λ made. spec.CompactsFiles A options.now (P.content place.old)
        paths.now folder.now made (P.done place.old) (P.done place.new)) }
    // If the folder's name is taken the error names the folder, whatever the files are.
    ensures taken { P.there place.old folder.now ≡ Some true → IsErrAnd result
        (λ e. spec.TellsFolder folder.now
        (spec.TellsFound spec.Taken (P.there place.old folder.now)) e) }
    ensures free { OnOk result
        (IfSome (P.there place.old folder.now) (λ there. there ≡ false)) }
    // No block or partition is too large then.
    ensures small { OnOk result (spec.HasSmallSizes options.now.tables) }
    // After an error this is the cause, and exactly this was done.
    ensures refused { IfErr result (λ e. spec.RefusesToCompact A options.now (P.content place.old)
        paths.now folder.now (P.there place.old folder.now) (P.done place.old) e
        (P.done place.new)) }
    // If the error says that entries are out of order and the files store lists, one of the kept
    // entries of all together may not follow those before it.
    ensures order { IfErr result (λ e. spec.IfOutOfOrder e ((opened : List spec.OpenTable)
        × (length opened ≡ length paths.now) × spec.TellsOrder options.now opened e)) }
    // OutOfMemory names no file.
    ensures memory { IfErr result spec.BlamesNoneForMemory }
{
    check_folder(place, folder)?;
    options.tables.check_sizes()?;
    let made = open_and_compact(place, alloc, paths, options)?;
    write_tables(place, alloc, folder, &made.tables)?;
    Ok(Made {
        tables: made.tables.len() as u64,
        entries: made.entries,
    })
}
