//! Opens files as tables.
ghost use Rattle.std.specs.Prelude.{◌≡◌, ◌++◌, ◌∷◌, [], Any, IfErr, IfOk, OnOk, Some, false};
ghost use Rattle.std.specs.Prelude.{length, true};
ghost use Rattle.sst_tool.specs.files.Words as spec;

use crate::files::{FileError, FileFault, FileName, Place, read_file};
use lsm_files::{FileTable, ReadAt};
use lsm_readers::Table;
use sst_blocks::{Checksum, Error, Slice};
use std::alloc::Allocator;

/// Opens the bytes of a table, with no checksum to compare and with the sequence numbers as stored.
///
/// If `pinned`, the filter and the index are pinned. Otherwise only the top levels of partitions
/// are, and each read loads the blocks that it needs.
///
/// # Errors
///
/// Fails as [`Table::recover`] does.
pub fn open_bytes<A: Allocator + Copy>(
    alloc: A,
    bytes: Slice<A>,
    pinned: bool,
) -> Result<Table<A>, Error>
    ensures returned { spec.Gives (λ (t : spec.OpenTable). t.parts) result
        (spec.recovered_result bytes 0 pinned pinned) }
    ensures bytes { IfOk result (λ t. t.bytes ≡ bytes) }
    ensures recovered { IfOk result (spec.IsToldByBytes pinned) }
{
    Table::recover(alloc, bytes, Checksum(0), 0, 0, pinned, pinned)
}

/// Opens a file as a table, as [`open_bytes`] does.
///
/// # Errors
///
/// Fails as [`read_file`] does, and as [`Table::recover`] does for the file's bytes.
pub fn open_table<'a, P: Place, A: Allocator + Copy>(
    place: &P,
    alloc: A,
    path: &'a str,
    pinned: bool,
) -> Result<Table<A>, FileError<'a>>
    // The table has the bytes of the file, and is what they decode to.
    ensures recovered { IfOk result (spec.IsToldByBytes pinned) }
    ensures content { IfOk result (spec.HasContent (P.content place.now path.now)) }
    // An error names the file, and is the one that its bytes decode to.
    ensures named { IfErr result (λ e. spec.path_text e.name ≡ path.now) }
    ensures returned { IfErr result (λ e.
        spec.TellsRefused pinned (P.content place.now path.now) e.fault) }
{
    let bytes = read_file(place, alloc, path)?;
    match open_bytes(alloc, bytes, pinned) {
        Ok(table) => Ok(table),
        Err(error) => Err(FileError {
            name: FileName::Plain(path),
            fault: FileFault::Refused(error),
        }),
    }
}

/// Opens a table that stays in its file, with the sequence numbers as stored. Only top levels of
/// partitions are pinned, and each read loads the blocks that it needs.
///
/// # Errors
///
/// Fails with [`FileFault::Io`] if a read fails, and as [`Table::recover`] does for the file's
/// bytes.
pub fn open_file_table<'a, R: ReadAt + Drop, A: Allocator + Copy>(
    alloc: A,
    file: R,
    path: &'a str,
) -> Result<FileTable<R, A>, FileError<'a>>
    // The table has the bytes of the file, and is what they decode to, if they are known.
    ensures recovered { spec.AreKnown R.reads → IfOk result (spec.IsToldByBytes false) }
    ensures bytes { IfOk result (λ t. t.bytes ≡ R.bytes file) }
    // An error names the file, and is the one that its bytes decode to.
    ensures named { IfErr result (λ e. spec.path_text e.name ≡ path.now) }
    ensures returned { spec.AreKnown R.reads → IfErr result (λ e.
        spec.TellsFailure R.reads (Some (R.bytes file)) e.fault) }
{
    match FileTable::open(alloc, file, Checksum(0), 0, 0, false, false) {
        Ok(table) => Ok(table),
        Err(error) => Err(FileError {
            name: FileName::Plain(path),
            fault: FileFault::from(error),
        }),
    }
}

// Adds a table. Fails only if memory runs out.
fn add_table<'a, A: Allocator + Copy>(
    tables: &mut Vec<Table<A>, A>,
    table: Table<A>,
    path: &'a str,
) -> Result<(), FileError<'a>>
    ensures ok { OnOk result (tables.new.items ≡ tables.old.items ++ table ∷ []) }
    ensures named { IfErr result (λ e. spec.path_text e.name ≡ path.now) }
    ensures memory { IfErr result (λ e. spec.is_memory_fault e.fault ≡ true) }
{
    match tables.push(table) {
        Ok(()) => Ok(()),
        Err(_) => Err(FileError {
            name: FileName::Plain(path),
            fault: FileFault::Refused(Error::OutOfMemory),
        }),
    }
}

/// Opens files as tables, in their order.
///
/// # Errors
///
/// Fails with the error of [`open_table`] for the first file that has one, and with `OutOfMemory`.
pub fn open_tables<'a, P: Place, A: Allocator + Copy>(
    place: &P,
    alloc: A,
    paths: &[&'a str],
    pinned: bool,
) -> Result<Vec<Table<A>, A>, FileError<'a>>
    ensures each { IfOk result (λ tables. length tables.items ≡ length paths.now) }
    // Each table has the bytes of its own file, and is what they decode to.
    ensures recovered { IfOk result (λ tables.
        spec.AllByRecursion (spec.IsToldByBytes pinned) tables.items) }
    ensures numbers { IfOk result (λ tables.
        spec.AllByRecursion (λ (t : spec.OpenTable). t.global_seqno ≡ 0) tables.items) }
    ensures opened { IfOk result (λ tables.
        spec.AreOpenedFrom pinned (P.content place.now) paths.now tables.items) }
    // An error names the first file that fails, and the files before it were opened.
    ensures stops { IfErr result (spec.StopsOpening pinned (P.content place.now) paths.now) }
    ensures named { IfErr result (λ e. Any (λ path. spec.path_text e.name ≡ path.now) paths.now) }
{
    let mut tables = Vec::new(alloc);
    for path in paths {
        let table = open_table(place, alloc, path, pinned)?;
        add_table(&mut tables, table, path)?;
    }
    Ok(tables)
}
