//! Lines are written into files, compacted and read back.
use crate::files::memory::Memory;
use lsm_tables::compaction::Rules;
use lsm_tables::table::{BloomConstructionPolicy, IndexKind, Timestamp};
use sst_tool::files::{FileFault, Place, ToolError, open_table};
use sst_tool::lines::Format;
use sst_tool::make::{CompactOptions, TableOptions, WriteOptions, compact_files, write_entries};
use std::alloc::Global;

/// The number of a step that is not reached, so that none fails.
pub(crate) const NEVER: u64 = 1_000;

/// Three entries of two keys.
pub(crate) const LINES: &str = "a 3 V x\na 1 V y\nc 2 V z\n";

/// Two more entries.
pub(crate) const MORE: &str = "a 7 V w\nb 4 V v\n";

// Options of one table, or of several with a target.
fn table_options(target: Option<u64>) -> TableOptions {
    TableOptions {
        index: IndexKind::Full,
        filter: BloomConstructionPolicy::BitsPerKey(100),
        block_size: 4_096,
        level: 0,
        target,
        created_at: Timestamp::from(0),
    }
}

/// Options for writing one table, or several with a target.
pub(crate) fn write_options(target: Option<u64>) -> WriteOptions {
    WriteOptions {
        tables: table_options(target),
        format: Format::Lines,
        sort: false,
    }
}

/// Options for a compaction that keeps all, into one table, or several with a target.
pub(crate) fn keep_all(target: Option<u64>) -> CompactOptions {
    CompactOptions {
        rules: Rules {
            watermark: 0,
            evict: false,
            zeroing: false,
        },
        tables: table_options(target),
    }
}

/// A call on a file system.
#[derive(Clone, Copy)]
pub(crate) enum Asked<'a> {
    /// Write lines as a path.
    Write(&'a str, &'a str, &'a WriteOptions),
    /// Compact files into a folder.
    Compact(&'a [&'a str], &'a str, &'a CompactOptions),
    /// Open a file.
    Open(&'a str),
}

// The error of writing lines: 1 for sizes, 2 without entries, 3 for a line, 4 for others.
fn why_unwritten(error: &ToolError<'_>) -> u8 {
    match error {
        ToolError::SizeTooLarge => 1,
        ToolError::NoEntries => 2,
        ToolError::Line { .. } => 3,
        _ => 4,
    }
}

// The error of a compaction: 1 if the folder's name is taken, 2 for another error of a file, 3 for
// others.
fn why_not(error: &ToolError<'_>) -> u8 {
    match error {
        ToolError::File(error) => match error.fault {
            FileFault::Taken => 1,
            _ => 2,
        },
        _ => 3,
    }
}

// Makes a call on a file system. Returns the numbers of tables and entries, or the error. Generic
// in the file system, whose trait is expensive at a concrete type.
fn perform<P: Place>(place: &mut P, alloc: Global, asked: Asked<'_>) -> Result<(u64, u64), u8> {
    match asked {
        Asked::Write(lines, path, options) => {
            match write_entries(place, alloc, lines.as_bytes(), path, options) {
                Ok(made) => Ok((made.tables, made.entries)),
                Err(error) => Err(why_unwritten(&error)),
            }
        }
        Asked::Compact(paths, folder, options) => {
            match compact_files(place, alloc, paths, folder, options) {
                Ok(made) => Ok((made.tables, made.entries)),
                Err(error) => Err(why_not(&error)),
            }
        }
        Asked::Open(path) => match open_table(place, alloc, path, true) {
            Ok(table) => Ok((1, table.metadata.item_count)),
            Err(_) => Err(0),
        },
    }
}

/// Makes a call on a file system in memory.
pub(crate) fn returned(
    place: &mut Memory,
    alloc: Global,
    asked: Asked<'_>,
) -> Result<(u64, u64), u8> {
    perform(place, alloc, asked)
}

/// Writes lines. Returns the numbers of tables and entries, or `None` after an error.
pub(crate) fn write(
    place: &mut Memory,
    alloc: Global,
    lines: &str,
    path: &str,
    target: Option<u64>,
) -> Option<(u64, u64)> {
    returned(
        place,
        alloc,
        Asked::Write(lines, path, &write_options(target)),
    )
    .ok()
}

/// Compacts the files `a` and `b` into a folder. Returns the numbers of tables and entries, or
/// `None` after an error.
pub(crate) fn compact(
    place: &mut Memory,
    alloc: Global,
    folder: &str,
    target: Option<u64>,
) -> Option<(u64, u64)> {
    returned(
        place,
        alloc,
        Asked::Compact(&["b", "a"], folder, &keep_all(target)),
    )
    .ok()
}

/// Returns the number of entries of a file's table, or `None` if it does not open.
pub(crate) fn entries_of(place: &mut Memory, alloc: Global, path: &str) -> Option<u64> {
    match returned(place, alloc, Asked::Open(path)) {
        Ok((_, entries)) => Some(entries),
        Err(_) => None,
    }
}

/// Returns a file system with `b`, and the older `a`, in which a step then fails.
pub(crate) fn sources(alloc: Global, refused: u64) -> Memory {
    let mut place = Memory::new(alloc, NEVER);
    write(&mut place, alloc, LINES, "a", None);
    write(&mut place, alloc, MORE, "b", None);
    place.refuse(refused);
    place
}

#[test]
fn lines_are_written_and_read_back(rt: HostRuntime) {
    let alloc = rt.alloc();
    let mut place = Memory::new(alloc, NEVER);
    assert_eq!(rt; write(&mut place, alloc, LINES, "t", None), Some((1, 3)));
    assert_eq!(rt; entries_of(&mut place, alloc, "t"), Some(3));
    // It was written and renamed, and its folder synced.
    assert_eq!(rt; place.steps(), 3);
    assert_eq!(rt; place.count(), 1);
}

#[test]
fn several_tables_are_numbered(rt: HostRuntime) {
    let alloc = rt.alloc();
    let mut place = Memory::new(alloc, NEVER);
    // At target 0 each key has a table.
    assert_eq!(rt; write(&mut place, alloc, LINES, "t", Some(0)), Some((2, 3)));
    assert_eq!(rt; entries_of(&mut place, alloc, "t.000001"), Some(2));
    assert_eq!(rt; entries_of(&mut place, alloc, "t.000002"), Some(1));
    assert_eq!(rt; place.count(), 2);
}

// Writes a file beside two temporary names that a killed run left, and a folder of such a name.
// Returns whether it was written, which of the two are there, and the number of files and folders.
fn left_beside(alloc: Global, held: bool) -> (bool, bool, bool, usize) {
    let mut place = Memory::new(alloc, NEVER);
    let put = place.put("t.1.tmp", Some(b"old")).is_ok()
        && place.put("t.2.tmp", None).is_ok()
        && place.put("t.3.tmp", Some(b"old")).is_ok();
    place.hold(held);
    let written = write(&mut place, alloc, LINES, "t", None).is_some();
    (
        put && written,
        place.has("t.1.tmp"),
        place.has("t.3.tmp"),
        place.count(),
    )
}

#[test]
fn temporary_files_of_killed_runs_are_removed(rt: HostRuntime) {
    let alloc = rt.alloc();
    // The folder stays. If no file can be removed, all is written too.
    assert_eq!(rt; left_beside(alloc, false), (true, false, false, 2));
    assert_eq!(rt; left_beside(alloc, true), (true, true, true, 4));
}

#[test]
fn file_behind_the_last_is_left_of_an_earlier_write(rt: HostRuntime) {
    let alloc = rt.alloc();
    let mut place = Memory::new(alloc, NEVER);
    assert_eq!(rt; place.put("t.000003", Some(b"old")).is_ok(), true);
    assert_eq!(rt; write(&mut place, alloc, LINES, "t", Some(0)), None);
    assert_eq!(rt; place.steps(), 0);
    assert_eq!(rt; place.count(), 1);
}

#[test]
fn files_are_compacted_and_read_back(rt: HostRuntime) {
    let alloc = rt.alloc();
    let mut place = sources(alloc, NEVER);
    assert_eq!(rt; compact(&mut place, alloc, "to", None), Some((1, 5)));
    assert_eq!(rt; entries_of(&mut place, alloc, "to/000001.sst"), Some(5));
    // A folder was made, one file written in it, the folder synced and renamed, and its name
    // synced.
    assert_eq!(rt; place.steps(), 5);
    assert_eq!(rt; place.count(), 4);
}

#[test]
fn several_tables_get_their_folder_at_once(rt: HostRuntime) {
    let alloc = rt.alloc();
    let mut place = sources(alloc, NEVER);
    // At target 0 each key has a table.
    assert_eq!(rt; compact(&mut place, alloc, "to", Some(0)), Some((3, 5)));
    assert_eq!(rt; entries_of(&mut place, alloc, "to/000001.sst"), Some(3));
    assert_eq!(rt; entries_of(&mut place, alloc, "to/000002.sst"), Some(1));
    assert_eq!(rt; entries_of(&mut place, alloc, "to/000003.sst"), Some(1));
    assert_eq!(rt; place.steps(), 7);
    assert_eq!(rt; place.count(), 6);
}

// Compacts beside two folders that killed runs left, the second with a file that no run writes.
// Returns whether it succeeded, the steps, which of the two are there, and the number of files and
// folders.
fn compacted_beside(alloc: Global, folder: &str, held: bool) -> (bool, u64, bool, bool, usize) {
    let mut place = sources(alloc, NEVER);
    let put = place.put("to.1.tmp", None).is_ok()
        && place.put("to.1.tmp/000002.sst", Some(b"old")).is_ok()
        && place.put("to.2.tmp", None).is_ok()
        && place.put("to.2.tmp/000001.sst", Some(b"old")).is_ok()
        && place.put("to.2.tmp/1.sst", Some(b"old")).is_ok();
    place.hold(held);
    let made = compact(&mut place, alloc, folder, None).is_some();
    let (first, second) = (place.has("to.1.tmp"), place.has("to.2.tmp"));
    (put && made, place.steps(), first, second, place.count())
}

#[test]
fn temporary_folders_of_killed_runs_are_removed(rt: HostRuntime) {
    let alloc = rt.alloc();
    // The names that are taken were tried too.
    assert_eq!(rt;
        compacted_beside(alloc, "to", false),
        (true, 7, false, true, 6)
    );
    assert_eq!(rt;
        compacted_beside(alloc, "to//", false),
        (true, 7, false, true, 6)
    );
    assert_eq!(rt;
        compacted_beside(alloc, "to", true),
        (true, 7, true, true, 9)
    );
}
