//! Each step fails in turn: the old file stays, or the new one is complete.
use crate::files::memory::Memory;
use crate::files::written::{
    Asked, LINES, NEVER, compact, entries_of, keep_all, returned, sources, write, write_options,
};
use lsm_tables::block::Error;
use sst_tool::files::{FileError, FileFault, FileName};
use std::alloc::Global;
use std::test::Fail;

// Whether a file has exactly these bytes.
fn has(place: &Memory, path: &str, bytes: &[u8]) -> bool {
    place.bytes_of(path) == Some(bytes)
}

// Replaces a file while a step fails. Returns whether it was written, whether the old file is
// there, whether the new one is, and the number of files.
fn replaced(alloc: Global, refused: u64) -> (bool, bool, bool, usize) {
    let mut place = Memory::new(alloc, refused);
    let put = place.put("t", Some(b"old")).is_ok();
    let written = write(&mut place, alloc, LINES, "t", None).is_some();
    let old = put && has(&place, "t", b"old");
    let new = entries_of(&mut place, alloc, "t") == Some(3);
    (written, old, new, place.count())
}

#[test]
fn old_file_or_the_new_one_stands(rt: HostRuntime) {
    let alloc = rt.alloc();
    // Writing, renaming and syncing fails, and then nothing.
    assert_eq!(rt; replaced(alloc, 0), (false, true, false, 1));
    assert_eq!(rt; replaced(alloc, 1), (false, true, false, 1));
    assert_eq!(rt; replaced(alloc, 2), (false, false, true, 1));
    assert_eq!(rt; replaced(alloc, NEVER), (true, false, true, 1));
}

// Replaces two files while a step fails. Returns which of them are new, and the number of files.
fn both_replaced(alloc: Global, refused: u64) -> (bool, bool, usize) {
    let mut place = Memory::new(alloc, refused);
    let put = place.put("t.000001", Some(b"old")).is_ok()
        && place.put("t.000002", Some(b"old")).is_ok();
    write(&mut place, alloc, LINES, "t", Some(0));
    let first = put && !has(&place, "t.000001", b"old");
    let second = put && !has(&place, "t.000002", b"old");
    (first, second, place.count())
}

#[test]
fn first_of_two_stands_renamed(rt: HostRuntime) {
    let alloc = rt.alloc();
    assert_eq!(rt; both_replaced(alloc, 0), (false, false, 2));
    assert_eq!(rt; both_replaced(alloc, 1), (false, false, 2));
    assert_eq!(rt; both_replaced(alloc, 2), (false, false, 2));
    assert_eq!(rt; both_replaced(alloc, 3), (true, false, 2));
    assert_eq!(rt; both_replaced(alloc, 4), (true, true, 2));
    assert_eq!(rt; both_replaced(alloc, NEVER), (true, true, 2));
}

// Compacts into three tables while a step fails. Returns whether it succeeded, whether the folder's
// name is taken, whether it has all tables, and the number of files and folders.
fn compacted(alloc: Global, refused: u64) -> (bool, bool, bool, usize) {
    let mut place = sources(alloc, refused);
    let done = compact(&mut place, alloc, "to", Some(0)).is_some();
    let whole = entries_of(&mut place, alloc, "to/000001.sst") == Some(3)
        && entries_of(&mut place, alloc, "to/000002.sst") == Some(1)
        && entries_of(&mut place, alloc, "to/000003.sst") == Some(1);
    (done, place.has("to"), whole, place.count())
}

#[test]
fn folder_stands_whole_or_is_absent(rt: HostRuntime) {
    let alloc = rt.alloc();
    // Making the folder, writing its three files, syncing and renaming it fails: both sources stay,
    // and nothing else is there.
    for refused in 0..6u64 {
        assert_eq!(rt; compacted(alloc, refused), (false, false, false, 2));
    }
    // Syncing the folder's name fails, and then nothing.
    assert_eq!(rt; compacted(alloc, 6), (false, true, true, 6));
    assert_eq!(rt; compacted(alloc, NEVER), (true, true, true, 6));
}

// The error of a compaction, or 0.
fn why_not(place: &mut Memory, alloc: Global, paths: &[&str]) -> u8 {
    let asked = Asked::Compact(paths, "to", &keep_all(None));
    returned(place, alloc, asked).err().unwrap_or(0)
}

#[test]
fn taken_folder_is_told_before_any_file(rt: HostRuntime) {
    let alloc = rt.alloc();
    let mut place = sources(alloc, NEVER);
    assert_eq!(rt; why_not(&mut place, alloc, &["none"]), 2);
    assert_eq!(rt; place.put("to", None).is_ok(), true);
    assert_eq!(rt; why_not(&mut place, alloc, &["none"]), 1);
    assert_eq!(rt; why_not(&mut place, alloc, &["b", "a"]), 1);
    assert_eq!(rt; place.steps(), 0);
}

// The error of writing lines, or 0.
fn why_unwritten(place: &mut Memory, alloc: Global, lines: &str, block_size: u32) -> u8 {
    let mut options = write_options(None);
    options.tables.block_size = block_size;
    let asked = Asked::Write(lines, "t", &options);
    returned(place, alloc, asked).err().unwrap_or(0)
}

#[test]
fn nothing_is_done_for_lines_that_are_refused(rt: HostRuntime) {
    let alloc = rt.alloc();
    let mut place = Memory::new(alloc, NEVER);
    assert_eq!(rt; why_unwritten(&mut place, alloc, "?", 4_194_305), 1);
    assert_eq!(rt; why_unwritten(&mut place, alloc, "\n\n", 4_096), 2);
    assert_eq!(rt; why_unwritten(&mut place, alloc, "?", 4_096), 3);
    assert_eq!(rt; place.steps(), 0);
    assert_eq!(rt; why_unwritten(&mut place, alloc, LINES, 4_096), 0);
}

#[test]
fn want_of_memory_names_no_file(rt: HostRuntime) {
    let error = FileFault::Refused(Error::OutOfMemory);
    assert_eq!(rt; error.is_memory(), true);
    assert_eq!(rt; FileFault::Refused(Error::Truncated).is_memory(), false);
}

#[test]
fn control_bytes_of_a_name_are_escaped(rt: HostRuntime) -> Result<(), Fail> {
    let error = FileError {
        name: FileName::Part("a\n\u{1b}b c", 2),
        fault: FileFault::Folder,
    };
    let text = format!(in rt.alloc(); "{error}")?;
    assert_eq!(rt; text.as_str(), "a\\x0a\\x1bb c.000002: is a folder");
    Ok(())
}
