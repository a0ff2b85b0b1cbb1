//! Keys are read in files, block by block.
use crate::files::memory::Memory;
use crate::files::written::{NEVER, sources};
use sst_tool::files::{FileFault, Place, ToolError};
use sst_tool::lines::Format;
use sst_tool::show::{GetOptions, get};
use std::alloc::Global;

// The result of a read: the text written, or the error. 1 is a read of the file that failed, 2 a
// fault of its table, 3 another error.
fn read<P: Place>(
    alloc: Global,
    place: &P,
    paths: &[&str],
    options: &GetOptions<'_>,
) -> (Option<bool>, u8, Vec<u8>) {
    let mut output = Vec::new(alloc);
    match get(alloc, &mut output, place, paths, options) {
        Ok(there) => (Some(there), 0, output),
        Err(error) => (None, number_of(&error), output),
    }
}

fn number_of(error: &ToolError<'_>) -> u8 {
    match error {
        ToolError::File(error) => match error.fault {
            FileFault::Io(_) => 1,
            _ => 3,
        },
        ToolError::Unreadable { .. } => 2,
        _ => 3,
    }
}

// A read of `key` in these files.
fn options_of(key: &[u8], at: Option<u64>, loads: bool) -> GetOptions<'_> {
    GetOptions {
        key,
        at,
        loads,
        format: Format::Lines,
    }
}

// Whether a read writes this text, and finds an entry.
fn writes(place: &Memory, alloc: Global, options: &GetOptions<'_>, text: &[u8]) -> Option<bool> {
    let (there, _, output) = read(alloc, place, &["a", "b"], options);
    if output.as_slice() == text {
        there
    } else {
        None
    }
}

// The error of a read whose files fail after so many reads.
fn failed(alloc: Global, reads: Option<u64>) -> u8 {
    let mut place = sources(alloc, NEVER);
    place.limit(reads);
    let (_, error, _) = read(alloc, &place, &["a", "b"], &options_of(b"a", None, false));
    error
}

// The error of reading a key in a file whose first block was changed, and the length of the output.
fn damaged(alloc: Global) -> (u8, usize) {
    let mut place = sources(alloc, NEVER);
    place.damage("a");
    let (_, error, output) = read(alloc, &place, &["b", "a"], &options_of(b"a", None, false));
    (error, output.len())
}

#[test]
fn newest_version_of_files_is_written(rt: HostRuntime) {
    let alloc = rt.alloc();
    let mut place = sources(alloc, NEVER);
    for reads in [Some(u64::MAX), None] {
        place.limit(reads);
        let newest = options_of(b"a", None, false);
        assert_eq!(rt; writes(&place, alloc, &newest, b"a 7 V w\n"), Some(true));
        let older = options_of(b"a", Some(7), false);
        assert_eq!(rt; writes(&place, alloc, &older, b"a 3 V x\n"), Some(true));
        let oldest = options_of(b"a", Some(1), false);
        assert_eq!(rt; writes(&place, alloc, &oldest, b"none\n"), Some(false));
        let outside = options_of(b"z", None, false);
        assert_eq!(rt; writes(&place, alloc, &outside, b"none\n"), Some(false));
    }
}

#[test]
fn failed_read_is_an_error_of_the_file(rt: HostRuntime) {
    let alloc = rt.alloc();
    // The trailer, the meta block, and the blocks of the read.
    for reads in 0..5u64 {
        assert_eq!(rt; failed(alloc, Some(reads)), 1);
    }
    assert_eq!(rt; failed(alloc, Some(5)), 0);
    assert_eq!(rt; failed(alloc, None), 0);
}

#[test]
fn fault_of_a_table_is_not_one_of_its_file(rt: HostRuntime) {
    let alloc = rt.alloc();
    assert_eq!(rt; damaged(alloc), (2, 0));
}
