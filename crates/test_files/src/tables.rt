//! Tables in slices: each entry is read back, and keys that are not there are not found.
use crate::given::{FORMS, Form, PINS, Pins, ROWS, Row, bytes_of, finds, opened};
use lsm_files::{FileError, FileTable, ReadAt};
use sst_blocks::{Error, Opened, SeqNo};
use std::alloc::Global;

// A key and a snapshot at which nothing is visible: a key before, between and after those of the
// table, and keys whose versions are all newer.
const ABSENT: &[(&[u8], SeqNo)] = &[
    (b"", 100),
    (b"app", 100),
    (b"banana", 100),
    (b"zebra", 100),
    (b"apple", 3),
    (b"plum", 1),
    (b"melon", 0),
];

// Whether each row is found right after its seqno, and no absent key.
fn is_read<R: ReadAt + Drop>(table: &FileTable<R>) -> Result<bool, FileError> {
    for row in ROWS {
        if !finds(table, row.0, row.1.saturating_add(1), Some(row))? {
            return Ok(false);
        }
    }
    for &(key, seqno) in ABSENT {
        if !finds(table, key, seqno, None)? {
            return Ok(false);
        }
    }
    Ok(true)
}

fn table_is_read(alloc: Global, form: Form, pins: Pins) -> Result<bool, FileError> {
    let bytes = bytes_of(alloc, form)?;
    let table = opened(alloc, bytes.as_slice(), pins)?;
    is_read(&table)
}

#[test]
fn each_row_is_read_back(rt: HostRuntime) {
    for &form in FORMS {
        for &pins in PINS {
            let is_read = table_is_read(rt.alloc(), form, pins);
            assert!(rt; matches!(is_read, Ok(true)));
        }
    }
}

// The loads of a read of the last row.
fn loads_of(alloc: Global, form: Form, pins: Pins) -> Result<Opened, FileError> {
    let bytes = bytes_of(alloc, form)?;
    let table = opened(alloc, bytes.as_slice(), pins)?;
    let key: &[u8] = b"plum";
    let (found, loads) = table.get_counted(key, 2, FileTable::<&[u8]>::key_hash(key));
    found?;
    Ok(loads)
}

// A table's form, its pins, and the data, index and filter blocks that a read loads.
const LOADS: &[(Form, Pins, (u64, u64, u64))] = &[
    (Form::Whole, (false, false), (1, 1, 1)),
    (Form::Whole, (false, true), (1, 0, 1)),
    (Form::Whole, (true, false), (1, 1, 0)),
    (Form::Whole, (true, true), (1, 0, 0)),
    (Form::Parted, (false, false), (1, 1, 1)),
    (Form::Parted, (true, true), (1, 1, 1)),
];

fn are_loads(loads: &Result<Opened, FileError>, expected: (u64, u64, u64)) -> bool {
    match loads {
        Ok(loads) => {
            (loads.data_loads, loads.index_loads, loads.filter_loads) == expected
                && loads.meta_loads == 0
        }
        Err(_) => false,
    }
}

#[test]
fn a_read_loads_the_blocks_that_are_not_pinned(rt: HostRuntime) {
    for &(form, pins, expected) in LOADS {
        let loads = loads_of(rt.alloc(), form, pins);
        assert!(rt; are_loads(&loads, expected));
    }
}

// The error code of opening a table and reading the last row in some bytes: 0 for none, 99 for one
// of the system.
fn refusal(alloc: Global, bytes: &[u8]) -> u8 {
    let row: Row = (b"plum", 1, b"blue");
    match opened(alloc, bytes, (false, false)) {
        Ok(table) => number(finds(&table, row.0, 2, Some(&row))),
        Err(error) => number(Err(error)),
    }
}

fn number(read: Result<bool, FileError>) -> u8 {
    match read {
        Ok(_) => 0,
        Err(FileError::Table(error)) => error.number(),
        Err(FileError::Io(_)) => 99,
    }
}

// The error code of a table with the byte at an offset inverted.
fn refusal_with(alloc: Global, at: usize) -> Result<u8, Error> {
    let bytes = bytes_of(alloc, Form::Whole)?;
    let mut changed = Vec::from_slice(alloc, bytes.as_slice())?;
    if let Some(byte) = changed.get_mut(at) {
        *byte = !*byte;
    }
    Ok(refusal(alloc, changed.as_slice()))
}

// The error code of the first bytes of a table.
fn refusal_of(alloc: Global, len: usize) -> Result<u8, Error> {
    let bytes = bytes_of(alloc, Form::Whole)?;
    match bytes.as_slice().get(..len) {
        Some(part) => Ok(refusal(alloc, part)),
        None => Err(Error::Source(0)),
    }
}

#[test]
fn a_damaged_table_is_refused(rt: HostRuntime) {
    let alloc = rt.alloc();
    // An empty file, and one that was cut: the trailer is not there.
    assert!(rt; refusal_of(alloc, 0) == Ok(Error::InvalidTrailer.number()));
    assert!(rt; refusal_of(alloc, 119) == Ok(Error::InvalidTrailer.number()));
    assert!(rt; refusal_of(alloc, 300) == Ok(Error::InvalidTrailer.number()));
    // The first data block is not the last row's.
    assert!(rt; refusal_with(alloc, 0) == Ok(0));
}
