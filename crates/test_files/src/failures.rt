//! Files that shrink while they are open, and reads that fail: the system's error is returned.
use crate::given::{Form, Row, bytes_of, finds, opened};
use lsm_files::{FileError, ReadAt};
use sst_blocks::Slice;
use std::alloc::Global;
use std::cell::Cell;
use std::io;
use std::io::ErrorKind;

// The bytes of a table, as a file that can shrink and whose reads can fail.
#[derive(Drop)]
struct Faulty {
    bytes: Slice,
    // The number of bytes that are left.
    len: Cell<usize>,
    // The number of reads before one fails.
    calm: Cell<u64>,
}

impl Faulty {
    fn new(bytes: Slice, calm: u64) -> Faulty {
        let len = Cell::new(bytes.len());
        Faulty {
            bytes,
            len,
            calm: Cell::new(calm),
        }
    }

    // The bytes that are left.
    fn left(&self) -> &[u8] {
        let bytes = self.bytes.as_slice();
        match bytes.get(..self.len.get()) {
            Some(left) => left,
            None => bytes,
        }
    }
}

impl ReadAt for &Faulty {
    ghost use Rattle.std.specs.Prelude.{[]};
    ghost use Rattle.lsm_files.specs.Reads.{unknown};

    ghost reads = { unknown };

    ghost bytes = { λ _. [] };

    fn len(&self) -> io::Result<u64> {
        let file: &Faulty = self;
        Ok(file.left().len() as u64)
    }

    fn read_exact_at(&self, buf: &mut [u8], offset: u64) -> io::Result<()> {
        let file: &Faulty = self;
        let calm = file.calm.get();
        if calm == 0 {
            return Err(io::Error::from(ErrorKind::TimedOut));
        }
        file.calm.set(calm - 1);
        let left: &[u8] = file.left();
        left.read_exact_at(buf, offset)
    }
}

// The kind of the system's error, if it is one.
fn kind_of(read: Result<bool, FileError>) -> Option<ErrorKind> {
    match read {
        Err(FileError::Io(error)) => Some(error.kind()),
        _ => None,
    }
}

const LAST: Row = (b"plum", 1, b"blue");

// Opens a table and reads its last row.
fn read(alloc: Global, file: &Faulty) -> Result<bool, FileError> {
    let table = opened(alloc, file, (false, false))?;
    finds(&table, LAST.0, 2, Some(&LAST))
}

// The result of the reads with one of them failing.
fn read_with(alloc: Global, calm: u64) -> Result<bool, FileError> {
    let bytes = bytes_of(alloc, Form::Whole)?;
    read(alloc, &Faulty::new(bytes, calm))
}

// The trailer, the meta block, the filter, the index and a data block are read.
#[test]
fn each_read_fails_in_turn(rt: HostRuntime) {
    for calm in 0..5 {
        let failed = kind_of(read_with(rt.alloc(), calm));
        assert!(rt; failed == Some(ErrorKind::TimedOut));
    }
    assert!(rt; matches!(read_with(rt.alloc(), 5), Ok(true)));
}

// Reads the last row of a table that shrinks to some length once it is open.
fn read_shrunk(alloc: Global, len: usize) -> Result<bool, FileError> {
    let bytes = bytes_of(alloc, Form::Whole)?;
    let file = Faulty::new(bytes, u64::MAX);
    let table = opened(alloc, &file, (true, true))?;
    file.len.set(len);
    finds(&table, LAST.0, 2, Some(&LAST))
}

#[test]
fn a_file_that_shrinks_is_an_error_of_the_system(rt: HostRuntime) {
    for len in [0, 1, 40] {
        let failed = kind_of(read_shrunk(rt.alloc(), len));
        assert!(rt; failed == Some(ErrorKind::UnexpectedEof));
    }
}
