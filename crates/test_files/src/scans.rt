//! Scans of tables: each entry is lent in order, with the global seqno applied.
use crate::given::{FORMS, Form, ROWS, Row, bytes_of};
use lsm_files::{FileError, FileScanner, FileTable, ReadAt};
use sst_blocks::{Checksum, Error, SeqNo};
use std::alloc::Global;

// Whether the current entry is a row's, with a global seqno applied.
fn lends<R: ReadAt>(scanner: &FileScanner<'_, R>, row: &Row, global_seqno: SeqNo) -> bool {
    match scanner.entry() {
        Some(entry) => {
            entry.user_key == row.0
                && entry.value == row.2
                && entry.seqno.checked_sub(global_seqno) == Some(row.1)
        }
        None => false,
    }
}

// Whether a scanner lends the rows, and then nothing.
fn lends_rows<R: ReadAt>(
    scanner: &mut FileScanner<'_, R>,
    global_seqno: SeqNo,
) -> Result<bool, FileError> {
    for row in ROWS {
        if !scanner.advance()? || !lends(scanner, row, global_seqno) {
            return Ok(false);
        }
    }
    Ok(!scanner.advance()? && scanner.entry().is_none())
}

fn is_scanned(alloc: Global, form: Form, global_seqno: SeqNo) -> Result<bool, FileError> {
    let bytes = bytes_of(alloc, form)?;
    let file = bytes.as_slice();
    let table = FileTable::open(alloc, file, Checksum(0), global_seqno, 0, false, false)?;
    let mut scanner = table.scan()?;
    let is_lent = lends_rows(&mut scanner, global_seqno)?;
    Ok(is_lent && scanner.opened().data_loads == ROWS.len() as u64)
}

#[test]
fn each_entry_is_lent_in_order(rt: HostRuntime) {
    for &form in FORMS {
        for global_seqno in [0, 1_000] {
            let is_scanned = is_scanned(rt.alloc(), form, global_seqno);
            assert!(rt; matches!(is_scanned, Ok(true)));
        }
    }
}

// The error code of a scan of some bytes, 0 for none.
fn scan_refusal(alloc: Global, bytes: &[u8]) -> Result<u8, FileError> {
    let table = FileTable::open(alloc, bytes, Checksum(0), 0, 0, true, true)?;
    let mut scanner = match table.scan() {
        Ok(scanner) => scanner,
        Err(error) => return Ok(number(&error)),
    };
    match lends_rows(&mut scanner, 0) {
        Ok(_) => Ok(0),
        Err(error) => {
            let ended = matches!(scanner.advance(), Ok(false));
            Ok(if ended { number(&error) } else { 98 })
        }
    }
}

fn number(error: &FileError) -> u8 {
    match error {
        FileError::Table(error) => error.number(),
        FileError::Io(_) => 99,
    }
}

// The error code of a scan with the byte at an offset inverted.
fn scan_refusal_with(alloc: Global, at: usize) -> Result<u8, FileError> {
    let bytes = bytes_of(alloc, Form::Whole)?;
    let mut changed = Vec::from_slice(alloc, bytes.as_slice())?;
    if let Some(byte) = changed.get_mut(at) {
        *byte = !*byte;
    }
    scan_refusal(alloc, changed.as_slice())
}

// The first byte is the first block's mark; the payload starts behind 24 bytes; the second block
// starts behind the first, whose payload is shorter than 100 bytes.
#[test]
fn a_damaged_block_ends_a_scan(rt: HostRuntime) {
    let alloc = rt.alloc();
    let in_mark = scan_refusal_with(alloc, 0);
    assert!(rt; matches!(in_mark, Ok(code) if code == Error::InvalidHeader.number()));
    let in_payload = scan_refusal_with(alloc, 30);
    assert!(rt; matches!(in_payload, Ok(code) if code == Error::ChecksumMismatch.number()));
    let further = scan_refusal_with(alloc, 200);
    assert!(rt; matches!(further, Ok(code) if code != 0 && code < 98));
}
