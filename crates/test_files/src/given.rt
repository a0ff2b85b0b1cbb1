//! A list of entries, its tables, and reads of these.
ghost use Rattle.std.specs.Prelude.{IfOk};
ghost use Rattle.lsm_writers.specs.Writing.{IsFresh};

use lsm_files::{FileError, FileTable, ReadAt};
use lsm_writers::{Timestamp, Writer};
use sst_blocks::{Checksum, Error, InternalValue, SeqNo, Slice, ValueType};
use std::alloc::Global;

/// A key, a seqno and a value.
pub(crate) type Row = (&'static [u8], SeqNo, &'static [u8]);

/// The entries of each table, in order.
pub(crate) const ROWS: &[Row] = &[
    (b"apple", 7, b"red"),
    (b"apple", 3, b"green"),
    (b"cherry", 9, b"dark"),
    (b"grape", 2, b""),
    (b"melon", 5, b"large"),
    (b"plum", 1, b"blue"),
];

/// How the index and the filter of a table are written.
#[derive(Clone, Copy)]
pub(crate) enum Form {
    Whole,
    Parted,
}

/// The forms of a table.
pub(crate) const FORMS: &[Form] = &[Form::Whole, Form::Parted];

/// Whether the filter and the index are pinned.
pub(crate) type Pins = (bool, bool);

/// Each choice of blocks to pin.
pub(crate) const PINS: &[Pins] = &[(false, false), (false, true), (true, false), (true, true)];

// A writer that cuts a data block after each entry.
fn writer_of_blocks(alloc: Global) -> Result<Writer, Error>
    ensures { IfOk result (λ w. IsFresh w) }
{
    Ok(Writer::new(alloc, 1, 0, Timestamp::from(0))?.use_data_block_size(1))
}

fn parted(writer: Writer) -> Writer
    requires { IsFresh writer }
    ensures { IsFresh result }
{
    writer.use_partitioned_index().use_partitioned_filter()
}

fn writer_of(alloc: Global, form: Form) -> Result<Writer, Error>
    ensures { IfOk result (λ w. IsFresh w) }
{
    let writer = writer_of_blocks(alloc)?;
    match form {
        Form::Whole => Ok(writer),
        Form::Parted => Ok(parted(writer)),
    }
}

// Writes a row. Fails with `Source(0)` if it may not follow.
fn put(writer: &mut Writer, row: &Row) -> Result<(), Error> {
    let (key, value) = (Slice::from_static(row.0), Slice::from_static(row.2));
    let item = InternalValue::from_components(key, value, row.1, ValueType::Value);
    if !writer.can_follow(&item.key) {
        return Err(Error::Source(0));
    }
    writer.write(item)
}

fn put_all(writer: &mut Writer) -> Result<(), Error> {
    for row in ROWS {
        put(writer, row)?;
    }
    Ok(())
}

/// The bytes of the table of [`ROWS`].
pub(crate) fn bytes_of(alloc: Global, form: Form) -> Result<Slice, Error> {
    let mut writer = writer_of(alloc, form)?;
    put_all(&mut writer)?;
    match writer.finish()? {
        Some(table) => Ok(table.bytes),
        None => Err(Error::Source(1)),
    }
}

/// Opens a table with no global seqno.
pub(crate) fn opened<R: ReadAt + Drop>(
    alloc: Global,
    file: R,
    pins: Pins,
) -> Result<FileTable<R>, FileError> {
    FileTable::open(alloc, file, Checksum(0), 0, 0, pins.0, pins.1)
}

// Whether an entry is a row's.
fn is_row(found: &InternalValue, row: &Row) -> bool {
    found.key.user_key.as_slice() == row.0
        && found.key.seqno == row.1
        && found.value.as_slice() == row.2
}

/// Whether a read of a key finds a row, or nothing.
pub(crate) fn finds<R: ReadAt + Drop>(
    table: &FileTable<R>,
    key: &[u8],
    seqno: SeqNo,
    expected: Option<&Row>,
) -> Result<bool, FileError> {
    let found = table.get(key, seqno, FileTable::<R>::key_hash(key))?;
    match (found, expected) {
        (Some(found), Some(row)) => Ok(is_row(&found, row)),
        (None, None) => Ok(true),
        _ => Ok(false),
    }
}
