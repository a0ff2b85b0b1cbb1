//! Tests of the longest key and the empty one under each kind of index and of filter. Then 100,000
//! versions of one key, and a key that is too long for a writer.
ghost use Rattle.std.specs.Prelude.{◌≡◌, []};

use crate::tables::{ALL_PINS, Parted, open_with, written, written_by};
use lsm_tables::table::Table;
use lsm_writers::Writer;
use sst_blocks::{
    Block, BlockHandle, BlockSource, BlockType, CompressionType, DataBlock, Error, Opened,
    SectionName, SectionWriter, SeqNo, Slice, ValueType,
};
use std::alloc::Global;
use test_support::samples::large::{asked, asked_with};
use test_support::samples::rows::{self, Row, new_writer, put_rows};
use test_support::samples::tables::{load_entries, read};

// A key, a snapshot, the sequence number that is found, if any, and the number of data blocks
// loaded.
type Read<'a> = (&'a [u8], SeqNo, Option<SeqNo>, u64);

fn answers(table: &Table, reads: &[Read<'_>]) -> Result<bool, Error> {
    for &(key, seqno, found, loads) in reads {
        if read(table, key, seqno) != (Ok(found), loads) {
            return Ok(false);
        }
    }
    Ok(true)
}

// Whether reads of the table of some bytes have their results under each pair of pins.
fn all_answered(bytes: &Slice, by: (Global, &[Read<'_>])) -> Result<bool, Error> {
    for pins in ALL_PINS {
        let table = open_with(by.0, bytes.clone()?, pins, 0);
        if !asked_with(table, by.1, answers)? {
            return Ok(false);
        }
    }
    Ok(true)
}

// ---- the longest key and the empty one

// The length in bytes of the longest key of a writer.
const LONGEST: usize = 1_048_576;

// One index block without a filter, and one with a full filter. Then a partition of the index for
// each entry, with a partition of the filter for each key.
const EACH: [(Parted, u32); 3] = [
    (Parted::Nothing, 0),
    (Parted::Nothing, 100),
    (Parted::Both, 100),
];

// Whether reads of the tables of some rows have their results, with each kind of index and of
// filter.
fn each_answers(alloc: Global, rows: &[Row<'_>], reads: &[Read<'_>]) -> bool {
    for (parted, bits) in EACH {
        let bytes = written(alloc, parted, rows, bits, 0);
        if asked_with(bytes, (alloc, reads), all_answered) != Ok(true) {
            return false;
        }
    }
    true
}

// Whether two versions of the longest key and `b` after it are read.
fn longest_is_read(alloc: Global) -> bool {
    let Ok(longest) = vec![in alloc; 0x61u8; LONGEST] else {
        return false;
    };
    let key = longest.as_slice();
    let rows: [Row<'_>; 3] = [
        (key, 5, ValueType::Value, b"x"),
        (key, 3, ValueType::Value, b"y"),
        (b"b", 1, ValueType::Value, b"z"),
    ];
    let reads: [Read<'_>; 5] = [
        (key, 6, Some(5), 1),
        (key, 5, Some(3), 1),
        (key, 3, None, 1),
        (b"b", 2, Some(1), 1),
        (b"c", 2, None, 0),
    ];
    each_answers(alloc, &rows, &reads)
}

const EMPTY: &[Row<'static>] = &[(b"", 7, ValueType::Value, b"")];

const OF_EMPTY: &[Read<'static>] = &[
    (b"", 8, Some(7), 1),
    (b"", SeqNo::MAX, Some(7), 1),
    (b"", 7, None, 0),
];

// The tests in Python have ranges of such keys, and a writer after a longer key.
#[test]
fn the_longest_key_and_the_empty_one_under_each_index_and_filter(rt: HostRuntime) {
    assert!(rt; longest_is_read(rt.alloc()));
    assert!(rt; each_answers(rt.alloc(), EMPTY, OF_EMPTY));
}

// ---- very many versions

const VERSIONS: u64 = 100_000;

// Writes a@100,000 down to a@1.
fn put_versions(alloc: Global, writer: &mut Writer) -> Result<(), Error> {
    for i in 0..VERSIONS {
        let rows: [Row<'_>; 1] = [(b"a", VERSIONS - i, ValueType::Value, b"0123456789abcde")];
        if !put_rows(alloc, writer, &rows)? {
            return Err(Error::Source(0));
        }
    }
    Ok(())
}

// The bytes of the table of these versions.
fn finished(alloc: Global, mut writer: Writer) -> Result<Slice, Error> {
    let answer = put_versions(alloc, &mut writer);
    written_by(rows::written(writer, answer)?, alloc, &[])
}

const VERSION_READS: &[Read<'static>] = &[
    (b"a", 0, None, 0),
    (b"a", 1, None, 0),
    (b"a", 2, Some(1), 1),
    (b"a", 257, Some(256), 1),
    (b"a", 258, Some(257), 1),
    (b"a", 50_000, Some(49_999), 1),
    (b"a", VERSIONS, Some(VERSIONS - 1), 1),
    (b"a", VERSIONS + 1, Some(VERSIONS), 1),
    (b"a", SeqNo::MAX, Some(VERSIONS), 1),
];

// A writer of an index in partitions of 500 bytes.
fn in_parts(alloc: Global) -> Result<Writer, Error> {
    let writer = new_writer(alloc)?.use_partitioned_index();
    Ok(writer.use_meta_partition_size(500))
}

// Whether reads of these versions have their results.
fn are_read(alloc: Global, writer: Result<Writer, Error>) -> Result<bool, Error> {
    asked_with(
        finished(alloc, writer?),
        (alloc, VERSION_READS),
        all_answered,
    )
}

#[test]
fn a_read_loads_one_block_of_many_versions(rt: HostRuntime) {
    assert!(rt; are_read(rt.alloc(), new_writer(rt.alloc())) == Ok(true));
    assert!(rt; are_read(rt.alloc(), in_parts(rt.alloc())) == Ok(true));
}

// ---- a block that no writer makes

// The start of a block of a@3, whose key is one byte longer than the longest, without a value. It
// has one entry: a value, its sequence number, the key's length, no bytes of a value. The key
// follows.
const FRONT: [u8; 21] = [
    1, 0, 0, 0, 0, 3, 0, 0, 0, 0, 0, 0, 0, 1, 0, 16, 0, 0, 0, 0, 0,
];

// Writes a data section of that block, and returns its handle.
fn put_block(alloc: Global, writer: &mut SectionWriter) -> Result<BlockHandle, Error>
    requires { writer.old.started ≡ [] }
{
    let mut payload = Vec::from_slice(alloc, &FRONT)?;
    payload.resize(FRONT.len() + LONGEST + 1, 0x61)?;
    writer.start(SectionName::Data)?;
    Block::write_into(writer, &payload, BlockType::Data, CompressionType::None)
}

// A table of such a block alone, and the block's handle.
fn table(alloc: Global) -> Result<(Slice, BlockHandle), Error> {
    let mut writer = SectionWriter::new(alloc)?;
    let handle = put_block(alloc, &mut writer);
    let (bytes, _) = writer.finish()?;
    Ok((bytes, handle?))
}

// The length of the first entry's key in a block, and its sequence number.
fn first(block: &DataBlock<Global>) -> Result<Option<(usize, SeqNo)>, Error> {
    if block.is_empty() {
        return Ok(None);
    }
    let entry = block.entry(0)?;
    Ok(Some((entry.key.user_key.len(), entry.key.seqno)))
}

// The length of the first entry's key in the block at a handle, and its sequence number.
fn first_in(source: &BlockSource, handle: &BlockHandle) -> Result<Option<(usize, SeqNo)>, Error> {
    let block = load_entries(source, handle, BlockType::Data, &mut Opened::none());
    asked(block, first)
}

fn loaded(alloc: Global) -> Result<Option<(usize, SeqNo)>, Error> {
    let (bytes, handle) = table(alloc)?;
    asked_with(BlockSource::new(alloc, bytes), &handle, first_in)
}

#[test]
fn a_key_longer_than_a_writer_takes_is_read(rt: HostRuntime) {
    assert!(rt; loaded(rt.alloc()) == Ok(Some((LONGEST + 1, 3))));
}
