//! Writers: counts, block cuts, tables and errors.

use crate::given::{Given, Refusals, Takes, number, put_rows, table};
use crate::one_entry_v4;
use lsm_writers::{
    BlockIndexWriter, FinishedTable, FullIndexWriter, GlobalTableId, Metadata, Timestamp, Writer,
};
use sst_blocks::{
    BlockHandle, BlockOffset, Checksum, CompressionType, Error, KeyedBlockHandle, SectionName,
    SectionWriter, SeqNo, Slice, Toc, ValueType,
};
use std::alloc::Global;
use test_support::samples::large::{asked, asked_with};
use test_support::samples::rows::{Row, fill, new_writer};

// The table of a@1, with the value `x`.
fn one_entry(alloc: Global) -> Result<FinishedTable, Error> {
    fill(
        new_writer(alloc)?,
        alloc,
        &[(b"a", 1, ValueType::Value, b"x")],
    )
}

// A table of one entry with the options of a new writer.
fn one_entry_by_default(alloc: Global) -> Result<FinishedTable, Error> {
    fill(
        Writer::new(alloc, 1, 0, Timestamp::from(0))?,
        alloc,
        &[(b"a", 1, ValueType::Value, b"x")],
    )
}

// Whether a table equals the stored one: its id and checksum, and its bytes. Its `Debug` form shows
// the number of bytes and not the bytes.
fn is_the_stored(table: &FinishedTable, alloc: Global) -> Result<[bool; 3], Error> {
    let printed = format!(in alloc; "{table:?}")?;
    Ok([
        table.id == 1 && table.checksum == Checksum(one_entry_v4::CHECKSUM),
        table.bytes.as_slice() == one_entry_v4::BYTES.as_slice(),
        printed.as_str()
            == "FinishedTable { id: 1, checksum: Checksum(1866175774685508454), len: 1320 }",
    ])
}

#[test]
fn writes_a_table_byte_for_byte_and_prints_it_without_its_bytes(rt: HostRuntime) {
    let alloc = rt.alloc();
    assert!(rt; asked_with(one_entry(alloc), alloc, is_the_stored) == Ok([true; 3]));
}

// The offset and the length of a section.
type Place = (u64, u64);

const ABSENT: Place = (u64::MAX, u64::MAX);

// The sections, in the order of the file.
const NAMES: [SectionName; 7] = [
    SectionName::Data,
    SectionName::Index,
    SectionName::Tli,
    SectionName::Filter,
    SectionName::FilterTli,
    SectionName::TableVersion,
    SectionName::Meta,
];

// The offsets of a table's sections, and the length of the table.
fn layout(table: &FinishedTable) -> Result<([Place; 7], usize), Error> {
    let toc = Toc::of(table.bytes.as_slice())?;
    let mut places = [ABSENT; 7];
    for (place, &name) in places.iter_mut().zip(NAMES.iter()) {
        if let Some(section) = toc.section(name) {
            *place = (section.position, section.len);
        }
    }
    Ok((places, table.bytes.len()))
}

// The sections without a filter, and with the default filter.
const PLAIN: [Place; 7] = [
    (0, 47),
    ABSENT,
    (47, 53),
    ABSENT,
    ABSENT,
    (100, 1),
    (101, 1_099),
];

const FILTERED: [Place; 7] = [
    (0, 47),
    ABSENT,
    (47, 53),
    (100, 33),
    ABSENT,
    (133, 1),
    (134, 1_099),
];

#[test]
fn writes_the_sections_without_gaps(rt: HostRuntime) {
    assert!(rt; asked(one_entry(rt.alloc()), layout) == Ok((PLAIN, 1_320)));
    assert!(rt; asked(one_entry_by_default(rt.alloc()), layout) == Ok((FILTERED, 1_353)));
}

// The counts of a writer, in four parts.
//
// 1. Entries and blocks cut; keys, tombstones, weak tombstones and reclaimable values written; and
//    the bytes of pending keys and values.
//
// 2. The lowest and the highest sequence number, the length of the blocks and of their payloads.
//
// 3. The first byte of the first and of the last key.
//
// 4. Whether no entry was written.
type Counts = ([usize; 7], [u64; 4], [u8; 2], bool);

// The first byte of a key, `u8::MAX` where the key is empty.
fn byte_of(key: &[u8]) -> u8 {
    key.first().copied().unwrap_or(u8::MAX)
}

// The first byte of the first and of the last key, 0 where there is none.
fn end_keys(meta: &Metadata) -> [u8; 2] {
    let mut bytes = [0; 2];
    if let Some(key) = &meta.first_key {
        bytes[0] = byte_of(key.as_slice());
    }
    if let Some(key) = &meta.last_key {
        bytes[1] = byte_of(key.as_slice());
    }
    bytes
}

fn counts(writer: &Writer) -> Counts {
    let meta = writer.metadata();
    (
        [
            meta.item_count,
            meta.data_block_count,
            meta.key_count,
            meta.tombstone_count,
            meta.weak_tombstone_count,
            meta.weak_tombstone_reclaimable_count,
            writer.chunk_size(),
        ],
        [
            meta.lowest_seqno,
            meta.highest_seqno,
            meta.file_pos.0,
            meta.uncompressed_size,
        ],
        end_keys(meta),
        writer.is_empty(),
    )
}

// The error codes of some rows, of one after the first that fails, of a cut and of `finish`. Then
// the counts before and after the cut.
type Counted = (Refusals, Counts, Counts);

fn cut_after(writer: &mut Writer, rows: &[Row<'static>]) -> Counted {
    let [first, again, other] = put_rows(writer, rows, Given::ByValue);
    let before = counts(writer);
    let cut = writer.call();
    ([first, again, other, cut, 0], before, counts(writer))
}

// The codes and counts of a new writer with a data block size.
fn counted(alloc: Global, size: u32, rows: &[Row<'static>]) -> Result<Counted, Error> {
    let mut writer = table(alloc, false, size, 0)?;
    let (mut refusals, before, after) = cut_after(&mut writer, rows);
    refusals[4] = number(writer.finish());
    Ok((refusals, before, after))
}

const A0: Row<'static> = (b"a", 0, ValueType::Value, b"a");

const B0: Row<'static> = (b"b", 0, ValueType::Value, b"b");

const C0: Row<'static> = (b"c", 0, ValueType::Value, b"c");

const C4: Row<'static> = (b"c", 4, ValueType::Value, b"c");

const E3: Row<'static> = (b"e", 3, ValueType::Tombstone, b"");

// A weak tombstone directly before a value of its key.
const D9: Row<'static> = (b"d", 9, ValueType::WeakTombstone, b"");

const D8: Row<'static> = (b"d", 8, ValueType::Value, b"v");

const A9: Row<'static> = (b"a", 9, ValueType::Value, b"");

const A7: Row<'static> = (b"a", 7, ValueType::Value, b"");

const A5: Row<'static> = (b"a", 5, ValueType::Value, b"");

const D7: Row<'static> = (b"d", 7, ValueType::Value, b"v");

// Not reclaimable, though it directly follows a weak tombstone of its key.
const D8_ELSEWHERE: Row<'static> = (b"d", 8, ValueType::Indirection, b"v");

const E5: Row<'static> = (b"e", 5, ValueType::WeakTombstone, b"");

// A value after a weak tombstone of another key.
const F1: Row<'static> = (b"f", 1, ValueType::Value, b"");

// The counts before any entry.
const NOTHING: Counts = ([0; 7], [SeqNo::MAX, 0, 0, 0], [0, 0], true);

// The data block size, the rows, the errors, and the counts after the rows: before the pending
// block is cut, and after. A block has a header of 24 bytes and a payload. The payload is a count
// of 4 bytes and, for each entry, 17 bytes, the key and the value.
static COUNTS: [(u32, &[Row<'static>], Refusals, Counts, Counts); 9] = [
    (4_096, &[], [0; 5], NOTHING, NOTHING),
    // the first write sets the first key, and a cut the last key
    (
        4_096,
        &[A0],
        [0; 5],
        ([0, 0, 1, 0, 0, 0, 2], [0, 0, 0, 0], [b'a', 0], false),
        (
            [1, 1, 1, 0, 0, 0, 0],
            [0, 0, 28 + 19, 4 + 19],
            [b'a', b'a'],
            false,
        ),
    ),
    (
        4_096,
        &[A0, B0],
        [0; 5],
        ([0, 0, 2, 0, 0, 0, 4], [0, 0, 0, 0], [b'a', 0], false),
        (
            [2, 1, 2, 0, 0, 0, 0],
            [0, 0, 28 + 2 * 19, 4 + 2 * 19],
            [b'a', b'b'],
            false,
        ),
    ),
    (
        4_096,
        &[A0, B0, C0],
        [0; 5],
        ([0, 0, 3, 0, 0, 0, 6], [0, 0, 0, 0], [b'a', 0], false),
        (
            [3, 1, 3, 0, 0, 0, 0],
            [0, 0, 28 + 3 * 19, 4 + 3 * 19],
            [b'a', b'c'],
            false,
        ),
    ),
    // at size 4 the second entry cuts a block, and the third is pending
    (
        4,
        &[A0, B0, C0],
        [0; 5],
        (
            [2, 1, 3, 0, 0, 0, 2],
            [0, 0, 28 + 2 * 19, 4 + 2 * 19],
            [b'a', b'b'],
            false,
        ),
        (
            [3, 2, 3, 0, 0, 0, 0],
            [0, 0, 2 * 28 + 3 * 19, 2 * 4 + 3 * 19],
            [b'a', b'c'],
            false,
        ),
    ),
    (
        4_096,
        &[C0, D9, D8, E3],
        [0; 5],
        ([0, 0, 3, 2, 1, 1, 6], [0, 9, 0, 0], [b'c', 0], false),
        (
            [4, 1, 3, 2, 1, 1, 0],
            [0, 9, 28 + 2 * 19 + 2 * 18, 4 + 2 * 19 + 2 * 18],
            [b'c', b'e'],
            false,
        ),
    ),
    (
        4_096,
        &[C4, D9, E3],
        [0; 5],
        ([0, 0, 3, 2, 1, 0, 4], [3, 9, 0, 0], [b'c', 0], false),
        (
            [3, 1, 3, 2, 1, 0, 0],
            [3, 9, 28 + 19 + 2 * 18, 4 + 19 + 2 * 18],
            [b'c', b'e'],
            false,
        ),
    ),
    // only a value directly after a weak tombstone of its key is reclaimable
    (
        4_096,
        &[D9, D8_ELSEWHERE, D7, E5, F1],
        [0; 5],
        ([0, 0, 3, 2, 2, 0, 7], [1, 9, 0, 0], [b'd', 0], false),
        (
            [5, 1, 3, 2, 2, 0, 0],
            [1, 9, 28 + 2 * 19 + 3 * 18, 4 + 2 * 19 + 3 * 18],
            [b'd', b'f'],
            false,
        ),
    ),
    // at size 0 a block is cut for each entry
    (
        0,
        &[A9, A7, A5],
        [0; 5],
        (
            [3, 3, 1, 0, 0, 0, 0],
            [5, 9, 3 * (28 + 18), 3 * (4 + 18)],
            [b'a', b'a'],
            false,
        ),
        (
            [3, 3, 1, 0, 0, 0, 0],
            [5, 9, 3 * (28 + 18), 3 * (4 + 18)],
            [b'a', b'a'],
            false,
        ),
    ),
];

#[test]
fn counts_and_cuts_what_is_written_and_what_tombstones_hide(rt: HostRuntime) {
    for &(size, rows, refusals, before, after) in &COUNTS {
        assert!(rt; counted(rt.alloc(), size, rows) == Ok((refusals, before, after)));
    }
}

// The parts of an id, whether ids are in order, the parts of a timestamp, and whether timestamps
// are in order.
fn parts_of_ids_and_moments() -> ((u64, u64), [bool; 2], [u128; 2], bool) {
    let id = GlobalTableId::from((42, 7));
    let moment = Timestamp::from(1 << 100);
    (
        (id.tree_id(), id.table_id()),
        [
            GlobalTableId::from((1, 9)) < GlobalTableId::from((2, 0)),
            GlobalTableId::from((1, 0)) < GlobalTableId::from((1, 9)),
        ],
        [*moment, u128::from(moment)],
        Timestamp::from(3) < moment,
    )
}

// The number of blocks and of bytes of an index of a@1.
#[tactic(auto, using(crate::proofs::HandleLemmas::one_handle_strict))]
fn index_of_one(alloc: Global) -> Result<(usize, u64), Error> {
    let mut sections = SectionWriter::new(alloc)?;
    let mut index = FullIndexWriter::new(alloc)
        .use_compression(CompressionType::None)
        .use_partition_size(1);
    let place = BlockHandle::new(BlockOffset(0), 47);
    index.register_data_block(&KeyedBlockHandle::new(Slice::from_static(b"a"), 1, place))?;
    let blocks = index.finish(&mut sections)?;
    Ok((blocks, sections.position()))
}

#[test]
fn ids_and_moments_give_their_parts_back_and_a_full_index_is_one_block(rt: HostRuntime) {
    let parts = ((42, 7), [true; 2], [1 << 100; 2], true);
    assert!(rt; parts_of_ids_and_moments() == parts);
    assert!(rt; index_of_one(rt.alloc()) == Ok((1, 53)));
    assert!(rt; Metadata::<Global>::default().lowest_seqno == SeqNo::MAX);
}
