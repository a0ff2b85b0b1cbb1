//! Point reads over a source that lists its loads, with allocation failures, with borrowed entries,
//! and with handles of entries.
use crate::tables::{
    Changed, LOADED, ON_DEMAND, Of, Parted, Sought, TWO_LEVELS, counted_read, lends_same,
    number_of, open_with, opened, written,
};
use lsm_tables::table::{Table, point_in};
use sst_blocks::{
    Block, BlockHandle, BlockSource, BlockType, Counted, EntryPlace, Error, InternalValue,
    LoadBlocks, SeqNo, ValueType,
};
use std::alloc::{Allocator, Global};
use test_support::samples::large::asked_with;
use test_support::samples::rows::Row;

// The offset of a block, and its size.
type Place = (u64, u32);

// Lists the last two of the blocks that it loads.
#[derive(Drop)]
struct Listing<'a, A: Allocator> {
    source: Counted<'a, A>,
    places: [Option<Place>; 2],
}

impl<A: Allocator + Copy> LoadBlocks for Listing<'_, A> {
    ghost use Rattle.sst_blocks.specs.Access.{in_memory};
    ghost use Rattle.sst_blocks.specs.Sections.{body_of};

    type Alloc = A;

    ghost access = { in_memory };

    ghost body = { λ l. body_of l.source.0 };

    ghost opened = { λ l. l.source.1 };

    fn load(&mut self, handle: &BlockHandle, kind: BlockType) -> Result<Block<A>, Error> {
        let block = self.source.load(handle, kind)?;
        self.places = [self.places[1], Some((handle.offset().0, handle.size()))];
        Ok(block)
    }
}

// A key and a snapshot, the sequence number that is found, and the one block that is loaded, if
// any.
type Read = (Sought, Option<SeqNo>, Option<Place>);

// Each block has a header of 24 bytes, a count of 4, and 17 bytes and the key for its one entry.
const READS: &[Read] = &[
    ((b"a", 8), Some(7), Some((46, 46))),
    ((b"a", 5), None, Some((138, 46))),
    ((b"c", 100), None, None),
];

// Whether a read of a table finds its sequence number, and loads no block but the expected one.
fn is_right<A: Allocator + Copy>(
    table: &Table<A>,
    source: &BlockSource<A>,
    read: &Read,
) -> Result<bool, Error> {
    let (key, seqno) = read.0;
    let mut listing = Listing {
        source: Counted::new(source),
        places: [None; 2],
    };
    let hash = Table::<A>::key_hash(key);
    let found = number_of(point_in(&mut listing, table, key, seqno, hash));
    let places = listing.places;
    drop(listing);
    Ok(found? == read.1 && places == [None, read.2])
}

// Whether all reads of a table are right.
fn all_right<A: Allocator + Copy>(
    source: &BlockSource<A>,
    table: &Table<A>,
) -> Result<bool, Error> {
    for read in READS {
        if !is_right(table, source, read)? {
            return Ok(false);
        }
    }
    Ok(true)
}

// Whether all reads are right, over a source of their own.
fn reads_in<A: Allocator + Copy>(table: &Table<A>, alloc: A) -> Result<bool, Error> {
    let bytes = table.bytes()?;
    asked_with(BlockSource::new(alloc, bytes), table, all_right)
}

/// Whether the reads load at most one block.
pub(crate) fn are_right<A: Allocator + Copy>(alloc: A) -> Result<bool, Error> {
    let table = opened(alloc, &(Of::Rows(Parted::Nothing), &[], (true, true), 0));
    asked_with(table, alloc, reads_in)
}

// ---- out of memory

// A read, and the sequence number that is found, if any, or an error.
type Found = (Sought, Result<Option<SeqNo>, Error>);

// Whether a read has its result. A read that runs out of memory is made again.
fn is_found<A: Allocator + Copy>(table: &Table<A>, read: &Found) -> bool {
    let ((key, seqno), expected) = read;
    let mut found = counted_read(table, key, *seqno).0;
    if found == Err(Error::OutOfMemory) {
        found = counted_read(table, key, *seqno).0;
    }
    found == *expected
}

fn all_found<A: Allocator + Copy>(table: &Table<A>, reads: &[Found]) -> Result<bool, Error> {
    for read in reads {
        if !is_found(table, read) {
            return Ok(false);
        }
    }
    Ok(true)
}

// Three of the four data blocks are damaged. A read reports that even if there was no memory for
// the verified-block cache.
const DAMAGED: Changed<'static> = (
    Of::Levels,
    &[(43, b"?"), (131, b"?"), (175, b"?")],
    (true, true),
    0,
);

const MISMATCH: Result<Option<SeqNo>, Error> = Err(Error::ChecksumMismatch);

// Reads of a@9, a@7, a@5 and b@1.
const OF_FOUR: &[Found] = &[
    ((b"a", 10), Ok(Some(9))),
    ((b"a", 8), Ok(Some(7))),
    ((b"a", 5), Ok(None)),
    ((b"b", 2), Ok(Some(1))),
    ((b"c", 100), Ok(None)),
];

// With a partition of the filter for each key; neither filter nor index is pinned.
const FILTERED: Changed<'static> = (Of::Keys, &[], (false, false), 0);

// The table of a@3, with the global sequence number 10.
const LIFTED: Changed<'static> = (Of::Numbered(3), &[], (true, true), 10);

// Tables, and reads of them.
const TABLES: &[(Changed<'static>, &[Found])] = &[
    (TWO_LEVELS, OF_FOUR),
    (
        DAMAGED,
        &[
            ((b"a", 10), MISMATCH),
            ((b"a", 8), Ok(Some(7))),
            ((b"a", 6), MISMATCH),
            ((b"b", 2), MISMATCH),
        ],
    ),
    (LOADED, OF_FOUR),
    (ON_DEMAND, OF_FOUR),
    (FILTERED, OF_FOUR),
    (
        LIFTED,
        &[
            ((b"a", 14), Ok(Some(13))),
            ((b"a", 13), Ok(None)),
            ((b"b", 14), Ok(None)),
        ],
    ),
];

/// The index of the table whose index has two levels.
pub(crate) const OF_TWO_LEVELS: usize = 0;

/// The index of the table with damaged data blocks.
pub(crate) const OF_DAMAGED_BLOCKS: usize = 1;

/// Whether the reads of the table at an index have their results, each on its second try at the
/// latest.
pub(crate) fn table_is_read<A: Allocator + Copy>(alloc: A, at: usize) -> Result<bool, Error> {
    match TABLES.get(at) {
        Some((changed, reads)) => asked_with(opened(alloc, changed), *reads, all_found),
        None => Ok(false),
    }
}

// ---- borrowed, and by the entry's handle

// Whether the table has the entry of `get_counted` at the handle that `get_place` returns, or both
// calls return the same error.
fn is_placed(
    table: &Table,
    place: Result<Option<EntryPlace>, Error>,
    found: &Result<Option<InternalValue>, Error>,
) -> bool {
    match place {
        Ok(Some(place)) => match table.entry_at(&place) {
            Some(entry) => lends_same(found, &Ok(Some(entry))),
            None => false,
        },
        Ok(None) => lends_same(found, &Ok(None)),
        Err(error) => lends_same(found, &Err(error)),
    }
}

// Whether each kind of point read of a table has this result, and those that count their loads
// count the same.
fn is_found_each_way(table: &Table, read: &Found) -> bool {
    let ((key, seqno), expected) = read;
    let key_hash = Table::<Global>::key_hash(key);
    let (found, opened) = table.get_counted(key, *seqno, key_hash);
    let (lent, lent_opened) = table.get_ref_counted(key, *seqno, key_hash);
    let (place, place_opened) = table.get_place(key, *seqno, key_hash);
    lent_opened == opened
        && place_opened == opened
        && lends_same(&found, &lent)
        && lends_same(&found, &table.get_ref(key, *seqno, key_hash))
        && lends_same(&table.get(key, *seqno, key_hash), &lent)
        && is_placed(table, place, &found)
        && number_of(found) == *expected
}

fn all_found_each_way(table: &Table, reads: &[Found]) -> Result<bool, Error> {
    for read in reads {
        if !is_found_each_way(table, read) {
            return Ok(false);
        }
    }
    Ok(true)
}

// The length of a value that is longer than a small table.
const LONG: usize = 4_000;

// Whether a handle has its entry in its own table, and none in a table that ends before it.
fn is_past_the_end(short: &Table, of: (&Table, Option<EntryPlace>)) -> Result<bool, Error> {
    let (long, place) = of;
    let Some(place) = place else {
        return Ok(false);
    };
    let is_there = match long.entry_at(&place) {
        Some(entry) => entry.value.len() == LONG,
        None => false,
    };
    Ok(is_there && short.entry_at(&place).is_none())
}

fn is_in_its_table_alone(long: &Table, alloc: Global) -> Result<bool, Error> {
    let (place, _) = long.get_place(b"a", 2, Table::<Global>::key_hash(b"a"));
    let place = place?;
    asked_with(opened(alloc, &LOADED), (long, place), is_past_the_end)
}

// Whether the same holds for the handle of an entry with a long value.
fn long_is_in_its_table_alone(alloc: Global) -> Result<bool, Error> {
    let value = vec![in alloc; b'x'; LONG]?;
    let rows: [Row<'_>; 1] = [(b"a", 1, ValueType::Value, value.as_slice())];
    let bytes = written(alloc, Parted::Nothing, &rows, 0, 0)?;
    let long = open_with(alloc, bytes, (true, true), 0);
    asked_with(long, alloc, is_in_its_table_alone)
}

#[test]
fn a_point_read_borrows_what_it_returns(rt: HostRuntime) {
    for (changed, reads) in TABLES {
        let found = asked_with(opened(rt.alloc(), changed), *reads, all_found_each_way);
        assert!(rt; found == Ok(true));
    }
    assert!(rt; long_is_in_its_table_alone(rt.alloc()) == Ok(true));
}
