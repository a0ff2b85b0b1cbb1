//! Loads of the blocks of a stored table, and errors of changed tables.
use crate::sections::stored_table;
use crate::sections::tables::{changed, changed_bytes, handle};
use sst_blocks::BlockType::{Data, Index, Meta};
use sst_blocks::{
    Block, BlockSource, BlockType, Counted, Error, LoadBlocks, Opened, TagName, written_blocks_load,
};
use std::alloc::{AllocError, Allocator, Global};
use test_support::Refusing;

/// The result of a load: the kind and the size of the block's payload.
pub(crate) type Answer = Result<(BlockType, usize), Error>;

fn returned<A: Allocator>(loaded: Result<Block<A>, Error>) -> Answer {
    let block = loaded?;
    let returned = (block.kind(), block.size());
    drop(block);
    Ok(returned)
}

/// Loads the block at an offset, of this size, or of the size in its header.
pub(crate) fn loaded(
    source: &BlockSource,
    offset: u64,
    size: Option<u32>,
    kind: BlockType,
    opened: &mut Opened,
) -> Answer {
    returned(match size {
        Some(size) => source.load(&handle(offset, size), kind, opened),
        None => source.load_at(offset, kind, opened),
    })
}

// Changes of the stored table; the offset, the size if any, and the kind that are passed to the
// load; and its result.
type Load = (&'static [(usize, u8)], u64, Option<u32>, BlockType, Answer);

// Loads, and how many blocks were opened up to and including them.
const LOADS: &[(&[Load], Opened)] = &[
    (
        &[
            (&[], 0, Some(45), Data, Ok((Data, 21))),
            (&[], 0, Some(23), Data, Err(Error::Truncated)),
            (&[], 0, Some(44), Data, Err(Error::InvalidHeader)),
            (
                &[],
                0,
                Some(45),
                Index,
                Err(Error::InvalidTag(TagName::BlockType, 0)),
            ),
            (&[], 96, None, Data, Err(Error::InvalidHeader)),
            (&[], 1120, None, Data, Err(Error::Truncated)),
        ],
        Opened {
            data_loads: 5,
            index_loads: 1,
            filter_loads: 0,
            meta_loads: 0,
        },
    ),
    (
        &[
            (&[], 0, None, Data, Ok((Data, 21))),
            // The first fault of a changed block.
            (&[(0, 0)], 0, Some(45), Data, Err(Error::InvalidHeader)),
            (
                &[(7, 1), (4, 9)],
                0,
                Some(45),
                Data,
                Err(Error::InvalidHeader),
            ),
            (
                &[(4, 9), (5, 1)],
                0,
                Some(45),
                Data,
                Err(Error::InvalidTag(TagName::BlockType, 9)),
            ),
            (
                &[(5, 1), (8, 0)],
                0,
                Some(45),
                Data,
                Err(Error::UnsupportedCompression),
            ),
            (
                &[(8, 20), (16, 0)],
                0,
                Some(45),
                Data,
                Err(Error::InvalidHeader),
            ),
            (
                &[(8, 20), (12, 20)],
                0,
                Some(45),
                Data,
                Err(Error::InvalidHeader),
            ),
            (&[(16, 0)], 0, Some(45), Data, Err(Error::ChecksumMismatch)),
            (&[(44, 0)], 0, Some(45), Data, Err(Error::ChecksumMismatch)),
            // The new magic number before a payload of the old version, whose checksum is right.
            (&[(3, 0x32)], 0, Some(45), Data, Err(Error::InvalidBlock)),
            // The trailer: its slots begin at 1138, its magic number at 1250. Another magic
            // number, a length of 2^32, one byte past the end of the body, and up to that end.
            (&[(1257, 0)], 0, Some(45), Data, Err(Error::InvalidTrailer)),
            (
                &[(1178, 0), (1182, 1)],
                0,
                Some(45),
                Data,
                Err(Error::InvalidTrailer),
            ),
            (
                &[(1242, 0x12)],
                0,
                Some(45),
                Data,
                Err(Error::InvalidTrailer),
            ),
            (
                &[(1146, 0x72), (1147, 0x04)],
                0,
                Some(45),
                Data,
                Ok((Data, 21)),
            ),
            // the first offset 2^64 - 1, whose sum with the length wraps to 44
            (
                &[
                    (1138, 0xff),
                    (1139, 0xff),
                    (1140, 0xff),
                    (1141, 0xff),
                    (1142, 0xff),
                    (1143, 0xff),
                    (1144, 0xff),
                    (1145, 0xff),
                ],
                0,
                Some(45),
                Data,
                Err(Error::InvalidTrailer),
            ),
            // the first length 2^64 - 1 too: no data section
            (
                &[
                    (1138, 0xff),
                    (1139, 0xff),
                    (1140, 0xff),
                    (1141, 0xff),
                    (1142, 0xff),
                    (1143, 0xff),
                    (1144, 0xff),
                    (1145, 0xff),
                    (1146, 0xff),
                    (1147, 0xff),
                    (1148, 0xff),
                    (1149, 0xff),
                    (1150, 0xff),
                    (1151, 0xff),
                    (1152, 0xff),
                    (1153, 0xff),
                ],
                0,
                Some(45),
                Data,
                Ok((Data, 21)),
            ),
        ],
        Opened {
            data_loads: 17,
            index_loads: 1,
            filter_loads: 0,
            meta_loads: 0,
        },
    ),
];

// Whether a load from the stored table returns the result of its case.
fn is_loaded_so(alloc: Global, case: &Load, opened: &mut Opened) -> bool {
    let (changes, offset, size, kind, expected) = case;
    match changed(alloc, stored_table::bytes(), changes) {
        Ok(source) => {
            let answer = loaded(&source, *offset, *size, *kind, opened);
            drop(source);
            answer == *expected
        }
        Err(error) => *expected == Err(error),
    }
}

// Each load is counted under the kind that is passed to it, also where it fails.
#[test]
fn loads_from_a_stored_table(rt: HostRuntime) {
    written_blocks_load();
    let mut opened = Opened::none();
    for (cases, counts) in LOADS {
        for case in *cases {
            assert!(rt; is_loaded_so(rt.alloc(), case, &mut opened));
        }
        assert!(rt; opened == *counts);
    }
}

#[test]
fn bytes_that_end_early_have_no_trailer(rt: HostRuntime) {
    let bytes = stored_table::bytes();
    for len in 0..bytes.len() {
        let made = changed(rt.alloc(), &bytes[..len], &[]);
        assert!(rt; made.err() == Some(Error::InvalidTrailer), "{len} bytes");
    }
}

// The loads of each block: with its kind and size, with another kind, and with a smaller size.
const BLOCKS: &[&[Load]] = &[
    &[
        (&[], 0, Some(45), Data, Ok((Data, 21))),
        (
            &[],
            0,
            Some(45),
            Meta,
            Err(Error::InvalidTag(TagName::BlockType, 0)),
        ),
        (&[], 0, Some(44), Data, Err(Error::InvalidHeader)),
    ],
    &[
        (&[], 45, Some(51), Index, Ok((Index, 27))),
        (
            &[],
            45,
            Some(51),
            Data,
            Err(Error::InvalidTag(TagName::BlockType, 1)),
        ),
        (&[], 45, Some(50), Index, Err(Error::InvalidHeader)),
    ],
    &[
        (&[], 97, Some(1041), Meta, Ok((Meta, 1017))),
        (
            &[],
            97,
            Some(1041),
            Data,
            Err(Error::InvalidTag(TagName::BlockType, 3)),
        ),
        (&[], 97, Some(1040), Meta, Err(Error::InvalidHeader)),
    ],
];

// Whether the cases without changes have the same results three times.
fn answers_again(source: &BlockSource, cases: &[Load], opened: &mut Opened) -> bool {
    for _ in 0..3u8 {
        for (changes, offset, size, kind, expected) in cases {
            if changes.is_empty() && loaded(source, *offset, *size, *kind, opened) != *expected {
                return false;
            }
        }
    }
    true
}

// Whether each block loads again, from a source and then from its clone.
fn both_load_again(source: &BlockSource, clone: &BlockSource, opened: &mut Opened) -> bool {
    let mut are_so = true;
    for (cases, _) in LOADS {
        are_so &= answers_again(source, cases, opened);
    }
    for cases in BLOCKS {
        are_so &= answers_again(source, cases, opened);
        are_so &= answers_again(clone, cases, opened);
    }
    are_so
}

fn loads_again(source: &BlockSource, opened: &mut Opened) -> bool {
    let clone: Result<BlockSource, AllocError> = source.clone();
    match clone {
        Ok(clone) => {
            let is_so = both_load_again(source, &clone, opened);
            drop(clone);
            is_so
        }
        Err(_) => false,
    }
}

// Whether the blocks of the stored table load again, also from a clone of its source.
fn stored_blocks_load_again(alloc: Global, opened: &mut Opened) -> bool {
    match changed(alloc, stored_table::bytes(), &[]) {
        Ok(source) => {
            let are_so = loads_again(&source, opened);
            drop(source);
            are_so
        }
        Err(_) => false,
    }
}

// A verified block loads as before, and each load is counted.
#[test]
fn a_block_loads_again(rt: HostRuntime) {
    let mut opened = Opened::none();
    assert!(rt; stored_blocks_load_again(rt.alloc(), &mut opened));
    let expected = Opened {
        data_loads: 42,
        index_loads: 15,
        filter_loads: 0,
        meta_loads: 18,
    };
    assert!(rt; opened == expected);
}

// The results of a load of the data block and then of the index block, and the counts.
type Counts = (Answer, Answer, Opened);

fn both_loaded<L: LoadBlocks>(blocks: &mut L) -> (Answer, Answer) {
    let first = returned(blocks.load(&handle(0, 45), Data));
    (first, returned(blocks.load(&handle(45, 51), Index)))
}

fn counted<A: Allocator + Copy>(source: &BlockSource<A>) -> Counts {
    let mut counted = Counted::new(source);
    let (first, second) = both_loaded(&mut counted);
    (first, second, counted.opened())
}

const ONE_OF_EACH: Opened = Opened {
    data_loads: 1,
    index_loads: 1,
    filter_loads: 0,
    meta_loads: 0,
};

// Changes of the stored table, and the loads that follow.
type Case = (&'static [(usize, u8)], Counts);

// The table unchanged, with a damaged data block, and with a damaged index block.
const COUNTED: &[Case] = &[
    (&[], (Ok((Data, 21)), Ok((Index, 27)), ONE_OF_EACH)),
    (
        &[(44, 0)],
        (Err(Error::ChecksumMismatch), Ok((Index, 27)), ONE_OF_EACH),
    ),
    (
        &[(95, 0)],
        (Ok((Data, 21)), Err(Error::ChecksumMismatch), ONE_OF_EACH),
    ),
];

// How many requests for memory the bytes make, how many these and the source make, and the loads.
fn counted_of(heap: &Refusing, case: &Case) -> Result<(usize, usize, Counts), Error> {
    let bytes = changed_bytes(heap, stored_table::bytes(), case.0)?;
    let first = heap.requests();
    let source = BlockSource::new(heap, bytes)?;
    let last = heap.requests();
    let counts = counted(&source);
    drop(source);
    Ok((first, last, counts))
}

// Whether a load has the expected result; or `OutOfMemory`, where it may fail.
fn is_answer(answer: &Answer, expected: &Answer, may_fail: bool) -> bool {
    answer == expected || may_fail && *answer == Err(Error::OutOfMemory)
}

// Whether all loads return and count what they should while this request fails; or `OutOfMemory`,
// where it may fail.
fn is_counted_but(alloc: Global, case: &Case, nth: usize, may_fail: bool) -> bool {
    let heap = Refusing::new(alloc, nth);
    let (first, second, opened) = &case.1;
    let is_so = match counted_of(&heap, case) {
        Ok((_, _, counts)) => {
            is_answer(&counts.0, first, may_fail)
                && is_answer(&counts.1, second, may_fail)
                && counts.2 == *opened
        }
        Err(error) => may_fail && error == Error::OutOfMemory,
    };
    is_so && heap.requests() >= nth
}

// Whether all loads return and count what they should while each request fails in turn. A source
// without a verified-block cache loads too, and compares each checksum.
fn is_counted(alloc: Global, case: &Case) -> Result<bool, Error> {
    let heap = Refusing::new(alloc, 0);
    let (first, last, counts) = counted_of(&heap, case)?;
    let mut is_so = counts == case.1 && first < last && heap.requests() > 3;
    for nth in 1..=heap.requests() {
        is_so &= is_counted_but(alloc, case, nth, nth <= first || nth > last);
    }
    Ok(is_so)
}

#[test]
fn a_source_that_counts_its_loads_with_each_request_refused(rt: HostRuntime) {
    for case in COUNTED {
        assert!(rt; is_counted(rt.alloc(), case) == Ok(true));
    }
}

// The errors by error code: each is at its code minus one.
const ERRORS: &[Error] = &[
    Error::OutOfMemory,
    Error::Truncated,
    Error::InvalidHeader,
    Error::InvalidTag(TagName::BlockType, 7),
    Error::ChecksumMismatch,
    Error::InvalidBlock,
    Error::KeyTooLong,
    Error::ValueTooLong,
    Error::BlockTooLarge,
    Error::SectionTooLarge,
    Error::InvalidTrailer,
    Error::MissingSection,
    Error::MetaKeyMissing,
    Error::InvalidMetaValue,
    Error::UnsupportedTableVersion,
    Error::UnsupportedHashType,
    Error::UnsupportedChecksumType,
    Error::UnsupportedIndexInterval,
    Error::UnsupportedCompression,
    Error::GlobalSeqNoTooLarge,
    Error::SeqNoOverflow,
    Error::TableIdsSpent,
    Error::WriterFailed,
    Error::Source(5),
];

#[test]
fn each_refusal_has_its_number(rt: HostRuntime) {
    for (i, error) in ERRORS.iter().enumerate() {
        assert!(rt; usize::from(error.number()) == i + 1);
    }
}
