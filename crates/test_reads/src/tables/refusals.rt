//! Errors of opening a table: the stored table of one entry with some of its bytes changed.
use crate::tables::reads::{BOTH, Bytes, LARGEST, NO, damaged};
use crate::tables::{Changed, Changes, Of, bytes_of, open_with, opened};
use lsm_tables::table::Table;
use sst_blocks::{Error, Slice, TagName};
use std::alloc::{Allocator, Global};

pub(crate) const FF: [u8; 16] = [0xff; 16];

// The slots of the index and of the meta block in the trailer of the table of one entry.
const TLI_SLOT: [u8; 16] = [45, 0, 0, 0, 0, 0, 0, 0, 51, 0, 0, 0, 0, 0, 0, 0];

const META_SLOT: [u8; 16] = [97, 0, 0, 0, 0, 0, 0, 0, 0x11, 4, 0, 0, 0, 0, 0, 0];

// The slots of the trailer begin at 1,138 with that of the data. The slot of the index is 32 bytes
// after it, and that of the meta block 64 bytes after that of the index.
pub(crate) const DATA_AT: usize = 1138;

const TLI_AT: usize = 1170;

const META_AT: usize = 1234;

// Changes of the table of one entry, and the error.
static FAULTS: [(Changes<'static>, Error); 5] = [
    (
        &[(TLI_AT, &META_SLOT), (META_AT, &TLI_SLOT)],
        Error::InvalidTag(TagName::BlockType, 1),
    ),
    (&[(TLI_AT, &FF)], Error::MissingSection),
    (&[(META_AT, &FF)], Error::MissingSection),
    // of two faults the first is reported
    (&[(TLI_AT, &FF), (121, &[30])], Error::MissingSection),
    (&[(1250, b"l"), (META_AT, &FF)], Error::InvalidTrailer),
];

// Changed bytes of that table, and the error.
static BYTE_FAULTS: [(Bytes, Error); 11] = [
    // a length of 2^32
    (
        ((TLI_AT + 8, 0), (TLI_AT + 12, 1), NO),
        Error::InvalidTrailer,
    ),
    // a length of 23, and one that is too short by one byte
    (((META_AT + 8, 23), (META_AT + 9, 0), NO), Error::Truncated),
    (((TLI_AT + 8, 23), NO, NO), Error::Truncated),
    (((META_AT + 8, 0x10), NO, NO), Error::InvalidHeader),
    // an offset at the byte of the version
    (((META_AT, 96), NO, NO), Error::InvalidHeader),
    // the magic number, the kind, the compression and the payload of the meta block and of the
    // index
    (((97, b'l'), NO, NO), Error::InvalidHeader),
    (((101, 2), NO, NO), Error::InvalidTag(TagName::BlockType, 2)),
    (((102, 1), NO, NO), Error::UnsupportedCompression),
    (((121, 30), NO, NO), Error::ChecksumMismatch),
    (((50, 1), NO, NO), Error::UnsupportedCompression),
    // of two faults the first is reported: the meta block, then the index
    (((121, 30), (50, 1), NO), Error::ChecksumMismatch),
];

// Whether opening a table fails with this error.
fn has_fault(table: Result<Table, Error>, fault: &Error) -> bool {
    table.err().as_ref() == Some(fault)
}

// The index of the first changes with another result than their error.
fn wrong_fault(alloc: Global, faults: &[(Changes<'static>, Error)]) -> Option<usize> {
    for (place, (changes, fault)) in faults.iter().enumerate() {
        if !has_fault(opened(alloc, &(Of::One, *changes, BOTH, 0)), fault) {
            return Some(place);
        }
    }
    None
}

// The index of the first changed bytes with another result than their error.
fn wrong_byte_fault(alloc: Global, faults: &[(Bytes, Error)]) -> Option<usize> {
    for (place, (bytes, fault)) in faults.iter().enumerate() {
        if !has_fault(damaged(alloc, &(Of::One, *bytes, BOTH, 0)), fault) {
            return Some(place);
        }
    }
    None
}

#[test]
fn the_first_fault_of_sections_and_blocks(rt: HostRuntime) {
    assert!(rt; wrong_fault(rt.alloc(), &FAULTS) == None);
    assert!(rt; wrong_byte_fault(rt.alloc(), &BYTE_FAULTS) == None);
}

// Whether opening the first `len` bytes of a table fails for the trailer.
fn has_no_trailer(alloc: Global, bytes: &[u8], len: usize) -> bool {
    let prefix = bytes.get(..len).unwrap_or_default();
    match Slice::from(alloc, prefix) {
        Ok(prefix) => has_fault(open_with(alloc, prefix, BOTH, 0), &Error::InvalidTrailer),
        Err(_) => false,
    }
}

// The length of the first prefix of a table that opens, or fails for something else.
fn first_other(alloc: Global, of: Of) -> Option<usize> {
    let bytes = bytes_of(alloc, of).ok()?;
    for len in 0..=bytes.len() {
        if !has_no_trailer(alloc, bytes.as_slice(), len) {
            return Some(len);
        }
    }
    None
}

// From no bytes to all but the last one.
#[test]
fn a_prefix_of_a_table_has_no_trailer(rt: HostRuntime) {
    assert!(rt; first_other(rt.alloc(), Of::One) == Some(1258));
    assert!(rt; first_other(rt.alloc(), Of::Numbered(1)) == Some(1320));
}

// The checksum of the meta block of that table, the offset of a byte, its value, and the error.
// Without a value, the offset is that of the largest number.
static ITEMS: [([u8; 8], usize, Option<[u8; 1]>, Error); 26] = [
    // one item with another value; its length is an error when it is read as a number
    (
        [117, 94, 140, 178, 166, 191, 24, 178],
        970,
        Some([5]),
        Error::UnsupportedTableVersion,
    ),
    (
        [242, 179, 26, 48, 98, 228, 109, 91],
        517,
        Some([2]),
        Error::UnsupportedHashType,
    ),
    (
        [234, 43, 49, 196, 235, 40, 248, 53],
        273,
        Some([2]),
        Error::UnsupportedChecksumType,
    ),
    (
        [212, 225, 25, 10, 118, 63, 27, 186],
        846,
        Some([2]),
        Error::UnsupportedIndexInterval,
    ),
    (
        [20, 162, 150, 90, 197, 85, 91, 209],
        305,
        Some([1]),
        Error::UnsupportedCompression,
    ),
    (
        [58, 126, 191, 198, 65, 35, 198, 50],
        338,
        Some([1]),
        Error::UnsupportedCompression,
    ),
    // an item that is read has the largest sequence number, below which items are looked up
    (
        [79, 42, 223, 161, 69, 142, 167, 138],
        126,
        None,
        Error::MetaKeyMissing,
    ),
    (
        [79, 90, 68, 61, 55, 249, 1, 14],
        165,
        None,
        Error::MetaKeyMissing,
    ),
    (
        [47, 83, 245, 162, 106, 167, 134, 19],
        206,
        None,
        Error::MetaKeyMissing,
    ),
    (
        [79, 15, 242, 84, 221, 128, 59, 45],
        246,
        None,
        Error::MetaKeyMissing,
    ),
    (
        [255, 184, 27, 203, 84, 229, 63, 56],
        275,
        None,
        Error::MetaKeyMissing,
    ),
    (
        [111, 22, 128, 207, 89, 99, 3, 41],
        307,
        None,
        Error::MetaKeyMissing,
    ),
    (
        [175, 225, 88, 138, 17, 112, 102, 24],
        374,
        None,
        Error::MetaKeyMissing,
    ),
    (
        [159, 141, 196, 152, 218, 59, 169, 3],
        455,
        None,
        Error::MetaKeyMissing,
    ),
    (
        [127, 148, 146, 227, 5, 186, 137, 109],
        487,
        None,
        Error::MetaKeyMissing,
    ),
    (
        [207, 130, 110, 171, 226, 94, 225, 202],
        585,
        None,
        Error::MetaKeyMissing,
    ),
    (
        [47, 165, 179, 200, 107, 157, 103, 63],
        618,
        None,
        Error::MetaKeyMissing,
    ),
    (
        [63, 154, 164, 31, 166, 91, 31, 91],
        641,
        None,
        Error::MetaKeyMissing,
    ),
    (
        [95, 101, 35, 11, 68, 51, 120, 120],
        810,
        None,
        Error::MetaKeyMissing,
    ),
    (
        [47, 155, 154, 242, 96, 98, 41, 109],
        848,
        None,
        Error::MetaKeyMissing,
    ),
    (
        [175, 252, 174, 190, 226, 127, 166, 13],
        880,
        None,
        Error::MetaKeyMissing,
    ),
    (
        [223, 81, 174, 74, 41, 34, 242, 141],
        912,
        None,
        Error::MetaKeyMissing,
    ),
    (
        [191, 40, 90, 38, 167, 130, 188, 162],
        943,
        None,
        Error::MetaKeyMissing,
    ),
    (
        [239, 243, 152, 224, 174, 151, 232, 89],
        972,
        None,
        Error::MetaKeyMissing,
    ),
    (
        [47, 201, 42, 173, 7, 57, 1, 159],
        1047,
        None,
        Error::MetaKeyMissing,
    ),
    (
        [223, 14, 162, 94, 144, 55, 216, 20],
        1090,
        None,
        Error::MetaKeyMissing,
    ),
];

// Further changes of that block, with its checksum, and the error. If a value is shorter, the value
// of an item that is not read is longer.
static ITEM_FAULTS: [(Changes<'static>, Error); 11] = [
    (
        &[
            (113, &[139, 166, 19, 26, 44, 226, 82, 114]),
            (595, &[7]),
            (
                625,
                &[7, 0, 1, 0, 0, 0, 107, 101, 121, 35, 109, 97, 120, 97, 0],
            ),
            (
                648,
                &[7, 0, 1, 0, 0, 0, 107, 101, 121, 35, 109, 105, 110, 97, 0],
            ),
            (
                671,
                &[
                    9, 0, 9, 0, 0, 0, 107, 101, 121, 95, 99, 111, 117, 110, 116, 1, 0,
                ],
            ),
        ],
        Error::InvalidMetaValue,
    ),
    (
        &[
            (113, &[239, 109, 67, 102, 55, 82, 206, 218]),
            (317, &[0]),
            (
                347,
                &[
                    13, 0, 7, 0, 0, 0, 99, 114, 97, 116, 101, 95, 118, 101, 114, 115, 105, 111,
                    110, 51, 46, 49, 46, 49, 48, 32,
                ],
            ),
        ],
        Error::InvalidMetaValue,
    ),
    (
        &[
            (113, &[32, 222, 7, 88, 253, 195, 76, 43]),
            (256, &[0]),
            (273, &[0]),
            (
                282,
                &[
                    16, 0, 1, 0, 0, 0, 99, 111, 109, 112, 114, 101, 115, 115, 105, 111, 110, 35,
                    100, 97, 116, 97, 0,
                ],
            ),
            (
                314,
                &[
                    17, 0, 1, 0, 0, 0, 99, 111, 109, 112, 114, 101, 115, 115, 105, 111, 110, 35,
                    105, 110, 100, 101, 120, 0,
                ],
            ),
            (
                347,
                &[
                    13, 0, 7, 0, 0, 0, 99, 114, 97, 116, 101, 95, 118, 101, 114, 115, 105, 111,
                    110, 51, 46, 49, 46, 49, 48, 32,
                ],
            ),
        ],
        Error::UnsupportedChecksumType,
    ),
    // without `checksum_type`: there are 28 items, and one that is not read is longer
    (
        &[
            (113, &[86, 55, 36, 10, 226, 119, 83, 55]),
            (121, &[28]),
            (
                245,
                &[
                    0, 0, 0, 0, 0, 0, 0, 0, 0, 16, 0, 1, 0, 0, 0, 99, 111, 109, 112, 114, 101, 115,
                    115, 105, 111, 110, 35, 100, 97, 116, 97, 0, 0, 0, 0, 0, 0, 0, 0, 0, 0, 17, 0,
                    1, 0, 0, 0, 99, 111, 109, 112, 114, 101, 115, 115, 105, 111, 110, 35, 105, 110,
                    100, 101, 120, 0, 0, 0, 0, 0, 0, 0, 0, 0, 0, 13, 0, 35, 0, 0, 0, 99, 114, 97,
                    116, 101, 95, 118, 101, 114, 115, 105, 111, 110, 51, 46, 49, 46, 49, 48, 32,
                    32, 32, 32, 32, 32, 32, 32, 32, 32, 32, 32, 32, 32, 32, 32, 32, 32, 32, 32, 32,
                    32, 32, 32, 32, 32, 32, 32, 32,
                ],
            ),
        ],
        Error::MetaKeyMissing,
    ),
    // `restart_interval#index` is empty
    (
        &[
            (113, &[46, 21, 133, 14, 87, 253, 58, 3]),
            (
                783,
                &[
                    2, 0, 0, 0, 114, 101, 115, 116, 97, 114, 116, 95, 105, 110, 116, 101, 114, 118,
                    97, 108, 35, 100, 97, 116, 97, 16, 0, 0, 0, 0, 0, 0, 0, 0, 0, 0, 22, 0, 0, 0,
                    0, 0, 114, 101, 115, 116, 97, 114, 116, 95, 105, 110, 116, 101, 114, 118, 97,
                    108, 35, 105, 110, 100, 101, 120,
                ],
            ),
        ],
        Error::InvalidMetaValue,
    ),
    // of two faults the first is reported
    (
        &[
            (113, &[142, 209, 40, 219, 161, 189, 104, 236]),
            (487, LARGEST),
            (970, &[2]),
        ],
        Error::UnsupportedTableVersion,
    ),
    (
        &[
            (113, &[143, 152, 229, 14, 85, 242, 253, 125]),
            (273, &[2]),
            (517, &[2]),
        ],
        Error::UnsupportedHashType,
    ),
    (
        &[
            (113, &[114, 108, 169, 88, 222, 168, 152, 219]),
            (273, &[2]),
            (810, LARGEST),
        ],
        Error::UnsupportedChecksumType,
    ),
    (
        &[
            (113, &[252, 32, 229, 250, 179, 213, 94, 163]),
            (846, &[2]),
            (912, LARGEST),
        ],
        Error::UnsupportedIndexInterval,
    ),
    (
        &[
            (113, &[19, 163, 55, 93, 91, 102, 3, 109]),
            (595, &[7]),
            (
                625,
                &[7, 0, 1, 0, 0, 0, 107, 101, 121, 35, 109, 97, 120, 97, 0],
            ),
            (
                648,
                &[7, 0, 1, 0, 0, 0, 107, 101, 121, 35, 109, 105, 110, 97, 0],
            ),
            (
                671,
                &[
                    9, 0, 9, 0, 0, 0, 107, 101, 121, 95, 99, 111, 117, 110, 116, 1, 0,
                ],
            ),
            (912, LARGEST),
        ],
        Error::MetaKeyMissing,
    ),
    (
        &[
            (113, &[205, 48, 25, 228, 127, 246, 46, 208]),
            (305, &[2]),
            (848, LARGEST),
        ],
        Error::MetaKeyMissing,
    ),
];

// The index of the first item with another result than its error.
fn wrong_item(alloc: Global, items: &[([u8; 8], usize, Option<[u8; 1]>, Error)]) -> Option<usize> {
    for (place, (checksum, at, byte, fault)) in items.iter().enumerate() {
        let written: &[u8] = match byte {
            Some(byte) => byte,
            None => LARGEST,
        };
        let changes: [(usize, &[u8]); 2] = [(113, checksum), (*at, written)];
        if !has_fault(
            opened(alloc, &(Of::One, changes.as_slice(), BOTH, 0)),
            fault,
        ) {
            return Some(place);
        }
    }
    None
}

// The tests in Python read each item with any length of its value.
#[test]
fn the_first_fault_of_items(rt: HostRuntime) {
    assert!(rt; wrong_item(rt.alloc(), &ITEMS) == None);
    assert!(rt; wrong_fault(rt.alloc(), &ITEM_FAULTS) == None);
}

// The stored table of one entry with another kind of checksum.
const OTHER_CHECKSUMS: Changed<'static> = (
    Of::One,
    &[(113, &[234, 43, 49, 196, 235, 40, 248, 53]), (273, &[2])],
    BOTH,
    0,
);

/// Whether opening a table with an unknown kind of checksum fails with its error.
pub(crate) fn checksums_are_refused<A: Allocator + Copy>(alloc: A) -> Result<bool, Error> {
    match opened(alloc, &OTHER_CHECKSUMS).map(drop) {
        Err(Error::UnsupportedChecksumType) => Ok(true),
        Err(error) => Err(error),
        Ok(()) => Ok(false),
    }
}
