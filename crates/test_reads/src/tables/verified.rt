//! Results of verifying tables, and the first fault of tables whose bytes were changed.
use crate::tables::{Changed, Changes, Of, Pins, opened};
use lsm_tables::table::{Fault, Finding, Table, Verified, VerifyError};
use sst_blocks::{Checksum, Error, ItemName, SectionName};
use std::alloc::Global;
use test_support::samples::large::asked_with;

// The result of verifying a table, with a checksum of its file if there is one.
fn verified(table: &Table, checksum: Option<u128>) -> Result<Result<Verified, VerifyError>, Error> {
    Ok(match checksum {
        Some(checksum) => table.verify_with(Checksum(checksum)),
        None => table.verify(),
    })
}

const PINS: Pins = (true, true);

// A table of one entry; and one of four in a block each, whose second data block is damaged.
const ONE: Changed<'static> = (Of::One, &[], PINS, 0);

const DAMAGED: Changed<'static> = (Of::Levels, &[(87, b"?")], PINS, 0);

const WRITTEN: Changed<'static> = (Of::Numbered(1), &[], PINS, 0);

// The checksum of the table of a@1. `test_vectors` has the same from another program.
const OF_WRITTEN: u128 = 1_866_175_774_685_508_454;

const ONE_ITEM: Result<Verified, VerifyError> = Ok(Verified {
    data_block_count: 1,
    item_count: 1,
});

// A table, a checksum of its file, and the result.
type Reported = (
    Changed<'static>,
    Option<u128>,
    Result<Verified, VerifyError>,
);

static SOUND_AND_NOT: [Reported; 4] = [
    (ONE, None, ONE_ITEM),
    (WRITTEN, Some(OF_WRITTEN), ONE_ITEM),
    (WRITTEN, Some(0), OTHER_CHECKSUM),
    (DAMAGED, None, UNLOADED),
];

const OTHER_CHECKSUM: Result<Verified, VerifyError> = Err(VerifyError::Found(Finding {
    section: SectionName::Data,
    offset: 0,
    fault: Fault::OtherChecksum,
}));

const UNLOADED: Result<Verified, VerifyError> = Err(VerifyError::Found(Finding {
    section: SectionName::Data,
    offset: 44,
    fault: Fault::Unloaded(Error::ChecksumMismatch),
}));

// The index of the first table with another result.
fn wrong_table(alloc: Global, rows: &[Reported]) -> Option<usize> {
    for (place, (changed, checksum, expected)) in rows.iter().enumerate() {
        match asked_with(opened(alloc, changed), *checksum, verified) {
            Ok(found) if found == *expected => {}
            _ => return Some(place),
        }
    }
    None
}

#[test]
fn a_table_is_verified_or_its_first_fault_is_found(rt: HostRuntime) {
    assert!(rt; wrong_table(rt.alloc(), &SOUND_AND_NOT) == None);
}

// Changes of the meta block of the table of one entry, with its checksum, and the item that no
// longer matches the entry. The counts and numbers become 0 or 3, and the keys empty; then the
// count of keys is one byte longer.
static UNBORNE: [(Changes<'static>, ItemName); 12] = [
    (
        &[(113, &[234, 147, 139, 237, 2, 77, 208, 19]), (156, &[0])],
        ItemName::BlockCountData,
    ),
    (
        &[(113, &[1, 65, 160, 251, 9, 58, 119, 177]), (156, &[3])],
        ItemName::BlockCountData,
    ),
    (
        &[(113, &[134, 223, 101, 39, 214, 234, 112, 21]), (478, &[0])],
        ItemName::FileSize,
    ),
    (
        &[(113, &[76, 36, 140, 160, 87, 133, 24, 47]), (609, &[0])],
        ItemName::ItemCount,
    ),
    (
        &[(113, &[85, 149, 160, 10, 47, 59, 53, 237]), (609, &[3])],
        ItemName::ItemCount,
    ),
    (
        &[
            (113, &[98, 8, 51, 207, 164, 169, 239, 142]),
            (628, &[0]),
            (639, &[0]),
            (
                648,
                &[7, 0, 1, 0, 0, 0, 107, 101, 121, 35, 109, 105, 110, 97, 0],
            ),
            (
                671,
                &[
                    9, 0, 9, 0, 0, 0, 107, 101, 121, 95, 99, 111, 117, 110, 116, 1, 0,
                ],
            ),
        ],
        ItemName::KeyMax,
    ),
    (
        &[
            (113, &[48, 215, 218, 2, 185, 237, 92, 40]),
            (651, &[0]),
            (662, &[0]),
            (
                671,
                &[
                    9, 0, 9, 0, 0, 0, 107, 101, 121, 95, 99, 111, 117, 110, 116, 1, 0,
                ],
            ),
        ],
        ItemName::KeyMin,
    ),
    (
        &[(113, &[117, 184, 244, 26, 182, 206, 212, 229]), (871, &[3])],
        ItemName::SeqnoMax,
    ),
    (
        &[(113, &[9, 58, 68, 27, 99, 1, 217, 155]), (903, &[3])],
        ItemName::SeqnoMin,
    ),
    (
        &[(113, &[182, 103, 186, 129, 145, 63, 148, 10]), (1001, &[3])],
        ItemName::TombstoneCount,
    ),
    (
        &[(113, &[78, 239, 79, 120, 142, 40, 46, 139]), (1081, &[3])],
        ItemName::WeakTombstoneCount,
    ),
    (
        &[(113, &[180, 6, 0, 90, 113, 169, 202, 241]), (1130, &[3])],
        ItemName::WeakTombstoneReclaimable,
    ),
];

// The mismatch of an item of the meta block, which starts at 97.
fn unborne(item: ItemName) -> VerifyError {
    VerifyError::Found(Finding {
        section: SectionName::Meta,
        offset: 97,
        fault: Fault::Unborne(item),
    })
}

// Whether verifying the table of one entry with these changes finds a mismatch of an item.
fn is_unborne(alloc: Global, changes: Changes<'_>, item: ItemName) -> bool {
    let table = opened(alloc, &(Of::One, changes, PINS, 0));
    asked_with(table, None, verified) == Ok(Err(unborne(item)))
}

#[test]
fn a_verification_finds_an_item_that_is_not_borne_out(rt: HostRuntime) {
    for (changes, item) in &UNBORNE {
        assert!(rt; is_unborne(rt.alloc(), changes, *item));
    }
}
