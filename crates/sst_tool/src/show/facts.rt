//! The metadata of a table, as plain values.
use crate::files::section_name;
use crate::show::blocks::source_of;
use lsm_iters::{BlockIndex, BlockIndexIterImpl};
use lsm_readers::Table;
use sst_blocks::{Error, ItemName, SectionName, TRAILER_LEN, Toc};
use std::alloc::Allocator;

/// A range of bytes in a file.
#[derive(Clone, Copy)]
pub(crate) struct Place {
    /// The offset of its first byte.
    pub(crate) offset: u64,
    /// Its length in bytes.
    pub(crate) size: u64,
}

/// A section of a file.
#[derive(Clone, Copy)]
pub(crate) struct NamedPlace {
    pub(crate) name: &'static str,
    pub(crate) place: Place,
}

/// The form in which a meta item is printed.
#[derive(Clone, Copy)]
pub(crate) enum Shown {
    /// A number, stored in little-endian order.
    Number,
    /// Bytes.
    Bytes,
}

/// The items of the meta block, with the form of each.
pub(crate) const ITEMS: [(ItemName, Shown); 29] = [
    (ItemName::BlockCountData, Shown::Number),
    (ItemName::BlockCountFilter, Shown::Number),
    (ItemName::BlockCountIndex, Shown::Number),
    (ItemName::ChecksumType, Shown::Number),
    (ItemName::CompressionData, Shown::Number),
    (ItemName::CompressionIndex, Shown::Number),
    (ItemName::CrateVersion, Shown::Bytes),
    (ItemName::CreatedAt, Shown::Number),
    (ItemName::DataBlockHashRatio, Shown::Number),
    (ItemName::FileSize, Shown::Number),
    (ItemName::FilterHashType, Shown::Number),
    (ItemName::IndexKeysHaveSeqno, Shown::Number),
    (ItemName::InitialLevel, Shown::Number),
    (ItemName::ItemCount, Shown::Number),
    (ItemName::KeyMax, Shown::Bytes),
    (ItemName::KeyMin, Shown::Bytes),
    (ItemName::KeyCount, Shown::Number),
    (ItemName::PrefixTruncationData, Shown::Number),
    (ItemName::PrefixTruncationIndex, Shown::Number),
    (ItemName::RestartIntervalData, Shown::Number),
    (ItemName::RestartIntervalIndex, Shown::Number),
    (ItemName::SeqnoMax, Shown::Number),
    (ItemName::SeqnoMin, Shown::Number),
    (ItemName::TableId, Shown::Number),
    (ItemName::TableVersion, Shown::Number),
    (ItemName::TombstoneCount, Shown::Number),
    (ItemName::UserDataSize, Shown::Number),
    (ItemName::WeakTombstoneCount, Shown::Number),
    (ItemName::WeakTombstoneReclaimable, Shown::Number),
];

// The sections, in the order of the trailer.
const SECTIONS: [SectionName; 7] = [
    SectionName::Data,
    SectionName::Index,
    SectionName::Tli,
    SectionName::Filter,
    SectionName::FilterTli,
    SectionName::TableVersion,
    SectionName::Meta,
];

/// Returns the little-endian number of these bytes, or `None` from 2^64 on.
pub(crate) fn little_endian(bytes: &[u8]) -> Option<u64> {
    let mut number = 0u64;
    for byte in bytes.iter().rev() {
        number = number.checked_mul(256)?.checked_add(u64::from(*byte))?;
    }
    Some(number)
}

/// Lists the sections of a table, as its trailer has them, and the trailer.
///
/// # Errors
///
/// Fails only if memory runs out.
pub(crate) fn sections_of<A: Allocator + Copy>(
    alloc: A,
    table: &Table<A>,
) -> Result<Vec<NamedPlace, A>, Error> {
    let toc = source_of(alloc, table)?.toc();
    let mut sections = Vec::new(alloc);
    add_sections(&mut sections, &toc, &SECTIONS)?;
    sections.push(NamedPlace {
        name: "trailer",
        place: Place {
            offset: table.file_len().saturating_sub(TRAILER_LEN) as u64,
            size: TRAILER_LEN as u64,
        },
    })?;
    Ok(sections)
}

// Adds the sections that the file has.
fn add_sections<A: Allocator>(
    sections: &mut Vec<NamedPlace, A>,
    toc: &Toc,
    names: &[SectionName],
) -> Result<(), Error> {
    for name in names {
        if let Some(section) = toc.section(*name) {
            let place = Place {
                offset: section.position,
                size: section.len,
            };
            sections.push(NamedPlace {
                name: section_name(*name),
                place,
            })?;
        }
    }
    Ok(())
}

/// Lists the data blocks, as the index has them.
///
/// # Errors
///
/// Fails as loading the blocks of the index does.
pub(crate) fn blocks_of<A: Allocator + Copy>(
    alloc: A,
    table: &Table<A>,
) -> Result<Vec<Place, A>, Error> {
    let index = table.block_index()?;
    let handles = index.iter();
    drop(index);
    let mut handles = handles?;
    let places = collect_places(alloc, &mut handles);
    drop(handles);
    places
}

// Lists the blocks of these handles. Not generic in the iterator: that would cost more proof at the
// call.
fn collect_places<A: Allocator + Copy>(
    alloc: A,
    handles: &mut BlockIndexIterImpl<A>,
) -> Result<Vec<Place, A>, Error> {
    let mut places = Vec::new(alloc);
    while let Some(handle) = handles.next() {
        let handle = handle?;
        places.push(Place {
            offset: handle.offset().0,
            size: u64::from(handle.size()),
        })?;
    }
    Ok(places)
}

/// The size of a filter for its number of keys.
#[derive(Clone, Copy)]
pub(crate) struct Spread {
    /// Bits for each key, in tenths.
    pub(crate) tenths: u64,
    /// The expected number of absent keys that pass, of a million.
    pub(crate) passed: u64,
}

/// Returns the spread of a filter of so many bytes over so many keys, or `None` without keys.
pub(crate) fn spread_of(bytes: u64, keys: u64) -> Option<Spread> {
    let bits = bytes.saturating_mul(8);
    let tenths = bits.saturating_mul(10).checked_div(keys)?;
    Some(Spread {
        tenths,
        passed: let_through(tenths.min(300)),
    })
}

// Returns how many of a million absent keys pass. With the best number of probes each bit lets
// 0.6185 of the keys pass, and each tenth of a bit 0.9531.
fn let_through(tenths: u64) -> u64 {
    let mut passed = 1_000_000u64;
    for _done in 0..tenths {
        passed = passed.saturating_mul(9531) / 10_000;
    }
    passed
}
