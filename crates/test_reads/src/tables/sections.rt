//! The layout of written tables: their lengths, the offsets of their sections, and the numbers of
//! index and filter blocks in their meta blocks.
use crate::tables::{Of, Parted, opened};
use lsm_tables::table::Table;
use sst_blocks::{Error, ItemName, SectionName, Toc};
use std::alloc::Global;
use test_support::samples::large::asked_with;

// The sections that vary, in the order in which they are compared.
const NAMES: [SectionName; 4] = [
    SectionName::Index,
    SectionName::Tli,
    SectionName::Filter,
    SectionName::FilterTli,
];

// The offset and the length of a section, if there is one.
type Place = Option<(u64, u64)>;

// The length of a table, the sections of [`NAMES`], and the numbers of index and filter blocks.
type Layout = (usize, &'static [Place], u64, u8);

fn places_of(toc: &Toc) -> [Place; 4] {
    let mut places = [None; 4];
    for (place, name) in places.iter_mut().zip(NAMES.iter()) {
        if let Some(section) = toc.section(*name) {
            *place = Some((section.position, section.len));
        }
    }
    places
}

// Whether a table has a layout.
fn is_laid(table: &Table, layout: &Layout) -> Result<bool, Error> {
    let bytes = table.bytes()?;
    let places = places_of(&Toc::of(bytes.as_slice())?);
    let filters = table.meta_item(ItemName::BlockCountFilter)?;
    let filters = filters.as_slice().first().copied().unwrap_or(u8::MAX);
    Ok(
        bytes.len() == layout.0
            && places.as_slice() == layout.1
            && table.metadata.index_block_count == layout.2
            && filters == layout.3,
    )
}

// Tables and their layouts. The first five have four data blocks of 46 bytes, the last two one of
// 47. A block of one handle for a key of one byte has 53 bytes, and 25 more for each further
// handle. A filter of one or two keys has 33.
const LAYOUTS: &[(Of, Layout)] = &[
    // A partition of the index for each block of data.
    (
        Of::Rows(Parted::Index),
        (
            1744,
            &[Some((184, 212)), Some((396, 128)), None, None],
            4,
            1,
        ),
    ),
    // All blocks of data in one partition.
    (
        Of::ForgettingIndex,
        (1585, &[Some((184, 128)), Some((312, 53)), None, None], 1, 1),
    ),
    // A partition of the filter for each key.
    (
        Of::Keys,
        (
            1676,
            &[None, Some((184, 128)), Some((312, 66)), Some((378, 78))],
            1,
            2,
        ),
    ),
    // Both keys in one partition.
    (
        Of::ForgettingFilter,
        (
            1618,
            &[None, Some((184, 128)), Some((312, 33)), Some((345, 53))],
            1,
            1,
        ),
    ),
    // A partitioned filter without keys.
    (
        Of::Rows(Parted::Filter),
        (1532, &[None, Some((184, 128)), None, None], 1, 0),
    ),
    // One block of the index, without and with a filter. A full filter counts as one block even
    // where there is none.
    (
        Of::Numbered(1),
        (1320, &[None, Some((47, 53)), None, None], 1, 1),
    ),
    (
        Of::Default,
        (1353, &[None, Some((47, 53)), Some((100, 33)), None], 1, 1),
    ),
];

// The index of the first table that has another layout.
fn wrong_layout(alloc: Global) -> Option<usize> {
    for (at, (of, layout)) in LAYOUTS.iter().enumerate() {
        let table = opened(alloc, &(*of, &[], (true, true), 0));
        if asked_with(table, layout, is_laid) != Ok(true) {
            return Some(at);
        }
    }
    None
}

#[test]
fn sections_of_each_kind_of_index_and_filter(rt: HostRuntime) {
    assert!(rt; wrong_layout(rt.alloc()) == None);
}
