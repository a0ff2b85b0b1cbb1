//! Filter blocks: encoding, loads and queries.
use crate::sections::filters::{ONE_KEY, THREE_KEYS};
use crate::sections::tables::{handle, table_of};
use sst_blocks::{
    Block, BlockType, Builder, Error, FilterBlock, Opened, SectionName, TagName, contains_hash,
    hash,
};
use std::alloc::Global;

fn filter_of(block: Block) -> Result<FilterBlock, Error> {
    match block.kind() {
        BlockType::Filter => Ok(FilterBlock::new(block)),
        _ => {
            drop(block);
            Err(Error::InvalidTag(TagName::BlockType, 2))
        }
    }
}

// The filter loaded from a table of it alone.
fn load(alloc: Global, payload: &[u8]) -> Result<FilterBlock, Error> {
    let size = u32::try_from(payload.len()).unwrap_or(0).saturating_add(24);
    let blocks = [(BlockType::Filter, payload, 0, size)];
    let source = table_of(alloc, SectionName::Filter, &blocks, &[])?;
    let block = source.load(&handle(0, size), BlockType::Filter, &mut Opened::none());
    drop(source);
    filter_of(block?)
}

// The size of a filter, and whether the filter and its clone admit a key.
type Reported = (usize, bool, bool);

fn returned(filter: &FilterBlock, key: &[u8]) -> Result<Reported, Error> {
    let hash = Builder::<Global>::get_hash(key);
    let clone: FilterBlock = filter.clone()?;
    let clone_admits = clone.maybe_contains_hash(hash);
    drop(clone);
    Ok((
        filter.size(),
        filter.maybe_contains_hash(hash),
        clone_admits,
    ))
}

// The size and the answers of the filter that is loaded from a payload.
fn told_of(alloc: Global, payload: &[u8], key: &[u8]) -> Result<Reported, Error> {
    let filter = load(alloc, payload)?;
    let returned = returned(&filter, key);
    drop(filter);
    returned
}

// A payload, a key, and the results of the filter, or the error.
const ASKED: &[(&[u8], &[u8], Result<Reported, Error>)] = &[
    (&[1, 0], b"a", Ok((2, false, false))),
    (&[30, 255], b"a", Ok((2, true, true))),
    (&[0, 255], b"a", Err(Error::InvalidBlock)),
    (&[31, 255], b"a", Err(Error::InvalidBlock)),
    (&[1], b"a", Err(Error::InvalidBlock)),
    (ONE_KEY, b"a", Ok((9, true, true))),
    (ONE_KEY, b"", Ok((9, false, false))),
    (THREE_KEYS, b"apple", Ok((9, true, true))),
    (THREE_KEYS, b"fig", Ok((9, true, true))),
    (THREE_KEYS, b"pear", Ok((9, true, true))),
    (THREE_KEYS, b"", Ok((9, false, false))),
    (THREE_KEYS, b"plum", Ok((9, false, false))),
    (THREE_KEYS, b"zebra", Ok((9, false, false))),
];

#[test]
fn filters_are_written_loaded_and_asked(rt: HostRuntime) {
    for (payload, key, expected) in ASKED {
        assert!(rt; told_of(rt.alloc(), payload, key) == *expected);
    }
    assert!(rt; contains_hash(ONE_KEY, hash(b"a")));
    assert!(rt; !contains_hash(ONE_KEY, hash(b"")));
}
