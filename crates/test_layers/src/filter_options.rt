//! Partitioned filters whose options change between keys.
ghost use Rattle.std.specs.Prelude.{ℕ, List, [], ◌∷◌, ◌++◌, IfOk};
ghost use Rattle.test_layers.specs.Words as spec;

use lsm_writers::{BloomConstructionPolicy, FilterWriter, PartitionedFilterWriter};
use sst_blocks::{
    Block, BlockHandle, BlockOffset, BlockSource, BlockType, Builder, Error, FilterBlock,
    IndexBlock, Opened, SectionName, SectionWriter, SeqNo, Slice, TagName, UserKey,
};
use std::alloc::Global;
use test_support::samples::large::asked_with;

// The partition size, and tenths of a bit per key.
type Setting = (u32, u32);

// The settings before each of three keys.
type Settings = (Setting, Setting, Setting);

// Sets the options and registers a key.
fn add(
    writer: PartitionedFilterWriter,
    setting: Setting,
    key: &UserKey,
) -> Result<PartitionedFilterWriter, Error>
    requires { spec.Rises (spec.HoldsParts writer) key.now }
    ensures { IfOk result (λ w. (keys : List (List ℕ)) → spec.WasGiven writer keys →
        spec.WasGiven w (keys ++ key.now ∷ [])) }
{
    let (size, tenths) = setting;
    let sized = writer.use_partition_size(size);
    let mut set = sized.set_filter_policy(BloomConstructionPolicy::BitsPerKey(tenths));
    set.register_key(key)?;
    Ok(set)
}

// A writer with the keys "a", "b" and "c", each registered after its options were set.
fn three_keys(alloc: Global, settings: Settings) -> Result<PartitionedFilterWriter, Error> {
    let (first, second, third) = settings;
    let a: UserKey = Slice::from_static(b"a");
    let b: UserKey = Slice::from_static(b"b");
    let c: UserKey = Slice::from_static(b"c");
    let none = PartitionedFilterWriter::new(alloc, BloomConstructionPolicy::default())?;
    let one = add(none, first, &a)?;
    let two = add(one, second, &b)?;
    add(two, third, &c)
}

// The number of partitions and the bytes.
fn written(alloc: Global, settings: Settings) -> Result<(usize, Slice), Error> {
    let mut sections = SectionWriter::new(alloc)?;
    let count = three_keys(alloc, settings)?.finish(&mut sections)?;
    let (bytes, _) = sections.finish()?;
    Ok((count, bytes))
}

fn index_of(block: Block) -> Result<IndexBlock, Error> {
    match block.kind() {
        BlockType::Index => Ok(IndexBlock::new(block)),
        _ => Err(Error::InvalidTag(TagName::BlockType, 1)),
    }
}

fn filter_of(block: Block) -> Result<FilterBlock, Error> {
    match block.kind() {
        BlockType::Filter => Ok(FilterBlock::new(block)),
        _ => Err(Error::InvalidTag(TagName::BlockType, 2)),
    }
}

// The top level of the filter.
fn tops_of(source: &BlockSource) -> Result<IndexBlock, Error> {
    let Some(section) = source.toc().section(SectionName::FilterTli) else {
        return Err(Error::MissingSection);
    };
    let size = u32::try_from(section.len).unwrap_or(0);
    let lies = BlockHandle::new(BlockOffset(section.position), size);
    index_of(source.load(&lies, BlockType::Index, &mut Opened::none())?)
}

// Whether the partition that the top level returns for a key admits it.
fn says(source: &BlockSource, tops: &IndexBlock, key: &[u8]) -> Result<bool, Error> {
    let Some(lies) = tops.find(key, SeqNo::MAX) else {
        return Ok(false);
    };
    let filter = filter_of(source.load(&lies, BlockType::Filter, &mut Opened::none())?)?;
    Ok(filter.maybe_contains_hash(Builder::<Global>::get_hash(key)))
}

// The first byte of the end key of the partition at an index, 0 if there is none.
fn end_at(tops: &IndexBlock, place: usize) -> u8 {
    if place >= tops.len() {
        return 0;
    }
    match tops.handle(place) {
        Ok(handle) => handle.end_key().as_slice().first().copied().unwrap_or(0),
        Err(_) => u8::MAX,
    }
}

// The end keys of the first partitions, and whether "a", "b" and "c" are admitted.
type Reported = ([u8; 3], bool);

fn returned(tops: &IndexBlock, source: &BlockSource) -> Result<Reported, Error> {
    let mut admits = true;
    for key in [b"a", b"b", b"c"] {
        admits &= says(source, tops, key)?;
    }
    Ok(([end_at(tops, 0), end_at(tops, 1), end_at(tops, 2)], admits))
}

// The number of partitions, the end keys of the first ones, and whether "a", "b" and "c" are
// admitted.
fn told_of(alloc: Global, settings: Settings) -> Result<(usize, Reported), Error> {
    let (count, bytes) = written(alloc, settings)?;
    let source = BlockSource::new(alloc, bytes)?;
    let returned = asked_with(tops_of(&source), &source, returned);
    drop(source);
    Ok((count, returned?))
}

// The settings before each key, the number of partitions, and their end keys. Up to three keys of
// ten bits take 8 bytes of bits, and two of 64 bits take 16.
const CASES: &[(Settings, usize, [u8; 3])] = &[
    // never above the size, and a size that each key reaches
    (((100, 100), (100, 100), (100, 100)), 1, [b'c', 0, 0]),
    (((8, 100), (8, 100), (8, 100)), 3, [b'a', b'b', b'c']),
    // a smaller size, and a larger one after it
    (((100, 100), (8, 100), (100, 100)), 2, [b'b', b'c', 0]),
    (((8, 100), (100, 100), (8, 100)), 2, [b'a', b'c', 0]),
    // another policy, and then the first one again
    (((16, 100), (16, 640), (16, 100)), 2, [b'b', b'c', 0]),
    (((16, 640), (16, 100), (16, 640)), 1, [b'c', 0, 0]),
];

#[test]
fn options_between_keys_keep_what_was_cut(rt: HostRuntime) {
    for &(settings, count, ends) in CASES {
        let expected = (count, (ends, true));
        assert!(rt; told_of(rt.alloc(), settings) == Ok(expected));
    }
}
