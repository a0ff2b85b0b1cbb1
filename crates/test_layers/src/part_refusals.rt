//! Writers of indexes, filters and sections after an allocation failure, for each request in turn;
//! later requests succeed. An index or filter writer fails from then on. A section writer keeps its
//! bytes.
ghost use Rattle.std.specs.Prelude.{◌≡◌, ◌++◌, ◌∷◌, [], IfOk};
ghost use Rattle.test_layers.specs.Words as spec;

use crate::given::{Refusals, Seen, number};
use lsm_writers::{
    BlockIndexWriter, BloomConstructionPolicy, FilterWriter, FilterWriterImpl, FullFilterWriter,
    FullIndexWriter, IndexWriterImpl, PartitionedFilterWriter, PartitionedIndexWriter,
};
use sst_blocks::{
    BlockHandle, BlockOffset, Error, KeyedBlockHandle, SectionName, SectionWriter, Slice, UserKey,
};
use std::alloc::Allocator;

// The bytes of a section writer before an index or a filter is written.
const FRONT: &[u8] = b"front";

// The error codes where bytes that were written are lost.
const LOST: Refusals = [u8::MAX; 5];

/// The error codes of writing a part of a table. Then the id 0, and the checksum and length of all
/// bytes of the section writer.
pub(crate) type Part = (Refusals, Seen);

// A section writer with these bytes.
fn with_front<A: Allocator + Copy>(alloc: A) -> Result<SectionWriter<A>, Error>
    ensures { IfOk result (λ w. w.started ≡ []) }
{
    let mut sections = SectionWriter::new(alloc)?;
    sections.append(FRONT)?;
    Ok(sections)
}

// Finishes a section writer. Returns these error codes if its bytes begin with `front`.
fn finish_part<A: Allocator + Copy>(
    front: &[u8],
    sections: SectionWriter<A>,
    refusals: Refusals,
) -> Result<Part, Error> {
    let (bytes, checksum) = sections.finish()?;
    let written = (0, checksum.0, bytes.len());
    if bytes.as_slice().starts_with(front) {
        Ok((refusals, written))
    } else {
        Ok((LOST, written))
    }
}

// Registers a key, again if that fails, and finishes.
fn register_key<A: Allocator, W: FilterWriter<A>>(
    mut writer: W,
    key: &UserKey<A>,
    sections: &mut SectionWriter<A>,
) -> Refusals
    requires rises { spec.Rises (W.Holds writer) key.now }
    requires unwritten { spec.HasNoFilter sections.old }
{
    let mut refusals = [0; 5];
    if let Err(error) = writer.register_key(key) {
        let again = number(writer.register_key(key));
        refusals = [0, error.number(), again, again, 0];
    }
    refusals[4] = number(writer.finish(sections));
    refusals
}

// Registers a handle, again if that fails, or none, and finishes.
fn register_block<A: Allocator, W: BlockIndexWriter<A>>(
    mut writer: W,
    handle: &KeyedBlockHandle<A>,
    is_registered: bool,
    sections: &mut SectionWriter<A>,
) -> Refusals
    requires strict { spec.AreStrictHandles (W.registered writer ++ handle.now ∷ []) }
    requires unwritten { spec.HasNoIndex sections.old }
{
    let mut refusals = [0; 5];
    if is_registered {
        if let Err(error) = writer.register_data_block(handle) {
            let again = number(writer.register_data_block(handle));
            refusals = [0, error.number(), again, again, 0];
        }
    }
    refusals[4] = number(writer.finish(sections));
    refusals
}

// A writer of a filter without keys, partitioned or not.
fn filter_writer<A: Allocator + Copy>(
    alloc: A,
    is_partitioned: bool,
) -> Result<FilterWriterImpl<A>, Error>
    ensures { IfOk result (λ w. spec.HoldsBy w spec.no_keys) }
{
    let policy = BloomConstructionPolicy::default();
    if !is_partitioned {
        return Ok(FilterWriterImpl::Full(FullFilterWriter::new(alloc, policy)));
    }
    let writer = PartitionedFilterWriter::new(alloc, policy)?.use_partition_size(0);
    Ok(FilterWriterImpl::Partitioned(writer))
}

/// A filter of one key.
pub(crate) fn filter<A: Allocator + Copy>(alloc: A, is_partitioned: bool) -> Result<Part, Error> {
    let mut sections = with_front(alloc)?;
    let writer = filter_writer(alloc, is_partitioned)?;
    let refusals = register_key(writer, &Slice::from_static(b"a"), &mut sections);
    finish_part(FRONT, sections, refusals)
}

// A writer of an index without handles, partitioned or not.
fn index_writer<A: Allocator>(alloc: A, is_partitioned: bool) -> IndexWriterImpl<A>
    ensures { (spec.registered_by result).handles ≡ [] }
{
    if is_partitioned {
        IndexWriterImpl::Partitioned(PartitionedIndexWriter::new(alloc))
    } else {
        IndexWriterImpl::Full(FullIndexWriter::new(alloc))
    }
}

/// An index of one handle, or of none.
#[tactic(auto, using(crate::proofs::HandleLemmas::one_handle_strict))]
pub(crate) fn index<A: Allocator + Copy>(
    alloc: A,
    is_partitioned: bool,
    has_handle: bool,
) -> Result<Part, Error> {
    let mut sections = with_front(alloc)?;
    let lies = BlockHandle::new(BlockOffset(0), 47);
    let handle = KeyedBlockHandle::new(Slice::from_static(b"a"), 1, lies);
    let writer = index_writer(alloc, is_partitioned);
    let refusals = register_block(writer, &handle, has_handle, &mut sections);
    finish_part(FRONT, sections, refusals)
}

// Begins a section, again after an allocation failure.
fn start<A: Allocator + Copy>(sections: &mut SectionWriter<A>) -> Result<(), Error>
    requires { sections.old.started ≡ [] }
{
    match sections.start(SectionName::Data) {
        Ok(()) => Ok(()),
        Err(_) => sections.start(SectionName::Data),
    }
}

// Writes bytes, again after an allocation failure.
fn append<A: Allocator + Copy>(sections: &mut SectionWriter<A>, bytes: &[u8]) -> Result<(), Error> {
    match sections.append(bytes) {
        Ok(()) => Ok(()),
        Err(_) => sections.append(bytes),
    }
}

/// A section written in two steps.
pub(crate) fn section<A: Allocator + Copy>(alloc: A) -> Result<Part, Error> {
    let mut sections = SectionWriter::new(alloc)?;
    start(&mut sections)?;
    append(&mut sections, FRONT)?;
    append(&mut sections, b" bytes, more than were there")?;
    finish_part(b"front bytes, more than were there", sections, [0; 5])
}

/// A section as long as a block without handles.
pub(crate) fn section_of_28<A: Allocator + Copy>(alloc: A) -> Result<Part, Error> {
    let mut sections = with_front(alloc)?;
    start(&mut sections)?;
    sections.append_both(&[0; 24], &[0; 4])?;
    finish_part(FRONT, sections, [0; 5])
}
