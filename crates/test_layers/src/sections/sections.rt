//! The sections of a stored table, written again.
ghost use Rattle.std.specs.Prelude.{◌≡◌, ◌++◌, ◌∷◌, [], length, OnOk, All};
ghost use Rattle.sst_blocks.specs.Sections.{slot_index};

use crate::sections::stored_table;
use crate::sections::tables::finished;
use sst_blocks::{BlockSource, Error, Section, SectionName, SectionWriter};
use std::alloc::Allocator;
use test_support::Refusing;

fn put_section<A: Allocator + Copy>(
    writer: &mut SectionWriter<A>,
    name: SectionName,
    bytes: &[u8],
) -> Result<(), Error>
    requires { All (λ s. slot_index s.0 ≡ slot_index name → ⊥) writer.old.started }
    ensures { let started = writer.old.started ++ (name, length writer.old.bytes) ∷ [] in
        OnOk result (writer.new.started ≡ started) }
{
    writer.start(name)?;
    writer.append(bytes)
}

// Writes the sections of the stored table.
fn write_sections<A: Allocator + Copy>(writer: &mut SectionWriter<A>) -> Result<(), Error>
    requires { writer.old.started ≡ [] }
{
    let bytes = stored_table::bytes();
    put_section(writer, SectionName::Data, &bytes[..45])?;
    put_section(writer, SectionName::Tli, &bytes[45..96])?;
    put_section(writer, SectionName::TableVersion, &bytes[96..97])?;
    put_section(writer, SectionName::Meta, &bytes[97..1138])
}

// A section, and its offset and length.
const SECTIONS: &[(SectionName, Option<(u64, u64)>)] = &[
    (SectionName::Data, Some((0, 45))),
    (SectionName::Index, None),
    (SectionName::Tli, Some((45, 51))),
    (SectionName::Filter, None),
    (SectionName::FilterTli, None),
    (SectionName::TableVersion, Some((96, 1))),
    (SectionName::Meta, Some((97, 1041))),
];

// Whether each section of a table is at its offset and has its length.
fn lie_so<A: Allocator + Copy>(source: &BlockSource<A>) -> bool {
    let toc = source.toc();
    for &(name, lies) in SECTIONS {
        let section = match lies {
            Some((position, len)) => Some(Section { position, len }),
            None => None,
        };
        if toc.section(name) != section {
            return false;
        }
    }
    true
}

// Whether writing the sections again yields the stored table, its checksum and these sections.
fn is_same<A: Allocator + Copy>(alloc: A) -> Result<bool, Error> {
    let mut writer = SectionWriter::new(alloc)?;
    let written = write_sections(&mut writer);
    let (_, bytes, checksum) = finished(writer, written)?;
    let is_same = bytes.as_slice() == stored_table::bytes().as_slice();
    let source = BlockSource::new(alloc, bytes)?;
    let lie_so = lie_so(&source);
    drop(source);
    Ok(is_same && lie_so && checksum == 0x30fc_eabc_de57_bd50)
}

/// Whether the stored table is written again; or `OutOfMemory`, where it may fail.
pub(crate) fn is_written_again(heap: &Refusing, may_fail: bool) -> bool {
    match is_same(heap) {
        Ok(is_same) => is_same,
        Err(error) => may_fail && error == Error::OutOfMemory,
    }
}
