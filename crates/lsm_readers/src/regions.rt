//! The handles of a table's sections.
ghost use Rattle.std.specs.Prelude.{◌≡◌, Result, Option};
ghost use Rattle.lsm_readers.specs.Words as spec;

use sst_blocks::{BlockHandle, BlockOffset, Error, Section, SectionName, Toc};

/// The handles of a table's sections, as its trailer lists them.
///
/// The data blocks start at offset 0 of the file.
#[derive(Clone, Copy, Debug, Default)]
pub struct ParsedRegions {
    /// The top level of a partitioned index, or the single block of a full one.
    pub tli: BlockHandle,
    /// The partitions of a partitioned index.
    pub index: Option<BlockHandle>,
    /// The top level of a partitioned filter.
    pub filter_tli: Option<BlockHandle>,
    /// The block of a full filter, or the partitions of a partitioned one.
    pub filter: Option<BlockHandle>,
    /// The meta block.
    pub metadata: BlockHandle,
}

fn region(section: Section) -> Result<BlockHandle, Error>
    ensures { result ≡ spec.region_result section }
{
    match u32::try_from(section.len) {
        Ok(size) => Ok(BlockHandle::new(BlockOffset(section.position), size)),
        Err(_) => Err(Error::SectionTooLarge),
    }
}

fn optional_region(section: Option<Section>) -> Result<Option<BlockHandle>, Error>
    ensures { result ≡ spec.optional_result section }
{
    match section {
        None => Ok(None),
        Some(section) => Ok(Some(region(section)?)),
    }
}

fn needed_region(section: Option<Section>) -> Result<BlockHandle, Error>
    ensures { result ≡ spec.needed_result section }
{
    match section {
        None => Err(Error::MissingSection),
        Some(section) => region(section),
    }
}

impl ParsedRegions {
    /// Returns the handles of the sections that a trailer lists.
    ///
    /// # Errors
    ///
    /// The first fault, in this order: filter top level, index top level, index partitions, filter,
    /// meta block.
    ///
    /// - [`Error::MissingSection`] if the index top level or the meta block is missing.
    /// - [`Error::SectionTooLarge`] if a section has 2^32 bytes or more.
    #[tactic(auto, unfolding(crate::specs::point::Regions::regions_result))]
    pub fn parse_from_toc(toc: &Toc) -> Result<ParsedRegions, Error>
        ensures { result ≡ spec.regions_result toc.now }
    {
        let filter_tli = optional_region(toc.section(SectionName::FilterTli))?;
        let tli = needed_region(toc.section(SectionName::Tli))?;
        let index = optional_region(toc.section(SectionName::Index))?;
        let filter = optional_region(toc.section(SectionName::Filter))?;
        let metadata = needed_region(toc.section(SectionName::Meta))?;
        Ok(ParsedRegions {
            tli,
            index,
            filter_tli,
            filter,
            metadata,
        })
    }
}
