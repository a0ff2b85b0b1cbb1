//! Sizes as lines with bars.
use crate::show::facts::{NamedPlace, Place};
use std::fmt;
use std::io::{self, Write};

// the longest bar
const BAR: &str = "########################################";

/// Writes a line for each section: its name, offset, length, share of the file, and a bar of that
/// share.
pub(crate) fn print_sections<W: Write>(
    output: &mut W,
    sections: &[NamedPlace],
    all: u64,
) -> io::Result<()> {
    for section in sections {
        let (name, extent) = (section.name, Extent::of(section.place, all));
        writeln!(output, "  {name:<13}{extent}")?;
    }
    Ok(())
}

/// Writes a line for each data block: its index, offset, length, share and bar. More than 32 blocks
/// are grouped into at most 32 lines.
pub(crate) fn print_blocks<W: Write>(output: &mut W, blocks: &[Place], all: u64) -> io::Result<()> {
    let each = blocks.len().div_ceil(32).max(1);
    let mut first = 0usize;
    while first < blocks.len() {
        let end = first + each.min(blocks.len() - first);
        let extent = Extent::of(together(&blocks[first..end]), all);
        writeln!(output, "  {first:<13}{extent}")?;
        first = end;
    }
    Ok(())
}

// Returns the range of adjacent blocks.
fn together(blocks: &[Place]) -> Place {
    let mut size = 0u64;
    for block in blocks {
        size = size.saturating_add(block.size);
    }
    Place {
        offset: blocks.first().map_or(0, |block| block.offset),
        size,
    }
}

// A range, and its share of the file in thousandths.
#[derive(Clone, Copy)]
struct Extent {
    place: Place,
    share: u64,
}

impl Extent {
    fn of(place: Place, all: u64) -> Extent {
        let share = place.size.saturating_mul(1000).checked_div(all);
        Extent {
            place,
            share: share.unwrap_or(0).min(1000),
        }
    }
}

// In columns, with a bar of the share.
impl fmt::Display for Extent {
    fn fmt<W: fmt::Write>(&self, f: &mut fmt::Formatter<W>) -> fmt::Result {
        let (offset, size) = (self.place.offset, self.place.size);
        let (percent, tenths) = (self.share / 10, self.share % 10);
        write!(f, "{offset:>12} {size:>12} {percent:>4}.{tenths} %")?;
        match BAR.get(..usize::try_from(self.share / 25).unwrap_or(0)) {
            Some(bar) if !bar.is_empty() => write!(f, "  {bar}"),
            _ => Ok(()),
        }
    }
}
