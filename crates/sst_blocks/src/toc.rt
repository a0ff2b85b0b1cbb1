//! The table of contents that a trailer stores.
ghost use Rattle.std.specs.Prelude.{◌≡◌, ◌*◌, ◌≤◌, ℕ, List, None, Some, drop, length, map};
ghost use Rattle.std.specs.Prelude.{slice_index_or, IfOk};
ghost use Rattle.sst_blocks.specs.Words as spec;

use crate::number::u64_at;
use crate::section::{TRAILER_LEN, TRAILER_MARK};
use crate::{Section, SectionName};
use sst_entries::Error;
use std::marker::Model;

/// The length of a trailer's seven slots in bytes; the magic number comes after them.
const SLOTS_LEN: usize = TRAILER_LEN - TRAILER_MARK.len();

/// The positions and lengths of a table's sections.
///
/// In contracts it is the list of the sections in the trailer's order.
#[derive(Clone, Copy, Debug)]
pub struct Toc {
    /// The sections in the trailer's order, `None` for those that the table does not have.
    pub sections: [Option<Section>; 7],
}

impl Model for Toc {
    ghost use Rattle.std.specs.Prelude.{◌≡◌, List, Option, length, ℕ};
    ghost use Rattle.sst_blocks.specs.declared.section.Section.{Section};

    ghost Value = { List (Option Section) };

    ghost view = { λ t. t.sections };

    ghost inverse = { λ t. record { sections = t } };
}

impl Toc {
    /// Returns the section of a name, or `None` if the table does not have it.
    pub fn section(&self, name: SectionName) -> Option<Section>
        ensures { result ≡ slice_index_or self.now (spec.slot_index name) None }
    {
        self.sections[name.place()]
    }

    /// Reads the trailer of a table's bytes.
    ///
    /// # Errors
    ///
    /// Fails with [`Error::InvalidTrailer`] if there are fewer than 120 bytes, the magic number
    /// differs, or a section reaches past the body.
    pub fn of(bytes: &[u8]) -> Result<Toc, Error>
        ensures toc { IfOk result
            (λ toc. toc ≡ map (spec.section_in bytes.now) spec.section_names) }
        ensures fault { spec.Refuses result (spec.trailer_fault bytes.now) }
    {
        if bytes.len() < TRAILER_LEN {
            return Err(Error::InvalidTrailer);
        }
        let end = bytes.len() - TRAILER_LEN;
        let (_, trailer) = bytes.split_at(end);
        Toc::of_trailer(trailer, end as u64)
    }

    /// Reads a trailer that follows a body of some length.
    ///
    /// `trailer` is the last 120 bytes of a table, or all of its bytes if there are fewer.
    ///
    /// # Errors
    ///
    /// Fails as [`Toc::of`] on the bytes of the table.
    pub fn of_trailer(trailer: &[u8], body_len: u64) -> Result<Toc, Error>
        ensures toc { (bytes : List ℕ) → spec.trailer_of bytes ≡ trailer.now →
            length (spec.body_of bytes) ≡ body_len →
            IfOk result (λ toc. toc ≡ map (spec.section_in bytes) spec.section_names) }
        ensures fault { (bytes : List ℕ) → spec.trailer_of bytes ≡ trailer.now →
            length (spec.body_of bytes) ≡ body_len →
            spec.Refuses result (spec.trailer_fault bytes) }
    {
        if trailer.len() < TRAILER_LEN {
            return Err(Error::InvalidTrailer);
        }
        if &trailer[SLOTS_LEN..] != TRAILER_MARK.as_slice() {
            return Err(Error::InvalidTrailer);
        }
        let toc = Toc::read(trailer);
        if toc.passes(body_len) {
            return Err(Error::InvalidTrailer);
        }
        Ok(toc)
    }

    /// Reads the seven slots of a trailer.
    fn read(trailer: &[u8]) -> Toc
        requires { spec.slots_len ≤ length trailer.now }
        ensures { result ≡
            map (λ name. spec.section_at (drop (16 * spec.slot_index name) trailer.now))
            spec.section_names }
    {
        Toc {
            sections: [
                section_at(trailer),
                section_at(&trailer[16..]),
                section_at(&trailer[32..]),
                section_at(&trailer[48..]),
                section_at(&trailer[64..]),
                section_at(&trailer[80..]),
                section_at(&trailer[96..]),
            ],
        }
    }

    /// Returns whether a section reaches past a body that ends at `end`.
    fn passes(&self, end: u64) -> bool
        ensures { result ≡ spec.list_any (spec.is_past end) self.now }
    {
        self.sections.iter().any(|section| is_past(end, section))
    }
}

/// Returns the section of a slot, or `None` for sixteen bytes ff.
fn section_at(slot: &[u8]) -> Option<Section>
    requires { 16 ≤ length slot.now }
    ensures { result ≡ spec.section_at slot.now }
{
    if slot[..16] == [0xff; 16] {
        return None;
    }
    Some(Section {
        position: u64_at(slot),
        len: u64_at(&slot[8..]),
    })
}

/// Returns whether a section reaches past a body that ends at `end`, without wrapping.
fn is_past(end: u64, section: &Option<Section>) -> bool
    ensures { result ≡ spec.is_past end section.now }
{
    match section {
        None => false,
        Some(section) => match section.position.checked_add(section.len) {
            None => true,
            Some(section_end) => end < section_end,
        },
    }
}
