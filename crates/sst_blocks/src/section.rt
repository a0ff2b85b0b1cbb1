//! The sections of a table's bytes, and the trailer with their positions.
ghost use Rattle.std.specs.Prelude.{◌≡◌, ◌++◌, ◌∷◌, [], ℕ, ◌<◌, ◌^◌, length, IfOk, IfErr, OnOk};
ghost use Rattle.std.specs.Prelude.{OnErr, All};
ghost use Rattle.sst_blocks.specs.Words as spec;

use crate::Checksum;
use crate::fnv::{Fnv1a, update_both};
use crate::number::put_u64;
use sst_entries::{Error, Slice};
use std::alloc::{Allocator, Global};
use std::marker::Model;

/// A section of a table's bytes.
#[derive(Clone, Copy, Debug, PartialEq, Eq)]
pub enum SectionName {
    /// The data blocks.
    Data,
    /// The partitions of a partitioned index.
    Index,
    /// The top level of the index, or the whole index if it is not partitioned.
    Tli,
    /// The full filter, or the partitions of a partitioned one.
    Filter,
    /// The top level of a partitioned filter.
    FilterTli,
    /// The version of the table, in one byte.
    TableVersion,
    /// The meta block.
    Meta,
}

impl SectionName {
    /// Returns the section's index in the trailer, from 0 to 6.
    pub fn place(self) -> usize
        ensures { result ≡ spec.slot_index self }
    {
        self as usize
    }
}

/// The position and the length of a section, both in bytes.
#[derive(Clone, Copy, Debug, PartialEq, Eq)]
pub struct Section {
    /// The position of the first byte.
    pub position: u64,
    /// The number of bytes.
    pub len: u64,
}

/// The names in the order of the trailer.
const NAMES: [SectionName; 7] = [
    SectionName::Data,
    SectionName::Index,
    SectionName::Tli,
    SectionName::Filter,
    SectionName::FilterTli,
    SectionName::TableVersion,
    SectionName::Meta,
];

/// The magic number at the end of a trailer.
pub const TRAILER_MARK: [u8; 8] = *b"LSMTSEC1";

/// The length of a trailer in bytes: seven slots of sixteen, and the magic number.
pub const TRAILER_LEN: usize = 120;

/// A writer of a table's sections, one after another, and of the trailer after them.
#[derive(Drop)]
pub struct SectionWriter<A: Allocator = Global> {
    bytes: Vec<u8, A>,
    started: Vec<(SectionName, u64), A>,
    // The running checksum lags: the bytes of a block are hashed in the loop that hashes the next
    // payload, at no extra cost.
    hash: Fnv1a,
    hashed: usize,
}

impl<A: Allocator> Model for SectionWriter<A> {
    ghost use Rattle.std.specs.Prelude.{◌≡◌, ◌≤◌, length, take, vec_len};
    ghost use Rattle.sst_blocks.specs.Fnv.{fnv1a};
    ghost use Rattle.sst_blocks.specs.Sections.{AreAscending, Written};

    ghost Value = { Written };

    ghost view = { λ w. record { bytes = w.bytes.items; started = w.started.items } };

    ghost invariant = { λ w. (w.hashed ≤ vec_len w.bytes)
        × (w.hash.0 ≡ fnv1a (take w.hashed w.bytes.items))
        × AreAscending (length w.bytes.items) w.started.items };
}

impl<A: Allocator + Clone> SectionWriter<A> {
    /// Creates a writer without bytes and sections.
    ///
    /// # Errors
    ///
    /// Fails only with [`Error::OutOfMemory`], if the allocator does not clone.
    pub fn new(alloc: A) -> Result<SectionWriter<A>, Error>
        ensures ok { IfOk result (λ w. w ≡ record { bytes = []; started = [] }) }
        ensures err { IfErr result (λ e. e ≡ spec.OutOfMemory) }
    {
        let started = Vec::new(alloc.clone()?);
        Ok(SectionWriter {
            bytes: Vec::new(alloc),
            started,
            hash: Fnv1a::new(),
            hashed: 0,
        })
    }

    /// Starts a section at the current position.
    ///
    /// No section of that name may have been started.
    ///
    /// # Errors
    ///
    /// Fails only with [`Error::OutOfMemory`]; the writer is then unchanged.
    #[tactic(auto, using(crate::proofs::SectionLaws::ascending_start))]
    pub fn start(&mut self, name: SectionName) -> Result<(), Error>
        requires { All (λ s. spec.slot_index s.0 ≡ spec.slot_index name → ⊥) self.old.started }
        ensures ok { let started = self.old.started ++ (name, length self.old.bytes) ∷ [] in
            OnOk result (self.new ≡ record self.old { started = started }) }
        ensures unchanged { OnErr result (self.new ≡ self.old) }
        ensures err { IfErr result (λ e. e ≡ spec.OutOfMemory) }
    {
        let position = self.position();
        self.started.push((name, position))?;
        Ok(())
    }

    /// Appends bytes.
    ///
    /// # Errors
    ///
    /// Fails only with [`Error::OutOfMemory`]; the writer is then unchanged.
    pub fn append(&mut self, bytes: &[u8]) -> Result<(), Error>
        ensures ok { let longer = self.old.bytes ++ bytes.now in
            OnOk result (self.new ≡ record self.old { bytes = longer }) }
        ensures unchanged { OnErr result (self.new ≡ self.old) }
        ensures err { IfErr result (λ e. e ≡ spec.OutOfMemory) }
    {
        self.bytes.extend_from_slice(bytes)?;
        Ok(())
    }

    /// Returns the number of bytes written.
    pub fn position(&self) -> u64
        ensures { result ≡ length self.now.bytes }
    {
        self.bytes.len() as u64
    }

    /// Writes the trailer, and returns all bytes with their checksum.
    ///
    /// # Errors
    ///
    /// Fails only with [`Error::OutOfMemory`].
    pub fn finish(self) -> Result<(Slice<A>, Checksum), Error>
        ensures bytes { IfOk result (λ x. x.0 ≡ spec.finished self) }
        ensures checksum { IfOk result (λ x. x.1.0 ≡ spec.fnv1a (spec.finished self)) }
        ensures reads { IfOk result (λ x. spec.ReadsBack self x.0) }
        ensures err { IfErr result (λ e. e ≡ spec.OutOfMemory) }
    {
        let mut bytes = self.bytes;
        let mut hash = self.hash;
        let end = bytes.len() as u64;
        put_trailer(&mut bytes, end, &self.started)?;
        hash.update(&bytes[self.hashed..]);
        let checksum = Checksum(u128::from(hash.finish()));
        Ok((Slice::from_vec(bytes)?, checksum))
    }

    /// Appends two runs of bytes, one after the other.
    ///
    /// # Errors
    ///
    /// Fails only with [`Error::OutOfMemory`]; the writer is then unchanged.
    pub fn append_both(&mut self, front: &[u8], back: &[u8]) -> Result<(), Error>
        ensures ok { let bytes = self.old.bytes ++ front.now ++ back.now in
            OnOk result (self.new ≡ record self.old { bytes = bytes }) }
        ensures unchanged { OnErr result (self.new ≡ self.old) }
        ensures err { IfErr result (λ e. e ≡ spec.OutOfMemory) }
    {
        self.bytes.reserve(front.len() + back.len())?;
        self.bytes.extend_from_slice(front)?;
        self.bytes.extend_from_slice(back)?;
        Ok(())
    }

    /// Returns the FNV-1a checksum of some bytes, which it does not write.
    ///
    /// The running checksum of the table catches up in the same loop.
    pub fn checksum_of(&mut self, bytes: &[u8]) -> u64
        ensures value { result ≡ spec.fnv1a bytes.now }
        ensures unchanged { self.new ≡ self.old }
    {
        let mut checksum = Fnv1a::new();
        update_both(
            &mut self.hash,
            &self.bytes[self.hashed..],
            &mut checksum,
            bytes,
        );
        self.hashed = self.bytes.len();
        checksum.finish()
    }
}

/// States that the sections a writer started are read back from the bytes it finished.
///
/// This is a lemma for proofs; the call has no effect.
pub fn finished_sections_read()
    ensures { (w : spec.Written) → spec.AreAscending (length w.bytes) w.started →
        length w.bytes < 2 ^ 64 → spec.ReadsBack w (spec.finished w) }
{}

/// Returns a section among those that were started; the last one ends at `end`.
fn section_of(end: u64, started: &[(SectionName, u64)], name: SectionName) -> Option<Section>
    ensures { result ≡ spec.section_of end started.now name }
{
    for (i, (begun, position)) in started.iter().enumerate() {
        if begun.place() == name.place() {
            let next = if i + 1 < started.len() {
                started[i + 1].1
            } else {
                end
            };
            return Some(Section {
                position: *position,
                // Sections start in ascending order, so this does not saturate.
                len: next.saturating_sub(*position),
            });
        }
    }
    None
}

/// Appends the slot of a section.
fn put_slot<A: Allocator>(bytes: &mut Vec<u8, A>, section: Option<Section>) -> Result<(), Error>
    ensures ok { OnOk result (bytes.new.items ≡ bytes.old.items ++ spec.slot section) }
    ensures err { IfErr result (λ e. e ≡ spec.OutOfMemory) }
{
    match section {
        None => bytes.extend_from_slice(&[0xff; 16])?,
        Some(section) => {
            put_u64(bytes, section.position)?;
            put_u64(bytes, section.len)?;
        }
    }
    Ok(())
}

/// Appends the trailer of a body of `end` bytes.
fn put_trailer<A: Allocator>(
    bytes: &mut Vec<u8, A>,
    end: u64,
    started: &[(SectionName, u64)],
) -> Result<(), Error>
    ensures ok { OnOk result (bytes.new.items ≡ bytes.old.items ++
        (spec.flat_map (λ name. spec.slot (spec.section_of end started.now name)) spec.section_names
        ++ spec.trailer_mark)) }
    ensures err { IfErr result (λ e. e ≡ spec.OutOfMemory) }
{
    for name in NAMES {
        put_slot(bytes, section_of(end, started, name))?;
    }
    bytes.extend_from_slice(&TRAILER_MARK)?;
    Ok(())
}
