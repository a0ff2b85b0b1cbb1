//! Consecutive blocks of a file, read ahead.
ghost use Rattle.std.specs.Prelude.{◌≡◌, ◌+◌, ◌<◌, ◌≤◌, ◌^◌, ℕ, length, IfErr, IfOk, IfSome, OnOk};
ghost use Rattle.lsm_files.specs.Words as spec;

use crate::read_at::read_slice;
use crate::{FileError, ReadAt};
use sst_blocks::{Block, BlockType, Error, Header, Slice, block_size};
use std::alloc::{Allocator, Global};
use std::marker::Model;

/// How many bytes a read takes, unless a block has more or fewer are left.
const AHEAD: u64 = 262_144;

/// Bytes of a file, and where they start in it.
#[derive(Drop)]
pub(crate) struct Chunk<A: Allocator = Global> {
    bytes: Slice<A>,
    at: u64,
}

/// The blocks of a file, with the last bytes that were read.
#[derive(Drop)]
pub(crate) struct Ahead<'a, R: ReadAt, A: Allocator = Global> {
    file: &'a R,
    alloc: &'a A,
    // The number of bytes before the trailer.
    body_len: u64,
    chunk: Chunk<A>,
}

impl<'a, R: ReadAt, A: Allocator> Model for Ahead<'a, R, A> {
    ghost use Rattle.std.specs.Prelude.{◌≡◌, List, ℕ, length};
    ghost use Rattle.sst_blocks.specs.Sections.{body_of};
    ghost use Rattle.lsm_files.specs.Reads.{AreKnown, IsPartAt};

    // The bytes of the file.
    ghost Value = { List ℕ };

    ghost view = { λ s. R.bytes s.file.now };

    ghost invariant = { λ s. let bytes = R.bytes s.file.now in AreKnown R.reads →
        (s.body_len ≡ length (body_of bytes)) × IsPartAt bytes s.chunk.at s.chunk.bytes };
}

impl<'a, R: ReadAt, A: Allocator + Clone> Ahead<'a, R, A> {
    /// Creates a reader of the blocks in a file whose trailer starts at `body_len`.
    pub(crate) fn new(file: &'a R, alloc: &'a A, body_len: u64) -> Ahead<'a, R, A>
        requires { spec.AreKnown R.reads → body_len ≡ length (spec.body_of (R.bytes file.now)) }
        ensures { result ≡ R.bytes file.now }
    {
        let chunk = Chunk {
            bytes: Slice::empty(),
            at: 0,
        };
        Ahead {
            file,
            alloc,
            body_len,
            chunk,
        }
    }

    /// Loads the block of a kind at a position, with the size that its header stores. Returns also
    /// the position after it.
    ///
    /// # Errors
    ///
    /// Fails as [`BlockSource::load_at`], and if a read fails. `OutOfMemory` can hide any error.
    ///
    /// [`BlockSource::load_at`]: sst_blocks::BlockSource::load_at
    pub(crate) fn load_at(
        &mut self,
        position: u64,
        kind: BlockType,
    ) -> Result<(Block<A>, u64), FileError>
        ensures returned { spec.AreKnown R.reads →
            spec.FileGives R.reads (λ (b : spec.Loaded × ℕ). b.0) result
            (spec.load_at_result (spec.body_of self.old) position kind) }
        ensures next { IfOk result
            (λ b. b.1 ≡ position + spec.header_len + length (b.0).payload) }
        ensures kind { IfOk result (λ b. (b.0).kind ≡ kind) }
        ensures bytes { self.new ≡ self.old }
    {
        let head = self.part(position, Header::serialized_len() as u64)?;
        let size = block_size(head.as_slice(), kind)?;
        let bytes = self.part(position, size)?;
        let block = decoded(self.alloc, kind, bytes)?;
        Ok((block, position + size))
    }

    /// The bytes of the body from a position on, read if they are not there yet.
    fn part(&mut self, position: u64, len: u64) -> Result<Slice<A>, FileError>
        ensures len { IfOk result (λ part. length part ≡ len) }
        ensures within { OnOk result (position + len < 2 ^ 64) }
        ensures part { let body = spec.body_of self.old in
            spec.AreKnown R.reads → IfOk result (spec.IsPartAt body position) }
        ensures fault { let body = spec.body_of self.old in
            spec.AreKnown R.reads →
            IfErr result (spec.IsPartError R.reads (length body) (position + len)) }
        ensures bytes { self.new ≡ self.old }
    {
        if self.body_len < len || self.body_len - len < position {
            return Err(FileError::Table(Error::Truncated));
        }
        if let Some(start) = kept(&self.chunk, position, len) {
            return Ok(self.chunk.bytes.slice(start, start + len as usize)?);
        }
        let size = len.max(AHEAD.min(self.body_len - position));
        let bytes = read_slice(self.file, self.alloc, position, size)?;
        let part = bytes.slice(0, len as usize)?;
        self.chunk = Chunk {
            bytes,
            at: position,
        };
        Ok(part)
    }
}

/// Where some bytes of a file start in those that were read, if all are there.
fn kept<A: Allocator>(chunk: &Chunk<A>, position: u64, len: u64) -> Option<usize>
    ensures within { IfSome result (λ start. start + len ≤ length chunk.now.bytes) }
    ensures at { IfSome result (λ start. chunk.now.at + start ≡ position) }
{
    let start = position.checked_sub(chunk.at)?;
    let left = (chunk.bytes.len() as u64).checked_sub(start)?;
    if left < len {
        return None;
    }
    Some(start as usize)
}

/// Decodes a block from its bytes. Fails as [`Block::decode`].
fn decoded<A: Allocator + Clone>(
    alloc: &A,
    kind: BlockType,
    bytes: Slice<A>,
) -> Result<Block<A>, FileError>
    ensures returned { spec.FileGives spec.whole (λ (b : spec.Loaded). b) result
        (spec.decode_block kind bytes) }
    ensures kind { IfOk result (λ b. b.kind ≡ kind) }
    ensures size { IfOk result (λ b. length b.payload + spec.header_len ≡ length bytes) }
{
    Ok(Block::decode(alloc.clone()?, kind, bytes)?)
}
