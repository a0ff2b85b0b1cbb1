//! Scanning a whole table in its file, block by block.
ghost use Rattle.std.specs.Prelude.{◌≡◌, ◌<◌, ◌-◌, ◌↔◌, ℕ, [], Bool, List, Ok, None, is_some};
ghost use Rattle.std.specs.Prelude.{length, Err, IfErr, IfOk, IsTrue, OnErr, OnOk};
ghost use Rattle.lsm_files.specs.Words as spec;

use crate::ahead::Ahead;
use crate::{FileError, FileTable, ReadAt};
use lsm_iters::lift_seqno;
use sst_blocks::{BlockType, DataBlock, DataBlockCursor, EntryRef, Opened, SeqNo};
use std::alloc::{Allocator, Global};
use std::marker::Model;
use std::mem;

/// A pass over all entries of a table in its file, block by block in file order.
///
/// It reads 256 KiB of neighbouring blocks at once, or one larger block. A block that begins there
/// and does not end there is read again with the next ones. [`FileScanner::entry`] borrows each entry
/// from its block. After any error the scanner is exhausted.
#[derive(Drop)]
pub struct FileScanner<'a, R: ReadAt, A: Allocator = Global> {
    blocks: Ahead<'a, R, A>,
    block: DataBlockCursor<A>,
    // The offset of the next block.
    position: u64,
    blocks_left: u64,
    global_seqno: SeqNo,
    opened: Opened,
}

impl<'a, R: ReadAt, A: Allocator> Model for FileScanner<'a, R, A> {
    ghost use Rattle.std.specs.Prelude.{◌+◌, ◌<◌, ◌^◌, MatchOption};
    ghost use Rattle.std.specs.Option.{option_map};
    ghost use Rattle.sst_blocks.specs.Sections.{body_of};
    ghost use Rattle.lsm_readers.specs.point.Answer.{lifted};
    ghost use Rattle.lsm_readers.specs.Scan.{Scan};

    ghost Value = { Scan };

    ghost view = { λ s. record {
      body = body_of s.blocks;
      lent = option_map (lifted s.global_seqno) s.block.lent;
      entries = s.block.behind;
      position = s.position;
      blocks = s.blocks_left;
      global_seqno = s.global_seqno;
      opened = s.opened;
    } };

    // The seqno of the current entry fits in `u64` with the global seqno applied.
    ghost invariant = { λ s. MatchOption s.block.lent (Unit {0})
        (λ e. e.seqno + s.global_seqno < 2 ^ 64) };
}

/// The data block at an offset, and the offset of the next block.
fn block_at<R: ReadAt, A: Allocator + Clone>(
    blocks: &mut Ahead<'_, R, A>,
    position: u64,
    opened: &mut Opened,
) -> Result<(DataBlock<A>, u64), FileError>
    ensures returned { spec.AreKnown R.reads →
        spec.FileGives R.reads (λ (x : List spec.Entry × ℕ). x) result
        (spec.block_result (spec.body_of blocks.old) position) }
    ensures bytes { blocks.new ≡ blocks.old }
    ensures counted { opened.new ≡ spec.with_load spec.Data opened.old }
{
    opened.count(BlockType::Data);
    let (block, next) = blocks.load_at(position, BlockType::Data)?;
    Ok((DataBlock::new(block), next))
}

impl<R: ReadAt + Drop, A: Allocator + Clone> FileTable<R, A> {
    /// Opens a scanner of all entries in order, global seqno applied.
    ///
    /// The call reads the first data blocks.
    ///
    /// # Errors
    ///
    /// The first fault of loading the first block, [`Error::OutOfMemory`], or [`FileError::Io`] if
    /// the read fails.
    ///
    /// [`Error::OutOfMemory`]: sst_blocks::Error::OutOfMemory
    pub fn scan(&self) -> Result<FileScanner<'_, R, A>, FileError>
        ensures refused { spec.AreKnown R.reads → spec.FileFaults R.reads result
            (spec.fault_of (spec.load_at_result (spec.body_of self.now.bytes) 0 spec.Data)) }
        // It yields what a scan of the table in memory yields.
        ensures left { spec.AreKnown R.reads → IfOk result (λ s. spec.scan_left s ≡
            spec.scan_results (spec.body_of self.now.bytes) self.now.parts.facts.data_block_count
            self.now.global_seqno) }
        // On bytes that store a list it yields the list, global seqno applied.
        ensures list { spec.OnStoredList R.reads self.now.bytes (λ es. 0 < length es →
            IfOk result (λ s. spec.scan_left s ≡
            spec.ok_results (spec.lift es self.now.global_seqno))) }
        ensures opened { IfOk result (λ s. s.opened ≡ spec.with_load spec.Data spec.none_opened) }
    {
        let mut blocks = Ahead::new(&self.file, &self.alloc, self.body_len);
        let mut opened = Opened::none();
        let (block, position) = block_at(&mut blocks, 0, &mut opened)?;
        Ok(FileScanner {
            blocks,
            block: block.into_cursor(),
            position,
            blocks_left: self.inner.metadata.data_block_count.saturating_sub(1),
            global_seqno: self.inner.global_seqno,
            opened,
        })
    }
}

impl<R: ReadAt, A: Allocator + Clone> FileScanner<'_, R, A> {
    /// Returns how many blocks of each kind were loaded.
    pub fn opened(&self) -> Opened
        ensures { result ≡ self.now.opened }
    {
        self.opened
    }

    /// Advances to the next entry and returns whether there is one.
    ///
    /// # Errors
    ///
    /// The first fault of the next block, [`Error::SeqNoOverflow`] if a seqno plus the global seqno
    /// exceeds `u64::MAX`, [`Error::OutOfMemory`], or [`FileError::Io`] if a read fails.
    ///
    /// [`Error::SeqNoOverflow`]: sst_blocks::Error::SeqNoOverflow
    /// [`Error::OutOfMemory`]: sst_blocks::Error::OutOfMemory
    pub fn advance(&mut self) -> Result<bool, FileError>
        ensures returned { spec.AreKnown R.reads →
            spec.FileGives R.reads (λ (_ : Bool). self.new.lent) result
            (spec.next_of (spec.scan_left self.old)) }
        ensures left { spec.AreKnown R.reads →
            OnOk result (spec.scan_left self.new ≡ spec.rest_of (spec.scan_left self.old)) }
        // It loads the blocks up to the next entry.
        ensures counted { spec.AreKnown R.reads → OnOk result
            (self.new.opened ≡ spec.loads (spec.loads_of self.old) self.old.opened) }
        // A step that fails loads at most these blocks. If it needs none, its error is that of the
        // next entry.
        ensures begun { spec.AreKnown R.reads → OnErr result (spec.LoadsUpTo self.old self.new) }
        ensures calm { spec.AreKnown R.reads → spec.loads_of self.old ≡ 0 → IfErr result
            (λ e. spec.table_error (spec.next_of (spec.scan_left self.old)) ≡ Err e) }
        ensures more { IfOk result (λ more. more ≡ is_some self.new.lent) }
        ensures ended { OnErr result (spec.IsEndedScan self.new) }
        ensures none { OnErr result (self.new.lent ≡ None) }
    {
        loop {
            if self.next_entry()? {
                return Ok(true);
            }
            if !self.has_block() {
                return Ok(false);
            }
            self.next_block()?;
        }
    }

    /// Returns the current entry, global seqno applied.
    ///
    /// It returns `None` before the first [`FileScanner::advance`], after the last entry and after
    /// an error.
    pub fn entry(&self) -> Option<EntryRef<'_>>
        ensures { spec.option_map spec.entry_of_ref result ≡ self.now.lent }
    {
        match self.block.entry() {
            None => None,
            Some(entry) => Some(EntryRef {
                seqno: entry.seqno + self.global_seqno,
                ..entry
            }),
        }
    }

    fn has_block(&self) -> bool
        ensures { IsTrue result ↔ (0 < self.now.blocks) }
    {
        self.blocks_left > 0
    }

    /// Drops the current entry and all that is left.
    fn end(&mut self)
        ensures { self.new ≡ spec.ended self.old }
    {
        self.block.end();
        self.blocks_left = 0;
    }

    /// Advances to the next entry of the current block, and returns whether there was one. A seqno
    /// that exceeds `u64::MAX` is an error, which ends the scan.
    fn next_entry(&mut self) -> Result<bool, FileError>
        ensures { (result, self.new) ≡ spec.in_file (spec.lend_next self.old self.old.entries) }
    {
        self.block.advance();
        let Some(entry) = self.block.entry() else {
            return Ok(false);
        };
        match lift_seqno(entry.seqno, self.global_seqno) {
            Ok(_) => Ok(true),
            Err(error) => {
                self.block.end();
                self.blocks_left = 0;
                Err(FileError::Table(error))
            }
        }
    }

    /// Loads the next block. An error ends the scan.
    fn next_block(&mut self) -> Result<(), FileError>
        requires { 0 < self.old.blocks }
        ensures returned { spec.AreKnown R.reads →
            spec.FileGives R.reads (λ (_ : _). (self.new.entries, self.new.position)) result
            (spec.block_result self.old.body self.old.position) }
        ensures ok { OnOk result (self.new ≡ record self.old {
          lent = None;
          entries = self.new.entries;
          position = self.new.position;
          blocks = self.old.blocks - 1;
          opened = spec.with_load spec.Data self.old.opened;
        }) }
        ensures err { OnErr result (self.new ≡ record (spec.ended self.old)
            { opened = spec.with_load spec.Data self.old.opened }) }
    {
        match block_at(&mut self.blocks, self.position, &mut self.opened) {
            Ok((block, position)) => {
                drop(mem::replace(&mut self.block, block.into_cursor()));
                self.position = position;
                self.blocks_left -= 1;
                Ok(())
            }
            Err(error) => {
                self.end();
                Err(error)
            }
        }
    }
}
