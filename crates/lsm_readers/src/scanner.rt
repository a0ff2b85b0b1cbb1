//! Scanning a whole table, block by block.
ghost use Rattle.std.specs.Prelude.{◌≡◌, ◌<◌, ◌-◌, ◌↔◌, ℕ, [], Bool, List, None, Some, Ok};
ghost use Rattle.std.specs.Prelude.{Err, true, is_some, IsTrue, IfOk, IfErr};
ghost use Rattle.lsm_readers.specs.Words as spec;
ghost use Rattle.sst_entries.specs.declared.error.Error.TheVariants.{OutOfMemory};

use lsm_iters::{beside, lift_seqno};
use sst_blocks::{
    BlockSource, BlockType, CompressionType, DataBlock, DataBlockCursor, EntryRef, Error, Header,
    IterItem, Lending, Opened, SeqNo,
};
use std::alloc::{Allocator, Global};
use std::marker::Model;
use std::mem;

/// An iterator over all entries of a table, which reads each data block once, in file order.
///
/// As an iterator it yields entries that share the table's bytes. As a [`Lending`] it borrows them
/// from the loaded block. [`Scanner::new`] loads the first block. A later block is loaded by the
/// first step that needs it.
///
/// If a block cannot be loaded, the iterator yields that error. It yields [`Error::SeqNoOverflow`]
/// if a seqno plus the global seqno exceeds `u64::MAX`. After any error, [`Error::OutOfMemory`]
/// included, it is exhausted.
///
/// Two kinds of errors take precedence over `OutOfMemory`:
///
/// - The seqno overflow of the next entry in a loaded block.
/// - A wrong header, checksum or count in the first block that a step loads.
#[derive(Drop)]
pub struct Scanner<A: Allocator = Global> {
    source: BlockSource<A>,
    block: DataBlockCursor<A>,
    // The offset of the next block.
    position: u64,
    blocks_left: u64,
    global_seqno: SeqNo,
    opened: Opened,
}

impl<A: Allocator> Model for Scanner<A> {
    ghost use Rattle.std.specs.Prelude.{◌+◌, ◌<◌, ◌^◌, MatchOption};
    ghost use Rattle.std.specs.Option.{option_map};
    ghost use Rattle.sst_blocks.specs.Sections.{body_of};
    ghost use Rattle.lsm_readers.specs.point.Answer.{lifted};
    ghost use Rattle.lsm_readers.specs.Scan.{Scan};

    ghost Value = { Scan };

    ghost view = { λ s. record {
      body = body_of s.source;
      lent = option_map (lifted s.global_seqno) s.block.lent;
      entries = s.block.behind;
      position = s.position;
      blocks = s.blocks_left;
      global_seqno = s.global_seqno;
      opened = s.opened;
    } };

    // The seqno of the current entry fits in `u64` with the global seqno applied.
    ghost invariant = { λ s. MatchOption s.block.lent (Unit {0})
        (λ e. e.seqno + s.global_seqno < 2 ^ 64) };
}

/// The data block at an offset, and the offset of the next block. Fails as [`BlockSource::load_at`]
/// does.
fn block_at<A: Allocator + Clone>(
    source: &BlockSource<A>,
    position: u64,
    opened: &mut Opened,
) -> Result<(DataBlock<A>, u64), Error>
    ensures returned { let block = spec.block_result (spec.body_of source.now) position in
        spec.Gives (λ (x : List spec.Entry × ℕ). x) result block }
    ensures early { spec.FaultsFirst result
        (spec.position_fault (spec.body_of source.now) position spec.Data) }
    ensures counted { opened.new ≡ spec.with_load spec.Data opened.old }
{
    // The next blocks are needed soon. Comparing their checksums with this one's costs little more.
    source.compare_ahead(position, 4);
    let block = source.load_at(position, BlockType::Data, opened)?;
    let next = position + Header::serialized_len() as u64 + block.size() as u64;
    Ok((DataBlock::new(block), next))
}

impl<A: Allocator + Clone> Scanner<A> {
    /// Opens a scanner of `block_count` data blocks and loads the first of them.
    ///
    /// A `block_count` of 0 acts as 1.
    ///
    /// # Errors
    ///
    /// The first fault of loading that block, or [`Error::OutOfMemory`].
    pub fn new(
        source: &BlockSource<A>,
        block_count: u64,
        compression: CompressionType,
        global_seqno: SeqNo,
    ) -> Result<Scanner<A>, Error>
        ensures refused { spec.Faults result
            (spec.fault_of (spec.load_at_result (spec.body_of source.now) 0 spec.Data)) }
        // A fault of the block's header, checksum or count takes precedence over `OutOfMemory`.
        ensures early { spec.FaultsFirst result
            (spec.position_fault (spec.body_of source.now) 0 spec.Data) }
        ensures opened { IfOk result (λ s. s.opened ≡ spec.with_load spec.Data spec.none_opened) }
        ensures left { IfOk result
            (spec.IsNewScan (spec.body_of source.now) block_count global_seqno) }
        // Except for `OutOfMemory`, it yields the entries of the blocks.
        ensures yields { spec.ScanYields ⟦<Scanner<A> as Iterator>⟧.next_gives (spec.scan_results
            (spec.body_of source.now) block_count global_seqno) result }
        ensures can { let gives = ⟦<Scanner<A> as Iterator>⟧.next_gives in
            let may = ⟦<Scanner<A> as Iterator>⟧.can_next in
            IfOk result (λ s. spec.CanYield gives spec.nowhere may may s) }
        // After any error it is exhausted.
        ensures ends { spec.EndsAtErrors ⟦<Scanner<A> as Iterator>⟧.next_gives }
        // As a lending iterator it yields the same.
        ensures lends { spec.ScanYields ⟦<Scanner<A> as Lending>⟧.advances (spec.scan_results
            (spec.body_of source.now) block_count global_seqno) result }
        ensures can_lend { let advances = ⟦<Scanner<A> as Lending>⟧.advances in
            let may = ⟦<Scanner<A> as Lending>⟧.can_advance in
            IfOk result (λ s. spec.CanYield advances spec.nowhere may may s) }
        ensures lends_end { spec.EndsAtErrors ⟦<Scanner<A> as Lending>⟧.advances }
    {
        match compression {
            CompressionType::None => {}
        }
        let mut opened = Opened::none();
        let (block, position) = block_at(source, 0, &mut opened)?;
        let (block, source) = beside(block, source.clone())?;
        Ok(Scanner {
            source,
            block: block.into_cursor(),
            position,
            blocks_left: block_count.saturating_sub(1),
            global_seqno,
            opened,
        })
    }

    /// Returns how many blocks of each kind were loaded.
    pub fn opened(&self) -> Opened
        ensures { result ≡ self.now.opened }
    {
        self.opened
    }

    fn has_block(&self) -> bool
        ensures { IsTrue result ↔ (0 < self.now.blocks) }
    {
        self.blocks_left > 0
    }

    /// Drops the current entry and all that is left.
    fn end(&mut self)
        ensures { self.new ≡ spec.ended self.old }
    {
        self.block.end();
        self.blocks_left = 0;
    }

    /// Advances to the next entry of the current block, and returns whether there was one. A seqno
    /// that exceeds `u64::MAX` is an error, which ends the scan.
    #[inline]
    fn next_entry(&mut self) -> Result<bool, Error>
        ensures { (result, self.new) ≡ spec.lend_next self.old self.old.entries }
    {
        self.block.advance();
        let Some(entry) = self.block.entry() else {
            return Ok(false);
        };
        match lift_seqno(entry.seqno, self.global_seqno) {
            Ok(_) => Ok(true),
            Err(error) => {
                self.block.end();
                self.blocks_left = 0;
                Err(error)
            }
        }
    }

    /// Loads the next block. An error ends the scan.
    fn next_block(&mut self) -> Result<(), Error>
        requires { 0 < self.old.blocks }
        ensures ok { IfOk result (λ _. spec.OpensNextBlock self.old self.new) }
        ensures err { IfErr result (λ e.
            self.new ≡ record (spec.ended self.old)
            { opened = spec.with_load spec.Data self.old.opened }) }
        ensures refused { spec.Faults result
            (spec.fault_of (spec.block_result self.old.body self.old.position)) }
        ensures early { spec.FaultsFirst result
            (spec.position_fault self.old.body self.old.position spec.Data) }
    {
        match block_at(&self.source, self.position, &mut self.opened) {
            Ok((block, position)) => {
                drop(mem::replace(&mut self.block, block.into_cursor()));
                self.position = position;
                self.blocks_left -= 1;
                Ok(())
            }
            Err(error) => {
                self.end();
                Err(error)
            }
        }
    }

    /// Returns the current entry, whose key and value share the table's bytes.
    ///
    /// An entry must be current, as after an `advance` that returned `true`.
    ///
    /// # Errors
    ///
    /// [`Error::OutOfMemory`] only. The scanner is exhausted after it.
    #[inline]
    pub fn share(&mut self) -> IterItem<A>
        requires { is_some self.old.lent ≡ true }
        ensures ok { IfOk result (λ e. (self.old.lent ≡ Some e) × (self.new ≡ self.old)) }
        ensures err { IfErr result (λ e. (e ≡ OutOfMemory) × (self.new ≡ spec.ended self.old)) }
    {
        match self.block.share() {
            Ok(mut item) => {
                item.key.seqno += self.global_seqno;
                Ok(item)
            }
            Err(error) => {
                self.end();
                Err(error)
            }
        }
    }
}

impl<A: Allocator + Clone> Lending for Scanner<A> {
    ghost can_advance = { λ _. Unit {0} };

    ghost advances = { spec.ScansLent };

    ghost lent = { λ s. s.lent };

    ghost left = { spec.scan_size };

    #[inline]
    fn advance(&mut self) -> Result<bool, Error> {
        loop {
            if self.next_entry()? {
                return Ok(true);
            }
            if !self.has_block() {
                return Ok(false);
            }
            self.next_block()?;
        }
    }

    #[inline]
    fn entry(&self) -> Option<EntryRef<'_>> {
        match self.block.entry() {
            None => None,
            Some(entry) => Some(EntryRef {
                seqno: entry.seqno + self.global_seqno,
                ..entry
            }),
        }
    }
}

impl<A: Allocator + Clone> Iterator for Scanner<A> {
    type Item = IterItem<A>;

    ghost can_next = { λ _. Unit {0} };

    ghost next_gives = { spec.ScansNext };

    ghost remaining = { λ s. spec.at_most (spec.scan_size s) };

    // Always inlined: a call that returns an entry by value costs more than the step.
    #[inline(always)]
    fn next(&mut self) -> Option<IterItem<A>> {
        match self.advance() {
            Ok(true) => Some(self.share()),
            Ok(false) => None,
            Err(error) => Some(Err(error)),
        }
    }
}
