//! A table that stays in its file.
ghost use Rattle.std.specs.Prelude.{◌≡◌, ◌-◌, [], List, Option, Ok, IfErr, IfOk, IsOk, length};
ghost use Rattle.lsm_files.specs.Words as spec;

use crate::tail::read_toc;
use crate::{FileBlocks, FileError, ReadAt};
use lsm_readers::{Inner, point_in, recover_in};
use sst_blocks::{Builder, Checksum, InternalValue, Opened, SeqNo, Toc, TreeId};
use std::alloc::{Allocator, Global};
use std::marker::Model;
use std::ops::Deref;

/// An open table that stays in its file.
///
/// [`FileTable::open`] reads the trailer, the meta block and the blocks to pin. Each later call
/// reads the blocks that it needs. It dereferences to [`Inner`], whose fields have the table's id,
/// metadata and sections. Contracts see the table that [`Table::recover`] opens from the
/// same bytes, where these are known.
///
/// [`Table::recover`]: lsm_readers::Table::recover
#[derive(Drop)]
pub struct FileTable<R: ReadAt, A: Allocator = Global> {
    pub(crate) file: R,
    pub(crate) alloc: A,
    // The number of bytes before the trailer.
    pub(crate) body_len: u64,
    pub(crate) inner: Inner<A>,
}

impl<R: ReadAt, A: Allocator> Model for FileTable<R, A> {
    ghost use Rattle.std.specs.Prelude.{◌≡◌, length};
    ghost use Rattle.sst_blocks.specs.Sections.{body_of};
    ghost use Rattle.lsm_readers.specs.point.Table.{IsRecovered, OpenTable, table_of};
    ghost use Rattle.lsm_files.specs.Reads.{AreKnown};

    ghost Value = { OpenTable };

    ghost view = { λ t. table_of (R.bytes t.file) t.inner };

    ghost invariant = { λ t. AreKnown R.reads →
        (t.body_len ≡ length (body_of (R.bytes t.file))) ×
        IsRecovered (table_of (R.bytes t.file) t.inner) };
}

impl<R: ReadAt, A: Allocator> Deref for FileTable<R, A> {
    ghost use Rattle.std.specs.Prelude.{◌≡◌};
    ghost use Rattle.lsm_readers.specs.point.Table.{table_of};

    type Target = Inner<A>;

    // The bytes and the inner state make up the table.
    ghost deref_gives = { λ t inner. table_of t.bytes inner ≡ t };

    fn deref(&self) -> &Inner<A> {
        &self.inner
    }
}

impl<R: ReadAt + Drop, A: Allocator + Clone> FileTable<R, A> {
    /// Opens a table in its file, with the arguments of [`Table::recover`].
    ///
    /// It reads the trailer, the meta block and the blocks to pin, whatever the file's size. The
    /// checksum is stored, and compared with nothing.
    ///
    /// # Errors
    ///
    /// Fails with [`FileError::Io`] if a read fails. The other errors are those of
    /// [`Table::recover`], in the same order, but [`Error::OutOfMemory`] can hide any of them.
    ///
    /// [`Table::recover`]: lsm_readers::Table::recover
    /// [`Error::OutOfMemory`]: sst_blocks::Error::OutOfMemory
    pub fn open(
        alloc: A,
        file: R,
        checksum: Checksum,
        global_seqno: SeqNo,
        tree_id: TreeId,
        pin_filter: bool,
        pin_index: bool,
    ) -> Result<FileTable<R, A>, FileError>
        ensures returned { spec.AreKnown R.reads →
            spec.FileGives R.reads (λ (t : spec.OpenTable). t.parts) result
            (spec.recovered_result (R.bytes file) global_seqno pin_filter pin_index) }
        // Bytes that store a list open if the highest seqno fits with the global one added.
        ensures stores { spec.OnStoredList R.reads (R.bytes file) (λ es.
            spec.FileGives R.reads (λ (t : spec.OpenTable). tt) result
            (spec.fits_result es global_seqno)) }
        ensures bytes { IfOk result (λ t. t.bytes ≡ R.bytes file) }
        ensures number { IfOk result (λ t. t.global_seqno ≡ global_seqno) }
        ensures tree { IfOk result (λ t. t.tree_id ≡ tree_id) }
        ensures checksum { IfOk result (λ t. t.checksum ≡ checksum.0) }
    {
        let (toc, body_len) = read_toc(&file)?;
        let inner = read_inner(
            &file,
            &alloc,
            (&toc, body_len),
            checksum,
            global_seqno,
            tree_id,
            (pin_filter, pin_index),
        )?;
        Ok(FileTable {
            file,
            alloc,
            body_len,
            inner,
        })
    }

    /// Returns the newest version of `key` visible at `seqno`, and the number of blocks loaded by
    /// kind.
    ///
    /// The version and the errors are those of [`FileTable::get`].
    pub fn get_counted(
        &self,
        key: &[u8],
        seqno: SeqNo,
        key_hash: u64,
    ) -> (Result<Option<InternalValue<A>>, FileError>, Opened)
        requires { key_hash ≡ spec.hash_of key.now }
        ensures returned { spec.AreKnown R.reads →
            spec.FileGives R.reads (λ (found : Option spec.Entry). found) result.0
            (spec.table_answer self.now key.now seqno).returned }
        // If no block is loaded, the read does not fail.
        ensures calm { spec.AreKnown R.reads →
            (spec.table_answer self.now key.now seqno).loads ≡ [] → IsOk result.0 }
        // It makes the loads of that read, or a part of them if a read of the file fails or memory
        // runs out.
        ensures opened { let loads = (spec.table_answer self.now key.now seqno).loads in
            spec.AreKnown R.reads →
            spec.Opens (spec.failure_as_memory result.0) loads spec.none_opened result.1 }
        ensures few { spec.AreKnown R.reads →
            spec.LoadsFew self.now.parts spec.none_opened result.1 }
        // On bytes that store a list it is the newest visible version in the list, global seqno
        // applied.
        ensures list { spec.AreKnown R.reads →
            spec.FileFindsInList R.reads self.now key.now seqno result.0 }
    {
        let mut source = FileBlocks::new(&self.file, &self.alloc, self.body_len);
        let found = point_in(&mut source, &self.inner, key, seqno, key_hash);
        let opened = source.opened();
        (source.result(found), opened)
    }

    /// Returns the newest version of `key` visible at `seqno`, global seqno applied.
    ///
    /// `key_hash` must be [`FileTable::key_hash`] of the key. The call reads at most one filter
    /// block, one index block and one data block.
    ///
    /// # Errors
    ///
    /// Fails with [`FileError::Io`] if a read fails. The other errors are those of [`Table::get`],
    /// but [`Error::OutOfMemory`] can hide any of them.
    ///
    /// [`Table::get`]: lsm_readers::Table::get
    /// [`Error::OutOfMemory`]: sst_blocks::Error::OutOfMemory
    pub fn get(
        &self,
        key: &[u8],
        seqno: SeqNo,
        key_hash: u64,
    ) -> Result<Option<InternalValue<A>>, FileError>
        requires { key_hash ≡ spec.hash_of key.now }
        ensures returned { spec.AreKnown R.reads →
            spec.FileGives R.reads (λ (found : Option spec.Entry). found) result
            (spec.table_answer self.now key.now seqno).returned }
        ensures calm { spec.AreKnown R.reads →
            (spec.table_answer self.now key.now seqno).loads ≡ [] → IsOk result }
        ensures list { spec.AreKnown R.reads →
            spec.FileFindsInList R.reads self.now key.now seqno result }
    {
        self.get_counted(key, seqno, key_hash).0
    }

    /// Returns the hash of a key, which point reads take as `key_hash`.
    pub fn key_hash(key: &[u8]) -> u64
        ensures { result ≡ spec.hash_of key.now }
    {
        Builder::<A>::get_hash(key)
    }
}

/// Reads the state of a table whose table of contents was read.
fn read_inner<R: ReadAt, A: Allocator + Clone>(
    file: &R,
    alloc: &A,
    toc: (&Toc, u64),
    checksum: Checksum,
    global_seqno: SeqNo,
    tree_id: TreeId,
    pins: (bool, bool),
) -> Result<Inner<A>, FileError>
    requires { spec.AreKnown R.reads → spec.IsTocOf (R.bytes file.now) toc.0.now toc.1 }
    ensures returned { spec.AreKnown R.reads → spec.FileGives R.reads spec.parts_of result
        (spec.parts_result (R.bytes file.now) global_seqno pins.0 pins.1) }
    ensures number { IfOk result (λ inner. inner.global_seqno ≡ global_seqno) }
    ensures tree { IfOk result (λ inner. inner.tree_id ≡ tree_id) }
    ensures checksum { IfOk result (λ inner. inner.checksum ≡ checksum) }
{
    let mut source = FileBlocks::new(file, alloc, toc.1);
    let inner = recover_in(
        &mut source,
        toc.0,
        checksum,
        global_seqno,
        tree_id,
        pins.0,
        pins.1,
    );
    source.result(inner)
}
