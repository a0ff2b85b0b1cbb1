//! Opening tables with named options.
ghost use Rattle.std.specs.Prelude.{◌≡◌, IfOk, List};
ghost use Rattle.lsm_readers.specs.Words as table;
ghost use Rattle.lsm_runs.specs.compaction.Words as spec;

use lsm_readers::Table;
use lsm_writers::FinishedTable;
use sst_blocks::{Checksum, Error, SeqNo, Slice, TreeId};
use std::alloc::Allocator;

/// Options for opening tables; by default global seqno 0, tree 0, filter and index pinned.
#[derive(Clone, Copy, Debug, PartialEq, Eq)]
pub struct OpenOptions {
    /// The sequence number that is added to every stored one, for a table that is ingested from
    /// elsewhere; 0 for a store's own.
    pub global_seqno: SeqNo,
    /// The id of the tree that the table belongs to.
    pub tree_id: TreeId,
    /// Whether the one block of a full filter is pinned.
    pub pin_filter: bool,
    /// Whether the block of a full index is pinned.
    pub pin_index: bool,
}

impl Default for OpenOptions {
    ghost use Rattle.std.specs.Prelude.{◌≡◌};
    ghost use Rattle.lsm_runs.specs.compaction.OpenedBy.{default_opening};

    /// Returns the options without a global seqno, for tree 0, with both filter and index pinned.
    fn default() -> OpenOptions
        ensures { result ≡ default_opening }
    {
        OpenOptions {
            global_seqno: 0,
            tree_id: 0,
            pin_filter: true,
            pin_index: true,
        }
    }
}

impl OpenOptions {
    /// Opens a table from the bytes of its file.
    ///
    /// This is [`Table::recover`] with named options. `checksum` is stored, and is not compared
    /// with the bytes.
    ///
    /// # Errors
    ///
    /// Those of [`Table::recover`].
    ///
    /// # Examples
    ///
    /// ```
    /// // Bytes that are shorter than a trailer are no table.
    /// let short = OpenOptions::default().open_bytes(
    ///     rt.alloc(),
    ///     Slice::from_static(b"sst"),
    ///     Checksum(0),
    /// );
    /// assert!(rt; matches!(short, Err(Error::InvalidTrailer)));
    /// ```
    pub fn open_bytes<A: Allocator + Clone>(
        &self,
        alloc: A,
        bytes: Slice<A>,
        checksum: Checksum,
    ) -> Result<Table<A>, Error>
        ensures returned { spec.Gives (λ (t : spec.OpenTable). t.parts) result
            (spec.recovered_result bytes self.now.global_seqno self.now.pin_filter
            self.now.pin_index) }
        // A fault that is found before any allocation takes precedence over `OutOfMemory`.
        ensures early { table.FaultsFirst result (table.early_fault bytes) }
        // A table written from a list, with an index restart interval of 1, opens if the highest
        // seqno fits. Its parts match the list.
        ensures list { (es : List spec.Entry) (t : table.IsTable bytes es) →
            t.options.index_block_restart_interval ≡ 1 →
            spec.Gives (λ (t : spec.OpenTable). t.parts) result (spec.list_opened t self.now) }
        // Bytes that store a list, whoever wrote them, open if the highest seqno fits.
        ensures stores { (es : List spec.Entry) → spec.StoresList bytes es →
            spec.Gives (λ (t : spec.OpenTable). tt) result
            (table.fits_result es self.now.global_seqno) }
        ensures bytes { IfOk result (λ t. t.bytes ≡ bytes) }
        ensures number { IfOk result (λ t. t.global_seqno ≡ self.now.global_seqno) }
        ensures tree { IfOk result (λ t. t.tree_id ≡ self.now.tree_id) }
        ensures checksum { IfOk result (λ t. t.checksum ≡ checksum.0) }
    {
        Table::recover(
            alloc,
            bytes,
            checksum,
            self.global_seqno,
            self.tree_id,
            self.pin_filter,
            self.pin_index,
        )
    }

    /// Opens a finished table and shares its bytes; the finished table is not changed.
    ///
    /// # Errors
    ///
    /// Those of [`Table::recover`] of the bytes. For a table that was written from a list these are
    /// only:
    ///
    /// - [`Error::UnsupportedIndexInterval`] if its index has a restart interval other than 1;
    /// - [`Error::GlobalSeqNoTooLarge`] if the highest seqno plus the global one passes `u64`;
    /// - [`Error::OutOfMemory`].
    ///
    /// # Examples
    ///
    /// ```
    /// OpenOptions::default().open(alloc, &written)
    /// // ..
    /// let table = open_table(rt.alloc(), written)?;
    /// ```
    pub fn open<A: Allocator + Clone>(
        &self,
        alloc: A,
        table: &FinishedTable<A>,
    ) -> Result<Table<A>, Error>
        ensures returned { spec.Gives (λ (t : spec.OpenTable). t.parts) result
            (spec.recovered_result table.now.bytes self.now.global_seqno self.now.pin_filter
            self.now.pin_index) }
        // It has the bytes and the checksum, and was opened with these options.
        ensures opened { IfOk result (spec.IsOpenedBy self.now table.now) }
        // A table that was written from a list stores it, so the contracts of reads hold.
        ensures stored { spec.OnTable table.now (λ _ es.
            IfOk result (λ t. spec.StoresList t.bytes es)) }
        ensures refused { spec.OnTable table.now (λ options es.
            spec.Faults result (spec.opens_fault options es self.now.global_seqno)) }
    {
        let bytes = table.bytes.clone()?;
        // Its length is that of a slice.
        let _len = bytes.len();
        let opened = self.open_bytes(alloc, bytes, table.checksum)?;
        // It is open.
        opened.tells_its_list();
        Ok(opened)
    }
}

// Opens finished tables, which are not changed.
pub(crate) fn open_all<A: Allocator + Clone>(
    alloc: A,
    tables: &[FinishedTable<A>],
    how: &OpenOptions,
) -> Result<Vec<Table<A>, A>, Error>
    ensures opened { IfOk result (λ v. spec.AreOpenedBy how.now tables.now v.items) }
    ensures refused { (options : spec.Options) → spec.OnFinished options tables.now (λ _ lists.
        spec.Faults result (spec.opens_fault options (spec.joined lists) how.now.global_seqno)) }
{
    let how = *how;
    let mut opened = Vec::new(alloc.clone()?);
    for table in tables {
        opened.push(how.open(alloc.clone()?, table)?)?;
    }
    Ok(opened)
}
