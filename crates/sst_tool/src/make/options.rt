//! The options of new tables, and of writing.
ghost use Rattle.std.specs.Prelude.{◌≡◌, ◌↔◌, ◌≤◌, IfErr, IfOk, OnOk};
ghost use Rattle.sst_tool.specs.make.Words as spec;

use crate::files::{ToolError, largest_table};
use crate::lines::Format;
use lsm_writers::{BloomConstructionPolicy, IndexKind, MultiWriter, Options, TableIds};
use sst_blocks::{Error, Timestamp};
use std::alloc::Allocator;

// The largest size of a block and of a partition, in bytes.
const LARGEST: u32 = 4_194_304;

/// The options of new tables.
#[derive(Clone, Copy, Debug, PartialEq, Eq)]
pub struct TableOptions {
    /// The kind of the index, with the target size of its partitions in bytes.
    pub index: IndexKind,
    /// The bits of the filter for each key: 0 for no filter.
    pub filter: BloomConstructionPolicy,
    /// Target size of a data block in bytes of keys and values.
    pub block_size: u32,
    /// The level of the tables.
    pub level: u8,
    /// Target size of a table in bytes of data blocks. Without it there is one table.
    pub target: Option<u64>,
    /// The creation time of the tables.
    pub created_at: Timestamp,
}

/// The options of writing entries.
#[derive(Clone, Copy, Debug, PartialEq, Eq)]
pub struct WriteOptions {
    /// The options of the tables.
    pub tables: TableOptions,
    /// The format of the lines.
    pub format: Format,
    /// Whether the entries are sorted first.
    pub sort: bool,
}

// Returns the target size of the index partitions, or 0 without partitions.
fn partition_size(index: IndexKind) -> u32
    ensures { result ≤ 4194304 ↔ spec.IsSmallIndex index }
{
    match index {
        IndexKind::Full => 0,
        IndexKind::Partitioned(size) => size,
    }
}

impl TableOptions {
    // Returns the options of the tables' writer.
    fn writer_options(&self) -> Options
        ensures { result ≡ spec.options_of self.now }
    {
        Options {
            data_block_size: self.block_size,
            index_kind: self.index,
            bloom_policy: self.filter,
            ..Options::default()
        }
    }

    /// Tests the sizes of blocks and partitions.
    ///
    /// # Errors
    ///
    /// Fails exactly if one is above 4 MiB.
    pub(crate) fn check_sizes(&self) -> Result<(), ToolError<'static>>
        ensures ok { OnOk result (spec.HasSmallSizes self.now) }
        ensures large { IfErr result (λ e. (e ≡ spec.SizeTooLarge)
            × ¬ spec.HasSmallSizes self.now) }
    {
        if self.block_size > LARGEST || partition_size(self.index) > LARGEST {
            return Err(ToolError::SizeTooLarge);
        }
        Ok(())
    }

    /// Returns a writer of such tables, with ids from 1.
    ///
    /// # Errors
    ///
    /// Fails only if memory runs out.
    pub(crate) fn writer<A: Allocator + Copy>(&self, alloc: A) -> Result<MultiWriter<A>, Error>
        requires { spec.HasSmallSizes self.now }
        ensures ok { IfOk result (λ w. w ≡ spec.writer_by self.now) }
        ensures err { IfErr result (λ e. e ≡ spec.OutOfMemory) }
    {
        let (ids, target) = (TableIds::new(1), largest_table(self.target));
        let writer = MultiWriter::new(alloc, ids, target, self.level, self.created_at)?;
        Ok(writer.use_options(self.writer_options()))
    }
}

impl WriteOptions {
    /// Returns a writer of the tables.
    ///
    /// # Errors
    ///
    /// Fails if the size of blocks or partitions is above 4 MiB, and with `OutOfMemory`.
    pub(crate) fn writer<A: Allocator + Copy>(
        &self,
        alloc: A,
    ) -> Result<MultiWriter<A>, ToolError<'static>>
        ensures ok { IfOk result (λ w. w ≡ spec.writer_by self.now.tables) }
        ensures small { OnOk result (spec.HasSmallSizes self.now.tables) }
        ensures refused { IfErr result (spec.TellsSizes self.now.tables) }
    {
        self.tables.check_sizes()?;
        Ok(self.tables.writer(alloc)?)
    }
}
