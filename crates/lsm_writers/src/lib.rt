//! Writers of sorted tables: they take entries in strict order and return the bytes of tables.
#![tactic(auto)]

mod list;
mod multi_writer;
mod section;
mod table_ids;
mod table_stream;
mod writer;

pub use list::{is_writable, write_list};
pub use multi_writer::{MultiWriter, tables_law, taking_law};
pub use section::{
    BlockIndexWriter, FilterWriter, FilterWriterImpl, FullFilterWriter, FullIndexWriter,
    IndexWriterImpl, KeyBuffer, PartitionedFilterWriter, PartitionedIndexWriter,
    options_set_before_keys, registered_keys_are_admitted, small_partitions_fit,
};
pub use sst_blocks::{
    BloomConstructionPolicy, FilterKind, GlobalTableId, IndexKind, Label, Options, TableId,
    Timestamp, TreeId,
};
pub use table_ids::TableIds;
pub use table_stream::{TableStream, TableStreamError};
pub use writer::meta::Metadata;
pub use writer::{FinishedTable, Writer};
