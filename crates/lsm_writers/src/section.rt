//! Writers of the index and filter sections of a table, full or partitioned.
mod block;
mod build;
mod filter_either;
mod filter_full;
mod filter_partitioned;
mod filter_writer;
mod index_either;
mod index_full;
mod index_partitioned;
mod index_writer;
mod kept;
mod key_buffer;

pub use filter_either::FilterWriterImpl;
pub use filter_full::FullFilterWriter;
pub use filter_partitioned::PartitionedFilterWriter;
pub use filter_writer::{
    FilterWriter, options_set_before_keys, registered_keys_are_admitted, small_partitions_fit,
};
pub use index_either::IndexWriterImpl;
pub use index_full::FullIndexWriter;
pub use index_partitioned::PartitionedIndexWriter;
pub use index_writer::BlockIndexWriter;
pub use key_buffer::KeyBuffer;
