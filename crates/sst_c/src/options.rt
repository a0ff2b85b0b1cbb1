//! The options of a table writer.
ghost use Rattle.std.specs.Prelude.{◌≡◌, ◌<◌, ◌≤◌, None, Some};
ghost use Rattle.sst_c.specs.Words as spec;

use lsm_writers::{BloomConstructionPolicy, FilterKind, IndexKind, Options};

/// The options of a table writer.
#[repr(C)]
#[derive(Clone, Copy)]
pub struct TableOptions {
    /// The id of the table.
    pub id: u64,
    /// The timestamp of creation, in nanoseconds since 1970.
    pub created_at: u64,
    /// The level of the table, at most 255.
    pub level: u32,
    /// Size at which a data block is cut, in bytes of keys and values; at most 4 MiB.
    pub data_block_size: u32,
    /// Restart interval of data blocks, 1 to 255.
    ///
    /// It is stored in the meta block and changes nothing else.
    pub data_block_restart_interval: u32,
    /// Hash ratio of data blocks.
    ///
    /// It is stored in the meta block and changes nothing else.
    pub data_block_hash_ratio: u32,
    /// Size in bytes at which an index partition is cut, at most 4 MiB; 0 for an unpartitioned
    /// index.
    pub index_partition_size: u32,
    /// Size in bytes at which a filter partition is cut, at most 4 MiB; 0 for an unpartitioned
    /// filter.
    pub filter_partition_size: u32,
    /// Bits per key of the filter, in tenths of a bit; 0 for no filter.
    pub filter_bits_per_key: u32,
    /// Unused.
    pub unused: u32,
}

// The largest size of a block or partition in bytes.
const LARGEST: u32 = 4_194_304;

/// Writes the default options to `options`.
#[unsafe(no_mangle)]
pub extern "C" fn sst_options_default(options: &mut TableOptions)
    ensures { options.new ≡ spec.decode_default }
{
    *options = TableOptions {
        id: 0,
        created_at: 0,
        level: 0,
        data_block_size: 4_096,
        data_block_restart_interval: 16,
        data_block_hash_ratio: 0,
        index_partition_size: 0,
        filter_partition_size: 0,
        filter_bits_per_key: 100,
        unused: 0,
    };
}

/// Returns whether each option is in its range.
pub(crate) fn are_usable(options: &TableOptions) -> bool
    ensures { result ≡ spec.are_usable options.now }
{
    options.level < 256
        && options.data_block_size <= LARGEST
        && options.data_block_restart_interval > 0
        && options.data_block_restart_interval < 256
        && options.index_partition_size <= LARGEST
        && options.filter_partition_size <= LARGEST
}

fn index_kind(size: u32) -> IndexKind
    requires { size ≤ 4194304 }
    ensures is { result ≡ spec.decode_index_kind size }
    ensures small { spec.IsSmallIndex result }
{
    if size == 0 {
        IndexKind::Full
    } else {
        IndexKind::Partitioned(size)
    }
}

fn filter_kind(size: u32) -> FilterKind
    requires { size ≤ 4194304 }
    ensures is { result ≡ spec.decode_filter_kind size }
    ensures small { spec.IsSmallFilter result }
{
    if size == 0 {
        FilterKind::Full
    } else {
        FilterKind::Partitioned(size)
    }
}

/// Returns the options of the library's writer.
pub(crate) fn writer_options(options: &TableOptions) -> Options
    requires index { options.now.index_partition_size ≤ 4194304 }
    requires filter { options.now.filter_partition_size ≤ 4194304 }
    requires interval { options.now.data_block_restart_interval < 256 }
    ensures is { result ≡ spec.decode_options options.now }
    ensures small_index { spec.IsSmallIndex result.index_kind }
    ensures small_filter { spec.IsSmallFilter result.filter_kind }
{
    Options {
        data_block_restart_interval: options.data_block_restart_interval as u8,
        index_block_restart_interval: 1,
        data_block_hash_ratio: options.data_block_hash_ratio,
        data_block_size: options.data_block_size,
        index_kind: index_kind(options.index_partition_size),
        filter_kind: filter_kind(options.filter_partition_size),
        bloom_policy: BloomConstructionPolicy::BitsPerKey(options.filter_bits_per_key),
    }
}
