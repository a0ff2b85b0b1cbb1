//! Tables: writing, opening, reading from both ends, scanning and verifying; their block indexes.
//!
//! [`Bound`] is what an iterator over a table keeps of a bound. Signatures with `Bound<UserKey<A>>`
//! or `Bound<&[u8]>` mean `std::ops::Bound`.

pub use crate::written::write_and_open;
pub use lsm_files::{FileBlocks, FileError, FileScanner, FileTable, ReadAt};
pub use lsm_iters::{
    BlockIndex, BlockIndexImpl, BlockIndexIter, BlockIndexIterImpl, Bound, FullBlockIndex, Iter,
    OwnedDataBlockIter, OwnedIndexBlockIter, TwoLevelBlockIndex, VolatileBlockIndex,
};
pub use lsm_readers::{
    Fault, Finding, Inner, ParsedMeta, ParsedRegions, Query, Scanner, Table, TableInner,
    Verification, Verified, VerifyError, get_many, point_in,
};
pub use lsm_runs::OpenOptions;
pub use lsm_writers::{
    BloomConstructionPolicy, FilterKind, FinishedTable, IndexKind, Metadata, MultiWriter, Options,
    TableIds, TableStream, TableStreamError, Writer, is_writable, write_list,
};
pub use sst_blocks::{CompressionType, TableId, Timestamp};
