//! Encoding, reads and loads, with each request for memory failing in turn.

use crate::blocks::{data_blocks, index_blocks, loads};
use sst_blocks::BlockType;
use std::alloc::Global;
use test_support::each_refused;

// The tables of cases: data blocks, index blocks and loads; and the number of cases of each.
const TABLES: &[(BlockType, usize)] = &[
    (BlockType::Data, data_blocks::CASES),
    (BlockType::Index, index_blocks::CASES),
    (BlockType::Meta, loads::CASES),
];

// The number of requests for memory that the case at an index of a table makes. Each of them fails
// in turn.
fn requests(alloc: Global, table: BlockType, place: usize) -> Result<usize, usize> {
    each_refused(alloc, move |heap, may_fail| match table {
        BlockType::Data => data_blocks::is_so_at(heap, place, may_fail),
        BlockType::Index => index_blocks::is_so_at(heap, place, may_fail),
        _ => loads::is_so_at(heap, place, may_fail),
    })
}

#[test]
fn blocks_are_written_and_read_with_each_request_refused(rt: HostRuntime) {
    for &(table, cases) in TABLES {
        for place in 0..cases {
            assert!(rt; requests(rt.alloc(), table, place).is_ok(), "{place}");
        }
    }
}
