//! Writing sections and building filters, with each request for memory failing in turn.

use crate::sections::{filters, sections};
use test_support::{Refusing, each_refused};

// Whether the stored table is written again and filters are built; or `OutOfMemory`, where it may
// fail.
fn goes_so(heap: &Refusing, may_fail: bool) -> bool {
    sections::is_written_again(heap, may_fail) && filters::are_built(heap, may_fail)
}

#[test]
fn a_stored_table_is_written_again_and_filters_are_built(rt: HostRuntime) {
    assert!(rt; each_refused(rt.alloc(), goes_so).is_ok());
}
