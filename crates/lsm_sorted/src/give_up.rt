//! Dropping an entry.
use sst_entries::InternalValue;
use std::alloc::Allocator;

// Not inlined: a variable in which an entry may be dropped is moved in many small pieces. This
// costs each entry that passes through it more than a call.
#[inline(never)]
pub(crate) fn give_up<A: Allocator>(item: InternalValue<A>) {
    let _ = item;
}
