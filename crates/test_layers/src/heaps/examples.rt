//! Worked examples, and the first of some that fails.

use std::alloc::Global;
use test_support::{Refusing, each_refused};

pub(crate) trait Example {
    /// Whether all results are as expected.
    fn is_so(&self, alloc: Global) -> bool;
}

/// The index of the first of some examples that fails.
pub(crate) fn first_wrong<E: Example>(alloc: Global, examples: &[E]) -> Option<usize> {
    for place in 0..examples.len() {
        if !examples[place].is_so(alloc) {
            return Some(place);
        }
    }
    None
}

/// A test in which a request for memory may fail.
pub(crate) trait Refused {
    /// Whether the results are as expected, with a request that fails or with none.
    fn answers(&self, memory: &Refusing, fails: bool) -> bool;
}

/// The number of requests for memory of a test, if it passes with each of them failing in turn.
pub(crate) fn requests<R: Refused>(alloc: Global, refused: &R) -> Result<usize, usize> {
    each_refused(alloc, |memory, fails| refused.answers(memory, fails))
}
