//! Iterations from both ends, compared by one number per item: the sequence number of an entry, or
//! the block offset of a handle.

use sst_blocks::Direction::{Back, Front};
use sst_blocks::{Direction, Error, SeqNo};

/// The number for the end of an iteration.
pub(crate) const NONE: u64 = 99;

// The number for `OutOfMemory`; any other error has another one.
const NO_MEMORY: u64 = 98;

const FAULT: u64 = 97;

/// A bound that a seek sets: at the front or at the back, with the key or without it.
#[derive(Clone, Copy)]
pub(crate) enum Edge {
    AtLeast,
    Above,
    AtMost,
    Below,
}

/// A seek: an edge, a key, a sequence number, and whether an entry remains.
pub(crate) type Seek = (Edge, &'static [u8], SeqNo, bool);

/// The seeks of an iteration, and then ends and the numbers of the items there.
pub(crate) type Walked = (&'static [Seek], &'static [(Direction, u64)]);

/// An iterator with two ends.
pub(crate) trait Walk {
    /// Seeks, and returns whether an entry remains.
    fn narrow(&mut self, edge: Edge, key: &[u8], seqno: SeqNo) -> bool;

    /// The number of the next item at an end.
    fn give(&mut self, end: Direction) -> u64;
}

/// The number for an error.
pub(crate) fn refusal(error: Error) -> u64 {
    match error {
        Error::OutOfMemory => NO_MEMORY,
        _ => FAULT,
    }
}

/// Whether seeks return what they should, and the iterator then yields items with these numbers. An
/// error may end it early, if one may occur; nothing follows the error.
pub(crate) fn walks_so<W: Walk>(
    walk: &mut W,
    seeks: &[Seek],
    given: &[(Direction, u64)],
    may_fail: bool,
) -> bool {
    for &(edge, key, seqno, left) in seeks {
        if walk.narrow(edge, key, seqno) != left {
            return false;
        }
    }
    for &(end, wanted) in given {
        let number = walk.give(end);
        if number == NO_MEMORY {
            return may_fail && walk.give(Front) == NONE && walk.give(Back) == NONE;
        }
        if number != wanted {
            return false;
        }
    }
    true
}
