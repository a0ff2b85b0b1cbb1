//! Double-ended priority queues: an interval heap and pairs of tournaments.
pub(crate) mod ends;
mod interval_heap;
mod lazy_tournament;
mod order;
mod tournament;
pub(crate) mod words;

pub use ends::Ends;
pub use interval_heap::IntervalHeap;
pub use lazy_tournament::LazyTournament;
pub use tournament::Tournament;
pub use words::compare_refs;
