//! Shared by tests of streams: lists as lending iterators, lists that look random, and comparisons
//! of lending iterators with those by value.
mod agreeing;
mod entries;
mod lists;

pub use agreeing::{agree, go_on};
pub use entries::{entry_of, random};
pub use lists::{LentList, lent_list};
