//! Code that the tests of several crates share. The library does not use it.
#![tactic(auto)]

mod lent;
mod refusing;
pub mod samples;

pub use lent::{LentList, agree, entry_of, go_on, lent_list, random};
pub use refusing::{Refusing, each_refused};
