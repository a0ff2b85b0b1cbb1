//! The command line of the program `sst`: its parser, help, completion and manual, all made from
//! the same texts.
#![tactic(auto)]

mod command;
mod completion;
mod manual;
mod read;
mod tasks;
mod texts;
mod words;

pub use tasks::{
    CompactTask, DumpTask, GetTask, PackTask, StatTask, TableArguments, Task, VerifyTask, WriteTask,
};
pub use words::{Parsed, parse};
