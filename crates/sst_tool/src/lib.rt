//! The tool for table files: entries as lines of text, files, what is printed, and what is made.
#![tactic(auto)]

pub mod files;
pub mod lines;
pub mod make;
pub mod show;
