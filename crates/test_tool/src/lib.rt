//! Tests of the tool: scripts, lines, the command line, and files that are written, compacted and
//! read back.
#![tactic(auto)]

#[cfg(test)]
mod files;
#[cfg(test)]
mod lines;
#[cfg(test)]
mod options;
#[cfg(test)]
mod scripts;
