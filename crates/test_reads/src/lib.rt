//! Tests of tables and of runs of tables, in one crate because they share their data. No other
//! crate uses this one.
#![tactic(auto)]

#[cfg(test)]
mod memory;
#[cfg(test)]
mod runs;
#[cfg(test)]
mod tables;
