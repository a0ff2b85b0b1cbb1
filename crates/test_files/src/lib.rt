//! Tests of tables that stay in their files. No other crate uses this one.
#![tactic(auto)]

#[cfg(test)]
mod failures;
#[cfg(test)]
mod given;
#[cfg(test)]
mod many;
#[cfg(test)]
mod scans;
#[cfg(test)]
mod system;
#[cfg(test)]
mod tables;
