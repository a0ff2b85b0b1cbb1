//! Bloom filters over the keys of a table.
mod bit_array;
mod builder;
mod policy;

pub use bit_array::contains_hash;
pub use builder::Builder;
pub use policy::{BloomConstructionPolicy, filter_bound};
