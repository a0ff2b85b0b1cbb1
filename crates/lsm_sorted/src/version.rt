//! Runs of tables with ascending ranges, and packing tables into as few runs as possible.
mod optimize;
mod packed;
mod run;

pub use optimize::{optimize_runs, overlap_chain};
pub use packed::{Packed, Placed, pack_each};
pub use run::{Indexed, Ranged, Run};
