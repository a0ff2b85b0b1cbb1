//! The tables of a run as the parts of an iteration, each opened by the step that first needs it.
//! Also spans of runs, and bounds that own their keys.
#![tactic(auto)]

mod bounds;
mod spans;
mod unopened;

pub use bounds::share;
pub use spans::{ends_in, place_behind, places_within};
pub use unopened::Unopened;
