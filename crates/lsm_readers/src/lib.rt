//! Reading one sorted table: opening, point reads, scans, ranges and verification.
#![tactic(auto)]

mod batch;
mod inner;
mod keeping;
mod many;
mod meta;
mod order;
mod pinned;
mod point;
mod recover;
mod regions;
mod scanner;
mod table;
mod verify;

pub use inner::{Inner, PinnedBlocks};
pub use many::{Query, many_in, many_places_in};
pub use meta::{ParsedMeta, load_item};
pub use pinned::{PinnedBlockIndex, load_handles};
pub use point::{place_in, point_in};
pub use recover::recover_in;
pub use regions::ParsedRegions;
pub use scanner::Scanner;
pub use table::{Table, TableInner, Verification, get_many, get_many_places};
pub use verify::{Fault, Finding, Verified, VerifyError};
