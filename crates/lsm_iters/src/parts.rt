//! The trait for parts that are loaded from both ends.
ghost use Rattle.std.specs.Prelude.{Option, Result};
ghost use Rattle.lsm_iters.specs.Words as spec;

use crate::Ends;
use sst_entries::{Direction, Error};

/// A sequence of parts; each is loaded once, from either end.
pub trait Parts {
    type Part: Ends;

    // The parts that are not loaded yet.
    ghost coming: { Self → spec.Coming Self.Part.Item };

    // The state that a load keeps, by the part it loads, and the state that ending keeps.
    ghost keeps: { Self → Option (Result (spec.Loading Self.Part.Item) spec.Error) → Self →
        Type 0 };

    ghost ends: { Self → Self → Type 0 };

    /// Loads the next part at an end.
    fn load(&mut self, at: Direction) -> Option<Result<Self::Part, Error>>
        ensures { spec.LoadGives Self.Part.left coming keeps at self.old result self.new };

    /// Drops the parts that are not loaded yet.
    fn end(&mut self)
        ensures done { spec.IsDone (coming self.new) }
        ensures kept { ends self.old self.new };
}
