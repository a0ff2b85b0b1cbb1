//! Observing the progress of a compaction.
ghost use Rattle.std.specs.Prelude.{◌≡◌, Bool, true};
ghost use Rattle.lsm_runs.specs.compaction.Words as spec;

/// The progress of a compaction at the end of a table that another one follows.
///
/// A count that would pass `u64::MAX` stays there.
#[derive(Clone, Copy, Debug, PartialEq, Eq)]
pub struct CompactionProgress {
    /// The number of finished tables.
    pub tables: u64,
    /// The number of entries in these tables.
    pub entries: u64,
}

/// An observer of a compaction, which may stop it between two tables.
pub trait CompactionObserver {
    // One call: the observer before it, the progress, whether to go on, and the observer after it.
    ghost says: { Self → spec.CompactionProgress → Bool → Self → Type 0 };

    /// Is called when a table is finished and another one begins; returns whether to go on.
    fn goes_on(&mut self, progress: CompactionProgress) -> bool
        ensures { says self.old progress result self.new };
}

/// The observer that never stops a compaction.
#[derive(Clone, Copy, Debug)]
pub struct NoObserver;

impl CompactionObserver for NoObserver {
    ghost says = { λ o progress goes q. goes ≡ true };

    fn goes_on(&mut self, _progress: CompactionProgress) -> bool {
        true
    }
}
