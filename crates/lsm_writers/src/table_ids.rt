//! A counter of table ids.
ghost use Rattle.std.specs.Prelude.{◌≡◌, Some};
ghost use Rattle.lsm_writers.specs.Words as spec;

use crate::TableId;
use std::marker::Model;

/// A counter of table ids from a first one up to `u64::MAX`.
///
/// Contracts see the next id, or `None` if no id is left.
#[derive(Clone, Copy, Debug, PartialEq, Eq)]
pub struct TableIds {
    next: Option<TableId>,
}

impl Model for TableIds {
    ghost use Rattle.std.specs.Prelude.{ℕ, Option};

    ghost Value = { Option ℕ };

    ghost view = { λ t. t.next };

    ghost inverse = { λ n. record { next = n } };
}

impl TableIds {
    /// Returns a counter whose next id is `first`.
    pub fn new(first: TableId) -> TableIds
        ensures { result ≡ Some first }
    {
        TableIds { next: Some(first) }
    }

    /// Draws and returns the next id, or returns `None` once `u64::MAX` was drawn.
    pub fn next(&mut self) -> Option<TableId>
        ensures id { result ≡ self.old }
        ensures left { self.new ≡ spec.drawn self.old }
    {
        let id = self.next?;
        self.next = id.checked_add(1);
        Some(id)
    }
}
