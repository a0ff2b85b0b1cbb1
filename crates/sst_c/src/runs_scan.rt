//! Scans of several runs: the newest version of each key, borrowed from the tables.
ghost use Rattle.std.specs.Prelude.{◌≡◌, None, OnErr, Option, Some, is_some, true};
ghost use Rattle.sst_c.specs.Words as spec;

use crate::merged::give_up;
use lsm_runs::LentNewestOfRunsAt;
use sst_blocks::{EntryRef, Error, Lending};
use std::alloc::Global;
use std::marker::Model;

/// A stream of the newest versions visible at a snapshot of several runs, borrowed one by one.
pub(crate) type LentAt = LentNewestOfRunsAt<Global>;

/// The newest versions visible at a snapshot of several runs, borrowed from the tables one by one.
///
/// It can be advanced any number of times, also after the end. Contracts see the stream.
#[derive(Drop)]
pub struct RunsScan {
    newest: LentAt,
}

impl Model for RunsScan {
    ghost use Rattle.sst_entries.specs.Stream.{CanYield, nowhere};
    ghost use Rattle.sst_c.specs.Newest.{LentNewestAt};

    ghost Value = { LentNewestAt };

    ghost view = { λ s. s.newest };

    ghost invariant = { λ s. CanYield ⟦<LentAt as Lending>⟧.advances nowhere
        ⟦<LentAt as Lending>⟧.can_advance
        ⟦<LentAt as Lending>⟧.can_advance s.newest };
}

impl RunsScan {
    /// Wraps a stream that can be advanced any number of times.
    pub(crate) fn new(newest: LentAt) -> RunsScan
        requires { spec.CanYield ⟦<LentAt as Lending>⟧.advances spec.nowhere
            ⟦<LentAt as Lending>⟧.can_advance
            ⟦<LentAt as Lending>⟧.can_advance newest }
        ensures { result ≡ newest }
    {
        RunsScan { newest }
    }

    // Advances to the next entry.
    fn advance(&mut self) -> Result<bool, Error>
        ensures goes { let advances = ⟦<LentAt as Lending>⟧.advances in
            advances self.old (spec.came result (spec.newest_lent self.new)) self.new }
        ensures err { OnErr result (spec.newest_lent self.new ≡ None) }
    {
        advance(&mut self.newest)
    }

    fn entry(&self) -> Option<EntryRef<'_>>
        ensures { spec.option_map spec.entry_of_ref result ≡ spec.newest_lent self.now }
    {
        self.newest.entry()
    }
}

// A step of a lending iterator. It is generic in the source: a proof about a call on the concrete
// stream costs much.
#[tactic(auto, using(crate::proofs::Asking::asking))]
fn advance<L: Lending>(source: &mut L) -> Result<bool, Error>
    requires { spec.CanYield L.advances spec.nowhere L.can_advance L.can_advance source.old }
    ensures can { spec.CanYield L.advances spec.nowhere L.can_advance L.can_advance source.new }
    ensures goes { L.advances source.old (spec.came result (L.lent source.new)) source.new }
    ensures err { OnErr result (L.lent source.new ≡ None) }
{
    source.advance()
}

/// Returns the entry that a scan of several runs borrows, unless a read failed before.
pub(crate) fn lent_by(scan: &Option<RunsScan>) -> Option<EntryRef<'_>>
    ensures { spec.option_map spec.entry_of_ref result ≡ spec.option_and_then spec.newest_lent
        scan.now }
{
    match scan {
        Some(scan) => scan.entry(),
        None => None,
    }
}

/// Steps a scan of several runs, unless a read failed before.
///
/// Returns 0 or an error code.
pub(crate) fn step_runs(scan: &mut Option<RunsScan>) -> u32
    ensures over { scan.old ≡ None → (result ≡ 0) × (scan.new ≡ None) }
    ensures steps { (s : spec.LentNewestAt) → scan.old ≡ Some s →
        spec.StepsAs ⟦<LentAt as Lending>⟧.advances s result
        (spec.option_and_then spec.newest_lent scan.new) scan.new }
    ensures fine { is_some (spec.option_and_then spec.newest_lent scan.new) ≡ true → result ≡ 0 }
{
    let Some(source) = scan else {
        return 0;
    };
    match source.advance() {
        Ok(_) => 0,
        Err(error) => {
            give_up(scan);
            u32::from(error.number())
        }
    }
}
