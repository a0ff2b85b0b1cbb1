//! Verifying a table step by step.
ghost use Rattle.std.specs.Prelude.{◌≡◌, ◌+◌, IfErr, IfNone, IfOk, IfSome, List, Ok, false, length};
ghost use Rattle.std.specs.Prelude.{true};
ghost use Rattle.lsm_readers.specs.Words as spec;
ghost use Rattle.sst_entries.specs.declared.error.Error.TheVariants as refusal;
ghost use Rattle.lsm_readers.specs.declared.verify.VerifyError.TheVariants.{OutOfMemory};

use crate::verify::{Stage, Unread, step_stage, unread_table};
use crate::{Inner, Table, Verified, VerifyError};
use sst_blocks::Error;
use std::alloc::{Allocator, Global};
use std::marker::Model;

/// A verification of a table in steps, each of which reads one more block.
///
/// [`Table::verification`] starts it. It shares the table, so that other handles may be dropped
/// first. Contracts see the table and the blocks that are left to read.
#[derive(Drop)]
pub struct Verification<A: Allocator = Global> {
    table: Table<A>,
    stage: Stage<A>,
    left: Unread<A>,
}

impl<A: Allocator> Model for Verification<A> {
    ghost use Rattle.lsm_readers.specs.Verification.{IsOfTable, Verifying, ahead_of};

    ghost Value = { Verifying };

    ghost view = { λ v. record {
      table = v.table;
      ahead = ahead_of v.table.parts v.stage;
      left = v.left;
    } };

    // The first fault in the rest is the first fault in the whole table.
    ghost invariant = { λ v. IsOfTable v.table (ahead_of v.table.parts v.stage) v.left };
}

/// A verification of a table that has read nothing yet.
fn begin<A: Allocator + Clone>(table: Table<A>) -> Verification<A>
    ensures { result ≡ spec.verifying table }
{
    let left = table.unread();
    Verification {
        table,
        stage: Stage::start(),
        left,
    }
}

impl<A: Allocator + Clone> Table<A> {
    /// Starts a verification of the table in steps.
    ///
    /// Steps let a caller show progress or stop early. The call reads nothing.
    ///
    /// # Errors
    ///
    /// [`Error::OutOfMemory`] only.
    pub fn verification(&self) -> Result<Verification<A>, Error>
        ensures ok { IfOk result (λ v. v ≡ spec.verifying self.now) }
        ensures err { IfErr result (λ e. e ≡ refusal.OutOfMemory) }
    {
        Ok(begin(self.clone()?))
    }

    /// The counts that are left before the first step.
    fn unread(&self) -> Unread<A>
        ensures { result ≡ (spec.verifying self.now).left }
    {
        let inner: &Inner<A> = &self.inner;
        unread_table(inner)
    }

    /// The counts that the meta block claims.
    fn says(&self) -> Verified
        ensures { result ≡ spec.verified_of self.now.parts.facts }
    {
        let said = &self.inner.metadata;
        Verified {
            data_block_count: said.data_block_count,
            item_count: said.item_count,
        }
    }

    /// The size of the data blocks in bytes, as the meta block claims it.
    fn said_size(&self) -> u64
        ensures { result ≡ self.now.parts.facts.file_size }
    {
        self.inner.metadata.file_size
    }

    /// Reads one more block or, if none is left, checks the end and returns `true`. On `true` and
    /// on an error nothing changes.
    fn read_next(&self, stage: &mut Stage<A>, left: &mut Unread<A>) -> Result<bool, VerifyError>
        ensures open { spec.IsOpen self.now }
        ensures goes { let parts = self.now.parts in IfOk result (λ ends. ends ≡ false →
            spec.GoesOne (spec.body_of self.now.bytes) parts (spec.ahead_of parts stage.old)
            left.old (spec.ahead_of parts stage.new) left.new) }
        ensures ends { let parts = self.now.parts in IfOk result (λ ends. ends ≡ true →
            spec.IsThrough (spec.body_of self.now.bytes) parts (spec.ahead_of parts stage.old)
            left.old) }
        ensures answered { IfOk result (λ ends. ends ≡ true →
            (stage.new ≡ stage.old) × (left.new ≡ left.old)) }
        ensures refused { let parts = self.now.parts in IfErr result (λ e. spec.Misses e
            (spec.rest_found (spec.body_of self.now.bytes) parts (spec.ahead_of parts stage.old)
            left.old)) }
        ensures next { let parts = self.now.parts in IfErr result (λ e. spec.Misses e
            (spec.next_found (spec.body_of self.now.bytes) parts (spec.ahead_of parts stage.old)
            left.old)) }
        ensures early { let parts = self.now.parts in spec.FindsFirst result
            (spec.step_early (spec.body_of self.now.bytes) parts (spec.ahead_of parts stage.old)
            left.old) }
        ensures calm { let ahead = spec.ahead_of self.now.parts stage.old in
            spec.StepsCalmly (spec.body_of self.now.bytes) ahead left.old →
            IfErr result (λ e. spec.is_found e ≡ true) }
        ensures unchanged { IfErr result (λ _. (stage.new ≡ stage.old) × (left.new ≡ left.old)) }
    {
        let inner: &Inner<A> = &self.inner;
        step_stage(&self.source, inner, stage, left)
    }

    /// Takes all steps. Fails with the first fault, or with `OutOfMemory`.
    pub(super) fn read_all(&self) -> Result<Verified, VerifyError>
        ensures open { spec.IsOpen self.now }
        ensures returned { spec.Finds (λ (v : spec.Verification). v) result
            (spec.table_found (spec.body_of self.now.bytes) self.now.parts) }
        ensures early { spec.FindsFirst result
            (spec.table_early (spec.body_of self.now.bytes) self.now.parts) }
    {
        let mut stage = Stage::start();
        let mut left = self.unread();
        loop {
            if self.read_next(&mut stage, &mut left)? {
                return Ok(self.says());
            }
        }
    }
}

impl<A: Allocator + Clone> Verification<A> {
    /// Reads and checks one more block: a filter block, an index block or a data block.
    ///
    /// Returns `None` if it read a block. If no block is left, it checks the end and returns the
    /// result of [`Table::verify`]. It then reads no block, except to look for a data block without
    /// a handle.
    ///
    /// A step allocates for a few blocks at a time. One or two index blocks stay in memory between
    /// steps.
    ///
    /// # Errors
    ///
    /// - [`VerifyError::Found`] with the first fault in the table and its position.
    /// - [`VerifyError::OutOfMemory`]. Nothing is known about the table then.
    ///
    /// After a result or an error the verification is unchanged. A step that failed with
    /// `OutOfMemory` can be repeated. A further step reports the same fault again.
    pub fn step(&mut self) -> Result<Option<Verified>, VerifyError>
        ensures table { self.new.table ≡ self.old.table }
        // It reads a block as long as one is left.
        ensures goes { IfOk result
            (λ v. IfNone v (spec.steps_of self.old ≡ 1 + spec.steps_of self.new)) }
        ensures ends { IfOk result (λ v. IfSome v (λ _. spec.steps_of self.old ≡ 0)) }
        // It reads only that block, the next in the order of `Table::verify`.
        ensures reads { let t = self.old.table in IfOk result (λ v. IfNone v
            (spec.ReadsNext (spec.body_of t.bytes) t.parts self.old.ahead self.old.left
            self.new.ahead self.new.left)) }
        // If it is a data block, the remaining size decreases by its size.
        ensures sizes { IfOk result (λ v. IfNone v (self.old.left.counts.size ≡
            spec.next_size self.old.ahead + self.new.left.counts.size)) }
        // The result is that of `Table::verify`: the first fault, except for `OutOfMemory`.
        ensures returned { let t = self.old.table in IfOk result (λ v. IfSome v (λ v.
            spec.table_found (spec.body_of t.bytes) t.parts ≡ Ok v)) }
        ensures refused { let t = self.old.table in
            IfErr result (λ e. spec.Misses e (spec.table_found (spec.body_of t.bytes) t.parts)) }
        // A fault is in the next block, or at the end if none is left.
        ensures next { let t = self.old.table in IfErr result (λ e. spec.Misses e
            (spec.next_found (spec.body_of t.bytes) t.parts self.old.ahead self.old.left)) }
        // A fault of the next block that is found before any allocation takes precedence over
        // `OutOfMemory`. At the end this holds too, except for a data block without a handle.
        ensures early { let t = self.old.table in spec.FindsFirst result
            (spec.step_early (spec.body_of t.bytes) t.parts self.old.ahead self.old.left) }
        // At the end only the check that an empty table has no data block allocates.
        ensures calm { let t = self.old.table in
            spec.StepsCalmly (spec.body_of t.bytes) self.old.ahead self.old.left →
            IfErr result (λ e. spec.is_found e ≡ true) }
        // After a result or an error nothing changes.
        ensures answered { IfOk result (λ v. IfSome v (λ _. self.new ≡ self.old)) }
        ensures unchanged { IfErr result (λ _. self.new ≡ self.old) }
        // The fault is at its position, and all that is read before it is valid.
        ensures first { let t = self.old.table in
            IfErr result (λ e. (f : spec.Finding) → e ≡ spec.Found f →
            spec.IsFirstFinding (spec.body_of t.bytes) t.parts f) }
        // A verified table stores a list with these counts of entries and data blocks.
        ensures sound { let bytes = self.old.table.bytes in IfOk result (λ v. IfSome v (λ v.
            (es : List spec.Entry) × (t : spec.StoresList bytes es) × (v.item_count ≡ length es) ×
            (v.data_block_count ≡ length t.handles))) }
        // A table that stores a list fails with `OutOfMemory` only.
        ensures complete { (es : List spec.Entry) → spec.StoresList self.old.table.bytes es →
            IfErr result (λ e. e ≡ OutOfMemory) }
    {
        if self.table.read_next(&mut self.stage, &mut self.left)? {
            return Ok(Some(self.table.says()));
        }
        Ok(None)
    }

    /// Returns the size of the data blocks that were read, in bytes.
    ///
    /// [`ParsedMeta::file_size`] is the size of all of them.
    ///
    /// [`ParsedMeta::file_size`]: crate::ParsedMeta::file_size
    pub fn bytes_read(&self) -> u64
        ensures { result ≡ spec.bytes_read self.now }
    {
        self.table.said_size().saturating_sub(self.left.size_left())
    }
}
