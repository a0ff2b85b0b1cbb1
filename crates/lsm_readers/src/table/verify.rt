//! Verifying that a table's bytes store a list.
ghost use Rattle.std.specs.Prelude.{◌≡◌, ◌≢◌, List, length, IfErr, IfOk};
ghost use Rattle.lsm_readers.specs.Words as spec;
ghost use Rattle.lsm_readers.specs.declared.verify.VerifyError.TheVariants.{OutOfMemory};

use crate::verify::test_checksum;
use crate::{Table, Verified, VerifyError};
use sst_blocks::Checksum;
use std::alloc::Allocator;

impl<A: Allocator + Clone> Table<A> {
    /// Reads the whole table once, and checks that its bytes store a list, whoever wrote them.
    ///
    /// It reads the filter blocks, then the index blocks. After each handle of a data block it
    /// reads that block, entry by entry. Blocks are read from the bytes even if they are pinned. It
    /// allocates for a few blocks at a time.
    ///
    /// # Errors
    ///
    /// - [`VerifyError::Found`] with the first fault in this order and its position.
    /// - [`VerifyError::OutOfMemory`]. Nothing is known about the table then.
    ///
    /// # Examples
    ///
    /// ```
    /// table.verify()?;
    /// match table.get_by_key(key, seqno) {
    ///     Ok(found) => Ok(found),
    ///     // A read of a table that stores a list fails with `OutOfMemory` only.
    ///     Err(_) => Err(VerifyError::OutOfMemory),
    /// }
    /// ```
    pub fn verify(&self) -> Result<Verified, VerifyError>
        // Except for `OutOfMemory`, it reports the first fault.
        ensures returned { spec.Finds (λ (v : spec.Verification). v) result
            (spec.table_found (spec.body_of self.now.bytes) self.now.parts) }
        // A fault of the first loaded block that is found before any allocation takes precedence
        // over `OutOfMemory`.
        ensures early { spec.FindsFirst result
            (spec.table_early (spec.body_of self.now.bytes) self.now.parts) }
        // The fault is at its position, and all that is read before it is valid.
        ensures first { IfErr result (λ e. (f : spec.Finding) → e ≡ spec.Found f →
            spec.IsFirstFinding (spec.body_of self.now.bytes) self.now.parts f) }
        // A verified table stores a list with these counts of entries and data blocks.
        ensures sound { IfOk result (λ v. (es : List spec.Entry) ×
            (t : spec.StoresList self.now.bytes es) × (v.item_count ≡ length es) ×
            (v.data_block_count ≡ length t.handles)) }
        // A table that stores a list fails with `OutOfMemory` only.
        ensures complete { (es : List spec.Entry) → spec.StoresList self.now.bytes es →
            IfErr result (λ e. e ≡ OutOfMemory) }
    {
        self.read_all()
    }

    /// Compares the checksum of the table's bytes, then verifies it as [`Table::verify`] does.
    ///
    /// `checksum` is the FNV-1a hash of the whole file, as writing a table returns it.
    ///
    /// # Errors
    ///
    /// [`Fault::OtherChecksum`](crate::Fault::OtherChecksum) if the bytes have another checksum. No
    /// block is read then. Otherwise the errors are those of [`Table::verify`].
    pub fn verify_with(&self, checksum: Checksum) -> Result<Verified, VerifyError>
        // Another checksum is reported, whatever memory there is.
        ensures other { spec.fnv1a self.now.bytes ≢ checksum.0 →
            spec.IsErrAnd result (λ e. e ≡ spec.Found spec.other_checksum) }
        // A verified table has this checksum.
        ensures same { IfOk result (λ _. spec.fnv1a self.now.bytes ≡ checksum.0) }
        // If the checksum matches, the result is that of `Table::verify`.
        ensures returned { spec.fnv1a self.now.bytes ≡ checksum.0 →
            spec.Finds (λ (v : spec.Verification). v) result
            (spec.table_found (spec.body_of self.now.bytes) self.now.parts) }
        ensures early { spec.fnv1a self.now.bytes ≡ checksum.0 → spec.FindsFirst result
            (spec.table_early (spec.body_of self.now.bytes) self.now.parts) }
        ensures first { spec.fnv1a self.now.bytes ≡ checksum.0 →
            IfErr result (λ e. (f : spec.Finding) → e ≡ spec.Found f →
            spec.IsFirstFinding (spec.body_of self.now.bytes) self.now.parts f) }
        ensures sound { IfOk result (λ v. (es : List spec.Entry) ×
            (t : spec.StoresList self.now.bytes es) × (v.item_count ≡ length es) ×
            (v.data_block_count ≡ length t.handles)) }
        ensures complete { spec.fnv1a self.now.bytes ≡ checksum.0 → (es : List spec.Entry) →
            spec.StoresList self.now.bytes es → IfErr result (λ e. e ≡ OutOfMemory) }
    {
        test_checksum(self.source.bytes().as_slice(), checksum)?;
        self.verify()
    }
}
