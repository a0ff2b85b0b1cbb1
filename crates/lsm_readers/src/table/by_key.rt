//! Point reads by a key and a sequence number alone.
ghost use Rattle.std.specs.Prelude.{◌≡◌, [], IfErr, IfOk, IsOk, List, Option};
ghost use Rattle.lsm_readers.specs.Words as spec;
ghost use Rattle.sst_entries.specs.declared.error.Error.TheVariants.{OutOfMemory};

use crate::Table;
use sst_blocks::{Error, InternalValue, SeqNo};
use std::alloc::Allocator;

impl<A: Allocator + Clone> Table<A> {
    /// Returns the newest version of `key` visible at `seqno`, global seqno applied.
    ///
    /// This is [`Table::get`] with the key's hash, which is computed here. A tombstone is returned
    /// as an entry; test [`InternalValue::is_tombstone`].
    ///
    /// # Errors
    ///
    /// Those of [`Table::get`].
    ///
    /// # Examples
    ///
    /// ```
    /// // The newest version of a key with a sequence number below 5.
    /// if let Some(item) = table.get_by_key(b"apple", 5)? {
    ///     println!(rt; "found number {}", item.key.seqno)?;
    /// }
    /// ```
    #[tactic(auto, using(crate::proofs::ByKey::value_is))]
    pub fn get_by_key(&self, key: &[u8], seqno: SeqNo) -> Result<Option<InternalValue<A>>, Error>
        ensures returned { spec.Gives (λ (found : Option spec.Entry). found) result
            (spec.table_answer self.now key.now seqno).returned }
        ensures early { spec.FaultsFirst result (spec.table_answer self.now key.now seqno).early }
        ensures calm { (spec.table_answer self.now key.now seqno).loads ≡ [] → IsOk result }
        // On bytes that store a list it is the newest visible version in the list, global seqno
        // applied.
        ensures list { (es : List spec.Entry) → spec.StoresList self.now.bytes es →
            IfOk result (λ found. found ≡ spec.point (spec.lift es self.now.global_seqno) key.now
            seqno) }
        // With a global seqno of 0 it is the newest visible version in the list as stored.
        ensures plain { (es : List spec.Entry) → spec.StoresList self.now.bytes es →
            self.now.global_seqno ≡ 0 → IfOk result (λ found. found ≡ spec.point es key.now seqno) }
        // On such bytes it fails with `OutOfMemory` only.
        ensures err { (es : List spec.Entry) → spec.StoresList self.now.bytes es →
            IfErr result (λ e. e ≡ OutOfMemory) }
    {
        self.get(key, seqno, Table::<A>::key_hash(key))
    }
}
