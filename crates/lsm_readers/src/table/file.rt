//! A table's bytes, and the items of its meta block that opening does not read.
ghost use Rattle.std.specs.Prelude.{◌≡◌, ◌+◌, ◌*◌, ◌/◌, ◌⊎◌, IfErr, IfOk, List, length, ℕ};
ghost use Rattle.lsm_readers.specs.Words as spec;
ghost use Rattle.sst_entries.specs.declared.error.Error.TheVariants.{OutOfMemory};

use crate::{Inner, Table, load_item};
use sst_blocks::{Error, ItemName, Slice, UserValue};
use std::alloc::Allocator;

impl<A: Allocator + Clone> Table<A> {
    /// Returns the bytes that the table was opened from.
    ///
    /// They are shared, so a caller can store or send them.
    ///
    /// # Errors
    ///
    /// [`Error::OutOfMemory`] if the reference count cannot be taken.
    pub fn bytes(&self) -> Result<Slice<A>, Error>
        ensures bytes { IfOk result (λ bytes. bytes ≡ self.now.bytes) }
        ensures err { IfErr result (λ e. e ≡ OutOfMemory) }
    {
        Ok(self.source.bytes().clone()?)
    }

    /// Returns the length of the table's file in bytes, trailer included.
    pub fn file_len(&self) -> usize
        ensures { result ≡ length self.now.bytes }
    {
        self.source.bytes().len()
    }

    /// Returns the size of the verified-block cache in bytes.
    ///
    /// The cache records which blocks had their checksums compared. All handles of the table share
    /// it. It has 8 bytes for each full 2,048 bytes of the file, and 8 more. It is 0 if the cache
    /// could not be allocated. Pinned blocks share the file's bytes.
    pub fn marks_size(&self) -> usize
        ensures { (result ≡ 0) ⊎ (result ≡ 8 * (length self.now.bytes / 2048 + 1)) }
    {
        self.source.marks_size()
    }

    /// Returns the value of any item of the meta block.
    ///
    /// Opening does not read all items. Others are the level, the key count, the length of keys and
    /// values, and the restart intervals. The call loads the meta block.
    ///
    /// # Errors
    ///
    /// Fails as [`load_item`] does: with the first fault of loading the block, then with
    /// [`Error::MetaKeyMissing`] if it has no such item. It can also fail with
    /// [`Error::OutOfMemory`].
    pub fn meta_item(&self, name: ItemName) -> Result<UserValue<A>, Error>
        ensures returned { let place = self.now.parts.regions.metadata in
            spec.Gives (λ (value : List ℕ). value) result
            (spec.meta_item_result (spec.body_of self.now.bytes) place name) }
        // A fault that is found before any allocation takes precedence over `OutOfMemory`.
        ensures early { let place = self.now.parts.regions.metadata in
            spec.FaultsFirst result
            (spec.place_fault (spec.body_of self.now.bytes) place.offset place.size spec.Meta) }
    {
        let inner: &Inner<A> = &self.inner;
        load_item(&self.source, &inner.regions.metadata, name)
    }
}
