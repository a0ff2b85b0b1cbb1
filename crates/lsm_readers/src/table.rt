//! Opening a table's bytes, and reading from them.
ghost use Rattle.std.specs.Prelude.{◌≡◌, ◌≢◌, ◌+◌, ℕ, Bool, List, [], Option, Some, Result, Ok};
ghost use Rattle.std.specs.Prelude.{Err, false, true, length, IfOk, IfErr, IsOk, MatchResult};
ghost use Rattle.std.specs.Prelude.{is_some};
ghost use Rattle.lsm_readers.specs.Words as spec;
ghost use Rattle.sst_entries.specs.declared.error.Error.TheVariants.{OutOfMemory};

mod by_key;
mod file;
mod lent;
mod queries;
mod range;
mod verification;
mod verify;

use crate::recover::filter_to_pin;
use crate::{Inner, ParsedRegions, Scanner, point_in, recover_in};
use lsm_iters::{BlockIndexImpl, beside};
use lsm_sorted::{KeyRange, Ranged};
pub use queries::{get_many, get_many_places};
use sst_blocks::{
    BlockSource, BlockType, Builder, Checksum, Counted, Error, InternalValue, Lending, Opened,
    SeqNo, Slice, TableId, Toc, TreeId,
};
use std::alloc::{AllocError, Allocator, Global};
use std::fmt;
use std::marker::Model;
use std::ops::{Bound, Deref};
use std::sync::Arc;
pub use verification::Verification;

/// The state that all handles of a table share, except for its bytes.
pub type TableInner<A = Global> = Inner<A>;

/// A shared handle of an open table.
///
/// [`Table::recover`] opens it. It dereferences to [`Inner`], whose fields have the table's id,
/// metadata and counts. Contracts see its bytes, the arguments it was opened with and what was read
/// then.
#[derive(Drop)]
pub struct Table<A: Allocator = Global> {
    source: BlockSource<A>,
    inner: Arc<Inner<A>, A>,
}

impl<A: Allocator> Model for Table<A> {
    ghost use Rattle.std.specs.Arc.{arc_value};
    ghost use Rattle.lsm_readers.specs.point.Table.{OpenTable, IsOpen, table_of};

    ghost Value = { OpenTable };

    ghost view = { λ t. table_of t.source (arc_value t.inner) };

    ghost invariant = { λ t. IsOpen (table_of t.source (arc_value t.inner)) };
}

impl<A: Allocator + Clone> Clone for Table<A> {
    ghost use Rattle.std.specs.Prelude.{◌≡◌};

    ghost is_clone = { λ t copy. copy ≡ t };

    fn clone(&self) -> Result<Table<A>, AllocError> {
        let (source, inner) = beside(self.source.clone()?, self.inner.clone())?;
        Ok(Table { source, inner })
    }
}

impl<A: Allocator> Deref for Table<A> {
    ghost use Rattle.std.specs.Prelude.{◌≡◌};
    ghost use Rattle.lsm_readers.specs.point.Table.{table_of};

    type Target = Inner<A>;

    // The bytes and the inner state make up the table.
    ghost deref_gives = { λ t inner. table_of t.bytes inner ≡ t };

    fn deref(&self) -> &Inner<A> {
        &self.inner
    }
}

impl<A: Allocator> Ranged for Table<A> {
    ghost use Rattle.std.proofs.Common.{ap};
    ghost use Rattle.std.specs.Prelude.{List, ℕ};
    ghost use Rattle.lsm_readers.specs.point.Parts.{key_range_result};

    type Alloc = A;

    // The table's bytes and its global seqno.
    ghost Meaning = { List ℕ × ℕ };

    ghost meaning = { λ t. (t.bytes, t.global_seqno) };

    ghost range = { λ t. key_range_result t.bytes };

    fn key_range(&self) -> &KeyRange<A> {
        &self.inner.metadata.key_range
    }

    ghost steady = { λ x y same. ap (λ (m : List ℕ × ℕ). key_range_result m.0) same };
}

impl<A: Allocator> fmt::Debug for Table<A> {
    fn fmt<W: fmt::Write>(&self, f: &mut fmt::Formatter<W>) -> fmt::Result {
        let inner: &Inner<A> = &self.inner;
        let id = inner.metadata.id;
        let key_range = &inner.metadata.key_range;
        write!(f, "Table:{id}({key_range:?})")
    }
}

/// Compares the checksums of the pinned index and filter blocks in one loop, if there are both. The
/// results of loading them do not change.
fn compare_pinned<A: Allocator + Clone>(
    source: &BlockSource<A>,
    toc: &Toc,
    pin_filter: bool,
    pin_index: bool,
) {
    let Ok(regions) = ParsedRegions::parse_from_toc(toc) else {
        return;
    };
    if regions.index.is_none() && !pin_index {
        return;
    }
    let index = (regions.tli, BlockType::Index);
    if let Some(tops) = regions.filter_tli {
        source.compare_together(&[index, (tops, BlockType::Index)]);
    } else if let Some(filter) = filter_to_pin(&regions, pin_filter) {
        source.compare_together(&[index, (filter, BlockType::Filter)]);
    }
}

fn recover_inner<A: Allocator + Clone>(
    source: &BlockSource<A>,
    checksum: Checksum,
    global_seqno: SeqNo,
    tree_id: TreeId,
    pin_filter: bool,
    pin_index: bool,
) -> Result<Inner<A>, Error>
    ensures returned { spec.Gives spec.parts_of result
        (spec.parts_result source.now global_seqno pin_filter pin_index) }
    ensures early { spec.FaultsFirst result
        (spec.early_in (spec.body_of source.now) (spec.places_result source.now)) }
    ensures number { IfOk result (λ inner. inner.global_seqno ≡ global_seqno) }
    ensures tree { IfOk result (λ inner. inner.tree_id ≡ tree_id) }
    ensures checksum { IfOk result (λ inner. inner.checksum ≡ checksum) }
{
    let toc = source.toc();
    compare_pinned(source, &toc, pin_filter, pin_index);
    recover_in(
        &mut Counted::new(source),
        &toc,
        checksum,
        global_seqno,
        tree_id,
        pin_filter,
        pin_index,
    )
}

/// Moves a value into a shared handle. Generic, so that a proof does not unfold the parts of a
/// large value. Fails with the error of the value, or with [`Error::OutOfMemory`].
fn share<T: Drop, A: Allocator + Clone>(
    value: Result<T, Error>,
    alloc: &A,
) -> Result<Arc<T, A>, Error>
    ensures ok { IfOk result (λ shared. value ≡ Ok (spec.arc_value shared)) }
    ensures err { IfErr result (λ e. MatchResult value (λ _. e ≡ OutOfMemory) (λ f. e ≡ f)) }
{
    let value = value?;
    Ok(Arc::new(alloc.clone()?, value)?)
}

impl<A: Allocator + Clone> Table<A> {
    /// Opens a table from the bytes of its file.
    ///
    /// `checksum` is stored, and is not compared with the bytes. `global_seqno` is added to every
    /// stored seqno. It is 0 but for tables that were written elsewhere and ingested at a later
    /// snapshot.
    ///
    /// A top level of the index or the filter is always pinned. `pin_filter` also pins the block of
    /// a full filter, `pin_index` that of a full index. Each read loads the blocks it needs that
    /// are not pinned.
    ///
    /// # Errors
    ///
    /// The first fault, in this order:
    ///
    /// - The trailer.
    /// - The section handles, as [`ParsedRegions::parse_from_toc`].
    /// - The meta block and its items, as [`ParsedMeta::load_with_handle`].
    /// - [`Error::GlobalSeqNoTooLarge`] if the highest stored seqno plus `global_seqno` exceeds
    ///   `u64::MAX`.
    /// - The loads of the pinned blocks: the index, the filter's top level, then the filter.
    ///
    /// It can also fail with [`Error::OutOfMemory`].
    ///
    /// # Examples
    ///
    /// ```
    /// match Table::recover(alloc, bytes, Checksum(0), 0, 0, true, true) {
    ///     Ok(table) => Ok(table),
    ///     Err(error) => Err(unopened(error, place)),
    /// }
    /// ```
    pub fn recover(
        alloc: A,
        bytes: Slice<A>,
        checksum: Checksum,
        global_seqno: SeqNo,
        tree_id: TreeId,
        pin_filter: bool,
        pin_index: bool,
    ) -> Result<Table<A>, Error>
        ensures returned { spec.Gives (λ (t : spec.OpenTable). t.parts) result
            (spec.recovered_result bytes global_seqno pin_filter pin_index) }
        // A fault that is found before any allocation takes precedence over `OutOfMemory`.
        ensures early { spec.FaultsFirst result (spec.early_fault bytes) }
        // A table written from a list, with an index restart interval of 1, opens if the highest
        // seqno fits. Its parts match the list.
        ensures list { (es : List spec.Entry) (t : spec.IsTable bytes es) →
            t.options.index_block_restart_interval ≡ 1 →
            spec.Gives (λ (t : spec.OpenTable). t.parts) result
            (spec.list_result t global_seqno pin_filter pin_index) }
        // Bytes that store a list, whoever wrote them, open if the highest seqno fits.
        ensures stores { (es : List spec.Entry) → spec.StoresList bytes es →
            spec.Gives (λ (t : spec.OpenTable). tt) result (spec.fits_result es global_seqno) }
        ensures bytes { IfOk result (λ t. t.bytes ≡ bytes) }
        ensures number { IfOk result (λ t. t.global_seqno ≡ global_seqno) }
        ensures tree { IfOk result (λ t. t.tree_id ≡ tree_id) }
        ensures checksum { IfOk result (λ t. t.checksum ≡ checksum.0) }
    {
        let source = BlockSource::new(alloc, bytes)?;
        let inner = recover_inner(
            &source,
            checksum,
            global_seqno,
            tree_id,
            pin_filter,
            pin_index,
        );
        let shared = share(inner, source.allocator());
        let (source, inner) = beside(source, shared)?;
        Ok(Table { source, inner })
    }

    /// Returns the hash of a key, which point reads take as `key_hash`.
    pub fn key_hash(key: &[u8]) -> u64
        ensures { result ≡ spec.hash_of key.now }
    {
        Builder::<A>::get_hash(key)
    }

    /// Returns the newest version of `key` visible at `seqno`, and the number of blocks loaded by
    /// kind.
    ///
    /// The version and the errors are those of [`Table::get`].
    pub fn get_counted(
        &self,
        key: &[u8],
        seqno: SeqNo,
        key_hash: u64,
    ) -> (Result<Option<InternalValue<A>>, Error>, Opened)
        requires { key_hash ≡ spec.hash_of key.now }
        ensures returned { spec.Gives (λ (found : Option spec.Entry). found) result.0
            (spec.table_answer self.now key.now seqno).returned }
        // A fault that is found before any allocation takes precedence over `OutOfMemory`.
        ensures early { spec.FaultsFirst result.0 (spec.table_answer self.now key.now seqno).early }
        // If no block is loaded, the read does not fail.
        ensures calm { (spec.table_answer self.now key.now seqno).loads ≡ [] → IsOk result.0 }
        ensures opened { let loads = (spec.table_answer self.now key.now seqno).loads in
            spec.Opens result.0 loads spec.none_opened result.1 }
        ensures few { spec.LoadsFew self.now.parts spec.none_opened result.1 }
        ensures open { spec.IsOpen self.now }
        // On bytes that store a list it is the newest visible version in the list, global seqno
        // applied.
        ensures list { spec.FindsInList (λ (x : Option spec.Entry). x) self.now key.now seqno
            result.0 }
    {
        let inner: &Inner<A> = &self.inner;
        let mut source = Counted::new(&self.source);
        let found = point_in(&mut source, inner, key, seqno, key_hash);
        (found, source.opened())
    }

    /// Returns the newest version of `key` visible at `seqno`, global seqno applied.
    ///
    /// `key_hash` must be [`Table::key_hash`] of the key. The read loads at most one filter block,
    /// one index block and one data block. A tombstone is returned as an entry; test
    /// [`InternalValue::is_tombstone`].
    ///
    /// # Errors
    ///
    /// The first fault of loading these blocks, or [`Error::OutOfMemory`]. The table does not
    /// change. If no block is loaded, the read does not fail. An example is a pinned filter that
    /// excludes the key, or that has no partition for it.
    ///
    /// # Examples
    ///
    /// ```
    /// let found = table.get(key, seqno, Table::<A>::key_hash(key))?;
    /// let scanner = table.scan()?;
    /// Ok(Some((found, scanner)))
    /// ```
    pub fn get(
        &self,
        key: &[u8],
        seqno: SeqNo,
        key_hash: u64,
    ) -> Result<Option<InternalValue<A>>, Error>
        requires { key_hash ≡ spec.hash_of key.now }
        ensures returned { spec.Gives (λ (found : Option spec.Entry). found) result
            (spec.table_answer self.now key.now seqno).returned }
        ensures early { spec.FaultsFirst result (spec.table_answer self.now key.now seqno).early }
        ensures calm { (spec.table_answer self.now key.now seqno).loads ≡ [] → IsOk result }
        ensures recovered { spec.IsRecovered self.now }
        // On bytes that store a list it is the newest visible version in the list, global seqno
        // applied.
        ensures list { spec.FindsInList (λ (x : Option spec.Entry). x) self.now key.now seqno
            result }
    {
        self.get_counted(key, seqno, key_hash).0
    }

    /// Opens a scanner of all entries in order, global seqno applied.
    ///
    /// It reads each data block once, in file order. The call loads the first of them. Tombstones
    /// are yielded as entries.
    ///
    /// # Errors
    ///
    /// The first fault of loading that block, or [`Error::OutOfMemory`].
    ///
    /// # Examples
    ///
    /// ```
    /// for item in table.scan()? {
    ///     println!(rt; "scanned number {}", item?.key.seqno)?;
    /// }
    /// ```
    pub fn scan(&self) -> Result<Scanner<A>, Error>
        ensures refused { spec.Faults result
            (spec.fault_of (spec.load_at_result (spec.body_of self.now.bytes) 0 spec.Data)) }
        // A fault of the block's header, checksum or count takes precedence over `OutOfMemory`.
        ensures early { spec.FaultsFirst result
            (spec.position_fault (spec.body_of self.now.bytes) 0 spec.Data) }
        // Except for `OutOfMemory`, it yields the entries of `data_block_count` blocks.
        ensures yields { spec.ScanYields ⟦<Scanner<A> as Iterator>⟧.next_gives (spec.table_scan
            self.now) result }
        ensures can { let gives = ⟦<Scanner<A> as Iterator>⟧.next_gives in
            let may = ⟦<Scanner<A> as Iterator>⟧.can_next in
            IfOk result (λ s. spec.CanYield gives spec.nowhere may may s) }
        // After any error it is exhausted.
        ensures ends { spec.EndsAtErrors ⟦<Scanner<A> as Iterator>⟧.next_gives }
        // As a lending iterator it yields the same.
        ensures lends { spec.ScanYields ⟦<Scanner<A> as Lending>⟧.advances (spec.table_scan
            self.now) result }
        ensures can_lend { let advances = ⟦<Scanner<A> as Lending>⟧.advances in
            let may = ⟦<Scanner<A> as Lending>⟧.can_advance in
            IfOk result (λ s. spec.CanYield advances spec.nowhere may may s) }
        ensures lends_end { spec.EndsAtErrors ⟦<Scanner<A> as Lending>⟧.advances }
        ensures opened { IfOk result (λ s. s.opened ≡ spec.with_load spec.Data spec.none_opened) }
        ensures left { let count = self.now.parts.facts.data_block_count in
            IfOk result (spec.IsNewScan (spec.body_of self.now.bytes) count self.now.global_seqno) }
        // On bytes that store a list it yields the list, global seqno applied. If the list has an
        // entry, the call fails with `OutOfMemory` only.
        ensures list { (es : List spec.Entry) → spec.StoresList self.now.bytes es →
            spec.ScansList result es self.now.global_seqno }
        ensures lends_list { (es : List spec.Entry) → spec.StoresList self.now.bytes es →
            spec.LendsList result es self.now.global_seqno }
        ensures open { spec.IsOpen self.now }
    {
        let inner: &Inner<A> = &self.inner;
        Scanner::new(
            &self.source,
            inner.metadata.data_block_count,
            inner.metadata.data_block_compression,
            inner.global_seqno,
        )
    }
}

impl<A: Allocator + Clone> Table<A> {
    /// Returns the table's block index over its bytes.
    ///
    /// It is partitioned if the table has an `index` section. Otherwise it is the pinned block of a
    /// full index, or a block that each iterator loads. The call loads nothing.
    ///
    /// # Errors
    ///
    /// [`Error::OutOfMemory`] only.
    pub fn block_index(&self) -> Result<BlockIndexImpl<A>, Error>
        ensures index { IfOk result (λ index. spec.index_read index ≡ spec.table_index self.now) }
        // Its kind follows from the table's sections and the pin at opening.
        ensures kind { (pin_filter pin_index : Bool) →
            spec.OpenedWith self.now pin_filter pin_index → IfOk result (λ index.
            spec.index_kind_of index ≡ spec.kind_for (is_some self.now.parts.regions.index)
            pin_index) }
        // On bytes that store a list it has the handles of the list's data blocks between any two
        // edges.
        ensures list { (es : List spec.Entry) (t : spec.StoresList self.now.bytes es) →
            IfOk result (λ index. spec.NamesBlocksOf t (spec.index_read index)) }
        ensures err { IfErr result (λ e. e ≡ OutOfMemory) }
    {
        let inner: &Inner<A> = &self.inner;
        inner
            .pinned_block_index
            .over(&self.source, &inner.regions.tli)
    }
}

impl<A: Allocator> Table<A> {
    /// States facts for proofs about a table whose bytes store a list, and does nothing when
    /// called.
    ///
    /// - The metadata match the list, and the key range is the list's ends.
    /// - The bytes store no other list.
    /// - Bytes that writers make of a list store it, with a handle for each chunk they cut.
    /// - Every table was opened from its bytes.
    pub fn tells_its_list(&self)
        ensures parts { (es : List spec.Entry) (t : spec.IsTable self.now.bytes es) →
            spec.SaysList t self.now.parts }
        ensures facts { (es : List spec.Entry) (t : spec.StoresList self.now.bytes es) →
            spec.Matches self.now.parts.facts es t.handles }
        ensures range { (es : List spec.Entry) → spec.StoresList self.now.bytes es →
            ⟦<Table<A> as Ranged>⟧.range self.now ≡ spec.ends_of es }
        ensures one { (xs ys : List spec.Entry) → spec.StoresList self.now.bytes xs →
            spec.StoresList self.now.bytes ys → xs ≡ ys }
        ensures written { (es : List spec.Entry) (t : spec.IsTable self.now.bytes es) →
            spec.StoresItsBlocks t }
        ensures open { spec.IsOpen self.now }
    {
        let _source: &BlockSource<A> = &self.source;
    }

    /// States for proofs that two tables of one list have the same handles of data blocks.
    ///
    /// The tables must have one version, one data block size and the same spills. Their indexes
    /// then return the same handles between any two edges, and no error. Index kinds, filter kinds
    /// and pinned blocks may differ. The call does nothing.
    pub fn names_blocks_as(&self, other: &Table<A>)
        ensures alike { (es : List spec.Entry) (t : spec.IsTable self.now.bytes es) →
            (u : spec.IsTable other.now.bytes es) → spec.AreCutAlike t u →
            spec.ReadAlike (spec.table_index self.now) (spec.table_index other.now) }
        // They are the handles of the data blocks of the list that this table stores. By the clause
        // before they are those of the other table too.
        ensures names { (es : List spec.Entry) (t : spec.StoresList self.now.bytes es) →
            spec.NamesBlocksOf t (spec.table_index self.now) }
    {
        let _source: &BlockSource<A> = &self.source;
        let _other: &BlockSource<A> = &other.source;
    }

    /// Returns the table's id.
    pub fn id(&self) -> TableId
        ensures { result ≡ self.now.parts.facts.id }
    {
        self.inner.metadata.id
    }

    /// Returns the sequence number that is added to every stored one.
    pub fn global_seqno(&self) -> SeqNo
        ensures { result ≡ self.now.global_seqno }
    {
        self.inner.global_seqno
    }

    /// Returns the checksum that the table was opened with.
    pub fn checksum(&self) -> Checksum
        ensures { result.0 ≡ self.now.checksum }
    {
        self.inner.checksum
    }

    /// Returns the highest sequence number, global seqno applied.
    pub fn get_highest_seqno(&self) -> SeqNo
        ensures { result ≡ self.now.parts.facts.seqno_max + self.now.global_seqno }
    {
        self.inner.metadata.seqnos.1 + self.inner.global_seqno
    }

    /// Returns the number of tombstones of either kind.
    pub fn tombstone_count(&self) -> u64
        ensures { result ≡ self.now.parts.facts.tombstone_count }
    {
        self.inner.metadata.tombstone_count
    }

    /// Returns the number of weak tombstones.
    pub fn weak_tombstone_count(&self) -> u64
        ensures { result ≡ self.now.parts.facts.weak_tombstone_count }
    {
        self.inner.metadata.weak_tombstone_count
    }

    /// Returns the number of values directly after a weak tombstone of their key.
    pub fn weak_tombstone_reclaimable(&self) -> u64
        ensures { result ≡ self.now.parts.facts.weak_tombstone_reclaimable }
    {
        self.inner.metadata.weak_tombstone_reclaimable
    }

    /// Returns the payload length of the pinned filter block in bytes, or 0 if none is pinned.
    ///
    /// The top level of a partitioned filter does not count.
    pub fn pinned_filter_size(&self) -> usize
        ensures { result ≡ spec.filter_len self.now.parts.pinned.filter }
    {
        match &self.inner.pinned_filter_block {
            Some(filter) => filter.size(),
            None => 0,
        }
    }

    /// Returns the payload length of the pinned index block in bytes, or 0 if none is pinned.
    ///
    /// The block is that of a full index, or the top level of a partitioned one.
    pub fn pinned_block_index_size(&self) -> usize
        ensures size { let parts = self.now.parts in
            result ≡ spec.index_len parts.pinned.index parts.regions.tli }
        ensures payload { (b : spec.Loaded) → let parts = self.now.parts in
            spec.load_result (spec.body_of self.now.bytes) parts.regions.tli.offset
            parts.regions.tli.size spec.Index
            ≡ Ok b → parts.pinned.index ≢ spec.volatile → result ≡ length b.payload }
    {
        let inner: &Inner<A> = &self.inner;
        inner.pinned_block_index.payload_len(&inner.regions.tli)
    }

    /// Returns whether the key range in the meta block overlaps the bounds.
    ///
    /// On bytes that store a list, `false` means that no key of the list is within the bounds.
    pub fn check_key_range_overlap(&self, bounds: &(Bound<&[u8]>, Bound<&[u8]>)) -> bool
        ensures value { result ≡ spec.overlaps_bounds (spec.key_bound bounds.now.0)
            (spec.key_bound bounds.now.1) self.now.parts.facts.key_range }
        ensures list { result ≡ false → (es : List spec.Entry) → spec.StoresList self.now.bytes es →
            spec.within (spec.key_bound bounds.now.0) (spec.key_bound bounds.now.1) es ≡ [] }
    {
        self.inner.metadata.key_range.overlaps_with_bounds(bounds)
    }

    /// Returns the length of the `filter` section in bytes, or 0 if there is none.
    pub fn filter_size(&self) -> u32
        ensures { result ≡ spec.place_size self.now.parts.regions.filter }
    {
        match self.inner.regions.filter {
            Some(handle) => handle.size(),
            None => 0,
        }
    }
}
