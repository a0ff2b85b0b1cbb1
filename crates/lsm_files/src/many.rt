//! Point reads of many keys of a table in its file.
ghost use Rattle.std.specs.Prelude.{◌≡◌, Ok, map};
ghost use Rattle.lsm_files.specs.Words as spec;

use crate::keeping::Keeping;
use crate::{FileBlocks, FileError, FileTable, ReadAt};
use lsm_readers::{Inner, Query, point_in};
use sst_blocks::{Builder, Error, InternalValue, LoadBlocks};
use std::alloc::Allocator;

/// Returns the newest visible version of each query's key, in the order of the queries. Fails as
/// the first of these reads that fails.
fn read_each<S: LoadBlocks>(
    source: &mut S,
    inner: &Inner<S::Alloc>,
    queries: &[Query<S::Alloc>],
    alloc: S::Alloc,
) -> Result<Vec<Option<InternalValue<S::Alloc>>, S::Alloc>, Error>
    ensures { let parts = spec.parts_of inner.now in
        let returned = spec.query_result (S.body source.old) inner.now.global_seqno parts in
        spec.IsKnownTo S.access →
        spec.Gives (λ found. found.items) result (spec.answers_to returned queries.now) }
{
    let mut found = Vec::with_capacity(alloc, queries.len())?;
    for query in queries {
        let key = query.key.as_slice();
        let key_hash = Builder::<S::Alloc>::get_hash(key);
        let one = point_in(source, inner, key, query.seqno, key_hash)?;
        found.push(one)?;
    }
    Ok(found)
}

impl<R: ReadAt + Drop, A: Allocator + Clone> FileTable<R, A> {
    /// Returns the newest visible version of each query's key, in the order of the queries.
    ///
    /// Each result is that of [`FileTable::get`] with the hash of the query's key. Queries may be
    /// in any order and may repeat. If they are in key order, neighbours share the reads of their
    /// blocks.
    ///
    /// # Errors
    ///
    /// The error of the earliest query that has one, [`Error::OutOfMemory`], or [`FileError::Io`]
    /// if a read fails. No result is returned then.
    pub fn get_many(
        &self,
        queries: &[Query<A>],
    ) -> Result<Vec<Option<InternalValue<A>>, A>, FileError>
        ensures returned { spec.AreKnown R.reads →
            spec.FileGives R.reads (λ found. found.items) result
            (spec.many_results self.now queries.now) }
        // On bytes that store a list it is each query's newest visible version in the list, global
        // seqno applied.
        ensures list { spec.OnStoredList R.reads self.now.bytes (λ es.
            let all = spec.lift es self.now.global_seqno in
            spec.FileGives R.reads (λ found. found.items) result
            (Ok (map (λ q. spec.point all q.key q.seqno) queries.now))) }
    {
        let alloc = self.alloc.clone()?;
        let file = FileBlocks::new(&self.file, &self.alloc, self.body_len);
        let mut source = Keeping::new(file);
        let found = read_each(&mut source, &self.inner, queries, alloc);
        source.result(found)
    }
}
