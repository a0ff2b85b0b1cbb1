//! The bounds that were sought in an index.
ghost use Rattle.std.specs.Prelude.{◌≡◌, ◌↔◌, IsTrue, Some, None, IfOk, IfErr};
ghost use Rattle.lsm_iters.specs.Words as spec;

use crate::block_index::iter::OwnedIndexBlockIter;
use sst_blocks::{Error, IndexBlock, SeqNo, Slice, UserKey};
use std::alloc::Allocator;
use std::marker::Model;

/// A lower and an upper edge, each if it was sought.
#[derive(Drop)]
pub struct Edges<A: Allocator> {
    alloc: A,
    lower: Option<(UserKey<A>, SeqNo)>,
    upper: Option<UserKey<A>>,
}

impl<A: Allocator> Model for Edges<A> {
    ghost use Rattle.std.specs.Prelude.{List, ℕ, Option};

    ghost Value = { Option (List ℕ × ℕ) × Option (List ℕ) };

    ghost view = { λ e. (e.lower, e.upper) };
}

impl<A: Allocator + Clone> Edges<A> {
    /// Returns no edges.
    pub fn new(alloc: A) -> Edges<A>
        ensures { result ≡ (None, None) }
    {
        Edges {
            alloc,
            lower: None,
            upper: None,
        }
    }

    /// Returns whether neither edge was sought.
    pub fn are_none(&self) -> bool
        ensures { IsTrue result ↔ (self.now ≡ (None, None)) }
    {
        self.lower.is_none() && self.upper.is_none()
    }

    /// Returns a copy of a key, to store as an edge.
    ///
    /// # Errors
    ///
    /// [`Error::OutOfMemory`] only.
    pub fn copy(&self, key: &[u8]) -> Result<UserKey<A>, Error>
        ensures ok { IfOk result (λ copy. copy ≡ key.now) }
        ensures err { IfErr result (λ e. e ≡ spec.OutOfMemory) }
    {
        Slice::from(self.alloc.clone()?, key)
    }

    /// Stores the lower edge.
    pub fn set_lower(&mut self, key: UserKey<A>, seqno: SeqNo)
        ensures { self.new ≡ (Some (key, seqno), self.old.1) }
    {
        drop(self.lower.replace((key, seqno)));
    }

    /// Stores the upper edge.
    pub fn set_upper(&mut self, key: UserKey<A>)
        ensures { self.new ≡ (self.old.0, Some key) }
    {
        drop(self.upper.replace(key));
    }

    /// Returns the handles of a block from the lower edge on.
    fn from_lower(&self, block: IndexBlock<A>) -> OwnedIndexBlockIter<A>
        ensures list { result.list ≡ block }
        ensures rest { spec.rest_in result ≡ spec.window block self.now.0 None }
    {
        let mut iter = OwnedIndexBlockIter::new(block);
        match &self.lower {
            Some((key, seqno)) => {
                iter.seek_lower(key.as_slice(), *seqno);
                iter
            }
            None => iter,
        }
    }

    /// Returns the handles of a block between the edges.
    pub fn within(&self, block: IndexBlock<A>) -> OwnedIndexBlockIter<A>
        ensures { spec.rest_in result ≡ spec.window block self.now.0 self.now.1 }
    {
        let mut iter = self.from_lower(block);
        match &self.upper {
            Some(key) => {
                iter.seek_upper(key.as_slice(), 0);
                iter
            }
            None => iter,
        }
    }
}
