//! The volatile index: one block with the handle of every data block, loaded by each iterator.
ghost use Rattle.std.specs.Prelude.{◌≡◌, ◌↔◌, [], IsTrue, Some, None, IfOk, IfErr};
ghost use Rattle.std.specs.Prelude.{ℕ, List, Option};
ghost use Rattle.lsm_iters.specs.Words as spec;

use crate::block_index::edges::Edges;
use crate::block_index::kinds::BlockIndexIter;
use crate::block_index::part::{Part, load_part};
use sst_blocks::{
    BlockHandle, BlockSource, Error, KeyedBlockHandle, Opened, SeqNo, Slice, UserKey,
};
use sst_entries::Direction;
use std::alloc::{Allocator, Global};
use std::marker::Model;

/// An index of one block that is loaded on demand.
///
/// The first step of each iterator loads it, once. Contracts see the bytes before the trailer and
/// the block's handle.
#[derive(Drop)]
pub struct VolatileBlockIndex<A: Allocator = Global> {
    alloc: A,
    source: BlockSource<A>,
    handle: BlockHandle,
}

impl<A: Allocator> Model for VolatileBlockIndex<A> {
    ghost use Rattle.std.specs.Prelude.{List, ℕ};
    ghost use Rattle.sst_blocks.specs.Place.{Place};
    ghost use Rattle.sst_blocks.specs.Sections.{body_of};

    ghost Value = { List ℕ × Place };

    ghost view = { λ index. (body_of index.source, index.handle) };
}

impl<A: Allocator + Clone> VolatileBlockIndex<A> {
    /// Returns the index whose block a handle names.
    ///
    /// Nothing is loaded.
    pub fn new(alloc: A, source: BlockSource<A>, handle: BlockHandle) -> VolatileBlockIndex<A>
        ensures { result ≡ (spec.body_of source, handle) }
    {
        VolatileBlockIndex {
            alloc,
            source,
            handle,
        }
    }

    /// Returns an iterator from the first handle whose end key reaches a key and a sequence number.
    ///
    /// An end key reaches them if it is greater than `key`, or equal with a sequence number below
    /// `seqno`. It always returns an iterator, even if there is no such handle. Nothing is loaded.
    ///
    /// # Errors
    ///
    /// [`Error::OutOfMemory`] only.
    pub fn forward_reader(&self, key: &[u8], seqno: SeqNo) -> Result<Iter<A>, Error>
        ensures sought { let unsought = spec.new_on_demand self.now.0 self.now.1 in
            IfOk result (λ i. i ≡ record unsought { lower = Some (key.now, seqno) }) }
        ensures between { let edge = Some (key.now, seqno) in
            IfOk result (λ i. spec.IsBetween (spec.on_demand_left i) edge None) }
        ensures yields { IfOk result (λ i. spec.YieldsFreely ⟦<Iter<A> as Iterator>⟧.next_gives
            ⟦<Iter<A> as DoubleEndedIterator>⟧.next_back_gives i (spec.on_demand_left i).results) }
        ensures err { IfErr result (λ e. e ≡ spec.OutOfMemory) }
    {
        let key = Slice::from(self.alloc.clone()?, key)?;
        let mut iter = self.iter()?;
        iter.edges.set_lower(key, seqno);
        Ok(iter)
    }

    /// Returns an iterator over all handles.
    ///
    /// Nothing is loaded.
    ///
    /// # Errors
    ///
    /// [`Error::OutOfMemory`] only.
    pub fn iter(&self) -> Result<Iter<A>, Error>
        ensures unsought { IfOk result (λ i. i ≡ spec.new_on_demand self.now.0 self.now.1) }
        ensures between { IfOk result (λ i. spec.IsBetween (spec.on_demand_left i) None None) }
        ensures yields { IfOk result (λ i. spec.YieldsFreely ⟦<Iter<A> as Iterator>⟧.next_gives
            ⟦<Iter<A> as DoubleEndedIterator>⟧.next_back_gives i (spec.on_demand_left i).results) }
        ensures err { IfErr result (λ e. e ≡ spec.OutOfMemory) }
    {
        let alloc = self.alloc.clone()?;
        let source = self.source.clone()?;
        Ok(Iter {
            source,
            handle: self.handle,
            edges: Edges::new(alloc),
            part: None,
            opened: Opened::none(),
        })
    }
}

/// A double-ended iterator over the handles of a volatile index.
///
/// The first step loads the block, once. If that fails, it yields the error instead of the handles.
/// An error that is found without allocating takes precedence over [`Error::OutOfMemory`]. After an
/// error of a step or a seek, `OutOfMemory` included, it is exhausted at both ends.
#[derive(Drop)]
pub struct Iter<A: Allocator = Global> {
    source: BlockSource<A>,
    handle: BlockHandle,
    edges: Edges<A>,
    part: Option<Part<A>>,
    opened: Opened,
}

impl<A: Allocator> Model for Iter<A> {
    ghost use Rattle.sst_blocks.specs.Sections.{body_of};
    ghost use Rattle.lsm_iters.specs.block_index.Left.{OnDemand};

    ghost Value = { OnDemand };

    ghost view = { λ i. record {
      body = body_of i.source;
      place = i.handle;
      lower = i.edges.0;
      upper = i.edges.1;
      part = i.part;
      opened = i.opened;
    } };
}

impl<A: Allocator + Clone> Iter<A> {
    /// Returns whether no edge was sought and no step was made.
    pub(crate) fn is_unsought(&self) -> bool
        ensures { IsTrue result ↔ spec.IsDemandSought self.now None None }
    {
        self.part.is_none() && self.edges.are_none()
    }

    /// Stores a lower edge, as a seek does. It does not allocate.
    pub(crate) fn keep_lower(&mut self, key: UserKey<A>, seqno: SeqNo)
        ensures sought { (upper : Option (List ℕ)) → spec.IsDemandSought self.old None upper →
            spec.IsDemandSought self.new (Some (key, seqno)) upper }
        ensures over { spec.IsEnded (spec.on_demand_left self.old) →
            spec.IsEnded (spec.on_demand_left self.new) }
        ensures none { spec.LoadsNone (spec.on_demand_left self.old)
            (spec.on_demand_left self.new) }
    {
        self.edges.set_lower(key, seqno);
    }

    /// Stores an upper edge, as a seek does. It does not allocate.
    pub(crate) fn keep_upper(&mut self, key: UserKey<A>)
        ensures sought { (lower : Option (List ℕ × ℕ)) → spec.IsDemandSought self.old lower None →
            spec.IsDemandSought self.new lower (Some key) }
        ensures over { spec.IsEnded (spec.on_demand_left self.old) →
            spec.IsEnded (spec.on_demand_left self.new) }
        ensures none { spec.LoadsNone (spec.on_demand_left self.old)
            (spec.on_demand_left self.new) }
    {
        self.edges.set_upper(key);
    }

    /// Takes the handle at an end and returns its block's offset and size.
    ///
    /// The handle's end key is not shared. After an error it is exhausted at both ends.
    pub(crate) fn take_place(&mut self, at: Direction) -> Option<Result<BlockHandle, Error>>
        ensures { spec.TakesPlace (spec.OnDemandGives (spec.taken_at at)) self.old result self.new }
    {
        if let Some(part) = &mut self.part {
            return part.take_place(at);
        }
        match load_part(&self.source, &self.handle, &self.edges, &mut self.opened) {
            Ok(mut part) => {
                let place = part.take_place(at);
                drop(self.part.replace(part));
                place
            }
            Err(error) => {
                self.end();
                Some(Err(error))
            }
        }
    }
}

impl<A: Allocator> Iter<A> {
    /// Drops the handles that are left; nothing is loaded any more.
    fn end(&mut self)
        ensures { self.new ≡ record self.old { part = Some [] } }
    {
        drop(self.part.replace(Part::none()));
    }
}

impl<A: Allocator + Clone> Iterator for Iter<A> {
    type Item = Result<KeyedBlockHandle<A>, Error>;

    ghost can_next = { λ _. Unit {0} };

    ghost next_gives = { spec.OnDemandGives spec.front_of };

    ghost remaining = { λ s. spec.at_most (spec.left_size (spec.on_demand_left s)) };

    fn next(&mut self) -> Option<Self::Item> {
        if let Some(part) = &mut self.part {
            return part.next();
        }
        match load_part(&self.source, &self.handle, &self.edges, &mut self.opened) {
            Ok(mut part) => {
                let item = part.next();
                drop(self.part.replace(part));
                item
            }
            Err(error) => {
                self.end();
                Some(Err(error))
            }
        }
    }
}

impl<A: Allocator + Clone> DoubleEndedIterator for Iter<A> {
    ghost can_next_back = { λ _. Unit {0} };

    ghost next_back_gives = { spec.OnDemandGives spec.back_of };

    fn next_back(&mut self) -> Option<Self::Item> {
        if let Some(part) = &mut self.part {
            return part.next_back();
        }
        match load_part(&self.source, &self.handle, &self.edges, &mut self.opened) {
            Ok(mut part) => {
                let item = part.next_back();
                drop(self.part.replace(part));
                item
            }
            Err(error) => {
                self.end();
                Some(Err(error))
            }
        }
    }
}

impl<A: Allocator + Clone> BlockIndexIter<A> for Iter<A> {
    ghost left = { spec.on_demand_left };

    ghost sought = { spec.IsDemandSought };

    ghost seek_answers = { spec.AnswersTrue };

    ghost takes_memory = { λ _. Unit {0} };

    fn seek_lower(&mut self, key: &[u8], seqno: SeqNo) -> Result<bool, Error> {
        match self.edges.copy(key) {
            Ok(key) => {
                self.keep_lower(key, seqno);
                Ok(true)
            }
            Err(refusal) => {
                self.end();
                Err(refusal)
            }
        }
    }

    fn seek_upper(&mut self, key: &[u8], _seqno: SeqNo) -> Result<bool, Error> {
        match self.edges.copy(key) {
            Ok(key) => {
                self.keep_upper(key);
                Ok(true)
            }
            Err(refusal) => {
                self.end();
                Err(refusal)
            }
        }
    }

    fn opened(&self) -> Opened {
        self.opened
    }
}
