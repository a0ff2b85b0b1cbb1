//! Checksums of results.
use sst_blocks::fnv::Fnv1a;
use sst_blocks::{Error, InternalValue, IterItem, KeyedBlockHandle, Opened};
use std::alloc::Allocator;

/// The running FNV-1a hash of results. Each number counts as 8 little-endian bytes, and each byte
/// string as its length and its bytes.
#[derive(Clone, Copy)]
pub struct Digest(Fnv1a);

impl Digest {
    /// The hash of no results.
    pub fn new() -> Digest {
        Digest(Fnv1a::new())
    }

    /// The hash so far.
    pub fn finish(&self) -> u64 {
        self.0.finish()
    }

    pub fn put_number(&mut self, number: u64) {
        self.0.update(&number.to_le_bytes());
    }

    pub fn put_bytes(&mut self, bytes: &[u8]) {
        self.put_number(bytes.len() as u64);
        self.0.update(bytes);
    }

    /// A 2, the key, the sequence number, the kind's tag and the value.
    fn put_entry<A: Allocator>(&mut self, item: &InternalValue<A>) {
        self.put_number(2);
        self.put_bytes(item.key.user_key.as_slice());
        self.put_number(item.key.seqno);
        self.put_number(u64::from(item.key.value_type.tag()));
        self.put_bytes(item.value.as_slice());
    }

    /// A 1 and the error code.
    pub fn put_error(&mut self, error: &Error) {
        self.put_number(1);
        self.put_number(u64::from(error.number()));
    }

    /// The entry that a point read finds: a 0 for none.
    pub fn put_found<A: Allocator>(&mut self, found: &Option<InternalValue<A>>) {
        match found {
            Some(item) => self.put_entry(item),
            None => self.put_number(0),
        }
    }

    /// The result of a point read.
    pub fn put_answer<A: Allocator>(&mut self, answer: &Result<Option<InternalValue<A>>, Error>) {
        match answer {
            Ok(found) => self.put_found(found),
            Err(error) => self.put_error(error),
        }
    }

    /// The result of a step of an iteration; `false` at the end, which counts as a 0.
    pub fn put_step<A: Allocator>(&mut self, step: &Option<IterItem<A>>) -> bool {
        match step {
            Some(Ok(item)) => self.put_entry(item),
            Some(Err(error)) => self.put_error(error),
            None => self.put_number(0),
        }
        step.is_some()
    }

    /// The result of a step over the index; `false` at the end, which counts as a 0.
    ///
    /// A handle counts as a 2, the end key, its sequence number, and the block's offset and length.
    pub fn put_handle<A: Allocator>(
        &mut self,
        step: &Option<Result<KeyedBlockHandle<A>, Error>>,
    ) -> bool {
        match step {
            Some(Ok(handle)) => {
                self.put_number(2);
                self.put_bytes(handle.end_key().as_slice());
                self.put_number(handle.seqno());
                self.put_number(handle.offset().0);
                self.put_number(u64::from(handle.size()));
            }
            Some(Err(error)) => self.put_error(error),
            None => self.put_number(0),
        }
        step.is_some()
    }

    /// The numbers of data, index and filter blocks that were loaded.
    pub fn put_opened(&mut self, opened: &Opened) {
        self.put_number(opened.data_loads);
        self.put_number(opened.index_loads);
        self.put_number(opened.filter_loads);
    }

    /// The number of loaded blocks of each kind, the meta block last.
    pub fn put_loads(&mut self, opened: &Opened) {
        self.put_opened(opened);
        self.put_number(opened.meta_loads);
    }
}
