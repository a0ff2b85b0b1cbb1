//! Sweeps: the results of a table unchanged, and with each of its bytes changed.
use crate::digest::Digest;
use crate::reading::{Pins, asked, changed, open, put_facts, put_read};
use crate::walking::{BACKS, FRONTS, IN_TURN, put_walk};
use lsm_iters::{BlockIndex, BlockIndexImpl, BlockIndexIterImpl, Iter};
use lsm_readers::{Query, Table, get_many, point_in};
use sst_blocks::{BlockSource, Counted, Error, SeqNo, Slice};
use std::alloc::Allocator;
use std::ops::Bound;

/// The table to open, and the reads of it.
#[derive(Drop)]
pub struct Subject<'a, A: Allocator> {
    pub alloc: A,
    pub bytes: &'a [u8],
    pub pins: Pins,
    pub reads: &'a [Query<A>],
}

/// The result of a sweep.
#[derive(Clone, Copy)]
pub struct Swept {
    /// The number of tables for which `open` was called.
    pub opens: u64,
    /// The number of these that were opened.
    pub taken: u64,
    /// The changes, and for each the error or the metadata of the table.
    pub opened: Digest,
    /// The results and loads of point reads.
    pub read: Digest,
    /// The results and loads of iterations.
    pub walked: Digest,
}

// The checksums of an open table's metadata, and of the results of its reads and iterations.
#[derive(Clone, Copy)]
struct Answers {
    returned: u64,
    read: u64,
    walked: u64,
}

fn source_of<A: Allocator + Copy>(alloc: A, table: &Table<A>) -> Result<BlockSource<A>, Error> {
    BlockSource::new(alloc, table.bytes()?)
}

// Point reads, each by the table and over a source that counts loads.
fn put_reads<A: Allocator + Copy>(
    digest: &mut Digest,
    source: &BlockSource<A>,
    table: &Table<A>,
    reads: &[Query<A>],
) {
    for read in reads {
        let opened = put_read(digest, table, read);
        digest.put_loads(&opened);
        let key = read.key.as_slice();
        let mut counted = Counted::new(source);
        let hash = Table::<A>::key_hash(key);
        digest.put_answer(&point_in(&mut counted, table, key, read.seqno, hash));
        digest.put_loads(&counted.opened());
    }
}

// Many point reads at once.
fn put_many<A: Allocator + Copy>(digest: &mut Digest, table: &Table<A>, reads: &[Query<A>]) {
    match get_many(table, reads) {
        Ok(answers) => {
            for found in answers.iter() {
                digest.put_found(found);
            }
        }
        Err(error) => digest.put_error(&error),
    }
}

fn digest_of_reads<A: Allocator + Copy>(
    table: &Table<A>,
    subject: &Subject<'_, A>,
) -> Result<u64, Error> {
    let source = source_of(subject.alloc, table)?;
    let mut digest = Digest::new();
    put_reads(&mut digest, &source, table, subject.reads);
    drop(source);
    put_many(&mut digest, table, subject.reads);
    Ok(digest.finish())
}

// The lower bound of a range, exclusive.
const ABOVE: &[u8] = b"a";

fn above<A: Allocator + Copy>(alloc: A, table: &Table<A>) -> Result<Iter<A>, Error> {
    let lower = Bound::Excluded(Slice::from(alloc, ABOVE)?);
    table.range(lower, Bound::Unbounded)
}

fn handles_of<A: Allocator + Copy>(
    index: &BlockIndexImpl<A>,
    _: (),
) -> Result<BlockIndexIterImpl<A>, Error> {
    index.iter()
}

// The entries, those above a key, and the handles of the index, from some ends.
fn put_walks<A: Allocator + Copy>(
    digest: &mut Digest,
    alloc: A,
    table: &Table<A>,
    ends: [bool; 2],
) {
    put_walk(digest, table.iter(), ends);
    put_walk(digest, above(alloc, table), ends);
    put_walk(digest, asked(table.block_index(), (), handles_of), ends);
}

fn digest_of_walks<A: Allocator + Copy>(alloc: A, table: &Table<A>) -> u64 {
    let mut digest = Digest::new();
    for ends in [FRONTS, BACKS, IN_TURN] {
        put_walks(&mut digest, alloc, table, ends);
    }
    put_walk(&mut digest, table.scan(), FRONTS);
    digest.finish()
}

fn answers_of<A: Allocator + Copy>(
    table: &Table<A>,
    subject: &Subject<'_, A>,
) -> Result<Answers, Error> {
    let mut returned = Digest::new();
    put_facts(&mut returned, table);
    Ok(Answers {
        returned: returned.finish(),
        read: digest_of_reads(table, subject)?,
        walked: digest_of_walks(subject.alloc, table),
    })
}

// Opens a table with some bytes changed.
fn answers_to<A: Allocator + Copy>(
    subject: &Subject<'_, A>,
    changes: &[u64],
    global_seqno: SeqNo,
) -> Result<Answers, Error> {
    let bytes = changed(subject.alloc, subject.bytes, changes)?;
    let table = open(subject.alloc, &bytes, subject.pins, global_seqno);
    drop(bytes);
    asked(table, subject, answers_of)
}

impl Swept {
    fn open<A: Allocator + Copy>(
        &mut self,
        subject: &Subject<'_, A>,
        changes: &[u64],
        global_seqno: SeqNo,
    ) {
        self.opens = self.opens.saturating_add(1);
        self.opened.put_number(global_seqno);
        match answers_to(subject, changes, global_seqno) {
            Ok(answers) => {
                self.taken = self.taken.saturating_add(1);
                self.opened.put_number(answers.returned);
                self.read.put_number(answers.read);
                self.walked.put_number(answers.walked);
            }
            Err(error) => self.opened.put_error(&error),
        }
    }

    // Opens a table with the byte at an index changed to 0, to 255 and to its complement.
    fn change_byte<A: Allocator + Copy>(&mut self, subject: &Subject<'_, A>, at: u64, byte: u8) {
        for (way, value) in [0, 0xff, !byte].iter().enumerate() {
            // The complement of 0 is 255, and that of 255 is 0.
            let is_again = way == 2 && (byte == 0 || byte == 0xff);
            if *value != byte && !is_again {
                let value = u64::from(*value);
                self.opened.put_number(at);
                self.opened.put_number(value);
                self.open(subject, &[at, value], 0);
            }
        }
    }

    // Opens a table with each byte changed in turn.
    fn change_bytes<A: Allocator + Copy>(&mut self, subject: &Subject<'_, A>) {
        for (at, byte) in subject.bytes.iter().enumerate() {
            self.change_byte(subject, at as u64, *byte);
        }
    }
}

/// Opens a table unchanged under some global sequence numbers. Then opens it under 0 with each byte
/// in turn changed to 0, to 255 and to its complement.
pub fn sweep<A: Allocator + Copy>(subject: &Subject<'_, A>, global_seqnos: &[SeqNo]) -> Swept {
    let mut sweep = Swept {
        opens: 0,
        taken: 0,
        opened: Digest::new(),
        read: Digest::new(),
        walked: Digest::new(),
    };
    for global_seqno in global_seqnos {
        sweep.open(subject, &[], *global_seqno);
    }
    sweep.change_bytes(subject);
    sweep
}
