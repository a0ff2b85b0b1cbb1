//! The commands, and the state that they set.
use crate::reading::{Pins, asked, read_all, read_damaged};
use crate::sweeping::{Subject, Swept, sweep};
use crate::words::{bytes_of, number_of, numbers_of, split_word};
use crate::writing::{Choices, write_table};
use lsm_readers::Query;
use lsm_writers::FinishedTable;
use sst_blocks::{Error, InternalValue, Slice, ValueType};
use std::alloc::Allocator;
use std::mem;

/// The result of a command.
#[derive(Drop)]
pub enum Answer {
    Silent,
    /// Whether the bytes are those of the table, and their checksum.
    Written { is_same: bool, checksum: u128 },
    Read(u64),
    Swept(Swept),
    Refused(u8),
    Unknown,
}

/// The state that the commands so far have set.
#[derive(Drop)]
pub struct Script<A: Allocator> {
    alloc: A,
    table: Vec<u8, A>,
    items: Vec<InternalValue<A>, A>,
    reads: Vec<Query<A>, A>,
}

// A number of a list, or 0 if the list is shorter.
fn at(numbers: &[u64], place: usize) -> u64 {
    match numbers.get(place) {
        Some(number) => *number,
        None => 0,
    }
}

// A number as a `u32`, or the largest one if it is too large.
fn at_u32(numbers: &[u64], place: usize) -> u32 {
    u32::try_from(at(numbers, place)).unwrap_or(u32::MAX)
}

fn at_u8(numbers: &[u64], place: usize) -> u8 {
    u8::try_from(at(numbers, place)).unwrap_or(u8::MAX)
}

fn pins_of(numbers: &[u64]) -> Pins {
    Pins {
        filter: at(numbers, 0) == 1,
        index: at(numbers, 1) == 1,
    }
}

fn choices_of(numbers: &[u64]) -> Choices {
    Choices {
        id: at(numbers, 0),
        level: at_u8(numbers, 1),
        moment: at(numbers, 2),
        keeps_defaults: numbers.len() <= 3,
        size_before: at_u32(numbers, 3),
        has_index_parts: at(numbers, 4) == 1,
        has_filter_parts: at(numbers, 5) == 1,
        size_behind: at_u32(numbers, 6),
        block_size: at_u32(numbers, 7),
        bits: at_u32(numbers, 8),
        interval: at_u8(numbers, 9),
    }
}

fn choices_in<A: Allocator>(alloc: A, words: &[u8]) -> Result<Choices, Error> {
    Ok(choices_of(&numbers_of(alloc, words)?))
}

fn pins_in<A: Allocator>(alloc: A, words: &[u8]) -> Result<Pins, Error> {
    Ok(pins_of(&numbers_of(alloc, words)?))
}

fn kind_of(word: &[u8]) -> ValueType {
    match word {
        b"1" => ValueType::Tombstone,
        b"2" => ValueType::WeakTombstone,
        b"4" => ValueType::Indirection,
        _ => ValueType::Value,
    }
}

fn slice_of<A: Allocator + Clone>(alloc: A, word: &[u8]) -> Result<Slice<A>, Error> {
    Slice::from_vec(bytes_of(alloc, word)?)
}

// The entry of the words after `entry`.
fn item_of<A: Allocator + Copy>(alloc: A, line: &[u8]) -> Result<InternalValue<A>, Error> {
    let (key, rest) = split_word(line);
    let (number, rest) = split_word(rest);
    let (kind, value) = split_word(rest);
    let key = slice_of(alloc, key)?;
    let value = slice_of(alloc, value)?;
    Ok(InternalValue::from_components(key, value, number_of(number), kind_of(kind)))
}

// The read of the words after `query`.
fn read_of<A: Allocator + Copy>(alloc: A, line: &[u8]) -> Result<Query<A>, Error> {
    let (key, bound) = split_word(line);
    Ok(Query {
        key: slice_of(alloc, key)?,
        seqno: number_of(bound),
    })
}

// Whether a table has these bytes, and their checksum.
fn written_as<A: Allocator>(table: &FinishedTable<A>, bytes: &[u8]) -> Result<Answer, Error> {
    Ok(Answer::Written {
        is_same: table.bytes.as_slice() == bytes,
        checksum: table.checksum.0,
    })
}

// Pushes a value, or returns the error of making it.
fn add<T: Drop, A: Allocator>(values: &mut Vec<T, A>, made: Result<T, Error>) -> Result<(), Error> {
    values.push(made?)?;
    Ok(())
}

fn silent(done: Result<(), Error>) -> Result<Answer, Error> {
    done?;
    Ok(Answer::Silent)
}

impl<A: Allocator + Copy> Script<A> {
    /// The state before any command.
    pub fn new(alloc: A) -> Script<A> {
        Script {
            alloc,
            table: Vec::new(alloc),
            items: Vec::new(alloc),
            reads: Vec::new(alloc),
        }
    }

    /// The result of a line.
    pub fn answer(&mut self, line: &[u8]) -> Answer {
        match self.obey(line) {
            Ok(answer) => answer,
            Err(error) => Answer::Refused(error.number()),
        }
    }

    fn obey(&mut self, line: &[u8]) -> Result<Answer, Error> {
        let (name, words) = split_word(line);
        match name {
            b"write" => self.write(words),
            b"read" => self.read(words),
            b"damage" => self.damage(words),
            b"sweep" => self.sweep(words),
            _ => self.note(name, words),
        }
    }

    // Keeps the arguments of a command for the lines after it.
    fn note(&mut self, name: &[u8], words: &[u8]) -> Result<Answer, Error> {
        match name {
            b"table" => silent(self.set_table(words)),
            b"entry" => silent(add(&mut self.items, item_of(self.alloc, words))),
            b"query" => silent(add(&mut self.reads, read_of(self.alloc, words))),
            b"forget" => silent(self.forget()),
            _ => Ok(Answer::Unknown),
        }
    }

    fn set_table(&mut self, words: &[u8]) -> Result<(), Error> {
        self.table = bytes_of(self.alloc, words)?;
        Ok(())
    }

    fn forget(&mut self) -> Result<(), Error> {
        self.items.clear();
        self.reads.clear();
        Ok(())
    }

    fn write(&mut self, words: &[u8]) -> Result<Answer, Error> {
        let choices = choices_in(self.alloc, words)?;
        let items = mem::replace(&mut self.items, Vec::new(self.alloc));
        let table = write_table(self.alloc, &choices, items);
        asked(table, self.table.as_slice(), written_as)
    }

    fn read(&self, words: &[u8]) -> Result<Answer, Error> {
        let pins = pins_in(self.alloc, words)?;
        Ok(Answer::Read(read_all(self.alloc, &self.table, pins, &self.reads)?))
    }

    fn damage(&self, words: &[u8]) -> Result<Answer, Error> {
        let numbers = numbers_of(self.alloc, words)?;
        let pins = pins_of(&numbers);
        let changes = numbers.get(2..).unwrap_or(&[]);
        let checksum = read_damaged(self.alloc, &self.table, pins, changes, &self.reads);
        drop(numbers);
        Ok(Answer::Read(checksum?))
    }

    fn sweep(&self, words: &[u8]) -> Result<Answer, Error> {
        let numbers = numbers_of(self.alloc, words)?;
        let subject = Subject {
            alloc: self.alloc,
            bytes: &self.table,
            pins: pins_of(&numbers),
            reads: &self.reads,
        };
        Ok(Answer::Swept(sweep(&subject, numbers.get(2..).unwrap_or(&[]))))
    }
}
