//! The verified-block cache, which remembers payloads with a valid checksum or grammar.
ghost use Rattle.std.specs.Prelude.{◌≡◌, IsTrue, IfOk};
ghost use Rattle.sst_blocks.specs.Words as spec;

use crate::Slice;
use atomic_table::{Play, Table, TableRule};
use std::alloc::{AllocError, Allocator, Global};
use std::marker::Model;

/// The number of table bytes per cache slot.
pub(crate) const SPAN: u64 = 2048;

// Payloads from here on are not cached, so that twice a start fits a slot with room to spare.
const END: u64 = 1 << 62;

/// What is verified of a payload.
#[derive(Clone, Copy)]
pub(crate) enum Verified {
    /// It has the checksum in its header.
    Checksum,
    /// It has that checksum, and follows its grammar.
    Grammar,
}

// A slot is 0 if empty. Else it is twice the start of a payload, plus 1 for a valid checksum, or
// plus 2 for a valid grammar as well.
struct Compared;

impl<A: Allocator> TableRule<u8, Slice<A>, Slice<A>> for Compared {
    ghost use Rattle.sst_blocks.specs.Marks.{AllSay};

    ghost holds = { λ bytes s. AllSay bytes s.words };

    ghost first = { λ bytes. bytes };
}

// A slot that is read satisfies the slot invariant.
struct Found;

impl<A: Allocator> Play<u8, Slice<A>> for Found {
    ghost use Rattle.sst_blocks.specs.Marks.{Says};

    ghost then = { λ _ before found _. Says before.0 found };
}

// Nothing is known of the old slot.
struct Quiet;

impl<A: Allocator> Play<u8, Slice<A>> for Quiet {
    ghost then = { λ _ _ _ _. Unit {0} };
}

// The number of slots per allocation; the last may have fewer.
const PART: usize = 1024;

type Words<A> = Table<u8, Slice<A>, Slice<A>, Compared, A>;

/// The verified-block cache of a table's bytes, with a slot per [`SPAN`] bytes.
///
/// A slot has the last payload starting there whose checksum matched, and whether its grammar was
/// checked. Concurrent reads and writes are allowed. In contracts it is the table's bytes.
#[derive(Drop)]
pub(crate) struct Marks<A: Allocator = Global> {
    bytes: Slice<A>,
    words: Vec<Words<A>, A>,
}

impl<A: Allocator> Model for Marks<A> {
    ghost use Rattle.std.specs.Prelude.{◌≡◌, List, ℕ};
    ghost use Rattle.std.specs.List.{All};

    ghost Value = { List ℕ };

    ghost view = { λ m. m.bytes };

    ghost invariant = { λ m. All (λ w. w.shared.key ≡ m.bytes) m.words.items };
}

impl<A: Allocator + Clone> Marks<A> {
    /// Creates an empty cache.
    pub(crate) fn new(alloc: A, bytes: &Slice<A>) -> Result<Marks<A>, AllocError>
        ensures { IfOk result (λ m. m ≡ bytes.now) }
    {
        let count = bytes.len() / SPAN as usize + 1;
        let parts = count.div_ceil(PART);
        // Slots are initialized by copying from these.
        let unmarked = Vec::from_elem(alloc.clone()?, 0u64, count.min(PART))?;
        let mut words = Vec::with_capacity(alloc.clone()?, parts)?;
        for at in 0..parts {
            let part = PART.min(count - at * PART);
            let (table, _seat) = Table::of_words(
                alloc.clone()?,
                &unmarked.as_slice()[..part],
                bytes,
            )?;
            words.push(table)?;
        }
        Ok(Marks {
            bytes: bytes.clone()?,
            words,
        })
    }

    /// Returns the slot for a payload's start, or 0 if there is none.
    fn word(&self, start: u64) -> u64
        ensures { spec.Says self.now result }
    {
        let at = (start / SPAN) as usize;
        match self.words.get(at / PART) {
            Some(words) if at % PART < words.word_count() => {
                let (found, _seat) = words.shared.load_new_seat::<Found>(at % PART);
                found
            }
            _ => 0,
        }
    }

    /// Sets the slot for a payload's start, if there is one.
    fn set_word(&self, start: u64, word: u64)
        requires { spec.Says self.now word }
    {
        let at = (start / SPAN) as usize;
        if let Some(words) = self.words.get(at / PART) {
            if at % PART < words.word_count() {
                let (_found, _seat) = words.shared.swap_new_seat::<Quiet>(at % PART, word);
            }
        }
    }

    /// Returns whether this is known of the payload starting here.
    pub(crate) fn has(&self, start: u64, verified: Verified) -> bool
        ensures { IsTrue result → spec.Holds verified self.now start }
    {
        let word = self.word(start);
        match verified {
            Verified::Checksum => 0 < word && (word - 1) / 2 == start,
            Verified::Grammar => start < END && word == 2 * start + 2,
        }
    }

    /// Remembers this of the payload starting here.
    pub(crate) fn add(&self, start: u64, verified: Verified)
        requires { spec.Holds verified self.now start }
    {
        if start < END {
            match verified {
                Verified::Checksum => self.set_word(start, 2 * start + 1),
                Verified::Grammar => self.set_word(start, 2 * start + 2),
            }
        }
    }
}
