//! Compares lending readers with readers by value: the same entries and errors in the same order,
//! and as many loads. The functions are generic, so that a proof looks at no part of the readers.
use lsm_tables::run::{RunReader, RunScanner};
use lsm_tables::table::{Iter, Scanner};
use sst_blocks::{EntryRef, Error, IterItem, Lending, Opened};
use std::alloc::Global;

/// A reader by value.
pub trait Gives {
    /// The next entry.
    fn gives(&mut self) -> Option<IterItem<Global>>;

    /// The blocks loaded so far, if they are counted.
    fn given_by(&self) -> Opened;
}

impl Gives for Iter<Global> {
    fn gives(&mut self) -> Option<IterItem<Global>> {
        self.next()
    }

    fn given_by(&self) -> Opened {
        self.opened()
    }
}

impl Gives for RunReader<Global> {
    fn gives(&mut self) -> Option<IterItem<Global>> {
        self.next()
    }

    fn given_by(&self) -> Opened {
        Opened::none()
    }
}

impl Gives for Scanner<Global> {
    fn gives(&mut self) -> Option<IterItem<Global>> {
        self.next()
    }

    fn given_by(&self) -> Opened {
        self.opened()
    }
}

impl Gives for RunScanner<Global> {
    fn gives(&mut self) -> Option<IterItem<Global>> {
        self.next()
    }

    fn given_by(&self) -> Opened {
        Opened::none()
    }
}

/// A lending reader.
pub trait Lends {
    /// Advances, and returns whether the result and the borrowed entry equal `given`.
    fn lends(&mut self, given: &Option<IterItem<Global>>) -> bool;

    /// The blocks loaded so far, if they are counted.
    fn lent_by(&self) -> Opened;
}

// Whether a lending step has the same result as a step by value.
fn is_same(
    more: Result<bool, Error>,
    lent: Option<EntryRef<'_>>,
    given: &Option<IterItem<Global>>,
) -> bool {
    match (more, given) {
        (Ok(true), Some(Ok(item))) => lent == Some(item.as_entry_ref()),
        (Err(error), Some(Err(fault))) => lent.is_none() && error == *fault,
        (Ok(false), None) => lent.is_none(),
        _ => false,
    }
}

impl Lends for Iter<Global> {
    fn lends(&mut self, given: &Option<IterItem<Global>>) -> bool {
        let more = self.advance();
        is_same(more, self.entry(), given)
    }

    fn lent_by(&self) -> Opened {
        self.opened()
    }
}

impl Lends for RunReader<Global> {
    fn lends(&mut self, given: &Option<IterItem<Global>>) -> bool {
        let more = self.advance();
        is_same(more, self.entry(), given)
    }

    fn lent_by(&self) -> Opened {
        Opened::none()
    }
}

impl Lends for Scanner<Global> {
    fn lends(&mut self, given: &Option<IterItem<Global>>) -> bool {
        let more = self.advance();
        is_same(more, self.entry(), given)
    }

    fn lent_by(&self) -> Opened {
        self.opened()
    }
}

impl Lends for RunScanner<Global> {
    fn lends(&mut self, given: &Option<IterItem<Global>>) -> bool {
        let more = self.advance();
        is_same(more, self.entry(), given)
    }

    fn lent_by(&self) -> Opened {
        Opened::none()
    }
}

// The result of a step: whether it yielded an entry, and otherwise the error code, or 0 at the end.
type Came = (bool, u8);

const END: Came = (false, 0);

fn what_came(given: &Option<IterItem<Global>>) -> Came {
    match given {
        Some(Ok(_)) => (true, 0),
        Some(Err(error)) => (false, error.number()),
        None => END,
    }
}

// The result of a step of both readers, if both have loaded the same blocks; `None` where they
// differ.
fn step_both<G: Gives, L: Lends>(giving: &mut G, lending: &mut L) -> Option<Came> {
    let given = giving.gives();
    let is_same = lending.lends(&given);
    let came = what_came(&given);
    drop(given);
    if is_same && lending.lent_by() == giving.given_by() {
        Some(came)
    } else {
        None
    }
}

/// The number of entries, and the code of the error after them, or 0.
pub type Walk = (usize, u8);

// The result of both readers, if both are exhausted.
fn over<G: Gives, L: Lends>(giving: &mut G, lending: &mut L, walk: Walk) -> Option<Walk> {
    for _ in 0..3 {
        if step_both(giving, lending) != Some(END) {
            return None;
        }
    }
    Some(walk)
}

// The result of both readers; `None` if they differ or yield 20 entries.
fn walked<G: Gives, L: Lends>(giving: &mut G, lending: &mut L) -> Option<Walk> {
    for entries in 0..20 {
        match step_both(giving, lending) {
            Some((true, _)) => {}
            Some((false, number)) => return over(giving, lending, (entries, number)),
            None => return None,
        }
    }
    None
}

/// The result of a reader by value and a lending one, up to their ends; `None` if they differ.
/// Fails if either cannot be made.
pub fn walk_both<G: Gives + Drop, L: Lends + Drop>(
    giving: Result<G, Error>,
    lending: Result<L, Error>,
) -> Result<Option<Walk>, Error> {
    let mut giving = giving?;
    let mut lending = lending?;
    Ok(walked(&mut giving, &mut lending))
}
