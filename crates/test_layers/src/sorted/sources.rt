//! Sources of the results of a text.

use crate::sorted::words::results_of;
use sst_entries::{Error, IterItem};
use std::alloc::Allocator;
use std::vec::IntoIter;

/// The results of a text, from both ends.
pub fn listed_of<A: Allocator>(
    alloc: A,
    text: &'static str,
) -> Result<IntoIter<IterItem<A>, A>, Error> {
    Ok(results_of(alloc, text)?.into_iter())
}

/// A source that yields the items of a list, from the front only.
#[derive(Drop)]
pub struct Forward<A: Allocator> {
    items: IntoIter<IterItem<A>, A>,
}

impl<A: Allocator> Iterator for Forward<A> {
    type Item = IterItem<A>;

    ghost can_next = { λ s. ⟦<IntoIter<IterItem<A>, A> as Iterator>⟧.can_next s.items };

    ghost next_gives = { λ s r t. ⟦<IntoIter<IterItem<A>, A> as Iterator>⟧.next_gives s.items r
        t.items };

    ghost remaining = { λ s. ⟦<IntoIter<IterItem<A>, A> as Iterator>⟧.remaining s.items };

    fn next(&mut self) -> Option<IterItem<A>> {
        self.items.next()
    }
}

/// The source of the results of a text, from the front only.
pub fn forward_of<A: Allocator>(alloc: A, text: &'static str) -> Result<Forward<A>, Error> {
    let items = results_of(alloc, text)?.into_iter();
    Ok(Forward { items })
}

/// The lists of a text, each up to a `/`.
pub fn lists_of<A: Allocator + Copy>(
    alloc: A,
    text: &'static str,
) -> Result<Vec<IntoIter<IterItem<A>, A>, A>, Error> {
    let mut lists = Vec::new(alloc);
    for part in text.split_terminator('/') {
        lists.push(listed_of(alloc, part)?)?;
    }
    Ok(lists)
}

/// The sources of a text, from the front only, each up to a `/`.
pub fn forwards_of<A: Allocator + Copy>(
    alloc: A,
    text: &'static str,
) -> Result<Vec<Forward<A>, A>, Error> {
    let mut sources = Vec::new(alloc);
    for part in text.split_terminator('/') {
        sources.push(forward_of(alloc, part)?)?;
    }
    Ok(sources)
}
