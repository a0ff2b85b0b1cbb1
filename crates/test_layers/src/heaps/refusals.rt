//! The allocator of tests fails the request that it is set to, and no other.

use crate::heaps::examples::{Example, Refused, first_wrong, requests};
use std::alloc::{Allocator, Global};
use test_support::Refusing;

// How many of some requests succeed before the first that fails, and how many in all; and whether
// each is counted.
fn granted(memory: &Refusing, requests: usize) -> (usize, usize, bool) {
    let mut before = 0usize;
    let mut all = 0usize;
    let mut are_counted = true;
    for made in 0..requests {
        are_counted &= memory.requests() == made;
        if Vec::<u8, &Refusing>::with_capacity(memory, 1).is_ok() {
            before = before.saturating_add(usize::from(all == made));
            all = all.saturating_add(1);
        }
    }
    (before, all, are_counted && memory.requests() == requests)
}

// Makes a list with room for one number, which is one request, and grows it for a second, which is
// one more.
fn grows<A: Allocator>(memory: A) -> (bool, bool) {
    let Ok(mut list) = Vec::with_capacity(memory, 1) else {
        return (false, false);
    };
    let first = list.push(1u8).is_ok();
    let second = list.push(2u8).is_ok();
    (first, second)
}

// A request that fails, and the outcome.
enum Refusal {
    // How many of six requests succeed before it, and how many in all.
    OfSix(usize, usize, usize),
    // Whether a list is made and grows, and the number of requests.
    Growth(usize, (bool, bool), usize),
}

impl Example for Refusal {
    fn is_so(&self, alloc: Global) -> bool {
        match self {
            Refusal::OfSix(nth, before, all) => {
                granted(&Refusing::new(alloc, *nth), 6) == (*before, *all, true)
            }
            Refusal::Growth(nth, grown, made) => {
                let memory = Refusing::new(alloc, *nth);
                grows(&memory) == *grown && memory.requests() == *made
            }
        }
    }
}

const REFUSALS: &[Refusal] = &[
    Refusal::OfSix(0, 6, 6),
    Refusal::OfSix(1, 0, 5),
    Refusal::OfSix(2, 1, 5),
    Refusal::OfSix(3, 2, 5),
    Refusal::OfSix(4, 3, 5),
    Refusal::OfSix(5, 4, 5),
    Refusal::OfSix(6, 5, 5),
    Refusal::OfSix(7, 6, 6),
    // A growth is a request.
    Refusal::Growth(0, (true, true), 2),
    Refusal::Growth(1, (false, false), 1),
    Refusal::Growth(2, (true, false), 2),
];

#[test]
fn the_request_that_it_is_told_to_is_refused_and_no_other(rt: HostRuntime) {
    let wrong = first_wrong(rt.alloc(), REFUSALS);
    assert!(rt; wrong.is_none(), "{wrong:?}");
}

// Whether the results of a growing list count as right, without a failing request and with one.
// Then the result with each of its requests failing in turn.
struct Growing(bool, bool, Result<usize, usize>);

impl Refused for Growing {
    fn answers(&self, memory: &Refusing, fails: bool) -> bool {
        grows(memory) == (true, true) && self.0 || fails && self.1
    }
}

impl Example for Growing {
    fn is_so(&self, alloc: Global) -> bool {
        requests(alloc, self) == self.2
    }
}

const GROWING: &[Growing] = &[
    Growing(true, true, Ok(2)),
    Growing(true, false, Err(1)),
    Growing(false, true, Err(0)),
];

#[test]
fn each_request_of_a_growth_is_refused_in_turn(rt: HostRuntime) {
    let wrong = first_wrong(rt.alloc(), GROWING);
    assert!(rt; wrong.is_none(), "{wrong:?}");
}
