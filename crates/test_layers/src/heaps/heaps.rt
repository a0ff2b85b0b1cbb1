//! The priority queues compared with a count of each number, their matches, and their requests for
//! memory.

use crate::heaps::examples::{Example, Refused, first_wrong, requests};
use crate::heaps::queues::{Counts, Queue, Turn, interval_heap, lazy_tournament, tournament};
use sst_entries::Error;
use std::alloc::Global;
use test_support::Refusing;

// The queue under test.
enum Kind {
    Tournament,
    IntervalHeap,
    Lazy,
}

const KINDS: &[Kind] = &[Kind::Tournament, Kind::IntervalHeap, Kind::Lazy];

// A turn, the number that it takes out, how many numbers are left, and how many comparisons were
// made.
type Step = (Turn, Option<u8>, usize, u64);

// The test of a queue.
enum Asked {
    // Push as many numbers as there is room for, the digits of a code. Then pop them all, the least
    // and the greatest as a pattern has it.
    All,
    // Push and pop numbers as the digits of a code have it, in this many turns.
    Turns(u8),
    // To take these steps.
    Steps(&'static [Step]),
}

// A code, and a pattern if there is one.
type Order = (u32, u32);

// The queues under test, their room, the test, and the numbers of codes and of patterns.
struct Case(&'static [Kind], usize, Asked, Order);

// Whether a queue has the same result of a turn as the counts.
fn takes_so<Q: Queue>(queue: &mut Q, counts: &mut Counts, turn: Turn) -> bool {
    let wanted = counts.take(turn);
    let (taken, count, _) = queue.take(turn);
    taken == wanted && count == counts.len()
}

// Whether a queue returns all numbers that are pushed, the digits of a code, as the pattern has it,
// and then none.
fn gives_up_all<Q: Queue>(queue: &mut Q, numbers: usize, order: Order) -> bool {
    let (mut code, mut pattern) = order;
    let mut counts = Counts { of: [0; 3] };
    let mut is_so = true;
    for _ in 0..numbers {
        is_so &= takes_so(queue, &mut counts, Turn::Add((code % 3) as u8));
        code /= 3;
    }
    is_so &= counts.len() == numbers;
    for _ in 0..numbers {
        let turn = if pattern % 2 == 0 {
            Turn::Least
        } else {
            Turn::Greatest
        };
        is_so &= takes_so(queue, &mut counts, turn);
        pattern /= 2;
    }
    is_so &= counts.len() == 0;
    is_so &= takes_so(queue, &mut counts, Turn::Least);
    is_so && takes_so(queue, &mut counts, Turn::Greatest)
}

// Whether a queue agrees with the counts while the digits of a code push and pop numbers. The digit
// 0 pushes a number if there is room. Otherwise the digit 1 pops the least number, and another
// digit the greatest.
fn follows<Q: Queue>(queue: &mut Q, room: usize, code: u32, turns: u8) -> bool {
    let mut counts = Counts { of: [0; 3] };
    let mut code = code;
    let mut is_so = true;
    for place in 0..turns {
        let turn = match code % 3 {
            0 if counts.len() < room => Turn::Add(place % 3),
            1 => Turn::Least,
            _ => Turn::Greatest,
        };
        is_so &= takes_so(queue, &mut counts, turn);
        code /= 3;
    }
    is_so
}

// Whether a queue takes these steps.
fn takes_steps<Q: Queue>(queue: &mut Q, steps: &[Step]) -> bool {
    let mut is_so = true;
    for (turn, wanted, count, made) in steps {
        let (taken, left, steps) = queue.take(*turn);
        is_so &= taken == *wanted && left == *count && steps == *made;
    }
    is_so
}

// Whether a queue passes a test.
fn answers<Q: Queue>(queue: &mut Q, room: usize, asked: &Asked, order: Order) -> bool {
    match asked {
        Asked::All => gives_up_all(queue, room, order),
        Asked::Turns(turns) => follows(queue, room, order.0, *turns),
        Asked::Steps(steps) => takes_steps(queue, steps),
    }
}

// Whether a new queue passes a test without a further request for memory; or making it fails with
// `OutOfMemory`, where `fails` is set.
fn answers_once_made<Q: Queue + Drop>(
    heap: &Refusing,
    made: Result<Q, Error>,
    room: usize,
    asked: &Asked,
    order: Order,
    fails: bool,
) -> bool {
    match made {
        Ok(mut queue) => {
            let requests = heap.requests();
            answers(&mut queue, room, asked, order) && heap.requests() == requests && !fails
        }
        Err(error) => fails && error == Error::OutOfMemory,
    }
}

// Whether a queue of a kind passes a test.
fn is_so(
    heap: &Refusing,
    kind: &Kind,
    room: usize,
    asked: &Asked,
    order: Order,
    fails: bool,
) -> bool {
    match kind {
        Kind::Tournament => {
            answers_once_made(heap, tournament(heap, room), room, asked, order, fails)
        }
        Kind::IntervalHeap => {
            answers_once_made(heap, interval_heap(heap, room), room, asked, order, fails)
        }
        Kind::Lazy => {
            answers_once_made(heap, lazy_tournament(heap, room), room, asked, order, fails)
        }
    }
}

// Whether a queue of a kind passes a test with each code and pattern, where no request for memory
// fails.
fn answers_each(alloc: Global, kind: &Kind, case: &Case) -> bool {
    let Case(_, room, asked, (codes, patterns)) = case;
    for code in 0..*codes {
        for pattern in 0..*patterns {
            let memory = Refusing::new(alloc, 0);
            if !is_so(&memory, kind, *room, asked, (code, pattern), false) {
                return false;
            }
        }
    }
    true
}

impl Example for Case {
    fn is_so(&self, alloc: Global) -> bool {
        for kind in self.0 {
            if !answers_each(alloc, kind, self) {
                return false;
            }
        }
        true
    }
}

const CASES: &[Case] = &[
    // Each list of up to six numbers in each pattern of pops.
    Case(KINDS, 0, Asked::All, (1, 1)),
    Case(KINDS, 1, Asked::All, (3, 2)),
    Case(KINDS, 2, Asked::All, (9, 4)),
    Case(KINDS, 3, Asked::All, (27, 8)),
    Case(KINDS, 4, Asked::All, (81, 16)),
    Case(KINDS, 5, Asked::All, (243, 32)),
    Case(KINDS, 6, Asked::All, (729, 64)),
    // Pushes and pops in turns.
    Case(KINDS, 4, Asked::Turns(8), (6561, 1)),
    // Each match is played for the least and for the greatest, but not above one that another slot
    // wins as before. So the last push leaves the final of the greatest as it is. The matches above
    // an emptied slot are played at the next call.
    Case(
        &[Kind::Tournament],
        4,
        Asked::Steps(&[
            (Turn::Add(b'd'), None, 1, 0),
            (Turn::Add(b'b'), None, 2, 2),
            (Turn::Add(b'c'), None, 3, 4),
            (Turn::Add(b'a'), None, 4, 7),
            (Turn::Least, Some(b'a'), 3, 7),
            (Turn::Greatest, Some(b'd'), 2, 8),
        ]),
        (1, 1),
    ),
    // One number needs no comparison.
    Case(
        &[Kind::Tournament],
        1,
        Asked::Steps(&[
            (Turn::Add(b'a'), None, 1, 0),
            (Turn::Greatest, Some(b'a'), 0, 0),
        ]),
        (1, 1),
    ),
    // An end that is not polled plays no match: three at the first pop, and one after 'a' is gone.
    // Then one more for the least, after 'b' is gone, and one for the greatest: the others have no
    // opponent. None at the last.
    Case(
        &[Kind::Lazy],
        4,
        Asked::Steps(&[
            (Turn::Add(b'd'), None, 1, 0),
            (Turn::Add(b'b'), None, 2, 0),
            (Turn::Add(b'c'), None, 3, 0),
            (Turn::Add(b'a'), None, 4, 0),
            (Turn::Least, Some(b'a'), 3, 3),
            (Turn::Least, Some(b'b'), 2, 4),
            (Turn::Greatest, Some(b'd'), 1, 6),
            (Turn::Least, Some(b'c'), 0, 6),
        ]),
        (1, 1),
    ),
];

#[test]
fn queues_give_up_what_is_counted_by_the_matches_that_they_play(rt: HostRuntime) {
    let wrong = first_wrong(rt.alloc(), CASES);
    assert!(rt; wrong.is_none(), "{wrong:?}");
}

// Pushes two numbers, and pops the greatest and the least, five times.
const FIVE_TIMES: Order = (45 * (1 + 81 + 6561 + 531441 + 43046721), 0);

// A kind, its room, and the requests for memory of making it. Filling and emptying it many times
// makes no more.
struct Made(Kind, usize, usize);

impl Refused for Made {
    fn answers(&self, memory: &Refusing, fails: bool) -> bool {
        is_so(
            memory,
            &self.0,
            self.1,
            &Asked::Turns(20),
            FIVE_TIMES,
            fails,
        )
    }
}

impl Example for Made {
    fn is_so(&self, alloc: Global) -> bool {
        requests(alloc, self) == Ok(self.2)
    }
}

const MADE: &[Made] = &[
    Made(Kind::Tournament, 2, 4),
    Made(Kind::Tournament, 3, 4),
    Made(Kind::IntervalHeap, 2, 1),
    Made(Kind::IntervalHeap, 3, 1),
    Made(Kind::Lazy, 2, 4),
    Made(Kind::Lazy, 3, 4),
];

#[test]
fn memory_is_taken_at_first_alone(rt: HostRuntime) {
    let wrong = first_wrong(rt.alloc(), MADE);
    assert!(rt; wrong.is_none(), "{wrong:?}");
}
