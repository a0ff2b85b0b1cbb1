//! Items yielded from both ends, and the steps that load a row.
use crate::{Row, Rows};
use lsm_iters::{Ends, Walk};
use sst_entries::{Direction, Error};
use std::alloc::Global;
use std::collections::LinkedList;

// The result of a step.
#[derive(Clone, Copy, Debug, PartialEq, Eq)]
enum Given {
    Number(u8),
    Fault,
    Nothing,
}

// A step at an end, its result, and the number of rows that are not loaded after it.
type Step = (Direction, Given, usize);

fn row_of(alloc: Global, numbers: &[u8]) -> Result<Row, Error> {
    let mut list = LinkedList::new(alloc);
    for number in numbers {
        if list.push_back(*number).is_err() {
            return Err(Error::OutOfMemory);
        }
    }
    Ok(Row {
        numbers: list,
        loads: 2,
    })
}

// An iteration over rows. A row of a single 0 cannot be loaded.
fn walk_over(alloc: Global, rows: &[&[u8]]) -> Result<Walk<Rows, Row>, Error> {
    let mut list = LinkedList::new(alloc);
    for numbers in rows {
        let row = if *numbers == [0].as_slice() {
            Err(Error::SeqNoOverflow)
        } else {
            row_of(alloc, numbers)
        };
        if list.push_back(row).is_err() {
            return Err(Error::OutOfMemory);
        }
    }
    Ok(Walk::new(Rows { rows: list }))
}

fn as_given(answer: Option<Result<u8, Error>>) -> Given {
    match answer {
        Some(Ok(number)) => Given::Number(number),
        Some(Err(_)) => Given::Fault,
        None => Given::Nothing,
    }
}

// The number of steps with the expected result, up to the first with another one.
fn steps_met(walk: &mut Walk<Rows, Row>, steps: &[Step]) -> usize {
    let mut met = 0usize;
    for (at, want, left) in steps {
        let is_met = as_given(walk.step(*at)) == *want && walk.parts.rows.len() == *left;
        if !is_met {
            return met;
        }
        met = met.saturating_add(1);
    }
    met
}

fn all_met(alloc: Global, rows: &[&[u8]], steps: &[Step]) -> bool {
    match walk_over(alloc, rows) {
        Ok(mut walk) => steps_met(&mut walk, steps) == steps.len(),
        Err(_) => false,
    }
}

#[test]
fn rows_are_loaded_where_a_step_needs_them(rt: HostRuntime) {
    let rows: [&[u8]; 4] = [&[1, 2], &[], &[3], &[4, 5]];
    let steps = [
        (Direction::Front, Given::Number(1), 3),
        (Direction::Back, Given::Number(5), 2),
        (Direction::Back, Given::Number(4), 2),
        (Direction::Front, Given::Number(2), 2),
        (Direction::Front, Given::Number(3), 0),
        (Direction::Back, Given::Nothing, 0),
        (Direction::Front, Given::Nothing, 0),
    ];
    assert!(rt; all_met(rt.alloc(), &rows, &steps));
}

#[test]
fn the_last_row_serves_both_ends(rt: HostRuntime) {
    let rows: [&[u8]; 1] = [&[1, 2, 3]];
    let steps = [
        (Direction::Back, Given::Number(3), 0),
        (Direction::Front, Given::Number(1), 0),
        (Direction::Back, Given::Number(2), 0),
        (Direction::Front, Given::Nothing, 0),
    ];
    assert!(rt; all_met(rt.alloc(), &rows, &steps));
}

#[test]
fn nothing_comes_behind_a_fault(rt: HostRuntime) {
    let rows: [&[u8]; 4] = [&[1], &[0], &[], &[2]];
    let steps = [
        (Direction::Back, Given::Number(2), 3),
        (Direction::Back, Given::Fault, 0),
        (Direction::Front, Given::Nothing, 0),
        (Direction::Back, Given::Nothing, 0),
    ];
    assert!(rt; all_met(rt.alloc(), &rows, &steps));
}
