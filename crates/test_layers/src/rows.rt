//! Lists of numbers as the parts of an iteration.
ghost use Rattle.std.specs.Prelude.{Option, Result};
ghost use Rattle.test_layers.specs.Words as spec;

use lsm_iters::{Ends, Parts};
use sst_entries::{Direction, Error};
use std::collections::LinkedList;

/// Yields numbers from both ends. `loads` is the number of loads that it may still make; the first
/// step makes them.
#[derive(Drop)]
pub struct Row {
    pub numbers: LinkedList<u8>,
    pub loads: u8,
}

/// Rows, with an error at the position of each row that cannot be loaded.
#[derive(Drop)]
pub struct Rows {
    pub rows: LinkedList<Result<Row, Error>>,
}

impl Ends for Row {
    type Item = u8;

    ghost left = { spec.row_remains };

    fn step(&mut self, at: Direction) -> Option<Result<u8, Error>> {
        self.loads = 0;
        match at {
            Direction::Front => match self.numbers.pop_front() {
                Some(number) => Some(Ok(number)),
                None => None,
            },
            Direction::Back => match self.numbers.pop_back() {
                Some(number) => Some(Ok(number)),
                None => None,
            },
        }
    }
}

impl Parts for Rows {
    type Part = Row;

    ghost coming = { spec.coming_rows };

    ghost keeps = { λ s named t. Unit {0} };

    ghost ends = { λ s t. Unit {0} };

    fn load(&mut self, at: Direction) -> Option<Result<Row, Error>> {
        match at {
            Direction::Front => match self.rows.pop_front() {
                Some(row) => Some(row),
                None => None,
            },
            Direction::Back => match self.rows.pop_back() {
                Some(row) => Some(row),
                None => None,
            },
        }
    }

    fn end(&mut self) {
        self.rows.clear();
    }
}
