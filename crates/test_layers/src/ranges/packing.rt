//! Worked examples of packing runs and of chains of tables, also with allocation failures.

use crate::ranges::tables::{
    Example, FakeTable, first_wrong, has_ids, number_of, requests, run_of,
};
use lsm_sorted::{Ranged, Run, optimize_runs, overlap_chain};
use sst_entries::Error;
use std::alloc::Allocator;
use test_support::Refusing;

// The tables of some runs, each run up to a `/`, possibly emptied ones. The ids of the runs that
// they are packed into, if these are compared. The least and the greatest length of a chain. If
// there is only one chain of several tables, the runs that it passes through.
struct Packing(
    &'static str,
    Option<&'static str>,
    usize,
    usize,
    &'static str,
);

fn runs_of<A: Allocator + Copy>(
    alloc: A,
    text: &'static str,
) -> Result<Vec<Run<FakeTable<A>, A>, A>, Error> {
    let mut runs = Vec::new(alloc);
    for tables in text.split_terminator('/') {
        runs.push(run_of(alloc, tables)?)?;
    }
    Ok(runs)
}

// The fault of a result: 0 for none, 1 for `OutOfMemory` and 2 for any other.
fn fault_of(answer: Result<bool, Error>) -> u32 {
    match answer {
        Ok(true) => 0,
        Err(Error::OutOfMemory) => 1,
        _ => 2,
    }
}

// Whether each position has a table that overlaps with the one before it, which is in an earlier
// run. The positions are in the runs of these digits, as far as there are digits.
fn is_chain<A: Allocator>(
    runs: &[Run<FakeTable<A>, A>],
    chain: &[(usize, usize)],
    through: &[u8],
) -> bool {
    let mut last: Option<(usize, &FakeTable<A>)> = None;
    for step in 0..chain.len() {
        let (run, index) = chain[step];
        if let Some(digit) = through.get(step)
            && number_of(*digit) != run
        {
            return false;
        }
        let Some(tables) = runs.get(run) else {
            return false;
        };
        let Some(table) = tables.as_slice().get(index) else {
            return false;
        };
        if let Some((before, other)) = last {
            let overlaps = other.key_range().overlaps_with_key_range(table.key_range());
            if before >= run || !overlaps {
                return false;
            }
        }
        last = Some((run, table));
    }
    true
}

// The fault of the chain of some runs.
fn chain_faults<A: Allocator + Copy>(
    alloc: A,
    runs: &[Run<FakeTable<A>, A>],
    packing: &Packing,
) -> u32 {
    let Packing(_, _, least, greatest, through) = packing;
    match overlap_chain(alloc, runs) {
        Ok(chain) => {
            let has_length = *least <= chain.len() && chain.len() <= *greatest;
            fault_of(Ok(has_length && is_chain(runs, &chain, through.as_bytes())))
        }
        Err(error) => fault_of(Err(error)),
    }
}

// Whether some runs have the ids of these digits, each up to a `/`.
fn have_ids<A: Allocator>(runs: &[Run<FakeTable<A>, A>], text: &str) -> bool {
    let mut count = 0usize;
    for digits in text.split_terminator('/') {
        let Some(run) = runs.get(count) else {
            return false;
        };
        if !has_ids(run.as_slice(), digits) {
            return false;
        }
        count = count.saturating_add(1);
    }
    count == runs.len()
}

// The fault of the runs that some runs are packed into.
fn packing_faults<A: Allocator + Copy>(
    alloc: A,
    runs: Vec<Run<FakeTable<A>, A>, A>,
    packing: &Packing,
) -> u32 {
    match optimize_runs(alloc, runs) {
        Ok(packed) => match packing.1 {
            Some(ids) => fault_of(Ok(have_ids(&packed, ids))),
            None => 0,
        },
        Err(error) => fault_of(Err(error)),
    }
}

impl Example for Packing {
    // The chain and the packing each continue after an allocation failure of the other. There is no
    // other fault.
    fn is_so(&self, heap: &Refusing, may_fail: bool) -> bool {
        let faults = match runs_of(heap, self.0) {
            Ok(runs) => {
                let chained = chain_faults(heap, &runs, self);
                packing_faults(heap, runs, self).saturating_add(chained)
            }
            Err(error) => fault_of(Err(error)),
        };
        faults <= u32::from(may_fail)
    }
}

const THREE: Packing = Packing("2:m-p / 1:a-z / 0:a-c /", Some("2/1/0/"), 3, 3, "012");

const PACKINGS: &[Packing] = &[
    Packing("", Some(""), 0, 0, ""),
    Packing("0:a-b /", Some("0/"), 1, 1, ""),
    Packing("0:a-b / 1:a-b /", Some("0/1/"), 2, 2, "01"),
    Packing("0:a-z / 1:c-f /", Some("0/1/"), 2, 2, "01"),
    Packing("0:c-f / 1:a-z /", Some("0/1/"), 2, 2, "01"),
    Packing("0:a-c / 1:d-f /", Some("01/"), 1, 1, ""),
    Packing("1:d-f / 0:a-c /", Some("01/"), 1, 1, ""),
    THREE,
    Packing(
        "0:a-c 1:m-p / 2:b-n / 3:d-f / 4:x-z /",
        Some("014/2/3/"),
        3,
        3,
        "012",
    ),
    Packing("0:a-z 1:c-d /", Some("01/"), 1, 1, ""),
    // Emptied runs.
    Packing("/", None, 0, 0, ""),
    Packing("/ / /", None, 0, 0, ""),
    Packing("/ 0:a-b / /", None, 1, 1, ""),
    Packing("/ 0:a-b 1:c-d /", None, 1, 1, ""),
    Packing("0:a-z / / 1:c-d /", None, 2, 2, "02"),
    Packing("/ 2:m-p / / 1:a-z / 0:a-c /", None, 3, 3, "134"),
    // A range that ends before it starts, alone and with others.
    Packing("0:z-a /", None, 1, 1, ""),
    Packing("/ 0:z-a / /", None, 1, 1, ""),
    Packing("0:z-a 1:b-c /", None, 1, 1, ""),
    Packing("0:z-a / 1:a-z / 2:m-p /", None, 1, 3, ""),
    Packing("0:a-z / 1:p-m / 2:a-z /", None, 1, 3, ""),
    Packing("0:z-a / 1:y-b / 2:x-c /", None, 1, 3, ""),
    // Overlapping ranges in one run, and a run that is out of order.
    Packing("0:a-f 1:c-h /", None, 1, 1, ""),
    Packing("0:a-f 1:c-h / 2:d-e /", None, 1, 2, ""),
    Packing("0:m-p 1:a-c / 2:b-n / /", None, 1, 2, ""),
];

#[test]
fn packed_runs_and_chains_with_each_request_for_memory_refused(rt: HostRuntime) {
    let wrong = first_wrong(rt.alloc(), PACKINGS);
    assert!(rt; wrong.is_none(), "{wrong:?}");
    assert!(rt; requests(rt.alloc(), &THREE).unwrap_or(0) > 5);
}
