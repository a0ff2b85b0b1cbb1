//! Packing runs of tables.
use crate::digest::code;
use lsm_sorted::{KeyRange, Ranged, Run, optimize_runs};
use sst_blocks::{Error, Slice};
use std::alloc::{AllocError, Global};

/// The number of runs, the number of their tables, and a wrapping sum.
///
/// The sum is of the tables' numbers, and depends on the run and the index of each table.
#[repr(C)]
#[derive(Clone, Copy)]
pub struct Packed {
    /// The number of runs.
    pub runs: u64,
    /// The number of tables.
    pub tables: u64,
    /// The sum.
    pub sum: u64,
}

// The part of a table that packing reads.
#[derive(Drop)]
struct Span {
    number: u64,
    range: KeyRange,
}

impl Ranged for Span {
    ghost use Rattle.std.specs.Prelude.{ℕ};
    ghost use Rattle.std.proofs.Common.{ap};
    ghost use Rattle.lsm_sorted.specs.version.KeyRange.{Interval};

    type Alloc = Global;

    ghost Meaning = { ℕ × Interval };

    ghost meaning = { λ t. (t.number, t.range) };

    ghost range = { λ t. t.range };

    fn key_range(&self) -> &KeyRange {
        &self.range
    }

    ghost steady = { λ x y same. ap (λ m. m.1) same };
}

impl Clone for Span {
    ghost use Rattle.std.specs.Prelude.{◌≡◌};

    ghost is_clone = { λ span copy. copy ≡ span };

    fn clone(&self) -> Result<Span, AllocError> {
        Ok(Span {
            number: self.number,
            range: self.range.clone()?,
        })
    }
}

// The table of two keys.
fn span_of(alloc: Global, number: u64, least: &[u8], greatest: &[u8]) -> Result<Span, Error> {
    let least = Slice::from(alloc, least)?;
    let greatest = Slice::from(alloc, greatest)?;
    Ok(Span {
        number,
        range: KeyRange::new((least, greatest)),
    })
}

// A run for each table.
fn runs_of(alloc: Global, keys: &[u8], key_len: usize) -> Result<Vec<Run<Span>>, Error> {
    let mut runs = Vec::new(alloc);
    let mut rest = keys;
    for number in 0..keys.len() as u64 {
        let Some((least, after)) = rest.split_at_checked(key_len) else {
            break;
        };
        let Some((greatest, after)) = after.split_at_checked(key_len) else {
            break;
        };
        rest = after;
        let mut tables = Vec::new(alloc);
        tables.push(span_of(alloc, number, least, greatest)?)?;
        if let Some(run) = Run::new(tables) {
            runs.push(run)?;
        }
    }
    Ok(runs)
}

fn packed_of(runs: &[Run<Span>]) -> Packed {
    let mut packed = Packed {
        runs: 0,
        tables: 0,
        sum: 0,
    };
    for run in runs {
        packed.runs = packed.runs.wrapping_add(1);
        for table in run.as_slice() {
            packed.tables = packed.tables.wrapping_add(1);
            packed.sum = packed
                .sum
                .wrapping_mul(0x0000_0100_0000_01b3)
                .wrapping_add(table.number ^ packed.runs);
        }
    }
    packed
}

fn optimize(
    alloc: Global,
    keys: &[u8],
    key_len: usize,
    passes: u64,
    packed: &mut Packed,
) -> Result<(), Error> {
    let mut runs = runs_of(alloc, keys, key_len)?;
    if passes > 0 {
        runs = optimize_runs(alloc, runs)?;
    }
    *packed = packed_of(runs.as_slice());
    Ok(())
}

/// Makes a run for each table, and packs the runs into as few as possible, unless `passes` is 0.
///
/// `keys` has the least and the greatest key of each table, concatenated, all of one length.
/// `packed` describes the runs.
#[unsafe(no_mangle)]
pub extern "C" fn tool_bench_optimize_runs(
    alloc: Global,
    keys: &[u8],
    key_len: usize,
    passes: u64,
    packed: &mut Packed,
) -> u32 {
    code(optimize(alloc, keys, key_len, passes, packed))
}
