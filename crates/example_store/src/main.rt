//! A small store over sorted tables: the newest entries in memory, and then runs of tables.
//!
//! Each write gets the next sequence number. The store reads as the history of its writes: a read
//! at a snapshot returns what this history says. This holds whatever was flushed, compacted and
//! packed since, whether the store was closed and opened, and whatever failed in between.
//!
//! The program writes, overwrites and deletes 20,000 keys, with two snapshots, packing and
//! compaction. It closes the store, opens it from its files and goes on. Each time it compares the
//! store with a plain map, by point reads of each key and by ranges from both ends.
#![tactic(auto)]

mod compare;
mod memtable;
mod reopen;
mod store;
mod writes;

use compare::Compared;
use std::io::{self, Write};

// Prints the comparisons of one step.
fn print_one<W: Write>(out: &mut W, compared: &Compared) -> io::Result<()> {
    let (moment, snapshot) = (compared.moment, compared.snapshot);
    let (gets, front, back) = (compared.gets, compared.front, compared.back);
    writeln!(
        out,
        "{moment}, snapshot {snapshot}: {} gets, {} wrong; \
         from the front {}, {} wrong; from the back {}, {} wrong",
        gets.all, gets.wrong, front.all, front.wrong, back.all, back.wrong
    )
}

fn print_all<W: Write>(out: &mut W, all: &[Compared]) -> io::Result<()> {
    for compared in all {
        print_one(out, compared)?;
    }
    Ok(())
}

fn main(rt: HostRuntime) -> anyhow::Result<()> {
    let all = writes::compare_all(&rt)?;
    print_all(&mut rt.stdout(), &all)?;
    Ok(())
}
