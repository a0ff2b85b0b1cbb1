//! Reads and writes tables that an independent program made, and prints a checksum of the results
//! for each table. The results of that program have the same checksums.
//!
//! Standard input is a list of commands, each a line of words. Bytes are in hex, `-` for none, and
//! flags are 1 or 0:
//!
//! - `table BYTES`: the table of the lines below;
//! - `entry KEY SEQNO TAG VALUE`: one more entry, its kind by its tag;
//! - `query KEY BOUND`: one more point read;
//! - `forget`: removes the entries and the point reads;
//! - `write ID LEVEL TIMESTAMP SIZE INDEX FILTER SIZE BLOCK BITS INTERVAL`: writes the entries.
//!   The first partition size is set before the kinds of index and filter (1 for partitions), the
//!   second after them. Then follow the data block size, the tenths of a bit per key and the
//!   restart interval of data blocks. With three numbers alone no option is set. Prints whether the
//!   bytes are those of the table, and their checksum;
//! - `read FILTER INDEX`: opens the table, 1 to pin a part. Prints the checksum of its metadata and
//!   of the results of all reads, with the loads of each point read;
//! - `damage FILTER INDEX POSITION BYTE ..`: opens the table with some bytes changed, or none.
//!   Prints the error code, or the checksum of the results of the point reads and of an iteration;
//! - `sweep FILTER INDEX GLOBAL ..`: opens the table unchanged under each of these global sequence
//!   numbers. Then it opens the table under 0 with each byte in turn set to 0, to 255 and to its
//!   complement, where that is another one. Prints the number of calls of `open`, the number of
//!   those that succeeded, and three checksums. The first is of the changes, and of each error or
//!   table's metadata. The second is of the results and loads of the point reads, and the third of
//!   those of the iterations.
#![tactic(auto)]

mod digest;
mod reading;
mod script;
mod sweeping;
mod walking;
mod words;
mod writing;

use script::{Answer, Script};
use std::alloc::Allocator;
use std::io::{self, BufRead, BufReader, BufWriter, Write};
use sweeping::Swept;

// Reads the next line, without its end; `false` if there is none.
fn read_line<R: BufRead, A: Allocator>(input: &mut R, line: &mut Vec<u8, A>) -> io::Result<bool> {
    line.clear();
    let length = input.read_until(b'\n', line)?;
    if line.last() == Some(&b'\n') {
        line.pop();
    }
    Ok(length > 0)
}

fn print_sweep<W: Write>(output: &mut W, sweep: &Swept) -> io::Result<()> {
    let Swept { opens, taken, .. } = *sweep;
    let (opened, read) = (sweep.opened.finish(), sweep.read.finish());
    let walked = sweep.walked.finish();
    writeln!(output, "sweep {opens} {taken} {opened} {read} {walked}")
}

// Prints the result of a command.
fn print_answer<W: Write>(output: &mut W, answer: &Answer) -> io::Result<()> {
    match answer {
        Answer::Silent => Ok(()),
        Answer::Written { is_same, checksum } => writeln!(output, "written {is_same} {checksum}"),
        Answer::Read(checksum) => writeln!(output, "read {checksum}"),
        Answer::Swept(sweep) => print_sweep(output, sweep),
        Answer::Refused(number) => writeln!(output, "refused {number}"),
        Answer::Unknown => writeln!(output, "unknown"),
    }
}

// Runs the command of each line, up to the last one.
fn answer_lines<A: Allocator + Copy, R: BufRead, W: Write>(
    script: &mut Script<A>,
    line: &mut Vec<u8, A>,
    input: &mut R,
    output: &mut W,
) -> io::Result<()> {
    for _ in 0..u64::MAX {
        if !read_line(input, line)? {
            return Ok(());
        }
        print_answer(output, &script.answer(line.as_slice()))?;
    }
    Ok(())
}

// Reads all lines and writes their results. It is generic in both ends, so that a proof looks at
// none of their parts.
fn answer_all<A: Allocator + Copy, R: BufRead + Drop, W: Write + Drop>(
    alloc: A,
    mut input: R,
    mut output: W,
) -> io::Result<()> {
    let mut script = Script::new(alloc);
    let mut line = Vec::new(alloc);
    let answered = answer_lines(&mut script, &mut line, &mut input, &mut output);
    drop(script);
    let flushed = output.flush();
    answered.and(flushed)
}

fn main(rt: HostRuntime) -> anyhow::Result<()> {
    let input = BufReader::new(rt.alloc(), rt.stdin())?;
    let output = BufWriter::new(rt.alloc(), rt.stdout())?;
    Ok(answer_all(rt.alloc(), input, output)?)
}
