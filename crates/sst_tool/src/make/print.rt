//! Prints runs of files.
ghost use Rattle.std.specs.Prelude.{◌≡◌, ◌<◌, ◌≤◌, [], length};
ghost use Rattle.sst_tool.specs.make.Words as spec;

use crate::files::Escaped;
use crate::show::{line_of, write_number};
use json::Writer;
use lsm_sorted::{Packed, Ranged};
use std::alloc::{AllocError, Allocator};
use std::io;
use std::io::Write;

/// Returns the path at an index, or a question mark.
pub(crate) fn path_at<'a>(paths: &[&'a str], place: usize) -> &'a str
    ensures { result.now ≡ spec.path_or_mark (spec.slice_get paths.now place) }
{
    match paths.get(place) {
        Some(path) => path,
        None => "?",
    }
}

// Returns the chain of several runs. It is empty for one run, of which a chain shows nothing.
fn shown_chain<T, A: Allocator>(packed: &Packed<T, A>) -> &[(usize, usize)]
    ensures one { length packed.now.runs.items ≤ 1 → result.now ≡ [] }
    ensures several { 1 < length packed.now.runs.items → result.now ≡ packed.now.chain.items }
{
    if packed.runs.len() > 1 {
        packed.chain.as_slice()
    } else {
        &[]
    }
}

/// Prints packed files: the number of runs and the files of each. After several runs it prints a
/// chain of overlapping files, which shows that fewer runs do not suffice. `paths` are the paths of
/// the files, by index.
///
/// # Errors
///
/// Fails with the error of the output.
pub fn print_packed<W: Write, T: Ranged, A: Allocator>(
    output: &mut W,
    paths: &[&str],
    packed: &Packed<T, A>,
) -> io::Result<()> {
    let count = packed.runs.len();
    writeln!(output, "fewest runs: {count}")?;
    for (at, run) in packed.runs.iter().enumerate() {
        let number = at + 1;
        write!(output, "run {number}:")?;
        for table in run.as_slice() {
            print_name(output, paths, table.place)?;
        }
        output.write_all(b"\n")?;
    }
    let chain = shown_chain(packed);
    if chain.is_empty() {
        return Ok(());
    }
    output.write_all(b"each overlaps the next:")?;
    for link in chain {
        print_name(output, paths, link.0)?;
    }
    output.write_all(b"\n")
}

/// Returns packed files as a JSON object with a newline. It has the number of runs, the files of
/// each, and a chain of overlapping files, which is empty for one run. `paths` are the paths of the
/// files, by index.
///
/// # Errors
///
/// Fails only if memory runs out.
pub fn packed_object<T: Ranged, A: Allocator + Copy>(
    alloc: A,
    paths: &[&str],
    packed: &Packed<T, A>,
) -> Result<Vec<u8, A>, AllocError> {
    let mut writer = Writer::new(Vec::new(alloc));
    writer.begin_object()?;
    write_number(&mut writer, "fewest_runs", packed.runs.len() as u64)?;
    writer.key("runs")?;
    writer.begin_array()?;
    for run in &packed.runs {
        writer.begin_array()?;
        for table in run.as_slice() {
            writer.string(path_at(paths, table.place))?;
        }
        writer.end_array()?;
    }
    writer.end_array()?;
    writer.key("each_overlaps_the_next")?;
    writer.begin_array()?;
    for link in shown_chain(packed) {
        writer.string(path_at(paths, link.0))?;
    }
    writer.end_array()?;
    writer.end_object()?;
    line_of(writer)
}

// Prints a space and the path at an index.
fn print_name<W: Write>(output: &mut W, paths: &[&str], place: usize) -> io::Result<()> {
    let path = Escaped(path_at(paths, place));
    write!(output, " {path}")
}
