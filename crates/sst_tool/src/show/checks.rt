//! Verifies files.
ghost use Rattle.std.specs.Prelude.{◌≡◌, ◌<◌, List, IfErr, IfOk};
ghost use Rattle.sst_tool.specs.show.Words as spec;
ghost use Rattle.lsm_readers.specs.declared.verify.VerifyError.TheVariants.{OutOfMemory};

use crate::files::ToolError;
use crate::lines::Format;
use crate::show::NamedTable;
use crate::show::blocks::{NamedBlock, named_blocks, refusal_of, region_blocks, source_of};
use crate::show::verify_line::{VerifyLine, print_verify_line};
use lsm_readers::{
    Fault, Finding, ParsedRegions, Table, TableInner, Verification, Verified, VerifyError,
};
use sst_blocks::{BlockSource, Error, Slice};
use std::alloc::Allocator;
use std::io::Write;

/// Receives the progress of a verification.
pub trait Progress {
    /// Called after each block, with the bytes of data blocks read so far and the bytes in all.
    fn moved(&mut self, done: u64, all: u64);
}

/// Ignores progress.
#[derive(Clone, Copy, Debug)]
pub struct NoProgress;

impl Progress for NoProgress {
    fn moved(&mut self, _done: u64, _all: u64) {}
}

/// The result of verifying a table.
#[derive(Drop)]
struct Looked {
    // the number of blocks read
    blocks: u64,
    verdict: Result<Verified, VerifyError>,
}

/// Reads a whole file, block after block, and writes a line about it.
///
/// For a valid file the line says how many entries and blocks it has. Otherwise it has the first
/// fault with its section and offset, and the error code if a block does not load. One more line
/// follows for each further block of the filter, index and data that does not load. Returns the
/// number of faults written. As JSON each line is an object.
///
/// # Errors
///
/// Fails with [`ToolError::Output`] and with `OutOfMemory`. Lines already written stay.
pub fn verify<'a, A: Allocator + Copy, W: Write, P: Progress>(
    alloc: A,
    output: &mut W,
    file: &NamedTable<'a, A>,
    format: Format,
    progress: &mut P,
) -> Result<u64, ToolError<'a>>
    // No fault is counted exactly if the bytes of the file store a list.
    ensures sound { IfOk result (λ faults. faults ≡ 0 → spec.IsSoundTable file.now.table) }
    ensures complete { spec.IsSoundTable file.now.table → IfOk result (λ faults. faults ≡ 0) }
    // A fault of the file is not an error, so no error names it.
    ensures unnamed { IfErr result spec.NamesNone }
{
    let looked = look_at(&file.table, progress);
    match looked.verdict {
        Ok(verified) => {
            let line = VerifyLine::Sound(&verified, looked.blocks);
            print_verify_line(alloc, output, file.name, line, format)?;
            Ok(0)
        }
        Err(VerifyError::OutOfMemory) => Err(ToolError::Refused(Error::OutOfMemory)),
        Err(VerifyError::Found(finding)) => {
            print_faults(alloc, output, file, &finding, looked.blocks, format)
        }
    }
}

// Reads the blocks of a table.
fn look_at<A: Allocator + Clone, P: Progress>(table: &Table<A>, progress: &mut P) -> Looked
    ensures sound { IfOk result.verdict (λ _.
        (es : List spec.Entry) × spec.StoresList table.now.bytes es) }
    ensures complete { (es : List spec.Entry) → spec.StoresList table.now.bytes es →
        IfErr result.verdict (λ e. e ≡ OutOfMemory) }
{
    let Ok(mut verification) = table.verification() else {
        return Looked {
            blocks: 0,
            verdict: Err(VerifyError::OutOfMemory),
        };
    };
    let looked = look_on(&mut verification, table.metadata.file_size, progress);
    drop(verification);
    looked
}

// Runs a verification to its end. The data blocks have `all` bytes.
fn look_on<A: Allocator + Clone, P: Progress>(
    verification: &mut Verification<A>,
    all: u64,
    progress: &mut P,
) -> Looked
    ensures sound { IfOk result.verdict (λ _.
        (es : List spec.Entry) × spec.StoresList verification.old.table.bytes es) }
    ensures complete { (es : List spec.Entry) → spec.StoresList verification.old.table.bytes es →
        IfErr result.verdict (λ e. e ≡ OutOfMemory) }
{
    let mut blocks = 0u64;
    loop {
        match verification.step() {
            Ok(None) => {
                blocks = blocks.saturating_add(1);
                progress.moved(verification.bytes_read(), all);
            }
            Ok(Some(verified)) => {
                return Looked {
                    blocks,
                    verdict: Ok(verified),
                };
            }
            Err(error) => {
                return Looked {
                    blocks,
                    verdict: Err(error),
                };
            }
        }
    }
}

// Writes the line of the first fault, and a line for each further block that does not load. Returns
// the number of lines.
fn print_faults<'a, A: Allocator + Copy, W: Write>(
    alloc: A,
    output: &mut W,
    file: &NamedTable<'a, A>,
    finding: &Finding,
    blocks: u64,
    format: Format,
) -> Result<u64, ToolError<'a>>
    ensures some { IfOk result (λ count. 0 < count) }
    ensures unnamed { IfErr result spec.NamesNone }
{
    let first = VerifyLine::First(finding, blocks);
    print_verify_line(alloc, output, file.name, first, format)?;
    let further = match file_blocks(alloc, &file.table) {
        Ok((source, blocks)) => {
            let found = Some(finding);
            print_unloaded(alloc, output, file.name, found, &source, &blocks, format)?
        }
        Err(_) => return Err(ToolError::Refused(Error::OutOfMemory)),
    };
    Ok(further.saturating_add(1))
}

// The bytes of a table, and its blocks.
type Blocks<A> = (BlockSource<A>, Vec<NamedBlock, A>);

fn file_blocks<A: Allocator + Copy>(alloc: A, table: &Table<A>) -> Result<Blocks<A>, Error> {
    let source = source_of(alloc, table)?;
    let inner: &TableInner<A> = table;
    let blocks = named_blocks(alloc, &source, inner)?;
    Ok((source, blocks))
}

/// Writes a line for each block that does not load, for a file that does not open as a table: its
/// meta block, filter, index and data, as far as its bytes name them. Returns the number of lines.
///
/// # Errors
///
/// Fails with [`ToolError::Output`] and with `OutOfMemory`. Lines already written stay.
pub fn verify_unopened<'a, A: Allocator + Copy, W: Write>(
    alloc: A,
    output: &mut W,
    name: &str,
    bytes: Slice<A>,
    format: Format,
) -> Result<u64, ToolError<'a>>
    ensures { IfErr result spec.NamesNone }
{
    match BlockSource::new(alloc, bytes) {
        Ok(source) => print_regions(alloc, output, name, &source, format),
        // Without a trailer no block is known.
        Err(_) => Ok(0),
    }
}

// Writes a line for each block of these regions that does not load. Returns the number of lines.
fn print_regions<'a, A: Allocator + Copy, W: Write>(
    alloc: A,
    output: &mut W,
    name: &str,
    source: &BlockSource<A>,
    format: Format,
) -> Result<u64, ToolError<'a>>
    ensures { IfErr result spec.NamesNone }
{
    let Ok(regions) = ParsedRegions::parse_from_toc(&source.toc()) else {
        return Ok(0);
    };
    match region_blocks(alloc, source, &regions) {
        Ok(blocks) => print_unloaded(alloc, output, name, None, source, &blocks, format),
        Err(_) => Err(ToolError::Refused(Error::OutOfMemory)),
    }
}

// Writes a line for each of these blocks that does not load, except for one that a finding already
// names. Returns the number of lines.
fn print_unloaded<'a, A: Allocator + Copy, W: Write>(
    alloc: A,
    output: &mut W,
    name: &str,
    finding: Option<&Finding>,
    source: &BlockSource<A>,
    blocks: &[NamedBlock],
    format: Format,
) -> Result<u64, ToolError<'a>>
    ensures { IfErr result spec.NamesNone }
{
    let mut count = 0u64;
    for block in blocks {
        match refusal_of(source, block) {
            Ok(None) => {}
            Ok(Some(_)) if is_told(finding, block) => {}
            Ok(Some(error)) => {
                let line = VerifyLine::Unloaded(block.begin(), &error);
                print_verify_line(alloc, output, name, line, format)?;
                count = count.saturating_add(1);
            }
            Err(_) => return Err(ToolError::Refused(Error::OutOfMemory)),
        }
    }
    Ok(count)
}

// Whether a finding already says that a block does not load.
fn is_told(finding: Option<&Finding>, block: &NamedBlock) -> bool {
    match finding {
        None => false,
        Some(finding) => {
            matches!(finding.fault, Fault::Unloaded(_))
                && finding.section.place() == block.section.place()
                && finding.offset == block.place.offset().0
        }
    }
}
