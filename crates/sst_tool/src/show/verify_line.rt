//! The lines of a verification, as text or as JSON objects.
ghost use Rattle.std.specs.Prelude.{IfErr};
ghost use Rattle.sst_tool.specs.show.Words as spec;

use crate::files::{BlockPlace, Escaped, FileFault, ToolError, section_name};
use crate::lines::{Format, word_for};
use crate::show::members::{line_of, write_number, write_text};
use crate::show::stats::item_name;
use json::Writer;
use lsm_readers::{Fault, Finding, Verified};
use sst_blocks::Error;
use std::alloc::{AllocError, Allocator};
use std::fmt;
use std::io::{self, Write};

/// What a line of a verification says about a file.
#[derive(Clone, Copy, Debug)]
pub enum VerifyLine<'a> {
    /// The table is valid. The number is that of the blocks read.
    Sound(&'a Verified, u64),
    /// The first fault of a table, after so many valid blocks.
    First(&'a Finding, u64),
    /// A further block that does not load.
    Unloaded(BlockPlace, &'a Error),
    /// The file does not open as a table.
    Unopened(&'a Error),
    /// The file cannot be read.
    Unread(&'a FileFault),
}

/// Writes a line about a file, as text or as a JSON object such as
/// `{"name":"a.sst","valid":false,"section":"data","offset":0,"fault":"hash","code":5}`.
///
/// # Errors
///
/// Fails with [`ToolError::Output`], and for an object with `OutOfMemory`.
pub fn print_verify_line<A: Allocator + Copy, W: Write>(
    alloc: A,
    output: &mut W,
    name: &str,
    line: VerifyLine<'_>,
    format: Format,
) -> Result<(), ToolError<'static>>
    ensures { IfErr result spec.NamesNone }
{
    match format {
        Format::Lines => print_text(output, name, line)?,
        Format::Json => {
            let text = object_of(alloc, name, line)?;
            output.write_all(&text)?;
        }
    }
    Ok(())
}

fn print_text<W: Write>(output: &mut W, name: &str, line: VerifyLine<'_>) -> io::Result<()> {
    let name = Escaped(name);
    match line {
        VerifyLine::Sound(verified, blocks) => print_sound(output, name, verified, blocks),
        VerifyLine::First(finding, blocks) => print_first(output, name, finding, blocks),
        VerifyLine::Unloaded(place, error) => {
            let number = error.number();
            writeln!(output, "{name}: {place}: {error} ({number})")
        }
        VerifyLine::Unopened(error) => {
            let number = error.number();
            writeln!(output, "{name}: {error} ({number})")
        }
        VerifyLine::Unread(fault) => writeln!(output, "{name}: {fault}"),
    }
}

fn print_sound<W: Write>(
    output: &mut W,
    name: Escaped<'_>,
    verified: &Verified,
    blocks: u64,
) -> io::Result<()> {
    let (entries, data) = (verified.item_count, verified.data_block_count);
    let entry_word = word_for(entries, "entry", "entries");
    let data_word = word_for(data, "data block", "data blocks");
    let word = word_for(blocks, "block", "blocks");
    writeln!(
        output,
        "{name}: valid, {entries} {entry_word} in {data} {data_word}, {blocks} {word} read"
    )
}

fn print_first<W: Write>(
    output: &mut W,
    name: Escaped<'_>,
    finding: &Finding,
    blocks: u64,
) -> io::Result<()> {
    let (place, fault) = (place_of(finding), FaultText(&finding.fault));
    write!(output, "{name}: {place}: {fault}")?;
    if let Some(code) = code_of(&finding.fault) {
        write!(output, " ({code})")?;
    }
    let word = word_for(blocks, "block before it is", "blocks before it are");
    writeln!(output, ", {blocks} {word} valid")
}

fn place_of(finding: &Finding) -> BlockPlace {
    BlockPlace {
        section: finding.section,
        offset: finding.offset,
    }
}

// Returns the error code of a fault, if it has one.
fn code_of(fault: &Fault) -> Option<u8> {
    match fault {
        Fault::Unloaded(error) | Fault::Unfiltered(error) => Some(error.number()),
        _ => None,
    }
}

// A fault, displayed without its error code.
#[derive(Clone, Copy)]
struct FaultText<'a>(&'a Fault);

impl<'a> fmt::Display for FaultText<'a> {
    fn fmt<W: fmt::Write>(&self, f: &mut fmt::Formatter<W>) -> fmt::Result {
        match self.0 {
            Fault::Unloaded(error) => write!(f, "{error}"),
            Fault::Unfiltered(error) => write!(f, "the filter's block of a key: {error}"),
            Fault::Unborne(item) => {
                let item = item_name(*item);
                write!(f, "the entries do not bear out the meta item {item}")
            }
            fault => f.write_str(fault_text(fault)),
        }
    }
}

// The text of a fault that has neither an error nor an item.
fn fault_text(fault: &Fault) -> &'static str {
    match fault {
        Fault::Unloaded(_) => "the block does not load",
        Fault::Hollow => "no entry, or no handle",
        Fault::Misplaced => "the block does not begin where the one before it ended",
        Fault::TooHigh => "an entry has the number 18446744073709551615",
        Fault::Unordered => "an entry does not follow on the one before it",
        Fault::Denied => "a key is denied by the filter",
        Fault::Unfiltered(_) => "a key's block of the filter does not load",
        Fault::OtherKey => "the block does not end with the key that its handle names",
        Fault::OtherNumber => "the block does not end with the number that its handle names",
        Fault::Unborne(_) => "the entries do not bear out an item of the meta block",
        Fault::Unnamed => "a data block that no handle names",
        Fault::OtherChecksum => "the file has another checksum than the one that was given",
    }
}

// Returns the object with a newline.
fn object_of<A: Allocator + Copy>(
    alloc: A,
    name: &str,
    line: VerifyLine<'_>,
) -> Result<Vec<u8, A>, AllocError> {
    let mut writer = Writer::new(Vec::new(alloc));
    writer.begin_object()?;
    write_text(&mut writer, "name", name)?;
    writer.key("valid")?;
    writer.boolean(matches!(line, VerifyLine::Sound(_, _)))?;
    write_members(alloc, &mut writer, line)?;
    writer.end_object()?;
    line_of(writer)
}

fn write_members<A: Allocator + Copy>(
    alloc: A,
    writer: &mut Writer<A>,
    line: VerifyLine<'_>,
) -> Result<(), AllocError> {
    match line {
        VerifyLine::Sound(verified, blocks) => {
            write_number(writer, "entries", verified.item_count)?;
            write_number(writer, "data_blocks", verified.data_block_count)?;
            write_number(writer, "blocks_read", blocks)
        }
        VerifyLine::First(finding, blocks) => {
            write_place(writer, place_of(finding))?;
            let fault = FaultText(&finding.fault);
            write_fault(alloc, writer, &fault, code_of(&finding.fault))?;
            write_number(writer, "valid_blocks_before", blocks)
        }
        VerifyLine::Unloaded(place, error) => {
            write_place(writer, place)?;
            write_fault(alloc, writer, error, Some(error.number()))
        }
        VerifyLine::Unopened(error) => write_fault(alloc, writer, error, Some(error.number())),
        VerifyLine::Unread(fault) => write_fault(alloc, writer, fault, None),
    }
}

fn write_place<A: Allocator>(writer: &mut Writer<A>, place: BlockPlace) -> Result<(), AllocError> {
    write_text(writer, "section", section_name(place.section))?;
    write_number(writer, "offset", place.offset)
}

// Writes the text of a fault, and its error code if it has one.
fn write_fault<A: Allocator + Copy, F: fmt::Display>(
    alloc: A,
    writer: &mut Writer<A>,
    fault: &F,
    code: Option<u8>,
) -> Result<(), AllocError> {
    let text = format!(in alloc; "{fault}")?;
    write_text(writer, "fault", text.as_str())?;
    match code {
        Some(code) => write_number(writer, "code", code as u64),
        None => Ok(()),
    }
}
