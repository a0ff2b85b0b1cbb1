//! The errors of commands.
use crate::files::{Escaped, FileError};
use crate::lines::LineError;
use sst_blocks::{Error, SectionName};
use std::alloc::{AllocError, AllocFailed};
use std::{fmt, io};

/// The error of a command, displayed as a sentence. Out of memory is always [`ToolError::Refused`],
/// whatever file or line was being read.
#[derive(Debug, Drop)]
pub enum ToolError<'a> {
    /// A key on the command line is malformed: which one, and why.
    Key(KeyWord, LineError),
    /// Standard input cannot be read.
    Input(io::Error),
    /// Standard output could not be written.
    Output(io::Error),
    /// A file cannot be read, opened or written.
    File(FileError<'a>),
    /// A line of the input cannot be written.
    Line {
        /// The line's number, from 1.
        number: u64,
        /// The error.
        fault: LineFault,
    },
    /// The input has no entries, so there is no table to write.
    NoEntries,
    /// The size of blocks or partitions is above 4 MiB.
    SizeTooLarge,
    /// An opened file cannot be read.
    Unreadable {
        /// The file's name.
        name: &'a str,
        /// The block that fails with this error, if it was found.
        at: RefusedAt,
        /// The first error of reading the file.
        error: Error,
    },
    /// The entries of a file are out of order.
    OutOfOrder(&'a str),
    /// A key has the same sequence number twice in the files.
    Repeated,
    /// Entries are out of order. Memory ran out before the file, or a repeated key, was found.
    Unordered,
    /// The first key of a file is above its last key.
    Range(&'a str),
    /// An error of the library, or out of memory.
    Refused(Error),
    /// An error of the library other than `OutOfMemory`. Memory ran out before its file was found.
    Unplaced(Error),
}

impl<'a> fmt::Display for ToolError<'a> {
    fn fmt<W: fmt::Write>(&self, f: &mut fmt::Formatter<W>) -> fmt::Result {
        match self {
            ToolError::Key(_, LineError::OutOfMemory) | ToolError::Refused(Error::OutOfMemory) => {
                f.write_str("out of memory")
            }
            ToolError::Key(word, error) => write!(f, "{word}: {error}"),
            ToolError::Input(error) => write!(f, "standard input: {error}"),
            ToolError::Output(error) => write!(f, "standard output: {error}"),
            ToolError::File(error) => write!(f, "{error}"),
            ToolError::Line { number, fault } => write!(f, "line {number}: {fault}"),
            ToolError::NoEntries => f.write_str("no entries: no table is written"),
            ToolError::SizeTooLarge => {
                f.write_str("a block or partition has at most 4194304 bytes")
            }
            ToolError::Unreadable { name, at, error } => {
                let (name, number) = (Escaped(name), error.number());
                write!(f, "{name}: {at}{error} ({number})")
            }
            ToolError::OutOfOrder(path) => write!(f, "{}: entries out of order", Escaped(path)),
            ToolError::Repeated => {
                f.write_str("two versions of a key have the same sequence number")
            }
            ToolError::Unordered => f.write_str("entries out of order"),
            ToolError::Range(path) => {
                write!(f, "{}: the first key is above the last", Escaped(path))
            }
            ToolError::Refused(error) | ToolError::Unplaced(error) => {
                let number = error.number();
                write!(f, "{error} ({number})")
            }
        }
    }
}

impl<'a> std::error::Error for ToolError<'a> {}

/// A key on the command line, displayed as its option is named there.
#[derive(Clone, Copy, Debug, PartialEq, Eq)]
pub enum KeyWord {
    /// The key to look up.
    Key,
    /// The first key to dump.
    From,
    /// The key at which the dump ends, excluded.
    To,
}

impl fmt::Display for KeyWord {
    fn fmt<W: fmt::Write>(&self, f: &mut fmt::Formatter<W>) -> fmt::Result {
        f.write_str(match self {
            KeyWord::Key => "KEY",
            KeyWord::From => "--from",
            KeyWord::To => "--to",
        })
    }
}

/// The error of a line.
#[derive(Debug, Drop)]
pub enum LineFault {
    /// The line does not parse as an entry.
    Spelling(LineError),
    /// The sequence number is `u64::MAX`, which is reserved.
    TooHigh,
    /// The entry does not sort after the one before it.
    OutOfOrder,
    /// Another line has the same key and sequence number.
    Repeated,
    /// The library cannot write the entry.
    Refused(Error),
}

impl fmt::Display for LineFault {
    fn fmt<W: fmt::Write>(&self, f: &mut fmt::Formatter<W>) -> fmt::Result {
        match self {
            LineFault::Spelling(error) => write!(f, "{error}"),
            LineFault::TooHigh => f.write_str("a sequence number is below 18446744073709551615"),
            LineFault::OutOfOrder => {
                f.write_str("out of order: keys ascend, and the sequence numbers of a key descend")
            }
            LineFault::Repeated => f.write_str("another line has this key and sequence number"),
            LineFault::Refused(error) => {
                let number = error.number();
                write!(f, "{error} ({number})")
            }
        }
    }
}

/// The position of a block in a file, displayed as `data block at 4096`.
#[derive(Clone, Copy, Debug, PartialEq, Eq)]
pub struct BlockPlace {
    /// The section of the block.
    pub section: SectionName,
    /// The offset of the block, in bytes from the start of the file.
    pub offset: u64,
}

impl fmt::Display for BlockPlace {
    fn fmt<W: fmt::Write>(&self, f: &mut fmt::Formatter<W>) -> fmt::Result {
        let (section, offset) = (section_name(self.section), self.offset);
        write!(f, "{section} block at {offset}")
    }
}

/// Returns the name of a section in a file.
pub fn section_name(section: SectionName) -> &'static str {
    match section {
        SectionName::Data => "data",
        SectionName::Index => "index",
        SectionName::Tli => "tli",
        SectionName::Filter => "filter",
        SectionName::FilterTli => "filter_tli",
        SectionName::TableVersion => "table_version",
        SectionName::Meta => "meta",
    }
}

/// The block that an error comes from, displayed before the error if it is known.
#[derive(Clone, Copy, Debug, PartialEq, Eq)]
pub enum RefusedAt {
    /// The first block, in the order of a verification, that fails to load with the error.
    Block(BlockPlace),
    /// No block fails with the error, or memory ran out before one was found.
    Unknown,
}

impl fmt::Display for RefusedAt {
    fn fmt<W: fmt::Write>(&self, f: &mut fmt::Formatter<W>) -> fmt::Result {
        match self {
            RefusedAt::Block(place) => write!(f, "{place}: "),
            RefusedAt::Unknown => Ok(()),
        }
    }
}

impl<'a> From<FileError<'a>> for ToolError<'a> {
    ghost use Rattle.std.specs.Prelude.{◌≡◌};
    ghost use Rattle.sst_tool.specs.files.Files.{error_of_file};

    ghost from_gives = { λ error e. e ≡ error_of_file error };

    fn from(error: FileError<'a>) -> ToolError<'a> {
        if error.fault.is_memory() {
            ToolError::Refused(Error::OutOfMemory)
        } else {
            ToolError::File(error)
        }
    }
}

impl<'a> From<Error> for ToolError<'a> {
    ghost use Rattle.std.specs.Prelude.{◌≡◌};
    ghost use Rattle.sst_tool.specs.declared.files.error.ToolError.TheVariants.{Refused};

    ghost from_gives = { λ error e. e ≡ Refused error };

    fn from(error: Error) -> ToolError<'a> {
        ToolError::Refused(error)
    }
}

impl<'a> From<AllocError> for ToolError<'a> {
    ghost use Rattle.std.specs.Prelude.{◌≡◌};
    ghost use Rattle.sst_entries.specs.declared.error.Error.TheVariants.{OutOfMemory};
    ghost use Rattle.sst_tool.specs.declared.files.error.ToolError.TheVariants.{Refused};

    ghost from_gives = { λ _ e. e ≡ Refused OutOfMemory };

    fn from(_error: AllocError) -> ToolError<'a> {
        ToolError::Refused(Error::OutOfMemory)
    }
}

impl<'a, T: Drop> From<AllocFailed<T>> for ToolError<'a> {
    ghost use Rattle.std.specs.Prelude.{◌≡◌};
    ghost use Rattle.sst_entries.specs.declared.error.Error.TheVariants.{OutOfMemory};
    ghost use Rattle.sst_tool.specs.declared.files.error.ToolError.TheVariants.{Refused};

    ghost from_gives = { λ _ e. e ≡ Refused OutOfMemory };

    fn from(_error: AllocFailed<T>) -> ToolError<'a> {
        ToolError::Refused(Error::OutOfMemory)
    }
}

// The only `io::Error`s without a file are those of standard output.
impl<'a> From<io::Error> for ToolError<'a> {
    ghost use Rattle.std.specs.Prelude.{◌≡◌};
    ghost use Rattle.sst_tool.specs.declared.files.error.ToolError.TheVariants.{Output};

    ghost from_gives = { λ error e. e ≡ Output error };

    fn from(error: io::Error) -> ToolError<'a> {
        ToolError::Output(error)
    }
}
