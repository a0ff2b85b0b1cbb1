//! The errors of reading, opening and writing files.
ghost use Rattle.std.specs.Prelude.{◌≡◌};
ghost use Rattle.sst_tool.specs.files.Words as spec;

use crate::files::FileName;
use sst_blocks::Error;
use std::alloc::{AllocError, AllocFailed};
use std::{fmt, io};

/// The error of a file.
#[derive(Debug, Drop)]
pub enum FileFault {
    /// The path is a folder.
    Folder,
    /// The path is neither a regular file nor a folder, so it is not replaced.
    NotPlain,
    /// The path of a new folder, or of a file in it, is taken.
    Taken,
    /// A file follows the numbered files to be written, left over from an earlier write.
    Left,
    /// The file ended before the size that it had when it was opened.
    CutShort {
        /// The number of bytes read.
        read: u64,
        /// The size of the file when it was opened.
        size: u64,
    },
    /// All names tried for the temporary file are taken.
    NamesTaken,
    /// The file was not renamed, but files before it were.
    AfterOthers {
        /// The number of files renamed.
        renamed: u64,
        /// The error of this rename.
        error: io::Error,
    },
    /// The file has its name, but its folder could not be synced.
    NotSynced(io::Error),
    /// An error of the system.
    Io(io::Error),
    /// An error of the library, or out of memory.
    Refused(Error),
}

impl FileFault {
    /// Returns whether this is `OutOfMemory`, which says nothing about the file.
    pub fn is_memory(&self) -> bool
        ensures { result ≡ spec.is_memory_fault self.now }
    {
        matches!(self, FileFault::Refused(Error::OutOfMemory))
    }
}

impl fmt::Display for FileFault {
    fn fmt<W: fmt::Write>(&self, f: &mut fmt::Formatter<W>) -> fmt::Result {
        match self {
            FileFault::Folder => f.write_str("is a folder"),
            FileFault::NotPlain => f.write_str("not a regular file, not replaced"),
            FileFault::Taken => f.write_str("already exists"),
            FileFault::Left => f.write_str(
                "exists from an earlier write; first remove it and the files after it",
            ),
            FileFault::CutShort { read, size } => {
                write!(f, "cut short while it was read: {read} of {size} bytes")
            }
            FileFault::NamesTaken => f.write_str("each name beside it is taken"),
            FileFault::AfterOthers { renamed, error } => {
                write!(f, "not replaced, and {renamed} before it are: {error}")
            }
            FileFault::NotSynced(error) => {
                write!(f, "written, but its folder is not synced: {error}")
            }
            FileFault::Io(error) => write!(f, "{error}"),
            FileFault::Refused(error) => {
                let number = error.number();
                write!(f, "{error} ({number})")
            }
        }
    }
}

impl From<io::Error> for FileFault {
    ghost use Rattle.std.specs.Prelude.{◌≡◌};
    ghost use Rattle.sst_tool.specs.declared.files.file_error.FileFault.TheVariants.{Io};

    ghost from_gives = { λ error fault. fault ≡ Io error };

    fn from(error: io::Error) -> FileFault {
        FileFault::Io(error)
    }
}

impl From<Error> for FileFault {
    ghost use Rattle.std.specs.Prelude.{◌≡◌};
    ghost use Rattle.sst_tool.specs.declared.files.file_error.FileFault.TheVariants.{Refused};

    ghost from_gives = { λ error fault. fault ≡ Refused error };

    fn from(error: Error) -> FileFault {
        FileFault::Refused(error)
    }
}

impl From<lsm_files::FileError> for FileFault {
    ghost use Rattle.std.specs.Prelude.{◌≡◌};
    ghost use Rattle.sst_tool.specs.files.Opened.{fault_of_read};

    ghost from_gives = { λ error fault. fault ≡ fault_of_read error };

    fn from(error: lsm_files::FileError) -> FileFault {
        match error {
            lsm_files::FileError::Io(error) => FileFault::Io(error),
            lsm_files::FileError::Table(error) => FileFault::Refused(error),
        }
    }
}

impl From<AllocError> for FileFault {
    ghost use Rattle.std.specs.Prelude.{◌≡◌};
    ghost use Rattle.sst_entries.specs.declared.error.Error.TheVariants.{OutOfMemory};
    ghost use Rattle.sst_tool.specs.declared.files.file_error.FileFault.TheVariants.{Refused};

    ghost from_gives = { λ _ fault. fault ≡ Refused OutOfMemory };

    fn from(_error: AllocError) -> FileFault {
        FileFault::Refused(Error::OutOfMemory)
    }
}

impl<T: Drop> From<AllocFailed<T>> for FileFault {
    ghost use Rattle.std.specs.Prelude.{◌≡◌};
    ghost use Rattle.sst_entries.specs.declared.error.Error.TheVariants.{OutOfMemory};
    ghost use Rattle.sst_tool.specs.declared.files.file_error.FileFault.TheVariants.{Refused};

    ghost from_gives = { λ _ fault. fault ≡ Refused OutOfMemory };

    fn from(_error: AllocFailed<T>) -> FileFault {
        FileFault::Refused(Error::OutOfMemory)
    }
}

/// The error of a file, displayed as a sentence: the file, the error, and the error code in
/// brackets if it has one.
#[derive(Debug, Drop)]
pub struct FileError<'a> {
    /// The name of the file.
    pub name: FileName<'a>,
    /// The error.
    pub fault: FileFault,
}

impl<'a> fmt::Display for FileError<'a> {
    fn fmt<W: fmt::Write>(&self, f: &mut fmt::Formatter<W>) -> fmt::Result {
        self.name.write_escaped(f)?;
        let fault = &self.fault;
        write!(f, ": {fault}")
    }
}

impl<'a> std::error::Error for FileError<'a> {}
