//! Errors of reading a table in its file.
use sst_blocks::Error;
use std::alloc::AllocError;
use std::{fmt, io};

/// An error of reading a table in its file.
#[derive(Debug, Drop)]
pub enum FileError {
    /// The system failed to read the file. The file may also have fewer bytes than when it was
    /// opened.
    Io(io::Error),
    /// The table has a fault, or memory ran out.
    Table(Error),
}

impl fmt::Display for FileError {
    fn fmt<W: fmt::Write>(&self, f: &mut fmt::Formatter<W>) -> fmt::Result {
        match self {
            FileError::Io(error) => write!(f, "{error}"),
            FileError::Table(error) => write!(f, "{error}"),
        }
    }
}

impl std::error::Error for FileError {}

impl From<Error> for FileError {
    ghost use Rattle.std.specs.Prelude.{◌≡◌};
    ghost use Rattle.lsm_files.specs.declared.error.FileError.TheVariants.{Table};

    ghost from_gives = { λ error fault. fault ≡ Table error };

    fn from(error: Error) -> FileError {
        FileError::Table(error)
    }
}

impl From<AllocError> for FileError {
    ghost use Rattle.std.specs.Prelude.{◌≡◌};
    ghost use Rattle.sst_entries.specs.declared.error.Error.TheVariants.{OutOfMemory};
    ghost use Rattle.lsm_files.specs.declared.error.FileError.TheVariants.{Table};

    ghost from_gives = { λ _ fault. fault ≡ Table OutOfMemory };

    fn from(_error: AllocError) -> FileError {
        FileError::Table(Error::OutOfMemory)
    }
}

impl From<io::Error> for FileError {
    ghost use Rattle.std.specs.Prelude.{◌≡◌};
    ghost use Rattle.lsm_files.specs.declared.error.FileError.TheVariants.{Io};

    ghost from_gives = { λ error fault. fault ≡ Io error };

    fn from(error: io::Error) -> FileError {
        FileError::Io(error)
    }
}
