//! Why a line has no result, and why a script ends early.

use sst_entries::Error;
use std::alloc::{AllocError, AllocFailed};

/// Why a script ends before its last line.
#[derive(Clone, Copy)]
pub enum Stop {
    /// A line, counted from 1, is no command, or one that the script's state does not allow.
    Line(u64),
    /// The script cannot be read.
    Input,
    /// The results cannot be written.
    Output,
}

/// Out of memory for reading the script.
impl From<AllocError> for Stop {
    ghost use Rattle.std.specs.Prelude.{◌≡◌};
    ghost use Rattle.sst_script.specs.declared.stop.Stop.TheVariants.{Input};

    ghost from_gives = { λ _ stop. stop ≡ Input };

    fn from(_: AllocError) -> Stop {
        Stop::Input
    }
}

/// Why a command has no result.
#[derive(Drop)]
pub enum Failure {
    /// The line is at fault, and the script ends.
    BadLine,
    /// The command fails, and the script goes on.
    Refused(Error),
}

impl From<Error> for Failure {
    ghost use Rattle.std.specs.Prelude.{◌≡◌};
    ghost use Rattle.sst_script.specs.declared.stop.Failure.TheVariants.{Refused};

    ghost from_gives = { λ error failure. failure ≡ Refused error };

    fn from(error: Error) -> Failure {
        Failure::Refused(error)
    }
}

impl From<AllocError> for Failure {
    ghost use Rattle.std.specs.Prelude.{◌≡◌};
    ghost use Rattle.sst_entries.specs.declared.error.Error.TheVariants.{OutOfMemory};
    ghost use Rattle.sst_script.specs.declared.stop.Failure.TheVariants.{Refused};

    ghost from_gives = { λ _ failure. failure ≡ Refused OutOfMemory };

    fn from(_: AllocError) -> Failure {
        Failure::Refused(Error::OutOfMemory)
    }
}

impl<T: Drop> From<AllocFailed<T>> for Failure {
    ghost use Rattle.std.specs.Prelude.{◌≡◌};
    ghost use Rattle.sst_entries.specs.declared.error.Error.TheVariants.{OutOfMemory};
    ghost use Rattle.sst_script.specs.declared.stop.Failure.TheVariants.{Refused};

    ghost from_gives = { λ _ failure. failure ≡ Refused OutOfMemory };

    fn from(_: AllocFailed<T>) -> Failure {
        Failure::Refused(Error::OutOfMemory)
    }
}
