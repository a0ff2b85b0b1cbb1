//! A verification by steps, and its progress as reported to C.
ghost use Rattle.std.specs.Prelude.{◌≡◌, IfErr, IfOk};
ghost use Rattle.sst_c.specs.Words as spec;

use crate::codes::{FAULTY, NO_MEMORY};
use crate::verify::{VerifyReport, tell_finding, tell_verified};
use lsm_readers::{Table, Verification, Verified, VerifyError};
use sst_blocks::Error;
use std::marker::Model;

/// The progress of a verification.
#[repr(C)]
#[derive(Clone, Copy)]
pub struct ProgressReport {
    /// Number of bytes of data blocks read.
    pub bytes_read: u64,
    /// Size of the data blocks in bytes that the table claims.
    pub data_size: u64,
    /// 1 if the whole table was read and is valid, else 0.
    pub at_end: u64,
}

/// A verification, and the size of the data blocks that its table claims.
///
/// Contracts see the verification.
#[derive(Drop)]
pub struct Verifier {
    verification: Verification,
    data_size: u64,
}

impl Model for Verifier {
    ghost use Rattle.std.specs.Prelude.{◌≡◌};
    ghost use Rattle.lsm_readers.specs.Verification.{Verifying};

    ghost Value = { Verifying };

    ghost view = { λ v. v.verification };

    ghost invariant = { λ v. v.data_size ≡ v.verification.table.parts.facts.file_size };
}

/// Returns zero progress.
pub(crate) fn no_progress() -> ProgressReport
    ensures { result ≡ spec.no_progress }
{
    ProgressReport {
        bytes_read: 0,
        data_size: 0,
        at_end: 0,
    }
}

// Returns 1 if the step was the last, else 0.
fn end_of(answer: &Result<Option<Verified>, VerifyError>) -> u64
    ensures { result ≡ spec.step_end answer.now }
{
    match answer {
        Ok(Some(_)) => 1,
        _ => 0,
    }
}

// Writes the report of a step, and returns its code.
fn tell_answer(answer: &Result<Option<Verified>, VerifyError>, returned: &mut VerifyReport) -> u32
    requires { returned.old ≡ spec.no_finding }
    ensures code { result ≡ spec.step_code answer.now }
    ensures returned { returned.new ≡ spec.step_result answer.now }
{
    match answer {
        Ok(None) => 0,
        Ok(Some(verified)) => {
            *returned = tell_verified(*verified);
            0
        }
        Err(VerifyError::OutOfMemory) => NO_MEMORY,
        Err(VerifyError::Found(finding)) => {
            *returned = tell_finding(finding);
            FAULTY
        }
    }
}

impl Verifier {
    /// Opens a verification of a table, which has read nothing yet.
    pub(crate) fn of(table: &Table) -> Result<Verifier, Error>
        ensures ok { IfOk result (λ v. v ≡ spec.verifying table.now) }
        ensures err { IfErr result (λ e. e ≡ spec.OutOfMemory) }
    {
        Ok(Verifier {
            verification: table.verification()?,
            data_size: table.metadata.file_size,
        })
    }

    fn progress(&self, at_end: u64) -> ProgressReport
        ensures { result ≡ spec.progress_result self.now at_end }
    {
        ProgressReport {
            bytes_read: self.verification.bytes_read(),
            data_size: self.data_size,
            at_end,
        }
    }

    /// Makes a step, writes its reports, and returns its code.
    pub(crate) fn step(&mut self, progress: &mut ProgressReport, returned: &mut VerifyReport) -> u32
        requires { returned.old ≡ spec.no_finding }
        ensures { spec.ReportsStep self.old result progress.new returned.new self.new }
    {
        let answer = self.verification.step();
        *progress = self.progress(end_of(&answer));
        tell_answer(&answer, returned)
    }
}
