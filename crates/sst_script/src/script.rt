//! Running a script.
ghost use Rattle.std.specs.Prelude.{◌≡◌, ◌⊎◌, [], ℕ, List, Option, Some, IfOk, IfErr};
ghost use Rattle.std.specs.Prelude.{map};
ghost use Rattle.sst_script.specs.Words as spec;

use crate::pending::{Pending, TARGET_SIZE};
use crate::runs::{is_repeated, newest_line, newest_lines, share, share_all, share_one};
use crate::{
    Answer, Command, Failure, Stop, parse_command, print_answer, print_refusal, print_stop,
};
use lsm_readers::Table;
use lsm_runs::{compact_to_run, pack_runs};
use lsm_sorted::Run;
use lsm_sorted::compaction::Rules;
use lsm_writers::TableIds;
use sst_blocks::{SeqNo, Timestamp};
use std::alloc::{AllocError, Allocator};
use std::io::{BufRead, BufReader, Read, Write};
use std::sync::Arc;
use std::{io, mem};

/// Runs the script of `input`, line by line, and returns the exit status: 0, or 2 if the script
/// ends before its last line.
///
/// Results go to `output`, each before the next line is read. A command that fails prints `refused`
/// and the error code, and the script goes on. Output written before the script ended is kept.
///
/// The script ends early in three cases, each with one line on `errors`:
///
/// - `sst: line` and the line's number, if a line is no command, or one that the script's state
///   does not allow;
/// - `sst: input`, if the input fails, or there is no memory for it;
/// - `sst: output`, if the output fails.
///
/// An error of writing to `errors` is ignored. Nothing else is written to it.
pub fn run_script<A: Allocator + Clone, R: Read + Drop, W: Write, E: Write>(
    alloc: A,
    input: R,
    output: &mut W,
    errors: &mut E,
) -> u8
    ensures status { (result ≡ 0) ⊎ (result ≡ 2) }
    ensures ended { spec.ScriptReturns A (R.remaining input)
        (W.contents output.old) (W.contents output.new)
        (E.contents errors.old) (E.contents errors.new) result }
    ensures silent { result ≡ 0 → errors.new ≡ errors.old }
{
    match answer_script(alloc, input, output) {
        Ok(()) => 0,
        Err(stop) => {
            let _ = print_stop(errors, stop);
            2
        }
    }
}

// Executes the lines of `input` up to the last one, or up to the one at which the script ends.
fn answer_script<A: Allocator + Clone, R: Read + Drop, W: Write>(
    alloc: A,
    input: R,
    output: &mut W,
) -> Result<(), Stop>
    ensures { spec.ScriptEnds A (R.remaining input)
        (W.contents output.old) (W.contents output.new) result }
{
    let mut script = Script::new(alloc.clone()?)?;
    let mut line = Vec::new(alloc.clone()?);
    let mut input = BufReader::new(alloc, input).map_err(|_| Stop::Input)?;
    for before in 0..u64::MAX {
        if !read_line(&mut input, &mut line)? {
            return Ok(());
        }
        script.answer_line(before + 1, &line, output)?;
    }
    Err(Stop::Input)
}

// Reads the next line, without its end; `false` if there is none.
fn read_line<R: BufRead, A: Allocator>(input: &mut R, line: &mut Vec<u8, A>) -> Result<bool, Stop>
    ensures read { IfOk result (spec.ReadsLine
        (R.remaining input.old) (R.remaining input.new) line.new.items) }
    ensures failed { IfErr result (λ stop. stop ≡ spec.Input) }
{
    line.clear();
    let length = input.read_until(b'\n', line).map_err(|_| Stop::Input)?;
    strip_end(line);
    Ok(length > 0)
}

// Removes the end of a line, which the last line may lack.
fn strip_end<A: Allocator>(line: &mut Vec<u8, A>)
    ensures { line.new.items ≡ spec.strip_last 10 line.old.items }
{
    if line.last() == Some(&b'\n') {
        line.pop();
    }
}

// Prints the result of a command.
fn print_outcome<W: Write, A: Allocator>(
    output: &mut W,
    number: u64,
    outcome: &Result<Answer<A>, Failure>,
) -> Result<(), Stop>
    ensures { spec.PrintEnds number (spec.outcome_text outcome.now)
        (W.contents output.old) (W.contents output.new) result }
{
    match outcome {
        Ok(answer) => pass_on(print_answer(output, answer), output),
        Err(Failure::Refused(error)) => pass_on(print_refusal(output, error.number()), output),
        Err(Failure::BadLine) => Err(Stop::Line(number)),
    }
}

// Flushes the output after printing, so that none of it waits for the next input.
fn pass_on<W: Write>(printed: io::Result<()>, output: &mut W) -> Result<(), Stop>
    ensures shown { (before : Option (List ℕ)) (text : List ℕ) →
        spec.ShowsText before (W.contents output.old) printed text →
        spec.ShowsText before (W.contents output.new) result text }
    ensures stop { IfErr result (λ stop. stop ≡ spec.Output) }
{
    match printed {
        Ok(()) => output.flush().map_err(|_| Stop::Output),
        Err(_) => Err(Stop::Output),
    }
}

// The state of a script.
#[derive(Drop)]
struct Script<A: Allocator> {
    alloc: A,
    pending: Pending<A>,
    // the newest first
    runs: Vec<Arc<Run<Table<A>, A>, A>, A>,
    ids: TableIds,
}

impl<A: Allocator + Clone> Script<A> {
    fn new(alloc: A) -> Result<Script<A>, AllocError>
        ensures { IfOk result (λ script.
            (script.pending ≡ []) × (script.runs.items ≡ []) × (script.ids ≡ Some 1)) }
    {
        Ok(Script {
            pending: Pending::new(alloc.clone()?),
            runs: Vec::new(alloc.clone()?),
            ids: TableIds::new(1),
            alloc,
        })
    }

    // Prints the result of a line; an empty line has none.
    fn answer_line<W: Write>(
        &mut self,
        number: u64,
        line: &[u8],
        output: &mut W,
    ) -> Result<(), Stop>
        requires { spec.AreCompactable (map spec.arc_value self.old.runs.items) }
        ensures able { spec.AreCompactable (map spec.arc_value self.new.runs.items) }
        ensures stops { IfErr result (λ stop. (stop ≡ spec.Line number) ⊎ (stop ≡ spec.Output)) }
        ensures ended { spec.ChangesStore self.old self.new (λ before after.
            spec.LineEnds A number line.now before after
            (W.contents output.old) (W.contents output.new) result) }
    {
        if line.is_empty() {
            return Ok(());
        }
        let command = parse_command(line).ok_or(Stop::Line(number))?;
        print_outcome(output, number, &self.execute(command))
    }

    // Executes a command. The lines of a read are collected first, so that a command that fails
    // prints no entry.
    fn execute(&mut self, command: Command<'_>) -> Result<Answer<A>, Failure>
        requires { spec.AreCompactable (map spec.arc_value self.old.runs.items) }
        ensures able { spec.AreCompactable (map spec.arc_value self.new.runs.items) }
        ensures done { spec.ChangesStore self.old self.new (λ before after.
            spec.Executes command.entry before result after) }
    {
        match command {
            Command::Entry {
                key,
                seqno,
                kind,
                value,
            } => {
                self.pending.add(key, seqno, kind, value)?;
                Ok(Answer::Silent)
            }
            Command::Table => {
                let written = self.write_table();
                self.pending.clear();
                Ok(Answer::Tables(written?))
            }
            Command::Get { key, bound } => {
                let text = newest_line(&self.alloc, &self.runs, key, bound)?;
                Ok(Answer::Lines(text))
            }
            Command::Range { low, high } => {
                let text = newest_lines(&self.alloc, &self.runs, low, high)?;
                Ok(Answer::Lines(text))
            }
            Command::Compact {
                watermark,
                evict,
                zero,
            } => Ok(Answer::Tables(self.compact(watermark, evict, zero)?)),
            Command::Pack => Ok(Answer::Runs(self.pack()?)),
        }
    }

    // Writes the pending entries as a run, and returns the number of its tables. After an error the
    // runs and the next id are unchanged; the caller clears the pending entries.
    fn write_table(&mut self) -> Result<u64, Failure>
        requires { spec.AreCompactable (map spec.arc_value self.old.runs.items) }
        ensures able { spec.AreCompactable (map spec.arc_value self.new.runs.items) }
        ensures done { spec.ChangesStore self.old self.new (λ before after.
            spec.WritesPending before result (spec.store [] after.runs after.next_id)) }
    {
        if is_repeated(&self.runs, self.pending.items())? {
            return Err(Failure::BadLine);
        }
        if self.pending.is_empty() {
            return Ok(0);
        }
        let pending = mem::replace(&mut self.pending, Pending::new(self.alloc.clone()?));
        let (run, ids) = pending.write(self.alloc.clone()?, self.ids)?;
        let Some(run) = run else {
            return Ok(0);
        };
        let count = run.as_slice().len() as u64;
        let shared = share(&self.alloc, run)?;
        self.runs.insert(0, shared)?;
        self.ids = ids;
        Ok(count)
    }

    // Replaces all runs by the run of what is kept of them, none if nothing is kept, and returns
    // the number of its tables. After an error the runs and the next id are unchanged.
    fn compact(&mut self, watermark: SeqNo, evict: bool, zero: bool) -> Result<u64, Failure>
        requires { spec.AreCompactable (map spec.arc_value self.old.runs.items) }
        ensures able { spec.AreCompactable (map spec.arc_value self.new.runs.items) }
        ensures done { spec.ChangesStore self.old self.new (λ before after.
            spec.CompactsRuns before (spec.kept_by watermark evict zero before.runs) result after) }
    {
        let rules = Rules {
            watermark,
            evict,
            zeroing: zero,
        };
        let (run, next_ids) = compact_to_run(
            self.alloc.clone()?,
            &self.runs,
            rules,
            self.ids,
            TARGET_SIZE,
            Timestamp::from(0),
        )?;
        let Some(run) = run else {
            self.runs.clear();
            self.ids = next_ids;
            return Ok(0);
        };
        let tables = run.as_slice().len() as u64;
        self.runs = share_one(&self.alloc, run)?;
        self.ids = next_ids;
        Ok(tables)
    }

    // Puts the tables of all runs in as few runs as possible, and returns their number. Fails with
    // `OutOfMemory` only; the runs are unchanged then.
    fn pack(&mut self) -> Result<u64, Failure>
        requires { spec.AreCompactable (map spec.arc_value self.old.runs.items) }
        ensures able { spec.AreCompactable (map spec.arc_value self.new.runs.items) }
        ensures done { spec.ChangesStore self.old self.new (λ before after.
            spec.PacksRuns before result after) }
    {
        let packed = pack_runs(self.alloc.clone()?, &self.runs)?;
        self.runs = share_all(self.alloc.clone()?, packed)?;
        Ok(self.runs.len() as u64)
    }
}
