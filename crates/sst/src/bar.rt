//! The progress bar.
use crate::System;
use sst_tool::show::Progress;
use std::fs;
use std::io::Write;
use std::rt::{Clock, Files};
use std::time::Duration;

const DONE: &str = "####################";

const LEFT: &str = "....................";

/// The progress over several files.
#[derive(Clone, Copy)]
pub(crate) struct Work {
    // when it began, if the clock works
    started: Option<Duration>,
    // the bytes of the files that are done
    before: u64,
    // the bytes of all files, if known
    all: Option<u64>,
}

impl Work {
    /// Returns the progress at the start.
    pub(crate) fn of<R: Files, C: Clock>(system: System<'_, R, C>, names: &[&str]) -> Work {
        Work {
            started: system.clock.monotonic().ok(),
            before: 0,
            all: size_of_all(system.files, names),
        }
    }
}

/// Returns the progress after a file.
pub(crate) fn behind<R: Files>(work: Option<Work>, files: &R, name: &str) -> Option<Work> {
    let work = work?;
    let size = size_of(files, name).unwrap_or(0);
    Some(Work {
        before: work.before.saturating_add(size),
        ..work
    })
}

// Returns the size of a regular file, `None` for others such as a pipe, and 0 if it cannot be
// looked up.
fn size_of<R: Files>(files: &R, name: &str) -> Option<u64> {
    match fs::metadata(files, name) {
        Ok(metadata) if metadata.is_file() => Some(metadata.len()),
        Ok(metadata) if metadata.is_dir() => Some(0),
        Ok(_) => None,
        Err(_) => Some(0),
    }
}

fn size_of_all<R: Files>(files: &R, names: &[&str]) -> Option<u64> {
    let mut all = 0u64;
    for name in names {
        all = all.saturating_add(size_of(files, name)?);
    }
    Some(all)
}

/// A bar on a terminal, drawn again at each further hundredth.
#[derive(Drop)]
pub(crate) struct Bar<'e, 'c, E: Write, C: Clock> {
    errors: &'e mut E,
    clock: &'c C,
    work: Work,
    // the size of the file
    size: u64,
    // the hundredths drawn last
    drawn: Option<u64>,
}

// Returns the hundredths that are done: all of nothing.
fn hundredths(done: u64, all: u64) -> u64 {
    match (u128::from(done) * 100).checked_div(u128::from(all)) {
        Some(part) => u64::try_from(part.min(100)).unwrap_or(100),
        None => 100,
    }
}

// Estimates the seconds left, at the speed so far. Returns `None` in the first second, and before
// anything is done.
fn seconds_left(done: u64, all: u64, millis: u64) -> Option<u64> {
    if millis < 1_000 {
        return None;
    }
    let rest = u128::from(all.saturating_sub(done));
    let took = u128::from(millis).saturating_mul(rest);
    let seconds = took.checked_div(u128::from(done) * 1_000)?;
    Some(u64::try_from(seconds).unwrap_or(u64::MAX))
}

// Returns the part of a size that `done` is of `all`.
fn part_of(size: u64, done: u64, all: u64) -> u64 {
    let part = u128::from(size).saturating_mul(u128::from(done));
    match part.checked_div(u128::from(all)) {
        Some(part) => u64::try_from(part).unwrap_or(u64::MAX).min(size),
        None => 0,
    }
}

impl<'e, 'c, E: Write, C: Clock> Bar<'e, 'c, E, C> {
    /// Returns an empty bar for a file of `size` bytes. It shows this file alone if the size of all
    /// is unknown.
    pub(crate) fn new(errors: &'e mut E, clock: &'c C, work: Work, size: u64) -> Bar<'e, 'c, E, C> {
        let started = match work.all {
            Some(_) => work.started,
            None => clock.monotonic().ok(),
        };
        Bar {
            errors,
            clock,
            work: Work { started, ..work },
            size,
            drawn: None,
        }
    }

    /// Clears the bar's line.
    pub(crate) fn clear(self) {
        if self.drawn.is_some() {
            let _ = self.errors.write_all(b"\r\x1b[K");
        }
    }

    // Returns the milliseconds since the start.
    fn spent(&self) -> u64 {
        match (self.work.started, self.clock.monotonic()) {
            (Some(started), Ok(now)) => {
                u64::try_from(now.saturating_sub(started).as_millis()).unwrap_or(u64::MAX)
            }
            _ => 0,
        }
    }

    fn draw(&mut self, part: u64, done: u64, all: u64) {
        let marks = usize::try_from(part / 5).unwrap_or(0);
        let full = DONE.get(..marks).unwrap_or(DONE);
        let rest = LEFT.get(marks..).unwrap_or("");
        // A terminal that fails is no fault of the tables.
        let _ = write!(
            self.errors,
            "\r[{full}{rest}] {part}% {done} of {all} bytes"
        );
        if let Some(left) = seconds_left(done, all, self.spent()) {
            let _ = write!(self.errors, ", {left} s left");
        }
        let _ = self.errors.write_all(b"\x1b[K");
    }
}

impl<'e, 'c, E: Write, C: Clock> Progress for Bar<'e, 'c, E, C> {
    fn moved(&mut self, done: u64, all: u64) {
        let (done, all) = match self.work.all {
            Some(bytes) => {
                let within = part_of(self.size, done, all);
                (self.work.before.saturating_add(within), bytes)
            }
            None => (done, all),
        };
        let part = hundredths(done, all);
        if self.drawn != Some(part) {
            self.drawn = Some(part);
            self.draw(part, done, all);
        }
    }
}
