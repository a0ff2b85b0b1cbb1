//! Streams that fail.

use std::alloc::Global;
use std::io::{Error, Read, Result, Write};

/// Yields some bytes, and then fails.
#[derive(Drop)]
pub(crate) struct FailingReader<'a> {
    rest: &'a [u8],
}

impl<'a> FailingReader<'a> {
    pub(crate) fn new(rest: &'a [u8]) -> FailingReader<'a> {
        FailingReader { rest }
    }
}

impl Read for FailingReader<'_> {
    fn read(&mut self, buf: &mut [u8]) -> Result<usize> {
        if self.rest.is_empty() {
            return Err(Error::other("no more"));
        }
        self.rest.read(buf)
    }
}

/// Takes no byte.
#[derive(Drop)]
pub(crate) struct FailingWriter;

impl Write for FailingWriter {
    fn write(&mut self, _buf: &[u8]) -> Result<usize> {
        Err(Error::other("full"))
    }

    fn flush(&mut self) -> Result<()> {
        Ok(())
    }
}

/// Keeps so many bytes, and then fails.
#[derive(Drop)]
pub(crate) struct TightWriter {
    taken: Vec<u8>,
    room: usize,
}

impl TightWriter {
    pub(crate) fn new(alloc: Global, room: usize) -> TightWriter {
        TightWriter {
            taken: Vec::new(alloc),
            room,
        }
    }

    pub(crate) fn taken(&self) -> &[u8] {
        &self.taken
    }
}

impl Write for TightWriter {
    fn write(&mut self, buf: &[u8]) -> Result<usize> {
        let count = buf.len().min(self.room);
        if count == 0 {
            return Err(Error::other("full"));
        }
        self.room -= count;
        self.taken.write(&buf[..count])?;
        Ok(count)
    }

    fn flush(&mut self) -> Result<()> {
        Ok(())
    }
}

/// Takes every byte, and fails when it is flushed.
#[derive(Drop)]
pub(crate) struct UnflushedWriter;

impl Write for UnflushedWriter {
    fn write(&mut self, buf: &[u8]) -> Result<usize> {
        Ok(buf.len())
    }

    fn flush(&mut self) -> Result<()> {
        Err(Error::other("full"))
    }
}

/// Takes every byte, and counts how often it is flushed.
#[derive(Drop)]
pub(crate) struct FlushCounter {
    flushes: u64,
}

impl FlushCounter {
    pub(crate) fn new() -> FlushCounter {
        FlushCounter { flushes: 0 }
    }

    pub(crate) fn flushes(&self) -> u64 {
        self.flushes
    }
}

impl Write for FlushCounter {
    fn write(&mut self, buf: &[u8]) -> Result<usize> {
        Ok(buf.len())
    }

    fn flush(&mut self) -> Result<()> {
        self.flushes = self.flushes.saturating_add(1);
        Ok(())
    }
}
