//! The output of a script.
use crate::running::is_closed;
use std::io;
use std::io::Write;

/// A writer that records whether its reader closed the pipe.
#[derive(Drop)]
pub(crate) struct Piped<W: Write> {
    inner: W,
    closed: bool,
}

impl<W: Write> Piped<W> {
    /// Returns a writer whose pipe is open.
    pub(crate) fn new(inner: W) -> Piped<W> {
        Piped {
            inner,
            closed: false,
        }
    }

    /// Returns whether a write or a flush failed because the pipe is closed.
    pub(crate) fn is_closed(&self) -> bool {
        self.closed
    }

    fn note<T>(&mut self, done: &io::Result<T>) {
        if let Err(error) = done {
            self.closed = self.closed || is_closed(error);
        }
    }
}

impl<W: Write> Write for Piped<W> {
    fn write(&mut self, buf: &[u8]) -> io::Result<usize> {
        let written = self.inner.write(buf);
        self.note(&written);
        written
    }

    fn flush(&mut self) -> io::Result<()> {
        let flushed = self.inner.flush();
        self.note(&flushed);
        flushed
    }
}
