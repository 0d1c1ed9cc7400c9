//! Writers for tests.
use std::io;
use std::io::{ErrorKind, Write};

/// A writer that takes one byte per write and fails once: at the write after `good_writes` writes, or at the first flush. It
/// counts the calls, so a test sees whether a call is tried again.
#[derive(Drop)]
pub struct FailingWriter {
    /// The number of bytes taken so far.
    pub taken: usize,
    /// The number of calls of `write` so far.
    pub writes: usize,
    /// The number of calls of `flush` so far.
    pub flushes: usize,
    good_writes: usize,
    fails_flush: bool,
}

impl FailingWriter {
    /// Returns a writer that fails at the write after `good_writes` writes, and at no flush.
    pub fn after(good_writes: usize) -> FailingWriter {
        FailingWriter {
            taken: 0,
            writes: 0,
            flushes: 0,
            good_writes,
            fails_flush: false,
        }
    }

    /// Returns a writer that fails at the first flush, and at no write.
    pub fn at_flush() -> FailingWriter {
        FailingWriter {
            taken: 0,
            writes: 0,
            flushes: 0,
            good_writes: usize::MAX,
            fails_flush: true,
        }
    }
}

impl Write for FailingWriter {
    fn write(&mut self, bytes: &[u8]) -> io::Result<usize> {
        let fails = self.writes == self.good_writes;
        self.writes = self.writes.saturating_add(1);
        if fails {
            return Err(io::Error::from(ErrorKind::Interrupted));
        }
        if bytes.is_empty() {
            return Ok(0);
        }
        self.taken = self.taken.saturating_add(1);
        Ok(1)
    }

    fn flush(&mut self) -> io::Result<()> {
        let fails = self.fails_flush && self.flushes == 0;
        self.flushes = self.flushes.saturating_add(1);
        if fails {
            Err(io::Error::from(ErrorKind::Interrupted))
        } else {
            Ok(())
        }
    }
}

/// A writer that takes no byte and reports success.
#[derive(Drop)]
pub struct FullWriter;

impl Write for FullWriter {
    fn write(&mut self, _bytes: &[u8]) -> io::Result<usize> {
        Ok(0)
    }

    fn flush(&mut self) -> io::Result<()> {
        Ok(())
    }
}

/// A writer that compares what it takes with a text. It keeps nothing, and so allocates no memory.
#[derive(Drop)]
pub struct ExpectedWriter<'a> {
    rest: &'a [u8],
    taken: usize,
    is_right: bool,
}

impl<'a> ExpectedWriter<'a> {
    /// Returns a writer that has taken nothing yet, and should take this text.
    pub fn of(text: &'a str) -> ExpectedWriter<'a> {
        ExpectedWriter {
            rest: text.as_bytes(),
            taken: 0,
            is_right: true,
        }
    }

    /// Returns whether it has taken exactly the text.
    pub fn is_whole(&self) -> bool {
        self.is_right && self.rest.is_empty()
    }

    /// Returns whether it has taken nothing.
    pub fn is_unused(&self) -> bool {
        self.taken == 0
    }
}

impl Write for ExpectedWriter<'_> {
    fn write(&mut self, bytes: &[u8]) -> io::Result<usize> {
        self.taken = self.taken.saturating_add(bytes.len());
        if self.rest.starts_with(bytes) {
            self.rest = self.rest.get(bytes.len()..).unwrap_or(&[]);
        } else {
            self.is_right = false;
        }
        Ok(bytes.len())
    }

    fn flush(&mut self) -> io::Result<()> {
        Ok(())
    }
}
