ghost use Rattle.std.specs.Prelude.{◌≡◌, false, length, sum_by};

use crate::devices::log::Log;
use crate::devices::source::{Failed, Source};
use std::io::Read;

/// A source that reads from any `std::io::Read`. A read counts as a failure if it returns any error, even an interruption.
#[derive(Drop)]
pub struct ReadFrom<R> {
    /// The reader, as the last read left it.
    pub reader: R,
    pub(crate) has_failed: bool,
    // Each read: the room that it had, and the number of bytes that it gave.
    pub(crate) reads: Log<usize, usize>,
}

impl<R: Read> ReadFrom<R> {
    /// Wraps a reader as a source that has not failed. To read again after a failure, wrap the reader again.
    ///
    /// ```
    /// let mut reader = ReadFrom::of(REPORT.as_bytes());
    /// ```
    pub fn of(reader: R) -> ReadFrom<R>
        ensures reader { result.reader ≡ reader }
        ensures works { result.has_failed ≡ false }
    {
        ReadFrom {
            reader,
            has_failed: false,
            reads: Log::new(),
        }
    }
}

impl<R: Read> Source for ReadFrom<R> {
    ghost reader = { record {
      remaining = λ s. R.remaining s.reader;
      has_failed = λ s. s.has_failed;
      reads = λ s. length s.reads.items;
      given = λ s. sum_by (λ read. read.1) s.reads.items;
    } };

    fn read(&mut self, buffer: &mut [u8]) -> Result<usize, Failed> {
        match self.reader.read(buffer) {
            Ok(count) => {
                self.reads = self.reads.and(&buffer.len(), &count);
                Ok(count)
            }
            Err(_) => {
                self.reads = self.reads.and(&buffer.len(), &0);
                self.has_failed = true;
                Err(Failed)
            }
        }
    }

    fn failed(&self) -> bool {
        self.has_failed
    }
}
