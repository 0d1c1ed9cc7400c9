ghost use Rattle.std.specs.Prelude.{◌≡◌, false, length};

use crate::devices::log::Log;
use crate::devices::sink::Sink;
use crate::devices::source::Failed;
use std::io::Write;

/// A sink that writes to any `std::io::Write`. A write counts as a failure if it returns any error, even an interruption, or
/// if it takes no byte of a slice that is not empty.
#[derive(Drop)]
pub struct WriteTo<W> {
    /// The writer, as the last write or flush left it.
    pub writer: W,
    pub(crate) has_failed: bool,
    pub(crate) is_flushed: bool,
    // Each flush.
    pub(crate) flushes: Log<(), ()>,
}

impl<W: Write> WriteTo<W> {
    /// Wraps a writer as a sink that has not failed. To write again after a failure, wrap the writer again.
    ///
    /// ```
    /// let mut out = WriteTo::of(Vec::new(alloc));
    /// ```
    pub fn of(writer: W) -> WriteTo<W>
        ensures writer { result.writer ≡ writer }
        ensures works { result.has_failed ≡ false }
    {
        WriteTo {
            writer,
            has_failed: false,
            is_flushed: false,
            flushes: Log::new(),
        }
    }
}

impl<W: Write> Sink for WriteTo<W> {
    ghost writer = { record {
      contents = λ s. W.contents s.writer;
      has_failed = λ s. s.has_failed;
      is_flushed = λ s. s.is_flushed;
      flushes = λ s. length s.flushes.items;
    } };

    fn write(&mut self, bytes: &[u8]) -> Result<usize, Failed> {
        self.is_flushed = false;
        match self.writer.write(bytes) {
            Ok(count) if count > 0 || bytes.is_empty() => Ok(count),
            _ => {
                self.has_failed = true;
                Err(Failed)
            }
        }
    }

    fn flush(&mut self) -> Result<(), Failed> {
        self.flushes = self.flushes.and(&(), &());
        match self.writer.flush() {
            Ok(()) => {
                self.is_flushed = true;
                Ok(())
            }
            Err(_) => {
                self.has_failed = true;
                Err(Failed)
            }
        }
    }

    fn failed(&self) -> bool {
        self.has_failed
    }
}
