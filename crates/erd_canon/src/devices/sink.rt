ghost use Rattle.std.specs.Prelude.{◌≡◌, ◌↔◌, ◌+◌, ◌<◌, length, true, false, IfOk, OnOk, OnErr, IsErr};
ghost use Rattle.erd_canon.specs.Words.{WritesAtMost, WriteAppends, Appends, Keeps, Writer, IsPartWritten};

use crate::devices::source::Failed;

/// A writer that remembers whether it has failed. After a failure it must not be written to or flushed again.
pub trait Sink {
    // What contracts know of it.
    ghost writer: { Writer Self };

    /// Writes bytes from the front of the slice and returns how many it took. It takes at least one byte of a slice that is
    /// not empty.
    ///
    /// # Errors
    ///
    /// `Failed` if the write failed.
    ///
    /// ```
    /// let mut sink = WriteTo::of(Vec::new(rt.alloc()));
    /// assert_eq!(rt; sink.write("abc".as_bytes()).ok(), Some(3));
    /// ```
    fn write(&mut self, bytes: &[u8]) -> Result<usize, Failed>
        requires { writer.has_failed self.old ≡ false }
        ensures bound { WritesAtMost result bytes.now }
        ensures bytes { WriteAppends (writer.contents self.old) (writer.contents self.new) result bytes.now }
        ensures taken { IfOk result (λ count. 0 < length bytes.now → 0 < count) }
        ensures written { writer.is_flushed self.new ≡ false }
        ensures counted { writer.flushes self.new ≡ writer.flushes self.old }
        ensures ok { OnOk result (writer.has_failed self.new ≡ writer.has_failed self.old) }
        ensures err { OnErr result (writer.has_failed self.new ≡ true) };

    /// Passes on the buffered bytes.
    ///
    /// # Errors
    ///
    /// `Failed` if the flush failed.
    ///
    /// ```
    /// assert!(rt; sink.flush().is_ok());
    /// ```
    fn flush(&mut self) -> Result<(), Failed>
        requires { writer.has_failed self.old ≡ false }
        ensures flushed { OnOk result (writer.is_flushed self.new ≡ true) }
        ensures counted { writer.flushes self.new ≡ writer.flushes self.old + 1 }
        ensures bytes { Keeps (writer.contents self.old) (writer.contents self.new) }
        ensures ok { OnOk result (writer.has_failed self.new ≡ writer.has_failed self.old) }
        ensures err { OnErr result (writer.has_failed self.new ≡ true) };

    /// Returns whether a write or a flush has failed.
    ///
    /// ```
    /// assert!(rt; !reader.failed() && !out.failed());
    /// ```
    fn failed(&self) -> bool
        ensures { result ≡ writer.has_failed self.now };
}

/// Writes all the bytes. For an empty slice it calls nothing.
///
/// # Errors
///
/// `Failed` if a write failed. The sink then holds a first part of the bytes.
///
/// ```
/// assert!(rt; write_out(&mut sink, "def".as_bytes()).is_ok());
/// ```
pub fn write_out<W: Sink>(sink: &mut W, bytes: &[u8]) -> Result<(), Failed>
    requires { W.writer.has_failed sink.old ≡ false }
    ensures written { OnOk result (Appends (W.writer.contents sink.old) (W.writer.contents sink.new) bytes.now) }
    ensures part { IsPartWritten (W.writer.contents sink.old) (W.writer.contents sink.new) bytes.now }
    ensures failed { IsErr result ↔ (W.writer.has_failed sink.new ≡ true) }
    ensures works { OnOk result (W.writer.has_failed sink.new ≡ false) }
    ensures counted { W.writer.flushes sink.new ≡ W.writer.flushes sink.old }
    ensures empty { length bytes.now ≡ 0 → sink.new ≡ sink.old }
{
    let mut at = 0;
    while at < bytes.len() {
        at += sink.write(&bytes[at..])?;
    }
    Ok(())
}
