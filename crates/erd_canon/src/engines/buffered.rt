ghost use Rattle.std.specs.Prelude.{◌≡◌, ◌++◌, [], false, true, OnOk, OnErr};
ghost use Rattle.erd_canon.specs.code.Pending.{IsFrontMoved, IsMoved};

use crate::devices::sink::{Sink, write_out};
use crate::devices::source::Failed;

// The most bytes that a buffer holds.
const MOST_BUFFERED: usize = 65_536;

/// Writes the bytes behind those of the buffer. They stay in the buffer if they fit there; bytes that are longer than any buffer
/// are written at once, after those of the buffer. It takes memory for the buffer alone, and works without it.
pub(crate) fn write_buffered<O: Sink>(
    out: &mut O,
    buffer: &mut Vec<u8>,
    bytes: &[u8],
) -> Result<(), Failed>
    requires { O.writer.has_failed out.old ≡ false }
    ensures moved { OnOk result (IsMoved (O.writer.contents out.old) (O.writer.contents out.new) (buffer.old.items ++ bytes.now) buffer.new.items) }
    ensures part { OnErr result (IsFrontMoved (O.writer.contents out.old) (O.writer.contents out.new) (buffer.old.items ++ bytes.now)) }
    ensures works { OnOk result (O.writer.has_failed out.new ≡ false) }
    ensures failed { OnErr result (O.writer.has_failed out.new ≡ true) }
    ensures counted { O.writer.flushes out.new ≡ O.writer.flushes out.old }
{
    if bytes.len() > MOST_BUFFERED {
        return write_through(out, buffer, bytes);
    }
    make_room(out, buffer, bytes.len())?;
    match buffer.extend_from_slice(bytes) {
        Ok(()) => Ok(()),
        Err(_) => write_through(out, buffer, bytes),
    }
}

/// Writes the bytes of the buffer if there is no room for so many more behind them.
fn make_room<O: Sink>(out: &mut O, buffer: &mut Vec<u8>, more: usize) -> Result<(), Failed>
    requires { O.writer.has_failed out.old ≡ false }
    ensures moved { OnOk result (IsMoved (O.writer.contents out.old) (O.writer.contents out.new) buffer.old.items buffer.new.items) }
    ensures part { OnErr result (IsFrontMoved (O.writer.contents out.old) (O.writer.contents out.new) buffer.old.items) }
    ensures works { OnOk result (O.writer.has_failed out.new ≡ false) }
    ensures failed { OnErr result (O.writer.has_failed out.new ≡ true) }
    ensures counted { O.writer.flushes out.new ≡ O.writer.flushes out.old }
{
    if buffer.len() > MOST_BUFFERED.saturating_sub(more) {
        write_buffer(out, buffer)
    } else {
        Ok(())
    }
}

/// Writes the bytes of the buffer, and then these bytes.
fn write_through<O: Sink>(out: &mut O, buffer: &mut Vec<u8>, bytes: &[u8]) -> Result<(), Failed>
    requires { O.writer.has_failed out.old ≡ false }
    ensures moved { OnOk result (IsMoved (O.writer.contents out.old) (O.writer.contents out.new) (buffer.old.items ++ bytes.now) buffer.new.items) }
    ensures part { OnErr result (IsFrontMoved (O.writer.contents out.old) (O.writer.contents out.new) (buffer.old.items ++ bytes.now)) }
    ensures works { OnOk result (O.writer.has_failed out.new ≡ false) }
    ensures failed { OnErr result (O.writer.has_failed out.new ≡ true) }
    ensures counted { O.writer.flushes out.new ≡ O.writer.flushes out.old }
{
    write_buffer(out, buffer)?;
    write_out(out, bytes)?;
    Ok(())
}

/// Writes the bytes of the buffer and empties it.
pub(crate) fn write_buffer<O: Sink>(out: &mut O, buffer: &mut Vec<u8>) -> Result<(), Failed>
    requires { O.writer.has_failed out.old ≡ false }
    ensures moved { OnOk result (IsMoved (O.writer.contents out.old) (O.writer.contents out.new) buffer.old.items buffer.new.items) }
    ensures emptied { OnOk result (buffer.new.items ≡ []) }
    ensures part { OnErr result (IsFrontMoved (O.writer.contents out.old) (O.writer.contents out.new) buffer.old.items) }
    ensures works { OnOk result (O.writer.has_failed out.new ≡ false) }
    ensures failed { OnErr result (O.writer.has_failed out.new ≡ true) }
    ensures counted { O.writer.flushes out.new ≡ O.writer.flushes out.old }
{
    write_out(out, buffer.as_slice())?;
    buffer.clear();
    Ok(())
}
