ghost use Rattle.std.specs.Prelude.{◌≡◌, ◌++◌, ◌∷◌, [], ◌↔◌, ◌<◌, map, codes, decimal, false, true, IsErr, IfOk, IsTrue, OnOk, OnErr};
ghost use Rattle.erd_canon.specs.Words.{fault_line, reason_text, escaped_byte, escaped_name, pointer_text, step_text, lines_of_side, text_of_lines};
ghost use Rattle.erd_canon.specs.Words.{IsPartWritten, Appends};
ghost use Rattle.erd_canon.specs.code.Pending.{IsFrontMoved, IsMoved};

use crate::devices::sink::Sink;
use crate::devices::source::Failed;
use crate::engines::buffered::{write_buffer, write_buffered};
use erd_tables::{Fault, FaultList, Place, Reason, Step};
use std::alloc::{AllocError, Global};

/// Writes the lines for the faults, each ended by one line feed.
pub(crate) fn write_fault_lines<O: Sink>(
    alloc: Global,
    out: &mut O,
    faults: &FaultList,
) -> Result<(), Failed>
    requires { O.writer.has_failed out.old ≡ false }
    ensures written { OnOk result (Appends (O.writer.contents out.old) (O.writer.contents out.new) (text_of_lines (map fault_line faults.now))) }
    ensures part { IsPartWritten (O.writer.contents out.old) (O.writer.contents out.new) (text_of_lines (map fault_line faults.now)) }
    ensures failed { IsErr result ↔ (O.writer.has_failed out.new ≡ true) }
    ensures works { OnOk result (O.writer.has_failed out.new ≡ false) }
    ensures counted { O.writer.flushes out.new ≡ O.writer.flushes out.old }
{
    write_lines(alloc, out, &[], faults)
}

/// Writes the lines for the faults of one of two reports. Each begins with the words for the side and is ended by one line feed.
/// They are written in pieces, so that no line takes memory.
pub(crate) fn write_lines<O: Sink>(
    alloc: Global,
    out: &mut O,
    side: &[u8],
    faults: &FaultList,
) -> Result<(), Failed>
    requires { O.writer.has_failed out.old ≡ false }
    ensures written { OnOk result (Appends (O.writer.contents out.old) (O.writer.contents out.new)
        (text_of_lines (lines_of_side side.now (map fault_line faults.now)))) }
    ensures part { IsPartWritten (O.writer.contents out.old) (O.writer.contents out.new) (text_of_lines (lines_of_side side.now (map fault_line faults.now))) }
    ensures failed { IsErr result ↔ (O.writer.has_failed out.new ≡ true) }
    ensures works { OnOk result (O.writer.has_failed out.new ≡ false) }
    ensures counted { O.writer.flushes out.new ≡ O.writer.flushes out.old }
{
    let mut buffer = Vec::new(alloc);
    write_each(out, &mut buffer, side, faults)?;
    write_buffer(out, &mut buffer)
}

/// Writes the line of each fault, with a line feed.
fn write_each<O: Sink>(
    out: &mut O,
    buffer: &mut Vec<u8>,
    side: &[u8],
    faults: &FaultList,
) -> Result<(), Failed>
    requires { O.writer.has_failed out.old ≡ false }
    ensures moved { OnOk result (IsMoved (O.writer.contents out.old) (O.writer.contents out.new)
        (buffer.old.items ++ text_of_lines (lines_of_side side.now (map fault_line faults.now))) buffer.new.items) }
    ensures part { OnErr result (IsFrontMoved (O.writer.contents out.old) (O.writer.contents out.new)
        (buffer.old.items ++ text_of_lines (lines_of_side side.now (map fault_line faults.now)))) }
    ensures works { OnOk result (O.writer.has_failed out.new ≡ false) }
    ensures failed { OnErr result (O.writer.has_failed out.new ≡ true) }
    ensures counted { O.writer.flushes out.new ≡ O.writer.flushes out.old }
{
    for fault in faults.iter() {
        write_line(out, buffer, side, fault)?;
    }
    Ok(())
}

/// Writes the words for a side, the line of a fault and a line feed.
fn write_line<O: Sink>(
    out: &mut O,
    buffer: &mut Vec<u8>,
    side: &[u8],
    fault: &Fault,
) -> Result<(), Failed>
    requires { O.writer.has_failed out.old ≡ false }
    ensures moved { OnOk result (IsMoved (O.writer.contents out.old) (O.writer.contents out.new)
        (buffer.old.items ++ ((side.now ++ fault_line fault.now) ++ 10 ∷ [])) buffer.new.items) }
    ensures part { OnErr result (IsFrontMoved (O.writer.contents out.old) (O.writer.contents out.new)
        (buffer.old.items ++ ((side.now ++ fault_line fault.now) ++ 10 ∷ []))) }
    ensures works { OnOk result (O.writer.has_failed out.new ≡ false) }
    ensures failed { OnErr result (O.writer.has_failed out.new ≡ true) }
    ensures counted { O.writer.flushes out.new ≡ O.writer.flushes out.old }
{
    write_buffered(out, buffer, side)?;
    write_fault(out, buffer, fault)?;
    write_buffered(out, buffer, b"\n")
}

/// Writes the line of a fault.
fn write_fault<O: Sink>(out: &mut O, buffer: &mut Vec<u8>, fault: &Fault) -> Result<(), Failed>
    requires { O.writer.has_failed out.old ≡ false }
    ensures moved { OnOk result (IsMoved (O.writer.contents out.old) (O.writer.contents out.new) (buffer.old.items ++ fault_line fault.now) buffer.new.items) }
    ensures part { OnErr result (IsFrontMoved (O.writer.contents out.old) (O.writer.contents out.new) (buffer.old.items ++ fault_line fault.now)) }
    ensures works { OnOk result (O.writer.has_failed out.new ≡ false) }
    ensures failed { OnErr result (O.writer.has_failed out.new ≡ true) }
    ensures counted { O.writer.flushes out.new ≡ O.writer.flushes out.old }
{
    write_place(out, buffer, &fault.place)?;
    write_buffered(out, buffer, b": ")?;
    write_reason(out, buffer, &fault.reason)
}

/// Writes the words of a reason.
fn write_reason<O: Sink>(out: &mut O, buffer: &mut Vec<u8>, reason: &Reason) -> Result<(), Failed>
    requires { O.writer.has_failed out.old ≡ false }
    ensures moved { OnOk result (IsMoved (O.writer.contents out.old) (O.writer.contents out.new)
        (buffer.old.items ++ reason_text reason.now) buffer.new.items) }
    ensures part { OnErr result (IsFrontMoved (O.writer.contents out.old) (O.writer.contents out.new) (buffer.old.items ++ reason_text reason.now)) }
    ensures works { OnOk result (O.writer.has_failed out.new ≡ false) }
    ensures failed { OnErr result (O.writer.has_failed out.new ≡ true) }
    ensures counted { O.writer.flushes out.new ≡ O.writer.flushes out.old }
{
    write_buffered(out, buffer, reason.words().as_bytes())?;
    write_buffered(out, buffer, reason.missing_member().as_bytes())
}

/// Writes the JSON Pointer of a place.
fn write_place<O: Sink>(out: &mut O, buffer: &mut Vec<u8>, place: &Place) -> Result<(), Failed>
    requires { O.writer.has_failed out.old ≡ false }
    ensures moved { OnOk result (IsMoved (O.writer.contents out.old) (O.writer.contents out.new)
        (buffer.old.items ++ pointer_text place.now) buffer.new.items) }
    ensures part { OnErr result (IsFrontMoved (O.writer.contents out.old) (O.writer.contents out.new) (buffer.old.items ++ pointer_text place.now)) }
    ensures works { OnOk result (O.writer.has_failed out.new ≡ false) }
    ensures failed { OnErr result (O.writer.has_failed out.new ≡ true) }
    ensures counted { O.writer.flushes out.new ≡ O.writer.flushes out.old }
{
    for step in place.iter() {
        write_step(out, buffer, step)?;
    }
    Ok(())
}

/// Writes a step as a JSON Pointer has it, after a `/`.
fn write_step<O: Sink>(out: &mut O, buffer: &mut Vec<u8>, step: &Step) -> Result<(), Failed>
    requires { O.writer.has_failed out.old ≡ false }
    ensures moved { OnOk result (IsMoved (O.writer.contents out.old) (O.writer.contents out.new)
        (buffer.old.items ++ (codes "/" ++ step_text step.now)) buffer.new.items) }
    ensures part { OnErr result (IsFrontMoved (O.writer.contents out.old) (O.writer.contents out.new) (buffer.old.items ++ (codes "/" ++ step_text step.now))) }
    ensures works { OnOk result (O.writer.has_failed out.new ≡ false) }
    ensures failed { OnErr result (O.writer.has_failed out.new ≡ true) }
    ensures counted { O.writer.flushes out.new ≡ O.writer.flushes out.old }
{
    write_buffered(out, buffer, b"/")?;
    match step {
        Step::Name(name) => write_name(out, buffer, name.as_str().as_bytes()),
        Step::At(index) => write_decimal(out, buffer, *index),
    }
}

/// Writes a name as a JSON Pointer has it.
fn write_name<O: Sink>(out: &mut O, buffer: &mut Vec<u8>, name: &[u8]) -> Result<(), Failed>
    requires { O.writer.has_failed out.old ≡ false }
    ensures moved { OnOk result (IsMoved (O.writer.contents out.old) (O.writer.contents out.new) (buffer.old.items ++ escaped_name name.now) buffer.new.items) }
    ensures part { OnErr result (IsFrontMoved (O.writer.contents out.old) (O.writer.contents out.new) (buffer.old.items ++ escaped_name name.now)) }
    ensures works { OnOk result (O.writer.has_failed out.new ≡ false) }
    ensures failed { OnErr result (O.writer.has_failed out.new ≡ true) }
    ensures counted { O.writer.flushes out.new ≡ O.writer.flushes out.old }
{
    if is_plain(name) {
        return write_buffered(out, buffer, name);
    }
    for byte in name.iter() {
        write_byte(out, buffer, *byte)?;
    }
    Ok(())
}

/// Returns whether a JSON Pointer has all bytes of the name as they are.
pub(crate) fn is_plain(name: &[u8]) -> bool
    ensures { IsTrue result → escaped_name name.now ≡ name.now }
{
    for byte in name.iter() {
        if *byte == b'~' || *byte == b'/' {
            return false;
        }
    }
    true
}

/// Writes a byte of a name as a JSON Pointer has it.
fn write_byte<O: Sink>(out: &mut O, buffer: &mut Vec<u8>, byte: u8) -> Result<(), Failed>
    requires { O.writer.has_failed out.old ≡ false }
    ensures moved { OnOk result (IsMoved (O.writer.contents out.old) (O.writer.contents out.new) (buffer.old.items ++ escaped_byte byte) buffer.new.items) }
    ensures part { OnErr result (IsFrontMoved (O.writer.contents out.old) (O.writer.contents out.new) (buffer.old.items ++ escaped_byte byte)) }
    ensures works { OnOk result (O.writer.has_failed out.new ≡ false) }
    ensures failed { OnErr result (O.writer.has_failed out.new ≡ true) }
    ensures counted { O.writer.flushes out.new ≡ O.writer.flushes out.old }
{
    match byte {
        b'~' => write_buffered(out, buffer, b"~0"),
        b'/' => write_buffered(out, buffer, b"~1"),
        _ => write_buffered(out, buffer, &[byte]),
    }
}

/// Writes a number in decimal.
fn write_decimal<O: Sink>(out: &mut O, buffer: &mut Vec<u8>, number: usize) -> Result<(), Failed>
    requires { O.writer.has_failed out.old ≡ false }
    ensures moved { OnOk result (IsMoved (O.writer.contents out.old) (O.writer.contents out.new) (buffer.old.items ++ decimal number) buffer.new.items) }
    ensures part { OnErr result (IsFrontMoved (O.writer.contents out.old) (O.writer.contents out.new) (buffer.old.items ++ decimal number)) }
    ensures works { OnOk result (O.writer.has_failed out.new ≡ false) }
    ensures failed { OnErr result (O.writer.has_failed out.new ≡ true) }
    ensures counted { O.writer.flushes out.new ≡ O.writer.flushes out.old }
{
    if number < 10 {
        return write_digit(out, buffer, number);
    }
    write_decimal(out, buffer, number / 10)?;
    write_digit(out, buffer, number % 10)
}

/// Writes a digit.
fn write_digit<O: Sink>(out: &mut O, buffer: &mut Vec<u8>, digit: usize) -> Result<(), Failed>
    requires works { O.writer.has_failed out.old ≡ false }
    requires small { digit < 10 }
    ensures moved { OnOk result (IsMoved (O.writer.contents out.old) (O.writer.contents out.new) (buffer.old.items ++ decimal digit) buffer.new.items) }
    ensures part { OnErr result (IsFrontMoved (O.writer.contents out.old) (O.writer.contents out.new) (buffer.old.items ++ decimal digit)) }
    ensures works { OnOk result (O.writer.has_failed out.new ≡ false) }
    ensures failed { OnErr result (O.writer.has_failed out.new ≡ true) }
    ensures counted { O.writer.flushes out.new ≡ O.writer.flushes out.old }
{
    let digit = b'0' + digit as u8;
    write_buffered(out, buffer, &[digit])
}

/// Returns the words for a side, then a line, ended by one line feed.
pub(crate) fn line_of_side(alloc: Global, side: &[u8], line: &[u8]) -> Result<Vec<u8>, AllocError>
    ensures { IfOk result (λ text. text.items ≡ text_of_lines (lines_of_side side.now (line.now ∷ []))) }
{
    let mut text = Vec::new(alloc);
    push_line(&mut text, side, line)?;
    Ok(text)
}

// Adds the words for a side, a line and a line feed.
fn push_line(text: &mut Vec<u8>, side: &[u8], line: &[u8]) -> Result<(), AllocError>
    ensures { OnOk result (text.new.items ≡ text.old.items ++ ((side.now ++ line.now) ++ 10 ∷ [])) }
{
    text.extend_from_slice(side)?;
    text.extend_from_slice(line)?;
    text.push(b'\n')?;
    Ok(())
}
