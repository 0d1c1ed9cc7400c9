//! Numbers whose texts change because the file is read and written again.
ghost use Rattle.std.specs.Prelude.{◌≡◌, ◌<◌, ◌≤◌, ◌+◌, IfOk, MatchOption, OnOk, drop, false, length, string_bytes};
ghost use Rattle.std.specs.List.{prefix_len};
ghost use Rattle.serde_json.specs.View.{number_view};
ghost use Rattle.erd_prepare.specs.Numbers.{AreChangedNumbers, IsChanged, IsUnchanged, IsWritten, begins_number, is_in_number, piece_length, string_length};
ghost use Rattle.erd_prepare.specs.code.Scanning.{IsLineAt, IsNumberAdded};

use crate::changed_number::ChangedNumber;
use ryu::Buffer;
use serde_json::{Number, Value};
use std::alloc::{AllocError, Global};
use std::str;

/// Returns the numbers of a JSON text that are written otherwise once `serde_json` has read them, as `1.50`, which becomes `1.5`,
/// in the order of the text.
///
/// # Errors
///
/// `AllocError` if out of memory.
pub fn changed_numbers(alloc: Global, file: &[u8]) -> Result<Vec<ChangedNumber>, AllocError>
    ensures { IfOk result (λ told. AreChangedNumbers file.now told.items) }
{
    let mut told = Vec::new(alloc);
    let mut line = Line {
        number: 1,
        start: 0,
    };
    let mut at = 0;
    while at < file.len() {
        let end = piece_end(file, at);
        if begins_number(file[at]) {
            let column = at + 1 - line.start;
            tell_number(alloc, &file[at..end], line.number, column, &mut told)?;
        }
        line = line_after(file, at, end, line);
        at = end;
    }
    Ok(told)
}

/// A line of a file: its number, counted from 1, and the position of its first byte.
#[derive(Clone, Copy)]
struct Line {
    number: usize,
    start: usize,
}

/// Returns whether a number may begin by this byte.
fn begins_number(byte: u8) -> bool
    ensures { result ≡ begins_number byte }
{
    byte.is_ascii_digit() || byte == b'-'
}

/// Returns whether this byte may stand in a number.
fn is_in_number(byte: u8) -> bool
    ensures { result ≡ is_in_number byte }
{
    begins_number(byte) || byte == b'+' || byte == b'.' || byte == b'e' || byte == b'E'
}

/// Returns the end of the string, the number or the single byte that begins here.
fn piece_end(file: &[u8], at: usize) -> usize
    requires { at < length file.now }
    ensures end { result ≡ at + piece_length (drop at file.now) }
    ensures forward { at < result }
    ensures within { result ≤ length file.now }
{
    if file[at] == b'"' {
        string_end(file, at + 1)
    } else if begins_number(file[at]) {
        number_end(file, at)
    } else {
        at + 1
    }
}

/// Returns the end of the string whose first quote stands before this position.
fn string_end(file: &[u8], from: usize) -> usize
    requires { from ≤ length file.now }
    ensures end { result ≡ from + string_length false (drop from file.now) }
    ensures within { result ≤ length file.now }
{
    let mut is_escaped = false;
    for at in from..file.len() {
        if is_escaped {
            is_escaped = false;
        } else if file[at] == b'"' {
            return at + 1;
        } else {
            is_escaped = file[at] == b'\\';
        }
    }
    file.len()
}

/// Returns the end of the bytes from this position on that may stand in a number.
fn number_end(file: &[u8], from: usize) -> usize
    requires { from ≤ length file.now }
    ensures end { result ≡ from + prefix_len is_in_number (drop from file.now) }
    ensures within { result ≤ length file.now }
{
    for at in from..file.len() {
        if !is_in_number(file[at]) {
            return at;
        }
    }
    file.len()
}

/// Returns the line of the byte at `to`, given that of the byte at `from`.
fn line_after(file: &[u8], from: usize, to: usize, line: Line) -> Line
    requires line { IsLineAt file.now from line }
    requires forward { from ≤ to }
    requires within { to ≤ length file.now }
    ensures { IsLineAt file.now to result }
{
    let mut line = line;
    for at in from..to {
        if file[at] == b'\n' {
            line = Line {
                number: line.number + 1,
                start: at + 1,
            };
        }
    }
    line
}

/// Tells a number that is written otherwise.
fn tell_number(
    alloc: Global,
    token: &[u8],
    line: usize,
    column: usize,
    told: &mut Vec<ChangedNumber>,
) -> Result<(), AllocError>
    ensures { OnOk result (IsNumberAdded token.now line column told.old.items told.new.items) }
{
    if let Some((before, after)) = rewritten(alloc, token)? {
        told.push(ChangedNumber {
            line,
            column,
            before,
            after,
        })?;
    }
    Ok(())
}

/// Returns the text of a number, and the text that it gets, if that is another one.
fn rewritten(alloc: Global, token: &[u8]) -> Result<Option<(String, String)>, AllocError>
    ensures { IfOk result (λ it. MatchOption it (IsUnchanged token.now)
        (λ texts. (string_bytes texts.0 ≡ token.now) × IsChanged token.now (string_bytes texts.1))) }
{
    let Ok(text) = str::from_utf8(token) else {
        return Ok(None);
    };
    match Value::from_str(alloc, text) {
        Ok(Value::Number(number)) => {
            let after = number_text(alloc, &number)?;
            if after.as_str() == text {
                return Ok(None);
            }
            Ok(Some((String::from_str(alloc, text)?, after)))
        }
        Err(error) if error.is_memory() => Err(AllocError),
        Ok(_) | Err(_) => Ok(None),
    }
}

/// Returns the text by which a number is written.
fn number_text(alloc: Global, number: &Number) -> Result<String, AllocError>
    ensures { IfOk result (λ text. IsWritten (number_view number.now) (string_bytes text)) }
{
    match number.as_f64() {
        Some(float) if number.is_f64() => {
            String::from_str(alloc, Buffer::new().format_finite_with_plus(float))
        }
        _ => Value::Number(*number).to_string(alloc),
    }
}
