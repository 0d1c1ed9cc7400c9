//! The lines of faults, appended to a text.

ghost use Rattle.std.specs.Prelude.{◌≡◌, ◌++◌, string_bytes, OnOk};
ghost use Rattle.erd_canon.specs.Words.{fault_line, escaped_name, pointer_text, step_text};

use crate::engines::lines::is_plain;
use erd_tables::{Fault, Place, Step};
use std::alloc::{AllocError, Global};

/// Appends the line of a fault, without a line feed. No text is made for the line alone, and a name is copied whole if it has
/// nothing to escape: so a list below a long name takes little more than its bytes.
pub(crate) fn push_fault_line(
    alloc: Global,
    fault: &Fault,
    text: &mut String,
) -> Result<(), AllocError>
    ensures { OnOk result (string_bytes text.new ≡ string_bytes text.old ++ fault_line fault.now) }
{
    push_place(alloc, &fault.place, text)?;
    text.push_str(": ")?;
    text.push_str(fault.reason.words())?;
    text.push_str(fault.reason.missing_member())
}

/// Appends the JSON Pointer of a place.
fn push_place(alloc: Global, place: &Place, text: &mut String) -> Result<(), AllocError>
    ensures { OnOk result (string_bytes text.new ≡ string_bytes text.old ++ pointer_text place.now) }
{
    for step in place.iter() {
        text.push('/')?;
        push_step(alloc, step, text)?;
    }
    Ok(())
}

/// Appends a step as a JSON Pointer has it, without the `/` in front.
fn push_step(alloc: Global, step: &Step, text: &mut String) -> Result<(), AllocError>
    ensures { OnOk result (string_bytes text.new ≡ string_bytes text.old ++ step_text step.now) }
{
    match step {
        Step::Name(name) => push_name(name.as_str(), text),
        Step::At(index) => {
            let index = format!(in alloc; "{index}")?;
            text.push_str(&index)
        }
    }
}

/// Appends a name as a JSON Pointer has it.
fn push_name(name: &str, text: &mut String) -> Result<(), AllocError>
    ensures { OnOk result (string_bytes text.new ≡ string_bytes text.old ++ escaped_name name.now) }
{
    if is_plain(name.as_bytes()) {
        return text.push_str(name);
    }
    for character in name.chars() {
        if character == '~' {
            text.push_str("~0")?;
        } else if character == '/' {
            text.push_str("~1")?;
        } else {
            text.push(character)?;
        }
    }
    Ok(())
}
