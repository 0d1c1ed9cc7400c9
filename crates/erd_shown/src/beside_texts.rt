ghost use Rattle.std.specs.Prelude.{option_map, string_bytes, IfOk, OnOk};
ghost use Rattle.serde_json.specs.View.{view};
ghost use Rattle.erd_shown.specs.RowData.{IsBesideText, style_in};
ghost use Rattle.erd_shown.specs.code.BesideWritten.{WritesBesideIf};

use crate::ballots_beside::write_ballots_beside;
use crate::texts::text_of;
use erd_meaning::Report;
use erd_tables::Family;
use erd_text::Output;
use serde_json::Value;
use std::alloc::{AllocError, Global};

/// Returns the ballots of the styles at two positions beside each other, as compact JSON: what `write_ballots_beside` writes of
/// them. Returns `null` if there is no such style in one of the reports.
///
/// # Errors
///
/// `AllocError` if out of memory.
///
/// ```
/// let text = ballots_beside_text(alloc, left, 0, right, 0)?;
/// assert_eq!(rt; text.as_str(), BESIDE);
/// ```
pub fn ballots_beside_text(
    alloc: Global,
    left: &Report,
    one: usize,
    right: &Report,
    other: usize,
) -> Result<String, AllocError>
    ensures { IfOk result (λ text. IsBesideText left.now.prefer (view left.now.tree) one right.now.prefer (view right.now.tree) other (string_bytes text)) }
{
    let mut out = Output::new(alloc);
    write_beside_at(alloc, left, one, right, other, &mut out)?;
    text_of(out)
}

/// Writes the ballots of the styles at two positions beside each other, or null if there is no such style on a side.
fn write_beside_at(
    alloc: Global,
    left: &Report,
    one: usize,
    right: &Report,
    other: usize,
    out: &mut Output,
) -> Result<(), AllocError>
    ensures { OnOk result (WritesBesideIf left.now.prefer (view left.now.tree) (style_in (view left.now.tree) one) right.now.prefer (view right.now.tree)
        (style_in (view right.now.tree) other) out.old out.new) }
{
    let one = left.object(Family::Style, one);
    let other = right.object(Family::Style, other);
    write_beside_if(alloc, left, one, right, other, out)
}

/// Writes the ballots of two styles beside each other, or null if one is missing.
fn write_beside_if(
    alloc: Global,
    left: &Report,
    one: Option<&Value>,
    right: &Report,
    other: Option<&Value>,
    out: &mut Output,
) -> Result<(), AllocError>
    ensures { OnOk result (WritesBesideIf left.now.prefer (view left.now.tree) (option_map (λ v. view v.now) one.entry) right.now.prefer (view right.now.tree)
        (option_map (λ v. view v.now) other.entry) out.old out.new) }
{
    match one {
        Some(one) => match other {
            Some(other) => write_ballots_beside(alloc, left, one, right, other, out),
            None => out.null(),
        },
        None => out.null(),
    }
}
