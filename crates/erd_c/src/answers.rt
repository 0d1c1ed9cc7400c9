//! The engines, run on bytes: the outcome of each and the text that it writes; and the calls for data, with their texts.

ghost use Rattle.std.specs.Prelude.{◌≡◌, IfOk};
ghost use Rattle.std.specs.Option.{option_copied};
ghost use Rattle.erd_canon.specs.DataAnswers.{IsCheckedData, IsComparedData};
ghost use Rattle.erd_canon.specs.Run.{IsChecked, IsCompared};
ghost use Rattle.erd_c.specs.Told.{HasCanonicalText};

use erd_canon::{
    Outcome, ReadFrom, RunFault, WriteTo, check_data_with, compare_data_with, run_canon_with,
    run_check_with, run_compare_with,
};
use std::alloc::Global;

/// The outcome and the text, or why there are none.
pub(crate) type Answer = Result<(Outcome, Vec<u8>), RunFault>;

/// Checks the bytes of a report. Returns the outcome and the text.
pub(crate) fn checked(alloc: Global, bytes: &[u8], prefer: Option<&str>) -> Answer
    ensures { IfOk result (λ answer. IsChecked (option_copied prefer.entry) bytes.now answer.0 answer.1.items) }
{
    let mut reader = ReadFrom::of(bytes);
    let mut out = WriteTo::of(Vec::new(alloc));
    let outcome = run_check_with(alloc, &mut reader, &mut out, prefer)?;
    Ok((outcome, out.writer))
}

/// Canonicalises the bytes of a report. Returns the outcome and the text: the output for an accepted report, or else the
/// errors.
pub(crate) fn canonical(alloc: Global, bytes: &[u8], prefer: Option<&str>) -> Answer
    ensures { IfOk result (λ answer. HasCanonicalText (option_copied prefer.entry) bytes.now answer.0 answer.1.items) }
{
    let mut reader = ReadFrom::of(bytes);
    let mut out = WriteTo::of(Vec::new(alloc));
    let mut err = WriteTo::of(Vec::new(alloc));
    let outcome = run_canon_with(alloc, &mut reader, &mut out, &mut err, prefer)?;
    match outcome {
        Outcome::Good => Ok((outcome, out.writer)),
        _ => Ok((outcome, err.writer)),
    }
}

/// Compares the bytes of two reports. Returns the outcome and the text.
pub(crate) fn compared(alloc: Global, left: &[u8], right: &[u8], prefer: Option<&str>) -> Answer
    ensures { IfOk result (λ answer. IsCompared (option_copied prefer.entry) left.now right.now answer.0 answer.1.items) }
{
    let mut left = ReadFrom::of(left);
    let mut right = ReadFrom::of(right);
    let mut out = WriteTo::of(Vec::new(alloc));
    let outcome = run_compare_with(alloc, &mut left, &mut right, &mut out, prefer)?;
    Ok((outcome, out.writer))
}

/// Checks the bytes of a report. Returns the outcome and the JSON text.
pub(crate) fn checked_data(alloc: Global, bytes: &[u8], prefer: Option<&str>) -> Answer
    ensures { IfOk result (λ answer. IsCheckedData (option_copied prefer.entry) bytes.now answer.0 answer.1.items) }
{
    let answer = check_data_with(alloc, bytes, prefer)?;
    Ok((answer.outcome, answer.text.into_bytes()))
}

/// Compares the bytes of two reports. Returns the outcome and the JSON text.
pub(crate) fn compared_data(
    alloc: Global,
    left: &[u8],
    right: &[u8],
    prefer: Option<&str>,
) -> Answer
    ensures { IfOk result (λ answer. IsComparedData (option_copied prefer.entry) left.now right.now answer.0 answer.1.items) }
{
    let answer = compare_data_with(alloc, left, right, prefer)?;
    Ok((answer.outcome, answer.text.into_bytes()))
}
