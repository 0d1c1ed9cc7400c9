ghost use Rattle.std.specs.Prelude.{◌≡◌, ◌++◌, string_bytes, IfOk, OnOk, option_copied};
ghost use Rattle.erd_canon.specs.Words.{compact_text, IsComparedData, IsDataText, IsListedData, comparison_data, comparison_outcome, differences_data};
ghost use Rattle.erd_canon.specs.Words.{listing_outcome};
ghost use Rattle.erd_canon.specs.code.RefusalData.{AnswersData, NamesSide, TellsRefusalAs, TellsSideAs};

use crate::bytes::comparison::compare_bytes_with;
use crate::bytes::differences::differences_of;
use crate::bytes::refusal::{Refusal, Side};
use crate::data::check::Answer;
use crate::data::listed::push_entry;
use crate::data::refusals::{push_refusal, push_string};
use crate::engines::outcome::Outcome;
use erd_compare::{DetailedDifference, Difference};
use serde_json::Value;
use std::alloc::{AllocError, Global};

/// Compares the bytes of two reports under a preferred type of identifier, or under none, and answers with a JSON text.
///
/// The text is `null` if the reports mean the same, or an object for their first difference. If the left report is refused, or
/// else if the right one is, the text is an object with the side and the value that `check_data_with` answers for that report.
/// docs/API.md describes the objects.
///
/// # Errors
///
/// `AllocError` if out of memory.
///
/// ```
/// let answer = compare_data_with(alloc, one, other, None)?;
/// assert_eq!(rt;
///     answer.text.as_str(),
///     r#"{"how":"member","key":null,"member":"Name","part":"election"}"#
/// );
/// ```
pub fn compare_data_with(
    alloc: Global,
    left: &[u8],
    right: &[u8],
    prefer: Option<&str>,
) -> Result<Answer, AllocError>
    ensures { IfOk result (λ answer. IsComparedData (option_copied prefer.entry) left.now right.now answer.outcome (string_bytes answer.text)) }
{
    match compare_bytes_with(alloc, left, right, prefer) {
        Ok(found) => compared(alloc, &found),
        Err(side) => refused_side(alloc, &side),
    }
}

/// Returns the answer for two accepted reports with this first difference, or with none.
pub(crate) fn compared(alloc: Global, found: &Option<Difference>) -> Result<Answer, AllocError>
    ensures outcome { IfOk result (λ answer. answer.outcome ≡ comparison_outcome found.now) }
    ensures text { IfOk result (λ answer. IsDataText (string_bytes answer.text) (comparison_data found.now)) }
{
    match found {
        None => Ok(Answer {
            outcome: Outcome::Good,
            text: Value::Null.to_string(alloc)?,
        }),
        Some(difference) => Ok(Answer {
            outcome: Outcome::Bad,
            text: difference.to_value(alloc)?.to_string(alloc)?,
        }),
    }
}

/// Returns the answer if the report on one side is refused.
pub(crate) fn refused_side(alloc: Global, side: &Side) -> Result<Answer, AllocError>
    ensures { IfOk result (λ answer. AnswersData (TellsSideAs (TellsRefusalAs answer.outcome) side.now) (string_bytes answer.text)) }
{
    match side {
        Side::Left(refusal) => named(alloc, "left", refusal),
        Side::Right(refusal) => named(alloc, "right", refusal),
        Side::Memory => Err(AllocError),
    }
}

/// Returns the answer that names a side and says why its report is refused.
fn named(alloc: Global, side: &str, refusal: &Refusal) -> Result<Answer, AllocError>
    ensures { IfOk result (λ answer. AnswersData (NamesSide side.now (TellsRefusalAs answer.outcome refusal.now)) (string_bytes answer.text)) }
{
    let mut text = String::from_str(alloc, "{\"faults\":")?;
    let outcome = push_refusal(alloc, refusal, &mut text)?;
    text.push_str(",\"refused\":")?;
    push_string(alloc, side, &mut text)?;
    text.push_str("}")?;
    Ok(Answer { outcome, text })
}

/// Lists the differences of the bytes of two reports under a preferred type of identifier, or under none, and answers with a
/// JSON text.
///
/// The text is an array with an object for each difference, in rising order, which is empty if the reports mean the same. The
/// objects are those of `compare_data_with`, and the first is the one that it answers. The object of a difference in the
/// selections of a contest has what differs inside them too, in a member `selections`. If a report is refused, the text is what
/// `compare_data_with` answers. docs/API.md describes the objects.
///
/// A name of a selection has its keys in full, so the text can be as long as the square of the reports. `differences_data_piece`
/// bounds it.
///
/// # Errors
///
/// `AllocError` if out of memory.
///
/// ```
/// let answer = differences_data_with(alloc, one, other, None)?;
/// assert_eq!(rt;
///     answer.text.as_str(),
///     r#"[{"how":"member","key":null,"member":"Name","part":"election"}]"#
/// );
/// ```
pub fn differences_data_with(
    alloc: Global,
    left: &[u8],
    right: &[u8],
    prefer: Option<&str>,
) -> Result<Answer, AllocError>
    ensures { IfOk result (λ answer. IsListedData (option_copied prefer.entry) left.now right.now answer.outcome (string_bytes answer.text)) }
{
    match differences_of(alloc, left, right, prefer, 0, usize::MAX) {
        Ok(found) => listed(alloc, &found),
        Err(side) => refused_side(alloc, &side),
    }
}

/// Returns the answer for two accepted reports with these differences.
fn listed(alloc: Global, found: &[DetailedDifference]) -> Result<Answer, AllocError>
    ensures outcome { IfOk result (λ answer. answer.outcome ≡ listing_outcome found.now) }
    ensures text { IfOk result (λ answer. IsDataText (string_bytes answer.text) (differences_data found.now)) }
{
    let mut text = String::new(alloc);
    push_differences(alloc, found, &mut text)?;
    let outcome = outcome_of(found);
    Ok(Answer { outcome, text })
}

/// Returns the outcome for two accepted reports with these differences.
pub(crate) fn outcome_of(found: &[DetailedDifference]) -> Outcome
    ensures { result ≡ listing_outcome found.now }
{
    match found.first() {
        Some(_) => Outcome::Bad,
        None => Outcome::Good,
    }
}

/// Appends the JSON array of the differences. Only the text of the array and the JSON value of one difference are in memory at a
/// time.
fn push_differences(
    alloc: Global,
    found: &[DetailedDifference],
    text: &mut String,
) -> Result<(), AllocError>
    ensures { OnOk result (string_bytes text.new ≡ string_bytes text.old ++ compact_text (differences_data found.now)) }
{
    text.push('[')?;
    let mut later = false;
    for difference in found {
        push_entry(alloc, later, difference, text)?;
        later = true;
    }
    text.push(']')
}
