ghost use Rattle.std.specs.Prelude.{◌≡◌, [], string_bytes, IfOk, option_copied};
ghost use Rattle.erd_canon.specs.Words.{IsCheckedData, IsDataText, faults_data};
ghost use Rattle.erd_canon.specs.code.RefusalData.{AnswersData, TellsRefusalAs};

use crate::bytes::acceptance::check_bytes_with;
use crate::bytes::refusal::Refusal;
use crate::data::refusals::push_refusal;
use crate::engines::outcome::Outcome;
use serde_json::Value;
use std::alloc::{AllocError, Global};

/// The answer of a call as data.
#[derive(Debug, Drop)]
pub struct Answer {
    /// The outcome, as that of an engine.
    pub outcome: Outcome,
    /// Compact JSON, without a line feed. docs/API.md describes its values.
    pub text: String,
}

/// Checks the bytes of a report under a preferred type of identifier, or under none, and answers with a JSON text.
///
/// The text is an empty array if the report is accepted, an array with an object for each fault, in the order of the faults, or
/// the string `not JSON`. docs/API.md describes the objects.
///
/// # Errors
///
/// `AllocError` if out of memory.
///
/// ```
/// let answer = check_data_with(alloc, BARE.as_bytes(), None)?;
/// assert_eq!(rt; answer.outcome.status(), 1);
/// assert_eq!(rt;
///     answer.text.as_str(),
///     r#"[{"name":"Election","place":[],"reason":2},{"name":"Status","place":[],"reason":2}]"#
/// );
/// ```
pub fn check_data_with(
    alloc: Global,
    bytes: &[u8],
    prefer: Option<&str>,
) -> Result<Answer, AllocError>
    ensures { IfOk result (λ answer. IsCheckedData (option_copied prefer.entry) bytes.now answer.outcome (string_bytes answer.text)) }
{
    match check_bytes_with(alloc, bytes, prefer) {
        Ok(()) => accepted(alloc),
        Err(refusal) => refused(alloc, &refusal),
    }
}

/// Returns the answer for an accepted report, which has no faults.
pub(crate) fn accepted(alloc: Global) -> Result<Answer, AllocError>
    ensures outcome { IfOk result (λ answer. answer.outcome ≡ Outcome.Good) }
    ensures text { IfOk result (λ answer. IsDataText (string_bytes answer.text) (faults_data [])) }
{
    let no_faults = Value::Array(Vec::new(alloc));
    Ok(Answer {
        outcome: Outcome::Good,
        text: no_faults.to_string(alloc)?,
    })
}

/// Returns the answer for a report that is refused.
pub(crate) fn refused(alloc: Global, refusal: &Refusal) -> Result<Answer, AllocError>
    ensures { IfOk result (λ answer. AnswersData (TellsRefusalAs answer.outcome refusal.now) (string_bytes answer.text)) }
{
    let mut text = String::new(alloc);
    let outcome = push_refusal(alloc, refusal, &mut text)?;
    Ok(Answer { outcome, text })
}
