//! The ballots of two reports as data.
ghost use Rattle.std.specs.Prelude.{◌≡◌, map, string_bytes, IfErr, IfOk, option_copied};
ghost use Rattle.erd_canon.specs.BallotAnswering.{IsToldByLines};
ghost use Rattle.erd_canon.specs.BallotAnswers.{AreBothTold, IsBallotDifferencesData, IsBallotsBesideData, IsToldByJson, TellsBeside, TellsDiffering};
ghost use Rattle.erd_canon.specs.Words.{view, listing_outcome, RefusedSide};
ghost use Rattle.erd_canon.specs.code.BallotForms.{pair_tells};
ghost use Rattle.erd_shown.specs.BallotDifferences.{of_style};

use crate::bytes::comparison::{left_tree_of, right_tree_of};
use crate::bytes::refusal::{Refusal, Side};
use crate::data::check::Answer;
use crate::data::compare::refused_side;
use crate::engines::outcome::Outcome;
use erd_meaning::{Report, accept_with};
use erd_shown::{
    BallotDifference, ballot_differences_lines, ballot_differences_text, ballots_beside_text,
    differing_ballots,
};
use std::alloc::{AllocError, Global};

/// What is told of the ballots of two reports.
#[derive(Clone, Copy)]
pub(crate) enum PairForm {
    /// Which are not the same, as JSON.
    Json,
    /// Which are not the same, as lines.
    Lines,
    /// Those of the styles at two positions, beside each other, as JSON.
    Beside(usize, usize),
}

/// Tells which ballots are not the same in the bytes of two reports under a preferred type of identifier, or under none, and
/// answers with a JSON text.
///
/// If both reports are accepted, the text is what `erd_shown::ballot_differences_text` returns of `differing_ballots`, and the
/// outcome is `Outcome::Good` if and only if no ballot differs. Otherwise it is what `compare_data_with` answers. docs/API.md
/// describes the values.
///
/// # Errors
///
/// `AllocError` if out of memory.
///
/// ```
/// let answer = ballot_differences_data_with(alloc, one, one, Some("fips"))?;
/// assert_eq!(rt; answer.outcome, Outcome::Good);
/// assert_eq!(rt; answer.text.as_str(), "[]");
/// ```
pub fn ballot_differences_data_with(
    alloc: Global,
    left: &[u8],
    right: &[u8],
    prefer: Option<&str>,
) -> Result<Answer, AllocError>
    ensures { IfOk result (λ answer. IsBallotDifferencesData (option_copied prefer.entry) left.now right.now answer.outcome (string_bytes answer.text)) }
{
    match ballots_of_both(alloc, left, right, prefer, PairForm::Json) {
        Ok((outcome, text)) => Ok(Answer { outcome, text }),
        Err(side) => refused_side(alloc, &side),
    }
}

/// Tells the ballots of the styles at two positions of the bytes of two reports beside each other, under a preferred type of
/// identifier, or under none, and answers with a JSON text.
///
/// If both reports are accepted, the text is what `erd_shown::ballots_beside_text` returns, and the outcome is `Outcome::Good`.
/// Otherwise it is what `compare_data_with` answers. The positions are those that `ballot_differences_data_with` tells.
///
/// # Errors
///
/// `AllocError` if out of memory.
///
/// ```
/// let answer = ballots_beside_data_with(alloc, one, 0, one, 0, Some("fips"))?;
/// assert_eq!(rt; answer.text.as_str(), BESIDE);
/// ```
pub fn ballots_beside_data_with(
    alloc: Global,
    left: &[u8],
    one: usize,
    right: &[u8],
    other: usize,
    prefer: Option<&str>,
) -> Result<Answer, AllocError>
    ensures { IfOk result (λ answer. IsBallotsBesideData one other (option_copied prefer.entry) left.now right.now answer.outcome (string_bytes answer.text)) }
{
    match ballots_of_both(alloc, left, right, prefer, PairForm::Beside(one, other)) {
        Ok((outcome, text)) => Ok(Answer { outcome, text }),
        Err(side) => refused_side(alloc, &side),
    }
}

/// Returns what is told of the ballots of two reports in a form, with the outcome. The reports are refused for the same reasons,
/// and in the same order, as by `compare_bytes_with`.
///
/// # Errors
///
/// As `compare_bytes_with`.
pub(crate) fn ballots_of_both(
    alloc: Global,
    left: &[u8],
    right: &[u8],
    prefer: Option<&str>,
    form: PairForm,
) -> Result<(Outcome, String), Side>
    ensures told { IfOk result (λ it. AreBothTold (pair_tells form (option_copied prefer.entry)) (option_copied prefer.entry) left.now right.now
        it.0 (string_bytes it.1)) }
    ensures refused { IfErr result (RefusedSide (option_copied prefer.entry) left.now right.now) }
{
    let left_tree = left_tree_of(alloc, left)?;
    let left_report = match accept_with(alloc, &left_tree, prefer) {
        Ok(report) => report,
        Err(error) => return Err(Side::Left(Refusal::from(error))),
    };
    let right_tree = right_tree_of(alloc, right)?;
    let right_report = match accept_with(alloc, &right_tree, prefer) {
        Ok(report) => report,
        Err(error) => return Err(Side::Right(Refusal::from(error))),
    };
    match told_of_both(alloc, &left_report, &right_report, form) {
        Ok(told) => Ok(told),
        Err(_) => Err(Side::Memory),
    }
}

/// Returns what is told of the ballots of two accepted reports in a form.
fn told_of_both(
    alloc: Global,
    left: &Report,
    right: &Report,
    form: PairForm,
) -> Result<(Outcome, String), AllocError>
    requires one_preference { left.now.prefer ≡ right.now.prefer }
    ensures { IfOk result (λ it. pair_tells form left.now.prefer (view left.now.tree) (view right.now.tree) it.0 (string_bytes it.1)) }
{
    match form {
        PairForm::Json => told_as_json(alloc, left, right),
        PairForm::Lines => told_as_lines(alloc, left, right),
        PairForm::Beside(one, other) => told_beside(alloc, left, one, right, other),
    }
}

/// Returns which ballots of two accepted reports are not the same, as JSON.
fn told_as_json(
    alloc: Global,
    left: &Report,
    right: &Report,
) -> Result<(Outcome, String), AllocError>
    requires one_preference { left.now.prefer ≡ right.now.prefer }
    ensures { IfOk result (λ it. TellsDiffering IsToldByJson left.now.prefer (view left.now.tree) (view right.now.tree) it.0 (string_bytes it.1)) }
{
    let found = differing_ballots(alloc, left, right)?;
    let text = ballot_differences_text(alloc, left, right, &found)?;
    Ok((outcome_of(&found), text))
}

/// Returns which ballots of two accepted reports are not the same, as lines.
fn told_as_lines(
    alloc: Global,
    left: &Report,
    right: &Report,
) -> Result<(Outcome, String), AllocError>
    requires one_preference { left.now.prefer ≡ right.now.prefer }
    ensures { IfOk result (λ it. TellsDiffering IsToldByLines left.now.prefer (view left.now.tree) (view right.now.tree) it.0 (string_bytes it.1)) }
{
    let found = differing_ballots(alloc, left, right)?;
    let text = ballot_differences_lines(alloc, left, right, &found)?;
    Ok((outcome_of(&found), text))
}

/// Returns the ballots of the styles at two positions of two accepted reports beside each other, as JSON.
fn told_beside(
    alloc: Global,
    left: &Report,
    one: usize,
    right: &Report,
    other: usize,
) -> Result<(Outcome, String), AllocError>
    requires one_preference { left.now.prefer ≡ right.now.prefer }
    ensures { IfOk result (λ it. TellsBeside one other left.now.prefer (view left.now.tree) (view right.now.tree) it.0 (string_bytes it.1)) }
{
    let text = ballots_beside_text(alloc, left, one, right, other)?;
    Ok((Outcome::Good, text))
}

/// Returns the outcome for two accepted reports with these ballots that are not the same.
fn outcome_of(found: &[BallotDifference]) -> Outcome
    ensures { result ≡ listing_outcome (map of_style found.now) }
{
    match found.first() {
        Some(_) => Outcome::Bad,
        None => Outcome::Good,
    }
}
