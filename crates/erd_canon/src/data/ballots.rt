//! The ballots of a report as data.
ghost use Rattle.std.specs.Prelude.{ℕ, ◌≡◌, List, string_bytes, IfErr, IfOk, None, option_copied};
ghost use Rattle.erd_canon.specs.BallotAnswers.{IsBallotsData, IsReportTold};
ghost use Rattle.erd_canon.specs.Words.{view, IsShallow, IsTreeOf, RefusedAs};
ghost use Rattle.erd_canon.specs.code.BallotForms.{form_text};

use crate::bytes::acceptance::Input;
use crate::bytes::refusal::Refusal;
use crate::data::check::{Answer, refused};
use crate::engines::outcome::Outcome;
use erd_meaning::{Report, accept_with};
use erd_shown::{ballot_text, ballots_lines, ballots_text};
use serde_json::Value;
use std::alloc::{AllocError, Global};

/// What a caller asks of the ballots of a report.
#[derive(Clone, Copy, Debug, PartialEq, Eq)]
pub enum BallotsAsked {
    /// The heads of all ballots, in the rising order of the keys of their styles.
    Heads,
    /// The ballot of the style at a position, as a head tells it.
    Ballot(usize),
}

/// In which form the ballots of a report are told.
#[derive(Clone, Copy)]
pub(crate) enum BallotForm {
    /// What is asked of them, as JSON.
    Json(BallotsAsked),
    /// A line for each.
    Lines,
}

/// Tells what is asked of the ballots of the bytes of a report under a preferred type of identifier, or under none, and answers
/// with a JSON text.
///
/// If the report is accepted, the text is what `erd_shown::ballots_text` or `ballot_text` returns of it. Otherwise it is what
/// `check_data_with` answers. docs/API.md describes the values.
///
/// # Errors
///
/// `AllocError` if out of memory.
///
/// ```
/// let answer = ballots_data_with(alloc, one, Some("fips"), BallotsAsked::Heads)?;
/// assert_eq!(rt; answer.text.as_str(), HEADS);
/// ```
pub fn ballots_data_with(
    alloc: Global,
    bytes: &[u8],
    prefer: Option<&str>,
    asked: BallotsAsked,
) -> Result<Answer, AllocError>
    ensures { IfOk result (λ answer. IsBallotsData asked (option_copied prefer.entry) bytes.now answer.outcome (string_bytes answer.text)) }
{
    match ballots_of(alloc, bytes, prefer, BallotForm::Json(asked)) {
        Ok(text) => Ok(Answer {
            outcome: Outcome::Good,
            text,
        }),
        Err(refusal) => refused(alloc, &refusal),
    }
}

/// Returns the ballots of the bytes in a form, or why the bytes are refused.
pub(crate) fn ballots_of(
    alloc: Global,
    bytes: &[u8],
    prefer: Option<&str>,
    form: BallotForm,
) -> Result<String, Refusal>
    ensures told { IfOk result (λ text. IsReportTold (form_text form) (option_copied prefer.entry) bytes.now (string_bytes text)) }
    ensures refused { IfErr result (RefusedAs (option_copied prefer.entry) bytes.now) }
{
    let tree = bytes.into_tree(alloc)?;
    ballots_in(alloc, &tree, prefer, form)
}

/// Returns the ballots of the tree of a report in a form, or why it is refused.
fn ballots_in(
    alloc: Global,
    tree: &Value,
    prefer: Option<&str>,
    form: BallotForm,
) -> Result<String, Refusal>
    requires nests { IsShallow (view tree.now) }
    ensures told { IfOk result (λ text. (b : List ℕ) → IsTreeOf b (view tree.now) → IsReportTold (form_text form) (option_copied prefer.entry)
        b (string_bytes text)) }
    ensures refused { IfErr result (λ refusal. (b : List ℕ) → IsTreeOf b (view tree.now) → RefusedAs (option_copied prefer.entry) b refusal) }
{
    let report = accept_with(alloc, tree, prefer)?;
    match text_in(alloc, &report, form) {
        Ok(text) => Ok(text),
        Err(_) => Err(Refusal::Memory),
    }
}

/// Returns the ballots of an accepted report in a form.
fn text_in(alloc: Global, report: &Report, form: BallotForm) -> Result<String, AllocError>
    ensures { IfOk result (λ text. string_bytes text ≡ form_text form report.now.prefer (view report.now.tree)) }
{
    match form {
        BallotForm::Json(BallotsAsked::Heads) => ballots_text(alloc, report),
        BallotForm::Json(BallotsAsked::Ballot(position)) => ballot_text(alloc, report, position),
        BallotForm::Lines => ballots_lines(alloc, report),
    }
}
