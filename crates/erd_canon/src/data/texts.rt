//! The calls that answer with a piece of a list as lines, as the engines write them.

ghost use Rattle.std.specs.Prelude.{◌≡◌, [], ◌∷◌, map, codes, IfOk, option_copied};
ghost use Rattle.erd_canon.specs.Words.{listing_outcome, comparison_line, lines_of_side, text_of_lines, IsCheckLines, IsCompareLines, IsFormLines};
ghost use Rattle.erd_canon.specs.Words.{IsFoundLines, IsListLines, TellsNone, comparison_outcome};
ghost use Rattle.erd_canon.specs.code.Fronts.{TellsLinesAs};
ghost use Rattle.erd_canon.specs.code.SideRefusals.{OnSide};

use crate::bytes::acceptance::check_bytes_with;
use crate::bytes::canonical::canonical_with;
use crate::bytes::comparison::compare_bytes_with;
use crate::bytes::differences::differences_of;
use crate::bytes::refusal::{Refusal, Side};
use crate::data::compare::outcome_of;
use crate::data::listed::push_entries;
use crate::data::notation::Notation;
use crate::data::piece::{Piece, PieceAnswer, Told};
use crate::engines::lines::line_of_side;
use crate::engines::outcome::Outcome;
use erd_compare::{DetailedDifference, Difference};
use std::alloc::{AllocError, Global};

/// Checks the bytes of a report, as `check_bytes_with` does, and answers with the text that `run_check_with` writes: the line
/// `accepted`, or a line for each fault, or the line `not JSON`. Of the faults it has those of a piece.
///
/// # Errors
///
/// `AllocError` if out of memory.
///
/// ```
/// let piece = Piece {
///     first: 1,
///     most: 1_000,
///     enough_bytes: 1_048_576,
/// };
/// let answer = check_text_piece(alloc, BARE.as_bytes(), None, &piece)?;
/// assert_eq!(rt; answer.text.as_slice(), ": missing member Status\n".as_bytes());
/// assert!(rt; answer.told.count == 1 && answer.told.all == 2);
/// ```
pub fn check_text_piece(
    alloc: Global,
    bytes: &[u8],
    prefer: Option<&str>,
    piece: &Piece,
) -> Result<PieceAnswer, AllocError>
    ensures { IfOk result (λ answer. IsCheckLines (option_copied prefer.entry) bytes.now piece.now answer.outcome answer.told answer.text.items) }
{
    match check_bytes_with(alloc, bytes, prefer) {
        Ok(()) => one_line(alloc, Outcome::Good, "", "accepted"),
        Err(refusal) => refused(alloc, "", &refusal, piece),
    }
}

/// Canonicalises the bytes of a report, as `canonical_with` does. The text is the canonical form of an accepted report, and
/// otherwise what `check_text_piece` answers.
///
/// # Errors
///
/// `AllocError` if out of memory.
///
/// ```
/// let piece = Piece {
///     first: 0,
///     most: 1_000,
///     enough_bytes: 1_048_576,
/// };
/// let answer = canonical_text_piece(alloc, "{".as_bytes(), None, &piece)?;
/// assert_eq!(rt; answer.text.as_slice(), "not JSON\n".as_bytes());
/// ```
pub fn canonical_text_piece(
    alloc: Global,
    bytes: &[u8],
    prefer: Option<&str>,
    piece: &Piece,
) -> Result<PieceAnswer, AllocError>
    ensures { IfOk result (λ answer. IsFormLines (option_copied prefer.entry) bytes.now piece.now answer.outcome answer.told answer.text.items) }
{
    match canonical_with(alloc, bytes, prefer) {
        Ok(text) => Ok(PieceAnswer {
            outcome: Outcome::Good,
            text,
            told: Told::none(),
        }),
        Err(refusal) => refused(alloc, "", &refusal, piece),
    }
}

/// Compares the bytes of two reports, as `compare_bytes_with` does, and answers with the text that `run_compare_with` writes. If
/// one is refused, the answer has a piece of its list of faults.
///
/// # Errors
///
/// `AllocError` if out of memory.
///
/// ```
/// let piece = Piece {
///     first: 0,
///     most: 1,
///     enough_bytes: 1_048_576,
/// };
/// let answer = compare_text_piece(alloc, BARE.as_bytes(), one, None, &piece)?;
/// assert_eq!(rt; answer.text.as_slice(), "left: : missing member Election\n".as_bytes());
/// assert!(rt; answer.told.count == 1 && answer.told.all == 2);
/// ```
pub fn compare_text_piece(
    alloc: Global,
    left: &[u8],
    right: &[u8],
    prefer: Option<&str>,
    piece: &Piece,
) -> Result<PieceAnswer, AllocError>
    ensures { IfOk result (λ answer. IsCompareLines (option_copied prefer.entry) left.now right.now piece.now answer.outcome answer.told answer.text.items) }
{
    match compare_bytes_with(alloc, left, right, prefer) {
        Ok(found) => compared(alloc, &found),
        Err(side) => refused_side(alloc, &side, piece),
    }
}

/// Lists the differences of the bytes of two reports, as `differences_data_with` does, and answers with a line for each of a
/// piece of them, or with the line `same` if there are none. If a report is refused, the text is what `compare_text_piece`
/// answers.
///
/// # Errors
///
/// `AllocError` if out of memory.
///
/// ```
/// let piece = Piece {
///     first: 0,
///     most: 1_000,
///     enough_bytes: 1_048_576,
/// };
/// let answer = differences_text_piece(alloc, one, other, None, &piece)?;
/// assert_eq!(rt; answer.text.as_slice(), "election: member \"Name\"\n".as_bytes());
/// assert!(rt; answer.outcome.status() == 1 && answer.told.all == 1);
/// ```
pub fn differences_text_piece(
    alloc: Global,
    left: &[u8],
    right: &[u8],
    prefer: Option<&str>,
    piece: &Piece,
) -> Result<PieceAnswer, AllocError>
    ensures { IfOk result (λ answer. IsListLines (option_copied prefer.entry) left.now right.now piece.now answer.outcome answer.told answer.text.items) }
{
    // no line tells what differs inside selections
    match differences_of(alloc, left, right, prefer, usize::MAX, 0) {
        Ok(found) => listed(alloc, &found, piece),
        Err(side) => refused_side(alloc, &side, piece),
    }
}

/// Returns the answer for two accepted reports with this first difference, or with none.
fn compared(alloc: Global, found: &Option<Difference>) -> Result<PieceAnswer, AllocError>
    ensures outcome { IfOk result (λ answer. answer.outcome ≡ comparison_outcome found.now) }
    ensures text { IfOk result (λ answer. answer.text.items ≡ text_of_lines (comparison_line found.now ∷ [])) }
    ensures told { IfOk result (λ answer. TellsNone answer.told) }
{
    match found {
        None => one_line(alloc, Outcome::Good, "", "same"),
        Some(difference) => {
            let line = difference.line(alloc)?;
            one_line(alloc, Outcome::Bad, "", line.as_str())
        }
    }
}

/// Returns the answer for two accepted reports with these differences.
fn listed(
    alloc: Global,
    found: &[DetailedDifference],
    piece: &Piece,
) -> Result<PieceAnswer, AllocError>
    ensures outcome { IfOk result (λ answer. answer.outcome ≡ listing_outcome found.now) }
    ensures text { IfOk result (λ answer. IsFoundLines piece.now (map (λ d. d.difference) found.now) answer.told answer.text.items) }
{
    if found.is_empty() {
        return one_line(alloc, Outcome::Good, "", "same");
    }
    let mut text = String::new(alloc);
    let count = push_entries(alloc, &Notation::Lines(""), found.iter(), piece, &mut text)?;
    Ok(PieceAnswer {
        outcome: outcome_of(found),
        text: text.into_bytes(),
        told: Told {
            count,
            all: found.len(),
        },
    })
}

/// Returns the answer if the report on one side is refused.
fn refused_side(alloc: Global, side: &Side, piece: &Piece) -> Result<PieceAnswer, AllocError>
    ensures { IfOk result (λ answer. OnSide (codes "left: ") (codes "right: ") (TellsLinesAs piece.now answer.outcome answer.told answer.text.items) side.now) }
{
    match side {
        Side::Left(refusal) => refused(alloc, "left: ", refusal, piece),
        Side::Right(refusal) => refused(alloc, "right: ", refusal, piece),
        Side::Memory => Err(AllocError),
    }
}

/// Returns the answer for a report that is refused. Each line has these words in front.
fn refused(
    alloc: Global,
    side: &str,
    refusal: &Refusal,
    piece: &Piece,
) -> Result<PieceAnswer, AllocError>
    ensures { IfOk result (λ answer. TellsLinesAs piece.now answer.outcome answer.told answer.text.items side.now refusal.now) }
{
    match refusal {
        Refusal::Faults(faults) => {
            let mut text = String::new(alloc);
            let count = push_entries(
                alloc,
                &Notation::Lines(side),
                faults.iter(),
                piece,
                &mut text,
            )?;
            Ok(PieceAnswer {
                outcome: Outcome::Bad,
                text: text.into_bytes(),
                told: Told {
                    count,
                    all: faults.len(),
                },
            })
        }
        Refusal::NotJson => one_line(alloc, Outcome::NotJson, side, "not JSON"),
        Refusal::Memory => Err(AllocError),
    }
}

/// Returns the answer that is one line, with these words in front of it, and no list.
fn one_line(
    alloc: Global,
    outcome: Outcome,
    side: &str,
    line: &str,
) -> Result<PieceAnswer, AllocError>
    ensures outcome { IfOk result (λ answer. answer.outcome ≡ outcome) }
    ensures text { IfOk result (λ answer. answer.text.items ≡ text_of_lines (lines_of_side side.now (line.now ∷ []))) }
    ensures told { IfOk result (λ answer. TellsNone answer.told) }
{
    Ok(PieceAnswer {
        outcome,
        text: line_of_side(alloc, side.as_bytes(), line.as_bytes())?,
        told: Told::none(),
    })
}
