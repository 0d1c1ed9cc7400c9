ghost use Rattle.std.specs.Prelude.{◌≡◌, string_bytes, IfOk, option_copied};
ghost use Rattle.erd_canon.specs.Words.{listing_outcome, detailed_data, IsCheckPiece, IsComparePiece, IsFormPiece, IsListPiece, IsPieceData, IsPieceText};
ghost use Rattle.erd_canon.specs.code.Fronts.{TellsPieceAs};
ghost use Rattle.erd_canon.specs.code.RefusalData.{AnswersData, AppendsData, NamesSide, TellsSideAs};

use crate::bytes::acceptance::check_bytes_with;
use crate::bytes::canonical::canonical_with;
use crate::bytes::comparison::compare_bytes_with;
use crate::bytes::differences::differences_of;
use crate::bytes::refusal::{Refusal, Side};
use crate::data::check::accepted;
use crate::data::compare::{compared, outcome_of};
use crate::data::listed::push_piece;
use crate::data::piece::{Piece, PieceAnswer, Told};
use crate::data::refusals::push_string;
use crate::engines::outcome::Outcome;
use erd_compare::DetailedDifference;
use std::alloc::{AllocError, Global};

/// Checks the bytes of a report, as `check_data_with` does, and answers with a piece of the list of faults.
///
/// # Errors
///
/// `AllocError` if out of memory.
///
/// ```
/// let piece = Piece {
///     first: 1,
///     most: 1_000,
///     enough_bytes: 1_048_576,
/// };
/// let answer = check_data_piece(alloc, BARE.as_bytes(), None, &piece)?;
/// let fault = r#"[{"name":"Status","place":[],"reason":2}]"#;
/// assert_eq!(rt; answer.text.as_slice(), fault.as_bytes());
/// assert!(rt; answer.told.count == 1 && answer.told.all == 2);
/// ```
pub fn check_data_piece(
    alloc: Global,
    bytes: &[u8],
    prefer: Option<&str>,
    piece: &Piece,
) -> Result<PieceAnswer, AllocError>
    ensures { IfOk result (λ answer. IsPieceText (IsCheckPiece (option_copied prefer.entry) bytes.now piece.now answer.outcome) answer.told answer.text.items) }
{
    match check_bytes_with(alloc, bytes, prefer) {
        Ok(()) => Ok(PieceAnswer::without_list(accepted(alloc)?)),
        Err(refusal) => refused(alloc, &refusal, piece),
    }
}

/// Canonicalises the bytes of a report, as `canonical_with` does. The text is the canonical form of an accepted report, and
/// otherwise what `check_data_piece` answers.
///
/// # Errors
///
/// `AllocError` if out of memory.
///
/// ```
/// let piece = Piece {
///     first: 0,
///     most: 1_000,
///     enough_bytes: 1_048_576,
/// };
/// let answer = canonical_data_piece(alloc, "{".as_bytes(), None, &piece)?;
/// assert_eq!(rt; answer.text.as_slice(), "\"not JSON\"".as_bytes());
/// ```
pub fn canonical_data_piece(
    alloc: Global,
    bytes: &[u8],
    prefer: Option<&str>,
    piece: &Piece,
) -> Result<PieceAnswer, AllocError>
    ensures { IfOk result (λ answer. IsFormPiece (option_copied prefer.entry) bytes.now piece.now answer.outcome answer.told answer.text.items) }
{
    match canonical_with(alloc, bytes, prefer) {
        Ok(text) => Ok(PieceAnswer {
            outcome: Outcome::Good,
            text,
            told: Told::none(),
        }),
        Err(refusal) => refused(alloc, &refusal, piece),
    }
}

/// Compares the bytes of two reports, as `compare_data_with` does. If one is refused, the answer has a piece of its list of
/// faults.
///
/// # Errors
///
/// `AllocError` if out of memory.
///
/// ```
/// let piece = Piece {
///     first: 0,
///     most: 1,
///     enough_bytes: 1_048_576,
/// };
/// let answer = compare_data_piece(alloc, BARE.as_bytes(), one, None, &piece)?;
/// let why = r#"{"faults":[{"name":"Election","place":[],"reason":2}],"refused":"left"}"#;
/// assert_eq!(rt; answer.text.as_slice(), why.as_bytes());
/// assert!(rt; answer.told.count == 1 && answer.told.all == 2);
/// ```
pub fn compare_data_piece(
    alloc: Global,
    left: &[u8],
    right: &[u8],
    prefer: Option<&str>,
    piece: &Piece,
) -> Result<PieceAnswer, AllocError>
    ensures { IfOk result (λ answer. IsPieceText (IsComparePiece (option_copied prefer.entry) left.now right.now piece.now answer.outcome)
        answer.told answer.text.items) }
{
    match compare_bytes_with(alloc, left, right, prefer) {
        Ok(found) => Ok(PieceAnswer::without_list(compared(alloc, &found)?)),
        Err(side) => refused_side(alloc, &side, piece),
    }
}

/// Lists the differences of the bytes of two reports, as `differences_data_with` does, and answers with a piece of the list. If
/// a report is refused, it is a piece of its list of faults.
///
/// An entry has its member `selections` only as long as it fits: the texts of these, of the entries of the piece up to this one,
/// have at most `enough_bytes` bytes together.
///
/// # Errors
///
/// `AllocError` if out of memory.
///
/// ```
/// let piece = Piece {
///     first: 1,
///     most: 1_000,
///     enough_bytes: 1_048_576,
/// };
/// let answer = differences_data_piece(alloc, one, other, None, &piece)?;
/// assert_eq!(rt; answer.text.as_slice(), "[]".as_bytes());
/// assert!(rt; answer.outcome.status() == 1 && answer.told.all == 1);
/// ```
pub fn differences_data_piece(
    alloc: Global,
    left: &[u8],
    right: &[u8],
    prefer: Option<&str>,
    piece: &Piece,
) -> Result<PieceAnswer, AllocError>
    ensures { IfOk result (λ answer. IsPieceText (IsListPiece (option_copied prefer.entry) left.now right.now piece.now answer.outcome)
        answer.told answer.text.items) }
{
    match differences_of(alloc, left, right, prefer, piece.first, piece.enough_bytes) {
        Ok(found) => listed(alloc, &found, piece),
        Err(side) => refused_side(alloc, &side, piece),
    }
}

/// Returns the answer for two accepted reports with these differences.
fn listed(
    alloc: Global,
    found: &[DetailedDifference],
    piece: &Piece,
) -> Result<PieceAnswer, AllocError>
    ensures outcome { IfOk result (λ answer. answer.outcome ≡ listing_outcome found.now) }
    ensures text { IfOk result (λ answer. IsPieceText (IsPieceData detailed_data piece.now found.now) answer.told answer.text.items) }
{
    let mut text = String::new(alloc);
    let count = push_piece(alloc, found.iter(), piece, &mut text)?;
    Ok(PieceAnswer {
        outcome: outcome_of(found),
        text: text.into_bytes(),
        told: Told {
            count,
            all: found.len(),
        },
    })
}

/// Returns the answer for a report that is refused.
pub(crate) fn refused(
    alloc: Global,
    refusal: &Refusal,
    piece: &Piece,
) -> Result<PieceAnswer, AllocError>
    ensures { IfOk result (λ answer. AnswersData (TellsPieceAs piece.now answer.outcome answer.told refusal.now) answer.text.items) }
{
    let mut text = String::new(alloc);
    let (outcome, told) = push_refusal_piece(alloc, refusal, piece, &mut text)?;
    Ok(PieceAnswer {
        outcome,
        text: text.into_bytes(),
        told,
    })
}

/// Returns the answer if the report on one side is refused.
pub(crate) fn refused_side(
    alloc: Global,
    side: &Side,
    piece: &Piece,
) -> Result<PieceAnswer, AllocError>
    ensures { IfOk result (λ answer. AnswersData (TellsSideAs (TellsPieceAs piece.now answer.outcome answer.told) side.now) answer.text.items) }
{
    match side {
        Side::Left(refusal) => named(alloc, "left", refusal, piece),
        Side::Right(refusal) => named(alloc, "right", refusal, piece),
        Side::Memory => Err(AllocError),
    }
}

/// Returns the answer that names a side and says why its report is refused.
fn named(
    alloc: Global,
    side: &str,
    refusal: &Refusal,
    piece: &Piece,
) -> Result<PieceAnswer, AllocError>
    ensures { IfOk result (λ answer. AnswersData (NamesSide side.now (TellsPieceAs piece.now answer.outcome answer.told refusal.now)) answer.text.items) }
{
    let mut text = String::from_str(alloc, "{\"faults\":")?;
    let (outcome, told) = push_refusal_piece(alloc, refusal, piece, &mut text)?;
    text.push_str(",\"refused\":")?;
    push_string(alloc, side, &mut text)?;
    text.push_str("}")?;
    Ok(PieceAnswer {
        outcome,
        text: text.into_bytes(),
        told,
    })
}

/// Appends the JSON value that says why bytes are refused, with a piece of the faults, and returns the outcome and what is told
/// of the list.
fn push_refusal_piece(
    alloc: Global,
    refusal: &Refusal,
    piece: &Piece,
    text: &mut String,
) -> Result<(Outcome, Told), AllocError>
    ensures { IfOk result (λ it. AppendsData (TellsPieceAs piece.now it.0 it.1 refusal.now) (string_bytes text.old) (string_bytes text.new)) }
{
    match refusal {
        Refusal::Faults(faults) => {
            let count = push_piece(alloc, faults.iter(), piece, text)?;
            let all = faults.len();
            Ok((Outcome::Bad, Told { count, all }))
        }
        Refusal::NotJson => {
            push_string(alloc, "not JSON", text)?;
            Ok((Outcome::NotJson, Told::none()))
        }
        Refusal::Memory => Err(AllocError),
    }
}
